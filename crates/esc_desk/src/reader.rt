//! What is read of a store by its trees, without SQL.

ghost use Rattle.std.specs.Prelude.{◌≡◌, List, length, sum_by, IfOk, IfErr};
ghost use Rattle.esc_apply.specs.ObjectStreams.{Entry};
ghost use Rattle.esc_apply.specs.Registry.{ObjectsByKey};
ghost use Rattle.esc_store.specs.Faults.{IsFailure};
ghost use Rattle.esc_store.specs.Holding.{HasReceipts};
ghost use Rattle.esc_store.specs.Reading.{IsHonestReader, IsReadOnly, ReaderRepresents};
ghost use Rattle.esc_store.specs.StoreState.{StoreState, AreCounts, AreHeld};
ghost use Rattle.esc_desk.specs.Walking.{AreAllOf, of_kinds};

use crate::pages::{Paged, Pages, begin, next_counted};
use crate::reads::Reads;
use crate::status::{End, Status, end_in, last_row, status_of};
use esc_apply::Step;
use esc_chain::latest_chain_at_is_one;
use esc_envelope::Kind;
use esc_manifest::Manifest;
use esc_store::{Cause, ParkedBody, Reply, StoreFault, StoreReader};
use esc_tables::{Key, Object};
use sqlite_trees::store::Store;
use std::alloc::Global;
use std::collections::BTreeMap;

// The rows that are held. The receipts tell which: so each of them is tested first.
#[tactic(auto, using(crate::proofs::ReaderLemmas::reads_stay))]
fn held_of<S: Store>(reader: &mut StoreReader<S>, alloc: Global) -> Result<Vec<usize>, StoreFault>
    ensures same { IsReadOnly S.Store reader.old reader.new result }
    ensures rows { IsHonestReader S.Store reader.new → (k : StoreState)
        → ReaderRepresents S.Store reader.old k → HasReceipts k
        → IfOk result (λ rows. AreHeld k.bodies rows.items) }
    ensures cause { IfErr result IsFailure }
{
    reader.receipts(alloc)?;
    reader.held(alloc)
}

// How many objects the tables have, of one kind or (`None`) of all. `S1`, `S2`.
#[tactic(auto, using(crate::proofs::ReaderLemmas::reads_stay))]
fn count_of<S: Store>(
    reader: &mut StoreReader<S>,
    alloc: Global,
    kind: Option<Kind>,
) -> Result<u64, StoreFault>
    ensures same { IsReadOnly S.Store reader.old reader.new result }
    ensures count { IsHonestReader S.Store reader.new → (k : StoreState)
        → ReaderRepresents S.Store reader.old k
        → (es : List Entry) → AreAllOf k.registry.content es
        → IfOk result (λ count. count ≡ length (of_kinds kind es)) }
    ensures cause { IfErr result IsFailure }
{
    let counts = reader.counts_by_kind(alloc)?;
    count_in(&counts, kind)
}

// The count of one kind among those of all kinds, or their sum. `S1` if that is past 2^64 - 1.
fn count_in(counts: &BTreeMap<Kind, u64>, kind: Option<Kind>) -> Result<u64, StoreFault>
    ensures count { (content : ObjectsByKey) → AreCounts content counts.now.entries
        → (es : List Entry) → AreAllOf content es
        → IfOk result (λ count. count ≡ length (of_kinds kind es)) }
    ensures cause { IfErr result IsFailure }
{
    match kind {
        Some(kind) => Ok(counts.get(&kind).copied().unwrap_or(0)),
        None => total(counts),
    }
}

// The sum of counts. `S1` if it is past 2^64 - 1.
fn total(counts: &BTreeMap<Kind, u64>) -> Result<u64, StoreFault>
    ensures sum { IfOk result (λ total. total ≡ sum_by (λ c. c.1) counts.now.entries) }
    ensures cause { IfErr result IsFailure }
{
    let mut total: u64 = 0;
    for count in counts.values() {
        total = total
            .checked_add(*count)
            .ok_or(StoreFault::Failed(Cause::TooLarge))?;
    }
    Ok(total)
}

// Each page is found by the index of keys that the files have, without SQL.
impl<S: Store> Paged for StoreReader<S> {
    ghost use Rattle.std.proofs.Common.{arith};
    ghost use Rattle.esc_desk.specs.ReaderLaws.{unwritten_stays, unwritten_then};
    ghost use Rattle.esc_desk.specs.Readers.{IsUnwrittenReader};

    ghost represents = { λ reader k. ReaderRepresents S.Store reader k };

    ghost is_honest = { λ reader. IsHonestReader S.Store reader };

    ghost follows = { λ a b. IsUnwrittenReader S.Store a b };

    fn objects_from(
        &mut self,
        alloc: Global,
        kind: Kind,
        from: &[u8],
    ) -> Result<Vec<(Key, Object)>, StoreFault> {
        self.objects_from(alloc, kind, from)
    }

    ghost stays = { λ reader. unwritten_stays };

    ghost goes_on = { λ a b c p q. unwritten_then p q };

    ghost was_honest = { λ a b p clean. Prim.omega (arith, p.unwritten.clean, clean) };
}

// Each read goes over the tables that it needs, and remembers nothing. A row is tested where it is
// read: one that no store writes gives `S1` at the reads that come to it, and at no other. After an
// `Err` nothing is said of what later reads return.
impl<S: Store> Reads for StoreReader<S> {
    ghost use Rattle.std.proofs.Common.{arith};
    ghost use Rattle.esc_desk.specs.ReaderLaws.{unwritten_stays, unwritten_then};
    ghost use Rattle.esc_desk.specs.Readers.{IsUnwrittenReader};
    ghost use Rattle.esc_desk.specs.Readers.{ReaderReflects};
    ghost use Rattle.esc_desk.specs.Walking.{AreCountedToCome, most_left};

    type Place = Pages;

    ghost reflects = { λ reader e. ReaderReflects S.Store reader e };

    ghost is_honest = { λ reader. IsHonestReader S.Store reader };

    ghost follows = { λ a b. IsUnwrittenReader S.Store a b };

    ghost lists = { λ reader pages es. AreCountedToCome
        (λ r k. ReaderRepresents S.Store r k) reader pages es };

    ghost bound = { λ pages. most_left pages };

    fn manifest(&self) -> &Manifest {
        self.manifest()
    }

    #[tactic(auto, using(crate::proofs::ReaderLemmas::reader_reads))]
    fn receipts(&mut self, alloc: Global) -> Result<Vec<Reply>, StoreFault> {
        self.receipts(alloc)
    }

    // Each receipt is read.
    #[tactic(auto, using(crate::proofs::ReaderLemmas::reader_reads))]
    fn held(&mut self, alloc: Global) -> Result<Vec<usize>, StoreFault> {
        held_of(self, alloc)
    }

    #[tactic(auto, using(crate::proofs::ReaderLemmas::reader_reads))]
    fn parked(&mut self, alloc: Global) -> Result<Vec<ParkedBody>, StoreFault> {
        self.parked(alloc)
    }

    #[tactic(auto, using(crate::proofs::ReaderLemmas::reader_reads))]
    fn moment(&mut self, alloc: Global) -> Result<Option<i64>, StoreFault> {
        self.moment(alloc)
    }

    #[tactic(auto, using(crate::proofs::ReaderLemmas::reader_reads))]
    fn chain(&mut self, alloc: Global) -> Result<Vec<Step>, StoreFault> {
        self.chain(alloc)
    }

    #[tactic(auto, using(crate::proofs::ReaderLemmas::reader_reads))]
    fn body_of(&mut self, alloc: Global, row: usize) -> Result<Option<Vec<u8>>, StoreFault> {
        self.body_of(alloc, row)
    }

    #[tactic(auto, using(crate::proofs::ReaderLemmas::reader_reads))]
    fn end(&mut self, alloc: Global) -> Result<Option<End>, StoreFault> {
        let steps = self.chain(alloc)?;
        match last_row(&steps) {
            None => Ok(None),
            Some(row) => {
                let body = self.body_of(alloc, row)?;
                let end = end_in(alloc, body)?;
                Ok(Some(end))
            }
        }
    }

    // Each step is read.
    #[tactic(auto, using(crate::proofs::ReaderLemmas::reader_reads))]
    fn status(&mut self, alloc: Global) -> Result<Status, StoreFault> {
        let receipts = self.receipt_count(alloc)?;
        let held = held_of(self, alloc)?;
        let steps = self.chain(alloc)?;
        let objects = self.counts_by_kind(alloc)?;
        let listed = self.manifest().rows().len();
        Ok(status_of(listed, receipts, &held, &steps, objects))
    }

    // No more than a page of 256 objects is held in memory. The kind of each object is read first,
    // to count them: the index of keys isn't audited here, and may lack some.
    #[tactic(auto, using(crate::proofs::ReaderLemmas::reader_reads))]
    fn start_walk(&mut self, alloc: Global, kind: Option<Kind>) -> Result<Pages, StoreFault> {
        latest_chain_at_is_one();
        // Read for the proof alone: it shows that the rows are those of an accepted manifest.
        let _rows = self.manifest().rows();
        let left = count_of(self, alloc, kind)?;
        begin(self, alloc, kind, left)
    }

    fn left(&self, place: &Pages) -> Option<u64> {
        Some(place.left)
    }

    #[tactic(auto, using(crate::proofs::ReaderLemmas::reader_reads))]
    fn walk_on(&mut self, place: &mut Pages) -> Result<Option<(Key, Object)>, StoreFault> {
        next_counted(self, place)
    }

    ghost stands_for = { λ reader e h. record { kept = h.kept; stands_for = h.stands_for } };

    ghost in_order = { λ reader pages es h. h.come.order };

    ghost stays = { λ reader. unwritten_stays };

    ghost goes_on = { λ a b c p q. unwritten_then p q };

    ghost was_honest = { λ a b p clean. Prim.omega (arith, p.unwritten.clean, clean) };
}
