//! The reads of a desk.

ghost use Rattle.std.specs.Prelude.{◌≡◌, map, All, IfOk, IfErr};
ghost use Rattle.esc_store.specs.Faults.{IsFailure};
ghost use Rattle.esc_store.specs.Parks.{IsParkedBody};
ghost use Rattle.esc_store.specs.StoreState.{StoreState};
ghost use Rattle.esc_store.specs.Representation.{Represents, IsHonest, IsAsBefore};
ghost use Rattle.esc_desk.specs.Calls.{writes_of};
ghost use Rattle.esc_desk.specs.Reads.{SaysOfBody};

use crate::caching::cache_of;
use crate::desk::Desk;
use crate::pages::{Paged, Pages, begin, next};
use crate::reads::Reads;
use crate::status::{End, Status, end_in, last_row, status_of};
use esc_apply::Step;
use esc_chain::latest_chain_at_is_one;
use esc_envelope::Kind;
use esc_events::ParkedBody;
use esc_manifest::Manifest;
use esc_store::{Cause, Reply, Store, StoreFault};
use esc_tables::{Key, Object};
use sqlite::Alter;
use std::alloc::Global;

impl<S: Alter> Desk<S> {
    /// How many objects the desk has put or removed since its store was opened. A removal counts
    /// even if there was no object. It stays at 2^64 - 1 once there. Doesn't allocate.
    pub fn writes(&self) -> u64
        ensures count { result ≡ writes_of self.now }
    {
        self.store.writes()
    }
}

// A read leaves the desk as it was, whatever it returns.
impl<S: Alter> Reads for Desk<S> {
    ghost use Rattle.std.proofs.Common.{refl};
    ghost use Rattle.esc_store.specs.StandingLaws.{as_before_then, survives_same};
    ghost use Rattle.esc_store.specs.StandingLaws.{was_honest as honest_before};
    ghost use Rattle.esc_desk.specs.Calls.{store_of, IsHonestDesk, IsUnchangedDesk};
    ghost use Rattle.esc_desk.specs.Reflection.{StoreReflects};
    ghost use Rattle.esc_desk.specs.Walking.{AreToCome, most_left};

    type Place = Pages;

    ghost reflects = { λ desk e. StoreReflects S.Store (store_of desk) e };

    ghost is_honest = { λ desk. IsHonestDesk S.Store desk };

    ghost follows = { λ a b. IsUnchangedDesk S.Store a b };

    ghost lists = { λ desk pages es. AreToCome
        (λ store k. Represents S.Store store k) (store_of desk) pages es };

    ghost bound = { λ pages. most_left pages };

    fn manifest(&self) -> &Manifest {
        self.store.manifest()
    }

    fn receipts(&mut self, alloc: Global) -> Result<Vec<Reply>, StoreFault> {
        self.store.receipts(alloc)
    }

    fn held(&mut self, alloc: Global) -> Result<Vec<usize>, StoreFault> {
        self.store.held(alloc)
    }

    fn parked(&mut self, alloc: Global) -> Result<Vec<ParkedBody>, StoreFault> {
        let digests = self.store.parked(alloc)?;
        parked_bodies(&mut self.store, alloc, &digests)
    }

    fn moment(&mut self, _alloc: Global) -> Result<Option<i64>, StoreFault> {
        self.store.moment()
    }

    fn chain(&mut self, alloc: Global) -> Result<Vec<Step>, StoreFault> {
        self.store.chain(alloc)
    }

    fn body_of(&mut self, alloc: Global, row: usize) -> Result<Option<Vec<u8>>, StoreFault> {
        self.store.body_of(alloc, row)
    }

    fn end(&mut self, alloc: Global) -> Result<Option<End>, StoreFault> {
        let steps = self.store.chain(alloc)?;
        match last_row(&steps) {
            None => Ok(None),
            Some(row) => {
                let end = stored_end(&mut self.store, alloc, row)?;
                Ok(Some(end))
            }
        }
    }

    // Only the first time after a change is the kind of each object read.
    fn status(&mut self, alloc: Global) -> Result<Status, StoreFault> {
        let receipts = self.store.receipt_count()?;
        let cache = cache_of(&mut self.store, alloc)?;
        let objects = self.store.counts_by_kind(alloc)?;
        let listed = self.store.manifest().rows().len();
        Ok(status_of(listed, receipts, &cache.held_rows, &cache.chain, objects))
    }

    // No more than a page of 256 objects is held in memory. The bound is more than a table has rows.
    fn start_walk(&mut self, alloc: Global, kind: Option<Kind>) -> Result<Pages, StoreFault> {
        latest_chain_at_is_one();
        // Read for the proof alone: it shows that the rows are those of an accepted manifest.
        let _rows = self.store.manifest().rows();
        begin(&mut self.store, alloc, kind, u64::MAX)
    }

    // Only a read of all pages would tell.
    fn left(&self, _place: &Pages) -> Option<u64> {
        None
    }

    fn walk_on(&mut self, place: &mut Pages) -> Result<Option<(Key, Object)>, StoreFault> {
        next(&mut self.store, place)
    }

    ghost stands_for = { λ desk e h. record { kept = h.kept; stands_for = h.stands_for } };

    ghost in_order = { λ desk pages es h. h.order };

    ghost stays = { λ desk. record {
      same = record {
        manifest = refl;
        writes = refl;
        survives = survives_same;
        stands = λ k h. h;
      };
      serves = λ e h. h;
    } };

    ghost goes_on = { λ a b c p q. record {
      same = as_before_then p.same q.same;
      serves = λ e h. q.serves e (p.serves e h);
    } };

    ghost was_honest = { λ a b p clean. honest_before p.same clean };
}

// Each page is found by a look-up in the index of keys, with SQL.
impl<S: Alter> Paged for Store<S> {
    ghost use Rattle.std.proofs.Common.{refl};
    ghost use Rattle.esc_store.specs.StandingLaws.{as_before_then, survives_same};
    ghost use Rattle.esc_store.specs.StandingLaws.{was_honest as honest_before};

    ghost represents = { λ store k. Represents S.Store store k };

    ghost is_honest = { λ store. IsHonest S.Store store };

    ghost follows = { λ a b. IsAsBefore S.Store a b };

    fn objects_from(
        &mut self,
        alloc: Global,
        kind: Kind,
        from: &[u8],
    ) -> Result<Vec<(Key, Object)>, StoreFault> {
        self.objects_from(alloc, kind, from)
    }

    ghost stays = { λ store. record {
      manifest = refl;
      writes = refl;
      survives = survives_same;
      stands = λ k h. h;
    } };

    ghost goes_on = { λ a b c p q. as_before_then p q };

    ghost was_honest = { λ a b p clean. honest_before p clean };
}

// Digests and lengths of the parked bodies with these digests. `S1` if one of them isn't parked.
fn parked_bodies<S: Alter>(
    store: &mut Store<S>,
    alloc: Global,
    digests: &[[u8; 32]],
) -> Result<Vec<ParkedBody>, StoreFault>
    ensures same { IsAsBefore S.Store store.old store.new }
    ensures digests { IfOk result (λ bodies. map (λ p. p.digest) bodies.items ≡ digests.now) }
    ensures each { IsHonest S.Store store.new → (k : StoreState) → Represents S.Store store.old k
        → IfOk result (λ bodies. All (IsParkedBody k.parked) bodies.items) }
    ensures cause { IfErr result IsFailure }
{
    let mut bodies = Vec::new(alloc);
    for digest in digests {
        bodies.push(parked_body(store, digest)?)?;
    }
    Ok(bodies)
}

// Digest and length of the parked body with a digest. `S1` if there is none.
fn parked_body<S: Alter>(store: &mut Store<S>, digest: &[u8; 32]) -> Result<ParkedBody, StoreFault>
    ensures same { IsAsBefore S.Store store.old store.new }
    ensures digest { IfOk result (λ p. p.digest ≡ digest.now) }
    ensures parked { IsHonest S.Store store.new → (k : StoreState) → Represents S.Store store.old k
        → IfOk result (IsParkedBody k.parked) }
    ensures cause { IfErr result IsFailure }
{
    let Some(bytes) = store.parked_length(digest)? else {
        return Err(StoreFault::Failed(Cause::NoBody));
    };
    Ok(ParkedBody {
        digest: *digest,
        bytes,
    })
}

// What the deposit of the body that the store keeps for a row says of the registry.
fn stored_end<S: Alter>(store: &mut Store<S>, alloc: Global, row: usize) -> Result<End, StoreFault>
    ensures same { IsAsBefore S.Store store.old store.new }
    ensures says { IsHonest S.Store store.new → (k : StoreState) → Represents S.Store store.old k
        → IfOk result (SaysOfBody (k.bodies row)) }
    ensures cause { IfErr result IsFailure }
{
    let body = store.body_of(alloc, row)?;
    end_in(alloc, body)
}
