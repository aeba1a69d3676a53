//! Amendments: manifests that list more rows.

ghost use Rattle.std.specs.Prelude.{◌≡◌, ◌<◌, ◌≤◌, ◌++◌, ℕ, List, None, false, Err, length, take};
ghost use Rattle.std.specs.Prelude.{IfOk, IfErr, OnOk};
ghost use Rattle.sha2.specs.Sha256.{sha256};
ghost use Rattle.esc_tables.specs.Reading.{reading};
ghost use Rattle.esc_manifest.specs.declared.fault.ManifestFault.TheVariants as ManifestFault;
ghost use Rattle.esc_manifest.specs.declared.refusal.ManifestRefusal.{ManifestRefusal};
ghost use Rattle.esc_manifest.specs.declared.refusal.ManifestRefusal.TheVariants.{OverLimit};
ghost use Rattle.esc_manifest.specs.declared.row.MRow.{MRow};
ghost use Rattle.esc_manifest.specs.Extension.{extended};
ghost use Rattle.esc_manifest.specs.Manifest.{most_bytes};
ghost use Rattle.esc_manifest.specs.RowFaults.{most_manifest_rows};
ghost use Rattle.esc_store.specs.Faults.{IsFailure};
ghost use Rattle.esc_store.specs.StoreState.{StoreState};
ghost use Rattle.esc_store.specs.Representation.{Represents, IsHonest, IsAsBefore, listed_rows_of};
ghost use Rattle.esc_events.specs.declared.cache.Cache.{Cache};
ghost use Rattle.esc_events.specs.Events.{EventValue, union as union_of};
ghost use Rattle.esc_events.specs.Events.EventValue.{listed};
ghost use Rattle.esc_events.specs.Cache.{IsCacheOf};
ghost use Rattle.esc_events.specs.StateAfter.{IsStateAfter};
ghost use Rattle.esc_desk.specs.Amendments.{IsAmended, IsAmendCause, IsRefusedUnion};
ghost use Rattle.esc_desk.specs.Amendments.{IsUnionWith, DeskLeavesAmended};
ghost use Rattle.esc_desk.specs.Calls.{store_of, OkForDeskEvents, ForEventsInDoubt, IsWhole};
ghost use Rattle.esc_desk.specs.Calls.{DeskLeavesMade};
ghost use Rattle.esc_desk.specs.Decisions.{IsDecided, IsSound};
ghost use Rattle.esc_desk.specs.Edits.{is_empty};
ghost use Rattle.esc_desk.specs.Reflection.{TakesIn};

use crate::decision::Decision;
use crate::desk::{Desk, NO_WORK};
use crate::edit::{Edit, Listing, Storing};
use crate::judging::judge_rows;
use crate::plan::plan_latest;
use esc_apply::{Work, read_deposits_mention_few};
use esc_bundle::NoMemory;
use esc_chain::latest_chain_at_rows_are_held;
use esc_events::Cache;
use esc_manifest::{Manifest, ManifestFault, read_manifest};
use esc_store::{Store, StoreFault};
use sqlite::Alter;
use std::alloc::Global;
use std::fmt;

/// Why an amendment isn't taken in.
#[derive(Clone, Copy, Debug, PartialEq, Eq)]
pub enum AmendFault {
    /// The text is no accepted manifest, or its union with the listed rows is none: M1 to M13.
    M(ManifestFault),
    /// The store failed (`S1`), or memory was refused (`S2`).
    Store(StoreFault),
}

impl fmt::Display for AmendFault {
    fn fmt<W: fmt::Write>(&self, f: &mut fmt::Formatter<W>) -> fmt::Result {
        match *self {
            AmendFault::M(fault) => fault.fmt(f),
            AmendFault::Store(fault) => fault.fmt(f),
        }
    }
}

impl std::error::Error for AmendFault {}

impl<S: Alter> Desk<S> {
    /// Takes in an amendment, the text of a manifest: its rows that aren't listed yet are listed
    /// from now on. A body that is parked for a new row is held if it is the row's deposit, and is
    /// no longer parked in any case; replies that were given stay as they were. Returns how many
    /// rows are new, and the work of the chain's move. A crash leaves an amendment that was taken
    /// in; after `S1` or `S2` it may leave this one taken in.
    ///
    /// # Errors
    ///
    /// Nothing has changed. `M`: the text, or its union with the rows in memory, is refused (M1 to
    /// M13). That doesn't depend on the disk, and a text of more than 4,194,304 bytes is M1 also
    /// where memory is short. `Store`: `S1`, `S2`.
    pub fn amend(&mut self, alloc: Global, text: &[u8]) -> Result<(u32, Work), AmendFault>
        ensures amended { OkForDeskEvents S.Store self.old self.new result
            (λ e p. IsAmended S.Store self.new e text.now p.0 p.1) }
        ensures cause { IfErr result (IsAmendCause (listed_rows_of (store_of self.old)) text.now) }
        ensures unchanged { (refusal : ManifestRefusal) (row : ℕ)
            → result ≡ Err (AmendFault.M (ManifestFault.Refused refusal row))
            → self.new ≡ self.old }
        ensures over_limit { most_bytes < length text.now
            → result ≡ Err (AmendFault.M (ManifestFault.Refused OverLimit 0)) }
        ensures whole { IsWhole S.Store self.old self.new result (λ p. p.1) }
        ensures crash { ForEventsInDoubt S.Store self.old
            (λ e doubtful. DeskLeavesAmended S.Store self.new e doubtful text.now result) }
    {
        // Read for the proof alone: it shows that the count is below 2^64.
        let _writes = self.store.writes();
        let union = match self.union_with(alloc, text) {
            Ok(union) => union,
            Err(ManifestFault::Refused { refusal, row }) => {
                return Err(AmendFault::M(ManifestFault::Refused { refusal, row }));
            }
            Err(ManifestFault::NoMemory) => return Err(AmendFault::Store(StoreFault::NoMemory)),
        };
        let added = union.rows().len() - self.store.manifest().rows().len();
        if added == 0 {
            return Ok((0, NO_WORK));
        }
        match self.list_more(alloc, union) {
            Ok(work) => Ok((added as u32, work)),
            Err(fault) => Err(AmendFault::Store(fault)),
        }
    }

    // The union of the rows that are listed and those of a text.
    fn union_with(&self, alloc: Global, text: &[u8]) -> Result<Manifest, ManifestFault>
        ensures united { IfOk result (IsUnionWith self.now.store.manifest text.now) }
        ensures refused { (refusal : ManifestRefusal) (row : ℕ)
            → result ≡ Err (ManifestFault.Refused refusal row) → (row ≤ most_manifest_rows)
            × IsRefusedUnion self.now.store.manifest text.now refusal row }
        ensures over_limit { most_bytes < length text.now
            → result ≡ Err (ManifestFault.Refused OverLimit 0) }
    {
        let more = read_manifest(alloc, text)?;
        self.store.manifest().extend(alloc, &more)
    }

    // Lists the rows of a union. What is remembered is forgotten first, and is only remembered
    // again once the rows are listed.
    #[tactic(auto, using(esc_store::specs::StandingLaws::was_honest))]
    fn list_more(&mut self, alloc: Global, union: Manifest) -> Result<Work, StoreFault>
        requires begins { take (length self.old.store.manifest) union ≡ self.old.store.manifest }
        ensures made { (more : List MRow) → OkForDeskEvents S.Store self.old self.new result
            (λ e work. union ≡ extended (union_of e) more
            → TakesIn S.Store self.new e (listed more) work) }
        ensures whole { IsWhole S.Store self.old self.new result (λ work. work) }
        ensures crash { (more : List MRow) → ForEventsInDoubt S.Store self.old
            (λ e doubtful. union ≡ extended (union_of e) more
            → DeskLeavesMade S.Store self.new e doubtful (listed more) result) }
        ensures cause { IfErr result IsFailure }
    {
        let cache = self.take_cache(alloc)?;
        let decision = decide_union(&mut self.store, alloc, union, cache)?;
        let (_number, work) = self.make(alloc, decision)?;
        Ok(work)
    }
}

// What it comes to that the rows of a union are listed. `cache` is what is known of the store's
// rows.
fn decide_union<'n, 'b, S: Alter>(
    store: &mut Store<S>,
    alloc: Global,
    union: Manifest,
    cache: Cache,
) -> Result<Decision<'n, 'b>, StoreFault>
    requires begins { take (length store.old.manifest) union ≡ store.old.manifest }
    ensures same { IsAsBefore S.Store store.old store.new }
    ensures sound { IfOk result (IsSound store.new.manifest) }
    ensures none { IfOk result (λ d. d.edit.receipt ≡ None) }
    ensures some { IfOk result (λ d. is_empty d.edit ≡ false) }
    ensures decided { IsHonest S.Store store.new → (e : List EventValue) (k : StoreState)
        (more : List MRow) → Represents S.Store store.old k → IsStateAfter sha256 reading e k
        → IsCacheOf k cache → union ≡ extended (union_of e) more
        → IfOk result (IsDecided e (listed more) k) }
    ensures cause { IfErr result IsFailure }
{
    latest_chain_at_rows_are_held();
    read_deposits_mention_few();
    let mut cache = cache;
    let from = store.manifest().rows().len();
    let judged = judge_rows(store, alloc, union.rows(), from)?;
    append_rows(&mut cache.held_rows, &judged.adopted)?;
    let moment = store.moment()?;
    let plan = plan_latest(alloc, &union, &mut cache, moment)?;
    Ok(Decision {
        edit: Edit {
            receipt: None,
            listing: Some(Listing { union, judged }),
            body: Storing::Nothing,
            moment: None,
            plan: Some(plan),
        },
        cache: Some(cache),
    })
}

fn append_rows(rows: &mut Vec<usize>, more: &[usize]) -> Result<(), NoMemory>
    ensures { OnOk result (rows.new.items ≡ rows.old.items ++ more.now) }
{
    for row in more {
        rows.push(*row)?;
    }
    Ok(())
}
