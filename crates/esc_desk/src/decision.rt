//! Decisions: what an event comes to, found by reads alone, and how it is made.

ghost use Rattle.std.specs.Prelude.{◌≡◌, List, IfOk, IfErr};
ghost use Rattle.esc_store.specs.StoreState.{StoreState};
ghost use Rattle.esc_store.specs.Representation.{Represents, IsHonest};
ghost use Rattle.esc_events.specs.Events.{EventValue};
ghost use Rattle.esc_desk.specs.Calls.{IsWhole};
ghost use Rattle.esc_desk.specs.Causes.{IsEditFault};
ghost use Rattle.esc_desk.specs.Crashes.{CrashLeaves, LeavesRefused};
ghost use Rattle.esc_desk.specs.Decisions.{cache_after, still_by, IsSound, IsDecided, IsDone};

use crate::changes::commit;
use crate::desk::{Desk, NO_WORK};
use crate::edit::{Edit, Storing};
use esc_apply::Work;
use esc_events::{Cache, Plan};
use esc_store::{Receipt, StoreFault};
use sqlite::Alter;
use std::alloc::Global;

/// What an event comes to: what it changes, and what is known of the store's rows then, if anything
/// is, but for the chain where it moves.
#[derive(Drop)]
pub(crate) struct Decision<'n, 'b> {
    pub(crate) edit: Edit<'n, 'b>,
    pub(crate) cache: Option<Cache>,
}

impl<'n, 'b> Decision<'n, 'b> {
    /// A decision by which the chain stays.
    pub(crate) fn still(
        receipt: Option<Receipt<'n>>,
        cache: Option<Cache>,
        body: Storing<'b>,
    ) -> Decision<'n, 'b>
        ensures { result ≡ still_by receipt.entry cache body.entry }
    {
        Decision {
            edit: Edit {
                receipt,
                listing: None,
                body,
                moment: None,
                plan: None,
            },
            cache,
        }
    }
}

impl<S: Alter> Desk<S> {
    /// Makes what was decided, whole or not at all; an edit that changes nothing isn't committed.
    /// Returns the number of the receipt, if it has one, and the work. What is known of the rows is
    /// remembered once it was made.
    pub(crate) fn make(
        &mut self,
        alloc: Global,
        decision: Decision<'_, '_>,
    ) -> Result<(u64, Work), StoreFault>
        requires sound { IsSound self.old.store.manifest decision }
        ensures whole { IsWhole S.Store self.old self.new result (λ p. p.1) }
        ensures made { IsHonest S.Store self.new.store → (e : List EventValue) (x : EventValue)
            (k : StoreState) → Represents S.Store self.old.store k → IsDecided e x k decision.entry
            → IfOk result (IsDone S.Store self.old.store self.new e x k decision.entry) }
        ensures crash { (e doubtful : List EventValue) (x : EventValue) (k : StoreState)
            → Represents S.Store self.old.store k
            → (IsHonest S.Store self.new.store → IsDecided e x k decision.entry)
            → CrashLeaves S.Store self.old.store.conn e doubtful
            → IfErr result (LeavesRefused S.Store self.new.store.conn e doubtful x) }
        ensures cause { IfErr result (IsEditFault S.Store decision.entry.edit.receipt
            self.old.store self.new.store) }
    {
        // Read for the proof alone: it shows that the count is below 2^64.
        let _writes = self.store.writes();
        let Decision { edit, cache } = decision;
        if edit.is_empty() {
            self.cache = cache;
            return Ok((0, NO_WORK));
        }
        let done = commit(&mut self.store, alloc, edit)?;
        self.cache = cache_then(cache, done.plan);
        Ok((done.number, done.work))
    }
}

// What is known of a store's rows once a plan was carried out, if there is one.
fn cache_then(cache: Option<Cache>, plan: Option<Plan>) -> Option<Cache>
    ensures { result ≡ cache_after plan cache }
{
    match plan {
        Some(plan) => match cache {
            Some(cache) => Some(Cache {
                held_rows: cache.held_rows,
                rows_with_receipt: cache.rows_with_receipt,
                chain: plan.new,
            }),
            None => None,
        },
        None => cache,
    }
}
