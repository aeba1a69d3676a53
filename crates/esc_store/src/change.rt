//! A change of the store.

ghost use Rattle.std.specs.Prelude.{◌≡◌, ◌≤◌, ◌+◌, ◌++◌, None, map, option_map, take, length, OnOk};
ghost use Rattle.std.specs.Prelude.{OnErr, IfOk, IfErr};
ghost use Rattle.esc_apply.specs.Registry.{State};
ghost use Rattle.esc_store.specs.Faults.{IsFailure, IsReceiptFault};
ghost use Rattle.esc_store.specs.StoreState.{StoreState, with_receipt, with_body, with_steps};
ghost use Rattle.esc_store.specs.StoreState.{with_registry};
ghost use Rattle.esc_store.specs.Representation.{HasMadeBooks, HasMadeTables, IsUncommitted};
ghost use Rattle.esc_store.specs.Representation.{IsChangePart, ChangeFollows, IsCommitOf};
ghost use Rattle.esc_store.specs.Representation.{IsRollbackOf, StoreLeavesOr, StoreLeavesNoMore};
ghost use Rattle.esc_store.specs.Representation.{IsHonest, listed_by, store_in, change_count};

use crate::books::MOST_RECEIPTS;
use crate::codec::small;
use crate::codec::step::stored_steps;
use crate::fault::StoreFault;
use crate::remembered::NOTHING;
use crate::reply::Receipt;
use crate::store::Store;
use esc_apply::Step;
use esc_manifest::Manifest;
use esc_sql::held::insert_held;
use sqlite::Alter;

/// A change of a store: one transaction. `commit` makes all of it; where it is dropped, nothing has
/// changed.
// What owns memory is under a type parameter, so that contracts see the final value of what the
// reference points to.
pub struct Change<'a, S: Alter, L = Option<Manifest>> {
    pub(crate) store: &'a mut Store<S>,
    pub(crate) count: u64,
    pub(crate) listing: L,
}

impl<'a, S: Alter> Change<'a, S> {
    /// Adds the receipt of an arrival after the others, and returns its number, from 1. `S4` where
    /// the store has 1,000,000,000 receipts, and only there; `S1`, `S2`.
    pub fn record_receipt(&mut self, receipt: &Receipt<'_>) -> Result<u64, StoreFault>
        ensures part { IsChangePart S.Store self.old self.new result
            (λ k. with_receipt k receipt.now) }
        ensures listed { listed_by self.new ≡ listed_by self.old }
        ensures number { IfOk result (λ n. IsHonest S.Store (store_in self.new)
            → (before k : StoreState)
            → HasMadeBooks S.Store self.old before k → n ≡ length k.receipts + 1) }
        ensures room { IfOk result (λ n. n ≤ MOST_RECEIPTS) }
        ensures full { IfErr result (λ e. e ≡ StoreFault.NoRoom
            → IsHonest S.Store (store_in self.new)
            → (before k : StoreState) → HasMadeBooks S.Store self.old before k
            → MOST_RECEIPTS ≤ length k.receipts) }
        ensures cause { IfErr result IsReceiptFault }
    {
        self.store.add_next_here(receipt)
    }

    /// Stores the body of a listed row. `S1`, also if the row has a body already; `S2`.
    pub fn hold(&mut self, row: usize, body: &[u8]) -> Result<(), StoreFault>
        ensures part { IsChangePart S.Store self.old self.new result
            (λ k. with_body k row body.now) }
        ensures listed { listed_by self.new ≡ listed_by self.old }
        ensures free { OnOk result (IsHonest S.Store (store_in self.new) → (before k : StoreState)
            → HasMadeBooks S.Store self.old before k → k.bodies row ≡ None) }
        ensures cause { IfErr result IsFailure }
    {
        let row = small(row)?;
        let done = insert_held(&mut self.store.conn, row, body);
        self.store.settle(done)
    }

    /// The body of the row with this index, from 0, if the change holds one. `S1`, `S2`.
    pub fn body_of(&mut self, row: usize) -> Result<Option<Vec<u8>>, StoreFault>
        ensures follows { ChangeFollows S.Store self.old self.new }
        ensures count { change_count self.new ≡ change_count self.old }
        ensures found { IfOk result (λ found. IsHonest S.Store (store_in self.new)
            → (before k : StoreState) → HasMadeBooks S.Store self.old before k
            → option_map (λ b. b.items) found ≡ k.bodies row) }
        ensures holds { OnOk result ((s : State) → HasMadeTables S.Store self.old s
            → HasMadeTables S.Store self.new s) }
        ensures cause { IfErr result IsFailure }
    {
        let row = small(row)?;
        self.store.goes_on()?;
        self.store.body_here(row)
    }

    /// Makes these the steps of the chain; their rows have to be held, and no two are the same.
    /// `S1`, `S2`.
    pub fn set_chain(&mut self, steps: &[Step]) -> Result<(), StoreFault>
        ensures part { IsChangePart S.Store self.old self.new result
            (λ k. with_steps k (map (λ step. step.row) steps.now)) }
        ensures listed { listed_by self.new ≡ listed_by self.old }
        ensures cause { IfErr result IsFailure }
    {
        self.replace_chain_from(0, steps)
    }

    /// Keeps the first steps of the chain, as many as `front`, which it has to have, and makes
    /// these the steps past them; their rows have to be held, and no two of the chain are the same.
    /// It takes as long as these steps and those that go, however long the chain is. `S1`, `S2`.
    pub fn replace_chain_from(&mut self, front: usize, steps: &[Step]) -> Result<(), StoreFault>
        ensures goes_on { IsUncommitted S.Store self.old self.new }
        ensures count { change_count self.new ≡ change_count self.old }
        ensures listed { listed_by self.new ≡ listed_by self.old }
        ensures set { OnOk result ((before k : StoreState) → front ≤ length k.steps
            → HasMadeBooks S.Store self.old before k → HasMadeBooks S.Store self.new before
            (with_steps k (take front k.steps ++ map (λ step. step.row) steps.now))) }
        ensures holds { OnOk result ((s : State) → HasMadeTables S.Store self.old s
            → HasMadeTables S.Store self.new s) }
        ensures cause { IfErr result IsFailure }
    {
        let stored = stored_steps(self.store.alloc, front, steps)?;
        let from = small(front.saturating_add(1))?;
        self.store.continue_steps_here(from, stored.as_slice())
    }

    /// Commits the whole change at once. At `Err` (`S1`, `S2`) nothing has changed, but a crash may
    /// leave the change made.
    pub fn commit(self) -> Result<(), StoreFault>
        ensures committed { OnOk result (IsCommitOf S.Store self.entry self.exit.0.now) }
        ensures rolled_back { OnErr result (IsRollbackOf S.Store self.entry self.exit.0.now) }
        ensures honest { IsHonest S.Store self.exit.0.now
            → IsHonest S.Store (store_in self.entry) }
        ensures crash { (before k : StoreState) (s : State)
            → HasMadeBooks S.Store self.entry before (with_registry k s)
            → HasMadeTables S.Store self.entry k.registry
            → StoreLeavesOr S.Store (store_in self.entry) self.exit.0.now k }
        ensures cause { IfErr result IsFailure }
    {
        let Change {
            store,
            count,
            listing,
        } = self;
        store.commit_here()?;
        store.writes = store.writes.saturating_add(count);
        store.take_over(listing);
        Ok(())
    }
}

impl<S: Alter, L: Drop> Drop for Change<'_, S, L> {
    fn drop(self)
        ensures rolled_back { IsRollbackOf S.Store self.entry self.exit.0.now }
        ensures survives { StoreLeavesNoMore S.Store (store_in self.entry) self.exit.0.now }
    {
        let Change {
            store,
            count: _,
            listing: _,
        } = self;
        store.remembered = NOTHING;
        store.give_up();
    }
}
