//! The moment up to which the chain goes: what a store returns of it, and how a change sets it.

ghost use Rattle.std.specs.Prelude.{◌≡◌, Some, None, IfOk, IfErr};
ghost use Rattle.esc_sql.specs.Content.{moment_set};
ghost use Rattle.esc_store.specs.Faults.{IsFailure};
ghost use Rattle.esc_store.specs.StoreState.{StoreState, with_moment};
ghost use Rattle.esc_store.specs.Representation.{Represents, IsChangePart, IsAsBefore, IsHonest};
ghost use Rattle.esc_store.specs.Representation.{IsStoreRead, listed_by};

use crate::change::Change;
use crate::fault::StoreFault;
use crate::store::Store;
use esc_sql::moment::{clear_moment, find_moment, insert_moment};
use sqlite::Alter;

impl<S: Alter> Store<S> {
    // The moment that is set, if one is.
    #[tactic(auto, using(crate::proofs::Sure::read_here))]
    fn moment_here(&mut self) -> Result<Option<i64>, StoreFault>
        ensures read { IsStoreRead S.Store self.old self.new
            (λ c found. found ≡ moment_set c.moment) result }
        ensures cause { IfErr result IsFailure }
    {
        let found = find_moment(&mut self.conn);
        self.settle(found)
    }

    /// The moment that is set, in nanoseconds since 1970-01-01T00:00:00Z, if one is. `S1`, `S2`.
    #[tactic(auto, using(crate::proofs::Sure::as_before))]
    pub fn moment(&mut self) -> Result<Option<i64>, StoreFault>
        ensures same { IsAsBefore S.Store self.old self.new }
        ensures moment { IsHonest S.Store self.new → (k : StoreState)
            → Represents S.Store self.old k
            → IfOk result (λ moment. moment ≡ k.moment) }
        ensures cause { IfErr result IsFailure }
    {
        self.moment_here()
    }
}

impl<'a, S: Alter> Change<'a, S> {
    /// Sets the moment, in nanoseconds since 1970-01-01T00:00:00Z, or removes it (`None`). The
    /// chain and the tables stay as they are. `S1`, `S2`.
    pub fn set_moment(&mut self, moment: Option<i64>) -> Result<(), StoreFault>
        ensures part { IsChangePart S.Store self.old self.new result
            (λ k. with_moment k moment) }
        ensures listed { listed_by self.new ≡ listed_by self.old }
        ensures cause { IfErr result IsFailure }
    {
        self.clear_moment()?;
        match moment {
            Some(moment) => self.put_moment(moment),
            None => Ok(()),
        }
    }

    // Removes the moment, if one is set.
    fn clear_moment(&mut self) -> Result<(), StoreFault>
        ensures part { IsChangePart S.Store self.old self.new result
            (λ k. with_moment k None) }
        ensures listed { listed_by self.new ≡ listed_by self.old }
        ensures cause { IfErr result IsFailure }
    {
        let done = clear_moment(&mut self.store.conn);
        self.store.settle(done)
    }

    // Sets a moment, where none is set.
    fn put_moment(&mut self, moment: i64) -> Result<(), StoreFault>
        ensures part { IsChangePart S.Store self.old self.new result
            (λ k. with_moment k (Some moment)) }
        ensures listed { listed_by self.new ≡ listed_by self.old }
        ensures cause { IfErr result IsFailure }
    {
        let done = insert_moment(&mut self.store.conn, moment);
        self.store.settle(done)
    }
}
