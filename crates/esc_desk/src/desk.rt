//! The desk: arrivals, one after another.

ghost use Rattle.std.specs.Prelude.{◌≡◌, [], List, None, IfOk, IfErr, IfSome};
ghost use Rattle.sha2.specs.Sha256.{sha256};
ghost use Rattle.esc_tables.specs.Reading.{reading};
ghost use Rattle.esc_store.specs.Faults.{IsFailure, IsArrivalFault};
ghost use Rattle.esc_store.specs.StoreState.{StoreState};
ghost use Rattle.esc_store.specs.Representation.{Represents, IsHonest, IsAsBefore, LeavesOnly};
ghost use Rattle.esc_events.specs.ArrivalValue.{an_arrival};
ghost use Rattle.esc_events.specs.Events.{EventValue};
ghost use Rattle.esc_events.specs.Cache.{IsCacheOf};
ghost use Rattle.esc_events.specs.StateAfter.{IsStateAfter};
ghost use Rattle.esc_desk.specs.Calls.{store_of, DeskLeaves, DeskLeavesTaken, ForDeskEvents};
ghost use Rattle.esc_desk.specs.Calls.{OkForDeskEvents, ForEventsInDoubt, IsWhole, IsCause};
ghost use Rattle.esc_desk.specs.Calls.{Answers};
ghost use Rattle.esc_desk.specs.Reflection.{StoreReflects, DeskReflects};

use crate::answering::{Answer, numbered};
use crate::caching::cache_or;
use crate::delivery::{Content, Delivery};
use crate::reread::Reread;
use esc_apply::Work;
use esc_events::Cache;
use esc_store::{Number, Reply, Store, StoreFault};
use sha2::{Digest, Sha256};
use sqlite::Alter;
use std::alloc::Global;

/// A desk over a store. It remembers which rows have a body, which have a receipt with `A1`, and
/// the chain, so that an event needn't ask the store for them; and a deposit that came again, so
/// that it needn't be read once more.
#[derive(Drop)]
pub struct Desk<S: Alter> {
    pub(crate) store: Store<S>,
    // `None` until an event needs it, and again once such an event has failed.
    pub(crate) cache: Option<Cache>,
    // The deposit of the last arrival, if its row was held before: whoever sends a body again often
    // sends it many times.
    pub(crate) reread: Option<Reread>,
}

pub(crate) const NO_WORK: Work = Work {
    cleared: false,
    undone: 0,
    applied: 0,
    writes: 0,
};

impl<S: Alter> Desk<S> {
    /// A desk over a store. Doesn't allocate.
    pub fn open(store: Store<S>) -> Desk<S>
        ensures same { store_of result ≡ store }
        ensures serves { (e : List EventValue) → StoreReflects S.Store store e
            → DeskReflects S.Store result e }
        ensures left { (e : List EventValue) (k : StoreState)
            → LeavesOnly S.Store store k → IsStateAfter sha256 reading e k
            → DeskLeaves S.Store result e [] }
    {
        Desk {
            store,
            cache: None,
            reread: None,
        }
    }

    /// The desk's store. Doesn't allocate.
    pub fn into_store(self) -> Store<S>
        ensures same { result ≡ store_of self }
        ensures serves { (e : List EventValue) → DeskReflects S.Store self e
            → StoreReflects S.Store result e }
    {
        self.store
    }

    /// Takes an arrival. Returns the reply, and the work of the move that it made. A duplicate of
    /// an earlier arrival gets the first one's reply, and makes no work unless that is `A2`; then
    /// its body is taken in, unless it is there. If no two different bodies have the same digest,
    /// the work is exactly the cost of going from the latest chain before the arrival to the latest
    /// chain with it, which is none where it adds no row to those that are held. A body that no row
    /// lists is parked. [`Desk::writes`] grows by the work's writes.
    ///
    /// At `Err` nothing has changed: `S1`, `S2`, `S4` where the store has 1,000,000,000 receipts
    /// and the arrival is no duplicate, or `S5` where its body would be parked and 1,024 others
    /// are. A crash leaves what was answered; after `S1` or `S2` it may leave the arrival taken in.
    #[tactic(auto, using(esc_store::specs::StandingLaws::was_honest))]
    pub fn arrive(
        &mut self,
        alloc: Global,
        number: &Number<'_>,
        body: &[u8],
    ) -> Result<(Reply, Work), StoreFault>
        ensures answered { OkForDeskEvents S.Store self.old self.new result
            (λ e p. Answers S.Store self.new e (an_arrival number.now body.now) p.0 p.1) }
        ensures cause { IfErr result IsArrivalFault }
        ensures full { ForDeskEvents S.Store self.old self.new
            (λ e. IfErr result (IsCause e (an_arrival number.now body.now))) }
        ensures whole { IsWhole S.Store self.old self.new result (λ p. p.1) }
        ensures crash { ForEventsInDoubt S.Store self.old
            (λ e doubtful. DeskLeavesTaken S.Store self.new e doubtful
            (an_arrival number.now body.now) result) }
    {
        let digest = Sha256::digest(body);
        // Read for the proof alone: it shows that the count is below 2^64.
        let _writes = self.store.writes();
        let kept = self.store.receipt_of(alloc, number, &digest)?;
        let content = Content { digest, body };
        let answer = self.answer_arrival(alloc, kept, Delivery { number, content })?;
        let Answer { reply, decision } = answer;
        let is_new = decision.edit.receipt.is_some();
        let (number, work) = self.make(alloc, decision)?;
        Ok((numbered(reply, is_new, number), work))
    }

    /// What is known of the store's rows: what was remembered, which is forgotten, or else what the
    /// store reports.
    pub(crate) fn take_cache(&mut self, alloc: Global) -> Result<Cache, StoreFault>
        ensures same { IsAsBefore S.Store self.old.store self.new.store }
        ensures forgotten { self.new.cache ≡ None }
        ensures cache { IsHonest S.Store self.new.store → (e : List EventValue) (k : StoreState)
            → Represents S.Store self.old.store k → IsStateAfter sha256 reading e k
            → IfSome self.old.cache (IsCacheOf k) → IfOk result (IsCacheOf k) }
        ensures cause { IfErr result IsFailure }
    {
        let cache = self.cache.take();
        cache_or(&mut self.store, alloc, cache)
    }
}
