//! What an arrival is answered, and what it comes to, found by reads alone.
//!
//! A duplicate of an earlier arrival gets that one's reply. A store of version 1 gave `A2` to a
//! body that no row listed, and didn't keep it: the body of a duplicate with that reply is taken in
//! as that of a new arrival would be, unless it is there.

ghost use Rattle.std.specs.Prelude.{◌≡◌, ℕ, List, Some, None, IfOk, IfErr};
ghost use Rattle.esc_store.specs.Faults.{IsArrivalFault};
ghost use Rattle.esc_store.specs.StoreState.{StoreState};
ghost use Rattle.esc_store.specs.Representation.{IsHonest, IsAsBefore};
ghost use Rattle.esc_events.specs.ArrivalValue.{an_arrival};
ghost use Rattle.esc_events.specs.Events.{EventValue};
ghost use Rattle.esc_desk.specs.Answering.{IsAsked, IsAnswer, numbered};
ghost use Rattle.esc_desk.specs.Calls.{IsCause};
ghost use Rattle.esc_desk.specs.Decisions.{IsSound};
ghost use Rattle.esc_desk.specs.Receiving.{delivered};

use crate::assessment::{Assessed, find};
use crate::decision::Decision;
use crate::delivery::{Content, Delivery};
use crate::desk::Desk;
use crate::edit::Storing;
use crate::intake::{Noted, decide_arrival};
use crate::receiving::{Received, receive};
use esc_store::{Reply, StoreFault, Verdict};
use sqlite::Alter;
use std::alloc::Global;

/// What an arrival is answered, without the number of its receipt if that is new, and what it comes
/// to.
#[derive(Drop)]
pub(crate) struct Answer<'n, 'b> {
    pub(crate) reply: Reply,
    pub(crate) decision: Decision<'n, 'b>,
}

/// A reply, with this number of its receipt if that is new.
pub(crate) fn numbered(reply: Reply, is_new: bool, number: u64) -> Reply
    ensures { result ≡ numbered is_new number reply }
{
    let mut reply = reply;
    if is_new {
        reply.receipt = number;
    }
    reply
}

impl<S: Alter> Desk<S> {
    /// What an arrival is answered, and what it comes to: `kept` is the reply that the store keeps
    /// for it. What was known of the store's rows is forgotten.
    pub(crate) fn answer_arrival<'n, 'b>(
        &mut self,
        alloc: Global,
        kept: Option<Reply>,
        delivery: Delivery<'_, 'n, 'b>,
    ) -> Result<Answer<'n, 'b>, StoreFault>
        ensures same { IsAsBefore S.Store self.old.store self.new.store }
        ensures forgotten { self.new.cache ≡ None }
        ensures sound { IfOk result (λ p. IsSound self.new.store.manifest p.decision) }
        ensures answers { IsHonest S.Store self.new.store
            → (e : List EventValue) (k : StoreState)
            → IsAsked S.Store self.old.store self.old.cache
            delivery.entry.number.now delivery.entry.content.digest kept e k
            → IfOk result (IsAnswer e (delivered delivery.entry) k) }
        ensures cause { IfErr result IsArrivalFault }
        ensures full { IsHonest S.Store self.new.store
            → (e : List EventValue) (k : StoreState)
            → IsAsked S.Store self.old.store self.old.cache
            delivery.entry.number.now delivery.entry.content.digest kept e k
            → IfErr result (IsCause e (delivered delivery.entry)) }
    {
        match kept {
            Some(reply) => self.answer_again(alloc, reply, delivery.content),
            None => self.answer_new(alloc, delivery),
        }
    }

    // What an arrival is answered for which no receipt is kept.
    #[tactic(auto, using(esc_store::specs::StandingLaws::was_honest))]
    fn answer_new<'n, 'b>(
        &mut self,
        alloc: Global,
        delivery: Delivery<'_, 'n, 'b>,
    ) -> Result<Answer<'n, 'b>, StoreFault>
        ensures same { IsAsBefore S.Store self.old.store self.new.store }
        ensures forgotten { self.new.cache ≡ None }
        ensures sound { IfOk result (λ p. IsSound self.new.store.manifest p.decision) }
        ensures answers { IsHonest S.Store self.new.store
            → (e : List EventValue) (k : StoreState)
            → IsAsked S.Store self.old.store self.old.cache
            delivery.entry.number.now delivery.entry.content.digest None e k
            → IfOk result (IsAnswer e (delivered delivery.entry) k) }
        ensures cause { IfErr result IsArrivalFault }
        ensures full { IsHonest S.Store self.new.store
            → (e : List EventValue) (k : StoreState)
            → IsAsked S.Store self.old.store self.old.cache
            delivery.entry.number.now delivery.entry.content.digest None e k
            → IfErr result (IsCause e (delivered delivery.entry)) }
    {
        let content = delivery.content;
        let before = self.take_cache(alloc)?;
        let first = self.reread.take();
        let manifest = self.store.manifest();
        let Received {
            found,
            receipt,
            reply,
            cache,
        } = receive(alloc, manifest, delivery, first, before)?;
        let noted = Noted {
            receipt: Some(receipt),
            cache,
        };
        let assessed = Assessed { content, found };
        let store = &mut self.store;
        let decision = decide_arrival(store, alloc, noted, assessed, &mut self.reread)?;
        Ok(Answer { reply, decision })
    }

    // What a duplicate of an arrival with this reply is answered.
    #[tactic(auto, using(esc_store::specs::StandingLaws::was_honest))]
    fn answer_again<'n, 'b>(
        &mut self,
        alloc: Global,
        reply: Reply,
        content: Content<'b>,
    ) -> Result<Answer<'n, 'b>, StoreFault>
        ensures same { IsAsBefore S.Store self.old.store self.new.store }
        ensures forgotten { self.new.cache ≡ None }
        ensures sound { IfOk result (λ p. IsSound self.new.store.manifest p.decision) }
        ensures answers { IsHonest S.Store self.new.store
            → (e : List EventValue) (n : List ℕ) (k : StoreState)
            → IsAsked S.Store self.old.store self.old.cache n content.entry.digest (Some reply) e k
            → IfOk result (IsAnswer e (an_arrival n content.entry.body.now) k) }
        ensures cause { IfErr result IsArrivalFault }
        ensures full { IsHonest S.Store self.new.store
            → (e : List EventValue) (n : List ℕ) (k : StoreState)
            → IsAsked S.Store self.old.store self.old.cache n content.entry.digest (Some reply) e k
            → IfErr result (IsCause e (an_arrival n content.entry.body.now)) }
    {
        match reply.verdict {
            Verdict::A2 => {
                let cache = self.take_cache(alloc)?;
                let first = self.reread.take();
                let found = find(alloc, self.store.manifest(), content, first)?;
                let noted = Noted {
                    receipt: None,
                    cache,
                };
                let assessed = Assessed { content, found };
                let store = &mut self.store;
                let decision = decide_arrival(store, alloc, noted, assessed, &mut self.reread)?;
                Ok(Answer { reply, decision })
            }
            Verdict::A1 | Verdict::A3(_) | Verdict::A4 | Verdict::A5 => {
                let cache = self.cache.take();
                Ok(Answer {
                    reply,
                    decision: Decision::still(None, cache, Storing::Nothing),
                })
            }
        }
    }
}
