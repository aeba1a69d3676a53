//! Runs: lists of events, one after another.

ghost use Rattle.std.specs.Prelude.{◌≡◌, length, IfOk, OnErr};
ghost use Rattle.esc_desk.specs.Asked.{as_event, as_events, as_outcome, as_outcomes, matched};
ghost use Rattle.esc_desk.specs.Calls.{ForDeskEvents, OkForDeskEvents, ForEventsInDoubt, WasHonest};
ghost use Rattle.esc_desk.specs.Calls.{DeskLeavesEvent, DeskLeavesRun};
ghost use Rattle.esc_desk.specs.Outcomes.{IsOutcomeOf, AreOutcomesOf};
ghost use Rattle.esc_desk.specs.Running.{Ran, Takes};

use crate::arrival::Arrival;
use crate::desk::Desk;
use crate::event::{Event, EventOutcome, Outcome};
use esc_bundle::NoMemory;
use sqlite::Alter;
use std::alloc::Global;

impl<S: Alter> Desk<S> {
    /// Takes events, one after another, and returns the outcome of each, in order.
    ///
    /// For every list of accepted manifests, arrivals and moments, in any order among each other,
    /// with repeats, losses and reorderings, the tables hold for each object what the last deposit
    /// that mentions it says on the latest unbroken chain, up to the moment set last, of the listed
    /// deposits that arrived, each at its highest arrived revision; and arrivals alike in number
    /// and body get one receipt and the first one's reply. Where the desk reflected a list of
    /// events before, it reflects that list followed by the events that were taken in, so runs
    /// compose. There is an outcome for each event:
    ///
    /// - an arrival's reply; or it is lost by `S1` or `S2`, by `S4` where it is no duplicate and
    ///   the store has 1,000,000,000 receipts, or by `S5` where its body would be parked and 1,024
    ///   others are;
    /// - how many rows an amendment added; or why it wasn't taken in, by M1 to M13, `S1` or `S2`;
    /// - that a moment was set or taken back; or why not, by `S1` or `S2`.
    ///
    /// [`Desk::writes`] grows by the writes of the work of each event that was taken in. A crash
    /// leaves the events from before the run and those that were taken in, or these and one that is
    /// in doubt. `NoMemory` is returned before the first event, and then nothing has changed.
    pub fn run_events(
        &mut self,
        alloc: Global,
        events: &[Event<'_>],
    ) -> Result<Vec<EventOutcome>, NoMemory>
        ensures ran { OkForDeskEvents S.Store self.old self.new result
            (λ before outcomes. Ran S.Store self.old self.new before events.now
            outcomes.items) }
        ensures crash { IfOk result (λ outcomes. ForEventsInDoubt S.Store self.old
            (λ before doubtful. DeskLeavesRun S.Store self.new before doubtful
            events.now outcomes.items)) }
        ensures counted { IfOk result (λ outcomes. length outcomes.items
            ≡ length events.now) }
        ensures cause { IfOk result (λ outcomes. AreOutcomesOf events.now outcomes.items) }
        ensures refused { OnErr result (self.new ≡ self.old) }
        ensures honest { WasHonest S.Store self.old self.new }
    {
        // Read for the proof alone: it shows that the count is below 2^64.
        let _writes = self.store.writes();
        let mut outcomes = Vec::with_capacity(alloc, events.len())?;
        for event in events {
            let outcome = self.take(alloc, event);
            outcomes.push_reserved(outcome);
        }
        Ok(outcomes)
    }

    /// Takes arrivals, one after another, and returns the outcome of each, in order. It has the
    /// contract of [`Desk::run_events`] over events that are arrivals. Once a manifest is accepted,
    /// the tables hold for each object what the last deposit that mentions it says on the latest
    /// unbroken chain, up to the moment that is set, if one is, of the listed deposits that
    /// arrived, each at its highest arrived revision; and arrivals alike in number and body get one
    /// receipt and the first one's reply. `NoMemory` is returned before the first arrival.
    pub fn run(&mut self, alloc: Global, arrivals: &[Arrival<'_>]) -> Result<Vec<Outcome>, NoMemory>
        ensures ran { OkForDeskEvents S.Store self.old self.new result
            (λ before outcomes. Ran S.Store self.old self.new before
            (as_events arrivals.now) (as_outcomes outcomes.items)) }
        ensures crash { IfOk result (λ outcomes. ForEventsInDoubt S.Store self.old
            (λ before doubtful. DeskLeavesRun S.Store self.new before doubtful
            (as_events arrivals.now) (as_outcomes outcomes.items))) }
        ensures counted { IfOk result (λ outcomes. length outcomes.items
            ≡ length arrivals.now) }
        ensures cause { IfOk result (λ outcomes.
            AreOutcomesOf (as_events arrivals.now) (as_outcomes outcomes.items)) }
        ensures refused { OnErr result (self.new ≡ self.old) }
        ensures honest { WasHonest S.Store self.old self.new }
    {
        // Read for the proof alone: it shows that the count is below 2^64.
        let _writes = self.store.writes();
        let mut outcomes = Vec::with_capacity(alloc, arrivals.len())?;
        for arrival in arrivals {
            let outcome = self.take_arrival(alloc, arrival);
            outcomes.push_reserved(outcome);
        }
        Ok(outcomes)
    }

    /// Takes one event, and returns its outcome: by [`Desk::arrive`], [`Desk::amend`] or
    /// [`Desk::as_of`]. It has the contract of [`Desk::run_events`] over this event alone.
    pub fn take(&mut self, alloc: Global, event: &Event<'_>) -> EventOutcome
        ensures taken { ForDeskEvents S.Store self.old self.new
            (λ e. Takes S.Store self.old self.new e event.now result) }
        ensures crash { ForEventsInDoubt S.Store self.old
            (λ e doubtful. DeskLeavesEvent S.Store self.new e doubtful event.now result) }
        ensures cause { IsOutcomeOf (matched event.now result) }
        ensures honest { WasHonest S.Store self.old self.new }
    {
        // Read for the proof alone: it shows that the count is below 2^64.
        let _writes = self.store.writes();
        match event {
            Event::Arrival(arrival) => EventOutcome::Arrived(self.take_arrival(alloc, arrival)),
            Event::Amend(text) => match self.amend(alloc, text) {
                Ok((added, _work)) => EventOutcome::Amended(Ok(added)),
                Err(fault) => EventOutcome::Amended(Err(fault)),
            },
            Event::AsOf(moment) => match self.as_of(alloc, *moment) {
                Ok(_work) => EventOutcome::Moved(Ok(())),
                Err(fault) => EventOutcome::Moved(Err(fault)),
            },
        }
    }

    fn take_arrival(&mut self, alloc: Global, arrival: &Arrival<'_>) -> Outcome
        ensures taken { ForDeskEvents S.Store self.old self.new
            (λ e. Takes S.Store self.old self.new e (as_event arrival.now) (as_outcome result)) }
        ensures crash { ForEventsInDoubt S.Store self.old
            (λ e doubtful. DeskLeavesEvent S.Store self.new e doubtful
            (as_event arrival.now) (as_outcome result)) }
        ensures cause { IsOutcomeOf (matched (as_event arrival.now) (as_outcome result)) }
        ensures honest { WasHonest S.Store self.old self.new }
    {
        // Read for the proof alone: it shows that the count is below 2^64.
        let _writes = self.store.writes();
        match self.arrive(alloc, &arrival.number, arrival.body) {
            Ok((reply, _work)) => Outcome::Done(reply),
            Err(fault) => Outcome::Lost(fault),
        }
    }
}
