//! The moment as of which the registry is rebuilt.

ghost use Rattle.std.specs.Prelude.{◌≡◌, None, false, IfOk, IfErr};
ghost use Rattle.esc_store.specs.Faults.{IsFailure};
ghost use Rattle.esc_store.specs.Representation.{IsAsBefore};
ghost use Rattle.esc_events.specs.Events.EventValue.{moved};
ghost use Rattle.esc_desk.specs.Calls.{DeskLeavesMade, OkForDeskEvents, ForEventsInDoubt, IsWhole};
ghost use Rattle.esc_desk.specs.Decisions.{Decides, IsDecided, IsSound};
ghost use Rattle.esc_desk.specs.Edits.{is_empty};
ghost use Rattle.esc_desk.specs.Reflection.{TakesIn};

use crate::decision::Decision;
use crate::desk::Desk;
use crate::edit::{Edit, Storing};
use crate::plan::plan_latest;
use esc_apply::{Work, read_deposits_mention_few};
use esc_chain::latest_chain_at_rows_are_held;
use esc_store::StoreFault;
use sqlite::Alter;
use std::alloc::Global;

impl<S: Alter> Desk<S> {
    /// Rebuilds the registry as of a moment, in nanoseconds since 1970-01-01T00:00:00Z: from now on
    /// the tables are those of the latest chain that ends no later than that, whatever arrives.
    /// `None` takes the moment back. Returns the work of the move. At `Err` nothing has changed:
    /// `S1`, `S2`. A crash leaves the moment that was set; after `S1` or `S2` it may leave this one
    /// set.
    pub fn as_of(&mut self, alloc: Global, moment: Option<i64>) -> Result<Work, StoreFault>
        ensures set { OkForDeskEvents S.Store self.old self.new result
            (λ e work. TakesIn S.Store self.new e (moved moment) work) }
        ensures whole { IsWhole S.Store self.old self.new result (λ work. work) }
        ensures crash { ForEventsInDoubt S.Store self.old
            (λ e doubtful. DeskLeavesMade S.Store self.new e doubtful (moved moment) result) }
        ensures cause { IfErr result IsFailure }
    {
        // Read for the proof alone: it shows that the count is below 2^64.
        let _writes = self.store.writes();
        let decision = self.decide_moment(alloc, moment)?;
        let (_number, work) = self.make(alloc, decision)?;
        Ok(work)
    }

    // What a moment comes to. What is remembered is forgotten.
    fn decide_moment<'n, 'b>(
        &mut self,
        alloc: Global,
        moment: Option<i64>,
    ) -> Result<Decision<'n, 'b>, StoreFault>
        ensures same { IsAsBefore S.Store self.old.store self.new.store }
        ensures forgotten { self.new.cache ≡ None }
        ensures sound { IfOk result (IsSound self.new.store.manifest) }
        ensures none { IfOk result (λ d. d.edit.receipt ≡ None) }
        ensures some { IfOk result (λ d. is_empty d.edit ≡ false) }
        ensures decided { Decides S.Store self.old self.new result
            (λ e k d. IsDecided e (moved moment) k d) }
        ensures cause { IfErr result IsFailure }
    {
        latest_chain_at_rows_are_held();
        read_deposits_mention_few();
        let mut cache = self.take_cache(alloc)?;
        let plan = plan_latest(alloc, self.store.manifest(), &mut cache, moment)?;
        Ok(Decision {
            edit: Edit {
                receipt: None,
                listing: None,
                body: Storing::Nothing,
                moment: Some(moment),
                plan: Some(plan),
            },
            cache: Some(cache),
        })
    }
}
