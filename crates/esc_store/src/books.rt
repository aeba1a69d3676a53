//! Parts of a change that take several statements each: the next receipt, and the chain.

ghost use Rattle.std.specs.Prelude.{◌≡◌, ◌≤◌, ℕ, List, map, IfOk, IfErr};
ghost use Rattle.sqlite.specs.Held.{state};
ghost use Rattle.esc_sql.specs.Entries.{step_row};
ghost use Rattle.esc_sql.specs.Changes.{Tells};
ghost use Rattle.esc_store.specs.Faults.{IsFailure, IsReceiptFault};
ghost use Rattle.esc_store.specs.TypedRows.{steps_from};
ghost use Rattle.esc_store.specs.ChangeParts.{AddsNext, HasMostReceipts, next_number};
ghost use Rattle.esc_store.specs.ChangeParts.{ContinuesSteps};
ghost use Rattle.esc_store.specs.Representation.{IsStep, IsHonest};

use crate::codec::receipt::stored_receipt;
use crate::fault::StoreFault;
use crate::reply::Receipt;
use crate::store::Store;
use esc_sql::step::ChainStep;
use sqlite::Alter;

/// The most receipts of a store.
pub const MOST_RECEIPTS: u32 = 1_000_000_000;

impl<S: Alter> Store<S> {
    // Adds a receipt after the others, and returns its number.
    pub(crate) fn add_next_here(&mut self, receipt: &Receipt<'_>) -> Result<u64, StoreFault>
        ensures manifest { self.new.manifest ≡ self.old.manifest }
        ensures writes { self.new.writes ≡ self.old.writes }
        ensures step { IsStep (state S.Store self.old.conn) (state S.Store self.new.conn)
            (AddsNext receipt.now) result }
        ensures number { IfOk result (λ n. IsHonest S.Store self.new
            → Tells (λ c n. n ≡ next_number c) (state S.Store self.old.conn).now n) }
        ensures room { IfOk result (λ n. n ≤ MOST_RECEIPTS) }
        ensures full { IfErr result (λ fault. fault ≡ StoreFault.NoRoom → IsHonest S.Store self.new
            → HasMostReceipts (state S.Store self.old.conn)) }
        ensures cause { IfErr result IsReceiptFault }
    {
        self.goes_on()?;
        let last = self.last_here()?;
        if last >= MOST_RECEIPTS {
            self.give_up();
            return Err(StoreFault::NoRoom);
        }
        let stored = match stored_receipt(self.alloc, last + 1, receipt) {
            Ok(stored) => stored,
            Err(fault) => {
                self.give_up();
                return Err(fault);
            }
        };
        self.add_receipt_here(&stored)?;
        Ok(u64::from(last) + 1)
    }

    // Makes these the steps of the chain from this number on. Those before it stay as they are, and
    // are not written again: each INSERT makes the database read the held body that the step names.
    pub(crate) fn continue_steps_here(
        &mut self,
        from: u32,
        steps: &[ChainStep],
    ) -> Result<(), StoreFault>
        ensures manifest { self.new.manifest ≡ self.old.manifest }
        ensures writes { self.new.writes ≡ self.old.writes }
        ensures step { (rows : List ℕ) → map step_row steps.now ≡ steps_from from rows
            → IsStep (state S.Store self.old.conn) (state S.Store self.new.conn)
            (ContinuesSteps from rows) result }
        ensures cause { IfErr result IsFailure }
    {
        self.clear_steps_from_here(from)?;
        for at in 0..steps.len() {
            self.add_step_here(steps[at])?;
        }
        Ok(())
    }
}
