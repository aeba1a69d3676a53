//! What was seen of the rows of a bundle.

ghost use Rattle.std.specs.Prelude.{◌≡◌, ℕ, true, false, Ok, Err, IfOk, IfErr, OnOk};
ghost use Rattle.esc_tables.specs.TableRow.{in_table, is_whole};
ghost use Rattle.esc_tables.specs.Survey.{surveyed, unseen, is_right, verdict};

use crate::row::{has_key, is_whole};
use esc_bundle::{Fault, Refusal};
use esc_csv::Record;
use esc_envelope::Table;

/// The most rows of a bundle.
pub const MOST_ROWS: u32 = 100_000;

/// What was seen of the rows so far, all of them whole.
#[derive(Clone, Copy)]
pub struct Survey {
    /// Whether each of them has a valid key.
    has_keys: bool,
    /// How many there are, counted up to one more than the limit.
    rows: u32,
}

impl Survey {
    /// Before the first row.
    pub fn new() -> Survey
        ensures { result ≡ unseen }
    {
        Survey {
            has_keys: true,
            rows: 0,
        }
    }

    /// What was seen after one more row. A row that isn't whole is refused at once, since no other
    /// fault of rows is less.
    pub fn note(self, table: &Table, row: &Record) -> Result<Survey, Fault>
        ensures seen { IfOk result (λ s. s ≡ surveyed self (in_table table.now row.now)) }
        ensures whole { OnOk result (is_whole (in_table table.now row.now) ≡ true) }
        ensures refused { IfErr result (λ e. (why : Refusal) → e ≡ Fault.Refused why
            → (why ≡ Refusal.BrokenRow) × (is_whole (in_table table.now row.now) ≡ false)) }
    {
        if !is_whole(table, row) {
            return Err(Fault::Refused(Refusal::BrokenRow));
        }
        Ok(Survey {
            has_keys: self.has_keys && has_key(table, row),
            rows: if self.rows <= MOST_ROWS {
                self.rows + 1
            } else {
                self.rows
            },
        })
    }

    /// Whether each row so far has a valid key, and they are not too many. Once this is false, it
    /// stays false after later rows.
    pub fn is_right(self) -> bool
        ensures { result ≡ is_right self }
    {
        self.has_keys && self.rows <= MOST_ROWS
    }

    /// Returns `Ok` if each row has a valid key and they are not too many; else the lesser of U10
    /// and U11 that applies.
    pub fn verdict(self) -> Result<(), Fault>
        ensures right { OnOk result (verdict self ≡ Ok tt) }
        ensures refused { IfErr result (λ e. (why : Refusal) → e ≡ Fault.Refused why
            → verdict self ≡ Err why) }
    {
        if !self.has_keys {
            return Err(Fault::Refused(Refusal::WrongKey));
        }
        if self.rows > MOST_ROWS {
            return Err(Fault::Refused(Refusal::TooManyRows));
        }
        Ok(())
    }
}
