//! The table of the chain's steps.

ghost use Rattle.std.specs.Prelude.{◌≡◌, map};
ghost use Rattle.esc_sql.specs.StoreTable.{Steps};
ghost use Rattle.esc_sql.specs.Entries.{step_row};
ghost use Rattle.esc_scan.specs.Scanning.{ReadsRow, IsScan};

use crate::cursor::read_all;
use crate::rows::{FromEntry, ScanError, value_at};
use esc_sql::step::ChainStep;
use sqlite_trees::store::Store;
use sqlite_value::row::Row;
use std::alloc::Global;

// The number of the table's tree.
const STEP_TREE: u32 = 7;

impl FromEntry for ChainStep {
    ghost is_read = { ReadsRow Steps step_row (λ r. r) };

    fn from_entry(alloc: Global, row: &Row) -> Result<ChainStep, ScanError> {
        Ok(ChainStep {
            pos: value_at(alloc, row, 0)?,
            row: value_at(alloc, row, 2)?,
        })
    }
}

/// All steps of the chain, in the order of their numbers.
pub fn all_steps<S: Store>(alloc: Global, store: &mut S) -> Result<Vec<ChainStep>, ScanError>
    ensures read { IsScan S.Store store.old store.new
        (λ c found. map step_row found.items ≡ c.steps) result }
{
    read_all(alloc, store, STEP_TREE)
}
