//! The table of the manifest's rows.

ghost use Rattle.std.specs.Prelude.{◌≡◌, map};
ghost use Rattle.esc_sql.specs.StoreTable.{Listed as listed_rows};
ghost use Rattle.esc_sql.specs.Entries.{listed_row};
ghost use Rattle.esc_scan.specs.Scanning.{ReadsRow, IsScan};

use crate::cursor::read_all;
use crate::rows::{FromEntry, ScanError, value_at};
use esc_sql::listed::Listed;
use sqlite_trees::store::Store;
use sqlite_value::row::Row;
use std::alloc::Global;

// The number of the table's tree.
const LISTED_TREE: u32 = 1;

impl FromEntry for Listed {
    ghost is_read = { ReadsRow listed_rows listed_row (λ r. r) };

    fn from_entry(alloc: Global, row: &Row) -> Result<Listed, ScanError> {
        Ok(Listed {
            row: value_at(alloc, row, 0)?,
            id: value_at(alloc, row, 2)?,
            kind: value_at(alloc, row, 3)?,
            watermark: value_at(alloc, row, 4)?,
            prev: value_at(alloc, row, 5)?,
            resend: value_at(alloc, row, 6)?,
            digest: value_at(alloc, row, 7)?,
        })
    }
}

/// All rows of the manifest, in the order of their indices.
pub fn all_listed<S: Store>(alloc: Global, store: &mut S) -> Result<Vec<Listed>, ScanError>
    ensures read { IsScan S.Store store.old store.new
        (λ c found. map listed_row found.items ≡ c.listed) result }
{
    read_all(alloc, store, LISTED_TREE)
}
