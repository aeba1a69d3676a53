//! The table of the store's version, which has one row.

ghost use Rattle.std.specs.Prelude.{◌≡◌, pos, Some, IfOk, option_map};
ghost use Rattle.sqlite_value.specs.declared.value.Value.TheVariants.{Int};
ghost use Rattle.sqlite_trees.specs.View.{IsClean};
ghost use Rattle.esc_scan.specs.Scanning.{IsScan};
ghost use Rattle.esc_scan.specs.Versions.{RowTellsVersion, version_in, version_read};

use crate::cursor::read_first;
use crate::rows::{FromEntry, ScanError, value_at};
use sqlite_trees::store::Store;
use sqlite_value::row::Row;
use std::alloc::Global;

// The number of the table's tree.
const INFO_TREE: u32 = 0;

// The version of a store.
#[derive(Clone, Copy)]
pub(crate) struct StoredVersion {
    version: i64,
}

impl FromEntry for StoredVersion {
    ghost is_read = { RowTellsVersion };

    fn from_entry(alloc: Global, row: &Row) -> Result<StoredVersion, ScanError> {
        Ok(StoredVersion {
            version: value_at(alloc, row, 2)?,
        })
    }
}

// The version of its row, if there is one.
fn version_of(found: Option<StoredVersion>) -> Option<i64>
    ensures { result ≡ option_map version_read found }
{
    match found {
        Some(stored) => Some(stored.version),
        None => None,
    }
}

/// The version of the store, or `None` if its table has no row.
pub fn find_version<S: Store>(alloc: Global, store: &mut S) -> Result<Option<i64>, ScanError>
    ensures read { IsScan S.Store store.old store.new (λ _ found. found ≡ Some (pos 2)) result }
    ensures tells { IfOk result (λ found. IsClean (S.Store.view store.new)
        → option_map Int found ≡ version_in (S.Store.view store.old).trees) }
{
    let found = read_first(alloc, store, INFO_TREE)?;
    Ok(version_of(found))
}
