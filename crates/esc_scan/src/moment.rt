//! The table of the moment, which has one row at most.

ghost use Rattle.std.specs.Prelude.{◌≡◌, option_map};
ghost use Rattle.esc_sql.specs.StoreTable.{Moment};
ghost use Rattle.esc_sql.specs.Content.{moment_set};
ghost use Rattle.esc_scan.specs.Scanning.{ReadsRow, IsScan};
ghost use Rattle.esc_scan.specs.Moments.{moment_read, watermark_of_moment};

use crate::cursor::read_first;
use crate::rows::{FromEntry, ScanError, value_at};
use sqlite_trees::store::Store;
use sqlite_value::row::Row;
use std::alloc::Global;

// The number of the table's tree.
const MOMENT_TREE: u32 = 15;

// The moment, in nanoseconds since 1970-01-01T00:00:00Z.
#[derive(Clone, Copy)]
pub(crate) struct StoredMoment {
    watermark: i64,
}

impl FromEntry for StoredMoment {
    ghost is_read = { ReadsRow Moment moment_read watermark_of_moment };

    fn from_entry(alloc: Global, row: &Row) -> Result<StoredMoment, ScanError> {
        Ok(StoredMoment {
            watermark: value_at(alloc, row, 2)?,
        })
    }
}

// The moment of its row, if there is one.
fn moment_in(found: Option<StoredMoment>) -> Option<i64>
    ensures { result ≡ option_map moment_read found }
{
    match found {
        Some(moment) => Some(moment.watermark),
        None => None,
    }
}

/// The moment that is set, in nanoseconds since 1970-01-01T00:00:00Z, if one is.
pub fn find_moment<S: Store>(alloc: Global, store: &mut S) -> Result<Option<i64>, ScanError>
    ensures read { IsScan S.Store store.old store.new
        (λ c found. found ≡ moment_set c.moment) result }
{
    let found = read_first(alloc, store, MOMENT_TREE)?;
    Ok(moment_in(found))
}
