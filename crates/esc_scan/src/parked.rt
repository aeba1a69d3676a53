//! The table of parked bodies.

ghost use Rattle.std.specs.Prelude.{◌≡◌, map};
ghost use Rattle.esc_sql.specs.StoreTable.{Parked};
ghost use Rattle.esc_scan.specs.Scanning.{ReadsRow, IsScan};
ghost use Rattle.esc_scan.specs.Bodies.{parked_size, size_of_parked};

use crate::cursor::read_all;
use crate::rows::{FromEntry, ScanError, size_at, value_at};
use sqlite_trees::store::Store;
use sqlite_value::row::Row;
use std::alloc::Global;

// The number of the table's tree.
const PARKED_TREE: u32 = 13;

/// How large a parked body is: its SHA-256, and the number of bytes.
#[derive(Debug, Drop)]
pub struct ParkedSize {
    pub digest: Vec<u8>,
    pub size: u64,
}

impl FromEntry for ParkedSize {
    ghost is_read = { ReadsRow Parked parked_size size_of_parked };

    fn from_entry(alloc: Global, row: &Row) -> Result<ParkedSize, ScanError> {
        Ok(ParkedSize {
            digest: value_at(alloc, row, 1)?,
            size: size_at(row, 2)?,
        })
    }
}

/// The digests of the parked bodies, each with the body's size, in the order of rowids. Each body
/// is read, one at a time, and none is kept.
pub fn all_parked<S: Store>(alloc: Global, store: &mut S) -> Result<Vec<ParkedSize>, ScanError>
    ensures read { IsScan S.Store store.old store.new
        (λ c found. map parked_size found.items ≡ map size_of_parked c.parked) result }
{
    read_all(alloc, store, PARKED_TREE)
}
