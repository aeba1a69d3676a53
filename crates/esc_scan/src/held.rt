//! The table of held bodies.

ghost use Rattle.std.specs.Prelude.{◌≡◌, option_map};
ghost use Rattle.sqlite_trees.specs.View.{IsClean};
ghost use Rattle.esc_sql.specs.StoreTable.{Held};
ghost use Rattle.esc_sql.specs.Changes.{body_of};
ghost use Rattle.esc_scan.specs.Scanning.{ReadsRow, IsScan};
ghost use Rattle.esc_scan.specs.Bodies.{body_read, body_of_row, held_bytes};

use crate::cursor::read_at;
use crate::rows::{FromEntry, ScanError, value_at};
use sqlite_trees::store::{Shape, Store};
use sqlite_value::row::Row;
use std::alloc::Global;

/// The number of the table's tree.
pub const HELD_TREE: u32 = 6;

/// A held body: the index of the manifest's row, from 0, and the bytes.
#[derive(Debug, Drop)]
pub struct HeldBody {
    pub row: u32,
    pub body: Vec<u8>,
}

impl FromEntry for HeldBody {
    ghost is_read = { ReadsRow Held body_read body_of_row };

    fn from_entry(alloc: Global, row: &Row) -> Result<HeldBody, ScanError> {
        Ok(HeldBody {
            row: value_at(alloc, row, 0)?,
            body: value_at(alloc, row, 2)?,
        })
    }
}

// The bytes of a held body, if there is one.
fn bytes_in(found: Option<HeldBody>) -> Option<Vec<u8>>
    ensures { option_map (λ b. b.items) result ≡ option_map held_bytes found }
{
    match found {
        Some(HeldBody { row: _, body }) => Some(body),
        None => None,
    }
}

/// The body of the row with this index, from 0, if it is held. No other body is read.
pub fn find_body<S: Store>(
    alloc: Global,
    store: &mut S,
    row: u32,
) -> Result<Option<Vec<u8>>, ScanError>
    requires { IsClean (S.Store.view store.old)
        → (S.Store.view store.old).shape HELD_TREE ≡ Shape.Table }
    ensures read { IsScan S.Store store.old store.new
        (λ c found. option_map (λ b. b.items) found ≡ body_of row c.held) result }
{
    let found = read_at(alloc, store, HELD_TREE, i64::from(row))?;
    Ok(bytes_in(found))
}
