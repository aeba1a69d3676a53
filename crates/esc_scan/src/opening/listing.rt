//! The tables of a store as the files list them: their texts are the files' own.

ghost use Rattle.std.specs.Prelude.{◌≡◌, map, IsTrue, IfOk, OnOk};
ghost use Rattle.sqlite_store.specs.Unopened.{state_of, wanted_by, AreUsable};
ghost use Rattle.sqlite.specs.Opening.{unrooted, reported};
ghost use Rattle.esc_scan.specs.Opening.{AreNumbered, HasTables, IsRecovered};

use sqlite::{Error, ErrorCode};
use sqlite_disk::Disk;
use sqlite_store::{OpenError, Unopened};
use sqlite_trees::store::Shape;
use sqlite_value::keys::Order;
use sqlite_value::order::is_same;
use sqlite_value::row::Row;
use sqlite_value::value::ValueRef;
use std::alloc::{AllocError, Global};

/// A table without a REAL column.
const TABLE: (Shape, u64) = (Shape::Table, 0);

/// The index of a UNIQUE key, without a REAL column.
const INDEX: (Shape, u64) = (Shape::Index(Order::PLAIN), 0);

/// How many trees a store has: nine tables and seven indexes.
const TREES: usize = 16;

/// Lists the tables and indexes of a store in files, with the texts that the files have, and
/// recovers the files. False where the files don't list sixteen objects with the rowids from 1 on,
/// so that they hold no store.
pub(super) fn list_tables<D: Disk>(alloc: Global, files: &mut Unopened<D>) -> Result<bool, Error>
    requires usable { AreUsable files.old }
    ensures usable { OnOk result (AreUsable files.new) }
    ensures tables { IfOk result (λ found. IsTrue found → HasTables (wanted_by files.new)) }
    ensures honest { IsTrue (state_of files.new).is_clean → IsTrue (state_of files.old).is_clean }
    ensures same { IsTrue (state_of files.new).is_clean
        → OnOk result (IsRecovered files.old files.new) }
{
    let listed = match files.read_catalog() {
        Ok(listed) => listed,
        Err(error) => return Err(open_error(error)),
    };
    if !are_numbered(listed.as_slice()) {
        return Ok(false);
    }
    let rows = without_roots(alloc, listed.as_slice())?;
    let layouts = [
        TABLE, TABLE, INDEX, INDEX, TABLE, INDEX, TABLE, TABLE, INDEX, TABLE, INDEX, TABLE, INDEX,
        TABLE, INDEX, TABLE,
    ];
    Ok(files.list_schema(rows.as_slice(), &layouts)?)
}

/// The error of a connection that is refused like this.
pub(super) fn open_error(error: OpenError) -> Error
    ensures { result ≡ reported error }
{
    Error::SqliteFailure(match error {
        OpenError::OutOfMemory => ErrorCode::OutOfMemory,
        OpenError::Io => ErrorCode::SystemIoFailure,
        OpenError::Full => ErrorCode::DiskFull,
        OpenError::Refused => ErrorCode::DatabaseCorrupt,
    })
}

/// Whether these are as many rows as a store has trees, with the rowids from 1 on.
fn are_numbered(rows: &[Row]) -> bool
    ensures { IsTrue result → AreNumbered rows.now }
{
    if rows.len() != TREES {
        return false;
    }
    for at in 0..rows.len() {
        if !is_same(rows[at].get(0), ValueRef::Int(at as i64 + 1)) {
            return false;
        }
    }
    true
}

/// A row of the list of objects, less its root page.
fn without_root(alloc: Global, entry: &Row) -> Result<Row, AllocError>
    ensures { IfOk result (λ row. row ≡ unrooted entry.now) }
{
    let mut row = Row::new(alloc);
    row.push(entry.get(0))?;
    row.push(entry.get(1))?;
    row.push(entry.get(2))?;
    row.push(entry.get(3))?;
    row.push(entry.get(5))?;
    Ok(row)
}

fn without_roots(alloc: Global, listed: &[Row]) -> Result<Vec<Row>, AllocError>
    ensures { IfOk result (λ rows. rows.items ≡ map unrooted listed.now) }
{
    let mut rows = Vec::with_capacity(alloc, listed.len())?;
    for entry in listed {
        rows.push(without_root(alloc, entry)?)?;
    }
    Ok(rows)
}
