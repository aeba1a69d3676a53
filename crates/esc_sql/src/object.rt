//! The table of objects: a record for each kind and key.

ghost use Rattle.std.specs.Prelude.{◌≡◌, map, option_map, length, IfOk};
ghost use Rattle.std.specs.List.{flat_map};
ghost use Rattle.sqlite.specs.Held.{state};
ghost use Rattle.sqlite.specs.Values.{bound};
ghost use Rattle.esc_sql.specs.Part.{IsPart, IsRead};
ghost use Rattle.esc_sql.specs.Content.{object_at};
ghost use Rattle.esc_sql.specs.Changes.{Becomes, Tells, AddsObject, PutsObject, PutsObjects};
ghost use Rattle.esc_sql.specs.Changes.{RemovesObject, without_objects, ObjectEntry};
ghost use Rattle.esc_sql.specs.Changes.{ListsKinds};
ghost use Rattle.esc_sql.specs.Entries.{stored_entry, new_entry, shown_entry};
ghost use Rattle.esc_sql.specs.StatementSteps.{ShowsObject, ShowsKinds};

use crate::reader::{FromRow, read_rows};
use crate::within::{count_within, write_within};
use sqlite::types::{ToSql, ValueRef};
use sqlite::{Alter, Connection, Error, ErrorCode, Row, params};
use std::alloc::Global;

/// How many rows `insert_objects` and `undo::insert_images` add by one statement.
pub const ROWS_AT_ONCE: usize = 32;

/// An object of the table: its kind (0 to 5), the bytes of its key's text, and its record.
#[derive(Debug, Drop)]
pub struct StoredObject {
    pub kind: u32,
    pub key: Vec<u8>,
    pub record: Vec<u8>,
}

/// An object to be added: its kind (0 to 5), the bytes of its key's text, and its record.
#[derive(Debug, Drop)]
pub struct NewObject<'a> {
    pub kind: u32,
    pub key: &'a [u8],
    pub record: Vec<u8>,
}

/// Adds an object at a key that has none. If the key has one already, it is an error.
pub fn insert_object<S: Alter>(
    conn: &mut Connection<S>,
    kind: u32,
    key: &[u8],
    bytes: &[u8],
) -> Result<(), Error>
    ensures part { IsPart (state S.Store conn.old) (state S.Store conn.new)
        (AddsObject kind key.now bytes.now) result }
{
    write_within(
        conn,
        "INSERT INTO object (kind, key, record) VALUES (?1, ?2, ?3)",
        params![kind, key, bytes],
    )
}

/// Writes the record of the key, in place of an earlier one.
// Most keys that are put are there already, so the update comes first.
pub fn put_object<S: Alter>(
    conn: &mut Connection<S>,
    kind: u32,
    key: &[u8],
    bytes: &[u8],
) -> Result<(), Error>
    ensures part { IsPart (state S.Store conn.old) (state S.Store conn.new)
        (PutsObject kind key.now bytes.now) result }
{
    let updated = count_within(
        conn,
        "UPDATE object SET record = ?3 WHERE kind = ?1 AND key = ?2",
        params![kind, key, bytes],
    )?;
    if updated == 0 {
        insert_object(conn, kind, key, bytes)?;
    }
    Ok(())
}

// The parameters that add these objects, row by row. Out of memory is an error.
fn object_params<'a, 'b>(
    alloc: Global,
    rows: &'a [NewObject<'b>],
) -> Result<Vec<ValueRef<'a>>, Error>
    ensures params { IfOk result (λ all. bound all.items
        ≡ flat_map shown_entry (map new_entry rows.now)) }
{
    let mut all = Vec::new(alloc);
    for at in 0..rows.len() {
        let row = &rows[at];
        let values = [row.kind.to_sql(), row.key.to_sql(), row.record.to_sql()];
        if all.extend_from_slice(&values).is_err() {
            return Err(Error::SqliteFailure(ErrorCode::OutOfMemory));
        }
    }
    Ok(all)
}

/// Adds objects at keys that have none, by one statement. If a key has one already, or comes
/// twice, it is an error.
pub fn insert_objects<S: Alter>(
    alloc: Global,
    conn: &mut Connection<S>,
    rows: &[NewObject<'_>],
) -> Result<(), Error>
    requires { length rows.now ≡ ROWS_AT_ONCE }
    ensures part { IsPart (state S.Store conn.old) (state S.Store conn.new)
        (PutsObjects (map new_entry rows.now)) result }
{
    let params = object_params(alloc, rows)?;
    write_within(
        conn,
        "INSERT INTO object (kind, key, record) VALUES \
         (?, ?, ?), (?, ?, ?), (?, ?, ?), (?, ?, ?), (?, ?, ?), (?, ?, ?), (?, ?, ?), (?, ?, ?), \
         (?, ?, ?), (?, ?, ?), (?, ?, ?), (?, ?, ?), (?, ?, ?), (?, ?, ?), (?, ?, ?), (?, ?, ?), \
         (?, ?, ?), (?, ?, ?), (?, ?, ?), (?, ?, ?), (?, ?, ?), (?, ?, ?), (?, ?, ?), (?, ?, ?), \
         (?, ?, ?), (?, ?, ?), (?, ?, ?), (?, ?, ?), (?, ?, ?), (?, ?, ?), (?, ?, ?), (?, ?, ?)",
        params.as_slice(),
    )
}

/// Removes the object at the key, if there is one.
pub fn delete_object<S: Alter>(conn: &mut Connection<S>, kind: u32, key: &[u8]) -> Result<(), Error>
    ensures part { IsPart (state S.Store conn.old) (state S.Store conn.new)
        (RemovesObject kind key.now) result }
{
    write_within(
        conn,
        "DELETE FROM object WHERE kind = ?1 AND key = ?2",
        params![kind, key],
    )
}

/// Removes every object.
pub fn clear_objects<S: Alter>(conn: &mut Connection<S>) -> Result<(), Error>
    ensures part { IsPart (state S.Store conn.old) (state S.Store conn.new)
        (Becomes without_objects) result }
{
    write_within(conn, "DELETE FROM object", &[])
}

fn ask_object<S: Alter>(conn: &mut Connection<S>, kind: u32, key: &[u8]) -> Result<Vec<Row>, Error>
    ensures read { IsRead (state S.Store conn.old) (state S.Store conn.new)
        (λ db rows. Tells (ShowsObject kind key.now) db rows.items) result }
{
    conn.query_all(
        "SELECT record FROM object WHERE kind = ?1 AND key = ?2",
        params![kind, key],
    )
}

/// The record at the key, if there is one.
pub fn find_object<S: Alter>(
    conn: &mut Connection<S>,
    kind: u32,
    key: &[u8],
) -> Result<Option<Vec<u8>>, Error>
    ensures read { IsRead (state S.Store conn.old) (state S.Store conn.new)
        (Tells (λ c found. option_map (λ b. b.items) found ≡ object_at kind key.now c.objects))
        result }
{
    let rows = ask_object(conn, kind, key)?;
    match rows.first() {
        Some(row) => Ok(Some(row.get(0)?)),
        None => Ok(None),
    }
}

fn ask_kinds<S: Alter>(conn: &mut Connection<S>) -> Result<Vec<Row>, Error>
    ensures read { IsRead (state S.Store conn.old) (state S.Store conn.new)
        (λ db rows. Tells ShowsKinds db rows.items) result }
{
    conn.query_all("SELECT kind FROM object ORDER BY kind, key", &[])
}

impl FromRow for StoredObject {
    ghost is_read = { λ row it. (r : ObjectEntry) → row ≡ shown_entry r → stored_entry it ≡ r };

    fn from_row(row: &Row) -> Result<StoredObject, Error> {
        Ok(StoredObject {
            kind: row.get(0)?,
            key: row.get(1)?,
            record: row.get(2)?,
        })
    }
}

/// The kind of each object, in ascending order: from these the objects of each kind are counted.
pub fn object_kinds<S: Alter>(alloc: Global, conn: &mut Connection<S>) -> Result<Vec<u32>, Error>
    ensures read { IsRead (state S.Store conn.old) (state S.Store conn.new)
        (Tells (λ c found. ListsKinds c found.items)) result }
{
    let rows = ask_kinds(conn)?;
    read_rows(alloc, &rows)
}
