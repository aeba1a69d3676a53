//! The table of before-images: for each step and key, the record before the step, or none.

ghost use Rattle.std.specs.Prelude.{◌≡◌, ◌∷◌, pos, map, option_map, length, IfOk};
ghost use Rattle.std.specs.List.{flat_map};
ghost use Rattle.sqlite_value.specs.declared.value.Value.TheVariants.{Int};
ghost use Rattle.sqlite.specs.Held.{state};
ghost use Rattle.sqlite.specs.Values.{bound};
ghost use Rattle.esc_sql.specs.Part.{IsPart, IsRead};
ghost use Rattle.esc_sql.specs.Changes.{Becomes, Tells, PutsImage, PutsImages, RemovesImages};
ghost use Rattle.esc_sql.specs.Changes.{without_undo, ImageEntry, ListsImages};
ghost use Rattle.esc_sql.specs.Entries.{stored_image, new_image, shown_image_entry};
ghost use Rattle.esc_sql.specs.StatementSteps.{ShowsImages};

use crate::object::ROWS_AT_ONCE;
use crate::reader::{FromRow, read_rows};
use crate::within::write_within;
use sqlite::types::{ToSql, ValueRef};
use sqlite::{Alter, Connection, Error, ErrorCode, Row, params};
use std::alloc::Global;

/// A before-image: the kind (0 to 5), the bytes of the key's text, and the record before the step,
/// or none.
#[derive(Debug, Drop)]
pub struct StoredImage {
    pub kind: u32,
    pub key: Vec<u8>,
    pub record: Option<Vec<u8>>,
}

/// A before-image to be added: the kind (0 to 5), the bytes of the key's text, and the record
/// before the step, or none.
#[derive(Debug, Drop)]
pub struct NewImage<'a> {
    pub kind: u32,
    pub key: &'a [u8],
    pub record: Option<Vec<u8>>,
}

/// Adds a before-image of the step and the key. If there is one already it is an error.
pub fn insert_undo<S: Alter>(
    conn: &mut Connection<S>,
    at: u32,
    kind: u32,
    key: &[u8],
    before: Option<&[u8]>,
) -> Result<(), Error>
    ensures part { IsPart (state S.Store conn.old) (state S.Store conn.new)
        (PutsImage at kind key.now (option_map (λ b. b.now) before.entry)) result }
{
    write_within(
        conn,
        "INSERT INTO undo (pos, kind, key, record) VALUES (?1, ?2, ?3, ?4)",
        params![at, kind, key, before],
    )
}

// The parameters that add these before-images of the step: the step, and then row by row. Out of
// memory is an error.
fn image_params<'a, 'b>(
    alloc: Global,
    at: u32,
    rows: &'a [NewImage<'b>],
) -> Result<Vec<ValueRef<'a>>, Error>
    ensures params { IfOk result (λ all. bound all.items
        ≡ Int (pos at) ∷ flat_map shown_image_entry (map new_image rows.now)) }
{
    let mut all = Vec::new(alloc);
    if all.push(at.to_sql()).is_err() {
        return Err(Error::SqliteFailure(ErrorCode::OutOfMemory));
    }
    for row in 0..rows.len() {
        let image = &rows[row];
        let values = [
            image.kind.to_sql(),
            image.key.to_sql(),
            (&image.record).to_sql(),
        ];
        if all.extend_from_slice(&values).is_err() {
            return Err(Error::SqliteFailure(ErrorCode::OutOfMemory));
        }
    }
    Ok(all)
}

/// Adds before-images of the step, by one statement. If there is one of a key already, or a key
/// comes twice, it is an error.
pub fn insert_images<S: Alter>(
    alloc: Global,
    conn: &mut Connection<S>,
    at: u32,
    rows: &[NewImage<'_>],
) -> Result<(), Error>
    requires { length rows.now ≡ ROWS_AT_ONCE }
    ensures part { IsPart (state S.Store conn.old) (state S.Store conn.new)
        (PutsImages at (map new_image rows.now)) result }
{
    let params = image_params(alloc, at, rows)?;
    write_within(
        conn,
        "INSERT INTO undo (pos, kind, key, record) VALUES \
         (?1, ?, ?, ?), (?1, ?, ?, ?), (?1, ?, ?, ?), (?1, ?, ?, ?), (?1, ?, ?, ?), \
         (?1, ?, ?, ?), (?1, ?, ?, ?), (?1, ?, ?, ?), (?1, ?, ?, ?), (?1, ?, ?, ?), \
         (?1, ?, ?, ?), (?1, ?, ?, ?), (?1, ?, ?, ?), (?1, ?, ?, ?), (?1, ?, ?, ?), \
         (?1, ?, ?, ?), (?1, ?, ?, ?), (?1, ?, ?, ?), (?1, ?, ?, ?), (?1, ?, ?, ?), \
         (?1, ?, ?, ?), (?1, ?, ?, ?), (?1, ?, ?, ?), (?1, ?, ?, ?), (?1, ?, ?, ?), \
         (?1, ?, ?, ?), (?1, ?, ?, ?), (?1, ?, ?, ?), (?1, ?, ?, ?), (?1, ?, ?, ?), \
         (?1, ?, ?, ?), (?1, ?, ?, ?)",
        params.as_slice(),
    )
}

/// Removes the before-images of the step.
pub fn delete_undo<S: Alter>(conn: &mut Connection<S>, at: u32) -> Result<(), Error>
    ensures part { IsPart (state S.Store conn.old) (state S.Store conn.new)
        (RemovesImages at) result }
{
    write_within(conn, "DELETE FROM undo WHERE pos = ?1", params![at])
}

/// Removes every before-image.
pub fn clear_undo<S: Alter>(conn: &mut Connection<S>) -> Result<(), Error>
    ensures part { IsPart (state S.Store conn.old) (state S.Store conn.new)
        (Becomes without_undo) result }
{
    write_within(conn, "DELETE FROM undo", &[])
}

fn ask_undo<S: Alter>(conn: &mut Connection<S>, at: u32) -> Result<Vec<Row>, Error>
    ensures read { IsRead (state S.Store conn.old) (state S.Store conn.new)
        (λ db rows. Tells (ShowsImages at) db rows.items) result }
{
    conn.query_all(
        "SELECT kind, key, record FROM undo WHERE pos = ?1 ORDER BY kind, key",
        params![at],
    )
}

impl FromRow for StoredImage {
    ghost is_read = { λ row it. (r : ImageEntry) → row ≡ shown_image_entry r
        → stored_image it ≡ r };

    fn from_row(row: &Row) -> Result<StoredImage, Error> {
        Ok(StoredImage {
            kind: row.get(0)?,
            key: row.get(1)?,
            record: row.get(2)?,
        })
    }
}

/// The before-images of the step, by kind and then by the bytes of the key.
pub fn select_undo<S: Alter>(
    alloc: Global,
    conn: &mut Connection<S>,
    at: u32,
) -> Result<Vec<StoredImage>, Error>
    ensures read { IsRead (state S.Store conn.old) (state S.Store conn.new)
        (Tells (λ c found. ListsImages at c (map stored_image found.items))) result }
{
    let rows = ask_undo(conn, at)?;
    read_rows(alloc, &rows)
}
