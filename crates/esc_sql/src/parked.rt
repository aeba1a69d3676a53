//! The table of parked bodies, which no row of the manifest lists, by their SHA-256.

ghost use Rattle.std.specs.Prelude.{◌≡◌, ℕ, List, length, map, option_map};
ghost use Rattle.sqlite.specs.Held.{state};
ghost use Rattle.esc_sql.specs.Part.{IsPart, IsRead};
ghost use Rattle.esc_sql.specs.Content.{parked_at};
ghost use Rattle.esc_sql.specs.Changes.{Tells};
ghost use Rattle.esc_sql.specs.Parked.{PutsParked, RemovesParked, ListsParked, ShowsParked};
ghost use Rattle.esc_sql.specs.Parked.{ShowsLength, ShowsDigests, shown_digest};

use crate::reader::{FromRow, read_rows};
use crate::within::write_within;
use sqlite::{Alter, Connection, Error, Row, params};
use std::alloc::Global;

/// Parks a body under its digest. Where one is parked under it already it is an error.
pub fn insert_parked<S: Alter>(
    conn: &mut Connection<S>,
    digest: &[u8],
    body: &[u8],
) -> Result<(), Error>
    ensures part { IsPart (state S.Store conn.old) (state S.Store conn.new)
        (PutsParked digest.now body.now) result }
{
    write_within(
        conn,
        "INSERT INTO parked (digest, body) VALUES (?1, ?2)",
        params![digest, body],
    )
}

/// Removes the body that is parked under the digest, if one is.
pub fn delete_parked<S: Alter>(conn: &mut Connection<S>, digest: &[u8]) -> Result<(), Error>
    ensures part { IsPart (state S.Store conn.old) (state S.Store conn.new)
        (RemovesParked digest.now) result }
{
    write_within(
        conn,
        "DELETE FROM parked WHERE digest = ?1",
        params![digest],
    )
}

fn ask_parked<S: Alter>(conn: &mut Connection<S>, digest: &[u8]) -> Result<Vec<Row>, Error>
    ensures read { IsRead (state S.Store conn.old) (state S.Store conn.new)
        (λ db rows. Tells (ShowsParked digest.now) db rows.items) result }
{
    conn.query_all("SELECT body FROM parked WHERE digest = ?1", params![digest])
}

/// The body that is parked under the digest, if one is.
pub fn find_parked<S: Alter>(
    conn: &mut Connection<S>,
    digest: &[u8],
) -> Result<Option<Vec<u8>>, Error>
    ensures read { IsRead (state S.Store conn.old) (state S.Store conn.new)
        (Tells (λ c found. option_map (λ b. b.items) found
        ≡ parked_at digest.now c.parked)) result }
{
    let rows = ask_parked(conn, digest)?;
    match rows.first() {
        Some(row) => Ok(Some(row.get(0)?)),
        None => Ok(None),
    }
}

fn ask_length<S: Alter>(conn: &mut Connection<S>, digest: &[u8]) -> Result<Vec<Row>, Error>
    ensures read { IsRead (state S.Store conn.old) (state S.Store conn.new)
        (λ db rows. Tells (ShowsLength digest.now) db rows.items) result }
{
    conn.query_all(
        "SELECT length(body) FROM parked WHERE digest = ?1",
        params![digest],
    )
}

/// How many bytes the body has that is parked under the digest, if one is. The body isn't returned.
pub fn parked_length<S: Alter>(
    conn: &mut Connection<S>,
    digest: &[u8],
) -> Result<Option<u64>, Error>
    ensures read { IsRead (state S.Store conn.old) (state S.Store conn.new)
        (Tells (λ c found. found ≡ option_map length (parked_at digest.now c.parked))) result }
{
    let rows = ask_length(conn, digest)?;
    match rows.first() {
        Some(row) => Ok(Some(row.get(0)?)),
        None => Ok(None),
    }
}

// The index has the order and all that is read, so no body is read.
fn ask_digests<S: Alter>(conn: &mut Connection<S>) -> Result<Vec<Row>, Error>
    ensures read { IsRead (state S.Store conn.old) (state S.Store conn.new)
        (λ db rows. Tells ShowsDigests db rows.items) result }
{
    conn.query_all("SELECT digest FROM parked ORDER BY digest", &[])
}

/// A digest is read from the first column.
impl FromRow for Vec<u8> {
    ghost is_read = { λ row it. (d : List ℕ) → row ≡ shown_digest d → it.items ≡ d };

    fn from_row(row: &Row) -> Result<Vec<u8>, Error> {
        row.get(0)
    }
}

/// The digests of the parked bodies, in byte order.
pub fn parked_digests<S: Alter>(
    alloc: Global,
    conn: &mut Connection<S>,
) -> Result<Vec<Vec<u8>>, Error>
    ensures read { IsRead (state S.Store conn.old) (state S.Store conn.new)
        (Tells (λ c found. ListsParked c (map (λ d. d.items) found.items))) result }
{
    let rows = ask_digests(conn)?;
    read_rows(alloc, &rows)
}
