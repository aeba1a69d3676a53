//! The table of the manifest's rows.

ghost use Rattle.std.specs.Prelude.{◌≡◌, map};
ghost use Rattle.sqlite.specs.Held.{state};
ghost use Rattle.esc_sql.specs.Part.{IsPart, IsRead};
ghost use Rattle.esc_sql.specs.Rows.{ListedRow, shown_listed};
ghost use Rattle.esc_sql.specs.Changes.{Tells, PutsListed};
ghost use Rattle.esc_sql.specs.Entries.{listed_row};
ghost use Rattle.esc_sql.specs.StatementSteps.{ShowsListed};

use crate::reader::{FromRow, read_rows};
use crate::within::write_within;
use sqlite::{Alter, Connection, Error, Row, params};
use std::alloc::Global;

/// A row of the manifest: its index from 0, the deposit's id and type (0 DIFF, 1 INCR, 2 FULL), its
/// watermark in nanoseconds since 1970-01-01T00:00:00Z, its previous id, its resend, and the
/// SHA-256 of its bundle.
#[derive(Debug, Drop)]
pub struct Listed {
    pub row: u32,
    pub id: String,
    pub kind: u32,
    pub watermark: i64,
    pub prev: Option<String>,
    pub resend: u32,
    pub digest: Vec<u8>,
}

/// Adds a row, in the order of indices. A row whose index, digest, or place and resend are there
/// already is an error.
pub fn insert_listed<S: Alter>(conn: &mut Connection<S>, listed: &Listed) -> Result<(), Error>
    ensures part { IsPart (state S.Store conn.old) (state S.Store conn.new)
        (PutsListed (listed_row listed.now)) result }
{
    write_within(
        conn,
        "INSERT INTO listed (row, id, type, watermark, prev, resend, digest) VALUES (?1, ?2, ?3, ?4, ?5, ?6, ?7)",
        params![
            listed.row,
            &listed.id,
            listed.kind,
            &listed.watermark,
            &listed.prev,
            listed.resend,
            &listed.digest
        ],
    )
}

fn ask_listed<S: Alter>(conn: &mut Connection<S>) -> Result<Vec<Row>, Error>
    ensures read { IsRead (state S.Store conn.old) (state S.Store conn.new)
        (λ db rows. Tells ShowsListed db rows.items) result }
{
    conn.query_all(
        "SELECT row, id, type, watermark, prev, resend, digest FROM listed ORDER BY row",
        &[],
    )
}

impl FromRow for Listed {
    ghost is_read = { λ row it. (r : ListedRow) → row ≡ shown_listed r → listed_row it ≡ r };

    fn from_row(row: &Row) -> Result<Listed, Error> {
        Ok(Listed {
            row: row.get(0)?,
            id: row.get(1)?,
            kind: row.get(2)?,
            watermark: row.get(3)?,
            prev: row.get(4)?,
            resend: row.get(5)?,
            digest: row.get(6)?,
        })
    }
}

/// All rows, in the order of their indices.
pub fn all_listed<S: Alter>(alloc: Global, conn: &mut Connection<S>) -> Result<Vec<Listed>, Error>
    ensures read { IsRead (state S.Store conn.old) (state S.Store conn.new)
        (Tells (λ c found. map listed_row found.items ≡ c.listed)) result }
{
    let rows = ask_listed(conn)?;
    read_rows(alloc, &rows)
}
