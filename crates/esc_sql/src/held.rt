//! The table of held bodies, by the index of the manifest's row.

ghost use Rattle.std.specs.Prelude.{◌≡◌, option_map};
ghost use Rattle.sqlite.specs.Held.{state};
ghost use Rattle.esc_sql.specs.Part.{IsPart, IsRead};
ghost use Rattle.esc_sql.specs.Changes.{Tells, HoldsBody, body_of};
ghost use Rattle.esc_sql.specs.Entries.{held_table_row};
ghost use Rattle.esc_sql.specs.StatementSteps.{ShowsBody};

use crate::within::write_within;
use sqlite::{Alter, Connection, Error, Row, params};

/// Stores the body of the manifest's row, which has to be listed. A row that has one already is an
/// error.
pub fn insert_held<S: Alter>(conn: &mut Connection<S>, row: u32, body: &[u8]) -> Result<(), Error>
    ensures part { IsPart (state S.Store conn.old) (state S.Store conn.new)
        (HoldsBody (held_table_row row body.now)) result }
{
    write_within(
        conn,
        "INSERT INTO held (row, body) VALUES (?1, ?2)",
        params![row, body],
    )
}

fn ask_body<S: Alter>(conn: &mut Connection<S>, row: u32) -> Result<Vec<Row>, Error>
    ensures read { IsRead (state S.Store conn.old) (state S.Store conn.new)
        (λ db rows. Tells (ShowsBody row) db rows.items) result }
{
    conn.query_all("SELECT body FROM held WHERE row = ?1", params![row])
}

/// The body of the row with this index, if it is held.
pub fn find_body<S: Alter>(conn: &mut Connection<S>, row: u32) -> Result<Option<Vec<u8>>, Error>
    ensures read { IsRead (state S.Store conn.old) (state S.Store conn.new)
        (Tells (λ c found. option_map (λ b. b.items) found ≡ body_of row c.held)) result }
{
    let rows = ask_body(conn, row)?;
    match rows.first() {
        Some(row) => Ok(Some(row.get(0)?)),
        None => Ok(None),
    }
}
