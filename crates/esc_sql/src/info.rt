//! The table of the store's version.

ghost use Rattle.sqlite.specs.Held.{state};
ghost use Rattle.esc_sql.specs.Part.{IsPart, IsRead};
ghost use Rattle.esc_sql.specs.Creation.{MakesEmpty, TellsVersion};
ghost use Rattle.esc_sql.specs.FirstVersion.{RaisesVersion};
ghost use Rattle.esc_sql.specs.StatementSteps.{ShowsVersion};

use crate::within::write_within;
use sqlite::{Alter, Connection, Error, Row};

/// Writes that the store is of version 2. That makes a store of the nine empty tables.
pub fn insert_info<S: Alter>(conn: &mut Connection<S>) -> Result<(), Error>
    ensures part { IsPart (state S.Store conn.old) (state S.Store conn.new) MakesEmpty result }
{
    write_within(conn, "INSERT INTO info (id, version) VALUES (1, 2)", &[])
}

/// Writes version 2 in place of version 1. That makes a store of version 2 of a store of version 1
/// that has all nine tables.
pub fn raise_version<S: Alter>(conn: &mut Connection<S>) -> Result<(), Error>
    ensures part { IsPart (state S.Store conn.old) (state S.Store conn.new) RaisesVersion result }
{
    write_within(conn, "UPDATE info SET version = 2", &[])
}

fn ask_version<S: Alter>(conn: &mut Connection<S>) -> Result<Vec<Row>, Error>
    ensures read { IsRead (state S.Store conn.old) (state S.Store conn.new)
        (λ db rows. ShowsVersion db rows.items) result }
{
    conn.query_all("SELECT version FROM info", &[])
}

/// The version that the store has, or `None` if the table has no row.
pub fn find_version<S: Alter>(conn: &mut Connection<S>) -> Result<Option<i64>, Error>
    ensures read { IsRead (state S.Store conn.old) (state S.Store conn.new) TellsVersion result }
{
    let rows = ask_version(conn)?;
    match rows.first() {
        Some(row) => Ok(Some(row.get(0)?)),
        None => Ok(None),
    }
}
