//! The nine tables, and a new store.

ghost use Rattle.std.specs.Prelude.{◌≡◌, ◌<◌, map};
ghost use Rattle.sqlite.specs.Held.{state};
ghost use Rattle.esc_sql.specs.Part.{IsPart};
ghost use Rattle.esc_sql.specs.Creation.{Builds, MakesStore};
ghost use Rattle.esc_sql.specs.FirstVersion.{AddsTable, Upgrades};
ghost use Rattle.esc_sql.specs.Entries.{listed_row};
ghost use Rattle.esc_sql.specs.Schema.{no_schema, store_schema};
ghost use Rattle.esc_sql.specs.Texts.{table_text};

use crate::info::{insert_info, raise_version};
use crate::listed::{Listed, insert_listed};
use crate::within::write_within;
use sqlite::{Alter, Connection, Error};

/// The text that makes each table, in the order of the schema.
pub const TABLE_TEXTS: [&str; 9] = [
    "CREATE TABLE info (id INTEGER PRIMARY KEY CHECK (id = 1), version INTEGER NOT NULL)",
    "CREATE TABLE listed (row INTEGER PRIMARY KEY, id TEXT NOT NULL, type INTEGER NOT NULL, watermark INTEGER NOT NULL, prev TEXT, resend INTEGER NOT NULL, digest BLOB NOT NULL UNIQUE, UNIQUE (watermark, type, resend))",
    "CREATE TABLE receipt (receipt INTEGER PRIMARY KEY, number TEXT NOT NULL, digest BLOB NOT NULL, verdict INTEGER NOT NULL, fault INTEGER, row INTEGER REFERENCES listed, again INTEGER, orphans INTEGER, UNIQUE (number, digest))",
    "CREATE TABLE held (row INTEGER PRIMARY KEY REFERENCES listed, body BLOB NOT NULL)",
    "CREATE TABLE step (pos INTEGER PRIMARY KEY, row INTEGER NOT NULL UNIQUE REFERENCES held)",
    "CREATE TABLE object (kind INTEGER NOT NULL, key BLOB NOT NULL, record BLOB NOT NULL, PRIMARY KEY (kind, key))",
    "CREATE TABLE undo (pos INTEGER NOT NULL, kind INTEGER NOT NULL, key BLOB NOT NULL, record BLOB, PRIMARY KEY (pos, kind, key))",
    "CREATE TABLE parked (digest BLOB PRIMARY KEY, body BLOB NOT NULL)",
    "CREATE TABLE moment (id INTEGER PRIMARY KEY CHECK (id = 1), watermark INTEGER NOT NULL)",
];

fn table_text_at(at: usize) -> &'static str
    requires { at < 9 }
    ensures { result.now ≡ table_text at }
{
    TABLE_TEXTS[at]
}

/// Makes the table with this index in the schema, from 0, where the tables before it are all that
/// there are. They keep their rows.
fn create_table<S: Alter>(conn: &mut Connection<S>, at: usize) -> Result<(), Error>
    requires { at < 9 }
    ensures part { IsPart (state S.Store conn.old) (state S.Store conn.new)
        (AddsTable at) result }
{
    write_within(conn, table_text_at(at), &[])
}

/// Makes the nine tables, in a database that has none.
pub fn create_tables<S: Alter>(conn: &mut Connection<S>) -> Result<(), Error>
    ensures part { IsPart (state S.Store conn.old) (state S.Store conn.new)
        (Builds no_schema store_schema) result }
{
    create_table(conn, 0)?;
    for at in 1..TABLE_TEXTS.len() {
        create_table(conn, at)?;
    }
    Ok(())
}

/// Makes the store of these rows of a manifest, in ascending order of their indices, in a database
/// without any table, index or view.
pub fn build<S: Alter>(conn: &mut Connection<S>, rows: &[Listed]) -> Result<(), Error>
    ensures part { IsPart (state S.Store conn.old) (state S.Store conn.new)
        (MakesStore (map listed_row rows.now)) result }
{
    create_tables(conn)?;
    insert_info(conn)?;
    for at in 0..rows.len() {
        insert_listed(conn, &rows[at])?;
    }
    Ok(())
}

/// Makes a store of version 1 one of version 2, with the same content.
pub fn upgrade<S: Alter>(conn: &mut Connection<S>) -> Result<(), Error>
    ensures part { IsPart (state S.Store conn.old) (state S.Store conn.new) Upgrades result }
{
    create_table(conn, 7)?;
    create_table(conn, 8)?;
    raise_version(conn)
}
