//! Pages of the table of objects.

ghost use Rattle.std.specs.Prelude.{map};
ghost use Rattle.sqlite.specs.Held.{state};
ghost use Rattle.esc_sql.specs.Part.{IsRead};
ghost use Rattle.esc_sql.specs.Changes.{Tells, ListsFrom};
ghost use Rattle.esc_sql.specs.Entries.{stored_entry};
ghost use Rattle.esc_sql.specs.StatementSteps.{ShowsFrom};

use crate::object::StoredObject;
use crate::reader::read_rows;
use sqlite::{Alter, Connection, Error, Row, params};
use std::alloc::Global;

// The test on both columns of the index makes the query a look-up and a few steps from there, and
// no sort.
fn ask_from<S: Alter>(conn: &mut Connection<S>, kind: u32, from: &[u8]) -> Result<Vec<Row>, Error>
    ensures read { IsRead (state S.Store conn.old) (state S.Store conn.new)
        (λ db rows. Tells (ShowsFrom kind from.now) db rows.items) result }
{
    conn.query_all(
        "SELECT kind, key, record FROM object WHERE kind = ?1 AND key >= ?2 ORDER BY kind, key LIMIT 256",
        params![kind, from],
    )
}

/// The first objects of a kind whose keys are not below these bytes, in the byte order of keys: at
/// most 256. The result is empty only if there is no such object.
pub fn objects_from<S: Alter>(
    alloc: Global,
    conn: &mut Connection<S>,
    kind: u32,
    from: &[u8],
) -> Result<Vec<StoredObject>, Error>
    ensures read { IsRead (state S.Store conn.old) (state S.Store conn.new)
        (Tells (λ c found. ListsFrom kind from.now c (map stored_entry found.items))) result }
{
    let rows = ask_from(conn, kind, from)?;
    read_rows(alloc, &rows)
}
