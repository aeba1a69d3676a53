//! The table of the moment, which has one row at most.

ghost use Rattle.std.specs.Prelude.{◌≡◌, IfOk, option_map, slice_get};
ghost use Rattle.sqlite_value.specs.declared.value.Value.TheVariants as Value;
ghost use Rattle.sqlite.specs.Held.{state};
ghost use Rattle.esc_sql.specs.Part.{IsPart, IsRead};
ghost use Rattle.esc_sql.specs.Content.{moment_set};
ghost use Rattle.esc_sql.specs.Changes.{Becomes, Tells};
ghost use Rattle.esc_sql.specs.Entries.{first_of};
ghost use Rattle.esc_sql.specs.Parked.{SetsMoment, without_moment, ShowsMoment};

use crate::within::write_within;
use sqlite::{Alter, Connection, Error, Row, params};

/// Removes the moment, if one is set.
pub fn clear_moment<S: Alter>(conn: &mut Connection<S>) -> Result<(), Error>
    ensures part { IsPart (state S.Store conn.old) (state S.Store conn.new)
        (Becomes without_moment) result }
{
    write_within(conn, "DELETE FROM moment", &[])
}

/// Sets the moment, in nanoseconds since 1970-01-01T00:00:00Z. If one is set already it is an
/// error.
pub fn insert_moment<S: Alter>(conn: &mut Connection<S>, watermark: i64) -> Result<(), Error>
    ensures part { IsPart (state S.Store conn.old) (state S.Store conn.new)
        (SetsMoment watermark) result }
{
    write_within(
        conn,
        "INSERT INTO moment (id, watermark) VALUES (1, ?1)",
        params![watermark],
    )
}

fn ask_moment<S: Alter>(conn: &mut Connection<S>) -> Result<Vec<Row>, Error>
    ensures read { IsRead (state S.Store conn.old) (state S.Store conn.new)
        (λ db rows. Tells ShowsMoment db rows.items) result }
{
    conn.query_all("SELECT watermark FROM moment", &[])
}

// The number in the first column of the first row, if there is one.
fn moment_in(rows: &[Row]) -> Result<Option<i64>, Error>
    ensures { IfOk result (λ found. option_map Value.Int found
        ≡ option_map first_of (slice_get rows.now 0)) }
{
    match rows.first() {
        Some(row) => Ok(Some(row.get(0)?)),
        None => Ok(None),
    }
}

/// The moment that is set, in nanoseconds since 1970-01-01T00:00:00Z, if one is.
pub fn find_moment<S: Alter>(conn: &mut Connection<S>) -> Result<Option<i64>, Error>
    ensures read { IsRead (state S.Store conn.old) (state S.Store conn.new)
        (Tells (λ c found. found ≡ moment_set c.moment)) result }
{
    let rows = ask_moment(conn)?;
    moment_in(&rows)
}
