//! The table of the chain's steps, counted from 1.

ghost use Rattle.std.specs.Prelude.{◌≡◌, map};
ghost use Rattle.sqlite.specs.Held.{state};
ghost use Rattle.esc_sql.specs.Part.{IsPart, IsRead};
ghost use Rattle.esc_sql.specs.Rows.{StepRow, shown_step};
ghost use Rattle.esc_sql.specs.Changes.{Becomes, Tells, AddsStep, steps_before};
ghost use Rattle.esc_sql.specs.Entries.{step_row};
ghost use Rattle.esc_sql.specs.StatementSteps.{ShowsSteps};

use crate::reader::{FromRow, read_rows};
use crate::within::write_within;
use sqlite::{Alter, Connection, Error, Row, params};
use std::alloc::Global;

/// A step of the chain: its number from 1, and the index of the manifest's row.
#[derive(Clone, Copy, Debug)]
pub struct ChainStep {
    pub pos: u32,
    pub row: u32,
}

/// Removes the steps from number `pos` on; those before it stay.
pub fn clear_steps_from<S: Alter>(conn: &mut Connection<S>, pos: u32) -> Result<(), Error>
    ensures part { IsPart (state S.Store conn.old) (state S.Store conn.new)
        (Becomes (steps_before pos)) result }
{
    write_within(conn, "DELETE FROM step WHERE pos >= ?1", params![pos])
}

/// Adds a step after the others, of a row that is held.
pub fn insert_step<S: Alter>(conn: &mut Connection<S>, step: ChainStep) -> Result<(), Error>
    ensures part { IsPart (state S.Store conn.old) (state S.Store conn.new)
        (AddsStep (step_row step)) result }
{
    write_within(
        conn,
        "INSERT INTO step (pos, row) VALUES (?1, ?2)",
        params![step.pos, step.row],
    )
}

fn ask_steps<S: Alter>(conn: &mut Connection<S>) -> Result<Vec<Row>, Error>
    ensures read { IsRead (state S.Store conn.old) (state S.Store conn.new)
        (λ db rows. Tells ShowsSteps db rows.items) result }
{
    conn.query_all("SELECT pos, row FROM step ORDER BY pos", &[])
}

impl FromRow for ChainStep {
    ghost is_read = { λ row it. (r : StepRow) → row ≡ shown_step r → step_row it ≡ r };

    fn from_row(row: &Row) -> Result<ChainStep, Error> {
        Ok(ChainStep {
            pos: row.get(0)?,
            row: row.get(1)?,
        })
    }
}

/// All steps, in the order of their numbers.
pub fn all_steps<S: Alter>(alloc: Global, conn: &mut Connection<S>) -> Result<Vec<ChainStep>, Error>
    ensures read { IsRead (state S.Store conn.old) (state S.Store conn.new)
        (Tells (λ c found. map step_row found.items ≡ c.steps)) result }
{
    let rows = ask_steps(conn)?;
    read_rows(alloc, &rows)
}
