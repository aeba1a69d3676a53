//! The steps of a chain as the tables keep them, and back.

ghost use Rattle.std.specs.Prelude.{◌≡◌, ◌+◌, ℕ, List, map, IfOk, IfErr};
ghost use Rattle.esc_sql.specs.Entries.{step_row};
ghost use Rattle.esc_store.specs.Faults.{IsFailure};
ghost use Rattle.esc_store.specs.TypedRows.{steps_from};
ghost use Rattle.esc_store.specs.StoreState.{step_at};

use crate::cause::{Cause, Table};
use crate::codec::small;
use crate::fault::StoreFault;
use esc_apply::Step;
use esc_manifest::Manifest;
use esc_sql::step::ChainStep;
use std::alloc::Global;

const FOREIGN: StoreFault = StoreFault::Failed(Cause::ForeignRow(Table::Step));

// Steps of a chain as their table keeps them, which numbers all from 1: those past the first ones,
// which are as many as `front`.
pub(crate) fn stored_steps(
    alloc: Global,
    front: usize,
    steps: &[Step],
) -> Result<Vec<ChainStep>, StoreFault>
    ensures rows { IfOk result (λ stored. map step_row stored.items
        ≡ steps_from (front + 1) (map (λ step. step.row) steps.now)) }
    ensures cause { IfErr result IsFailure }
{
    let mut stored = Vec::new(alloc);
    for at in 0..steps.len() {
        let pos = small(front.saturating_add(at + 1))?;
        let row = small(steps[at].row)?;
        stored.push(ChainStep { pos, row })?;
    }
    Ok(stored)
}

// The step that a row of the table of steps keeps.
fn step_of(manifest: &Manifest, stored: ChainStep) -> Result<Step, StoreFault>
    ensures step { IfOk result (λ step. step ≡ step_at manifest.now stored.row) }
    ensures cause { IfErr result IsFailure }
{
    let rows = manifest.rows();
    let row = stored.row as usize;
    if row >= rows.len() {
        return Err(FOREIGN);
    }
    let listed = &rows[row].header;
    Ok(Step {
        row,
        place: listed.place,
        resend: listed.resend,
    })
}

// The steps of all rows of the table of steps.
pub(crate) fn steps_of(
    alloc: Global,
    manifest: &Manifest,
    stored: &[ChainStep],
) -> Result<Vec<Step>, StoreFault>
    ensures steps { IfOk result (λ steps. (rows : List ℕ)
        → map step_row stored.now ≡ steps_from 1 rows → steps.items
        ≡ map (step_at manifest.now) rows) }
    ensures cause { IfErr result IsFailure }
{
    let mut steps = Vec::new(alloc);
    for at in 0..stored.len() {
        let step = step_of(manifest, stored[at])?;
        steps.push(step)?;
    }
    Ok(steps)
}
