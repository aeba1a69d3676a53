//! How the registry gets from the chain that the store keeps to another one.

ghost use Rattle.std.specs.Prelude.{◌≡◌, ◌≤◌, ◌<◌, ◌++◌, ◌∷◌, [], length, map, IfOk, IfErr, IsTrue};
ghost use Rattle.esc_store.specs.Faults.{IsFailure};
ghost use Rattle.esc_store.specs.StoreState.{step_at};
ghost use Rattle.esc_events.specs.Plans.{AllInRange, AreLatestSteps};
ghost use Rattle.esc_desk.specs.Edits.{IsSoundPlan};
ghost use Rattle.esc_desk.specs.Lengthening.{IsChainWithout, Lengthens};

use esc_apply::Step;
use esc_bundle::NoMemory;
use esc_chain::{Held, goes_at_end, latest_chain_at};
use esc_events::{Cache, Plan};
use esc_manifest::{MOST_LISTED_ROWS, MRow, Manifest};
use esc_store::{Cause, StoreFault};
use std::alloc::Global;
use std::mem;

// The steps of the latest chain of these rows up to a moment. `S1` if one of them isn't a row of
// the manifest; `S2`.
fn latest_steps(
    alloc: Global,
    manifest: &Manifest,
    rows: &[usize],
    moment: Option<i64>,
) -> Result<Vec<Step>, StoreFault>
    ensures few { IfOk result (λ steps. length steps.items ≤ 4096) }
    ensures steps { IfOk result
        (λ steps. AreLatestSteps manifest.now rows.now moment steps.items) }
    ensures cause { IfErr result IsFailure }
{
    let held = Held::from_rows(alloc, manifest, rows)?.ok_or(StoreFault::Failed(
        Cause::Contradiction,
    ))?;
    let chain = latest_chain_at(alloc, manifest, &held, moment)?;
    Ok(steps_of(alloc, manifest.rows(), &chain)?)
}

// The steps of the latest chain of the held rows up to a moment, where the cached chain is that of
// the rows but for one. Where that row goes at its end, no chain is made anew. `S1`, `S2` as of
// `latest_steps`.
fn steps_with(
    alloc: Global,
    manifest: &Manifest,
    cache: &Cache,
    moment: Option<i64>,
    row: usize,
) -> Result<Vec<Step>, StoreFault>
    ensures few { IfOk result (λ steps. length steps.items ≤ 4096) }
    ensures steps { IfOk result
        (λ steps. IsChainWithout manifest.now cache.now.held_rows.items moment row
        cache.now.chain.items
        → AreLatestSteps manifest.now cache.now.held_rows.items moment steps.items) }
    ensures cause { IfErr result IsFailure }
{
    let chain = cache.chain.as_slice();
    let rows = cache.held_rows.as_slice();
    if lengthens(manifest, chain, rows, moment, row) {
        let last = step_of(manifest.rows(), row);
        return Ok(with_step(alloc, chain, last)?);
    }
    latest_steps(alloc, manifest, rows, moment)
}

// Whether a row goes at the end of the chain with these steps.
fn lengthens(
    manifest: &Manifest,
    chain: &[Step],
    rows: &[usize],
    moment: Option<i64>,
    row: usize,
) -> bool
    ensures longer { IsTrue result → Lengthens manifest.now rows.now moment row chain.now }
{
    let Some(end) = chain.last().copied() else {
        return false;
    };
    if chain.len() >= MOST_LISTED_ROWS {
        return false;
    }
    goes_at_end(manifest, rows, moment, end.place, row)
}

// The steps with one more.
fn with_step(alloc: Global, steps: &[Step], last: Step) -> Result<Vec<Step>, NoMemory>
    requires { length steps.now < 4096 }
    ensures { IfOk result (λ more. more.items ≡ steps.now ++ last ∷ []) }
{
    let mut more = Vec::with_capacity(alloc, steps.len() + 1)?;
    more.extend_from_slice(steps)?;
    more.push(last)?;
    Ok(more)
}

// The steps of rows.
fn steps_of(alloc: Global, rows: &[MRow], chain: &[usize]) -> Result<Vec<Step>, NoMemory>
    requires { AllInRange rows.now chain.now }
    ensures { IfOk result (λ steps. steps.items ≡ map (step_at rows.now) chain.now) }
{
    let mut steps = Vec::new(alloc);
    for row in chain {
        steps.push(step_of(rows, *row))?;
    }
    Ok(steps)
}

fn step_of(rows: &[MRow], row: usize) -> Step
    requires { row < length rows.now }
    ensures { result ≡ step_at rows.now row }
{
    let header = &rows[row].header;
    Step {
        row,
        place: header.place,
        resend: header.resend,
    }
}

/// Plans the move from the cached chain, which is taken, to the latest chain of the held rows up to
/// a moment. `S1` if the cached chain has more steps than a manifest may have rows, or if one of
/// the held rows isn't the manifest's; `S2`.
pub(crate) fn plan_latest(
    alloc: Global,
    manifest: &Manifest,
    cache: &mut Cache,
    moment: Option<i64>,
) -> Result<Plan, StoreFault>
    ensures held { cache.new.held_rows ≡ cache.old.held_rows }
    ensures told { cache.new.rows_with_receipt ≡ cache.old.rows_with_receipt }
    ensures sound { IfOk result IsSoundPlan }
    ensures old { IfOk result (λ p. p.old.items ≡ cache.old.chain.items) }
    ensures latest { IfOk result
        (λ p. AreLatestSteps manifest.now cache.old.held_rows.items moment p.new.items) }
    ensures cause { IfErr result IsFailure }
{
    let new = latest_steps(alloc, manifest, &cache.held_rows, moment)?;
    plan_to(alloc, cache, new)
}

/// As [`plan_latest`], where the cached chain is the latest one of the held rows but for `row`,
/// whose body has just arrived.
pub(crate) fn plan_arrived(
    alloc: Global,
    manifest: &Manifest,
    cache: &mut Cache,
    moment: Option<i64>,
    row: usize,
) -> Result<Plan, StoreFault>
    ensures held { cache.new.held_rows ≡ cache.old.held_rows }
    ensures told { cache.new.rows_with_receipt ≡ cache.old.rows_with_receipt }
    ensures sound { IfOk result IsSoundPlan }
    ensures old { IfOk result (λ p. p.old.items ≡ cache.old.chain.items) }
    ensures latest { IfOk result (λ p.
        IsChainWithout manifest.now cache.old.held_rows.items moment row cache.old.chain.items
        → AreLatestSteps manifest.now cache.old.held_rows.items moment p.new.items) }
    ensures cause { IfErr result IsFailure }
{
    let new = steps_with(alloc, manifest, cache, moment, row)?;
    plan_to(alloc, cache, new)
}

// Plans the move from the cached chain, which is taken, to these steps.
fn plan_to(alloc: Global, cache: &mut Cache, new: Vec<Step>) -> Result<Plan, StoreFault>
    requires few { length new.items ≤ 4096 }
    ensures held { cache.new.held_rows ≡ cache.old.held_rows }
    ensures told { cache.new.rows_with_receipt ≡ cache.old.rows_with_receipt }
    ensures sound { IfOk result IsSoundPlan }
    ensures old { IfOk result (λ p. p.old.items ≡ cache.old.chain.items) }
    ensures new { IfOk result (λ p. p.new ≡ new) }
    ensures cause { IfErr result IsFailure }
{
    let old = mem::replace(&mut cache.chain, Vec::new(alloc));
    if old.len() > MOST_LISTED_ROWS {
        return Err(StoreFault::Failed(Cause::Contradiction));
    }
    Ok(Plan { old, new })
}
