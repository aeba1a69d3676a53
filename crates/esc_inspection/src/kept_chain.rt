//! The chain that is kept, and whether it is the latest one of the held rows.

ghost use Rattle.std.specs.Prelude.{◌≡◌, true, List, map, IfOk, IfErr};
ghost use Rattle.std.specs.FinSet as set;
ghost use Rattle.esc_apply.specs.declared.front.Step.{Step};
ghost use Rattle.esc_chain.specs.Chain.{IsLatestChainAt};
ghost use Rattle.esc_events.specs.Apart.{WhereApart};
ghost use Rattle.esc_events.specs.Events.{EventValue, union};
ghost use Rattle.esc_events.specs.LatestTables.{IsChainOf};
ghost use Rattle.esc_store.specs.Faults.{IsFailure};
ghost use Rattle.esc_desk.specs.Reading.{IsReadOf, OkForEvents};

use esc_acceptance::is_latest;
use esc_apply::Step;
use esc_bundle::NoMemory;
use esc_desk::{Cause, Reads, StoreFault};
use std::alloc::Global;

/// The chain that is kept.
#[derive(Drop)]
pub struct KeptChain {
    /// Its rows, from the first to the last, as indices from 0.
    pub rows: Vec<usize>,
    /// Whether it is the latest chain of the held rows.
    pub is_latest: bool,
}

// The rows of steps.
fn rows_of(alloc: Global, steps: &[Step]) -> Result<Vec<usize>, NoMemory>
    ensures { IfOk result (λ rows. rows.items ≡ map (λ (s : Step). s.row) steps.now) }
{
    let mut rows = Vec::new(alloc);
    for step in steps {
        rows.push(step.row)?;
    }
    Ok(rows)
}

/// Reads the chain that is kept, and compares it with the latest one of these held rows, up to a
/// moment. It is compared as it was read, whether the disk is honest or not.
#[tactic(auto, using(crate::proofs::Reading::reads_stay))]
pub(crate) fn read_kept_chain<R: Reads>(
    alloc: Global,
    reader: &mut R,
    held: &[usize],
    moment: Option<i64>,
) -> Result<KeptChain, StoreFault>
    ensures read { IsReadOf R.follows R.reflects reader.old reader.new result }
    ensures rows { OkForEvents R.is_honest R.reflects reader.old reader.new result
        (λ e kept. WhereApart e (IsChainOf e kept.rows.items)) }
    ensures latest { (e : List EventValue) → R.reflects reader.old e
        → IfOk result (λ kept. kept.is_latest ≡ true
        → IsLatestChainAt (union e) (set.from_list held.now) moment kept.rows.items) }
    ensures cause { IfErr result IsFailure }
{
    let steps = reader.chain(alloc)?;
    let rows = rows_of(alloc, &steps)?;
    let found = is_latest(alloc, reader.manifest(), held, moment, &rows)?;
    match found {
        Some(is_latest) => Ok(KeptChain { rows, is_latest }),
        None => Err(StoreFault::Failed(Cause::Contradiction)),
    }
}
