//! What the end of the latest chain says.

ghost use Rattle.std.specs.Prelude.{◌≡◌, IfOk, IfErr};
ghost use Rattle.esc_events.specs.Apart.{WhereApart};
ghost use Rattle.esc_store.specs.Faults.{IsFailure};
ghost use Rattle.esc_desk.specs.Reading.{IsReadOf, OkForEvents};
ghost use Rattle.esc_inspection.specs.Parts.{AreEndingOf, counts_at};

use crate::totals::entries_of;
use esc_bundle::NoMemory;
use esc_desk::{End, Reads, StoreFault};
use esc_envelope::Kind;
use std::alloc::Global;

/// What the end of the latest chain says.
#[derive(Drop)]
pub struct Ending {
    /// What the chain's last deposit says, if there is a chain.
    pub end: Option<End>,
    /// How many objects of a kind it declares, for the kinds that it does.
    pub counts: Vec<(Kind, u64)>,
}

/// Reads the end.
#[tactic(auto, using(crate::proofs::Reading::reads_stay))]
pub(crate) fn read_ending<R: Reads>(alloc: Global, reader: &mut R) -> Result<Ending, StoreFault>
    ensures read { IsReadOf R.follows R.reflects reader.old reader.new result }
    ensures ending { OkForEvents R.is_honest R.reflects reader.old reader.new result
        (λ e ending. WhereApart e (AreEndingOf e ending.end ending.counts.items)) }
    ensures cause { IfErr result IsFailure }
{
    let end = reader.end(alloc)?;
    let counts = declared_by(alloc, &end)?;
    Ok(Ending { end, counts })
}

fn declared_by(alloc: Global, end: &Option<End>) -> Result<Vec<(Kind, u64)>, NoMemory>
    ensures { IfOk result (λ counts. counts.items ≡ counts_at end.now) }
{
    match end {
        Some(end) => entries_of(alloc, &end.counts),
        None => Ok(Vec::new(alloc)),
    }
}
