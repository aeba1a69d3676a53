//! The held rows, and the line of each listed place.

ghost use Rattle.std.specs.Prelude.{◌≡◌, IfErr};
ghost use Rattle.esc_events.specs.Apart.{WhereApart};
ghost use Rattle.esc_events.specs.Events.{last_moment};
ghost use Rattle.esc_store.specs.Faults.{IsFailure};
ghost use Rattle.esc_desk.specs.Reading.{IsReadOf, OkForEvents};
ghost use Rattle.esc_inspection.specs.Parts.{AreLinesFor};

use esc_acceptance::gaps_of;
use esc_chain::GapLine;
use esc_desk::{Cause, Reads, StoreFault};
use std::alloc::Global;

/// The held rows, and the line of each listed place.
#[derive(Drop)]
pub struct Listing {
    /// The rows that have a body, as indices from 0, in ascending order.
    pub held: Vec<usize>,
    /// The line of each listed place, in the order of places.
    pub gaps: Vec<GapLine>,
}

/// Reads the held rows, and makes the lines by them and by the moment that is set, if one is.
#[tactic(auto, using(crate::proofs::Reading::reads_stay))]
pub(crate) fn read_listing<R: Reads>(
    alloc: Global,
    reader: &mut R,
    moment: Option<i64>,
) -> Result<Listing, StoreFault>
    ensures read { IsReadOf R.follows R.reflects reader.old reader.new result }
    ensures lines { OkForEvents R.is_honest R.reflects reader.old reader.new result
        (λ e listing. moment ≡ last_moment e
        → WhereApart e (AreLinesFor e listing.held.items listing.gaps.items)) }
    ensures cause { IfErr result IsFailure }
{
    let held = reader.held(alloc)?;
    let gaps = gaps_of(alloc, reader.manifest(), &held, moment)?.ok_or(StoreFault::Failed(
        Cause::Contradiction,
    ))?;
    Ok(Listing { held, gaps })
}
