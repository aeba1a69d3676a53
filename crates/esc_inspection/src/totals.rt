//! The end of the latest chain, and how many objects its tables have.

ghost use Rattle.std.specs.Prelude.{◌≡◌, option_map, IfOk, IfErr};
ghost use Rattle.esc_events.specs.Apart.{WhereApart};
ghost use Rattle.esc_store.specs.Faults.{IsFailure};
ghost use Rattle.esc_desk.specs.Reading.{IsReadOf, OkForEvents};
ghost use Rattle.esc_inspection.specs.Parts.{AreTotalsOf};

use esc_bundle::NoMemory;
use esc_desk::{Reads, StoreFault};
use esc_envelope::{Kind, Place};
use std::alloc::Global;
use std::collections::BTreeMap;

/// The end of the latest chain, and how many objects its tables have.
#[derive(Drop)]
pub struct Totals {
    /// The place of the chain's last deposit, if there is a chain.
    pub end: Option<Place>,
    /// How many objects of each kind there are.
    pub objects: Vec<(Kind, u64)>,
}

/// The entries of a map of numbers.
pub(crate) fn entries_of(
    alloc: Global,
    numbers: &BTreeMap<Kind, u64>,
) -> Result<Vec<(Kind, u64)>, NoMemory>
    ensures { IfOk result (λ entries. entries.items ≡ numbers.now.entries) }
{
    let mut entries = Vec::new(alloc);
    for (kind, number) in numbers.iter() {
        entries.push((*kind, *number))?;
    }
    Ok(entries)
}

// The place of the end that a status has, if it has one.
fn place_in(end: Option<(Place, u32)>) -> Option<Place>
    ensures { result ≡ option_map (λ found. found.0) end }
{
    end.map(|(place, _resend)| place)
}

/// Reads the end and the numbers.
#[tactic(auto, using(crate::proofs::Reading::reads_stay))]
pub(crate) fn read_totals<R: Reads>(alloc: Global, reader: &mut R) -> Result<Totals, StoreFault>
    ensures read { IsReadOf R.follows R.reflects reader.old reader.new result }
    ensures totals { OkForEvents R.is_honest R.reflects reader.old reader.new result
        (λ e totals. WhereApart e (AreTotalsOf e totals.end totals.objects.items)) }
    ensures cause { IfErr result IsFailure }
{
    let status = reader.status(alloc)?;
    Ok(Totals {
        end: place_in(status.end),
        objects: entries_of(alloc, &status.objects)?,
    })
}
