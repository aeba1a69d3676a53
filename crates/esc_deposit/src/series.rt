//! The tables of a registry as a series of bundles.

ghost use Rattle.std.specs.Prelude.{◌≡◌, ◌<◌, ℕ, List, Ok, OnOk, suc, ◌==◌, [], if◌then◌else◌};
ghost use Rattle.esc_tables.specs.Reading.{reading};
ghost use Rattle.esc_apply.specs.ObjectStreams.{Entry};
ghost use Rattle.esc_deposit.specs.RegistrySeries.{AreSeriesOf, TakesAll, part_with};

use crate::bundle::part_bundle;
use crate::counts::{counts_with, declared, no_counts};
use crate::fault::SeriesFault;
use crate::part::{Part, Series};
use crate::refusal::BundleRefusal;
use crate::run::take_run;
use esc_apply::Objects;
use esc_bundle::Refusal;
use esc_envelope::Kind;
use esc_tables::{Key, Object};
use std::alloc::Global;

/// Where the bundles of a series are put, one after another.
pub trait Bundles {
    type Error;

    /// What it is once it took a body.
    ghost takes: { Self → List ℕ → Self → Type 0 };

    /// Takes the body of the next bundle.
    fn put(&mut self, body: &[u8]) -> Result<(), Self::Error>
        ensures { OnOk result (takes self.old body.now self.new) };
}

// The refusal of a part: where it has one object alone that is over a limit, of that object.
fn part_refusal(alloc: Global, refusal: BundleRefusal, objects: &[(Key, Object)]) -> BundleRefusal {
    let BundleRefusal::Refused(limit) = refusal else {
        return refusal;
    };
    if objects.len() != 1 || !matches!(limit, Refusal::OverLimit | Refusal::TooManyRows) {
        return BundleRefusal::Refused(limit);
    }
    let key = &objects[0].0;
    match String::from_str(alloc, key.text.as_str()) {
        Ok(text) => BundleRefusal::Oversized {
            refusal: limit,
            kind: key.kind,
            key: text,
        },
        Err(_) => BundleRefusal::NoMemory,
    }
}

// Puts the bundle of a part, where these are the numbers of all objects so far.
fn put_part<E, B: Bundles>(
    alloc: Global,
    part: Part<'_>,
    counts: &[(Kind, u64)],
    objects: &[(Key, Object)],
    bundles: &mut B,
) -> Result<(), SeriesFault<E, B::Error>>
    requires { part.number < part.series.length }
    ensures { OnOk result ((body : List ℕ) × B.takes bundles.old body bundles.new
        × (reading body ≡ Ok (part_with part.entry.series.id.now part.entry.series.watermark
        part.entry.series.length part.entry.number
        (if suc part.entry.number == part.entry.series.length then counts.now else [])
        objects.now))) }
{
    let body = match part_bundle(alloc, part, declared(part, counts), objects) {
        Ok(body) => body,
        Err(refusal) => {
            return Err(SeriesFault::Refused(part_refusal(alloc, refusal, objects)));
        }
    };
    match bundles.put(&body) {
        Ok(()) => Ok(()),
        Err(error) => Err(SeriesFault::Place(error)),
    }
}

/// Writes the objects as the bundles of a series: runs of these lengths, each of them one part. Each
/// bundle is read again before it is put.
///
/// # Errors
///
/// `Unlike` where there are more objects, or the lengths aren't as many as the parts.
pub fn write_series<O: Objects, B: Bundles>(
    alloc: Global,
    series: Series<'_>,
    lengths: &[usize],
    objects: &mut O,
    bundles: &mut B,
) -> Result<(), SeriesFault<O::Error, B::Error>>
    ensures follows { O.follows objects.old objects.new }
    ensures written { OnOk result (O.is_honest objects.new → (es : List Entry)
        → O.lists objects.old es
        → (bodies : List (List ℕ)) × TakesAll B.takes bundles.old bodies bundles.new
        × AreSeriesOf series.entry.id.now series.entry.watermark es bodies) }
{
    if lengths.is_empty() || lengths.len() != series.length as usize {
        return Err(SeriesFault::Refused(BundleRefusal::Unlike));
    }
    let mut counts = no_counts();
    let mut number = 0;
    for length in lengths {
        let run = take_run(alloc, objects, *length)?;
        let Some(more) = counts_with(counts, &run) else {
            return Err(SeriesFault::Refused(BundleRefusal::Refused(Refusal::TooManyRows)));
        };
        counts = more;
        put_part(alloc, Part { series, number }, &counts, &run, bundles)?;
        number += 1;
    }
    match objects.next() {
        Ok(None) => Ok(()),
        Ok(Some(_)) => Err(SeriesFault::Refused(BundleRefusal::Unlike)),
        Err(error) => Err(SeriesFault::Source(error)),
    }
}
