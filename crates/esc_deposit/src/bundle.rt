//! The tables of a registry, or a part of them, as one deposit.

ghost use Rattle.std.specs.Prelude.{◌≡◌, ◌<◌, [], Ok, true, IfOk};
ghost use Rattle.esc_tables.specs.Reading.{reading};
ghost use Rattle.esc_deposit.specs.FullBundle.{IsFullOf};
ghost use Rattle.esc_deposit.specs.RegistrySeries.{part_with};

use crate::counts::{counts_with, no_counts};
use crate::draft::draft_bundle;
use crate::part::{Part, Series, is_same_header, part_header};
use crate::refusal::BundleRefusal;
use crate::same::are_same_objects;
use esc_acceptance::are_same_counts;
use esc_bundle::Refusal;
use esc_envelope::{Header, Kind};
use esc_tables::{Deposit, Key, Object, read_deposit};
use std::alloc::Global;

// Whether a deposit has this header, these counts and these objects, and nothing else.
fn is_deposit_of(
    deposit: &Deposit,
    header: &Header,
    counts: &[(Kind, u64)],
    objects: &[(Key, Object)],
) -> bool
    ensures { result ≡ true → deposit.now ≡ record {
      header = header.now;
      counts = counts.now;
      deletes = [];
      contents = objects.now;
      orphans = 0;
    } }
{
    is_same_header(&deposit.header, header)
        && are_same_counts(&deposit.counts, counts)
        && deposit.deletes.is_empty()
        && are_same_objects(&deposit.contents, objects)
        && deposit.orphans == 0
}

/// The bundle of a part with these counts and objects. It is read again before it is returned.
pub(crate) fn part_bundle(
    alloc: Global,
    part: Part<'_>,
    counts: &[(Kind, u64)],
    objects: &[(Key, Object)],
) -> Result<Vec<u8>, BundleRefusal>
    requires { part.number < part.series.length }
    ensures { IfOk result (λ body. reading body.items ≡ Ok (part_with part.entry.series.id.now
        part.entry.series.watermark part.entry.series.length part.entry.number
        counts.now objects.now)) }
{
    let header = part_header(alloc, part)?;
    let body = draft_bundle(alloc, part, &header, counts, objects)?;
    let deposit = read_deposit(alloc, &body)?;
    if is_deposit_of(&deposit, &header, counts, objects) {
        Ok(body)
    } else {
        Err(BundleRefusal::Unlike)
    }
}

/// The tables of a registry as the bundle of a Full: what `read_deposit` reads as just these
/// objects, without deletes and orphans, with the number of objects of each kind, under this id and
/// watermark, and resend 0. It is read again before it is returned.
///
/// Each table is declared by the fields of its rows, in their order. The key is the first field
/// that has the object's key in each of them.
///
/// # Errors
///
/// `BundleRefusal`, where there is no such bundle; `NoMemory`.
pub fn bundle_of(
    alloc: Global,
    id: &str,
    watermark: i64,
    objects: &[(Key, Object)],
) -> Result<Vec<u8>, BundleRefusal>
    ensures bundled { IfOk result (λ body. IsFullOf id.now watermark objects.now body.items) }
{
    let Some(counts) = counts_with(no_counts(), objects) else {
        return Err(BundleRefusal::Refused(Refusal::TooManyRows));
    };
    let series = Series {
        id,
        watermark,
        length: 1,
    };
    part_bundle(alloc, Part { series, number: 0 }, &counts, objects)
}
