//! What a part of a series says of itself.

ghost use Rattle.std.specs.Prelude.{◌≡◌, ◌<◌, true, IfOk, IfSome, option_map, string_bytes};
ghost use Rattle.esc_deposit.specs.RegistrySeries.{part_header, part_id, part_moment, prev_part};

use crate::refusal::BundleRefusal;
use esc_bundle::{NoMemory, Refusal};
use esc_envelope::{DepositType, Header, Place};
use esc_series::part_type;
use std::alloc::Global;

/// A deposit that is given in so many parts: its id, its watermark in nanoseconds, and their number.
#[derive(Clone, Copy)]
pub struct Series<'a> {
    pub id: &'a str,
    pub watermark: i64,
    pub length: u32,
}

/// The part of a series with this number, from 0.
#[derive(Clone, Copy)]
pub(crate) struct Part<'a> {
    pub(crate) series: Series<'a>,
    pub(crate) number: u32,
}

fn part_id(alloc: Global, part: Part<'_>) -> Result<String, NoMemory>
    requires { part.number < part.series.length }
    ensures { IfOk result (λ id. string_bytes id
        ≡ part_id part.entry.series.id.now part.entry.series.length part.entry.number) }
{
    let (id, length) = (part.series.id, part.series.length);
    let number = part.number + 1;
    if number == length {
        return Ok(String::from_str(alloc, id)?);
    }
    Ok(format!(in alloc; "{id}.{number}of{length}")?)
}

// The id of the part before, if there is one.
fn prev_part(alloc: Global, part: Part<'_>) -> Result<Option<String>, NoMemory>
    requires { part.number < part.series.length }
    ensures { IfOk result (λ id. option_map string_bytes id
        ≡ prev_part part.entry.series.id.now part.entry.series.length part.entry.number) }
{
    if part.number == 0 {
        return Ok(None);
    }
    let before = Part {
        series: part.series,
        number: part.number - 1,
    };
    Ok(Some(part_id(alloc, before)?))
}

fn part_moment(part: Part<'_>) -> Option<i64>
    requires { part.number < part.series.length }
    ensures { IfSome result (λ moment. moment
        ≡ part_moment part.entry.series.watermark part.entry.series.length part.entry.number) }
{
    let later = part.series.length - (part.number + 1);
    part.series.watermark.checked_sub(i64::from(later))
}

/// What a part says of itself. `WrongMember` where its moment is before all that there are.
pub(crate) fn part_header(alloc: Global, part: Part<'_>) -> Result<Header, BundleRefusal>
    requires { part.number < part.series.length }
    ensures { IfOk result (λ header. header ≡ part_header
        part.entry.series.id.now part.entry.series.watermark part.entry.series.length
        part.entry.number) }
{
    let Some(watermark) = part_moment(part) else {
        return Err(BundleRefusal::Refused(Refusal::WrongMember));
    };
    let kind = part_type(DepositType::Full, part.number as usize);
    let id = part_id(alloc, part)?;
    let prev = prev_part(alloc, part)?;
    Ok(Header {
        id,
        place: Place { watermark, kind },
        prev,
        resend: 0,
    })
}

fn is_same_id(id: Option<&str>, other: Option<&str>) -> bool
    ensures { result ≡ true
        → option_map (λ t. t.now) id.entry ≡ option_map (λ t. t.now) other.entry }
{
    match (id, other) {
        (Some(id), Some(other)) => id == other,
        (None, None) => true,
        _ => false,
    }
}

/// Whether two headers are the same.
pub(crate) fn is_same_header(header: &Header, other: &Header) -> bool
    ensures { result ≡ true → header.now ≡ other.now }
{
    header.id.as_str() == other.id.as_str()
        && header.place.watermark == other.place.watermark
        && header.place.kind == other.place.kind
        && is_same_id(header.prev.as_deref(), other.prev.as_deref())
        && header.resend == other.resend
}
