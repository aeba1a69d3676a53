//! A row that goes at the end of the latest chain.

ghost use Rattle.std.specs.Prelude.{◌≡◌, ◌↔◌, ℕ, ◌<◌, length, slice_index, IsTrue};
ghost use Rattle.std.specs.FinSet as set;
ghost use Rattle.esc_chain.specs.Chain.{InRange, IsBy};
ghost use Rattle.esc_chain.specs.AtEnd.{ComesLast, GoesAtEnd, IsUpToRow, LengthensLatest};

use crate::revision::place_of_row;
use crate::{Base, base_of};
use esc_envelope::Place;
use esc_manifest::{MRow, Manifest};

/// Whether a row goes at the end of the latest chain of these rows, where the latest chain of the
/// others ends at `end`: it comes after all others, builds on `end`, and has a watermark not later
/// than the moment, if there is one, in nanoseconds since 1970-01-01T00:00:00Z. The latest chain is
/// then that of the others with this row at its end, and needn't be made anew (this project's
/// profile). `false` if one of the rows isn't a row of the manifest.
///
/// Takes time linear in the number of rows. Doesn't allocate.
pub fn goes_at_end(
    manifest: &Manifest,
    rows: &[usize],
    moment: Option<i64>,
    end: Place,
    row: usize,
) -> bool
    ensures exact { IsTrue result ↔ GoesAtEnd manifest.now rows.now moment end row }
    ensures latest { IsTrue result → LengthensLatest manifest.now rows.now moment end row }
    ensures in_range { IsTrue result → InRange manifest.now (set.from_list rows.now) }
{
    let listed = manifest.rows();
    if !comes_last(listed, rows, moment, row) {
        return false;
    }
    is_at(base_of(manifest, row), end)
}

// Whether a base is this place.
fn is_at(base: Base, place: Place) -> bool
    ensures { IsTrue result ↔ (base ≡ Base.At place) }
{
    base == Base::At(place)
}

// Whether a row isn't later than a moment, and comes after all others of these rows.
fn comes_last(listed: &[MRow], rows: &[usize], moment: Option<i64>, row: usize) -> bool
    ensures { IsTrue result ↔ ComesLast listed.now rows.now moment row }
{
    if row >= listed.len() {
        return false;
    }
    if !is_by(moment, place_of_row(listed, row)) {
        return false;
    }
    are_up_to_row(listed, rows, row)
}

// Whether the watermark of a place isn't later than a moment, if there is one.
pub(crate) fn is_by(moment: Option<i64>, place: Place) -> bool
    ensures { IsTrue result ↔ IsBy moment place.watermark }
{
    match moment {
        Some(moment) => place.watermark <= moment,
        None => true,
    }
}

// Whether each of these rows is listed, and is this row or before it.
fn are_up_to_row(listed: &[MRow], rows: &[usize], row: usize) -> bool
    requires { row < length listed.now }
    ensures { IsTrue result ↔ ((k : ℕ) → k < length rows.now
        → IsUpToRow listed.now row (slice_index rows.now k)) }
{
    for &other in rows {
        if !is_up_to_row(listed, other, row) {
            return false;
        }
    }
    true
}

// Whether a row is listed, and is this one or before it.
fn is_up_to_row(listed: &[MRow], other: usize, row: usize) -> bool
    requires { row < length listed.now }
    ensures { IsTrue result ↔ IsUpToRow listed.now row other }
{
    if other >= listed.len() {
        return false;
    }
    other == row || place_of_row(listed, other).is_before(place_of_row(listed, row))
}
