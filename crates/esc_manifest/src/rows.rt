//! Making a manifest from typed rows.

ghost use Rattle.std.specs.Prelude.{◌≡◌, ◌<◌, ◌≤◌, ℕ, length, position, IfSome, take, Some, None};
ghost use Rattle.std.specs.Prelude.{Ok, Err};
ghost use Rattle.std.specs.List.{list_any};
ghost use Rattle.esc_envelope.specs.Id.{is_id};
ghost use Rattle.esc_manifest.specs.declared.fault.ManifestFault.TheVariants as ManifestFault;
ghost use Rattle.esc_manifest.specs.Extension.{is_blamed};
ghost use Rattle.esc_manifest.specs.LeastFault.{IsLeastManifestFault};
ghost use Rattle.esc_manifest.specs.ManifestRows.{row_at};
ghost use Rattle.esc_manifest.specs.RowFaults.{has_bad_id, has_bad_watermark, lacks_prev};
ghost use Rattle.esc_manifest.specs.RowFaults.{has_bad_resend, same_place, same_revision, moved_id};
ghost use Rattle.esc_manifest.specs.RowFaults.{follows_later, same_digest, least};
ghost use Rattle.esc_manifest.specs.RowFaults.{first_against_any, rows_fault};

use crate::apart::{
    after_later, id_in_two_places, places_of_ids, repeated_digest, repeated_revision,
};
use crate::fault::ManifestFault;
use crate::manifest::Manifest;
use crate::refusal::ManifestRefusal;
use crate::row::MRow;
use esc_envelope::{DepositType, END_OF_YEARS, MOST_RESEND, Place, is_id};
use std::alloc::Global;

/// The most rows of a manifest.
pub const MOST_LISTED_ROWS: usize = 4_096;

fn has_bad_id(row: &MRow) -> bool
    ensures { result ≡ has_bad_id row.now }
{
    if !is_id(row.header.id.as_str()) {
        return true;
    }
    match &row.header.prev {
        Some(prev) => !is_id(prev.as_str()),
        None => false,
    }
}

fn has_bad_watermark(row: &MRow) -> bool
    ensures { result ≡ has_bad_watermark row.now }
{
    row.header.place.watermark < 0 || row.header.place.watermark >= END_OF_YEARS
}

fn lacks_prev(row: &MRow) -> bool
    ensures { result ≡ lacks_prev row.now }
{
    row.header.place.kind == DepositType::Diff && row.header.prev.is_none()
}

pub(crate) fn is_same_place(a: Place, b: Place) -> bool
    ensures { result ≡ same_place a b }
{
    a == b
}

fn is_same_revision(other: &MRow, row: &MRow) -> bool
    ensures { result ≡ same_revision other.now row.now }
{
    is_same_place(other.header.place, row.header.place) && other.header.resend == row.header.resend
}

fn has_moved_id(other: &MRow, row: &MRow) -> bool
    ensures { result ≡ moved_id other.now row.now }
{
    other.header.id.as_str() == row.header.id.as_str()
        && !is_same_place(other.header.place, row.header.place)
}

fn follows_later(other: &MRow, row: &MRow) -> bool
    ensures { result ≡ follows_later other.now row.now }
{
    if row.header.place.kind != DepositType::Diff {
        return false;
    }
    match &row.header.prev {
        Some(prev) => {
            if prev.as_str() != other.header.id.as_str() {
                return false;
            }
            other.header.place.watermark >= row.header.place.watermark
        }
        None => false,
    }
}

fn has_same_digest(other: &MRow, row: &MRow) -> bool
    ensures { result ≡ same_digest other.now row.now }
{
    other.digest == row.digest
}

fn repeats_revision(rows: &[MRow], row: &MRow) -> bool
    ensures { result ≡ list_any (λ q. same_revision q row.now) rows.now }
{
    rows.iter().any(|q| is_same_revision(q, row))
}

fn moves_id(rows: &[MRow], row: &MRow) -> bool
    ensures { result ≡ list_any (λ q. moved_id q row.now) rows.now }
{
    rows.iter().any(|q| has_moved_id(q, row))
}

fn follows_any_later(rows: &[MRow], row: &MRow) -> bool
    ensures { result ≡ list_any (λ q. follows_later q row.now) rows.now }
{
    rows.iter().any(|q| follows_later(q, row))
}

// Whether a Differential of these rows names this row, though its watermark isn't earlier.
fn is_named_late(rows: &[MRow], row: &MRow) -> bool
    ensures { result ≡ list_any (λ q. follows_later row.now q) rows.now }
{
    rows.iter().any(|q| follows_later(row, q))
}

fn repeats_digest(rows: &[MRow], row: &MRow) -> bool
    ensures { result ≡ list_any (λ q. same_digest q row.now) rows.now }
{
    rows.iter().any(|q| has_same_digest(q, row))
}

/// Whether a row repeats or contradicts one of these rows, by this refusal.
pub(crate) fn is_blamed(refusal: ManifestRefusal, rows: &[MRow], row: &MRow) -> bool
    ensures { result ≡ is_blamed refusal rows.now row.now }
{
    match refusal {
        ManifestRefusal::RepeatedRevision => repeats_revision(rows, row),
        ManifestRefusal::MovedId => moves_id(rows, row),
        ManifestRefusal::LatePrev => follows_any_later(rows, row) || is_named_late(rows, row),
        ManifestRefusal::RepeatedDigest => repeats_digest(rows, row),
        _ => false,
    }
}

fn first_bad_id(rows: &[MRow]) -> Option<usize>
    ensures first { result ≡ position has_bad_id rows.now }
    ensures within { IfSome result (λ r. r < length rows.now) }
{
    rows.iter().position(|row| has_bad_id(row))
}

fn first_bad_watermark(rows: &[MRow]) -> Option<usize>
    ensures first { result ≡ position has_bad_watermark rows.now }
    ensures within { IfSome result (λ r. r < length rows.now) }
{
    rows.iter().position(|row| has_bad_watermark(row))
}

fn first_without_prev(rows: &[MRow]) -> Option<usize>
    ensures first { result ≡ position lacks_prev rows.now }
    ensures within { IfSome result (λ r. r < length rows.now) }
{
    rows.iter().position(|row| lacks_prev(row))
}

fn first_bad_resend(rows: &[MRow]) -> Option<usize>
    ensures first { result ≡ position has_bad_resend rows.now }
    ensures within { IfSome result (λ r. r < length rows.now) }
{
    rows.iter().position(|row| row.header.resend > MOST_RESEND)
}

/// The least row that repeats or contradicts an earlier one, by this refusal.
pub(crate) fn first_against_earlier(refusal: ManifestRefusal, rows: &[MRow]) -> Option<usize>
    ensures first { result ≡ least (λ r. is_blamed refusal (take r rows.now) (row_at rows.now r))
        (length rows.now) }
    ensures within { IfSome result (λ r. r < length rows.now) }
{
    for (i, row) in rows.iter().enumerate() {
        if is_blamed(refusal, &rows[..i], row) {
            return Some(i);
        }
    }
    None
}

pub(crate) fn first_after_later(rows: &[MRow]) -> Option<usize>
    ensures first { result ≡ first_against_any follows_later rows.now }
    ensures within { IfSome result (λ r. r < length rows.now) }
{
    rows.iter().position(|row| follows_any_later(rows, row))
}

#[tactic(auto, unfolding(crate::specs::RowFaults::rows_fault))]
pub(crate) fn rows_fault(alloc: Global, rows: &[MRow]) -> Option<(ManifestRefusal, u32)>
    ensures { result ≡ rows_fault rows.now }
{
    if rows.len() > MOST_LISTED_ROWS {
        return Some((ManifestRefusal::OverLimit, 0));
    }
    if let Some(row) = first_bad_id(rows) {
        return Some((ManifestRefusal::WrongId, row as u32 + 1));
    }
    if let Some(row) = first_bad_watermark(rows) {
        return Some((ManifestRefusal::WrongWatermark, row as u32 + 1));
    }
    if let Some(row) = first_without_prev(rows) {
        return Some((ManifestRefusal::MissingPrev, row as u32 + 1));
    }
    if let Some(row) = first_bad_resend(rows) {
        return Some((ManifestRefusal::WrongResend, row as u32 + 1));
    }
    if let Some(row) = repeated_revision(alloc, rows) {
        return Some((ManifestRefusal::RepeatedRevision, row as u32 + 1));
    }
    let places = places_of_ids(alloc, rows);
    if let Some(row) = id_in_two_places(&places, rows) {
        return Some((ManifestRefusal::MovedId, row as u32 + 1));
    }
    if let Some(row) = after_later(&places, rows) {
        return Some((ManifestRefusal::LatePrev, row as u32 + 1));
    }
    if let Some(row) = repeated_digest(alloc, rows) {
        return Some((ManifestRefusal::RepeatedDigest, row as u32 + 1));
    }
    None
}

/// The manifest of these rows, or their fault.
pub(crate) fn tested(alloc: Global, rows: Vec<MRow>) -> Result<Manifest, ManifestFault>
    ensures accepted { rows_fault rows.items ≡ None → result ≡ Ok rows.items }
    ensures refused { (refusal : ManifestRefusal) (row : ℕ) →
        rows_fault rows.items ≡ Some (refusal, row) →
        result ≡ Err (ManifestFault.Refused refusal row) }
{
    match rows_fault(alloc, rows.as_slice()) {
        Some((refusal, row)) => Err(ManifestFault::Refused { refusal, row }),
        None => Ok(Manifest::of_accepted(rows)),
    }
}

/// The manifest of these rows, as a store keeps them. Out of memory it is slower, and returns the
/// same.
///
/// # Errors
///
/// `Refused` with the least of M1 (more than 4,096 rows), M4, M6 to M8 and M10 to M13 that the rows
/// have, at its least row from 1 (0 for M1). A `prev` with an empty text is M4. Never `NoMemory`.
pub fn from_rows(alloc: Global, rows: Vec<MRow>) -> Result<Manifest, ManifestFault>
    ensures accepted { rows_fault rows.items ≡ None → result ≡ Ok rows.items }
    ensures refused { (refusal : ManifestRefusal) (row : ℕ) →
        rows_fault rows.items ≡ Some (refusal, row) →
        result ≡ Err (ManifestFault.Refused refusal row) }
    ensures told { (refusal : ManifestRefusal) (row : ℕ) →
        IsLeastManifestFault rows.items refusal row →
        result ≡ Err (ManifestFault.Refused refusal row) }
    ensures least { (refusal : ManifestRefusal) (row : ℕ) →
        result ≡ Err (ManifestFault.Refused refusal row) →
        IsLeastManifestFault rows.items refusal row }
    ensures row { (refusal : ManifestRefusal) (row : ℕ) →
        result ≡ Err (ManifestFault.Refused refusal row) → row ≤ 4096 }
{
    tested(alloc, rows)
}
