//! The first rows that contradict others. Look-ups in sorted collections show quickly that there is
//! no such row, as in each manifest that is accepted; otherwise, or out of memory, all pairs of
//! rows are compared.

ghost use Rattle.std.specs.Prelude.{◌≡◌, ◌<◌, length, not, IfOk, IfSome, Some, None, true};
ghost use Rattle.std.specs.List.{list_all};
ghost use Rattle.esc_envelope.specs.declared.place.Place.{Place};
ghost use Rattle.esc_manifest.specs.Lookups.{place_in, HavePlaces, is_no_earlier, names_later};
ghost use Rattle.esc_manifest.specs.RowFaults.{same_revision, moved_id, follows_later, same_digest};
ghost use Rattle.esc_manifest.specs.RowFaults.{first_against_earlier, first_against_any};

use crate::refusal::ManifestRefusal;
use crate::row::MRow;
use crate::rows::{first_after_later, first_against_earlier};
use esc_bundle::NoMemory;
use esc_envelope::{DepositType, Place};
use std::alloc::Global;
use std::collections::{BTreeMap, BTreeSet};

fn revision_of(row: &MRow) -> (Place, u32)
    ensures { result ≡ (row.now.header.place, row.now.header.resend) }
{
    (row.header.place, row.header.resend)
}

// Whether no two rows have the same place and resend.
fn have_own_revisions(alloc: Global, rows: &[MRow]) -> Result<bool, NoMemory>
    ensures { IfOk result (λ own. own ≡ true → first_against_earlier same_revision rows.now
        ≡ None) }
{
    let mut seen = BTreeSet::new(alloc);
    for row in rows {
        if !seen.insert(revision_of(row))? {
            return Ok(false);
        }
    }
    Ok(true)
}

// Whether no two rows have the same digest.
fn have_own_digests(alloc: Global, rows: &[MRow]) -> Result<bool, NoMemory>
    ensures { IfOk result (λ own. own ≡ true → first_against_earlier same_digest rows.now
        ≡ None) }
{
    let mut seen = BTreeSet::new(alloc);
    for row in rows {
        if !seen.insert(row.digest)? {
            return Ok(false);
        }
    }
    Ok(true)
}

// Whether an id had no place so far, or the same place.
fn is_own(before: Option<Place>, place: Place) -> bool
    ensures { result ≡ true → (other : Place) → before ≡ Some other → other ≡ place }
{
    match before {
        Some(before) => before == place,
        None => true,
    }
}

// The place of each id; `None` if an id is in two places.
fn own_places(alloc: Global, rows: &[MRow]) -> Result<Option<BTreeMap<&str, Place>>, NoMemory>
    ensures { IfOk result (λ o. IfSome o (HavePlaces rows.now)) }
{
    let mut places = BTreeMap::new(alloc);
    for row in rows {
        let header = &row.header;
        let before = places.insert(header.id.as_str(), header.place)?;
        if !is_own(before, header.place) {
            return Ok(None);
        }
    }
    Ok(Some(places))
}

fn place_of(places: &BTreeMap<&str, Place>, id: &str) -> Option<Place>
    ensures { result ≡ place_in places.now id.now }
{
    places.get(id).copied()
}

fn is_no_earlier(place: Option<Place>, moment: i64) -> bool
    ensures { result ≡ is_no_earlier place moment }
{
    match place {
        Some(place) => place.watermark >= moment,
        None => false,
    }
}

// Whether a row is a Differential whose prevId has a place that isn't earlier.
fn names_later(places: &BTreeMap<&str, Place>, row: &MRow) -> bool
    ensures { result ≡ names_later places.now row.now }
{
    if row.header.place.kind != DepositType::Diff {
        return false;
    }
    match &row.header.prev {
        Some(prev) => is_no_earlier(place_of(places, prev.as_str()), row.header.place.watermark),
        None => false,
    }
}

fn name_earlier(places: &BTreeMap<&str, Place>, rows: &[MRow]) -> bool
    ensures { result ≡ list_all (λ row. not (names_later places.now row)) rows.now }
{
    rows.iter().all(|row| !names_later(places, row))
}

/// The least row that repeats the place and resend of an earlier one.
pub(crate) fn repeated_revision(alloc: Global, rows: &[MRow]) -> Option<usize>
    ensures first { result ≡ first_against_earlier same_revision rows.now }
    ensures within { IfSome result (λ r. r < length rows.now) }
{
    match have_own_revisions(alloc, rows) {
        Ok(true) => None,
        _ => first_against_earlier(ManifestRefusal::RepeatedRevision, rows),
    }
}

/// The least row that repeats the digest of an earlier one.
pub(crate) fn repeated_digest(alloc: Global, rows: &[MRow]) -> Option<usize>
    ensures first { result ≡ first_against_earlier same_digest rows.now }
    ensures within { IfSome result (λ r. r < length rows.now) }
{
    match have_own_digests(alloc, rows) {
        Ok(true) => None,
        _ => first_against_earlier(ManifestRefusal::RepeatedDigest, rows),
    }
}

/// The place of each id; `None` if an id is in two places, or out of memory.
pub(crate) fn places_of_ids(alloc: Global, rows: &[MRow]) -> Option<BTreeMap<&str, Place>>
    ensures { IfSome result (HavePlaces rows.now) }
{
    match own_places(alloc, rows) {
        Ok(places) => places,
        Err(NoMemory) => None,
    }
}

/// The least row whose id an earlier row has at another place.
pub(crate) fn id_in_two_places(
    places: &Option<BTreeMap<&str, Place>>,
    rows: &[MRow],
) -> Option<usize>
    requires { IfSome places.now (HavePlaces rows.now) }
    ensures first { result ≡ first_against_earlier moved_id rows.now }
    ensures within { IfSome result (λ r. r < length rows.now) }
{
    match places {
        Some(_) => None,
        None => first_against_earlier(ManifestRefusal::MovedId, rows),
    }
}

/// The least row that is a Differential whose prevId names a row that isn't earlier.
pub(crate) fn after_later(places: &Option<BTreeMap<&str, Place>>, rows: &[MRow]) -> Option<usize>
    requires { IfSome places.now (HavePlaces rows.now) }
    ensures first { result ≡ first_against_any follows_later rows.now }
    ensures within { IfSome result (λ r. r < length rows.now) }
{
    match places {
        Some(places) if name_earlier(places, rows) => None,
        _ => first_after_later(rows),
    }
}
