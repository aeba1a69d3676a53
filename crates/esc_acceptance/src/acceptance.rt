//! The acceptance of a rebuilt registry: what each test finds.

ghost use Rattle.std.specs.Prelude.{◌≡◌, ◌||◌, ◌&&◌, not};
ghost use Rattle.std.specs.List.{list_all, list_any};
ghost use Rattle.esc_envelope.specs.Kinds.{kinds};
ghost use Rattle.esc_envelope.specs.Place.{rank};
ghost use Rattle.esc_acceptance.specs.Acceptance.{is_after, is_by, is_past, is_later};
ghost use Rattle.esc_acceptance.specs.Acceptance.{is_end, is_in_chain};
ghost use Rattle.esc_acceptance.specs.Acceptance.{is_outdated, is_open, is_passed, is_counted};
ghost use Rattle.esc_acceptance.specs.Acceptance.{passes, tests, is_accepted, status_of};
ghost use Rattle.esc_acceptance.specs.Guides.{is_disguise, is_wanted, is_guide_declared, guides};

use crate::guide::Guide;
use crate::guides::{all_guides, is_declared, is_disguise, is_wanted};
use crate::seen::Seen;
use crate::test::Test;
use esc_chain::{GapLine, State};
use esc_envelope::{DepositType, Kind, Place, Table};

// The place of a type in the order of types.
fn rank(kind: DepositType) -> u8
    ensures { result ≡ rank kind }
{
    match kind {
        DepositType::Diff => 0,
        DepositType::Incr => 1,
        DepositType::Full => 2,
    }
}

pub(crate) fn is_after(place: Place, other: Place) -> bool
    ensures { result ≡ is_after place other }
{
    other.watermark < place.watermark
        || (other.watermark == place.watermark && rank(other.kind) < rank(place.kind))
}

pub(crate) fn is_by(moment: Option<i64>, watermark: i64) -> bool
    ensures { result ≡ is_by moment watermark }
{
    match moment {
        Some(moment) => !(moment < watermark),
        None => true,
    }
}

/// Whether the chain's end is not later than now, if both are known.
pub(crate) fn is_past(now: Option<i64>, end: Option<Place>) -> bool
    ensures { result ≡ is_past now end }
{
    match end {
        Some(end) => is_by(now, end.watermark),
        None => true,
    }
}

fn is_later(moment: Option<i64>, end: Place, line: &GapLine) -> bool
    ensures { result ≡ is_later moment end line.now }
{
    is_by(moment, line.place.watermark) && is_after(line.place, end)
}

fn is_last(moment: Option<i64>, gaps: &[GapLine], end: Place) -> bool
    ensures { result ≡ list_all (λ g. not (is_later moment end g)) gaps.now }
{
    gaps.iter().all(|line| !is_later(moment, end, line))
}

fn is_end_of(moment: Option<i64>, gaps: &[GapLine], end: Option<Place>) -> bool
    ensures { result ≡ is_end moment gaps.now end }
{
    match end {
        Some(end) => is_last(moment, gaps, end),
        None => false,
    }
}

fn is_in_chain(state: State) -> bool
    ensures { result ≡ is_in_chain state }
{
    match state {
        State::Chain => true,
        State::Missing | State::Blocked | State::Standing => false,
    }
}

pub(crate) fn is_outdated(line: &GapLine) -> bool
    ensures { result ≡ is_outdated line.now }
{
    is_in_chain(line.state) && line.awaited.is_some()
}

fn is_open(state: State) -> bool
    ensures { result ≡ is_open state }
{
    match state {
        State::Missing | State::Blocked => true,
        State::Chain | State::Standing => false,
    }
}

pub(crate) fn is_passed(end: Option<Place>, line: &GapLine) -> bool
    ensures { result ≡ is_passed end line.now }
{
    match end {
        Some(end) => is_open(line.state) && is_after(end, line.place),
        None => false,
    }
}

pub(crate) fn is_counted(counts: &[(Kind, u64)], kind: Kind) -> bool
    ensures { result ≡ is_counted counts.now kind }
{
    counts.iter().any(|counted| counted.0 == kind)
}

#[tactic(auto, unfolding(esc_envelope::specs::Kinds::kinds))]
fn all_kinds() -> [Kind; 6]
    ensures { result ≡ kinds }
{
    Kind::ALL
}

fn are_counted(counts: &[(Kind, u64)]) -> bool
    ensures { result ≡ list_all (is_counted counts.now) kinds }
{
    let kinds = all_kinds();
    kinds.iter().all(|kind| is_counted(counts, *kind))
}

fn are_declared(objects: &[(Kind, u64)], tables: &[Table]) -> bool
    ensures { result ≡ list_all (λ g.
        not (is_wanted objects.now g) || is_guide_declared tables.now g) guides }
{
    let guides = all_guides();
    guides.iter().all(|guide| !is_wanted(objects, *guide) || is_declared(tables, *guide))
}

// Whether one of these is wanted.
fn is_one_wanted(objects: &[(Kind, u64)], guides: &[Guide]) -> bool
    ensures { result ≡ list_any (is_wanted objects.now) guides.now }
{
    guides.iter().any(|guide| is_wanted(objects, *guide))
}

pub(crate) fn has_disguise(guide: Guide, tables: &[Table]) -> bool
    ensures { result ≡ list_any (is_disguise guide) tables.now }
{
    tables.iter().any(|table| is_disguise(guide, table))
}

fn are_names_clear(tables: &[Table]) -> bool
    ensures { result ≡ list_all (λ g. not (list_any (is_disguise g) tables.now)) guides }
{
    let guides = all_guides();
    guides.iter().all(|guide| !has_disguise(*guide, tables))
}

fn has_resends(gaps: &[GapLine]) -> bool
    ensures { result ≡ list_all (λ g. not (is_outdated g)) gaps.now }
{
    gaps.iter().all(|line| !is_outdated(line))
}

fn has_no_gaps(end: Option<Place>, gaps: &[GapLine]) -> bool
    ensures { result ≡ list_all (λ g. not (is_passed end g)) gaps.now }
{
    gaps.iter().all(|line| !is_passed(end, line))
}

/// Whether a test passes, by what was seen of a store.
pub fn passes(test: Test, seen: &Seen<'_>) -> bool
    ensures { result ≡ passes test seen.now }
{
    match test {
        Test::Tld => seen.tlds.len() < 2,
        Test::End => is_end_of(seen.moment, seen.gaps, seen.end),
        Test::Future => is_past(seen.clock, seen.end),
        Test::Chain => seen.is_latest,
        Test::Resends => has_resends(seen.gaps),
        Test::Gaps => has_no_gaps(seen.end, seen.gaps),
        Test::Moment => seen.moment.is_none(),
        Test::Parked => seen.parked == 0,
        Test::Early => seen.early == 0,
        Test::Findings => seen.findings.len() == 0,
        Test::Conforms(rule) => seen.flaws.of(rule).len() == 0,
        Test::Orphans => seen.orphans == 0,
        Test::Counts => are_counted(seen.counts),
        Test::Fields => {
            are_declared(seen.objects, seen.tables) && !is_one_wanted(seen.objects, seen.lacking)
        }
        Test::Names => are_names_clear(seen.tables),
        Test::Bodies => seen.spoiled.len() == 0 && seen.are_read,
        Test::Tables => seen.is_rebuilt,
        Test::Notes => seen.notes.len() == 0,
    }
}

#[tactic(auto, unfolding(crate::specs::Acceptance::tests))]
pub(crate) fn all_tests() -> [Test; 24]
    ensures { result ≡ tests }
{
    Test::ALL
}

/// Whether a registry may be taken over: each test passes, but for those that are only told.
pub fn is_accepted(seen: &Seen<'_>) -> bool
    ensures { result ≡ is_accepted seen.now }
{
    let tests = all_tests();
    tests
        .iter()
        .all(|test| test.is_told_alone() || passes(*test, seen))
}

fn is_passed_by_all(seen: &Seen<'_>) -> bool
    ensures { result ≡ list_all (λ t. passes t seen.now) tests }
{
    let tests = all_tests();
    tests.iter().all(|test| passes(*test, seen))
}

/// The status of what was seen: 0 exactly where the registry may be taken over, else 1. A strict
/// one is 0 only where nothing is told either.
pub fn status_of(seen: &Seen<'_>, is_strict: bool) -> u8
    ensures { result ≡ status_of is_strict seen.now }
{
    let is_right = if is_strict {
        is_passed_by_all(seen)
    } else {
        is_accepted(seen)
    };
    if is_right { 0 } else { 1 }
}
