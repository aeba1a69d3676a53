//! The lines of all listed places.

ghost use Rattle.std.specs.Prelude.{◌≡◌, ◌<◌, length, option_map, IfSome, IfOk};
ghost use Rattle.std.specs.BTreeSet as sorted;
ghost use Rattle.std.specs.Ordering.{nat_cmp};
ghost use Rattle.esc_chain.specs.Chain.{InRange, IsLatestChainAt};
ghost use Rattle.esc_chain.specs.Walk.{AreBases, IsOfRows};
ghost use Rattle.esc_chain.specs.Gap.{AreGapLines, AreGapLinesAt};
ghost use Rattle.esc_chain.specs.Stops.{AreWays, IsRowIn, HasText, line_by, state_by, blocker_by};
ghost use Rattle.esc_chain.specs.Stops.{blocker_of};

use crate::gap::{Blocker, GapLine, Id, ListedPlace, State};
use crate::latest::chain_of;
use crate::predecessors::{Walk, walk_back};
use crate::revision::resend_of;
use crate::stops::{stop_at, stops_of};
use crate::unheld::{over, unheld_resends};
use crate::{Base, Held, latest_chain_at};
use esc_bundle::NoMemory;
use esc_envelope::{DepositType, Header, Place};
use esc_manifest::Manifest;
use std::alloc::Global;
use std::collections::{BTreeMap, BTreeSet};

/// A line for each listed place, in the order of places: which revision of it is used, its state,
/// what blocks it, and which revision of it is awaited (this project's profile).
///
/// Takes time n log n in the number of rows. The one error is out of memory.
pub fn gaps(alloc: Global, manifest: &Manifest, held: &Held) -> Result<Vec<GapLine>, NoMemory>
    requires { InRange manifest.now held.now }
    ensures { IfOk result (λ lines. AreGapLines manifest.now held.now lines.items) }
{
    gaps_at(alloc, manifest, held, None)
}

/// The lines as of a moment, in nanoseconds since 1970-01-01T00:00:00Z, if there is one: the latest
/// chain is the one up to the moment, so that a place where a later chain ends is `Standing`.
/// Everything else in them is as without a moment.
///
/// Takes time n log n in the number of rows. The one error is out of memory.
pub fn gaps_at(
    alloc: Global,
    manifest: &Manifest,
    held: &Held,
    moment: Option<i64>,
) -> Result<Vec<GapLine>, NoMemory>
    requires { InRange manifest.now held.now }
    ensures { IfOk result (λ lines. AreGapLinesAt manifest.now held.now moment lines.items) }
{
    let ways = ways_of(alloc, manifest, held, moment)?;
    let unheld = unheld_resends(alloc, manifest, held)?;
    let mut lines = Vec::new(alloc);
    for (place, greatest) in unheld.iter() {
        let used = ways.used.get(place).copied();
        let rows = PlaceRows {
            place: *place,
            used,
            unheld: *greatest,
        };
        let line = line_of(alloc, manifest, &ways, rows)?;
        lines.push(line)?;
    }
    Ok(lines)
}

// What the lines are made from.
#[derive(Drop)]
pub(crate) struct Ways {
    // The used row of each place that has one.
    used: BTreeMap<Place, usize>,
    // What each row builds on.
    bases: Vec<Base>,
    // For each used row, the row at which the way back from it stops; none if it leads to a Full.
    stops: Vec<Option<usize>>,
    // The rows of the latest chain.
    chain: BTreeSet<usize>,
}

fn ways_of(
    alloc: Global,
    manifest: &Manifest,
    held: &Held,
    moment: Option<i64>,
) -> Result<Ways, NoMemory>
    requires { InRange manifest.now held.now }
    ensures { IfOk result (AreWays ⟦<Place as Ord>⟧.cmp manifest.now held.now moment) }
{
    let walk = walk_back(alloc, manifest, held)?;
    let stops = stops_of(alloc, walk.links.as_slice(), walk.order.as_slice())?;
    let chain = chain_at(alloc, manifest, held, &walk, moment)?;
    let chain = set_of(alloc, chain.as_slice())?;
    Ok(Ways {
        used: walk.used,
        bases: walk.bases,
        stops,
        chain,
    })
}

// The latest chain of held rows up to a moment, if there is one, by the ways back over all of them.
fn chain_at(
    alloc: Global,
    manifest: &Manifest,
    held: &Held,
    walk: &Walk,
    moment: Option<i64>,
) -> Result<Vec<usize>, NoMemory>
    requires in_range { InRange manifest.now held.now }
    requires walk { IsOfRows ⟦<Place as Ord>⟧.cmp manifest.now held.now walk.now }
    ensures { IfOk result (λ c. IsLatestChainAt manifest.now held.now moment c.items) }
{
    match moment {
        Some(_) => latest_chain_at(alloc, manifest, held, moment),
        None => chain_of(alloc, manifest, walk),
    }
}

fn set_of(alloc: Global, rows: &[usize]) -> Result<BTreeSet<usize>, NoMemory>
    ensures { IfOk result (sorted.IsFromIterResult nat_cmp rows.now) }
{
    Ok(rows.iter().copied().collect(alloc)?)
}

// What is known of the rows of a place: the used one, if there is one, and the greatest resend of
// those that aren't held, if any.
#[derive(Clone, Copy)]
struct PlaceRows {
    place: Place,
    used: Option<usize>,
    unheld: Option<u32>,
}

// The line of a place.
fn line_of(
    alloc: Global,
    manifest: &Manifest,
    ways: &Ways,
    rows: PlaceRows,
) -> Result<GapLine, NoMemory>
    requires used { IsRowIn manifest.now ways.now rows.used }
    requires bases { AreBases manifest.now (length manifest.now) ways.now.bases.items }
    ensures { IfOk result
        (λ line. line ≡ line_by manifest.now ways.now rows.place rows.used rows.unheld) }
{
    let PlaceRows {
        place,
        used,
        unheld,
    } = rows;
    let Some(row) = used else {
        return Ok(GapLine {
            place,
            used: None,
            state: State::Missing,
            blocker: None,
            awaited: unheld,
        });
    };
    let stop = stop_at(&ways.stops, row);
    let state = state_by(ways.chain.contains(&row), stop);
    let resend = resend_of(manifest.rows(), row);
    let blocker = blocker_if(alloc, manifest, &ways.bases, stop)?;
    Ok(GapLine {
        place,
        used: Some(resend),
        state,
        blocker,
        awaited: over(unheld, resend),
    })
}

fn state_by(in_chain: bool, stop: Option<usize>) -> State
    ensures { result ≡ state_by in_chain stop }
{
    match stop {
        _ if in_chain => State::Chain,
        Some(_) => State::Blocked,
        None => State::Standing,
    }
}

// The blocker, if the way back from a used row stops at a row.
fn blocker_if(
    alloc: Global,
    manifest: &Manifest,
    bases: &[Base],
    stop: Option<usize>,
) -> Result<Option<Blocker>, NoMemory>
    requires row { IfSome stop (λ s. s < length manifest.now) }
    requires bases { AreBases manifest.now (length manifest.now) bases.now }
    ensures { IfOk result
        (λ blocker. blocker ≡ option_map (blocker_of manifest.now bases.now) stop) }
{
    match stop {
        Some(row) => {
            let header = &manifest.rows()[row].header;
            Ok(Some(blocker_by(alloc, header, bases[row])?))
        }
        None => Ok(None),
    }
}

// The blocker of a row with a base that has no used row.
fn blocker_by(alloc: Global, header: &Header, base: Base) -> Result<Blocker, NoMemory>
    requires { HasText base }
    ensures { IfOk result (λ blocker. blocker ≡ blocker_by header.now base) }
{
    if let Base::At(place) = base {
        return Ok(Blocker::NotHeld(ListedPlace::new(alloc, place)?));
    }
    match &header.prev {
        Some(id) if header.place.kind == DepositType::Diff => {
            let text = String::from_str(alloc, id.as_str())?;
            Ok(Blocker::NotListed(Id::new(text)))
        }
        _ => Ok(Blocker::NoEarlierFull),
    }
}
