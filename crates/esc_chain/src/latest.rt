//! The latest chain.

ghost use Rattle.std.specs.Prelude.{◌↔◌, ◌<◌, length, IfOk, IsTrue};
ghost use Rattle.esc_manifest.specs.Accepted.{IsAccepted};
ghost use Rattle.esc_manifest.specs.ManifestRows.{watermark_at};
ghost use Rattle.esc_chain.specs.Chain.{Rows, InRange, AreHeldRows, AreUntil, IsBy, IsHeld};
ghost use Rattle.esc_chain.specs.Chain.{IsLatestChain, IsLatestChainAt};
ghost use Rattle.esc_chain.specs.Walk.{IsOfSomeRows, IsOfRows};

use crate::Held;
use crate::at_end::is_by;
use crate::predecessors::{Link, Walk, last_with_way, walk_back};
use crate::revision::place_of_row;
use esc_bundle::NoMemory;
use esc_envelope::Place;
use esc_manifest::{MRow, Manifest};
use std::alloc::Global;

/// The latest chain, as row indices from its Full to its end: of the chains of held rows the one
/// whose end is the greatest place, or the empty list if there is no chain (this project's
/// profile).
///
/// Takes time n log n in the number of rows. The one error is out of memory.
pub fn latest_chain(alloc: Global, manifest: &Manifest, held: &Held) -> Result<Vec<usize>, NoMemory>
    requires { InRange manifest.now held.now }
    ensures latest { IfOk result (λ c. IsLatestChain manifest.now held.now c.items) }
    ensures rows { IfOk result (λ c. AreHeldRows manifest.now held.now c.items) }
{
    let walk = walk_back(alloc, manifest, held)?;
    chain_of(alloc, manifest, &walk)
}

// The latest chain of the held rows that these ways back are of.
pub(crate) fn chain_of(
    alloc: Global,
    manifest: &Manifest,
    walk: &Walk,
) -> Result<Vec<usize>, NoMemory>
    requires { IsOfSomeRows ⟦<Place as Ord>⟧.cmp manifest.now walk.now }
    ensures { (held : Rows) → InRange manifest.now held
        → IsOfRows ⟦<Place as Ord>⟧.cmp manifest.now held walk.now
        → IfOk result (λ c. IsLatestChain manifest.now held c.items) }
{
    let mut chain = Vec::new(alloc);
    let Some(end) = last_with_way(alloc, &walk.links, &walk.order)? else {
        return Ok(chain);
    };
    let mut row = end;
    loop {
        chain.push(row)?;
        match walk.links[row] {
            Link::To(base) => row = base,
            Link::Start => break,
            Link::Broken => unreachable!(),
        }
    }
    chain.reverse();
    Ok(chain)
}

/// The latest chain up to a moment, in nanoseconds since 1970-01-01T00:00:00Z: of the chains of
/// held rows whose end has a watermark not later than the moment, the one whose end is the greatest
/// place, or the empty list if there is none. Without a moment it is the latest of all chains.
///
/// Takes time n log n in the number of rows. The one error is out of memory.
pub fn latest_chain_at(
    alloc: Global,
    manifest: &Manifest,
    held: &Held,
    moment: Option<i64>,
) -> Result<Vec<usize>, NoMemory>
    requires { InRange manifest.now held.now }
    ensures latest { IfOk result (λ c. IsLatestChainAt manifest.now held.now moment c.items) }
    ensures rows { IfOk result (λ c. AreHeldRows manifest.now held.now c.items) }
{
    if moment.is_none() {
        return latest_chain(alloc, manifest, held);
    }
    let until = rows_until(alloc, manifest, held, moment)?;
    latest_chain(alloc, manifest, &until)
}

// The held rows with a watermark not later than a moment. Each base has an earlier watermark, so
// the chains of these rows are the chains of the held rows that end by the moment.
fn rows_until(
    alloc: Global,
    manifest: &Manifest,
    held: &Held,
    moment: Option<i64>,
) -> Result<Held, NoMemory>
    requires { InRange manifest.now held.now }
    ensures rows { IfOk result (AreUntil manifest.now held.now moment) }
    ensures in_range { IfOk result (InRange manifest.now) }
    ensures accepted { IsAccepted manifest.now }
{
    let rows = manifest.rows();
    let mut until = Held::new(alloc);
    for row in 0..rows.len() {
        if !is_until(rows, held, row, moment) {
            continue;
        }
        until.insert(manifest, row)?;
    }
    Ok(until)
}

// Whether a row is held and its watermark isn't later than a moment.
fn is_until(rows: &[MRow], held: &Held, row: usize, moment: Option<i64>) -> bool
    requires { row < length rows.now }
    ensures { IsTrue result ↔ (IsHeld held.now row × IsBy moment (watermark_at rows.now row)) }
{
    held.contains(row) && is_by(moment, place_of_row(rows, row))
}
