//! The listed places, and the latest chain, by the rows that are held.

ghost use Rattle.std.specs.Prelude.{◌≡◌, true, IfOk, IfSome};
ghost use Rattle.std.specs.FinSet as set;
ghost use Rattle.esc_chain.specs.Chain.{IsLatestChainAt};
ghost use Rattle.esc_chain.specs.Gap.{AreGapLinesAt};

use esc_bundle::NoMemory;
use esc_chain::{GapLine, Held, gaps_at, latest_chain_at};
use esc_manifest::Manifest;
use std::alloc::Global;

/// The line of each listed place, in the order of places, by the held rows, as indices from 0, and
/// the moment that is set, if one is. `None` if one of the rows isn't listed.
pub fn gaps_of(
    alloc: Global,
    manifest: &Manifest,
    held: &[usize],
    moment: Option<i64>,
) -> Result<Option<Vec<GapLine>>, NoMemory>
    ensures { IfOk result (λ found. IfSome found
        (λ lines. AreGapLinesAt manifest.now (set.from_list held.now) moment lines.items)) }
{
    let Some(rows) = Held::from_rows(alloc, manifest, held)? else {
        return Ok(None);
    };
    Ok(Some(gaps_at(alloc, manifest, &rows, moment)?))
}

/// Whether a chain, as rows by their indices from 0, is the latest one of the held rows, up to the
/// moment that is set, if one is. `None` if one of the held rows isn't listed.
pub fn is_latest(
    alloc: Global,
    manifest: &Manifest,
    held: &[usize],
    moment: Option<i64>,
    chain: &[usize],
) -> Result<Option<bool>, NoMemory>
    ensures { IfOk result (λ found. IfSome found (λ is_latest. is_latest ≡ true
        → IsLatestChainAt manifest.now (set.from_list held.now) moment chain.now)) }
{
    let Some(rows) = Held::from_rows(alloc, manifest, held)? else {
        return Ok(None);
    };
    let latest = latest_chain_at(alloc, manifest, &rows, moment)?;
    Ok(Some(latest.as_slice() == chain))
}
