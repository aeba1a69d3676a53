//! The report of gaps.

ghost use Rattle.std.specs.Prelude.{◌≡◌, ◌∷◌, [], ◌++◌, IfOk, IfErr, OnOk, string_bytes};
ghost use Rattle.std.specs.Prelude.{option_map};
ghost use Rattle.esc_chain.specs.GapTexts.{state_text, blocker_text};
ghost use Rattle.esc_csv.specs.Lines.{line_text};
ghost use Rattle.esc_store.specs.Faults.{IsFailure};
ghost use Rattle.esc_reports.specs.GapsText.{gaps_heading, gap_line, gap_lines_text, gaps_text};
ghost use Rattle.esc_reports.specs.GapsText.{IsGapsReport};
ghost use Rattle.esc_reports.specs.ReceiptsText.{or_empty};

use crate::receipts::resend_text;
use crate::watermark::printed_watermark;
use esc_bundle::NoMemory;
use esc_chain::{Blocker, GapLine, Held, State, gaps_at};
use esc_csv::Lines;
use esc_manifest::Manifest;
use esc_store::{Cause, StoreFault};
use std::alloc::{AllocError, Global};

/// The report of gaps of a manifest, by the rows of it that are held, as indices from 0, and the
/// moment that is set, if one is. `S1` if one of the rows isn't listed, or if a watermark is
/// outside the years 1970 to 2261, as no listed one is; `S2`.
pub(crate) fn gaps_report(
    alloc: Global,
    manifest: &Manifest,
    rows: &[usize],
    moment: Option<i64>,
) -> Result<Vec<u8>, StoreFault>
    ensures text { IfOk result (λ text. IsGapsReport manifest.now rows.now moment text.items) }
    ensures cause { IfErr result IsFailure }
{
    let held = Held::from_rows(alloc, manifest, rows)?.ok_or(StoreFault::Failed(
        Cause::Contradiction,
    ))?;
    let lines = gaps_at(alloc, manifest, &held, moment)?;
    gaps_text(alloc, &lines)
}

// The heading `watermark,type,used,state,blocker,awaited`, and a line for each of these places.
fn gaps_text(alloc: Global, gaps: &[GapLine]) -> Result<Vec<u8>, StoreFault>
    ensures text { IfOk result (λ text. text.items ≡ gaps_text gaps.now) }
    ensures cause { IfErr result IsFailure }
{
    let mut lines = Lines::new(alloc);
    write_heading(&mut lines)?;
    write_lines(alloc, &mut lines, gaps)?;
    Ok(lines.into_text()?)
}

fn write_heading(lines: &mut Lines) -> Result<(), StoreFault>
    ensures written { OnOk result (lines.new ≡ lines.old ++ line_text gaps_heading) }
    ensures cause { IfErr result IsFailure }
{
    lines.write(&[
        b"watermark",
        b"type",
        b"used",
        b"state",
        b"blocker",
        b"awaited",
    ])?;
    Ok(())
}

fn write_lines(alloc: Global, lines: &mut Lines, gaps: &[GapLine]) -> Result<(), StoreFault>
    ensures written { OnOk result (lines.new ≡ lines.old ++ gap_lines_text gaps.now) }
    ensures cause { IfErr result IsFailure }
{
    for gap in gaps {
        write_line(alloc, lines, gap)?;
    }
    Ok(())
}

fn write_line<'x>(alloc: Global, lines: &mut Lines, gap: &'x GapLine) -> Result<(), StoreFault>
    ensures written { OnOk result (lines.new ≡ lines.old ++ line_text (gap_line gap.now)) }
    ensures cause { IfErr result IsFailure }
{
    let kind: &'x str = gap.place.kind.name();
    let watermark = printed_watermark(alloc, gap.place.watermark)?;
    let used = resend_text(alloc, gap.used)?;
    let state = state_text(alloc, gap.state)?;
    let blocker = blocker_text(alloc, &gap.blocker)?;
    let awaited = resend_text(alloc, gap.awaited)?;
    lines.write(&[
        watermark.as_bytes(),
        kind.as_bytes(),
        used.as_bytes(),
        state.as_bytes(),
        blocker.as_bytes(),
        awaited.as_bytes(),
    ])?;
    Ok(())
}

fn state_text(alloc: Global, state: State) -> Result<String, AllocError>
    ensures { IfOk result (λ text. string_bytes text ≡ state_text state) }
{
    format!(in alloc; "{state}")
}

fn blocker_text(alloc: Global, blocker: &Option<Blocker>) -> Result<String, NoMemory>
    ensures { IfOk result (λ text. string_bytes text
        ≡ or_empty (option_map blocker_text blocker.now)) }
{
    match blocker {
        Some(blocker) => Ok(format!(in alloc; "{blocker}")?),
        None => Ok(String::new(alloc)),
    }
}
