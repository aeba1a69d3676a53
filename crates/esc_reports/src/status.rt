//! The status report.

ghost use Rattle.std.specs.Prelude.{◌≡◌, ◌++◌, IfOk, IfErr, OnOk, string_bytes};
ghost use Rattle.esc_store.specs.Faults.{IsFailure};
ghost use Rattle.esc_reports.specs.StatusText.{number_line, end_text, end_line, objects_text};
ghost use Rattle.esc_reports.specs.StatusText.{counts_text, status_text};

use crate::watermark::printed_watermark;
use esc_bundle::NoMemory;
use esc_desk::{Status, StoreFault};
use esc_envelope::{Kind, Place};
use std::alloc::Global;
use std::collections::BTreeMap;

/// The status report: eleven lines. `S1` if the chain ends at a watermark outside the years 1970 to
/// 2261, as no listed one is; `S2`.
pub(crate) fn status_text(alloc: Global, status: &Status) -> Result<String, StoreFault>
    ensures text { IfOk result (λ text. string_bytes text ≡ status_text status.now) }
    ensures cause { IfErr result IsFailure }
{
    let mut text = String::new(alloc);
    push_counts(alloc, &mut text, status)?;
    push_end(alloc, &mut text, status.end)?;
    push_objects(alloc, &mut text, &status.objects)?;
    Ok(text)
}

fn push_counts(alloc: Global, text: &mut String, status: &Status) -> Result<(), NoMemory>
    ensures { OnOk result (string_bytes text.new ≡ string_bytes text.old
        ++ counts_text status.now) }
{
    push_number(alloc, text, "listed", status.listed)?;
    push_number(alloc, text, "held", status.held)?;
    push_number(alloc, text, "receipts", status.receipts)?;
    push_number(alloc, text, "chain", status.chain)
}

// Writes the line of a name and a number at the end of a text.
fn push_number(alloc: Global, text: &mut String, name: &str, number: u64) -> Result<(), NoMemory>
    ensures { OnOk result (string_bytes text.new ≡ string_bytes text.old
        ++ number_line name.now number) }
{
    let line = number_line(alloc, name, number)?;
    text.push_str(line.as_str())?;
    Ok(())
}

fn number_line(alloc: Global, name: &str, number: u64) -> Result<String, NoMemory>
    ensures { IfOk result (λ line. string_bytes line ≡ number_line name.now number) }
{
    Ok(format!(in alloc; "{name} {number}\n")?)
}

/// The line of the status report that says where a chain ends: `end WATERMARK TYPE RESEND`, or
/// `end none`. `S1` if the watermark is outside the years 1970 to 2261, as no listed one is; `S2`.
pub fn end_line(alloc: Global, end: Option<(Place, u32)>) -> Result<String, StoreFault>
    ensures line { IfOk result (λ line. string_bytes line ≡ end_line end) }
    ensures cause { IfErr result IsFailure }
{
    let mut line = String::new(alloc);
    push_end(alloc, &mut line, end)?;
    Ok(line)
}

// Writes `end_line` at the end of a text.
fn push_end(alloc: Global, text: &mut String, end: Option<(Place, u32)>) -> Result<(), StoreFault>
    ensures pushed { OnOk result (string_bytes text.new ≡ string_bytes text.old ++ end_line end) }
    ensures cause { IfErr result IsFailure }
{
    let Some((place, resend)) = end else {
        text.push_str("end none\n")?;
        return Ok(());
    };
    let line = end_text(alloc, place, resend)?;
    text.push_str(line.as_str())?;
    Ok(())
}

fn end_text(alloc: Global, place: Place, resend: u32) -> Result<String, StoreFault>
    ensures line { IfOk result (λ line. string_bytes line ≡ end_text place resend) }
    ensures cause { IfErr result IsFailure }
{
    let watermark = printed_watermark(alloc, place.watermark)?;
    let kind = place.kind.name();
    Ok(format!(in alloc; "end {watermark} {kind} {resend}\n")?)
}

// Writes at the end of a text how many objects there are of each kind, a line for each.
fn push_objects(
    alloc: Global,
    text: &mut String,
    objects: &BTreeMap<Kind, u64>,
) -> Result<(), NoMemory>
    ensures { OnOk result (string_bytes text.new ≡ string_bytes text.old
        ++ objects_text objects.now.entries) }
{
    for (kind, count) in objects.iter() {
        push_number(alloc, text, kind.name(), *count)?;
    }
    Ok(())
}
