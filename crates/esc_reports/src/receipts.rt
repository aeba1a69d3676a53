//! The report of receipts.

ghost use Rattle.std.specs.Prelude.{◌≡◌, ◌∷◌, [], ◌++◌, IfOk, OnOk, string_bytes, option_map};
ghost use Rattle.std.specs.Fmt.{decimal};
ghost use Rattle.esc_csv.specs.Lines.{line_text};
ghost use Rattle.esc_reports.specs.ReceiptsText.{or_empty, receipts_heading, receipt_line};
ghost use Rattle.esc_reports.specs.ReceiptsText.{replies_text, receipts_text};
ghost use Rattle.esc_reports.specs.Words.{copy_word};

use crate::words::{copy_word, fault_of, verdict_word};
use esc_bundle::NoMemory;
use esc_csv::Lines;
use esc_store::Reply;
use std::alloc::Global;

/// The heading of the receipts report, with its line feed:
/// `receipt,number,verdict,fault,id,resend,copy,orphans`.
pub fn receipts_heading(alloc: Global) -> Result<Vec<u8>, NoMemory>
    ensures text { IfOk result (λ text. text.items ≡ line_text receipts_heading) }
{
    let mut lines = Lines::new(alloc);
    write_heading(&mut lines)?;
    lines.into_text()
}

/// The line of a reply in the receipts report, with its line feed. A value that isn't there is
/// empty.
pub fn receipt_line(alloc: Global, reply: &Reply) -> Result<Vec<u8>, NoMemory>
    ensures text { IfOk result (λ text. text.items ≡ line_text (receipt_line reply.now)) }
{
    let mut lines = Lines::new(alloc);
    write_reply(alloc, &mut lines, reply)?;
    lines.into_text()
}

/// The receipts report: the heading, and a line for each reply.
pub(crate) fn receipts_text(alloc: Global, replies: &[Reply]) -> Result<Vec<u8>, NoMemory>
    ensures text { IfOk result (λ text. text.items ≡ receipts_text replies.now) }
{
    let mut lines = Lines::new(alloc);
    write_heading(&mut lines)?;
    write_replies(alloc, &mut lines, replies)?;
    lines.into_text()
}

fn write_heading(lines: &mut Lines) -> Result<(), NoMemory>
    ensures { OnOk result (lines.new ≡ lines.old ++ line_text receipts_heading) }
{
    lines.write(&[
        b"receipt", b"number", b"verdict", b"fault", b"id", b"resend", b"copy", b"orphans",
    ])
}

fn write_replies(alloc: Global, lines: &mut Lines, replies: &[Reply]) -> Result<(), NoMemory>
    ensures { OnOk result (lines.new ≡ lines.old ++ replies_text replies.now) }
{
    for reply in replies {
        write_reply(alloc, lines, reply)?;
    }
    Ok(())
}

fn write_reply<'x>(alloc: Global, lines: &mut Lines, reply: &'x Reply) -> Result<(), NoMemory>
    ensures { OnOk result (lines.new ≡ lines.old ++ line_text (receipt_line reply.now)) }
{
    let verdict: &'x str = verdict_word(reply.verdict);
    let copy: &'x str = copy_text(reply.again);
    let receipt = number_text(alloc, Some(reply.receipt))?;
    let fault = fault_of(alloc, reply.verdict)?;
    let resend = resend_text(alloc, reply.resend)?;
    let orphans = number_text(alloc, reply.orphans)?;
    lines.write(&[
        receipt.as_bytes(),
        reply.number.as_bytes(),
        verdict.as_bytes(),
        or_empty(&fault).as_bytes(),
        or_empty(&reply.id).as_bytes(),
        resend.as_bytes(),
        copy.as_bytes(),
        orphans.as_bytes(),
    ])
}

fn or_empty(text: &Option<String>) -> &str
    ensures { result.now ≡ or_empty (option_map string_bytes text.now) }
{
    match text {
        Some(text) => text.as_str(),
        None => "",
    }
}

fn copy_text(again: Option<bool>) -> &'static str
    ensures { result.now ≡ or_empty (option_map copy_word again) }
{
    match again {
        Some(again) => copy_word(again),
        None => "",
    }
}

fn number_text(alloc: Global, number: Option<u64>) -> Result<String, NoMemory>
    ensures { IfOk result (λ text. string_bytes text ≡ or_empty (option_map decimal number)) }
{
    match number {
        Some(number) => Ok(format!(in alloc; "{number}")?),
        None => Ok(String::new(alloc)),
    }
}

/// A resend in digits; the empty text where there is none.
pub(crate) fn resend_text(alloc: Global, resend: Option<u32>) -> Result<String, NoMemory>
    ensures { IfOk result (λ text. string_bytes text ≡ or_empty (option_map decimal resend)) }
{
    match resend {
        Some(resend) => Ok(format!(in alloc; "{resend}")?),
        None => Ok(String::new(alloc)),
    }
}
