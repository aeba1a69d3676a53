//! Values as texts.

use esc_apply::{Step, Work};
use esc_reports::{printed_watermark, receipt_line};
use esc_store::Reply;
use esc_tables::{Key, Object, Row};
use std::alloc::Global;
use std::fmt::Write;
use std::test::Fail;

/// Adds a text that is given as bytes.
pub fn push_text(text: &mut String, bytes: &[u8]) -> Result<(), Fail> {
    text.push_str(str::from_utf8(bytes)?)?;
    Ok(())
}

/// Adds bytes as hexadecimal digits after an `x`.
pub fn push_bytes(text: &mut String, bytes: &[u8]) -> Result<(), Fail> {
    text.push_str("x")?;
    for byte in bytes {
        write!(text, "{byte:02x}")?;
    }
    Ok(())
}

/// Adds a reply as the report of receipts has it, without the end of its line.
pub fn push_reply(alloc: Global, text: &mut String, reply: &Reply) -> Result<(), Fail> {
    let line = receipt_line(alloc, reply)?;
    text.push_str(str::from_utf8(line.as_slice())?.trim_end())?;
    Ok(())
}

/// Adds the work of an event, and how many writes the desk counted.
pub fn push_work(text: &mut String, work: &Work, counted: u64) -> Result<(), Fail> {
    let (cleared, undone) = (work.cleared, work.undone);
    let (applied, writes) = (work.applied, work.writes);
    write!(
        text,
        "; cleared {cleared}, {undone} undone, {applied} applied, {writes} written, {counted} counted"
    )?;
    Ok(())
}

/// Adds the line of a step of the chain.
pub fn push_step(alloc: Global, text: &mut String, step: &Step) -> Result<(), Fail> {
    let moment = printed_watermark(alloc, step.place.watermark)?;
    let (row, kind, resend) = (step.row, step.place.kind.name(), step.resend);
    writeln!(text, "step {row} {moment} {kind} {resend}")?;
    Ok(())
}

/// Adds the line of an object: kind, key and rows.
pub fn push_object(text: &mut String, key: &Key, object: &Object) -> Result<(), Fail> {
    write!(text, "{} {}: ", key.kind.name(), key.text.as_str())?;
    push_row(text, &object.parent)?;
    for child in &object.children {
        text.push_str("; ")?;
        push_row(text, child)?;
    }
    text.push_str("\n")?;
    Ok(())
}

fn push_row(text: &mut String, row: &Row) -> Result<(), Fail> {
    text.push_str(row.table())?;
    for at in 0..row.len() {
        let (field, cell) = row.cell(at).ok_or("no cell")?;
        write!(text, " {field}={cell}")?;
    }
    Ok(())
}
