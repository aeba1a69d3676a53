//! The text of the acceptance, and its status.

ghost use Rattle.std.specs.Prelude.{◌≡◌, ◌++◌, map, codes, string_bytes, IfOk, OnOk};
ghost use Rattle.std.specs.List.{flat_map};
ghost use Rattle.esc_acceptance.specs.Acceptance.{status_of};
ghost use Rattle.esc_acceptance.specs.Lines.{detail_text, test_line, note_text, IsTextOf};

use crate::acceptance::status_of;
use crate::line::{Line, lines_of};
use crate::seen::Seen;
use esc_bundle::NoMemory;
use std::alloc::Global;

/// What `check` prints, and its status.
#[derive(Drop)]
pub struct Report {
    pub text: Vec<u8>,
    pub status: u8,
}

// Appends what was found, if something was.
fn push_detail(text: &mut String, detail: &str) -> Result<(), NoMemory>
    ensures { OnOk result (string_bytes text.new
        ≡ string_bytes text.old ++ detail_text detail.now) }
{
    if detail.is_empty() {
        return Ok(());
    }
    text.push_str(": ")?;
    text.push_str(detail)?;
    Ok(())
}

fn push_line(text: &mut String, line: &Line) -> Result<(), NoMemory>
    ensures { OnOk result (string_bytes text.new
        ≡ string_bytes text.old ++ test_line line.now) }
{
    text.push_str(line.word())?;
    text.push_str(" ")?;
    text.push_str(line.test.name())?;
    push_detail(text, line.detail.as_str())?;
    text.push_str("\n")?;
    Ok(())
}

fn push_lines(text: &mut String, lines: &[Line]) -> Result<(), NoMemory>
    ensures { OnOk result (string_bytes text.new
        ≡ string_bytes text.old ++ flat_map test_line lines.now) }
{
    for line in lines {
        push_line(text, line)?;
    }
    Ok(())
}

fn push_note(text: &mut String, note: &str) -> Result<(), NoMemory>
    ensures { OnOk result (string_bytes text.new
        ≡ string_bytes text.old ++ note_text note.now) }
{
    text.push_str("told note: ")?;
    text.push_str(note)?;
    text.push_str("\n")?;
    Ok(())
}

fn push_notes(text: &mut String, notes: &[String]) -> Result<(), NoMemory>
    ensures { OnOk result (string_bytes text.new
        ≡ string_bytes text.old ++ flat_map note_text (map string_bytes notes.now)) }
{
    for note in notes {
        push_note(text, note.as_str())?;
    }
    Ok(())
}

fn text_of(alloc: Global, seen: &Seen<'_>) -> Result<String, NoMemory>
    ensures { IfOk result (λ text. IsTextOf seen.now (string_bytes text)) }
{
    let lines = lines_of(alloc, seen)?;
    let mut text = String::new(alloc);
    push_lines(&mut text, &lines)?;
    push_notes(&mut text, seen.notes)?;
    Ok(text)
}

/// The lines of what was seen, then a line for each note; and the status, which is 0 exactly where
/// the registry may be taken over. A strict one is 0 only where nothing is told either.
pub fn report_of(alloc: Global, seen: &Seen<'_>, is_strict: bool) -> Result<Report, NoMemory>
    ensures text { IfOk result (λ report. IsTextOf seen.now report.text.items) }
    ensures status { IfOk result (λ report. report.status ≡ status_of is_strict seen.now) }
{
    let text = text_of(alloc, seen)?;
    Ok(Report {
        text: text.into_bytes(),
        status: status_of(seen, is_strict),
    })
}
