//! Where a body is no bundle.

ghost use Rattle.std.specs.Prelude.{◌≡◌, ◌==◌, position};

use crate::spot::no_spot;
use esc_bundle::{LONGEST_NAME, MOST_BYTES, MOST_SECTIONS, NoMemory};
use std::alloc::Global;
use std::str;

const FIRST_LINE: &[u8] = b"escrow-bundle 1\n";

const LAST_LINE: &[u8] = b"end\n";

/// What is wrong at the front of a text.
#[derive(Clone, Copy)]
enum Flaw<'a> {
    /// With the text.
    Text(&'static str),
    /// With a section that has no name of its form.
    Unnamed(&'static str),
    /// With the section of this name.
    Named(&'a str, &'static str),
}

/// The section at the front of a text: the two words of its line, and what follows the line.
#[derive(Clone, Copy)]
struct Front<'a> {
    name: &'a [u8],
    length: &'a [u8],
    after: &'a [u8],
}

/// Where a body is no bundle.
pub(crate) fn frame_spot(alloc: Global, body: &[u8]) -> Result<String, NoMemory> {
    if body.len() > MOST_BYTES {
        return Ok(String::from_str(alloc, "more than 16,777,216 bytes")?);
    }
    match body.strip_prefix(FIRST_LINE) {
        Some(text) => section_spot(alloc, text),
        None => Ok(String::from_str(alloc, "the first line is not \"escrow-bundle 1\"")?),
    }
}

// Where a text is no list of sections: at the latest where one more begins than a bundle may have.
fn section_spot(alloc: Global, text: &[u8]) -> Result<String, NoMemory> {
    let mut names = Vec::new(alloc);
    let mut rest = text;
    for number in 1..MOST_SECTIONS + 2 {
        match next_section(names.as_slice(), rest) {
            Ok((name, after)) => {
                names.push(name)?;
                rest = after;
            }
            Err(flaw) => return flaw_text(alloc, number, flaw),
        }
    }
    no_spot(alloc)
}

fn flaw_text(alloc: Global, number: usize, flaw: Flaw<'_>) -> Result<String, NoMemory> {
    Ok(match flaw {
        Flaw::Text(what) => String::from_str(alloc, what)?,
        Flaw::Unnamed(what) => format!(in alloc; "section {number}: {what}")?,
        Flaw::Named(name, what) => format!(in alloc; "section {number} {name}: {what}")?,
    })
}

// The name of the section at the front of a text, and what follows it.
fn next_section<'a>(before: &[&str], text: &'a [u8]) -> Result<(&'a str, &'a [u8]), Flaw<'a>> {
    if text.starts_with(LAST_LINE) {
        return Err(Flaw::Text(if before.is_empty() {
            "no section before the line \"end\""
        } else {
            "more after the line \"end\""
        }));
    }
    let Some(front) = front_of(text) else {
        return Err(Flaw::Unnamed("no line with a name and a length"));
    };
    let Some(name) = name_of(front.name) else {
        return Err(Flaw::Unnamed("a name that is not 1 to 32 of a-z 0-9 . _ -"));
    };
    match after_section(before, name, front) {
        Ok(rest) => Ok((name, rest)),
        Err(what) => Err(Flaw::Named(name, what)),
    }
}

// What follows the section, or what is wrong with it.
fn after_section<'a>(
    before: &[&str],
    name: &str,
    front: Front<'a>,
) -> Result<&'a [u8], &'static str> {
    if before.iter().any(|other| *other == name) {
        return Err("the name of an earlier section");
    }
    if before.len() >= MOST_SECTIONS {
        return Err("more than 64 sections");
    }
    let Some(length) = length_of(front.length) else {
        return Err("more than 16,777,216 bytes");
    };
    if before.is_empty() && name != "envelope.json" {
        return Err("not envelope.json");
    }
    after_bytes(front.after, length)
}

fn after_bytes(text: &[u8], length: usize) -> Result<&[u8], &'static str> {
    let Some(rest) = text.get(length..) else {
        return Err("fewer bytes than its line says");
    };
    match rest.strip_prefix(b"\n") {
        Some(after) => Ok(after),
        None => Err("no line end after its bytes"),
    }
}

fn front_of(text: &[u8]) -> Option<Front<'_>> {
    let (line, after) = split_at_byte(text, b'\n')?;
    let (name, length) = split_at_byte(line, b' ')?;
    if is_length(length) {
        Some(Front {
            name,
            length,
            after,
        })
    } else {
        None
    }
}

fn index_of(bytes: &[u8], byte: u8) -> Option<usize>
    ensures { result ≡ position (λ b. b == byte) bytes.now }
{
    bytes.iter().position(|b| *b == byte)
}

fn split_at_byte(bytes: &[u8], separator: u8) -> Option<(&[u8], &[u8])> {
    let at = index_of(bytes, separator)?;
    Some((&bytes[..at], &bytes[at + 1..]))
}

fn is_length(digits: &[u8]) -> bool {
    if digits.is_empty() || !digits.iter().all(|digit| digit.is_ascii_digit()) {
        return false;
    }
    digits[0] != b'0' || digits.len() == 1
}

fn length_of(digits: &[u8]) -> Option<usize> {
    let length = str::from_utf8(digits).ok()?.parse::<usize>().ok()?;
    (length <= MOST_BYTES).then_some(length)
}

fn name_of(name: &[u8]) -> Option<&str> {
    if name.is_empty() || name.len() > LONGEST_NAME || !are_name_bytes(name) {
        return None;
    }
    str::from_utf8(name).ok()
}

fn are_name_bytes(name: &[u8]) -> bool {
    name.iter().all(|byte| matches!(*byte, b'a'..=b'z' | b'0'..=b'9' | b'.' | b'_' | b'-'))
}
