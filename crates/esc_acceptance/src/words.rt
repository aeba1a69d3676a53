//! Words that lines and pages share. No clause says how they are told.

use esc_bundle::NoMemory;
use esc_cli::OneLine;
use esc_envelope::{Place, watermark_text};
use std::alloc::Global;

/// A moment as manifests write it (RFC 3339), or its nanoseconds where there is no such text.
pub fn moment_words(alloc: Global, moment: i64) -> Result<String, NoMemory> {
    match watermark_text(alloc, moment)? {
        Some(text) => Ok(text),
        None => Ok(format!(in alloc; "{moment}")?),
    }
}

/// A text of a deposit on one line: if it has control characters, these are written as Rust escapes
/// them, and so are its backslashes.
pub fn one_line(alloc: Global, text: &str) -> Result<String, NoMemory> {
    if text.is_empty() {
        return Ok(String::new(alloc));
    }
    Ok(format!(in alloc; "{}", OneLine(text))?)
}

/// A place as its moment and its type.
pub(crate) fn place_words(alloc: Global, place: Place) -> Result<String, NoMemory> {
    let moment = moment_words(alloc, place.watermark)?;
    let kind = place.kind.name();
    Ok(format!(in alloc; "{moment} {kind}")?)
}
