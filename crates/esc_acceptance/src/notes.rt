//! The notes of bundles: what was told when they were made.

use crate::words::one_line;
use esc_bundle::{Fault, NoMemory, sections};
use esc_envelope::array_of;
use serde_json::Value;
use std::alloc::Global;

fn notes_in(alloc: Global, envelope: &Value) -> Result<Vec<String>, NoMemory> {
    let mut notes = Vec::new(alloc);
    for note in array_of(envelope, "notes").unwrap_or(&[]) {
        if let Some(text) = note.as_str() {
            notes.push(one_line(alloc, text)?)?;
        }
    }
    Ok(notes)
}

// The notes of a JSON text; none where it isn't one.
fn notes_from(alloc: Global, json: &[u8]) -> Result<Vec<String>, NoMemory> {
    match Value::from_slice(alloc, json) {
        Ok(envelope) => notes_in(alloc, &envelope),
        Err(error) => {
            if error.is_memory() {
                Err(NoMemory)
            } else {
                Ok(Vec::new(alloc))
            }
        }
    }
}

/// The texts of the member `notes` of a body's envelope, each on one line; none where the body is no
/// bundle.
pub(crate) fn notes_of_body(alloc: Global, body: &[u8]) -> Result<Vec<String>, NoMemory> {
    match sections(alloc, body) {
        Ok(sections) => match sections.first() {
            Some(envelope) => notes_from(alloc, envelope.bytes),
            None => Ok(Vec::new(alloc)),
        },
        Err(Fault::Refused(_)) => Ok(Vec::new(alloc)),
        Err(Fault::NoMemory) => Err(NoMemory),
    }
}
