//! Where a body is no deposit: a second reading, of a body that was refused.

use crate::envelope_spot::envelope_spot;
use crate::file_spot::files_spot;
use crate::frame_spot::frame_spot;
use esc_bundle::{Fault, NoMemory, Section, sections};
use esc_envelope::read_envelope;
use std::alloc::Global;

/// Where a body that is no deposit is wrong, and why, in words on one line: the section, the row and
/// the field of its refusal, the least of U1 to U11 that applies. Sections count from 1, the
/// envelope; rows from 1, as a section has no heading; tables from 1. That the place is right is proved
/// of parts (`specs/RowTests.antt`), and tested.
pub fn fault_spot(alloc: Global, body: &[u8]) -> Result<String, NoMemory> {
    match sections(alloc, body) {
        Ok(sections) => sections_spot(alloc, sections.as_slice()),
        Err(Fault::Refused(_)) => frame_spot(alloc, body),
        Err(Fault::NoMemory) => Err(NoMemory),
    }
}

// Where the sections of a bundle are no deposit.
fn sections_spot(alloc: Global, sections: &[Section<'_>]) -> Result<String, NoMemory> {
    let [first, files @ ..] = sections else {
        return no_spot(alloc);
    };
    match read_envelope(alloc, first.bytes) {
        Ok(envelope) => files_spot(alloc, files, &envelope),
        Err(Fault::Refused(_)) => envelope_spot(alloc, first.bytes),
        Err(Fault::NoMemory) => Err(NoMemory),
    }
}

/// Where a second reading finds nothing wrong, as of a deposit.
pub(crate) fn no_spot(alloc: Global) -> Result<String, NoMemory> {
    Ok(String::from_str(alloc, "nothing found")?)
}
