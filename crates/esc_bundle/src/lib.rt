//! The frame of a bundle.
//!
//! A deposit comes as one file, a *bundle* of named sections. The first section, `envelope.json`,
//! says what the others are. RFC 8909 leaves the files of a deposit to the parties; this form is
//! the project's own:
//!
//! ```text
//! escrow-bundle 1
//! envelope.json 174
//! (174 bytes)
//! c.csv 6
//! (6 bytes)
//! end
//! ```
//!
//! A line feed ends each line and follows the bytes of each section, whose length does not count
//! it. A name is 1 to 32 of `a-z 0-9 . _ -`, and no name occurs twice. A bundle has 1 to 64
//! sections, and neither it nor a section has more than 16,777,216 bytes.
//!
//! `sections` takes the bytes of a bundle apart: names and contents come out as slices of them.
//! `write_bundle` puts sections together. Neither knows what a section holds.
//!
//! # What is promised
//!
//! `specs/Bundle.antt` defines what a bundle is, by texts (`IsBundle`), and `specs/Reading.antt`
//! which fault any other text has, from U1 to U4 (`IsFault`). `sections` returns exactly the
//! sections of a bundle, and refuses exactly the other texts, each with its fault. `write_bundle`
//! returns the one text of its sections, and refuses exactly the lists that no bundle has. Out of
//! memory, either returns `Fault::NoMemory` instead.
//!
//! ```text
//! let sections = sections(alloc, body)?;
//! // sections[0].name is "envelope.json", and sections[0].bytes its contents
//! ```
//!
//! `specs/Frame.antt` and `specs/Writing.antt` have the same as functions, `frame` and `bundle_of`;
//! the crates above reason about bundles by these. The laws in `src/laws.rt` are about the
//! definitions alone: the functions give what the relations say; each text is a bundle of one list
//! of sections or has one fault, and never both; and no bundle is a proper beginning of another.
//! `specs/TestLaws.antt`, `specs/ListLaws.antt` and `specs/ElementLaws.antt` have lemmas that the
//! crates above cite: on sequences of steps that may fail, on lists and their elements, and on
//! digits.
#![tactic(auto)]

mod fault;
mod laws;
mod reading;
mod refusal;
mod section;
mod writing;

pub use fault::{Fault, NoMemory};
pub use laws::{
    bundle_of_is_exact, each_text_has_one_reading, frame_is_exact, no_bundle_begins_another,
    worked_texts,
};
pub use reading::{LONGEST_NAME, MOST_BYTES, MOST_SECTIONS, sections};
pub use refusal::Refusal;
pub use section::Section;
pub use writing::write_bundle;
