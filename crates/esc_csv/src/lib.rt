//! Comma-separated values (RFC 4180), as this project reads and writes them.
//!
//! # In and out
//!
//! `Records` takes the bytes of a text and returns its records, one at a time. A record is a list
//! of fields, each of them bytes: commas separate fields, the end of a line ends a record, and a
//! field in double quotes may hold commas, line ends and quotes, where each quote is written twice.
//! Records may differ in their number of fields. Empty lines are no records, nothing is trimmed, no
//! record is a heading, and a byte order mark at the start of a text is dropped. Every text can be
//! read as records: whether they are the right ones is for the caller to test.
//!
//! `Lines` takes records and returns the text of their lines: each is ended by LF, and a field has
//! quotes only where it needs them.
//!
//! ```text
//! let mut records = Records::of(alloc, text);
//! let mut record = Record::new(alloc);
//! while records.next(&mut record)? {
//!     // record.field(0) is its first field
//! }
//!
//! let mut lines = Lines::new(alloc);
//! lines.write(&[b"kind", b"key"])?;
//! let text = lines.into_text()?;
//! ```
//!
//! # What the contracts mean
//!
//! `specs/Records.antt` has `records_of`, all records of a text, by the steps of the library `csv`
//! over its bytes. `Records::of` is the list of them, and each `next` takes the first of those that
//! are left: the list gets shorter, so a loop over it ends. `specs/Lines.antt` has `line_text`, a
//! record as a line, and `text_of`, the lines of records. `Lines` is the text that was written so
//! far, and each `write` adds a line to it.
//!
//! `written_lines_read_back`, a law, says that the records that were written are read back from
//! their text, with two exceptions: a record without fields is read back as one empty field, and a
//! text that begins with a byte order mark loses it. `fields_are_no_longer_than_the_text`, another
//! law, says that no field is longer than the text.
//!
//! Out of memory, a call returns `NoMemory`. From then on `Records` has no more records. Of `Lines`
//! nothing is said then: they are to be dropped.
//!
//! # Cost
//!
//! One pass over a text. `next` fills the record that it is given, so the memory of that is reused.
//! `Lines` allocates for its text alone.
#![tactic(auto)]

mod laws;
mod lines;
mod record;
mod records;

pub use laws::{fields_are_no_longer_than_the_text, written_lines_read_back};
pub use lines::Lines;
pub use record::Record;
pub use records::Records;
