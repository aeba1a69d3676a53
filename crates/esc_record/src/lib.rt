//! An object of the registry as bytes, and back (this project's profile).
//!
//! A *number* is four bytes, the greatest first. A *text* is its length as a number, then its
//! bytes. A *row* is its table as a text, the number of its cells, then each cell as two texts,
//! field and value. A *record* is the number of an object's rows, then the rows: the parent first,
//! then the children in their order.
//!
//! A database keeps each object of the registry as its record.
//!
//! # In and out
//!
//! - [`to_record`] takes an object and returns its record, or `None` if a length or a count doesn't
//!   fit four bytes.
//! - [`read_record`] takes bytes and returns the object whose record they are, or `None` if they
//!   are no object's record.
//! - Out of memory, both return `NoMemory`.
//!
//! ```text
//! let record = to_record(alloc, &object)?;
//! // the record of an object of a deposit: it is there
//! if let Some(record) = record {
//!     let mut headings = Headings::new(alloc);
//!     let again = read_record(alloc, &mut headings, record.as_slice())?;
//! }
//! ```
//!
//! # What the contracts mean
//!
//! `specs/Record.antt` has `record_of`, the record of an object as a value. `to_record` returns
//! exactly that. An object that `read_record` returns has these bytes as its record, and where it
//! returns none, no object whose texts are UTF-8 has them.
//!
//! `no_record_begins_another`, a law, says that no record is a proper beginning of another, so that
//! records may be put one after the other, and that no two objects have the same record.
//! `read_objects_have_records`, another law, says that each object of a deposit that was read from
//! a body has a record.
//!
//! # Cost
//!
//! Both take time in proportion to the bytes.
#![tactic(auto)]

mod laws;
mod reading;
mod writing;

pub use laws::{no_record_begins_another, read_objects_have_records};
pub use reading::read_record;
pub use writing::to_record;
