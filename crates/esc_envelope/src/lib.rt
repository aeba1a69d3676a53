//! The JSON envelope of a deposit, and watermarks.
//!
//! A deposit of registry data escrow (RFC 8909) comes as a bundle of named sections. Its first
//! section is the envelope: a JSON object that says which deposit this is (`id`, `type`,
//! `watermark`, `prevId`, `resend`), how many objects of each kind the registry had (`counts`), and
//! which tables the other sections hold (`contents`, `deletes`). The members and their forms are
//! this project's profile.
//!
//! `read_envelope` takes the section's bytes and returns an `Envelope`, or a refusal:
//!
//! - U5: the bytes are no JSON as `serde_json` reads it (no UTF-8, nesting over its limit, a byte
//!   order mark);
//! - U6: a member other than those of a table is missing, or not of its form;
//! - U7: the declaration of a table is not valid.
//!
//! The first that applies, in this order, is returned. If a member occurs twice the last one
//! counts, and members of other names are ignored. A whole number is written in digits alone.
//!
//! ```text
//! let envelope = read_envelope(alloc, bytes)?;
//! // envelope.header.place is the deposit's watermark and type
//! ```
//!
//! Its contract says exactly that. `specs/Envelope.antt` has the function `envelope_of` from bytes
//! to an envelope or a refusal, put together from one small definition for each member
//! (`specs/Members.antt`, `specs/DeclaredTables.antt`); `specs/EnvelopeFaults.antt` says to which
//! texts each refusal applies, and that the least of them is returned (`IsLeastEnvelopeFault`). An
//! `Ok` is the envelope that `envelope_of` gives, and a refusal is the one that it gives; only out
//! of memory may be returned in place of either. Contracts see an `Envelope` as an `EnvelopeValue`,
//! a `Header` as a `HeaderValue` and a `Table` as a `TableValue`, records of texts as bytes,
//! numbers and lists.
//!
//! A watermark is a moment in UTC, in nanoseconds since 1970-01-01T00:00:00Z, of the years 1970 to
//! 2261. `watermark` reads its text and doesn't allocate, `watermark_text` prints it, and so does
//! `moment_text` where it is known to be of these years.
//! `specs/Moment.antt` says what the text of a moment is and which moment it means, by the calendar
//! of `jiff`. Two functions with empty bodies state the laws: the texts that are read are exactly
//! those of moments; every moment of these years has a text; and what is printed is read back.
//!
//! A `Place` is a watermark and a type, ordered by watermark and then `DIFF < INCR < FULL`.
//!
//! An envelope may have members that this crate ignores. `text_at`, `array_in` and `array_of` read
//! members of JSON data by the forms that the envelope's own have (`specs/Members.antt`), so that
//! others can read more of them.
//!
//! Reading takes time n log n in the length of the text: names of tables are looked up in a set,
//! and only the fields of one table, at most 64, are compared in pairs.
#![tactic(auto)]

mod counts;
mod envelope;
mod header;
mod id;
mod kind;
mod laws;
mod members;
mod moment;
mod parts;
mod place;
mod table;
mod tables;
mod texts;

pub use envelope::{Envelope, read_envelope};
pub use header::Header;
pub use id::{LONGEST_ID, is_id};
pub use kind::Kind;
pub use laws::{
    declared_tables_have_their_forms, printed_watermarks_are_read, refusals_are_least,
    watermarks_are_moments,
};
pub use members::{MOST_RESEND, text_at};
pub use moment::{END_OF_YEARS, moment_text, watermark, watermark_text};
pub use place::{DepositType, Place};
pub use table::Table;
pub use tables::LONGEST_TABLE_NAME;
pub use texts::{MOST_FIELDS, array_in, array_of};
