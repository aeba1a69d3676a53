//! The release manifest: which deposits an escrow agent released, and the SHA-256 of each bundle.
//!
//! # In and out
//!
//! `read_manifest` takes the bytes of a manifest, which is CSV. The first record is the heading
//! `id,type,watermark,prevId,resend,sha256`; each further record is one row: a deposit that was
//! released, with its place (watermark and type), its resend, and the SHA-256 of its bundle. It
//! returns a `Manifest`, a list of typed rows in the order of the text, or a `ManifestFault`.
//! `from_rows` returns the `Manifest` of typed rows, as a store keeps them. `Manifest::extend`
//! returns the union of two manifests: the rows of the first, and after them those of the second
//! that the first doesn't list yet. It is for a manifest that is released in parts.
//!
//! ```text
//! let manifest = read_manifest(alloc, bytes)?;
//! if let Some(row) = manifest.row_by_digest(&digest) {
//!     // manifest.rows()[row] is the deposit whose bundle has this SHA-256
//! }
//! ```
//!
//! A fault is a refusal, from M1 to M13, with a row, counted from 1; row 0 is the heading or the
//! whole file:
//!
//! - M1: more than 4,096 rows, or more than 4,194,304 bytes (row 0);
//! - M2: a record does not have six fields; M3: the heading is missing or different (row 0);
//! - M4: an id is not 1 to 64 of `A-Z a-z 0-9 . _ -`, or a prevId is neither empty nor of that
//!   form;
//! - M5: the type is not `FULL`, `INCR` or `DIFF`; M6: the watermark is no moment of its form;
//! - M7: a `DIFF` has no prevId; M8: resend is neither empty, which is 0, nor 1 to 6 digits;
//! - M9: the digest is not 64 hexadecimal digits, of either case;
//! - M10: a place occurs twice with one resend; M11: an id is in two places;
//! - M12: the prevId of a `DIFF` names a listed row whose watermark isn't earlier than its own;
//! - M13: a digest occurs twice.
//!
//! Of all faults of a text the one of least number is returned, at the least row that has it; the
//! row of M10, M11 and M13 is the least that repeats or contradicts an earlier one. A fault of the
//! union of two manifests is reported at the row of the second one that isn't listed yet and
//! contradicts the first.
//!
//! # What the contracts mean
//!
//! `specs/Manifest.antt` and `specs/RowFaults.antt` say for each refusal which records and rows
//! have that fault, and `specs/LeastFault.antt` which fault is the least: no other fault of the
//! text has a lesser number, nor the same number at a lesser row (`IsLeastInText`,
//! `IsLeastManifestFault`). `read_manifest` and `from_rows` refuse with exactly that one. Out of
//! memory, `read_manifest` and `Manifest::extend` return `ManifestFault::NoMemory`; `from_rows`
//! never does. `manifest_of` and `rows_fault` are the same as functions; by a law they give the
//! least fault. What the rows of an accepted manifest are is the one fact `IsAccepted` of
//! `specs/Accepted.antt`, which each `Manifest` carries and `Manifest::rows` returns; by a law it
//! holds of exactly the rows without a fault. `specs/Extension.antt` has the union of two
//! manifests, or its fault: `Manifest::extend` returns exactly that, and `IsLeastOfUnion` says
//! which fault it is, by the faults that the union has, and at which row it is reported, by the
//! rows that contradict others.
//!
//! # Time
//!
//! Rows are tested by sets and a map of their keys, so that an accepted manifest takes time n log
//! n. All pairs of rows are compared only where there is a fault, or where the keys can't be
//! allocated.
#![tactic(auto)]

mod apart;
mod extension;
mod fault;
mod fields;
mod laws;
mod manifest;
mod reading;
mod records;
mod refusal;
mod row;
mod rows;

pub use fault::ManifestFault;
pub use laws::{accepted_texts_are_read_whole, faults_are_least, rows_without_fault_are_accepted};
pub use manifest::Manifest;
pub use reading::{MOST_MANIFEST_BYTES, read_manifest};
pub use refusal::ManifestRefusal;
pub use row::{MRow, copy_rows};
pub use rows::{MOST_LISTED_ROWS, from_rows};
