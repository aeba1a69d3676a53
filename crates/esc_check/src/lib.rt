//! Verification and export of the tables of a registry.
//!
//! The tables are a map from keys to objects, as `esc_tables` reads them from a deposit or as a
//! chain of deposits makes them.
//!
//! `write_export` writes all objects of a kind as CSV: a heading, and a line for each cell, in the
//! order of keys; of an object the parent row first, and then each child row with its number among
//! the object's rows of its table. The objects come one at a time, in the order of keys, each key
//! once, from a source that is an `Objects` of `esc_apply`. Its contract states the whole text.
//!
//! `verify` returns what breaks a rule of this project's profile, each finding once and in order:
//!
//! - V1: a link leads to no object;
//! - V2: a kind has another number of objects than the deposit declares;
//! - V3: a status is none of RFC 5731's for domains, RFC 5732's for hosts, RFC 5733's for contacts;
//! - V4: a domain is `ok` and has another status;
//! - V5: an object was created after the watermark;
//! - V6: a domain expires before it was created;
//! - V7: a date is no valid watermark: it has another form, or is no moment of the years 1970 to
//!   2261.
//!
//! Where a row has a field twice, the first cell counts. An empty cell is no link, no status and no
//! date.
//!
//! `verify_from` returns the same for objects that come one at a time. It asks for all of the
//! objects, and keeps none; so does `write_export`. A [`Verification`] is given them one after the
//! other, by a caller who looks at each of them for more than this.
//!
//! # Example
//!
//! ```text
//! let found = verify(alloc, &tables, watermark, &counts)?;
//! // each finding has a code and a key: V1 of the domain a.example with the field `clID`
//! write_export(alloc, &mut output, &mut objects, Kind::Domain)?;
//! ```
//!
//! # What is promised
//!
//! `specs/Findings.antt` says what a finding is, by relations over the tables as a map from keys to
//! objects, the watermark and the declared numbers; `specs/Links.antt` and `specs/Statuses.antt`
//! say what an object's links and statuses are. What `verify` returns has exactly the findings, in
//! strict order, so each of them once. `specs/Export.antt` has the lines of the export. Out of
//! memory, either returns `NoMemory`.
//!
//! A `Verification` of objects that come in the order of keys, each key once, gives just these
//! findings once all have come (`specs/Verifying.antt`). Over a source that is honest, `verify_from`
//! returns and `write_export` writes exactly that for the objects that it lists; that findings are
//! in strict order holds over any source. Where the source fails they return its fault, and a part
//! of an export may be written. Whatever they return, the source `follows` from what it was.
//!
//! `specs/Gathered.antt` has what the functions here return to one another, as lists with repeats:
//! what is found of one object, if these are the keys of the tables. `proofs/FindingLaws.antt`
//! shows that it is the same set.
//!
//! # Cost
//!
//! One walk over the objects, and one over their keys for each declared number; a look-up in the
//! map for each link. Both allocate for what is found, and for the links and statuses of one
//! object at a time. Child rows that are grouped by table, as those of a deposit are, are counted
//! once for each table.
//!
//! `write_export` allocates for the lines of one object. `verify_from` allocates for what is found,
//! for the keys to which links may lead (no link leads to a domain or an NNDN), and for the links
//! that lead to what did not come before them. Registrars come first, then contacts, hosts and
//! domains, so these are the links to IDN tables and those that lead to nothing. A link is looked
//! up among the keys as it comes, and if it leads to none of them, once more at the end. Of each
//! kind the objects are counted as they come.
#![tactic(auto)]

mod came;
mod count;
mod date;
mod distinct;
mod export;
mod export_fault;
mod field;
mod finding;
mod link;
mod rule;
mod statuses;
mod stream;
mod verification;
mod walk;

pub use export::write_export;
pub use export_fault::ExportFault;
pub use finding::Finding;
pub use rule::Rule;
pub use stream::StreamFault;
pub use verification::verify;
pub use walk::{Verification, verify_from};
