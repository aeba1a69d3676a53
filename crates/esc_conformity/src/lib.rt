//! Objects that fail the minimum tests of a deposit's contents (RFC 9022, section 8).
//!
//! Two walks over the objects of a registry give for each [`Rule`] the keys of the objects that break
//! it, in the order of keys:
//!
//! - `Registrars`: an object names a registrar that is not there, by `crRr`, `upRr`, `reRr` or
//!   `acRr` of its parent row or a child row, such as that of a pending transfer;
//! - `Nndns`: a name is both a domain's and an NNDN's, whatever its case in the NNDN;
//! - `Roids`: another object of its kind has its `roid`;
//! - `Required`: it lacks what RFC 9022 requires of its kind. A domain or a host has a `name`, a
//!   `roid` and a status; a contact an `id`, a `roid`, a status, and a row of `contactPostal` with
//!   `name`, `city` and `cc`; a registrar an `id` and a `name`. A `clID` has a text where a contact,
//!   a host or a domain has that field;
//! - `Outside`: a domain or an NNDN is not below the TLD, if that is known;
//! - `Digests`: a row of `secDNS` of a domain has a part of a DS, and `keyTag` is no number of two
//!   bytes, `dsAlg` or `digestType` none of one byte, or `digest` not in hexadecimal digits: 40 of
//!   type 1, 64 of type 2, 96 of type 4, of other types two or more, and no odd number;
//! - `Addresses`: the `addr` of a row of `hostAddresses` of a host, or of `domainHostAttr` of a
//!   domain, writes no IP address, or one of another version than `addrVersion` says (`v4` or `v6`,
//!   and `v4` where it is empty). Only in `domainHostAttr` it may be empty.
//!
//! An empty text names nobody. (`esc_check` has links by `clID`, contacts, hosts and IDN tables.)
//!
//! ```text
//! let mut survey = Survey::new(alloc);
//! while let Some((key, object)) = objects.next()? {
//!     survey.add(alloc, &key, &object)?;
//! }
//! let registry = Registry { survey: &survey, tld: Some("example") };
//! let found = flaws_from(alloc, &mut the_same_objects, &registry)?;
//! for key in found.of(Rule::Outside) {
//!     // the domain a.test
//! }
//! ```
//!
//! In memory are never all objects. A [`Survey`] keeps the registrars and the names of NNDNs, and of
//! each ROID a number of 64 bits, its mark. Only objects whose mark came twice are kept in the second
//! walk, and in the end their ROIDs are compared as texts.
//!
//! `specs/Flaws.antt` says by one object and the objects of all whether it breaks a rule (`breaks`).
//! What `flaws_from` returns are just the keys of those that do, if the survey is that of the objects
//! that come (`IsSurveyOf` of `specs/Surveys.antt`).
#![tactic(auto)]

mod address;
mod cell;
mod digest;
mod examiner;
mod found;
mod mark;
mod name;
mod registrar;
mod repeats;
mod required;
mod roid;
mod rule;
mod survey;
mod walk;

pub use examiner::Registry;
pub use found::Flaws;
pub use rule::Rule;
pub use survey::Survey;
pub use walk::flaws_from;
