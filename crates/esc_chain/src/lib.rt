//! Which deposits the registry is rebuilt from: revisions, bases and the latest chain.
//!
//! A release manifest lists deposits; each has a place, which is its watermark and its type, and a
//! `resend`, which says how often it was generated again (RFC 8909, section 5.1). Some of the
//! listed deposits are held: they arrived, and were found to be what the manifest says. This crate
//! says which of the held ones count, and in which order.
//!
//! - [`Held`] is a set of rows of one manifest: those whose deposits are held. Contracts see a
//!   finite set of row indices, counted from 0: the order of arrivals and how often a deposit
//!   arrived are not in it.
//! - [`used`] is the revision of a place that counts: of the held rows of the place the one with
//!   the greatest `resend`, even if no chain ends there and one would with a lower `resend` (this
//!   project's profile).
//! - [`base_of`] is what a row builds on (RFC 8909, section 2, and this project's profile). A Full
//!   builds on nothing, an Incremental on the last listed Full with an earlier watermark, whatever
//!   its `prevId` says, and a Differential on the place that its `prevId` names. What has arrived
//!   plays no part, so a base is a place and no row.
//! - A chain is a list of used rows that begins with a Full, where the base of each other row is
//!   the place of the one before. [`latest_chain`] is the chain whose end is the greatest place
//!   among the ends of all chains: not the longest one, and not the one that grew last. Where there
//!   is no chain, it is empty. [`latest_chain_at`] is the same of the chains that end by a moment.
//! - [`goes_at_end`] says whether one more row only makes the latest chain longer: it comes after
//!   all held rows, and builds on the chain's end. Then there is no need to make the chain anew.
//! - [`gaps`] has a line for each listed place, in the order of places: which revision of it is
//!   used, its [`State`], what blocks it if no chain ends there, and which revision is still
//!   awaited. A [`Blocker`] is the first base on the way back that isn't held or isn't listed: not
//!   the place itself, and not the last base that is missing. [`gaps_at`] has the same by the
//!   latest chain up to a moment.
//!
//! ```text
//! let mut held = Held::new(alloc);
//! held.insert(&manifest, row)?;
//! let chain = latest_chain(alloc, &manifest, &held)?;
//! // chain is the rows from a Full to the greatest end, or empty
//! ```
//!
//! What goes in is a manifest whose rows were accepted and a set of its rows; what comes out are
//! places and row indices, or a [`GapLine`] a place. The contracts give the exact result by
//! definitions over all rows and all chains of the manifest: `specs/Base` has bases, `specs/Chain`
//! has used rows and chains, `specs/AtEnd` has what lengthens a chain, `specs/Gap` has the lines.
//! The one error is out of memory, and after it nothing has changed. `base_of`, `used` and
//! `goes_at_end` don't allocate.
//!
//! Laws without a body say what follows from the definitions alone: [`latest_chain_at_is_one`],
//! [`latest_chain_at_rows_are_held`] and [`gap_lines_are_one`]. By [`chains_are_of_rows`], two
//! manifests that list the same rows, in whatever order, have latest chains of the same rows where
//! the same are held.
#![tactic(auto)]

mod at_end;
mod base;
mod bases;
mod gap;
mod gap_lines;
mod held;
mod latest;
mod laws;
mod predecessors;
mod revision;
mod stops;
mod unheld;

pub use at_end::goes_at_end;
pub use base::{Base, base_of};
pub use gap::{Blocker, GapLine, Id, ListedPlace, State};
pub use gap_lines::{gaps, gaps_at};
pub use held::Held;
pub use latest::{latest_chain, latest_chain_at};
pub use laws::{
    chains_are_of_rows, gap_lines_are_one, latest_chain_at_is_one, latest_chain_at_rows_are_held,
};
pub use revision::used;
