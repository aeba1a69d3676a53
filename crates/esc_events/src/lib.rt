//! What a list of events makes of a store, with amended manifests and moments: definitions, and
//! the types that they speak of.
//!
//! An agent may release a manifest in parts, so that a body comes before the row that lists it; and
//! an operator may want the registry as it was at a moment. Here is what both mean. The events are:
//! a manifest was taken in (the first one, or an amendment, which adds the rows that aren't listed
//! yet), an arrival was answered, a moment was set or taken back (`EventValue`, specs/Events.antt).
//!
//! A store that was migrated from version 1 also has early arrivals (`arrived_early`): those that
//! it took in before the migration. Version 1 kept no body that no row listed, and gave it `A2` in
//! place of `A5`. Such a body is lost: no amendment holds it, and it isn't parked, until it comes
//! again. A duplicate of an arrival with `A2` gets that one's reply, but its body counts as that of
//! a new arrival does (`kept_arrivals`, specs/StateAfter.antt).
//!
//! After a list of events
//!
//! - the rows that are listed are those of all manifests, in the order in which they were first
//!   listed (`union`);
//! - each arrival that is no duplicate of an earlier one (by number and digest) has a receipt with
//!   the verdict that it got by the rows that were listed when it came: `A5`, or `A2` for an early
//!   one, if none listed its body (`receipts_of`). An amendment leaves replies as they were;
//! - each body that came and isn't lost is judged by all rows that are listed in the end: it is
//!   held for the row whose deposit it is (`held_body`), and parked if no row lists it
//!   (`parked_body`);
//! - the chain is the latest one of the held rows whose last deposit is not later than the moment
//!   that is set (`IsChainOf`), and the tables are those of its deposits.
//!
//! `IsStateAfter` says all of this of what a store keeps. Which body is held or parked under a
//! digest is fixed only if no two different bodies that count have the same digest (`IsApart`). In
//! any case each body that is held did come and is the row's deposit, each that is parked did come
//! (`came`, `waits`), and a receipt accounts for it (`held_told`, `parked_told`).
//!
//! # What is promised
//!
//! Nothing: here are definitions, and the types that they speak of. That a store stands for a list
//! of events, and what one more event changes in it, is promised by the contracts of the desk
//! (`esc_desk`), in these words.
//!
//! # Example
//!
//! No code here runs. A clause of a desk's call, in these words: where the desk stood for the
//! events `e` before, it stands for them and the arrival after.
//!
//! ```text
//! ensures { .. IsStateAfter sha256 reading e k
//!     → IsStateAfter sha256 reading (e ++ arrived a ∷ []) l }
//! ```
#![tactic(auto)]

mod assessment;
mod cache;
mod parking;
mod plan;

pub use assessment::Assessment;
pub use cache::Cache;
pub use esc_store::ParkedBody;
pub use parking::Parking;
pub use plan::Plan;
