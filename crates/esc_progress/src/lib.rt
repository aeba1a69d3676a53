//! How far a long work is, told on standard error.
//!
//! A [`Progress`] tells at most one line in two seconds, if it was asked to or standard error is a
//! terminal: how many things were read, of how many if that is known, and then about how long the
//! rest takes.
//!
//! ```text
//! domain: 120832 objects read
//! bodies: 12 of 56 bodies read, 40 s left
//! ```
//!
//! # In and out
//!
//! In: the runtime, for the clock and standard error; a name for what is read; counts. Out: lines.
//! A [`Watched`] is objects that come one at a time (`esc_apply`): it tells how many came.
//!
//! ```text
//! let mut progress = Progress::new(rt, is_asked);
//! progress.begin(walk.left());
//! let mut watched = Watched::new(&mut walk, &mut progress, "findings");
//! let found = verify_from(alloc, &mut watched, watermark, &counts)?;
//! ```
//!
//! # What the contracts mean
//!
//! What is told changes nothing: the objects of a `Watched` are those that it was given, in order,
//! with the same failures (`specs/Watching.antt`). What is printed has no contract, and is tested.
#![tactic(auto)]

mod progress;
mod watched;

pub use progress::Progress;
pub use watched::Watched;
