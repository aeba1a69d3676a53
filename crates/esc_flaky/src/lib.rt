//! What fails on purpose, for tests alone.
//!
//! - A [`FlakyDisk`] passes calls on to another disk (`sqlite_disk`), but for those that are to fail
//!   ([`Failures`]): so many, after so many that pass.
//! - A [`Peer`] is a client in memory. It sends and takes by its [`Manner`]: in pieces, after
//!   pauses, up to a byte, or not at all. Its clock ([`Hands`]) moves only while it is waited for.
//!
//! ```text
//! let disk = FlakyDisk::new(memory, Failures { after: 7, count: 1 });   // the 8th call fails
//!
//! let clock = Hands::new();
//! let mut peer = Peer::new(alloc, &clock, Manner { most: 100, ..OPEN }, request);
//! // its 101st byte is not sent: the read is an error
//! ```
//!
//! # What the contracts mean
//!
//! A `FlakyDisk` is a `Disk` of `sqlite_disk`: it keeps the promises of that trait, with its own
//! failures counted, so that the proofs over any disk hold over it. A `Peer` has no contract but
//! that its calls are safe and end.
#![tactic(auto)]

mod client;
mod clock;
mod disk;

pub use client::{Manner, OPEN, Peer};
pub use clock::Hands;
pub use disk::{Failures, FlakyDisk};
