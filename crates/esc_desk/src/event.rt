//! Events: what a desk takes in, and what comes of it.

use crate::amendment::AmendFault;
use crate::arrival::Arrival;
use esc_store::{Reply, StoreFault};

/// What a desk may be asked to take in.
#[derive(Drop)]
pub enum Event<'a> {
    /// A body arrives.
    Arrival(Arrival<'a>),
    /// An amendment: the text of a manifest, whose rows are to be listed too.
    Amend(&'a [u8]),
    /// The registry is rebuilt as of a moment, in nanoseconds since 1970-01-01T00:00:00Z, from now
    /// on. `None` takes the moment back.
    AsOf(Option<i64>),
}

/// What came of an arrival.
#[derive(Debug, Drop)]
pub enum Outcome {
    /// It was answered with this reply.
    Done(Reply),
    /// It was refused by `S1`, `S2`, `S4` or `S5`, and nothing has changed.
    Lost(StoreFault),
}

/// What came of an event. Where it was refused nothing has changed.
#[derive(Debug, Drop)]
pub enum EventOutcome {
    /// What came of an arrival.
    Arrived(Outcome),
    /// How many rows an amendment added, or why it wasn't taken in.
    Amended(Result<u32, AmendFault>),
    /// That a moment was set or taken back, or why not.
    Moved(Result<(), StoreFault>),
}
