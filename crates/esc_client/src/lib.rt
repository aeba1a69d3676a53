//! A client's connection, with a limit on the time for which the client is waited for.
//!
//! One connection is served at a time. A client that sends a byte now and then, or takes its
//! response a byte at a time, would hold up all others. A time limit for each read doesn't help,
//! since it begins anew with each byte. So the time for which a client is waited for is counted as
//! a whole, and bounded by the number of bytes that came or went.
//!
//! What goes in: a clock, a stream whose reads and writes can be limited in time, and a
//! [`TimeBudget`]. What comes out: a [`TimedStream`], a reader and writer over the stream that fails
//! once the budget is spent. Only the time within a read or a write counts, so that work between two
//! of them costs a client nothing.
//!
//! | Budget | The client is waited for |
//! |---|---|
//! | [`TimeBudget::for_request`] | 10 seconds, and one for each 65,536 bytes that came; at most 300 |
//! | [`TimeBudget::for_response`] | 10 seconds, and one for each 65,536 bytes that went |
//! | [`TimeBudget::for_rest`] | 10 seconds, and no more than one in each read |
//!
//! [`is_of_connection`] tells an error of a connection from one of the listener that accepts it, and
//! [`drain`] ends a connection over which a client may still be sending.
//!
//! # Example
//!
//! ```text
//! let (stream, _address) = listener.accept()?;
//! let mut reader = TimedStream::new(rt, &stream, TimeBudget::for_request());
//! let count = reader.read(&mut buffer)?;
//! // where nothing comes, it fails after 10 seconds
//! ```
//!
//! # What the contracts mean
//!
//! `specs/TimeBudget.antt` has the rule: `granted`, the time for the bytes so far; `waited`, the time
//! that its calls have taken; and `IsSpent`, that the time waited is no less than the time granted.
//! Once its budget is spent, a read or a write of a `TimedStream` fails. The bytes that a read or a
//! write moved are counted (`HasMoved`), and they are the stream's: what a `TimedStream` has left to
//! read (`remaining`) and what it was given to write (`contents`) is what its stream has and was
//! given. Where the clock fails after bytes have moved, they are returned, and the budget is spent.
//!
//! No contract says that the time of each is counted, nor that the stream is limited to `next_wait`
//! before it: a clock and a stream have no model that could say it. Both are tested, and so is that
//! a limited read ends in time, which is up to the system. `drain` has no clause: no contract can
//! say what is done to a stream. Scenes over sockets test it. `specs/Connections.antt` has the
//! errors that are of a connection.
#![tactic(auto)]

mod budget;
mod connection;
mod stream;

pub use budget::TimeBudget;
pub use connection::{drain, is_of_connection};
pub use stream::{Timed, TimedStream};
