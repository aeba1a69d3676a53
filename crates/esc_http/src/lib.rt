//! One HTTP request over a reader and a writer.
//!
//! [`serve_one`] reads one HTTP/1.0 or 1.1 request (RFC 9112), makes the response to it from a desk
//! (`esc_desk`), and writes that. The bytes may come and go in any pieces. The tests come in this
//! order, and the first that fails decides the response:
//!
//! | Test | Response |
//! |---|---|
//! | the head is one of `httparse`'s grammar, of at most 8,192 bytes and 32 header lines | 400 |
//! | the path has a route (see below) | 404 |
//! | the method is the route's: PUT for an arrival, GET for a report | 405, with `Allow` |
//! | an arrival's number is 1 to 64 of `A-Z a-z 0-9 . _ -` | 400 `N1` |
//! | there is no Transfer-Encoding, and a Content-Length | 411 |
//! | there is one Content-Length, of digits alone | 400 |
//! | it is at most 16,777,216 | 413 |
//! | that many bytes follow the head; else nothing arrived | 400 |
//! | the desk takes the arrival, or makes the report (of an export a part) | 503 with the refusal |
//!
//! The routes are `/arrivals/{number}`, `/status`, `/gaps`, `/links`, `/receipts`, `/parked`,
//! `/moment` and `/export/{kind}`. The refusal is `S1` or `S2`, and of an arrival also `S4` or
//! `S5`.
//!
//! The response to an arrival that was taken is its reply as JSON, with 200 if the deposit is held,
//! 202 if its body is parked, and 422 for another verdict; that to a report is 200 and its text.
//! Out of memory, it is 503 with `S2`, whatever it would have been.
//!
//! What is HTTP alone is in `esc_request`: the head, the body and the bytes of a response. The
//! reports, and the JSON of a reply, are in `esc_reports`; [`report`] is that crate's.
//!
//! # Example
//!
//! ```text
//! let mut request: &[u8] = b"GET /export/host HTTP/1.1\r\n\r\n";
//! let mut response = Vec::new(alloc);
//! serve_one(alloc, &mut desk, &mut request, &mut response)?;
//! // response has the status line, the header lines, and the desk's hosts as CSV
//! ```
//!
//! # What is promised
//!
//! `specs/Answering.antt` says what request the bytes of an input make (`Asks`), and what the
//! response to a request is (`IsAnswered`): its text, from the first byte to the last, what the
//! desk's store stands for then, and what a crash leaves of it. The store stands for the list of
//! events that it stood for before, followed by the arrival if one was taken. A crash leaves after
//! an arrival what it leaves after `Desk::arrive`, by the reply or the refusal that the text gives;
//! after another request, what it might leave before. Where a write or a flush failed
//! (`ServeFault::Write`), a beginning of that text was written, perhaps all of it; where a read
//! failed (`ServeFault::Read`) nothing was written and the desk is as it was. Where the desk failed
//! while an export was sent (`ServeFault::Export`), a beginning of the text was written, and its
//! last byte was not (`specs/Exports.antt`, `AppendsPart`), so a client that counts them sees that.
//! A clause on what the store stands for has the premise that the store was honest, as in
//! `esc_desk`; that the text is the response to a reply, a refusal or a report has none. Nor has it
//! that an export has as many bytes as its head says.
//!
//! At `Ok(Some(fault))` the text is 503 with that fault of the desk, and at `Ok(None)` it is no 503
//! (`SendsFault`).
//!
//! The contract of [`serve_one`] speaks of readers and writers of std, whose contracts give their
//! bytes, but not whether a call failed. [`serve_one`] is [`serve`] over these. [`serve`] takes a
//! [`Source`] and a [`Sink`], which report failures too: it returns `Read` and `Write` only if a
//! call has failed, and `Ok` only once the response was flushed. Of a source whose pieces are known
//! it reads no more than the piece that ends the head, or the body (`ReadsNoMore`): a client is not
//! waited for once its request has come.
//!
//! # Cost
//!
//! A body is read into one buffer of its length. Nothing is read that the response doesn't need,
//! except what comes with the head in one piece. A response begins only when it is whole in memory,
//! so a fault of the store is never found in the middle of one; but for an export. Of that the
//! lines of one object are in memory, and at most 65,536 bytes besides. Its objects are read twice:
//! the first pass counts its bytes, for the head, and the second one sends them. Where it has
//! another number of them, as over a disk that lies, the response is cut, or 503.
#![tactic(auto)]

mod answer;
mod export;
mod lines;
mod outbox;
mod request_plan;
mod response;
mod route;
mod sending;
mod serve_fault;
mod serving;

pub use esc_reports::{Report, report};
pub use esc_request::{ReadFailed, Sink, Source, WriteFailed};
pub use serve_fault::ServeFault;
pub use serving::{serve, serve_one};
