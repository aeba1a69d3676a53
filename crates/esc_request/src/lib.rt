//! The parts of an HTTP request, and the bytes of a response. No desk is needed.
//!
//! The pieces of one HTTP/1.0 or 1.1 exchange (RFC 9112, within this project's profile), each over
//! bytes alone:
//!
//! | Piece | What it does |
//! |---|---|
//! | [`Source`], [`Sink`] | readers and writers that report a failed call; those of std do not |
//! | [`read_head`] | reads the head, of at most 8,192 bytes and 32 header lines, in any pieces |
//! | [`body_length`] | how long the body is, by the header lines |
//! | [`read_body`] | reads a body of this length into one buffer |
//! | [`response`] | the text of a response |
//! | [`response_head`] | its head alone, where the body is sent by itself |
//! | [`refusal_response`], [`out_of_memory`] | the same of one kind |
//! | [`send`] | writes a text to its end and flushes |
//!
//! `esc_http` decides where a path leads, in which order these are called, which refusal comes
//! first, and what a desk responds.
//!
//! # Example
//!
//! ```text
//! let found = read_head(&mut source, &mut buffer, &mut lines)?;   // where its parts are in the buffer
//! body_length(&buffer, &lines[..found.spans.headers])   // BodyLength::Bytes(16), of Content-Length: 16
//! response(alloc, "200 OK", "text/csv", "", text)   // HTTP/1.1 200 OK, the header lines, the text
//! ```
//!
//! # What is promised
//!
//! A head is what the grammar of `httparse` has as one (`specs/Head.antt`): where [`read_head`]
//! finds none, no beginning of the input is one. A body's length is a function of the header lines
//! (`specs/BodyLength.antt`), and a body is the bytes after the head, or it is cut
//! (`specs/Body.antt`). A response is one text (`specs/Response.antt`). Where a write failed a
//! beginning of the text was written (`specs/Sent.antt`). A failure is returned only where a call of
//! the source or the sink has failed; out of memory only where a call allocates. A head is read on
//! only while it may become whole, a body only while it is shorter than its length
//! (`specs/Pieces.antt`).
//!
//! # Cost
//!
//! Nothing is read past the head and the body, except what came with them in one piece. The head is
//! in a buffer of the caller's; a body is read into one buffer of its length.
#![tactic(auto)]

mod body;
mod head;
mod length;
mod refusal;
mod responses;
mod sending;
mod streams;

pub use body::{Body, read_body};
pub use head::{FoundHead, MOST_HEAD_BYTES, MOST_LINES, read_head};
pub use length::{BodyLength, MOST_BODY_BYTES, body_length};
pub use refusal::Refusal;
pub use responses::{out_of_memory, refusal_response, response, response_head};
pub use sending::send;
pub use streams::{ReadFailed, Sink, Source, WriteFailed};
