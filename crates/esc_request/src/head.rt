//! The head of a request, from a reader that returns it in any pieces.

ghost use Rattle.std.specs.Prelude.{◌≡◌, ℕ, ◌≤◌, List, [], length, take, IfOk, IfSome, IfNone};
ghost use Rattle.std.specs.Prelude.{IsTrue, OnErr};
ghost use Rattle.std.specs.Io.KnownBytes.{Consumes};
ghost use Rattle.httparse.specs.Spans.{IsRequestWithin};
ghost use Rattle.esc_request.specs.Head.{HasNoHead, IsUnfinished, ShowsHead};
ghost use Rattle.esc_request.specs.Pieces.{ReadsWhile};

use crate::streams::{ReadFailed, Source};
use httparse::Status;
use httparse::spans::{HeaderSpan, RequestSpans, parse_request};

/// The most bytes of a head.
pub const MOST_HEAD_BYTES: usize = 8192;

/// The most header lines of a head.
pub const MOST_LINES: usize = 32;

/// A head at the front of a buffer.
#[derive(Clone, Copy, Debug)]
pub struct FoundHead {
    /// Where in the buffer the parts of the head are.
    pub spans: RequestSpans,
    /// How many bytes of the buffer were read: the head, and perhaps some that follow it.
    pub filled: usize,
}

/// Reads until the head of a request is whole (RFC 9112, as `httparse` reads it), or what was read
/// can't begin one. `None` if no beginning of the input is a head of at most 8,192 bytes and 32
/// header lines; `ReadFailed` if a read of the source failed.
pub fn read_head<R: Source>(
    source: &mut R,
    buffer: &mut [u8],
    lines: &mut [HeaderSpan],
) -> Result<Option<FoundHead>, ReadFailed>
    requires buffer_room { length buffer.old ≡ MOST_HEAD_BYTES }
    requires line_room { length lines.old ≡ MOST_LINES }
    ensures filled { IfOk result (λ found. IfSome found (λ f. f.filled ≤ length buffer.new)) }
    ensures within { IfOk result
        (λ found. IfSome found
        (λ f. IsRequestWithin (take f.filled buffer.new) lines.new f.spans)) }
    ensures head { IfOk result
        (λ found. IfSome found (λ f. ShowsHead (take f.filled buffer.new) lines.new f.spans)) }
    ensures bytes { IfOk result
        (λ found. IfSome found
        (λ f. Consumes (R.remaining source.old) (R.remaining source.new)
        (take f.filled buffer.new))) }
    ensures awaited { (bytes : List ℕ) × ReadsWhile IsUnfinished (R.pieces source.old)
        (R.pieces source.new) [] bytes × IfOk result
        (λ found. IfSome found (λ f. bytes ≡ take f.filled buffer.new)) }
    ensures none { IfOk result
        (λ found. IfNone found (IfSome (R.remaining source.old) HasNoHead)) }
    ensures err { OnErr result (IsTrue (R.failed source.new)) }
{
    let mut filled = 0usize;
    loop {
        match parse_request(&buffer[..filled], lines) {
            Ok(Status::Complete(spans)) => return Ok(Some(FoundHead { spans, filled })),
            Ok(Status::Partial) => {}
            Err(_) => return Ok(None),
        }
        if filled == buffer.len() {
            return Ok(None);
        }
        let count = source.read_some(&mut buffer[filled..])?;
        if count == 0 {
            return Ok(None);
        }
        filled += count;
    }
}
