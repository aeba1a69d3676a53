//! The body of a request, in one buffer of its length.

ghost use Rattle.std.specs.Prelude.{◌≡◌, ℕ, ◌≤◌, ◌<◌, List, length, take, IfOk, IfSome, IsTrue};
ghost use Rattle.std.specs.Prelude.{OnErr};
ghost use Rattle.std.specs.Bool.{OnTrue, OnFalse};
ghost use Rattle.std.specs.Io.KnownBytes.{Consumes, prepend_known};
ghost use Rattle.esc_request.specs.Body.{IsBody, IsShorter};
ghost use Rattle.esc_request.specs.Pieces.{ReadsWhile};

use crate::streams::{ReadFailed, Source};
use std::alloc::{AllocError, Global};

/// A body that was read, or why there is none.
#[derive(Drop)]
pub enum Body {
    /// All bytes of the body.
    Whole(Vec<u8>),
    /// The input ended before the body did.
    Cut,
    /// Out of memory.
    NoMemory,
}

/// Reads a body of `size` bytes. `front` has the bytes after the head that were read with it: the
/// body begins with them, and those past its length are ignored. `ReadFailed` if a read of the
/// source failed.
pub fn read_body<R: Source>(
    alloc: Global,
    source: &mut R,
    front: &[u8],
    size: usize,
) -> Result<Body, ReadFailed>
    ensures body { IfOk result
        (λ body. IfSome (prepend_known front.now (R.remaining source.old))
        (λ input. IsBody size input body)) }
    ensures awaited { (bytes : List ℕ) × ReadsWhile (IsShorter size) (R.pieces source.old)
        (R.pieces source.new) front.now bytes }
    ensures err { OnErr result (IsTrue (R.failed source.new)) }
{
    let here = front.len().min(size);
    let Ok(mut body) = begin_body(alloc, front, here, size) else {
        return Ok(Body::NoMemory);
    };
    if fill_body(source, &mut body, here)? {
        Ok(Body::Whole(body))
    } else {
        Ok(Body::Cut)
    }
}

// A buffer of `size` bytes that begins with the first `here` bytes of `front`.
fn begin_body(alloc: Global, front: &[u8], here: usize, size: usize) -> Result<Vec<u8>, AllocError>
    requires within { here ≤ length front.now }
    requires fits { here ≤ size }
    ensures size { IfOk result (λ body. length body.items ≡ size) }
    ensures front { IfOk result (λ body. take here body.items ≡ take here front.now) }
{
    let mut body = Vec::with_capacity(alloc, size)?;
    body.extend_from_slice(&front[..here])?;
    body.resize(size, 0)?;
    Ok(body)
}

// Fills a buffer from index `filled` on, and returns whether the input was long enough.
fn fill_body<R: Source>(
    source: &mut R,
    body: &mut Vec<u8>,
    filled: usize,
) -> Result<bool, ReadFailed>
    requires { filled ≤ length body.old.items }
    ensures size { length body.new.items ≡ length body.old.items }
    ensures whole { IfOk result
        (λ whole. OnTrue whole
        (Consumes (prepend_known (take filled body.old.items) (R.remaining source.old))
        (R.remaining source.new) body.new.items)) }
    ensures cut { IfOk result (λ whole.
        OnFalse whole (IfSome (prepend_known (take filled body.old.items) (R.remaining source.old))
        (λ input. length input < length body.new.items))) }
    ensures awaited { (bytes : List ℕ) × ReadsWhile (IsShorter (length body.old.items))
        (R.pieces source.old) (R.pieces source.new) (take filled body.old.items) bytes }
    ensures err { OnErr result (IsTrue (R.failed source.new)) }
{
    fill(source, body, filled)
}

// The same over the elements alone.
fn fill<R: Source>(source: &mut R, buffer: &mut [u8], filled: usize) -> Result<bool, ReadFailed>
    requires { filled ≤ length buffer.old }
    ensures whole { IfOk result
        (λ whole. OnTrue whole
        (Consumes (prepend_known (take filled buffer.old) (R.remaining source.old))
        (R.remaining source.new) buffer.new)) }
    ensures cut { IfOk result (λ whole.
        OnFalse whole (IfSome (prepend_known (take filled buffer.old) (R.remaining source.old))
        (λ input. length input < length buffer.new))) }
    ensures awaited { (bytes : List ℕ) × ReadsWhile (IsShorter (length buffer.old))
        (R.pieces source.old) (R.pieces source.new) (take filled buffer.old) bytes }
    ensures err { OnErr result (IsTrue (R.failed source.new)) }
{
    let mut at = filled;
    while at < buffer.len() {
        let count = source.read_some(&mut buffer[at..])?;
        if count == 0 {
            return Ok(false);
        }
        at += count;
    }
    Ok(true)
}
