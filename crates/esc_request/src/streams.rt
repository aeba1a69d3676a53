//! What requests are read from and responses are written to.
//!
//! A contract over a reader of std can't say that a read failed. So the code here is written over
//! two traits of its own, which report it. Every reader and writer of std implements them, without
//! reporting a failure.

ghost use Rattle.std.specs.Prelude.{ℕ, ◌≤◌, ◌<◌, List, length, Option, None, Bool, true, IfOk};
ghost use Rattle.std.specs.Prelude.{IsTrue, OnOk, OnErr};
ghost use Rattle.std.specs.Io.KnownBytes.{ReadConsumes, WriteAppends, Keeps};
ghost use Rattle.esc_request.specs.Pieces.{Pieces, AddsPiece};

use std::io::{Read, Write};

/// A read failed.
#[derive(Clone, Copy, Debug, PartialEq, Eq)]
pub struct ReadFailed;

/// A write or a flush failed.
#[derive(Clone, Copy, Debug, PartialEq, Eq)]
pub struct WriteFailed;

/// What bytes are read from, with a failure that contracts see.
pub trait Source {
    // the bytes that are still to be read, where they are known
    ghost remaining: { Self → Option (List ℕ) };
    // the pieces in which bytes came so far, one for each read, where they are known
    ghost pieces: { Self → Pieces };
    // whether a read has failed
    ghost failed: { Self → Bool };

    /// Reads some bytes to the front of a buffer, and returns how many: none if the input has
    /// ended, or the buffer has no room.
    fn read_some(&mut self, buffer: &mut [u8]) -> Result<usize, ReadFailed>
        ensures bound { IfOk result (λ n. n ≤ length buffer.new) }
        ensures bytes { ReadConsumes (remaining self.old) (remaining self.new) result buffer.new }
        ensures piece { AddsPiece (pieces self.old) (pieces self.new) result buffer.new }
        ensures err { OnErr result (IsTrue (failed self.new)) };
}

/// What bytes are written to, with a failure that contracts see.
pub trait Sink {
    // the bytes that were written so far, where they are known
    ghost contents: { Self → Option (List ℕ) };
    // whether a write or a flush has failed
    ghost failed: { Self → Bool };
    // whether all that was written was handed on
    ghost flushed: { Self → Bool };

    /// Writes some of these bytes from their front, and returns how many: at least one, if there is
    /// any.
    fn write_some(&mut self, bytes: &[u8]) -> Result<usize, WriteFailed>
        ensures bound { IfOk result (λ n. n ≤ length bytes.now) }
        ensures some { IfOk result (λ n. 0 < length bytes.now → 0 < n) }
        ensures bytes { WriteAppends (contents self.old) (contents self.new) result bytes.now }
        ensures err { OnErr result (IsTrue (failed self.new)) };

    /// Hands on what was written.
    fn flush(&mut self) -> Result<(), WriteFailed>
        ensures bytes { Keeps (contents self.old) (contents self.new) }
        ensures flushed { OnOk result (IsTrue (flushed self.new)) }
        ensures err { OnErr result (IsTrue (failed self.new)) };
}

// A reader of std doesn't report whether a read has failed, or in which pieces its bytes came.
impl<R: Read> Source for R {
    ghost remaining = { λ r. R.remaining r };

    ghost pieces = { λ _. None };

    ghost failed = { λ _. true };

    fn read_some(&mut self, buffer: &mut [u8]) -> Result<usize, ReadFailed> {
        match self.read(buffer) {
            Ok(count) => Ok(count),
            Err(_) => Err(ReadFailed),
        }
    }
}

// A writer of std doesn't report whether a write has failed, or what was handed on. A write that
// takes none of some bytes counts as failed.
impl<W: Write> Sink for W {
    ghost contents = { λ w. W.contents w };

    ghost failed = { λ _. true };

    ghost flushed = { λ _. true };

    fn write_some(&mut self, bytes: &[u8]) -> Result<usize, WriteFailed> {
        match self.write(bytes) {
            Ok(0) if !bytes.is_empty() => Err(WriteFailed),
            Ok(count) => Ok(count),
            Err(_) => Err(WriteFailed),
        }
    }

    fn flush(&mut self) -> Result<(), WriteFailed> {
        match Write::flush(self) {
            Ok(()) => Ok(()),
            Err(_) => Err(WriteFailed),
        }
    }
}
