//! Writing a response, in whatever pieces the writer takes it.

ghost use Rattle.std.specs.Prelude.{IsTrue, OnOk, OnErr};
ghost use Rattle.std.specs.Io.KnownBytes.{Appends};
ghost use Rattle.esc_request.specs.Sent.{AppendsBeginning};

use crate::streams::{Sink, WriteFailed};

/// Writes a text to its end and flushes. At `Err` a beginning of it was written, perhaps all of it.
pub fn send<W: Sink>(sink: &mut W, text: &[u8]) -> Result<(), WriteFailed>
    ensures ok { OnOk result (Appends (W.contents sink.old) (W.contents sink.new) text.now) }
    ensures flushed { OnOk result (IsTrue (W.flushed sink.new)) }
    ensures err { OnErr result
        (AppendsBeginning (W.contents sink.old) (W.contents sink.new) text.now) }
    ensures failed { OnErr result (IsTrue (W.failed sink.new)) }
{
    let mut rest = text;
    while !rest.is_empty() {
        let count = sink.write_some(rest)?;
        rest = &rest[count..];
    }
    sink.flush()
}
