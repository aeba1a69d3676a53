//! Sending a response that is whole in memory.

ghost use Rattle.std.specs.Prelude.{◌≡◌, ℕ, List, IfOk, IfErr, IsTrue, OnOk, OnErr};
ghost use Rattle.std.specs.Io.KnownBytes.{Appends};
ghost use Rattle.esc_request.specs.Sent.{AppendsBeginning};
ghost use Rattle.esc_http.specs.Answering.{text_or_memory, told_of, IsOrMemory, SendsFault};
ghost use Rattle.esc_http.specs.Exports.{IsCut};
ghost use Rattle.esc_http.specs.Response.{fault_response};

use crate::response::fault_response;
use crate::serve_fault::ServeFault;
use esc_desk::StoreFault;
use esc_request::{Sink, WriteFailed, out_of_memory, send};
use std::alloc::Global;

/// Sends the response, or the preallocated out-of-memory response.
pub(crate) fn send_answer<W: Sink>(sink: &mut W, text: &Option<Vec<u8>>) -> Result<(), WriteFailed>
    ensures ok { OnOk result (Appends (W.contents sink.old) (W.contents sink.new)
        (text_or_memory text.now)) }
    ensures flushed { OnOk result (IsTrue (W.flushed sink.new)) }
    ensures err { OnErr result
        (AppendsBeginning (W.contents sink.old) (W.contents sink.new)
        (text_or_memory text.now)) }
    ensures failed { OnErr result (IsTrue (W.failed sink.new)) }
{
    match text {
        Some(text) => send(sink, text),
        None => send(sink, out_of_memory()),
    }
}

/// Sends the response with a fault of the desk, and returns the fault that it gives.
pub(crate) fn send_fault<W: Sink>(
    alloc: Global,
    sink: &mut W,
    fault: StoreFault,
) -> Result<Option<StoreFault>, ServeFault>
    ensures ok { OnOk result ((text : List ℕ) × IsOrMemory (fault_response fault) text
        × Appends (W.contents sink.old) (W.contents sink.new) text) }
    ensures flushed { OnOk result (IsTrue (W.flushed sink.new)) }
    ensures refused { IfOk result (SendsFault (W.contents sink.old) (W.contents sink.new)) }
    ensures err { OnErr result ((text : List ℕ) × IsOrMemory (fault_response fault) text
        × AppendsBeginning (W.contents sink.old) (W.contents sink.new) text) }
    ensures cause { IfErr result (IsCut (λ _. ⊥) (W.failed sink.new)) }
{
    let text = fault_response(alloc, fault);
    send_answer(sink, &text)?;
    Ok(told_of(&text, Some(fault)))
}

/// The fault that is told where a response was to give this one: out of memory, where there is no
/// response.
pub(crate) fn told_of(text: &Option<Vec<u8>>, fault: Option<StoreFault>) -> Option<StoreFault>
    ensures { result ≡ told_of text.now fault }
{
    match text {
        Some(_) => fault,
        None => Some(StoreFault::NoMemory),
    }
}
