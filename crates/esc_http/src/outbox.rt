//! The bytes of an export on their way to a client.

ghost use Rattle.std.specs.Prelude.{◌≡◌, ℕ, ◌+◌, List, [], ◌++◌, length, true, IfErr, OnOk, OnErr};
ghost use Rattle.std.specs.Prelude.{IsTrue};
ghost use Rattle.esc_store.specs.Faults.{IsFailure};
ghost use Rattle.esc_http.specs.Exports.{Passes, HandsOn, Stops, IsCut};

use crate::serve_fault::ServeFault;
use esc_desk::{Cause, StoreFault};
use esc_request::{Sink, WriteFailed, send};

/// How many bytes wait at most before some are sent.
const PIECE: usize = 65_536;

/// The bytes that wait to be sent, and how many more may be added.
#[derive(Drop)]
pub(crate) struct Outbox {
    /// The bytes that wait.
    pub waiting: Vec<u8>,
    /// How many bytes may still be added.
    pub left: usize,
    /// Whether something may have been sent.
    pub has_sent: bool,
}

/// Adds bytes. Where many wait then, all but the last one are sent, so that a text isn't whole for
/// a client before [`send`] sends its end. `S1` if more are added than were to come.
pub(crate) fn add<W: Sink>(
    outbox: &mut Outbox,
    sink: &mut W,
    bytes: &[u8],
) -> Result<(), ServeFault>
    ensures ok { OnOk result (HandsOn (W.contents sink.old) (W.contents sink.new)
        outbox.old outbox.new bytes.now) }
    ensures err { OnErr result ((taken : List ℕ) × (rest : List ℕ)
        × (bytes.now ≡ taken ++ rest)
        × Stops (W.contents sink.old) (W.contents sink.new) outbox.old outbox.new taken) }
    ensures cause { IfErr result (IsCut IsFailure (W.failed sink.new)) }
{
    put_by(outbox, bytes)?;
    if outbox.waiting.len() > PIECE {
        send_most(outbox, sink)?;
    }
    Ok(())
}

// Adds bytes, and sends none.
fn put_by(outbox: &mut Outbox, bytes: &[u8]) -> Result<(), StoreFault>
    ensures waiting { OnOk result (outbox.new.waiting.items
        ≡ outbox.old.waiting.items ++ bytes.now) }
    ensures left { OnOk result (outbox.old.left ≡ outbox.new.left + length bytes.now) }
    ensures sent { outbox.new.has_sent ≡ outbox.old.has_sent }
    ensures cause { IfErr result IsFailure }
{
    if outbox.left < bytes.len() {
        return Err(StoreFault::Failed(Cause::Contradiction));
    }
    outbox.waiting.extend_from_slice(bytes)?;
    outbox.left -= bytes.len();
    Ok(())
}

// Sends all bytes that wait but the last one.
fn send_most<W: Sink>(outbox: &mut Outbox, sink: &mut W) -> Result<(), WriteFailed>
    ensures ok { OnOk result (Passes (W.contents sink.old) (W.contents sink.new)
        outbox.old.waiting.items [] outbox.new.waiting.items) }
    ensures err { OnErr result ((waits : List ℕ) × Passes (W.contents sink.old)
        (W.contents sink.new) outbox.old.waiting.items [] waits) }
    ensures left { outbox.new.left ≡ outbox.old.left }
    ensures sent { outbox.new.has_sent ≡ true }
    ensures failed { OnErr result (IsTrue (W.failed sink.new)) }
{
    outbox.has_sent = true;
    let Some((last, most)) = outbox.waiting.split_last() else {
        return Ok(());
    };
    let last = *last;
    send(sink, most)?;
    outbox.waiting.truncate(1);
    outbox.waiting[0] = last;
    Ok(())
}
