//! One request.

ghost use Rattle.std.specs.Prelude.{◌≡◌, ℕ, List, Ok, Err, IfOk, IfSome, IsTrue, OnOk, OnErr};
ghost use Rattle.std.specs.Io.KnownBytes.{Appends, Keeps};
ghost use Rattle.esc_envelope.specs.declared.kind.Kind.{Kind};
ghost use Rattle.esc_store.specs.declared.fault.StoreFault.{StoreFault};
ghost use Rattle.esc_store.specs.Faults.{IsFailure};
ghost use Rattle.esc_desk.specs.Calls.{WasHonest};
ghost use Rattle.esc_reports.specs.declared.catalog.Report.TheVariants.{Export as an_export};
ghost use Rattle.esc_http.specs.Answering.{Request, wants, Asks, IsAnswered, ReadsNoMore};
ghost use Rattle.esc_http.specs.Answering.{SendsFault};
ghost use Rattle.esc_http.specs.Exports.{AppendsPart};
ghost use Rattle.esc_http.specs.Response.{report_response};
ghost use Rattle.esc_request.specs.Sent.{AppendsBeginning};

use crate::answer::{Answer, answer_input};
use crate::export::serve_export;
use crate::sending::send_answer;
use crate::serve_fault::ServeFault;
use esc_desk::{Desk, StoreFault};
use esc_request::{Sink, Source};
use sqlite::Alter;
use std::alloc::Global;
use std::io::{Read, Write};

/// Reads one request, and writes the response to it.
///
/// Whatever is read, the response is that to some request; if the reader reports its bytes, it is
/// the request that they make. At `Ok` the response was handed on (flushed); `Ok` has the fault of
/// the desk that the response gives, a 503, and `None` where it is another one. A crash leaves what
/// it might leave before, with an arrival that was taken; after `S1` or `S2` it may leave the
/// arrival taken in.
pub fn serve<S: Alter, R: Source, W: Sink>(
    alloc: Global,
    desk: &mut Desk<S>,
    source: &mut R,
    sink: &mut W,
) -> Result<Option<StoreFault>, ServeFault>
    ensures ok { OnOk result ((request : Request) × (text : List ℕ)
        × IfSome (R.remaining source.old) (λ input. Asks input request)
        × IsAnswered S.Store desk.old desk.new request text
        × Appends (W.contents sink.old) (W.contents sink.new) text) }
    ensures flushed { OnOk result (IsTrue (W.flushed sink.new)) }
    ensures refused { IfOk result (SendsFault (W.contents sink.old) (W.contents sink.new)) }
    ensures honest { WasHonest S.Store desk.old desk.new }
    ensures unread { ReadsNoMore (R.pieces source.old) (R.pieces source.new) }

    // A read failed: nothing was written, and nothing arrived.
    ensures read_failed { result ≡ Err ServeFault.Read → IsTrue (R.failed source.new) }
    ensures read_wrote { result ≡ Err ServeFault.Read
        → Keeps (W.contents sink.old) (W.contents sink.new) }
    ensures read_arrived { result ≡ Err ServeFault.Read → desk.new ≡ desk.old }

    // A write or a flush failed: a beginning of the response was written.
    ensures write_failed { result ≡ Err ServeFault.Write → IsTrue (W.failed sink.new) }
    ensures write_wrote { result ≡ Err ServeFault.Write
        → (request : Request) × (text : List ℕ)
        × IfSome (R.remaining source.old) (λ input. Asks input request)
        × IsAnswered S.Store desk.old desk.new request text
        × AppendsBeginning (W.contents sink.old) (W.contents sink.new) text }

    // The desk failed while an export was sent: a beginning of the response was written, and its
    // end was not.
    ensures export_cause { (fault : StoreFault) → result ≡ Err (ServeFault.Export fault)
        → IsFailure fault }
    ensures export_wrote { (fault : StoreFault) → result ≡ Err (ServeFault.Export fault)
        → (kind : Kind) × (body : List ℕ)
        × IfSome (R.remaining source.old) (λ input. Asks input (wants (an_export kind)))
        × IsAnswered S.Store desk.old desk.new (wants (an_export kind))
        (report_response (an_export kind) body)
        × AppendsPart (W.contents sink.old) (W.contents sink.new)
        (report_response (an_export kind) body) }
{
    match answer_input(alloc, desk, source)? {
        Answer::Text(text, fault) => {
            send_answer(sink, &text)?;
            Ok(fault)
        }
        Answer::Export(kind) => serve_export(alloc, desk, kind, sink),
    }
}

/// Reads one request, and writes the response to it, over a reader and a writer of std.
pub fn serve_one<S: Alter, R: Read, W: Write>(
    alloc: Global,
    desk: &mut Desk<S>,
    reader: &mut R,
    writer: &mut W,
) -> Result<Option<StoreFault>, ServeFault>
    ensures ok { OnOk result ((request : Request) × (text : List ℕ)
        × IfSome (R.remaining reader.old) (λ input. Asks input request)
        × IsAnswered S.Store desk.old desk.new request text
        × Appends (W.contents writer.old) (W.contents writer.new) text) }
    ensures refused { IfOk result (SendsFault (W.contents writer.old) (W.contents writer.new)) }
    ensures honest { WasHonest S.Store desk.old desk.new }

    // A read failed: nothing was written, and nothing arrived.
    ensures read_wrote { result ≡ Err ServeFault.Read
        → Keeps (W.contents writer.old) (W.contents writer.new) }
    ensures read_arrived { result ≡ Err ServeFault.Read → desk.new ≡ desk.old }

    // A write or a flush failed: a beginning of the response was written.
    ensures write_wrote { result ≡ Err ServeFault.Write
        → (request : Request) × (text : List ℕ)
        × IfSome (R.remaining reader.old) (λ input. Asks input request)
        × IsAnswered S.Store desk.old desk.new request text
        × AppendsBeginning (W.contents writer.old) (W.contents writer.new) text }

    // The desk failed while an export was sent: a beginning of the response was written, and its
    // end was not.
    ensures export_cause { (fault : StoreFault) → result ≡ Err (ServeFault.Export fault)
        → IsFailure fault }
    ensures export_wrote { (fault : StoreFault) → result ≡ Err (ServeFault.Export fault)
        → (kind : Kind) × (body : List ℕ)
        × IfSome (R.remaining reader.old) (λ input. Asks input (wants (an_export kind)))
        × IsAnswered S.Store desk.old desk.new (wants (an_export kind))
        (report_response (an_export kind) body)
        × AppendsPart (W.contents writer.old) (W.contents writer.new)
        (report_response (an_export kind) body) }
{
    serve(alloc, desk, reader, writer)
}
