//! An export, sent while the store is read.

ghost use Rattle.std.specs.Prelude.{◌≡◌, ◌≤◌, ℕ, List, [], ◌++◌, length, codes, Err, IfOk, IfErr};
ghost use Rattle.std.specs.Prelude.{IsTrue, OnOk, OnErr};
ghost use Rattle.std.specs.Io.KnownBytes.{Appends};
ghost use Rattle.esc_store.specs.declared.fault.StoreFault.{StoreFault};
ghost use Rattle.esc_store.specs.Faults.{IsFailure};
ghost use Rattle.esc_events.specs.Events.{EventValue};
ghost use Rattle.esc_desk.specs.Calls.{IsUnchangedDesk, ForStoreEvents};
ghost use Rattle.esc_reports.specs.declared.catalog.Report.TheVariants.{Export as an_export};
ghost use Rattle.esc_reports.specs.Reports.{IsReport};
ghost use Rattle.esc_request.specs.Response.{response_head};
ghost use Rattle.esc_request.specs.Sent.{AppendsBeginning};
ghost use Rattle.esc_http.specs.Answering.{wants, IsAnswered, SendsFault};
ghost use Rattle.esc_http.specs.Exports.{HandsOn, Stops, IsCut, AppendsPart};
ghost use Rattle.esc_http.specs.Exports.{IsExportAfter, BeginsExportAfter};
ghost use Rattle.esc_http.specs.Response.{report_media, report_response};

use crate::lines::send_lines;
use crate::outbox::Outbox;
use crate::response::report_media;
use crate::sending::send_fault;
use crate::serve_fault::ServeFault;
use esc_apply::tables_are_listed;
use esc_desk::{Cause, Desk, Reads, StoreFault, Walk, tables_are_of_events};
use esc_envelope::Kind;
use esc_reports::Report;
use esc_request::{Sink, response_head, send};
use sqlite::Alter;
use std::alloc::Global;
use std::io;

/// Sends the response to a request for an export. A first pass over the objects counts its bytes,
/// and a second one sends them. Where the desk fails before anything was sent, the response is 503
/// and the fault; where it fails later, the response is cut.
pub(crate) fn serve_export<S: Alter, W: Sink>(
    alloc: Global,
    desk: &mut Desk<S>,
    kind: Kind,
    sink: &mut W,
) -> Result<Option<StoreFault>, ServeFault>
    ensures same { IsUnchangedDesk S.Store desk.old desk.new }
    ensures ok { OnOk result ((text : List ℕ)
        × IsAnswered S.Store desk.old desk.new (wants (an_export kind)) text
        × Appends (W.contents sink.old) (W.contents sink.new) text) }
    ensures flushed { OnOk result (IsTrue (W.flushed sink.new)) }
    ensures refused { IfOk result (SendsFault (W.contents sink.old) (W.contents sink.new)) }
    ensures cause { IfErr result (IsCut IsFailure (W.failed sink.new)) }
    ensures wrote { OnErr result ((text : List ℕ)
        × IsAnswered S.Store desk.old desk.new (wants (an_export kind)) text
        × AppendsBeginning (W.contents sink.old) (W.contents sink.new) text) }
    ensures export_wrote { (fault : StoreFault) → result ≡ Err (ServeFault.Export fault)
        → (body : List ℕ)
        × IsAnswered S.Store desk.old desk.new (wants (an_export kind))
        (report_response (an_export kind) body)
        × AppendsPart (W.contents sink.old) (W.contents sink.new)
        (report_response (an_export kind) body) }
{
    let mut outbox = match begin_export(alloc, desk, kind) {
        Ok(outbox) => outbox,
        Err(fault) => return send_fault(alloc, sink, fault),
    };
    let cut = match send_counted(alloc, desk, kind, &mut outbox, sink) {
        Ok(()) => return Ok(None),
        Err(fault) => fault,
    };
    match cut {
        ServeFault::Export(fault) if !outbox.has_sent => return send_fault(alloc, sink, fault),
        _ => {}
    }
    Err(cut)
}

// The first pass: an outbox with the head of the response, in which the export has room.
fn begin_export<S: Alter>(
    alloc: Global,
    desk: &mut Desk<S>,
    kind: Kind,
) -> Result<Outbox, StoreFault>
    ensures same { IsUnchangedDesk S.Store desk.old desk.new }
    ensures ready { IfOk result (λ outbox. (text : List ℕ) × (length text ≡ outbox.left)
        × (outbox.waiting.items ≡ response_head (codes "200 OK")
        (report_media (an_export kind)) [] (length text))
        × ForStoreEvents S.Store desk.old desk.new (λ e. IsReport e (an_export kind) text)) }
    ensures cause { IfErr result IsFailure }
{
    let size = export_size(alloc, desk, kind)?;
    let media = report_media(Report::Export(kind));
    let head = response_head(alloc, "200 OK", media, "", size)?;
    Ok(Outbox {
        waiting: head.into_bytes(),
        left: size,
        has_sent: false,
    })
}

// How many bytes the export of a kind has.
fn export_size<S: Alter>(alloc: Global, desk: &mut Desk<S>, kind: Kind) -> Result<usize, StoreFault>
    ensures same { IsUnchangedDesk S.Store desk.old desk.new }
    ensures size { IfOk result (λ size. (text : List ℕ) × (length text ≡ size)
        × ForStoreEvents S.Store desk.old desk.new (λ e. IsReport e (an_export kind) text)) }
    ensures cause { IfErr result IsFailure }
{
    tables_are_listed();
    tables_are_of_events();
    let mut outbox = Outbox {
        waiting: Vec::new(alloc),
        left: usize::MAX,
        has_sent: false,
    };
    match send_export(alloc, desk, kind, &mut outbox, &mut io::sink()) {
        Ok(()) => Ok(usize::MAX - outbox.left),
        Err(ServeFault::Export(fault)) => Err(fault),
        Err(ServeFault::Read | ServeFault::Write) => Err(StoreFault::Failed(Cause::Contradiction)),
    }
}

// The second pass: sends what waits, and the export after it, which is as long as what may be
// added. `S1` if it isn't.
fn send_counted<S: Alter, W: Sink>(
    alloc: Global,
    desk: &mut Desk<S>,
    kind: Kind,
    outbox: &mut Outbox,
    sink: &mut W,
) -> Result<(), ServeFault>
    ensures same { IsUnchangedDesk S.Store desk.old desk.new }
    ensures ok { OnOk result ((text : List ℕ) × (length text ≡ outbox.old.left)
        × Appends (W.contents sink.old) (W.contents sink.new) (outbox.old.waiting.items ++ text)
        × ForStoreEvents S.Store desk.old desk.new (IsExportAfter kind text)) }
    ensures flushed { OnOk result (IsTrue (W.flushed sink.new)) }
    ensures wrote { OnErr result ((taken : List ℕ) × (length taken ≤ outbox.old.left)
        × AppendsBeginning (W.contents sink.old) (W.contents sink.new)
        (outbox.old.waiting.items ++ taken)
        × ForStoreEvents S.Store desk.old desk.new (BeginsExportAfter kind taken)) }
    ensures export_wrote { (fault : StoreFault) → result ≡ Err (ServeFault.Export fault)
        → (taken : List ℕ) × Stops (W.contents sink.old) (W.contents sink.new)
        outbox.old outbox.new taken
        × ForStoreEvents S.Store desk.old desk.new (BeginsExportAfter kind taken) }
    ensures cause { IfErr result (IsCut IsFailure (W.failed sink.new)) }
{
    send_export(alloc, desk, kind, outbox, sink)?;
    if outbox.left > 0 {
        return Err(ServeFault::Export(StoreFault::Failed(Cause::Contradiction)));
    }
    send(sink, &outbox.waiting)?;
    Ok(())
}

// One pass over the objects of a kind: its export goes into the outbox, and from there to the sink.
fn send_export<R: Reads, W: Sink>(
    alloc: Global,
    reader: &mut R,
    kind: Kind,
    outbox: &mut Outbox,
    sink: &mut W,
) -> Result<(), ServeFault>
    ensures follows { R.follows reader.old reader.new }
    ensures ok { OnOk result ((text : List ℕ) × HandsOn (W.contents sink.old)
        (W.contents sink.new) outbox.old outbox.new text
        × (R.is_honest reader.new → (e : List EventValue) → R.reflects reader.old e
        → IsExportAfter kind text e)) }
    ensures err { OnErr result ((taken : List ℕ) × Stops (W.contents sink.old)
        (W.contents sink.new) outbox.old outbox.new taken
        × (R.is_honest reader.new → (e : List EventValue) → R.reflects reader.old e
        → BeginsExportAfter kind taken e)) }
    ensures cause { IfErr result (IsCut IsFailure (W.failed sink.new)) }
{
    let place = reader.start_walk(alloc, Some(kind))?;
    let mut walk = Walk::new(reader, place);
    send_lines(alloc, &mut walk, kind, outbox, sink)
}
