//! The response to a request, or the export that it asks for.

ghost use Rattle.std.specs.Prelude.{◌≡◌, ℕ, List, drop, IfOk, IfSome, IsTrue, OnErr};
ghost use Rattle.std.specs.Io.KnownBytes.{prepend_known};
ghost use Rattle.httparse.specs.Grammar.{RequestHead};
ghost use Rattle.httparse.specs.Spans.{IsRequestAt, IsRequestWithin};
ghost use Rattle.esc_events.specs.ArrivalValue.{an_arrival};
ghost use Rattle.esc_desk.specs.Calls.{WasHonest};
ghost use Rattle.esc_http.specs.declared.request_plan.RequestPlan.TheVariants.{Put};
ghost use Rattle.esc_request.specs.Body.{IsShorter};
ghost use Rattle.esc_request.specs.Head.{ShowsHead};
ghost use Rattle.esc_request.specs.Pieces.{ReadsWhile};
ghost use Rattle.esc_http.specs.RequestPlans.{plan_of_head};
ghost use Rattle.esc_http.specs.Answering.{Request, arrives, wants, request_with_body, Asks};
ghost use Rattle.esc_http.specs.Answering.{IsDoneFor, IsUndecided, ReadsNoMore, told_of};
ghost use Rattle.esc_http.specs.declared.answer.Answer.TheVariants.{Text};

use crate::request_plan::{RequestPlan, plan_of_head};
use crate::response::{fault_response, reply_response, report_response};
use crate::route::router;
use crate::sending::told_of;
use esc_desk::{Desk, Number, StoreFault};
use esc_envelope::Kind;
use esc_reports::{Report, report};
use esc_request::{
    Body, FoundHead, MOST_HEAD_BYTES, MOST_LINES, ReadFailed, Refusal, Source, read_body,
    read_head, refusal_response,
};
use httparse::spans::{EMPTY_HEADER_SPAN, HeaderSpan};
use sqlite::Alter;
use std::alloc::Global;

/// What is done for a request.
#[derive(Drop)]
pub(crate) enum Answer {
    /// This response is sent, or the one for out of memory; it gives this fault of the desk.
    Text(Option<Vec<u8>>, Option<StoreFault>),
    /// The export of this kind is sent while it is read.
    Export(Kind),
}

/// A head that was read: it is at the front of these bytes, which were read with it.
#[derive(Clone, Copy)]
struct ReadHead<'a> {
    bytes: &'a [u8],
    lines: &'a [HeaderSpan],
    found: &'a FoundHead,
}

/// What is known of a body before it is read: its size, and the bytes at its front that were read
/// with the head.
#[derive(Clone, Copy)]
struct BodyStart<'a> {
    front: &'a [u8],
    size: u32,
}

/// Reads a request, and returns its response. Nothing is read that the response doesn't need.
pub(crate) fn answer_input<S: Alter, R: Source>(
    alloc: Global,
    desk: &mut Desk<S>,
    source: &mut R,
) -> Result<Answer, ReadFailed>
    ensures answers { IfOk result (λ answer. (request : Request)
        × IfSome (R.remaining source.old) (λ input. Asks input request)
        × IsDoneFor S.Store desk.old desk.new request answer) }
    ensures honest { WasHonest S.Store desk.old desk.new }
    ensures unread { ReadsNoMore (R.pieces source.old) (R.pieces source.new) }
    ensures same { OnErr result (desk.new ≡ desk.old) }
    ensures err { OnErr result (IsTrue (R.failed source.new)) }
{
    let mut buffer = [0u8; MOST_HEAD_BYTES];
    let mut lines = [EMPTY_HEADER_SPAN; MOST_LINES];
    match read_head(source, &mut buffer, &mut lines)? {
        Some(found) => {
            let head = ReadHead {
                bytes: &buffer[..found.filled],
                lines: &lines,
                found: &found,
            };
            answer_head(alloc, desk, source, head)
        }
        None => Ok(answer_with(refusal_response(alloc, Refusal::BadRequest), None)),
    }
}

// The response to the request with this head.
fn answer_head<S: Alter, R: Source>(
    alloc: Global,
    desk: &mut Desk<S>,
    source: &mut R,
    head: ReadHead<'_>,
) -> Result<Answer, ReadFailed>
    requires within { IsRequestWithin head.bytes.now head.lines.now head.found.now.spans }
    requires head { ShowsHead head.bytes.now head.lines.now head.found.now.spans }
    ensures answers { IfOk result (λ answer. (h : RequestHead) → IsRequestAt
        head.entry.bytes.now head.entry.lines.now head.entry.found.now.spans h
        → (request : Request) × IfSome (prepend_known
        (drop head.entry.found.now.spans.len head.entry.bytes.now) (R.remaining source.old))
        (λ rest. request ≡ request_with_body (plan_of_head h) rest)
        × IsDoneFor S.Store desk.old desk.new request answer) }
    ensures honest { WasHonest S.Store desk.old desk.new }
    ensures unread { (last : List ℕ) × ReadsWhile IsUndecided (R.pieces source.old)
        (R.pieces source.new) head.entry.bytes.now last }
    ensures same { OnErr result (desk.new ≡ desk.old) }
    ensures err { OnErr result (IsTrue (R.failed source.new)) }
{
    let Ok(router) = router(alloc) else {
        return Ok(answer_with(None, None));
    };
    let ReadHead {
        bytes,
        lines,
        found,
    } = head;
    match plan_of_head(&router, bytes, lines, found) {
        RequestPlan::Refuse(refusal) => Ok(answer_with(refusal_response(alloc, refusal), None)),
        RequestPlan::Get(report) => Ok(answer_report(alloc, desk, report)),
        RequestPlan::Put(number, size) => {
            let body = BodyStart {
                front: &bytes[found.spans.len..],
                size,
            };
            answer_put(alloc, desk, source, &number, body)
        }
    }
}

// The response to an arrival.
fn answer_put<S: Alter, R: Source>(
    alloc: Global,
    desk: &mut Desk<S>,
    source: &mut R,
    number: &Number<'_>,
    body: BodyStart<'_>,
) -> Result<Answer, ReadFailed>
    ensures answers { IfOk result (λ answer. (request : Request)
        × IfSome (prepend_known body.entry.front.now (R.remaining source.old))
        (λ rest. request ≡ request_with_body (Put number.now body.entry.size) rest)
        × IsDoneFor S.Store desk.old desk.new request answer) }
    ensures honest { WasHonest S.Store desk.old desk.new }
    ensures unread { (last : List ℕ) × ReadsWhile (IsShorter body.entry.size)
        (R.pieces source.old) (R.pieces source.new) body.entry.front.now last }
    ensures same { OnErr result (desk.new ≡ desk.old) }
    ensures err { OnErr result (IsTrue (R.failed source.new)) }
{
    match read_body(alloc, source, body.front, body.size as usize)? {
        Body::Whole(body) => Ok(answer_arrival(alloc, desk, number, &body)),
        Body::Cut => Ok(answer_with(refusal_response(alloc, Refusal::BadRequest), None)),
        Body::NoMemory => Ok(answer_with(None, None)),
    }
}

fn answer_arrival<S: Alter>(
    alloc: Global,
    desk: &mut Desk<S>,
    number: &Number<'_>,
    body: &[u8],
) -> Answer
    ensures answers { IsDoneFor S.Store desk.old desk.new
        (arrives (an_arrival number.now body.now)) result }
    ensures honest { WasHonest S.Store desk.old desk.new }
{
    match desk.arrive(alloc, number, body) {
        Ok((reply, _)) => answer_with(reply_response(alloc, &reply), None),
        Err(cause) => answer_with(fault_response(alloc, cause), Some(cause)),
    }
}

// A report is made whole in memory, but for an export.
#[tactic(auto, using(esc_store::specs::StandingLaws::was_honest))]
fn answer_report<S: Alter>(alloc: Global, desk: &mut Desk<S>, what: Report) -> Answer
    ensures answers { IsDoneFor S.Store desk.old desk.new (wants what) result }
    ensures honest { WasHonest S.Store desk.old desk.new }
{
    if let Report::Export(kind) = what {
        return Answer::Export(kind);
    }
    match report(alloc, desk, what) {
        Ok(text) => answer_with(report_response(alloc, what, &text), None),
        Err(fault) => answer_with(fault_response(alloc, fault), Some(fault)),
    }
}

// The answer with a response that gives this fault of the desk, if it gives one.
fn answer_with(text: Option<Vec<u8>>, fault: Option<StoreFault>) -> Answer
    ensures { result ≡ Text text (told_of text fault) }
{
    let told = told_of(&text, fault);
    Answer::Text(text, told)
}
