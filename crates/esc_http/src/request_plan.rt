//! What the head of a request asks for: the tests that need no body, in their order.

ghost use Rattle.std.specs.Prelude.{◌≡◌, length, map, All};
ghost use Rattle.httparse.specs.Grammar.{RequestHead};
ghost use Rattle.httparse.specs.Spans.{IsHeaderWithin, IsRequestAt, IsRequestWithin, header_bytes};
ghost use Rattle.esc_request.specs.Head.{ShowsHead};
ghost use Rattle.esc_http.specs.RequestPlans.{path_of, plan_of, plan_to_put, plan_to_get};
ghost use Rattle.esc_http.specs.RequestPlans.{plan_of_head};
ghost use Rattle.esc_http.specs.Router.{rows};

use crate::route::{Route, Target, route_of};
use esc_desk::{Number, number};
use esc_reports::Report;
use esc_request::{BodyLength, FoundHead, Refusal, body_length};
use httparse::spans::HeaderSpan;
use matchit::Router;

/// What the head of a request asks for.
#[derive(Debug, Drop)]
pub(crate) enum RequestPlan<'b> {
    Refuse(Refusal),
    /// An arrival with this number and a body of this length.
    Put(Number<'b>, u32),
    Get(Report),
}

/// What the head at the front of these bytes asks for.
pub(crate) fn plan_of_head<'b>(
    router: &Router<Target>,
    bytes: &'b [u8],
    lines: &[HeaderSpan],
    found: &FoundHead,
) -> RequestPlan<'b>
    requires router_is { router.now ≡ rows }
    requires within { IsRequestWithin bytes.now lines.now found.now.spans }
    requires head { ShowsHead bytes.now lines.now found.now.spans }
    ensures { (h : RequestHead) → IsRequestAt bytes.now lines.now found.now.spans h
        → result ≡ plan_of_head h }
{
    let spans = found.spans;
    let lines = &lines[..spans.headers];
    match std::str::from_utf8(spans.path.of(bytes)) {
        Ok(target) => plan_of(router, spans.method.of(bytes), target, bytes, lines),
        Err(_) => RequestPlan::Refuse(Refusal::BadRequest),
    }
}

// What a method, a target and header lines ask for.
fn plan_of<'b>(
    router: &Router<Target>,
    method: &[u8],
    target: &'b str,
    bytes: &[u8],
    lines: &[HeaderSpan],
) -> RequestPlan<'b>
    requires router_is { router.now ≡ rows }
    requires lines_within { All (IsHeaderWithin (length bytes.now)) lines.now }
    ensures { result ≡ plan_of method.now target.now (map (header_bytes bytes.now) lines.now) }
{
    match route_of(router, path_of(target)) {
        None => RequestPlan::Refuse(Refusal::NotFound),
        Some(Route::Arrival(text)) => plan_to_put(method, text, bytes, lines),
        Some(Route::Report(report)) => plan_to_get(method, report),
    }
}

// The target up to its first question mark.
fn path_of(target: &str) -> &str
    ensures { result.now ≡ path_of target.now }
{
    match target.split_once('?') {
        Some((path, _)) => path,
        None => target,
    }
}

fn plan_to_put<'b>(
    method: &[u8],
    text: &'b str,
    bytes: &[u8],
    lines: &[HeaderSpan],
) -> RequestPlan<'b>
    requires { All (IsHeaderWithin (length bytes.now)) lines.now }
    ensures { result ≡ plan_to_put method.now text.now (map (header_bytes bytes.now) lines.now) }
{
    if method != b"PUT".as_slice() {
        return RequestPlan::Refuse(Refusal::PutOnly);
    }
    let Ok(number) = number(text) else {
        return RequestPlan::Refuse(Refusal::BadNumber);
    };
    match body_length(bytes, lines) {
        BodyLength::Bytes(size) => RequestPlan::Put(number, size),
        BodyLength::Missing => RequestPlan::Refuse(Refusal::LengthRequired),
        BodyLength::Malformed => RequestPlan::Refuse(Refusal::BadRequest),
        BodyLength::TooLong => RequestPlan::Refuse(Refusal::TooLarge),
    }
}

fn plan_to_get<'b>(method: &[u8], report: Report) -> RequestPlan<'b>
    ensures { result ≡ plan_to_get method.now report }
{
    if method == b"GET".as_slice() {
        RequestPlan::Get(report)
    } else {
        RequestPlan::Refuse(Refusal::GetOnly)
    }
}
