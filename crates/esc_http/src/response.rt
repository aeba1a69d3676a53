//! The responses with a reply, a report or a refusal of the desk. Each function returns `None` if
//! memory was refused.

ghost use Rattle.std.specs.Prelude.{◌≡◌, IfSome};
ghost use Rattle.esc_http.specs.Response.{fault_response, reply_status, reply_response};
ghost use Rattle.esc_http.specs.Response.{report_media, report_response};

use esc_desk::{Reply, StoreFault, Verdict};
use esc_reports::{Report, reply_text};
use esc_request::response;
use std::alloc::Global;

/// The response with a fault of the desk: 503, and `S1`, `S2`, `S4` or `S5`. `S3`, which no open
/// store returns, is `S1`.
pub(crate) fn fault_response(alloc: Global, fault: StoreFault) -> Option<Vec<u8>>
    ensures { IfSome result (λ text. text.items ≡ fault_response fault) }
{
    let words: &[u8] = match fault {
        StoreFault::Failed(_) | StoreFault::NotAStore => b"S1\n",
        StoreFault::NoMemory => b"S2\n",
        StoreFault::NoRoom => b"S4\n",
        StoreFault::NoPlace => b"S5\n",
    };
    response(alloc, "503 Service Unavailable", "text/plain", "", words)
}

/// The response to an arrival that has a reply: the reply as JSON, with 200 for `A1`, 202 for `A5`
/// and 422 for any other verdict.
pub(crate) fn reply_response(alloc: Global, reply: &Reply) -> Option<Vec<u8>>
    ensures { IfSome result (λ text. text.items ≡ reply_response reply.now) }
{
    let text = reply_text(alloc, reply).ok()?;
    response(
        alloc,
        reply_status(reply.verdict),
        "application/json",
        "",
        text.as_bytes(),
    )
}

fn reply_status(verdict: Verdict) -> &'static str
    ensures { result.now ≡ reply_status verdict }
{
    match verdict {
        Verdict::A1 => "200 OK",
        Verdict::A5 => "202 Accepted",
        Verdict::A2 | Verdict::A3(_) | Verdict::A4 => "422 Unprocessable Content",
    }
}

/// The response with the text of a report: 200.
pub(crate) fn report_response(alloc: Global, report: Report, text: &[u8]) -> Option<Vec<u8>>
    ensures { IfSome result (λ whole. whole.items ≡ report_response report text.now) }
{
    response(alloc, "200 OK", report_media(report), "", text)
}

/// The media type of a report.
pub(crate) fn report_media(report: Report) -> &'static str
    ensures { result.now ≡ report_media report }
{
    match report {
        Report::Status | Report::Moment => "text/plain",
        Report::Gaps | Report::Links | Report::Receipts | Report::Parked | Report::Export(_) =>
            "text/csv",
    }
}
