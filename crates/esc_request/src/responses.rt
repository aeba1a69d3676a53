//! The texts of responses. Each function returns `None` out of memory.

ghost use Rattle.std.specs.Prelude.{◌≡◌, IfOk, IfSome, string_bytes};
ghost use Rattle.esc_request.specs.Response.{response_head, response, refusal_response};
ghost use Rattle.esc_request.specs.Response.{out_of_memory};

use crate::refusal::Refusal;
use std::alloc::{AllocError, Global};

/// The response for out of memory: 503 with the words `S2`. Doesn't allocate.
pub fn out_of_memory() -> &'static [u8]
    ensures text { result.now ≡ out_of_memory }
{
    b"HTTP/1.1 503 Service Unavailable\r\nContent-Type: text/plain\r\nContent-Length: 3\r\nConnection: close\r\n\r\nS2\n"
}

/// The response to a request that is refused. `None` out of memory.
pub fn refusal_response(alloc: Global, refusal: Refusal) -> Option<Vec<u8>>
    ensures text { IfSome result (λ text. text.items ≡ refusal_response refusal) }
{
    let (status, allow, words): (&str, &str, &[u8]) = match refusal {
        Refusal::BadRequest => ("400 Bad Request", "", b"bad request\n"),
        Refusal::NotFound => ("404 Not Found", "", b"not found\n"),
        Refusal::PutOnly => (
            "405 Method Not Allowed",
            "Allow: PUT\r\n",
            b"method not allowed\n",
        ),
        Refusal::GetOnly => (
            "405 Method Not Allowed",
            "Allow: GET\r\n",
            b"method not allowed\n",
        ),
        Refusal::BadNumber => ("400 Bad Request", "", b"N1\n"),
        Refusal::LengthRequired => ("411 Length Required", "", b"length required\n"),
        Refusal::TooLarge => ("413 Content Too Large", "", b"too large\n"),
    };
    response(alloc, status, "text/plain", allow, words)
}

/// The response with this status (number and words), this media type and this body (RFC 9112,
/// section 4). `allow` is one more header line, with its line end, or empty. `None` out of memory.
pub fn response(
    alloc: Global,
    status: &str,
    media: &str,
    allow: &str,
    body: &[u8],
) -> Option<Vec<u8>>
    ensures text { IfSome result (λ text. text.items
        ≡ response status.now media.now allow.now body.now) }
{
    let head = response_head(alloc, status, media, allow, body.len()).ok()?;
    let mut text = head.into_bytes();
    text.extend_from_slice(body).ok()?;
    Some(text)
}

/// The head of such a response, whose body has this many bytes.
pub fn response_head(
    alloc: Global,
    status: &str,
    media: &str,
    allow: &str,
    size: usize,
) -> Result<String, AllocError>
    ensures { IfOk result (λ head. string_bytes head
        ≡ response_head status.now media.now allow.now size) }
{
    format!(in alloc;
        "HTTP/1.1 {status}\r\nContent-Type: {media}\r\nContent-Length: {size}\r\nConnection: close\r\n{allow}\r\n"
    )
}
