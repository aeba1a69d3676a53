//! How long the body of a request is, by the header lines of its head.

ghost use Rattle.std.specs.Prelude.{◌≡◌, ◌≤◌, ◌<◌, ◌+◌, ◌-◌, ◌*◌, length, map, All};
ghost use Rattle.std.specs.List.{list_any, filter};
ghost use Rattle.httparse.specs.Spans.{IsHeaderWithin, header_bytes};
ghost use Rattle.esc_request.specs.BodyLength.{is_header_named, Values, values_of, value_after};
ghost use Rattle.esc_request.specs.BodyLength.{length_of_value, body_length};
ghost use Rattle.esc_request.specs.Seen.{values_seen};

use esc_bundle::MOST_BYTES;
use httparse::spans::HeaderSpan;

/// The most bytes of a body: as many as a bundle has at most.
pub const MOST_BODY_BYTES: u32 = MOST_BYTES as u32;

/// The length of a body, or why there is none (RFC 9112, section 6, within this project's profile).
#[derive(Clone, Copy, Debug, PartialEq, Eq)]
pub enum BodyLength {
    /// This many bytes, at most 16,777,216.
    Bytes(u32),
    /// There is no Content-Length, or there is a Transfer-Encoding.
    Missing,
    /// There is more than one Content-Length, or its value isn't one digit or more.
    Malformed,
    /// It is over 16,777,216 bytes.
    TooLong,
}

/// The length of the body, by the header lines of a head; `bytes` is the buffer in which they are.
pub fn body_length(bytes: &[u8], lines: &[HeaderSpan]) -> BodyLength
    requires within { All (IsHeaderWithin (length bytes.now)) lines.now }
    ensures said { result ≡ body_length (map (header_bytes bytes.now) lines.now) }
{
    if has_line(bytes, lines, b"transfer-encoding") {
        return BodyLength::Missing;
    }
    match values_named(bytes, lines, b"content-length") {
        Values::Nothing => BodyLength::Missing,
        Values::One(value) => length_of_value(value),
        Values::More => BodyLength::Malformed,
    }
}

// The values of the header lines of one name.
#[derive(Clone, Copy)]
enum Values<'b> {
    Nothing,
    One(&'b [u8]),
    More,
}

fn is_named(bytes: &[u8], line: HeaderSpan, name: &[u8]) -> bool
    requires { IsHeaderWithin (length bytes.now) line }
    ensures { result ≡ is_header_named name.now (header_bytes bytes.now line) }
{
    line.name.of(bytes).eq_ignore_ascii_case(name)
}

fn has_line(bytes: &[u8], lines: &[HeaderSpan], name: &[u8]) -> bool
    requires { All (IsHeaderWithin (length bytes.now)) lines.now }
    ensures { result
        ≡ list_any (is_header_named name.now) (map (header_bytes bytes.now) lines.now) }
{
    let mut found = false;
    for line in lines {
        found |= is_named(bytes, *line, name);
    }
    found
}

fn values_named<'b>(bytes: &'b [u8], lines: &[HeaderSpan], name: &[u8]) -> Values<'b>
    requires { All (IsHeaderWithin (length bytes.now)) lines.now }
    ensures { values_seen result
        ≡ values_of (filter (is_header_named name.now) (map (header_bytes bytes.now) lines.now)) }
{
    let mut values = Values::Nothing;
    for line in lines {
        values = values_with(values, bytes, *line, name);
    }
    values
}

// The values with that of one more line, if it has the name.
fn values_with<'b>(values: Values<'b>, bytes: &'b [u8], line: HeaderSpan, name: &[u8]) -> Values<'b>
    requires { IsHeaderWithin (length bytes.now) line }
    ensures { values_seen result
        ≡ value_after (is_header_named name.now) (values_seen values.entry)
        (header_bytes bytes.now line) }
{
    if !is_named(bytes, line, name) {
        return values;
    }
    match values {
        Values::Nothing => Values::One(line.value.of(bytes)),
        Values::One(_) | Values::More => Values::More,
    }
}

// The length that a value states, in one digit or more.
fn length_of_value(text: &[u8]) -> BodyLength
    ensures { result ≡ length_of_value text.now }
{
    if text.is_empty() {
        return BodyLength::Malformed;
    }
    let mut value = 0u32;
    for &byte in text {
        if !byte.is_ascii_digit() {
            return BodyLength::Malformed;
        }
        value = with_digit(value, byte);
    }
    if value <= MOST_BODY_BYTES {
        BodyLength::Bytes(value)
    } else {
        BodyLength::TooLong
    }
}

// The number with one more digit; above the greatest length it grows no more.
fn with_digit(value: u32, digit: u8) -> u32
    requires from { 48 ≤ digit }
    requires to { digit ≤ 57 }
    ensures grows { value ≤ MOST_BODY_BYTES → result ≡ value * 10 + (digit - 48) }
    ensures stays { MOST_BODY_BYTES < value → result ≡ value }
{
    if value > MOST_BODY_BYTES {
        return value;
    }
    value * 10 + u32::from(digit - b'0')
}
