//! Names as the tables have them.

ghost use Rattle.std.specs.Prelude.{◌≡◌, IfOk, Some, None, if◌then◌else◌, false, string_bytes};
ghost use Rattle.esc_zone.specs.Names.{is_name_with, is_server_name, last_label, ends_in_number};
ghost use Rattle.esc_zone.specs.Fields.{normal, without_dot};

use crate::fault::{Halt, Rule, refused};
use crate::name::{LONGEST_LABEL, LONGEST_NAME, Name, after_dot, is_label};
use crate::signer::are_digits;
use esc_bundle::NoMemory;
use esc_cli::OneLine;
use std::alloc::Global;
use std::fmt;

/// Why a text is no name.
#[derive(Clone, Copy, Debug)]
pub enum NameFault<'a> {
    /// It has other letters than ASCII ones: a U-label is never converted, which would be a guess.
    NotAscii,
    TooLong,
    EmptyLabel,
    LongLabel,
    Wildcard,
    /// This label has another sign, or a hyphen at an end.
    Signs(&'a str),
    /// Its last label is a number.
    Address,
}

impl fmt::Display for NameFault<'_> {
    fn fmt<W: fmt::Write>(&self, f: &mut fmt::Formatter<W>) -> fmt::Result {
        match self {
            NameFault::NotAscii => f.write_str("not ASCII: a U-label?"),
            NameFault::TooLong => f.write_str("over 255 bytes on the wire"),
            NameFault::EmptyLabel => f.write_str("an empty label"),
            NameFault::LongLabel => f.write_str("a label over 63 bytes"),
            NameFault::Wildcard => f.write_str("a wildcard"),
            NameFault::Signs(label) => write!(
                f,
                "no label of letters, digits and hyphens: {}",
                OneLine(label)
            ),
            NameFault::Address => f.write_str("it is an address"),
        }
    }
}

/// A text as names are compared: with ASCII letters in lower case, without one dot at its end (RFC
/// 4343).
pub(crate) fn normal(alloc: Global, text: &str) -> Result<String, NoMemory>
    ensures { IfOk result (λ it. string_bytes it ≡ normal text.now) }
{
    let mut text = String::from_str(alloc, without_dot(text))?;
    text.make_ascii_lowercase();
    Ok(text)
}

// A text without one dot at its end.
fn without_dot(text: &str) -> &str
    ensures { result.now ≡ without_dot text.now }
{
    match text.strip_suffix('.') {
        Some(front) => front,
        None => text,
    }
}

/// The name of a text that is normal, if it is one; with underscores only where these are allowed.
pub(crate) fn name_in(
    alloc: Global,
    text: &str,
    has_underscores: bool,
) -> Result<Option<Name>, NoMemory>
    ensures { IfOk result (λ n. n
        ≡ (if is_name_with has_underscores text.now then Some text.now else None)) }
{
    match Name::from_bytes(alloc, text.as_bytes())? {
        Some(name) if has_underscores || !name.has_underscore() => Ok(Some(name)),
        _ => Ok(None),
    }
}

/// The name of a text, if it is one; without underscores.
pub(crate) fn read_name(alloc: Global, text: &str) -> Result<Option<Name>, NoMemory>
    ensures { IfOk result (λ n. n
        ≡ (if is_name_with false (normal text.now) then Some (normal text.now) else None)) }
{
    let text = normal(alloc, text)?;
    name_in(alloc, text.as_str(), false)
}

/// The name of a server with this normal text, if it is one.
pub(crate) fn server_in(
    alloc: Global,
    text: &str,
    has_underscores: bool,
) -> Result<Option<Name>, NoMemory>
    ensures { IfOk result (λ n. n
        ≡ (if is_server_name has_underscores text.now then Some text.now else None)) }
{
    if is_address(text) {
        return Ok(None);
    }
    name_in(alloc, text, has_underscores)
}

// The last label of a text: what follows its last dot.
fn last_label(text: &[u8]) -> &[u8]
    ensures { result.now ≡ last_label text.now }
{
    let mut rest = text;
    while let Some(after) = after_dot(rest) {
        rest = after;
    }
    rest
}

// Whether the last label is a number, as that of an address.
fn is_address(text: &str) -> bool
    ensures { result ≡ ends_in_number text.now }
{
    let last = last_label(text.as_bytes());
    !last.is_empty() && are_digits(last)
}

/// Why a normal text is no name of a domain.
pub(crate) fn fault_of(text: &str, has_underscores: bool) -> NameFault<'_> {
    if !text.is_ascii() {
        return NameFault::NotAscii;
    }
    if text.len() > LONGEST_NAME {
        return NameFault::TooLong;
    }
    for label in text.split('.') {
        if let Some(fault) = label_fault(label, has_underscores) {
            return fault;
        }
    }
    NameFault::Signs(text)
}

fn label_fault(label: &str, has_underscores: bool) -> Option<NameFault<'_>> {
    if label.is_empty() {
        return Some(NameFault::EmptyLabel);
    }
    if label.len() > LONGEST_LABEL {
        return Some(NameFault::LongLabel);
    }
    if label == "*" {
        return Some(NameFault::Wildcard);
    }
    if !is_label(label.as_bytes()) || !has_underscores && label.contains('_') {
        return Some(NameFault::Signs(label));
    }
    None
}

/// Why a normal text is no name of a server.
pub(crate) fn server_fault(text: &str, has_underscores: bool) -> NameFault<'_> {
    if is_address(text) {
        return NameFault::Address;
    }
    fault_of(text, has_underscores)
}

/// The name of a zone. Refused by `Z1`, if it is none, or isn't written as it is compared.
pub fn read_origin(alloc: Global, text: &str) -> Result<Name, Halt> {
    let normal = normal(alloc, text)?;
    if normal.as_str() != text {
        let why = "not in small letters, or with a dot at its end";
        return Err(refused(Rule::Origin, format!(in alloc; "{text}: {why}")));
    }
    match name_in(alloc, text, false)? {
        Some(name) => Ok(name),
        None => {
            let why = fault_of(text, false);
            Err(refused(Rule::Origin, format!(in alloc; "{text}: {why}")))
        }
    }
}

/// The serial of a SOA (RFC 1982). Refused by `Z2`, if it is none.
pub fn read_serial(alloc: Global, text: &str) -> Result<u32, Halt> {
    match text.parse::<u32>() {
        Ok(serial) if serial > 0 && text.bytes().all(|byte| byte.is_ascii_digit()) => Ok(serial),
        _ => Err(refused(
            Rule::Serial,
            format!(in alloc; "the serial is not from 1 to 4294967295"),
        )),
    }
}
