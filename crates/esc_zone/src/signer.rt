//! DS records: those that a row has, and those that are made of its key.

ghost use Rattle.std.specs.Prelude.{◌≡◌, ◌≢◌, ◌≤◌, ◌<◌, ◌+◌, ◌++◌, [], ◌∷◌, ◌^◌, IfOk, OnOk, length};
ghost use Rattle.std.specs.Prelude.{List, ℕ, MatchResult, filter, not, is_some};
ghost use Rattle.esc_zone.specs.declared.signer.Given.{Given};
ghost use Rattle.std.specs.List.{list_all};
ghost use Rattle.std.specs.Char.{is_ascii_digit};
ghost use Rattle.sha2.specs.Sha256.{sha256};
ghost use Rattle.esc_zone.specs.Lists.{GivesOne};
ghost use Rattle.esc_zone.specs.Signers.{IsNumber, IsDigest, IsGivenDs, IsKeyDs, digest_length};
ghost use Rattle.esc_zone.specs.Signers.{Reads, ReadsOne, IsKeyText, IsRowKeyDs, IsRowGivenDs};
ghost use Rattle.esc_zone.specs.Signers.{IsSigner, no_memory, wire_name, is_blank, is_zone_key};
ghost use Rattle.esc_zone.specs.Signers.{has_ds_text, has_key_text};
ghost use Rattle.esc_zone.specs.Told.{says_signer};
ghost use Rattle.esc_zone.specs.Signers.{key_data, key_tag, tag_sum};

use crate::field::{cell, has_text};
use crate::name::{Name, first_dot};
use base64::DecodeAllocError;
use base64::engine::general_purpose::STANDARD;
use esc_bundle::NoMemory;
use esc_cli::OneLine;
use esc_tables::Row;
use sha2::{Digest, Sha256};
use std::alloc::{AllocError, AllocFailed, Global};
use std::fmt;

/// A DS (RFC 4034, section 5.1).
#[derive(Debug, PartialEq, Eq, PartialOrd, Ord, Drop)]
pub struct Ds {
    /// The tag of the key.
    pub tag: u16,
    /// The algorithm of the key.
    pub algorithm: u8,
    /// The type of the digest.
    pub kind: u8,
    pub digest: Vec<u8>,
}

/// Why a row gives no DS.
#[derive(Clone, Copy, Debug)]
pub enum DsFault<'a> {
    /// A text is no number up to this one.
    Number { most: u32, text: &'a str },
    /// The algorithm is 0, or validators ignore the type of the digest (RFC 8624, section 3.3).
    Unused { algorithm: u8, kind: u8 },
    /// A digest is not so many bytes in hexadecimal digits.
    Broken { bytes: usize, text: &'a str },
    /// A key is none of DNSSEC (RFC 4034, section 2.1.2).
    Foreign { protocol: u8, algorithm: u8 },
    /// A key is no zone's, or a revoked one (RFC 4034, section 2.1.1; RFC 5011, section 7).
    Flags(u16),
    /// A key is no base64, or too long for a record.
    Key,
    /// Out of memory.
    NoMemory,
}

impl fmt::Display for DsFault<'_> {
    fn fmt<W: fmt::Write>(&self, f: &mut fmt::Formatter<W>) -> fmt::Result {
        match self {
            DsFault::Number { most, text } => {
                write!(f, "no number up to {most}: {}", OneLine(text))
            }
            DsFault::Unused { algorithm, kind } => {
                write!(f, "algorithm {algorithm}, digest type {kind}")
            }
            DsFault::Broken { bytes, text } => {
                write!(f, "no digest of {bytes} bytes: {}", OneLine(text))
            }
            DsFault::Foreign {
                protocol,
                algorithm,
            } => write!(
                f,
                "no key of DNSSEC: protocol {protocol}, algorithm {algorithm}"
            ),
            DsFault::Flags(flags) => { write!(f, "no zone key, or a revoked one: flags {flags}") }
            DsFault::Key => f.write_str("a public key that is no base64"),
            DsFault::NoMemory => f.write_str("out of memory"),
        }
    }
}

impl From<NoMemory> for DsFault<'_> {
    ghost from_gives = { λ _ fault. fault ≡ no_memory };

    fn from(_refused: NoMemory) -> Self {
        DsFault::NoMemory
    }
}

impl From<AllocError> for DsFault<'_> {
    ghost from_gives = { λ _ fault. fault ≡ no_memory };

    fn from(_refused: AllocError) -> Self {
        DsFault::NoMemory
    }
}

impl<T: Drop> From<AllocFailed<T>> for DsFault<'_> {
    ghost from_gives = { λ _ fault. fault ≡ no_memory };

    fn from(_refused: AllocFailed<T>) -> Self {
        DsFault::NoMemory
    }
}

/// Whether each byte is a decimal digit.
pub(crate) fn are_digits(text: &[u8]) -> bool
    ensures { result ≡ list_all is_ascii_digit text.now }
{
    text.iter().all(|byte| byte.is_ascii_digit())
}

// The number that a text is, up to this one.
fn number(text: &str, most: u32) -> Option<u32>
    ensures { GivesOne (IsNumber most) text.now result }
{
    if text.is_empty() || text.len() > 10 || !are_digits(text.as_bytes()) {
        return None;
    }
    match text.parse::<u32>() {
        Ok(value) if value <= most => Some(value),
        _ => None,
    }
}

// A number of two bytes.
fn short(text: &str) -> Result<u16, DsFault<'_>>
    ensures { Reads (IsNumber 0xffff text.now) result }
{
    match number(text, 0xffff) {
        Some(value) => Ok(value as u16),
        None => Err(DsFault::Number { most: 0xffff, text }),
    }
}

// A number of one byte.
fn byte(text: &str) -> Result<u8, DsFault<'_>>
    ensures { Reads (IsNumber 0xff text.now) result }
{
    match number(text, 0xff) {
        Some(value) => Ok(value as u8),
        None => Err(DsFault::Number { most: 0xff, text }),
    }
}

fn digest_length(kind: u8) -> Option<usize>
    ensures { result ≡ digest_length kind }
{
    match kind {
        1 => Some(20),
        2 => Some(32),
        4 => Some(48),
        _ => None,
    }
}

// The digest of so many bytes that a text has.
fn digest_in(alloc: Global, text: &str, bytes: usize) -> Result<Vec<u8>, DsFault<'_>>
    ensures { Reads (λ digest. IsDigest text.now bytes digest.items) result }
{
    match hex::decode(alloc, text.as_bytes()) {
        Ok(digest) if digest.len() == bytes => Ok(digest),
        Err(hex::FromHexError::OutOfMemory) => Err(DsFault::NoMemory),
        _ => Err(DsFault::Broken { bytes, text }),
    }
}

/// The DS of these texts.
pub(crate) fn given_ds<'a>(
    alloc: Global,
    tag: &'a str,
    algorithm: &'a str,
    kind: &'a str,
    digest: &'a str,
) -> Result<Ds, DsFault<'a>>
    ensures { Reads (IsGivenDs tag.now algorithm.now kind.now digest.now) result }
{
    let tag = short(tag)?;
    let algorithm = byte(algorithm)?;
    let kind = byte(kind)?;
    match digest_length(kind) {
        Some(bytes) if algorithm != 0 => Ok(Ds {
            tag,
            algorithm,
            kind,
            digest: digest_in(alloc, digest, bytes)?,
        }),
        _ => Err(DsFault::Unused { algorithm, kind }),
    }
}

// A name on the wire (RFC 1035, section 3.1).
fn wire_name(alloc: Global, name: &Name) -> Result<Vec<u8>, NoMemory>
    ensures { IfOk result (λ wire. wire.items ≡ wire_name name.now) }
{
    let mut wire = Vec::new(alloc);
    let mut rest = name.as_bytes();
    while let Some(at) = first_dot(rest) {
        push_label(&mut wire, &rest[..at])?;
        rest = &rest[at + 1..];
    }
    push_label(&mut wire, rest)?;
    wire.push(0)?;
    Ok(wire)
}

// Adds a label of 255 bytes at most: its length and its bytes.
fn push_label(wire: &mut Vec<u8>, label: &[u8]) -> Result<(), NoMemory>
    ensures { OnOk result (length label.now < 256
        → wire.new.items ≡ wire.old.items ++ length label.now ∷ label.now) }
{
    wire.push(u8::try_from(label.len()).unwrap_or(0))?;
    wire.extend_from_slice(label)?;
    Ok(())
}

// The data of a key's record.
fn key_data(alloc: Global, flags: u16, algorithm: u8, key: &[u8]) -> Result<Vec<u8>, NoMemory>
    ensures { IfOk result (λ bytes. bytes.items ≡ key_data flags algorithm key.now) }
{
    let front = [(flags / 256) as u8, (flags % 256) as u8, 3, algorithm];
    let mut bytes = Vec::from_slice(alloc, &front)?;
    bytes.extend_from_slice(key)?;
    Ok(bytes)
}

/// The most bytes of a key: with the other four of its data those of a record.
const MOST_KEY: usize = 65_531;

// The tag of a key's data (RFC 4034, appendix B).
fn key_tag(bytes: &[u8]) -> u16
    requires { length bytes.now ≤ 65535 }
    ensures { result ≡ key_tag bytes.now }
{
    let total = tag_sum(bytes);
    ((total + total / 65_536) % 65_536) as u16
}

fn tag_sum(bytes: &[u8]) -> u64
    requires { length bytes.now ≤ 65535 }
    ensures sum { result ≡ tag_sum 0 bytes.now }
    ensures small { result < 2 ^ 40 }
{
    let mut total = 0;
    for at in 0..bytes.len() {
        let byte = u64::from(bytes[at]);
        total += if at % 2 == 0 { 256 * byte } else { byte };
    }
    total
}

// The DS of a key of the name that is these bytes on the wire.
fn ds_of_key(
    alloc: Global,
    wire: &[u8],
    flags: u16,
    algorithm: u8,
    key: &[u8],
) -> Result<Ds, NoMemory>
    requires { length key.now + 4 ≤ 65535 }
    ensures { IfOk result (λ ds. IsKeyDs wire.now flags algorithm key.now ds) }
{
    let data = key_data(alloc, flags, algorithm, key)?;
    let mut hasher = Sha256::new();
    hasher.update(wire);
    hasher.update(data.as_slice());
    Ok(Ds {
        tag: key_tag(&data),
        algorithm,
        kind: 2,
        digest: Vec::from_slice(alloc, &hasher.finalize())?,
    })
}

/// A DS that a row gives, and whether it is made of its key.
#[derive(Drop)]
pub(crate) struct Given {
    pub(crate) ds: Ds,
    pub(crate) is_of_key: bool,
}

/// The DS of a name that a row gives, if it gives one.
pub(crate) fn ds_of_row<'a>(
    alloc: Global,
    name: &Name,
    row: &'a Row,
) -> Result<Option<Given>, DsFault<'a>>
    ensures given { ReadsOne (λ row (given : Given). IsSigner name.now row given.ds) row.now
        result }
    ensures some { IfOk result (λ given. is_some given ≡ says_signer row.now) }
{
    if row.table() != "secDNS" {
        return Ok(None);
    }
    if has_ds_text(row) {
        let ds = ds_of_texts(alloc, row)?;
        let is_of_key = false;
        return Ok(Some(Given { ds, is_of_key }));
    }
    if has_key_text(row) {
        let ds = ds_of_key_row(alloc, name, row)?;
        let is_of_key = true;
        return Ok(Some(Given { ds, is_of_key }));
    }
    Ok(None)
}

fn has_ds_text(row: &Row) -> bool
    ensures { result ≡ has_ds_text row.now }
{
    has_text(row, "keyTag")
        || has_text(row, "dsAlg")
        || has_text(row, "digestType")
        || has_text(row, "digest")
}

fn has_key_text(row: &Row) -> bool
    ensures { result ≡ has_key_text row.now }
{
    has_text(row, "flags")
        || has_text(row, "protocol")
        || has_text(row, "keyAlg")
        || has_text(row, "pubKey")
}

// The DS whose texts a row has.
fn ds_of_texts<'a>(alloc: Global, row: &'a Row) -> Result<Ds, DsFault<'a>>
    ensures { Reads (IsRowGivenDs row.now) result }
{
    given_ds(
        alloc,
        cell(row, "keyTag"),
        cell(row, "dsAlg"),
        cell(row, "digestType"),
        cell(row, "digest"),
    )
}

/// The flag of a zone's key (RFC 4034, section 2.1.1).
const ZONE_KEY: u16 = 0x0100;

/// The flag of a revoked key (RFC 5011, section 7).
const REVOKED: u16 = 0x0080;

fn is_zone_key(flags: u16) -> bool
    ensures { result ≡ is_zone_key flags }
{
    flags & ZONE_KEY != 0 && flags & REVOKED == 0
}

// The DS of the key that a row has.
fn ds_of_key_row<'a>(alloc: Global, name: &Name, row: &'a Row) -> Result<Ds, DsFault<'a>>
    ensures { Reads (IsRowKeyDs name.now row.now) result }
{
    let flags = short(cell(row, "flags"))?;
    let protocol = byte(cell(row, "protocol"))?;
    let algorithm = byte(cell(row, "keyAlg"))?;
    if protocol != 3 || algorithm == 0 {
        return Err(DsFault::Foreign {
            protocol,
            algorithm,
        });
    }
    if !is_zone_key(flags) {
        return Err(DsFault::Flags(flags));
    }
    let key = key_in(alloc, cell(row, "pubKey"))?;
    let wire = wire_name(alloc, name)?;
    Ok(ds_of_key(alloc, &wire, flags, algorithm, &key)?)
}

fn is_blank(byte: u8) -> bool
    ensures { result ≡ is_blank byte }
{
    matches!(byte, b' ' | b'\t' | b'\r' | b'\n')
}

// The bytes of a text without white space.
fn without_blanks(alloc: Global, text: &[u8]) -> Result<Vec<u8>, NoMemory>
    ensures { IfOk result (λ signs. signs.items ≡ filter (λ b. not (is_blank b)) text.now) }
{
    let mut signs = Vec::new(alloc);
    for sign in text {
        push_sign(&mut signs, *sign)?;
    }
    Ok(signs)
}

// Adds a byte, if it is no white space.
fn push_sign(signs: &mut Vec<u8>, sign: u8) -> Result<(), NoMemory>
    ensures { OnOk result (signs.new.items
        ≡ signs.old.items ++ filter (λ b. not (is_blank b)) (sign ∷ [])) }
{
    if !is_blank(sign) {
        signs.push(sign)?;
    }
    Ok(())
}

// The key that a text in base64 is, in which white space says nothing (RFC 4034, section 2.2).
fn key_in<'a>(alloc: Global, text: &'a str) -> Result<Vec<u8>, DsFault<'a>>
    ensures { MatchResult result (λ key. IsKeyText text.now key.items)
        (λ fault. fault ≢ no_memory → (key : List ℕ) → IsKeyText text.now key → ⊥) }
{
    let signs = without_blanks(alloc, text.as_bytes())?;
    match STANDARD.decode(alloc, signs.as_slice()) {
        Ok(key) if !key.is_empty() && key.len() <= MOST_KEY => Ok(key),
        Err(DecodeAllocError::OutOfMemory) => Err(DsFault::NoMemory),
        _ => Err(DsFault::Key),
    }
}
