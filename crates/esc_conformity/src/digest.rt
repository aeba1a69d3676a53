//! DS of domains.

ghost use Rattle.std.specs.Prelude.{◌≡◌, ◌<◌, ◌≤◌, true, Some, length};
ghost use Rattle.std.specs.List.{list_all, list_any};
ghost use Rattle.std.specs.Char.{is_ascii_digit, is_ascii_hexdigit};
ghost use Rattle.std.specs.Str.Parse.{digits_value};
ghost use Rattle.esc_conformity.specs.Digests.{small_number, is_number_to, is_digest_of, is_digest};
ghost use Rattle.esc_conformity.specs.Digests.{has_ds, is_ds, is_wrong_ds, has_wrong_ds};

use crate::cell::cell;
use esc_envelope::Kind;
use esc_tables::{Key, Object, Row};

fn are_digits(text: &[u8]) -> bool
    ensures { result ≡ list_all is_ascii_digit text.now }
{
    text.iter().all(|byte| byte.is_ascii_digit())
}

fn are_hex_digits(text: &[u8]) -> bool
    ensures { result ≡ list_all is_ascii_hexdigit text.now }
{
    text.iter().all(|byte| byte.is_ascii_hexdigit())
}

// The value of 1 to 9 digits.
fn digits_value_of(text: &str) -> Option<u32>
    requires some { 0 < length text.now }
    requires few { length text.now ≤ 9 }
    requires digits { list_all is_ascii_digit text.now ≡ true }
    ensures { result ≡ Some (digits_value 10 text.now) }
{
    text.parse::<u32>().ok()
}

// The number that 1 to 9 digits write.
fn small_number(text: &str) -> Option<u32>
    ensures { result ≡ small_number text.now }
{
    if text.is_empty() || text.len() > 9 || !are_digits(text.as_bytes()) {
        return None;
    }
    digits_value_of(text)
}

fn is_number_to(most: u32, text: &str) -> bool
    ensures { result ≡ is_number_to most text.now }
{
    match small_number(text) {
        Some(number) => number <= most,
        None => false,
    }
}

// Whether so many digits write a digest of this type.
fn is_digest_of(kind: u32, digits: usize) -> bool
    ensures { result ≡ is_digest_of kind digits }
{
    match kind {
        1 => digits == 40,
        2 => digits == 64,
        4 => digits == 96,
        _ => digits > 0 && digits % 2 == 0,
    }
}

fn is_digest(kind: &str, digest: &str) -> bool
    ensures { result ≡ is_digest kind.now digest.now }
{
    match small_number(kind) {
        Some(kind) => {
            kind <= 0xff && is_digest_of(kind, digest.len()) && are_hex_digits(digest.as_bytes())
        }
        None => false,
    }
}

// Whether a row has a part of a DS.
fn has_ds(row: &Row) -> bool
    ensures { result ≡ has_ds row.now }
{
    !cell(row, "keyTag").is_empty()
        || !cell(row, "dsAlg").is_empty()
        || !cell(row, "digestType").is_empty()
        || !cell(row, "digest").is_empty()
}

fn is_ds(row: &Row) -> bool
    ensures { result ≡ is_ds row.now }
{
    is_number_to(0xffff, cell(row, "keyTag"))
        && is_number_to(0xff, cell(row, "dsAlg"))
        && is_digest(cell(row, "digestType"), cell(row, "digest"))
}

fn is_wrong_ds(row: &Row) -> bool
    ensures { result ≡ is_wrong_ds row.now }
{
    row.table() == "secDNS" && has_ds(row) && !is_ds(row)
}

fn have_wrong_ds(rows: &[Row]) -> bool
    ensures { result ≡ list_any is_wrong_ds rows.now }
{
    rows.iter().any(|row| is_wrong_ds(row))
}

/// Whether a row of a domain has a part of a DS, and is none.
pub(crate) fn has_wrong_ds(key: &Key, object: &Object) -> bool
    ensures { result ≡ has_wrong_ds (key.now, object.now) }
{
    key.kind == Kind::Domain && have_wrong_ds(&object.children)
}
