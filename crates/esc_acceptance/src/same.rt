//! Whether two rows, objects or counts are the same.

ghost use Rattle.std.specs.Prelude.{◌≡◌, true, option_map};
ghost use Rattle.std.specs.Map.Iter.{deref_pair as shown};

use esc_envelope::Kind;
use esc_tables::{Key, Object, Row};
use std::collections::BTreeMap;

// Whether two cells have the same field and the same text, or neither is there.
fn is_same_cell(cell: Option<(&str, &str)>, other: Option<(&str, &str)>) -> bool
    ensures { result ≡ true → option_map shown cell.entry ≡ option_map shown other.entry }
{
    match (cell, other) {
        (Some((field, text)), Some((other_field, other_text))) => {
            field == other_field && text == other_text
        }
        (None, None) => true,
        _ => false,
    }
}

fn has_same_cells(row: &Row, other: &Row) -> bool
    ensures { result ≡ true → row.now.cells ≡ other.now.cells }
{
    if row.len() != other.len() {
        return false;
    }
    for at in 0..row.len() {
        if !is_same_cell(row.cell(at), other.cell(at)) {
            return false;
        }
    }
    true
}

fn is_same_row(row: &Row, other: &Row) -> bool
    ensures { result ≡ true → row.now ≡ other.now }
{
    row.table() == other.table() && has_same_cells(row, other)
}

fn are_same_rows(rows: &[Row], others: &[Row]) -> bool
    ensures { result ≡ true → rows.now ≡ others.now }
{
    if rows.len() != others.len() {
        return false;
    }
    for (at, row) in rows.iter().enumerate() {
        if !is_same_row(row, &others[at]) {
            return false;
        }
    }
    true
}

/// Whether two objects are the same.
pub fn is_same_object(object: &Object, other: &Object) -> bool
    ensures { result ≡ true → object.now ≡ other.now }
{
    is_same_row(&object.parent, &other.parent) && are_same_rows(&object.children, &other.children)
}

fn is_same_key(key: &Key, other: &Key) -> bool
    ensures { result ≡ true → key.now ≡ other.now }
{
    key.kind == other.kind && key.text.as_str() == other.text.as_str()
}

/// Whether two keys are the same, and have the same object.
pub fn is_same_entry(key: &Key, object: &Object, other_key: &Key, other: &Object) -> bool
    ensures key { result ≡ true → key.now ≡ other_key.now }
    ensures object { result ≡ true → object.now ≡ other.now }
{
    is_same_key(key, other_key) && is_same_object(object, other)
}

/// Whether a map has just these counts, in this order.
pub fn are_same_counts(counts: &BTreeMap<Kind, u64>, others: &[(Kind, u64)]) -> bool
    ensures { result ≡ true → counts.now.entries ≡ others.now }
{
    let mut at = 0;
    for (kind, count) in counts.iter() {
        if at >= others.len() || others[at] != (*kind, *count) {
            return false;
        }
        at += 1;
    }
    at == others.len()
}
