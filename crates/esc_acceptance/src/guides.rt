//! Which declared tables have the fields by which links, statuses and dates go, and which look as
//! if they had.

ghost use Rattle.std.specs.Prelude.{◌≡◌, ◌||◌, not, string_bytes};
ghost use Rattle.std.specs.List.{list_any, list_all};
ghost use Rattle.std.specs.Str.{bytes_eq};
ghost use Rattle.esc_acceptance.specs.Guides.{guides, is_of_parents, is_its_table, has_field};
ghost use Rattle.esc_acceptance.specs.Guides.{is_guide_declared, has_objects, is_wanted};
ghost use Rattle.esc_acceptance.specs.Guides.{has_cell, has_guide};
ghost use Rattle.esc_acceptance.specs.Guides.{is_name_sign, folds_to, looks_like, is_disguised};
ghost use Rattle.esc_acceptance.specs.Guides.{is_disguised_table, has_disguised_field};
ghost use Rattle.esc_acceptance.specs.Guides.{has_disguise, stands_for_its_table, is_disguise};

use crate::guide::Guide;
use esc_envelope::{Kind, Table};
use esc_tables::{Key, Object, Row};

// All of them.
#[tactic(auto, unfolding(crate::specs::Guides::guides))]
pub(crate) fn all_guides() -> [Guide; 16]
    ensures { result ≡ guides }
{
    Guide::ALL
}

fn is_of_parents(guide: Guide) -> bool
    ensures { result ≡ is_of_parents guide }
{
    guide.child_name().len() == 0
}

fn is_its_table(guide: Guide, table: &Table) -> bool
    ensures { result ≡ is_its_table guide table.now }
{
    if table.kind != guide.kind() {
        return false;
    }
    if is_of_parents(guide) {
        table.parent
    } else {
        !table.parent && table.name.as_str() == guide.child_name()
    }
}

fn is_among(names: &[String], field: &str) -> bool
    ensures { result ≡ list_any (λ n. bytes_eq (string_bytes n) field.now) names.now }
{
    names.iter().any(|name| name.as_str() == field)
}

fn has_field(table: &Table, field: &str) -> bool
    ensures { result ≡ has_field field.now table.now }
{
    is_among(&table.fields, field)
}

/// Whether a field is in a declared table.
pub(crate) fn is_declared(tables: &[Table], guide: Guide) -> bool
    ensures { result ≡ is_guide_declared tables.now guide }
{
    tables.iter().any(|table| is_its_table(guide, table) && has_field(table, guide.field_name()))
}

fn has_cell(row: &Row, field: &str) -> bool
    ensures { result ≡ has_cell field.now row.now }
{
    row.text(field).is_some()
}

fn have_cells(rows: &[Row], table: &str, field: &str) -> bool
    ensures { result ≡ list_all (λ r. not (bytes_eq r.table table.now) || has_cell field.now r)
        rows.now }
{
    rows.iter()
        .all(|row| row.table() != table || has_cell(row, field))
}

/// Whether an object has a field, if it is of the kind that does.
pub(crate) fn has_guide(guide: Guide, key: &Key, object: &Object) -> bool
    ensures { result ≡ has_guide guide (key.now, object.now) }
{
    if key.kind != guide.kind() {
        return true;
    }
    if is_of_parents(guide) {
        has_cell(&object.parent, guide.field_name())
    } else {
        have_cells(&object.children, guide.child_name(), guide.field_name())
    }
}

fn has_objects(objects: &[(Kind, u64)], kind: Kind) -> bool
    ensures { result ≡ has_objects objects.now kind }
{
    objects
        .iter()
        .any(|counted| counted.0 == kind && counted.1 > 0)
}

/// Whether a field is to be declared.
pub(crate) fn is_wanted(objects: &[(Kind, u64)], guide: Guide) -> bool
    ensures { result ≡ is_wanted objects.now guide }
{
    has_objects(objects, guide.kind()) && (!guide.leads_to_idn() || has_objects(objects, Kind::Idn))
}

fn is_sign(byte: u8) -> bool
    ensures { result ≡ is_name_sign byte }
{
    byte == b'.' || byte == b'_' || byte == b'-'
}

// Whether a name is another in lower case, once its signs are left out.
fn folds_to(name: &[u8], wanted: &[u8]) -> bool
    ensures { result ≡ folds_to name.now wanted.now }
{
    let mut at = 0;
    for byte in name {
        if is_sign(*byte) {
            continue;
        }
        if at >= wanted.len() || byte.to_ascii_lowercase() != wanted[at].to_ascii_lowercase() {
            return false;
        }
        at += 1;
    }
    at == wanted.len()
}

fn looks_like(name: &[u8], wanted: &[u8]) -> bool
    ensures { result ≡ looks_like name.now wanted.now }
{
    if folds_to(name, wanted) {
        return true;
    }
    let front = name.len().min(1);
    folds_to(&name[..front], b"f") && folds_to(&name[front..], wanted)
}

fn is_disguised(name: &str, wanted: &str) -> bool
    ensures { result ≡ is_disguised name.now wanted.now }
{
    name != wanted && looks_like(name.as_bytes(), wanted.as_bytes())
}

fn is_disguised_table(name: &str, wanted: &str) -> bool
    ensures { result ≡ is_disguised_table name.now wanted.now }
{
    is_disguised(name, wanted)
        || (wanted == "domainNs" && looks_like(name.as_bytes(), b"domainNameServers"))
}

fn is_among_disguised(names: &[String], field: &str) -> bool
    ensures { result ≡ list_any (λ n. is_disguised (string_bytes n) field.now) names.now }
{
    names.iter().any(|name| is_disguised(name.as_str(), field))
}

fn has_disguised_field(table: &Table, field: &str) -> bool
    ensures { result ≡ has_disguised_field field.now table.now }
{
    is_among_disguised(&table.fields, field)
}

fn has_disguise(guide: Guide, table: &Table) -> bool
    ensures { result ≡ has_disguise guide table.now }
{
    is_its_table(guide, table) && has_disguised_field(table, guide.field_name())
}

fn stands_for_its_table(guide: Guide, table: &Table) -> bool
    ensures { result ≡ stands_for_its_table guide table.now }
{
    !is_of_parents(guide)
        && table.kind == guide.kind()
        && !table.parent
        && is_disguised_table(table.name.as_str(), guide.child_name())
}

/// Whether a declared table has a field under another name, or is its table under another name.
pub(crate) fn is_disguise(guide: Guide, table: &Table) -> bool
    ensures { result ≡ is_disguise guide table.now }
{
    has_disguise(guide, table) || stands_for_its_table(guide, table)
}
