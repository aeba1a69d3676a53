//! What RFC 9022 requires of objects.

ghost use Rattle.std.specs.Prelude.{◌≡◌};
ghost use Rattle.std.specs.List.{list_any};
ghost use Rattle.esc_conformity.specs.Required.{lacks, is_void, lacks_field, lacks_sponsor};
ghost use Rattle.esc_conformity.specs.Required.{has_status_of, lacks_status, has_postal};
ghost use Rattle.esc_conformity.specs.Required.{lacks_postal, lacks_required};

use crate::cell::cell;
use esc_envelope::Kind;
use esc_tables::{Key, Object, Row};

// Whether a row has no text in a field.
fn lacks(row: &Row, field: &str) -> bool
    ensures { result ≡ lacks row.now field.now }
{
    cell(row, field).is_empty()
}

// Whether a row has a field, and no text in it.
fn is_void(row: &Row, field: &str) -> bool
    ensures { result ≡ is_void row.now field.now }
{
    match row.text(field) {
        Some(text) => text.is_empty(),
        None => false,
    }
}

fn lacks_field(kind: Kind, row: &Row) -> bool
    ensures { result ≡ lacks_field kind row.now }
{
    match kind {
        Kind::Registrar => lacks(row, "id") || lacks(row, "name"),
        Kind::Contact => lacks(row, "id") || lacks(row, "roid"),
        Kind::Host | Kind::Domain => lacks(row, "name") || lacks(row, "roid"),
        Kind::Idn | Kind::Nndn => false,
    }
}

fn lacks_sponsor(kind: Kind, row: &Row) -> bool
    ensures { result ≡ lacks_sponsor kind row.now }
{
    match kind {
        Kind::Contact | Kind::Host | Kind::Domain => is_void(row, "clID"),
        Kind::Registrar | Kind::Idn | Kind::Nndn => false,
    }
}

fn has_status_of(table: &str, row: &Row) -> bool
    ensures { result ≡ has_status_of table.now row.now }
{
    row.table() == table && !lacks(row, "status")
}

fn have_status_of(table: &str, rows: &[Row]) -> bool
    ensures { result ≡ list_any (has_status_of table.now) rows.now }
{
    rows.iter().any(|row| has_status_of(table, row))
}

fn lacks_status(kind: Kind, rows: &[Row]) -> bool
    ensures { result ≡ lacks_status kind rows.now }
{
    match kind {
        Kind::Contact => !have_status_of("contactStatuses", rows),
        Kind::Host => !have_status_of("hostStatuses", rows),
        Kind::Domain => !have_status_of("domainStatuses", rows),
        Kind::Registrar | Kind::Idn | Kind::Nndn => false,
    }
}

fn has_postal(row: &Row) -> bool
    ensures { result ≡ has_postal row.now }
{
    row.table() == "contactPostal"
        && !lacks(row, "name")
        && !lacks(row, "city")
        && !lacks(row, "cc")
}

fn have_postal(rows: &[Row]) -> bool
    ensures { result ≡ list_any has_postal rows.now }
{
    rows.iter().any(|row| has_postal(row))
}

fn lacks_postal(kind: Kind, rows: &[Row]) -> bool
    ensures { result ≡ lacks_postal kind rows.now }
{
    kind == Kind::Contact && !have_postal(rows)
}

/// Whether an object lacks something that is required of its kind.
pub(crate) fn lacks_required(key: &Key, object: &Object) -> bool
    ensures { result ≡ lacks_required (key.now, object.now) }
{
    lacks_field(key.kind, &object.parent)
        || lacks_sponsor(key.kind, &object.parent)
        || lacks_status(key.kind, &object.children)
        || lacks_postal(key.kind, &object.children)
}
