//! The fields that are verified.

ghost use Rattle.std.specs.Prelude.{◌≡◌, true};
ghost use Rattle.esc_check.specs.Fields.{field_name, field_target, is_target, parent_fields};
ghost use Rattle.esc_check.specs.Fields.{is_domain, child_field, cell, has_created, created};
ghost use Rattle.esc_check.specs.Fields.{expires};

use esc_envelope::Kind;
use esc_tables::{Key, Object, Row};

/// A field that links: its text names another object (this project's profile of RFC 9022).
#[derive(Clone, Copy, Debug, PartialEq, Eq)]
pub enum LinkField {
    ClId,
    Registrant,
    IdnTableId,
    ContactId,
    HostName,
}

impl LinkField {
    /// The name of the field, such as `clID`.
    #[tactic(auto, unfolding(crate::specs::Fields::field_name))]
    pub fn name(self) -> &'static str
        ensures { result.now ≡ field_name self }
    {
        match self {
            LinkField::ClId => "clID",
            LinkField::Registrant => "registrant",
            LinkField::IdnTableId => "idnTableId",
            LinkField::ContactId => "contactId",
            LinkField::HostName => "hostName",
        }
    }

    /// The kind of the objects that the field names.
    pub fn target(self) -> Kind
        ensures kind { result ≡ field_target self }
        ensures known { is_target result ≡ true }
    {
        match self {
            LinkField::ClId => Kind::Registrar,
            LinkField::Registrant | LinkField::ContactId => Kind::Contact,
            LinkField::IdnTableId => Kind::Idn,
            LinkField::HostName => Kind::Host,
        }
    }
}

/// Whether links lead to objects of a kind.
pub fn is_target(kind: Kind) -> bool
    ensures { result ≡ is_target kind }
{
    matches!(
        kind,
        Kind::Registrar | Kind::Contact | Kind::Host | Kind::Idn
    )
}

/// The fields of a parent row that link.
pub fn parent_fields(kind: Kind) -> &'static [LinkField]
    ensures { result.now ≡ parent_fields kind }
{
    match kind {
        Kind::Registrar | Kind::Idn => &[],
        Kind::Contact | Kind::Host => &[LinkField::ClId],
        Kind::Domain => &[
            LinkField::ClId,
            LinkField::Registrant,
            LinkField::IdnTableId,
        ],
        Kind::Nndn => &[LinkField::IdnTableId],
    }
}

/// The field of a child row that links, by the row's table, if it has one.
pub fn child_field(kind: Kind, table: &str) -> Option<LinkField>
    ensures { result ≡ child_field kind table.now }
{
    match kind {
        Kind::Domain if table == "domainContacts" => Some(LinkField::ContactId),
        Kind::Domain if table == "domainNs" => Some(LinkField::HostName),
        _ => None,
    }
}

/// Whether a kind is that of domains.
pub fn is_domain(kind: Kind) -> bool
    ensures { result ≡ is_domain kind }
{
    matches!(kind, Kind::Domain)
}

/// The text of a field in a row: that of its first cell, and empty where there is none.
pub fn cell<'a>(row: &'a Row, field: &str) -> &'a str
    ensures { result.now ≡ cell field.now row.now }
{
    row.text(field).unwrap_or("")
}

fn has_created(kind: Kind) -> bool
    ensures { result ≡ has_created kind }
{
    matches!(
        kind,
        Kind::Registrar | Kind::Contact | Kind::Host | Kind::Domain
    )
}

/// The text of an object's date of creation, `crDate`; empty if there is none, or none to verify.
pub fn created<'a>(key: &Key, object: &'a Object) -> &'a str
    ensures { result.now ≡ created key.now object.now }
{
    if !has_created(key.kind) {
        return "";
    }
    cell(&object.parent, "crDate")
}

/// The text of a domain's date of expiry, `exDate`; empty if there is none.
pub fn expires<'a>(key: &Key, object: &'a Object) -> &'a str
    ensures { result.now ≡ expires key.now object.now }
{
    if !is_domain(key.kind) {
        return "";
    }
    cell(&object.parent, "exDate")
}
