//! Addresses of hosts.

ghost use Rattle.std.specs.Prelude.{◌≡◌, option_map};
ghost use Rattle.std.specs.List.{list_any};
ghost use Rattle.esc_conformity.specs.HostAddresses.{IsVersionOf, ip_version, said_version};
ghost use Rattle.esc_conformity.specs.HostAddresses.{is_address, is_addressed, has_address};
ghost use Rattle.esc_conformity.specs.HostAddresses.{is_wrong_address, has_wrong_address};

use crate::cell::cell;
use esc_envelope::Kind;
use esc_tables::{Key, Object, Row};
use std::net::IpAddr;

// The version of the address that a text writes, if it writes one.
fn ip_version(text: &str) -> Option<&'static str>
    ensures version { option_map (λ v. v.now) result ≡ ip_version text.now }
    ensures written { IsVersionOf text.now (ip_version text.now) }
{
    match IpAddr::parse_ascii(text.as_bytes()) {
        Ok(IpAddr::V4(_)) => Some("v4"),
        Ok(IpAddr::V6(_)) => Some("v6"),
        Err(_) => None,
    }
}

// The version that a row says, which is v4 if it says none.
fn said_version(row: &Row) -> &str
    ensures { result.now ≡ said_version row.now }
{
    let version = cell(row, "addrVersion");
    if version.is_empty() { "v4" } else { version }
}

// Whether a row has an address of the version that it says.
fn is_address(row: &Row) -> bool
    ensures { result ≡ is_address row.now }
{
    match ip_version(cell(row, "addr")) {
        Some(version) => version == said_version(row),
        None => false,
    }
}

// Whether a row of a domain has the address of a server, which may be without.
fn is_addressed(row: &Row) -> bool
    ensures { result ≡ is_addressed row.now }
{
    row.table() == "domainHostAttr" && !cell(row, "addr").is_empty()
}

// Whether a row of an object is to have an address.
fn has_address(kind: Kind, row: &Row) -> bool
    ensures { result ≡ has_address kind row.now }
{
    match kind {
        Kind::Host => row.table() == "hostAddresses",
        Kind::Domain => is_addressed(row),
        Kind::Registrar | Kind::Contact | Kind::Idn | Kind::Nndn => false,
    }
}

fn is_wrong_address(kind: Kind, row: &Row) -> bool
    ensures { result ≡ is_wrong_address kind row.now }
{
    has_address(kind, row) && !is_address(row)
}

fn have_wrong_address(kind: Kind, rows: &[Row]) -> bool
    ensures { result ≡ list_any (is_wrong_address kind) rows.now }
{
    rows.iter().any(|row| is_wrong_address(kind, row))
}

/// Whether a row of a host or a domain is to have an address, and has none, or one of another
/// version than it says.
pub(crate) fn has_wrong_address(key: &Key, object: &Object) -> bool
    ensures { result ≡ has_wrong_address (key.now, object.now) }
{
    have_wrong_address(key.kind, &object.children)
}
