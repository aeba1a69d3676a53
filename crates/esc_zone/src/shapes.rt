//! The names of tables and fields that the zone is made of.

use crate::fault::{Halt, Rule, refused};
use esc_bundle::NoMemory;
use std::alloc::Global;

/// A table of the registry: its name, and the names of its fields.
#[derive(Clone, Copy)]
pub struct Shape<'a> {
    pub name: &'a str,
    pub fields: &'a [String],
}

/// A table that the zone is made of: the fields that it has to have, and those that it may have.
struct Wanted {
    name: &'static str,
    needed: &'static [&'static str],
    taken: &'static [&'static str],
}

/// The fields of a DS (RFC 5910, section 4.1).
const SIGNER: [&str; 4] = ["keyTag", "dsAlg", "digestType", "digest"];

/// The fields of a key (RFC 5910, section 4.2).
const KEY: [&str; 4] = ["flags", "protocol", "keyAlg", "pubKey"];

static WANTED: [Wanted; 7] = [
    Wanted {
        name: "domain",
        needed: &[],
        taken: &["originalName"],
    },
    Wanted {
        name: "domainNs",
        needed: &["hostName"],
        taken: &[],
    },
    Wanted {
        name: "domainHostAttr",
        needed: &["hostName", "addr"],
        taken: &["addrVersion"],
    },
    Wanted {
        name: "domainStatuses",
        needed: &["status"],
        taken: &["rgpStatus"],
    },
    Wanted {
        name: "hostAddresses",
        needed: &["addr"],
        taken: &["addrVersion"],
    },
    Wanted {
        name: "secDNS",
        needed: &[],
        taken: &[
            "keyTag",
            "dsAlg",
            "digestType",
            "digest",
            "flags",
            "protocol",
            "keyAlg",
            "pubKey",
        ],
    },
    Wanted {
        name: "nndn",
        needed: &["nameState"],
        taken: &["originalName", "mirroringNS"],
    },
];

/// Refused by `Z4`, where a table or a field that the zone is made of has another name, or a field
/// is missing: the zone would silently lack what it says. Tables without fields have no rows.
pub fn check_shapes(alloc: Global, shapes: &[Shape<'_>]) -> Result<(), Halt> {
    for shape in shapes {
        check_name(alloc, shapes, shape.name)?;
    }
    for shape in shapes {
        if !shape.fields.is_empty() {
            check_fields(alloc, shape)?;
        }
    }
    Ok(())
}

// Refuses a table that looks like a wanted one, which is not there.
fn check_name(alloc: Global, shapes: &[Shape<'_>], name: &str) -> Result<(), Halt> {
    for wanted in &WANTED {
        let wanted = wanted.name;
        let is_there = shapes.iter().any(|shape| shape.name == wanted);
        if !is_there && is_table_like(alloc, name, wanted)? {
            return Err(refused(
                Rule::Fields,
                format!(in alloc; "{name} looks like {wanted}"),
            ));
        }
    }
    Ok(())
}

// Whether a table's name looks like a wanted one: the tables of parent rows have their own names.
fn is_table_like(alloc: Global, name: &str, wanted: &str) -> Result<bool, NoMemory> {
    let other = match name {
        "domainNameServers" => "domainNs",
        "domainNameServersAddresses" => "domainHostAttr",
        "dnssec" => "secDNS",
        _ => name,
    };
    let is_parent = wanted == "domain" || wanted == "nndn";
    Ok(!is_parent && are_alike(alloc, other, wanted)?)
}

fn check_fields(alloc: Global, shape: &Shape<'_>) -> Result<(), Halt> {
    for wanted in &WANTED {
        if wanted.name == shape.name {
            for field in wanted.needed {
                check_field(alloc, shape, field)?;
                check_there(alloc, shape, field)?;
            }
            for field in wanted.taken {
                check_field(alloc, shape, field)?;
            }
        }
    }
    if shape.name == "secDNS" {
        return check_signers(alloc, shape);
    }
    Ok(())
}

fn has_field(shape: &Shape<'_>, field: &str) -> bool {
    shape.fields.iter().any(|it| it.as_str() == field)
}

// Refuses a field that looks like a wanted one, which is not there.
fn check_field(alloc: Global, shape: &Shape<'_>, wanted: &str) -> Result<(), Halt> {
    if has_field(shape, wanted) {
        return Ok(());
    }
    for field in shape.fields {
        if are_alike(alloc, field.as_str(), wanted)? {
            let name = shape.name;
            return Err(refused(
                Rule::Fields,
                format!(in alloc; "{name} {field} looks like {wanted}"),
            ));
        }
    }
    Ok(())
}

fn check_there(alloc: Global, shape: &Shape<'_>, field: &str) -> Result<(), Halt> {
    if has_field(shape, field) {
        return Ok(());
    }
    let name = shape.name;
    Err(refused(Rule::Fields, format!(in alloc; "{name} lacks {field}")))
}

// Refuses DS and keys of which a part of the fields is there, or none.
fn check_signers(alloc: Global, shape: &Shape<'_>) -> Result<(), Halt> {
    let has_ds = has_all(alloc, shape, &SIGNER)?;
    let has_keys = has_all(alloc, shape, &KEY)?;
    if has_ds || has_keys {
        return Ok(());
    }
    Err(refused(
        Rule::Fields,
        format!(in alloc; "secDNS lacks keyTag and pubKey"),
    ))
}

// Whether all of these fields are there. Refused where only some of them are.
fn has_all(alloc: Global, shape: &Shape<'_>, fields: &[&str]) -> Result<bool, Halt> {
    if !fields.iter().any(|field| has_field(shape, field)) {
        return Ok(false);
    }
    for field in fields {
        check_there(alloc, shape, field)?;
    }
    Ok(true)
}

// Whether two names are the same but for the case of letters, signs between words, and an `f` in
// front, which the fields of RFC 9022 have.
fn are_alike(alloc: Global, name: &str, wanted: &str) -> Result<bool, NoMemory> {
    let name = plain(alloc, name)?;
    let wanted = plain(alloc, wanted)?;
    Ok(are_same_plain(&name, &wanted))
}

fn are_same_plain(name: &[u8], wanted: &[u8]) -> bool {
    name == wanted || is_after_f(name, wanted) || is_after_f(wanted, name)
}

// Whether a name is an `f` and another one.
fn is_after_f(name: &[u8], other: &[u8]) -> bool {
    match name {
        [b'f', rest @ ..] => rest == other,
        _ => false,
    }
}

// A name in lower case, without signs between words.
fn plain(alloc: Global, name: &str) -> Result<Vec<u8>, NoMemory> {
    let mut plain = Vec::new(alloc);
    for byte in name.bytes() {
        if !matches!(byte, b'.' | b'_' | b'-') {
            plain.push(byte.to_ascii_lowercase())?;
        }
    }
    Ok(plain)
}
