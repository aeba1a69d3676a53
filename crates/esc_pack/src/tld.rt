//! The TLDs that bundles name.

ghost use Rattle.std.specs.Prelude.{◌≡◌, IfOk, option_map, option_and_then, string_bytes, is_some};
ghost use Rattle.std.specs.List.{find};
ghost use Rattle.serde_json.specs.View.{view};
ghost use Rattle.esc_bundle.specs.Bundle.{views};
ghost use Rattle.esc_envelope.specs.Envelope.{json_of};
ghost use Rattle.esc_pack.specs.NamedTlds.{envelope_tld, sections_tld, body_tld, are_other};
ghost use Rattle.esc_pack.specs.NamedTlds.{first_against};

use crate::sources::parsed;
use esc_bundle::{Fault, NoMemory, Section, sections};
use esc_envelope::text_at;
use serde_json::Value;
use std::alloc::Global;
use std::marker::Model;

/// A bundle by its name, and the TLD that its envelope names, if it does.
#[derive(Drop)]
pub struct NamedTld {
    pub bundle: String,
    pub tld: Option<String>,
}

impl Model for NamedTld {
    ghost use Rattle.std.specs.Prelude.{option_map, string_bytes};
    ghost use Rattle.esc_pack.specs.NamedTlds.{NamedTldValue};

    ghost Value = { NamedTldValue };

    ghost view = { λ n. record {
      bundle = string_bytes n.bundle;
      tld = option_map string_bytes n.tld;
    } };
}

fn envelope_tld(alloc: Global, envelope: &Value) -> Result<Option<String>, NoMemory>
    ensures { IfOk result (λ tld. option_map string_bytes tld ≡ envelope_tld (view envelope.now)) }
{
    let Some(tld) = text_at(envelope, "tld") else {
        return Ok(None);
    };
    if tld.is_empty() {
        return Ok(None);
    }
    Ok(Some(String::from_str(alloc, tld)?))
}

fn json_tld(alloc: Global, json: &[u8]) -> Result<Option<String>, NoMemory>
    ensures { IfOk result (λ tld. option_map string_bytes tld
        ≡ option_and_then envelope_tld (json_of json.now)) }
{
    match parsed(alloc, json)? {
        Some(envelope) => envelope_tld(alloc, &envelope),
        None => Ok(None),
    }
}

fn sections_tld(alloc: Global, sections: &[Section<'_>]) -> Result<Option<String>, NoMemory>
    ensures { IfOk result (λ tld. option_map string_bytes tld
        ≡ sections_tld (views sections.now)) }
{
    match sections {
        [first, ..] => json_tld(alloc, first.bytes),
        [] => Ok(None),
    }
}

/// The TLD that the envelope of a bundle names: its member `tld`, a text that isn't empty (RFC 9022,
/// section 5.7, and this project's profile). `None` also where the body is no bundle.
pub fn tld_of_body(alloc: Global, body: &[u8]) -> Result<Option<String>, NoMemory>
    ensures { IfOk result (λ tld. option_map string_bytes tld ≡ body_tld body.now) }
{
    match sections(alloc, body) {
        Ok(sections) => sections_tld(alloc, &sections),
        Err(Fault::Refused(_)) => Ok(None),
        Err(Fault::NoMemory) => Err(NoMemory),
    }
}

fn are_other(tld: &Option<String>, other: &Option<String>) -> bool
    ensures { result ≡ are_other (option_map string_bytes tld.now)
        (option_map string_bytes other.now) }
{
    match (tld, other) {
        (Some(tld), Some(other)) => !tld.eq_ignore_ascii_case(other.as_str()),
        _ => false,
    }
}

fn names_tld(bundle: &NamedTld) -> bool
    ensures { result ≡ is_some bundle.now.tld }
{
    match &bundle.tld {
        Some(_) => true,
        None => false,
    }
}

// The first of these bundles that names a TLD.
fn first_with_tld(bundles: &[NamedTld]) -> Option<&NamedTld>
    ensures { option_map (λ b. b.now) result ≡ find (λ b. is_some b.tld) bundles.now }
{
    bundles.iter().find(|bundle| names_tld(bundle))
}

/// The first of these bundles that names a TLD, if the next one names another. The case of ASCII
/// letters doesn't count.
pub fn first_against<'a>(before: &'a [NamedTld], next: &Option<String>) -> Option<&'a NamedTld>
    ensures { option_map (λ b. b.now) result ≡ first_against before.now
        (option_map string_bytes next.now) }
{
    let first = first_with_tld(before)?;
    if are_other(&first.tld, next) {
        Some(first)
    } else {
        None
    }
}
