//! The dates of an object (V5 to V7).

ghost use Rattle.std.specs.Prelude.{◌≡◌, ◌++◌, OnOk, IfOk, string_bytes};
ghost use Rattle.esc_envelope.specs.Watermark.{printed};
ghost use Rattle.esc_check.specs.Fields.{created, expires};
ghost use Rattle.esc_check.specs.Gathered.{is_known_after, is_known_before, is_malformed};
ghost use Rattle.esc_check.specs.Gathered.{late_findings, early_findings, malformed_findings};
ghost use Rattle.esc_check.specs.Gathered.{moment_findings, form_findings};

use crate::field::{created, expires};
use crate::finding::{Breach, Finding, add};
use crate::rule::Rule;
use esc_bundle::NoMemory;
use esc_envelope::{watermark as moment_of, watermark_text};
use esc_tables::{Key, Object};
use std::alloc::Global;

/// A watermark, in nanoseconds since 1970-01-01T00:00:00Z, with its text.
#[derive(Drop)]
pub struct Limit {
    pub moment: i64,
    pub text: String,
}

/// A watermark with its text, which is empty outside the years 1970 to 2261.
pub fn limit_at(alloc: Global, watermark: i64) -> Result<Limit, NoMemory>
    ensures moment { IfOk result (λ limit. limit.moment ≡ watermark) }
    ensures text { IfOk result (λ limit. string_bytes limit.text ≡ printed watermark) }
{
    let text = match watermark_text(alloc, watermark)? {
        Some(text) => text,
        None => String::new(alloc),
    };
    Ok(Limit {
        moment: watermark,
        text,
    })
}

fn is_after(date: Option<i64>, watermark: i64) -> bool
    ensures { result ≡ is_known_after date watermark }
{
    match date {
        Some(date) => watermark < date,
        None => false,
    }
}

fn is_before(expires: Option<i64>, created: Option<i64>) -> bool
    ensures { result ≡ is_known_before expires created }
{
    match (expires, created) {
        (Some(expires), Some(created)) => expires < created,
        (Some(_), None) | (None, Some(_)) | (None, None) => false,
    }
}

fn is_malformed(text: &str) -> bool
    ensures { result ≡ is_malformed text.now }
{
    !text.is_empty() && moment_of(text).is_none()
}

fn add_late(
    alloc: Global,
    found: &mut Vec<Finding>,
    limit: &Limit,
    key: &Key,
    created: &str,
) -> Result<(), NoMemory>
    ensures { OnOk result (found.new.items ≡ found.old.items
        ++ late_findings limit.now.moment (string_bytes limit.now.text) key.now created.now) }
{
    if is_after(moment_of(created), limit.moment) {
        let breach = Breach {
            rule: Rule::CreatedBefore,
            field: "crDate",
            value: created,
            other: limit.text.as_str(),
        };
        return add(alloc, found, key, breach);
    }
    Ok(())
}

fn add_early(
    alloc: Global,
    found: &mut Vec<Finding>,
    key: &Key,
    expires: &str,
    created: &str,
) -> Result<(), NoMemory>
    ensures { OnOk result (found.new.items ≡ found.old.items
        ++ early_findings key.now expires.now created.now) }
{
    if is_before(moment_of(expires), moment_of(created)) {
        let breach = Breach {
            rule: Rule::ExpiresAfter,
            field: "exDate",
            value: expires,
            other: created,
        };
        return add(alloc, found, key, breach);
    }
    Ok(())
}

fn add_malformed(
    alloc: Global,
    found: &mut Vec<Finding>,
    key: &Key,
    field: &str,
    text: &str,
) -> Result<(), NoMemory>
    ensures { OnOk result (found.new.items ≡ found.old.items
        ++ malformed_findings key.now field.now text.now) }
{
    if is_malformed(text) {
        let breach = Breach {
            rule: Rule::DateForm,
            field,
            value: text,
            other: "",
        };
        return add(alloc, found, key, breach);
    }
    Ok(())
}

/// Adds the findings V5 and V6 of an object's dates.
pub fn check_moments(
    alloc: Global,
    found: &mut Vec<Finding>,
    limit: &Limit,
    key: &Key,
    object: &Object,
) -> Result<(), NoMemory>
    ensures { OnOk result (found.new.items ≡ found.old.items
        ++ moment_findings limit.now.moment (string_bytes limit.now.text) key.now
        (created key.now object.now) (expires key.now object.now)) }
{
    let creation = created(key, object);
    add_late(alloc, found, limit, key, creation)?;
    add_early(alloc, found, key, expires(key, object), creation)
}

/// Adds the findings V7 of an object's dates.
pub fn check_forms(
    alloc: Global,
    found: &mut Vec<Finding>,
    key: &Key,
    object: &Object,
) -> Result<(), NoMemory>
    ensures { OnOk result (found.new.items ≡ found.old.items
        ++ form_findings key.now (created key.now object.now) (expires key.now object.now)) }
{
    add_malformed(alloc, found, key, "crDate", created(key, object))?;
    add_malformed(alloc, found, key, "exDate", expires(key, object))
}
