//! Lists of texts.

ghost use Rattle.std.specs.Prelude.{◌≡◌, IfOk, map, option_map, position, string_bytes};
ghost use Rattle.std.specs.List.{list_any};
ghost use Rattle.std.specs.Str.{bytes_eq};
ghost use Rattle.serde_json.specs.View.{view};
ghost use Rattle.esc_envelope.specs.Members.{array_in, array_of};
ghost use Rattle.esc_envelope.specs.DeclaredTables.{all_of, field_of, fields_in, are_distinct};

use crate::id::is_id;
use esc_bundle::NoMemory;
use serde_json::Value;
use std::alloc::Global;

/// The most fields of a table.
pub const MOST_FIELDS: usize = 64;

/// The values of a JSON array, in order; `None` if the value is no array. Doesn't allocate.
pub fn array_in(value: &Value) -> Option<&[Value]>
    ensures { option_map (λ values. map view values.now) result ≡ array_in (view value.now) }
{
    Some(value.as_array()?.as_slice())
}

/// The values of a member that is a JSON array, in order, and no values if the member is missing;
/// `None` if it is no array. Doesn't allocate.
pub fn array_of<'a>(envelope: &'a Value, name: &str) -> Option<&'a [Value]>
    ensures { option_map (λ values. map view values.now) result
        ≡ array_of name.now (view envelope.now) }
{
    match envelope.get(name) {
        None => Some(&[]),
        Some(value) => array_in(value),
    }
}

fn is_among(text: &str, others: &[String]) -> bool
    ensures { result ≡ list_any (λ other. bytes_eq (string_bytes other) text.now) others.now }
{
    others.iter().any(|other| other.as_str() == text)
}

fn are_distinct(texts: &[String]) -> bool
    ensures { result ≡ are_distinct (map string_bytes texts.now) }
{
    for (i, text) in texts.iter().enumerate() {
        if is_among(text.as_str(), &texts[i + 1..]) {
            return false;
        }
    }
    true
}

/// The index of a text among others, from 0.
pub(crate) fn place_of(texts: &[String], text: &str) -> Option<usize>
    ensures { result ≡ position (λ other. bytes_eq (string_bytes other) text.now) texts.now }
{
    texts.iter().position(|other| other.as_str() == text)
}

fn field_in(value: &Value) -> Option<&str>
    ensures { option_map (λ t. t.now) result ≡ field_of (view value.now) }
{
    let text = value.as_str()?;
    if is_id(text) { Some(text) } else { None }
}

fn all_fields(alloc: Global, values: &[Value]) -> Result<Option<Vec<String>>, NoMemory>
    ensures { IfOk result (λ o. option_map (λ v. map string_bytes v.items) o
        ≡ all_of field_of (map view values.now)) }
{
    let mut fields = Vec::new(alloc);
    for value in values {
        let Some(field) = field_in(value) else {
            return Ok(None);
        };
        fields.push(String::from_str(alloc, field)?)?;
    }
    Ok(Some(fields))
}

/// The names of 1 to 64 fields, none twice.
pub(crate) fn fields_in(alloc: Global, values: &[Value]) -> Result<Option<Vec<String>>, NoMemory>
    ensures { IfOk result (λ o. option_map (λ v. map string_bytes v.items) o
        ≡ fields_in (map view values.now)) }
{
    if values.is_empty() || values.len() > MOST_FIELDS {
        return Ok(None);
    }
    let Some(fields) = all_fields(alloc, values)? else {
        return Ok(None);
    };
    Ok(are_distinct(fields.as_slice()).then_some(fields))
}
