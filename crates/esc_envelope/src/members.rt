//! The members of an envelope outside its tables: each function returns what one definition on JSON
//! data gives.

ghost use Rattle.std.specs.Prelude.{◌≡◌, IfOk, option_map};
ghost use Rattle.serde_json.specs.View.{view};
ghost use Rattle.esc_envelope.specs.Members.{text_at, id_of, type_of, watermark_member, prev_of};
ghost use Rattle.esc_envelope.specs.Members.{prev_from, id_if_any, resend_member, resend_from};
ghost use Rattle.esc_envelope.specs.Members.{header_of};
ghost use Rattle.esc_envelope.specs.Told.{told_value};

use crate::header::Header;
use crate::id::is_id;
use crate::moment::watermark;
use crate::place::{DepositType, Place};
use esc_bundle::NoMemory;
use serde_json::Value;
use std::alloc::Global;

/// The greatest resend.
pub const MOST_RESEND: u32 = 999_999;

/// The text of a member of a JSON object; `None` if the member is missing or no text. Doesn't
/// allocate.
pub fn text_at<'a>(object: &'a Value, name: &str) -> Option<&'a str>
    ensures { option_map (λ t. t.now) result ≡ text_at name.now (view object.now) }
{
    object.get(name)?.as_str()
}

fn id_in(envelope: &Value) -> Option<&str>
    ensures { option_map (λ t. t.now) result ≡ id_of (view envelope.now) }
{
    let text = text_at(envelope, "id")?;
    if is_id(text) { Some(text) } else { None }
}

fn type_in(envelope: &Value) -> Option<DepositType>
    ensures { result ≡ type_of (view envelope.now) }
{
    DepositType::from_name(text_at(envelope, "type")?)
}

fn moment_in(envelope: &Value) -> Option<i64>
    ensures { result ≡ watermark_member (view envelope.now) }
{
    watermark(text_at(envelope, "watermark")?)
}

fn id_if_any(text: &str) -> Option<Option<&str>>
    ensures { option_map (λ o. option_map (λ t. t.now) o) result ≡ id_if_any text.now }
{
    if text.is_empty() {
        return Some(None);
    }
    if is_id(text) { Some(Some(text)) } else { None }
}

fn prev_from(value: &Value) -> Option<Option<&str>>
    ensures { option_map (λ o. option_map (λ t. t.now) o) result
        ≡ prev_from (Some (view value.now)) }
{
    if value.is_null() {
        return Some(None);
    }
    id_if_any(value.as_str()?)
}

fn prev_in(envelope: &Value) -> Option<Option<&str>>
    ensures { option_map (λ o. option_map (λ t. t.now) o) result ≡ prev_of (view envelope.now) }
{
    match envelope.get("prevId") {
        None => Some(None),
        Some(value) => prev_from(value),
    }
}

fn resend_from(value: &Value) -> Option<u32>
    ensures { result ≡ resend_from (Some (view value.now)) }
{
    if value.is_null() {
        return Some(0);
    }
    let times = value.as_u64()?;
    if times <= MOST_RESEND as u64 {
        Some(times as u32)
    } else {
        None
    }
}

fn resend_in(envelope: &Value) -> Option<u32>
    ensures { result ≡ resend_member (view envelope.now) }
{
    match envelope.get("resend") {
        None => Some(0),
        Some(value) => resend_from(value),
    }
}

/// What a header says, as slices of the envelope's texts.
#[derive(Clone, Copy)]
struct Told<'a> {
    id: &'a str,
    place: Place,
    prev: Option<&'a str>,
    resend: u32,
}

#[tactic(auto, unfolding(crate::specs::Members::header_of))]
fn told_in(envelope: &Value) -> Option<Told<'_>>
    ensures { option_map told_value result ≡ header_of (view envelope.now) }
{
    let id = id_in(envelope)?;
    let kind = type_in(envelope)?;
    let watermark = moment_in(envelope)?;
    let prev = prev_in(envelope)?;
    let resend = resend_in(envelope)?;
    Some(Told {
        id,
        place: Place { watermark, kind },
        prev,
        resend,
    })
}

/// The header, or `None` if one of its members is not of its form.
pub(crate) fn header_in(alloc: Global, envelope: &Value) -> Result<Option<Header>, NoMemory>
    ensures { IfOk result (λ o. o ≡ header_of (view envelope.now)) }
{
    let Some(told) = told_in(envelope) else {
        return Ok(None);
    };
    let header = Header::new(alloc, told.id, told.place, told.prev, told.resend)?;
    Ok(Some(header))
}
