//! Replies as JSON.

ghost use Rattle.std.specs.Prelude.{◌≡◌, IfOk, OnOk, string_bytes, option_map};
ghost use Rattle.serde_json.specs.View.{view, members_view};
ghost use Rattle.esc_reports.specs.ReplyText.{text_data, number_data, copy_data, with_reply};
ghost use Rattle.esc_reports.specs.ReplyText.{with_row, with_holding, reply_data, reply_text};
ghost use Rattle.esc_reports.specs.Words.{verdict_fault};

use crate::words::{copy_word, fault_of, verdict_word};
use esc_bundle::NoMemory;
use esc_store::{Reply, Verdict};
use serde_json::{Map, Value, json, put};
use std::alloc::{AllocError, Global};

/// The JSON text of a reply (RFC 8259; the members are this project's profile): an object of the
/// members `copy`, `fault`, `id`, `number`, `orphans`, `receipt`, `resend` and `verdict`, in this
/// order and without white space. A value that isn't there is null.
pub fn reply_text(alloc: Global, reply: &Reply) -> Result<String, NoMemory>
    ensures text { IfOk result (λ text. string_bytes text ≡ reply_text reply.now) }
{
    let value = reply_value(alloc, reply)?;
    Ok(value.to_string(alloc)?)
}

fn reply_value(alloc: Global, reply: &Reply) -> Result<Value, AllocError>
    ensures { IfOk result (λ value. view value ≡ reply_data reply.now) }
{
    let mut members = Map::new(alloc);
    put_receipt(alloc, &mut members, reply)?;
    put_row(alloc, &mut members, reply)?;
    put_holding(alloc, &mut members, reply)?;
    Ok(Value::Object(members))
}

// Puts receipt, number, verdict and fault.
fn put_receipt(
    alloc: Global,
    members: &mut Map<String, Value>,
    reply: &Reply,
) -> Result<(), AllocError>
    ensures { OnOk result (members_view members.new.entries
        ≡ with_reply reply.now (members_view members.old.entries)) }
{
    put(members, alloc, "receipt", Value::from(reply.receipt))?;
    let number = json!(in alloc; reply.number.as_str())?;
    put(members, alloc, "number", number)?;
    let verdict = json!(in alloc; verdict_word(reply.verdict))?;
    put(members, alloc, "verdict", verdict)?;
    let fault = fault_value(alloc, reply.verdict)?;
    put(members, alloc, "fault", fault)
}

// Puts id and resend, those of the row that lists the body.
fn put_row(alloc: Global, members: &mut Map<String, Value>, reply: &Reply) -> Result<(), AllocError>
    ensures { OnOk result (members_view members.new.entries
        ≡ with_row reply.now (members_view members.old.entries)) }
{
    let id = text_value(alloc, &reply.id)?;
    put(members, alloc, "id", id)?;
    put(members, alloc, "resend", resend_value(reply.resend))
}

// Puts copy and orphans, which a held deposit alone has.
fn put_holding(
    alloc: Global,
    members: &mut Map<String, Value>,
    reply: &Reply,
) -> Result<(), AllocError>
    ensures { OnOk result (members_view members.new.entries
        ≡ with_holding reply.now (members_view members.old.entries)) }
{
    let copy = copy_value(alloc, reply.again)?;
    put(members, alloc, "copy", copy)?;
    put(members, alloc, "orphans", number_value(reply.orphans))
}

fn copy_value(alloc: Global, again: Option<bool>) -> Result<Value, AllocError>
    ensures { IfOk result (λ value. view value ≡ copy_data again) }
{
    match again {
        Some(again) => json!(in alloc; copy_word(again)),
        None => Ok(Value::Null),
    }
}

fn fault_value(alloc: Global, verdict: Verdict) -> Result<Value, AllocError>
    ensures { IfOk result (λ value. view value ≡ text_data (verdict_fault verdict)) }
{
    let fault = fault_of(alloc, verdict)?;
    text_value(alloc, &fault)
}

fn text_value(alloc: Global, text: &Option<String>) -> Result<Value, AllocError>
    ensures { IfOk result (λ value. view value
        ≡ text_data (option_map string_bytes text.now)) }
{
    match text {
        Some(text) => json!(in alloc; text.as_str()),
        None => Ok(Value::Null),
    }
}

fn number_value(number: Option<u64>) -> Value
    ensures { view result ≡ number_data number }
{
    match number {
        Some(number) => Value::from(number),
        None => Value::Null,
    }
}

fn resend_value(resend: Option<u32>) -> Value
    ensures { view result ≡ number_data resend }
{
    match resend {
        Some(resend) => Value::from(u64::from(resend)),
        None => Value::Null,
    }
}
