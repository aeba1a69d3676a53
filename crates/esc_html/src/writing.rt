//! Writes elements, and a page around them.

ghost use Rattle.std.specs.Prelude.{◌≡◌, ◌++◌, OnOk, IfOk, codes};
ghost use Rattle.std.specs.List.{flat_map};
ghost use Rattle.esc_html.specs.Markup.{given, attribute_text, element_text, page_front, page_text};
ghost use Rattle.esc_html.specs.Markup.{value_text};
ghost use Rattle.esc_html.specs.Names.{tag_name};

use crate::attribute::Attribute;
use crate::escape::push_escaped;
use crate::tag::Tag;
use crate::value::{Value, push_value};
use esc_bundle::NoMemory;
use std::alloc::Global;

// Adds bytes as they are.
fn push(bytes: &mut Vec<u8>, more: &str) -> Result<(), NoMemory>
    ensures { OnOk result (bytes.new.items ≡ bytes.old.items ++ more.now) }
{
    bytes.extend_from_slice(more.as_bytes())?;
    Ok(())
}

fn push_attribute(
    alloc: Global,
    bytes: &mut Vec<u8>,
    attribute: Attribute,
    value: Value<'_>,
) -> Result<(), NoMemory>
    ensures { OnOk result (bytes.new.items
        ≡ bytes.old.items ++ attribute_text (attribute, value_text value.entry)) }
{
    push(bytes, attribute.front())?;
    push_value(alloc, bytes, value)?;
    push(bytes, "\"")
}

fn push_attributes(
    alloc: Global,
    bytes: &mut Vec<u8>,
    attributes: &[(Attribute, Value<'_>)],
) -> Result<(), NoMemory>
    ensures { OnOk result (bytes.new.items
        ≡ bytes.old.items ++ flat_map attribute_text (given attributes.now)) }
{
    for (attribute, value) in attributes {
        push_attribute(alloc, bytes, *attribute, *value)?;
    }
    Ok(())
}

// Adds the tag with which an element begins.
fn push_start(
    alloc: Global,
    bytes: &mut Vec<u8>,
    tag: Tag,
    attributes: &[(Attribute, Value<'_>)],
) -> Result<(), NoMemory>
    ensures { OnOk result (bytes.new.items ≡ bytes.old.items ++ codes "<" ++ tag_name tag
        ++ flat_map attribute_text (given attributes.now) ++ codes ">") }
{
    push(bytes, "<")?;
    push(bytes, tag.name())?;
    push_attributes(alloc, bytes, attributes)?;
    push(bytes, ">")
}

/// Adds an element around what is in it.
pub(crate) fn push_element(
    alloc: Global,
    bytes: &mut Vec<u8>,
    tag: Tag,
    attributes: &[(Attribute, Value<'_>)],
    inside: &[u8],
) -> Result<(), NoMemory>
    ensures { OnOk result (bytes.new.items
        ≡ bytes.old.items ++ element_text tag (given attributes.now) inside.now) }
{
    push_start(alloc, bytes, tag, attributes)?;
    bytes.extend_from_slice(inside)?;
    push(bytes, "</")?;
    push(bytes, tag.name())?;
    push(bytes, ">")
}

// What stands before the title of a page.
#[tactic(auto, unfolding(crate::specs::Markup::page_front))]
fn page_front() -> &'static str
    ensures { result.now ≡ page_front }
{
    "<!DOCTYPE html>\n<html lang=\"en\"><head><meta charset=\"utf-8\"><meta name=\"viewport\" content=\"width=device-width, initial-scale=1\"><meta http-equiv=\"Content-Security-Policy\" content=\"default-src 'none'; style-src 'unsafe-inline'\"><title>"
}

/// A page with this title, this style and this body.
pub(crate) fn page_of(
    alloc: Global,
    title: &str,
    style: &str,
    body: &[u8],
) -> Result<Vec<u8>, NoMemory>
    ensures { IfOk result (λ page. page.items ≡ page_text title.now style.now body.now) }
{
    let mut page = Vec::from_slice(alloc, page_front().as_bytes())?;
    push_escaped(&mut page, title.as_bytes())?;
    push(&mut page, "</title><style>")?;
    push_escaped(&mut page, style.as_bytes())?;
    push(&mut page, "</style></head><body>")?;
    page.extend_from_slice(body)?;
    push(&mut page, "</body></html>\n")?;
    Ok(page)
}
