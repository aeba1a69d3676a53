//! The text of a description is made here, without a contract: what it says is tested when it is
//! read again (`describe_files`).

use crate::draft::Draft;
use esc_bundle::NoMemory;
use serde_json::json;
use std::alloc::Global;

/// Placeholders for id, type and watermark, which no file says.
const FRONT: &str = "{\"id\":\"ID\",\"type\":\"FULL\",\"watermark\":\"1970-01-01T00:00:00Z\"";

// A text as JSON.
fn push_json(alloc: Global, text: &mut String, word: &str) -> Result<(), NoMemory> {
    let value = json!(in alloc; word)?;
    text.push_str(value.to_string(alloc)?.as_str())?;
    Ok(())
}

// What stands between the items of a list, unless this is the first.
fn push_comma(text: &mut String, comma: &str) -> Result<(), NoMemory> {
    if !text.as_str().ends_with("[") {
        text.push_str(comma)?;
    }
    Ok(())
}

// A member that is a list of texts.
fn push_texts(
    alloc: Global,
    text: &mut String,
    member: &str,
    texts: &[String],
) -> Result<(), NoMemory> {
    text.push_str(member)?;
    text.push_str("[")?;
    for one in texts {
        push_comma(text, ",")?;
        push_json(alloc, text, one.as_str())?;
    }
    text.push_str("]")?;
    Ok(())
}

// The first field that is a key of the table.
fn key_field(draft: &Draft) -> &str {
    let mut names = draft.fields.names.iter();
    names
        .find(|name| draft.table.is_key(name.as_str()))
        .map_or("", |key| key.as_str())
}

fn push_table(alloc: Global, text: &mut String, draft: &Draft) -> Result<(), NoMemory> {
    let (table, key) = (draft.table, key_field(draft));
    let (name, kind) = (table.table_name(), table.kind().name());
    let role = if table.is_parent() { "parent" } else { "child" };
    // The name of its section.
    let front = if table.is_of_deletes() {
        "deleted-"
    } else {
        ""
    };
    let file = name.to_ascii_lowercase(alloc)?;
    let words = format!(in alloc;
        "{{\"name\":\"{name}\",\"kind\":\"{kind}\",\"role\":\"{role}\",\"key\":\"{key}\",\
        \"file\":\"{front}{file}.csv\",\"heading\":true"
    )?;
    push_comma(text, ",\n")?;
    text.push_str(words.as_str())?;
    push_texts(alloc, text, ",\"fields\":", &draft.fields.names)?;
    push_texts(alloc, text, ",\"from\":", &draft.files)?;
    text.push_str("}")?;
    Ok(())
}

fn push_tables(alloc: Global, text: &mut String, drafts: &[Draft]) -> Result<(), NoMemory> {
    text.push_str("[")?;
    for draft in drafts {
        push_table(alloc, text, draft)?;
    }
    text.push_str("]")?;
    Ok(())
}

/// The text of a description that declares these tables of contents, and of deletes.
pub(crate) fn description_of(
    alloc: Global,
    contents: &[Draft],
    deletes: &[Draft],
) -> Result<Vec<u8>, NoMemory> {
    let mut text = String::new(alloc);
    text.push_str(FRONT)?;
    text.push_str(",\n\"contents\":")?;
    push_tables(alloc, &mut text, contents)?;
    text.push_str(",\n\"deletes\":")?;
    push_tables(alloc, &mut text, deletes)?;
    text.push_str("}\n")?;
    Ok(text.into_bytes())
}
