//! Where a text is no envelope.
//!
//! `read_envelope` itself says which member is wrong: each is tested by an envelope in which all
//! others are right. Of a member that occurs twice the last one counts, so a member is put into such
//! an envelope behind all others.

ghost use Rattle.std.specs.Prelude.{◌≤◌, length, IfOk};

use crate::spot::no_spot;
use esc_bundle::{Fault, NoMemory, Refusal};
use esc_envelope::{array_of, read_envelope, text_at};
use serde_json::{Error, Value};
use std::alloc::Global;

/// The members that an envelope has to have, and those that a table has to have.
const RIGHT_HEADER: &str = "\"id\":\"F1\",\"type\":\"FULL\",\"watermark\":\"1970-01-01T00:00:00Z\"";

const RIGHT_TABLE: &str =
    "\"name\":\"t\",\"kind\":\"host\",\"role\":\"parent\",\"fields\":[\"a\"],\"key\":\"a\",\"file\":\"f\"";

/// The members of an envelope, and those of a table, in the order in which they are told.
const MEMBERS: [&str; 8] = [
    "id",
    "type",
    "watermark",
    "prevId",
    "resend",
    "counts",
    "contents",
    "deletes",
];

const TABLE_MEMBERS: [&str; 6] = ["name", "kind", "role", "fields", "key", "file"];

/// Where a text is no envelope.
pub(crate) fn envelope_spot(alloc: Global, json: &[u8]) -> Result<String, NoMemory> {
    match Value::from_slice(alloc, json) {
        Ok(envelope) => member_spot(alloc, &envelope),
        Err(error) => json_spot(alloc, &error),
    }
}

fn json_spot(alloc: Global, error: &Error) -> Result<String, NoMemory> {
    if error.is_memory() {
        return Err(NoMemory);
    }
    let (line, column) = (error.line(), error.column());
    Ok(format!(in alloc; "section 1 envelope.json, line {line} column {column}: no JSON")?)
}

fn member_spot(alloc: Global, envelope: &Value) -> Result<String, NoMemory> {
    for member in MEMBERS {
        if !is_right(alloc, envelope, member)? {
            return Ok(format!(in alloc;
                "section 1 envelope.json, {member}: missing, or not of its form"
            )?);
        }
    }
    for list in ["contents", "deletes"] {
        if let Some(text) = table_spot(alloc, envelope, list)? {
            return Ok(text);
        }
    }
    no_spot(alloc)
}

// Whether a member is there if it has to be, and has its form. (Tables are looked at later.)
fn is_right(alloc: Global, envelope: &Value, member: &str) -> Result<bool, NoMemory> {
    let Some(value) = envelope.get(member) else {
        return Ok(!matches!(member, "id" | "type" | "watermark"));
    };
    let value = value.to_string(alloc)?;
    is_read(alloc, member, value.as_str(), Refusal::WrongMember)
}

// Whether an envelope, right but for this member, does not have this refusal.
fn is_read(alloc: Global, member: &str, value: &str, refusal: Refusal) -> Result<bool, NoMemory> {
    let text = format!(in alloc; "{{{RIGHT_HEADER},{member:?}:{value}}}")?;
    match read_envelope(alloc, text.as_bytes()) {
        Ok(_) => Ok(true),
        Err(Fault::Refused(other)) => Ok(other != refusal),
        Err(Fault::NoMemory) => Err(NoMemory),
    }
}

// Where the tables of contents, or those of deletes, are not declared rightly.
fn table_spot(alloc: Global, envelope: &Value, list: &str) -> Result<Option<String>, NoMemory> {
    let Some(tables) = array_of(envelope, list) else {
        return Ok(None);
    };
    if are_read(alloc, list, tables)? {
        return Ok(None);
    }
    let at = first_refused(alloc, list, tables)?;
    let (before, from) = tables.split_at(at);
    let [table, ..] = from else {
        return Ok(None);
    };
    let number = at.saturating_add(1);
    let what = table_flaw(alloc, list, before, table)?;
    Ok(Some(format!(in alloc; "section 1 envelope.json, {list} table {number}, {what}")?))
}

// Whether these tables are read as those of contents, or of deletes.
fn are_read(alloc: Global, list: &str, tables: &[Value]) -> Result<bool, NoMemory> {
    let mut array = String::from_str(alloc, "[")?;
    for (at, table) in tables.iter().enumerate() {
        array.push_str(if at == 0 { "" } else { "," })?;
        array.push_str(table.to_string(alloc)?.as_str())?;
    }
    array.push_str("]")?;
    is_read(alloc, list, array.as_str(), Refusal::WrongTable)
}

// The index of the first table with which those up to it are refused, where all of them are: the
// search halves what is left, since those up to a later one are refused too.
fn first_refused(alloc: Global, list: &str, tables: &[Value]) -> Result<usize, NoMemory>
    ensures { IfOk result (λ at. at ≤ length tables.now) }
{
    let mut read = 0;
    let mut refused = tables.len();
    while refused - read > 1 {
        let middle = read + (refused - read) / 2;
        if are_read(alloc, list, &tables[..middle])? {
            read = middle;
        } else {
            refused = middle;
        }
    }
    Ok(read)
}

// What is wrong with a table that comes after these: a member of its own, or one of them has its
// name, or is the parent table of its kind.
fn table_flaw(
    alloc: Global,
    list: &str,
    before: &[Value],
    table: &Value,
) -> Result<String, NoMemory> {
    for member in TABLE_MEMBERS {
        if !is_right_in(alloc, list, table, member)? {
            return Ok(format!(in alloc; "{member}: missing, or not of its form")?);
        }
    }
    let name = text_at(table, "name");
    let what = if before.iter().any(|other| text_at(other, "name") == name) {
        "name: that of an earlier table"
    } else {
        "kind: that of an earlier parent table"
    };
    Ok(String::from_str(alloc, what)?)
}

// Whether a member of a table is there and has its form. The key is one of the table's fields; where
// these are tested themselves it is the first.
fn is_right_in(alloc: Global, list: &str, table: &Value, member: &str) -> Result<bool, NoMemory> {
    let Some(value) = table.get(member) else {
        return Ok(false);
    };
    let value = value.to_string(alloc)?;
    let more = match member {
        "fields" => first_as_key(alloc, table)?,
        "key" => own_fields(alloc, table)?,
        _ => String::new(alloc),
    };
    let array = format!(in alloc; "[{{{RIGHT_TABLE},{member:?}:{value}{more}}}]")?;
    is_read(alloc, list, array.as_str(), Refusal::WrongTable)
}

fn first_as_key(alloc: Global, table: &Value) -> Result<String, NoMemory> {
    let Some([first, ..]) = array_of(table, "fields") else {
        return Ok(String::new(alloc));
    };
    let key = first.to_string(alloc)?;
    Ok(format!(in alloc; ",\"key\":{key}")?)
}

fn own_fields(alloc: Global, table: &Value) -> Result<String, NoMemory> {
    match table.get("fields") {
        Some(fields) => {
            let fields = fields.to_string(alloc)?;
            Ok(format!(in alloc; ",\"fields\":{fields}")?)
        }
        None => Ok(String::new(alloc)),
    }
}
