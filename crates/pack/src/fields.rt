//! Fields that look as if they were those by which the desk finds links, statuses and dates, and
//! have other names: the desk doesn't look at them, so a wrong deposit would look right.

use crate::stop::Stop;
use esc_bundle::Fault;
use esc_envelope::{Table, read_envelope};
use esc_pack::KnownField;

/// Such fields of the tables of contents that a description declares, a line for each.
pub fn unseen_fields(rt: &HostRuntime, description: &[u8]) -> Result<String, Stop> {
    let mut lines = String::new(rt.alloc());
    match read_envelope(rt.alloc(), description) {
        Ok(envelope) => {
            for table in &envelope.contents {
                push_unseen(rt, &mut lines, table)?;
            }
            Ok(lines)
        }
        Err(Fault::Refused(_)) => Ok(lines),
        Err(Fault::NoMemory) => Err(Stop::NoMemory),
    }
}

fn push_unseen(rt: &HostRuntime, lines: &mut String, table: &Table) -> Result<(), Stop> {
    for field in &table.fields {
        if let Some(known) = alike(rt, table, field.as_str())? {
            let (table, name) = (table.name.as_str(), known.desk_name());
            let line = format!(in rt.alloc();
                "unknown field {field:?} of table {table}: the desk looks for {name}\n"
            )?;
            lines.push_str(line.as_str())?;
        }
    }
    Ok(())
}

// The field that the desk knows by another name which is like this one, if any.
fn alike(rt: &HostRuntime, table: &Table, field: &str) -> Result<Option<KnownField>, Stop> {
    for known in KnownField::ALL {
        if known.desk_name() == field {
            return Ok(None);
        }
    }
    for known in KnownField::ALL {
        if known.is_in(table.name.as_str()) && is_like(rt, known, field)? {
            return Ok(Some(known));
        }
    }
    Ok(None)
}

fn is_like(rt: &HostRuntime, known: KnownField, field: &str) -> Result<bool, Stop> {
    let letters = letters_of(rt, field)?;
    Ok(
        letters == letters_of(rt, known.desk_name())?
            || letters == letters_of(rt, known.model_name())?,
    )
}

// The letters and digits of a name, in lower case.
fn letters_of(rt: &HostRuntime, name: &str) -> Result<Vec<u8>, Stop> {
    let mut letters = Vec::new(rt.alloc());
    for byte in name.as_bytes() {
        if byte.is_ascii_alphanumeric() {
            letters.push(byte.to_ascii_lowercase())?;
        }
    }
    Ok(letters)
}
