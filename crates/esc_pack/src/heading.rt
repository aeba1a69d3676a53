//! The first row of a file, as the heading of a table.

ghost use Rattle.std.specs.Prelude.{◌≡◌, ◌==◌, ◌&&◌, nat_le, IfOk, map, length, count_by};
ghost use Rattle.std.specs.Prelude.{string_bytes, true};
ghost use Rattle.std.specs.List.{list_all, list_any};
ghost use Rattle.std.specs.Str.{bytes_eq, is_utf8};
ghost use Rattle.esc_envelope.specs.Id.{is_id};
ghost use Rattle.esc_pack.specs.KnownFields.{desk_field};
ghost use Rattle.esc_pack.specs.KnownTables.{table_name, is_key};
ghost use Rattle.esc_pack.specs.Describing.{first_row, if_fields_of, heading_fields, heading_in};

use crate::known_field::desk_text;
use crate::known_table::{KnownTable, is_file_of};
use crate::proposal::FolderFile;
use esc_bundle::NoMemory;
use esc_csv::{Record, Records};
use esc_envelope::{MOST_FIELDS, is_id};
use std::alloc::Global;
use std::marker::Model;

/// The fields of a table, by the desk's names. Contracts see the list of them.
#[derive(Drop)]
pub(crate) struct Fields {
    pub names: Vec<String>,
}

impl Model for Fields {
    ghost use Rattle.std.specs.Prelude.{List, ℕ, map, string_bytes};

    ghost Value = { List (List ℕ) };

    ghost view = { λ f. map string_bytes f.names.items };
}

// The first row of a text; an empty one where it has none.
fn first_row(alloc: Global, text: &[u8]) -> Result<Record, NoMemory>
    ensures { IfOk result (λ row. row ≡ first_row text.now) }
{
    let mut rows = Records::of(alloc, text);
    let mut row = Record::new(alloc);
    if rows.next(&mut row)? {
        return Ok(row);
    }
    Ok(Record::new(alloc))
}

// The names of a row in UTF-8, by the desk's.
fn desk_names(alloc: Global, table: &str, row: &Record) -> Result<Vec<String>, NoMemory>
    requires { list_all is_utf8 row.now ≡ true }
    ensures { IfOk result (λ names.
        map string_bytes names.items ≡ map (desk_field table.now) row.now) }
{
    let mut names = Vec::new(alloc);
    for place in 0..row.len() {
        names.push(String::from_str(alloc, desk_text(table, row.text(place)))?)?;
    }
    Ok(names)
}

// How often a name is there.
fn count_of(name: &str, names: &[String]) -> usize
    ensures { result ≡ count_by (λ other. bytes_eq (string_bytes other) name.now) names.now }
{
    names.iter().filter(|other| other.as_str() == name).count()
}

// Whether each name is there once.
fn are_distinct(names: &[String]) -> bool
    ensures { result ≡ list_all (λ name.
        count_by (λ other. bytes_eq (string_bytes other) (string_bytes name)) names.now == 1)
        names.now }
{
    names.iter().all(|name| count_of(name.as_str(), names) == 1)
}

fn are_ids(names: &[String]) -> bool
    ensures { result ≡ list_all (λ name. is_id (string_bytes name)) names.now }
{
    names.iter().all(|name| is_id(name.as_str()))
}

fn has_key(table: KnownTable, names: &[String]) -> bool
    ensures { result ≡ list_any (λ name. is_key table (string_bytes name)) names.now }
{
    names.iter().any(|name| table.is_key(name.as_str()))
}

// Whether names are the fields of a table.
fn are_fields_of(table: KnownTable, names: &[String]) -> bool
    ensures { result ≡ (nat_le (length names.now) 64
        && (list_all (λ name. is_id (string_bytes name)) names.now
        && (list_all (λ name.
        count_by (λ other. bytes_eq (string_bytes other) (string_bytes name)) names.now == 1)
        names.now && list_any (λ name. is_key table (string_bytes name)) names.now))) }
{
    names.len() <= MOST_FIELDS && are_ids(names) && are_distinct(names) && has_key(table, names)
}

// Names as the fields of a table, if they are.
fn if_fields_of(table: KnownTable, names: Vec<String>) -> Option<Fields>
    ensures { result ≡ if_fields_of table (map string_bytes names.items) }
{
    if are_fields_of(table, &names) {
        Some(Fields { names })
    } else {
        None
    }
}

// The fields that a row has as the heading of a table, if it is one.
fn heading_of(alloc: Global, table: KnownTable, row: &Record) -> Result<Option<Fields>, NoMemory>
    ensures { IfOk result (λ fields. fields ≡ heading_fields table row.now) }
{
    if !row.is_text() {
        return Ok(None);
    }
    let names = desk_names(alloc, table.table_name(), row)?;
    Ok(if_fields_of(table, names))
}

/// The fields that the first row of a file has as the heading of a table, if it is one.
pub(crate) fn first_heading(
    alloc: Global,
    table: KnownTable,
    bytes: &[u8],
) -> Result<Option<Fields>, NoMemory>
    ensures { IfOk result (λ fields. fields ≡ heading_fields table (first_row bytes.now)) }
{
    let row = first_row(alloc, bytes)?;
    heading_of(alloc, table, &row)
}

/// The fields of a file of a table, if it is one by its name, and begins with a heading.
pub(crate) fn heading_in(
    alloc: Global,
    table: KnownTable,
    file: &FolderFile<'_>,
) -> Result<Option<Fields>, NoMemory>
    ensures { IfOk result (λ fields. fields ≡ heading_in table file.now) }
{
    if is_file_of(table.file_stem().as_bytes(), file.name.as_bytes()) {
        first_heading(alloc, table, file.bytes)
    } else {
        Ok(None)
    }
}
