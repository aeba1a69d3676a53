//! The tables that an envelope declares: each function returns what one definition on JSON data
//! gives.

ghost use Rattle.std.specs.Prelude.{◌≡◌, IfOk, map, option_map, string_bytes, count_by};
ghost use Rattle.std.specs.List.{list_all};
ghost use Rattle.serde_json.specs.View.{view};
ghost use Rattle.esc_envelope.specs.DeclaredTables.{all_of, is_table_name_byte, is_table_name};
ghost use Rattle.esc_envelope.specs.DeclaredTables.{name_of, kind_of, parent_of, fields_of};
ghost use Rattle.esc_envelope.specs.DeclaredTables.{key_index, table_of, have_distinct_names};
ghost use Rattle.esc_envelope.specs.DeclaredTables.{is_parent_of, have_one_parent, contents_in};
ghost use Rattle.esc_envelope.specs.DeclaredTables.{deletes_in};

use crate::kind::Kind;
use crate::members::text_at;
use crate::table::Table;
use crate::texts::{array_in, fields_in, place_of};
use esc_bundle::NoMemory;
use serde_json::Value;
use std::alloc::Global;
use std::collections::BTreeSet;

/// The most bytes of a table's name.
pub const LONGEST_TABLE_NAME: usize = 64;

fn is_name_byte(byte: u8) -> bool
    ensures { result ≡ is_table_name_byte byte }
{
    matches!(byte, b'A'..=b'Z' | b'a'..=b'z' | b'0'..=b'9' | b'_')
}

fn are_name_bytes(text: &[u8]) -> bool
    ensures { result ≡ list_all is_table_name_byte text.now }
{
    text.iter().all(|byte| is_name_byte(*byte))
}

fn is_name(text: &str) -> bool
    ensures { result ≡ is_table_name text.now }
{
    if text.is_empty() || text.len() > LONGEST_TABLE_NAME {
        return false;
    }
    are_name_bytes(text.as_bytes())
}

fn name_in(table: &Value) -> Option<&str>
    ensures { option_map (λ t. t.now) result ≡ name_of (view table.now) }
{
    let text = text_at(table, "name")?;
    if is_name(text) { Some(text) } else { None }
}

fn kind_in(table: &Value) -> Option<Kind>
    ensures { result ≡ kind_of (view table.now) }
{
    Kind::from_name(text_at(table, "kind")?)
}

fn parent_in(table: &Value) -> Option<bool>
    ensures { result ≡ parent_of (view table.now) }
{
    match text_at(table, "role")? {
        "parent" => Some(true),
        "child" => Some(false),
        _ => None,
    }
}

fn fields_of(alloc: Global, table: &Value) -> Result<Option<Vec<String>>, NoMemory>
    ensures { IfOk result (λ o. option_map (λ v. map string_bytes v.items) o
        ≡ fields_of (view table.now)) }
{
    let Some(fields) = table.get("fields") else {
        return Ok(None);
    };
    let Some(values) = array_in(fields) else {
        return Ok(None);
    };
    fields_in(alloc, values)
}

fn key_in(table: &Value, fields: &[String]) -> Option<usize>
    ensures { result ≡ key_index (view table.now) (map string_bytes fields.now) }
{
    place_of(fields, text_at(table, "key")?)
}

/// The table that a declaration declares, or `None` if one of its members is not of its form.
#[tactic(auto, unfolding(crate::specs::DeclaredTables::table_of))]
fn table_in(alloc: Global, table: &Value) -> Result<Option<Table>, NoMemory>
    ensures { IfOk result (λ o. o ≡ table_of (view table.now)) }
{
    let Some(name) = name_in(table) else {
        return Ok(None);
    };
    let Some(kind) = kind_in(table) else {
        return Ok(None);
    };
    let Some(parent) = parent_in(table) else {
        return Ok(None);
    };
    let Some(fields) = fields_of(alloc, table)? else {
        return Ok(None);
    };
    let Some(key) = key_in(table, fields.as_slice()) else {
        return Ok(None);
    };
    let Some(file) = text_at(table, "file") else {
        return Ok(None);
    };
    let name = String::from_str(alloc, name)?;
    let file = String::from_str(alloc, file)?;
    Ok(Some(Table {
        name,
        kind,
        parent,
        key,
        fields,
        file,
    }))
}

fn tables_in(alloc: Global, values: &[Value]) -> Result<Option<Vec<Table>>, NoMemory>
    ensures { IfOk result (λ o. option_map (λ v. v.items) o
        ≡ all_of table_of (map view values.now)) }
{
    let mut tables = Vec::new(alloc);
    for value in values {
        let Some(table) = table_in(alloc, value)? else {
            return Ok(None);
        };
        tables.push(table)?;
    }
    Ok(Some(tables))
}

/// Whether no name occurs twice. A set of the names so far makes this n log n.
fn have_distinct_names(alloc: Global, tables: &[Table]) -> Result<bool, NoMemory>
    ensures { IfOk result (λ b. b ≡ have_distinct_names tables.now) }
{
    let mut names = BTreeSet::new(alloc);
    for table in tables {
        if !names.insert(table.name.as_str())? {
            return Ok(false);
        }
    }
    Ok(true)
}

fn is_parent_of(table: &Table, kind: Kind) -> bool
    ensures { result ≡ is_parent_of kind table.now }
{
    table.parent && kind == table.kind
}

fn parents_of(tables: &[Table], kind: Kind) -> usize
    ensures { result ≡ count_by (is_parent_of kind) tables.now }
{
    tables
        .iter()
        .filter(|table| is_parent_of(table, kind))
        .count()
}

#[tactic(auto, unfolding(crate::specs::Kinds::kinds))]
fn have_one_parent(tables: &[Table]) -> bool
    ensures { result ≡ have_one_parent tables.now }
{
    Kind::ALL.iter().all(|kind| parents_of(tables, *kind) <= 1)
}

fn are_parents(tables: &[Table]) -> bool
    ensures { result ≡ list_all (λ t. t.parent) tables.now }
{
    tables.iter().all(|table| table.parent)
}

/// The tables of contents: no two with the same name, and at most one parent table for each kind.
pub(crate) fn contents_in(alloc: Global, values: &[Value]) -> Result<Option<Vec<Table>>, NoMemory>
    ensures { IfOk result (λ o. option_map (λ v. v.items) o
        ≡ contents_in (map view values.now)) }
{
    let Some(tables) = tables_in(alloc, values)? else {
        return Ok(None);
    };
    if have_distinct_names(alloc, tables.as_slice())? && have_one_parent(tables.as_slice()) {
        Ok(Some(tables))
    } else {
        Ok(None)
    }
}

/// The tables of deletes: no two with the same name, and parent tables alone.
pub(crate) fn deletes_in(alloc: Global, values: &[Value]) -> Result<Option<Vec<Table>>, NoMemory>
    ensures { IfOk result (λ o. option_map (λ v. v.items) o
        ≡ deletes_in (map view values.now)) }
{
    let Some(tables) = tables_in(alloc, values)? else {
        return Ok(None);
    };
    if have_distinct_names(alloc, tables.as_slice())? && are_parents(tables.as_slice()) {
        Ok(Some(tables))
    } else {
        Ok(None)
    }
}
