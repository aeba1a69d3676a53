//! Which columns the tables of a registry have.

ghost use Rattle.std.specs.Prelude.{◌≡◌, map, filter, OnOk, string_bytes};
ghost use Rattle.std.specs.List.{flat_map};
ghost use Rattle.esc_check.specs.Export.{is_of_table};
ghost use Rattle.esc_table_files.specs.Gathering.{with_names, bare, with_fields};
ghost use Rattle.esc_table_files.specs.Layouts.{row_fields};

use crate::gathering::add_name;
use crate::table_name::TableName;
use esc_bundle::NoMemory;
use esc_tables::{Key, Object, Row};
use std::alloc::Global;
use std::marker::Model;

/// A table with its columns.
#[derive(Debug, Drop)]
pub struct Layout {
    pub table: TableName,
    /// The names of the columns after the first, which has the key: each is that of a field.
    pub columns: Vec<String>,
}

impl Model for Layout {
    ghost use Rattle.std.specs.Prelude.{map, string_bytes};
    ghost use Rattle.esc_table_files.specs.Layouts.{LayoutValue};

    ghost Value = { LayoutValue };

    ghost view = { λ l. record { table = l.table; columns = map string_bytes l.columns.items } };
}

fn add_row_fields(alloc: Global, columns: &mut Vec<String>, row: &Row) -> Result<(), NoMemory>
    ensures { OnOk result (map string_bytes columns.new.items
        ≡ with_names (map string_bytes columns.old.items) (row_fields row.now)) }
{
    for at in 0..row.len() {
        if let Some((field, _)) = row.cell(at) {
            add_name(alloc, columns, field)?;
        }
    }
    Ok(())
}

// Adds the fields of the child rows of this name.
fn add_child_fields(
    alloc: Global,
    columns: &mut Vec<String>,
    name: &str,
    rows: &[Row],
) -> Result<(), NoMemory>
    ensures { OnOk result (map string_bytes columns.new.items
        ≡ with_names (map string_bytes columns.old.items)
        (flat_map row_fields (filter (is_of_table name.now) rows.now))) }
{
    for row in rows {
        if row.table() != name {
            continue;
        }
        add_row_fields(alloc, columns, row)?;
    }
    Ok(())
}

impl Layout {
    /// A table without columns but that of the key.
    pub(crate) fn bare(alloc: Global, table: TableName) -> Layout
        ensures { result ≡ bare table }
    {
        Layout {
            table,
            columns: Vec::new(alloc),
        }
    }

    /// Adds the fields of an object's rows.
    pub(crate) fn add_fields(
        &mut self,
        alloc: Global,
        key: &Key,
        object: &Object,
    ) -> Result<(), NoMemory>
        ensures { OnOk result (self.new ≡ with_fields (key.now, object.now) self.old) }
    {
        if key.kind != self.table.kind {
            return Ok(());
        }
        match &self.table.child {
            None => add_row_fields(alloc, &mut self.columns, &object.parent),
            Some(name) => {
                add_child_fields(alloc, &mut self.columns, name.as_str(), &object.children)
            }
        }
    }
}
