//! The tables of a kind with their columns, from one walk.

ghost use Rattle.std.specs.Prelude.{◌≡◌, List, [], map, IfOk, IfErr, OnOk};
ghost use Rattle.std.specs.List.{list_any};
ghost use Rattle.esc_apply.specs.ObjectStreams.{Entry};
ghost use Rattle.esc_check.specs.ObjectReports.{IfSource, OfSource};
ghost use Rattle.esc_table_files.specs.Gathering.{is_child, with_table, with_tables, with_fields};
ghost use Rattle.esc_table_files.specs.Gathering.{bare_tables};
ghost use Rattle.esc_table_files.specs.Layouts.{names_in, kind_layouts};

use crate::layout::Layout;
use crate::table_name::TableName;
use esc_apply::Objects;
use esc_bundle::NoMemory;
use esc_check::StreamFault;
use esc_envelope::Kind;
use esc_tables::{Key, Object, Row};
use std::alloc::Global;

fn has_table(layouts: &[Layout], name: &str) -> bool
    ensures { result ≡ list_any (is_child name.now) layouts.now }
{
    layouts.iter().any(|layout| layout.table.is_child(name))
}

// Adds the table of child rows of this name, unless it is among them.
fn add_table(
    alloc: Global,
    layouts: &mut Vec<Layout>,
    kind: Kind,
    name: &str,
) -> Result<(), NoMemory>
    ensures { OnOk result (layouts.new.items ≡ with_table kind layouts.old.items name.now) }
{
    if has_table(layouts, name) {
        return Ok(());
    }
    let child = Some(String::from_str(alloc, name)?);
    let table = TableName { kind, child };
    layouts.push(Layout::bare(alloc, table))?;
    Ok(())
}

fn add_row_tables(
    alloc: Global,
    layouts: &mut Vec<Layout>,
    kind: Kind,
    rows: &[Row],
) -> Result<(), NoMemory>
    ensures { OnOk result (layouts.new.items
        ≡ with_tables kind layouts.old.items (map (λ r. r.table) rows.now)) }
{
    for row in rows {
        add_table(alloc, layouts, kind, row.table())?;
    }
    Ok(())
}

// Adds the tables of an object's child rows, if it is of this kind.
fn add_tables(
    alloc: Global,
    layouts: &mut Vec<Layout>,
    kind: Kind,
    key: &Key,
    object: &Object,
) -> Result<(), NoMemory>
    ensures { OnOk result (layouts.new.items
        ≡ with_tables kind layouts.old.items (names_in kind (key.now, object.now))) }
{
    if key.kind != kind {
        return Ok(());
    }
    add_row_tables(alloc, layouts, kind, &object.children)
}

// Adds the fields of an object's rows to those tables that have them.
fn add_all_fields(
    alloc: Global,
    layouts: &mut Vec<Layout>,
    key: &Key,
    object: &Object,
) -> Result<(), NoMemory>
    ensures { OnOk result (layouts.new.items
        ≡ map (with_fields (key.now, object.now)) layouts.old.items) }
{
    for layout in layouts.iter_mut() {
        layout.add_fields(alloc, key, object)?;
    }
    Ok(())
}

fn add_object(
    alloc: Global,
    layouts: &mut Vec<Layout>,
    kind: Kind,
    key: &Key,
    object: &Object,
) -> Result<(), NoMemory>
    ensures { OnOk result (layouts.new.items ≡ map (with_fields (key.now, object.now))
        (with_tables kind layouts.old.items (names_in kind (key.now, object.now)))) }
{
    add_tables(alloc, layouts, kind, key, object)?;
    add_all_fields(alloc, layouts, key, object)
}

// The table of the parent rows alone.
fn parent_layouts(alloc: Global, kind: Kind) -> Result<Vec<Layout>, NoMemory>
    ensures { IfOk result (λ layouts. layouts.items ≡ bare_tables kind []) }
{
    let mut layouts = Vec::new(alloc);
    let table = TableName { kind, child: None };
    layouts.push(Layout::bare(alloc, table))?;
    Ok(layouts)
}

/// The tables of a kind with their columns: that of the parent rows first, which is there without
/// objects too, and then one for each name that child rows have, in the order in which they first
/// come; in each a column for each field that a row has, in that order too. At `Err` the source
/// failed, or it is out of memory.
pub fn layouts_of<O: Objects>(
    alloc: Global,
    objects: &mut O,
    kind: Kind,
) -> Result<Vec<Layout>, StreamFault<O::Error>>
    ensures follows { O.follows objects.old objects.new }
    ensures source { IfErr result (λ fault. IfSource fault (O.has_failed objects.new)) }
    ensures cause { IfErr result (OfSource O.fails) }
    ensures layouts { IfOk result (λ layouts. O.is_honest objects.new → (es : List Entry)
        → O.lists objects.old es
        → layouts.items ≡ kind_layouts kind es) }
{
    let mut layouts = parent_layouts(alloc, kind)?;
    while let Some((key, object)) = objects.next().map_err(StreamFault::Source)? {
        add_object(alloc, &mut layouts, kind, &key, &object)?;
    }
    Ok(layouts)
}
