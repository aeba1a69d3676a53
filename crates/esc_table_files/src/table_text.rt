//! The text of a table.

ghost use Rattle.std.specs.Prelude.{◌≡◌, ◌∷◌, ◌++◌, map, codes, IfOk, OnOk};
ghost use Rattle.std.specs.Prelude.{string_bytes};
ghost use Rattle.esc_csv.specs.Lines.{line_text, text_of};
ghost use Rattle.esc_table_files.specs.Layouts.{row_line, entry_lines};
ghost use Rattle.esc_table_files.specs.Writing.{heading_csv};

use crate::layout::Layout;
use esc_bundle::NoMemory;
use esc_csv::Lines;
use esc_tables::{Key, Object, Row};
use std::alloc::Global;

fn heading_of<'a>(alloc: Global, columns: &'a [String]) -> Result<Vec<&'a [u8]>, NoMemory>
    ensures { IfOk result (λ line. map (λ f. f.now) line.items
        ≡ codes "key" ∷ map string_bytes columns.now) }
{
    let mut line: Vec<&[u8]> = Vec::new(alloc);
    line.push(b"key")?;
    for column in columns {
        line.push(column.as_bytes())?;
    }
    Ok(line)
}

fn line_of<'a>(
    alloc: Global,
    columns: &[String],
    key: &'a Key,
    row: &'a Row,
) -> Result<Vec<&'a [u8]>, NoMemory>
    ensures { IfOk result (λ line. map (λ f. f.now) line.items
        ≡ row_line (map string_bytes columns.now) key.now row.now) }
{
    let mut line: Vec<&[u8]> = Vec::new(alloc);
    line.push(key.text.as_bytes())?;
    for column in columns {
        let text = row.text(column.as_str()).unwrap_or("");
        line.push(text.as_bytes())?;
    }
    Ok(line)
}

fn write_row(
    alloc: Global,
    lines: &mut Lines,
    columns: &[String],
    key: &Key,
    row: &Row,
) -> Result<(), NoMemory>
    ensures { OnOk result (lines.new ≡ lines.old
        ++ line_text (row_line (map string_bytes columns.now) key.now row.now)) }
{
    let line = line_of(alloc, columns, key, row)?;
    lines.write(&line)
}

// Adds the lines of an object's rows in a table.
fn write_rows(
    alloc: Global,
    lines: &mut Lines,
    layout: &Layout,
    key: &Key,
    object: &Object,
) -> Result<(), NoMemory>
    ensures { OnOk result (lines.new ≡ lines.old
        ++ text_of (entry_lines layout.now (key.now, object.now))) }
{
    if key.kind != layout.table.kind {
        return Ok(());
    }
    let Some(name) = &layout.table.child else {
        return write_row(alloc, lines, &layout.columns, key, &object.parent);
    };
    for row in &object.children {
        if row.table() != name.as_str() {
            continue;
        }
        write_row(alloc, lines, &layout.columns, key, row)?;
    }
    Ok(())
}

/// The heading of a table as CSV.
pub(crate) fn heading_text(alloc: Global, layout: &Layout) -> Result<Vec<u8>, NoMemory>
    ensures { IfOk result (λ text. text.items ≡ heading_csv layout.now) }
{
    let heading = heading_of(alloc, &layout.columns)?;
    let mut lines = Lines::new(alloc);
    lines.write(&heading)?;
    lines.into_text()
}

/// An object's rows in a table as CSV (this project's profile): a line for each. The first column is
/// the key; a row that has no cell of a column's field has an empty text there.
pub(crate) fn rows_text(
    alloc: Global,
    layout: &Layout,
    key: &Key,
    object: &Object,
) -> Result<Vec<u8>, NoMemory>
    ensures { IfOk result (λ text. text.items
        ≡ text_of (entry_lines layout.now (key.now, object.now))) }
{
    let mut lines = Lines::new(alloc);
    write_rows(alloc, &mut lines, layout, key, object)?;
    lines.into_text()
}
