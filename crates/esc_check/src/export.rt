//! The export of all objects of a kind.

ghost use Rattle.std.specs.Prelude.{◌≡◌, ◌+◌, [], ◌<◌, ◌^◌, ◌∷◌, ◌++◌, List, length, count_by};
ghost use Rattle.std.specs.Prelude.{IfOk, IfErr, OnOk, string_bytes};
ghost use Rattle.std.specs.Fmt.{decimal};
ghost use Rattle.std.specs.Io.KnownBytes.{Appends};
ghost use Rattle.esc_apply.specs.ObjectStreams.{Entry};
ghost use Rattle.esc_envelope.specs.Kinds.{kind_name, is_kind};
ghost use Rattle.esc_csv.specs.Lines.{line_text, text_of};
ghost use Rattle.esc_check.specs.Export.{export_heading, row_lines, is_of_table, child_lines};
ghost use Rattle.esc_check.specs.Export.{object_lines, export_lines, export_text};
ghost use Rattle.esc_check.specs.ExportFaults.{IfExportSource, OfExportSource};

use crate::export_fault::ExportFault;
use esc_apply::Objects;
use esc_bundle::NoMemory;
use esc_csv::Lines;
use esc_envelope::Kind;
use esc_tables::{Key, Object, Row};
use std::alloc::Global;
use std::io::Write;

/// Writes the export of a kind as CSV (this project's profile): a heading, and then the objects in
/// the byte order of their keys; of an object the parent row first, with number 0, then its child
/// rows, each with its number among the object's rows of its table, from 1; a line for each cell, in
/// the declared order. It allocates for the lines of one object at a time. At `Err` a part of the
/// text may be written.
pub fn write_export<O: Objects, W: Write>(
    alloc: Global,
    output: &mut W,
    objects: &mut O,
    kind: Kind,
) -> Result<(), ExportFault<O::Error>>
    ensures follows { O.follows objects.old objects.new }
    ensures source { IfErr result (λ fault. IfExportSource fault (O.has_failed objects.new)) }
    ensures cause { IfErr result (OfExportSource O.fails) }
    ensures text { OnOk result (O.is_honest objects.new → (es : List Entry)
        → O.lists objects.old es
        → Appends (W.contents output.old) (W.contents output.new) (export_text kind es)) }
{
    let heading = heading_text(alloc)?;
    output.write_all(&heading)?;
    while let Some((key, object)) = objects.next().map_err(ExportFault::Source)? {
        let text = object_text(alloc, &key, &object, kind)?;
        output.write_all(&text)?;
    }
    Ok(())
}

fn heading_text(alloc: Global) -> Result<Vec<u8>, NoMemory>
    ensures { IfOk result (λ text. text.items ≡ line_text export_heading) }
{
    let mut lines = Lines::new(alloc);
    write_heading(&mut lines)?;
    lines.into_text()
}

// The lines of an object, or none if it is of another kind.
fn object_text(alloc: Global, key: &Key, object: &Object, kind: Kind) -> Result<Vec<u8>, NoMemory>
    ensures { IfOk result (λ text. text.items
        ≡ text_of (export_lines kind ((key.now, object.now) ∷ []))) }
{
    let mut lines = Lines::new(alloc);
    if is_of(key, kind) {
        write_object(alloc, &mut lines, key, object)?;
    }
    lines.into_text()
}

fn is_of(key: &Key, kind: Kind) -> bool
    ensures { result ≡ is_kind key.now.kind kind }
{
    key.kind == kind
}

fn write_heading(lines: &mut Lines) -> Result<(), NoMemory>
    ensures { OnOk result (lines.new ≡ lines.old ++ line_text export_heading) }
{
    lines.write(&[b"kind", b"key", b"table", b"row", b"field", b"value"])
}

fn write_object(
    alloc: Global,
    lines: &mut Lines,
    key: &Key,
    object: &Object,
) -> Result<(), NoMemory>
    ensures { OnOk result (lines.new ≡ lines.old ++ text_of (object_lines key.now object.now)) }
{
    write_row(alloc, lines, key, 0, &object.parent)?;
    write_children(alloc, lines, key, &object.children)
}

fn write_children(
    alloc: Global,
    lines: &mut Lines,
    key: &Key,
    children: &[Row],
) -> Result<(), NoMemory>
    ensures { OnOk result (lines.new
        ≡ lines.old ++ text_of (child_lines key.now [] children.now)) }
{
    let mut table = "";
    let mut number = 0;
    for (index, row) in children.iter().enumerate() {
        number = number_behind(&children[..index], table, number, row.table());
        table = row.table();
        write_row(alloc, lines, key, number, row)?;
    }
    Ok(())
}

// The number of a row of `table` that comes after these rows: one more than their rows of that
// table. `number` is how many of them are of the table `last`, that of the last one. Where rows are
// grouped by table, as those of a deposit are, each table is counted once.
fn number_behind(earlier: &[Row], last: &str, number: usize, table: &str) -> usize
    requires known { number ≡ count_by (is_of_table last.now) earlier.now }
    requires room { length earlier.now + 1 < 2 ^ 64 }
    ensures { result ≡ count_by (is_of_table table.now) earlier.now + 1 }
{
    if last == table {
        return number + 1;
    }
    count_in(earlier, table) + 1
}

fn count_in(rows: &[Row], table: &str) -> usize
    ensures { result ≡ count_by (is_of_table table.now) rows.now }
{
    rows.iter().filter(|row| row.table() == table).count()
}

fn decimal_text(alloc: Global, number: usize) -> Result<String, NoMemory>
    ensures { IfOk result (λ text. string_bytes text ≡ decimal number) }
{
    Ok(format!(in alloc; "{number}")?)
}

fn write_row(
    alloc: Global,
    lines: &mut Lines,
    key: &Key,
    number: usize,
    row: &Row,
) -> Result<(), NoMemory>
    ensures { OnOk result (lines.new ≡ lines.old ++ text_of (row_lines key.now number row.now)) }
{
    let text = decimal_text(alloc, number)?;
    for at in 0..row.len() {
        if let Some(cell) = row.cell(at) {
            write_cell(lines, key, row, text.as_str(), cell)?;
        }
    }
    Ok(())
}

// Writes the line of a cell, a field's name and its text, in the row with this number.
fn write_cell<'x>(
    lines: &mut Lines,
    key: &'x Key,
    row: &'x Row,
    number: &'x str,
    cell: (&'x str, &'x str),
) -> Result<(), NoMemory>
    ensures { OnOk result (lines.new
        ≡ lines.old ++ line_text (kind_name key.now.kind ∷ key.now.text ∷ row.now.table ∷ number.now
        ∷ cell.entry.0.now ∷ cell.entry.1.now ∷ [])) }
{
    let kind: &'x str = key.kind.name();
    let (field, value) = cell;
    lines.write(&[
        kind.as_bytes(),
        key.text.as_bytes(),
        row.table().as_bytes(),
        number.as_bytes(),
        field.as_bytes(),
        value.as_bytes(),
    ])
}
