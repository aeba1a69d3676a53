//! The rows of an agent's files as one text.

ghost use Rattle.std.specs.Prelude.{◌≡◌, ◌++◌, ◌∷◌, ◌<◌, ◌==◌, ◌&&◌, map, length, true, false};
ghost use Rattle.std.specs.Prelude.{IfOk, IfErr, OnOk, [], take, string_bytes};
ghost use Rattle.std.specs.List.{list_all, zip};
ghost use Rattle.csv.specs.Reading.{is_bom};
ghost use Rattle.esc_csv.specs.Lines.{Line, line_text, text_of};
ghost use Rattle.esc_csv.specs.Records.{IsUnmarked};
ghost use Rattle.esc_pack.specs.GivenRows.{file_rows, given_rows, has_width};
ghost use Rattle.esc_pack.specs.GivenRows.{is_table_heading, IsHeaded, IsReadBack};
ghost use Rattle.esc_pack.specs.KnownFields.{names_field};
ghost use Rattle.esc_pack.specs.Bundling.{AreHeaded};
ghost use Rattle.esc_pack.specs.BundleRefusals.{OrNoMemory, is_table_row, IsRowRefusal};
ghost use Rattle.esc_pack.specs.BundleRefusals.{IsFileRefusal, IsTableRefusal};

use crate::bundle_fault::BundleFault;
use crate::given::TableFiles;
use crate::known_field::is_named;
use esc_bundle::NoMemory;
use esc_csv::{Lines, Record, Records, written_lines_read_back};
use esc_envelope::Table;
use std::alloc::Global;

/// Where a file stands: its table among those declared, and its place among that table's files.
#[derive(Clone, Copy)]
struct FilePlace {
    table: usize,
    file: usize,
}

/// A file of a table, and whether it begins with a heading.
#[derive(Clone, Copy)]
struct GivenFile<'a> {
    text: &'a [u8],
    has_heading: bool,
}

// The fields of a record.
fn fields_of(alloc: Global, line: &Record) -> Result<Vec<&[u8]>, NoMemory>
    ensures { IfOk result (λ fields. map (λ f. f.now) fields.items ≡ line.now) }
{
    let mut fields = Vec::new(alloc);
    for place in 0..line.len() {
        fields.push(line.field(place))?;
    }
    Ok(fields)
}

// Writes a record as a line.
fn write_record(alloc: Global, lines: &mut Lines, line: &Record) -> Result<(), NoMemory>
    ensures { OnOk result (lines.new ≡ lines.old ++ line_text line.now) }
{
    let fields = fields_of(alloc, line)?;
    lines.write(&fields)
}

// Whether a record has so many fields, all of them UTF-8.
fn is_row(line: &Record, width: usize) -> bool
    ensures { result ≡ is_table_row width line.now }
{
    line.len() == width && line.is_text()
}

// Writes the rows that are left, each of which has so many fields, all of them UTF-8. There are
// fewer than can be counted, of which the contract of `Records` says nothing.
fn write_rows(
    alloc: Global,
    lines: &mut Lines,
    rows: &mut Records<'_>,
    width: usize,
    place: FilePlace,
) -> Result<(), BundleFault>
    requires { 0 < width }
    ensures written { OnOk result (lines.new ≡ lines.old ++ text_of rows.old) }
    ensures whole { OnOk result (list_all (has_width width) rows.old ≡ true) }
    ensures refused { IfErr result
        (OrNoMemory (IsRowRefusal width rows.old place.table place.file)) }
{
    let FilePlace { table, file } = place;
    let mut record = Record::new(alloc);
    let mut row: usize = 0;
    while rows.next(&mut record)? {
        let Some(number) = row.checked_add(1) else {
            return Err(BundleFault::NoMemory);
        };
        row = number;
        if !is_row(&record, width) {
            return Err(BundleFault::Row { table, file, row });
        }
        write_record(alloc, lines, &record)?;
    }
    Ok(())
}

// Whether these names are those of the declared fields, as far as there are both.
fn are_named(table: &str, names: &[&[u8]], fields: &[String]) -> bool
    ensures { result ≡ list_all (λ p. names_field table.now (p.0.now, string_bytes p.1))
        (zip names.now fields.now) }
{
    names
        .iter()
        .zip(fields)
        .all(|(name, field)| is_named(table, name, field.as_bytes()))
}

// Whether there are as many, too.
fn are_all_named(table: &str, names: &[&[u8]], fields: &[String]) -> bool
    ensures { result ≡ ((length names.now == length fields.now)
        && list_all (λ p. names_field table.now (p.0.now, string_bytes p.1))
        (zip names.now fields.now)) }
{
    names.len() == fields.len() && are_named(table, names, fields)
}

// Whether a record is a heading of a table.
fn is_heading(alloc: Global, table: &Table, line: &Record) -> Result<bool, NoMemory>
    ensures { IfOk result (λ is. is ≡ is_table_heading table.now line.now) }
{
    let names = fields_of(alloc, line)?;
    Ok(are_all_named(&table.name, &names, &table.fields))
}

// Reads a heading of a table, and returns whether there was one.
fn skip_heading(alloc: Global, rows: &mut Records<'_>, table: &Table) -> Result<bool, NoMemory>
    ensures read { IfOk result (λ is. is ≡ true → (row : Line)
        × (rows.old ≡ row ∷ rows.new) × (is_table_heading table.now row ≡ true)) }
    ensures other { IfOk result (λ is. is ≡ false → (row : Line) → take 1 rows.old ≡ row ∷ []
        → is_table_heading table.now row ≡ true → ⊥) }
{
    let mut record = Record::new(alloc);
    if !rows.next(&mut record)? {
        return Ok(false);
    }
    is_heading(alloc, table, &record)
}

// Writes the rows of a file.
fn write_file(
    alloc: Global,
    lines: &mut Lines,
    table: &Table,
    file: GivenFile<'_>,
    place: FilePlace,
) -> Result<(), BundleFault>
    ensures written { OnOk result (lines.new
        ≡ lines.old ++ text_of (file_rows file.entry.has_heading file.entry.text.now)) }
    ensures whole { OnOk result (list_all (has_width (length table.now.fields))
        (file_rows file.entry.has_heading file.entry.text.now) ≡ true) }
    ensures headed { OnOk result (file.entry.has_heading ≡ true
        → IsHeaded table.now file.entry.text.now) }
    ensures refused { IfErr result (OrNoMemory (IsFileRefusal table.now file.entry.has_heading
        file.entry.text.now place.table place.file)) }
{
    let mut rows = Records::of(alloc, file.text);
    if file.has_heading && !skip_heading(alloc, &mut rows, table)? {
        return Err(BundleFault::Heading {
            table: place.table,
            file: place.file,
        });
    }
    write_rows(alloc, lines, &mut rows, table.fields.len(), place)
}

// Writes the rows of files, one after the other.
fn write_files(
    alloc: Global,
    lines: &mut Lines,
    table: &Table,
    given: &TableFiles<'_>,
    number: usize,
) -> Result<(), BundleFault>
    ensures written { OnOk result (lines.new ≡ lines.old ++ text_of (given_rows given.now)) }
    ensures whole { OnOk result (list_all (has_width (length table.now.fields))
        (given_rows given.now) ≡ true) }
    ensures headed { OnOk result (AreHeaded (table.now, given.now)) }
    ensures refused { IfErr result
        (OrNoMemory (IsTableRefusal (table.now, given.now) number)) }
{
    for (at, text) in given.files.iter().enumerate() {
        let place = FilePlace {
            table: number,
            file: at,
        };
        let file = GivenFile {
            text,
            has_heading: given.has_heading,
        };
        write_file(alloc, lines, table, file, place)?;
    }
    Ok(())
}

// Whether these are the bytes of a byte order mark.
fn is_mark(first: u8, second: u8, third: u8) -> bool
    ensures { result ≡ is_bom first second third }
{
    first == 0xEF && second == 0xBB && third == 0xBF
}

// Whether a text begins with a byte order mark.
fn is_marked(text: &[u8]) -> bool
    ensures none { result ≡ false → IsUnmarked text.now }
    ensures one { result ≡ true → IsUnmarked text.now → ⊥ }
{
    if text.len() < 3 {
        return false;
    }
    is_mark(text[0], text[1], text[2])
}

/// The rows of a table's files as a text, which is read as just these rows.
pub(crate) fn table_text(
    alloc: Global,
    table: &Table,
    given: &TableFiles<'_>,
    number: usize,
) -> Result<Vec<u8>, BundleFault>
    ensures text { IfOk result (λ text. text.items ≡ text_of (given_rows given.now)) }
    ensures read { OnOk result (IsReadBack given.now) }
    ensures headed { OnOk result (AreHeaded (table.now, given.now)) }
    ensures refused { IfErr result
        (OrNoMemory (IsTableRefusal (table.now, given.now) number)) }
{
    written_lines_read_back();
    let mut lines = Lines::new(alloc);
    write_files(alloc, &mut lines, table, given, number)?;
    let text = lines.into_text()?;
    if is_marked(&text) {
        return Err(BundleFault::Marked { table: number });
    }
    Ok(text)
}
