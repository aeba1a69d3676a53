//! Where the files of a bundle are no rows of its tables.

ghost use Rattle.std.specs.Prelude.{◌≡◌, IfOk, not, is_some, position, count_by};
ghost use Rattle.std.specs.List.{list_any};
ghost use Rattle.std.specs.Str.{bytes_eq};
ghost use Rattle.esc_bundle.specs.Bundle.{view, views};
ghost use Rattle.esc_csv.specs.Records.{records_of};
ghost use Rattle.esc_tables.specs.TableRow.{is_there, is_declared, in_table, is_whole, has_key};
ghost use Rattle.esc_tables.specs.Reading.{tables_of};
ghost use Rattle.esc_pack.specs.RowTests.{passes_test, IsSearched};

use crate::spot::no_spot;
use esc_bundle::{NoMemory, Section};
use esc_csv::{Record, Records};
use esc_envelope::{Envelope, Table};
use esc_tables::{LONGEST_KEY, MOST_ROWS};
use std::alloc::Global;
use std::str;

/// What rows are tested for, in the order of the refusals.
#[derive(Clone, Copy)]
enum RowTest {
    /// U9: a row has as many fields as declared, each of them UTF-8.
    Whole,
    /// U10: its key has 1 to 255 bytes.
    Key,
    /// U11: there are no more than 100,000 before it.
    Count,
}

impl RowTest {
    const ALL: [RowTest; 3] = [RowTest::Whole, RowTest::Key, RowTest::Count];
}

/// What comes of a search in the rows of a file.
#[derive(Drop)]
enum Search {
    /// The row, the field if it is one, and what is wrong with it.
    Found(String),
    /// Nothing, and so many rows.
    Rows(usize),
}

/// Where the files of an envelope are refused.
pub(crate) fn files_spot(
    alloc: Global,
    files: &[Section<'_>],
    envelope: &Envelope,
) -> Result<String, NoMemory> {
    if let Some(text) = undeclared_spot(alloc, files, envelope)? {
        return Ok(text);
    }
    for test in RowTest::ALL {
        if let Some(text) = rows_spot(alloc, files, envelope, test)? {
            return Ok(text);
        }
    }
    no_spot(alloc)
}

// U8: a table without its file, or a section that isn't the file of one table.
fn undeclared_spot(
    alloc: Global,
    files: &[Section<'_>],
    envelope: &Envelope,
) -> Result<Option<String>, NoMemory> {
    if let Some(text) = missing_file(alloc, files, envelope.contents.as_slice(), "contents")? {
        return Ok(Some(text));
    }
    if let Some(text) = missing_file(alloc, files, envelope.deletes.as_slice(), "deletes")? {
        return Ok(Some(text));
    }
    shared_file(alloc, files, envelope)
}

fn is_among(files: &[Section<'_>], name: &str) -> bool
    ensures { result ≡ list_any (λ s. bytes_eq s.name.now name.now) files.now }
{
    files.iter().any(|file| file.name == name)
}

fn is_there(files: &[Section<'_>], table: &Table) -> bool
    ensures { result ≡ is_there (views files.now) table.now }
{
    is_among(files, table.file.as_str())
}

// The index of the first of these tables that is without its file.
fn first_missing(files: &[Section<'_>], tables: &[Table]) -> Option<usize>
    ensures { result ≡ position (λ t. not (is_there (views files.now) t)) tables.now }
{
    tables.iter().position(|table| !is_there(files, table))
}

fn missing_file(
    alloc: Global,
    files: &[Section<'_>],
    tables: &[Table],
    list: &str,
) -> Result<Option<String>, NoMemory> {
    let Some(at) = first_missing(files, tables) else {
        return Ok(None);
    };
    let name = tables.get(at).map_or("", |table| table.file.as_str());
    let number = at.saturating_add(1);
    Ok(Some(format!(in alloc;
        "section 1 envelope.json, {list} table {number}, file: no section {name:?}"
    )?))
}

// Whether a section is the file of exactly one table.
fn is_declared(envelope: &Envelope, file: &Section<'_>) -> bool
    ensures { result ≡ is_declared (tables_of envelope.now) (view file.now) }
{
    tables_of(envelope, file.name) == 1
}

// The index of the first section that isn't.
fn first_shared(files: &[Section<'_>], envelope: &Envelope) -> Option<usize>
    ensures { result ≡ position (λ s. not (is_declared (tables_of envelope.now) (view s)))
        files.now }
{
    files.iter().position(|file| !is_declared(envelope, file))
}

fn shared_file(
    alloc: Global,
    files: &[Section<'_>],
    envelope: &Envelope,
) -> Result<Option<String>, NoMemory> {
    let Some(at) = first_shared(files, envelope) else {
        return Ok(None);
    };
    let (number, name) = (
        section_number(at),
        files.get(at).map_or("", |file| file.name),
    );
    let tables = if tables_of(envelope, name) == 0 {
        "no table"
    } else {
        "two tables"
    };
    Ok(Some(format!(in alloc; "section {number} {name}: the file of {tables}")?))
}

// The number of the section of a file: the envelope is the first.
fn section_number(at: usize) -> usize {
    at.saturating_add(2)
}

// How many tables have this file.
fn tables_of(envelope: &Envelope, name: &str) -> usize
    ensures { result ≡ count_by (λ t. bytes_eq t.file name.now) (tables_of envelope.now) }
{
    let tables = envelope.contents.iter().chain(&envelope.deletes);
    tables.filter(|table| table.file.as_str() == name).count()
}

fn table_of<'a>(envelope: &'a Envelope, name: &str) -> Option<&'a Table> {
    let mut tables = envelope.contents.iter().chain(&envelope.deletes);
    tables.find(|table| table.file.as_str() == name)
}

// The first row, in the order of sections, that fails a test.
fn rows_spot(
    alloc: Global,
    files: &[Section<'_>],
    envelope: &Envelope,
    test: RowTest,
) -> Result<Option<String>, NoMemory> {
    let mut before = 0;
    for (at, file) in files.iter().enumerate() {
        let Some(table) = table_of(envelope, file.name) else {
            continue;
        };
        match row_spot(alloc, file, table, test, before)? {
            Search::Found(row) => {
                let (number, name) = (section_number(at), file.name);
                return Ok(Some(format!(in alloc; "section {number} {name}, {row}")?));
            }
            Search::Rows(rows) => before = rows,
        }
    }
    Ok(None)
}

// The first row of a file that fails a test, with so many rows before the file; else how many there
// are with those of the file. There are fewer than can be counted, of which the contract of `Records`
// says nothing.
fn row_spot(
    alloc: Global,
    file: &Section<'_>,
    table: &Table,
    test: RowTest,
    before: usize,
) -> Result<Search, NoMemory>
    ensures { IfOk result (IsSearched test table.now before (records_of file.now.bytes.now)) }
{
    let mut rows = Records::of(alloc, file.bytes);
    let mut record = Record::new(alloc);
    let mut number = before;
    while rows.next(&mut record)? {
        let Some(next) = number.checked_add(1) else {
            return Err(NoMemory);
        };
        number = next;
        if let Some(what) = row_flaw(alloc, table, &record, test, number)? {
            let row = number - before;
            return Ok(Search::Found(format!(in alloc; "row {row}{what}")?));
        }
    }
    Ok(Search::Rows(number))
}

// What is wrong with a row, the one with this number among all.
fn row_flaw(
    alloc: Global,
    table: &Table,
    line: &Record,
    test: RowTest,
    number: usize,
) -> Result<Option<String>, NoMemory>
    ensures { IfOk result (λ flaw. is_some flaw
        ≡ not (passes_test test (in_table table.now line.now) number)) }
{
    match test {
        RowTest::Whole => width_flaw(alloc, table, line),
        RowTest::Key => key_flaw(alloc, table, line),
        RowTest::Count if number > MOST_ROWS as usize => {
            Ok(Some(String::from_str(alloc, ": more than 100,000 rows")?))
        }
        RowTest::Count => Ok(None),
    }
}

fn width_flaw(alloc: Global, table: &Table, line: &Record) -> Result<Option<String>, NoMemory>
    ensures { IfOk result (λ flaw. is_some flaw ≡ not (is_whole (in_table table.now line.now))) }
{
    let (fields, declared) = (line.len(), table.fields.len());
    if fields != declared {
        return Ok(Some(format!(in alloc;
            ": the number of fields is {fields}, declared {declared}"
        )?));
    }
    if line.is_text() {
        return Ok(None);
    }
    Ok(Some(field_flaw(alloc, table, first_broken(line), "no UTF-8")?))
}

// The index of the first field that is no UTF-8, if there is one.
fn first_broken(line: &Record) -> usize {
    for place in 0..line.len() {
        if str::from_utf8(line.field(place)).is_err() {
            return place;
        }
    }
    0
}

fn key_flaw(alloc: Global, table: &Table, line: &Record) -> Result<Option<String>, NoMemory>
    ensures { IfOk result (λ flaw. is_some flaw ≡ not (has_key (in_table table.now line.now))) }
{
    let key = line.field(table.key);
    if key.is_empty() {
        return Ok(Some(field_flaw(alloc, table, table.key, "an empty key")?));
    }
    if key.len() > LONGEST_KEY {
        return Ok(Some(field_flaw(alloc, table, table.key, "a key of more than 255 bytes")?));
    }
    Ok(None)
}

fn field_flaw(alloc: Global, table: &Table, place: usize, what: &str) -> Result<String, NoMemory> {
    let name = table.fields.get(place).map_or("", |name| name.as_str());
    Ok(format!(in alloc; ", column {name}: {what}")?)
}
