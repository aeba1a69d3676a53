//! The section that is the file of a table.

ghost use Rattle.std.specs.Prelude.{◌≡◌, ◌++◌, count_by, option_map};
ghost use Rattle.std.specs.List.{list_all, list_any, find};
ghost use Rattle.std.specs.Str.{bytes_eq};
ghost use Rattle.esc_bundle.specs.Bundle.{view, views};
ghost use Rattle.esc_tables.specs.TableRow.{bytes_named, is_there, is_declared, are_filed};

use esc_bundle::Section;
use esc_envelope::Table;

fn section_named<'a, 'b>(files: &'b [Section<'a>], name: &str) -> Option<&'b Section<'a>>
    ensures { option_map (λ s. s.now) result
        ≡ find (λ s. bytes_eq s.name.now name.now) files.now }
{
    files.iter().find(|file| file.name == name)
}

/// The bytes of the section with this name; no bytes if there is no such section.
pub fn bytes_named<'a>(files: &[Section<'a>], name: &str) -> &'a [u8]
    ensures { result.now ≡ bytes_named (views files.now) name.now }
{
    match section_named(files, name) {
        Some(file) => file.bytes,
        None => &[],
    }
}

fn is_among(files: &[Section<'_>], name: &str) -> bool
    ensures { result ≡ list_any (λ s. bytes_eq s.name.now name.now) files.now }
{
    files.iter().any(|file| file.name == name)
}

fn is_there(files: &[Section<'_>], table: &Table) -> bool
    ensures { result ≡ is_there (views files.now) table.now }
{
    is_among(files, table.file.as_str())
}

fn are_there(files: &[Section<'_>], tables: &[Table]) -> bool
    ensures { result ≡ list_all (is_there (views files.now)) tables.now }
{
    tables.iter().all(|table| is_there(files, table))
}

fn is_file_of(table: &Table, name: &str) -> bool
    ensures { result ≡ bytes_eq table.now.file name.now }
{
    table.file.as_str() == name
}

fn count_of(tables: &[Table], name: &str) -> usize
    ensures { result ≡ count_by (λ t. bytes_eq t.file name.now) tables.now }
{
    tables
        .iter()
        .filter(|table| is_file_of(table, name))
        .count()
}

fn is_declared(contents: &[Table], deletes: &[Table], file: &Section<'_>) -> bool
    ensures { result ≡ is_declared (contents.now ++ deletes.now) (view file.now) }
{
    count_of(contents, file.name) + count_of(deletes, file.name) == 1
}

fn are_declared(contents: &[Table], deletes: &[Table], files: &[Section<'_>]) -> bool
    ensures { result ≡ list_all (λ s. is_declared (contents.now ++ deletes.now) (view s))
        files.now }
{
    files
        .iter()
        .all(|file| is_declared(contents, deletes, file))
}

/// Whether the file of each table is one of these sections, and each section is the file of exactly
/// one table.
pub fn are_filed(files: &[Section<'_>], contents: &[Table], deletes: &[Table]) -> bool
    ensures { result ≡ are_filed (views files.now) (contents.now ++ deletes.now) }
{
    if !are_there(files, contents) || !are_there(files, deletes) {
        return false;
    }
    are_declared(contents, deletes, files)
}
