//! The tables that are proposed of a folder's files, and the files that are in none.

ghost use Rattle.std.specs.Prelude.{◌≡◌, IfOk, map, filter_map, option_map, string_bytes};
ghost use Rattle.std.specs.List.{list_all, zip};
ghost use Rattle.std.specs.Str.{bytes_eq};
ghost use Rattle.esc_pack.specs.Describing.{heading_in, table_fields, are_same, has_fields};
ghost use Rattle.esc_pack.specs.Describing.{name_in, draft_of, is_declared_draft, is_filed};
ghost use Rattle.esc_pack.specs.Describing.{are_proposed, why_apart, why_of, unknown_of};
ghost use Rattle.esc_pack.specs.Describing.{table_named};

use crate::describe::table_named;
use crate::heading::{Fields, first_heading, heading_in};
use crate::known_table::KnownTable;
use crate::proposal::{FolderFile, Unknown, Why};
use crate::sources::Source;
use esc_bundle::NoMemory;
use esc_envelope::Table;
use std::alloc::Global;
use std::marker::Model;

/// A table that is proposed.
#[derive(Drop)]
pub(crate) struct Draft {
    pub table: KnownTable,
    /// The fields of its first file with a heading.
    pub fields: Fields,
    /// The names of its files, each of which has this heading, in their order.
    pub files: Vec<String>,
}

impl Model for Draft {
    ghost use Rattle.std.specs.Prelude.{map, string_bytes};
    ghost use Rattle.esc_pack.specs.Describing.{DraftValue};

    ghost Value = { DraftValue };

    ghost view = { λ d. record {
      table = d.table;
      fields = d.fields;
      files = map string_bytes d.files.items;
    } };
}

// The fields of a table: those of its first file with a heading.
fn fields_in(
    alloc: Global,
    files: &[FolderFile<'_>],
    table: KnownTable,
) -> Result<Option<Fields>, NoMemory>
    ensures { IfOk result (λ fields. fields ≡ table_fields files.now table) }
{
    for file in files {
        if let Some(heading) = heading_in(alloc, table, file)? {
            return Ok(Some(heading));
        }
    }
    Ok(None)
}

fn are_equal(names: &[String], others: &[String]) -> bool
    ensures { result ≡ list_all (λ p. bytes_eq (string_bytes p.0) (string_bytes p.1))
        (zip names.now others.now) }
{
    names
        .iter()
        .zip(others)
        .all(|(name, other)| name.as_str() == other.as_str())
}

// Whether two lists of names are the same.
fn are_same(names: &[String], others: &[String]) -> bool
    ensures { result ≡ are_same (map string_bytes names.now) (map string_bytes others.now) }
{
    names.len() == others.len() && are_equal(names, others)
}

// Whether there is a heading, of these fields.
fn has_fields(fields: &Fields, heading: &Option<Fields>) -> bool
    ensures { result ≡ has_fields fields.now heading.now }
{
    match heading {
        Some(heading) => are_same(&heading.names, &fields.names),
        None => false,
    }
}

// The name of a file of a table with these fields.
fn name_in(
    alloc: Global,
    table: KnownTable,
    fields: &Fields,
    file: &FolderFile<'_>,
) -> Result<Option<String>, NoMemory>
    ensures { IfOk result (λ name.
        option_map string_bytes name ≡ name_in table fields.now file.now) }
{
    let heading = heading_in(alloc, table, file)?;
    if has_fields(fields, &heading) {
        Ok(Some(String::from_str(alloc, file.name)?))
    } else {
        Ok(None)
    }
}

// The names of the files of a table that have these fields.
fn names_in(
    alloc: Global,
    files: &[FolderFile<'_>],
    table: KnownTable,
    fields: &Fields,
) -> Result<Vec<String>, NoMemory>
    ensures { IfOk result (λ names.
        map string_bytes names.items ≡ filter_map (name_in table fields.now) files.now) }
{
    let mut names = Vec::new(alloc);
    for file in files {
        let Some(name) = name_in(alloc, table, fields, file)? else {
            continue;
        };
        names.push(name)?;
    }
    Ok(names)
}

// The table that is proposed of files, if one of them has a heading of it.
fn draft_of(
    alloc: Global,
    files: &[FolderFile<'_>],
    table: KnownTable,
) -> Result<Option<Draft>, NoMemory>
    ensures { IfOk result (λ draft. draft ≡ draft_of files.now table) }
{
    let Some(fields) = fields_in(alloc, files, table)? else {
        return Ok(None);
    };
    let files = names_in(alloc, files, table, &fields)?;
    Ok(Some(Draft {
        table,
        fields,
        files,
    }))
}

/// Those of these tables that are proposed of files.
pub(crate) fn drafts_of(
    alloc: Global,
    files: &[FolderFile<'_>],
    tables: &[KnownTable],
) -> Result<Vec<Draft>, NoMemory>
    ensures { IfOk result (λ drafts. drafts.items ≡ filter_map (draft_of files.now) tables.now) }
{
    let mut drafts = Vec::new(alloc);
    for table in tables {
        let Some(draft) = draft_of(alloc, files, *table)? else {
            continue;
        };
        drafts.push(draft)?;
    }
    Ok(drafts)
}

// Why a file with this heading isn't in a table of these fields.
fn why_apart(heading: Option<Fields>, fields: &Option<Fields>) -> Option<Why>
    ensures { result ≡ why_apart heading fields.now }
{
    let Some(heading) = heading else {
        return Some(Why::Heading);
    };
    if has_fields(&heading, fields) {
        None
    } else {
        Some(Why::Other)
    }
}

// Why a file isn't named in the table that its name stands for, or `None` if it is.
fn why_of(
    alloc: Global,
    files: &[FolderFile<'_>],
    file: &FolderFile<'_>,
) -> Result<Option<Why>, NoMemory>
    ensures { IfOk result (λ why.
        why ≡ why_of files.now file.now (table_named file.now.name)) }
{
    let Some(table) = table_named(file.name) else {
        return Ok(Some(Why::Name));
    };
    let heading = first_heading(alloc, table, file.bytes)?;
    Ok(why_apart(heading, &fields_in(alloc, files, table)?))
}

fn unknown_of(
    alloc: Global,
    files: &[FolderFile<'_>],
    file: &FolderFile<'_>,
) -> Result<Option<Unknown>, NoMemory>
    ensures { IfOk result (λ unknown. unknown ≡ unknown_of files.now file.now) }
{
    match why_of(alloc, files, file)? {
        Some(why) => {
            let name = String::from_str(alloc, file.name)?;
            Ok(Some(Unknown { name, why }))
        }
        None => Ok(None),
    }
}

/// The files that aren't named, each with the reason.
pub(crate) fn unknown_files(
    alloc: Global,
    files: &[FolderFile<'_>],
) -> Result<Vec<Unknown>, NoMemory>
    ensures { IfOk result (λ unknown.
        unknown.items ≡ filter_map (unknown_of files.now) files.now) }
{
    let mut unknown = Vec::new(alloc);
    for file in files {
        let Some(one) = unknown_of(alloc, files, file)? else {
            continue;
        };
        unknown.push(one)?;
    }
    Ok(unknown)
}

// Whether a table is declared as proposed: its name, its kind, its role, one of its keys and just
// its fields.
fn is_declared(draft: &Draft, table: &Table) -> bool
    ensures { result ≡ is_declared_draft (draft.now, table.now) }
{
    let known = draft.table;
    table.name.as_str() == known.table_name()
        && known.kind() == table.kind
        && table.parent == known.is_parent()
        && known.is_key(table.fields[table.key].as_str())
        && are_same(&table.fields, &draft.fields.names)
}

// Whether the files of a table are named as proposed.
fn is_filed(draft: &Draft, source: &Source) -> bool
    ensures { result ≡ is_filed (draft.now, source.now) }
{
    source.has_heading && are_same(&source.files, &draft.files)
}

fn are_declared(drafts: &[Draft], tables: &[Table]) -> bool
    ensures { result ≡ list_all is_declared_draft (zip drafts.now tables.now) }
{
    drafts
        .iter()
        .zip(tables)
        .all(|(draft, table)| is_declared(draft, table))
}

fn are_filed(drafts: &[Draft], sources: &[Source]) -> bool
    ensures { result ≡ list_all is_filed (zip drafts.now sources.now) }
{
    drafts
        .iter()
        .zip(sources)
        .all(|(draft, source)| is_filed(draft, source))
}

/// Whether tables are declared, and their files named, as proposed.
pub(crate) fn are_proposed(drafts: &[Draft], tables: &[Table], sources: &[Source]) -> bool
    ensures { result ≡ are_proposed drafts.now tables.now sources.now }
{
    tables.len() == drafts.len()
        && sources.len() == drafts.len()
        && are_declared(drafts, tables)
        && are_filed(drafts, sources)
}
