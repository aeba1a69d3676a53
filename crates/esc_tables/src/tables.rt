//! The rows of declared tables, tested and read with the keys of their objects in one pass.
//!
//! A row that isn't whole ends the pass, since its fault is the least. After a wrong key, or after
//! too many rows, later rows are still tested, as one of them may not be whole, but no row is kept
//! any more: so no more rows are kept than a bundle may have.

ghost use Rattle.std.specs.Prelude.{◌≡◌, ◌++◌, ◌∷◌, [], ℕ, true, Ok, Err, IfOk, IfErr, OnOk, map};
ghost use Rattle.std.specs.Prelude.{filter, not};
ghost use Rattle.esc_bundle.specs.declared.refusal.Refusal.{Refusal};
ghost use Rattle.esc_bundle.specs.Bundle.{views};
ghost use Rattle.esc_tables.specs.TableRow.{table_rows, rows_in, in_table, key_of, keyed};
ghost use Rattle.esc_tables.specs.Reading.{check_rows, by_name};
ghost use Rattle.esc_tables.specs.Survey.{AreSurveyed, IsFaultOf};

use crate::files::bytes_named;
use crate::key::Key;
use crate::object::Row;
use crate::order::child_tables;
use crate::row::FromRow;
use crate::survey::Survey;
use esc_bundle::{Fault, Section};
use esc_csv::{Record, Records};
use esc_envelope::Table;
use std::alloc::Global;

// Whether the file of a table has no byte, and so no row.
fn is_empty(files: &[Section<'_>], table: &Table) -> bool
    ensures { result ≡ true → table_rows (views files.now) table.now ≡ [] }
{
    bytes_named(files, table.file.as_str()).is_empty()
}

// Notes one more row of a table, and appends what is read of it to `found` if the survey is right
// after it.
fn read_row<T: FromRow>(
    shared: &T::Shared,
    table: &Table,
    row: &Record,
    survey: Survey,
    found: &mut Vec<T>,
) -> Result<Survey, Fault>
    requires { T.is_shared shared.now table.now }
    ensures read { IfOk result (λ s. AreSurveyed T.of_row (in_table table.now row.now ∷ [])
        (survey, found.old.items) (s, found.new.items)) }
    ensures refused { IfErr result (IsFaultOf (in_table table.now row.now ∷ [])) }
{
    let survey = survey.note(table, row)?;
    if survey.is_right() {
        let alloc = *found.allocator();
        found.push(T::read(alloc, shared, table, row)?)?;
    }
    Ok(survey)
}

// The same of the rows that are still to be read. What is read of them is all there if the survey
// after them is right.
fn read_records<T: FromRow>(
    alloc: Global,
    table: &Table,
    rows: &mut Records<'_>,
    mut survey: Survey,
    found: &mut Vec<T>,
) -> Result<Survey, Fault>
    ensures read { IfOk result (λ s. AreSurveyed T.of_row (map (in_table table.now) rows.old)
        (survey, found.old.items) (s, found.new.items)) }
    ensures refused { IfErr result (IsFaultOf (map (in_table table.now) rows.old)) }
{
    let shared = T::shared_in(alloc, table)?;
    let mut row = Record::new(alloc);
    while rows.next(&mut row)? {
        survey = read_row(&shared, table, &row, survey, found)?;
    }
    Ok(survey)
}

// The same of the rows of a table. It may be empty: many are, and to set up a reader costs more
// than a row.
fn read_table<T: FromRow>(
    alloc: Global,
    files: &[Section<'_>],
    table: &Table,
    survey: Survey,
    found: &mut Vec<T>,
) -> Result<Survey, Fault>
    ensures read { IfOk result (λ s. AreSurveyed T.of_row (table_rows (views files.now) table.now)
        (survey, found.old.items) (s, found.new.items)) }
    ensures refused { IfErr result (IsFaultOf (table_rows (views files.now) table.now)) }
{
    if is_empty(files, table) {
        return Ok(survey);
    }
    let mut rows = Records::of(alloc, bytes_named(files, table.file.as_str()));
    read_records(alloc, table, &mut rows, survey, found)
}

// The same of the parent tables among these, in the order of tables and rows.
fn read_parents(
    alloc: Global,
    files: &[Section<'_>],
    tables: &[Table],
    mut survey: Survey,
    found: &mut Vec<(Key, Row)>,
) -> Result<Survey, Fault>
    ensures read { IfOk result (λ s. AreSurveyed keyed
        (rows_in (views files.now) (filter (λ t. t.parent) tables.now))
        (survey, found.old.items) (s, found.new.items)) }
    ensures refused { IfErr result (IsFaultOf
        (rows_in (views files.now) (filter (λ t. t.parent) tables.now))) }
{
    for table in tables {
        if !table.parent {
            continue;
        }
        survey = read_table(alloc, files, table, survey, found)?;
    }
    Ok(survey)
}

// The same of all these tables, in their order.
fn read_tables(
    alloc: Global,
    files: &[Section<'_>],
    tables: &[&Table],
    mut survey: Survey,
    found: &mut Vec<(Key, Row)>,
) -> Result<Survey, Fault>
    ensures read { IfOk result (λ s. AreSurveyed keyed
        (rows_in (views files.now) (map (λ t. t.now) tables.now))
        (survey, found.old.items) (s, found.new.items)) }
    ensures refused { IfErr result (IsFaultOf
        (rows_in (views files.now) (map (λ t. t.now) tables.now))) }
{
    for table in tables {
        survey = read_table(alloc, files, table, survey, found)?;
    }
    Ok(survey)
}

// The same of the child tables among these, by table name and then as in the file.
fn read_children(
    alloc: Global,
    files: &[Section<'_>],
    tables: &[Table],
    survey: Survey,
    found: &mut Vec<(Key, Row)>,
) -> Result<Survey, Fault>
    ensures read { IfOk result (λ s. AreSurveyed keyed
        (rows_in (views files.now) (by_name (filter (λ t. not t.parent) tables.now)))
        (survey, found.old.items) (s, found.new.items)) }
    ensures refused { IfErr result (IsFaultOf
        (rows_in (views files.now) (by_name (filter (λ t. not t.parent) tables.now)))) }
{
    let sorted = child_tables(alloc, tables)?;
    read_tables(alloc, files, sorted.as_slice(), survey, found)
}

// The same of the keys of delete rows, in the order of tables and rows.
fn read_deletes(
    alloc: Global,
    files: &[Section<'_>],
    deletes: &[Table],
    mut survey: Survey,
    found: &mut Vec<Key>,
) -> Result<Survey, Fault>
    ensures read { IfOk result (λ s. AreSurveyed key_of (rows_in (views files.now) deletes.now)
        (survey, found.old.items) (s, found.new.items)) }
    ensures refused { IfErr result (IsFaultOf (rows_in (views files.now) deletes.now)) }
{
    for table in deletes {
        survey = read_table(alloc, files, table, survey, found)?;
    }
    Ok(survey)
}

/// The rows of a bundle, read with the keys of their objects.
#[derive(Drop)]
pub struct Rows {
    /// Those of parent tables, in the order of tables and rows.
    pub parents: Vec<(Key, Row)>,
    /// Those of child tables, by table name and then as in the file.
    pub children: Vec<(Key, Row)>,
    /// Of the delete tables the keys alone, in the order of tables and rows.
    pub deletes: Vec<Key>,
}

/// Returns the rows of these tables if all are whole, all have valid keys, and they are not too
/// many; else the least of U9 to U11 that applies.
pub fn read_rows(
    alloc: Global,
    files: &[Section<'_>],
    contents: &[Table],
    deletes: &[Table],
) -> Result<Rows, Fault>
    ensures passed { OnOk result
        (check_rows (rows_in (views files.now) (contents.now ++ deletes.now)) ≡ Ok tt) }
    ensures parents { IfOk result (λ r. r.parents.items
        ≡ map keyed (rows_in (views files.now) (filter (λ t. t.parent) contents.now))) }
    ensures children { IfOk result (λ r. r.children.items ≡ map keyed
        (rows_in (views files.now) (by_name (filter (λ t. not t.parent) contents.now)))) }
    ensures deletes { IfOk result (λ r. r.deletes.items
        ≡ map key_of (rows_in (views files.now) deletes.now)) }
    ensures refused { IfErr result (λ e. (why : Refusal) → e ≡ Fault.Refused why
        → check_rows (rows_in (views files.now) (contents.now ++ deletes.now)) ≡ Err why) }
{
    let mut parents = Vec::new(alloc);
    let mut children = Vec::new(alloc);
    let mut keys = Vec::new(alloc);
    let survey = read_parents(alloc, files, contents, Survey::new(), &mut parents)?;
    let survey = read_children(alloc, files, contents, survey, &mut children)?;
    let survey = read_deletes(alloc, files, deletes, survey, &mut keys)?;
    survey.verdict()?;
    Ok(Rows {
        parents,
        children,
        deletes: keys,
    })
}
