//! Writing a record.

ghost use Rattle.std.specs.Prelude.{◌≡◌, option_map, IfOk, length};
ghost use Rattle.std.specs.List.{list_all, flat_map};
ghost use Rattle.esc_record.specs.Record.{number_bytes, text_bytes, cell_bytes, row_bytes};
ghost use Rattle.esc_record.specs.Record.{object_bytes, is_small, is_small_cell, is_small_row};
ghost use Rattle.esc_record.specs.Record.{is_small_object, record_of};
ghost use Rattle.esc_record.specs.Writing.{Pushes};

use esc_bundle::NoMemory;
use esc_tables::{Object, Row};
use std::alloc::Global;

/// The bytes for which a record has room at first. Most records fit, so that most are written with
/// one allocation.
const USUAL_LENGTH: usize = 256;

// Each of these returns whether the lengths and counts fit four bytes. If one doesn't, the bytes
// that were pushed are no record.

#[tactic(auto, unfolding(crate::specs::Record::number_bytes))]
fn push_number(bytes: &mut Vec<u8>, number: usize) -> Result<bool, NoMemory>
    ensures { Pushes (is_small number) (number_bytes number) bytes.old.items bytes.new.items
        result }
{
    let Ok(number) = u32::try_from(number) else {
        return Ok(false);
    };
    bytes.extend_from_slice(&number.to_be_bytes())?;
    Ok(true)
}

fn push_text(bytes: &mut Vec<u8>, text: &str) -> Result<bool, NoMemory>
    ensures { Pushes (is_small (length text.now)) (text_bytes text.now) bytes.old.items
        bytes.new.items result }
{
    if !push_number(bytes, text.len())? {
        return Ok(false);
    }
    bytes.extend_from_slice(text.as_bytes())?;
    Ok(true)
}

fn push_cell(bytes: &mut Vec<u8>, field: &str, text: &str) -> Result<bool, NoMemory>
    ensures { Pushes (is_small_cell (field.now, text.now))
        (cell_bytes (field.now, text.now)) bytes.old.items bytes.new.items result }
{
    if !push_text(bytes, field)? {
        return Ok(false);
    }
    push_text(bytes, text)
}

fn push_cells(bytes: &mut Vec<u8>, row: &Row) -> Result<bool, NoMemory>
    ensures { Pushes (list_all is_small_cell row.now.cells)
        (flat_map cell_bytes row.now.cells) bytes.old.items bytes.new.items result }
{
    for at in 0..row.len() {
        let Some((field, text)) = row.cell(at) else {
            unreachable!()
        };
        if !push_cell(bytes, field, text)? {
            return Ok(false);
        }
    }
    Ok(true)
}

fn push_row(bytes: &mut Vec<u8>, row: &Row) -> Result<bool, NoMemory>
    ensures { Pushes (is_small_row row.now) (row_bytes row.now) bytes.old.items bytes.new.items
        result }
{
    if !push_text(bytes, row.table())? {
        return Ok(false);
    }
    if !push_number(bytes, row.len())? {
        return Ok(false);
    }
    push_cells(bytes, row)
}

fn push_rows(bytes: &mut Vec<u8>, rows: &[Row]) -> Result<bool, NoMemory>
    ensures { Pushes (list_all is_small_row rows.now) (flat_map row_bytes rows.now) bytes.old.items
        bytes.new.items result }
{
    for row in rows {
        if !push_row(bytes, row)? {
            return Ok(false);
        }
    }
    Ok(true)
}

fn push_object(bytes: &mut Vec<u8>, object: &Object) -> Result<bool, NoMemory>
    ensures { Pushes (is_small_object object.now) (object_bytes object.now) bytes.old.items
        bytes.new.items result }
{
    let children = object.children.as_slice();
    if !push_number(bytes, children.len() + 1)? {
        return Ok(false);
    }
    if !push_row(bytes, &object.parent)? {
        return Ok(false);
    }
    push_rows(bytes, children)
}

/// The record of an object, or `None` if a length or a count doesn't fit four bytes (this project's
/// profile).
#[tactic(auto, unfolding(crate::specs::Record::record_of))]
pub fn to_record(alloc: Global, object: &Object) -> Result<Option<Vec<u8>>, NoMemory>
    ensures { IfOk result (λ bytes. option_map (λ b. b.items) bytes ≡ record_of object.now) }
{
    let mut bytes = Vec::with_capacity(alloc, USUAL_LENGTH)?;
    Ok(push_object(&mut bytes, object)?.then_some(bytes))
}
