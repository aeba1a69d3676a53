//! Reading a record.

ghost use Rattle.std.specs.Prelude.{◌≡◌, ◌≢◌, Some, None, if◌then◌else◌, option_map, map, IfOk};
ghost use Rattle.std.specs.Prelude.{IfSome, IfNone};
ghost use Rattle.std.specs.Str.{is_utf8};
ghost use Rattle.esc_tables.specs.ObjectValue.{ObjectValue};
ghost use Rattle.esc_record.specs.Record.{record_of, IsOfTexts};
ghost use Rattle.esc_record.specs.Reading.{cut, number_in_front, text_in_front, cell_in_front};
ghost use Rattle.esc_record.specs.Reading.{row_in_front, many, object_of_record, of_rows};

use esc_bundle::NoMemory;
use esc_tables::{Headings, Object, Row};
use std::alloc::Global;
use std::str;

/// The most rows or cells for which room is made before they are read. A record may say that it has
/// more than its bytes can hold.
const MOST_ROOM: usize = 64;

fn room_for(count: u32) -> usize {
    MOST_ROOM.min(count as usize)
}

// The number that bytes begin with, and the rest.
fn number_at(bytes: &[u8]) -> Option<(u32, &[u8])>
    ensures { option_map (λ p. (p.0, p.1.now)) result ≡ number_in_front bytes.now }
{
    let (number, rest) = bytes.split_first_chunk::<4>()?;
    Some((u32::from_be_bytes(*number), rest))
}

// The first n bytes, and the rest.
fn cut(count: usize, bytes: &[u8]) -> Option<(&[u8], &[u8])>
    ensures { option_map (λ p. (p.0.now, p.1.now)) result ≡ cut count bytes.now }
{
    bytes.split_at_checked(count)
}

// The text that bytes are, if they are UTF-8.
fn as_text(bytes: &[u8]) -> Option<&str>
    ensures { option_map (λ t. t.now) result
        ≡ (if is_utf8 bytes.now then Some bytes.now else None) }
{
    match str::from_utf8(bytes) {
        Ok(text) => Some(text),
        Err(_) => None,
    }
}

// The text that bytes begin with, and the rest.
fn text_at(bytes: &[u8]) -> Option<(&str, &[u8])>
    ensures { option_map (λ p. (p.0.now, p.1.now)) result ≡ text_in_front is_utf8 bytes.now }
{
    let (count, rest) = number_at(bytes)?;
    let (text, rest) = cut(count as usize, rest)?;
    let text = as_text(text)?;
    Some((text, rest))
}

// The cell that bytes begin with, field and value, and the rest.
#[tactic(auto, unfolding(crate::specs::Reading::cell_in_front))]
fn cell_at(bytes: &[u8]) -> Option<((&str, &str), &[u8])>
    ensures { option_map (λ p. ((p.0.0.now, p.0.1.now), p.1.now)) result
        ≡ cell_in_front is_utf8 bytes.now }
{
    let (field, rest) = text_at(bytes)?;
    let (text, rest) = text_at(rest)?;
    Some(((field, text), rest))
}

// The first n cells, and the rest.
fn cells_at(
    alloc: Global,
    count: u32,
    bytes: &[u8],
) -> Result<Option<(Vec<(&str, &str)>, &[u8])>, NoMemory>
    ensures { IfOk result (λ found.
        option_map (λ p. (map (λ c. (c.0.now, c.1.now)) p.0.items, p.1.now)) found
        ≡ many (cell_in_front is_utf8) count bytes.now) }
{
    let mut rest = bytes;
    let mut cells = Vec::with_capacity(alloc, room_for(count))?;
    for _ in 0..count {
        let Some((cell, behind)) = cell_at(rest) else {
            return Ok(None);
        };
        cells.push(cell)?;
        rest = behind;
    }
    Ok(Some((cells, rest)))
}

// The row that bytes begin with, and the rest.
#[tactic(auto, unfolding(crate::specs::Reading::row_in_front))]
fn row_at<'a>(
    alloc: Global,
    headings: &mut Headings,
    bytes: &'a [u8],
) -> Result<Option<(Row, &'a [u8])>, NoMemory>
    ensures { IfOk result (λ found. option_map (λ p. (p.0, p.1.now)) found
        ≡ row_in_front is_utf8 bytes.now) }
{
    let Some((table, rest)) = text_at(bytes) else {
        return Ok(None);
    };
    let Some((count, rest)) = number_at(rest) else {
        return Ok(None);
    };
    let Some((cells, rest)) = cells_at(alloc, count, rest)? else {
        return Ok(None);
    };
    let row = Row::from_cells(alloc, headings, table, cells.as_slice())?;
    Ok(Some((row, rest)))
}

// The first n rows, and the rest.
fn rows_at<'a>(
    alloc: Global,
    headings: &mut Headings,
    count: u32,
    bytes: &'a [u8],
) -> Result<Option<(Vec<Row>, &'a [u8])>, NoMemory>
    ensures { IfOk result (λ found. option_map (λ p. (p.0.items, p.1.now)) found
        ≡ many (row_in_front is_utf8) count bytes.now) }
{
    let mut rest = bytes;
    let mut rows = Vec::with_capacity(alloc, room_for(count))?;
    for _ in 0..count {
        let Some((row, behind)) = row_at(alloc, headings, rest)? else {
            return Ok(None);
        };
        rows.push(row)?;
        rest = behind;
    }
    Ok(Some((rows, rest)))
}

// The object of its rows, the parent first.
fn of_rows(rows: Vec<Row>) -> Option<Object>
    ensures { result ≡ of_rows is_utf8 rows.items }
{
    let mut rows = rows;
    if rows.is_empty() {
        return None;
    }
    let parent = rows.remove(0);
    Some(Object {
        parent,
        children: rows,
    })
}

/// The object whose record the bytes are; `None` if they are no object's record (this project's
/// profile). Its rows share headings with each other and with those that were read by the same
/// `headings`.
pub fn read_record(
    alloc: Global,
    headings: &mut Headings,
    bytes: &[u8],
) -> Result<Option<Object>, NoMemory>
    ensures found { IfOk result (λ found. IfSome found (λ o. record_of o ≡ Some bytes.now)) }
    ensures none { IfOk result
        (λ found. IfNone found ((o : ObjectValue) → IsOfTexts o → record_of o ≢ Some bytes.now)) }
{
    object_of(alloc, headings, bytes)
}

// The object whose record the bytes are, as the definition reads it.
#[tactic(auto, unfolding(crate::specs::Reading::object_of_record))]
fn object_of(
    alloc: Global,
    headings: &mut Headings,
    bytes: &[u8],
) -> Result<Option<Object>, NoMemory>
    ensures { IfOk result (λ found. found ≡ object_of_record is_utf8 bytes.now) }
{
    let Some((count, rest)) = number_at(bytes) else {
        return Ok(None);
    };
    let Some((rows, rest)) = rows_at(alloc, headings, count, rest)? else {
        return Ok(None);
    };
    if !rest.is_empty() {
        return Ok(None);
    }
    Ok(of_rows(rows))
}
