//! A bundle is made as a text here, without a contract: what it says is tested when it is read
//! again (`part_bundle`).

use crate::part::Part;
use crate::refusal::BundleRefusal;
use esc_bundle::{NoMemory, Refusal, write_bundle};
use esc_csv::Lines;
use esc_envelope::{Header, Kind, is_id, watermark_text};
use esc_tables::{Key, MOST_ROWS, Object, Row};
use std::alloc::Global;

/// The most tables of a bundle: each is a section after the envelope.
const MOST_TABLES: usize = 63;

/// The bytes of a byte order mark.
const MARK: &[u8] = b"\xEF\xBB\xBF";

// A table that is declared by its first row, and the lines of its rows so far.
#[derive(Drop)]
struct Sheet<'a> {
    kind: Kind,
    is_parent: bool,
    first: &'a Row,
    // Of each field whether it has the key in all rows so far.
    keys: Vec<bool>,
    lines: Lines,
}

fn field_of(row: &Row, at: usize) -> &str {
    row.cell(at).map_or("", |(field, _)| field)
}

fn text_of(row: &Row, at: usize) -> &str {
    row.cell(at).map_or("", |(_, text)| text)
}

fn has_same_fields(row: &Row, other: &Row) -> bool {
    row.len() == other.len() && (0..row.len()).all(|at| field_of(row, at) == field_of(other, at))
}

// Whether a text is that of a key, in which the letters of a domain's or a host's name are lowered.
fn is_key(key: &Key, text: &str) -> bool {
    match key.kind {
        Kind::Host | Kind::Domain => text.eq_ignore_ascii_case(key.text.as_str()),
        Kind::Registrar | Kind::Contact | Kind::Idn | Kind::Nndn => text == key.text.as_str(),
    }
}

impl<'a> Sheet<'a> {
    // Whether this row of an object of a kind can be declared with those so far.
    fn takes(&self, kind: Kind, is_parent: bool, row: &Row) -> bool {
        self.kind == kind && self.is_parent == is_parent && has_same_fields(self.first, row)
    }

    // Adds the line of a row.
    fn add(&mut self, alloc: Global, key: &Key, row: &Row) -> Result<(), NoMemory> {
        let mut texts = Vec::new(alloc);
        for (at, is_key_so_far) in self.keys.iter_mut().enumerate() {
            let text = text_of(row, at);
            *is_key_so_far = *is_key_so_far && is_key(key, text);
            texts.push(text.as_bytes())?;
        }
        self.lines.write(&texts)
    }

    // The name of the first field that has the key in all rows.
    fn key_field(&self) -> Option<&'a str> {
        let at = self.keys.iter().position(|is_key_so_far| *is_key_so_far)?;
        Some(field_of(self.first, at))
    }
}

// The tables so far, and how many rows they have.
#[derive(Drop)]
struct Draft<'a> {
    alloc: Global,
    sheets: Vec<Sheet<'a>>,
    rows: u32,
}

impl<'a> Draft<'a> {
    fn add_object(&mut self, key: &Key, object: &'a Object) -> Result<(), BundleRefusal> {
        self.add_row(key, true, &object.parent)?;
        for row in &object.children {
            self.add_row(key, false, row)?;
        }
        Ok(())
    }

    fn add_row(&mut self, key: &Key, is_parent: bool, row: &'a Row) -> Result<(), BundleRefusal> {
        if self.rows >= MOST_ROWS {
            return Err(BundleRefusal::Refused(Refusal::TooManyRows));
        }
        self.rows += 1;
        let at = self.sheet_for(key.kind, is_parent, row)?;
        let Some(sheet) = self.sheets.get_mut(at) else {
            return Err(BundleRefusal::Refused(Refusal::OverLimit));
        };
        if !sheet.takes(key.kind, is_parent, row) {
            return Err(BundleRefusal::Mixed(String::from_str(self.alloc, row.table())?));
        }
        Ok(sheet.add(self.alloc, key, row)?)
    }

    // The index of the table of a row, which is added if there is none yet.
    fn sheet_for(
        &mut self,
        kind: Kind,
        is_parent: bool,
        first: &'a Row,
    ) -> Result<usize, BundleRefusal> {
        let found = self
            .sheets
            .iter()
            .position(|sheet| sheet.first.table() == first.table());
        if let Some(at) = found {
            return Ok(at);
        }
        let at = self.sheets.len();
        if at >= MOST_TABLES {
            return Err(BundleRefusal::Refused(Refusal::OverLimit));
        }
        self.sheets.push(Sheet {
            kind,
            is_parent,
            first,
            keys: vec![in self.alloc; true; first.len()]?,
            lines: Lines::new(self.alloc),
        })?;
        Ok(at)
    }
}

fn sheets_of<'a>(
    alloc: Global,
    objects: &'a [(Key, Object)],
) -> Result<Vec<Sheet<'a>>, BundleRefusal> {
    let mut draft = Draft {
        alloc,
        sheets: Vec::new(alloc),
        rows: 0,
    };
    for (key, object) in objects {
        draft.add_object(key, object)?;
    }
    Ok(draft.sheets)
}

// The name of the section of the table with this number, from 0.
fn section_name(alloc: Global, number: usize) -> Result<String, NoMemory> {
    Ok(format!(in alloc; "table-{number}.csv")?)
}

// What stands before the item with this number, from 0.
fn comma(number: usize) -> &'static str {
    if number > 0 { "," } else { "" }
}

// What the deposit says of itself, up to its counts. Ids have no signs that JSON escapes.
fn push_header(alloc: Global, text: &mut String, header: &Header) -> Result<(), BundleRefusal> {
    let id = header.id.as_str();
    if !is_id(id) {
        return Err(BundleRefusal::Refused(Refusal::WrongMember));
    }
    let Some(moment) = watermark_text(alloc, header.place.watermark)? else {
        return Err(BundleRefusal::Refused(Refusal::WrongMember));
    };
    let kind = header.place.kind.name();
    write!(
        text,
        "{{\"id\":\"{id}\",\"type\":\"{kind}\",\"watermark\":\"{moment}\""
    )?;
    if let Some(prev) = header.prev.as_deref() {
        write!(text, ",\"prevId\":\"{prev}\"")?;
    }
    Ok(())
}

// Which part of which deposit this is, where there are several: for people, since the desk ignores
// this member.
fn push_part(text: &mut String, part: Part<'_>) -> Result<(), NoMemory> {
    if part.series.length > 1 {
        let (id, number, length) = (part.series.id, part.number, part.series.length);
        let number = number.saturating_add(1);
        write!(
            text,
            ",\"series\":{{\"deposit\":\"{id}\",\"part\":{number},\"of\":{length}}}"
        )?;
    }
    Ok(())
}

fn push_counts(text: &mut String, counts: &[(Kind, u64)]) -> Result<(), NoMemory> {
    text.push_str(",\"counts\":{")?;
    for (at, (kind, count)) in counts.iter().enumerate() {
        let (comma, name) = (comma(at), kind.name());
        write!(text, "{comma}\"{name}\":{count}")?;
    }
    text.push('}')?;
    Ok(())
}

// The declaration of a table. Names of tables and fields are of letters, digits and a few signs, so
// that they are JSON as they are.
fn push_sheet(
    alloc: Global,
    text: &mut String,
    number: usize,
    sheet: &Sheet<'_>,
) -> Result<(), BundleRefusal> {
    let table = sheet.first.table();
    let Some(key) = sheet.key_field() else {
        return Err(BundleRefusal::Unkeyed(String::from_str(alloc, table)?));
    };
    let kind = sheet.kind.name();
    let role = if sheet.is_parent { "parent" } else { "child" };
    let file = section_name(alloc, number)?;
    let comma = comma(number);
    write!(
        text,
        "{comma}\n{{\"name\":\"{table}\",\"kind\":\"{kind}\",\"role\":\"{role}\",\"key\":\"{key}\",\"file\":\"{file}\",\"fields\":["
    )?;
    push_fields(text, sheet.first)?;
    text.push_str("]}")?;
    Ok(())
}

fn push_fields(text: &mut String, row: &Row) -> Result<(), NoMemory> {
    for at in 0..row.len() {
        let (comma, field) = (comma(at), field_of(row, at));
        write!(text, "{comma}\"{field}\"")?;
    }
    Ok(())
}

fn envelope_of(
    alloc: Global,
    part: Part<'_>,
    header: &Header,
    counts: &[(Kind, u64)],
    sheets: &[Sheet<'_>],
) -> Result<Vec<u8>, BundleRefusal> {
    let mut text = String::new(alloc);
    push_header(alloc, &mut text, header)?;
    push_part(&mut text, part)?;
    if !counts.is_empty() {
        push_counts(&mut text, counts)?;
    }
    text.push_str(",\"contents\":[")?;
    for (number, sheet) in sheets.iter().enumerate() {
        push_sheet(alloc, &mut text, number, sheet)?;
    }
    text.push_str("]}")?;
    Ok(text.into_bytes())
}

/// A bundle of these objects with this header, as this part, with these counts if there are any.
pub(crate) fn draft_bundle(
    alloc: Global,
    part: Part<'_>,
    header: &Header,
    counts: &[(Kind, u64)],
    objects: &[(Key, Object)],
) -> Result<Vec<u8>, BundleRefusal> {
    let sheets = sheets_of(alloc, objects)?;
    let envelope = envelope_of(alloc, part, header, counts, &sheets)?;
    let mut sections = Vec::new(alloc);
    sections.push((String::from_str(alloc, "envelope.json")?, envelope))?;
    for (number, sheet) in sheets.into_iter().enumerate() {
        let table = sheet.first.table();
        let text = sheet.lines.into_text()?;
        if text.starts_with(MARK) {
            return Err(BundleRefusal::Marked(String::from_str(alloc, table)?));
        }
        sections.push((section_name(alloc, number)?, text))?;
    }
    Ok(write_bundle(alloc, &sections)?)
}
