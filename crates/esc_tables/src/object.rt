//! Objects of the registry, and the rows that they are made of.

ghost use Rattle.std.specs.Prelude.{◌≡◌, IfOk, length, map, option_map, slice_get};
ghost use Rattle.std.specs.Prelude.{string_bytes};
ghost use Rattle.std.specs.List.{zip};
ghost use Rattle.std.specs.Map.{lookup};
ghost use Rattle.std.specs.Str.{bytes_eq};
ghost use Rattle.csv.specs.Records.{fields_of};
ghost use Rattle.esc_tables.specs.TableRow.{heading_of};

use crate::headings::Headings;
use csv::StringRecord;
use esc_bundle::NoMemory;
use esc_envelope::Table;
use std::alloc::Global;
use std::marker::Model;
use std::rc::Rc;

/// What the rows of a table have in common: its name, and the names of its fields.
#[derive(Debug, Drop)]
pub struct Heading {
    pub(crate) name: String,
    pub(crate) fields: StringRecord,
}

impl Model for Heading {
    ghost use Rattle.std.specs.Prelude.{string_bytes};
    ghost use Rattle.csv.specs.Records.{fields_of};
    ghost use Rattle.esc_tables.specs.ObjectValue.{HeadingValue};

    ghost Value = { HeadingValue };

    ghost view = { λ h. record { name = string_bytes h.name; fields = fields_of h.fields } };
}

impl Heading {
    /// The heading of a declared table's rows.
    pub fn of(alloc: Global, table: &Table) -> Result<Rc<Heading>, NoMemory>
        ensures { IfOk result (λ heading. heading.value ≡ heading_of table.now) }
    {
        let fields = record_of(alloc, table.fields.as_slice())?;
        shared(alloc, table.name.as_str(), fields)
    }
}

// These texts as one record.
fn record_of(alloc: Global, texts: &[String]) -> Result<StringRecord, NoMemory>
    ensures { IfOk result (λ r. fields_of r ≡ map string_bytes texts.now) }
{
    let mut record = StringRecord::new(alloc);
    for text in texts {
        record.push_field(text.as_str())?;
    }
    Ok(record)
}

// A heading, for many rows.
pub(crate) fn shared(
    alloc: Global,
    name: &str,
    fields: StringRecord,
) -> Result<Rc<Heading>, NoMemory>
    ensures { IfOk result (λ heading. heading.value
        ≡ record { name = name.now; fields = fields_of fields }) }
{
    let name = String::from_str(alloc, name)?;
    Ok(Rc::new(alloc, Heading { name, fields })?)
}

// The texts of these cells as one record.
fn texts_of(alloc: Global, cells: &[(&str, &str)]) -> Result<StringRecord, NoMemory>
    ensures { IfOk result (λ texts. fields_of texts ≡ map (λ c. c.1.now) cells.now) }
{
    let room = cells.len().saturating_mul(USUAL_LENGTH);
    let mut texts = StringRecord::with_capacity(alloc, room, cells.len())?;
    for (_, text) in cells {
        texts.push_field(text)?;
    }
    Ok(texts)
}

/// A row of a table: its cells in the declared order, each with its field's name. It has as many
/// texts as its heading has fields. Rows that were read from one table share their heading, and the
/// texts of a row are in one piece of memory.
#[derive(Debug, Drop)]
pub struct Row {
    heading: Rc<Heading>,
    texts: StringRecord,
}

impl Model for Row {
    ghost use Rattle.std.specs.Prelude.{◌≡◌, length};
    ghost use Rattle.std.specs.List.{zip};
    ghost use Rattle.csv.specs.Records.{fields_of};
    ghost use Rattle.esc_tables.specs.ObjectValue.{RowValue};

    ghost Value = { RowValue };

    ghost view = { λ r. record {
      table = r.heading.value.name;
      cells = zip r.heading.value.fields (fields_of r.texts);
    } };

    ghost invariant = { λ r. length (fields_of r.texts) ≡ length r.heading.value.fields };
}

/// The length, in bytes, that most texts don't exceed: mostly the memory of a row is allocated at
/// once.
const USUAL_LENGTH: usize = 16;

impl Row {
    /// The row of a heading and of one text for each of its fields.
    pub(crate) fn under(heading: Rc<Heading>, texts: StringRecord) -> Row
        requires { length (fields_of texts) ≡ length heading.value.fields }
        ensures { result ≡ record {
          table = heading.value.name;
          cells = zip heading.value.fields (fields_of texts);
        } }
    {
        Row { heading, texts }
    }

    /// A row of a table with these cells, each a field's name and its text, under the heading that
    /// `headings` has for them. `NoMemory` out of memory.
    pub fn from_cells(
        alloc: Global,
        headings: &mut Headings,
        table: &str,
        cells: &[(&str, &str)],
    ) -> Result<Row, NoMemory>
        ensures { IfOk result (λ row. row
            ≡ record { table = table.now; cells = map (λ c. (c.0.now, c.1.now)) cells.now }) }
    {
        let heading = headings.heading_for(alloc, table, cells)?;
        let texts = texts_of(alloc, cells)?;
        Ok(Row { heading, texts })
    }

    /// The table's name.
    pub fn table(&self) -> &str
        ensures { result.now ≡ self.now.table }
    {
        self.heading.as_ref().name.as_str()
    }

    /// How many cells there are.
    pub fn len(&self) -> usize
        ensures { result ≡ length self.now.cells }
    {
        self.texts.len()
    }

    /// The field's name and the text of the cell with this index, from 0; `None` if there is no
    /// such cell.
    pub fn cell(&self, at: usize) -> Option<(&str, &str)>
        ensures { option_map (λ c. (c.0.now, c.1.now)) result ≡ slice_get self.now.cells at }
    {
        let field = self.heading.as_ref().fields.get(at)?;
        let text = self.texts.get(at)?;
        Some((field, text))
    }

    /// The text of a field: that of its first cell; `None` if the row has no such field.
    pub fn text(&self, field: &str) -> Option<&str>
        ensures { option_map (λ t. t.now) result ≡ lookup (bytes_eq field.now) self.now.cells }
    {
        for at in 0..self.len() {
            if let Some((name, text)) = self.cell(at) {
                if field == name {
                    return Some(text);
                }
            }
        }
        None
    }

    /// An equal row. `NoMemory` out of memory.
    pub fn copy(&self) -> Result<Row, NoMemory>
        ensures { IfOk result (λ r. r ≡ self.now) }
    {
        Ok(Row {
            heading: self.heading.clone()?,
            texts: self.texts.clone()?,
        })
    }
}

/// An object: a parent row with the child rows of its kind and key (this project's profile of RFC
/// 9022's CSV model).
#[derive(Debug, Drop)]
pub struct Object {
    pub parent: Row,
    /// By table name in byte order; the rows of one table in the order of its file.
    pub children: Vec<Row>,
}

impl Model for Object {
    ghost use Rattle.esc_tables.specs.ObjectValue.{ObjectValue};

    ghost Value = { ObjectValue };

    ghost view = { λ o. record { parent = o.parent; children = o.children.items } };
}

fn copy_rows(alloc: Global, rows: &[Row]) -> Result<Vec<Row>, NoMemory>
    ensures { IfOk result (λ v. v.items ≡ rows.now) }
{
    let mut copies = Vec::with_capacity(alloc, rows.len())?;
    for row in rows {
        copies.push(row.copy()?)?;
    }
    Ok(copies)
}

impl Object {
    /// An equal object. `NoMemory` out of memory.
    pub fn copy(&self, alloc: Global) -> Result<Object, NoMemory>
        ensures { IfOk result (λ o. o ≡ self.now) }
    {
        Ok(Object {
            parent: self.parent.copy()?,
            children: copy_rows(alloc, self.children.as_slice())?,
        })
    }
}
