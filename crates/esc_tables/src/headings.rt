//! The headings that rows share.

ghost use Rattle.std.specs.Prelude.{◌≡◌, ◌↔◌, true, Some, IfOk, IfSome, map, slice_get};
ghost use Rattle.csv.specs.Records.{fields_of};

use crate::object::{Heading, shared};
use csv::StringRecord;
use esc_bundle::NoMemory;
use std::alloc::Global;
use std::rc::Rc;

/// The most headings that are kept. The objects of a registry have fewer tables.
const MOST_KEPT: usize = 32;

/// The headings of rows that were made, so that rows of one table share theirs: most memory of a
/// row with few texts would be its heading's.
#[derive(Debug, Drop)]
pub struct Headings {
    kept: Vec<Rc<Heading>>,
}

impl Headings {
    /// None are kept yet. Doesn't allocate.
    pub fn new(alloc: Global) -> Headings {
        Headings {
            kept: Vec::new(alloc),
        }
    }

    /// The heading of a row of this table with these cells: one that is kept, or else a new one.
    pub(crate) fn heading_for(
        &mut self,
        alloc: Global,
        table: &str,
        cells: &[(&str, &str)],
    ) -> Result<Rc<Heading>, NoMemory>
        ensures { IfOk result (λ heading. heading.value
            ≡ record { name = table.now; fields = map (λ c. c.0.now) cells.now }) }
    {
        if let Some(heading) = self.find(table, cells) {
            return Ok(heading.clone()?);
        }
        let heading = shared(alloc, table, names_of(alloc, cells)?)?;
        if self.kept.len() < MOST_KEPT {
            self.kept.push(heading.clone()?)?;
        }
        Ok(heading)
    }

    fn find(&self, table: &str, cells: &[(&str, &str)]) -> Option<&Rc<Heading>>
        ensures { IfSome result (λ heading. heading.now.value
            ≡ record { name = table.now; fields = map (λ c. c.0.now) cells.now }) }
    {
        for at in 0..self.kept.len() {
            if is_for(self.kept[at].as_ref(), table, cells) {
                return Some(&self.kept[at]);
            }
        }
        None
    }
}

// Whether this is the heading of a row of this table with these cells.
fn is_for(heading: &Heading, table: &str, cells: &[(&str, &str)]) -> bool
    ensures { result ≡ true → heading.now
        ≡ record { name = table.now; fields = map (λ c. c.0.now) cells.now } }
{
    heading.name.as_str() == table && have_names(cells, &heading.fields)
}

// Whether these are the names of the cells' fields.
fn have_names(cells: &[(&str, &str)], names: &StringRecord) -> bool
    ensures { (result ≡ true) ↔ (fields_of names.now ≡ map (λ c. c.0.now) cells.now) }
{
    if names.len() != cells.len() {
        return false;
    }
    let mut at = 0;
    for cell in cells {
        if !is_at(names, at, cell) {
            return false;
        }
        at += 1;
    }
    true
}

// Whether the name at this place is that of the cell's field.
fn is_at(names: &StringRecord, at: usize, cell: &(&str, &str)) -> bool
    ensures { (result ≡ true) ↔ (slice_get (fields_of names.now) at ≡ Some cell.now.0.now) }
{
    match names.get(at) {
        Some(name) => name == cell.0,
        None => false,
    }
}

// The names of these cells' fields as one record.
fn names_of(alloc: Global, cells: &[(&str, &str)]) -> Result<StringRecord, NoMemory>
    ensures { IfOk result (λ names. fields_of names ≡ map (λ c. c.0.now) cells.now) }
{
    let mut names = StringRecord::new(alloc);
    for (name, _) in cells {
        names.push_field(name)?;
    }
    Ok(names)
}
