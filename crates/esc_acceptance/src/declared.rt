//! What the envelopes of a chain's deposits say.

use crate::notes::notes_of_body;
use esc_bundle::{Fault, NoMemory};
use esc_envelope::{Envelope, Table};
use esc_tables::read_bundled_envelope;
use std::alloc::Global;
use std::mem;

/// What the envelopes of a chain's deposits say.
#[derive(Drop)]
pub struct Declared {
    /// The tables of contents that they declare, each once.
    pub tables: Vec<Table>,
    /// Their notes, each on one line.
    pub notes: Vec<String>,
}

impl Declared {
    /// What no envelopes say.
    pub(crate) fn new(alloc: Global) -> Declared {
        Declared {
            tables: Vec::new(alloc),
            notes: Vec::new(alloc),
        }
    }

    /// Adds what the envelope of the body before these says, if it has one.
    pub(crate) fn add_earlier(&mut self, alloc: Global, body: &[u8]) -> Result<(), NoMemory> {
        match read_bundled_envelope(alloc, body) {
            Ok(Envelope { contents, .. }) => {
                self.add_earlier_tables(alloc, contents)?;
                self.add_earlier_notes(notes_of_body(alloc, body)?)
            }
            Err(Fault::Refused(_)) => Ok(()),
            Err(Fault::NoMemory) => Err(NoMemory),
        }
    }

    fn add_earlier_notes(&mut self, mut notes: Vec<String>) -> Result<(), NoMemory> {
        notes.append(&mut self.notes)?;
        self.notes = notes;
        Ok(())
    }

    // They stand before the others, as in the chain.
    fn add_earlier_tables(&mut self, alloc: Global, tables: Vec<Table>) -> Result<(), NoMemory> {
        let later = mem::replace(&mut self.tables, Vec::new(alloc));
        self.add_tables(tables)?;
        self.add_tables(later)
    }

    fn add_tables(&mut self, tables: Vec<Table>) -> Result<(), NoMemory> {
        for table in tables {
            if !self.declares(&table) {
                self.tables.push(table)?;
            }
        }
        Ok(())
    }

    fn declares(&self, table: &Table) -> bool {
        self.tables.iter().any(|other| is_same_table(table, other))
    }
}

// Whether two tables are declared alike, but for the key and the file.
fn is_same_table(table: &Table, other: &Table) -> bool {
    table.name == other.name
        && table.kind == other.kind
        && table.parent == other.parent
        && table.fields == other.fields
}
