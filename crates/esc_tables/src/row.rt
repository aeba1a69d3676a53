//! One row of a declared table.

ghost use Rattle.std.specs.Prelude.{◌≡◌, true, ⊤, IfOk};
ghost use Rattle.esc_envelope.specs.EnvelopeValue.{TableValue};
ghost use Rattle.esc_tables.specs.TableRow.{TableRow, in_table, is_whole, has_key, key_of};
ghost use Rattle.esc_tables.specs.TableRow.{heading_of, keyed};

use crate::key::Key;
use crate::object::{Heading, Row};
use esc_bundle::NoMemory;
use esc_csv::Record;
use esc_envelope::Table;
use std::alloc::Global;
use std::rc::Rc;

/// The greatest length of a key, in bytes.
pub const LONGEST_KEY: usize = 255;

/// Whether a row has as many fields as its table declares, each of them UTF-8.
pub fn is_whole(table: &Table, row: &Record) -> bool
    ensures { result ≡ is_whole (in_table table.now row.now) }
{
    row.len() == table.fields.len() && row.is_text()
}

/// Whether a row's key has 1 to 255 bytes.
pub fn has_key(table: &Table, row: &Record) -> bool
    ensures { result ≡ has_key (in_table table.now row.now) }
{
    let key = row.field(table.key);
    !key.is_empty() && key.len() <= LONGEST_KEY
}

/// What a row is read as.
pub trait FromRow: Drop {
    /// What the rows of a table have in common.
    type Shared: Drop;

    /// What is read of a whole row.
    ghost of_row: { TableRow → Self };

    /// Whether it is what the rows of this table have in common.
    ghost is_shared: { Self.Shared → TableValue → Type 0 };

    /// What the rows of this table have in common.
    fn shared_in(alloc: Global, table: &Table) -> Result<Self::Shared, NoMemory>
        ensures { IfOk result (λ shared. is_shared shared table.now) };

    /// Reads a whole row of this table.
    fn read(
        alloc: Global,
        shared: &Self::Shared,
        table: &Table,
        row: &Record,
    ) -> Result<Self, NoMemory>
        requires shared { is_shared shared.now table.now }
        requires whole { is_whole (in_table table.now row.now) ≡ true }
        ensures { IfOk result (λ it. it ≡ of_row (in_table table.now row.now)) };
}

/// The key of a row's object alone. The rows of a table need nothing in common.
impl FromRow for Key {
    type Shared = ();

    ghost of_row = { key_of };

    ghost is_shared = { λ shared t. ⊤ };

    fn shared_in(_alloc: Global, _table: &Table) -> Result<(), NoMemory> {
        Ok(())
    }

    fn read(alloc: Global, _shared: &(), table: &Table, row: &Record) -> Result<Key, NoMemory> {
        Key::named(alloc, table.kind, row.text(table.key))
    }
}

/// A row with the key of its object, under its table's heading.
impl FromRow for (Key, Row) {
    type Shared = Rc<Heading>;

    ghost of_row = { keyed };

    ghost is_shared = { λ heading t. heading.value ≡ heading_of t };

    fn shared_in(alloc: Global, table: &Table) -> Result<Rc<Heading>, NoMemory> {
        Heading::of(alloc, table)
    }

    fn read(
        alloc: Global,
        heading: &Rc<Heading>,
        table: &Table,
        row: &Record,
    ) -> Result<(Key, Row), NoMemory> {
        let key = Key::read(alloc, &(), table, row)?;
        let texts = row.texts()?;
        Ok((key, Row::under(heading.clone()?, texts)))
    }
}
