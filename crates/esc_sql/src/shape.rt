//! Whether a schema is that of a store: one loop compares a part of a schema with its rows of data.

ghost use Rattle.std.specs.Prelude.{◌≡◌, ◌↔◌, IsTrue, map, pos, [], ◌∷◌};
ghost use Rattle.esc_sql.specs.Shape.{node_at, IsFirstOne, described_column, described_reference};
ghost use Rattle.esc_sql.specs.Shape.{described_table, described_index, checks_of, references_of};
ghost use Rattle.esc_sql.specs.Schema.{store_schema, first_schema, rising, column_of, refers_to};
ghost use Rattle.esc_sql.specs.Schema.{no_stamps, first_is_one};

use crate::schema::{INDEXES, TABLES};
use sqlite_items::Items;
use sqlite_schema::code::{Op, Terms};
use sqlite_schema::schema::{Action, Column, Index, Kind, Reference, Schema, Stamps, Table};
use sqlite_sql::ops::{BinaryOp, CompareOp};
use sqlite_value::keys::{Collation, Order};
use sqlite_value::value::Value;

/// A column, NOT NULL (`Required`) or not (`Optional`): its name and its kind.
pub enum ColumnShape {
    Required(&'static [u8], Kind),
    Optional(&'static [u8], Kind),
}

/// A foreign key of one column, which refers to the key of its parent.
pub struct ReferenceShape {
    /// The number of the column, as in the keys of a `TableShape`.
    pub place: usize,
    pub parent: &'static [u8],
}

/// A table. In its keys column `i` has the number `i + 1`, and the column that is the rowid has 0.
pub struct TableShape {
    pub name: &'static [u8],
    pub tree: u32,
    pub columns: &'static [ColumnShape],
    pub rowid: Option<usize>,
    pub primary: &'static [usize],
    pub uniques: &'static [&'static [usize]],
    pub reference: Option<ReferenceShape>,
    /// Whether it has the CHECK that its first column is 1.
    pub is_single: bool,
}

/// An index that SQLite makes for a UNIQUE key.
pub struct IndexShape {
    pub name: &'static [u8],
    pub tree: u32,
    pub table: u32,
    pub columns: &'static [usize],
}

/// A row of data that describes a part of a schema.
trait Describes<T> {
    ghost part: { Self → T };

    fn is_shape_of(&self, it: &T) -> bool
        ensures { IsTrue result ↔ (it.now ≡ part self.now) };
}

/// Whether the parts are those that the rows describe, in their order.
fn are_as<T, W: Describes<T>>(all: &[T], rows: &[W]) -> bool
    ensures { IsTrue result ↔ (all.now ≡ map W.part rows.now) }
{
    if all.len() != rows.len() {
        return false;
    }
    for at in 0..all.len() {
        if !rows[at].is_shape_of(&all[at]) {
            return false;
        }
    }
    true
}

impl Describes<Column> for ColumnShape {
    ghost part = { described_column };

    fn is_shape_of(&self, it: &Column) -> bool {
        match self {
            ColumnShape::Required(name, kind) => is_column(it, *name, *kind, true),
            ColumnShape::Optional(name, kind) => is_column(it, *name, *kind, false),
        }
    }
}

fn is_column(column: &Column, name: &[u8], kind: Kind, not_null: bool) -> bool
    ensures { IsTrue result ↔ (column.now ≡ column_of name.now kind not_null) }
{
    column.name.as_slice() == name
        && column.kind == kind
        && !column.is_strict
        && column.not_null == not_null
        && matches!(column.default, Value::Null)
        && column.collation == Collation::Binary
}

fn is_place(places: &Items<usize>, place: usize) -> bool
    ensures { IsTrue result ↔ (places.now ≡ place ∷ []) }
{
    places.as_slice() == [place].as_slice()
}

fn is_reference(reference: &Reference, place: usize, parent: &[u8]) -> bool
    ensures { IsTrue result ↔ (reference.now ≡ refers_to place parent.now) }
{
    if !is_place(&reference.columns, place) {
        return false;
    }
    if reference.parent.as_slice() != parent {
        return false;
    }
    if !reference.parent_columns.as_slice().is_empty() {
        return false;
    }
    if !matches!(reference.on_delete, Action::NoAction) {
        return false;
    }
    if !matches!(reference.on_update, Action::NoAction) {
        return false;
    }
    if reference.is_deferred {
        return false;
    }
    true
}

fn is_unchecked(checks: &Terms) -> bool
    ensures { IsTrue result ↔ (checks.now ≡ []) }
{
    checks.roots.as_slice().is_empty()
}

fn is_number(nodes: &[Op], at: usize) -> bool
    ensures { IsTrue result ↔ (node_at nodes.now at ≡ Op.Literal (Value.Int (pos 1))) }
{
    matches!(nodes.get(at), Some(Op::Literal(Value::Int(1))))
}

fn is_first(nodes: &[Op], at: usize) -> bool
    ensures { IsTrue result ↔ (node_at nodes.now at ≡ Op.Column 1 0) }
{
    matches!(nodes.get(at), Some(Op::Column(1, 0)))
}

fn is_first_one(nodes: &[Op], root: usize) -> bool
    ensures { IsTrue result ↔ IsFirstOne nodes.now root }
{
    let Some(Op::Binary(BinaryOp::Compare(CompareOp::Eq, Collation::Binary), left, right)) =
        nodes.get(root) else {
        return false;
    };
    if nodes.len() < 2 {
        return false;
    }
    is_first(nodes, *left) && is_number(nodes, *right)
}

fn checks_first_is_one(checks: &Terms) -> bool
    ensures { IsTrue result ↔ (checks.now ≡ first_is_one ∷ []) }
{
    if checks.roots.as_slice().len() != 1 {
        return false;
    }
    is_first_one(checks.nodes.as_slice(), checks.roots.as_slice()[0])
}

fn is_unstamped(stamps: &Stamps) -> bool
    ensures { IsTrue result ↔ (stamps.now ≡ no_stamps) }
{
    stamps.places.as_slice().is_empty()
        && is_unchecked(&stamps.terms)
        && stamps.formats.as_slice().is_empty()
}

impl Describes<Reference> for ReferenceShape {
    ghost part = { described_reference };

    fn is_shape_of(&self, it: &Reference) -> bool {
        is_reference(it, self.place, self.parent)
    }
}

impl Describes<Items<usize>> for &'static [usize] {
    ghost part = { λ places. places.now };

    fn is_shape_of(&self, it: &Items<usize>) -> bool {
        it.as_slice() == *self
    }
}

/// The order of a key, which rises in each of its columns.
impl Describes<Order> for &'static [usize] {
    ghost part = { λ _. rising };

    fn is_shape_of(&self, it: &Order) -> bool {
        *it == Order::PLAIN
    }
}

/// No reference, or one.
fn are_references(all: &[Reference], want: &Option<ReferenceShape>) -> bool
    ensures { IsTrue result ↔ (all.now ≡ references_of want.now) }
{
    let Some(reference) = want else {
        return all.is_empty();
    };
    if all.len() != 1 {
        return false;
    }
    reference.is_shape_of(&all[0])
}

/// No CHECK, or that the first column is 1.
fn are_checks(checks: &Terms, is_single: bool) -> bool
    ensures { IsTrue result ↔ (checks.now ≡ checks_of is_single) }
{
    if is_single {
        checks_first_is_one(checks)
    } else {
        is_unchecked(checks)
    }
}

impl Describes<Table> for TableShape {
    ghost part = { described_table };

    fn is_shape_of(&self, it: &Table) -> bool {
        if it.name.as_slice() != self.name {
            return false;
        }
        if it.tree != self.tree {
            return false;
        }
        if !are_as(it.columns.as_slice(), self.columns) {
            return false;
        }
        if it.key != self.rowid {
            return false;
        }
        if it.primary.as_slice() != self.primary {
            return false;
        }
        if !are_as(it.uniques.as_slice(), self.uniques) {
            return false;
        }
        if !are_as(it.orders.as_slice(), self.uniques) {
            return false;
        }
        if !are_checks(&it.checks, self.is_single) {
            return false;
        }
        if !are_references(it.references.as_slice(), &self.reference) {
            return false;
        }
        if !it.computed.as_slice().is_empty() {
            return false;
        }
        if !is_unstamped(&it.stamps) {
            return false;
        }
        if it.is_counted {
            return false;
        }
        true
    }
}

impl Describes<Index> for IndexShape {
    ghost part = { described_index };

    fn is_shape_of(&self, it: &Index) -> bool {
        it.name.as_slice() == self.name
            && it.tree == self.tree
            && it.table == self.table
            && it.columns.as_slice() == self.columns
            && it.order == Order::PLAIN
            && it.is_unique
    }
}

/// Whether this is the schema of a store of version 1: the first seven tables and their indexes.
pub fn is_first_schema(schema: &Schema) -> bool
    ensures { IsTrue result ↔ (schema.now ≡ first_schema) }
{
    are_as(schema.tables.as_slice(), &TABLES[..7])
        && are_as(schema.indexes.as_slice(), &INDEXES[..6])
        && schema.views.as_slice().is_empty()
}

/// Whether this is the schema of a store of version 2.
pub fn is_store_schema(schema: &Schema) -> bool
    ensures { IsTrue result ↔ (schema.now ≡ store_schema) }
{
    are_as(schema.tables.as_slice(), &TABLES)
        && are_as(schema.indexes.as_slice(), &INDEXES)
        && schema.views.as_slice().is_empty()
}
