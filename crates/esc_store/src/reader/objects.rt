//! What a reader returns of the chain's tables by key: pages, the keys, or one object.

ghost use Rattle.std.specs.Prelude.{◌≡◌, Some, map, option_map, IfOk, IfErr, IsTrue};
ghost use Rattle.esc_sql.specs.StoreTable.{Objects};
ghost use Rattle.esc_sql.specs.Entries.{stored_entry};
ghost use Rattle.esc_scan.specs.KeyIndex.{AreShaped};
ghost use Rattle.esc_scan.specs.ObjectKeys.{key_of_object};
ghost use Rattle.esc_scan.specs.Scanning.{ReadsRow, IsScan};
ghost use Rattle.esc_envelope.specs.Kinds.{kind_rank};
ghost use Rattle.esc_tables.specs.KeyName.{key_cmp};
ghost use Rattle.esc_store.specs.Faults.{IsFailure};
ghost use Rattle.esc_store.specs.StoreState.{StoreState};
ghost use Rattle.esc_store.specs.Reading.{IsHonestReader, IsReadOnly, ReaderRepresents, trees_of};
ghost use Rattle.esc_store.specs.Pages.{IsPage, entry_row, record_row};
ghost use Rattle.esc_store.specs.TableKeys.{AreKeysOf, key_at, numbered_key};

use crate::cause::{Cause, Table};
use crate::codec::object::{entries_of, kind_number, kind_of, record_object};
use crate::fault::StoreFault;
use crate::reader::StoreReader;
use esc_envelope::Kind;
use esc_record::no_record_begins_another;
use esc_scan::cursor::read_all;
use esc_scan::object::{OBJECT_TREE, find_object};
use esc_scan::page::{KEY_TREE, objects_from};
use esc_scan::rows::{FromEntry, ScanError, value_at};
use esc_sql::object::StoredObject;
use esc_tables::{Headings, Key, Object};
use smallvec::SmallVec;
use sqlite_trees::store::{Shape, Store};
use sqlite_value::keys::Order;
use sqlite_value::row::Row;
use std::alloc::Global;
use std::cmp::Ordering;

/// A key of the chain's tables, and the rowid of its object. They are ordered by key. The text's
/// bytes are those of the row: that they are UTF-8 is tested where a page is read.
// A text of at most 24 bytes takes no allocation, since a million of them are in memory at once.
#[derive(Debug, Drop, PartialEq, Eq, PartialOrd, Ord)]
pub struct TableKey {
    pub kind: Kind,
    pub text: SmallVec<u8, 24>,
    pub(crate) rowid: i64,
}

impl TableKey {
    /// How the key, without the rowid, is ordered beside another one.
    pub fn cmp_key(&self, key: &Key) -> Ordering
        ensures { result ≡ key_cmp (key_at self.now) key.now }
    {
        self.kind
            .cmp(&key.kind)
            .then(self.text.as_slice().cmp(&key.text.as_bytes()))
    }
}

impl FromEntry for TableKey {
    ghost is_read = { ReadsRow Objects numbered_key key_of_object };

    fn from_entry(alloc: Global, row: &Row) -> Result<TableKey, ScanError> {
        Ok(TableKey {
            kind: read_kind(value_at(alloc, row, 1)?)?,
            text: short_text(value_at(alloc, row, 2)?),
            rowid: value_at(alloc, row, 0)?,
        })
    }
}

impl<S: Store> StoreReader<S> {
    // Whether the tree of the objects is a table, and that of their keys an index.
    fn is_shaped(&self) -> bool
        ensures { IsTrue result → AreShaped (S.Store.view (trees_of self.now)) }
    {
        self.trees.shape(OBJECT_TREE) == Shape::Table
            && self.trees.shape(KEY_TREE) == Shape::Index(Order::PLAIN)
    }

    /// A page: the first objects of a kind whose keys are not below these bytes, in the order of
    /// keys, at most 256. It is empty only if there is no such object. No other object is read.
    /// `S1`, also where the trees have no table of objects or no index of their keys, or an entry
    /// of the index is none of an object's; `S2`.
    #[tactic(auto, using(crate::proofs::Readers::read_only, crate::proofs::Readers::unread))]
    pub fn objects_from(
        &mut self,
        alloc: Global,
        kind: Kind,
        from: &[u8],
    ) -> Result<Vec<(Key, Object)>, StoreFault>
        ensures same { IsReadOnly S.Store self.old self.new result }
        ensures page { IsHonestReader S.Store self.new → (k : StoreState)
            → ReaderRepresents S.Store self.old k
            → IfOk result (λ page. IsPage k.registry.content kind from.now page.items) }
        ensures cause { IfErr result IsFailure }
    {
        no_record_begins_another();
        if !self.is_shaped() {
            return Err(StoreFault::Failed(Cause::ForeignRow(Table::Object)));
        }
        let stored = objects_from(alloc, &mut self.trees, kind_number(kind), from)?;
        entries_of(alloc, stored.as_slice())
    }

    /// The keys of the objects, in their order. Each object is read, one at a time, and no record
    /// is kept. All keys are in memory at once. `S1`, `S2`.
    #[tactic(auto, using(crate::proofs::Readers::read_only))]
    pub fn keys(&mut self, alloc: Global) -> Result<Vec<TableKey>, StoreFault>
        ensures same { IsReadOnly S.Store self.old self.new result }
        ensures keys { IsHonestReader S.Store self.new → (k : StoreState)
            → ReaderRepresents S.Store self.old k
            → IfOk result (λ keys. AreKeysOf k.registry.content (map key_at keys.items)) }
        ensures cause { IfErr result IsFailure }
    {
        let mut keys = stored_keys(alloc, &mut self.trees)?;
        keys.sort_unstable();
        Ok(keys)
    }

    /// The object with a key that `keys` returned. No other object is read. `S1`, also where the
    /// trees have no table of objects, or another object or none at the rowid; `S2`.
    #[tactic(auto, using(crate::proofs::Readers::read_only, crate::proofs::Readers::unread))]
    pub fn object_at(&mut self, alloc: Global, key: &TableKey) -> Result<Object, StoreFault>
        ensures same { IsReadOnly S.Store self.old self.new result }
        ensures object { IsHonestReader S.Store self.new → (k : StoreState)
            → ReaderRepresents S.Store self.old k
            → IfOk result (λ object. k.registry.content (key_at key.now) ≡ Some object) }
        ensures cause { IfErr result IsFailure }
    {
        no_record_begins_another();
        if self.trees.shape(OBJECT_TREE) != Shape::Table {
            return Err(StoreFault::Failed(Cause::ForeignRow(Table::Object)));
        }
        let found = find_object(alloc, &mut self.trees, key.rowid)?;
        object_in_row(alloc, key, found)
    }
}

// The kind with this number. `Foreign` where it is none.
fn read_kind(number: u32) -> Result<Kind, ScanError>
    ensures { IfOk result (λ kind. number ≡ kind_rank kind) }
{
    match kind_of(number) {
        Ok(kind) => Ok(kind),
        Err(_) => Err(ScanError::Foreign),
    }
}

// The text, without an allocation where it is short.
fn short_text(text: Vec<u8>) -> SmallVec<u8, 24>
    ensures { result.items ≡ text.items }
{
    let mut text = SmallVec::from_vec(text);
    text.shrink_to_fit();
    text
}

// The keys, in the order of rowids.
fn stored_keys<S: Store>(alloc: Global, trees: &mut S) -> Result<Vec<TableKey>, ScanError>
    ensures read { IsScan S.Store trees.old trees.new
        (λ c keys. map numbered_key keys.items ≡ map key_of_object c.objects) result }
{
    read_all(alloc, trees, OBJECT_TREE)
}

// The object of this key in a row. `S1` where there is no row, or it is of another key, or it is no
// object's; `S2`.
fn object_in_row(
    alloc: Global,
    key: &TableKey,
    found: Option<StoredObject>,
) -> Result<Object, StoreFault>
    ensures entry { IfOk result (λ object. option_map (λ it. record_row (stored_entry it)) found
        ≡ Some (entry_row (key_at key.now, object))) }
    ensures cause { IfErr result IsFailure }
{
    let Some(stored) = found else {
        return Err(StoreFault::Failed(Cause::ForeignRow(Table::Object)));
    };
    if stored.kind != kind_number(key.kind) || stored.key.as_slice() != key.text.as_slice() {
        return Err(StoreFault::Failed(Cause::ForeignRow(Table::Object)));
    }
    let mut headings = Headings::new(alloc);
    record_object(alloc, &mut headings, stored.record.as_slice())
}
