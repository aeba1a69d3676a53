//! The table of objects.

ghost use Rattle.std.specs.Prelude.{◌≡◌, map, option_map};
ghost use Rattle.sqlite_trees.specs.View.{IsClean};
ghost use Rattle.esc_sql.specs.StoreTable.{Objects};
ghost use Rattle.esc_sql.specs.Changes.{object_entry};
ghost use Rattle.esc_sql.specs.Entries.{stored_entry};
ghost use Rattle.esc_scan.specs.Scanning.{ReadsRow, IsScan};
ghost use Rattle.esc_scan.specs.Kinds.{kind_read, kind_of_object};
ghost use Rattle.esc_scan.specs.ObjectKeys.{object_with};

use crate::cursor::{read_all, read_at};
use crate::rows::{FromEntry, ScanError, value_at};
use esc_sql::object::StoredObject;
use sqlite_trees::store::{Shape, Store};
use sqlite_value::row::Row;
use std::alloc::Global;

/// The number of the table's tree.
pub const OBJECT_TREE: u32 = 9;

impl FromEntry for StoredObject {
    ghost is_read = { ReadsRow Objects stored_entry object_entry };

    fn from_entry(alloc: Global, row: &Row) -> Result<StoredObject, ScanError> {
        Ok(StoredObject {
            kind: value_at(alloc, row, 1)?,
            key: value_at(alloc, row, 2)?,
            record: value_at(alloc, row, 3)?,
        })
    }
}

/// The kind of an object (0 to 5).
#[derive(Clone, Copy, Debug)]
pub struct ObjectKind {
    pub kind: u32,
}

impl FromEntry for ObjectKind {
    ghost is_read = { ReadsRow Objects kind_read kind_of_object };

    fn from_entry(alloc: Global, row: &Row) -> Result<ObjectKind, ScanError> {
        Ok(ObjectKind {
            kind: value_at(alloc, row, 1)?,
        })
    }
}

/// The kind of each object: from these the objects of each kind are counted.
pub fn object_kinds<S: Store>(alloc: Global, store: &mut S) -> Result<Vec<ObjectKind>, ScanError>
    ensures read { IsScan S.Store store.old store.new
        (λ c found. map kind_read found.items ≡ map kind_of_object c.objects) result }
{
    read_all(alloc, store, OBJECT_TREE)
}

/// The object with this rowid, if there is one. No other object is read.
pub fn find_object<S: Store>(
    alloc: Global,
    store: &mut S,
    id: i64,
) -> Result<Option<StoredObject>, ScanError>
    requires { IsClean (S.Store.view store.old)
        → (S.Store.view store.old).shape OBJECT_TREE ≡ Shape.Table }
    ensures read { IsScan S.Store store.old store.new
        (λ c found. option_map stored_entry found ≡ object_with id c.objects) result }
{
    let found = read_at(alloc, store, OBJECT_TREE, id)?;
    Ok(found)
}
