//! Pages of the table of objects, by the index of their keys.

ghost use Rattle.std.specs.Prelude.{◌≡◌, ◌∷◌, [], pos, Some, map, IfOk, OnOk, IsSome};
ghost use Rattle.sqlite_value.specs.declared.value.Value.TheVariants.{Int, Blob};
ghost use Rattle.sqlite_value.specs.Keys.{plain};
ghost use Rattle.sqlite_trees.specs.Tree.{from_key, IsIndex};
ghost use Rattle.sqlite_trees.specs.View.{IsClean, IsQuiet};
ghost use Rattle.esc_sql.specs.Changes.{ListsFrom};
ghost use Rattle.esc_sql.specs.Entries.{stored_entry};
ghost use Rattle.esc_scan.specs.KeyIndex.{AreFirstOf, AreShaped, GivesOfKind, HasKeys, IsKeyRead};
ghost use Rattle.esc_scan.specs.ScannedStore.{scan_name, scanned_store};
ghost use Rattle.esc_scan.specs.ObjectKeys.{object_with};
ghost use Rattle.esc_scan.specs.Scanning.{IsScan, OnlyCursors, left_of};

use crate::cursor::Scan;
use crate::object::find_object;
use crate::rows::{FromEntry, ScanError, value_at};
use esc_sql::object::StoredObject;
use sqlite_trees::store::Store;
use sqlite_value::row::Row;
use sqlite_value::value::ValueRef;
use std::alloc::{AllocError, Global};

/// The number of the index's tree.
pub const KEY_TREE: u32 = 10;

/// The most objects of a page.
const MOST_ON_PAGE: usize = 256;

/// An entry of the index: the number of a kind, the key's bytes, and the object's rowid.
#[derive(Debug, Drop)]
pub(crate) struct KeyEntry {
    pub kind: u32,
    pub key: Vec<u8>,
    pub rowid: i64,
}

impl KeyEntry {
    // Whether this is the object's entry.
    fn is_of(&self, object: &StoredObject) -> bool {
        self.kind == object.kind && self.key == object.key
    }
}

impl FromEntry for KeyEntry {
    ghost is_read = { IsKeyRead };

    fn from_entry(alloc: Global, row: &Row) -> Result<KeyEntry, ScanError> {
        Ok(KeyEntry {
            kind: value_at(alloc, row, 0)?,
            key: value_at(alloc, row, 1)?,
            rowid: value_at(alloc, row, 2)?,
        })
    }
}

/// The first objects of a kind whose keys are not below these bytes, in the byte order of keys: at
/// most 256. The result is empty only if there is no such object. Of the others no row is read.
/// `Foreign` also where an entry of the index has another key than the row that it leads to, or
/// leads to none.
pub fn objects_from<S: Store>(
    alloc: Global,
    store: &mut S,
    kind: u32,
    from: &[u8],
) -> Result<Vec<StoredObject>, ScanError>
    requires shaped { IsClean (S.Store.view store.old) → AreShaped (S.Store.view store.old) }
    ensures read { IsScan S.Store store.old store.new (λ c found.
        HasKeys (S.Store.view store.old).trees c
        → ListsFrom kind from.now c (map stored_entry found.items)) result }
{
    let entries = entries_from(alloc, store, kind, from)?;
    objects_at(alloc, store, &entries)
}

// The first entries of a kind, from a key on.
fn entries_from<S: Store>(
    alloc: Global,
    store: &mut S,
    kind: u32,
    from: &[u8],
) -> Result<Vec<KeyEntry>, ScanError>
    requires shaped { IsClean (S.Store.view store.old) → AreShaped (S.Store.view store.old) }
    ensures ordered { OnOk result (IsClean (S.Store.view store.new)
        → IsIndex plain ((S.Store.view store.old).trees KEY_TREE)) }
    ensures entries { IfOk result (λ entries. IsClean (S.Store.view store.new)
        → AreFirstOf kind (from_key plain (Int (pos kind) ∷ Blob from.now ∷ [])
        ((S.Store.view store.old).trees KEY_TREE)) entries.items) }
    ensures only { OnOk result (IsClean (S.Store.view store.new)
        → OnlyCursors (S.Store.view store.old) (S.Store.view store.new)) }
    ensures quiet { IsQuiet S.Store.view S.Store.faults S.Store.recovers S.Store.is_shielded
        store.old store.new }
{
    let key = key_from(alloc, kind, from)?;
    let mut scan = Scan::new(store);
    scan.start_at(KEY_TREE, &key)?;
    let entries = read_entries(alloc, &mut scan, kind)?;
    Ok(entries)
}

// The first of the entries left, up to one of another kind.
fn read_entries<S: Store>(
    alloc: Global,
    scan: &mut Scan<'_, S>,
    kind: u32,
) -> Result<Vec<KeyEntry>, ScanError>
    requires { IsSome ((S.Store.view (scanned_store scan.old)).cursors 0) }
    ensures same_reference { scan_name scan.new ≡ scan_name scan.old }
    ensures entries { IfOk result (λ entries. IsClean (S.Store.view (scanned_store scan.new))
        → AreFirstOf kind (left_of (S.Store.view (scanned_store scan.old))) entries.items) }
    ensures only { OnOk result (IsClean (S.Store.view (scanned_store scan.new))
        → OnlyCursors (S.Store.view (scanned_store scan.old))
        (S.Store.view (scanned_store scan.new))) }
    ensures quiet { IsQuiet S.Store.view S.Store.faults S.Store.recovers
        S.Store.is_shielded (scanned_store scan.old) (scanned_store scan.new) }
{
    let mut row = Row::new(alloc);
    let mut entries = Vec::new(alloc);
    for _ in 0..MOST_ON_PAGE {
        match next_of(alloc, scan, &mut row, kind)? {
            Some(entry) => entries.push(entry)?,
            None => return Ok(entries),
        }
    }
    Ok(entries)
}

// The next entry, if there is one and it is of this kind.
fn next_of<S: Store>(
    alloc: Global,
    scan: &mut Scan<'_, S>,
    row: &mut Row,
    kind: u32,
) -> Result<Option<KeyEntry>, ScanError>
    requires { IsSome ((S.Store.view (scanned_store scan.old)).cursors 0) }
    ensures same_reference { scan_name scan.new ≡ scan_name scan.old }
    ensures live { OnOk result (IsSome ((S.Store.view (scanned_store scan.new)).cursors 0)) }
    ensures next { IfOk result (λ found. IsClean (S.Store.view (scanned_store scan.new))
        → GivesOfKind kind (S.Store.view (scanned_store scan.old))
        (S.Store.view (scanned_store scan.new)) found) }
    ensures only { OnOk result (IsClean (S.Store.view (scanned_store scan.new))
        → OnlyCursors (S.Store.view (scanned_store scan.old))
        (S.Store.view (scanned_store scan.new))) }
    ensures quiet { IsQuiet S.Store.view S.Store.faults S.Store.recovers
        S.Store.is_shielded (scanned_store scan.old) (scanned_store scan.new) }
{
    let Some(entry) = scan.next_value::<KeyEntry>(alloc, row)? else {
        return Ok(None);
    };
    if entry.kind != kind {
        return Ok(None);
    }
    Ok(Some(entry))
}

// What the entries of a kind from a key on are not below.
fn key_from(alloc: Global, kind: u32, from: &[u8]) -> Result<Row, AllocError>
    ensures { IfOk result (λ key. key ≡ Int (pos kind) ∷ Blob from.now ∷ []) }
{
    let mut key = Row::new(alloc);
    key.push(ValueRef::Int(i64::from(kind)))?;
    key.push(ValueRef::Blob(from))?;
    Ok(key)
}

// The objects of these entries. `Foreign` where an entry is none of an object's.
fn objects_at<S: Store>(
    alloc: Global,
    store: &mut S,
    entries: &[KeyEntry],
) -> Result<Vec<StoredObject>, ScanError>
    requires shaped { IsClean (S.Store.view store.old) → AreShaped (S.Store.view store.old) }
    ensures read { IsScan S.Store store.old store.new (λ c found.
        map (λ it. Some (stored_entry it)) found.items
        ≡ map (λ entry. object_with entry.rowid c.objects) entries.now) result }
{
    let mut found = Vec::with_capacity(alloc, entries.len())?;
    for entry in entries {
        found.push(object_of(alloc, store, entry)?)?;
    }
    Ok(found)
}

// The object of this entry. `Foreign` where it is none of an object's: the index isn't audited
// where a store is read, so it may be wrong.
fn object_of<S: Store>(
    alloc: Global,
    store: &mut S,
    entry: &KeyEntry,
) -> Result<StoredObject, ScanError>
    requires shaped { IsClean (S.Store.view store.old) → AreShaped (S.Store.view store.old) }
    ensures read { IsScan S.Store store.old store.new (λ c object.
        Some (stored_entry object) ≡ object_with entry.now.rowid c.objects) result }
{
    match find_object(alloc, store, entry.rowid)? {
        Some(object) if entry.is_of(&object) => Ok(object),
        _ => Err(ScanError::Foreign),
    }
}
