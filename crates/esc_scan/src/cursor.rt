//! A cursor at a table.

ghost use Rattle.std.specs.Prelude.{◌≡◌, filter, IfOk, OnOk, IsSome};
ghost use Rattle.sqlite_trees.specs.View.{IsClean, IsQuiet};
ghost use Rattle.sqlite_value.specs.Keys.{plain};
ghost use Rattle.sqlite_trees.specs.Tree.{from_key, has_rowid, IsIndex};
ghost use Rattle.esc_sql.specs.Reading.{AreRead};
ghost use Rattle.esc_scan.specs.Scanning.{OnlyCursors, GivesNext, ReadsNext, ReadsFirst, left_of};

use crate::rows::{FromEntry, ScanError};
use sqlite_trees::error::StoreError;
use sqlite_trees::store::{Direction, Shape, Store};
use sqlite_value::row::Row;
use std::alloc::Global;

/// A scan of a table: its rows in the order of their rowids, one at a time. It has the store for
/// itself, so nothing is written meanwhile. A row is read over the last one, so no more than the
/// largest row is in memory.
#[derive(Drop)]
pub(crate) struct Scan<'a, S: Store> {
    store: &'a mut S,
}

impl<'a, S: Store> Scan<'a, S> {
    ghost use Rattle.esc_scan.specs.ScannedStore.{scan_name, scanned_store};

    /// A scan that has not begun. Doesn't allocate.
    pub fn new(store: &'a mut S) -> Scan<'a, S>
        ensures same_reference { scan_name result ≡ store.entry.ghost_name }
        ensures same { scanned_store result ≡ store.old }
    {
        Scan { store }
    }

    /// Begins at the index with this tree's number: its entries are left that are not below `key`.
    pub fn start_at(&mut self, tree: u32, key: &Row) -> Result<(), StoreError>
        requires { IsClean (S.Store.view (scanned_store self.old))
            → (S.Store.view (scanned_store self.old)).shape tree ≡ Shape.Index plain }
        ensures same_reference { scan_name self.new ≡ scan_name self.old }
        ensures live { OnOk result (IsSome ((S.Store.view (scanned_store self.new)).cursors 0)) }
        ensures ordered { OnOk result (IsClean (S.Store.view (scanned_store self.new))
            → IsIndex plain ((S.Store.view (scanned_store self.old)).trees tree)) }
        ensures left { OnOk result (IsClean (S.Store.view (scanned_store self.new))
            → left_of (S.Store.view (scanned_store self.new))
            ≡ from_key plain key.now ((S.Store.view (scanned_store self.old)).trees tree)) }
        ensures only { OnOk result (IsClean (S.Store.view (scanned_store self.new))
            → OnlyCursors (S.Store.view (scanned_store self.old))
            (S.Store.view (scanned_store self.new))) }
        ensures quiet { IsQuiet S.Store.view S.Store.faults S.Store.recovers
            S.Store.is_shielded (scanned_store self.old) (scanned_store self.new) }
    {
        self.store.seek(0, tree, key, Direction::Forward)
    }

    /// Begins at the table with this tree's number: all of its rows are left. Another table may
    /// have been scanned before.
    pub fn start(&mut self, alloc: Global, tree: u32) -> Result<(), StoreError>
        ensures same_reference { scan_name self.new ≡ scan_name self.old }
        ensures live { OnOk result (IsSome ((S.Store.view (scanned_store self.new)).cursors 0)) }
        ensures whole { OnOk result (IsClean (S.Store.view (scanned_store self.new))
            → left_of (S.Store.view (scanned_store self.new))
            ≡ (S.Store.view (scanned_store self.old)).trees tree) }
        ensures only { OnOk result (IsClean (S.Store.view (scanned_store self.new))
            → OnlyCursors (S.Store.view (scanned_store self.old))
            (S.Store.view (scanned_store self.new))) }
        ensures quiet { IsQuiet S.Store.view S.Store.faults S.Store.recovers
            S.Store.is_shielded (scanned_store self.old) (scanned_store self.new) }
    {
        let key = Row::new(alloc);
        self.store.seek(0, tree, &key, Direction::Forward)
    }

    /// Writes the next row over `row`, or answers false where none is left.
    pub fn next(&mut self, row: &mut Row) -> Result<bool, StoreError>
        requires { IsSome ((S.Store.view (scanned_store self.old)).cursors 0) }
        ensures same_reference { scan_name self.new ≡ scan_name self.old }
        ensures live { OnOk result (IsSome ((S.Store.view (scanned_store self.new)).cursors 0)) }
        ensures gives { IfOk result (λ found. IsClean (S.Store.view (scanned_store self.new))
            → GivesNext (S.Store.view (scanned_store self.old))
            (S.Store.view (scanned_store self.new)) row.new found) }
        ensures only { OnOk result (IsClean (S.Store.view (scanned_store self.new))
            → OnlyCursors (S.Store.view (scanned_store self.old))
            (S.Store.view (scanned_store self.new))) }
        ensures quiet { IsQuiet S.Store.view S.Store.faults S.Store.recovers
            S.Store.is_shielded (scanned_store self.old) (scanned_store self.new) }
    {
        self.store.next(0, row)
    }

    /// Reads the next row as a value, over `row`, or `None` where none is left.
    pub fn next_value<T: FromEntry>(
        &mut self,
        alloc: Global,
        row: &mut Row,
    ) -> Result<Option<T>, ScanError>
        requires { IsSome ((S.Store.view (scanned_store self.old)).cursors 0) }
        ensures same_reference { scan_name self.new ≡ scan_name self.old }
        ensures live { OnOk result (IsSome ((S.Store.view (scanned_store self.new)).cursors 0)) }
        ensures reads { IfOk result (λ found. IsClean (S.Store.view (scanned_store self.new))
            → ReadsNext T.FromEntry.is_read (S.Store.view (scanned_store self.old))
            (S.Store.view (scanned_store self.new)) found) }
        ensures only { OnOk result (IsClean (S.Store.view (scanned_store self.new))
            → OnlyCursors (S.Store.view (scanned_store self.old))
            (S.Store.view (scanned_store self.new))) }
        ensures quiet { IsQuiet S.Store.view S.Store.faults S.Store.recovers
            S.Store.is_shielded (scanned_store self.old) (scanned_store self.new) }
    {
        if !self.next(row)? {
            return Ok(None);
        }
        Ok(Some(T::from_entry(alloc, row)?))
    }
}

/// All rows of the table with this tree's number as values, in the order of their rowids. They are
/// read one at a time.
pub fn read_all<S: Store, T: FromEntry>(
    alloc: Global,
    store: &mut S,
    tree: u32,
) -> Result<Vec<T>, ScanError>
    ensures reads { IfOk result (λ all. IsClean (S.Store.view store.new)
        → AreRead T.FromEntry.is_read ((S.Store.view store.old).trees tree) all.items) }
    ensures only { OnOk result (IsClean (S.Store.view store.new)
        → OnlyCursors (S.Store.view store.old) (S.Store.view store.new)) }
    ensures quiet { IsQuiet S.Store.view S.Store.faults S.Store.recovers S.Store.is_shielded
        store.old store.new }
{
    let mut scan = Scan::new(store);
    scan.start(alloc, tree)?;
    let mut row = Row::new(alloc);
    let mut all = Vec::new(alloc);
    for _ in 0..u64::MAX {
        match scan.next_value(alloc, &mut row)? {
            Some(value) => all.push(value)?,
            None => return Ok(all),
        }
    }
    // No sound store has this many rows.
    Err(ScanError::Store(StoreError::OutOfMemory))
}

/// The first row of the table with this tree's number as a value, if the table has a row.
#[tactic(auto, using(crate::proofs::Scans::first_read))]
pub(crate) fn read_first<S: Store, T: FromEntry>(
    alloc: Global,
    store: &mut S,
    tree: u32,
) -> Result<Option<T>, ScanError>
    ensures reads { IfOk result (λ found. IsClean (S.Store.view store.new)
        → ReadsFirst T.FromEntry.is_read ((S.Store.view store.old).trees tree) found) }
    ensures only { OnOk result (IsClean (S.Store.view store.new)
        → OnlyCursors (S.Store.view store.old) (S.Store.view store.new)) }
    ensures quiet { IsQuiet S.Store.view S.Store.faults S.Store.recovers S.Store.is_shielded
        store.old store.new }
{
    let mut scan = Scan::new(store);
    scan.start(alloc, tree)?;
    let mut row = Row::new(alloc);
    let found = scan.next_value(alloc, &mut row)?;
    Ok(found)
}

/// The row with this rowid as a value, if the table with this tree's number has it. No other row is
/// read.
#[tactic(auto, using(crate::proofs::Scans::only_same))]
pub(crate) fn read_at<S: Store, T: FromEntry>(
    alloc: Global,
    store: &mut S,
    tree: u32,
    id: i64,
) -> Result<Option<T>, ScanError>
    requires { IsClean (S.Store.view store.old)
        → (S.Store.view store.old).shape tree ≡ Shape.Table }
    ensures reads { IfOk result (λ found. IsClean (S.Store.view store.new)
        → ReadsFirst T.FromEntry.is_read
        (filter (has_rowid id) ((S.Store.view store.old).trees tree)) found) }
    ensures only { OnOk result (IsClean (S.Store.view store.new)
        → OnlyCursors (S.Store.view store.old) (S.Store.view store.new)) }
    ensures quiet { IsQuiet S.Store.view S.Store.faults S.Store.recovers S.Store.is_shielded
        store.old store.new }
{
    let mut row = Row::new(alloc);
    if !store.get(tree, id, &mut row)? {
        return Ok(None);
    }
    Ok(Some(T::from_entry(alloc, &row)?))
}
