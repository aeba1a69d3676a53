//! A store of version 1, which becomes one of this version.

ghost use Rattle.std.specs.Prelude.{◌≡◌, IsTrue, IfOk, IfErr, OnOk, OnErr, MatchResult};
ghost use Rattle.sqlite_trees.specs.Tree.{Trees};
ghost use Rattle.sqlite.specs.Held.{state};
ghost use Rattle.sqlite.specs.State.{HasCleanDisk, Survives, KeepsCommit, IsUnchanged};
ghost use Rattle.esc_store.specs.Faults.{IsFailure, IsOpenFault};
ghost use Rattle.esc_store.specs.StoreState.{StoreState};
ghost use Rattle.esc_store.specs.Opening.{IsSettled, IsAsItWas, IsOpeningFault, IsNoStore};
ghost use Rattle.esc_store.specs.Opening.{IsOpened};
ghost use Rattle.esc_store.specs.Remembered.{nothing_read};
ghost use Rattle.esc_store.specs.StoreTables.{IsStore, IsStoreDatabase};
ghost use Rattle.esc_store.specs.Representation.{IsStanding, IsHonest, connection_of};
ghost use Rattle.esc_store.specs.FirstVersion.{IsFirstStore, IsFirstDatabase, IsOfFirstVersion};
ghost use Rattle.esc_store.specs.FirstVersion.{HoldsFirst, SeesFirst, LeavesFirstOr};
ghost use Rattle.esc_sql.specs.Schema.{first_schema};

use crate::cause::Cause;
use crate::codec::manifest::kept_manifest;
use crate::fault::StoreFault;
use crate::founding::give_up_in;
use crate::remembered::NOTHING;
use crate::store::Store;
use esc_manifest::Manifest;
use esc_sql::create::upgrade;
use esc_sql::info::find_version;
use esc_sql::listed::all_listed;
use esc_sql::open::has_first_tables;
use esc_sql::transaction::{begin_in, commit_in};
use sqlite::{Alter, Connection, Error};
use std::alloc::Global;

/// The version of the stores that become those of this version.
pub(crate) const FIRST_VERSION: i64 = 1;

// Tests that a database with the seven tables is of version 1. `S3` where it is not.
fn test_first<S: Alter>(conn: &mut Connection<S>) -> Result<(), StoreFault>
    requires tables { (state S.Store conn.old).now.schema ≡ first_schema }
    ensures survives { Survives (state S.Store conn.old) (state S.Store conn.new) (λ _. ⊥) }
    ensures kept { HasCleanDisk (state S.Store conn.new)
        → KeepsCommit (state S.Store conn.old) (state S.Store conn.new) }
    ensures version { OnOk result (HasCleanDisk (state S.Store conn.new)
        → IsUnchanged (state S.Store conn.old) (state S.Store conn.new)
        × IsOfFirstVersion (state S.Store conn.old).now) }
    ensures never { IfErr result (λ fault. fault ≡ StoreFault.NotAStore
        → HasCleanDisk (state S.Store conn.new)
        → IsTrue (state S.Store conn.new).is_open → IsSettled (state S.Store conn.old)
        → (k : StoreState)
        → IsFirstStore (state S.Store conn.old).committed.trees k → ⊥) }
    ensures cause { IfErr result IsOpenFault }
{
    if find_version(conn)? != Some(FIRST_VERSION) {
        return Err(StoreFault::NotAStore);
    }
    Ok(())
}

// Begins a transaction, and makes the tables of this version in it.
fn upgrade_here<S: Alter>(conn: &mut Connection<S>) -> Result<(), Error>
    ensures survives { Survives (state S.Store conn.old) (state S.Store conn.new) (λ _. ⊥) }
    ensures kept { HasCleanDisk (state S.Store conn.new)
        → KeepsCommit (state S.Store conn.old) (state S.Store conn.new) }
    ensures upgraded { OnOk result (HasCleanDisk (state S.Store conn.new) → (k : StoreState)
        → IsFirstDatabase (state S.Store conn.old).now k
        → IsStoreDatabase (state S.Store conn.new).now k) }
{
    begin_in(conn)?;
    upgrade(conn)
}

// The same as `upgrade_here`. Returns the manifest of the store.
fn read_upgraded<S: Alter>(alloc: Global, conn: &mut Connection<S>) -> Result<Manifest, StoreFault>
    ensures survives { Survives (state S.Store conn.old) (state S.Store conn.new) (λ _. ⊥) }
    ensures kept { HasCleanDisk (state S.Store conn.new)
        → KeepsCommit (state S.Store conn.old) (state S.Store conn.new) }
    ensures upgraded { OnOk result (HasCleanDisk (state S.Store conn.new) → (k : StoreState)
        → IsFirstDatabase (state S.Store conn.old).now k
        → IsStoreDatabase (state S.Store conn.new).now k) }
    ensures manifest { IfOk result (λ manifest. HasCleanDisk (state S.Store conn.new)
        → (k : StoreState)
        → IsFirstDatabase (state S.Store conn.old).now k → manifest ≡ k.listed) }
    ensures cause { IfErr result IsFailure }
{
    upgrade_here(conn)?;
    let stored = all_listed(alloc, conn)?;
    kept_manifest(alloc, stored.as_slice())
}

// The same as `read_upgraded`, and commits it.
fn commit_upgraded<S: Alter>(
    alloc: Global,
    conn: &mut Connection<S>,
) -> Result<Manifest, StoreFault>
    ensures survives { (k : StoreState) → (HasCleanDisk (state S.Store conn.old)
        → IsFirstDatabase (state S.Store conn.old).now k)
        → Survives (state S.Store conn.old) (state S.Store conn.new) (λ trees. IsStore trees k) }
    ensures honest { HasCleanDisk (state S.Store conn.new)
        → HasCleanDisk (state S.Store conn.old) }
    ensures kept { HasCleanDisk (state S.Store conn.new)
        → OnErr result (KeepsCommit (state S.Store conn.old) (state S.Store conn.new)) }
    ensures stands { IfOk result (λ manifest. (k : StoreState)
        → (HasCleanDisk (state S.Store conn.old)
        → IsFirstDatabase (state S.Store conn.old).now k) → HasCleanDisk (state S.Store conn.new)
        → IsStanding (state S.Store conn.new) manifest nothing_read k) }
    ensures left { OnOk result ((k : StoreState) → (HasCleanDisk (state S.Store conn.old)
        → IsFirstDatabase (state S.Store conn.old).now k) → HasCleanDisk (state S.Store conn.new)
        → (trees : Trees) → (state S.Store conn.new).may_leave trees → IsStore trees k) }
    ensures cause { IfErr result IsFailure }
{
    let manifest = read_upgraded(alloc, conn)?;
    commit_in(conn)?;
    Ok(manifest)
}

// The same as `commit_upgraded`, where the version is tested first: `S3` if it is not 1.
fn migrate_whole<S: Alter>(alloc: Global, conn: &mut Connection<S>) -> Result<Manifest, StoreFault>
    requires tables { (state S.Store conn.old).now.schema ≡ first_schema }
    ensures survives { (k : StoreState) → SeesFirst (state S.Store conn.old) k
        → Survives (state S.Store conn.old) (state S.Store conn.new) (λ trees. IsStore trees k) }
    ensures honest { HasCleanDisk (state S.Store conn.new)
        → HasCleanDisk (state S.Store conn.old) }
    ensures kept { HasCleanDisk (state S.Store conn.new)
        → OnErr result (KeepsCommit (state S.Store conn.old) (state S.Store conn.new)) }
    ensures version { OnOk result (HasCleanDisk (state S.Store conn.new)
        → IsOfFirstVersion (state S.Store conn.old).now) }
    ensures stands { IfOk result (λ manifest. (k : StoreState)
        → SeesFirst (state S.Store conn.old) k
        → HasCleanDisk (state S.Store conn.new)
        → IsStanding (state S.Store conn.new) manifest nothing_read k) }
    ensures left { OnOk result ((k : StoreState) → SeesFirst (state S.Store conn.old) k
        → HasCleanDisk (state S.Store conn.new)
        → (trees : Trees) → (state S.Store conn.new).may_leave trees → IsStore trees k) }
    ensures never { IfErr result (λ fault. fault ≡ StoreFault.NotAStore
        → HasCleanDisk (state S.Store conn.new)
        → IsTrue (state S.Store conn.new).is_open → IsSettled (state S.Store conn.old)
        → (k : StoreState)
        → IsFirstStore (state S.Store conn.old).committed.trees k → ⊥) }
    ensures cause { IfErr result IsOpenFault }
{
    test_first(conn)?;
    commit_upgraded(alloc, conn)
}

// The same as `migrate_whole`, on a connection without a transaction, if the database has the seven
// tables (else `S3`): where it fails the connection is as it was. `S1` also in a transaction, which
// goes on.
fn migrate_here<S: Alter>(alloc: Global, conn: &mut Connection<S>) -> Result<Manifest, StoreFault>
    ensures survives { (k : StoreState) → IsFirstStore (state S.Store conn.old).committed.trees k
        → Survives (state S.Store conn.old) (state S.Store conn.new) (λ trees. IsStore trees k) }
    ensures honest { HasCleanDisk (state S.Store conn.new)
        → HasCleanDisk (state S.Store conn.old) }
    ensures version { OnOk result (HasCleanDisk (state S.Store conn.new)
        → IsOfFirstVersion (state S.Store conn.old).now) }
    ensures settled { OnOk result (IsSettled (state S.Store conn.old)) }
    ensures stands { IfOk result (λ manifest. (k : StoreState)
        → SeesFirst (state S.Store conn.old) k
        → HasCleanDisk (state S.Store conn.new)
        → IsStanding (state S.Store conn.new) manifest nothing_read k) }
    ensures left { OnOk result ((k : StoreState)
        → IsFirstStore (state S.Store conn.old).committed.trees k
        → HasCleanDisk (state S.Store conn.new)
        → (trees : Trees) → (state S.Store conn.new).may_leave trees → IsStore trees k) }
    ensures never { IfErr result (λ fault. fault ≡ StoreFault.NotAStore
        → HasCleanDisk (state S.Store conn.new)
        → IsTrue (state S.Store conn.new).is_open → (k : StoreState)
        → IsFirstStore (state S.Store conn.old).committed.trees k → ⊥) }
    ensures unchanged { OnErr result (IsAsItWas (state S.Store conn.old) (state S.Store conn.new)) }
    ensures cause { IfErr result (IsOpeningFault first_schema (state S.Store conn.old)) }
{
    if !conn.is_autocommit() {
        return Err(StoreFault::Failed(Cause::InTransaction));
    }
    if !has_first_tables(conn) {
        return Err(StoreFault::NotAStore);
    }
    match migrate_whole(alloc, conn) {
        Ok(manifest) => Ok(manifest),
        Err(fault) => {
            give_up_in(conn);
            Err(fault)
        }
    }
}

impl<S: Alter> Store<S> {
    /// Makes a store of version 1 one of this version, in one change: it keeps what it kept, has no
    /// parked body, and has no moment.
    ///
    /// # Errors
    ///
    /// The connection is returned as it was. `S3` if the database is no store of version 1, for
    /// instance one of this version; `S1`, also in a transaction, or if the rows of its manifest
    /// are not those of an accepted one; `S2`.
    pub fn migrate(
        alloc: Global,
        connection: Connection<S>,
    ) -> Result<Store<S>, (StoreFault, Connection<S>)>
        ensures opened { IfOk result (IsOpened S.Store (HoldsFirst S.Store connection)
            IsFirstStore IsOfFirstVersion connection) }
        ensures refused { IfErr result (λ e. IsNoStore first_schema IsFirstStore
            (state S.Store connection) (state S.Store e.1) e.0) }
        ensures honest { IfOk result
            (λ store. IsHonest S.Store store → HasCleanDisk (state S.Store connection)) }
        ensures crash { (k : StoreState) → IsFirstStore (state S.Store connection).committed.trees k
            → MatchResult result
            (λ store. LeavesFirstOr S.Store connection (connection_of store) k)
            (λ e. LeavesFirstOr S.Store connection e.1 k) }
    {
        let mut connection = connection;
        match migrate_here(alloc, &mut connection) {
            Ok(manifest) => Ok(Store {
                conn: connection,
                manifest,
                writes: 0,
                remembered: NOTHING,
                alloc,
            }),
            Err(fault) => Err((fault, connection)),
        }
    }
}
