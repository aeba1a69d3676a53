//! Finding the store in a connection's database.

ghost use Rattle.std.specs.Prelude.{◌≡◌, IsTrue, IfOk, IfErr, OnOk, OnErr};
ghost use Rattle.sqlite.specs.Held.{state};
ghost use Rattle.sqlite.specs.State.{HasCleanDisk, Survives, KeepsCommit, IsUnchanged};
ghost use Rattle.esc_store.specs.Faults.{IsOpenFault};
ghost use Rattle.esc_store.specs.StoreState.{StoreState};
ghost use Rattle.esc_sql.specs.Schema.{store_schema};
ghost use Rattle.esc_store.specs.Opening.{IsSettled, IsAsItWas, IsOpeningFault};
ghost use Rattle.esc_store.specs.StoreTables.{IsStore, IsStoreDatabase, IsOfVersion};

use crate::cause::Cause;
use crate::codec::manifest::kept_manifest;
use crate::fault::StoreFault;
use crate::founding::give_up_in;
use esc_manifest::Manifest;
use esc_sql::info::find_version;
use esc_sql::listed::all_listed;
use esc_sql::open::has_tables;
use sqlite::{Alter, Connection};
use std::alloc::Global;

/// The version of the stores that this crate makes and opens.
pub(crate) const VERSION: i64 = 2;

// Tests that a database with the nine tables is of this version. `S3` where it is not.
fn test_version<S: Alter>(conn: &mut Connection<S>) -> Result<(), StoreFault>
    requires tables { (state S.Store conn.old).now.schema ≡ store_schema }
    ensures survives { Survives (state S.Store conn.old) (state S.Store conn.new) (λ _. ⊥) }
    ensures kept { HasCleanDisk (state S.Store conn.new)
        → KeepsCommit (state S.Store conn.old) (state S.Store conn.new) }
    ensures version { OnOk result (HasCleanDisk (state S.Store conn.new)
        → IsUnchanged (state S.Store conn.old) (state S.Store conn.new)
        × IsOfVersion (state S.Store conn.old).now) }
    ensures never { IfErr result (λ fault. fault ≡ StoreFault.NotAStore
        → HasCleanDisk (state S.Store conn.new)
        → IsTrue (state S.Store conn.new).is_open → IsSettled (state S.Store conn.old)
        → (k : StoreState)
        → IsStore (state S.Store conn.old).committed.trees k → ⊥) }
    ensures cause { IfErr result IsOpenFault }
{
    if find_version(conn)? != Some(VERSION) {
        return Err(StoreFault::NotAStore);
    }
    Ok(())
}

// The manifest of the store that the database is.
fn read_manifest<S: Alter>(alloc: Global, conn: &mut Connection<S>) -> Result<Manifest, StoreFault>
    requires tables { (state S.Store conn.old).now.schema ≡ store_schema }
    ensures survives { Survives (state S.Store conn.old) (state S.Store conn.new) (λ _. ⊥) }
    ensures kept { HasCleanDisk (state S.Store conn.new)
        → KeepsCommit (state S.Store conn.old) (state S.Store conn.new) }
    ensures version { OnOk result (HasCleanDisk (state S.Store conn.new)
        → IsUnchanged (state S.Store conn.old) (state S.Store conn.new)
        × IsOfVersion (state S.Store conn.old).now) }
    ensures manifest { IfOk result (λ manifest. HasCleanDisk (state S.Store conn.new)
        → (k : StoreState)
        → IsStoreDatabase (state S.Store conn.old).now k → manifest ≡ k.listed) }
    ensures never { IfErr result (λ fault. fault ≡ StoreFault.NotAStore
        → HasCleanDisk (state S.Store conn.new)
        → IsTrue (state S.Store conn.new).is_open → IsSettled (state S.Store conn.old)
        → (k : StoreState)
        → IsStore (state S.Store conn.old).committed.trees k → ⊥) }
    ensures cause { IfErr result IsOpenFault }
{
    test_version(conn)?;
    let stored = all_listed(alloc, conn)?;
    kept_manifest(alloc, stored.as_slice())
}

// The same as `read_manifest`, on a connection without a transaction: where it fails the connection
// is as it was. `S1` also in a transaction, which goes on.
pub(crate) fn find_manifest<S: Alter>(
    alloc: Global,
    conn: &mut Connection<S>,
) -> Result<Manifest, StoreFault>
    ensures survives { Survives (state S.Store conn.old) (state S.Store conn.new) (λ _. ⊥) }
    ensures version { OnOk result (HasCleanDisk (state S.Store conn.new)
        → IsUnchanged (state S.Store conn.old) (state S.Store conn.new)
        × IsOfVersion (state S.Store conn.old).now) }
    ensures settled { OnOk result (IsSettled (state S.Store conn.old)) }
    ensures manifest { IfOk result (λ manifest. HasCleanDisk (state S.Store conn.new)
        → (k : StoreState)
        → IsStoreDatabase (state S.Store conn.old).now k → manifest ≡ k.listed) }
    ensures never { IfErr result (λ fault. fault ≡ StoreFault.NotAStore
        → HasCleanDisk (state S.Store conn.new)
        → IsTrue (state S.Store conn.new).is_open → (k : StoreState)
        → IsStore (state S.Store conn.old).committed.trees k → ⊥) }
    ensures unchanged { OnErr result (IsAsItWas (state S.Store conn.old) (state S.Store conn.new)) }
    ensures cause { IfErr result (IsOpeningFault store_schema (state S.Store conn.old)) }
{
    if !conn.is_autocommit() {
        return Err(StoreFault::Failed(Cause::InTransaction));
    }
    if !has_tables(conn) {
        return Err(StoreFault::NotAStore);
    }
    match read_manifest(alloc, conn) {
        Ok(manifest) => Ok(manifest),
        Err(fault) => {
            give_up_in(conn);
            Err(fault)
        }
    }
}
