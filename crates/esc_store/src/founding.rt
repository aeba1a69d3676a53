//! A new store in a connection's database.

ghost use Rattle.std.specs.Prelude.{◌≡◌, map, IfErr, OnOk, OnErr};
ghost use Rattle.sqlite_trees.specs.Tree.{Trees};
ghost use Rattle.sqlite.specs.Held.{state};
ghost use Rattle.sqlite.specs.State.{HasCleanDisk, KeepsCommit, Survives};
ghost use Rattle.esc_sql.specs.Schema.{no_schema};
ghost use Rattle.esc_sql.specs.Entries.{listed_row};
ghost use Rattle.esc_store.specs.Faults.{IsFailure};
ghost use Rattle.esc_store.specs.StoreState.{fresh};
ghost use Rattle.esc_store.specs.Opening.{IsAsItWas};
ghost use Rattle.esc_store.specs.TypedRows.{listed_from};
ghost use Rattle.esc_store.specs.StoreTables.{IsStore, IsStoreDatabase};
ghost use Rattle.esc_store.specs.Representation.{IsAtRestIfClean, IsGivenUp};

use crate::cause::Cause;
use crate::fault::StoreFault;
use esc_sql::create::build;
use esc_sql::listed::Listed;
use esc_sql::transaction::{abandon_in, begin_in, commit_in};
use sqlite::{Alter, Connection, Error};

// Rolls back what a failure left of a transaction.
pub(crate) fn give_up_in<S: Alter>(conn: &mut Connection<S>)
    ensures { IsGivenUp (state S.Store conn.old) (state S.Store conn.new) }
{
    if conn.is_autocommit() {
        return;
    }
    abandon_in(conn);
}

// Begins a transaction, and makes a store of a manifest's rows in it.
fn build_here<S: Alter>(conn: &mut Connection<S>, rows: &[Listed]) -> Result<(), Error>
    ensures survives { Survives (state S.Store conn.old) (state S.Store conn.new) (λ _. ⊥) }
    ensures kept { HasCleanDisk (state S.Store conn.new)
        → KeepsCommit (state S.Store conn.old) (state S.Store conn.new) }
    ensures built { OnOk result ((m : _) → map listed_row rows.now ≡ listed_from 0 m
        → (state S.Store conn.old).now.schema ≡ no_schema → HasCleanDisk (state S.Store conn.new)
        → IsStoreDatabase (state S.Store conn.new).now (fresh m)) }
{
    begin_in(conn)?;
    build(conn, rows)
}

// The same as `build_here`, and commits it.
fn found_whole<S: Alter>(conn: &mut Connection<S>, rows: &[Listed]) -> Result<(), Error>
    ensures survives { (m : _) → map listed_row rows.now ≡ listed_from 0 m
        → (state S.Store conn.old).now.schema ≡ no_schema
        → Survives (state S.Store conn.old) (state S.Store conn.new)
        (λ trees. IsStore trees (fresh m)) }
    ensures kept { HasCleanDisk (state S.Store conn.new)
        → OnErr result (KeepsCommit (state S.Store conn.old) (state S.Store conn.new)) }
    ensures rests { OnOk result ((m : _) → map listed_row rows.now ≡ listed_from 0 m
        → (state S.Store conn.old).now.schema ≡ no_schema
        → IsAtRestIfClean (state S.Store conn.new) (fresh m)) }
    ensures left { OnOk result ((m : _) → map listed_row rows.now ≡ listed_from 0 m
        → (state S.Store conn.old).now.schema ≡ no_schema → HasCleanDisk (state S.Store conn.new)
        → (trees : Trees) → (state S.Store conn.new).may_leave trees → IsStore trees (fresh m)) }
{
    build_here(conn, rows)?;
    commit_in(conn)
}

// Makes a store of a manifest's rows, where there is no table, index or view. `S1` also in a
// transaction, which goes on.
pub(crate) fn found_here<S: Alter>(
    conn: &mut Connection<S>,
    rows: &[Listed],
) -> Result<(), StoreFault>
    requires unused { (state S.Store conn.old).now.schema ≡ no_schema }
    ensures survives { (m : _) → map listed_row rows.now ≡ listed_from 0 m
        → Survives (state S.Store conn.old) (state S.Store conn.new)
        (λ trees. IsStore trees (fresh m)) }
    ensures kept { HasCleanDisk (state S.Store conn.new)
        → OnErr result (KeepsCommit (state S.Store conn.old) (state S.Store conn.new)) }
    ensures rests { OnOk result ((m : _) → map listed_row rows.now ≡ listed_from 0 m
        → IsAtRestIfClean (state S.Store conn.new) (fresh m)) }
    ensures left { OnOk result ((m : _) → map listed_row rows.now ≡ listed_from 0 m
        → HasCleanDisk (state S.Store conn.new) → (trees : Trees)
        → (state S.Store conn.new).may_leave trees → IsStore trees (fresh m)) }
    ensures unchanged { OnErr result (IsAsItWas (state S.Store conn.old) (state S.Store conn.new)) }
    ensures cause { IfErr result IsFailure }
{
    if !conn.is_autocommit() {
        return Err(StoreFault::Failed(Cause::InTransaction));
    }
    match found_whole(conn, rows) {
        Ok(()) => Ok(()),
        Err(error) => {
            give_up_in(conn);
            Err(StoreFault::from(error))
        }
    }
}
