//! The desk over a connection's database.

ghost use Rattle.std.specs.Prelude.{◌≡◌, List, IsTrue, IfOk, IfErr, MatchResult};
ghost use Rattle.sqlite.specs.Held.{state};
ghost use Rattle.sqlite.specs.State.{HasCleanDisk};
ghost use Rattle.esc_manifest.specs.declared.row.MRow.{MRow};
ghost use Rattle.esc_store.specs.Faults.{IsOpenFault};
ghost use Rattle.esc_store.specs.FirstVersion.{IsFirstStore, LeavesFirstOr};
ghost use Rattle.esc_store.specs.StoreState.{StoreState, fresh};
ghost use Rattle.esc_store.specs.Opening.{IsAsItWas};
ghost use Rattle.esc_store.specs.StoreTables.{IsBlank};
ghost use Rattle.esc_desk.specs.Crashes.{IsStoreFor};
ghost use Rattle.esc_events.specs.ArrivalValue.{ArrivalValue};
ghost use Rattle.esc_events.specs.Events.{EventValue};
ghost use Rattle.esc_recovery.specs.Blank.{LeavesBlankOr, DeskLeavesBlankOr};
ghost use Rattle.esc_recovery.specs.Opened.{IsFirstStoreFor, IsNewOn, IsOpenedOn, IsMigratedOn};
ghost use Rattle.esc_recovery.specs.Opened.{DeskLeavesFirstOr};

use esc_desk::{Desk, StoreFault, migrated_store_serves, new_store_stands_for_its_manifest};
use esc_manifest::Manifest;
use esc_store::Store;
use sqlite::{Alter, Connection};
use std::alloc::Global;

/// A desk over a new store of a manifest, made in a database without any table, index or view. At
/// `Err` the connection is given back: `S3` where the database has one of these, `S1`, `S2`. A
/// crash in the middle leaves a database without any of these, or the new store.
pub fn new_desk<S: Alter>(
    alloc: Global,
    connection: Connection<S>,
    manifest: &Manifest,
) -> Result<Desk<S>, (StoreFault, Connection<S>)>
    ensures made { IfOk result
        (λ desk. IsNewOn S.Store (state S.Store connection) desk manifest.now) }
    ensures refused { IfErr result (λ e. e.0 ≡ StoreFault.NotAStore
        → HasCleanDisk (state S.Store e.1)
        → IsTrue (state S.Store e.1).is_open → IsBlank (state S.Store connection).now → ⊥) }
    ensures crash { MatchResult result
        (λ desk. DeskLeavesBlankOr S.Store connection desk (fresh manifest.now))
        (λ e. LeavesBlankOr S.Store connection e.1 (fresh manifest.now)) }
    ensures unchanged { IfErr result
        (λ e. IsAsItWas (state S.Store connection) (state S.Store e.1)) }
    ensures cause { IfErr result (λ e. IsOpenFault e.0) }
{
    new_store_stands_for_its_manifest();
    match Store::create(alloc, connection, manifest) {
        Ok(new_store) => Ok(Desk::open(new_store)),
        Err(e) => Err(e),
    }
}

/// The desk over the store in a connection's database, as last committed. At `Err` the connection
/// is given back: `S3` where the database is no store of this version, and never where it reflects
/// a list of events; `S1`, `S2`.
pub fn open_desk<S: Alter>(
    alloc: Global,
    connection: Connection<S>,
) -> Result<Desk<S>, (StoreFault, Connection<S>)>
    ensures opened { IfOk result (IsOpenedOn S.Store (state S.Store connection)) }
    ensures never { IfErr result (λ e. e.0 ≡ StoreFault.NotAStore → HasCleanDisk (state S.Store e.1)
        → IsTrue (state S.Store e.1).is_open → (events : List EventValue)
        → IsStoreFor (state S.Store connection).committed.trees events → ⊥) }
    ensures unchanged { IfErr result
        (λ e. IsAsItWas (state S.Store connection) (state S.Store e.1)) }
    ensures cause { IfErr result (λ e. IsOpenFault e.0) }
{
    match Store::open(alloc, connection) {
        Ok(store) => Ok(Desk::open(store)),
        Err(e) => Err(e),
    }
}

/// The same, where a connection that holds no store is dropped.
pub(crate) fn desk_or_fault<S: Alter + Drop>(
    alloc: Global,
    connection: Connection<S>,
) -> Result<Desk<S>, StoreFault>
    ensures opened { IfOk result (IsOpenedOn S.Store (state S.Store connection)) }
    ensures cause { IfErr result IsOpenFault }
{
    open_desk(alloc, connection).map_err(|(fault, _)| fault)
}

/// The desk over the store of version 1 in a connection's database, which is made one of this
/// version. At `Err` the connection is given back: `S3` where the database is no store of version
/// 1, and never where it is one that stood for some arrivals; `S1`, `S2`. A crash in the middle
/// leaves the store of version 1, or that of this version.
pub fn migrated_desk<S: Alter>(
    alloc: Global,
    connection: Connection<S>,
) -> Result<Desk<S>, (StoreFault, Connection<S>)>
    ensures migrated { IfOk result (IsMigratedOn S.Store (state S.Store connection)) }
    ensures never { IfErr result (λ e. e.0 ≡ StoreFault.NotAStore → HasCleanDisk (state S.Store e.1)
        → IsTrue (state S.Store e.1).is_open → (m : List MRow) (l : List ArrivalValue)
        → IsFirstStoreFor (state S.Store connection).committed.trees m l → ⊥) }
    ensures crash { (k : StoreState) → IsFirstStore (state S.Store connection).committed.trees k
        → MatchResult result
        (λ desk. DeskLeavesFirstOr S.Store connection desk k)
        (λ e. LeavesFirstOr S.Store connection e.1 k) }
    ensures unchanged { IfErr result
        (λ e. IsAsItWas (state S.Store connection) (state S.Store e.1)) }
    ensures cause { IfErr result (λ e. IsOpenFault e.0) }
{
    match Store::migrate(alloc, connection) {
        Ok(store) => {
            migrated_store_serves(&store);
            Ok(Desk::open(store))
        }
        Err(e) => Err(e),
    }
}
