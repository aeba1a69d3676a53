//! The store.

ghost use Rattle.std.specs.Prelude.{◌≡◌, true, false, Ok, None, List, Option, IsTrue, IfOk, IfErr};
ghost use Rattle.std.specs.Prelude.{OnOk, OnErr, MatchResult};
ghost use Rattle.std.specs.Borrow.{sem, RestsIfErr};
ghost use Rattle.std.specs.Option.{unwrap_or};
ghost use Rattle.sqlite.specs.Held.{state};
ghost use Rattle.esc_sql.specs.Schema.{store_schema};
ghost use Rattle.esc_store.specs.Faults.{IsFailed, IsFailure};
ghost use Rattle.esc_manifest.specs.declared.row.MRow.{MRow};
ghost use Rattle.esc_store.specs.Opening.{IsAsItWas, IsFoundingFault, IsNoStore, IsNewStore};
ghost use Rattle.esc_store.specs.Opening.{IsOpened};
ghost use Rattle.esc_store.specs.StoreState.{StoreState, fresh, with_registry};
ghost use Rattle.esc_apply.specs.Registry.{State};
ghost use Rattle.esc_store.specs.Remembered.{nothing_read};
ghost use Rattle.esc_store.specs.StoreTables.{IsBlank, IsStore, IsOfVersion};
ghost use Rattle.esc_store.specs.Representation.{Represents, BeganIn, HasMadeBooksIn};
ghost use Rattle.esc_store.specs.Representation.{HasMadeTablesIn, HoldsKept, LeavesOnly, LeavesOr};
ghost use Rattle.esc_store.specs.Representation.{LeavesNoMore, IsHonest, IsGivenUp, IsNewChange};
ghost use Rattle.esc_store.specs.Representation.{Settles, StoreLeavesNoMore, connection_of};
ghost use Rattle.esc_store.specs.Representation.{listed_rows_of, store_writes, store_name};

use crate::cause::Cause;
use crate::change::Change;
use crate::codec::manifest::both_forms;
use crate::fault::StoreFault;
use crate::founding::{found_here, give_up_in};
use crate::opening::find_manifest;
use crate::remembered::{NOTHING, Remembered};
use esc_manifest::Manifest;
use esc_sql::open::is_unused;
use esc_sql::transaction::{begin_in, commit_in};
use sqlite::{Alter, Connection, Error};
use std::alloc::Global;

/// A store: a database of nine tables. Contracts see what it *stands for*: the rows of its
/// manifest, a receipt for each distinct arrival, the bodies of the held rows, the parked bodies,
/// the moment, and the chain with its tables and before-images.
#[derive(Drop)]
pub struct Store<S: Alter> {
    pub(crate) conn: Connection<S>,
    pub(crate) manifest: Manifest,
    pub(crate) writes: u64,
    // What was read since the last change. A change forgets it at its end, committed or not.
    pub(crate) remembered: Remembered,
    pub(crate) alloc: Global,
}

impl<S: Alter> Store<S> {
    ghost use Rattle.esc_store.specs.contracts.store.Store.{the_row};

    /// Makes a new store of a manifest in a database without any table, index or view, in one
    /// change.
    ///
    /// # Errors
    ///
    /// The connection is returned as it was. `S3` if its database has a table, an index or a view;
    /// `S1`, also in a transaction; `S2`.
    pub fn create(
        alloc: Global,
        connection: Connection<S>,
        manifest: &Manifest,
    ) -> Result<Store<S>, (StoreFault, Connection<S>)>
        ensures created { IfOk result (IsNewStore S.Store (fresh manifest.now)) }
        ensures blank { OnOk result (IsBlank (state S.Store connection).now) }
        ensures unchanged { IfErr result
            (λ e. IsAsItWas (state S.Store connection) (state S.Store e.1)) }
        ensures cause { IfErr result (λ e. IsFoundingFault (state S.Store connection).now e.0) }
        ensures crash { MatchResult result
            (λ store. LeavesOr S.Store connection (connection_of store) (fresh manifest.now))
            (λ e. LeavesOr S.Store connection e.1 (fresh manifest.now)) }
    {
        if !is_unused(&connection) {
            return Err((StoreFault::NotAStore, connection));
        }
        let (own, rows) = match both_forms(alloc, manifest) {
            Ok(forms) => forms,
            Err(fault) => return Err((fault, connection)),
        };
        let mut connection = connection;
        match found_here(&mut connection, rows.as_slice()) {
            Ok(()) => Ok(Store {
                conn: connection,
                manifest: own,
                writes: 0,
                remembered: NOTHING,
                alloc,
            }),
            Err(fault) => Err((fault, connection)),
        }
    }

    /// The store that a database is, also if the database is what a crash left of one.
    ///
    /// # Errors
    ///
    /// The connection is returned as it was. `S3` if its database is no store of this version;
    /// `S1`, also in a transaction, or if the rows of its manifest are not those of an accepted
    /// one; `S2`.
    pub fn open(
        alloc: Global,
        connection: Connection<S>,
    ) -> Result<Store<S>, (StoreFault, Connection<S>)>
        ensures opened { IfOk result
            (IsOpened S.Store (HoldsKept S.Store connection) IsStore IsOfVersion connection) }
        ensures refused { IfErr result (λ e. IsNoStore store_schema IsStore
            (state S.Store connection) (state S.Store e.1) e.0) }
        ensures survives { MatchResult result
            (λ store. LeavesNoMore S.Store connection (connection_of store))
            (λ e. LeavesNoMore S.Store connection e.1) }
    {
        let mut connection = connection;
        match find_manifest(alloc, &mut connection) {
            Ok(manifest) => Ok(Store {
                conn: connection,
                manifest,
                writes: 0,
                remembered: NOTHING,
                alloc,
            }),
            Err(fault) => Err((fault, connection)),
        }
    }

    /// The connection of the store, whose database stays as it is. Doesn't allocate.
    #[tactic(auto, unfolding(crate::specs::Representation::Represents, crate::specs::Representation::HoldsKept))]
    pub fn into_connection(self) -> Connection<S>
        ensures same { result ≡ connection_of self }
        ensures holds { (k : StoreState) → Represents S.Store self k → HoldsKept S.Store result k }
    {
        self.conn
    }

    /// The manifest: the rows with which the store was made, and those that were listed since.
    /// Doesn't allocate.
    #[tactic(auto, unfolding(crate::specs::Representation::Represents))]
    pub fn manifest(&self) -> &Manifest
        ensures manifest { result.now ≡ listed_rows_of self.now }
        ensures kept { (k : StoreState) → Represents S.Store self.now k → result.now ≡ k.listed }
    {
        &self.manifest
    }

    /// How many objects were put or removed by the changes that were committed since the store was
    /// opened. A removal counts even if there was no object. It stays at 2^64 - 1 once there.
    /// Doesn't allocate.
    pub fn writes(&self) -> u64
        ensures count { result ≡ store_writes self.now }
    {
        self.writes
    }

    /// Begins a change. At `Err` (`S1`, `S2`) the store stands for what it stood for.
    pub fn begin(&mut self) -> Result<Change<'_, S>, StoreFault>
        ensures* refused { sem 𝓛
            (RestsIfErr (the_row S.row S.Store) self.entry
            store_name result (λ last. (listed_rows_of last ≡ listed_rows_of self.old)
            × (store_writes last ≡ store_writes self.old) × StoreLeavesNoMore S.Store self.old last
            × ((k : StoreState) → Represents S.Store self.old k → Represents S.Store last k))) }
        ensures same_reference { IfOk result (λ change. store_name change
            ≡ self.entry.ghost_name) }
        ensures begun { IfOk result (IsNewChange S.Store self.old) }
        ensures cause { IfErr result IsFailure }
    {
        self.begin_here()?;
        Ok(Change {
            store: self,
            count: 0,
            listing: None,
        })
    }

    // Begins the transaction of a change.
    fn begin_here(&mut self) -> Result<(), StoreFault>
        ensures manifest { self.new.manifest ≡ self.old.manifest }
        ensures writes { self.new.writes ≡ self.old.writes }
        ensures survives { LeavesNoMore S.Store self.old.conn self.new.conn }
        ensures stands { OnErr result ((k : StoreState) → Represents S.Store self.old k
            → Represents S.Store self.new k) }
        ensures began { OnOk result ((k : StoreState) → Represents S.Store self.old k
            → BeganIn S.Store self.new k) }
        ensures rest { OnOk result ((k : StoreState) → Represents S.Store self.old k
            → HasMadeBooksIn S.Store self.new None k k) }
        ensures holds { OnOk result ((k : StoreState) → Represents S.Store self.old k
            → HasMadeTablesIn S.Store self.new k.registry) }
        ensures cause { IfErr result IsFailure }
    {
        let begun = begin_in(&mut self.conn);
        self.settle(begun)
    }

    // Commits the transaction of a change. What is remembered is of before it, and is forgotten.
    pub(crate) fn commit_here(&mut self) -> Result<(), StoreFault>
        ensures manifest { self.new.manifest ≡ self.old.manifest }
        ensures writes { self.new.writes ≡ self.old.writes }
        ensures remembered { self.new.remembered ≡ nothing_read }
        ensures honest { IsHonest S.Store self.new → IsHonest S.Store self.old }
        ensures committed { OnOk result ((listing : Option (List MRow)) (before k : StoreState)
            (s : State) → HasMadeBooksIn S.Store self.old listing before (with_registry k s)
            → HasMadeTablesIn S.Store self.old k.registry → HoldsKept S.Store self.new.conn k) }
        ensures kept { OnErr result ((before : StoreState) → BeganIn S.Store self.old before
            → Represents S.Store self.new before) }
        ensures crash { (listing : Option (List MRow)) (before k : StoreState) (s : State)
            → HasMadeBooksIn S.Store self.old listing before (with_registry k s)
            → HasMadeTablesIn S.Store self.old k.registry
            → LeavesOr S.Store self.old.conn self.new.conn k }
        ensures left { OnOk result ((listing : Option (List MRow)) (before k : StoreState)
            (s : State) → HasMadeBooksIn S.Store self.old listing before (with_registry k s)
            → HasMadeTablesIn S.Store self.old k.registry → LeavesOnly S.Store self.new k) }
        ensures cause { IfErr result IsFailure }
    {
        self.remembered = NOTHING;
        let committed = commit_in(&mut self.conn);
        self.settle(committed)
    }

    // Makes the rows that a change listed, if it listed any, those of the store's manifest.
    pub(crate) fn take_over(&mut self, listing: Option<Manifest>)
        ensures { self.new ≡ record self.old { manifest = unwrap_or listing self.old.manifest } }
    {
        if let Some(union) = listing {
            self.manifest = union;
        }
    }

    // Rolls back what a failure left of a transaction.
    pub(crate) fn give_up(&mut self)
        ensures manifest { self.new.manifest ≡ self.old.manifest }
        ensures writes { self.new.writes ≡ self.old.writes }
        ensures remembered { self.new.remembered ≡ self.old.remembered }
        ensures given_up { IsGivenUp (state S.Store self.old.conn) (state S.Store self.new.conn) }
    {
        give_up_in(&mut self.conn);
    }

    // The outcome of a statement. Where it failed, a transaction that is on is rolled back.
    pub(crate) fn settle<T>(&mut self, outcome: Result<T, Error>) -> Result<T, StoreFault>
        ensures manifest { self.new.manifest ≡ self.old.manifest }
        ensures writes { self.new.writes ≡ self.old.writes }
        ensures remembered { self.new.remembered ≡ self.old.remembered }
        ensures settled { Settles S.Store self.old self.new outcome result }
        ensures cause { IfErr result IsFailure }
    {
        match outcome {
            Ok(x) => Ok(x),
            Err(error) => {
                self.give_up();
                Err(StoreFault::from(error))
            }
        }
    }

    // `S1` if no transaction is on: after a failure it was rolled back, and the change can't go on.
    pub(crate) fn goes_on(&self) -> Result<(), StoreFault>
        ensures on { OnOk result (self.now.conn.in_transaction ≡ true) }
        ensures off { OnErr result ((self.now.conn.in_transaction ≡ false)
            × (IsTrue (state S.Store self.now.conn).is_open
            → (state S.Store self.now.conn).now ≡ (state S.Store self.now.conn).committed)) }
        ensures cause { IfErr result IsFailed }
    {
        if self.conn.is_autocommit() {
            Err(StoreFault::Failed(Cause::ChangeEnded))
        } else {
            Ok(())
        }
    }
}
