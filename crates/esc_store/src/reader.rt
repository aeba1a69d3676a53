//! A store's trees, as what they keep: reads alone, without SQL.

ghost use Rattle.std.specs.Prelude.{◌≡◌, ⊤, List, IfOk, IfErr, OnOk, MatchResult};
ghost use Rattle.esc_scan.specs.Scanning.{IsScan};
ghost use Rattle.esc_manifest.specs.declared.row.MRow.{MRow};
ghost use Rattle.esc_store.specs.Faults.{IsOpenFault};
ghost use Rattle.esc_store.specs.TypedRows.{listed_from};
ghost use Rattle.esc_store.specs.StoreState.{StoreState};
ghost use Rattle.esc_store.specs.Reading.{AreHonest, AreOfVersion, AreReadAs, AreUnwritten};
ghost use Rattle.esc_store.specs.Reading.{IsHonestReader, ReaderRepresents, rows_listed_by};
ghost use Rattle.esc_store.specs.Reading.{trees_of};

mod bodies;
mod chain;
mod fault;
mod held;
pub mod objects;
mod receipts;
mod tables;

use crate::codec::manifest::kept_manifest;
use crate::fault::StoreFault;
use crate::opening::VERSION;
use esc_manifest::Manifest;
use esc_scan::listed::all_listed;
use esc_scan::version::find_version;
use sqlite_trees::store::Store;
use std::alloc::Global;

/// The trees of a store and its manifest, for reads alone: no transaction, and no SQL. A row, or an
/// entry of the index of keys, is tested where it is read, so a read may meet one that no store
/// writes (`S1`).
#[derive(Drop)]
pub struct StoreReader<S: Store> {
    pub(crate) trees: S,
    pub(crate) manifest: Manifest,
}

impl<S: Store> StoreReader<S> {
    /// A reader of the store that trees hold.
    ///
    /// # Errors
    ///
    /// The trees are returned. `S3` where the store has no version or another one; `S1`, also if
    /// the rows of the manifest are not those of an accepted one; `S2`.
    pub fn from_trees(alloc: Global, trees: S) -> Result<StoreReader<S>, (StoreFault, S)>
        ensures unwritten { MatchResult result
            (λ reader. AreUnwritten S.Store trees (trees_of reader))
            (λ e. AreUnwritten S.Store trees e.1) }
        ensures stands { IfOk result (λ reader. IsHonestReader S.Store reader
            → (k : StoreState) → AreReadAs (S.Store.view trees).trees k
            → ReaderRepresents S.Store reader k) }
        ensures same { IfOk result (λ reader. IsHonestReader S.Store reader
            → (S.Store.view (trees_of reader)).trees ≡ (S.Store.view trees).trees) }
        ensures version { IfOk result (λ reader. IsHonestReader S.Store reader
            → AreOfVersion (S.Store.view trees).trees) }
        ensures never { IfErr result (λ e. e.0 ≡ StoreFault.NotAStore → AreHonest S.Store e.1
            → (k : StoreState) → AreReadAs (S.Store.view trees).trees k → ⊥) }
        ensures cause { IfErr result (λ e. IsOpenFault e.0) }
    {
        let mut trees = trees;
        match read_manifest(alloc, &mut trees) {
            Ok(manifest) => Ok(StoreReader { trees, manifest }),
            Err(fault) => Err((fault, trees)),
        }
    }

    /// The store's manifest. Doesn't allocate.
    #[tactic(auto, using(crate::proofs::Readers::listed_is))]
    pub fn manifest(&self) -> &Manifest
        ensures rows { result.now ≡ rows_listed_by self.now }
        ensures kept { (k : StoreState) → ReaderRepresents S.Store self.now k
            → result.now ≡ k.listed }
    {
        &self.manifest
    }
}

// Tests that trees are those of a store of this version. `S3` where they are not.
fn test_version<S: Store>(alloc: Global, trees: &mut S) -> Result<(), StoreFault>
    ensures read { IsScan S.Store trees.old trees.new (λ _ _. ⊤) result }
    ensures version { OnOk result (AreHonest S.Store trees.new
        → AreOfVersion (S.Store.view trees.old).trees) }
    ensures never { IfErr result (λ fault. fault ≡ StoreFault.NotAStore
        → AreHonest S.Store trees.new
        → (k : StoreState) → AreReadAs (S.Store.view trees.old).trees k → ⊥) }
    ensures cause { IfErr result IsOpenFault }
{
    if find_version(alloc, trees)? != Some(VERSION) {
        return Err(StoreFault::NotAStore);
    }
    Ok(())
}

// The manifest of the rows that trees list, if the store is of this version.
fn read_manifest<S: Store>(alloc: Global, trees: &mut S) -> Result<Manifest, StoreFault>
    ensures read { IsScan S.Store trees.old trees.new
        (λ c manifest. (rows : List MRow) → c.listed ≡ listed_from 0 rows → manifest ≡ rows)
        result }
    ensures version { OnOk result (AreHonest S.Store trees.new
        → AreOfVersion (S.Store.view trees.old).trees) }
    ensures never { IfErr result (λ fault. fault ≡ StoreFault.NotAStore
        → AreHonest S.Store trees.new
        → (k : StoreState) → AreReadAs (S.Store.view trees.old).trees k → ⊥) }
    ensures cause { IfErr result IsOpenFault }
{
    test_version(alloc, trees)?;
    let stored = all_listed(alloc, trees)?;
    kept_manifest(alloc, stored.as_slice())
}
