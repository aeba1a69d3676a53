//! The objects of the latest chain's tables, each by its key.

ghost use Rattle.std.specs.Prelude.{◌≡◌, ◌<◌, false, length, map, Some, None, IfSome, IfErr};
ghost use Rattle.std.specs.Prelude.{slice_get};
ghost use Rattle.std.specs.List.{list_any};
ghost use Rattle.std.specs.List.Sorted.{IsStrictlySortedBy};
ghost use Rattle.std.specs.Map.{keys_of};
ghost use Rattle.esc_tables.specs.KeyName.{key_cmp, key_eq};
ghost use Rattle.esc_store.specs.Faults.{IsFailure};
ghost use Rattle.esc_store.specs.TableKeys.{key_at};
ghost use Rattle.esc_desk.specs.Lookups.{ForTables, IsFoundAmong};
ghost use Rattle.esc_desk.specs.Reading.{IsReadOf, OkForEvents};

use crate::reads::Reads;
use esc_chain::latest_chain_at_is_one;
use esc_store::{StoreFault, StoreReader, TableKey};
use esc_tables::{Key, Object};
use sqlite_trees::store::Store;
use std::alloc::Global;
use std::marker::Model;

/// The keys of the objects of the latest chain's tables, in their order. All are in memory, and no
/// object is.
#[derive(Drop)]
pub struct KeyIndex {
    keys: Vec<TableKey>,
}

impl Model for KeyIndex {
    ghost use Rattle.std.specs.Prelude.{List, map};
    ghost use Rattle.esc_tables.specs.KeyName.{KeyName};
    ghost use Rattle.esc_store.specs.TableKeys.{key_at};

    ghost Value = { List KeyName };

    ghost view = { λ index. map key_at index.keys.items };
}

impl KeyIndex {
    /// How many keys there are.
    pub fn count(&self) -> usize
        ensures { result ≡ length self.now }
    {
        self.keys.len()
    }
}

// The position of a key, if it is one of these.
fn position(keys: &[TableKey], key: &Key) -> Option<usize>
    ensures bound { IfSome result (λ at. at < length keys.now) }
    ensures found { IfSome result (λ at. slice_get (map key_at keys.now) at ≡ Some key.now) }
    ensures absent { result ≡ None → IsStrictlySortedBy key_cmp (map key_at keys.now)
        → list_any (key_eq key.now) (map key_at keys.now) ≡ false }
{
    keys.binary_search_by(|it| it.cmp_key(key)).ok()
}

/// What finds an object of the latest chain's tables by its key, without a walk over the others.
pub trait Lookup: Reads {
    /// The index of the objects of the latest chain's tables. Each object is read for its key, one
    /// at a time. `S1`, `S2`.
    fn index(&mut self, alloc: Global) -> Result<KeyIndex, StoreFault>
        ensures read { IsReadOf Self.follows Self.reflects self.old self.new result }
        ensures keys { OkForEvents Self.is_honest Self.reflects self.old self.new result
            (λ e index. ForTables e (λ es. index ≡ keys_of es)) }
        ensures cause { IfErr result IsFailure };

    /// The object with a key, behind its position in an index of the tables, if there is one. No
    /// other object is read. `S1`, also where another object stands where the index says; `S2`.
    fn find(
        &mut self,
        alloc: Global,
        index: &KeyIndex,
        key: &Key,
    ) -> Result<Option<(usize, Object)>, StoreFault>
        ensures read { IsReadOf Self.follows Self.reflects self.old self.new result }
        ensures found { OkForEvents Self.is_honest Self.reflects self.old self.new result
            (λ e found. ForTables e (λ es. index.now ≡ keys_of es
            → IsFoundAmong es key.now found)) }
        ensures cause { IfErr result IsFailure };
}

impl<S: Store> Lookup for StoreReader<S> {
    #[tactic(auto, using(crate::proofs::ReaderLemmas::reader_reads))]
    fn index(&mut self, alloc: Global) -> Result<KeyIndex, StoreFault> {
        latest_chain_at_is_one();
        // Read for the proof alone: it shows that the rows are those of an accepted manifest.
        let _rows = self.manifest().rows();
        let keys = self.keys(alloc)?;
        Ok(KeyIndex { keys })
    }

    #[tactic(auto, using(crate::proofs::ReaderLemmas::reader_reads))]
    fn find(
        &mut self,
        alloc: Global,
        index: &KeyIndex,
        key: &Key,
    ) -> Result<Option<(usize, Object)>, StoreFault> {
        latest_chain_at_is_one();
        // Read for the proof alone, as above.
        let _rows = self.manifest().rows();
        match position(index.keys.as_slice(), key) {
            None => Ok(None),
            Some(at) => {
                let object = self.object_at(alloc, &index.keys[at])?;
                Ok(Some((at, object)))
            }
        }
    }
}
