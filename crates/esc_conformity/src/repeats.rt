//! Values that come one after another, and those that come again.

ghost use Rattle.std.specs.Prelude.{[], ◌∷◌, ◌++◌, List, OnOk};
ghost use Rattle.esc_conformity.specs.Repeats.{AreRepeatsIn};

use esc_bundle::NoMemory;
use std::alloc::Global;
use std::collections::BTreeSet;

/// Values that came.
#[derive(Drop)]
pub struct Repeats<K: Ord> {
    /// Those that came, each once.
    pub met: BTreeSet<K>,
    /// Those that came again.
    pub repeated: BTreeSet<K>,
}

impl<K: Ord + Drop> Repeats<K> {
    /// Those of no values.
    pub(crate) fn new(alloc: Global) -> Repeats<K>
        ensures { AreRepeatsIn K.cmp [] result }
    {
        Repeats {
            met: BTreeSet::new(alloc),
            repeated: BTreeSet::new(alloc),
        }
    }

    /// Adds one more.
    pub(crate) fn add(&mut self, value: K) -> Result<(), NoMemory>
        ensures { OnOk result ((xs : List K) → AreRepeatsIn K.cmp xs self.old
            → AreRepeatsIn K.cmp (xs ++ value ∷ []) self.new) }
    {
        if self.met.contains(&value) {
            self.repeated.insert(value)?;
        } else {
            self.met.insert(value)?;
        }
        Ok(())
    }
}
