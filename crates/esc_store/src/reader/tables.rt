//! What a reader returns of the chain's tables.

ghost use Rattle.std.specs.Prelude.{◌≡◌, map, IfOk, IfErr};
ghost use Rattle.esc_scan.specs.Kinds.{kind_read};
ghost use Rattle.esc_store.specs.Faults.{IsFailure};
ghost use Rattle.esc_store.specs.StoreState.{StoreState, AreCounts};
ghost use Rattle.esc_store.specs.Reading.{IsHonestReader, IsReadOnly, ReaderRepresents};

use crate::counts::counts_of;
use crate::fault::StoreFault;
use crate::reader::StoreReader;
use esc_envelope::Kind;
use esc_scan::object::{ObjectKind, object_kinds};
use sqlite_trees::store::Store;
use std::alloc::Global;
use std::collections::BTreeMap;

impl<S: Store> StoreReader<S> {
    /// How many objects the tables have of each of the six kinds. `S1`, `S2`.
    #[tactic(auto, using(crate::proofs::Readers::read_only))]
    pub fn counts_by_kind(&mut self, alloc: Global) -> Result<BTreeMap<Kind, u64>, StoreFault>
        ensures same { IsReadOnly S.Store self.old self.new result }
        ensures counts { IsHonestReader S.Store self.new → (k : StoreState)
            → ReaderRepresents S.Store self.old k
            → IfOk result (λ counts. AreCounts k.registry.content counts.entries) }
        ensures cause { IfErr result IsFailure }
    {
        let stored = object_kinds(alloc, &mut self.trees)?;
        let kinds = numbers_of(alloc, stored.as_slice())?;
        counts_of(kinds.as_slice()).by_kind(alloc)
    }
}

// The numbers of kinds. `S2`.
fn numbers_of(alloc: Global, kinds: &[ObjectKind]) -> Result<Vec<u32>, StoreFault>
    ensures numbers { IfOk result (λ numbers. numbers.items ≡ map kind_read kinds.now) }
    ensures cause { IfErr result IsFailure }
{
    let mut numbers = Vec::with_capacity(alloc, kinds.len())?;
    for it in kinds {
        numbers.push(it.kind)?;
    }
    Ok(numbers)
}
