//! What a reader returns of the chain and of the moment up to which it goes.

ghost use Rattle.std.specs.Prelude.{◌≡◌, IfOk, IfErr};
ghost use Rattle.esc_store.specs.Faults.{IsFailure};
ghost use Rattle.esc_store.specs.StoreState.{StoreState, kept_chain};
ghost use Rattle.esc_store.specs.Reading.{IsHonestReader, IsReadOnly, ReaderRepresents};

use crate::codec::step::steps_of;
use crate::fault::StoreFault;
use crate::reader::StoreReader;
use esc_apply::Step;
use esc_scan::moment::find_moment;
use esc_scan::step::all_steps;
use sqlite_trees::store::Store;
use std::alloc::Global;

impl<S: Store> StoreReader<S> {
    /// The moment that is set, in nanoseconds since 1970-01-01T00:00:00Z, if one is. `S1`, `S2`.
    #[tactic(auto, using(crate::proofs::Readers::read_only))]
    pub fn moment(&mut self, alloc: Global) -> Result<Option<i64>, StoreFault>
        ensures same { IsReadOnly S.Store self.old self.new result }
        ensures moment { IsHonestReader S.Store self.new → (k : StoreState)
            → ReaderRepresents S.Store self.old k
            → IfOk result (λ moment. moment ≡ k.moment) }
        ensures cause { IfErr result IsFailure }
    {
        let moment = find_moment(alloc, &mut self.trees)?;
        Ok(moment)
    }

    /// The steps of the chain, in order. `S1`, `S2`.
    #[tactic(auto, using(crate::proofs::Readers::read_only))]
    pub fn chain(&mut self, alloc: Global) -> Result<Vec<Step>, StoreFault>
        ensures same { IsReadOnly S.Store self.old self.new result }
        ensures steps { IsHonestReader S.Store self.new → (k : StoreState)
            → ReaderRepresents S.Store self.old k
            → IfOk result (λ steps. steps.items ≡ kept_chain k) }
        ensures cause { IfErr result IsFailure }
    {
        let stored = all_steps(alloc, &mut self.trees)?;
        steps_of(alloc, &self.manifest, stored.as_slice())
    }
}
