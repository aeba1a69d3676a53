//! What a reader returns of receipts.

ghost use Rattle.std.specs.Prelude.{◌≡◌, length, IfOk, IfErr};
ghost use Rattle.esc_store.specs.Faults.{IsFailure};
ghost use Rattle.esc_store.specs.StoreState.{StoreState, kept_replies};
ghost use Rattle.esc_store.specs.Reading.{IsHonestReader, IsReadOnly, ReaderRepresents};

use crate::codec::receipt::replies_of;
use crate::fault::StoreFault;
use crate::reader::StoreReader;
use crate::reply::Reply;
use esc_scan::receipt::{all_receipts, receipt_numbers};
use sqlite_trees::store::Store;
use std::alloc::Global;

impl<S: Store> StoreReader<S> {
    /// The replies of all receipts, in the order of their numbers. `S1`, `S2`.
    #[tactic(auto, using(crate::proofs::Readers::read_only))]
    pub fn receipts(&mut self, alloc: Global) -> Result<Vec<Reply>, StoreFault>
        ensures same { IsReadOnly S.Store self.old self.new result }
        ensures all { IsHonestReader S.Store self.new → (k : StoreState)
            → ReaderRepresents S.Store self.old k
            → IfOk result (λ replies. replies.items ≡ kept_replies k) }
        ensures cause { IfErr result IsFailure }
    {
        let stored = all_receipts(alloc, &mut self.trees)?;
        replies_of(alloc, &self.manifest, stored.as_slice())
    }

    /// How many receipts there are. `S1`, `S2`.
    #[tactic(auto, using(crate::proofs::Readers::read_only))]
    pub fn receipt_count(&mut self, alloc: Global) -> Result<u64, StoreFault>
        ensures same { IsReadOnly S.Store self.old self.new result }
        ensures count { IsHonestReader S.Store self.new → (k : StoreState)
            → ReaderRepresents S.Store self.old k
            → IfOk result (λ count. count ≡ length k.receipts) }
        ensures cause { IfErr result IsFailure }
    {
        let numbers = receipt_numbers(alloc, &mut self.trees)?;
        Ok(numbers.as_slice().len() as u64)
    }
}
