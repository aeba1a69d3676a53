//! What a store returns of what it keeps.

ghost use Rattle.std.specs.Prelude.{◌≡◌, ◌≤◌, length, IfOk, IfErr, option_map};
ghost use Rattle.esc_store.specs.Faults.{IsFailure};
ghost use Rattle.esc_store.specs.StoreState.{StoreState, kept_replies, kept_reply, kept_chain};
ghost use Rattle.esc_store.specs.StoreState.{AreHeldBy, AreUnlisted, AreCounts};
ghost use Rattle.esc_store.specs.Decoded.{AreOfVerdict, counted};
ghost use Rattle.esc_store.specs.TypedRows.{verdict_number};
ghost use Rattle.esc_store.specs.Pages.{IsPage};
ghost use Rattle.esc_store.specs.Representation.{Represents, IsHonest, IsAsBefore};

use crate::codec::object::{entries_of, kind_number};
use crate::codec::receipt::{distinct_indices_of, replies_of, reply_found, verdict_number};
use crate::codec::small;
use crate::codec::step::steps_of;
use crate::counts::{KindCounts, counts_of};
use crate::fault::StoreFault;
use crate::numbers::Number;
use crate::parked::digests_of;
use crate::remembered::copy_of;
use crate::reply::{Reply, Verdict};
use crate::store::Store;
use esc_apply::Step;
use esc_envelope::Kind;
use esc_record::no_record_begins_another;
use esc_tables::{Key, Object};
use sqlite::Alter;
use std::alloc::Global;
use std::collections::BTreeMap;

/// The most objects of a page.
pub const MOST_ON_PAGE: usize = 256;

impl<S: Alter> Store<S> {
    /// The reply that was kept for an arrival with this number and a body of this SHA-256, if one
    /// was. `S1`, `S2`.
    #[tactic(auto, using(crate::proofs::Sure::as_before))]
    pub fn receipt_of(
        &mut self,
        alloc: Global,
        number: &Number<'_>,
        digest: &[u8; 32],
    ) -> Result<Option<Reply>, StoreFault>
        ensures same { IsAsBefore S.Store self.old self.new }
        ensures found { IsHonest S.Store self.new → (k : StoreState) → Represents S.Store self.old k
            → IfOk result (λ reply. reply ≡ kept_reply k number.now digest.now) }
        ensures cause { IfErr result IsFailure }
    {
        let found = self.receipt_here(number.text(), digest)?;
        reply_found(alloc, &self.manifest, found)
    }

    /// The replies of all receipts, in the order of their numbers. `S1`, `S2`.
    #[tactic(auto, using(crate::proofs::Sure::as_before))]
    pub fn receipts(&mut self, alloc: Global) -> Result<Vec<Reply>, StoreFault>
        ensures same { IsAsBefore S.Store self.old self.new }
        ensures all { IsHonest S.Store self.new → (k : StoreState) → Represents S.Store self.old k
            → IfOk result (λ replies. replies.items ≡ kept_replies k) }
        ensures cause { IfErr result IsFailure }
    {
        let stored = self.receipts_here(alloc)?;
        replies_of(alloc, &self.manifest, stored.as_slice())
    }

    /// How many receipts there are. `S1`, `S2`.
    #[tactic(auto, using(crate::proofs::Sure::as_before))]
    pub fn receipt_count(&mut self) -> Result<u64, StoreFault>
        ensures same { IsAsBefore S.Store self.old self.new }
        ensures count { IsHonest S.Store self.new → (k : StoreState) → Represents S.Store self.old k
            → IfOk result (λ count. count ≡ length k.receipts) }
        ensures cause { IfErr result IsFailure }
    {
        let last = self.last_here()?;
        Ok(u64::from(last))
    }

    /// The body of the row with this index, from 0, if it is held. `S1`, `S2`.
    #[tactic(auto, using(crate::proofs::Sure::as_before))]
    pub fn body_of(&mut self, _alloc: Global, row: usize) -> Result<Option<Vec<u8>>, StoreFault>
        ensures same { IsAsBefore S.Store self.old self.new }
        ensures found { IsHonest S.Store self.new → (k : StoreState) → Represents S.Store self.old k
            → IfOk result (λ body. option_map (λ b. b.items) body ≡ k.bodies row) }
        ensures cause { IfErr result IsFailure }
    {
        let row = small(row)?;
        self.body_here(row)
    }

    /// The indices, from 0, of the rows whose deposit is held according to a receipt (`A1`), in
    /// ascending order. No body is read. The store remembers them until a change ends. `S1`, `S2`.
    #[tactic(auto, using(crate::proofs::Sure::unread))]
    pub fn held_by_receipts(&mut self, alloc: Global) -> Result<Vec<usize>, StoreFault>
        ensures same { IsAsBefore S.Store self.old self.new }
        ensures rows { IsHonest S.Store self.new → (k : StoreState) → Represents S.Store self.old k
            → IfOk result (λ rows. AreHeldBy k.receipts rows.items) }
        ensures cause { IfErr result IsFailure }
    {
        if let Some(rows) = copy_of(alloc, &self.remembered.rows_with_receipt)? {
            return Ok(rows);
        }
        self.told_here(alloc)
    }

    // Reads the rows that receipts say are held, and remembers them.
    #[tactic(auto, using(crate::proofs::Sure::as_before))]
    fn told_here(&mut self, alloc: Global) -> Result<Vec<usize>, StoreFault>
        ensures same { IsAsBefore S.Store self.old self.new }
        ensures rows { IsHonest S.Store self.new → (k : StoreState) → Represents S.Store self.old k
            → IfOk result (λ rows. AreHeldBy k.receipts rows.items) }
        ensures cause { IfErr result IsFailure }
    {
        let rows = self.rows_here(alloc, verdict_number(Verdict::A1))?;
        let told = distinct_indices_of(alloc, rows.as_slice())?;
        let copy = Vec::from_slice(alloc, &told)?;
        self.remembered.rows_with_receipt = Some(copy);
        Ok(told)
    }

    // The digests of the receipts of a verdict, with repeats.
    #[tactic(auto, using(crate::proofs::Sure::as_before))]
    fn digests_of_verdict(
        &mut self,
        alloc: Global,
        verdict: Verdict,
    ) -> Result<Vec<[u8; 32]>, StoreFault>
        ensures same { IsAsBefore S.Store self.old self.new }
        ensures digests { IsHonest S.Store self.new → (k : StoreState)
            → Represents S.Store self.old k
            → IfOk result
            (λ digests. AreOfVerdict (verdict_number verdict) k.receipts digests.items) }
        ensures cause { IfErr result IsFailure }
    {
        let stored = self.verdict_digests_here(alloc, verdict_number(verdict))?;
        digests_of(alloc, stored.as_slice())
    }

    /// The SHA-256 of each body that no row listed, according to a receipt (`A2` of version 1,
    /// which did not keep them, and `A5` of this one, which parked them), with repeats, in any
    /// order. No body is read. The store remembers them until a change ends. `S1`, `S2`.
    #[tactic(auto, using(crate::proofs::Sure::unread))]
    pub fn unlisted_digests(&mut self, alloc: Global) -> Result<Vec<[u8; 32]>, StoreFault>
        ensures same { IsAsBefore S.Store self.old self.new }
        ensures digests { IsHonest S.Store self.new → (k : StoreState)
            → Represents S.Store self.old k
            → IfOk result (λ digests. AreUnlisted k.receipts digests.items) }
        ensures cause { IfErr result IsFailure }
    {
        if let Some(digests) = copy_of(alloc, &self.remembered.unlisted_digests)? {
            return Ok(digests);
        }
        self.unlisted_here(alloc)
    }

    // Reads the digests of the bodies that no row listed, and remembers them.
    fn unlisted_here(&mut self, alloc: Global) -> Result<Vec<[u8; 32]>, StoreFault>
        ensures same { IsAsBefore S.Store self.old self.new }
        ensures digests { IsHonest S.Store self.new → (k : StoreState)
            → Represents S.Store self.old k
            → IfOk result (λ digests. AreUnlisted k.receipts digests.items) }
        ensures cause { IfErr result IsFailure }
    {
        let mut digests = self.digests_of_verdict(alloc, Verdict::A2)?;
        let parked = self.digests_of_verdict(alloc, Verdict::A5)?;
        digests.extend_from_slice(parked.as_slice())?;
        let copy = Vec::from_slice(alloc, &digests)?;
        self.remembered.unlisted_digests = Some(copy);
        Ok(digests)
    }

    /// The steps of the chain, in order. The store remembers them until a change ends. `S1`, `S2`.
    #[tactic(auto, using(crate::proofs::Sure::unread))]
    pub fn chain(&mut self, alloc: Global) -> Result<Vec<Step>, StoreFault>
        ensures same { IsAsBefore S.Store self.old self.new }
        ensures steps { IsHonest S.Store self.new → (k : StoreState) → Represents S.Store self.old k
            → IfOk result (λ steps. steps.items ≡ kept_chain k) }
        ensures cause { IfErr result IsFailure }
    {
        if let Some(steps) = copy_of(alloc, &self.remembered.chain)? {
            return Ok(steps);
        }
        self.chain_here(alloc)
    }

    // Reads the steps of the chain, and remembers them.
    #[tactic(auto, using(crate::proofs::Sure::as_before))]
    fn chain_here(&mut self, alloc: Global) -> Result<Vec<Step>, StoreFault>
        ensures same { IsAsBefore S.Store self.old self.new }
        ensures steps { IsHonest S.Store self.new → (k : StoreState) → Represents S.Store self.old k
            → IfOk result (λ steps. steps.items ≡ kept_chain k) }
        ensures cause { IfErr result IsFailure }
    {
        let stored = self.steps_here(alloc)?;
        let steps = steps_of(alloc, &self.manifest, stored.as_slice())?;
        let copy = Vec::from_slice(alloc, &steps)?;
        self.remembered.chain = Some(copy);
        Ok(steps)
    }

    /// A page: the first objects of a kind whose keys are not below these bytes, in the order of
    /// keys, at most 256. It is empty only if there is no such object. `S1`, `S2`.
    #[tactic(auto, using(crate::proofs::Sure::as_before))]
    pub fn objects_from(
        &mut self,
        alloc: Global,
        kind: Kind,
        from: &[u8],
    ) -> Result<Vec<(Key, Object)>, StoreFault>
        ensures same { IsAsBefore S.Store self.old self.new }
        ensures page { IsHonest S.Store self.new → (k : StoreState) → Represents S.Store self.old k
            → IfOk result (λ page. IsPage k.registry.content kind from.now page.items) }
        ensures few { IsHonest S.Store self.new → (k : StoreState) → Represents S.Store self.old k
            → IfOk result (λ page. length page.items ≤ MOST_ON_PAGE) }
        ensures cause { IfErr result IsFailure }
    {
        no_record_begins_another();
        let stored = self.page_here(alloc, kind_number(kind), from)?;
        entries_of(alloc, stored.as_slice())
    }

    // Reads the kind of each object, and remembers how many there are of each.
    #[tactic(auto, using(crate::proofs::Sure::as_before))]
    fn count_here(&mut self, alloc: Global) -> Result<KindCounts, StoreFault>
        ensures same { IsAsBefore S.Store self.old self.new }
        ensures counts { IsHonest S.Store self.new → (k : StoreState)
            → Represents S.Store self.old k
            → IfOk result (λ counts. AreCounts k.registry.content (counted counts)) }
        ensures cause { IfErr result IsFailure }
    {
        let kinds = self.kinds_here(alloc)?;
        let counts = counts_of(kinds.as_slice());
        self.remembered.counts = Some(counts);
        Ok(counts)
    }

    /// How many objects the tables have of each of the six kinds. The store remembers it until a
    /// change ends, so only the first of these calls after a change reads the objects. `S1`, `S2`.
    #[tactic(auto, using(crate::proofs::Sure::unread))]
    pub fn counts_by_kind(&mut self, alloc: Global) -> Result<BTreeMap<Kind, u64>, StoreFault>
        ensures same { IsAsBefore S.Store self.old self.new }
        ensures counts { IsHonest S.Store self.new → (k : StoreState)
            → Represents S.Store self.old k
            → IfOk result (λ counts. AreCounts k.registry.content counts.entries) }
        ensures cause { IfErr result IsFailure }
    {
        match self.remembered.counts {
            Some(counts) => counts.by_kind(alloc),
            None => self.count_here(alloc)?.by_kind(alloc),
        }
    }
}
