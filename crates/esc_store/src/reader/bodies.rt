//! The bodies that a reader returns, and what it tells of parked ones.

ghost use Rattle.std.specs.Prelude.{◌≡◌, map, option_map, IfOk, IfErr, IsPermutation};
ghost use Rattle.std.specs.List.Sorted.{IsSortedByKey};
ghost use Rattle.std.specs.Ordering.{nat_cmp};
ghost use Rattle.std.specs.Cmp.Lexicographic.{slice_cmp};
ghost use Rattle.esc_store.specs.Faults.{IsFailure};
ghost use Rattle.esc_store.specs.Parks.{AreParkedBodies};
ghost use Rattle.esc_store.specs.StoreState.{StoreState};
ghost use Rattle.esc_store.specs.Reading.{IsHonestReader, IsReadOnly, ReaderRepresents};
ghost use Rattle.esc_store.specs.Reading.{parked_read};

use crate::cause::{Cause, Table};
use crate::codec::manifest::digest_of;
use crate::codec::small;
use crate::fault::StoreFault;
use crate::parked::ParkedBody;
use crate::reader::StoreReader;
use esc_scan::held::{HELD_TREE, find_body};
use esc_scan::parked::{ParkedSize, all_parked};
use sqlite_trees::store::{Shape, Store};
use std::alloc::Global;

impl<S: Store> StoreReader<S> {
    /// The body of the row with this index, from 0, if it is held. No other body is read. `S1`,
    /// also where the trees have no table of held bodies; `S2`.
    #[tactic(auto, using(crate::proofs::Readers::read_only, crate::proofs::Readers::unread))]
    pub fn body_of(&mut self, alloc: Global, row: usize) -> Result<Option<Vec<u8>>, StoreFault>
        ensures same { IsReadOnly S.Store self.old self.new result }
        ensures found { IsHonestReader S.Store self.new → (k : StoreState)
            → ReaderRepresents S.Store self.old k
            → IfOk result (λ body. option_map (λ b. b.items) body ≡ k.bodies row) }
        ensures cause { IfErr result IsFailure }
    {
        let row = small(row)?;
        if self.trees.shape(HELD_TREE) != Shape::Table {
            return Err(StoreFault::Failed(Cause::ForeignRow(Table::Held)));
        }
        let body = find_body(alloc, &mut self.trees, row)?;
        Ok(body)
    }

    /// The SHA-256 of each parked body and its length, in the byte order of the SHA-256s. Each body
    /// is read, one at a time, and none is kept. `S1`, `S2`.
    #[tactic(auto, using(crate::proofs::Readers::read_only))]
    pub fn parked(&mut self, alloc: Global) -> Result<Vec<ParkedBody>, StoreFault>
        ensures same { IsReadOnly S.Store self.old self.new result }
        ensures bodies { IsHonestReader S.Store self.new → (k : StoreState)
            → ReaderRepresents S.Store self.old k
            → IfOk result (λ bodies. AreParkedBodies k.parked bodies.items) }
        ensures cause { IfErr result IsFailure }
    {
        let stored = all_parked(alloc, &mut self.trees)?;
        let bodies = bodies_of(alloc, stored.as_slice())?;
        Ok(by_digest(bodies))
    }
}

// Parked bodies, as they are stored. `S1` if a digest doesn't have its length; `S2`.
fn bodies_of(alloc: Global, parked: &[ParkedSize]) -> Result<Vec<ParkedBody>, StoreFault>
    ensures bodies { IfOk result (λ bodies. bodies.items ≡ map parked_read parked.now) }
    ensures cause { IfErr result IsFailure }
{
    let mut bodies = Vec::with_capacity(alloc, parked.len())?;
    for it in parked {
        let digest = digest_of(it.digest.as_slice())?;
        let bytes = it.size;
        bodies.push(ParkedBody { digest, bytes })?;
    }
    Ok(bodies)
}

// These bodies, in the byte order of their digests.
fn by_digest(bodies: Vec<ParkedBody>) -> Vec<ParkedBody>
    ensures permutation { IsPermutation bodies.items result.items }
    ensures sorted { IsSortedByKey (λ (b : ParkedBody). b.digest) (slice_cmp nat_cmp) result.items }
{
    let mut bodies = bodies;
    bodies.sort_unstable_by_key(
        |body: &ParkedBody|
            ensures { result ≡ body.now.digest }
        { body.digest },
    );
    bodies
}
