//! Parked bodies, which no row lists: what a store returns of them, and parts of a change.

ghost use Rattle.std.specs.Prelude.{◌≡◌, Some, None, IsSome, length, map, option_map, IfOk, IfErr};
ghost use Rattle.std.specs.Prelude.{OnOk};
ghost use Rattle.esc_apply.specs.Registry.{State};
ghost use Rattle.esc_sql.specs.Content.{parked_at};
ghost use Rattle.esc_sql.specs.Parked.{ListsParked};
ghost use Rattle.esc_store.specs.Faults.{IsFailure};
ghost use Rattle.esc_store.specs.StoreState.{StoreState, AreParked, with_adopted, with_parked};
ghost use Rattle.esc_store.specs.Representation.{Represents, HasMadeBooks, HasMadeTables};
ghost use Rattle.esc_store.specs.Representation.{IsChangePart, ChangeFollows, IsAsBefore, IsHonest};
ghost use Rattle.esc_store.specs.Representation.{IsStoreRead, listed_by, store_in};

use crate::cause::Cause;
use crate::change::Change;
use crate::codec::manifest::digest_of;
use crate::fault::StoreFault;
use crate::store::Store;
use esc_sql::parked::{delete_parked, find_parked, insert_parked, parked_digests, parked_length};
use sqlite::Alter;
use std::alloc::Global;

/// The most bodies that may be parked. The desk tests it: `park` parks any number.
pub const MOST_PARKED: usize = 1024;

/// A body that is parked, since no row lists it.
#[derive(Clone, Copy, Debug)]
pub struct ParkedBody {
    /// Its SHA-256.
    pub digest: [u8; 32],
    /// Its length in bytes.
    pub bytes: u64,
}

impl<S: Alter> Store<S> {
    // The body that is parked under a digest, if one is.
    #[tactic(auto, using(crate::proofs::Sure::read_here))]
    fn parked_here(&mut self, digest: &[u8]) -> Result<Option<Vec<u8>>, StoreFault>
        ensures read { IsStoreRead S.Store self.old self.new
            (λ c found. option_map (λ b. b.items) found ≡ parked_at digest.now c.parked) result }
        ensures cause { IfErr result IsFailure }
    {
        let found = find_parked(&mut self.conn, digest);
        self.settle(found)
    }

    // The length of the body that is parked under a digest, if one is.
    #[tactic(auto, using(crate::proofs::Sure::read_here))]
    fn length_here(&mut self, digest: &[u8]) -> Result<Option<u64>, StoreFault>
        ensures read { IsStoreRead S.Store self.old self.new
            (λ c found. found ≡ option_map length (parked_at digest.now c.parked)) result }
        ensures cause { IfErr result IsFailure }
    {
        let found = parked_length(&mut self.conn, digest);
        self.settle(found)
    }

    // The digests of the parked bodies.
    #[tactic(auto, using(crate::proofs::Sure::read_here))]
    fn digests_here(&mut self, alloc: Global) -> Result<Vec<Vec<u8>>, StoreFault>
        ensures read { IsStoreRead S.Store self.old self.new
            (λ c found. ListsParked c (map (λ d. d.items) found.items)) result }
        ensures cause { IfErr result IsFailure }
    {
        let found = parked_digests(alloc, &mut self.conn);
        self.settle(found)
    }

    /// The body that is parked under a SHA-256, if one is. `S1`, `S2`.
    #[tactic(auto, using(crate::proofs::Sure::as_before))]
    pub fn parked_body(&mut self, digest: &[u8; 32]) -> Result<Option<Vec<u8>>, StoreFault>
        ensures same { IsAsBefore S.Store self.old self.new }
        ensures found { IsHonest S.Store self.new → (k : StoreState) → Represents S.Store self.old k
            → IfOk result (λ body. option_map (λ b. b.items) body ≡ k.parked digest.now) }
        ensures cause { IfErr result IsFailure }
    {
        self.parked_here(digest)
    }

    /// How many bytes the body has that is parked under a SHA-256, if one is. The body is read, and
    /// isn't returned. `S1`, `S2`.
    #[tactic(auto, using(crate::proofs::Sure::as_before))]
    pub fn parked_length(&mut self, digest: &[u8; 32]) -> Result<Option<u64>, StoreFault>
        ensures same { IsAsBefore S.Store self.old self.new }
        ensures found { IsHonest S.Store self.new → (k : StoreState) → Represents S.Store self.old k
            → IfOk result (λ found. found ≡ option_map length (k.parked digest.now)) }
        ensures cause { IfErr result IsFailure }
    {
        self.length_here(digest)
    }

    /// The SHA-256 of each parked body, in byte order. No body is read. `S1`, `S2`.
    #[tactic(auto, using(crate::proofs::Sure::as_before))]
    pub fn parked(&mut self, alloc: Global) -> Result<Vec<[u8; 32]>, StoreFault>
        ensures same { IsAsBefore S.Store self.old self.new }
        ensures digests { IsHonest S.Store self.new → (k : StoreState)
            → Represents S.Store self.old k
            → IfOk result (λ digests. AreParked k.parked digests.items) }
        ensures cause { IfErr result IsFailure }
    {
        let stored = self.digests_here(alloc)?;
        digests_of(alloc, stored.as_slice())
    }
}

impl<'a, S: Alter> Change<'a, S> {
    /// Parks a body under its SHA-256. `S1`, also if one is parked under it already; `S2`.
    pub fn park(&mut self, digest: &[u8; 32], body: &[u8]) -> Result<(), StoreFault>
        ensures part { IsChangePart S.Store self.old self.new result
            (λ k. with_parked k digest.now (Some body.now)) }
        ensures listed { listed_by self.new ≡ listed_by self.old }
        ensures free { OnOk result (IsHonest S.Store (store_in self.new) → (before k : StoreState)
            → HasMadeBooks S.Store self.old before k → k.parked digest.now ≡ None) }
        ensures cause { IfErr result IsFailure }
    {
        let done = insert_parked(&mut self.store.conn, digest, body);
        self.store.settle(done)
    }

    /// Removes the body that is parked under this SHA-256, if one is. `S1`, `S2`.
    pub fn unpark(&mut self, digest: &[u8; 32]) -> Result<(), StoreFault>
        ensures part { IsChangePart S.Store self.old self.new result
            (λ k. with_parked k digest.now None) }
        ensures listed { listed_by self.new ≡ listed_by self.old }
        ensures cause { IfErr result IsFailure }
    {
        let done = delete_parked(&mut self.store.conn, digest);
        self.store.settle(done)
    }

    // The body that is parked under a digest, if one is.
    fn find_parked(&mut self, digest: &[u8; 32]) -> Result<Option<Vec<u8>>, StoreFault>
        ensures count { self.new.count ≡ self.old.count }
        ensures follows { ChangeFollows S.Store self.old self.new }
        ensures found { IfOk result (λ found. IsHonest S.Store self.new.store.now
            → (before k : StoreState) → HasMadeBooks S.Store self.old before k
            → option_map (λ b. b.items) found ≡ k.parked digest.now) }
        ensures holds { OnOk result ((s : State) → HasMadeTables S.Store self.old s
            → HasMadeTables S.Store self.new s) }
        ensures cause { IfErr result IsFailure }
    {
        self.store.goes_on()?;
        let found = find_parked(&mut self.store.conn, digest);
        self.store.settle(found)
    }

    /// Moves the body that is parked under a SHA-256 to a listed row: it is the row's body then,
    /// and is parked no more. `S1`, also if none is parked under it or the row has a body already;
    /// `S2`.
    pub fn adopt(&mut self, row: usize, digest: &[u8; 32]) -> Result<(), StoreFault>
        ensures part { IsChangePart S.Store self.old self.new result
            (λ k. with_adopted k row digest.now (k.parked digest.now)) }
        ensures listed { listed_by self.new ≡ listed_by self.old }
        ensures parked { OnOk result (IsHonest S.Store (store_in self.new) → (before k : StoreState)
            → HasMadeBooks S.Store self.old before k → IsSome (k.parked digest.now)) }
        ensures free { OnOk result (IsHonest S.Store (store_in self.new) → (before k : StoreState)
            → HasMadeBooks S.Store self.old before k → k.bodies row ≡ None) }
        ensures cause { IfErr result IsFailure }
    {
        let found = self.find_parked(digest)?;
        let Some(body) = found else {
            return Err(StoreFault::Failed(Cause::NoBody));
        };
        self.hold(row, body.as_slice())?;
        self.unpark(digest)
    }
}

// Bytes as digests. `S1` if one doesn't have the length of a digest; `S2`.
pub(crate) fn digests_of(alloc: Global, stored: &[Vec<u8>]) -> Result<Vec<[u8; 32]>, StoreFault>
    ensures digests { IfOk result (λ digests. digests.items ≡ map (λ d. d.items) stored.now) }
    ensures cause { IfErr result IsFailure }
{
    let mut digests = Vec::new(alloc);
    for bytes in stored {
        digests.push(digest_of(bytes.as_slice())?)?;
    }
    Ok(digests)
}
