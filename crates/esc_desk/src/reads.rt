//! What is read of a store that reflects a list of events.

ghost use Rattle.std.specs.Prelude.{◌≡◌, ◌+◌, ℕ, List, IfOk, IfErr, IfSome, IsSome, option_map};
ghost use Rattle.esc_apply.specs.ObjectStreams.{Entry, GivesFirst, InOrder};
ghost use Rattle.esc_store.specs.Faults.{IsFailure};
ghost use Rattle.esc_events.specs.Events.{EventValue, union, last_moment};
ghost use Rattle.esc_desk.specs.Reading.{IsReadOf, OkForEvents, ListsTables, HasState};
ghost use Rattle.esc_desk.specs.Reads.{replies_of, AreHeldOf, AreParkedOf, AreStepsOf, IsBodyOf};
ghost use Rattle.esc_desk.specs.Reads.{IsEnd, IsStatus};

use crate::status::{End, Status};
use esc_apply::Step;
use esc_envelope::Kind;
use esc_events::ParkedBody;
use esc_manifest::Manifest;
use esc_store::{Reply, StoreFault};
use esc_tables::{Key, Object};
use std::alloc::Global;

/// What is read of a store that reflects a list of events: by a [`Desk`](crate::Desk), with SQL, or
/// by a [`StoreReader`](esc_store::StoreReader), which goes over the store's trees. A read changes
/// nothing. After an `Err` nothing is said of what later reads return, unless what implements this
/// says so.
pub trait Reads {
    /// Where a walk over the tables stands.
    type Place: Drop;

    /// The store stands for this list of events.
    ghost reflects: { Self → List EventValue → Type 0 };

    /// The disk gave back what was written to it.
    ghost is_honest: { Self → Type 0 };

    /// What a read leaves as it was, whatever it returns (for instance: nothing was committed).
    ghost follows: { Self → Self → Type 0 };

    /// The objects that are still to come at a place of a walk.
    ghost lists: { Self → Self.Place → List Entry → Type 0 };

    /// A bound on how many objects are still to come at a place, honest or not.
    ghost bound: { Self.Place → ℕ };

    /// The rows that are listed: those of the first manifest and of each amendment. Doesn't
    /// allocate.
    fn manifest(&self) -> &Manifest
        ensures manifest { (e : List EventValue) → reflects self.now e → result.now ≡ union e };

    /// All replies, in the order of their receipts. `S1`, `S2`.
    fn receipts(&mut self, alloc: Global) -> Result<Vec<Reply>, StoreFault>
        ensures read { IsReadOf follows reflects self.old self.new result }
        ensures all { OkForEvents is_honest reflects self.old self.new result
            (λ e replies. replies.items ≡ replies_of e) }
        ensures cause { IfErr result IsFailure };

    /// The listed rows that have a body, as indices from 0 in ascending order. Of the bodies only
    /// those are read that no row listed when they arrived, each once. `S1`, `S2`.
    fn held(&mut self, alloc: Global) -> Result<Vec<usize>, StoreFault>
        ensures read { IsReadOf follows reflects self.old self.new result }
        ensures rows { OkForEvents is_honest reflects self.old self.new result
            (λ e rows. AreHeldOf e rows.items) }
        ensures cause { IfErr result IsFailure };

    /// The bodies that no row lists, each as its digest and length, in the order of digests. They
    /// are read one at a time. `S1`, `S2`.
    fn parked(&mut self, alloc: Global) -> Result<Vec<ParkedBody>, StoreFault>
        ensures read { IsReadOf follows reflects self.old self.new result }
        ensures bodies { OkForEvents is_honest reflects self.old self.new result
            (λ e bodies. AreParkedOf e bodies.items) }
        ensures cause { IfErr result IsFailure };

    /// The moment as of which the registry is rebuilt, in nanoseconds since 1970-01-01T00:00:00Z,
    /// if one is set. `S1`, `S2`.
    fn moment(&mut self, alloc: Global) -> Result<Option<i64>, StoreFault>
        ensures read { IsReadOf follows reflects self.old self.new result }
        ensures moment { OkForEvents is_honest reflects self.old self.new result
            (λ e moment. moment ≡ last_moment e) }
        ensures cause { IfErr result IsFailure };

    /// The steps of the latest chain, in order. `S1`, `S2`.
    fn chain(&mut self, alloc: Global) -> Result<Vec<Step>, StoreFault>
        ensures read { IsReadOf follows reflects self.old self.new result }
        ensures steps { OkForEvents is_honest reflects self.old self.new result
            (λ e steps. AreStepsOf e steps.items) }
        ensures cause { IfErr result IsFailure };

    /// The body of the row with this index, from 0, if it is held. No other body is read. `S1`,
    /// `S2`.
    fn body_of(&mut self, alloc: Global, row: usize) -> Result<Option<Vec<u8>>, StoreFault>
        ensures read { IsReadOf follows reflects self.old self.new result }
        ensures body { OkForEvents is_honest reflects self.old self.new result
            (λ e body. IsBodyOf e row (option_map (λ b. b.items) body)) }
        ensures cause { IfErr result IsFailure };

    /// What the latest chain's last deposit says of the registry, read from its body's envelope;
    /// `None` where there is no chain. `S1`, `S2`.
    fn end(&mut self, alloc: Global) -> Result<Option<End>, StoreFault>
        ensures read { IsReadOf follows reflects self.old self.new result }
        ensures end { OkForEvents is_honest reflects self.old self.new result
            (λ e end. IsEnd e end) }
        ensures cause { IfErr result IsFailure };

    /// The counts of the store, and the end of its latest chain. Reads what `held` reads, and the
    /// kind of each object. `S1`, `S2`.
    fn status(&mut self, alloc: Global) -> Result<Status, StoreFault>
        ensures read { IsReadOf follows reflects self.old self.new result }
        ensures status { OkForEvents is_honest reflects self.old self.new result
            (λ e status. IsStatus e status) }
        ensures cause { IfErr result IsFailure };

    /// Where a walk over the objects of the latest chain's tables begins: those of one kind or
    /// (`None`) of all, by key. `S1`, `S2`.
    fn start_walk(&mut self, alloc: Global, kind: Option<Kind>) -> Result<Self::Place, StoreFault>
        ensures read { IsReadOf follows reflects self.old self.new result }
        ensures lists { OkForEvents is_honest reflects self.old self.new result
            (λ e place. ListsTables (lists self.new place) kind e) }
        ensures cause { IfErr result IsFailure };

    /// How many objects of a walk are still to come, where that is known without a read.
    fn left(&self, place: &Self::Place) -> Option<u64>
        ensures { IfSome result (λ count. count ≡ bound place.now) };

    /// The next object of a walk, or `None` if there is none. `S1`, `S2`.
    fn walk_on(&mut self, place: &mut Self::Place) -> Result<Option<(Key, Object)>, StoreFault>
        ensures read { IsReadOf follows reflects self.old self.new result }
        ensures given { IfOk result (λ o. is_honest self.new → (es : List Entry)
            → lists self.old place.old es → GivesFirst (lists self.new place.new) es o) }
        ensures fewer { IfOk result
            (λ o. IsSome o → bound place.old ≡ bound place.new + 1) }
        ensures cause { IfErr result IsFailure };

    /// The events lead to a state.
    ghost stands_for: { (r : Self) (e : List EventValue) → reflects r e → HasState e };

    /// The objects come by key, and no key comes twice.
    ghost in_order: { (r : Self) (p : Self.Place) (es : List Entry) → lists r p es
        → InOrder es };

    ghost stays: { (r : Self) → follows r r };

    ghost goes_on: { (a b c : Self) → follows a b → follows b c → follows a c };

    /// What is honest now was honest before.
    ghost was_honest: { (a b : Self) → follows a b → is_honest b → is_honest a };
}
