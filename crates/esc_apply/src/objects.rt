//! Objects that are given one at a time.

ghost use Rattle.std.specs.Prelude.{ℕ, ◌≡◌, ◌+◌, List, IfOk, IfErr, OnOk, OnErr, IsSome, ⊤};
ghost use Rattle.esc_apply.specs.ObjectStreams.{Entry, GivesFirst, InOrder};

use esc_tables::{Key, Object};

/// Objects that are given one at a time, by key, each key once. A report over them needs no memory
/// for all of them.
pub trait Objects {
    type Error;

    /// The objects that are still to come. It is a relation, since there may be no such list.
    ghost lists: { Self → List Entry → Type 0 };

    /// A bound on how many objects are still to come, honest or not.
    ghost bound: { Self → ℕ };

    /// An error was returned, so no more objects come.
    ghost has_failed: { Self → Type 0 };

    /// Which errors it returns.
    ghost fails: { Self.Error → Type 0 } = { λ _. ⊤ };

    /// What it gave so far is what its source holds (for instance: the disk gave back what was
    /// written).
    ghost is_honest: { Self → Type 0 };

    /// What stays true through calls, whatever they return (for instance: nothing was committed).
    ghost follows: { Self → Self → Type 0 };

    /// The next object: the first of those still to come, or `None` if there is none. After an
    /// error no more objects come.
    fn next(&mut self) -> Result<Option<(Key, Object)>, Self::Error>
        ensures follows { follows self.old self.new }
        ensures given { IfOk result (λ o. is_honest self.new → (es : List Entry)
            → lists self.old es
            → GivesFirst (lists self.new) es o) }
        ensures fewer { IfOk result (λ o. IsSome o → bound self.old ≡ bound self.new + 1) }
        ensures failed { OnErr result (has_failed self.new) }
        ensures cause { IfErr result fails }
        ensures ended { OnOk result (has_failed self.old → ⊥) };

    /// The objects come by key, and no key comes twice.
    ghost in_order: { (o : Self) (es : List Entry) → lists o es → InOrder es };

    ghost stays: { (o : Self) → follows o o };

    ghost goes_on: { (a b c : Self) → follows a b → follows b c → follows a c };

    /// What is honest now was honest before.
    ghost was_honest: { (a b : Self) → follows a b → is_honest b → is_honest a };
}
