//! The objects of the latest chain's tables, one at a time.

ghost use Rattle.std.specs.Prelude.{◌≡◌, IfSome};

use crate::reads::Reads;
use esc_apply::Objects;
use esc_store::{Cause, StoreFault};
use esc_tables::{Key, Object};

/// The objects of the latest chain's tables, one at a time, by key. While it exists it borrows what
/// it reads, so nothing arrives.
// What owns memory is under a type parameter, so that contracts can say what the reference leads to
// once the walk is dropped.
pub struct Walk<'a, R, P> {
    pub(crate) reader: &'a mut R,
    pub(crate) place: P,
    pub(crate) has_failed: bool,
}

impl<'a, R: Reads> Walk<'a, R, R::Place> {
    ghost use Rattle.esc_desk.specs.WalkCalls.{walked_by, place_of, lent_as, HasFailed, has_failed};

    /// A walk from a place on, which [`Reads::start_walk`] gave. It hasn't failed. Doesn't allocate.
    pub fn new(reader: &'a mut R, place: R::Place) -> Walk<'a, R, R::Place>
        ensures same_reference { lent_as result ≡ reader.entry.ghost_name }
        ensures same { walked_by result ≡ reader.old }
        ensures place { place_of result ≡ place }
        ensures unfailed { HasFailed result → ⊥ }
    {
        Walk {
            reader,
            place,
            has_failed: false,
        }
    }

    /// How many objects are still to come, where that is known without a read.
    pub fn left(&self) -> Option<u64>
        ensures { IfSome result (λ count. count ≡ R.bound (place_of self.now)) }
    {
        self.reader.left(&self.place)
    }

    /// Whether a call has failed. Then nothing is said of what is read later.
    pub fn has_failed(&self) -> bool
        ensures { result ≡ has_failed self.now }
    {
        self.has_failed
    }
}

impl<'a, R: Reads> Objects for Walk<'a, R, R::Place> {
    ghost use Rattle.std.proofs.Common.{refl, ◌∙◌};
    ghost use Rattle.esc_store.specs.Faults.{IsFailure};
    ghost use Rattle.esc_desk.specs.WalkCalls.{WalkFollows, HasFailed, place_of, walked_by};

    type Error = StoreFault;

    ghost lists = { λ walk es. R.lists (walked_by walk) (place_of walk) es };

    ghost bound = { λ walk. R.bound (place_of walk) };

    ghost has_failed = { λ walk. HasFailed walk };

    ghost fails = { λ fault. IsFailure fault };

    ghost is_honest = { λ walk. R.is_honest (walked_by walk) };

    ghost follows = { λ a b. WalkFollows R.follows R.reflects a b };

    // A walk counts as failed during a call, so that an early return leaves it failed.
    fn next(&mut self) -> Result<Option<(Key, Object)>, StoreFault> {
        if self.has_failed {
            return Err(StoreFault::Failed(Cause::WalkEnded));
        }
        self.has_failed = true;
        let found = self.reader.walk_on(&mut self.place)?;
        self.has_failed = false;
        Ok(found)
    }

    ghost in_order = { λ walk es h. R.in_order (walked_by walk) (place_of walk) es h };

    ghost stays = { λ walk. record {
      same_reference = refl;
      same = R.stays (walked_by walk);
      fails = λ failed. failed;
      reflects = λ unfailed e h. h;
    } };

    ghost goes_on = { λ a b c p q. record {
      same_reference = q.same_reference ∙ p.same_reference;
      same = R.goes_on (walked_by a) (walked_by b) (walked_by c) p.same q.same;
      fails = λ failed. q.fails (p.fails failed);
      reflects = λ unfailed e h. q.reflects unfailed e
          (p.reflects (λ failed. unfailed (q.fails failed)) e h);
    } };

    ghost was_honest = { λ a b p clean.
        R.was_honest (walked_by a) (walked_by b) p.same clean };
}

impl<R, P: Drop> Drop for Walk<'_, R, P> {
    ghost use Rattle.esc_desk.specs.WalkCalls.{walked_by};

    fn drop(self)
        ensures { self.exit.0.now ≡ walked_by self.entry }
    {
        let Walk {
            reader: _,
            place: _,
            has_failed: _,
        } = self;
    }
}
