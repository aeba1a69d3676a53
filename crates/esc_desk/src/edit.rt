//! Edits: what an event changes of what the store keeps.

ghost use Rattle.std.specs.Prelude.{◌≡◌, ℕ, List, Option, IfSome};
ghost use Rattle.esc_tables.specs.Reading.{reading};
ghost use Rattle.esc_store.specs.StoreState.{StoreState};
ghost use Rattle.esc_events.specs.StateAfter.{deposit_of};
ghost use Rattle.esc_desk.specs.Edits.{is_empty, stored, HasItsDeposit, IsAtHand};

use crate::judging::Judged;
use esc_events::Plan;
use esc_manifest::Manifest;
use esc_store::Receipt;
use esc_tables::Deposit;

/// What an event changes of what the store keeps: each part that is there, and then the chain.
#[derive(Drop)]
pub(crate) struct Edit<'n, 'b> {
    /// A receipt more.
    pub(crate) receipt: Option<Receipt<'n>>,
    /// The rows of a union.
    pub(crate) listing: Option<Listing>,
    /// A body.
    pub(crate) body: Storing<'b>,
    /// A moment, or that none is set.
    pub(crate) moment: Option<Option<i64>>,
    /// The chain's move.
    pub(crate) plan: Option<Plan>,
}

impl Edit<'_, '_> {
    /// Whether it changes nothing.
    pub(crate) fn is_empty(&self) -> bool
        ensures { result ≡ is_empty self.now }
    {
        self.receipt.is_none()
            && self.listing.is_none()
            && matches!(self.body, Storing::Nothing)
            && self.moment.is_none()
            && self.plan.is_none()
    }
}

/// What becomes of a body.
#[derive(Drop)]
pub(crate) enum Storing<'a> {
    /// Nothing: there is none, or it is there already.
    Nothing,
    /// It is held for a row that has none yet, and this deposit was read from it.
    Hold(usize, &'a [u8], Deposit),
    /// It is parked under its digest.
    Park([u8; 32], &'a [u8]),
}

/// The union of the listed rows and more, and what was judged of the bodies that are parked for
/// the new ones.
#[derive(Drop)]
pub(crate) struct Listing {
    pub(crate) union: Manifest,
    pub(crate) judged: Judged,
}

/// The deposit of the body that an edit holds for a row, until it is used: so it isn't read again.
#[derive(Drop)]
pub(crate) struct AtHand {
    row: usize,
    deposit: Option<Deposit>,
}

impl Storing<'_> {
    /// The deposit of the body that is held, if one is.
    pub(crate) fn at_hand(self) -> AtHand
        ensures { HasItsDeposit self.entry → (k : StoreState)
            → IsAtHand result (stored self.entry k).bodies }
    {
        match self {
            Storing::Hold(row, _, deposit) => AtHand {
                row,
                deposit: Some(deposit),
            },
            Storing::Nothing | Storing::Park(..) => AtHand {
                row: 0,
                deposit: None,
            },
        }
    }
}

impl AtHand {
    /// Gives the deposit away, if it is that of this row.
    pub(crate) fn take(&mut self, row: usize) -> Option<Deposit>
        ensures left { (bodies : ℕ → Option (List ℕ)) → IsAtHand self.old bodies
            → IsAtHand self.new bodies }
        ensures taken { IfSome result (λ d. (bodies : ℕ → Option (List ℕ))
            → IsAtHand self.old bodies → d ≡ deposit_of reading (bodies row)) }
    {
        if self.row == row {
            self.deposit.take()
        } else {
            None
        }
    }
}
