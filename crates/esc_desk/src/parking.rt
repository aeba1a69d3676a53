//! Whether a body that no row lists is parked.

ghost use Rattle.std.specs.Prelude.{IfOk, IfErr};
ghost use Rattle.esc_store.specs.Faults.{IsFailure};
ghost use Rattle.esc_store.specs.StoreState.{StoreState};
ghost use Rattle.esc_store.specs.Representation.{Represents, IsHonest, IsAsBefore};
ghost use Rattle.esc_events.specs.Parks.{IsParking};

use esc_events::Parking;
use esc_store::{MOST_PARKED, Store, StoreFault};
use sqlite::Alter;
use std::alloc::Global;

/// Whether a body with this digest, which no row lists, is to be parked. No body is read.
pub(crate) fn parking_of<S: Alter>(
    store: &mut Store<S>,
    alloc: Global,
    digest: &[u8; 32],
) -> Result<Parking, StoreFault>
    ensures same { IsAsBefore S.Store store.old store.new }
    ensures parking { IsHonest S.Store store.new → (k : StoreState) → Represents S.Store store.old k
        → IfOk result (IsParking k.parked digest.now) }
    ensures cause { IfErr result IsFailure }
{
    let parked = store.parked(alloc)?;
    if parked.contains(digest) {
        Ok(Parking::Needless)
    } else if parked.len() < MOST_PARKED {
        Ok(Parking::Free)
    } else {
        Ok(Parking::Crowded)
    }
}
