//! Which rows a store holds, and its chain: what a desk remembers, so that an arrival needn't ask
//! for them.

ghost use Rattle.std.specs.Prelude.{List, IfOk, IfErr, IfSome};
ghost use Rattle.sha2.specs.Sha256.{sha256};
ghost use Rattle.esc_tables.specs.Reading.{reading};
ghost use Rattle.esc_store.specs.Faults.{IsFailure};
ghost use Rattle.esc_store.specs.StoreState.{StoreState};
ghost use Rattle.esc_store.specs.Representation.{Represents, IsHonest, IsAsBefore};
ghost use Rattle.esc_events.specs.Events.{EventValue};
ghost use Rattle.esc_events.specs.Cache.{IsCacheOf};
ghost use Rattle.esc_events.specs.StateAfter.{IsStateAfter};

use esc_events::Cache;
use esc_store::{Store, StoreFault};
use sqlite::Alter;
use std::alloc::Global;

/// What is known of a store: the rows that have a body, those that a receipt says are held, and its
/// chain.
pub(crate) fn cache_of<S: Alter>(store: &mut Store<S>, alloc: Global) -> Result<Cache, StoreFault>
    ensures same { IsAsBefore S.Store store.old store.new }
    ensures cache { IsHonest S.Store store.new → (e : List EventValue) (k : StoreState)
        → Represents S.Store store.old k → IsStateAfter sha256 reading e k
        → IfOk result (IsCacheOf k) }
    ensures cause { IfErr result IsFailure }
{
    let held_rows = store.held(alloc)?;
    let rows_with_receipt = store.held_by_receipts(alloc)?;
    let chain = store.chain(alloc)?;
    Ok(Cache {
        held_rows,
        rows_with_receipt,
        chain,
    })
}

/// What is known of a store, or if that is `None`, what the store reports.
pub(crate) fn cache_or<S: Alter>(
    store: &mut Store<S>,
    alloc: Global,
    cache: Option<Cache>,
) -> Result<Cache, StoreFault>
    ensures same { IsAsBefore S.Store store.old store.new }
    ensures cache { IsHonest S.Store store.new → (e : List EventValue) (k : StoreState)
        → Represents S.Store store.old k → IsStateAfter sha256 reading e k
        → IfSome cache (IsCacheOf k)
        → IfOk result (IsCacheOf k) }
    ensures cause { IfErr result IsFailure }
{
    match cache {
        Some(cache) => Ok(cache),
        None => cache_of(store, alloc),
    }
}
