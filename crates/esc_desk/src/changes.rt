//! How an edit is made: in one transaction of the store, whole or not at all.

ghost use Rattle.std.specs.Prelude.{◌≡◌, ◌+◌, ◌≤◌, length, IfOk, IfErr, IfSome, OnOk, OnErr};
ghost use Rattle.esc_apply.specs.Registry.{saturated};
ghost use Rattle.esc_store.specs.Faults.{IsFailure};
ghost use Rattle.esc_store.specs.StoreState.{StoreState};
ghost use Rattle.esc_store.specs.Representation.{Represents, IsHonest, LeavesOnly, StoreLeavesOr};
ghost use Rattle.esc_store.specs.Representation.{Began, HasMadeBooks, HasMadeTables, IsUncommitted};
ghost use Rattle.esc_store.specs.Representation.{IsChangePart, listed_by};
ghost use Rattle.esc_events.specs.Amended.{with_all_adopted, with_all_dropped};
ghost use Rattle.esc_desk.specs.Causes.{IsEditFault, IsFillFault};
ghost use Rattle.esc_desk.specs.Edits.{receipted, stored, timed, listed_more, edited, IsSoundPlan};
ghost use Rattle.esc_desk.specs.Edits.{HasItsDeposit, Begins, IsFromChainOf, IsFilled, HasAllParts};
ghost use Rattle.esc_desk.specs.Edits.{IsCommitted};

use crate::edit::{Edit, Listing, Storing};
use crate::moves::move_if_planned;
use esc_apply::Work;
use esc_events::Plan;
use esc_manifest::{MRow, copy_rows};
use esc_store::{Cause, Change, MOST_RECEIPTS, Receipt, Store, StoreFault};
use sqlite::Alter;
use std::alloc::Global;

/// What came of an edit: the number of its receipt, if it has one, the work of its move, and its
/// plan.
#[derive(Drop)]
pub(crate) struct Committed {
    pub(crate) number: u64,
    pub(crate) work: Work,
    pub(crate) plan: Option<Plan>,
}

/// Makes an edit in one transaction of the store, whole or not at all.
#[tactic(auto, using(esc_store::specs::StandingLaws::was_clean))]
pub(crate) fn commit<S: Alter>(
    store: &mut Store<S>,
    alloc: Global,
    edit: Edit<'_, '_>,
) -> Result<Committed, StoreFault>
    requires begins { Begins edit.listing store.old.manifest }
    requires sound { IfSome edit.plan IsSoundPlan }
    requires read { HasItsDeposit edit.body }
    ensures honest { IsHonest S.Store store.new → IsHonest S.Store store.old }
    ensures made { IsHonest S.Store store.new → (k : StoreState) → IsFromChainOf k edit.entry.plan
        → Represents S.Store store.old k
        → IfOk result (IsCommitted S.Store store.new edit.entry k) }
    ensures kept { OnErr result ((k : StoreState) → Represents S.Store store.old k
        → Represents S.Store store.new k) }
    ensures crash { IsHonest S.Store store.new → (k : StoreState) → IsFromChainOf k edit.entry.plan
        → Represents S.Store store.old k
        → StoreLeavesOr S.Store store.old store.new (edited edit.entry k) }
    ensures counted { IfOk result (λ done. store.new.writes
        ≡ saturated (store.old.writes + done.work.writes)) }
    ensures uncounted { OnErr result (store.new.writes ≡ store.old.writes) }
    ensures cause { IfErr result
        (IsEditFault S.Store edit.entry.receipt store.old store.new) }
{
    let mut change = store.begin()?;
    let done = fill(&mut change, alloc, edit)?;
    commit_filled(change)?;
    Ok(done)
}

// Makes all of an edit's change but its commit. The rows are listed before a body is held, since
// the table of bodies refers to that of listed rows.
fn fill<S: Alter>(
    change: &mut Change<'_, S>,
    alloc: Global,
    edit: Edit<'_, '_>,
) -> Result<Committed, StoreFault>
    requires begins { Begins edit.listing (listed_by change.now) }
    requires sound { IfSome edit.plan IsSoundPlan }
    requires read { HasItsDeposit edit.body }
    ensures goes_on { IsUncommitted S.Store change.old change.new }
    ensures fills { IsHonest S.Store change.new.store.now → (k : StoreState)
        → IsFromChainOf k edit.entry.plan
        → HasMadeBooks S.Store change.old k k → HasMadeTables S.Store change.old k.registry
        → IfOk result (HasAllParts S.Store change.new edit.entry k) }
    ensures counted { IfOk result (λ done. saturated change.new.count
        ≡ saturated (saturated change.old.count + done.work.writes)) }
    ensures cause { IfErr result
        (IsFillFault S.Store edit.entry.receipt change.old change.new) }
{
    let Edit {
        receipt,
        listing,
        body,
        moment,
        plan,
    } = edit;
    let number = add_receipt(change, &receipt)?;
    list_rows(change, alloc, listing)?;
    store_body(change, &body)?;
    set_moment(change, moment)?;
    let work = move_if_planned(change, alloc, &plan, body.at_hand())?;
    Ok(Committed { number, work, plan })
}

// Adds the receipt, if there is one. Returns its number, or 0.
fn add_receipt<S: Alter>(
    change: &mut Change<'_, S>,
    receipt: &Option<Receipt<'_>>,
) -> Result<u64, StoreFault>
    ensures part { IsChangePart S.Store change.old change.new result (receipted receipt.now) }
    ensures listed { listed_by change.new ≡ listed_by change.old }
    ensures numbered { IfOk result (λ n. IfSome receipt.now (λ r.
        IsHonest S.Store change.new.store.now → (before k : StoreState)
        → HasMadeBooks S.Store change.old before k → n ≡ length k.receipts + 1)) }
    ensures room { IfOk result (λ n. n ≤ MOST_RECEIPTS) }
    ensures cause { IfErr result (IsFillFault S.Store receipt.now change.old change.new) }
{
    match receipt {
        Some(receipt) => change.record_receipt(receipt),
        None => Ok(0),
    }
}

// Lists the rows of a union, if there is one. Of the bodies that are parked for them those that are
// their deposits are held, and the others are let go.
fn list_rows<S: Alter>(
    change: &mut Change<'_, S>,
    alloc: Global,
    listing: Option<Listing>,
) -> Result<(), StoreFault>
    requires begins { Begins listing (listed_by change.now) }
    ensures part { IsChangePart S.Store change.old change.new result (listed_more listing) }
    ensures cause { IfErr result IsFailure }
{
    let Some(Listing { union, judged }) = listing else {
        return Ok(());
    };
    let rows = copy_rows(alloc, union.rows())?;
    change.list(union)?;
    adopt_rows(change, &rows, &judged.adopted)?;
    drop_rows(change, &rows, &judged.dropped)
}

// Holds, for each of these rows, the body that is parked under its digest.
fn adopt_rows<S: Alter>(
    change: &mut Change<'_, S>,
    rows: &[MRow],
    adopted: &[usize],
) -> Result<(), StoreFault>
    ensures part { IsChangePart S.Store change.old change.new result
        (λ k. with_all_adopted rows.now k adopted.now) }
    ensures cause { IfErr result IsFailure }
{
    for row in adopted {
        let Some(listed) = rows.get(*row) else {
            return Err(StoreFault::Failed(Cause::Contradiction));
        };
        change.adopt(*row, &listed.digest)?;
    }
    Ok(())
}

// Lets go, for each of these rows, the body that is parked under its digest.
fn drop_rows<S: Alter>(
    change: &mut Change<'_, S>,
    rows: &[MRow],
    dropped: &[usize],
) -> Result<(), StoreFault>
    ensures part { IsChangePart S.Store change.old change.new result
        (λ k. with_all_dropped rows.now k dropped.now) }
    ensures cause { IfErr result IsFailure }
{
    for row in dropped {
        let Some(listed) = rows.get(*row) else {
            return Err(StoreFault::Failed(Cause::Contradiction));
        };
        change.unpark(&listed.digest)?;
    }
    Ok(())
}

// Stores the body, if there is one.
fn store_body<S: Alter>(change: &mut Change<'_, S>, body: &Storing<'_>) -> Result<(), StoreFault>
    ensures part { IsChangePart S.Store change.old change.new result (stored body.now) }
    ensures cause { IfErr result IsFailure }
{
    match body {
        Storing::Nothing => Ok(()),
        Storing::Hold(row, body, _) => change.hold(*row, body),
        Storing::Park(digest, body) => change.park(digest, body),
    }
}

// Sets the moment, if there is one to be set.
fn set_moment<S: Alter>(
    change: &mut Change<'_, S>,
    moment: Option<Option<i64>>,
) -> Result<(), StoreFault>
    ensures part { IsChangePart S.Store change.old change.new result (timed moment) }
    ensures cause { IfErr result IsFailure }
{
    match moment {
        Some(moment) => change.set_moment(moment),
        None => Ok(()),
    }
}

// Commits a change that has all its parts.
fn commit_filled<S: Alter>(change: Change<'_, S>) -> Result<(), StoreFault>
    ensures honest { IsHonest S.Store change.exit.0.now
        → IsHonest S.Store change.entry.store.now }
    ensures written { OnOk result (change.exit.0.now.writes
        ≡ saturated (change.entry.store.now.writes + change.entry.count)) }
    ensures unwritten { OnErr result (change.exit.0.now.writes ≡ change.entry.store.now.writes) }
    ensures made { OnOk result ((before k : StoreState) → IsFilled S.Store change.entry before k
        → LeavesOnly S.Store change.exit.0.now k
        × (IsHonest S.Store change.exit.0.now → Represents S.Store change.exit.0.now k)) }
    ensures kept { OnErr result ((before : StoreState) → Began S.Store change.entry before
        → Represents S.Store change.exit.0.now before) }
    ensures crash { (before k : StoreState) → IsFilled S.Store change.entry before k
        → StoreLeavesOr S.Store change.entry.store.now change.exit.0.now k }
    ensures cause { IfErr result IsFailure }
{
    change.commit()
}
