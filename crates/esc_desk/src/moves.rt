//! How the tables of a change are moved from the chain that the store keeps to another one. Of the
//! deposits of that chain one at a time is in memory.

ghost use Rattle.std.specs.Prelude.{◌≡◌, ◌≢◌, ◌<◌, ◌≤◌, ◌+◌, ◌++◌, ◌∷◌, ◌^◌, [], ℕ, List, Option};
ghost use Rattle.std.specs.Prelude.{length, take, slice_get, sum_by, IfSome, IfOk, IfErr, OnOk};
ghost use Rattle.esc_tables.specs.DepositValue.{DepositValue};
ghost use Rattle.esc_tables.specs.Reading.{reading};
ghost use Rattle.esc_apply.specs.Registry.{State, saturated};
ghost use Rattle.esc_apply.specs.Tables.{mention_count};
ghost use Rattle.esc_apply.specs.Images.{chain_state};
ghost use Rattle.esc_store.specs.StoreState.{StoreState};
ghost use Rattle.esc_store.specs.Representation.{IsHonest, HasMadeBooks, HasMadeTables};
ghost use Rattle.esc_store.specs.Representation.{IsUncommitted, ChangeFollows};
ghost use Rattle.esc_store.specs.Faults.{IsFailure};
ghost use Rattle.esc_events.specs.Plans.{IsMovedFrom, IsCostOfMove, deposits_past, front_of};
ghost use Rattle.esc_events.specs.Plans.{moved_by, rows_in_steps};
ghost use Rattle.esc_events.specs.StateAfter.{deposit_of, deposits_of};
ghost use Rattle.esc_desk.specs.Edits.{chain_deposits, moved_if, IsAtHand, IsSoundPlan};
ghost use Rattle.esc_desk.specs.Edits.{IsFromChainOf, IsCostIf, StaysPut, IsFilled};

use crate::desk::NO_WORK;
use crate::edit::AtHand;
use esc_apply::{Step, Work, apply_next, common_front, take_back, work_of};
use esc_bundle::Fault;
use esc_events::Plan;
use esc_store::{Cause, Change, StoreFault};
use esc_tables::{Deposit, read_deposit};
use sqlite::Alter;
use std::alloc::Global;

/// Moves the chain, if there is a plan. Returns the work. `S1`, also if the body of a new step past
/// the common front is missing or isn't a deposit; `S2`.
pub(crate) fn move_if_planned<S: Alter>(
    change: &mut Change<'_, S>,
    alloc: Global,
    plan: &Option<Plan>,
    at_hand: AtHand,
) -> Result<Work, StoreFault>
    requires sound { IfSome plan.now IsSoundPlan }
    ensures goes_on { IsUncommitted S.Store change.old change.new }
    ensures filled { OnOk result ((before k made : StoreState) → IsFromChainOf k plan.now
        → StaysPut k made → IsAtHand at_hand made.bodies
        → HasMadeBooks S.Store change.old before made
        → HasMadeTables S.Store change.old k.registry
        → IsFilled S.Store change.new before (moved_if plan.now (chain_deposits k) made)) }
    ensures worked { IfOk result (λ work. IsHonest S.Store change.new.store.now
        → (before k made : StoreState) → IsFromChainOf k plan.now → IsAtHand at_hand made.bodies
        → HasMadeBooks S.Store change.old before made
        → HasMadeTables S.Store change.old k.registry
        → IsCostIf plan.now made.bodies (chain_deposits k) work) }
    ensures counted { IfOk result (λ work. saturated change.new.count
        ≡ saturated (saturated change.old.count + work.writes)) }
    ensures cause { IfErr result IsFailure }
{
    match plan {
        Some(plan) => move_by(change, alloc, plan, at_hand),
        None => Ok(NO_WORK),
    }
}

// Moves the tables of a change by a plan, and sets its new chain.
#[tactic(auto, using(esc_store::specs::StandingLaws::goes_then))]
fn move_by<S: Alter>(
    change: &mut Change<'_, S>,
    alloc: Global,
    plan: &Plan,
    at_hand: AtHand,
) -> Result<Work, StoreFault>
    requires few_old { length plan.now.old.items ≤ 4096 }
    requires few_new { length plan.now.new.items ≤ 4096 }
    ensures goes_on { IsUncommitted S.Store change.old change.new }
    ensures filled { OnOk result ((before k made : StoreState) (c : List DepositValue)
        → IsMovedFrom k c plan.now → made.steps ≡ k.steps → IsAtHand at_hand made.bodies
        → HasMadeBooks S.Store change.old before made
        → HasMadeTables S.Store change.old k.registry
        → IsFilled S.Store change.new before (moved_by plan.now made c)) }
    ensures worked { IfOk result (λ work. IsHonest S.Store change.new.store.now
        → (before k made : StoreState) (c : List DepositValue) → IsMovedFrom k c plan.now
        → IsAtHand at_hand made.bodies → HasMadeBooks S.Store change.old before made
        → HasMadeTables S.Store change.old k.registry
        → IsCostOfMove plan.now made.bodies c work) }
    ensures counted { IfOk result (λ work. saturated change.new.count
        ≡ saturated (saturated change.old.count + work.writes)) }
    ensures cause { IfErr result IsFailure }
{
    let work = move_tables(change, alloc, plan, at_hand)?;
    let front = same_rows(&plan.old, &plan.new);
    change.replace_chain_from(front, &plan.new[front..])?;
    Ok(work)
}

// How many steps of the same rows both chains begin with, up to the first pair of steps whose rows
// differ. The table of steps keeps rows, and `common_front` compares places and resends, which tell
// rows of an accepted manifest alone.
fn same_rows(old: &[Step], new: &[Step]) -> usize
    ensures in_old { result ≤ length old.now }
    ensures in_new { result ≤ length new.now }
    ensures same { take result (rows_in_steps old.now) ≡ take result (rows_in_steps new.now) }
    ensures longest { IfSome (slice_get old.now result)
        (λ a. IfSome (slice_get new.now result) (λ b. a.row ≢ b.row)) }
{
    for at in 0..old.len() {
        if at >= new.len() || old[at].row != new[at].row {
            return at;
        }
    }
    old.len()
}

// Moves the tables from the old chain of a plan to the new one.
#[tactic(auto, using(esc_store::specs::StandingLaws::follows_then))]
fn move_tables<S: Alter>(
    change: &mut Change<'_, S>,
    alloc: Global,
    plan: &Plan,
    at_hand: AtHand,
) -> Result<Work, StoreFault>
    requires few_old { length plan.now.old.items ≤ 4096 }
    requires few_new { length plan.now.new.items ≤ 4096 }
    ensures follows { ChangeFollows S.Store change.old change.new }
    ensures counted { IfOk result (λ work. saturated change.new.count
        ≡ saturated (saturated change.old.count + work.writes)) }
    ensures moved { OnOk result (IsHonest S.Store change.new.store.now
        → (before k : StoreState) (c : List DepositValue) → length c ≡ length plan.now.old.items
        → IsAtHand at_hand k.bodies → HasMadeBooks S.Store change.old before k
        → HasMadeTables S.Store change.old (chain_state c) → HasMadeTables S.Store change.new
        (chain_state (take (front_of plan.now) c ++ deposits_past plan.now k.bodies))) }
    ensures cost { IfOk result (λ work. IsHonest S.Store change.new.store.now
        → (before k : StoreState) (c : List DepositValue) → length c ≡ length plan.now.old.items
        → IsAtHand at_hand k.bodies → HasMadeBooks S.Store change.old before k
        → HasMadeTables S.Store change.old (chain_state c)
        → IsCostOfMove plan.now k.bodies c work) }
    ensures cause { IfErr result IsFailure }
{
    let steps = plan.old.len() as u32;
    let front = common_front(&plan.old, &plan.new);
    let past = &plan.new[front..];
    let back = take_back(alloc, change, steps, front as u32)?;
    let forth = apply_held(change, alloc, front as u32, past, at_hand)?;
    Ok(work_of(steps, front as u32, past.len() as u32, back, forth))
}

// Applies the deposits that are held for the rows of these steps after a chain of `front` steps.
// Returns the number of writes (at most 2^64 - 1).
fn apply_held<S: Alter>(
    change: &mut Change<'_, S>,
    alloc: Global,
    front: u32,
    steps: &[Step],
    at_hand: AtHand,
) -> Result<u64, StoreFault>
    requires few { front + length steps.now < 2 ^ 32 }
    ensures follows { ChangeFollows S.Store change.old change.new }
    ensures counted { IfOk result (λ n. saturated change.new.count
        ≡ saturated (saturated change.old.count + n)) }
    ensures number { IfOk result (λ n. IsHonest S.Store change.new.store.now
        → (before k : StoreState) → IsAtHand at_hand k.bodies
        → HasMadeBooks S.Store change.old before k
        → n ≡ saturated (sum_by mention_count
        (deposits_of reading k.bodies (rows_in_steps steps.now)))) }
    ensures applied { OnOk result (IsHonest S.Store change.new.store.now
        → (before k : StoreState) (c : List DepositValue) → length c ≡ front
        → IsAtHand at_hand k.bodies → HasMadeBooks S.Store change.old before k
        → HasMadeTables S.Store change.old (chain_state c) → HasMadeTables S.Store change.new
        (chain_state (c ++ deposits_of reading k.bodies (rows_in_steps steps.now)))) }
    ensures cause { IfErr result IsFailure }
{
    let mut at_hand = at_hand;
    let mut pos = front;
    let mut writes: u64 = 0;
    for step in steps {
        pos += 1;
        let more = apply_row(change, alloc, pos, step.row, &mut at_hand)?;
        writes = writes.saturating_add(more);
    }
    Ok(writes)
}

// Applies the deposit that is held for a row as step `pos` of a chain.
#[tactic(auto, using(esc_store::specs::StandingLaws::follows_then))]
fn apply_row<S: Alter>(
    change: &mut Change<'_, S>,
    alloc: Global,
    pos: u32,
    row: usize,
    at_hand: &mut AtHand,
) -> Result<u64, StoreFault>
    ensures follows { ChangeFollows S.Store change.old change.new }
    ensures left { OnOk result ((bodies : ℕ → Option (List ℕ)) → IsAtHand at_hand.old bodies
        → IsAtHand at_hand.new bodies) }
    ensures counted { IfOk result (λ n. saturated change.new.count
        ≡ saturated (saturated change.old.count + n)) }
    ensures number { IfOk result (λ n. IsHonest S.Store change.new.store.now
        → (before k : StoreState) → IsAtHand at_hand.old k.bodies
        → HasMadeBooks S.Store change.old before k
        → n ≡ mention_count (deposit_of reading (k.bodies row))) }
    ensures applied { OnOk result (IsHonest S.Store change.new.store.now
        → (before k : StoreState) (c : List DepositValue) → length c + 1 ≡ pos
        → IsAtHand at_hand.old k.bodies → HasMadeBooks S.Store change.old before k
        → HasMadeTables S.Store change.old (chain_state c) → HasMadeTables S.Store change.new
        (chain_state (c ++ deposit_of reading (k.bodies row) ∷ []))) }
    ensures cause { IfErr result IsFailure }
{
    let deposit = next_deposit(change, alloc, row, at_hand)?;
    apply_next(alloc, change, pos, &deposit)
}

// The deposit that is held for a row: the one at hand, if it is that, or else read from its body.
#[tactic(auto, using(esc_store::specs::StandingLaws::follows_same))]
fn next_deposit<S: Alter>(
    change: &mut Change<'_, S>,
    alloc: Global,
    row: usize,
    at_hand: &mut AtHand,
) -> Result<Deposit, StoreFault>
    ensures follows { ChangeFollows S.Store change.old change.new }
    ensures count { change.new.count ≡ change.old.count }
    ensures left { (bodies : ℕ → Option (List ℕ)) → IsAtHand at_hand.old bodies
        → IsAtHand at_hand.new bodies }
    ensures found { IfOk result (λ d. IsHonest S.Store change.new.store.now
        → (before k : StoreState) → IsAtHand at_hand.old k.bodies
        → HasMadeBooks S.Store change.old before k → d ≡ deposit_of reading (k.bodies row)) }
    ensures holds { OnOk result ((s : State) → HasMadeTables S.Store change.old s
        → HasMadeTables S.Store change.new s) }
    ensures cause { IfErr result IsFailure }
{
    match at_hand.take(row) {
        Some(deposit) => Ok(deposit),
        None => held_deposit(change, alloc, row),
    }
}

// The deposit of the body that a change holds for a row. `S1` if there is none to be read.
fn held_deposit<S: Alter>(
    change: &mut Change<'_, S>,
    alloc: Global,
    row: usize,
) -> Result<Deposit, StoreFault>
    ensures follows { ChangeFollows S.Store change.old change.new }
    ensures count { change.new.count ≡ change.old.count }
    ensures found { IfOk result (λ d. IsHonest S.Store change.new.store.now
        → (before k : StoreState) → HasMadeBooks S.Store change.old before k
        → d ≡ deposit_of reading (k.bodies row)) }
    ensures holds { OnOk result ((s : State) → HasMadeTables S.Store change.old s
        → HasMadeTables S.Store change.new s) }
    ensures cause { IfErr result IsFailure }
{
    let Some(body) = change.body_of(row)? else {
        return Err(StoreFault::Failed(Cause::NoBody));
    };
    match read_deposit(alloc, &body) {
        Ok(deposit) => Ok(deposit),
        Err(Fault::Refused(_)) => Err(StoreFault::Failed(Cause::UnreadBody)),
        Err(Fault::NoMemory) => Err(StoreFault::NoMemory),
    }
}
