//! Moves of a registry from one chain to another.

ghost use Rattle.std.specs.Prelude.{◌≡◌, ◌+◌, ◌-◌, ◌<◌, ◌≤◌, ◌^◌, ◌++◌, List, length, take, sum_by};
ghost use Rattle.std.specs.Prelude.{IfOk, IfErr, OnOk};
ghost use Rattle.esc_tables.specs.DepositValue.{DepositValue};
ghost use Rattle.esc_apply.specs.Tables.{mention_count};
ghost use Rattle.esc_apply.specs.Registry.{saturated};
ghost use Rattle.esc_apply.specs.Images.{chain_state};
ghost use Rattle.esc_apply.specs.Front.{common_front};
ghost use Rattle.esc_apply.specs.Moves.{is_cleared, undone_of, work_of, cost};

use crate::apply::apply_all;
use crate::front::{Step, common_front};
use crate::registry::Registry;
use crate::undo::undo_to;
use esc_tables::Deposit;
use std::alloc::Global;

/// What a move did.
#[derive(Clone, Copy, Debug, PartialEq, Eq)]
pub struct Work {
    /// Whether all objects and before-images were removed at once.
    pub cleared: bool,
    /// How many steps were taken back one by one.
    pub undone: u32,
    /// How many steps were applied.
    pub applied: u32,
    /// How many objects were put or removed, one by one (at most 2^64 - 1). A removal counts even
    /// if there was no object.
    pub writes: u64,
}

/// Moves a registry from the chain `old` to the chain `new`, each of at most 4,096 steps.
/// `deposits` are those of the new steps past the common front, in order.
///
/// A registry that holds the tables and before-images of the old steps' deposits holds afterwards
/// those of the first of these deposits, as many as the chains have in common, followed by
/// `deposits`. Returns what the move cost; the registry's count has grown by its writes.
///
/// # Errors
///
/// The registry's error; out of memory is one of these. Nothing is said then of what it holds.
pub fn move_chain<R: Registry>(
    alloc: Global,
    registry: &mut R,
    old: &[Step],
    new: &[Step],
    deposits: &[Deposit],
) -> Result<Work, R::Error>
    requires few_old { length old.now ≤ 4096 }
    requires few_new { length new.now ≤ 4096 }
    requires deposits { length deposits.now ≡ length new.now - common_front old.now new.now }
    ensures follows { R.follows registry.old registry.new }
    ensures cause { IfErr result R.fails }
    ensures counted { IfOk result (λ work. R.count registry.new
        ≡ saturated (R.count registry.old + work.writes)) }
    ensures moved { OnOk result (R.is_honest registry.new → (c : List DepositValue)
        → length c ≡ length old.now → R.holds registry.old (chain_state c)
        → R.holds registry.new
        (chain_state (take (common_front old.now new.now) c ++ deposits.now))) }
    ensures cost { IfOk result (λ work. R.is_honest registry.new → (c : List DepositValue)
        → length c ≡ length old.now → R.holds registry.old (chain_state c)
        → sum_by mention_count (c ++ deposits.now) < 2 ^ 64
        → work ≡ cost c old.now new.now deposits.now) }
{
    let steps = old.len() as u32;
    let front = common_front(old, new) as u32;
    let back = take_back(alloc, registry, steps, front)?;
    let forth = apply_all(registry, alloc, front, deposits)?;
    Ok(work_of(steps, front, deposits.len() as u32, back, forth))
}

/// Takes a chain of `steps` steps back, so that its first `front` steps stay: the others one by
/// one, the last first, or, if none stays, all at once, which is no write. A registry that holds
/// the tables and before-images of the chain holds afterwards those of its first `front` steps.
/// Returns the number of writes (at most 2^64 - 1).
///
/// # Errors
///
/// The registry's error; out of memory is one of these. Nothing is said then of what it holds.
pub fn take_back<R: Registry>(
    alloc: Global,
    registry: &mut R,
    steps: u32,
    front: u32,
) -> Result<u64, R::Error>
    requires { front ≤ steps }
    ensures follows { R.follows registry.old registry.new }
    ensures cause { IfErr result R.fails }
    ensures counted { IfOk result
        (λ n. R.count registry.new ≡ saturated (R.count registry.old + n)) }
    ensures gone { IfOk result (λ n. R.is_honest registry.new → (c : List DepositValue)
        → length c ≡ steps
        → R.holds registry.old (chain_state c)
        → R.holds registry.new (chain_state (take front c))
        × (n ≡ saturated (sum_by mention_count (undone_of c front)))) }
{
    if is_cleared(steps, front) {
        registry.clear()?;
        return Ok(0);
    }
    undo_to(registry, alloc, steps, front)
}

/// What a move did that went from `steps` steps, of which the first `front` stayed, to a chain with
/// `applied` others after those: `back` writes took steps back, and `forth` writes applied them.
pub fn work_of(steps: u32, front: u32, applied: u32, back: u64, forth: u64) -> Work
    requires { front ≤ steps }
    ensures work { result ≡ work_of steps front applied (saturated (back + forth)) }
    ensures exact { (c ds : List DepositValue)
        → back ≡ saturated (sum_by mention_count (undone_of c front))
        → forth ≡ saturated (sum_by mention_count ds) → sum_by mention_count (c ++ ds) < 2 ^ 64
        → result ≡ work_of steps front applied
        (sum_by mention_count (undone_of c front) + sum_by mention_count ds) }
{
    work_with(steps, front, applied, back.saturating_add(forth))
}

fn work_with(steps: u32, front: u32, applied: u32, writes: u64) -> Work
    requires { front ≤ steps }
    ensures { result ≡ work_of steps front applied writes }
{
    let cleared = is_cleared(steps, front);
    Work {
        cleared,
        undone: if cleared { 0 } else { steps - front },
        applied,
        writes,
    }
}

fn is_cleared(steps: u32, front: u32) -> bool
    ensures { result ≡ is_cleared steps front }
{
    front == 0 && steps > 0
}
