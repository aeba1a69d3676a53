//! Taking steps back.

ghost use Rattle.std.specs.Prelude.{◌≡◌, ◌+◌, ◌≤◌, ◌++◌, ◌∷◌, [], List, length, take, drop, sum_by};
ghost use Rattle.std.specs.Prelude.{IfOk, IfErr};
ghost use Rattle.esc_tables.specs.DepositValue.{DepositValue};
ghost use Rattle.esc_apply.specs.Tables.{mention_count};
ghost use Rattle.esc_apply.specs.Registry.{State, restored, saturated, HasSize};
ghost use Rattle.esc_apply.specs.Images.{chain_state};

use crate::registry::Registry;
use std::alloc::Global;

/// Takes back step `pos`, counted from 1 and the last of its chain: puts back what each noted key
/// had before the step. A registry that holds the tables and before-images of a chain holds
/// afterwards those of the chain without its last step. Returns the number of writes: one for each
/// of these before-images, which are those of the keys that the step's deposit mentions.
///
/// # Errors
///
/// The registry's error; out of memory is one of these. Nothing is said then of what it holds.
pub fn undo_step<R: Registry>(alloc: Global, registry: &mut R, pos: u32) -> Result<u64, R::Error>
    ensures follows { R.follows registry.old registry.new }
    ensures cause { IfErr result R.fails }
    ensures counted { IfOk result
        (λ n. R.count registry.new ≡ saturated (R.count registry.old + n)) }
    ensures undone { IfOk result (λ n. R.is_honest registry.new → (c : List DepositValue)
        (d : DepositValue) → length c + 1 ≡ pos → R.holds registry.old (chain_state (c ++ d ∷ []))
        → R.holds registry.new (chain_state c) × (n ≡ mention_count d)) }
    ensures restored { IfOk result (λ n. R.is_honest registry.new → (s : State)
        → R.holds registry.old s → HasSize (s.undo pos) n × R.holds registry.new (restored s pos)) }
{
    let befores = registry.take_undo(alloc, pos)?;
    for entry in &befores {
        let (key, before) = entry;
        match before {
            Some(object) => registry.put(alloc, key, object)?,
            None => registry.remove(key)?,
        }
    }
    Ok(befores.len() as u64)
}

/// Takes the last steps of a chain back, so that the first `front` of its `steps` steps stay.
/// Returns the number of writes (at most 2^64 - 1).
pub(crate) fn undo_to<R: Registry>(
    registry: &mut R,
    alloc: Global,
    steps: u32,
    front: u32,
) -> Result<u64, R::Error>
    requires { front ≤ steps }
    ensures follows { R.follows registry.old registry.new }
    ensures cause { IfErr result R.fails }
    ensures counted { IfOk result
        (λ n. R.count registry.new ≡ saturated (R.count registry.old + n)) }
    ensures undone { IfOk result (λ n. R.is_honest registry.new → (c : List DepositValue)
        → length c ≡ steps → R.holds registry.old (chain_state c)
        → R.holds registry.new (chain_state (take front c))
        × (n ≡ saturated (sum_by mention_count (drop front c)))) }
{
    let mut writes: u64 = 0;
    let mut left = steps;
    while left > front {
        writes = writes.saturating_add(undo_step(alloc, registry, left)?);
        left -= 1;
    }
    Ok(writes)
}
