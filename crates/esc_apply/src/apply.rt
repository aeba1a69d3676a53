//! Applying deposits.

ghost use Rattle.std.specs.Prelude.{◌≡◌, ◌+◌, ◌<◌, ◌^◌, ◌&&◌, ◌++◌, ◌∷◌, [], not, is_some, None};
ghost use Rattle.std.specs.Prelude.{List, length, map, sum_by, IfOk, IfErr, OnOk};
ghost use Rattle.std.specs.List.{list_any};
ghost use Rattle.std.specs.Map.{lookup};
ghost use Rattle.std.specs.BTreeSet as sorted;
ghost use Rattle.esc_tables.specs.KeyName.{KeyName, key_cmp, key_eq};
ghost use Rattle.esc_tables.specs.DepositValue.{DepositValue};
ghost use Rattle.esc_apply.specs.Tables.{deletes_of, mention_count};
ghost use Rattle.esc_apply.specs.Registry.{State, nothing, noted, changed, stepped, saturated};
ghost use Rattle.esc_apply.specs.Changes.{without, changed_by, AreNew};
ghost use Rattle.esc_apply.specs.Images.{chain_state};

use crate::registry::{Keys, Registry};
use esc_bundle::NoMemory;
use esc_envelope::DepositType;
use esc_tables::{Deposit, Key, Object};
use std::alloc::Global;
use std::collections::{BTreeMap, BTreeSet};

/// Applies a deposit as step `pos`, counted from 1, and notes what each key that it mentions had
/// before. A registry that holds the tables and before-images of the earlier steps holds afterwards
/// those of the earlier steps and this one. Returns the number of writes: one for each key that the
/// deposit mentions.
///
/// # Errors
///
/// The registry's error; out of memory is one of these. Nothing is said then of what it holds.
pub fn apply_step<R: Registry>(
    alloc: Global,
    registry: &mut R,
    pos: u32,
    deposit: &Deposit,
) -> Result<u64, R::Error>
    ensures follows { R.follows registry.old registry.new }
    ensures cause { IfErr result R.fails }
    ensures number { IfOk result (λ n. n ≡ mention_count deposit.now) }
    ensures counted { OnOk result (R.count registry.new
        ≡ saturated (R.count registry.old + mention_count deposit.now)) }
    ensures applied { OnOk result (R.is_honest registry.new → (c : List DepositValue)
        → length c + 1 ≡ pos → R.holds registry.old (chain_state c)
        → R.holds registry.new (chain_state (c ++ deposit.now ∷ []))) }
    ensures stepped { OnOk result (R.is_honest registry.new → (s : State)
        → R.holds registry.old s → s.undo pos ≡ nothing
        → R.holds registry.new (stepped s pos deposit.now)) }
{
    let deletes = plain_deletes(alloc, deletes_of(deposit), &deposit.contents)?;
    registry.put_all(alloc, pos, Keys::Unknown, &deposit.contents)?;
    remove_deletes(registry, alloc, pos, &deletes)?;
    Ok((deposit.contents.len() + deletes.len()) as u64)
}

/// Applies deposits after a chain of `steps` steps. Returns the number of writes, which is at most
/// 2^64 - 1.
pub(crate) fn apply_all<R: Registry>(
    registry: &mut R,
    alloc: Global,
    steps: u32,
    deposits: &[Deposit],
) -> Result<u64, R::Error>
    requires few { steps + length deposits.now < 2 ^ 32 }
    ensures follows { R.follows registry.old registry.new }
    ensures cause { IfErr result R.fails }
    ensures number { IfOk result (λ n. n ≡ saturated (sum_by mention_count deposits.now)) }
    ensures counted { OnOk result
        (R.count registry.new
        ≡ saturated (R.count registry.old + sum_by mention_count deposits.now)) }
    ensures applied { OnOk result (R.is_honest registry.new → (c : List DepositValue)
        → length c ≡ steps
        → R.holds registry.old (chain_state c)
        → R.holds registry.new (chain_state (c ++ deposits.now))) }
{
    let mut pos = steps;
    let mut writes: u64 = 0;
    for deposit in deposits {
        pos += 1;
        writes = writes.saturating_add(apply_next(alloc, registry, pos, deposit)?);
    }
    Ok(writes)
}

/// Applies a deposit as step `pos`, counted from 1, of a chain: as [`apply_step`], but of a first
/// step nothing is looked up, since the registry of a chain without steps has no objects.
///
/// # Errors
///
/// The registry's error; out of memory is one of these. Nothing is said then of what it holds.
pub fn apply_next<R: Registry>(
    alloc: Global,
    registry: &mut R,
    pos: u32,
    deposit: &Deposit,
) -> Result<u64, R::Error>
    ensures follows { R.follows registry.old registry.new }
    ensures cause { IfErr result R.fails }
    ensures number { IfOk result (λ n. n ≡ mention_count deposit.now) }
    ensures counted { OnOk result (R.count registry.new
        ≡ saturated (R.count registry.old + mention_count deposit.now)) }
    ensures applied { OnOk result (R.is_honest registry.new → (c : List DepositValue)
        → length c + 1 ≡ pos → R.holds registry.old (chain_state c)
        → R.holds registry.new (chain_state (c ++ deposit.now ∷ []))) }
{
    if pos == 1 {
        apply_first(alloc, registry, deposit)
    } else {
        apply_step(alloc, registry, pos, deposit)
    }
}

// Applies a deposit as the first step of a chain. No key has an object then.
fn apply_first<R: Registry>(
    alloc: Global,
    registry: &mut R,
    deposit: &Deposit,
) -> Result<u64, R::Error>
    ensures follows { R.follows registry.old registry.new }
    ensures cause { IfErr result R.fails }
    ensures number { IfOk result (λ n. n ≡ mention_count deposit.now) }
    ensures counted { OnOk result (R.count registry.new
        ≡ saturated (R.count registry.old + mention_count deposit.now)) }
    ensures applied { OnOk result (R.is_honest registry.new
        → R.holds registry.old (chain_state [])
        → R.holds registry.new (chain_state (deposit.now ∷ []))) }
{
    let deletes = plain_deletes(alloc, deletes_of(deposit), &deposit.contents)?;
    registry.put_all(alloc, 1, Keys::Vacant, &deposit.contents)?;
    remove_deletes(registry, alloc, 1, &deletes)?;
    Ok((deletes.len() + deposit.contents.len()) as u64)
}

fn deletes_of(deposit: &Deposit) -> &[Key]
    ensures { result.now ≡ deletes_of deposit.now }
{
    match deposit.header.place.kind {
        DepositType::Full => &[],
        DepositType::Incr | DepositType::Diff => &deposit.deletes,
    }
}

// The keys that are deleted and have no content: a key in both is put, since deletes come first.
fn plain_deletes(
    alloc: Global,
    deletes: &[Key],
    contents: &BTreeMap<Key, Object>,
) -> Result<BTreeSet<Key>, NoMemory>
    ensures ordered { IfOk result (λ s. sorted.IsOrdered key_cmp s) }
    ensures each { IfOk result (λ s. (q : KeyName) → sorted.contains key_cmp s q
        ≡ (list_any (key_eq q) deletes.now
        && not (is_some (lookup (key_eq q) contents.now.entries)))) }
{
    let mut plain = BTreeSet::new(alloc);
    for key in deletes {
        if contents.contains_key(key) {
            continue;
        }
        plain.insert(key.copy(alloc)?)?;
    }
    Ok(plain)
}

fn remove_deletes<R: Registry>(
    registry: &mut R,
    alloc: Global,
    pos: u32,
    deletes: &BTreeSet<Key>,
) -> Result<(), R::Error>
    ensures follows { R.follows registry.old registry.new }
    ensures cause { IfErr result R.fails }
    ensures counted { OnOk result
        (R.count registry.new ≡ saturated (R.count registry.old + length deletes.now.keys)) }
    ensures removed { OnOk result (R.is_honest registry.new → (s : State)
        → R.holds registry.old s → AreNew s pos (map without deletes.now.keys)
        → R.holds registry.new (changed_by s pos (map without deletes.now.keys))) }
{
    for key in deletes.iter() {
        remove_noted(registry, alloc, pos, key)?;
    }
    Ok(())
}

// Notes what is at a key, and removes it.
fn remove_noted<R: Registry>(
    registry: &mut R,
    alloc: Global,
    pos: u32,
    key: &Key,
) -> Result<(), R::Error>
    ensures follows { R.follows registry.old registry.new }
    ensures cause { IfErr result R.fails }
    ensures counted { OnOk result (R.count registry.new ≡ saturated (R.count registry.old + 1)) }
    ensures changed { OnOk result (R.is_honest registry.new → (s : State)
        → R.holds registry.old s → s.undo pos key.now ≡ None
        → R.holds registry.new (changed s pos key.now None)) }
{
    note(registry, alloc, pos, key)?;
    registry.remove(key)
}

// Notes what is at a key.
fn note<R: Registry>(registry: &mut R, alloc: Global, pos: u32, key: &Key) -> Result<(), R::Error>
    ensures follows { R.follows registry.old registry.new }
    ensures cause { IfErr result R.fails }
    ensures counted { OnOk result (R.count registry.new ≡ R.count registry.old) }
    ensures noted { OnOk result (R.is_honest registry.new → (s : State) → R.holds registry.old s
        → s.undo pos key.now ≡ None
        → R.holds registry.new (noted s pos key.now (s.content key.now))) }
{
    let before = registry.get(alloc, key)?;
    registry.put_undo(alloc, pos, key, before.as_ref())
}
