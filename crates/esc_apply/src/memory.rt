//! A registry in memory.

ghost use Rattle.std.specs.Prelude.{◌≡◌, ◌==◌, ℕ, Some, None, if◌then◌else◌, IfOk, OnOk};
ghost use Rattle.std.specs.Map.{lookup};
ghost use Rattle.std.specs.Option.{option_copied};
ghost use Rattle.std.specs.BTreeMap.{IsOrdered};
ghost use Rattle.esc_tables.specs.KeyName.{KeyName, key_cmp, key_eq};
ghost use Rattle.esc_apply.specs.Registry.{empty};
ghost use Rattle.esc_apply.specs.Memory.{noted_at};

use crate::registry::{Keys, Registry};
use esc_bundle::NoMemory;
use esc_tables::{Key, Object};
use std::alloc::Global;
use std::collections::BTreeMap;

// What was before a step at each noted key.
type Notes = BTreeMap<Key, Option<Object>>;

fn copied(alloc: Global, object: Option<&Object>) -> Result<Option<Object>, NoMemory>
    ensures { IfOk result (λ o. o ≡ option_copied object.entry) }
{
    match object {
        Some(object) => Ok(Some(object.copy(alloc)?)),
        None => Ok(None),
    }
}

// Takes out what was noted for a step.
fn taken(alloc: Global, notes: &mut BTreeMap<u32, Notes>, step: u32) -> Notes
    ensures notes { (q : KeyName) → lookup (key_eq q) result.entries
        ≡ noted_at notes.old.entries step q }
    ensures left { (j : ℕ) (q : KeyName) → noted_at notes.new.entries j q
        ≡ (if step == j then None else noted_at notes.old.entries j q) }
{
    match notes.remove(&step) {
        Some(notes) => notes,
        None => BTreeMap::new(alloc),
    }
}

// Notes what was at a key before a step.
fn note(
    alloc: Global,
    notes: &mut BTreeMap<u32, Notes>,
    step: u32,
    key: Key,
    before: Option<Object>,
) -> Result<(), NoMemory>
    ensures { OnOk result ((j : ℕ) (q : KeyName) → noted_at notes.new.entries j q
        ≡ (if step == j then (if key_eq key q then Some before else noted_at notes.old.entries step
        q) else noted_at notes.old.entries j q)) }
{
    let mut of_step = taken(alloc, notes, step);
    of_step.insert(key, before)?;
    notes.insert(step, of_step)?;
    Ok(())
}

// The entries of notes, in the order of keys.
fn entries(alloc: Global, notes: Notes) -> Result<Vec<(Key, Option<Object>)>, NoMemory>
    ensures items { IfOk result (λ all. all.items ≡ notes.entries) }
    ensures ordered { IsOrdered key_cmp notes }
{
    Ok(notes.into_iter().collect(alloc)?)
}

/// A registry in memory.
#[derive(Drop)]
pub struct MemRegistry {
    objects: BTreeMap<Key, Object>,
    notes: BTreeMap<u32, Notes>,
    count: u64,
}

impl MemRegistry {
    /// A registry without objects.
    pub fn new(alloc: Global) -> MemRegistry
        ensures holds { ⟦<MemRegistry as Registry>⟧.holds result empty }
        ensures count { ⟦<MemRegistry as Registry>⟧.count result ≡ 0 }
    {
        MemRegistry {
            objects: BTreeMap::new(alloc),
            notes: BTreeMap::new(alloc),
            count: 0,
        }
    }
}

impl Registry for MemRegistry {
    ghost use Rattle.esc_apply.specs.Registry.{saturated, saturated_fits};
    ghost use Rattle.esc_apply.specs.Memory.{Keeps};

    type Error = NoMemory;

    ghost holds = { λ r s. Keeps r.objects.entries r.notes.entries s };

    ghost count = { λ r. saturated r.count };

    ghost fails = { λ _. Unit {0} };

    ghost wants_memory = { λ m e given. tt };

    ghost is_honest = { λ r. Unit {0} };

    ghost follows = { λ a b. Unit {0} };

    ghost bounded = { λ r. saturated_fits r.count };

    ghost stays = { λ r. tt };

    ghost goes_on = { λ a b c p q. tt };

    ghost was_honest = { λ a b p h. tt };

    fn get(&mut self, alloc: Global, key: &Key) -> Result<Option<Object>, NoMemory> {
        copied(alloc, self.objects.get(key))
    }

    fn put(&mut self, alloc: Global, key: &Key, object: &Object) -> Result<(), NoMemory> {
        self.objects.insert(key.copy(alloc)?, object.copy(alloc)?)?;
        self.count = self.count.saturating_add(1);
        Ok(())
    }

    fn remove(&mut self, key: &Key) -> Result<(), NoMemory> {
        self.objects.remove(key);
        self.count = self.count.saturating_add(1);
        Ok(())
    }

    fn clear(&mut self) -> Result<(), NoMemory> {
        self.objects.clear();
        self.notes.clear();
        Ok(())
    }

    fn put_undo(
        &mut self,
        alloc: Global,
        step: u32,
        key: &Key,
        before: Option<&Object>,
    ) -> Result<(), NoMemory> {
        let before = copied(alloc, before)?;
        note(alloc, &mut self.notes, step, key.copy(alloc)?, before)
    }

    fn put_all(
        &mut self,
        alloc: Global,
        step: u32,
        targets: Keys,
        objects: &BTreeMap<Key, Object>,
    ) -> Result<(), NoMemory> {
        for (key, object) in objects.iter() {
            let before = copied(alloc, self.objects.get(key))?;
            note(alloc, &mut self.notes, step, key.copy(alloc)?, before)?;
            self.put(alloc, key, object)?;
        }
        Ok(())
    }

    fn take_undo(
        &mut self,
        alloc: Global,
        step: u32,
    ) -> Result<Vec<(Key, Option<Object>)>, NoMemory> {
        let notes = taken(alloc, &mut self.notes, step);
        Ok(entries(alloc, notes)?)
    }

    fn writes(&self) -> u64 {
        self.count
    }
}
