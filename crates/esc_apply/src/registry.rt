//! Registries of objects.

ghost use Rattle.std.specs.Prelude.{◌≡◌, ℕ, ◌+◌, ◌<◌, ◌^◌, length, map, Some, None, IfOk, IfErr};
ghost use Rattle.std.specs.Prelude.{OnOk};
ghost use Rattle.std.specs.Option.{option_copied};
ghost use Rattle.esc_apply.specs.Registry.{State, empty, written, noted, taken, saturated};
ghost use Rattle.esc_apply.specs.Registry.{IsEntriesOf};
ghost use Rattle.esc_apply.specs.Changes.{with_object, changed_by, CanBePut};
ghost use Rattle.esc_bundle.specs.declared.fault.NoMemory.{NoMemory};

use esc_bundle::NoMemory;
use esc_tables::{Key, Object};
use std::alloc::Global;
use std::collections::BTreeMap;

/// What is known of the keys at which objects are put.
#[derive(Clone, Copy, Debug, PartialEq, Eq)]
pub enum Keys {
    /// None of them has an object.
    Vacant,
    /// Any of them may have one.
    Unknown,
}

/// Objects by their keys, and their before-images: by step and key the object that the key had
/// before the step. After an `Err` nothing is said of the content.
pub trait Registry {
    type Error: From<NoMemory>;

    /// What the registry contains. A relation, since it may hold of no content or of several.
    ghost holds: { Self → State → Type 0 };

    /// The number of writes so far. It grows by one with each `put` and `remove` and each object of
    /// a `put_all`, and stays at 2^64 - 1 once there.
    ghost count: { Self → ℕ };

    /// Which errors its calls return.
    ghost fails: { Self.Error → Type 0 };

    /// Everything that it returned so far is what was written to it (for instance: the disk gave
    /// back what it was given).
    ghost is_honest: { Self → Type 0 };

    /// What stays true through calls, whatever they return (for instance: nothing was committed).
    ghost follows: { Self → Self → Type 0 };

    /// The object at a key, if there is one.
    fn get(&mut self, alloc: Global, key: &Key) -> Result<Option<Object>, Self::Error>
        ensures follows { follows self.old self.new }
        ensures cause { IfErr result fails }
        ensures counted { OnOk result (count self.new ≡ count self.old) }
        ensures found { IfOk result (λ o. is_honest self.new → (s : State) → holds self.old s
            → (o ≡ s.content key.now) × holds self.new s) };

    /// Writes the object of a key, in place of an earlier one.
    fn put(&mut self, alloc: Global, key: &Key, object: &Object) -> Result<(), Self::Error>
        ensures follows { follows self.old self.new }
        ensures cause { IfErr result fails }
        ensures counted { OnOk result (count self.new ≡ saturated (count self.old + 1)) }
        ensures written { OnOk result (is_honest self.new → (s : State) → holds self.old s
            → holds self.new (written s key.now (Some object.now))) };

    /// Removes the object of a key, if it has one. This is a write in either case.
    fn remove(&mut self, key: &Key) -> Result<(), Self::Error>
        ensures follows { follows self.old self.new }
        ensures cause { IfErr result fails }
        ensures counted { OnOk result (count self.new ≡ saturated (count self.old + 1)) }
        ensures written { OnOk result (is_honest self.new → (s : State) → holds self.old s
            → holds self.new (written s key.now None)) };

    /// Removes all objects and all before-images, which is no write.
    fn clear(&mut self) -> Result<(), Self::Error>
        ensures follows { follows self.old self.new }
        ensures cause { IfErr result fails }
        ensures counted { OnOk result (count self.new ≡ count self.old) }
        ensures cleared { OnOk result (is_honest self.new → (s : State) → holds self.old s
            → holds self.new empty) };

    /// Notes what a key had before a step; nothing may be noted for this step and key yet. This is
    /// no write.
    fn put_undo(
        &mut self,
        alloc: Global,
        step: u32,
        key: &Key,
        before: Option<&Object>,
    ) -> Result<(), Self::Error>
        ensures follows { follows self.old self.new }
        ensures cause { IfErr result fails }
        ensures counted { OnOk result (count self.new ≡ count self.old) }
        ensures noted { OnOk result (is_honest self.new → (s : State) → holds self.old s
            → s.undo step key.now ≡ None
            → holds self.new (noted s step key.now (option_copied before.entry))) };

    /// Puts objects, in place of earlier ones, and notes for the step what each of their keys had;
    /// nothing may be noted for this step and any of them yet, and with `Keys::Vacant` none may
    /// have an object. As many writes as objects.
    fn put_all(
        &mut self,
        alloc: Global,
        step: u32,
        targets: Keys,
        objects: &BTreeMap<Key, Object>,
    ) -> Result<(), Self::Error>
        ensures follows { follows self.old self.new }
        ensures cause { IfErr result fails }
        ensures counted { OnOk result
            (count self.new ≡ saturated (count self.old + length objects.now.entries)) }
        ensures put { OnOk result (is_honest self.new → (s : State) → holds self.old s
            → CanBePut targets s step (map with_object objects.now.entries)
            → holds self.new (changed_by s step (map with_object objects.now.entries))) };

    /// Removes what was noted for a step, and returns it: each key once. This is no write.
    fn take_undo(
        &mut self,
        alloc: Global,
        step: u32,
    ) -> Result<Vec<(Key, Option<Object>)>, Self::Error>
        ensures follows { follows self.old self.new }
        ensures cause { IfErr result fails }
        ensures counted { OnOk result (count self.new ≡ count self.old) }
        ensures taken { IfOk result (λ v. is_honest self.new → (s : State) → holds self.old s
            → IsEntriesOf (s.undo step) v.items × holds self.new (taken s step)) };

    /// How many writes were made.
    fn writes(&self) -> u64
        ensures { result ≡ count self.now };

    /// The count is a number of 64 bits (an impl whose count is a field uses `saturated` of it).
    ghost bounded: { (r : Self) → count r < 2 ^ 64 };

    /// Want of memory is one of its errors.
    ghost wants_memory: { (m : NoMemory) (e : Self.Error) → Self.Error.from_gives m e → fails e };

    ghost stays: { (r : Self) → follows r r };

    ghost goes_on: { (a b c : Self) → follows a b → follows b c → follows a c };

    /// What is honest now was honest before.
    ghost was_honest: { (a b : Self) → follows a b → is_honest b → is_honest a };
}
