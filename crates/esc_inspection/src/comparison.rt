//! Tables, compared key by key with what deposits say, the last deposit first.

ghost use Rattle.std.specs.Prelude.{◌≡◌, ◌∷◌, [], ℕ, true, List, length, Option, Some, None};
ghost use Rattle.std.specs.Prelude.{IfOk, OnOk, option_map, slice_get};
ghost use Rattle.std.specs.List.{list_all};
ghost use Rattle.std.specs.Map.{lookup};
ghost use Rattle.esc_tables.specs.KeyName.{KeyName, key_eq};
ghost use Rattle.esc_apply.specs.ObjectStreams.{Entry, InOrder};
ghost use Rattle.esc_desk.specs.Lookups.{IsFoundAmong};
ghost use Rattle.esc_inspection.specs.Compared.{AreTablesOfBodies, AreComparedWith};
ghost use Rattle.esc_inspection.specs.Compared.{AreComparedWithBodies, Marks};

use esc_acceptance::is_same_object;
use esc_bundle::NoMemory;
use esc_tables::{Key, Object};
use std::alloc::Global;
use std::collections::BTreeSet;

/// What was compared of tables.
#[derive(Drop)]
pub(crate) struct Comparison {
    /// For each object of the tables, in their order: whether a deposit mentioned its key.
    pub seen: Vec<bool>,
    /// The keys that deposits mentioned and that have no object in the tables.
    pub absent: BTreeSet<Key>,
    /// Whether each mentioned key has what the last deposit that mentions it says.
    pub is_same: bool,
}

impl Comparison {
    /// Nothing of tables with so many objects is compared yet.
    pub fn new(alloc: Global, count: usize) -> Result<Comparison, NoMemory>
        ensures { IfOk result (λ new. (es : List Entry) → length es ≡ count
            → AreComparedWith [] es new) }
    {
        Ok(Comparison {
            seen: vec![in alloc; false; count]?,
            absent: BTreeSet::new(alloc),
            is_same: true,
        })
    }

    /// A deposit says this of a key, which has this place and this object in the tables, if it is
    /// there. It is compared where no later deposit mentions the key.
    pub fn mention(
        &mut self,
        alloc: Global,
        key: &Key,
        said: Option<&Object>,
        found: Option<(usize, Object)>,
    ) -> Result<(), NoMemory>
        ensures { OnOk result ((es : List Entry) → InOrder es → IsFoundAmong es key.now found
            → Marks es (key.now ∷ []) (λ _. option_map (λ o. o.now) said.entry)
            self.old self.new) }
    {
        match found {
            Some((place, object)) => {
                self.mention_there(place, &object, said);
                Ok(())
            }
            None => self.mention_absent(alloc, key, said),
        }
    }

    // Without such a place nothing is the same.
    fn mention_there(&mut self, place: usize, object: &Object, said: Option<&Object>)
        ensures { (es : List Entry) (k : KeyName) → InOrder es
            → slice_get es place ≡ Some (k, object.now)
            → Marks es (k ∷ []) (λ _. option_map (λ o. o.now) said.entry) self.old self.new }
    {
        if place >= self.seen.len() {
            self.is_same = false;
            return;
        }
        let is_right = self.seen[place] || is_said(object, said);
        self.seen[place] = true;
        self.is_same = self.is_same && is_right;
    }

    fn mention_absent(
        &mut self,
        alloc: Global,
        key: &Key,
        said: Option<&Object>,
    ) -> Result<(), NoMemory>
        ensures { OnOk result ((es : List Entry) → lookup (key_eq key.now) es ≡ None
            → Marks es (key.now ∷ []) (λ _. option_map (λ o. o.now) said.entry)
            self.old self.new) }
    {
        let is_new = self.absent.insert(key.copy(alloc)?)?;
        self.is_same = self.is_same && !(is_new && said.is_some());
        Ok(())
    }

    /// Whether the tables are those that the bodies make: nothing differs, and each object was
    /// mentioned.
    pub fn is_complete(&self) -> bool
        ensures { result ≡ true → (bodies : List (Option (List ℕ))) (es : List Entry)
            → AreComparedWithBodies bodies es self.now → AreTablesOfBodies bodies es }
    {
        self.is_same && are_all(&self.seen)
    }
}

// Whether this object is what is said.
fn is_said(object: &Object, said: Option<&Object>) -> bool
    ensures { result ≡ true → option_map (λ o. o.now) said.entry ≡ Some object.now }
{
    match said {
        Some(said) => is_same_object(said, object),
        None => false,
    }
}

fn are_all(marks: &[bool]) -> bool
    ensures { result ≡ list_all (λ b. b) marks.now }
{
    marks.iter().all(|mark| *mark)
}
