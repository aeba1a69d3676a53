//! What a first walk over the objects of a registry keeps of them.

ghost use Rattle.std.specs.Prelude.{◌≡◌, [], ◌∷◌, ◌++◌, ◌&&◌, ◌||◌, List, OnOk};
ghost use Rattle.std.specs.BTreeSet as sorted;
ghost use Rattle.std.specs.Ordering.{nat_cmp};
ghost use Rattle.esc_envelope.specs.Kinds.{is_kind};
ghost use Rattle.esc_tables.specs.KeyName.{KeyName, key_cmp, key_eq};
ghost use Rattle.esc_tables.specs.TableRow.{key_named};
ghost use Rattle.esc_apply.specs.ObjectStreams.{Entry};
ghost use Rattle.esc_conformity.specs.Marks.{marks_of};
ghost use Rattle.esc_conformity.specs.Repeats.{AreRepeatsIn};
ghost use Rattle.esc_conformity.specs.Surveys.{IsSurveyOf};

use crate::repeats::Repeats;
use crate::roid::roid_mark;
use esc_bundle::NoMemory;
use esc_envelope::Kind;
use esc_tables::{Key, Object};
use std::alloc::Global;
use std::collections::BTreeSet;

/// What the rules ask of all objects of a registry, and a first walk over them keeps.
#[derive(Drop)]
pub struct Survey {
    /// The keys of the registrars.
    pub registrars: BTreeSet<Key>,
    /// The names of NNDNs, as keys of domains.
    pub reserved: BTreeSet<Key>,
    /// The marks of the ROIDs that came, and of those that may have come again. A mark takes some
    /// 16 bytes, whatever the ROID.
    pub marks: Repeats<u64>,
}

fn add_registrar(alloc: Global, registrars: &mut BTreeSet<Key>, key: &Key) -> Result<(), NoMemory>
    ensures { OnOk result ((q : KeyName) → sorted.contains key_cmp registrars.new q
        ≡ (sorted.contains key_cmp registrars.old q
        || (is_kind key.now.kind Kind.Registrar && key_eq q key.now))) }
{
    if key.kind == Kind::Registrar {
        registrars.insert(key.copy(alloc)?)?;
    }
    Ok(())
}

fn add_reserved(alloc: Global, reserved: &mut BTreeSet<Key>, key: &Key) -> Result<(), NoMemory>
    ensures { OnOk result ((q : KeyName) → sorted.contains key_cmp reserved.new q
        ≡ (sorted.contains key_cmp reserved.old q
        || (is_kind key.now.kind Kind.Nndn && key_eq q (key_named Kind.Domain key.now.text)))) }
{
    if key.kind == Kind::Nndn {
        reserved.insert(Key::named(alloc, Kind::Domain, key.text.as_str())?)?;
    }
    Ok(())
}

fn add_mark(marks: &mut Repeats<u64>, key: &Key, object: &Object) -> Result<(), NoMemory>
    ensures { OnOk result ((es : List Entry) → AreRepeatsIn nat_cmp (marks_of es) marks.old
        → AreRepeatsIn nat_cmp (marks_of (es ++ (key.now, object.now) ∷ [])) marks.new) }
{
    match roid_mark(key, object) {
        Some(mark) => marks.add(mark),
        None => Ok(()),
    }
}

impl Survey {
    /// That of no objects.
    pub fn new(alloc: Global) -> Survey
        ensures { IsSurveyOf [] result }
    {
        Survey {
            registrars: BTreeSet::new(alloc),
            reserved: BTreeSet::new(alloc),
            marks: Repeats::new(alloc),
        }
    }

    /// Takes in one more object. `NoMemory` out of memory.
    pub fn add(&mut self, alloc: Global, key: &Key, object: &Object) -> Result<(), NoMemory>
        ensures { OnOk result ((es : List Entry) → IsSurveyOf es self.old
            → IsSurveyOf (es ++ (key.now, object.now) ∷ []) self.new) }
    {
        add_registrar(alloc, &mut self.registrars, key)?;
        add_reserved(alloc, &mut self.reserved, key)?;
        add_mark(&mut self.marks, key, object)
    }
}
