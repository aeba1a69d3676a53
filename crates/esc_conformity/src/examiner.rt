//! What a second walk over the objects of a registry keeps of them.

ghost use Rattle.std.specs.Prelude.{◌≡◌, [], ◌∷◌, ◌++◌, ◌||◌, ◌&&◌, List, Option, IfOk, OnOk};
ghost use Rattle.std.specs.Prelude.{ℕ, option_map};
ghost use Rattle.std.specs.BTreeSet as sorted;
ghost use Rattle.esc_tables.specs.KeyName.{KeyName, key_cmp, key_eq};
ghost use Rattle.esc_apply.specs.ObjectStreams.{Entry, InOrder};
ghost use Rattle.esc_conformity.specs.declared.rule.Rule.{Rule};
ghost use Rattle.esc_conformity.specs.declared.survey.Survey.{Survey};
ghost use Rattle.esc_conformity.specs.Examined.{HasExamined};
ghost use Rattle.esc_conformity.specs.Flaws.{flaws};
ghost use Rattle.esc_conformity.specs.Found.{keys_by};
ghost use Rattle.esc_conformity.specs.Surveys.{IsSurveyOf};

use crate::found::{Flaws, Others};
use crate::roid::{Holder, add_suspect, sharing_keys};
use crate::survey::Survey;
use esc_bundle::NoMemory;
use esc_tables::{Key, Object};
use std::alloc::Global;
use std::collections::BTreeSet;

/// A registry, by which an object keeps a rule or breaks it.
#[derive(Clone, Copy)]
pub struct Registry<'a> {
    /// What is known of all of its objects.
    pub survey: &'a Survey,
    /// Its TLD, if that is known.
    pub tld: Option<&'a str>,
}

/// What examines the objects of a registry, one after another, by the survey of all.
#[derive(Drop)]
pub struct Examiner {
    /// What was found so far, of all rules but that on ROIDs.
    pub flaws: Flaws,
    /// The domains so far that have an NNDN's name. The NNDNs come later.
    pub taken: BTreeSet<Key>,
    /// The objects so far whose ROID may be another's.
    pub suspects: Vec<Holder>,
}

fn add_taken(
    alloc: Global,
    taken: &mut BTreeSet<Key>,
    reserved: &BTreeSet<Key>,
    key: &Key,
) -> Result<(), NoMemory>
    ensures { OnOk result ((q : KeyName) → sorted.contains key_cmp taken.new q
        ≡ (sorted.contains key_cmp taken.old q
        || (sorted.contains key_cmp reserved.now key.now && key_eq q key.now))) }
{
    if reserved.contains(key) {
        taken.insert(key.copy(alloc)?)?;
    }
    Ok(())
}

impl Examiner {
    /// One that has examined no object.
    pub(crate) fn new(alloc: Global) -> Examiner
        ensures { (tld : Option (List ℕ)) (whole : List Entry) (survey : Survey)
            → HasExamined tld whole survey [] result }
    {
        Examiner {
            flaws: Flaws::new(alloc),
            taken: BTreeSet::new(alloc),
            suspects: Vec::new(alloc),
        }
    }

    /// Examines the next object.
    pub(crate) fn add(
        &mut self,
        alloc: Global,
        registry: &Registry<'_>,
        key: &Key,
        object: &Object,
    ) -> Result<(), NoMemory>
        ensures { OnOk result ((es left : List Entry) → let e : Entry = (key.now, object.now) in
            let whole = es ++ e ∷ left in let tld = option_map (λ t. t.now) registry.now.tld in
            InOrder whole → IsSurveyOf whole registry.now.survey.now
            → HasExamined tld whole registry.now.survey.now es self.old
            → HasExamined tld whole registry.now.survey.now (es ++ e ∷ []) self.new) }
    {
        let survey = registry.survey;
        add_taken(alloc, &mut self.taken, &survey.reserved, key)?;
        add_suspect(
            alloc,
            &mut self.suspects,
            &survey.marks.repeated,
            key,
            object,
        )?;
        let others = Others {
            registrars: &survey.registrars,
            domains: &self.taken,
            tld: registry.tld,
        };
        self.flaws.add(alloc, &others, key, object)
    }

    /// What was found of all objects.
    pub(crate) fn finish(self, alloc: Global) -> Result<Flaws, NoMemory>
        ensures { IfOk result (λ found. (tld : Option (List ℕ)) (es : List Entry) (s : Survey)
            → IsSurveyOf es s → HasExamined tld es s es self
            → (rule : Rule) → keys_by found rule ≡ flaws rule tld es) }
    {
        let Examiner {
            mut flaws,
            suspects,
            ..
        } = self;
        flaws.roids = sharing_keys(alloc, &suspects)?;
        Ok(flaws)
    }
}
