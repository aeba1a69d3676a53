//! The objects that break a rule, of a registry whose objects come one at a time.

ghost use Rattle.std.specs.Prelude.{◌≡◌, List, IfOk, IfErr, option_map};
ghost use Rattle.esc_apply.specs.ObjectStreams.{Entry};
ghost use Rattle.esc_check.specs.ObjectReports.{IfSource, OfSource};
ghost use Rattle.esc_conformity.specs.declared.rule.Rule.{Rule};
ghost use Rattle.esc_conformity.specs.Examined.{HasExamined};
ghost use Rattle.esc_conformity.specs.Flaws.{flaws};
ghost use Rattle.esc_conformity.specs.Found.{keys_by};
ghost use Rattle.esc_conformity.specs.Surveys.{IsSurveyOf};

use crate::examiner::{Examiner, Registry};
use crate::found::Flaws;
use esc_apply::Objects;
use esc_check::StreamFault;
use std::alloc::Global;

// Examines all objects of a source.
fn examined<O: Objects>(
    alloc: Global,
    objects: &mut O,
    registry: &Registry<'_>,
) -> Result<Examiner, StreamFault<O::Error>>
    ensures follows { O.follows objects.old objects.new }
    ensures source { IfErr result (λ fault. IfSource fault (O.has_failed objects.new)) }
    ensures cause { IfErr result (OfSource O.fails) }
    ensures all { IfOk result (λ x. O.is_honest objects.new → (es : List Entry)
        → O.lists objects.old es → IsSurveyOf es registry.now.survey.now
        → HasExamined (option_map (λ t. t.now) registry.now.tld) es registry.now.survey.now es x) }
{
    let mut examiner = Examiner::new(alloc);
    while let Some((key, object)) = objects.next().map_err(StreamFault::Source)? {
        examiner.add(alloc, registry, &key, &object)?;
    }
    Ok(examiner)
}

/// The keys of the objects that break each rule, from the objects as they come one at a time, by a
/// survey of the same objects. It allocates for what is found, for the domains that have an NNDN's
/// name, and for the objects whose ROID may be another's. At `Err` the source failed, or it is out of
/// memory.
pub fn flaws_from<O: Objects>(
    alloc: Global,
    objects: &mut O,
    registry: &Registry<'_>,
) -> Result<Flaws, StreamFault<O::Error>>
    ensures follows { O.follows objects.old objects.new }
    ensures source { IfErr result (λ fault. IfSource fault (O.has_failed objects.new)) }
    ensures cause { IfErr result (OfSource O.fails) }
    ensures each { IfOk result (λ found. O.is_honest objects.new → (es : List Entry)
        → O.lists objects.old es → IsSurveyOf es registry.now.survey.now
        → (rule : Rule) → keys_by found rule
        ≡ flaws rule (option_map (λ t. t.now) registry.now.tld) es) }
{
    let examiner = examined(alloc, objects, registry)?;
    Ok(examiner.finish(alloc)?)
}
