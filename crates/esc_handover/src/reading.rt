//! What is found in objects as they come, while it is told how many were read.

ghost use Rattle.std.specs.Prelude.{◌≡◌, List, IfOk, IfErr, option_map};
ghost use Rattle.esc_apply.specs.ObjectStreams.{Entry};
ghost use Rattle.esc_check.specs.ObjectReports.{IfSource, OfSource};
ghost use Rattle.esc_conformity.specs.declared.rule.Rule.{Rule};
ghost use Rattle.esc_conformity.specs.Flaws.{flaws};
ghost use Rattle.esc_conformity.specs.Found.{keys_by};
ghost use Rattle.esc_conformity.specs.Surveys.{IsSurveyOf};
ghost use Rattle.esc_acceptance.specs.Surveyed.{IsSurveyed};

use esc_acceptance::{Surveyed, survey_from};
use esc_apply::Objects;
use esc_check::StreamFault;
use esc_conformity::{Flaws, Registry, flaws_from};
use esc_envelope::Kind;
use esc_progress::{Progress, Watched};
use esc_table_files::{Layout, layouts_of};
use std::alloc::Global;
use std::collections::BTreeMap;

/// The tables of a kind with their columns ([`layouts_of`]).
pub fn read_layouts<O: Objects>(
    alloc: Global,
    objects: &mut O,
    kind: Kind,
    progress: &mut Progress<'_>,
) -> Result<Vec<Layout>, StreamFault<O::Error>> {
    let mut watched = Watched::new(objects, progress, kind.name());
    layouts_of(alloc, &mut watched, kind)
}

/// What is asked of all objects, by the watermark and the declared numbers ([`survey_from`]).
pub fn read_survey<O: Objects>(
    alloc: Global,
    objects: &mut O,
    watermark: i64,
    counts: &BTreeMap<Kind, u64>,
    progress: &mut Progress<'_>,
) -> Result<Surveyed, StreamFault<O::Error>>
    ensures follows { O.follows objects.old objects.new }
    ensures source { IfErr result (λ fault. IfSource fault (O.has_failed objects.new)) }
    ensures cause { IfErr result (OfSource O.fails) }
    ensures all { IfOk result (λ surveyed. O.is_honest objects.new → (es : List Entry)
        → O.lists objects.old es → IsSurveyed es watermark counts.now.entries surveyed) }
{
    let mut watched = Watched::new(objects, progress, "findings and fields");
    survey_from(alloc, &mut watched, watermark, counts)
}

/// The objects that break the rules of RFC 9022, section 8 ([`flaws_from`]).
pub fn read_flaws<O: Objects>(
    alloc: Global,
    objects: &mut O,
    registry: &Registry<'_>,
    progress: &mut Progress<'_>,
) -> Result<Flaws, StreamFault<O::Error>>
    ensures follows { O.follows objects.old objects.new }
    ensures source { IfErr result (λ fault. IfSource fault (O.has_failed objects.new)) }
    ensures cause { IfErr result (OfSource O.fails) }
    ensures each { IfOk result (λ found. O.is_honest objects.new → (es : List Entry)
        → O.lists objects.old es → IsSurveyOf es registry.now.survey.now
        → (rule : Rule) → keys_by found rule
        ≡ flaws rule (option_map (λ t. t.now) registry.now.tld) es) }
{
    let mut watched = Watched::new(objects, progress, "rules");
    flaws_from(alloc, &mut watched, registry)
}
