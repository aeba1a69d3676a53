//! What is asked of all objects of a registry, as they come one at a time.

ghost use Rattle.std.specs.Prelude.{List, IfOk, IfErr};
ghost use Rattle.esc_apply.specs.ObjectStreams.{Entry};
ghost use Rattle.esc_check.specs.ObjectReports.{IfSource, OfSource};
ghost use Rattle.esc_acceptance.specs.Surveyed.{IsSurveyed};

use crate::coverage::Coverage;
use esc_apply::Objects;
use esc_check::{Finding, StreamFault, Verification};
use esc_conformity::Survey;
use esc_envelope::Kind;
use std::alloc::Global;
use std::collections::BTreeMap;

/// What is asked of all objects of a registry.
#[derive(Drop)]
pub struct Surveyed {
    /// What the rules of RFC 9022, section 8, ask.
    pub survey: Survey,
    /// Which fields they have by which links, statuses and dates go.
    pub coverage: Coverage,
    /// The findings V1 to V7.
    pub findings: Vec<Finding>,
}

/// Takes in all objects of a source, each of them once for all of this. The findings go by the
/// watermark of the registry, in nanoseconds since 1970-01-01T00:00:00Z, and the declared numbers of
/// its objects. At `Err` the source failed, or it is out of memory.
pub fn survey_from<O: Objects>(
    alloc: Global,
    objects: &mut O,
    watermark: i64,
    counts: &BTreeMap<Kind, u64>,
) -> Result<Surveyed, StreamFault<O::Error>>
    ensures follows { O.follows objects.old objects.new }
    ensures source { IfErr result (λ fault. IfSource fault (O.has_failed objects.new)) }
    ensures cause { IfErr result (OfSource O.fails) }
    ensures all { IfOk result (λ surveyed. O.is_honest objects.new → (es : List Entry)
        → O.lists objects.old es → IsSurveyed es watermark counts.now.entries surveyed) }
{
    let mut survey = Survey::new(alloc);
    let mut coverage = Coverage::new(alloc)?;
    let mut verification = Verification::new(alloc, watermark)?;
    while let Some((key, object)) = objects.next().map_err(StreamFault::Source)? {
        survey.add(alloc, &key, &object)?;
        coverage.add(&key, &object);
        verification.take_in(alloc, key, &object)?;
    }
    let findings = verification.finish(alloc, counts)?;
    Ok(Surveyed {
        survey,
        coverage,
        findings,
    })
}
