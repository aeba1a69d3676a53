//! What is found in the objects of the tables, by two walks over them.

ghost use Rattle.std.specs.Prelude.{◌≡◌, option_map, IfErr};
ghost use Rattle.esc_events.specs.Apart.{WhereApart};
ghost use Rattle.esc_store.specs.Faults.{IsFailure};
ghost use Rattle.esc_desk.specs.Reading.{IsReadOf, OkForEvents};
ghost use Rattle.esc_conformity.specs.declared.rule.Rule.{Rule};
ghost use Rattle.esc_conformity.specs.Flaws.{flaws};
ghost use Rattle.esc_conformity.specs.Found.{keys_by};
ghost use Rattle.esc_conformity.specs.Surveys.{IsSurveyOf};
ghost use Rattle.esc_acceptance.specs.Guides.{IsCoverageOf};
ghost use Rattle.esc_acceptance.specs.Surveyed.{IsSurveyed};
ghost use Rattle.esc_desk.specs.Lookups.{ForTables};
ghost use Rattle.esc_reports.specs.Reports.{AreFindings};
ghost use Rattle.esc_inspection.specs.Contents.{AreContentsOf};

use esc_acceptance::{Guide, Surveyed};
use esc_apply::tables_are_listed;
use esc_check::Finding;
use esc_conformity::{Flaws, Registry};
use esc_desk::{Cause, End, Reads, StoreFault, Walk, tables_are_of_events};
use esc_envelope::Kind;
use esc_handover::{read_flaws, read_survey};
use esc_progress::Progress;
use esc_reports::walk_fault;
use std::alloc::Global;
use std::collections::BTreeMap;

/// What is found in the objects of the tables.
#[derive(Drop)]
pub struct Contents {
    /// The findings V1 to V7.
    pub findings: Vec<Finding>,
    /// The fields that some object lacks, of the kind that has them.
    pub lacking: Vec<Guide>,
    /// The objects that break the rules of RFC 9022, section 8.
    pub flaws: Flaws,
}

/// Reads the tables twice: once for the findings, by what the end of their chain says, and for what
/// the rules ask of all objects, and once for the objects that break these rules, in a registry of
/// this TLD, if that is known.
#[tactic(auto, using(crate::proofs::Reading::reads_stay))]
pub(crate) fn read_contents<R: Reads>(
    alloc: Global,
    reader: &mut R,
    end: &Option<End>,
    tld: Option<&str>,
    progress: &mut Progress<'_>,
) -> Result<Contents, StoreFault>
    ensures read { IsReadOf R.follows R.reflects reader.old reader.new result }
    ensures contents { OkForEvents R.is_honest R.reflects reader.old reader.new result
        (λ e contents. WhereApart e (AreContentsOf e end.now (option_map (λ t. t.now) tld.entry)
        contents.findings.items contents.lacking.items contents.flaws)) }
    ensures cause { IfErr result IsFailure }
{
    tables_are_listed();
    tables_are_of_events();
    let Surveyed {
        survey,
        coverage,
        findings,
    } = surveyed_at(alloc, reader, end, progress)?;
    let registry = Registry {
        survey: &survey,
        tld,
    };
    let flaws = flaws_by(alloc, reader, &registry, progress)?;
    let lacking = coverage.lacking(alloc)?;
    Ok(Contents {
        findings,
        lacking,
        flaws,
    })
}

// What is asked of all objects, by what the end of their chain says. Without a chain nothing is a
// finding.
#[tactic(auto, using(crate::proofs::Reading::reads_stay))]
fn surveyed_at<R: Reads>(
    alloc: Global,
    reader: &mut R,
    end: &Option<End>,
    progress: &mut Progress<'_>,
) -> Result<Surveyed, StoreFault>
    ensures read { IsReadOf R.follows R.reflects reader.old reader.new result }
    ensures all { OkForEvents R.is_honest R.reflects reader.old reader.new result
        (λ e surveyed. ForTables e (λ es. IsSurveyOf es surveyed.survey
        × IsCoverageOf es surveyed.coverage × AreFindings es end.now surveyed.findings.items)) }
    ensures cause { IfErr result IsFailure }
{
    match end {
        Some(end) => surveyed_by(alloc, reader, end.watermark, &end.counts, progress),
        None => {
            let mut surveyed = surveyed_by(alloc, reader, 0, &BTreeMap::new(alloc), progress)?;
            surveyed.findings.clear();
            Ok(surveyed)
        }
    }
}

// That the walk hasn't failed is asked here and below, since what was found alone doesn't say so.
#[tactic(auto, using(crate::proofs::Reading::reads_stay))]
fn surveyed_by<R: Reads>(
    alloc: Global,
    reader: &mut R,
    watermark: i64,
    counts: &BTreeMap<Kind, u64>,
    progress: &mut Progress<'_>,
) -> Result<Surveyed, StoreFault>
    ensures read { IsReadOf R.follows R.reflects reader.old reader.new result }
    ensures all { OkForEvents R.is_honest R.reflects reader.old reader.new result
        (λ e surveyed. ForTables e
        (λ es. IsSurveyed es watermark counts.now.entries surveyed)) }
    ensures cause { IfErr result IsFailure }
{
    let place = reader.start_walk(alloc, None)?;
    let mut walk = Walk::new(reader, place);
    progress.begin(walk.left());
    match read_survey(alloc, &mut walk, watermark, counts, progress) {
        Ok(surveyed) if !walk.has_failed() => Ok(surveyed),
        Ok(_) => Err(StoreFault::Failed(Cause::WalkEnded)),
        Err(fault) => Err(walk_fault(fault)),
    }
}

#[tactic(auto, using(crate::proofs::Reading::reads_stay))]
fn flaws_by<R: Reads>(
    alloc: Global,
    reader: &mut R,
    registry: &Registry<'_>,
    progress: &mut Progress<'_>,
) -> Result<Flaws, StoreFault>
    ensures read { IsReadOf R.follows R.reflects reader.old reader.new result }
    ensures each { OkForEvents R.is_honest R.reflects reader.old reader.new result
        (λ e found. ForTables e (λ es. IsSurveyOf es registry.now.survey.now
        → (rule : Rule) → keys_by found rule
        ≡ flaws rule (option_map (λ t. t.now) registry.now.tld) es)) }
    ensures cause { IfErr result IsFailure }
{
    let place = reader.start_walk(alloc, None)?;
    let mut walk = Walk::new(reader, place);
    progress.begin(walk.left());
    match read_flaws(alloc, &mut walk, registry, progress) {
        Ok(flaws) if !walk.has_failed() => Ok(flaws),
        Ok(_) => Err(StoreFault::Failed(Cause::WalkEnded)),
        Err(fault) => Err(walk_fault(fault)),
    }
}
