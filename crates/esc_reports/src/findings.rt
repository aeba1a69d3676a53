//! The findings in the tables.

ghost use Rattle.std.specs.Prelude.{◌↔◌, List, IfOk, IfErr, Some};
ghost use Rattle.std.specs.List.{Contains};
ghost use Rattle.std.specs.List.Sorted.{IsStrictlySortedBy};
ghost use Rattle.esc_apply.specs.ObjectStreams.{Entry};
ghost use Rattle.esc_check.specs.FindingValue.{FindingValue, listing_cmp};
ghost use Rattle.esc_check.specs.Findings.{IsFinding};
ghost use Rattle.esc_check.specs.ObjectReports.{IfSource, OfSource};
ghost use Rattle.esc_check.specs.TableMap.{content_of_entries};
ghost use Rattle.esc_store.specs.Faults.{IsFailure};
ghost use Rattle.esc_desk.specs.Reading.{IsReadOf, OkForEvents};
ghost use Rattle.esc_reports.specs.Walked.{AreFoundAt};

use crate::walked::walk_fault;
use esc_apply::{Objects, tables_are_listed};
use esc_check::{Finding, StreamFault, verify_from};
use esc_desk::{Cause, End, Reads, StoreFault, Walk, tables_are_of_events};
use esc_envelope::Kind;
use esc_progress::{Progress, Watched};
use std::alloc::Global;
use std::collections::BTreeMap;

/// The findings V1 to V7 in the tables, by what the end of their chain says, while it is told how many
/// objects were read. Without a chain there are none. `S1`, `S2`.
#[tactic(auto, using(crate::proofs::Reading::reads_stay))]
pub(crate) fn findings_at<R: Reads>(
    alloc: Global,
    reader: &mut R,
    end: &Option<End>,
    progress: &mut Progress<'_>,
) -> Result<Vec<Finding>, StoreFault>
    ensures read { IsReadOf R.follows R.reflects reader.old reader.new result }
    ensures findings { OkForEvents R.is_honest R.reflects reader.old reader.new result
        (λ e findings. AreFoundAt e end.now findings.items) }
    ensures cause { IfErr result IsFailure }
{
    tables_are_listed();
    tables_are_of_events();
    match end {
        Some(end) => findings(alloc, reader, end, progress),
        None => Ok(Vec::new(alloc)),
    }
}

// The findings in the tables, by what the last deposit of their chain says. That the walk hasn't
// failed is asked, since a list of findings alone doesn't say so.
#[tactic(auto, using(crate::proofs::Reading::reads_stay))]
fn findings<R: Reads>(
    alloc: Global,
    reader: &mut R,
    end: &End,
    progress: &mut Progress<'_>,
) -> Result<Vec<Finding>, StoreFault>
    ensures read { IsReadOf R.follows R.reflects reader.old reader.new result }
    ensures findings { OkForEvents R.is_honest R.reflects reader.old reader.new result
        (λ e findings. AreFoundAt e (Some end.now) findings.items) }
    ensures cause { IfErr result IsFailure }
{
    tables_are_listed();
    tables_are_of_events();
    let place = reader.start_walk(alloc, None)?;
    let mut walk = Walk::new(reader, place);
    progress.begin(walk.left());
    match read_findings(alloc, &mut walk, end.watermark, &end.counts, progress) {
        Ok(findings) if !walk.has_failed() => Ok(findings),
        Ok(_) => Err(StoreFault::Failed(Cause::WalkEnded)),
        Err(fault) => Err(walk_fault(fault)),
    }
}

// The findings in these objects, while it is told how many were read.
fn read_findings<O: Objects>(
    alloc: Global,
    objects: &mut O,
    watermark: i64,
    counts: &BTreeMap<Kind, u64>,
    progress: &mut Progress<'_>,
) -> Result<Vec<Finding>, StreamFault<O::Error>>
    ensures follows { O.follows objects.old objects.new }
    ensures source { IfErr result (λ fault. IfSource fault (O.has_failed objects.new)) }
    ensures cause { IfErr result (OfSource O.fails) }
    ensures ordered { IfOk result (λ found. IsStrictlySortedBy listing_cmp found.items) }
    ensures each { IfOk result (λ found. O.is_honest objects.new → (es : List Entry)
        → O.lists objects.old es
        → (f : FindingValue) → Contains found.items f ↔ IsFinding
        (content_of_entries es) watermark counts.now.entries f) }
{
    let mut watched = Watched::new(objects, progress, "findings");
    verify_from(alloc, &mut watched, watermark, counts)
}
