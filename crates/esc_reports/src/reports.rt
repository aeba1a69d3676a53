//! The reports of a store.

ghost use Rattle.std.specs.Prelude.{IfErr};
ghost use Rattle.esc_store.specs.Faults.{IsFailure};
ghost use Rattle.esc_desk.specs.Reading.{IsReadOf, OkForEvents};
ghost use Rattle.esc_reports.specs.declared.catalog.Report.TheVariants as what;
ghost use Rattle.esc_reports.specs.Reports.{IsReport};

use crate::catalog::Report;
use crate::export::{export_fault, write_export_of};
use crate::findings::findings_at;
use crate::gaps::gaps_report;
use crate::links::links_text;
use crate::moment::moment_line;
use crate::parked::parked_text;
use crate::receipts::receipts_text;
use crate::status::status_text;
use esc_desk::{Reads, StoreFault};
use esc_envelope::Kind;
use esc_progress::Progress;
use std::alloc::Global;

/// The text of a report of a store, which a desk or a reader reads: what the program prints, and
/// the body of an HTTP response. `S1`, `S2`.
pub fn report<R: Reads>(
    alloc: Global,
    reader: &mut R,
    report: Report,
) -> Result<Vec<u8>, StoreFault>
    ensures read { IsReadOf R.follows R.reflects reader.old reader.new result }
    ensures text { OkForEvents R.is_honest R.reflects reader.old reader.new result
        (λ e text. IsReport e report text.items) }
    ensures cause { IfErr result IsFailure }
{
    match report {
        Report::Status => report_status(alloc, reader),
        Report::Gaps => report_gaps(alloc, reader),
        Report::Links => report_links(alloc, reader, &mut Progress::silent()),
        Report::Receipts => report_receipts(alloc, reader),
        Report::Parked => report_parked(alloc, reader),
        Report::Moment => report_moment(alloc, reader),
        Report::Export(kind) => report_export(alloc, reader, kind),
    }
}

#[tactic(auto, using(crate::proofs::Reading::reads_stay))]
fn report_gaps<R: Reads>(alloc: Global, reader: &mut R) -> Result<Vec<u8>, StoreFault>
    ensures read { IsReadOf R.follows R.reflects reader.old reader.new result }
    ensures text { OkForEvents R.is_honest R.reflects reader.old reader.new result
        (λ e text. IsReport e what.Gaps text.items) }
    ensures cause { IfErr result IsFailure }
{
    let moment = reader.moment(alloc)?;
    let rows = reader.held(alloc)?;
    gaps_report(alloc, reader.manifest(), &rows, moment)
}

#[tactic(auto, using(crate::proofs::Reading::reads_stay))]
fn report_status<R: Reads>(alloc: Global, reader: &mut R) -> Result<Vec<u8>, StoreFault>
    ensures read { IsReadOf R.follows R.reflects reader.old reader.new result }
    ensures text { OkForEvents R.is_honest R.reflects reader.old reader.new result
        (λ e text. IsReport e what.Status text.items) }
    ensures cause { IfErr result IsFailure }
{
    let status = reader.status(alloc)?;
    Ok(status_text(alloc, &status)?.into_bytes())
}

/// The report of links of a store, while it is told how many objects were read. `S1`, `S2`.
#[tactic(auto, using(crate::proofs::Reading::reads_stay))]
pub fn report_links<R: Reads>(
    alloc: Global,
    reader: &mut R,
    progress: &mut Progress<'_>,
) -> Result<Vec<u8>, StoreFault>
    ensures read { IsReadOf R.follows R.reflects reader.old reader.new result }
    ensures text { OkForEvents R.is_honest R.reflects reader.old reader.new result
        (λ e text. IsReport e what.Links text.items) }
    ensures cause { IfErr result IsFailure }
{
    let end = reader.end(alloc)?;
    let findings = findings_at(alloc, reader, &end, progress)?;
    Ok(links_text(alloc, &findings)?)
}

#[tactic(auto, using(crate::proofs::Reading::reads_stay))]
fn report_receipts<R: Reads>(alloc: Global, reader: &mut R) -> Result<Vec<u8>, StoreFault>
    ensures read { IsReadOf R.follows R.reflects reader.old reader.new result }
    ensures text { OkForEvents R.is_honest R.reflects reader.old reader.new result
        (λ e text. IsReport e what.Receipts text.items) }
    ensures cause { IfErr result IsFailure }
{
    let replies = reader.receipts(alloc)?;
    Ok(receipts_text(alloc, &replies)?)
}

#[tactic(auto, using(crate::proofs::Reading::reads_stay))]
fn report_parked<R: Reads>(alloc: Global, reader: &mut R) -> Result<Vec<u8>, StoreFault>
    ensures read { IsReadOf R.follows R.reflects reader.old reader.new result }
    ensures text { OkForEvents R.is_honest R.reflects reader.old reader.new result
        (λ e text. IsReport e what.Parked text.items) }
    ensures cause { IfErr result IsFailure }
{
    let bodies = reader.parked(alloc)?;
    Ok(parked_text(alloc, &bodies)?)
}

#[tactic(auto, using(crate::proofs::Reading::reads_stay))]
fn report_moment<R: Reads>(alloc: Global, reader: &mut R) -> Result<Vec<u8>, StoreFault>
    ensures read { IsReadOf R.follows R.reflects reader.old reader.new result }
    ensures text { OkForEvents R.is_honest R.reflects reader.old reader.new result
        (λ e text. IsReport e what.Moment text.items) }
    ensures cause { IfErr result IsFailure }
{
    let moment = reader.moment(alloc)?;
    Ok(moment_line(alloc, moment)?.into_bytes())
}

fn report_export<R: Reads>(alloc: Global, reader: &mut R, kind: Kind) -> Result<Vec<u8>, StoreFault>
    ensures read { IsReadOf R.follows R.reflects reader.old reader.new result }
    ensures text { OkForEvents R.is_honest R.reflects reader.old reader.new result
        (λ e text. IsReport e (what.Export kind) text.items) }
    ensures cause { IfErr result IsFailure }
{
    let mut text = Vec::new(alloc);
    match write_export_of(alloc, reader, kind, &mut text) {
        Ok(()) => Ok(text),
        Err(fault) => Err(export_fault(fault)),
    }
}
