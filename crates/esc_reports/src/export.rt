//! The export of a store, written while it is read.

ghost use Rattle.std.specs.Prelude.{◌≡◌, IfErr};
ghost use Rattle.esc_check.specs.ExportFaults.{OfExportSource};
ghost use Rattle.esc_store.specs.Faults.{IsFailure};
ghost use Rattle.esc_desk.specs.Reading.{IsReadOf, OkForEvents};
ghost use Rattle.esc_reports.specs.Reports.{IsExportWritten};

use esc_apply::tables_are_listed;
use esc_check::{ExportFault, write_export};
use esc_desk::{Cause, Reads, StoreFault, Walk, tables_are_of_events};
use esc_envelope::Kind;
use std::alloc::Global;
use std::io::Write;

/// Writes the export of a kind, the same text as that of `report`, while the store is read. It
/// allocates for the lines of one object at a time, and for the walk. At `Err` a part may be
/// written: the store failed (`S1`, `S2`), or what is written to.
// That the walk hasn't failed is asked, since what was written alone doesn't say so.
#[tactic(auto, using(crate::proofs::Reading::reads_stay))]
pub fn write_export_of<R: Reads, W: Write>(
    alloc: Global,
    reader: &mut R,
    kind: Kind,
    output: &mut W,
) -> Result<(), ExportFault<StoreFault>>
    ensures read { IsReadOf R.follows R.reflects reader.old reader.new result }
    ensures text { OkForEvents R.is_honest R.reflects reader.old reader.new result
        (λ e _. IsExportWritten e kind (W.contents output.old) (W.contents output.new)) }
    ensures cause { IfErr result (OfExportSource IsFailure) }
{
    tables_are_listed();
    tables_are_of_events();
    let place = match reader.start_walk(alloc, Some(kind)) {
        Ok(place) => place,
        Err(fault) => return Err(ExportFault::Source(fault)),
    };
    let mut walk = Walk::new(reader, place);
    match write_export(alloc, output, &mut walk, kind) {
        Ok(()) if !walk.has_failed() => Ok(()),
        Ok(()) => Err(ExportFault::Source(StoreFault::Failed(Cause::WalkEnded))),
        Err(fault) => Err(fault),
    }
}

/// The fault that ends an export into memory, which refuses bytes where there is none: the walk's
/// own, or `S2`.
pub(crate) fn export_fault(fault: ExportFault<StoreFault>) -> StoreFault
    requires { OfExportSource IsFailure fault }
    ensures cause { IsFailure result }
{
    match fault {
        ExportFault::Source(fault) => fault,
        ExportFault::Output(_) | ExportFault::NoMemory => StoreFault::NoMemory,
    }
}
