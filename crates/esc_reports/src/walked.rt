//! What ends a report over a walk.

ghost use Rattle.std.specs.Prelude.{◌≡◌};
ghost use Rattle.esc_check.specs.ObjectReports.{OfSource};
ghost use Rattle.esc_store.specs.Faults.{IsFailure};
ghost use Rattle.esc_reports.specs.Walked.{walk_fault};

use esc_check::StreamFault;
use esc_desk::StoreFault;

/// The fault that ends a report over a walk: the walk's own, or `S2` when out of memory.
pub fn walk_fault(fault: StreamFault<StoreFault>) -> StoreFault
    requires { OfSource IsFailure fault }
    ensures fault { result ≡ walk_fault fault }
    ensures cause { IsFailure result }
{
    match fault {
        StreamFault::Source(fault) => fault,
        StreamFault::NoMemory => StoreFault::NoMemory,
    }
}
