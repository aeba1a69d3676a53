//! Why no bundle is made of an agent's files.

ghost use Rattle.std.specs.Prelude.{◌≡◌};
ghost use Rattle.esc_pack.specs.declared.bundle_fault.BundleFault.TheVariants.{NoMemory as no_memory};
ghost use Rattle.esc_pack.specs.BundleRefusals.{of_fault};

use esc_bundle::{Fault, NoMemory, Refusal};
use std::alloc::{AllocError, AllocFailed};
use std::error::Error;
use std::fmt;

/// Why files have no bundle. Tables count from 0 in the order of the description, contents before
/// deletes, the files of a table from 0, and the rows of a file from 1, after its heading.
#[derive(Clone, Copy, Debug, PartialEq, Eq)]
pub enum BundleFault {
    /// The description is refused (U5 to U7), or the frame (U1 to U4), or the rows (U8, U10, U11).
    Refused(Refusal),
    /// There are files for another number of tables than the description declares.
    Unmatched,
    /// A file with a heading begins with a row that does not name the declared fields.
    Heading {
        table: usize,
        file: usize,
    },
    /// U9: a row has another number of fields than its table declares, or one that is no UTF-8.
    Row {
        table: usize,
        file: usize,
        row: usize,
    },
    /// The rows of a table begin with a byte order mark, which a reader would drop.
    Marked {
        table: usize,
    },
    /// Memory was refused.
    NoMemory,
}

impl fmt::Display for BundleFault {
    fn fmt<W: fmt::Write>(&self, f: &mut fmt::Formatter<W>) -> fmt::Result {
        match *self {
            BundleFault::Refused(refusal) => write!(f, "{refusal}"),
            BundleFault::Unmatched => f.write_str("other tables than declared"),
            BundleFault::Heading { table, file } => write!(
                f,
                "heading of table {table} file {file}"
            ),
            BundleFault::Row { table, file, row } => {
                write!(f, "U9 table {table} file {file} row {row}")
            }
            BundleFault::Marked { table } => write!(f, "byte order mark in table {table}"),
            BundleFault::NoMemory => f.write_str("out of memory"),
        }
    }
}

impl Error for BundleFault {}

impl From<NoMemory> for BundleFault {
    ghost from_gives = { λ _ e. e ≡ no_memory };

    fn from(_error: NoMemory) -> BundleFault {
        BundleFault::NoMemory
    }
}

impl From<AllocError> for BundleFault {
    ghost from_gives = { λ _ e. e ≡ no_memory };

    fn from(_error: AllocError) -> BundleFault {
        BundleFault::NoMemory
    }
}

impl<T: Drop> From<AllocFailed<T>> for BundleFault {
    ghost from_gives = { λ _ e. e ≡ no_memory };

    fn from(_error: AllocFailed<T>) -> BundleFault {
        BundleFault::NoMemory
    }
}

impl From<Fault> for BundleFault {
    ghost from_gives = { λ fault e. e ≡ of_fault fault };

    fn from(fault: Fault) -> BundleFault {
        match fault {
            Fault::Refused(refusal) => BundleFault::Refused(refusal),
            Fault::NoMemory => BundleFault::NoMemory,
        }
    }
}
