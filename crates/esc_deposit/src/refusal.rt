//! Why the tables of a registry are no bundle.

ghost use Rattle.std.specs.Prelude.{◌≡◌};
ghost use Rattle.esc_deposit.specs.declared.refusal.BundleRefusal.TheVariants.{NoMemory as no_memory};

use esc_bundle::{Fault, NoMemory, Refusal};
use esc_envelope::Kind;
use std::alloc::{AllocError, AllocFailed};
use std::error::Error;
use std::fmt;

/// Why the tables of a registry are no bundle.
#[derive(Debug, Drop)]
pub enum BundleRefusal {
    /// What was made is no deposit, by this refusal. `OverLimit`: it would have over 16,777,216
    /// bytes, or over 63 tables. `WrongMember`: the id or the watermark has another form.
    /// `TooManyRows`: it would have over 100,000 rows.
    Refused(Refusal),
    /// Two rows of this table can't be declared together: they have different fields, are of
    /// different kinds, or one is a parent row and the other isn't.
    Mixed(String),
    /// No field of this table has the key in each of its rows.
    Unkeyed(String),
    /// The rows of this table begin with a byte order mark, which a reader would drop.
    Marked(String),
    /// What was made is a deposit of other objects.
    Unlike,
    /// No bundle takes this object, even alone: by `OverLimit` or `TooManyRows`.
    Oversized {
        refusal: Refusal,
        kind: Kind,
        key: String,
    },
    /// No store lists the bundles, of which there are over 4,096.
    TooManyParts,
    /// Memory was refused.
    NoMemory,
}

impl fmt::Display for BundleRefusal {
    fn fmt<W: fmt::Write>(&self, f: &mut fmt::Formatter<W>) -> fmt::Result {
        match self {
            BundleRefusal::Refused(refusal) => write!(f, "{refusal}"),
            BundleRefusal::Mixed(table) => write!(f, "rows of {table} with different fields"),
            BundleRefusal::Unkeyed(table) => write!(f, "no key field in {table}"),
            BundleRefusal::Marked(table) => write!(f, "byte order mark in {table}"),
            BundleRefusal::Unlike => f.write_str("other objects"),
            BundleRefusal::Oversized { refusal, kind, key } => {
                let kind = kind.name();
                write!(f, "{refusal} of {kind} {key} alone")
            }
            BundleRefusal::TooManyParts => f.write_str("over 4,096 bundles"),
            BundleRefusal::NoMemory => f.write_str("out of memory"),
        }
    }
}

impl Error for BundleRefusal {}

impl From<Fault> for BundleRefusal {
    fn from(fault: Fault) -> BundleRefusal {
        match fault {
            Fault::Refused(refusal) => BundleRefusal::Refused(refusal),
            Fault::NoMemory => BundleRefusal::NoMemory,
        }
    }
}

impl From<NoMemory> for BundleRefusal {
    ghost from_gives = { λ _ e. e ≡ no_memory };

    fn from(_refused: NoMemory) -> BundleRefusal {
        BundleRefusal::NoMemory
    }
}

impl From<AllocError> for BundleRefusal {
    ghost from_gives = { λ _ e. e ≡ no_memory };

    fn from(_refused: AllocError) -> BundleRefusal {
        BundleRefusal::NoMemory
    }
}

impl<T: Drop> From<AllocFailed<T>> for BundleRefusal {
    ghost from_gives = { λ _ e. e ≡ no_memory };

    fn from(_refused: AllocFailed<T>) -> BundleRefusal {
        BundleRefusal::NoMemory
    }
}
