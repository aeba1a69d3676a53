//! Why bundles have no release manifest.

ghost use Rattle.std.specs.Prelude.{◌≡◌};
ghost use Rattle.esc_pack.specs.declared.fault.ReleaseFault.TheVariants.{NoMemory as no_memory};

use esc_bundle::NoMemory;
use esc_manifest::ManifestRefusal;
use std::error::Error;
use std::fmt;

/// Why bundles have no release manifest.
#[derive(Clone, Copy, Debug, PartialEq, Eq)]
pub enum ReleaseFault {
    /// Their rows, in the order of places, are no manifest: they are refused at this row. Rows
    /// count from 1, and row 0 is the whole.
    Unlisted { refusal: ManifestRefusal, row: u32 },
    /// Memory was refused.
    NoMemory,
}

impl fmt::Display for ReleaseFault {
    fn fmt<W: fmt::Write>(&self, f: &mut fmt::Formatter<W>) -> fmt::Result {
        match *self {
            ReleaseFault::Unlisted { refusal, row } => write!(f, "{refusal} row {row}"),
            ReleaseFault::NoMemory => f.write_str("out of memory"),
        }
    }
}

impl Error for ReleaseFault {}

impl From<NoMemory> for ReleaseFault {
    ghost from_gives = { λ _ e. e ≡ no_memory };

    fn from(_error: NoMemory) -> ReleaseFault {
        ReleaseFault::NoMemory
    }
}
