//! What a store keeps as its tables keep it, and back: each encoder beside its decoder.

ghost use Rattle.std.specs.Prelude.{◌≡◌, IfOk, IfErr};
ghost use Rattle.esc_store.specs.Faults.{IsFailed};

use crate::cause::Cause;
use crate::fault::StoreFault;

pub(crate) mod manifest;
pub(crate) mod object;
pub(crate) mod receipt;
pub(crate) mod step;

// A number as the tables keep it. `S1` where it is past 32 bits.
pub(crate) fn small(number: usize) -> Result<u32, StoreFault>
    ensures number { IfOk result (λ n. n ≡ number) }
    ensures cause { IfErr result IsFailed }
{
    match u32::try_from(number) {
        Ok(number) => Ok(number),
        Err(_) => Err(StoreFault::Failed(Cause::TooLarge)),
    }
}
