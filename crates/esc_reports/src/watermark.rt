//! Watermarks in reports.

ghost use Rattle.std.specs.Prelude.{◌≡◌, Err, IfOk, IfErr, string_bytes};
ghost use Rattle.esc_envelope.specs.Watermark.{printed, IsInYears};
ghost use Rattle.esc_store.specs.Faults.{IsFailure};

use esc_envelope::watermark_text;
use esc_store::{Cause, StoreFault};
use std::alloc::Global;

/// The text of a watermark, in nanoseconds since 1970-01-01T00:00:00Z. `S1` outside the years 1970
/// to 2261, where no listed one is; `S2`.
pub fn printed_watermark(alloc: Global, watermark: i64) -> Result<String, StoreFault>
    ensures text { IfOk result (λ text. string_bytes text ≡ printed watermark) }
    ensures outside { (IsInYears watermark → ⊥) → result ≡ Err (StoreFault.Failed Cause.NoMoment) }
    ensures cause { IfErr result IsFailure }
{
    match watermark_text(alloc, watermark)? {
        Some(text) => Ok(text),
        None => Err(StoreFault::Failed(Cause::NoMoment)),
    }
}
