//! What time it is, for `check` and `page`.

ghost use Rattle.std.specs.Prelude.{◌≡◌, Some, None, IfOk, IfErr, IfSome, IsSome};
ghost use Rattle.std.specs.Prelude.{IsSomeAnd};
ghost use Rattle.esc_envelope.specs.Watermark.{watermark_of};

use esc_envelope::watermark;
use esc_handover::Stop;
use std::alloc::Global;
use std::time::{SystemTime, UNIX_EPOCH};

/// What time it is, in nanoseconds since 1970-01-01T00:00:00Z: the moment of a word that is given,
/// or else what the clock says, if it does. `E3` for a word that is no watermark.
pub fn clock_of(rt: &HostRuntime, word: Option<&str>) -> Result<Option<i64>, Stop>
    ensures given { IfOk result (λ clock. IfSome word.entry (λ w. clock ≡ watermark_of w.now)) }
    ensures known { IfOk result (λ clock. IfSome word.entry (λ w. IsSome clock)) }
    ensures refused { IfErr result
        (λ stop. IsSomeAnd word.entry (λ w. watermark_of w.now ≡ None)) }
{
    match word {
        Some(word) => Ok(Some(moment_named(rt.alloc(), word)?)),
        None => Ok(time_now(rt)),
    }
}

// The moment that a word names.
fn moment_named(alloc: Global, word: &str) -> Result<i64, Stop>
    ensures named { IfOk result (λ moment. watermark_of word.now ≡ Some moment) }
    ensures refused { IfErr result (λ stop. watermark_of word.now ≡ None) }
{
    match watermark(word) {
        Some(moment) => Ok(moment),
        None => Err(Stop::Moment(String::from_str(alloc, word)?)),
    }
}

// What the clock says, if it does.
fn time_now(rt: &HostRuntime) -> Option<i64> {
    let now = SystemTime::now(rt).ok()?;
    let since = now.duration_since(UNIX_EPOCH).ok()?;
    i64::try_from(since.as_nanos()).ok()
}
