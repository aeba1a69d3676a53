//! The moment that a word names.

ghost use Rattle.std.specs.Prelude.{◌≡◌, Some, None, IfOk, IfErr};
ghost use Rattle.esc_arguments.specs.Refusals.{named_moment, IsMomentStop};

use crate::stop::Stop;
use esc_envelope::watermark;
use std::alloc::Global;

/// The moment that a word names, in nanoseconds since 1970-01-01T00:00:00Z; `latest` is none. `E3`
/// for any other word that is no watermark.
pub(crate) fn moment_named(alloc: Global, word: &str) -> Result<Option<i64>, Stop>
    ensures value { IfOk result (λ moment. named_moment word.now ≡ Some moment) }
    ensures refused { IfErr result (λ stop. named_moment word.now ≡ None) }
    ensures cause { IfErr result (IsMomentStop word.now) }
{
    if word == "latest" {
        return Ok(None);
    }
    match watermark(word) {
        Some(moment) => Ok(Some(moment)),
        None => Err(Stop::Moment(String::from_str(alloc, word)?)),
    }
}
