//! The report of the moment.

ghost use Rattle.std.specs.Prelude.{◌≡◌, IfOk, IfErr, string_bytes};
ghost use Rattle.esc_store.specs.Faults.{IsFailure};
ghost use Rattle.esc_reports.specs.MomentText.{moment_line};

use crate::watermark::printed_watermark;
use esc_store::StoreFault;
use std::alloc::Global;

/// The word that sets this moment, in nanoseconds since 1970-01-01T00:00:00Z, as a line: its
/// watermark, or `latest` for none. `S1` outside the years 1970 to 2261, to which no word sets it;
/// `S2`.
pub(crate) fn moment_line(alloc: Global, moment: Option<i64>) -> Result<String, StoreFault>
    ensures line { IfOk result (λ line. string_bytes line ≡ moment_line moment) }
    ensures cause { IfErr result IsFailure }
{
    let Some(moment) = moment else {
        return Ok(String::from_str(alloc, "latest\n")?);
    };
    let watermark = printed_watermark(alloc, moment)?;
    Ok(format!(in alloc; "{watermark}\n")?)
}
