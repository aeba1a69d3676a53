//! The words of replies, in JSON and in CSV.

ghost use Rattle.std.specs.Prelude.{◌≡◌, IfOk, string_bytes, option_map};
ghost use Rattle.esc_reports.specs.Words.{verdict_word, copy_word, verdict_fault};

use esc_store::Verdict;
use std::alloc::{AllocError, Global};

/// The word for a verdict, as `A1`.
pub(crate) fn verdict_word(verdict: Verdict) -> &'static str
    ensures { result.now ≡ verdict_word verdict }
{
    match verdict {
        Verdict::A1 => "A1",
        Verdict::A2 => "A2",
        Verdict::A3(_) => "A3",
        Verdict::A4 => "A4",
        Verdict::A5 => "A5",
    }
}

/// The word for whether an earlier receipt has the row with `A1`.
pub(crate) fn copy_word(again: bool) -> &'static str
    ensures { result.now ≡ copy_word again }
{
    if again { "again" } else { "new" }
}

/// Why no deposit reads from a body, as `U9`; `None` for a verdict other than `A3`.
pub(crate) fn fault_of(alloc: Global, verdict: Verdict) -> Result<Option<String>, AllocError>
    ensures { IfOk result (λ fault. option_map string_bytes fault ≡ verdict_fault verdict) }
{
    match verdict {
        Verdict::A3(fault) => Ok(Some(format!(in alloc; "U{fault}")?)),
        Verdict::A1 | Verdict::A2 | Verdict::A4 | Verdict::A5 => Ok(None),
    }
}
