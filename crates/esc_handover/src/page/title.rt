//! The title of a page.

ghost use Rattle.std.specs.Prelude.{◌≡◌, IfOk, string_bytes};
ghost use Rattle.esc_acceptance.specs.Acceptance.{is_accepted};
ghost use Rattle.esc_handover.specs.Titles.{verdict_words, BeginsWithVerdict};

use esc_acceptance::{Seen, is_accepted, moment_words, one_line};
use esc_bundle::NoMemory;
use esc_envelope::Place;
use std::alloc::Global;

fn verdict_words(is_accepted: bool) -> &'static str
    ensures { result.now ≡ verdict_words is_accepted }
{
    if is_accepted {
        "May be taken over: "
    } else {
        "Not to be taken over: "
    }
}

/// Whether the registry may be taken over, and then which registry it is.
pub(crate) fn title_of(alloc: Global, seen: &Seen<'_>) -> Result<String, NoMemory>
    ensures { IfOk result
        (λ title. BeginsWithVerdict (is_accepted seen.now) (string_bytes title)) }
{
    let words = match seen.end {
        Some(end) => registry_words(alloc, seen.tlds, end)?,
        None => String::from_str(alloc, "no registry, since there is no chain")?,
    };
    let mut title = String::from_str(alloc, verdict_words(is_accepted(seen)))?;
    title.push_str(words.as_str())?;
    Ok(title)
}

// The registry by the TLDs that are named, and the watermark of the chain's end.
fn registry_words(alloc: Global, tlds: &[String], end: Place) -> Result<String, NoMemory> {
    let mut text = String::from_str(alloc, "registry")?;
    for tld in tlds {
        let tld = one_line(alloc, tld.as_str())?;
        write!(text, " {tld}")?;
    }
    let moment = moment_words(alloc, end.watermark)?;
    write!(text, " as of {moment}")?;
    Ok(text)
}
