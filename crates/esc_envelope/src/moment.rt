//! Watermarks: moments in UTC, to the nanosecond.

ghost use Rattle.std.specs.Prelude.{◌≡◌, ◌<◌, Some, None, Ok, IfOk, IfSome, option_map};
ghost use Rattle.std.specs.Prelude.{string_bytes, pos};
ghost use Rattle.jiff.specs.Words.{civil_nanos, IsBetween};
ghost use Rattle.esc_envelope.specs.Watermark.{IsInYears, value_if, watermark_of};
ghost use Rattle.esc_envelope.specs.Watermark.{watermark_text_of};

use crate::parts::{Clock, Day, after_byte, before_z, billionths, read_clock, read_day};
use esc_bundle::NoMemory;
use jiff::Timestamp;
use jiff::civil::DateTime;
use jiff::tz::Offset;
use std::alloc::Global;

/// The end of the years of watermarks: 2262-01-01T00:00:00Z, in nanoseconds.
pub const END_OF_YEARS: i64 = 9_214_646_400_000_000_000;

fn nanoseconds_at(civil: DateTime) -> i64
    requires { IsBetween (pos 1970) (pos 2261) civil.date.year }
    ensures value { result ≡ civil_nanos civil }
    ensures range { IsInYears result }
{
    match Offset::UTC.to_timestamp(civil) {
        Ok(timestamp) => timestamp.as_nanosecond() as i64,
        Err(_) => unreachable!(),
    }
}

fn nanoseconds(day: Day, clock: Clock, nanosecond: u32) -> Option<i64>
    requires month { day.month < 100 }
    requires day { day.day < 100 }
    requires hour { clock.hour < 100 }
    requires minute { clock.minute < 100 }
    requires second { clock.second < 100 }
    requires nanosecond { nanosecond < 1_000_000_000 }
    ensures value { result ≡ value_if day clock nanosecond }
    ensures range { IfSome result IsInYears }
{
    if day.year < 1970 || day.year > 2261 {
        return None;
    }
    let civil = DateTime::new(
        day.year as i16,
        day.month as i8,
        day.day as i8,
        clock.hour as i8,
        clock.minute as i8,
        clock.second as i8,
        nanosecond as i32,
    );
    match civil {
        Ok(civil) => Some(nanoseconds_at(civil)),
        Err(_) => None,
    }
}

/// The moment that a text `YYYY-MM-DDThh:mm:ss[.fraction]Z` writes, in nanoseconds since
/// 1970-01-01T00:00:00Z (this project's profile of RFC 3339: UTC alone, without leap seconds).
/// `None` if the text has another form, or isn't a moment of the years 1970 to 2261. A fraction has
/// 1 to 9 digits. Doesn't allocate.
#[tactic(auto, unfolding(crate::specs::Watermark::watermark_of))]
pub fn watermark(text: &str) -> Option<i64>
    ensures value { result ≡ watermark_of text.now }
    ensures range { IfSome result IsInYears }
{
    let moment = before_z(text.as_bytes())?;
    let (day, rest) = read_day(moment)?;
    let rest = after_byte(rest, b'T')?;
    let (clock, rest) = read_clock(rest)?;
    let nanosecond = billionths(rest)?;
    nanoseconds(day, clock, nanosecond)
}

fn civil_at(watermark: i64) -> DateTime
    requires { IsInYears watermark }
    ensures { civil_nanos result ≡ watermark }
{
    match Timestamp::from_nanosecond(watermark as i128) {
        Ok(timestamp) => Offset::UTC.to_datetime(timestamp),
        Err(_) => unreachable!(),
    }
}

/// The text of a moment of the years 1970 to 2261, given in nanoseconds since
/// 1970-01-01T00:00:00Z. A fraction is written only if it isn't zero, and without trailing zeros.
/// It is read back as the same moment.
pub fn moment_text(alloc: Global, watermark: i64) -> Result<String, NoMemory>
    requires { IsInYears watermark }
    ensures text { IfOk result (λ text. watermark_text_of watermark ≡ Some (string_bytes text)) }
    ensures read { IfOk result (λ text. watermark_of (string_bytes text) ≡ Some watermark) }
{
    let civil = civil_at(watermark);
    let text = format!(in alloc; "{civil}Z")?;
    Ok(text)
}

/// The text of a moment, as `moment_text` writes it; `None` outside the years 1970 to 2261. Where
/// the result is `None` nothing is allocated.
pub fn watermark_text(alloc: Global, watermark: i64) -> Result<Option<String>, NoMemory>
    ensures text { IfOk result (λ o. option_map string_bytes o ≡ watermark_text_of watermark) }
    ensures outside { (IsInYears watermark → ⊥) → result ≡ Ok None }
{
    if watermark < 0 || watermark >= END_OF_YEARS {
        return Ok(None);
    }
    let text = moment_text(alloc, watermark)?;
    Ok(Some(text))
}
