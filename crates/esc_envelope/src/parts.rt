//! The parts of a moment's text: from left to right, each reader returns a part and what follows
//! it.

ghost use Rattle.std.specs.Prelude.{◌≡◌, ◌<◌, true, option_map, IfSome};
ghost use Rattle.jiff_fmt.specs.Reader.{fraction_value};
ghost use Rattle.esc_envelope.specs.Moment.{is_fraction};
ghost use Rattle.esc_envelope.specs.Watermark.{two_at, byte_at, before_z, day_at, clock_at};
ghost use Rattle.esc_envelope.specs.Watermark.{billionths_of};
ghost use Rattle.std.specs.Char.{is_ascii_digit};
ghost use Rattle.std.specs.List.{list_all};

/// A day as a text writes it, valid or not.
#[derive(Clone, Copy, Debug)]
pub struct Day {
    pub year: u16,
    pub month: u8,
    pub day: u8,
}

/// A time of day as a text writes it, valid or not.
#[derive(Clone, Copy, Debug)]
pub struct Clock {
    pub hour: u8,
    pub minute: u8,
    pub second: u8,
}

fn two_digits_at(bytes: &[u8]) -> Option<(u8, &[u8])>
    ensures value { option_map (λ x. (x.0, x.1.now)) result ≡ two_at bytes.now }
    ensures small { IfSome result (λ x. x.0 < 100) }
{
    match bytes {
        [a, b, rest @ ..] => {
            if a.is_ascii_digit() && b.is_ascii_digit() {
                Some(((*a - b'0') * 10 + (*b - b'0'), rest))
            } else {
                None
            }
        }
        _ => None,
    }
}

pub(crate) fn after_byte(bytes: &[u8], byte: u8) -> Option<&[u8]>
    ensures { option_map (λ x. x.now) result ≡ byte_at byte bytes.now }
{
    match bytes {
        [first, rest @ ..] => { if *first == byte { Some(rest) } else { None } }
        [] => None,
    }
}

/// The text before a `Z` at the end; `None` if there is no such `Z`.
pub(crate) fn before_z(bytes: &[u8]) -> Option<&[u8]>
    ensures { option_map (λ x. x.now) result ≡ before_z bytes.now }
{
    match bytes {
        [front @ .., last] => { if *last == b'Z' { Some(front) } else { None } }
        [] => None,
    }
}

/// A day `YYYY-MM-DD`.
#[tactic(auto, unfolding(crate::specs::Watermark::day_at))]
pub(crate) fn read_day(bytes: &[u8]) -> Option<(Day, &[u8])>
    ensures value { option_map (λ x. (x.0, x.1.now)) result ≡ day_at bytes.now }
    ensures year { IfSome result (λ x. x.0.year < 10000) }
    ensures month { IfSome result (λ x. x.0.month < 100) }
    ensures day { IfSome result (λ x. x.0.day < 100) }
{
    let (century, rest) = two_digits_at(bytes)?;
    let (year, rest) = two_digits_at(rest)?;
    let rest = after_byte(rest, b'-')?;
    let (month, rest) = two_digits_at(rest)?;
    let rest = after_byte(rest, b'-')?;
    let (day, rest) = two_digits_at(rest)?;
    let year = u16::from(century) * 100 + u16::from(year);
    Some((Day { year, month, day }, rest))
}

/// A time of day `hh:mm:ss`.
#[tactic(auto, unfolding(crate::specs::Watermark::clock_at))]
pub(crate) fn read_clock(bytes: &[u8]) -> Option<(Clock, &[u8])>
    ensures value { option_map (λ x. (x.0, x.1.now)) result ≡ clock_at bytes.now }
    ensures hour { IfSome result (λ x. x.0.hour < 100) }
    ensures minute { IfSome result (λ x. x.0.minute < 100) }
    ensures second { IfSome result (λ x. x.0.second < 100) }
{
    let (hour, rest) = two_digits_at(bytes)?;
    let rest = after_byte(rest, b':')?;
    let (minute, rest) = two_digits_at(rest)?;
    let rest = after_byte(rest, b':')?;
    let (second, rest) = two_digits_at(rest)?;
    Some((
        Clock {
            hour,
            minute,
            second,
        },
        rest,
    ))
}

fn are_digits(bytes: &[u8]) -> bool
    ensures { result ≡ list_all is_ascii_digit bytes.now }
{
    bytes.iter().all(|byte| byte.is_ascii_digit())
}

fn is_fraction(digits: &[u8]) -> bool
    ensures { result ≡ is_fraction digits.now }
{
    if digits.is_empty() || digits.len() > 9 {
        return false;
    }
    are_digits(digits)
}

/// The nanoseconds of a fraction of a second, from its one to nine digits.
fn fraction_value(digits: &[u8]) -> u32
    requires { is_fraction digits.now ≡ true }
    ensures value { result ≡ fraction_value 9 digits.now }
    ensures small { result < 1_000_000_000 }
{
    let mut value = 0;
    let mut place = 1_000_000_000;
    for digit in digits {
        place /= 10;
        value += u32::from(*digit - b'0') * place;
    }
    value
}

/// The nanoseconds of a fraction of a second: of nothing, or of a dot and one to nine digits.
pub(crate) fn billionths(bytes: &[u8]) -> Option<u32>
    ensures value { result ≡ billionths_of bytes.now }
    ensures small { IfSome result (λ n. n < 1_000_000_000) }
{
    match bytes {
        [] => Some(0),
        [first, digits @ ..] => {
            if *first == b'.' && is_fraction(digits) {
                Some(fraction_value(digits))
            } else {
                None
            }
        }
    }
}
