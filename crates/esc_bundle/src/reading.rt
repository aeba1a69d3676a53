//! From bytes to sections.

ghost use Rattle.std.specs.Prelude.{◌≡◌, ◌≢◌, ◌<◌, ◌≤◌, ◌++◌, List, [], ℕ, length, option_map};
ghost use Rattle.std.specs.Prelude.{IfOk, IfErr, MatchResult, IsErrAnd, Ok, Err, true, Some, None};
ghost use Rattle.std.specs.Prelude.{◌==◌, ◌||◌, ◌⊎◌, not};
ghost use Rattle.std.specs.List.{list_all, list_any, position};
ghost use Rattle.std.specs.Char.{is_ascii_digit};
ghost use Rattle.std.specs.Str.{bytes_eq};
ghost use Rattle.std.specs.Str.Parse.{digits_value};
ghost use Rattle.esc_bundle.specs.Bundle.{Named, view, views, limit, first_line, envelope_name};
ghost use Rattle.esc_bundle.specs.Bundle.{is_name_byte, is_name, is_length, IsBundle};
ghost use Rattle.esc_bundle.specs.Tests.{Gives, GivesOrNoMemory};
ghost use Rattle.esc_bundle.specs.Reading.{IsFault, parted, stands_at, length_at, section_at};
ghost use Rattle.esc_bundle.specs.Reading.{end_at, next_at};
ghost use Rattle.esc_bundle.specs.Frame.{frame_after, frame};

use crate::fault::Fault;
use crate::refusal::Refusal;
use crate::section::Section;
use std::alloc::Global;
use std::str;

/// The first line of a bundle.
pub(crate) const FIRST_LINE: &[u8] = b"escrow-bundle 1\n";

/// The last line of a bundle.
pub(crate) const LAST_LINE: &[u8] = b"end\n";

/// The most bytes of a bundle, and of a section.
pub const MOST_BYTES: usize = 16_777_216;

/// The name of the first section.
const ENVELOPE: &[u8] = b"envelope.json";

/// The most sections of a bundle.
pub const MOST_SECTIONS: usize = 64;

/// The most bytes of a section's name.
pub const LONGEST_NAME: usize = 32;

fn index_of(bytes: &[u8], byte: u8) -> Option<usize>
    ensures { result ≡ position (λ b. b == byte) bytes.now }
{
    bytes.iter().position(|b| *b == byte)
}

// The bytes before and after the first separator, if there is one.
fn split_at_byte(bytes: &[u8], separator: u8) -> Option<(&[u8], &[u8])>
    ensures { option_map (λ p. (p.0.now, p.1.now)) result ≡ parted separator bytes.now }
{
    match index_of(bytes, separator) {
        Some(at) => Some((&bytes[..at], &bytes[at + 1..])),
        None => None,
    }
}

fn is_name_byte(byte: u8) -> bool
    ensures { result ≡ is_name_byte byte }
{
    matches!(byte, b'a'..=b'z' | b'0'..=b'9' | b'.' | b'_' | b'-')
}

fn are_name_bytes(name: &[u8]) -> bool
    ensures { result ≡ list_all is_name_byte name.now }
{
    name.iter().all(|byte| is_name_byte(*byte))
}

fn is_name(name: &[u8]) -> bool
    ensures { result ≡ is_name name.now }
{
    if name.is_empty() || name.len() > LONGEST_NAME {
        return false;
    }
    are_name_bytes(name)
}

fn are_digits(size: &[u8]) -> bool
    ensures { result ≡ list_all is_ascii_digit size.now }
{
    size.iter().all(|b| b.is_ascii_digit())
}

fn is_length(size: &[u8]) -> bool
    ensures { result ≡ is_length size.now }
{
    if size.is_empty() || !are_digits(size) {
        return false;
    }
    size[0] != b'0' || size.len() == 1
}

// The value of digits; for a value over the limit, some number over the limit.
fn value_of(digits: &[u8]) -> usize
    requires some { 0 < length digits.now }
    requires digits { list_all is_ascii_digit digits.now ≡ true }
    ensures exact { result ≤ limit → result ≡ digits_value 10 digits.now }
    ensures over { limit < result → limit < digits_value 10 digits.now }
{
    match str::from_utf8(digits) {
        Ok(text) => match text.parse::<usize>() {
            Ok(value) => value,
            Err(_) => MOST_BYTES + 1,
        },
        Err(_) => MOST_BYTES + 1,
    }
}

fn is_named(section: &Section<'_>, name: &[u8]) -> bool
    ensures { result ≡ bytes_eq section.now.name.now name.now }
{
    section.name.as_bytes() == name
}

fn is_any_named(before: &[Section<'_>], name: &[u8]) -> bool
    ensures { result ≡ list_any (λ s. bytes_eq s.name.now name.now) before.now }
{
    before.iter().any(|s| is_named(s, name))
}

fn is_repeated(before: &[Section<'_>], name: &[u8]) -> bool
    ensures { result ≡ list_any (λ s. bytes_eq s.name name.now) (views before.now) }
{
    is_any_named(before, name)
}

// Whether a section of this name may come here: the first one has to be the envelope.
fn is_in_order(before: &[Section<'_>], name: &[u8]) -> bool
    ensures { result ≡ (not (length (views before.now) == 0) || bytes_eq name.now envelope_name) }
{
    !before.is_empty() || name == ENVELOPE
}

// Refuses a section of this name and length that may not come after these.
#[tactic(auto, unfolding(crate::specs::Reading::stands_at))]
pub(crate) fn check_stand(before: &[Section<'_>], name: &[u8], size: usize) -> Result<(), Fault>
    ensures { Gives (λ done. tt) result (stands_at (views before.now) name.now size) }
{
    if !is_name(name) {
        return Err(Fault::Refused(Refusal::WrongName));
    }
    if is_repeated(before, name) {
        return Err(Fault::Refused(Refusal::RepeatedName));
    }
    if before.len() >= MOST_SECTIONS || size > MOST_BYTES {
        return Err(Fault::Refused(Refusal::OverLimit));
    }
    if !is_in_order(before, name) {
        return Err(Fault::Refused(Refusal::BrokenFrame));
    }
    Ok(())
}

// The length in a section's line, if the section may come after these.
#[tactic(auto, unfolding(crate::specs::Reading::length_at))]
fn told_length(before: &[Section<'_>], name: &[u8], size: &[u8]) -> Result<usize, Fault>
    ensures { Gives (λ n. n) result (length_at (views before.now) name.now size.now) }
{
    if !is_length(size) {
        return Err(Fault::Refused(Refusal::BrokenFrame));
    }
    let value = value_of(size);
    check_stand(before, name, value)?;
    Ok(value)
}

// A name as text.
fn name_text(name: &[u8]) -> &str
    requires { is_name name.now ≡ true }
    ensures { result.now ≡ name.now }
{
    match str::from_utf8(name) {
        Ok(text) => text,
        Err(_) => unreachable!(),
    }
}

// The section at the front of the rest, and what follows it.
#[tactic(auto, unfolding(crate::specs::Reading::section_at))]
fn front_section<'a>(
    before: &[Section<'_>],
    rest: &'a [u8],
) -> Result<(Section<'a>, &'a [u8]), Fault>
    ensures { Gives (λ found. (view found.0, found.1.now)) result
        (section_at (views before.now) rest.now) }
{
    let Some((line, after)) = split_at_byte(rest, b'\n') else {
        return Err(Fault::Refused(Refusal::BrokenFrame));
    };
    let Some((name, size)) = split_at_byte(line, b' ') else {
        return Err(Fault::Refused(Refusal::BrokenFrame));
    };
    let size = told_length(before, name, size)?;
    if after.len() <= size || after[size] != b'\n' {
        return Err(Fault::Refused(Refusal::BrokenFrame));
    }
    let section = Section {
        name: name_text(name),
        bytes: &after[..size],
    };
    Ok((section, &after[size + 1..]))
}

// The next section and what follows it, or nothing where the bundle ends.
#[tactic(auto, unfolding(crate::specs::Reading::end_at, crate::specs::Reading::next_at))]
fn next_section<'a>(
    before: &[Section<'_>],
    rest: &'a [u8],
) -> Result<Option<(Section<'a>, &'a [u8])>, Fault>
    ensures { Gives (option_map {U = Named × List ℕ} (λ found. (view found.0, found.1.now)))
        result
        (next_at (views before.now) rest.now) }
{
    if !rest.starts_with(LAST_LINE) {
        let found = front_section(before, rest)?;
        return Ok(Some(found));
    }
    if rest.len() != LAST_LINE.len() || before.is_empty() {
        return Err(Fault::Refused(Refusal::BrokenFrame));
    }
    Ok(None)
}

// The sections from here to the end of the bundle.
fn gather(alloc: Global, text: &[u8]) -> Result<Vec<Section<'_>>, Fault>
    ensures { GivesOrNoMemory (λ v. views v.items) result (frame_after 65 [] text.now) }
{
    let mut rest = text;
    let mut found: Vec<Section<'_>> = Vec::new(alloc);
    while let Some((section, after)) = next_section(found.as_slice(), rest)? {
        found.push(section)?;
        rest = after;
    }
    Ok(found)
}

/// The sections of a bundle, in order. Their names and bytes are slices of `body`: nothing is
/// copied, as the lifetime of the result says.
///
/// A bundle is the line `escrow-bundle 1`, then one or more sections, then the line `end`. A
/// section is its name, a space, its length in bytes, a line feed, the bytes and a line feed (this
/// project's profile).
///
/// # Errors
///
/// For a body that is no bundle, its first fault from the front:
///
/// - `BrokenFrame`: it has another frame, or its first section is not `envelope.json`;
/// - `WrongName`: a name is not 1 to 32 of `a-z 0-9 . _ -`;
/// - `RepeatedName`: a name occurs twice;
/// - `OverLimit`: the body or a section has more than 16,777,216 bytes, or there is a 65th
///   section.
///
/// `NoMemory` where the list of sections can't be allocated. It is never returned in place of the
/// faults that need no list: of a body over the limit, and of one without the first line.
pub fn sections(alloc: Global, body: &[u8]) -> Result<Vec<Section<'_>>, Fault>
    ensures found { IfOk result (λ v. IsBundle body.now (views v.items)) }
    ensures refused { IfErr result (λ e. (why : Refusal) → e ≡ Fault.Refused why
        → IsFault body.now why) }
    ensures bundle_found { (ss : List Named) → IsBundle body.now ss →
        MatchResult result (λ v. views v.items ≡ ss) (λ e. e ≡ Fault.NoMemory) }
    ensures fault_told { (why : Refusal) → IsFault body.now why →
        IsErrAnd result (λ e. (e ≡ Fault.Refused why) ⊎ (e ≡ Fault.NoMemory)) }
    ensures framed { IfOk result (λ v. frame body.now ≡ Ok (views v.items)) }
    ensures unframed { IfErr result (λ e. (why : Refusal) → e ≡ Fault.Refused why
        → frame body.now ≡ Err why) }
    ensures over_limit { limit < length body.now → result ≡ Err (Fault.Refused Refusal.OverLimit) }
    ensures other_line { length body.now ≤ limit →
        ((rest : List ℕ) → body.now ≢ first_line ++ rest) →
        result ≡ Err (Fault.Refused Refusal.BrokenFrame) }
{
    if body.len() > MOST_BYTES {
        return Err(Fault::Refused(Refusal::OverLimit));
    }
    match body.strip_prefix(FIRST_LINE) {
        Some(rest) => gather(alloc, rest),
        None => Err(Fault::Refused(Refusal::BrokenFrame)),
    }
}
