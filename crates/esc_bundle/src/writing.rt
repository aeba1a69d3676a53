//! From sections to bytes.

ghost use Rattle.std.specs.Prelude.{◌≡◌, ◌++◌, [], ℕ, List, length, Ok, Err, OnOk, IfOk, IfErr};
ghost use Rattle.std.specs.Prelude.{MatchResult, IsErrAnd, ◌⊎◌, map};
ghost use Rattle.esc_bundle.specs.Bundle.{view, views, section_text, bundle_text, IsBundle};
ghost use Rattle.esc_bundle.specs.Tests.{GivesOrNoMemory};
ghost use Rattle.esc_bundle.specs.Writing.{named, in_order, within_limit, bundle_of, IsUnwritten};

use crate::fault::{Fault, NoMemory};
use crate::reading::{FIRST_LINE, LAST_LINE, MOST_BYTES, check_stand};
use crate::refusal::Refusal;
use crate::section::Section;
use std::alloc::Global;

// The sections of a list, if each may come after those before it.
fn in_order(alloc: Global, list: &[(String, Vec<u8>)]) -> Result<Vec<Section<'_>>, Fault>
    ensures { GivesOrNoMemory (λ v. views v.items) result (in_order [] (map named list.now)) }
{
    let mut before: Vec<Section<'_>> = Vec::new(alloc);
    for part in list {
        let section = Section {
            name: part.0.as_str(),
            bytes: part.1.as_slice(),
        };
        check_stand(
            before.as_slice(),
            section.name.as_bytes(),
            section.bytes.len(),
        )?;
        before.push(section)?;
    }
    Ok(before)
}

fn push_section(alloc: Global, text: &mut Vec<u8>, section: &Section<'_>) -> Result<(), NoMemory>
    ensures { OnOk result (text.new.items ≡ text.old.items ++ section_text (view section.now)) }
{
    let name = section.name;
    let len = section.bytes.len();
    let line = format!(in alloc; "{name} {len}\n")?;
    text.extend_from_slice(line.as_bytes())?;
    text.extend_from_slice(section.bytes)?;
    text.push(b'\n')?;
    Ok(())
}

// The text of a bundle with these sections. The write stops as soon as the text is too long.
fn join(alloc: Global, sections: &[Section<'_>]) -> Result<Vec<u8>, Fault>
    ensures { GivesOrNoMemory (λ v. v.items) result
        (within_limit (bundle_text (views sections.now))) }
{
    let mut text = Vec::from_slice(alloc, FIRST_LINE)?;
    for section in sections {
        push_section(alloc, &mut text, section)?;
        if text.len() > MOST_BYTES {
            return Err(Fault::Refused(Refusal::OverLimit));
        }
    }
    text.extend_from_slice(LAST_LINE)?;
    if text.len() > MOST_BYTES {
        return Err(Fault::Refused(Refusal::OverLimit));
    }
    Ok(text)
}

/// The bundle of these names and bytes, in their order: the one text from which `sections` reads
/// them (this project's profile).
///
/// # Errors
///
/// Exactly where no bundle has these sections:
///
/// - `BrokenFrame`: there is none, or the first is not `envelope.json`;
/// - `WrongName`: a name is not 1 to 32 of `a-z 0-9 . _ -`;
/// - `RepeatedName`: a name occurs twice;
/// - `OverLimit`: a section or the whole has more than 16,777,216 bytes, or there is a 65th
///   section.
///
/// The first section with a fault decides; of its faults the first in the order U2, U3, U4, U1
/// is returned, and the length of the whole is tested last. `NoMemory` where the text can't be
/// allocated, for any list but an empty one.
pub fn write_bundle(alloc: Global, list: &[(String, Vec<u8>)]) -> Result<Vec<u8>, Fault>
    ensures written { IfOk result (λ v. IsBundle v.items (map named list.now)) }
    ensures refused { IfErr result (λ e. (why : Refusal) → e ≡ Fault.Refused why →
        (body : List ℕ) → IsBundle body (map named list.now) → ⊥) }
    ensures bundle_written { (body : List ℕ) → IsBundle body (map named list.now) →
        MatchResult result (λ v. v.items ≡ body) (λ e. e ≡ Fault.NoMemory) }
    ensures fault_told { (why : Refusal) → bundle_of (map named list.now) ≡ Err why →
        IsErrAnd result (λ e. (e ≡ Fault.Refused why) ⊎ (e ≡ Fault.NoMemory)) }
    ensures made { IfOk result (λ v. bundle_of (map named list.now) ≡ Ok v.items) }
    ensures unmade { IfErr result (λ e. (why : Refusal) → e ≡ Fault.Refused why →
        bundle_of (map named list.now) ≡ Err why) }
    ensures unwritten { IfErr result (λ e. (why : Refusal) → e ≡ Fault.Refused why →
        IsUnwritten (map named list.now) why) }
    ensures empty { length list.now ≡ 0 → result ≡ Err (Fault.Refused Refusal.BrokenFrame) }
{
    if list.is_empty() {
        return Err(Fault::Refused(Refusal::BrokenFrame));
    }
    let sections = in_order(alloc, list)?;
    join(alloc, sections.as_slice())
}
