//! What a test found, in words, and what to do. No clause says how it is told.

use crate::acceptance::{has_disguise, is_by, is_counted, is_outdated, is_passed, is_past};
use crate::guide::Guide;
use crate::guides::{is_declared, is_wanted};
use crate::seen::Seen;
use crate::test::Test;
use crate::words::{moment_words, one_line, place_words};
use esc_bundle::NoMemory;
use esc_chain::GapLine;
use esc_conformity::Rule;
use esc_envelope::{Kind, Place};
use esc_tables::Key;
use std::alloc::Global;

/// What a test found, and what to do: empty where it passed, but for the TLD and the end of the
/// chain.
pub(crate) fn detail_of(alloc: Global, test: Test, seen: &Seen<'_>) -> Result<String, NoMemory> {
    match test {
        Test::Tld => tld_detail(alloc, seen.tlds),
        Test::End => end_detail(alloc, seen),
        Test::Future => future_detail(alloc, seen.clock, seen.end),
        Test::Chain => chain_detail(alloc, seen.is_latest),
        Test::Resends => resends_detail(alloc, seen.gaps),
        Test::Gaps => gaps_detail(alloc, seen.end, seen.gaps),
        Test::Moment => moment_detail(alloc, seen.moment),
        Test::Parked => parked_detail(alloc, seen.parked),
        Test::Early => early_detail(alloc, seen.early),
        Test::Findings => findings_detail(alloc, seen),
        Test::Conforms(rule) => rule_detail(alloc, rule, seen.flaws.of(rule)),
        Test::Orphans => orphans_detail(alloc, seen.orphans),
        Test::Counts => counts_detail(alloc, seen.counts),
        Test::Fields => fields_detail(alloc, seen),
        Test::Names => names_detail(alloc, seen),
        Test::Bodies => bodies_detail(alloc, seen),
        Test::Tables => tables_detail(alloc, seen.is_rebuilt),
        Test::Notes => notes_detail(alloc, seen.notes),
    }
}

fn tld_detail(alloc: Global, tlds: &[String]) -> Result<String, NoMemory> {
    let mut text = String::new(alloc);
    for tld in tlds {
        let name = one_line(alloc, tld.as_str())?;
        push_item(&mut text, name.as_str())?;
    }
    if tlds.is_empty() {
        text.push_str("no held deposit names one")?;
    }
    if tlds.len() > 1 {
        text.push_str(" are named by the held deposits; make a store for each")?;
    }
    Ok(text)
}

fn future_detail(alloc: Global, now: Option<i64>, end: Option<Place>) -> Result<String, NoMemory> {
    match end {
        Some(end) if !is_past(now, Some(end)) => {
            let end = place_words(alloc, end)?;
            Ok(format!(in alloc;
                "{end} is later than now; set this machine's clock, or ask the agent which watermark it has"
            )?)
        }
        _ => Ok(String::new(alloc)),
    }
}

fn chain_detail(alloc: Global, is_latest: bool) -> Result<String, NoMemory> {
    if is_latest {
        return Ok(String::new(alloc));
    }
    Ok(String::from_str(
        alloc,
        "not the latest one of the held rows; go back to a copy of the store, or make it anew",
    )?)
}

fn moment_detail(alloc: Global, moment: Option<i64>) -> Result<String, NoMemory> {
    let Some(moment) = moment else {
        return Ok(String::new(alloc));
    };
    let moment = moment_words(alloc, moment)?;
    Ok(format!(in alloc;
        "{moment} is set, and what is later doesn't count; take it back by `restore as-of` with `latest`"
    )?)
}

fn early_detail(alloc: Global, early: u64) -> Result<String, NoMemory> {
    if early == 0 {
        return Ok(String::new(alloc));
    }
    Ok(format!(in alloc;
        "{early} arrivals of version 1 had no row, and their bodies weren't kept; take them again unless they are held"
    )?)
}

// The last listed place up to the moment, if any.
fn last_listed(moment: Option<i64>, gaps: &[GapLine]) -> Option<Place> {
    gaps.iter()
        .filter(|line| is_by(moment, line.place.watermark))
        .last()
        .map(|line| line.place)
}

fn end_detail(alloc: Global, seen: &Seen<'_>) -> Result<String, NoMemory> {
    let Some(end) = seen.end else {
        return Ok(String::from_str(
            alloc,
            "there is no chain; take what `restore report gaps` names",
        )?);
    };
    let mut text = place_words(alloc, end)?;
    if let Some(moment) = seen.moment {
        let moment = moment_words(alloc, moment)?;
        write!(text, ", up to the moment {moment}")?;
    }
    if let Some(last) = last_listed(seen.moment, seen.gaps) {
        if last != end {
            let last = place_words(alloc, last)?;
            write!(
                text,
                ", and listed up to {last}; take what `restore report gaps` names"
            )?;
        }
    }
    Ok(text)
}

fn resends_detail(alloc: Global, gaps: &[GapLine]) -> Result<String, NoMemory> {
    let count = gaps.iter().filter(|line| is_outdated(line)).count();
    let Some(first) = gaps.iter().find(|line| is_outdated(line)) else {
        return Ok(String::new(alloc));
    };
    let place = place_words(alloc, first.place)?;
    let resend = first.awaited.unwrap_or(0);
    Ok(format!(in alloc;
        "{count} of the chain await a later resend, the first {place} resend {resend}; ask the agent for it"
    )?)
}

fn gaps_detail(alloc: Global, end: Option<Place>, gaps: &[GapLine]) -> Result<String, NoMemory> {
    let count = gaps.iter().filter(|line| is_passed(end, line)).count();
    let Some(first) = gaps.iter().find(|line| is_passed(end, line)) else {
        return Ok(String::new(alloc));
    };
    let place = place_words(alloc, first.place)?;
    let state = first.state;
    Ok(format!(in alloc;
        "{count} before the end are missing or blocked, the first {place} {state}; the chain goes past them"
    )?)
}

fn parked_detail(alloc: Global, parked: usize) -> Result<String, NoMemory> {
    if parked == 0 {
        return Ok(String::new(alloc));
    }
    Ok(format!(in alloc;
        "{parked} are listed by no row; ask the agent for the manifest that lists them, see `restore report parked`"
    )?)
}

fn findings_detail(alloc: Global, seen: &Seen<'_>) -> Result<String, NoMemory> {
    let count = seen.findings.len();
    let Some(first) = seen.findings.first() else {
        return Ok(String::new(alloc));
    };
    let rule = first.rule;
    let kind = first.kind.name();
    let key = one_line(alloc, first.key.as_str())?;
    let field = first.field.as_str();
    let gap = if key.is_empty() { "" } else { " " };
    Ok(format!(in alloc;
        "{count}, the first {rule} {kind}{gap}{key} {field}; see `restore report links`"
    )?)
}

// How many objects a line names.
const MOST_NAMED: usize = 20;

// Appends the first of these objects: their kind and their key.
fn push_objects(alloc: Global, text: &mut String, keys: &[Key]) -> Result<(), NoMemory> {
    for key in keys.iter().take(MOST_NAMED) {
        let name = one_line(alloc, key.text.as_str())?;
        push_object(text, key.kind.name(), name.as_str())?;
    }
    Ok(())
}

fn push_object(text: &mut String, kind: &str, name: &str) -> Result<(), NoMemory> {
    push_item(text, kind)?;
    Ok(write!(text, " {name}")?)
}

// What is said of the objects that break a rule, and what to do.
fn said_of(rule: Rule) -> &'static str {
    match rule {
        Rule::Registrars => {
            "name a registrar that isn't there, by crRr, upRr, reRr or acRr; ask the agent for it"
        }
        Rule::Nndns => "have a domain's name; ask the agent which the name is",
        Rule::Roids => "have a ROID that another of their kind has; ask the agent which has it",
        Rule::Required => {
            "lack what RFC 9022 requires of them; `pack_rde` says what, ask the agent for it"
        }
        Rule::Outside => "are not below the TLD; ask the agent why they are there",
        Rule::Digests => "have a DS that is none, which a zone leaves out; ask the agent for it",
        Rule::Addresses => {
            "have an address that is none, or of another version than said; ask the agent for it"
        }
    }
}

fn rule_detail(alloc: Global, rule: Rule, keys: &[Key]) -> Result<String, NoMemory> {
    let count = keys.len();
    let mut text = String::new(alloc);
    push_objects(alloc, &mut text, keys)?;
    if count == 0 {
        return Ok(text);
    }
    let said = said_of(rule);
    Ok(format!(in alloc; "{count} {said}: {text}")?)
}

fn orphans_detail(alloc: Global, orphans: u64) -> Result<String, NoMemory> {
    if orphans == 0 {
        return Ok(String::new(alloc));
    }
    Ok(format!(in alloc;
        "{orphans} child rows in the chain's deposits have no parent row, and are lost; ask the agent by which field they belong to it"
    )?)
}

fn push_item(text: &mut String, item: &str) -> Result<(), NoMemory> {
    if !text.is_empty() {
        text.push_str(", ")?;
    }
    text.push_str(item)?;
    Ok(())
}

fn counts_detail(alloc: Global, counts: &[(Kind, u64)]) -> Result<String, NoMemory> {
    let mut text = String::new(alloc);
    for kind in Kind::ALL {
        if !is_counted(counts, kind) {
            push_item(&mut text, kind.name())?;
        }
    }
    if !text.is_empty() {
        text.push_str(
            " not declared by the chain's last deposit; ask the agent how many there are",
        )?;
    }
    Ok(text)
}

// The table and the field of a guide: the table's name, or its kind where the parent rows have it.
fn push_guide(text: &mut String, guide: Guide) -> Result<(), NoMemory> {
    push_item(
        text,
        match guide.child_name() {
            "" => guide.kind().name(),
            table => table,
        },
    )?;
    let field = guide.field_name();
    Ok(write!(text, " {field}")?)
}

// Whether a field is in a declared table, and in each object that has to have it.
fn is_there(seen: &Seen<'_>, guide: Guide) -> bool {
    is_declared(seen.tables, guide) && !seen.lacking.contains(&guide)
}

fn fields_detail(alloc: Global, seen: &Seen<'_>) -> Result<String, NoMemory> {
    let mut text = String::new(alloc);
    for guide in Guide::ALL {
        if is_wanted(seen.objects, guide) && !is_there(seen, guide) {
            push_guide(&mut text, guide)?;
        }
    }
    if !text.is_empty() {
        text.push_str(
            " declared by no deposit of the chain, or not for each object, and so not checked; ask the agent which fields they are",
        )?;
    }
    Ok(text)
}

fn names_detail(alloc: Global, seen: &Seen<'_>) -> Result<String, NoMemory> {
    let mut text = String::new(alloc);
    for guide in Guide::ALL {
        if has_disguise(guide, seen.tables) {
            push_guide(&mut text, guide)?;
        }
    }
    if !text.is_empty() {
        text.push_str(
            " under another name, and so not checked; have the deposits declared by these names",
        )?;
    }
    Ok(text)
}

fn bodies_detail(alloc: Global, seen: &Seen<'_>) -> Result<String, NoMemory> {
    let Some(first) = seen.spoiled.first() else {
        return unread_detail(alloc, seen.are_read);
    };
    let count = seen.spoiled.len();
    let row = first.saturating_add(1);
    Ok(format!(in alloc;
        "{count} held are gone or have another SHA-256 than listed, the first of row {row}; go back to a copy of the store, or make it anew"
    )?)
}

fn unread_detail(alloc: Global, are_read: bool) -> Result<String, NoMemory> {
    if are_read {
        return Ok(String::new(alloc));
    }
    Ok(String::from_str(
        alloc,
        "one of the chain is gone or is no deposit; go back to a copy of the store, or make it anew",
    )?)
}

fn tables_detail(alloc: Global, is_rebuilt: bool) -> Result<String, NoMemory> {
    if is_rebuilt {
        return Ok(String::new(alloc));
    }
    Ok(String::from_str(
        alloc,
        "not those of the chain's deposits; go back to a copy of the store, or make it anew",
    )?)
}

fn notes_detail(alloc: Global, notes: &[String]) -> Result<String, NoMemory> {
    let count = notes.len();
    if count == 0 {
        return Ok(String::new(alloc));
    }
    Ok(format!(in alloc;
        "{count} in the chain's deposits, from when their bundles were made; each has a line below"
    )?)
}
