//! What a desk and its store have.

use crate::texts::{push_object, push_step, push_text};
use esc_apply::{Objects, Step};
use esc_desk::{Desk, End, Reads, StoreFault, Walk};
use esc_reports::{Report, printed_watermark, report};
use esc_tables::{Key, Object};
use sqlite::Alter;
use std::alloc::Global;
use std::collections::BTreeMap;
use std::fmt::Write;
use std::test::Fail;

/// Adds what a desk has of what a word names, or the refusal.
pub fn look<S: Alter + Drop>(
    alloc: Global,
    text: &mut String,
    desk: &mut Desk<S>,
    word: &str,
) -> Result<(), Fail> {
    match word {
        "status" => push_report(alloc, text, desk, Report::Status),
        "receipts" => push_report(alloc, text, desk, Report::Receipts),
        "parked" => push_report(alloc, text, desk, Report::Parked),
        "moment" => push_report(alloc, text, desk, Report::Moment),
        "end" => push_end(alloc, text, desk),
        "held" => push_held(alloc, text, desk),
        "tables" => push_tables(alloc, text, desk),
        "writes" => Ok(writeln!(text, "{}", desk.writes())?),
        _ => Ok(text.push_str("a desk is open\n")?),
    }
}

fn push_fault(text: &mut String, fault: StoreFault) -> Result<(), Fail> {
    writeln!(text, "{fault}")?;
    Ok(())
}

fn push_report<S: Alter + Drop>(
    alloc: Global,
    text: &mut String,
    desk: &mut Desk<S>,
    which: Report,
) -> Result<(), Fail> {
    match report(alloc, desk, which) {
        Ok(found) => push_text(text, found.as_slice()),
        Err(fault) => push_fault(text, fault),
    }
}

fn push_end<S: Alter + Drop>(
    alloc: Global,
    text: &mut String,
    desk: &mut Desk<S>,
) -> Result<(), Fail> {
    match desk.end(alloc) {
        Ok(Some(end)) => push_end_of(alloc, text, &end),
        Ok(None) => Ok(text.push_str("none\n")?),
        Err(fault) => push_fault(text, fault),
    }
}

// The watermark of an end, and the counts of its envelope.
fn push_end_of(alloc: Global, text: &mut String, end: &End) -> Result<(), Fail> {
    let moment = printed_watermark(alloc, end.watermark)?;
    writeln!(text, "{moment}")?;
    for (kind, count) in &end.counts {
        writeln!(text, "{} {count}", kind.name())?;
    }
    Ok(())
}

fn push_held<S: Alter + Drop>(
    alloc: Global,
    text: &mut String,
    desk: &mut Desk<S>,
) -> Result<(), Fail> {
    let listed = desk.manifest().rows().len();
    match desk.held(alloc) {
        Ok(held) => push_rows(text, listed, held.as_slice()),
        Err(fault) => push_fault(text, fault),
    }
}

fn push_rows(text: &mut String, listed: usize, held: &[usize]) -> Result<(), Fail> {
    write!(text, "lists {listed}, holds")?;
    for row in held {
        write!(text, " {row}")?;
    }
    text.push_str("\n")?;
    Ok(())
}

fn push_tables<S: Alter + Drop>(
    alloc: Global,
    text: &mut String,
    desk: &mut Desk<S>,
) -> Result<(), Fail> {
    match tables_of(alloc, desk) {
        Ok(tables) => push_objects(text, &tables),
        Err(fault) => push_fault(text, fault),
    }
}

fn tables_of<S: Alter + Drop>(
    alloc: Global,
    desk: &mut Desk<S>,
) -> Result<BTreeMap<Key, Object>, StoreFault> {
    let place = desk.start_walk(alloc, None)?;
    tables_from(alloc, &mut Walk::new(desk, place))
}

fn tables_from<O: Objects<Error = StoreFault>>(
    alloc: Global,
    objects: &mut O,
) -> Result<BTreeMap<Key, Object>, StoreFault> {
    let mut tables = BTreeMap::new(alloc);
    while let Some((key, object)) = objects.next()? {
        tables.insert(key, object)?;
    }
    Ok(tables)
}

fn push_objects(text: &mut String, tables: &BTreeMap<Key, Object>) -> Result<(), Fail> {
    for (key, object) in tables {
        push_object(text, key, object)?;
    }
    Ok(())
}

/// Adds a line for each step of the chain that a desk's store has, or the refusal. The desk is
/// opened again then.
pub fn push_chain<S: Alter + Drop>(
    alloc: Global,
    text: &mut String,
    desk: Desk<S>,
) -> Result<Desk<S>, Fail> {
    let mut store = desk.into_store();
    match store.chain(alloc) {
        Ok(steps) => push_steps(alloc, text, steps.as_slice())?,
        Err(fault) => push_fault(text, fault)?,
    }
    Ok(Desk::open(store))
}

fn push_steps(alloc: Global, text: &mut String, steps: &[Step]) -> Result<(), Fail> {
    for step in steps {
        push_step(alloc, text, step)?;
    }
    Ok(())
}
