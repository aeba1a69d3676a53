//! A database, or a desk over it, and what lines ask of these.

use crate::database::{push_query, run_script};
use crate::events::{push_event, push_run};
use crate::input::split;
use crate::looks::{look, push_chain};
use crate::requests::{push_request, push_taken};
use esc_desk::{Desk, StoreFault};
use esc_manifest::read_manifest;
use esc_recovery::{new_desk, open_desk};
use esc_store::Store;
use sqlite::{Alter, Connection};
use std::alloc::Global;
use std::fmt::Write;
use std::fs;
use std::test::Fail;

/// What lines are about.
#[derive(Drop)]
pub enum Place<S: Alter + Drop> {
    /// A database: no desk is open.
    Database(Connection<S>),
    Desk(Desk<S>),
}

/// Does what a line asks for.
pub fn answer_of_place<S: Alter + Drop>(
    rt: &HostRuntime,
    text: &mut String,
    place: Place<S>,
    line: &str,
) -> Result<Place<S>, Fail> {
    match place {
        Place::Database(connection) => answer_without_desk(rt, text, connection, line),
        Place::Desk(desk) => answer_at_desk(rt, text, desk, line),
    }
}

// ---- without a desk

fn answer_without_desk<S: Alter + Drop>(
    rt: &HostRuntime,
    text: &mut String,
    mut connection: Connection<S>,
    line: &str,
) -> Result<Place<S>, Fail> {
    let (word, rest) = split(line);
    match word {
        "create" => return create(rt, text, connection, rest),
        "open" => return opened(text, open_desk(rt.alloc(), connection), "opened"),
        "migrate" => return opened(text, migrated_desk(rt.alloc(), connection), "migrated"),
        "script" => run_script(rt, &mut connection, rest)?,
        "query" => push_query(text, &mut connection, rest)?,
        _ => text.push_str("no desk\n")?,
    }
    Ok(Place::Database(connection))
}

fn opened<S: Alter + Drop>(
    text: &mut String,
    desk: Result<Desk<S>, (StoreFault, Connection<S>)>,
    word: &str,
) -> Result<Place<S>, Fail> {
    match desk {
        Ok(desk) => {
            writeln!(text, "{word}")?;
            Ok(Place::Desk(desk))
        }
        Err((fault, connection)) => {
            writeln!(text, "{fault}")?;
            Ok(Place::Database(connection))
        }
    }
}

fn create<S: Alter + Drop>(
    rt: &HostRuntime,
    text: &mut String,
    connection: Connection<S>,
    path: &str,
) -> Result<Place<S>, Fail> {
    let bytes = fs::read(rt, path)?;
    match read_manifest(rt.alloc(), bytes.as_slice()) {
        Ok(manifest) => opened(text, new_desk(rt.alloc(), connection, &manifest), "created"),
        Err(fault) => {
            writeln!(text, "{fault}")?;
            Ok(Place::Database(connection))
        }
    }
}

// A desk over a store of version 1 that is migrated, or the refusal.
fn migrated_desk<S: Alter + Drop>(
    alloc: Global,
    connection: Connection<S>,
) -> Result<Desk<S>, (StoreFault, Connection<S>)> {
    match Store::migrate(alloc, connection) {
        Ok(store) => Ok(Desk::open(store)),
        Err(refused) => Err(refused),
    }
}

// ---- at a desk

fn answer_at_desk<S: Alter + Drop>(
    rt: &HostRuntime,
    text: &mut String,
    mut desk: Desk<S>,
    line: &str,
) -> Result<Place<S>, Fail> {
    match line {
        "close" => return Ok(Place::Database(desk.into_store().into_connection())),
        "chain" => desk = push_chain(rt.alloc(), text, desk)?,
        _ => answer(rt, text, &mut desk, line)?,
    }
    Ok(Place::Desk(desk))
}

fn answer<S: Alter + Drop>(
    rt: &HostRuntime,
    text: &mut String,
    desk: &mut Desk<S>,
    line: &str,
) -> Result<(), Fail> {
    let (word, rest) = split(line);
    match word {
        "comes" | "amend" | "as-of" => push_event(rt, text, desk, line),
        "run" => push_run(rt, text, desk, rest),
        "request" => push_request(rt, text, desk, rest),
        "taken" => push_taken(rt, text, desk, rest),
        _ => look(rt.alloc(), text, desk, word),
    }
}
