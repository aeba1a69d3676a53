//! The store in a file: how it is opened and left, and what is made of it in between.

use crate::bundle::{Splitting, tables_bundle, write_bundles};
use crate::tables::{Tabling, write_tables};
use crate::zone::{Zoning, write_zone};
use esc_desk::Lookup;
use esc_handover::{Answer, Stop, or_stop};
use esc_inspection::{Form, acceptance};
use esc_progress::Progress;
use esc_recovery::{Access, PathFault, check_access, reader_at};
use sqlite::Unknown;
use std::alloc::Global;

/// What is made of a store.
#[derive(Clone, Copy)]
pub enum Task<'a> {
    /// The bundle of its tables under this id, which is to be at this path.
    Bundle { id: &'a str, path: &'a str },
    /// Nothing: its tables are written as the bundles of a series.
    Series(Splitting<'a>),
    /// The lines of its acceptance; strict ones let nothing be told.
    Check { is_strict: bool },
    /// Nothing: its tables are written as files.
    Tables(Tabling<'a>),
    /// The counts of its zone, which is written to a file.
    Zone(Zoning<'a>),
    /// A page that shows it, which is to be at this path.
    Page { path: &'a str },
}

/// Does a task with the store in a file, and tells how far it is if that is asked for. The clock
/// says what time it is, if that is known. The store is not closed: nothing was written.
pub fn use_store(
    rt: &HostRuntime,
    path: &str,
    is_watched: bool,
    task: Task<'_>,
    clock: Option<i64>,
) -> Result<Answer, Stop> {
    let mut progress = Progress::new(rt, is_watched);
    progress.tell_opening(path);
    match reader_at(rt, path, Unknown) {
        Ok(mut reader) => perform(rt.alloc(), &mut reader, task, clock, progress),
        Err(fault) => Err(stop_of(rt, path, fault)),
    }
}

// Does a task with a store. (Over any reader: each use of a `FileStore` as a store costs the prover
// seconds.)
fn perform<R: Lookup>(
    alloc: Global,
    reader: &mut R,
    task: Task<'_>,
    clock: Option<i64>,
    mut progress: Progress<'_>,
) -> Result<Answer, Stop> {
    match task {
        Task::Bundle { id, path } => tables_bundle(alloc, reader, id, path),
        Task::Series(words) => write_bundles(reader, words, progress),
        Task::Check { is_strict } => {
            let form = Form::Lines { is_strict };
            Ok(acceptance(alloc, reader, form, clock, &mut progress)?)
        },
        Task::Page { .. } => Ok(acceptance(alloc, reader, Form::Page, clock, &mut progress)?),
        Task::Tables(words) => write_tables(reader, words, progress),
        Task::Zone(words) => write_zone(reader, words, progress),
    }
}

// Why the store isn't opened: `E1` if the system doesn't let the file be read, else the store's
// fault.
fn stop_of(rt: &HostRuntime, path: &str, fault: PathFault) -> Stop {
    match fault {
        PathFault::Missing => Stop::Missing,
        PathFault::Store(fault) => Stop::Store(fault),
        PathFault::Unopened(obstacle) => or_stop(rt, path, check_access(rt, path, Access::Read))
            .err()
            .unwrap_or(Stop::Unopened(obstacle)),
    }
}
