//! What a command does with the desk or the reader of its store.
//!
//! It is done over any store: each use of a `FileStore` as one costs the prover seconds.

use crate::ended::Ended;
use crate::run::Run;
use esc_arguments::{Command, Stop};
use esc_desk::{AmendFault, Desk, Reads};
use esc_reports::{Report, end_line, report};
use sqlite::Alter;
use std::alloc::Global;
use std::io::Write;
use std::net::{Net, TcpListener, TcpStream};

impl<N, O, E> Run<'_, N, O, E>
where
    N: Net<Listener = TcpListener, Stream = TcpStream>,
    O: Write,
    E: Write,
{
    /// Does a command with the desk of its store. `line` is what is printed of a store that was
    /// made.
    pub fn use_desk<S: Alter>(
        &mut self,
        desk: &mut Desk<S>,
        command: &Command<'_>,
        line: Vec<u8>,
    ) -> Result<Ended, Stop> {
        let alloc = self.rt.alloc();
        match command {
            Command::Init { .. } | Command::Migrate => Ok(Ended::done(line)),
            Command::Amend { text } => amend(alloc, desk, text),
            Command::AsOf { moment } => move_to(alloc, desk, *moment),
            // A desk makes the same text as a reader.
            Command::Report(what) => read_report(alloc, desk, *what),
            Command::Take { folder } => {
                let status = self.take_folder(desk, *folder)?;
                Ok(Ended::silent(alloc, status))
            }
            Command::Serve { port, count } => {
                let status = self.serve_connections(desk, *port, *count)?;
                Ok(Ended::silent(alloc, status))
            }
        }
    }
}

// `amend --store FILE --manifest FILE`: lists the rows of one more manifest, whose text this is.
// The text of the end says how many are new.
fn amend<S: Alter>(alloc: Global, desk: &mut Desk<S>, text: &[u8]) -> Result<Ended, Stop> {
    let count = match desk.amend(alloc, text) {
        Ok((count, _work)) => count,
        Err(AmendFault::M(fault)) => return Err(Stop::Manifest(fault)),
        Err(AmendFault::Store(fault)) => return Err(Stop::Store(fault)),
    };
    let line = format!(in alloc; "added {count}\n")?;
    Ok(Ended::done(line.into_bytes()))
}

// `as-of --store FILE MOMENT`: rebuilds the registry as of a moment. The text of the end says where
// its chain ends then.
fn move_to<S: Alter>(
    alloc: Global,
    desk: &mut Desk<S>,
    moment: Option<i64>,
) -> Result<Ended, Stop> {
    desk.as_of(alloc, moment)?;
    let status = desk.status(alloc)?;
    let line = end_line(alloc, status.end)?;
    Ok(Ended::done(line.into_bytes()))
}

/// `report --store FILE WHAT` and `export --store FILE KIND`: the text of a report.
pub(crate) fn read_report<R: Reads>(
    alloc: Global,
    reader: &mut R,
    what: Report,
) -> Result<Ended, Stop> {
    Ok(Ended::done(report(alloc, reader, what)?))
}
