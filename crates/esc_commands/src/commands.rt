//! The commands, from the words to the status.

use crate::desk::read_report;
use crate::ended::Ended;
use crate::run::Run;
use esc_arguments::{
    Command, Invocation, Stop, invocation_of, matches_of, or_stop, print_error, print_stop,
};
use esc_cli::{Asked, USAGE};
use esc_desk::{Desk, Reads};
use esc_progress::Progress;
use esc_recovery::{
    Access, Obstacle, PathFault, check_access, close_desk, migrated_desk_at, new_desk_at,
    open_desk_at, reader_at,
};
use esc_reports::{Report, report_links};
use sqlite::{File, FileStore, Unknown};
use std::alloc::{AllocError, Global};
use std::io::Write;
use std::net::{Net, TcpListener, TcpStream};

/// Runs the program on its words, of which the first is its name. Returns the status. Help and
/// version are printed on standard output, and what is wrong with the words on standard error.
pub fn run_words<'a, N, O, E>(
    rt: &'a HostRuntime,
    net: &'a N,
    words: &[String],
    out: &'a mut O,
    err: &'a mut E,
) -> u8
where
    N: Net<Listener = TcpListener, Stream = TcpStream>,
    O: Write,
    E: Write,
{
    let matches = match matches_of(rt.alloc(), words) {
        Ok(matches) => matches,
        Err(error) => return print_error(rt, &error, out, err),
    };
    let asked = Asked::of(&matches);
    match invocation_of(rt, &matches) {
        Ok(Some(invocation)) => {
            let mut run = Run {
                rt,
                net,
                out,
                err,
                asked,
                progress: Progress::new(rt, invocation.is_watched),
            };
            run.finish(&invocation)
        }
        Ok(None) => USAGE,
        Err(stop) => print_stop(rt, err, asked, &stop),
    }
}

impl<N, O, E> Run<'_, N, O, E>
where
    N: Net<Listener = TcpListener, Stream = TcpStream>,
    O: Write,
    E: Write,
{
    // Does what is asked for. Returns the status.
    fn finish(&mut self, invocation: &Invocation<'_>) -> u8 {
        match self.perform(invocation) {
            Ok(status) => status,
            Err(stop) => print_stop(self.rt, self.err, self.asked, &stop),
        }
    }

    // Does what is asked for, and prints what that leaves to be printed.
    fn perform(&mut self, invocation: &Invocation<'_>) -> Result<u8, Stop> {
        let ended = self.use_store(invocation.store, &invocation.command)?;
        self.print(&ended.text)?;
        Ok(ended.status)
    }

    // Does a command with the store at a path: a report with a reader, and every other command with
    // a desk.
    fn use_store(&mut self, path: &str, command: &Command<'_>) -> Result<Ended, Stop> {
        self.progress.tell_opening(path);
        match command {
            Command::Report(report) => self.read_store(path, *report),
            _ => self.use_desk_at(path, command),
        }
    }

    // Makes a report of the store at a path, which is not closed: nothing was written.
    fn read_store(&mut self, path: &str, report: Report) -> Result<Ended, Stop> {
        match reader_at(self.rt, path, Unknown) {
            Ok(mut reader) => self.read_by(&mut reader, report),
            Err(fault) => Err(stop_of(self.rt, path, Access::Read, fault)),
        }
    }

    fn read_by<R: Reads>(&mut self, reader: &mut R, report: Report) -> Result<Ended, Stop> {
        match report {
            Report::Export(kind) => self.print_export(reader, kind),
            Report::Links => self.read_links(reader),
            _ => read_report(self.rt.alloc(), reader, report),
        }
    }

    fn read_links<R: Reads>(&mut self, reader: &mut R) -> Result<Ended, Stop> {
        let text = report_links(self.rt.alloc(), reader, &mut self.progress)?;
        Ok(Ended::done(text))
    }

    // Opens the store at a path, or makes it, and does a command with its desk.
    fn use_desk_at(&mut self, path: &str, command: &Command<'_>) -> Result<Ended, Stop> {
        let line = made_line(self.rt.alloc(), command)?;
        match opened(self.rt, path, command) {
            Ok(desk) => self.finish_desk(desk, command, line),
            Err(fault) => Err(stop_of(self.rt, path, Access::Write, fault)),
        }
    }

    // Does a command with the desk of its store, and closes it: what is still in its log is copied
    // into the database. What was answered before a stop is kept, and a stop is reported rather
    // than a close that fails after it.
    fn finish_desk(
        &mut self,
        mut desk: Desk<FileStore<File>>,
        command: &Command<'_>,
        line: Vec<u8>,
    ) -> Result<Ended, Stop> {
        let outcome = self.use_desk(&mut desk, command, line);
        let closed = close_desk(desk);
        let ended = outcome?;
        match closed {
            Err(fault) if !makes_store(command) => Err(Stop::Store(fault)),
            _ => Ok(ended),
        }
    }
}

// Whether a command makes a store. One that was made is in the file or in its log, so a close that
// fails refuses nothing.
fn makes_store(command: &Command<'_>) -> bool {
    matches!(command, Command::Init { .. } | Command::Migrate)
}

// The line that is printed once a store is made, and no text for another command. It is written
// before, so that no memory is wanted once the store is there.
fn made_line(alloc: Global, command: &Command<'_>) -> Result<Vec<u8>, AllocError> {
    match command {
        Command::Init { manifest } => {
            let count = manifest.rows().len();
            let line = format!(in alloc; "listed {count}\n")?;
            Ok(line.into_bytes())
        }
        Command::Migrate => {
            let line = String::from_str(alloc, "migrated\n")?;
            Ok(line.into_bytes())
        }
        _ => Ok(Vec::new(alloc)),
    }
}

// The desk over the store at a path, which the command opens or makes.
fn opened(
    rt: &HostRuntime,
    path: &str,
    command: &Command<'_>,
) -> Result<Desk<FileStore<File>>, PathFault> {
    match command {
        Command::Init { manifest } => new_desk_at(rt, path, Unknown, manifest),
        Command::Migrate => migrated_desk_at(rt, path, Unknown),
        _ => open_desk_at(rt, path, Unknown),
    }
}

// Why there is no desk or no reader: `E1` if the system doesn't let the file be opened as the
// command needs it, else the store's fault.
fn stop_of(rt: &HostRuntime, path: &str, needed: Access, fault: PathFault) -> Stop {
    match fault {
        PathFault::Missing => Stop::Missing,
        PathFault::Store(fault) => Stop::Store(fault),
        PathFault::Unopened(Obstacle::NoFileName) => Stop::Unopened(Obstacle::NoFileName),
        PathFault::Unopened(obstacle) => or_stop(rt, path, check_access(rt, path, needed))
            .err()
            .unwrap_or(Stop::Unopened(obstacle)),
    }
}
