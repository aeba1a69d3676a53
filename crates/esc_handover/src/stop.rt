//! What the program stops for, and its statuses.

use esc_bundle::NoMemory;
use esc_check::StreamFault;
use esc_cli::{Asked, OneLine, SystemCause, Why, print_refusal};
use esc_deposit::BundleRefusal;
use esc_store::{Obstacle, Reason, StoreFault};
use esc_table_files::LayoutFault;
use std::alloc::{AllocError, AllocFailed, Global};
use std::fmt;
use std::io::{Error, ErrorKind, Write};

/// The tables aren't given as what was asked for, or the registry isn't to be taken over as it is.
pub const REFUSED: u8 = 1;

/// The store or a file failed.
const STOPPED: u8 = 3;

/// What the program stops for.
#[derive(Debug, Drop)]
pub enum Stop {
    /// `E1`: a file or folder can't be read or written, by this error. Standard output is `-`.
    Unreadable {
        path: String,
        error: Error,
    },
    /// `E3`: the word is no moment.
    Moment(String),
    /// `S1` to `S3`: the store fails, or memory was refused.
    Store(StoreFault),
    /// `S1`: the files of the store aren't opened.
    Unopened(Obstacle),
    /// `S3`: there is no store's file.
    Missing,
    /// The tables are no bundle, which was to be at this path.
    Unbundled {
        refusal: BundleRefusal,
        path: String,
    },
    /// `H7`: there is no chain, and so no moment that the tables are of.
    Chainless,
    /// `H9`: two tables are called alike but for case, and so would have one file.
    Alike(String),
    /// `H10`: this table can't be one of a database.
    Undatabased(String),
    /// `H11`: PostgreSQL can't load this table.
    Unloadable(String),
}

impl Stop {
    /// Out of memory: `S2`.
    pub const NO_MEMORY: Stop = Stop::Store(StoreFault::NoMemory);

    // The stop for a path that can't be read or written.
    fn at(rt: &HostRuntime, path: &str, error: Error) -> Stop {
        if error.kind() == ErrorKind::OutOfMemory {
            return Stop::NO_MEMORY;
        }
        String::from_str(rt.alloc(), path).map_or(
            Stop::NO_MEMORY,
            |path| Stop::Unreadable { path, error },
        )
    }

    /// The tables are no bundle, which was to be at this path.
    pub(crate) fn unbundled(alloc: Global, refusal: BundleRefusal, path: &str) -> Stop {
        String::from_str(alloc, path).map_or(
            Stop::NO_MEMORY,
            |path| Stop::Unbundled { refusal, path },
        )
    }

    /// The program's status.
    pub fn status(&self) -> u8 {
        match self {
            Stop::Unreadable { .. } | Stop::Store(_) | Stop::Unopened(_) | Stop::Missing => STOPPED,
            Stop::Unbundled {
                refusal: BundleRefusal::NoMemory,
                ..
            } => STOPPED,
            Stop::Moment(_) | Stop::Unbundled { .. } | Stop::Chainless => REFUSED,
            Stop::Alike(_) | Stop::Undatabased(_) | Stop::Unloadable(_) => REFUSED,
        }
    }

    // Whether there is more to say of it than its line has: of all that stop the program.
    fn has_cause(&self) -> bool {
        self.status() == STOPPED
    }
}

impl fmt::Display for Stop {
    fn fmt<W: fmt::Write>(&self, f: &mut fmt::Formatter<W>) -> fmt::Result {
        match self {
            Stop::Unreadable { path, .. } => write!(f, "E1 {}", OneLine(path.as_str())),
            Stop::Moment(word) if word.is_empty() => f.write_str("E3 (an empty moment)"),
            Stop::Moment(word) => write!(f, "E3 {}", OneLine(word.as_str())),
            Stop::Store(fault) => write!(f, "{fault}"),
            Stop::Unopened(_) => f.write_str("S1"),
            Stop::Missing => f.write_str("S3"),
            Stop::Unbundled { refusal, path } => fmt_unbundled(f, refusal, OneLine(path.as_str())),
            Stop::Chainless => f.write_str("H7"),
            Stop::Alike(table) => write!(f, "H9 {}", OneLine(table.as_str())),
            Stop::Undatabased(table) => write!(f, "H10 {}", OneLine(table.as_str())),
            Stop::Unloadable(table) => write!(f, "H11 {}", OneLine(table.as_str())),
        }
    }
}

fn fmt_unbundled<W: fmt::Write>(
    f: &mut fmt::Formatter<W>,
    refusal: &BundleRefusal,
    path: OneLine<'_>,
) -> fmt::Result {
    match refusal {
        BundleRefusal::Refused(refusal) => write!(f, "{refusal} {path}"),
        BundleRefusal::Mixed(table) => write!(f, "H4 {}", OneLine(table.as_str())),
        BundleRefusal::Unkeyed(table) => write!(f, "H5 {}", OneLine(table.as_str())),
        BundleRefusal::Marked(table) => write!(f, "H6 {}", OneLine(table.as_str())),
        BundleRefusal::Unlike => write!(f, "H8 {path}"),
        BundleRefusal::Oversized { refusal, kind, key } => {
            let (kind, key) = (kind.name(), OneLine(key.as_str()));
            write!(f, "{refusal} {path} {kind} {key}")
        }
        BundleRefusal::TooManyParts => write!(f, "M1 {path}"),
        BundleRefusal::NoMemory => f.write_str("S2"),
    }
}

// Why a command stops.
#[derive(Clone, Copy)]
struct StopCause<'a> {
    asked: Asked<'a>,
    stop: &'a Stop,
}

impl StopCause<'_> {
    // A cause in the store.
    fn of_store<C: fmt::Display>(&self, cause: C) -> Why<'_, C> {
        Why {
            command: self.asked.command,
            path: self.asked.store,
            cause,
        }
    }
}

impl fmt::Display for StopCause<'_> {
    fn fmt<W: fmt::Write>(&self, f: &mut fmt::Formatter<W>) -> fmt::Result {
        match self.stop {
            Stop::Unreadable { path, error } => {
                let why = Why {
                    command: self.asked.command,
                    path: path.as_str(),
                    cause: SystemCause(*error),
                };
                write!(f, "{why}")
            }
            Stop::Store(fault) => write!(f, "{}", self.of_store(Reason(*fault))),
            Stop::Unopened(obstacle) => write!(f, "{}", self.of_store(*obstacle)),
            Stop::Missing => write!(f, "{}", self.of_store("there is no such file")),
            _ => write!(f, "{}", self.of_store(Reason(StoreFault::NoMemory))),
        }
    }
}

impl From<StoreFault> for Stop {
    fn from(fault: StoreFault) -> Stop {
        Stop::Store(fault)
    }
}

impl From<StreamFault<StoreFault>> for Stop {
    fn from(fault: StreamFault<StoreFault>) -> Stop {
        match fault {
            StreamFault::Source(fault) => Stop::Store(fault),
            StreamFault::NoMemory => Stop::NO_MEMORY,
        }
    }
}

impl From<LayoutFault> for Stop {
    fn from(fault: LayoutFault) -> Stop {
        match fault {
            LayoutFault::Alike(table) => Stop::Alike(table),
            LayoutFault::Undatabased(table) => Stop::Undatabased(table),
            LayoutFault::Unloadable(table) => Stop::Unloadable(table),
            LayoutFault::NoMemory => Stop::NO_MEMORY,
        }
    }
}

impl From<NoMemory> for Stop {
    fn from(_refused: NoMemory) -> Stop {
        Stop::NO_MEMORY
    }
}

impl From<AllocError> for Stop {
    fn from(_refused: AllocError) -> Stop {
        Stop::NO_MEMORY
    }
}

impl<T: Drop> From<AllocFailed<T>> for Stop {
    fn from(_refused: AllocFailed<T>) -> Stop {
        Stop::NO_MEMORY
    }
}

/// What a call at a path returned, or the stop for it: `E1 PATH`, or `S2` where memory was refused.
pub fn or_stop<T>(rt: &HostRuntime, path: &str, outcome: Result<T, Error>) -> Result<T, Stop> {
    outcome.map_err(|error| Stop::at(rt, path, error))
}

/// Prints what the program stops for, and why if that is asked for. Returns the status. If there is
/// no memory for the line, it prints `S2` instead, which doesn't allocate, and returns the status of
/// that.
pub fn tell_stop<E: Write>(rt: &HostRuntime, err: &mut E, asked: Asked<'_>, stop: &Stop) -> u8 {
    let Ok(line) = format!(in rt.alloc(); "{stop}\n") else {
        let _ = err.write_all(b"S2\n");
        return STOPPED;
    };
    let is_told = asked.is_verbose && stop.has_cause();
    let cause = StopCause { asked, stop };
    // A failure of standard error is ignored: there is nowhere to report it.
    let _ = print_refusal(rt.alloc(), err, line.as_str(), is_told, &cause);
    stop.status()
}
