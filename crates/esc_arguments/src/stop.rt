//! What the program stops for, and its statuses.

ghost use Rattle.std.specs.Prelude.{◌≡◌};
ghost use Rattle.esc_store.specs.declared.fault.StoreFault.TheVariants.{NoMemory as out_of_memory};
ghost use Rattle.esc_arguments.specs.declared.stop.Stop.TheVariants.{Store as of_store};

use esc_bundle::NoMemory;
use esc_cli::{Asked, OneLine, SystemCause, Why, print_refusal};
use esc_manifest::ManifestFault;
use esc_store::{Obstacle, Reason, StoreFault};
use std::alloc::{AllocError, AllocFailed};
use std::fmt;
use std::io::{Error, Write};

/// `M1` to `M13`, `E3`, or `take` met `N1`, `E2` or a verdict other than `A1` and went on.
pub const REFUSED: u8 = 1;

/// `S1` to `S5`, `E1`: the store or a file failed, and the program stopped there.
pub const STOPPED: u8 = 3;

/// Out of memory: `S2`.
pub const NO_MEMORY: Stop = Stop::Store(StoreFault::NoMemory);

/// What the program stops for.
#[derive(Debug, Drop)]
pub enum Stop {
    /// `E1`: a file or folder can't be read, listed or written, by this error. Standard output is
    /// `-`.
    Unreadable { path: String, error: Error },
    /// `M1` to `M13`: the manifest is refused.
    Manifest(ManifestFault),
    /// `E3`: the word is no moment.
    Moment(String),
    /// `S1` to `S5`: the store refuses.
    Store(StoreFault),
    /// `S1`: the files of the store aren't opened.
    Unopened(Obstacle),
    /// `S3`: there is no store's file.
    Missing,
}

impl Stop {
    /// The program's status.
    pub fn status(&self) -> u8 {
        match self {
            Stop::Manifest(ManifestFault::Refused { .. }) | Stop::Moment(_) => REFUSED,
            Stop::Manifest(ManifestFault::NoMemory) | Stop::Unreadable { .. } => STOPPED,
            Stop::Store(_) | Stop::Unopened(_) | Stop::Missing => STOPPED,
        }
    }

    // Whether there is more to say of it than its line has.
    fn has_cause(&self) -> bool {
        match self {
            Stop::Manifest(ManifestFault::Refused { .. }) | Stop::Moment(_) => false,
            Stop::Manifest(ManifestFault::NoMemory) | Stop::Unreadable { .. } => true,
            Stop::Store(_) | Stop::Unopened(_) | Stop::Missing => true,
        }
    }
}

impl fmt::Display for Stop {
    fn fmt<W: fmt::Write>(&self, f: &mut fmt::Formatter<W>) -> fmt::Result {
        match self {
            Stop::Unreadable { path, .. } => write!(f, "E1 {}", OneLine(path.as_str())),
            Stop::Manifest(ManifestFault::NoMemory) => f.write_str("S2"),
            Stop::Manifest(fault) => write!(f, "{fault}"),
            Stop::Moment(word) if word.is_empty() => f.write_str("E3 (an empty moment)"),
            Stop::Moment(word) => write!(f, "E3 {}", OneLine(word.as_str())),
            Stop::Store(fault) => write!(f, "{fault}"),
            Stop::Unopened(_) => f.write_str("S1"),
            Stop::Missing => f.write_str("S3"),
        }
    }
}

// Why a command stops.
#[derive(Clone, Copy)]
struct StopCause<'a> {
    asked: Asked<'a>,
    stop: &'a Stop,
}

impl StopCause<'_> {
    // A cause in the store.
    fn of_store<C: fmt::Display>(&self, cause: C) -> Why<'_, C> {
        Why {
            command: self.asked.command,
            path: self.asked.store,
            cause,
        }
    }
}

impl fmt::Display for StopCause<'_> {
    fn fmt<W: fmt::Write>(&self, f: &mut fmt::Formatter<W>) -> fmt::Result {
        match self.stop {
            Stop::Unreadable { path, error } => {
                let why = Why {
                    command: self.asked.command,
                    path: path.as_str(),
                    cause: SystemCause(*error),
                };
                write!(f, "{why}")
            }
            Stop::Store(fault) => write!(f, "{}", self.of_store(Reason(*fault))),
            Stop::Unopened(obstacle) => write!(f, "{}", self.of_store(*obstacle)),
            Stop::Missing => write!(f, "{}", self.of_store("there is no such file")),
            Stop::Manifest(ManifestFault::NoMemory) => f.write_str("memory was refused"),
            Stop::Manifest(_) | Stop::Moment(_) => Ok(()),
        }
    }
}

impl From<StoreFault> for Stop {
    ghost from_gives = { λ fault stop. stop ≡ of_store fault };

    fn from(fault: StoreFault) -> Stop {
        Stop::Store(fault)
    }
}

impl From<NoMemory> for Stop {
    ghost from_gives = { λ _ stop. stop ≡ of_store out_of_memory };

    fn from(_refused: NoMemory) -> Stop {
        NO_MEMORY
    }
}

impl From<AllocError> for Stop {
    ghost from_gives = { λ _ stop. stop ≡ of_store out_of_memory };

    fn from(_refused: AllocError) -> Stop {
        NO_MEMORY
    }
}

impl<T: Drop> From<AllocFailed<T>> for Stop {
    ghost from_gives = { λ _ stop. stop ≡ of_store out_of_memory };

    fn from(_refused: AllocFailed<T>) -> Stop {
        NO_MEMORY
    }
}

/// Prints what a command stops for, and why if that is asked for. Returns the status. If there is
/// no memory for the line, it prints `S2` instead, which doesn't allocate, and returns the status of
/// that.
pub fn print_stop<E: Write>(rt: &HostRuntime, err: &mut E, asked: Asked<'_>, stop: &Stop) -> u8 {
    let Ok(line) = format!(in rt.alloc(); "{stop}\n") else {
        let _ = err.write_all(b"S2\n");
        return STOPPED;
    };
    let is_told = asked.is_verbose && stop.has_cause();
    let cause = StopCause { asked, stop };
    // A failure of standard error is ignored: there is nowhere to report it.
    let _ = print_refusal(rt.alloc(), err, line.as_str(), is_told, &cause);
    stop.status()
}
