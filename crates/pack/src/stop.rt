//! What the program stops for, its statuses, and its two streams.

use esc_bundle::{NoMemory, Refusal as BodyRefusal};
use esc_cli::{Asked, OneLine, SystemCause, Why, print_refusal};
use esc_manifest::ManifestRefusal;
use std::alloc::{AllocError, AllocFailed};
use std::fmt;
use std::io::{Error, ErrorKind, Write};

/// A file that is refused.
pub const REFUSED: u8 = 1;

/// A file failed, or memory was refused.
const STOPPED: u8 = 3;

/// Why a file is refused by `E2`.
pub const TOO_LARGE: &str = "it has over 16,777,216 bytes";

/// What makes bundles of files that are too large for one.
const SERIES_WAY: &[u8] =
    b"larger than one bundle: unpack_rde --described makes a series of such files\n";

/// What is wrong with a file or a folder.
#[derive(Clone, Copy)]
pub enum Refusal {
    /// It can't be read or written, by this error.
    Unreadable(Error),
    /// It has no folders of the parts 1, 2 and so on.
    Unparted,
    /// It has over 16,777,216 bytes.
    TooLarge,
    /// The same of a file that is to go into a bundle.
    FileTooLarge,
    /// No bundle takes its sections, which have too many bytes or rows: this refusal.
    BundleTooLarge(BodyRefusal),
    /// It is no deposit, by this refusal.
    Unread(BodyRefusal),
    /// It begins with a row that does not name the declared fields.
    Heading,
    /// This row has another number of fields than declared, or one that is no UTF-8.
    Row(usize),
    /// The rows of a table, of which it is the first file, begin with a byte order mark.
    Marked,
    /// The description made of its files doesn't read back as it was made.
    Undescribed,
}

/// The paths of the bundles that a refusal of their rows is about.
#[derive(Drop)]
pub struct RowPaths {
    /// The bundle whose row is refused.
    pub bundle: String,
    /// The one whose row it contradicts, if the refusal is about two.
    pub other: Option<String>,
}

/// What the program stops for.
#[derive(Drop)]
pub enum Stop {
    /// What is at this path is refused; standard output is `-`.
    At {
        refusal: Refusal,
        path: String,
    },
    /// No manifest lists the deposits, by this refusal at this row. Row 0 is the whole, which has
    /// no paths.
    Unlisted {
        refusal: ManifestRefusal,
        row: u32,
        paths: Option<RowPaths>,
    },
    /// Memory was refused.
    NoMemory,
}

impl Stop {
    /// A refusal of what is at a path.
    pub fn at(rt: &HostRuntime, refusal: Refusal, path: &str) -> Stop {
        match String::from_str(rt.alloc(), path) {
            Ok(path) => Stop::At { refusal, path },
            Err(_) => Stop::NoMemory,
        }
    }

    /// A file that can't be read or written.
    pub fn unreadable(rt: &HostRuntime, path: &str, error: Error) -> Stop {
        if error.kind() == ErrorKind::OutOfMemory {
            return Stop::NoMemory;
        }
        Stop::at(rt, Refusal::Unreadable(error), path)
    }

    /// The program's status.
    pub fn status(&self) -> u8 {
        match self {
            Stop::At {
                refusal: Refusal::Unreadable(_) | Refusal::Unparted,
                ..
            }
            | Stop::NoMemory => STOPPED,
            Stop::At { .. } | Stop::Unlisted { .. } => REFUSED,
        }
    }

    // What to do instead, if there is something: a line.
    fn way(&self) -> Option<&'static [u8]> {
        match self {
            Stop::At {
                refusal: Refusal::FileTooLarge | Refusal::BundleTooLarge(_),
                ..
            } => Some(SERIES_WAY),
            _ => None,
        }
    }

    // Whether there is more to say of it than its line has.
    fn has_cause(&self) -> bool {
        match self {
            Stop::At { refusal, .. } => matches!(
                refusal,
                Refusal::Unreadable(_)
                    | Refusal::Unparted
                    | Refusal::TooLarge
                    | Refusal::FileTooLarge
            ),
            Stop::Unlisted { .. } => false,
            Stop::NoMemory => true,
        }
    }
}

impl fmt::Display for Stop {
    fn fmt<W: fmt::Write>(&self, f: &mut fmt::Formatter<W>) -> fmt::Result {
        match self {
            Stop::At { refusal, path } => fmt_at(f, *refusal, OneLine(path.as_str())),
            Stop::Unlisted {
                refusal,
                row,
                paths,
            } => fmt_unlisted(f, *refusal, *row, paths),
            Stop::NoMemory => f.write_str("S2"),
        }
    }
}

fn fmt_unlisted<W: fmt::Write>(
    f: &mut fmt::Formatter<W>,
    refusal: ManifestRefusal,
    row: u32,
    paths: &Option<RowPaths>,
) -> fmt::Result {
    let Some(RowPaths { bundle, other }) = paths else {
        return write!(f, "{refusal} row {row}");
    };
    let path = OneLine(bundle.as_str());
    match other {
        Some(other) => {
            let other = OneLine(other.as_str());
            write!(f, "{refusal} {path} row {row} against {other}")
        }
        None => write!(f, "{refusal} {path} row {row}"),
    }
}

fn fmt_at<W: fmt::Write>(
    f: &mut fmt::Formatter<W>,
    refusal: Refusal,
    path: OneLine<'_>,
) -> fmt::Result {
    let name = match refusal {
        Refusal::Unread(refusal) | Refusal::BundleTooLarge(refusal) => {
            return write!(f, "{refusal} {path}");
        }
        Refusal::Row(row) => return write!(f, "U9 {path} row {row}"),
        Refusal::Unreadable(_) | Refusal::Unparted => "E1",
        Refusal::TooLarge | Refusal::FileTooLarge => "E2",
        Refusal::Heading => "H1",
        Refusal::Marked => "H2",
        Refusal::Undescribed => "H3",
    };
    write!(f, "{name} {path}")
}

// Why a command stops.
#[derive(Clone, Copy)]
struct StopCause<'a> {
    command: &'a str,
    stop: &'a Stop,
}

impl fmt::Display for StopCause<'_> {
    fn fmt<W: fmt::Write>(&self, f: &mut fmt::Formatter<W>) -> fmt::Result {
        match self.stop {
            Stop::At { refusal, path } => {
                let why = Why {
                    command: self.command,
                    path: path.as_str(),
                    cause: RefusalCause(*refusal),
                };
                write!(f, "{why}")
            }
            Stop::NoMemory => write!(f, "{}: memory was refused", self.command),
            Stop::Unlisted { .. } => Ok(()),
        }
    }
}

// Why a path is refused.
#[derive(Clone, Copy)]
struct RefusalCause(Refusal);

impl fmt::Display for RefusalCause {
    fn fmt<W: fmt::Write>(&self, f: &mut fmt::Formatter<W>) -> fmt::Result {
        match self.0 {
            Refusal::Unreadable(error) => write!(f, "{}", SystemCause(error)),
            Refusal::Unparted => f.write_str("it has no folders part-001, part-002 and so on"),
            Refusal::TooLarge | Refusal::FileTooLarge => f.write_str(TOO_LARGE),
            _ => Ok(()),
        }
    }
}

impl From<NoMemory> for Stop {
    fn from(_refused: NoMemory) -> Stop {
        Stop::NoMemory
    }
}

impl From<AllocError> for Stop {
    fn from(_refused: AllocError) -> Stop {
        Stop::NoMemory
    }
}

impl<T: Drop> From<AllocFailed<T>> for Stop {
    fn from(_refused: AllocFailed<T>) -> Stop {
        Stop::NoMemory
    }
}

/// What came of a path, or the stop for it.
pub fn or_stop<T>(rt: &HostRuntime, path: &str, found: Result<T, Error>) -> Result<T, Stop> {
    match found {
        Ok(found) => Ok(found),
        Err(error) => Err(Stop::unreadable(rt, path, error)),
    }
}

/// Prints on standard output, whose path is `-`.
pub fn print<O: Write>(rt: &HostRuntime, out: &mut O, text: &[u8]) -> Result<(), Stop> {
    or_stop(rt, "-", out.write_all(text))
}

/// Prints what the program stops for, why if that is asked for, and what to do instead if there is
/// something. Returns the status. If there is no memory for the line, it prints `S2` instead, which doesn't allocate, and returns the status of
/// that.
pub fn tell_stop<E: Write>(rt: &HostRuntime, err: &mut E, asked: Asked<'_>, stop: &Stop) -> u8 {
    let Ok(line) = format!(in rt.alloc(); "{stop}\n") else {
        let _ = err.write_all(b"S2\n");
        return Stop::NoMemory.status();
    };
    let is_told = asked.is_verbose && stop.has_cause();
    let cause = StopCause {
        command: asked.command,
        stop,
    };
    // A failure of standard error is ignored: there is nowhere to report it.
    let _ = print_refusal(rt.alloc(), err, line.as_str(), is_told, &cause);
    if let Some(way) = stop.way() {
        let _ = err.write_all(way);
    }
    stop.status()
}
