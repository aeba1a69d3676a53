//! Why the files of a store aren't opened.

use std::{fmt, io};

/// Why the files of a store aren't opened. Its text is for a person.
#[derive(Clone, Copy, Debug, PartialEq, Eq)]
pub enum Obstacle {
    /// The path means something else to SQLite than a file of that name (`:memory:`, a URI).
    NoFileName,
    /// A rollback journal stands beside the file, which only SQLite can play back.
    Journal,
    /// The file or its log is no plain file with one name: it is a folder, a pipe or a device, has
    /// a hard link, or is a link where none is followed.
    NotPlain,
    /// The system refused, by its error of this number.
    System(i32),
    /// Neither the system nor the database says why.
    Unknown,
}

impl From<io::Error> for Obstacle {
    fn from(error: io::Error) -> Obstacle {
        match error.raw_os_error() {
            Some(number) => Obstacle::System(number),
            None if error.kind() == io::ErrorKind::Unsupported => Obstacle::NotPlain,
            None => Obstacle::Unknown,
        }
    }
}

impl fmt::Display for Obstacle {
    fn fmt<W: fmt::Write>(&self, f: &mut fmt::Formatter<W>) -> fmt::Result {
        match *self {
            Obstacle::NoFileName => f.write_str("this names no file to SQLite"),
            Obstacle::Journal => f.write_str("a rollback journal stands beside the file"),
            Obstacle::NotPlain => f.write_str("the file or its log is no plain file with one name"),
            Obstacle::System(number) => write!(
                f,
                "the file or its log: {}",
                io::Error::from_raw_os_error(number)
            ),
            Obstacle::Unknown => f.write_str("the file or its log cannot be opened"),
        }
    }
}
