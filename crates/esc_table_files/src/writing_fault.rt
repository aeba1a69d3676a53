//! Why a table was not written.

ghost use Rattle.std.specs.Prelude.{◌≡◌};
ghost use Rattle.esc_table_files.specs.declared.writing_fault.WritingFault.TheVariants.{NoMemory as no_memory};
ghost use Rattle.esc_table_files.specs.declared.writing_fault.WritingFault.TheVariants.{Output as of_output};

use esc_bundle::NoMemory;
use sqlite::ErrorCode;
use std::alloc::{AllocError, AllocFailed};
use std::io;

/// Why a table was not written.
#[derive(Debug, Drop)]
pub enum WritingFault<E> {
    /// The source of the objects failed, and returned this.
    Source(E),
    /// What is written to failed.
    Output(io::Error),
    /// Out of memory.
    NoMemory,
}

impl<E> From<NoMemory> for WritingFault<E> {
    ghost from_gives = { λ _ e. e ≡ no_memory };

    fn from(_error: NoMemory) -> WritingFault<E> {
        WritingFault::NoMemory
    }
}

impl<E> From<AllocError> for WritingFault<E> {
    fn from(_error: AllocError) -> WritingFault<E> {
        WritingFault::NoMemory
    }
}

impl<E, T: Drop> From<AllocFailed<T>> for WritingFault<E> {
    fn from(_error: AllocFailed<T>) -> WritingFault<E> {
        WritingFault::NoMemory
    }
}

impl<E> From<io::Error> for WritingFault<E> {
    ghost from_gives = { λ error e. e ≡ of_output error };

    fn from(error: io::Error) -> WritingFault<E> {
        WritingFault::Output(error)
    }
}

impl<E> From<sqlite::Error> for WritingFault<E> {
    fn from(error: sqlite::Error) -> WritingFault<E> {
        match error {
            sqlite::Error::SqliteFailure(ErrorCode::OutOfMemory) => WritingFault::NoMemory,
            _ => WritingFault::Output(io::Error::from(io::ErrorKind::Other)),
        }
    }
}
