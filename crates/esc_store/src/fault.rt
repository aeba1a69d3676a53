//! Why a call of the store fails.

ghost use Rattle.std.specs.Prelude.{◌≡◌};
ghost use Rattle.esc_store.specs.Faults.{fault_of};
ghost use Rattle.esc_store.specs.declared.fault.StoreFault.TheVariants.{NoMemory as out_of_memory};

use crate::cause::Cause;
use esc_bundle::NoMemory;
use sqlite::{Error, ErrorCode};
use std::alloc::{AllocError, AllocFailed};
use std::fmt;

/// Why a call of the store fails (this project's profile). Its text is the code that a program
/// prints, `S1` to `S5`.
#[derive(Clone, Copy, Debug, PartialEq, Eq)]
pub enum StoreFault {
    /// `S1`: the database failed for another reason than memory, or holds what no store writes;
    /// what is to be kept has no form in its tables (an object without a record); `create`, `open`
    /// or `migrate` was called in a transaction; or an earlier part of the same change failed.
    Failed(Cause),
    /// `S2`: out of memory, here or in the database.
    NoMemory,
    /// `S3`. `create`: the database has a table, an index or a view. `open`: it is no store of this
    /// version. `from_trees`: the trees have another version or none. `migrate`: it is no store of
    /// version 1.
    NotAStore,
    /// `S4`: the store has 1,000,000,000 receipts, so there is no room for one more.
    NoRoom,
    /// `S5`: 1,024 bodies are parked, so there is no place for one more. No call of this crate
    /// returns it: the desk counts them.
    NoPlace,
}

impl fmt::Display for StoreFault {
    fn fmt<W: fmt::Write>(&self, f: &mut fmt::Formatter<W>) -> fmt::Result {
        f.write_str(match *self {
            StoreFault::Failed(_) => "S1",
            StoreFault::NoMemory => "S2",
            StoreFault::NotAStore => "S3",
            StoreFault::NoRoom => "S4",
            StoreFault::NoPlace => "S5",
        })
    }
}

impl std::error::Error for StoreFault {}

/// Why a call of the store failed, in words for a person.
#[derive(Clone, Copy)]
pub struct Reason(pub StoreFault);

impl fmt::Display for Reason {
    fn fmt<W: fmt::Write>(&self, f: &mut fmt::Formatter<W>) -> fmt::Result {
        match self.0 {
            StoreFault::Failed(cause) => write!(f, "{cause}"),
            StoreFault::NoMemory => f.write_str("memory was refused"),
            StoreFault::NotAStore => f.write_str("not the store that this command is for"),
            StoreFault::NoRoom => f.write_str("the store has 1,000,000,000 receipts"),
            StoreFault::NoPlace => f.write_str("1,024 bodies are parked"),
        }
    }
}

impl From<Error> for StoreFault {
    ghost from_gives = { λ error fault. fault ≡ fault_of error };

    fn from(error: Error) -> StoreFault {
        match error {
            Error::SqliteFailure(ErrorCode::OutOfMemory) => StoreFault::NoMemory,
            error => StoreFault::Failed(Cause::Database(error)),
        }
    }
}

impl From<NoMemory> for StoreFault {
    ghost from_gives = { λ _ fault. fault ≡ out_of_memory };

    fn from(_error: NoMemory) -> StoreFault {
        StoreFault::NoMemory
    }
}

impl From<AllocError> for StoreFault {
    ghost from_gives = { λ _ fault. fault ≡ out_of_memory };

    fn from(_error: AllocError) -> StoreFault {
        StoreFault::NoMemory
    }
}

impl<T: Drop> From<AllocFailed<T>> for StoreFault {
    ghost from_gives = { λ _ fault. fault ≡ out_of_memory };

    fn from(_error: AllocFailed<T>) -> StoreFault {
        StoreFault::NoMemory
    }
}
