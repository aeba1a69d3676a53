//! Rows of tables as values.

ghost use Rattle.std.specs.Prelude.{◌≡◌, ℕ, List, length, IfOk, IfErr};
ghost use Rattle.sqlite_value.specs.declared.value.Value.TheVariants.{Blob};
ghost use Rattle.sqlite_value.specs.Order.{Row as Entry, column};

use sqlite::types::{FromSql, FromSqlError};
use sqlite_trees::error::StoreError;
use sqlite_value::row::Row;
use sqlite_value::value::ValueRef;
use std::alloc::{AllocError, AllocFailed, Global};

/// Why a read by a scan fails.
#[derive(Clone, Copy, Debug, PartialEq, Eq)]
pub enum ScanError {
    /// The store failed, or memory ran out.
    Store(StoreError),
    /// A row is none of its table: a value is of another type, a number is not below 2^32, or a
    /// text is not UTF-8.
    Foreign,
}

impl From<StoreError> for ScanError {
    ghost use Rattle.esc_scan.specs.declared.rows.ScanError.TheVariants.{Store};

    ghost from_gives = { λ error given. given ≡ Store error };

    fn from(error: StoreError) -> ScanError {
        ScanError::Store(error)
    }
}

impl From<AllocError> for ScanError {
    ghost use Rattle.sqlite_trees.specs.declared.error.StoreError.TheVariants.{OutOfMemory};
    ghost use Rattle.esc_scan.specs.declared.rows.ScanError.TheVariants.{Store};

    ghost from_gives = { λ _ given. given ≡ Store OutOfMemory };

    fn from(_error: AllocError) -> ScanError {
        ScanError::Store(StoreError::OutOfMemory)
    }
}

impl<T: Drop> From<AllocFailed<T>> for ScanError {
    ghost use Rattle.sqlite_trees.specs.declared.error.StoreError.TheVariants.{OutOfMemory};
    ghost use Rattle.esc_scan.specs.declared.rows.ScanError.TheVariants.{Store};

    ghost from_gives = { λ _ given. given ≡ Store OutOfMemory };

    fn from(_error: AllocFailed<T>) -> ScanError {
        ScanError::Store(StoreError::OutOfMemory)
    }
}

/// A value that is read from a row of a table: `is_read` relates the row, as its tree keeps it, to
/// the value.
pub trait FromEntry: Drop {
    ghost is_read: { Entry → Self → Type 0 };

    /// Reads a row. `Foreign` where it is none of its table.
    fn from_entry(alloc: Global, row: &Row) -> Result<Self, ScanError>
        ensures { IfOk result (λ value. is_read row.now value) };
}

/// The value in a column, with the rowid as column 0. `Foreign` where it is not of this type.
pub fn value_at<T: FromSql>(alloc: Global, row: &Row, at: usize) -> Result<T, ScanError>
    ensures value { IfOk result (T.FromSql.reads_as (column row.now at)) }
    ensures foreign { IfErr result (λ e. e ≡ ScanError.Foreign
        → ¬ T.FromSql.is_readable (column row.now at)) }
{
    match T::column_result(alloc, row.get(at)) {
        Ok(value) => Ok(value),
        Err(FromSqlError::OutOfMemory) => Err(ScanError::Store(StoreError::OutOfMemory)),
        Err(_) => Err(ScanError::Foreign),
    }
}

/// How many bytes a column has. They are not copied. `Foreign` where it is no blob.
pub(crate) fn size_at(row: &Row, at: usize) -> Result<u64, ScanError>
    ensures { IfOk result (λ size. (b : List ℕ) → column row.now at ≡ Blob b → size ≡ length b) }
{
    match row.get(at) {
        ValueRef::Blob(bytes) => Ok(bytes.len() as u64),
        _ => Err(ScanError::Foreign),
    }
}
