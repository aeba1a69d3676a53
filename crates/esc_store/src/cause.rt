//! What made a call of the store fail.

use sqlite::{Error, ErrorCode};
use sqlite_trees::error::StoreError;
use std::fmt;

const NO_SPACE: &str = "no space is left on the disk, or in what the user may have of it";

const IO_ERROR: &str = "the system failed a read or a write of the file or its log (an I/O error)";

const DAMAGED: &str = "a page of the file is damaged: it is not what was written";

const CLOSED: &str = "an earlier read or write failed, and the files were closed there";

/// A table of the store whose rows are decoded one by one.
#[derive(Clone, Copy, Debug, PartialEq, Eq)]
pub enum Table {
    /// The rows of the manifest.
    Listed,
    /// The receipts.
    Receipt,
    /// The objects, and what was at their keys before a step.
    Object,
    /// The steps of the chain.
    Step,
    /// The bodies of held rows.
    Held,
}

impl fmt::Display for Table {
    fn fmt<W: fmt::Write>(&self, f: &mut fmt::Formatter<W>) -> fmt::Result {
        f.write_str(match *self {
            Table::Listed => "listed",
            Table::Receipt => "receipt",
            Table::Object => "object",
            Table::Step => "step",
            Table::Held => "held",
        })
    }
}

/// What made a call of the store fail (this project's profile). Its text is for a person.
#[derive(Clone, Copy, Debug, PartialEq, Eq)]
pub enum Cause {
    /// The database refused a statement.
    Database(Error),
    /// The trees of the files could not be read.
    Trees(StoreError),
    /// The files can't be opened.
    Unopened,
    /// A row of a table is none that a store writes.
    ForeignRow(Table),
    /// A row that was read without SQL is none that a store writes.
    ForeignTree,
    /// Two tables contradict each other: a row of one has none in the other that it needs.
    Contradiction,
    /// A body that a row needs is not there.
    NoBody,
    /// A held body is no deposit any more.
    UnreadBody,
    /// A number is past what a table keeps.
    TooLarge,
    /// A moment is past the years 0001 to 9999.
    NoMoment,
    /// The call needs that no transaction is on.
    InTransaction,
    /// An earlier part of the change failed, and the change ended there.
    ChangeEnded,
    /// An earlier call of the walk failed.
    WalkEnded,
}

impl fmt::Display for Cause {
    fn fmt<W: fmt::Write>(&self, f: &mut fmt::Formatter<W>) -> fmt::Result {
        match self {
            Cause::Database(error) => fmt_error(f, error),
            Cause::Trees(error) => fmt_store_error(f, *error),
            Cause::ForeignRow(table) => write!(
                f,
                "a row of the table {table} is none that the desk writes"
            ),
            Cause::Unopened => f.write_str("the file or its log cannot be opened"),
            Cause::ForeignTree => f.write_str("a row is none that the desk writes"),
            Cause::Contradiction => f.write_str("two tables contradict each other"),
            Cause::NoBody => f.write_str("a body that a row needs is not there"),
            Cause::UnreadBody => f.write_str("a held body is no deposit any more"),
            Cause::TooLarge => f.write_str("a number is past what a table keeps"),
            Cause::NoMoment => f.write_str("a moment is past the years 0001 to 9999"),
            Cause::InTransaction => f.write_str("a transaction is on"),
            Cause::ChangeEnded => f.write_str("an earlier part of the change failed"),
            Cause::WalkEnded => f.write_str("an earlier read of the walk failed"),
        }
    }
}

// What an operator can do something about is said in this project's words, the rest in the
// database's.
fn fmt_error<W: fmt::Write>(f: &mut fmt::Formatter<W>, error: &Error) -> fmt::Result {
    match error {
        Error::SqliteFailure(ErrorCode::DatabaseBusy) => f.write_str("locked by another process"),
        Error::SqliteFailure(ErrorCode::DiskFull) => f.write_str(NO_SPACE),
        Error::SqliteFailure(ErrorCode::SystemIoFailure) => f.write_str(IO_ERROR),
        Error::SqliteFailure(ErrorCode::DatabaseCorrupt) => f.write_str(DAMAGED),
        Error::SqliteFailure(ErrorCode::NotADatabase) => f.write_str("not a database of the desk"),
        Error::SqliteFailure(ErrorCode::Closed) => f.write_str(CLOSED),
        error => write!(f, "{error}"),
    }
}

fn fmt_store_error<W: fmt::Write>(f: &mut fmt::Formatter<W>, error: StoreError) -> fmt::Result {
    match error {
        StoreError::Io => f.write_str(IO_ERROR),
        StoreError::Corrupt => f.write_str(DAMAGED),
        StoreError::Full => f.write_str(NO_SPACE),
        StoreError::Broken => f.write_str(CLOSED),
        error => write!(f, "{error}"),
    }
}
