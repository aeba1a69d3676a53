//! A connection to the database of a file.

ghost use Rattle.std.specs.Prelude.{true, false, IsTrue, IfOk, IfErr};
ghost use Rattle.sqlite_wal.specs.Files.{image_at};
ghost use Rattle.sqlite_std_file.specs.File.{file_is_usable, IsFresh};
ghost use Rattle.esc_read_only.specs.Untouched.{reading_is_usable, IsUnasked};
ghost use Rattle.sqlite.specs.State.{HasCleanDisk};
ghost use Rattle.sqlite.specs.Start.{FindsIn};
ghost use Rattle.sqlite.specs.Files.{file_state, IsOpened};
ghost use Rattle.esc_store.specs.Faults.{IsOpenFault};
ghost use Rattle.esc_recovery.specs.PathFaults.{IsOpeningRefusal, IsRefusal, IsUnopenedOr};

use crate::path::PathFault;
use esc_desk::StoreFault;
use esc_read_only::UntouchedFrom;
use esc_store::Obstacle;
use sqlite::{Connection, Error, ErrorCode, FileFrom, FileStore, Files, Options, Start};
use sqlite_std_file::OpenError;
use std::hash::{BuildHasher, RandomState};
use std::io::{self, ErrorKind};

/// How many pages of a database are kept in memory once they were read: 2 MB. More make no command
/// faster, and a process clears the memory of all of them when it begins.
const CACHE_PAGES: usize = 500;

/// A connection to the database of the files at a path, which are made where there are none.
/// `start` says in the contract what they hold. As `Connection::open_from`, but with fewer pages in
/// memory, and without a clock: nothing here asks SQL for the time.
pub(crate) fn connection_at<S: Start>(
    rt: &HostRuntime,
    path: &str,
    start: S,
) -> Result<Connection<FileStore<FileFrom<S>>>, PathFault>
    ensures opened { IfOk result (λ c. HasCleanDisk (file_state c) → IsOpened c) }
    ensures found { IfOk result (λ c. HasCleanDisk (file_state c)
        → FindsIn (image_at S.Start) (file_state c)) }
    ensures cause { IfErr result (IsUnopenedOr IsOpenFault) }
{
    let files = files_at(rt, path, start)?;
    let options = options(rt)?;
    match Connection::open_files_with(rt.alloc(), files, options, false) {
        Ok(connection) => Ok(connection),
        Err((error, _)) => Err(PathFault::from(error)),
    }
}

/// The files at a path, which are made where there are none. `Unopened` where the system doesn't
/// let them be read and written, or where the path means something else to SQLite than a file.
pub(crate) fn files_at<S: Start>(
    rt: &HostRuntime,
    path: &str,
    start: S,
) -> Result<Files<FileFrom<S>>, PathFault>
    ensures log { IfOk result (λ files. IsTrue (file_is_usable S.Start files.log)) }
    ensures db { IfOk result (λ files. IsTrue (file_is_usable S.Start files.db)) }
    ensures fresh { IfOk result (λ files. IsFresh true files.log × IsFresh false files.db) }
    ensures cause { IfErr result (IsUnopenedOr IsOpenFault) }
{
    check_name(path)?;
    match sqlite_std_file::open(rt, path, start) {
        Ok(files) => Ok(files),
        Err(error) => Err(why_unopened(error)),
    }
}

/// The files at a path, to be read alone: they stay as they are, and none is made, whether the
/// system lets them be written or not. `Unopened` where it doesn't let them be read, or where the
/// path means something else to SQLite than a file.
pub(crate) fn untouched_files_at<S: Start>(
    rt: &HostRuntime,
    path: &str,
    start: S,
) -> Result<Files<UntouchedFrom<S>>, PathFault>
    ensures log { IfOk result (λ files. IsTrue (reading_is_usable files.log)) }
    ensures db { IfOk result (λ files. IsTrue (reading_is_usable files.db)) }
    ensures fresh { IfOk result (λ files. IsUnasked true files.log × IsUnasked false files.db) }
    ensures cause { IfErr result (IsUnopenedOr IsOpenFault) }
{
    check_name(path)?;
    match esc_read_only::open(rt, path, start) {
        Ok(files) => Ok(files),
        Err(error) => Err(why_unopened(error)),
    }
}

// Whether a path means a file to SQLite.
fn check_name(path: &str) -> Result<(), PathFault>
    ensures cause { IfErr result (IsUnopenedOr IsOpenFault) }
{
    if path == ":memory:" || path.starts_with("file:") {
        return Err(PathFault::Unopened(Obstacle::NoFileName));
    }
    Ok(())
}

// Why files weren't opened: what the system refused, or a fault of the store.
fn why_unopened(error: OpenError) -> PathFault
    ensures why { IsOpeningRefusal error result }
    ensures cause { IsUnopenedOr IsOpenFault result }
{
    match error {
        OpenError::OutOfMemory => PathFault::Store(StoreFault::NoMemory),
        OpenError::Io(error) => why_refused(error),
        OpenError::Busy => PathFault::from(Error::SqliteFailure(ErrorCode::DatabaseBusy)),
        OpenError::HotJournal => PathFault::Unopened(Obstacle::Journal),
    }
}

fn why_refused(error: io::Error) -> PathFault
    ensures why { IsRefusal error result }
    ensures cause { IsUnopenedOr IsOpenFault result }
{
    if error.kind() == ErrorKind::OutOfMemory {
        PathFault::Store(StoreFault::NoMemory)
    } else {
        PathFault::Unopened(Obstacle::from(error))
    }
}

/// What files are opened with: a seed that is drawn at random, for the salts of a log.
pub(crate) fn options(rt: &HostRuntime) -> Result<Options, PathFault>
    ensures cause { IfErr result (IsUnopenedOr IsOpenFault) }
{
    match RandomState::new(rt) {
        Ok(state) => Ok(Options {
            cache_pages: CACHE_PAGES,
            ..Options::new(state.hash_one(&0u8))
        }),
        Err(error) => Err(why_refused(error)),
    }
}
