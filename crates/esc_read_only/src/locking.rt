//! How a file of a store is opened that stays as it is.

use os::RangeLock;
use sqlite_std_file::OpenError;
use std::fs::{self, File, OpenOptions};
use std::io::{self, ErrorKind, Read};
use std::os::fd::AsRawFd;
use std::os::unix::fs::MetadataExt;

/// The bytes that SQLite locks in a file: where they begin, and how many.
const LOCK_START: u64 = 1 << 30;

const LOCK_BYTES: u64 = 512;

/// Opens a plain file that has one name, which is no link, and locks it. `NotFound` where there is
/// none. It is the lock of one who writes where this process may write, so that no other program
/// reads or writes beside it, and else one beside which others may read.
pub(crate) fn open_locked(rt: &HostRuntime, path: &str) -> Result<File, OpenError> {
    if !fs::symlink_metadata(rt, path)?.is_file() {
        return Err(OpenError::Io(ErrorKind::Unsupported.into()));
    }
    match OpenOptions::new().read(true).write(true).open(rt, path) {
        Ok(file) => locked(rt, path, file, RangeLock::Exclusive),
        Err(error) if is_denied(&error) => {
            locked(rt, path, fs::open(rt, path)?, RangeLock::Shared)
        }
        Err(error) => Err(OpenError::Io(error)),
    }
}

// Whether a file is refused to writers alone, so that it may still be read: this user may not write
// it (EACCES), nobody may change it (EPERM), or its file system is mounted to be read alone
// (EROFS). A lock of another process refuses no opening. Any other error would meet a reader too.
fn is_denied(error: &io::Error) -> bool {
    matches!(
        error.kind(),
        ErrorKind::PermissionDenied | ErrorKind::ReadOnlyFilesystem
    )
}

// Locks a file that was opened at a path, unless it is another one than has that name by now.
fn locked(
    rt: &HostRuntime,
    path: &str,
    mut file: File,
    kind: RangeLock,
) -> Result<File, OpenError> {
    // What is meant for a standard stream that was closed must not land in the store.
    if file.as_raw_fd() <= 2 {
        file = file.try_clone()?;
    }
    let (found, named) = (file.metadata()?, fs::symlink_metadata(rt, path)?);
    let is_named = found.dev() == named.dev() && found.ino() == named.ino();
    if !is_named || !found.is_file() || found.nlink() != 1 {
        return Err(OpenError::Io(ErrorKind::Unsupported.into()));
    }
    // Where another process has a lock in the way, the answer is EAGAIN, which is `WouldBlock`, or
    // EACCES, which `try_lock_range` makes the same. Any other error, such as ENOLCK of a file
    // system without locks, is the system's.
    if os::try_lock_range(file.as_raw_fd(), kind, LOCK_START, LOCK_BYTES) == 0 {
        return Ok(file);
    }
    let error = io::Error::from_raw_os_error(os::errno());
    if error.kind() == ErrorKind::WouldBlock {
        Err(OpenError::Busy)
    } else {
        Err(OpenError::Io(error))
    }
}

/// Whether a rollback journal at a path has something to play back, or is no plain file. One that
/// is not there, is empty or begins with a zero has nothing.
pub(crate) fn has_hot_journal(rt: &HostRuntime, path: &str) -> io::Result<bool> {
    match fs::symlink_metadata(rt, path) {
        Ok(found) if found.is_file() => {}
        Ok(_) => return Ok(true),
        Err(error) if error.kind() == ErrorKind::NotFound => return Ok(false),
        Err(error) => return Err(error),
    }
    let mut first = [0];
    Ok(fs::open(rt, path)?.read(&mut first)? == 1 && first[0] != 0)
}
