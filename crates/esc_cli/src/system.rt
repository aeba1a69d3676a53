//! What the system says of a file or a folder, in words.

use std::fmt;
use std::io::{Error, ErrorKind};

/// Why the system, or the reading of plain files, refuses a file or a folder. What an operator can
/// do something about is said in this project's words, the rest in the system's.
#[derive(Clone, Copy)]
pub struct SystemCause(pub Error);

impl fmt::Display for SystemCause {
    fn fmt<W: fmt::Write>(&self, f: &mut fmt::Formatter<W>) -> fmt::Result {
        f.write_str(match self.0.kind() {
            ErrorKind::NotFound => "there is no such file or folder",
            ErrorKind::PermissionDenied => "permission denied",
            ErrorKind::IsADirectory => "it is a folder",
            ErrorKind::NotADirectory => "it, or what stands before it in the path, is no folder",
            ErrorKind::AlreadyExists => "something is there already",
            ErrorKind::DirectoryNotEmpty => "the folder is not empty",
            ErrorKind::StorageFull => "no space is left on the disk",
            ErrorKind::QuotaExceeded => "no space is left of what the user may have",
            ErrorKind::FileTooLarge => "the file would be larger than is allowed",
            ErrorKind::ReadOnlyFilesystem => "the file system is read only",
            ErrorKind::AddrInUse => "the port is in use",
            ErrorKind::BrokenPipe => "nobody reads it any more",
            ErrorKind::Unsupported if self.0.raw_os_error().is_none() => "it is no plain file",
            ErrorKind::Other => "the database that is written failed",
            _ => return write!(f, "{}", self.0),
        })
    }
}
