//! Where a file's bytes are.

ghost use Rattle.std.specs.Prelude.{◌≡◌, ◌<◌, ◌≤◌, ◌^◌, length, take, drop, is_some};
ghost use Rattle.std.specs.Prelude.{IsSome, IfSome, IfOk, OnOk};
ghost use Rattle.sqlite_disk.specs.Disk.{Holds, Torn, Cut};

use crate::copy::{cut, give, put};
use std::fs::File;
use std::io::{self, ErrorKind};
use std::os::unix::fs::FileExt;

const MAX_OFFSET: usize = (1 << 63) - 1;

/// Where a file's bytes are.
#[derive(Drop)]
pub enum Content {
    /// In the file. They are not written over.
    File(File),
    /// In memory, where they are written over. The file is kept open for its lock.
    Copy(Vec<u8>, Option<File>),
}

impl Content {
    ghost use Rattle.esc_read_only.specs.Contents.{copied};

    /// How many bytes there are.
    pub(crate) fn len(&self) -> io::Result<usize>
        ensures copy { IfOk result (λ n. IfSome (copied self.now) (λ copy. n ≡ length copy)) }
    {
        match self {
            Content::File(file) => Ok(file.metadata()?.len() as usize),
            Content::Copy(copy, _) => Ok(copy.len()),
        }
    }

    /// Reads from an offset on, at least one byte, and says how many.
    pub(crate) fn read(&self, at: usize, buf: &mut [u8]) -> io::Result<usize>
        requires { 0 < length buf.old }
        ensures count { IfOk result (λ n. (0 < n) × (n ≤ length buf.old) × (at < 2 ^ 63)) }
        ensures copy { IfOk result (λ n. IfSome (copied self.now)
            (λ copy. take n buf.new ≡ take n (drop at copy))) }
    {
        if at > MAX_OFFSET {
            return Err(ErrorKind::InvalidInput.into());
        }
        match self {
            Content::File(file) => read_some(file, at, buf),
            Content::Copy(copy, _) => give(copy, at, buf),
        }
    }

    /// Writes bytes into the copy, and says how many: all. Where there is none it is an error.
    pub(crate) fn write(&mut self, at: usize, bytes: &[u8]) -> io::Result<usize>
        requires { 0 < length bytes.now }
        ensures count { IfOk result (λ n. (n ≡ length bytes.now) × (at < 2 ^ 63)) }
        ensures copy { OnOk result (IsSome (copied self.old)) }
        ensures written { OnOk result (IfSome (copied self.new)
            (λ copy. Holds copy at bytes.now)) }
        ensures others { IfSome (copied self.old) (λ old. IfSome (copied self.new)
            (λ new. Torn at (length bytes.now) old new)) }
        ensures same { is_some (copied self.new) ≡ is_some (copied self.old) }
    {
        if at > MAX_OFFSET {
            return Err(ErrorKind::InvalidInput.into());
        }
        match self {
            Content::File(_) => Err(ErrorKind::ReadOnlyFilesystem.into()),
            Content::Copy(copy, _) => {
                put(copy, at, bytes)?;
                Ok(bytes.len())
            }
        }
    }

    /// Cuts or lengthens the copy. Where there is none it is an error.
    pub(crate) fn resize(&mut self, len: usize) -> io::Result<()>
        ensures copy { OnOk result (IsSome (copied self.old)) }
        ensures len { OnOk result (IfSome (copied self.new) (λ copy. length copy ≡ len)) }
        ensures others { IfSome (copied self.old) (λ old. IfSome (copied self.new)
            (λ new. Cut len old new)) }
        ensures same { is_some (copied self.new) ≡ is_some (copied self.old) }
    {
        match self {
            Content::File(_) => Err(ErrorKind::ReadOnlyFilesystem.into()),
            Content::Copy(copy, _) => cut(copy, len),
        }
    }
}

// Reads from an offset of a file on, at least one byte, and says how many.
fn read_some(file: &File, at: usize, buf: &mut [u8]) -> io::Result<usize>
    ensures { IfOk result (λ n. (0 < n) × (n ≤ length buf.old)) }
{
    match file.read_at(buf, at as u64)? {
        0 => Err(ErrorKind::UnexpectedEof.into()),
        count => Ok(count),
    }
}
