//! A file's bytes in memory, where they are written over in the file's place.

ghost use Rattle.std.specs.Prelude.{◌≡◌, ◌<◌, ◌≤◌, length, take, drop, IfOk, OnOk};
ghost use Rattle.sqlite_disk.specs.Disk.{Holds, Torn, Cut};

use std::io::{self, ErrorKind};

/// Gives bytes from an offset on, as many as there are room and bytes for, and says how many.
/// There is at least one, or it is an error.
pub(crate) fn give(copy: &[u8], at: usize, buf: &mut [u8]) -> io::Result<usize>
    requires { 0 < length buf.old }
    ensures count { IfOk result (λ n. (0 < n) × (n ≤ length buf.old) × (at < length copy.now)) }
    ensures bytes { IfOk result (λ n. take n buf.new ≡ take n (drop at copy.now)) }
{
    if at >= copy.len() {
        return Err(ErrorKind::UnexpectedEof.into());
    }
    let count = buf.len().min(copy.len() - at);
    buf[..count].copy_from_slice(&copy[at..at + count]);
    Ok(count)
}

/// Writes bytes at an offset, between which and the end there is nothing but zeros.
pub(crate) fn put(copy: &mut Vec<u8>, at: usize, bytes: &[u8]) -> io::Result<()>
    ensures written { OnOk result (Holds copy.new.items at bytes.now) }
    ensures others { Torn at (length bytes.now) copy.old.items copy.new.items }
{
    let Some(end) = at.checked_add(bytes.len()) else {
        return Err(ErrorKind::OutOfMemory.into());
    };
    if copy.len() < end {
        cut(copy, end)?;
    }
    copy[at..end].copy_from_slice(bytes);
    Ok(())
}

/// Cuts the bytes to a length, or fills them up with zeros.
pub(crate) fn cut(copy: &mut Vec<u8>, len: usize) -> io::Result<()>
    ensures len { OnOk result (length copy.new.items ≡ len) }
    ensures others { Cut len copy.old.items copy.new.items }
{
    match copy.resize(len, 0) {
        Ok(()) => Ok(()),
        Err(_) => Err(ErrorKind::OutOfMemory.into()),
    }
}
