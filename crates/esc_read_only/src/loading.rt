//! A file that is read whole.

use std::alloc::Global;
use std::fs::File;
use std::io::{self, ErrorKind};
use std::os::unix::fs::FileExt;

/// The bytes of a file. An error where it has fewer than it said, or memory is refused.
pub(crate) fn loaded(alloc: Global, file: &File) -> io::Result<Vec<u8>> {
    let length = file.metadata()?.len() as usize;
    let Ok(mut bytes) = vec![in alloc; 0; length] else {
        return Err(ErrorKind::OutOfMemory.into());
    };
    file.read_exact_at(&mut bytes, 0)?;
    Ok(bytes)
}
