//! The words that a program is given.

use crate::answers::USAGE;
use std::env;
use std::io::{Error, ErrorKind, Write};

/// The words of the process, but that this name stands first. `None` if one of them is not UTF-8.
/// Fails if memory is refused, with the kind `OutOfMemory`.
pub fn given_words(rt: &HostRuntime, name: &str) -> Result<Option<Vec<String>>, Error> {
    let all = match env::args(rt) {
        Ok(all) => all,
        Err(error) if error.kind() == ErrorKind::OutOfMemory => return Err(error),
        Err(_) => return Ok(None),
    };
    let mut given = Vec::new(rt.alloc());
    given.push(String::from_str(rt.alloc(), name)?)?;
    for word in all.skip(1) {
        given.push(word)?;
    }
    Ok(Some(given))
}

/// Prints that a word is not UTF-8, as `clap` does of such a word. Returns the status.
pub fn print_invalid_utf8<E: Write>(err: &mut E) -> u8 {
    // A failure of standard error is ignored: there is nowhere to report it.
    let _ = err.write_all(
        b"error: invalid UTF-8 was detected in one or more arguments\n\nFor more information, try '--help'.\n",
    );
    USAGE
}
