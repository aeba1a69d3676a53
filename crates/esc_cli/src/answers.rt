//! What `clap` answers in place of a command: help, the version, or what is wrong with the words.

ghost use Rattle.std.specs.Prelude.{◌≡◌, ◌≢◌, ◌⊎◌, IfOk};
ghost use Rattle.clap.specs.Values.{kind_of};

use clap::error::ErrorKind;
use std::alloc::{AllocError, Global};
use std::io::{Error, Write};

/// All went well.
pub const DONE: u8 = 0;

/// Other words than the program knows.
pub const USAGE: u8 = 2;

/// Prints the help or the version that was asked for on standard output, or what is wrong with the
/// words on standard error. Returns the status. Fails if memory is refused, with the kind
/// `OutOfMemory`, or if standard output can't be written.
pub fn print_answer<O: Write, E: Write>(
    alloc: Global,
    answer: &clap::Error,
    out: &mut O,
    err: &mut E,
) -> Result<u8, Error>
    ensures asked { (kind_of answer.now ≡ ErrorKind.DisplayHelp)
        ⊎ (kind_of answer.now ≡ ErrorKind.DisplayVersion) → IfOk result (λ status. status ≡ 0) }
    ensures mistaken { kind_of answer.now ≢ ErrorKind.DisplayHelp
        → kind_of answer.now ≢ ErrorKind.DisplayVersion → IfOk result (λ status. status ≡ 2) }
{
    let text = text_of(alloc, answer)?;
    if answer.use_stderr() {
        // A failure of standard error is ignored: there is nowhere to report it.
        let _ = err.write_all(text.as_bytes());
        return Ok(USAGE);
    }
    out.write_all(text.as_bytes())?;
    Ok(DONE)
}

fn text_of(alloc: Global, answer: &clap::Error) -> Result<String, AllocError> {
    if answer.kind() == ErrorKind::OutOfMemory {
        return Err(AllocError);
    }
    format!(in alloc; "{answer}")
}
