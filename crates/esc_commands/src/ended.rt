//! What a command leaves at its end.

use esc_cli::DONE;
use std::alloc::Global;

/// The end of a command that wasn't stopped.
#[derive(Drop)]
pub(crate) struct Ended {
    /// The program's status.
    pub status: u8,
    /// What is printed once the store is closed.
    pub text: Vec<u8>,
}

impl Ended {
    /// The end of a command that did all that was asked for, and leaves a text to be printed.
    pub fn done(text: Vec<u8>) -> Ended {
        Ended { status: DONE, text }
    }

    /// The end of a command that leaves nothing to be printed. Doesn't allocate.
    pub fn silent(alloc: Global, status: u8) -> Ended {
        Ended {
            status,
            text: Vec::new(alloc),
        }
    }
}
