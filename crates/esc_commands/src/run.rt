//! What every command works with.

use esc_arguments::{Stop, or_stop};
use esc_cli::{Asked, OneLine, Why, print_refusal};
use esc_progress::Progress;
use std::io::Write;

/// One run of the program: the runtime, the network, the two streams that it writes to, what is
/// asked for, and what tells how far that is. The commands are its methods, each in its module.
#[derive(Drop)]
pub(crate) struct Run<'a, N, O, E> {
    pub rt: &'a HostRuntime,
    pub net: &'a N,
    pub out: &'a mut O,
    pub err: &'a mut E,
    pub asked: Asked<'a>,
    pub progress: Progress<'a>,
}

impl<N, O: Write, E: Write> Run<'_, N, O, E> {
    /// Prints on standard output, whose path is `-`.
    pub fn print(&mut self, text: &[u8]) -> Result<(), Stop> {
        or_stop(self.rt, "-", self.out.write_all(text))
    }

    /// Prints a refusal of a name that doesn't stop the program, and why if that is asked for. A
    /// failure of standard error is ignored: there is nowhere to report it.
    pub fn print_refusal(&mut self, refusal: &str, name: &str, cause: &str) -> Result<(), Stop> {
        let line = format!(in self.rt.alloc(); "{refusal} {}\n", OneLine(name))?;
        let why = Why {
            command: self.asked.command,
            path: name,
            cause,
        };
        let is_told = self.asked.is_verbose;
        let _ = print_refusal(self.rt.alloc(), self.err, line.as_str(), is_told, &why);
        Ok(())
    }
}
