//! Why an export was not written, or not whole.

ghost use Rattle.std.specs.Prelude.{◌≡◌};
ghost use Rattle.esc_check.specs.declared.export_fault.ExportFault.TheVariants.{NoMemory as no_memory};
ghost use Rattle.esc_check.specs.declared.export_fault.ExportFault.TheVariants.{Output as of_output};

use esc_bundle::NoMemory;
use std::io;

/// Why an export was not written, or not whole.
#[derive(Debug, Drop)]
pub enum ExportFault<E> {
    /// The source of the objects failed, and returned this.
    Source(E),
    /// What is written to failed.
    Output(io::Error),
    /// Out of memory.
    NoMemory,
}

impl<E> From<NoMemory> for ExportFault<E> {
    ghost from_gives = { λ _ e. e ≡ no_memory };

    fn from(_error: NoMemory) -> ExportFault<E> {
        ExportFault::NoMemory
    }
}

impl<E> From<io::Error> for ExportFault<E> {
    ghost from_gives = { λ error e. e ≡ of_output error };

    fn from(error: io::Error) -> ExportFault<E> {
        ExportFault::Output(error)
    }
}
