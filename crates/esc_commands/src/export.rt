//! `export --store FILE KIND`: an export, printed while the store is read.

ghost use Rattle.std.specs.Prelude.{[], List, OnOk, OnErr};
ghost use Rattle.esc_apply.specs.ObjectStreams.{Entry};

use crate::ended::Ended;
use crate::run::Run;
use esc_apply::Objects;
use esc_arguments::{NO_MEMORY, Stop, or_stop};
use esc_cli::DONE;
use esc_desk::{Reads, StoreFault, Walk};
use esc_envelope::Kind;
use esc_progress::{Progress, Watched};
use esc_reports::{ExportFault, write_export_of};
use std::alloc::Global;
use std::io::{BufWriter, Write};

/// How many bytes are printed at once.
const PIECE: usize = 65_536;

impl<N, O: Write, E: Write> Run<'_, N, O, E> {
    /// Prints the export of a kind. All of it is read once before its first byte is printed, so it
    /// is whole unless the store or memory fails in between.
    pub fn print_export<R: Reads>(&mut self, reader: &mut R, kind: Kind) -> Result<Ended, Stop> {
        let alloc = self.rt.alloc();
        read_objects(alloc, reader, kind, &mut self.progress)?;
        let Ok(mut output) = BufWriter::with_capacity(alloc, PIECE, &mut *self.out) else {
            return Err(NO_MEMORY);
        };
        let written = write_export_of(alloc, reader, kind, &mut output);
        or_export_stop(self.rt, written)?;
        or_stop(self.rt, "-", output.flush())?;
        Ok(Ended::silent(alloc, DONE))
    }
}

// Reads the objects of a kind, and keeps none. It tells how far it is: what is printed then comes as
// fast. `S1`, `S2`.
fn read_objects<R: Reads>(
    alloc: Global,
    reader: &mut R,
    kind: Kind,
    progress: &mut Progress<'_>,
) -> Result<(), StoreFault> {
    let place = reader.start_walk(alloc, Some(kind))?;
    let mut walk = Walk::new(reader, place);
    progress.begin(walk.left());
    let mut watched = Watched::new(&mut walk, progress, kind.name());
    read_all(&mut watched)
}

// Reads the objects that are still to come: then none is.
fn read_all<O: Objects<Error = StoreFault>>(objects: &mut O) -> Result<(), StoreFault>
    ensures follows { O.follows objects.old objects.new }
    ensures failed { OnErr result (O.has_failed objects.new) }
    ensures ended { OnOk result (O.is_honest objects.new → (es : List Entry)
        → O.lists objects.old es → O.lists objects.new []) }
{
    while objects.next()?.is_some() {}
    Ok(())
}

// What the program stops for where an export is not written. Standard output is `-`.
fn or_export_stop(
    rt: &HostRuntime,
    written: Result<(), ExportFault<StoreFault>>,
) -> Result<(), Stop> {
    match written {
        Ok(()) => Ok(()),
        Err(ExportFault::Source(fault)) => Err(Stop::Store(fault)),
        Err(ExportFault::NoMemory) => Err(NO_MEMORY),
        Err(ExportFault::Output(error)) => or_stop(rt, "-", Err(error)),
    }
}
