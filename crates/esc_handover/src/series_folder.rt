//! A folder of a series: its bundles, and the manifest that lists them.

ghost use Rattle.esc_pack.specs.Release.{AddsRow};

use crate::stop::{Stop, or_stop};
use crate::table_folder::create_folder;
use esc_apply::Objects;
use esc_bundle::Fault;
use esc_deposit::{BundleRefusal, Bundles, Series, SeriesFault, write_series};
use esc_pack::{Release, ReleaseFault};
use esc_progress::{Progress, Watched};
use esc_store::StoreFault;
use esc_table_files::NewFolder;
use std::alloc::Global;

/// The folder of the bundles in it: a folder that is taken has nothing but them.
const DEPOSITS: &str = "deposits";

/// The file of the manifest in it.
const MANIFEST: &str = "manifest.csv";

/// A folder of a series that is being made at a place.
#[derive(Drop)]
pub struct SeriesFolder<'a> {
    rt: &'a HostRuntime,
    // Its place, as it was named.
    place: &'a str,
    series: Series<'a>,
    folder: NewFolder<'a>,
    // The rows of the bundles that are in it.
    release: Release,
}

impl<'a> SeriesFolder<'a> {
    /// Makes a folder beside its place; `E1` of the name that it has there where something has it,
    /// as what a run that was stopped left.
    pub fn create(
        rt: &'a HostRuntime,
        place: &'a str,
        series: Series<'a>,
    ) -> Result<SeriesFolder<'a>, Stop> {
        Ok(SeriesFolder {
            rt,
            place,
            series,
            folder: create_folder(rt, place)?,
            release: Release::new(rt.alloc()),
        })
    }

    /// Writes the bundles of these objects, in runs of these lengths, and then their manifest.
    pub fn write<O>(
        &mut self,
        lengths: &[usize],
        objects: &mut O,
        progress: &mut Progress<'_>,
    ) -> Result<(), Stop>
    where
        O: Objects<Error = StoreFault>,
    {
        let made = self.folder.create_folder(DEPOSITS);
        or_stop(self.rt, self.place, made)?;
        let (alloc, series, place) = (self.rt.alloc(), self.series, self.place);
        let mut watched = Watched::new(objects, progress, "bundles");
        match write_series(alloc, series, lengths, &mut watched, self) {
            Ok(()) => self.write_manifest(),
            Err(SeriesFault::Source(fault)) => Err(Stop::Store(fault)),
            Err(SeriesFault::Place(stop)) => Err(stop),
            Err(SeriesFault::Refused(refusal)) => Err(Stop::unbundled(alloc, refusal, place)),
        }
    }

    fn write_manifest(&self) -> Result<(), Stop> {
        let alloc = self.rt.alloc();
        let text = match self.release.manifest(alloc) {
            Ok(text) => text,
            Err(ReleaseFault::NoMemory) => return Err(Stop::NO_MEMORY),
            Err(ReleaseFault::Unlisted { .. }) => {
                return Err(Stop::unbundled(alloc, BundleRefusal::TooManyParts, self.place));
            }
        };
        let written = self
            .folder
            .sync_folder(DEPOSITS)
            .and_then(|()| self.folder.write_file(MANIFEST, &text));
        or_stop(self.rt, self.place, written)
    }

    /// Puts it in its place, if all that belongs in it was written; else removes it.
    pub fn finish(self, written: Result<(), Stop>) -> Result<(), Stop> {
        let finished = match written {
            Ok(()) => or_stop(self.rt, self.place, self.folder.put()),
            Err(stop) => Err(stop),
        };
        if finished.is_err() {
            self.folder.remove();
        }
        finished
    }

    // Writes the file of the next bundle, named by its number, from 001 on.
    fn write_bundle(&self, body: &[u8]) -> Result<(), Stop> {
        let (folder, id) = (DEPOSITS, self.series.id);
        let number = self.release.rows().len().saturating_add(1);
        let name = format!(in self.rt.alloc(); "{folder}/{id}-{number:03}")?;
        let written = self.folder.write_file(name.as_str(), body);
        or_stop(self.rt, self.place, written)
    }

    // The stop for a bundle that isn't read as a deposit.
    fn fault_stop(&self, alloc: Global, fault: Fault) -> Stop {
        Stop::unbundled(alloc, BundleRefusal::from(fault), self.place)
    }
}

impl Bundles for SeriesFolder<'_> {
    type Error = Stop;

    ghost takes = { λ a body b. AddsRow body a.release b.release };

    fn put(&mut self, body: &[u8]) -> Result<(), Stop> {
        self.write_bundle(body)?;
        let alloc = self.rt.alloc();
        match self.release.read(alloc, body) {
            Ok(()) => Ok(()),
            Err(fault) => Err(self.fault_stop(alloc, fault)),
        }
    }
}
