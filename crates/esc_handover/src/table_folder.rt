//! A folder of tables, which is written while it is told how far that is.

use crate::stop::{Stop, or_stop};
use esc_apply::Objects;
use esc_envelope::Kind;
use esc_progress::{Progress, Watched};
use esc_store::StoreFault;
use esc_table_files::{
    Database, LOAD_SCRIPT, Layout, NewFolder, REGISTRY, WritingFault, check_place, file_name,
    is_loadable_file, path_beside, write_load_script, write_table_files,
};
use std::alloc::Global;
use std::io::{Error, ErrorKind};

/// A folder of tables that is being made at a place.
#[derive(Drop)]
pub struct TableFolder<'a> {
    rt: &'a HostRuntime,
    // Its place, as it was named.
    place: &'a str,
    folder: NewFolder<'a>,
}

/// `E1` unless there is nothing at a path, or a folder with nothing in it.
pub fn check_folder(rt: &HostRuntime, place: &str) -> Result<(), Stop> {
    or_stop(rt, place, check_place(rt, place))
}

/// Makes a folder beside its place; `E1` of the name that it has there where something has it.
pub(crate) fn create_folder<'a>(
    rt: &'a HostRuntime,
    place: &'a str,
) -> Result<NewFolder<'a>, Stop> {
    match NewFolder::create(rt, place) {
        Err(error) if error.kind() == ErrorKind::AlreadyExists => {
            or_stop(rt, path_beside(rt.alloc(), place)?.as_str(), Err(error))
        }
        made => or_stop(rt, place, made),
    }
}

impl<'a> TableFolder<'a> {
    /// Makes a folder beside its place; `E1` of the name that it has there where something has it,
    /// as what a run that was stopped left.
    pub fn create(rt: &'a HostRuntime, place: &'a str) -> Result<TableFolder<'a>, Stop> {
        let folder = create_folder(rt, place)?;
        Ok(TableFolder { rt, place, folder })
    }

    /// Writes the files of a kind's tables, with the rows of these objects.
    pub fn write_tables<O>(
        &mut self,
        objects: &mut O,
        kind: Kind,
        layouts: &[Layout],
        progress: &mut Progress<'_>,
    ) -> Result<(), Stop>
    where
        O: Objects<Error = StoreFault>,
    {
        let written = write_files(&mut self.folder, objects, kind, layouts, progress);
        self.or_stop_writing(written)?;
        tell_files(self.rt.alloc(), layouts, progress)
    }

    /// Makes the database, without tables.
    pub fn create_database(&self) -> Result<Database, Stop> {
        self.or_stop_writing(Database::create(&self.folder))
    }

    /// Adds tables with the rows of these objects to the database.
    pub fn add_tables<O>(
        &self,
        database: &mut Database,
        objects: &mut O,
        layouts: &[Layout],
        progress: &mut Progress<'_>,
    ) -> Result<(), Stop>
    where
        O: Objects<Error = StoreFault>,
    {
        let mut watched = Watched::new(objects, progress, REGISTRY);
        self.or_stop_writing(database.add_tables(self.rt.alloc(), &mut watched, layouts))
    }

    /// Closes the database when it has its tables.
    pub fn finish_database(
        &mut self,
        database: Database,
        progress: &mut Progress<'_>,
    ) -> Result<(), Stop> {
        let finished = database.finish(&mut self.folder);
        self.or_stop_writing(finished)?;
        progress.tell_written(REGISTRY);
        Ok(())
    }

    /// Writes the statements by which PostgreSQL loads the files of these tables, which are there.
    pub fn write_load_script(
        &mut self,
        layouts: &[&Layout],
        progress: &mut Progress<'_>,
    ) -> Result<(), Stop> {
        for layout in layouts {
            self.check_file(layout)?;
        }
        let written = write_load_script(&mut self.folder, layouts);
        self.or_stop(written)?;
        progress.tell_written(LOAD_SCRIPT);
        Ok(())
    }

    // `H11` if PostgreSQL can't load the file of a table.
    fn check_file(&self, layout: &Layout) -> Result<(), Stop> {
        if self.or_stop(is_loadable_file(&self.folder, layout))? {
            return Ok(());
        }
        let name = String::from_str(self.rt.alloc(), layout.table.text())?;
        Err(Stop::Unloadable(name))
    }

    /// Writes the file of the sums.
    pub fn write_sums(&self) -> Result<(), Stop> {
        self.or_stop(self.folder.write_sums())
    }

    /// Puts it in its place, if all that belongs in it was written; else removes it.
    pub fn finish(self, written: Result<(), Stop>) -> Result<(), Stop> {
        let finished = written.and_then(|()| self.or_stop(self.folder.put()));
        if finished.is_err() {
            self.folder.remove();
        }
        finished
    }

    // What came of a file in it, or the stop at its place.
    fn or_stop<T>(&self, found: Result<T, Error>) -> Result<T, Stop> {
        or_stop(self.rt, self.place, found)
    }

    // What came of a table in it, or the stop for that.
    fn or_stop_writing<T>(&self, written: Result<T, WritingFault<StoreFault>>) -> Result<T, Stop> {
        match written {
            Ok(value) => Ok(value),
            Err(WritingFault::Source(fault)) => Err(Stop::Store(fault)),
            Err(WritingFault::Output(error)) => self.or_stop(Err(error)),
            Err(WritingFault::NoMemory) => Err(Stop::NO_MEMORY),
        }
    }
}

fn tell_files(alloc: Global, layouts: &[Layout], progress: &mut Progress<'_>) -> Result<(), Stop> {
    for layout in layouts {
        let name = file_name(alloc, layout)?;
        progress.tell_written(name.as_str());
    }
    Ok(())
}

fn write_files<O: Objects>(
    folder: &mut NewFolder<'_>,
    objects: &mut O,
    kind: Kind,
    layouts: &[Layout],
    progress: &mut Progress<'_>,
) -> Result<(), WritingFault<O::Error>> {
    let mut watched = Watched::new(objects, progress, kind.name());
    write_table_files(folder, &mut watched, layouts)
}
