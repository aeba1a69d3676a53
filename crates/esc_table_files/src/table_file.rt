//! The files of tables.

use crate::folder::NewFolder;
use crate::layout::Layout;
use crate::table_writer::{TableWriter, write_tables};
use crate::writing_fault::WritingFault;
use esc_apply::Objects;
use std::alloc::{AllocError, Global};
use std::fs::File;
use std::io::{BufWriter, Error};

/// Writes the files of some tables to a folder side by side, with the rows of these objects
/// ([`write_tables`]), and adds their sums.
pub fn write_table_files<O: Objects>(
    folder: &mut NewFolder<'_>,
    objects: &mut O,
    layouts: &[Layout],
) -> Result<(), WritingFault<O::Error>> {
    fill_files(folder, objects, layouts)?;
    Ok(add_sums(folder, layouts)?)
}

/// The name of a table's file.
pub fn file_name(alloc: Global, layout: &Layout) -> Result<String, AllocError> {
    let name = layout.table.text();
    format!(in alloc; "{name}.csv")
}

fn fill_files<O: Objects>(
    folder: &NewFolder<'_>,
    objects: &mut O,
    layouts: &[Layout],
) -> Result<(), WritingFault<O::Error>> {
    let mut writers = create_files(folder, layouts)?;
    write_tables(folder.alloc(), &mut writers, objects)?;
    Ok(close_all(writers)?)
}

fn create_files<'a>(
    folder: &NewFolder<'_>,
    layouts: &'a [Layout],
) -> Result<Vec<TableWriter<'a, BufWriter<File>>>, Error> {
    let alloc = folder.alloc();
    let mut writers = Vec::new(alloc);
    for layout in layouts {
        let file = create_file(folder, layout)?;
        let output = BufWriter::new(alloc, file)?;
        writers.push(TableWriter { layout, output })?;
    }
    Ok(writers)
}

fn create_file(folder: &NewFolder<'_>, layout: &Layout) -> Result<File, Error> {
    let name = file_name(folder.alloc(), layout)?;
    folder.create_file(name.as_str())
}

fn close_all(writers: Vec<TableWriter<'_, BufWriter<File>>>) -> Result<(), Error> {
    for writer in writers {
        close(writer.output)?;
    }
    Ok(())
}

// Writes what is left of a file, and closes it.
fn close(output: BufWriter<File>) -> Result<(), Error> {
    match output.into_inner() {
        Ok(file) => file.sync_all(),
        Err(error) => Err(error.into_error()),
    }
}

fn add_sums(folder: &mut NewFolder<'_>, layouts: &[Layout]) -> Result<(), Error> {
    for layout in layouts {
        let name = file_name(folder.alloc(), layout)?;
        folder.add_sum(name.as_str())?;
    }
    Ok(())
}
