//! `tables --store FILE DIR`: the tables of a store as files.

use crate::walking::walk;
use esc_cli::DONE;
use esc_desk::Reads;
use esc_envelope::Kind;
use esc_handover::{Answer, Stop, TableFolder, read_layouts};
use esc_progress::Progress;
use esc_table_files::{Layout, check_database, check_layouts, check_loadable};
use std::alloc::Global;

/// The words of the command: the folder, and whether a database and the statements for PostgreSQL
/// are made as well.
#[derive(Clone, Copy)]
pub struct Tabling<'a> {
    pub rt: &'a HostRuntime,
    pub folder: &'a str,
    pub has_database: bool,
    pub has_script: bool,
}

// The tables of a kind.
#[derive(Drop)]
struct KindTables {
    kind: Kind,
    layouts: Vec<Layout>,
}

/// Writes the tables of a store as files, or nothing. The objects of each kind are read once for
/// their tables and columns, once for the CSV files, and once for the database.
pub fn write_tables<R: Reads>(
    reader: &mut R,
    words: Tabling<'_>,
    mut progress: Progress<'_>,
) -> Result<Answer, Stop> {
    let alloc = words.rt.alloc();
    check_chain(alloc, reader)?;
    let kinds = read_kinds(alloc, reader, &mut progress)?;
    check_kinds(words, &kinds)?;
    write_folder(reader, words, &kinds, &mut progress)?;
    Ok(Answer {
        text: Vec::new(alloc),
        status: DONE,
    })
}

fn check_chain<R: Reads>(alloc: Global, reader: &mut R) -> Result<(), Stop> {
    let status = reader.status(alloc)?;
    match status.end {
        Some(_) => Ok(()),
        None => Err(Stop::Chainless),
    }
}

// Reads which tables and columns there are.
fn read_kinds<R: Reads>(
    alloc: Global,
    reader: &mut R,
    progress: &mut Progress<'_>,
) -> Result<Vec<KindTables>, Stop> {
    let mut kinds = Vec::new(alloc);
    for kind in Kind::ALL {
        let mut walk = walk(alloc, reader, Some(kind))?;
        progress.begin(walk.left());
        let layouts = read_layouts(alloc, &mut walk, kind, progress)?;
        kinds.push(KindTables { kind, layouts })?;
    }
    Ok(kinds)
}

// The tables of all kinds.
fn all_layouts(alloc: Global, kinds: &[KindTables]) -> Result<Vec<&Layout>, Stop> {
    let mut layouts = Vec::new(alloc);
    for tables in kinds {
        for layout in &tables.layouts {
            layouts.push(layout)?;
        }
    }
    Ok(layouts)
}

fn check_kinds(words: Tabling<'_>, kinds: &[KindTables]) -> Result<(), Stop> {
    let alloc = words.rt.alloc();
    let layouts = all_layouts(alloc, kinds)?;
    check_layouts(alloc, &layouts)?;
    if words.has_database {
        check_database(alloc, &layouts)?;
    }
    if words.has_script {
        check_loadable(alloc, &layouts)?;
    }
    Ok(())
}

// Writes the folder, or nothing.
fn write_folder<R: Reads>(
    reader: &mut R,
    words: Tabling<'_>,
    kinds: &[KindTables],
    progress: &mut Progress<'_>,
) -> Result<(), Stop> {
    let mut folder = TableFolder::create(words.rt, words.folder)?;
    let written = write_files(reader, words, kinds, &mut folder, progress);
    folder.finish(written)
}

// Writes all files of the folder.
fn write_files<R: Reads>(
    reader: &mut R,
    words: Tabling<'_>,
    kinds: &[KindTables],
    folder: &mut TableFolder<'_>,
    progress: &mut Progress<'_>,
) -> Result<(), Stop> {
    let alloc = words.rt.alloc();
    for tables in kinds {
        let mut walk = walk(alloc, reader, Some(tables.kind))?;
        progress.begin(walk.left());
        folder.write_tables(&mut walk, tables.kind, &tables.layouts, progress)?;
    }
    if words.has_script {
        let layouts = all_layouts(alloc, kinds)?;
        folder.write_load_script(&layouts, progress)?;
    }
    if words.has_database {
        write_database(alloc, reader, kinds, folder, progress)?;
    }
    folder.write_sums()
}

// Writes the database of the tables.
fn write_database<R: Reads>(
    alloc: Global,
    reader: &mut R,
    kinds: &[KindTables],
    folder: &mut TableFolder<'_>,
    progress: &mut Progress<'_>,
) -> Result<(), Stop> {
    let mut database = folder.create_database()?;
    for tables in kinds {
        let mut walk = walk(alloc, reader, Some(tables.kind))?;
        progress.begin(walk.left());
        folder.add_tables(&mut database, &mut walk, &tables.layouts, progress)?;
    }
    folder.finish_database(database, progress)
}
