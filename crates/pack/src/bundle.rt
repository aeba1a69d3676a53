//! `bundle --envelope FILE DIR OUT`: one bundle of an agent's files.

use crate::fields::unseen_fields;
use crate::files::{check_folder, place_file, read_file, read_files, slices_of};
use crate::stop::{Refusal, Stop};
use esc_bundle::{Fault, Refusal as BodyRefusal};
use esc_cli::path_in;
use esc_envelope::read_envelope;
use esc_pack::{BundleFault, Source, Sources, TableFiles, bundle_of_files, read_sources};
use std::collections::BTreeSet;

/// The words of the command: the description, the folder of the files, and the bundle's path.
#[derive(Clone, Copy)]
pub struct Bundling<'a> {
    pub envelope: &'a str,
    pub folder: &'a str,
    pub target: &'a str,
}

/// Writes the bundle, or nothing. Returns what the desk won't look at in it, in lines.
pub fn write_bundle(rt: &HostRuntime, words: Bundling<'_>) -> Result<String, Stop> {
    let description = read_file(rt, words.envelope)?;
    let sources = sources_of(rt, &description, words.envelope)?;
    check_folder(rt, words.folder)?;
    let body = bundle_of_sources(rt, words, &description, &sources)?;
    let unseen = unseen_fields(rt, &description)?;
    place_file(rt, words.target, &body)?;
    Ok(unseen)
}

// The sources of the tables that a description declares, contents before deletes.
fn sources_of(rt: &HostRuntime, description: &[u8], path: &str) -> Result<Vec<Source>, Stop> {
    if let Some(found) = read_sources(rt.alloc(), description)? {
        let Sources {
            contents: mut sources,
            mut deletes,
        } = found;
        sources.append(&mut deletes)?;
        if have_own_files(rt, &sources)? {
            return Ok(sources);
        }
    }
    Err(undeclared(rt, description, path))
}

// Whether the names in the sources are those of files in a folder, each there once: so no name
// leads out of it, and no file is read and held twice.
fn have_own_files(rt: &HostRuntime, sources: &[Source]) -> Result<bool, Stop> {
    let mut names = BTreeSet::new(rt.alloc());
    for source in sources {
        for file in &source.files {
            let name = file.as_str();
            if !is_file_name(name) || !names.insert(name)? {
                return Ok(false);
            }
        }
    }
    Ok(true)
}

// Whether a name can be that of a file in a folder: it isn't empty, leads to no other folder, and
// isn't the folder or the one above.
fn is_file_name(name: &str) -> bool {
    match name {
        "" | "." | ".." => false,
        _ => !name.as_bytes().contains(&b'/'),
    }
}

// The refusal of a description whose sources can't be read, or don't have their own files: what it
// is refused for as an envelope, or U7.
fn undeclared(rt: &HostRuntime, description: &[u8], path: &str) -> Stop {
    match read_envelope(rt.alloc(), description) {
        Ok(_) => Stop::at(rt, Refusal::Unread(BodyRefusal::WrongTable), path),
        Err(Fault::Refused(refusal)) => Stop::at(rt, Refusal::Unread(refusal), path),
        Err(Fault::NoMemory) => Stop::NoMemory,
    }
}

// The bundle of the files that the description declares.
fn bundle_of_sources(
    rt: &HostRuntime,
    words: Bundling<'_>,
    description: &[u8],
    sources: &[Source],
) -> Result<Vec<u8>, Stop> {
    let tables = read_tables(rt, words.folder, sources)?;
    let given = given_tables(rt, sources, &tables)?;
    match bundle_of_files(rt.alloc(), description, &given) {
        Ok(body) => Ok(body),
        Err(fault) => Err(stop_of(rt, words, sources, &fault)),
    }
}

// The bytes of the files of each table.
fn read_tables(
    rt: &HostRuntime,
    folder: &str,
    sources: &[Source],
) -> Result<Vec<Vec<Vec<u8>>>, Stop> {
    let mut tables = Vec::new(rt.alloc());
    for source in sources {
        tables.push(read_files(rt, folder, &source.files)?)?;
    }
    Ok(tables)
}

fn given_tables<'a>(
    rt: &HostRuntime,
    sources: &[Source],
    tables: &'a [Vec<Vec<u8>>],
) -> Result<Vec<TableFiles<'a>>, Stop> {
    let mut given = Vec::new(rt.alloc());
    for (source, files) in sources.iter().zip(tables) {
        given.push(TableFiles {
            has_heading: source.has_heading,
            files: slices_of(rt, files)?,
        })?;
    }
    Ok(given)
}

// A fault, with the path that has it: a file's, the description's, or the bundle's.
fn stop_of(rt: &HostRuntime, words: Bundling<'_>, sources: &[Source], fault: &BundleFault) -> Stop {
    let (refusal, table, file) = match *fault {
        BundleFault::Refused(refusal) => return refused(rt, words, refusal),
        BundleFault::Unmatched => {
            return Stop::at(rt, Refusal::Unread(BodyRefusal::WrongTable), words.envelope);
        }
        BundleFault::Heading { table, file } => (Refusal::Heading, table, file),
        BundleFault::Row { table, file, row } => (Refusal::Row(row), table, file),
        BundleFault::Marked { table } => (Refusal::Marked, table, 0),
        BundleFault::NoMemory => return Stop::NoMemory,
    };
    match path_in(rt.alloc(), words.folder, file_name(sources, table, file)) {
        Ok(path) => Stop::At { refusal, path },
        Err(_) => Stop::NoMemory,
    }
}

// A refusal with the path that has it: U5 to U7 are of the description, all others of the bundle.
fn refused(rt: &HostRuntime, words: Bundling<'_>, refusal: BodyRefusal) -> Stop {
    match refusal {
        BodyRefusal::NotJson | BodyRefusal::WrongMember | BodyRefusal::WrongTable => {
            Stop::at(rt, Refusal::Unread(refusal), words.envelope)
        }
        BodyRefusal::OverLimit | BodyRefusal::TooManyRows => {
            Stop::at(rt, Refusal::BundleTooLarge(refusal), words.target)
        }
        _ => Stop::at(rt, Refusal::Unread(refusal), words.target),
    }
}

// The name of a file of a table.
fn file_name(sources: &[Source], table: usize, file: usize) -> &str {
    match sources.get(table).and_then(|source| source.files.get(file)) {
        Some(name) => name.as_str(),
        None => "",
    }
}
