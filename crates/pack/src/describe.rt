//! `describe DIR`: a description of a folder's files.

use crate::fields::unseen_fields;
use crate::files::read_first_lines;
use crate::stop::{Refusal, Stop, or_stop};
use esc_cli::plain_files;
use esc_pack::{BundleFault, FolderFile, Proposal, Unknown, describe_files, table_named};

/// What no file says, so that the description has placeholders for it.
const UNTOLD: &str = "unknown id\nunknown type\nunknown watermark\n";

/// What is printed: the description, and what it doesn't say.
#[derive(Drop)]
pub struct Description {
    pub text: Vec<u8>,
    pub unknown: String,
}

/// The description that is proposed of the plain files of a folder.
pub fn describe(rt: &HostRuntime, folder: &str) -> Result<Description, Stop> {
    let found = or_stop(rt, folder, plain_files(rt, folder))?;
    let proposal = proposal_of(rt, folder, &found.names)?;
    let mut unknown = untold(rt, &proposal.unknown, found.unnamed)?;
    unknown.push_str(unseen_fields(rt, &proposal.text)?.as_str())?;
    Ok(Description {
        text: proposal.text,
        unknown,
    })
}

// The description of the files of these names.
fn proposal_of(rt: &HostRuntime, folder: &str, names: &[String]) -> Result<Proposal, Stop> {
    let bodies = read_known(rt, folder, names)?;
    let files = named_files(rt, names, &bodies)?;
    match describe_files(rt.alloc(), &files) {
        Ok(proposal) => Ok(proposal),
        Err(BundleFault::NoMemory) => Err(Stop::NoMemory),
        Err(_) => Err(Stop::at(rt, Refusal::Undescribed, folder)),
    }
}

// The first lines of the files by whose names a table is known, and none of each other one: whatever
// else is in the folder needn't be readable.
fn read_known(rt: &HostRuntime, folder: &str, names: &[String]) -> Result<Vec<Vec<u8>>, Stop> {
    let mut bodies = Vec::new(rt.alloc());
    for name in names {
        let bytes = if table_named(name.as_str()).is_some() {
            read_first_lines(rt, folder, name.as_str())?
        } else {
            Vec::new(rt.alloc())
        };
        bodies.push(bytes)?;
    }
    Ok(bodies)
}

fn named_files<'a>(
    rt: &HostRuntime,
    names: &'a [String],
    bodies: &'a [Vec<u8>],
) -> Result<Vec<FolderFile<'a>>, Stop> {
    let mut files = Vec::new(rt.alloc());
    for (name, bytes) in names.iter().zip(bodies) {
        files.push(FolderFile {
            name: name.as_str(),
            bytes: bytes.as_slice(),
        })?;
    }
    Ok(files)
}

// What a description doesn't say.
fn untold(rt: &HostRuntime, files: &[Unknown], unnamed: usize) -> Result<String, Stop> {
    let mut lines = String::from_str(rt.alloc(), UNTOLD)?;
    for file in files {
        // A name is printed as Rust writes a string, so that it is one line whatever it has.
        let (name, why) = (file.name.as_str(), file.why);
        let line = format!(in rt.alloc(); "unknown file {name:?}: {why}\n")?;
        lines.push_str(line.as_str())?;
    }
    if unnamed > 0 {
        let line = format!(in rt.alloc(); "unknown files: {unnamed} whose names are no UTF-8\n")?;
        lines.push_str(line.as_str())?;
    }
    Ok(lines)
}
