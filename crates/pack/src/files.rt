//! Reads bundles, manifests and an agent's files, and writes a bundle in one step.

use crate::stop::{Refusal, Stop, or_stop};
use esc_bundle::MOST_BYTES;
use esc_cli::{Links, path_in, read_front, read_whole};
use esc_manifest::{MOST_MANIFEST_BYTES, Manifest, ManifestFault, read_manifest};
use std::fs::{self, File};
use std::io::{Error, ErrorKind, Write};

/// The most bytes of a file in which its heading is looked for: one of 64 names of 64 characters in
/// quotes has 4,288.
const MOST_HEADING_BYTES: usize = 65_536;

/// The bytes of the files with these names in a folder, in their order.
pub fn read_files(rt: &HostRuntime, folder: &str, names: &[String]) -> Result<Vec<Vec<u8>>, Stop> {
    let mut files = Vec::new(rt.alloc());
    for name in names {
        files.push(read_named(rt, folder, name.as_str())?)?;
    }
    Ok(files)
}

// The bytes of the file with this name in a folder, which is to go into a bundle.
fn read_named(rt: &HostRuntime, folder: &str, name: &str) -> Result<Vec<u8>, Stop> {
    let path = path_in(rt.alloc(), folder, name)?;
    read_within(rt, path.as_str(), Refusal::FileTooLarge)
}

/// The front of the file with this name in a folder, of any length: the whole file, or the lines
/// that end in its first 65,536 bytes.
pub fn read_first_lines(rt: &HostRuntime, folder: &str, name: &str) -> Result<Vec<u8>, Stop> {
    let path = path_in(rt.alloc(), folder, name)?;
    let front = read_front(
        rt,
        path.as_str(),
        Links::Followed,
        MOST_HEADING_BYTES as u64,
    );
    let mut bytes = or_stop(rt, path.as_str(), front)?;
    if bytes.len() > MOST_HEADING_BYTES {
        bytes.truncate(MOST_HEADING_BYTES);
        let end = end_of_lines(&bytes);
        bytes.truncate(end);
    }
    Ok(bytes)
}

// Where the last line of a text ends that does.
fn end_of_lines(text: &[u8]) -> usize {
    let last = text.iter().rposition(|byte| matches!(*byte, b'\n' | b'\r'));
    last.map_or(0, |at| at.saturating_add(1))
}

/// The bytes of files, borrowed.
pub fn slices_of<'a>(rt: &HostRuntime, files: &'a [Vec<u8>]) -> Result<Vec<&'a [u8]>, Stop> {
    let mut slices: Vec<&'a [u8]> = Vec::new(rt.alloc());
    for file in files {
        slices.push(file.as_slice())?;
    }
    Ok(slices)
}

/// The bytes of a plain file of at most 16,777,216 bytes.
pub fn read_file(rt: &HostRuntime, path: &str) -> Result<Vec<u8>, Stop> {
    read_within(rt, path, Refusal::TooLarge)
}

// The same, or this refusal of a longer one.
fn read_within(rt: &HostRuntime, path: &str, refusal: Refusal) -> Result<Vec<u8>, Stop> {
    let bytes = read_whole(rt, path, Links::Followed, MOST_BYTES as u64);
    match or_stop(rt, path, bytes)? {
        Some(bytes) => Ok(bytes),
        None => Err(Stop::at(rt, refusal, path)),
    }
}

/// The body in a plain file, which may not be a link. `None` if it is over 16,777,216 bytes.
pub fn read_body(rt: &HostRuntime, path: &str) -> Result<Option<Vec<u8>>, Stop> {
    let body = read_whole(rt, path, Links::Refused, MOST_BYTES as u64);
    or_stop(rt, path, body)
}

/// The manifest in a file. Of one that is too long only the first bytes are read, one more than a
/// manifest has at most.
pub fn read_manifest_at(rt: &HostRuntime, path: &str) -> Result<Manifest, Stop> {
    let front = read_front(rt, path, Links::Followed, MOST_MANIFEST_BYTES as u64);
    let text = or_stop(rt, path, front)?;
    match read_manifest(rt.alloc(), &text) {
        Ok(manifest) => Ok(manifest),
        Err(ManifestFault::Refused { refusal, row }) => Err(Stop::Unlisted {
            refusal,
            row,
            paths: None,
        }),
        Err(ManifestFault::NoMemory) => Err(Stop::NoMemory),
    }
}

/// `E1` where there is no folder at a path. None is at an empty one, which with a name after it
/// would be the path of a file in the root.
pub fn check_folder(rt: &HostRuntime, path: &str) -> Result<(), Stop> {
    if or_stop(rt, path, fs::metadata(rt, path))?.is_dir() {
        Ok(())
    } else {
        Err(Stop::unreadable(rt, path, Error::from(ErrorKind::NotADirectory)))
    }
}

/// Writes a new file: beside its place first, and from there to its place in one step, so that
/// there is the whole of it or nothing. `E1` where something is at its place.
pub fn place_file(rt: &HostRuntime, path: &str, bytes: &[u8]) -> Result<(), Stop> {
    let beside = format!(in rt.alloc(); "{path}.part")?;
    or_stop(rt, path, put_file(rt, beside.as_str(), path, bytes))
}

fn put_file(rt: &HostRuntime, beside: &str, path: &str, bytes: &[u8]) -> Result<(), Error> {
    if fs::symlink_metadata(rt, path).is_ok() {
        return Err(Error::from(ErrorKind::AlreadyExists));
    }
    let file = File::create_new(rt, beside)?;
    let placed = match write_whole(file, bytes) {
        Ok(()) => fs::rename(rt, beside, path),
        Err(error) => Err(error),
    };
    if placed.is_err() {
        let _ = fs::remove_file(rt, beside);
    }
    placed
}

// Writes a file and closes it.
fn write_whole(mut file: File, bytes: &[u8]) -> Result<(), Error> {
    file.write_all(bytes)?;
    file.sync_all()
}
