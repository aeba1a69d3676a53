//! Files and folders.

ghost use Rattle.std.specs.Prelude.{◌≤◌, IfOk, IfSome, length, string_cmp};
ghost use Rattle.std.specs.List.Sorted.{IsSorted};

use std::alloc::{AllocError, Global};
use std::fs::{self, DirEntry, File, Metadata};
use std::io::{Error, ErrorKind, Read};
use std::os::unix::fs::MetadataExt;

/// What is made of a link at a path.
#[derive(Clone, Copy)]
pub enum Links {
    /// What it leads to is read.
    Followed,
    /// It is not a plain file.
    Refused,
}

/// The plain files of a folder.
#[derive(Drop)]
pub struct Listing {
    /// Their names, in byte order.
    pub names: Vec<String>,
    /// How many names are not UTF-8.
    pub unnamed: usize,
}

/// The bytes of a plain file; `None` if it has more than `most`.
pub fn read_whole(
    rt: &HostRuntime,
    path: &str,
    links: Links,
    most: u64,
) -> Result<Option<Vec<u8>>, Error>
    ensures bound { IfOk result (λ found. IfSome found (λ bytes. length bytes.items ≤ most)) }
{
    let bytes = read_front(rt, path, links, most)?;
    if bytes.len() as u64 > most {
        Ok(None)
    } else {
        Ok(Some(bytes))
    }
}

/// The first bytes of a plain file: at most one more than `most`. So a file that is too long shows
/// in the length of what was read, and its end is not waited for. A pipe would be waited for until
/// somebody writes it, and a device may have no end: so these are not opened.
pub fn read_front(rt: &HostRuntime, path: &str, links: Links, most: u64) -> Result<Vec<u8>, Error> {
    let found = match links {
        Links::Followed => fs::metadata(rt, path)?,
        Links::Refused => fs::symlink_metadata(rt, path)?,
    };
    check(found.is_file())?;
    open_and_read(rt, path, &found, most)
}

fn check(is_readable: bool) -> Result<(), Error> {
    if is_readable {
        Ok(())
    } else {
        Err(Error::from(ErrorKind::Unsupported))
    }
}

// What was opened is looked at again: the path may have come to name something else than what was
// found there, such as a link.
fn open_and_read(
    rt: &HostRuntime,
    path: &str,
    found: &Metadata,
    most: u64,
) -> Result<Vec<u8>, Error> {
    let file = File::open(rt, path)?;
    let opened = file.metadata()?;
    check(opened.is_file() && opened.dev() == found.dev() && opened.ino() == found.ino())?;
    let limit = most.saturating_add(1);
    let mut bytes = room_for(rt.alloc(), opened.len().min(limit))?;
    file.take(limit).read_to_end(&mut bytes)?;
    Ok(bytes)
}

// Room for a file of this length, so that it isn't moved while it grows: one byte more, since a
// reader finds the end by a further read.
fn room_for(alloc: Global, length: u64) -> Result<Vec<u8>, AllocError> {
    Vec::with_capacity(alloc, (length as usize).saturating_add(1))
}

/// The plain files of a folder. Folders, links, pipes and devices in it are passed over, and so is
/// a file that goes while the folder is listed.
pub fn plain_files(rt: &HostRuntime, folder: &str) -> Result<Listing, Error>
    ensures rising { IfOk result (λ listing. IsSorted string_cmp listing.names.items) }
{
    let entries = fs::read_dir(rt, folder)?;
    let mut listing = Listing {
        names: Vec::new(rt.alloc()),
        unnamed: 0,
    };
    for entry in entries {
        listing.add(rt.alloc(), entry)?;
    }
    listing.names.sort_unstable();
    Ok(listing)
}

impl Listing {
    fn add(&mut self, alloc: Global, entry: Result<DirEntry, Error>) -> Result<(), Error> {
        match entry {
            Ok(entry) => self.add_plain(alloc, &entry),
            Err(error) if error.kind() == ErrorKind::InvalidFilename => {
                self.unnamed = self.unnamed.saturating_add(1);
                Ok(())
            }
            Err(error) => Err(error),
        }
    }

    // A file that is gone again, as one that was renamed once its name was read, is passed over.
    fn add_plain(&mut self, alloc: Global, entry: &DirEntry) -> Result<(), Error> {
        match entry.metadata() {
            Ok(found) if found.is_file() => {
                let name = String::from_str(alloc, entry.file_name())?;
                self.names.push(name)?;
                Ok(())
            }
            Ok(_) => Ok(()),
            Err(error) if error.kind() == ErrorKind::NotFound => Ok(()),
            Err(error) => Err(error),
        }
    }
}

/// The path of a file in a folder. The folder's own path may not be empty, as that of no folder is:
/// the path would be that of a file in the root.
pub fn path_in(alloc: Global, folder: &str, name: &str) -> Result<String, AllocError> {
    format!(in alloc; "{folder}/{name}")
}
