//! A folder that is made beside its place, and put there when it is whole.

use crate::sums::digest_of;
use esc_cli::path_in;
use std::alloc::{AllocError, Global};
use std::fs::{self, File};
use std::io::{Error, ErrorKind, Write};

/// A folder beside its place, and the sums of its files.
#[derive(Drop)]
pub struct NewFolder<'a> {
    rt: &'a HostRuntime,
    // Its place, as it was named.
    place: &'a str,
    // Where it is until then.
    beside: String,
    // A line for each file that was summed.
    sums: String,
}

// Whether a folder has nothing in it.
fn is_empty(rt: &HostRuntime, path: &str) -> Result<bool, Error> {
    Ok(fs::read_dir(rt, path)?.next().transpose()?.is_none())
}

fn find_room(rt: &HostRuntime, path: &str) -> Result<(), Error> {
    if path.is_empty() {
        return Err(Error::from(ErrorKind::NotFound));
    }
    match fs::symlink_metadata(rt, path) {
        Ok(found) if found.is_dir() => {}
        Ok(_) => return Err(Error::from(ErrorKind::AlreadyExists)),
        Err(error) if error.kind() == ErrorKind::NotFound => return Ok(()),
        Err(error) => return Err(error),
    }
    if is_empty(rt, path)? {
        Ok(())
    } else {
        Err(Error::from(ErrorKind::DirectoryNotEmpty))
    }
}

// A path without the slashes at its end. (That of the root is empty, which is the path of nothing.)
fn trimmed(path: &str) -> &str {
    path.trim_end_matches('/')
}

/// Fails unless there is nothing at a path, or a folder with nothing in it.
pub fn check_place(rt: &HostRuntime, place: &str) -> Result<(), Error> {
    find_room(rt, trimmed(place))
}

/// Where the folder of a place is until it is whole: beside it, under its name with `.part`.
pub fn path_beside(alloc: Global, place: &str) -> Result<String, AllocError> {
    let path = trimmed(place);
    format!(in alloc; "{path}.part")
}

impl<'a> NewFolder<'a> {
    /// Makes a folder beside its place ([`path_beside`]). `AlreadyExists` where something has that
    /// name, as what a run that was stopped left.
    pub fn create(rt: &'a HostRuntime, place: &'a str) -> Result<NewFolder<'a>, Error> {
        let beside = path_beside(rt.alloc(), place)?;
        fs::create_dir(rt, beside.as_str())?;
        Ok(NewFolder {
            rt,
            place,
            beside,
            sums: String::new(rt.alloc()),
        })
    }

    pub(crate) fn rt(&self) -> &'a HostRuntime {
        self.rt
    }

    pub(crate) fn alloc(&self) -> Global {
        self.rt.alloc()
    }

    /// The path of a file in it.
    pub(crate) fn path_of(&self, name: &str) -> Result<String, AllocError> {
        path_in(self.rt.alloc(), self.beside.as_str(), name)
    }

    /// A new file in it, to be written.
    pub(crate) fn create_file(&self, name: &str) -> Result<File, Error> {
        let path = self.path_of(name)?;
        File::create_new(self.rt, path.as_str())
    }

    /// Adds the line of a file in it: its SHA-256 and its name, as `sha256sum -c` reads them.
    pub(crate) fn add_sum(&mut self, name: &str) -> Result<(), Error> {
        let mut file = self.open_file(name)?;
        let digest = digest_of(&mut file)?;
        let digest = hex::encode(self.rt.alloc(), &digest)?;
        write!(self.sums, "{digest}  {name}\n")?;
        Ok(())
    }

    /// A file in it, to be read.
    pub(crate) fn open_file(&self, name: &str) -> Result<File, Error> {
        let path = self.path_of(name)?;
        File::open(self.rt, path.as_str())
    }

    /// Makes a folder in it.
    pub fn create_folder(&self, name: &str) -> Result<(), Error> {
        let path = self.path_of(name)?;
        fs::create_dir(self.rt, path.as_str())
    }

    /// Waits until the names in a folder of it are on the disk.
    pub fn sync_folder(&self, name: &str) -> Result<(), Error> {
        let path = self.path_of(name)?;
        sync_folder(self.rt, path.as_str())
    }

    /// Writes a new file in it.
    pub fn write_file(&self, name: &str, bytes: &[u8]) -> Result<(), Error> {
        let mut file = self.create_file(name)?;
        file.write_all(bytes)?;
        file.sync_all()
    }

    /// Writes the file of the sums.
    pub fn write_sums(&self) -> Result<(), Error> {
        self.write_file("sha256sums", self.sums.as_bytes())
    }

    /// Puts it in its place, in one step: an empty folder that is there is replaced.
    pub fn put(&self) -> Result<(), Error> {
        sync_folder(self.rt, self.beside.as_str())?;
        fs::rename(self.rt, self.beside.as_str(), trimmed(self.place))
    }

    /// Removes it, with all that is in it, as far as the system lets it.
    pub fn remove(&self) {
        let _ = fs::remove_dir_all(self.rt, self.beside.as_str());
    }
}

// The names in it are on the disk before it gets its own.
fn sync_folder(rt: &HostRuntime, path: &str) -> Result<(), Error> {
    File::open(rt, path)?.sync_all()
}
