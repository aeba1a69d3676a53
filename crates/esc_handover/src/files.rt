//! Writes a file in one step.

use crate::stop::{Stop, or_stop};
use std::fs::{self, File};
use std::io::{Error, ErrorKind, Write};

/// Writes a new file: beside its place first, and from there to its place in one step, so that
/// there is the whole of it or nothing. `E1` where something is at its place.
pub fn place_file(rt: &HostRuntime, path: &str, bytes: &[u8]) -> Result<(), Stop> {
    let beside = format!(in rt.alloc(); "{path}.part")?;
    or_stop(rt, path, put_file(rt, beside.as_str(), path, bytes))
}

fn put_file(rt: &HostRuntime, beside: &str, path: &str, bytes: &[u8]) -> Result<(), Error> {
    if fs::symlink_metadata(rt, path).is_ok() {
        return Err(Error::from(ErrorKind::AlreadyExists));
    }
    let file = File::create_new(rt, beside)?;
    let placed = write_new(file, bytes).and_then(|()| fs::rename(rt, beside, path));
    if placed.is_err() {
        let _ = fs::remove_file(rt, beside);
    }
    placed
}

// Writes a file that was made for it, and closes it.
fn write_new(mut file: File, bytes: &[u8]) -> Result<(), Error> {
    file.write_all(bytes)?;
    file.sync_all()
}
