//! Reads manifests and bodies, and says what stops a command at a path.

ghost use Rattle.std.specs.Prelude.{◌≡◌, Ok, IfOk, IfErr};
ghost use Rattle.esc_manifest.specs.Manifest.{manifest_of};
ghost use Rattle.esc_arguments.specs.Refusals.{IsManifestStop, IsStopAt};

use crate::stop::{NO_MEMORY, Stop};
use esc_cli::{Links, read_front, read_whole};
use esc_manifest::{Manifest, read_manifest};
use std::alloc::Global;
use std::io::{Error, ErrorKind};

/// The stop for a path that can't be read, listed or written: `E1 PATH`, or `S2` where memory was
/// refused.
pub fn stop_at(rt: &HostRuntime, path: &str, error: Error) -> Stop
    ensures { IsStopAt path.now error result }
{
    if error.kind() == ErrorKind::OutOfMemory {
        return NO_MEMORY;
    }
    match String::from_str(rt.alloc(), path) {
        Ok(path) => Stop::Unreadable { path, error },
        Err(_) => NO_MEMORY,
    }
}

/// What a call at a path returned, or the stop for it.
pub fn or_stop<T>(rt: &HostRuntime, path: &str, outcome: Result<T, Error>) -> Result<T, Stop>
    ensures stop { IfErr outcome (λ error. IfErr result (IsStopAt path.now error)) }
{
    match outcome {
        Ok(value) => Ok(value),
        Err(error) => Err(stop_at(rt, path, error)),
    }
}

// The text of a manifest in a plain file, or in one that a link leads to. Of a file that is too
// long only the first bytes are read, one more than a manifest has at most.
fn read_manifest_text(rt: &HostRuntime, path: &str) -> Result<Vec<u8>, Stop> {
    let front = read_front(
        rt,
        path,
        Links::Followed,
        esc_manifest::MOST_MANIFEST_BYTES as u64,
    );
    or_stop(rt, path, front)
}

/// The manifest in a file.
pub(crate) fn manifest_of(rt: &HostRuntime, path: &str) -> Result<Manifest, Stop> {
    let text = read_manifest_text(rt, path)?;
    manifest_in(rt.alloc(), &text)
}

/// The text of an amendment in a file, which is a manifest by itself: the faults that it has so
/// come before those of the store.
pub(crate) fn amendment_of(rt: &HostRuntime, path: &str) -> Result<Vec<u8>, Stop> {
    let text = read_manifest_text(rt, path)?;
    let _ = manifest_in(rt.alloc(), &text)?;
    Ok(text)
}

/// The manifest that a text reads as, or its refusal.
pub(crate) fn manifest_in(alloc: Global, text: &[u8]) -> Result<Manifest, Stop>
    ensures accepted { IfOk result (λ manifest. manifest_of text.now ≡ Ok manifest) }
    ensures cause { IfErr result (IsManifestStop text.now) }
{
    match read_manifest(alloc, text) {
        Ok(manifest) => Ok(manifest),
        Err(fault) => Err(Stop::Manifest(fault)),
    }
}

/// The body in a plain file, which may not be a link. `None` if the file can be read, and is too
/// long for a body.
pub fn read_body(rt: &HostRuntime, path: &str) -> Result<Option<Vec<u8>>, Stop> {
    let body = read_whole(rt, path, Links::Refused, esc_bundle::MOST_BYTES as u64);
    or_stop(rt, path, body)
}
