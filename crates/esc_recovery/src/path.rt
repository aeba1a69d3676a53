//! The desk over the files at a path: how a program makes, opens and migrates its store.

ghost use Rattle.std.specs.Prelude.{◌≡◌, [], ◌∷◌, IfOk, IfErr};
ghost use Rattle.sqlite_wal.specs.Files.{image_at};
ghost use Rattle.sqlite.specs.Files.{over_files};
ghost use Rattle.esc_store.specs.Faults.{IsOpenFault};
ghost use Rattle.esc_store.specs.StoreTables.{IsBlank};
ghost use Rattle.esc_desk.specs.Calls.{DeskLeaves, IsHonestDesk};
ghost use Rattle.esc_desk.specs.Reflection.{DeskReflects};
ghost use Rattle.esc_events.specs.Events.EventValue.{listed};
ghost use Rattle.esc_recovery.specs.FileImages.{Holds, IsMigratedFrom, IsOpenedFrom};
ghost use Rattle.esc_recovery.specs.PathFaults.{IsUnopenedOr, path_fault_of, of_store};

use crate::connecting::connection_at;
use crate::opening::{desk_or_fault, migrated_desk, new_desk};
use esc_desk::{Desk, StoreFault};
use esc_manifest::Manifest;
use esc_store::Obstacle;
use sqlite::{Error, ErrorCode, FileFrom, FileStore, Start};
use std::fs::{self, File};
use std::io::{self, ErrorKind};

/// Why there is no desk over the files at a path.
#[derive(Clone, Copy, Debug, PartialEq, Eq)]
pub enum PathFault {
    /// There is no file, and none is made: `S3`.
    Missing,
    /// The files can't be opened, and what is in the way: the system doesn't let them be read and
    /// written, or the path means something else to SQLite than a file of that name.
    Unopened(Obstacle),
    /// `S1` to `S3` of the store.
    Store(StoreFault),
}

impl From<Error> for PathFault {
    ghost from_gives = { λ error fault. fault ≡ path_fault_of error };

    fn from(error: Error) -> PathFault {
        match error {
            Error::SqliteFailure(ErrorCode::CannotOpen) => PathFault::Unopened(Obstacle::Unknown),
            error => PathFault::Store(StoreFault::from(error)),
        }
    }
}

impl From<StoreFault> for PathFault {
    ghost from_gives = { λ fault path_fault. path_fault ≡ of_store fault };

    fn from(fault: StoreFault) -> PathFault {
        PathFault::Store(fault)
    }
}

/// The desk over the store of the files at a path. `start` says in the contract what they hold.
/// `Missing` where there is no file, which makes none; `S3` where the files hold no store of this
/// version; `S1`, `S2`.
pub fn open_desk_at<S: Start>(
    rt: &HostRuntime,
    path: &str,
    start: S,
) -> Result<Desk<FileStore<FileFrom<S>>>, PathFault>
    ensures opened { IfOk result (λ desk. IsHonestDesk over_files desk
        → IsOpenedFrom over_files (image_at S.Start) desk) }
    ensures cause { IfErr result (IsUnopenedOr IsOpenFault) }
{
    if is_missing(rt, path) {
        return Err(PathFault::Missing);
    }
    let connection = connection_at(rt, path, start)?;
    Ok(desk_or_fault(rt.alloc(), connection)?)
}

/// A desk over a new store of a manifest, made in the files at a path; where there are none, they
/// are made. `S3` where they hold a table, an index or a view; `S1`, `S2`.
pub fn new_desk_at<S: Start>(
    rt: &HostRuntime,
    path: &str,
    start: S,
    manifest: &Manifest,
) -> Result<Desk<FileStore<FileFrom<S>>>, PathFault>
    ensures serves { IfOk result (λ desk. DeskReflects over_files desk (listed manifest.now ∷ [])) }
    ensures left { IfOk result (λ desk. DeskLeaves over_files desk (listed manifest.now ∷ []) []) }
    ensures blank { IfOk result (λ desk. IsHonestDesk over_files desk
        → Holds IsBlank (image_at S.Start)) }
    ensures cause { IfErr result (IsUnopenedOr IsOpenFault) }
{
    let connection = connection_at(rt, path, start)?;
    match new_desk(rt.alloc(), connection, manifest) {
        Ok(desk) => Ok(desk),
        Err((fault, _)) => Err(PathFault::Store(fault)),
    }
}

/// The desk over the store of version 1 that the files at a path hold, which is made one of this
/// version. `start` says in the contract what they hold. `Missing` where there is no file, which
/// makes none; `S3` where the files hold no store of version 1; `S1`, `S2`.
pub fn migrated_desk_at<S: Start>(
    rt: &HostRuntime,
    path: &str,
    start: S,
) -> Result<Desk<FileStore<FileFrom<S>>>, PathFault>
    ensures migrated { IfOk result (λ desk. IsHonestDesk over_files desk
        → IsMigratedFrom over_files (image_at S.Start) desk) }
    ensures cause { IfErr result (IsUnopenedOr IsOpenFault) }
{
    if is_missing(rt, path) {
        return Err(PathFault::Missing);
    }
    let connection = connection_at(rt, path, start)?;
    match migrated_desk(rt.alloc(), connection) {
        Ok(migrated) => Ok(migrated),
        Err((fault, _)) => Err(PathFault::Store(fault)),
    }
}

/// What a command has to be let do with a file.
#[derive(Clone, Copy)]
pub enum Access {
    Read,
    /// To read and to write it.
    Write,
}

/// The error of the system where it doesn't let a file be opened for this. Makes no file.
pub fn check_access(rt: &HostRuntime, path: &str, access: Access) -> Result<(), io::Error> {
    // A pipe that is opened to be read alone is waited for until somebody writes it.
    let is_written = matches!(access, Access::Write) || !is_plain(rt, path);
    match File::options().read(true).write(is_written).open(rt, path) {
        Ok(_) => Ok(()),
        Err(error) => Err(error),
    }
}

fn is_plain(rt: &HostRuntime, path: &str) -> bool {
    match fs::metadata(rt, path) {
        Ok(found) => found.is_file(),
        Err(_) => false,
    }
}

/// Whether there is no file at a path: nothing of that name, or a plain file where the path has a
/// folder.
pub fn is_missing(rt: &HostRuntime, path: &str) -> bool {
    match fs::metadata(rt, path) {
        Ok(_) => false,
        Err(error) => matches!(error.kind(), ErrorKind::NotFound | ErrorKind::NotADirectory),
    }
}
