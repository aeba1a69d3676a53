//! The reader of the store of two files, by its trees.

ghost use Rattle.std.specs.Prelude.{◌≡◌, List, IsTrue, IfOk, IfErr};
ghost use Rattle.sqlite_wal.specs.Files.{image_at};
ghost use Rattle.sqlite.specs.Files.{over_files, image_of};
ghost use Rattle.esc_store.specs.Faults.{IsOpenFault};
ghost use Rattle.esc_store.specs.Reading.{AreHonest, AreOfVersion, IsHonestReader, trees_of};
ghost use Rattle.esc_events.specs.Events.{EventValue};
ghost use Rattle.esc_desk.specs.Readers.{ReaderReflects};
ghost use Rattle.esc_recovery.specs.PathFaults.{IsUnopenedOr};
ghost use Rattle.esc_recovery.specs.ReadImages.{AreReadFor, IsReaderFrom};

use crate::connecting::{options, untouched_files_at};
use crate::files::desk_of_files;
use crate::path::{PathFault, is_missing};
use esc_desk::StoreFault;
use esc_read_only::UntouchedFrom;
use esc_scan::opening::{Opened, open_trees};
use esc_store::{Cause, StoreReader};
use sqlite::{FileStore, Files, Options, Start};
use sqlite_disk::Disk;
use sqlite_trees::store::Store;
use std::alloc::Global;

/// A reader of the store of the files at a path, which stay as they are: neither the right to write
/// them nor a log is needed. The version was tested; another row is tested where it is read.
/// `start` says in the contract what the files hold. `Missing` where there is no file, which makes
/// none; `S3` where the files hold no store of this version; `S1`, `S2`.
pub fn reader_at<S: Start>(
    rt: &HostRuntime,
    path: &str,
    start: S,
) -> Result<StoreReader<FileStore<UntouchedFrom<S>>>, PathFault>
    ensures opened { IfOk result (λ reader. IsHonestReader over_files reader
        → IsReaderFrom over_files (image_at S.Start) reader) }
    ensures cause { IfErr result (IsUnopenedOr IsOpenFault) }
{
    if is_missing(rt, path) {
        return Err(PathFault::Missing);
    }
    let files = untouched_files_at(rt, path, start)?;
    let options = options(rt)?;
    reader_of_files(rt.alloc(), files, options)
}

// A reader of the store that two files hold.
fn reader_of_files<D: Disk + Drop>(
    alloc: Global,
    files: Files<D>,
    options: Options,
) -> Result<StoreReader<FileStore<D>>, PathFault>
    requires log { IsTrue (D.Disk.is_usable files.log) }
    requires db { IsTrue (D.Disk.is_usable files.db) }
    ensures opened { IfOk result (λ reader. IsHonestReader over_files reader
        → IsReaderFrom over_files (image_of D.Disk files) reader) }
    ensures cause { IfErr result (IsUnopenedOr IsOpenFault) }
{
    match open_trees(alloc, files, options)? {
        Opened::Trees(trees) => Ok(reader_over(alloc, trees)?),
        Opened::Refused(files) => Err(PathFault::Store(refusal_of(alloc, files, options))),
    }
}

// Why files aren't opened by trees, as the opening of a desk says it. Where that succeeds, the pages
// keep sums, which no store of this project does, or a failure has passed: `S1`.
fn refusal_of<D: Disk + Drop>(alloc: Global, files: Files<D>, options: Options) -> StoreFault
    requires log { IsTrue (D.Disk.is_usable files.log) }
    requires db { IsTrue (D.Disk.is_usable files.db) }
    ensures cause { IsOpenFault result }
{
    match desk_of_files(alloc, files, options) {
        Ok(_) => StoreFault::Failed(Cause::Unopened),
        Err(fault) => fault,
    }
}

// A reader over trees, which are dropped where there is none.
fn reader_over<S: Store + Drop>(alloc: Global, trees: S) -> Result<StoreReader<S>, StoreFault>
    ensures honest { IfOk result
        (λ reader. IsHonestReader S.Store reader → AreHonest S.Store trees) }
    ensures reflects { IfOk result (λ reader. IsHonestReader S.Store reader
        → (e : List EventValue) → AreReadFor (S.Store.view trees).trees e
        → ReaderReflects S.Store reader e) }
    ensures same { IfOk result (λ reader. IsHonestReader S.Store reader
        → (S.Store.view (trees_of reader)).trees ≡ (S.Store.view trees).trees) }
    ensures version { IfOk result (λ reader. IsHonestReader S.Store reader
        → AreOfVersion (S.Store.view trees).trees) }
    ensures cause { IfErr result IsOpenFault }
{
    match StoreReader::from_trees(alloc, trees) {
        Ok(reader) => Ok(reader),
        Err((fault, _)) => Err(fault),
    }
}
