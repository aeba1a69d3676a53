//! The two files of a desk, and the desk over them.
//!
//! Each use of a `FileStore` as a store costs the prover many seconds. So what can be done with any
//! store is done by functions over any store.

ghost use Rattle.std.specs.Prelude.{List, [], IsTrue, IfOk, IfErr};
ghost use Rattle.sqlite_wal.specs.Files.{outcomes};
ghost use Rattle.sqlite_wal.specs.Reads.{AreClean};
ghost use Rattle.sqlite_wal.specs.Recovery.{Image};
ghost use Rattle.sqlite.specs.Files.{over_files, image_of};
ghost use Rattle.esc_store.specs.Faults.{IsFailure, IsOpenFault};
ghost use Rattle.esc_desk.specs.Calls.{ForDeskEvents, DeskLeaves, IsHonestDesk};
ghost use Rattle.esc_events.specs.Events.{EventValue};
ghost use Rattle.esc_desk.specs.Reflection.{DeskReflects};
ghost use Rattle.esc_recovery.specs.FileImages.{HoldsStoreFor, HoldsOneOf, IsOpenedFrom};

use crate::leaving::{connection_of, store_below};
use crate::opening::desk_or_fault;
use esc_desk::{Desk, StoreFault};
use sqlite::{Connection, Error, FileStore, Files, Options};
use sqlite_disk::Disk;
use std::alloc::Global;

/// The two files of a desk, as they are: nothing is written. Each pair of files that a crash may
/// leave of them holds a store that a crash may leave of the desk.
pub fn files_of<D: Disk + Drop>(desk: Desk<FileStore<D>>) -> Files<D>
    ensures left { AreClean D.Disk result.log result.db
        → (e doubtful : List EventValue)
        → DeskLeaves over_files desk e doubtful
        → (image : Image) → outcomes D.Disk result.log result.db image
        → HoldsOneOf image e doubtful }
{
    store_below(desk).close()
}

/// The desk over the store that two files hold, also where they are what a crash left. `S3` where
/// they hold no store of this version, `S1`, `S2`.
pub fn desk_of_files<D: Disk + Drop>(
    alloc: Global,
    files: Files<D>,
    options: Options,
) -> Result<Desk<FileStore<D>>, StoreFault>
    requires log { IsTrue (D.Disk.is_usable files.log) }
    requires db { IsTrue (D.Disk.is_usable files.db) }
    ensures honest { IfOk result (λ desk. IsHonestDesk over_files desk
        → AreClean D.Disk files.log files.db) }
    ensures opened { IfOk result (λ desk. IsHonestDesk over_files desk
        → IsOpenedFrom over_files (image_of D.Disk files) desk) }
    ensures cause { IfErr result IsOpenFault }
{
    let connection = match Connection::open_files(alloc, files, options) {
        Ok(connection) => connection,
        Err((error, _)) => return Err(fault_of(error)),
    };
    desk_or_fault(alloc, connection)
}

/// Closes a desk: what is still in its log is copied into its database. Then, and after a crash,
/// the two files hold a store of the events that the desk reflected. At `Err`, which is `S1` or
/// `S2`, the files are as a crash may leave those of the desk.
pub fn close_desk<D: Disk + Drop>(desk: Desk<FileStore<D>>) -> Result<Files<D>, StoreFault>
    ensures usable { IfOk result
        (λ files. IsTrue (D.Disk.is_usable files.log) × IsTrue (D.Disk.is_usable files.db)) }
    ensures holds { IfOk result (λ files. AreClean D.Disk files.log files.db
        → (e : List EventValue) → DeskReflects over_files desk e
        → HoldsStoreFor (image_of D.Disk files) e) }
    ensures left { IfOk result (λ files. AreClean D.Disk files.log files.db
        → (e : List EventValue) → DeskReflects over_files desk e
        → (image : Image) → outcomes D.Disk files.log files.db image → HoldsStoreFor image e) }
    ensures cause { IfErr result IsFailure }
{
    match connection_of(desk).close_files() {
        Ok(files) => Ok(files),
        Err((error, store)) => {
            drop(store.close());
            Err(fault_of(error))
        }
    }
}

/// The desk over the files of another, which is closed first: what is still in the log is copied
/// into the database. It reflects what the other reflected, and no event is in doubt any more.
/// `S1`, `S2`, or `S3` where what is read back is no store.
pub fn reopen_desk<D: Disk + Drop>(
    alloc: Global,
    desk: Desk<FileStore<D>>,
    options: Options,
) -> Result<Desk<FileStore<D>>, StoreFault>
    ensures serves { IfOk result (λ again. ForDeskEvents over_files desk again
        (λ e. DeskReflects over_files again e)) }
    ensures left { IfOk result (λ again. ForDeskEvents over_files desk again
        (λ e. DeskLeaves over_files again e [])) }
    ensures cause { IfErr result IsOpenFault }
{
    let files = close_desk(desk)?;
    desk_of_files(alloc, files, options)
}

// The desk's fault for an error of `sqlite`.
fn fault_of(error: Error) -> StoreFault
    ensures { IsFailure result }
{
    StoreFault::from(error)
}
