//! What the files of a database are opened with: the length of its pages.

ghost use Rattle.std.specs.Prelude.{◌≡◌, IsTrue, IfOk, IfErr};
ghost use Rattle.sqlite_wal.specs.PageSize.{bytes_of};
ghost use Rattle.sqlite_wal.specs.Reads.{AreClean, OnlyReads};
ghost use Rattle.sqlite_store.specs.Unopened.{state_of, files_of};
ghost use Rattle.sqlite.specs.Files.{image_of};
ghost use Rattle.esc_scan.specs.Opening.{IsPlain};

use sqlite_disk::{Disk, Files};
use sqlite_pager::{Options, Pager};
use sqlite_store::Unopened;
use sqlite_wal::{PageSize, probe_first_page};
use std::alloc::{AllocFailed, Global};

/// Bytes 20 to 23 of a database's header, where no byte of a page is reserved for a sum.
const PLAIN: u32 = 0x0040_2020;

/// Whether the first page begins as that of a database whose pages keep no sums. Nothing is
/// written. It is false also where memory or a read fails.
pub(super) fn is_plain<D: Disk>(alloc: Global, files: &mut Files<D>, size: PageSize) -> bool
    requires log { IsTrue (D.Disk.is_usable files.old.log) }
    requires db { IsTrue (D.Disk.is_usable files.old.db) }
    ensures plain { IsTrue result → AreClean D.Disk files.new.log files.new.db
        → IsPlain (bytes_of size) (image_of D.Disk files.old) }
    ensures log { OnlyReads D.Disk files.old.log files.new.log }
    ensures db { OnlyReads D.Disk files.old.db files.new.db }
{
    let Ok(head) = probe_first_page(alloc, files, size) else {
        return false;
    };
    head.0 == b'S' && head.1 == PLAIN
}

/// The files with pages of this length and no schema yet, or the files again for lack of memory.
pub(super) fn unopened<D: Disk>(
    alloc: Global,
    files: Files<D>,
    size: PageSize,
    options: Options,
) -> Result<Unopened<D>, Files<D>>
    ensures back { IfErr result (λ left. (left.log ≡ files.log) × (left.db ≡ files.db)) }
    ensures files { IfOk result (λ it. files_of it ≡ (files.log, files.db)) }
    ensures size { IfOk result (λ it. (state_of it).page_size ≡ bytes_of size) }
{
    let pager = match Pager::new(alloc, files, size, options) {
        Ok(pager) => pager,
        Err(AllocFailed { value }) => return Err(value),
    };
    match Unopened::new(alloc, pager, &[]) {
        Ok(fresh) => Ok(fresh),
        Err(AllocFailed { value }) => Err(value.close()),
    }
}
