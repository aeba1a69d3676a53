//! The trees of a store's two files.

ghost use Rattle.std.specs.Prelude.{IsTrue, IfOk};
ghost use Rattle.sqlite_store.specs.Unopened.{state_of, image, AreUsable};
ghost use Rattle.sqlite.specs.Files.{image_of};
ghost use Rattle.esc_scan.specs.Opening.{IsHonestOpening, IsOfUse, IsOpeningAt, IsOpeningOf};

use crate::opening::listing::{list_tables, open_error};
use crate::opening::probing::{is_plain, unopened};
use crate::opening::reading::typed_trees;
use sqlite::{Error, Options};
use sqlite_disk::{Disk, Files};
use sqlite_store::{FileStore, Unopened};
use sqlite_wal::probe_page_size;
use std::alloc::Global;

mod listing;
mod probing;
mod reading;

/// What comes of opening the files of a store by its trees.
#[derive(Drop)]
pub enum Opened<D: Disk> {
    /// The trees, each with the rows of its table, that of the version among them.
    Trees(FileStore<D>),
    /// The files, to be opened by a `Connection`, which also says what they are: they don't hold
    /// the tables of a store, their pages keep sums, or memory or a read failed.
    Refused(Files<D>),
}

/// Opens two files by the trees of the store that they hold. Its rows aren't looked at, so the
/// version is still to be tested (`find_version`). The log is recovered, and each page, B-tree and
/// entry is checked. An error of a `Connection` where the disk or memory fails, or where the list
/// of the tables can't be read.
pub fn open_trees<D: Disk + Drop>(
    alloc: Global,
    mut files: Files<D>,
    options: Options,
) -> Result<Opened<D>, Error>
    requires log { IsTrue (D.Disk.is_usable files.log) }
    requires db { IsTrue (D.Disk.is_usable files.db) }
    ensures of_use { IfOk result IsOfUse }
    ensures opened { IfOk result (λ it.
        IsHonestOpening it → IsOpeningOf (image_of D.Disk files) it) }
{
    let Ok(Some(size)) = probe_page_size(&mut files) else {
        return Ok(Opened::Refused(files));
    };
    if !is_plain(alloc, &mut files, size) {
        return Ok(Opened::Refused(files));
    }
    match unopened(alloc, files, size, options) {
        Ok(fresh) => listed_trees(alloc, fresh),
        Err(files) => Ok(Opened::Refused(files)),
    }
}

/// The trees of files with pages of a length, once the tables are listed with the files' own texts.
fn listed_trees<D: Disk + Drop>(alloc: Global, mut files: Unopened<D>) -> Result<Opened<D>, Error>
    requires usable { AreUsable files }
    ensures of_use { IfOk result IsOfUse }
    ensures honest { IfOk result (λ it. IsHonestOpening it → IsTrue (state_of files).is_clean) }
    ensures opened { IfOk result (λ it. IsHonestOpening it
        → IsOpeningAt (state_of files).page_size (image files) it) }
{
    if !list_tables(alloc, &mut files)? {
        return Ok(Opened::Refused(files.close()));
    }
    match typed_trees(files) {
        Ok(store) => Ok(Opened::Trees(store)),
        Err((error, left)) => {
            let files = left.close();
            if files.may_be_used() {
                Ok(Opened::Refused(files))
            } else {
                Err(open_error(error))
            }
        }
    }
}
