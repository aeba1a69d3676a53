//! The trees of a store, once its tables are listed.

ghost use Rattle.std.specs.Prelude.{IsTrue, IfOk, IfErr};
ghost use Rattle.sqlite_store.specs.FileStore.{state, view, IsReady};
ghost use Rattle.sqlite_store.specs.Unopened.{state_of, wanted_by, image, AreUsable, Opens};
ghost use Rattle.esc_scan.specs.Opening.{AreTreesAt, AreTreesBy, HasTables, ReadsStoreAt};
ghost use Rattle.esc_scan.specs.Reads.{ReadsTables, ReadsIndexes};

use sqlite_disk::Disk;
use sqlite_store::{FileStore, OpenError, Unopened};

/// The trees of files, for reading: what the files recover to. Each table and each index of the
/// schema reads as in the database that the files hold.
fn numbered_trees<D: Disk>(files: Unopened<D>) -> Result<FileStore<D>, (OpenError, Unopened<D>)>
    requires usable { AreUsable files }
    ensures ready { IfOk result IsReady }
    ensures honest { IfOk result (λ store. IsTrue (state store).is_clean
        → IsTrue (state_of files).is_clean) }
    ensures found { IfOk result (λ store. IsTrue (state store).is_clean → AreTreesBy
        (state_of files).page_size (image files) (wanted_by files) (view store).trees) }
    ensures tables { IfOk result (λ store. IsTrue (state store).is_clean → ReadsTables
        (state_of files).page_size (image files) (wanted_by files) (view store).trees) }
    ensures indexes { IfOk result (λ store. IsTrue (state store).is_clean → ReadsIndexes
        (state_of files).page_size (image files) (wanted_by files) (view store).trees) }
    ensures falls { IfErr result (λ left. IsTrue (state_of left.1).is_clean
        → IsTrue (state_of files).is_clean) }
    ensures unharmed { IfErr result (λ left. IsTrue (state_of left.1).is_clean
        → Opens files (state_of left.1)) }
{
    match files.open_numbered() {
        Ok(store) => Ok(store),
        Err(left) => Err(left),
    }
}

/// The trees of a store's files, opened with the eight tables of a store: each is the rows of its
/// table. The files are given back with the reason why they were not opened.
pub(super) fn typed_trees<D: Disk>(
    files: Unopened<D>,
) -> Result<FileStore<D>, (OpenError, Unopened<D>)>
    requires usable { AreUsable files }
    requires tables { HasTables (wanted_by files) }
    ensures ready { IfOk result IsReady }
    ensures honest { IfOk result (λ store. IsTrue (state store).is_clean
        → IsTrue (state_of files).is_clean) }
    ensures found { IfOk result (λ store. IsTrue (state store).is_clean → AreTreesAt
        (state_of files).page_size (image files) (view store).trees) }
    ensures reads { IfOk result (λ store. IsTrue (state store).is_clean → ReadsStoreAt
        (state_of files).page_size (image files) (view store).trees) }
    ensures falls { IfErr result (λ left. IsTrue (state_of left.1).is_clean
        → IsTrue (state_of files).is_clean) }
    ensures unharmed { IfErr result (λ left. IsTrue (state_of left.1).is_clean
        → Opens files (state_of left.1)) }
{
    match numbered_trees(files) {
        Ok(store) => Ok(store),
        Err(left) => Err(left),
    }
}
