//! Why a read of trees fails.

ghost use Rattle.std.specs.Prelude.{◌≡◌};
ghost use Rattle.esc_store.specs.Reading.{fault_of_scan};

use crate::cause::Cause;
use crate::fault::StoreFault;
use esc_scan::rows::ScanError;
use sqlite_trees::error::StoreError;

impl From<ScanError> for StoreFault {
    ghost from_gives = { λ error fault. fault ≡ fault_of_scan error };

    fn from(error: ScanError) -> StoreFault {
        match error {
            ScanError::Store(StoreError::OutOfMemory) => StoreFault::NoMemory,
            ScanError::Store(error) => StoreFault::Failed(Cause::Trees(error)),
            ScanError::Foreign => StoreFault::Failed(Cause::ForeignTree),
        }
    }
}
