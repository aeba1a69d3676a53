//! The two files of a store at a path, opened to be read alone.

ghost use Rattle.std.specs.Prelude.{true, false, IsTrue, IfOk};
ghost use Rattle.esc_read_only.specs.Untouched.{reading_is_usable, IsUnasked};

use crate::content::Content;
use crate::loading::loaded;
use crate::locking::{has_hot_journal, open_locked};
use crate::untouched::Untouched;
use sqlite_disk::{Files, Modelled, Start};
use sqlite_std_file::OpenError;
use std::fs::{self, File};
use std::hash::{BuildHasher, RandomState};
use std::io::{self, ErrorKind};

/// The longest page of SQLite.
const LONGEST_PAGE: u64 = 65_536;

/// A file that held what `S` says, and is only read.
pub type UntouchedFrom<S> = Modelled<Untouched, S>;

/// The log and the database file at a path, which stay as they are: none is made or written. `S`
/// says in the contract what they hold; its value is used up, so that it opens one pair.
pub fn open<S: Start>(
    rt: &HostRuntime,
    path: &str,
    _start: S,
) -> Result<Files<UntouchedFrom<S>>, OpenError>
    ensures log { IfOk result (λ files. IsTrue (reading_is_usable files.log)) }
    ensures db { IfOk result (λ files. IsTrue (reading_is_usable files.db)) }
    ensures fresh { IfOk result (λ files. IsUnasked true files.log × IsUnasked false files.db) }
{
    // As in SQLite, the files lie where a link leads, and no link is followed after that.
    let real = fs::canonicalize(rt, path)?;
    let file = open_locked(rt, real.as_str())?;
    let journal = format!(in rt.alloc(); "{}-journal", real.as_str())?;
    if has_hot_journal(rt, journal.as_str())? {
        return Err(OpenError::HotJournal);
    }
    let log_path = format!(in rt.alloc(); "{}-wal", real.as_str())?;
    let log = log_at(rt, log_path.as_str())?;
    let db = database_of(rt, file)?;
    let key = RandomState::new(rt)?.hash_one(&0u8);
    Ok(Files {
        log: Modelled::new(Untouched::new(log, key), true, key),
        db: Modelled::new(Untouched::new(db, key), false, key),
    })
}

// An opening writes into the log, so it is copied. Where there is none, it is empty.
fn log_at(rt: &HostRuntime, path: &str) -> Result<Content, OpenError> {
    match open_locked(rt, path) {
        Ok(file) => Ok(Content::Copy(loaded(rt.alloc(), &file)?, Some(file))),
        Err(OpenError::Io(error)) if error.kind() == ErrorKind::NotFound => {
            Ok(Content::Copy(Vec::new(rt.alloc()), None))
        }
        Err(error) => Err(error),
    }
}

// An opening writes into a file of a page or less, which may be one that was not finished.
fn database_of(rt: &HostRuntime, file: File) -> io::Result<Content> {
    if file.metadata()?.len() > LONGEST_PAGE {
        return Ok(Content::File(file));
    }
    Ok(Content::Copy(loaded(rt.alloc(), &file)?, Some(file)))
}
