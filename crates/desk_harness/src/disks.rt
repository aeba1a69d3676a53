//! The two files in memory, and what lines do to them while no database is open over them.

use crate::input::split;
use esc_desk::{Cause, StoreFault};
use esc_flaky::{Failures, FlakyDisk};
use sqlite::{Connection, FileStore, Files, Options};
use sqlite_disk::{Crash, Disk, Memory};
use std::alloc::Global;
use std::test::Fail;

/// A file in memory of which calls may fail.
pub type File = FlakyDisk<Memory>;

const NO_FAILURES: Failures = Failures { after: 0, count: 0 };

/// How much of a database is kept in memory, so that it isn't asked of the disk.
#[derive(Clone, Copy)]
pub struct Room {
    /// How many pages the log may have before it is copied into the database file.
    log_pages: usize,
    /// How many pages that were read.
    cache_pages: usize,
}

/// Everything.
const PLENTY: Room = Room {
    log_pages: 1_000,
    cache_pages: 2_000,
};

impl Room {
    /// How a database over files is opened.
    pub fn options(self) -> Options {
        Options {
            cache_pages: self.cache_pages,
            checkpoint_frames: self.log_pages,
            ..Options::new(7)
        }
    }
}

/// What a line does to the files.
#[derive(Clone, Copy)]
pub enum DiskChange {
    /// These calls of each fail from now on. All their bytes are synced.
    Failing { log: Failures, database: Failures },
    /// They have what was synced alone, and no call fails any more.
    Crash,
    /// So much of the database is kept in memory from now on.
    Room(Room),
    /// The database is closed as a program does it.
    Reopen,
    /// Nothing: it asks whether no call is to fail any more.
    Ask,
}

impl DiskChange {
    /// What a line does to the files, if it is about these.
    pub fn of(line: &str) -> Option<DiskChange> {
        let (word, rest) = split(line);
        match word {
            "fail" => failing(rest, 1),
            "stop" => failing(rest, u64::MAX),
            "crash" => crash(rest),
            "room" => room_of(rest),
            "reopen" => Some(DiskChange::Reopen),
            "failed" => Some(DiskChange::Ask),
            _ => None,
        }
    }
}

// The file whose calls fail, and after how many; so many of them.
fn failing(words: &str, count: u64) -> Option<DiskChange> {
    let (file, after) = split(words);
    let after = after.parse::<u64>().ok()?;
    let failures = Failures { after, count };
    match file {
        "log" => Some(DiskChange::Failing {
            log: failures,
            database: NO_FAILURES,
        }),
        "database" => Some(DiskChange::Failing {
            log: NO_FAILURES,
            database: failures,
        }),
        _ => None,
    }
}

// What a crash leaves.
fn crash(word: &str) -> Option<DiskChange> {
    match word {
        "written" => Some(DiskChange::Failing {
            log: NO_FAILURES,
            database: NO_FAILURES,
        }),
        "synced" => Some(DiskChange::Crash),
        _ => None,
    }
}

fn room_of(words: &str) -> Option<DiskChange> {
    let (log, cache) = split(words);
    Some(DiskChange::Room(Room {
        log_pages: log.parse::<usize>().ok()?,
        cache_pages: cache.parse::<usize>().ok()?,
    }))
}

/// The two files, and how much of a database over them is kept in memory.
#[derive(Drop)]
pub struct Disks {
    pub files: Files<File>,
    pub room: Room,
}

impl Disks {
    /// Files without a byte.
    pub fn new(alloc: Global) -> Disks {
        Disks {
            files: Files {
                log: FlakyDisk::new(Memory::new(alloc), NO_FAILURES),
                db: FlakyDisk::new(Memory::new(alloc), NO_FAILURES),
            },
            room: PLENTY,
        }
    }

    /// Whether no call is to fail any more.
    pub fn have_failed(&self) -> bool {
        self.files.log.has_failed() && self.files.db.has_failed()
    }

    /// The files after a change.
    pub fn changed(self, alloc: Global, change: DiskChange) -> Result<Disks, Fail> {
        let Disks { files, room } = self;
        match change {
            DiskChange::Failing { log, database } => Ok(Disks {
                files: copied(alloc, files, log, database)?,
                room,
            }),
            DiskChange::Crash => Ok(Disks {
                files: crashed(files),
                room,
            }),
            DiskChange::Room(room) => Ok(Disks { files, room }),
            DiskChange::Reopen | DiskChange::Ask => Ok(Disks { files, room }),
        }
    }
}

// A file with the same bytes, all of them synced, of which these calls fail.
fn copy_of(alloc: Global, file: File, failures: Failures) -> Result<File, Fail> {
    let memory = file.into_inner();
    let mut copy = Memory::new(alloc);
    copy.write_at(0, memory.bytes())?;
    copy.sync()?;
    Ok(FlakyDisk::new(copy, failures))
}

fn copied(
    alloc: Global,
    files: Files<File>,
    of_log: Failures,
    of_database: Failures,
) -> Result<Files<File>, Fail> {
    let Files { log, db } = files;
    let log = copy_of(alloc, log, of_log)?;
    let db = copy_of(alloc, db, of_database)?;
    Ok(Files { log, db })
}

fn crashed_file(file: File) -> File {
    let mut memory = file.into_inner();
    memory.crash();
    FlakyDisk::new(memory, NO_FAILURES)
}

fn crashed(files: Files<File>) -> Files<File> {
    let Files { log, db } = files;
    Files {
        log: crashed_file(log),
        db: crashed_file(db),
    }
}

/// A connection, or the refusal and the files.
pub fn connect<D: Disk + Drop>(
    alloc: Global,
    files: Files<D>,
    room: Room,
) -> Result<Connection<FileStore<D>>, (StoreFault, Files<D>)> {
    if !files.may_be_used() {
        return Err((StoreFault::Failed(Cause::Unopened), files));
    }
    match Connection::open_files(alloc, files, room.options()) {
        Ok(connection) => Ok(connection),
        Err((error, left)) => Err((StoreFault::from(error), left.into_files())),
    }
}

/// The files of a connection that is left as by a crash, or closed as by a program.
pub fn left_files<D: Disk + Drop>(
    connection: Connection<FileStore<D>>,
    is_closed: bool,
) -> Files<D> {
    if !is_closed {
        return connection.into_store().close();
    }
    match connection.close_files() {
        Ok(files) => files,
        Err((_error, store)) => store.close(),
    }
}
