//! What a crash leaves of a desk, and what the next open finds: a reply that was sent is kept.
//!
//! A sender may throw a deposit away once it holds the reply. So whatever stops the desk, and
//! wherever, the next open has to find every arrival that was answered. `esc_desk` says what a
//! crash may leave while a desk is open; this crate follows it through the desk's two files (the
//! database and its log) to the next open.
//!
//! A program is given a path, and its disk is the system's:
//!
//! - [`new_desk_at`] makes a store of a manifest in the files at a path, [`open_desk_at`] opens
//!   that of the files at a path, and [`migrated_desk_at`] one of version 1; each gives the desk
//!   over it, or the [`PathFault`]. The last two make no file.
//! - [`reader_at`] gives a reader of the store of the files at a path, which stay as they are
//!   (`esc_read_only`). A reader goes over the store's trees, without SQL, once their version was
//!   tested; another row is tested where it is read. It makes no file.
//! - [`check_access`] gives the error of the system where it doesn't let a file be opened, to be
//!   read alone or to be written.
//! - [`close_desk`] copies what is still in the log into the database, and gives the files.
//!
//! Over any connection or disk, for instance one that fails from some call on:
//!
//! - [`new_desk`], [`open_desk`] and [`migrated_desk`] do the same with a connection's database.
//! - [`desk_of_files`] gives the desk over the store in two files, and [`reopen_desk`] closes a
//!   desk and opens it again.
//! - [`files_of`] gives the files of a desk as they are, as a crash would find them: nothing is
//!   written.
//!
//! What goes in are paths, connections (`sqlite`) or files, and manifests; what comes out are desks
//! ([`Desk`](esc_desk::Desk)), readers ([`StoreReader`](esc_store::StoreReader)) and files. Where the
//! database fails, or is no store, the result is the `StoreFault`.
//!
//! # Example
//!
//! A test puts both files on a disk that fails from some call on, has arrivals come until one is
//! refused, takes the files as a crash leaves them, and opens them again:
//!
//! ```text
//! let mut desk = new_desk(alloc, connection, &manifest)?;
//! desk.arrive(alloc, &number("1")?, f1)?;           // answered: receipt 1
//! let refused = desk.arrive(alloc, &number("2")?, d2);  // S1: the disk has failed
//! let mut files = files_of(desk);
//! files.log.crash();
//! files.db.crash();
//! let mut desk = desk_of_files(alloc, files, Options::new(7))?;
//! // the desk has receipt 1, and receipt 2 or not; number 2, sent again, gets receipt 2
//! ```
//!
//! # What is promised
//!
//! An event that was refused by `S1` or `S2` is *in doubt*: a crash may leave it taken in. No event
//! is in doubt in a new store or in one that was just opened, nor after a later event that changed
//! a table. `CrashLeaves` (`crates/esc_desk/specs/Crashes.antt`) says that any database that a
//! crash may leave is a store of the events so far (those that were taken in), or of them and one
//! of those in doubt; the contracts of `Desk::run_events`, `Desk::arrive`, `Desk::amend` and
//! `Desk::as_of` carry it from call to call, and those here carry it on:
//!
//! 1. `new_desk` begins it (`IsNewOn`): the desk reflects the manifest alone, and no event is in
//!    doubt. A crash while the store is made leaves a database without tables, or the new store. A
//!    desk is given only where the database had no table, index or view, and `S3` only where it has
//!    one. `migrated_desk` goes on from a store of version 1 (`IsMigratedOn`).
//! 2. `files_of`: each pair of files that a crash may leave holds a store of the events so far, or
//!    of them and one of those in doubt (`HoldsOneOf`). That it writes nothing, no clause says.
//!    `close_desk`: the files hold a store of the events so far, and so they do after a crash.
//! 3. `open_desk_at` and `desk_of_files` (`IsOpenedFrom`): where the files hold a store of a list
//!    of events (`HoldsStoreFor`), as files do that were closed, the desk reflects this list, and
//!    none is in doubt. Where they are what a crash left, it reflects the events so far, or them
//!    and one of those in doubt, and none is in doubt any more (`ServesOneOf`). What is opened has
//!    the nine tables and version 2. `migrated_desk_at` says the same of files that hold a store of
//!    version 1 (`IsMigratedFrom`). `reopen_desk`: the desk reflects what it reflected before, and
//!    none is in doubt. A reader of `reader_at` reflects the same list as a desk would. Its trees
//!    are what the files read as, whatever they hold, and have version 2 (`IsReaderFrom`).
//!
//! From there on `Desk::arrive` promises that a duplicate of an earlier arrival has the first one's
//! reply. So an arrival that was answered before the crash has the same reply after it, and one in
//! doubt is sent again and gets a receipt, once.
//!
//! Each of these clauses has the premise that the disk gave back what was written to it, and what a
//! crash may leave of two files is `sqlite`'s promise over its disk. That an open succeeds is not
//! promised: memory or the disk may be refused. `Store::open` never returns `S3` on a store. No
//! clause ties files to a path, or says whether there is a file: that each program gives one path,
//! and that nothing is made where there was no file, is tested.
#![tactic(auto)]

mod connecting;
mod files;
mod leaving;
mod opening;
mod path;
mod reading;

pub use esc_store::Obstacle;
pub use files::{close_desk, desk_of_files, files_of, reopen_desk};
pub use opening::{migrated_desk, new_desk, open_desk};
pub use path::{
    Access, PathFault, check_access, is_missing, migrated_desk_at, new_desk_at, open_desk_at,
};
pub use reading::reader_at;
