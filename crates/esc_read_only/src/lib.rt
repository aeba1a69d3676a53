//! The two files of a store that is read, and stays as it is.
//!
//! Whoever reads a store need not have the right to write it: a copy on a disc, a folder of another
//! user. But the library's opening of a store (`sqlite_store`) writes: of a log it closes the place
//! behind the last commit, or makes a new header, and where there is no log it makes one. So the
//! files that are opened here are a disk for it of which nothing is ever written: what it writes
//! into the log goes into a copy in memory.
//!
//! - [`open`] opens the database file at a path, and its log. A path goes in; the two files come
//!   out, or why they can't be opened. No file is made.
//! - [`Untouched`] is such a file. As a disk (`sqlite_disk`) it is an [`UntouchedFrom`].
//!
//! A log is read into memory whole, since an opening writes into it; so is a database of one page
//! at most, which may be one that was not finished. Any other database is read where it is asked
//! for, and what is written into it is an error.
//!
//! A file that this process may write is locked as a writer locks it, so that none, `sqlite3`
//! neither, uses it meanwhile. Any other is locked so that others may read it too, and that none of
//! the desk's programs writes it; `sqlite3`, of a user who may, is not kept from it. As for a
//! writer, a file that has a second name, is none or lies behind a link at the log's name is
//! refused, and so is a database beside which a rollback journal stands.
//!
//! # Example
//!
//! ```text
//! let files = esc_read_only::open(rt, "desk.db", Unknown)?;
//! let opened = open_trees(alloc, files, options)?;        // esc_scan
//! ```
//!
//! # What is promised
//!
//! No clause can say what a file gives. So, as in `sqlite_std_file`, each call is noted with its
//! answer (`history`), in a log that takes no memory, and `sqlite_disk` says by the notes which
//! disk this is (`Modelled`): what is proved of a reader has the premise that these are the answers
//! of files that held what `S: Start` says, and were written as they were told. By proof:
//!
//! - each call of an `Untouched` notes what it was asked and what it answers (`sqlite_disk::Calls`);
//! - `open` gives files that were asked nothing since (`fresh`);
//! - what is written into a copy stands there, and nothing else is changed (`put`, `cut`); what is
//!   given are the copy's bytes (`give`).
//!
//! That a file is opened to be read, locked, and never written, is code to be read (`locking.rt`,
//! `content.rt`) and tested (`tests/cases/only_read.py`).
#![tactic(auto)]

mod content;
mod copy;
mod each;
mod loading;
mod locking;
mod notes;
mod opening;
mod untouched;

pub use content::Content;
pub use notes::{Call, Notes, Question};
pub use opening::{UntouchedFrom, open};
pub use untouched::Untouched;
