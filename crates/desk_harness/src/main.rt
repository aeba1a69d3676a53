//! `desk_harness`: a desk over files in memory that does what it is told, for tests alone.
//!
//! It reads lines from standard input, and answers each with lines of text and then a line with a
//! dot. The desk is over two files in memory, the log and the database, which are empty at first.
//! Words are separated by a space. A PATH has none, and leads from the current folder.
//!
//! Each of these lines leaves the database as a crash of the program would, with nothing written,
//! but for `reopen`. Their answers are empty. The next other line opens it again; where that is
//! refused, the refusal is its answer.
//!
//! | Line | What it does |
//! |---|---|
//! | `fail log N`, `fail database N` | the call of that file after N further ones fails, once; all bytes are synced |
//! | `stop log N`, `stop database N` | each call of that file after N further ones fails; all bytes are synced |
//! | `crash written` | no call fails any more; all bytes are synced |
//! | `crash synced` | no call fails any more; the files have what was synced alone |
//! | `room LOG CACHE` | so many pages the log may have before it is copied into the database file, and so many that were read are kept in memory; 1,000 and 2,000 at first |
//! | `reopen` | closes the database as a program does: what is in the log is copied into the database file |
//! | `failed` | answers whether no call is to fail any more |
//!
//! Where no desk is open (else the answer is `a desk is open`):
//!
//! | Line | What it does, and its answer |
//! |---|---|
//! | `create PATH` | makes a store of the manifest in PATH: `created`, or the refusal |
//! | `open` | opens the store: `opened`, or the refusal |
//! | `migrate` | migrates a store of version 1: `migrated`, or the refusal |
//! | `script PATH` | runs the statements in PATH: an empty answer |
//! | `query STATEMENT` | a line for each row: NULL is `none`, a blob `x` and its hexadecimal digits |
//!
//! Where one is (else the answer is `no desk`):
//!
//! | Line | What it does, and its answer |
//! |---|---|
//! | `comes NUMBER PATH` | a body arrives: the reply and the work, or the refusal |
//! | `amend PATH` | a manifest is amended: how many rows were added and the work, or the refusal |
//! | `as-of MOMENT` | a moment is set, or taken back by `latest`: the work, or the refusal |
//! | `run N` | the next N lines are events as above, and given to the desk in one call: a line for each, without its work |
//! | `status`, `receipts`, `parked`, `moment` | the report, as `restore report` prints it |
//! | `end`, `held`, `tables`, `writes` | the end of the chain and the counts that it declares; the held rows; the objects; the desk's count of writes |
//! | `chain` | a line for each step of the chain |
//! | `request PATH` | the HTTP request in PATH is served: `served` and the time, and the response in hexadecimal digits after `x` |
//! | `request PATH PAUSE PIECE READABLE WRITABLE flowing` | the same of a client that waits PAUSE milliseconds before each PIECE bytes that it sends, by a clock that moves only while it is waited for; so many bytes are read before a read fails, and written before a write does: `read fault` or `write fault` and the time, and what was written. With `stuck` in place of `flowing` the flush fails |
//! | `taken PATH PAUSE PIECE` | the same of a client that takes its response so: what came of it, and the time |
//! | `close` | the desk is closed, and the database stays open |
//!
//! It ends with its input. Where memory runs out, a statement is refused or a file can't be read,
//! it ends with a line on standard error and status 1.
//!
//! By proof: that no call is unsafe and that each ends; and that a file whose calls fail is a
//! `Disk` (`sqlite_disk`), so that what is proved of every disk holds of it. The other functions
//! have no clause.
//!
//! # Example
//!
//! ```text
//! create manifest.csv
//! comes 1 f1.bundle
//! held
//! ```
//!
//! is answered by
//!
//! ```text
//! created
//! .
//! 1,1,A1,,F1,0,new,0; cleared false, 0 undone, 1 applied, 3 written, 3 counted
//! .
//! lists 1, holds 0
//! .
//! ```
#![tactic(auto)]

mod database;
mod desks;
mod disks;
mod events;
mod input;
mod lines;
mod looks;
mod requests;
mod texts;

use lines::play;
use std::test::Fail;

fn main(rt: HostRuntime) -> Result<(), Fail> {
    play(&rt)
}
