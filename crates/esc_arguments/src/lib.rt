//! What a program over a store is called with, and what it says where it stops: the command line of
//! `restore`, the files that its words name, and the refusals that `handover` has too.
//!
//! What goes in: the words of the process, and the paths and the word for a moment in them. What
//! comes out: an [`Invocation`], the store and the [`Command`] that are asked for, with the
//! manifest or the moment of that; a body; or a [`Stop`], which has a line for standard error (`E1`
//! to `S5`) and a status. No store is opened here.
//!
//! | Module | Does |
//! |---|---|
//! | `command_line` | the table of the commands and its texts; from the words to what is asked for |
//! | `files` | reads manifests and bodies, and says what stops a command at a path |
//! | `moment` | the moment that a word names |
//! | `stop` | what a command stops for, its text and its status |
//!
//! What needs no store is in [`esc_cli`], which `pack` uses too: the commands as `clap` is told of
//! them, the reading of files and folders, and names on one line.
//!
//! # Example
//!
//! ```text
//! // restore as-of --store desk.db 2024-03-10T00:00:00Z
//! let matches = match matches_of(rt.alloc(), &words) {
//!     Ok(matches) => matches,
//!     Err(error) => return print_error(rt, &error, out, err),   // help, or what is wrong: the status
//! };
//! let asked = Asked::of(&matches);
//! match invocation_of(rt, &matches) {
//!     Ok(Some(Invocation { store, command: Command::AsOf { moment } })) => ..
//!     Err(stop) => print_stop(rt, err, asked, &stop),           // E3 MOMENT, if it is no watermark: 1
//!     ..
//! }
//! ```
//!
//! # What the contracts mean
//!
//! By proof no call is unsafe, and each ends, whatever the words and files are.
//! `specs/Refusals.antt` says what some of them return: `moment_named` the moment that a word names
//! and `manifest_in` the manifest that a text is read as, or the stop with the word or the refusal;
//! [`or_stop`] the stop with the path and the system's error, which `--verbose` tells.
//! No contract can say what a file holds or what is printed, so the texts, the statuses and the
//! order of refusals are tested on the built program, by the cases of `tests/`.
#![tactic(auto)]

mod command_line;
mod files;
mod moment;
mod stop;

pub use command_line::{Command, Invocation, invocation_of, matches_of, print_error};
pub use files::{or_stop, read_body};
pub use stop::{NO_MEMORY, REFUSED, Stop, print_stop};
