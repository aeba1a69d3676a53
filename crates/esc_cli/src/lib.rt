//! What a program with commands shares with another: words, files, names on one line, and why a
//! command is refused.
//!
//! `restore`, `handover` and `pack` each have a table of commands, read files and folders, and print
//! refusals. What is the same in all is here, and needs no store. What they make of it, as the
//! numbers of refusals and the status of a run, is their own.
//!
//! What goes in: a table of commands with the words of a process, the path of a file or a folder,
//! or a name. What comes out: the words as `clap` matched them; a file's bytes, or the names in a
//! folder; a name as one line. A file that can't be read, and a text that can't be printed, are an
//! [`Error`](std::io::Error) without a path: the program adds its own words. If memory is refused,
//! the kind of that is `OutOfMemory`.
//!
//! | Module | Does |
//! |---|---|
//! | `table` | the table of a program's commands, of which `clap` is told |
//! | `words` | the words of the process |
//! | `answers` | prints what `clap` answers in place of a command: help, or what is wrong |
//! | `files` | reads plain files up to a length, and lists the plain files of a folder |
//! | `one_line` | a name or a path as a refusal prints it |
//! | `why` | prints a refusal, and with `--verbose`, which every command has, why it is one |
//! | `system` | what the system says of a file, in words |
//!
//! # Example
//!
//! ```text
//! // pack manifest BUNDLE..
//! static PROGRAM: Program = Program {
//!     name: "pack",
//!     // ..
//!     commands: &[Subcommand {
//!         name: "manifest",
//!         about: "Prints the release manifest of these bundles, in the order of places",
//!         details: None,
//!         arguments: &[Argument { id: "bundle", form: ArgumentForm::Words, .. }],
//!     }],
//! };
//!
//! let matches = match PROGRAM.matches_of(alloc, &words) {
//!     Ok(matches) => matches,
//!     // help: printed on `out`, and 0; a mistake in the words: printed on `err`, and 2
//!     Err(answer) => return print_answer(alloc, &answer, out, err),
//! };
//! match read_whole(rt, path, Links::Followed, 16_777_216) {
//!     Ok(Some(bytes)) => ..                    // at most so many
//!     Ok(None) => ..                           // there are more
//!     Err(error) => {                          // a pipe, nothing at all, or out of memory
//!         let asked = Asked::of(&matches);
//!         let why = Why { command: asked.command, path, cause: SystemCause(error) };
//!         // E1 PATH, and with --verbose `why: manifest PATH: there is no such file or folder`
//!         print_refusal(alloc, err, line, asked.is_verbose, &why)
//!     }
//! }
//! ```
//!
//! # What the contracts mean
//!
//! By proof: that no call is unsafe and that each ends, whatever the words and files are; that
//! [`read_whole`] gives no more bytes than it is asked for at most (`bound`); that the names that
//! [`plain_files`] gives are in byte order (`rising`); and that [`print_answer`] gives status 0 for
//! help and for a version (`asked`), and 2 for a mistake (`mistaken`). [`print_refusal`] prints the
//! refusal alone (`short`), and with `--verbose` one line more, after it (`told`); [`print_why`]
//! that line or nothing (`line`, `silent`). No contract can say what a file holds, which names a
//! folder has, or what the texts of help and causes are, so these are tested on the built programs,
//! by the cases of `tests/`.
#![tactic(auto)]

mod answers;
mod files;
mod one_line;
mod system;
mod table;
mod why;
mod words;

pub use answers::{DONE, USAGE, print_answer};
pub use files::{Links, Listing, path_in, plain_files, read_front, read_whole};
pub use one_line::OneLine;
pub use system::SystemCause;
pub use table::{Argument, ArgumentForm, Program, Subcommand};
pub use why::{Asked, Why, print_refusal, print_why};
pub use words::{given_words, print_invalid_utf8};
