//! The commands of the program, each over a store in a file.
//!
//! [`run_words`] is the whole program but for its process: it is given the words of the
//! process, of which the first is the program's name, and two streams to write to, does what the
//! words ask for, and returns the exit status.
//!
//! What goes in: words, a release manifest and bundles in files, or HTTP requests on a port. What
//! comes out: a store in a file, which the next command opens again; on standard output counts of
//! listed rows, the end of the chain, receipts, reports, exports or help; on standard error
//! refusals, one a line, and with `--verbose` a second line that says why (of `serve` for each
//! request that the desk refused); and the status.
//!
//! | Module | Does |
//! |---|---|
//! | `commands` | from the words to the status: opens the store at a path, or makes it, and closes it |
//! | `desk` | what a command does with the desk or the reader of its store |
//! | `export` | prints an export while the store is read |
//! | `take` | takes the plain files of a folder, in byte order of names |
//! | `serve` | serves connections on a port, one after the other, each within a time |
//! | `run` | one run of the program: the runtime, the network and its two streams |
//! | `ended` | what a command leaves at its end: a status, and a text to be printed |
//!
//! What the words ask for, the reading of manifests and bodies, and what a command stops for are in
//! [`esc_arguments`].
//!
//! # Example
//!
//! ```text
//! let words = ["restore", "report", "--store", "desk.db", "gaps"];   // as a list of `String`
//! let status = run_words(rt, net, &words, &mut rt.stdout(), &mut rt.stderr());
//! // 0, and the report is printed; 3 and `S3` on standard error, if there is no store desk.db
//! ```
//!
//! A report and an export read the store by its trees ([`esc_recovery::reader_at`]), and leave the
//! files as they are. All other commands, also `serve`, have a desk: as its store is opened,
//! indexes and references are tested, too. A row that no store writes is met where it is read.
//!
//! # Order of refusals
//!
//! The first of these that fails is reported: the words (status 2), the moment (`E3`, status 1),
//! the manifest (`M1` to `M13`, status 1, or `E1` where it can't be read), the store as it is
//! opened (`S1` to `S3`, or `E1` where its file can't be read and written), the union of an
//! amendment with the listed rows (`M1`, `M10` to `M13`), the folder or the port (`E1`), then file
//! by file (`N1`, `E1`, `E2`, `S4`, `S5`, and the verdict of the receipt, status 1). `S1` and `S2`
//! may come at any point once the store is opened. `S1` to `S5` and `E1` stop a command with status
//! 3; what was answered before stays, and so does what was printed of an export.
//!
//! # What is promised
//!
//! By proof: that no call is unsafe and that each ends, whatever the words, files and requests are.
//! What the desk of a path reflects, and what is left of it, is the contract of
//! [`esc_recovery::open_desk_at`], [`esc_recovery::new_desk_at`] and [`esc_recovery::close_desk`],
//! and what a reader of it reflects that of [`esc_recovery::reader_at`]; what it stands for after
//! an arrival, an amendment or a moment that of [`esc_desk::Desk::arrive`],
//! [`esc_desk::Desk::amend`] and [`esc_desk::Desk::as_of`], and after a migration that of
//! [`esc_recovery::migrated_desk`]. What a request is answered is that of [`esc_http::serve_one`],
//! how long its client is waited for that of [`esc_client::TimedStream`], and the texts of reports
//! are those of [`esc_reports::report`]. No contract can say what a file holds or what is printed, so
//! the texts, statuses and the order of refusals are tested on the built program, by the cases of
//! `tests/`.
#![tactic(auto)]

mod commands;
mod desk;
mod ended;
mod export;
mod run;
mod serve;
mod take;

pub use commands::run_words;
