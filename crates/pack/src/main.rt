//! `pack`: makes the files of a release.
//!
//! - `pack manifest BUNDLE..` prints the release manifest of these bundle files, in the order of
//!   places ([`esc_pack::Release`], whose contract says what it prints).
//! - `pack bundle --envelope FILE DIR OUT` writes the bundle of the files of DIR, whose tables FILE
//!   declares ([`esc_pack::bundle_of_files`], whose contract says what is read of it).
//! - `pack describe DIR` proposes the description of a folder's files, by their names and headings
//!   ([`esc_pack::describe_files`], whose contract says what is read of it), and says what the
//!   files don't.
//! - `pack check --manifest FILE DIR` says of each file of DIR what `restore take` would find of it
//!   ([`esc_pack::forecast_of`], whose contract says what that is), and which deposits that the
//!   manifest FILE lists no file has.
//! - `pack --version`, `pack --help`.
//!
//! Refusals go to standard error, and no manifest is printed then: `E1 PATH` for a file or a folder
//! that can't be read (`E1 -`: standard output can't be written), `E2 PATH` for a file over
//! 16,777,216 bytes, `U9 PATH` for a bundle that is no deposit (with `row 2` for a row of a file
//! with another number of fields, or with one that is no UTF-8), `M10 PATH row 2 against OTHER` for
//! deposits that no manifest can list, `M10 row 2` for a FILE that is no manifest, `N1 NAME` for a
//! file whose name `restore take` refuses, `H1 PATH` for a file that doesn't begin with its
//! heading, `H2 PATH` for rows that begin with a byte order mark, `H3 DIR` for a folder whose
//! description doesn't read back, `S2` when out of memory. A control character in a path is
//! escaped. With `--verbose` a second line says why it is E1, E2, N1 or S2. Where files are too large
//! for one bundle, a further line says what makes a series of them. `manifest` and `check` tell a
//! bundle whose envelope names another TLD than the first one's: `other tld PATH: net, that of OTHER
//! is com`. The status is 0 where all went well; 1 for E2, N1, U, M and H, and where `check` found a
//! file that is not `A1`; 2 for invalid usage; 3 for E1 and S2.
//!
//! | Module | Does |
//! |---|---|
//! | `command_line` | the table of the commands and its texts; from the words to the status |
//! | `manifest` | `manifest`: the manifest of bundles, or the bundles that none can list |
//! | `bundle` | `bundle`: a description and the files of a folder, as one bundle |
//! | `describe` | `describe`: the description of a folder |
//! | `check` | `check`: what would be found of a folder's files |
//! | `forecast_lines` | the lines of `check` |
//! | `fields` | the fields that the desk won't look at, by names that look as if it did |
//! | `files` | reads bundles, files and their first lines, and writes a bundle in one step |
//! | `tlds` | the TLDs of bundles; one that is another than the others' |
//! | `stop` | what the program stops for, its text and its status |
//!
//! What `restore` does alike is in [`esc_cli`]: the commands as `clap` is told of them, the
//! reading of files and folders, and names on one line.
//!
//! By proof: that no call is unsafe and that each ends, whatever the words and files are.
#![tactic(auto)]

mod bundle;
mod check;
mod command_line;
mod describe;
mod fields;
mod files;
mod forecast_lines;
mod manifest;
mod series;
mod stop;
mod tlds;

use command_line::run_words;
use esc_cli::{Asked, given_words, print_invalid_utf8};
use std::process::ExitCode;
use stop::{Stop, tell_stop};

fn main(rt: HostRuntime) -> ExitCode {
    ExitCode::from(run(&rt))
}

// Runs the program on its words and its two streams.
fn run(rt: &HostRuntime) -> u8 {
    match given_words(rt, "pack") {
        Ok(Some(given)) => run_words(rt, &given, &mut rt.stdout(), &mut rt.stderr()),
        Ok(None) => print_invalid_utf8(&mut rt.stderr()),
        Err(_) => tell_stop(rt, &mut rt.stderr(), Asked::NOTHING, &Stop::NoMemory),
    }
}
