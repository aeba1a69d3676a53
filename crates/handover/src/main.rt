//! `handover`: what a rebuilt registry is handed over as.
//!
//! - `handover bundle --store FILE --id ID OUT` writes the tables of a store as one deposit, a Full
//!   at the watermark of the chain's end ([`esc_deposit::bundle_of`], whose contract says what is
//!   read of it), with `--series` in as many bundles as it needs ([`esc_deposit::write_series`],
//!   whose contract says the same of all of them).
//! - `handover check --store FILE` prints whether the registry may be taken over as it is, by this
//!   machine's clock or at the moment of `--now`: one line for each test of
//!   [`esc_acceptance::Test`] ([`esc_inspection::acceptance`], whose contract says of what the
//!   store reflects that each of them passes).
//! - `handover tables --store FILE DIR` writes the tables as CSV files
//!   ([`esc_table_files::write_tables`], whose contract states each text), with `--sqlite` as a
//!   database, and with `--postgres` the statements by which PostgreSQL loads them.
//! - `handover zone --store FILE --origin TLD --apex FILE --serial N OUT` writes the zone of the
//!   registry's top-level domain ([`esc_zone`], whose page has the forms of lines and refusals).
//! - `handover page --store FILE OUT` writes a page of HTML that shows the release and the
//!   registry, by the same time ([`esc_handover::page_of`], whose contract says that it loads and
//!   runs nothing, and that each text is escaped).
//! - `handover --version`, `handover --help`.
//!
//! It opens a store as `restore report` does, and changes nothing in it. Refusals go to standard
//! error, one a line, with the letters and numbers of `restore`: `E1 PATH` for a file that can't be
//! read or written, `E3 TIME` for a time that is no watermark, `S1` to `S3` of the store. `U4 OUT`,
//! `U6 OUT` and `U11 OUT` say that no deposit has these tables: they are too long or too many, the
//! id has another form, or there are too many rows; of a series with the kind and key of an object
//! that no bundle takes, or `M1 OUT` for over 4,096 bundles. Its own refusals are `H4 TABLE` for a
//! table whose rows have different fields, `H5 TABLE` for one whose key is in no field, `H6 TABLE`
//! for one whose rows begin with a byte order mark, `H7` for a store without a chain, `H8 OUT`
//! where the bundle that was made reads as other objects, `H9 TABLE` for two tables with the same
//! name but for case, `H10 TABLE` for a table that SQLite can't have, and `H11 TABLE` for one that
//! PostgreSQL can't load. `Z1` to `Z7` are those of `zone`. The status is 0 where all went well; 1
//! for E3, U, H and Z, and where a test of `check` is wrong; 2 for invalid usage; 3 for S and E1.
//! With `--progress` standard error says how far the work is, with `--verbose` why it is S or E1.
//!
//! | Module | Does |
//! |---|---|
//! | `command_line` | the table of the commands and its texts; from the words to the status |
//! | `store_file` | opens the store in a file, and closes it |
//! | `bundle` | `bundle`: the tables as one deposit, in one bundle or in several |
//! | `clock` | what time it is, for `check` and `page`: as it is given, or by the clock |
//! | `tables` | `tables`: the tables as files |
//! | `zone` | `zone`: the zone as a file |
//!
//! What needs no desk is in [`esc_handover`]: what the bodies of a store say, texts and pages, how
//! files are written, how it is told how far the work is, and what the program stops for; and in
//! [`esc_table_files`]: which tables there are, and how they are written.
//!
//! By proof: that no call is unsafe and that each ends, whatever the words and files are.
#![tactic(auto)]

mod bundle;
mod clock;
mod command_line;
mod store_file;
mod tables;
mod walking;
mod zone;

use command_line::run_words;
use esc_cli::{Asked, given_words, print_invalid_utf8};
use esc_handover::{Stop, tell_stop};
use std::process::ExitCode;

fn main(rt: HostRuntime) -> ExitCode {
    ExitCode::from(run(&rt))
}

// Runs the program on its words and its two streams.
fn run(rt: &HostRuntime) -> u8 {
    match given_words(rt, "handover") {
        Ok(Some(given)) => run_words(rt, &given, &mut rt.stdout(), &mut rt.stderr()),
        Ok(None) => print_invalid_utf8(&mut rt.stderr()),
        Err(_) => tell_stop(rt, &mut rt.stderr(), Asked::NOTHING, &Stop::NO_MEMORY),
    }
}
