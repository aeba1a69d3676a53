//! `restore`: the restore desk's program.
//!
//! - `restore init --store FILE --manifest FILE` reads the release manifest, then makes a store;
//!   prints `listed N`.
//! - `restore amend --store FILE --manifest FILE` lists the rows of one more manifest; prints
//!   `added N`.
//! - `restore migrate --store FILE` makes a store of version 1 one of this version; prints
//!   `migrated`.
//! - `restore as-of --store FILE MOMENT` rebuilds the registry as of a moment (a watermark, or
//!   `latest`); prints where the chain ends.
//! - `restore take --store FILE DIR` takes every plain file of DIR in byte order of names, the name
//!   being the arrival's number, and prints the receipts report: its heading, and a line for each
//!   arrival as it is answered.
//! - `restore serve --store FILE --port P --count N` listens on port P of 127.0.0.1, prints
//!   `listening 127.0.0.1:P`, serves N connections one after the other, and ends.
//! - `restore report --store FILE WHAT` prints how far the desk has come (`status`), what each
//!   listed place waits for (`gaps`), what breaks a rule (`links`), the bodies that no row lists
//!   (`parked`), the `moment` that is set, or all `receipts`.
//! - `restore export --store FILE KIND` prints the export of one kind of objects.
//!
//! Each arrival, each amendment and each moment is a call of the desk ([`esc_desk::Desk::arrive`],
//! [`esc_desk::Desk::amend`], [`esc_desk::Desk::as_of`]), whose contract says what the store stands
//! for afterwards.
//!
//! Refusals go to standard error, one a line: `E1 PATH` for a file or folder that can't be read,
//! listed or written, `E2 NAME` for a file over 16,777,216 bytes, `E3 MOMENT` for a word that is no
//! moment, `N1 NAME` for a name that is no number, `M12 row 2` for a manifest's fault, and `S1` to
//! `S5` of the store. `S3` also says that there is no store FILE, or, to every command but
//! `migrate`, that it is of version 1. A control character in a path or a name is escaped. With
//! `--verbose` a second line says why it is E1, E2, N1 or S. Faults are found in this order: the
//! words, the moment, the manifest, the store, the folder, then file by file. The status is 0 where
//! all went well; 1 for a manifest's fault or E3, or where `take` met N1, E2 or a verdict other
//! than A1, and went on; 2 for invalid usage; 3 for S1 to S5 and E1, where it stops.
#![tactic(auto)]

use esc_arguments::{NO_MEMORY, print_stop};
use esc_cli::{Asked, given_words, print_invalid_utf8};
use esc_commands::run_words;
use std::net::{Net, TcpListener, TcpStream};
use std::process::ExitCode;

fn main(rt: HostRuntime) -> ExitCode {
    ExitCode::from(run(&rt, &rt))
}

// Runs the program on its words and its two streams.
fn run<N>(rt: &HostRuntime, net: &N) -> u8
where
    N: Net<Listener = TcpListener, Stream = TcpStream>,
{
    match given_words(rt, "restore") {
        Ok(Some(given)) => run_words(rt, net, &given, &mut rt.stdout(), &mut rt.stderr()),
        Ok(None) => print_invalid_utf8(&mut rt.stderr()),
        Err(_) => print_stop(rt, &mut rt.stderr(), Asked::NOTHING, &NO_MEMORY),
    }
}
