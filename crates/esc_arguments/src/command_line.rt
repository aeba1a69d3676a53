//! The command line: what the words after the program's name ask for.

use crate::files::{amendment_of, manifest_of, stop_at};
use crate::moment::moment_named;
use crate::stop::{Stop, print_stop};
use clap::builder::ValueParser;
use clap::{ArgMatches, Error};
use esc_cli::{Argument, ArgumentForm, Asked, Program, Subcommand, print_answer};
use esc_envelope::Kind;
use esc_manifest::Manifest;
use esc_reports::Report;
use std::alloc::Global;
use std::io::Write;

/// What the program is asked to do, with the store of a file.
#[derive(Drop)]
pub struct Invocation<'a> {
    /// The path of the store.
    pub store: &'a str,
    /// Whether standard error says how far the work is.
    pub is_watched: bool,
    pub command: Command<'a>,
}

/// What is to be done with a store.
#[derive(Drop)]
pub enum Command<'a> {
    /// Make it from a manifest.
    Init { manifest: Manifest },
    /// Make a store of version 1 one of this version.
    Migrate,
    /// List the rows of one more manifest, whose text this is.
    Amend { text: Vec<u8> },
    /// Rebuild the registry as of a moment, or without one.
    AsOf { moment: Option<i64> },
    /// Take a folder of deposits.
    Take { folder: &'a str },
    /// Listen on a port of 127.0.0.1, and serve `count` connections.
    Serve { port: u16, count: u32 },
    /// Print a report, or the export of one kind of objects.
    Report(Report),
}

const ABOUT: &str =
    "Rebuilds a domain name registry's tables from the escrow deposits that its agent released";

/// The version of the program, and that of the stores that it makes and opens.
const VERSION: &str = "1 (store version 2)";

const DETAILS: &str = "\
A release manifest is a CSV file that lists the deposits of a release, each with its id, type (FULL, INCR or DIFF),
watermark, previous id, resend and the SHA-256 of its bundle:

    id,type,watermark,prevId,resend,sha256
    F1,FULL,2024-03-03T00:00:00Z,,,4894e50d..

A bundle is one file with a deposit: the line 'escrow-bundle 1', its sections (envelope.json, then its CSV tables, each
headed by its name and length) and the line 'end'. Bundles may be taken in any order, and again: the tables hold what the
latest unbroken chain of the listed deposits that arrived says.

Example, with a folder of bundles named n1, n2 and so on:

    restore init --store desk.db --manifest manifest.csv
    restore take --store desk.db deposits
    restore report --store desk.db gaps
    restore export --store desk.db domain

Refusals go to standard error, one a line: E1 PATH (can't be read, listed or written), E2 NAME (over 16,777,216 bytes),
E3 MOMENT (it is no watermark), N1 NAME (the name is no number of an arrival), M1 to M13 with the row (the manifest), S1 (the
store failed), S2 (no memory), S3 (no store, one of another version, or a used database), S4 (the store is full), S5 (1,024
bundles wait for a row). With -v a second line says why, but for E3 and M: why: take desk.db: locked by another process.
Status: 0 done; 1 the manifest or the moment is refused, or a file was not taken as a listed deposit; 2 invalid usage; 3
stopped by S or E1.
";

const ROUTES: &str = "\
A connection carries one request. PUT /arrivals/NUMBER takes its body as an arrival, and needs its Content-Length; GET /status,
/gaps, /links, /receipts, /parked, /moment and /export/KIND give the reports. Example:

    restore serve --store desk.db --port 8080 --count 1000
    curl -T deposits/n1 http://127.0.0.1:8080/arrivals/n1
    curl http://127.0.0.1:8080/gaps

A connection that fails is reported on standard error (read fault, write fault), and the next one is served.
";

const AMENDMENTS: &str = "\
An agent may release a manifest in parts, so that a bundle comes before the row that lists it. Its receipt says A5 then, and
the bundle is kept: it is held as soon as an amendment lists it. Receipts that were given stay as they are. A row that
contradicts a listed one is refused (M10 to M13), and nothing is listed.
";

const MIGRATION: &str = "\
A store of version 1, which a program before this one made, is S3 to every other command until it is migrated. Its receipts,
deposits, chain and tables stay as they are. Version 1 kept no bundle that no row listed: such a receipt says A2. Send the
bundle again, under the same number: its receipt stays A2, and the bundle is kept until a row lists it, or held if one does.

There is no way back but a copy. Before it, copy FILE, and FILE-wal if it is there. A store of this version is S3, and so is
another database, whose log may be merged into it. Example:

    cp desk.db desk-before.db
    test ! -e desk.db-wal || cp desk.db-wal desk-before.db-wal
    restore migrate --store desk.db
";

const MOMENTS: &str = "\
The tables hold what the deposits up to the moment say; later ones are held, and don't count. This is for a registry that was
corrupted before it failed: rebuild it as it was before. Deposits may still be taken, and the moment stays set. Example:

    restore as-of --store desk.db 2024-03-10T00:00:00Z
    restore as-of --store desk.db latest
";

const REPORTS: &str = "\
status    how many deposits are listed and held, the chain's length and end, and how many objects of each kind there are
gaps      for each listed place: missing, blocked (and by what), in the chain or beside it, and which resend is awaited
links     what breaks a rule in the tables: links to absent objects, counts, statuses and dates
receipts  a line for each distinct arrival, with its verdict: A1 held, A3 unreadable, A4 differs, A5 not listed when it came,
          and kept; A2 not listed when it came, and not kept (of a store that was migrated)
parked    the SHA-256 and the length of each bundle that was taken and that no row lists
moment    the moment that is set by as-of, as a watermark, or latest
";

static PROGRAM: Program = Program {
    name: "restore",
    version: VERSION,
    about: ABOUT,
    details: DETAILS,
    shared: &[
        Argument {
            id: "store",
            form: ArgumentForm::Option,
            value_name: "FILE",
            values: ValueParser::String,
            help: "The store's file; beside it FILE-wal may stand, and belongs to it",
        },
        Argument {
            id: "progress",
            form: ArgumentForm::Flag,
            value_name: "",
            values: ValueParser::Bool,
            help: "Tells on standard error how far take, links and export are, as on a terminal",
        },
    ],
    commands: &[
        Subcommand {
            name: "init",
            about: "Makes a store of a release manifest, and prints how many deposits it lists",
            details: None,
            arguments: &[Argument {
                id: "manifest",
                form: ArgumentForm::Option,
                value_name: "FILE",
                values: ValueParser::String,
                help: "The release manifest: CSV with a row for each listed deposit",
            }],
        },
        Subcommand {
            name: "amend",
            about: "Lists the deposits of one more manifest, and prints how many are new",
            details: Some(AMENDMENTS),
            arguments: &[Argument {
                id: "manifest",
                form: ArgumentForm::Option,
                value_name: "FILE",
                values: ValueParser::String,
                help: "A further part of the release manifest, or all of it anew; listed deposits may stand in it again",
            }],
        },
        Subcommand {
            name: "migrate",
            about: "Makes a store of version 1 one of this version",
            details: Some(MIGRATION),
            arguments: &[],
        },
        Subcommand {
            name: "as-of",
            about: "Rebuilds the registry as it was at a moment, and prints where its chain ends then",
            details: Some(MOMENTS),
            arguments: &[Argument {
                id: "moment",
                form: ArgumentForm::Word,
                value_name: "MOMENT",
                values: ValueParser::String,
                help: "A watermark, as 2024-03-10T00:00:00Z, or `latest`",
            }],
        },
        Subcommand {
            name: "take",
            about: "Takes every plain file of a folder in byte order of names, and prints a receipt for each",
            details: None,
            arguments: &[Argument {
                id: "folder",
                form: ArgumentForm::Word,
                value_name: "DIR",
                values: ValueParser::String,
                help: "The folder of bundles; each file's name is the number of its arrival",
            }],
        },
        Subcommand {
            name: "serve",
            about: "Takes arrivals and gives reports over HTTP, one connection after the other",
            details: Some(ROUTES),
            arguments: &[
                Argument {
                    id: "port",
                    form: ArgumentForm::Option,
                    value_name: "P",
                    values: ValueParser::Signed(1, 65_535),
                    help: "The port of 127.0.0.1 to listen on",
                },
                Argument {
                    id: "count",
                    form: ArgumentForm::Option,
                    value_name: "N",
                    values: ValueParser::Signed(1, 1_000_000),
                    help: "How many connections to serve, one request each, before it ends",
                },
            ],
        },
        Subcommand {
            name: "report",
            about: "Prints a report",
            details: Some(REPORTS),
            arguments: &[Argument {
                id: "report",
                form: ArgumentForm::Word,
                value_name: "WHAT",
                values: ValueParser::Names(&[
                    "status", "gaps", "links", "receipts", "parked", "moment",
                ]),
                help: "How far the desk has come, which deposits are missing, what breaks a rule, all receipts, the bundles that no row lists, or the moment that is set",
            }],
        },
        Subcommand {
            name: "export",
            about: "Prints all objects of a kind as CSV, a line for each cell",
            details: None,
            arguments: &[Argument {
                id: "kind",
                form: ArgumentForm::Word,
                value_name: "KIND",
                values: ValueParser::Names(&[
                    "registrar",
                    "contact",
                    "host",
                    "domain",
                    "idn",
                    "nndn",
                ]),
                help: "The kind of objects",
            }],
        },
    ],
};

/// The words, matched with the table of commands; the first of them is the program's name. A
/// request for help or for the version is an `Err`, too.
pub fn matches_of<'a>(alloc: Global, words: &'a [String]) -> Result<ArgMatches<'a>, Error> {
    PROGRAM.matches_of(alloc, words)
}

/// Prints the help or the version that was asked for on `out`, or what is wrong with the words on
/// `err`. Returns the status.
pub fn print_error<O: Write, E: Write>(
    rt: &HostRuntime,
    error: &Error,
    out: &mut O,
    err: &mut E,
) -> u8 {
    match print_answer(rt.alloc(), error, out, err) {
        Ok(status) => status,
        Err(error) => print_stop(rt, err, Asked::NOTHING, &stop_at(rt, "-", error)),
    }
}

/// What the matched words ask for: a manifest that they name is read, and so is a word for a
/// moment. `clap` makes sure that there is a command with its arguments; else it is `None`.
pub fn invocation_of<'a>(
    rt: &HostRuntime,
    matches: &ArgMatches<'a>,
) -> Result<Option<Invocation<'a>>, Stop> {
    let Some((name, given)) = matches.subcommand() else {
        return Ok(None);
    };
    let Some(store) = given.get_str("store") else {
        return Ok(None);
    };
    match command_named(rt, name, given)? {
        Some(command) => Ok(Some(Invocation {
            store,
            is_watched: given.get_flag("progress"),
            command,
        })),
        None => Ok(None),
    }
}

fn command_named<'a>(
    rt: &HostRuntime,
    name: &str,
    given: &ArgMatches<'a>,
) -> Result<Option<Command<'a>>, Stop> {
    match name {
        "init" => init_command(rt, given),
        "amend" => amend_command(rt, given),
        "as-of" => as_of_command(rt.alloc(), given),
        "migrate" => Ok(Some(Command::Migrate)),
        "take" => Ok(take_command(given)),
        "serve" => Ok(serve_command(given)),
        "report" => Ok(report_command(given)),
        "export" => Ok(export_command(given)),
        _ => Ok(None),
    }
}

fn init_command<'a>(rt: &HostRuntime, given: &ArgMatches<'a>) -> Result<Option<Command<'a>>, Stop> {
    let Some(path) = given.get_str("manifest") else {
        return Ok(None);
    };
    let manifest = manifest_of(rt, path)?;
    Ok(Some(Command::Init { manifest }))
}

fn amend_command<'a>(
    rt: &HostRuntime,
    given: &ArgMatches<'a>,
) -> Result<Option<Command<'a>>, Stop> {
    let Some(path) = given.get_str("manifest") else {
        return Ok(None);
    };
    let text = amendment_of(rt, path)?;
    Ok(Some(Command::Amend { text }))
}

fn as_of_command<'a>(alloc: Global, given: &ArgMatches<'a>) -> Result<Option<Command<'a>>, Stop> {
    let Some(word) = given.get_str("moment") else {
        return Ok(None);
    };
    let moment = moment_named(alloc, word)?;
    Ok(Some(Command::AsOf { moment }))
}

fn take_command<'a>(given: &ArgMatches<'a>) -> Option<Command<'a>> {
    let folder = given.get_str("folder")?;
    Some(Command::Take { folder })
}

fn serve_command<'a>(given: &ArgMatches<'a>) -> Option<Command<'a>> {
    let port = given.get_one::<u16>("port")?;
    let count = given.get_one::<u32>("count")?;
    Some(Command::Serve { port, count })
}

fn report_command<'a>(given: &ArgMatches<'a>) -> Option<Command<'a>> {
    let report = report_named(given.get_str("report")?)?;
    Some(Command::Report(report))
}

fn export_command<'a>(given: &ArgMatches<'a>) -> Option<Command<'a>> {
    let kind = Kind::from_name(given.get_str("kind")?)?;
    Some(Command::Report(Report::Export(kind)))
}

fn report_named(name: &str) -> Option<Report> {
    match name {
        "status" => Some(Report::Status),
        "gaps" => Some(Report::Gaps),
        "links" => Some(Report::Links),
        "receipts" => Some(Report::Receipts),
        "parked" => Some(Report::Parked),
        "moment" => Some(Report::Moment),
        _ => None,
    }
}
