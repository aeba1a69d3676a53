//! The words of the program, and what it does for them.

use crate::bundle::Splitting;
use crate::clock::clock_of;
use crate::store_file::{Task, use_store};
use crate::tables::Tabling;
use crate::zone::Zoning;
use clap::builder::ValueParser;
use clap::{ArgMatches, Error};
use esc_cli::{Argument, ArgumentForm, Asked, Program, Subcommand, USAGE, print_answer};
use esc_handover::{Stop, check_folder, or_stop, place_file, tell_stop};
use std::alloc::Global;
use std::io::Write;

/// The version of the program, and that of the stores that it opens.
const VERSION: &str = "1 (store version 2)";

const ABOUT: &str = "Hands over the registry that restore has rebuilt";

const DETAILS: &str = "\
Nothing in the store is changed. On a terminal, or with --progress, standard error says every two
seconds how much was read.

Refusals go to standard error: E1 PATH (can't be read or written), E3 TIME (it is no watermark), S1
(the store failed), S2 (no memory), S3 (no store, one of another version, or another database); U4 OUT
(over 16,777,216 bytes, or over 63 tables), U6 OUT (the id isn't 1 to 64 of A-Z a-z 0-9 . _ -), U11
OUT (over 100,000 rows), each with a kind and a key where one object alone is it; M1 OUT (over 4,096
bundles); H4 TABLE (rows of this table have different fields), H5 TABLE (no field has the key in each
row of this table), H6 TABLE (its rows begin with a byte order mark), H7 (there is no chain yet), H8
OUT (the bundle reads as other objects), H9 TABLE (another table has the same name but for case), H10
TABLE (SQLite can't have this table: two of its columns have the same name but for case, it has over
2,000 of them, or its name begins with sqlite_), H11 TABLE (PostgreSQL can't load this table: a name
has 64 bytes, or a column is called key or as one of its own, such as ctid; it has over 1,600 columns,
a NUL, or a line that is \\. alone); Z1 to Z7 (`handover zone --help`). With -v a second line says why
it is E1 or S: why: check desk.db: locked by another process.
Status: 0 done; 1 refused by E3, U, H or Z, or by a test of check; 2 invalid usage; 3 stopped by S or E1.
";

const BUNDLE: &str = "\
The tables are written as one deposit: a Full at the watermark of the chain's end, with the number of
objects of each kind in counts. It is the next deposit to make. A registry that is rebuilt from it
alone has the same tables, and so the same exports, to the byte. Where rows of one table have
different fields there is no bundle (H4): a deposit of the chain has to be generated again. Example:

    handover bundle --store desk.db --id F20 next/n1
    pack manifest next/n1 > next.csv

With --series a registry of any size is written: OUT is made, or is an empty folder. In it are then

deposits/ID-001 ..  the bundles of the deposit: the first is a Full, each other one a Differential on
                    the one before; each object is whole in one of them
manifest.csv        the manifest that lists them

The last bundle has the id and the watermark of the deposit, and alone has counts; those before it
have ID.1of12 and so on, a nanosecond apart. The memory of one bundle is needed. The files are made in
OUT.part, which becomes OUT when they are whole. Example:

    handover bundle --store desk.db --id F20 --series next
    restore init --store new.db --manifest next/manifest.csv
    restore take --store new.db next/deposits
";

const CHECK: &str = "\
A line for each test: ok; told, where the registry may be taken over all the same; or wrong, with what
is wrong and what to do. The status is 1 if one is wrong, with --strict also if one is told.

tld         the bundles that are held name one TLD at most
end         no place is listed after the chain's end, up to the moment that is set
future      the chain's end is not later than now, by this machine's clock or by --now
chain       the chain is the latest one of the bundles that are held
resends     no place of the chain awaits a later resend
gaps        no place before the end is missing or blocked (told)
moment      no moment is set (told)
parked      each bundle that was taken is listed
early       version 1 has let go of no bundle, by verdict A2 (told)
findings    links, counts, statuses and dates break no rule (V1 to V7)
registrars  who created, updated or transfers an object is a registrar (crRr, upRr, reRr, acRr)
nndns       no name is both a domain's and an NNDN's
roids       no two objects of a kind have one ROID (told)
required    each object has what RFC 9022 requires of its kind (told)
outside     each domain and NNDN is below the TLD, where the bundles name one (told)
digests     each DS has its numbers, and a digest as long as its type asks for (told)
addresses   each address of a host is one, of the version that is said (told)
orphans     each child row in the chain's deposits has its parent row
counts      the chain's last deposit declares how many objects of each kind there are
fields      each field that has links, statuses or dates is in each object of its kind
names       no declared table or field looks like one of these under another name, as fClID
bodies      each bundle that is held has the SHA-256 that is listed, and can be read
tables      the tables are those that the bundles of the chain make when they are applied again
notes       the bundles of the chain have no notes; each is told on a line below (told)

All bundles are read again. With --now the lines are the same at any time. Example:

    handover check --store desk.db --strict
    handover check --store desk.db --now 2024-03-12T09:00:00Z
";

const TABLES: &str = "\
DIR is made, or is an empty folder. In it are then:

KIND.csv         for each kind, also one without objects: the parent rows
TABLE.csv        for each table of child rows that there are
registry.sqlite  with --sqlite: the same tables as those of an SQLite database
load.sql         with --postgres: what makes the tables in a PostgreSQL database, and loads them
sha256sums       the SHA-256 of each of these, as `sha256sum -c` reads them

A CSV file has a heading. Its first column, `key`, is the key of the object that a row belongs to, for
a domain or a host in lower case. Then comes each field that a row of the table has, in the order in
which the fields first come. A row without a field has an empty text there, and NULL in the database.
In the database `key` is the primary key of the parent rows, and child rows have an index over it.

PostgreSQL loads all tables or none. `key` is the primary key of the parent rows, and each child row
refers to its parent row by it. A column that names objects refers to them, if they are all there. A
column is of moments or of integers where each row has one, and else of texts; a comment on it says
so. An empty text is NULL.

The files are made in DIR.part, which becomes DIR when they are whole. Example:

    handover tables --store desk.db --sqlite registry
    sqlite3 registry/registry.sqlite 'SELECT hostName, count(*) FROM domainNs GROUP BY hostName'
    handover tables --store desk.db --postgres copy && cd copy && psql -X -f load.sql registry
";

const ZONE: &str = "\
The zone of the registry's top-level domain is written, without signatures: the operator's records,
and what the tables delegate. N is the serial of its SOA, above the last that was published. The
operator's file has a record a line, NAME. TTL IN TYPE DATA, and no escapes: the SOA first, with the
word SERIAL in the place of its serial, then the NS of the zone, and what else it has of its own.

A domain is left out by clientHold, serverHold, pendingCreate, redemptionPeriod, pendingRestore,
pendingDelete or inactive, and without a server. Servers in the zone have their addresses beside
them, of host objects, or of the domain that they are in. DS are those of secDNS; where it has keys
alone they are made, by SHA-256. Mirrored names have the servers of their originals.

Standard output has counts. Standard error has a line for each thing that is left out though the
registry would have it, or that is odd: left out, server, address, DS, glue, status; and what the
old DS in the root asks for before the zone is published. Refused, with nothing written:

Z1  TLD is no name, or has capital letters       Z5  two objects have one name
Z2  N is no serial                               Z6  the operator's file has what a domain is
Z3  the operator's file begins no zone           Z7  no domain is delegated
Z4  a table or field that is wanted has another name

OUT.part is written, which becomes OUT when it is whole. Example:

    handover zone --store desk.db --origin example --apex apex.txt --serial 2024030401 example.zone
    named-checkzone -k fail example example.zone
";

const PAGE: &str = "\
One page of HTML, for a browser: whether the registry may be taken over, with the lines of check; a
picture and a table of the listed deposits; the objects of each kind beside the declared numbers; the
findings by code and the receipts by verdict, the first twenty of each; and the parked bodies. It
loads and runs nothing. It names objects of the registry, so keep it as the exports are kept. The
status is 0 even if a test is wrong. Example:

    handover page --store desk.db release.html
";

// What time it is, for a command that tests it.
const NOW: Argument = Argument {
    id: "now",
    form: ArgumentForm::FreeOption,
    value_name: "TIME",
    values: ValueParser::String,
    help: "What time it is, as 2024-03-10T00:00:00Z; else this machine's clock says it",
};

// Its texts are near the prover's limit of steps for one table: with 500 bytes more it has no
// verdict.
static PROGRAM: Program = Program {
    name: "handover",
    version: VERSION,
    about: ABOUT,
    details: DETAILS,
    shared: &[
        Argument {
            id: "store",
            form: ArgumentForm::Option,
            value_name: "FILE",
            values: ValueParser::String,
            help: "The store's file; beside it FILE-wal may stand, and belongs to it",
        },
        Argument {
            id: "progress",
            form: ArgumentForm::Flag,
            value_name: "",
            values: ValueParser::Bool,
            help: "Tells on standard error how far the work is",
        },
    ],
    commands: &[
        Subcommand {
            name: "check",
            about: "Prints whether the registry may be taken over as it is, a line for each test",
            details: Some(CHECK),
            arguments: &[
                Argument {
                    id: "strict",
                    form: ArgumentForm::Flag,
                    value_name: "",
                    values: ValueParser::Bool,
                    help: "The status is 1 where anything is told, too",
                },
                NOW,
            ],
        },
        Subcommand {
            name: "page",
            about: "Writes a page that shows the release and the registry, for a browser",
            details: Some(PAGE),
            arguments: &[
                NOW,
                Argument {
                    id: "target",
                    form: ArgumentForm::Word,
                    value_name: "OUT",
                    values: ValueParser::String,
                    help: "Where the page is written; nothing may be there",
                },
            ],
        },
        Subcommand {
            name: "bundle",
            about: "Writes the tables as one deposit, a Full, in one bundle or in several",
            details: Some(BUNDLE),
            arguments: &[
                Argument {
                    id: "id",
                    form: ArgumentForm::Option,
                    value_name: "ID",
                    values: ValueParser::String,
                    help: "The id of the deposit",
                },
                Argument {
                    id: "series",
                    form: ArgumentForm::Flag,
                    value_name: "",
                    values: ValueParser::Bool,
                    help: "OUT is a folder, of as many bundles as are needed, with a manifest",
                },
                Argument {
                    id: "target",
                    form: ArgumentForm::Word,
                    value_name: "OUT",
                    values: ValueParser::String,
                    help: "Where the bundle is written, and nothing may be; or the folder",
                },
            ],
        },
        Subcommand {
            name: "zone",
            about: "Writes the zone of the registry's top-level domain, without signatures",
            details: Some(ZONE),
            arguments: &[
                Argument {
                    id: "origin",
                    form: ArgumentForm::Option,
                    value_name: "TLD",
                    values: ValueParser::String,
                    help: "The name of the zone, in small letters, without a dot at its end",
                },
                Argument {
                    id: "apex",
                    form: ArgumentForm::Option,
                    value_name: "FILE",
                    values: ValueParser::String,
                    help: "The operator's own records: SOA, NS and others",
                },
                Argument {
                    id: "serial",
                    form: ArgumentForm::Option,
                    value_name: "N",
                    values: ValueParser::String,
                    help: "The serial of the SOA, 1 to 4294967295",
                },
                Argument {
                    id: "day",
                    form: ArgumentForm::Flag,
                    value_name: "",
                    values: ValueParser::Bool,
                    help: "The TTL of delegations is a day (86400), not an hour (3600)",
                },
                Argument {
                    id: "underscores",
                    form: ArgumentForm::Flag,
                    value_name: "",
                    values: ValueParser::Bool,
                    help: "Servers' names may have underscores",
                },
                Argument {
                    id: "no-orphan-glue",
                    form: ArgumentForm::Flag,
                    value_name: "",
                    values: ValueParser::Bool,
                    help: "Leaves out servers in the zone that are below no delegation",
                },
                Argument {
                    id: "target",
                    form: ArgumentForm::Word,
                    value_name: "OUT",
                    values: ValueParser::String,
                    help: "Where the zone is written; nothing may be there",
                },
            ],
        },
        Subcommand {
            name: "tables",
            about: "Writes the tables as CSV files, and as an SQLite database if asked for",
            details: Some(TABLES),
            arguments: &[
                Argument {
                    id: "sqlite",
                    form: ArgumentForm::Flag,
                    value_name: "",
                    values: ValueParser::Bool,
                    help: "Makes registry.sqlite as well",
                },
                Argument {
                    id: "postgres",
                    form: ArgumentForm::Flag,
                    value_name: "",
                    values: ValueParser::Bool,
                    help: "Makes load.sql as well, with which PostgreSQL loads the CSV files",
                },
                Argument {
                    id: "folder",
                    form: ArgumentForm::Word,
                    value_name: "DIR",
                    values: ValueParser::String,
                    help: "The folder of the files: it is made, or has nothing in it",
                },
            ],
        },
    ],
};

/// Runs the program on its words, of which the first is its name. Returns the status.
pub fn run_words<O: Write, E: Write>(
    rt: &HostRuntime,
    words: &[String],
    out: &mut O,
    err: &mut E,
) -> u8 {
    let matches = match asked_in(rt.alloc(), words) {
        Ok(matches) => matches,
        Err(error) => return tell_error(rt, &error, out, err),
    };
    match command_of(rt, &matches) {
        Some(command) => finish(rt, err, Asked::of(&matches), perform(rt, command, out)),
        None => USAGE,
    }
}

// What the words ask for. Alone, so that the table stands in one small proof.
fn asked_in<'a>(alloc: Global, words: &'a [String]) -> Result<ArgMatches<'a>, Error> {
    PROGRAM.matches_of(alloc, words)
}

// What the program is asked to do: with which store, at which time, if that is given, and whether it
// is told how far the work is.
#[derive(Clone, Copy)]
struct Command<'a> {
    store: &'a str,
    now: Option<&'a str>,
    is_watched: bool,
    task: Task<'a>,
}

// Does what is asked for: writes what it is to write, or nothing. Returns the status.
fn perform<O: Write>(rt: &HostRuntime, command: Command<'_>, out: &mut O) -> Result<u8, Stop> {
    let Command {
        store,
        now,
        is_watched,
        task,
    } = command;
    let clock = clock_of(rt, now)?;
    match task {
        Task::Tables(words) => check_folder(rt, words.folder)?,
        Task::Series(words) => check_folder(rt, words.folder)?,
        _ => {}
    }
    let made = use_store(rt, store, is_watched, task, clock)?;
    match task {
        Task::Check { .. } | Task::Zone(_) => or_stop(rt, "-", out.write_all(&made.text))?,
        Task::Page { path } | Task::Bundle { path, .. } => place_file(rt, path, &made.text)?,
        Task::Tables(_) | Task::Series(_) => {}
    }
    Ok(made.status)
}

// The status of what was done.
fn finish<E: Write>(rt: &HostRuntime, err: &mut E, asked: Asked<'_>, done: Result<u8, Stop>) -> u8 {
    match done {
        Ok(status) => status,
        Err(stop) => tell_stop(rt, err, asked, &stop),
    }
}

// What the matched words ask for. `clap` makes sure that there is a command with its arguments.
fn command_of<'a>(rt: &'a HostRuntime, matches: &ArgMatches<'a>) -> Option<Command<'a>> {
    let (name, given) = matches.subcommand()?;
    Some(Command {
        store: given.get_str("store")?,
        now: given.get_str("now"),
        is_watched: given.get_flag("progress"),
        task: task_of(rt, name, given)?,
    })
}

fn task_of<'a>(rt: &'a HostRuntime, name: &str, given: &ArgMatches<'a>) -> Option<Task<'a>> {
    match name {
        "check" => Some(Task::Check {
            is_strict: given.get_flag("strict"),
        }),
        "page" => Some(Task::Page {
            path: given.get_str("target")?,
        }),
        "bundle" if given.get_flag("series") => Some(Task::Series(Splitting {
            rt,
            id: given.get_str("id")?,
            folder: given.get_str("target")?,
        })),
        "bundle" => Some(Task::Bundle {
            id: given.get_str("id")?,
            path: given.get_str("target")?,
        }),
        "zone" => Some(Task::Zone(zoning_of(rt, given)?)),
        "tables" => Some(Task::Tables(Tabling {
            rt,
            folder: given.get_str("folder")?,
            has_database: given.get_flag("sqlite"),
            has_script: given.get_flag("postgres"),
        })),
        _ => None,
    }
}

fn zoning_of<'a>(rt: &'a HostRuntime, given: &ArgMatches<'a>) -> Option<Zoning<'a>> {
    Some(Zoning {
        rt,
        origin: given.get_str("origin")?,
        apex: given.get_str("apex")?,
        serial: given.get_str("serial")?,
        path: given.get_str("target")?,
        has_day: given.get_flag("day"),
        has_underscores: given.get_flag("underscores"),
        has_orphan_glue: !given.get_flag("no-orphan-glue"),
    })
}

// Prints the help or the version that was asked for, or what is wrong with the words. Returns the
// status.
fn tell_error<O: Write, E: Write>(rt: &HostRuntime, error: &Error, out: &mut O, err: &mut E) -> u8 {
    let printed = or_stop(rt, "-", print_answer(rt.alloc(), error, out, err));
    finish(rt, err, Asked::NOTHING, printed)
}
