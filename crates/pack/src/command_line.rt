//! The words of the program, and what it does for them.

use crate::bundle::{Bundling, write_bundle};
use crate::check::{Checking, check_files};
use crate::describe::describe;
use crate::manifest::manifest_at;
use crate::series::{Series, write_series};
use crate::stop::{REFUSED, Stop, print, tell_stop};
use clap::builder::ValueParser;
use clap::{ArgMatches, Error};
use esc_cli::{Argument, ArgumentForm, Asked, DONE, Program, Subcommand, USAGE, print_answer};
use std::io::Write;

/// What the program is asked to do: the words live for `'a`, and what was matched of them for `'m`.
#[derive(Clone, Copy)]
enum Task<'m, 'a> {
    /// Print the release manifest of the bundles at these paths.
    Manifest { paths: &'m [&'a str] },
    /// Write the bundle of a folder's files.
    Bundle(Bundling<'a>),
    /// Write the bundles of a series' parts.
    Series(Series<'a>),
    /// Print the description that is proposed of a folder's files.
    Describe { folder: &'a str },
    /// Print what would be found of a folder's files.
    Check(Checking<'a>),
}

/// The version of the program, and that of the stores that `restore` makes of what it writes.
const VERSION: &str = "1 (store version 2)";

const ABOUT: &str = "Makes the files of a release of registry escrow deposits";

const DETAILS: &str = "\
Example, with a folder of bundles named n1, n2 and so on:

    pack manifest deposits/n1 deposits/n2 > manifest.csv
    restore init --store desk.db --manifest manifest.csv

Example, with a folder of CSV files and a description of their tables:

    pack bundle --envelope envelope.json files deposits/n1

Without a description, one is proposed by the names of the files and their headings:

    pack describe files > envelope.json

Before a folder is taken, what would be found of its files:

    pack check --manifest manifest.csv deposits

Refusals go to standard error: E1 PATH (can't be read or written), E2 PATH (over 16,777,216 bytes),
U1 to U11 with the path (the bundle is no deposit), U9 PATH row 12 (a row of this file has another
number of fields than declared, or a field that is no UTF-8; rows count from 1, after a heading),
M10 PATH row 2 against OTHER (no manifest lists these deposits, by M7 or M10 to M13: the row of the
bundle PATH contradicts that of OTHER, where it is about two; rows count from 1, in the order of
places), M1 row 0 (they are too many), H1 PATH (another heading than the declared fields), H2 PATH
(rows that begin with a byte order mark), H3 PATH (no description of the folder), S2 (no memory).
With -v a second line says why it is E, N1 or S2: why: manifest deposits/n1: permission denied.
manifest and check tell a bundle of another tld: other tld PATH: net, that of OTHER is com.
Status: 0 done; 1 refused by E2, N1, U, M or H, or check found a file that is not A1; 2 invalid usage;
3 stopped by E1 or S2.
";

const DESCRIPTION: &str = "\
The description is the bundle's envelope, with two more members that a table may have: \"from\", an
array of the names of its files in DIR, whose rows follow each other (without it the one that
\"file\" names); and \"heading\", true where each of them begins with a row of the fields' names,
which is dropped. A name has no slash, and is there once in a description:

    {\"id\":\"F1\",\"type\":\"FULL\",\"watermark\":\"2024-03-03T00:00:00Z\",\"contents\":[
    {\"name\":\"contact\",\"kind\":\"contact\",\"role\":\"parent\",\"key\":\"id\",\"fields\":[\"id\",\"clID\"],
    \"file\":\"c.csv\",\"from\":[\"Contacts_1.csv\",\"Contacts_2.csv\"],\"heading\":true}]}

In a heading a field that the desk looks for may have RFC 9022's name: fClID for clID, fRegistrant,
fIdnTableId, fCrDate, fExDate and fStatus likewise, in domainContacts fId for contactId, and in
domainNs fHostName for hostName. A field of another name that is like one of these is told on
standard error: the desk doesn't look at it.

A bundle has at most 16,777,216 bytes and 100,000 rows. Of more (E2 of a file, U4 or U11 of OUT) unpack_rde
makes a series: put FILE into DIR as envelope.json.

    unpack_rde --described DIR F1
    pack series F1 bundles/F1
";

const PARTS: &str = "\
A deposit that is larger than one bundle is a series: unpack_rde writes a folder part-001, part-002 and
so on for each of its bundles, each with its envelope.json. The first has the deposit's type, each
other one is a Differential on the one before, and the last one has the deposit's id. The bundle of
DIR/part-001 is written to OUT-001. If a part is refused, no bundle is left:

    unpack_rde full.xml F1
    pack series F1 bundles/F1
    pack manifest bundles/* > manifest.csv
";

const PROPOSAL: &str = "\
A file is known by the stem that its name begins with, with a dash or a dot after it that delete
doesn't follow, as in domain.csv and domain-20240303.csv (domain-deletes.csv is unknown): domain,
domainContacts, domainNameServers, domainNameServersAddresses, domainStatuses, domainTransfer,
dnssec, host, hostAddresses, hostStatuses, contact, contactPostal, contactStatuses, contactTransfer,
contactDisclose, registrar, idnLanguage, NNDN; and of objects that are no longer there
domain-delete, host-delete, contact-delete, registrar-delete, idnLanguage-delete, NNDN-delete. Its
first row has to be the names of the fields, with the key among them, and end in the file's first
65,536 bytes; no more is read, so a file may have any length. Files of one table with one heading are
joined. Fields that the desk looks for get its names (pack bundle --help).

What can't be told is said on standard error, a line each that begins with unknown: always the id,
the type and the watermark, for which the description has ID, FULL and 1970-01-01T00:00:00Z, and
each file that it doesn't name. Set them, and give the description to pack bundle.
";

const CHECK: &str = "\
It takes nothing: it tells what restore take would find of each plain file of DIR, in a store of this
manifest that has taken nothing yet. A line for each file, in byte order of names, and then one for
each row of the manifest whose SHA-256 no file has:

    n1: A1, listed as F1 FULL 2024-03-01T00:00:00Z resend 0
    n1b: A1 again, listed as F1 FULL 2024-03-01T00:00:00Z resend 0
    n2: A3 U8, listed as D2 DIFF 2024-03-02T00:00:00Z resend 0: section 3 d: the file of no table
    n3: A4, listed as D3 DIFF 2024-03-03T00:00:00Z resend 0: prevId is D1, listed D2
    n4: A5, not listed, says I4 INCR 2024-03-04T00:00:00Z resend 0
    manifest.csv: A5, not listed, U1: the first line is not \"escrow-bundle 1\"
    no file: F5 FULL 2024-03-05T00:00:00Z resend 0

Of a file that is no deposit it tells where, as in section 2 c.csv, row 3, column clID: no UTF-8.
Sections count from 1, the envelope; rows from 1, since a section has no heading. A file is not listed
if no row of the manifest has its SHA-256: take would park it, and it stays in the store until a later
manifest lists it. On standard error are, as of restore take, N1 NAME (a name that is not 1 to 64 of
A-Z a-z 0-9 . _ -) and E2 NAME (over 16,777,216 bytes); and besides each bundle whose envelope names
another tld, whatever its case, than the first bundle that names one (take doesn't look at that):

    other tld n5: net, that of n1 is com

M10 row 2 is a FILE that is no manifest. The status is 0 if each file is A1, even if there is no file
for a row, or another tld.
";

/// The folder of four of the commands.
const FOLDER: Argument = Argument {
    id: "folder",
    form: ArgumentForm::Word,
    value_name: "DIR",
    values: ValueParser::String,
    help: "The folder of the files",
};

static PROGRAM: Program = Program {
    name: "pack",
    version: VERSION,
    about: ABOUT,
    details: DETAILS,
    shared: &[],
    commands: &[
        Subcommand {
            name: "manifest",
            about: "Prints the release manifest of these bundles, in the order of places",
            details: None,
            arguments: &[Argument {
                id: "bundle",
                form: ArgumentForm::Words,
                value_name: "BUNDLE",
                values: ValueParser::String,
                help: "The files of the bundles, in any order",
            }],
        },
        Subcommand {
            name: "bundle",
            about: "Writes the bundle of a folder's CSV files, whose tables a description declares",
            details: Some(DESCRIPTION),
            arguments: &[
                Argument {
                    id: "envelope",
                    form: ArgumentForm::Option,
                    value_name: "FILE",
                    values: ValueParser::String,
                    help: "The description of the tables",
                },
                FOLDER,
                Argument {
                    id: "target",
                    form: ArgumentForm::Word,
                    value_name: "OUT",
                    values: ValueParser::String,
                    help: "Where the bundle is written; nothing may be there",
                },
            ],
        },
        Subcommand {
            name: "series",
            about: "Writes the bundles of a deposit in parts, one for each folder part-001, part-002 and so on",
            details: Some(PARTS),
            arguments: &[
                FOLDER,
                Argument {
                    id: "target",
                    form: ArgumentForm::Word,
                    value_name: "OUT",
                    values: ValueParser::String,
                    help: "What the paths of the bundles begin with: OUT-001, OUT-002 and so on",
                },
            ],
        },
        Subcommand {
            name: "describe",
            about: "Proposes a description of a folder's CSV files, by their names and their headings",
            details: Some(PROPOSAL),
            arguments: &[FOLDER],
        },
        Subcommand {
            name: "check",
            about: "Tells what restore take would find of a folder's files, and takes nothing",
            details: Some(CHECK),
            arguments: &[
                Argument {
                    id: "manifest",
                    form: ArgumentForm::Option,
                    value_name: "FILE",
                    values: ValueParser::String,
                    help: "The release manifest",
                },
                FOLDER,
            ],
        },
    ],
};

/// Runs the program on its words, of which the first is its name. Returns the status.
pub fn run_words<O: Write, E: Write>(
    rt: &HostRuntime,
    words: &[String],
    out: &mut O,
    err: &mut E,
) -> u8 {
    let matches = match PROGRAM.matches_of(rt.alloc(), words) {
        Ok(matches) => matches,
        Err(error) => return tell_error(rt, &error, out, err),
    };
    match task_of(&matches) {
        Some(task) => run(rt, task, Asked::of(&matches), out, err),
        None => USAGE,
    }
}

// What the matched words ask for. `clap` makes sure that there is a command with its arguments.
fn task_of<'m, 'a>(matches: &'m ArgMatches<'a>) -> Option<Task<'m, 'a>> {
    let (name, given) = matches.subcommand()?;
    match name {
        "manifest" => Some(Task::Manifest {
            paths: given.get_strs("bundle")?,
        }),
        "bundle" => Some(Task::Bundle(Bundling {
            envelope: given.get_str("envelope")?,
            folder: given.get_str("folder")?,
            target: given.get_str("target")?,
        })),
        "series" => Some(Task::Series(Series {
            folder: given.get_str("folder")?,
            target: given.get_str("target")?,
        })),
        "describe" => Some(Task::Describe {
            folder: given.get_str("folder")?,
        }),
        "check" => Some(Task::Check(Checking {
            asked: Asked::of(matches),
            manifest: given.get_str("manifest")?,
            folder: given.get_str("folder")?,
        })),
        _ => None,
    }
}

// Does what is asked for. Returns the status.
fn run<O: Write, E: Write>(
    rt: &HostRuntime,
    task: Task<'_, '_>,
    asked: Asked<'_>,
    out: &mut O,
    err: &mut E,
) -> u8 {
    let done = match task {
        Task::Manifest { paths } => print_manifest(rt, paths, out, err),
        Task::Bundle(words) => make_bundle(rt, words, err),
        Task::Series(words) => make_series(rt, words, err),
        Task::Describe { folder } => print_description(rt, folder, out, err),
        Task::Check(words) => print_check(rt, words, out, err),
    };
    match done {
        Ok(status) => status,
        Err(stop) => tell_stop(rt, err, asked, &stop),
    }
}

// `bundle ..`: the bundle is written, and what the desk won't look at goes to standard error.
fn make_bundle<E: Write>(rt: &HostRuntime, words: Bundling<'_>, err: &mut E) -> Result<u8, Stop> {
    let unseen = write_bundle(rt, words)?;
    // A failure of standard error is ignored: there is nowhere to report it.
    let _ = err.write_all(unseen.as_bytes());
    Ok(DONE)
}

// `series ..`: the bundles are written, and what the desk won't look at goes to standard error.
fn make_series<E: Write>(rt: &HostRuntime, words: Series<'_>, err: &mut E) -> Result<u8, Stop> {
    let unseen = write_series(rt, words)?;
    // A failure of standard error is ignored: there is nowhere to report it.
    let _ = err.write_all(unseen.as_bytes());
    Ok(DONE)
}

// `describe DIR`: the description is printed, and what it can't tell goes to standard error.
fn print_description<O: Write, E: Write>(
    rt: &HostRuntime,
    folder: &str,
    out: &mut O,
    err: &mut E,
) -> Result<u8, Stop> {
    let described = describe(rt, folder)?;
    // A failure of standard error is ignored: there is nowhere to report it.
    let _ = err.write_all(described.unknown.as_bytes());
    print(rt, out, &described.text)?;
    Ok(DONE)
}

// `check ..`: what would be found of the files is printed. The status says whether each is right.
fn print_check<O: Write, E: Write>(
    rt: &HostRuntime,
    words: Checking<'_>,
    out: &mut O,
    err: &mut E,
) -> Result<u8, Stop> {
    let are_held = check_files(rt, words, out, err)?;
    Ok(if are_held { DONE } else { REFUSED })
}

// `manifest BUNDLE..`: the release manifest is printed.
fn print_manifest<O: Write, E: Write>(
    rt: &HostRuntime,
    paths: &[&str],
    out: &mut O,
    err: &mut E,
) -> Result<u8, Stop> {
    let text = manifest_at(rt, paths, err)?;
    print(rt, out, &text)?;
    Ok(DONE)
}

// Tells the help or the version that was asked for, or what is wrong with the words.
fn tell_error<O: Write, E: Write>(rt: &HostRuntime, error: &Error, out: &mut O, err: &mut E) -> u8 {
    match print_answer(rt.alloc(), error, out, err) {
        Ok(status) => status,
        Err(error) => {
            let stop = Stop::unreadable(rt, "-", error);
            tell_stop(rt, err, Asked::NOTHING, &stop)
        }
    }
}
