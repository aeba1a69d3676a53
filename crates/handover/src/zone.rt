//! `zone --store FILE --origin TLD --apex FILE --serial N OUT`: the zone of a store's registry.

use crate::walking::walk;
use esc_cli::{DONE, Links, OneLine, read_whole};
use esc_desk::{Reads, StoreFault};
use esc_envelope::Kind;
use esc_handover::{Answer, REFUSED, Stop, or_stop, read_layouts};
use esc_progress::Progress;
use esc_table_files::Layout;
use esc_zone::{
    Draft, Halt, Refusal, Rule, Settings, Shape, ZoneFault, check_shapes, read_apex, read_origin,
    read_serial,
};
use std::alloc::{AllocError, AllocFailed};
use std::fs::{self, File};
use std::io::{BufWriter, Error, ErrorKind, Write};

/// The words of the command.
#[derive(Clone, Copy)]
pub struct Zoning<'a> {
    pub rt: &'a HostRuntime,
    /// The name of the zone.
    pub origin: &'a str,
    /// The path of the operator's records.
    pub apex: &'a str,
    pub serial: &'a str,
    /// Where the zone is written.
    pub path: &'a str,
    pub has_day: bool,
    pub has_underscores: bool,
    pub has_orphan_glue: bool,
}

/// The TTL of the records of delegations, in seconds: at first, and once it is known that they are
/// right.
const HOUR: u32 = 3_600;

const DAY: u32 = 86_400;

/// The most bytes of the operator's file.
const MOST_BYTES: u64 = 16_777_216;

// Why no zone is written.
enum Failure {
    Stop(Stop),
    Refused(Refusal),
}

impl From<Stop> for Failure {
    fn from(stop: Stop) -> Failure {
        Failure::Stop(stop)
    }
}

impl From<StoreFault> for Failure {
    fn from(fault: StoreFault) -> Failure {
        Failure::Stop(Stop::Store(fault))
    }
}

impl From<AllocError> for Failure {
    fn from(_refused: AllocError) -> Failure {
        Failure::Stop(Stop::NO_MEMORY)
    }
}

impl<T: Drop> From<AllocFailed<T>> for Failure {
    fn from(_refused: AllocFailed<T>) -> Failure {
        Failure::Stop(Stop::NO_MEMORY)
    }
}

impl From<Halt> for Failure {
    fn from(halt: Halt) -> Failure {
        match halt {
            Halt::Refused(refusal) => Failure::Refused(refusal),
            Halt::NoMemory => Failure::Stop(Stop::NO_MEMORY),
        }
    }
}

/// Writes the zone of a store's registry, or nothing. The answer has the counts.
pub fn write_zone<R: Reads>(
    reader: &mut R,
    words: Zoning<'_>,
    mut progress: Progress<'_>,
) -> Result<Answer, Stop> {
    match make_zone(reader, words, &mut progress) {
        Ok(answer) => Ok(answer),
        Err(Failure::Stop(stop)) => Err(stop),
        Err(Failure::Refused(refusal)) => {
            let line = format!(in words.rt.alloc(); "{refusal}\n")?;
            let _ = words.rt.stderr().write_all(line.as_bytes());
            Ok(Answer {
                text: Vec::new(words.rt.alloc()),
                status: REFUSED,
            })
        }
    }
}

fn make_zone<R: Reads>(
    reader: &mut R,
    words: Zoning<'_>,
    progress: &mut Progress<'_>,
) -> Result<Answer, Failure> {
    let mut draft = draft_of(words)?;
    check_chain(reader, words)?;
    check_tables(reader, words, progress)?;
    survey(reader, words, &mut draft)?;
    write_file(reader, words, &mut draft)?;
    tell_unsigned(words);
    let counts = format!(in words.rt.alloc(); "{}", draft.counts())?;
    Ok(Answer {
        text: Vec::from_slice(words.rt.alloc(), counts.as_bytes())?,
        status: DONE,
    })
}

// The zone with the operator's records.
fn draft_of(words: Zoning<'_>) -> Result<Draft, Failure> {
    let alloc = words.rt.alloc();
    let settings = Settings {
        origin: read_origin(alloc, words.origin)?,
        ttl: if words.has_day { DAY } else { HOUR },
        has_underscores: words.has_underscores,
        has_orphan_glue: words.has_orphan_glue,
    };
    let serial = read_serial(alloc, words.serial)?;
    let read = read_whole(words.rt, words.apex, Links::Followed, MOST_BYTES);
    let Some(bytes) = or_stop(words.rt, words.apex, read)? else {
        let text = format!(in alloc; "{}: over {MOST_BYTES} bytes", words.apex)?;
        let rule = Rule::Apex;
        return Err(Failure::Refused(Refusal { rule, text }));
    };
    let apex = read_apex(alloc, words.apex, &bytes, &settings.origin, serial)?;
    Ok(Draft::new(alloc, settings, apex)?)
}

fn check_chain<R: Reads>(reader: &mut R, words: Zoning<'_>) -> Result<(), Failure> {
    match reader.status(words.rt.alloc())?.end {
        Some(_) => Ok(()),
        None => Err(Failure::Stop(Stop::Chainless)),
    }
}

// Refused by `Z4`, where a table or a field has another name.
fn check_tables<R: Reads>(
    reader: &mut R,
    words: Zoning<'_>,
    progress: &mut Progress<'_>,
) -> Result<(), Failure> {
    let alloc = words.rt.alloc();
    let mut layouts = Vec::new(alloc);
    for kind in [Kind::Host, Kind::Domain, Kind::Nndn] {
        let mut walk = walk(alloc, reader, Some(kind))?;
        progress.begin(walk.left());
        let read = read_layouts(alloc, &mut walk, kind, progress);
        layouts.append(&mut read.map_err(Stop::from)?)?;
    }
    check_layouts(words, &layouts)
}

fn check_layouts(words: Zoning<'_>, layouts: &[Layout]) -> Result<(), Failure> {
    let alloc = words.rt.alloc();
    let mut shapes = Vec::new(alloc);
    for layout in layouts {
        shapes.push(Shape {
            name: name_of(layout),
            fields: &layout.columns,
        })?;
    }
    Ok(check_shapes(alloc, &shapes)?)
}

// The name of a table: that of the kind, if it has the parent rows.
fn name_of(layout: &Layout) -> &str {
    match &layout.table.child {
        Some(name) => name.as_str(),
        None => layout.table.kind.name(),
    }
}

// Takes in what the zone is made of: which servers and names matter, and what is said of them.
fn survey<R: Reads>(reader: &mut R, words: Zoning<'_>, draft: &mut Draft) -> Result<(), Failure> {
    let alloc = words.rt.alloc();
    let noted = draft.note_domains(&mut walk(alloc, reader, Some(Kind::Domain))?);
    or_failure(words, noted)?;
    let noted = draft.note_mirrors(&mut walk(alloc, reader, Some(Kind::Nndn))?);
    or_failure(words, noted)?;
    let taken = draft.take_hosts(&mut walk(alloc, reader, Some(Kind::Host))?);
    or_failure(words, taken)?;
    let taken = draft.take_domains(&mut walk(alloc, reader, Some(Kind::Domain))?);
    or_failure(words, taken)?;
    let taken = draft.take_mirrors(&mut walk(alloc, reader, Some(Kind::Nndn))?);
    or_failure(words, taken)?;
    Ok(draft.settle()?)
}

// What a pass returned, or why no zone is written.
fn or_failure(words: Zoning<'_>, done: Result<(), ZoneFault<StoreFault>>) -> Result<(), Failure> {
    match done {
        Ok(()) => Ok(()),
        Err(ZoneFault::Source(fault)) => Err(Failure::from(fault)),
        Err(ZoneFault::Halt(halt)) => Err(Failure::from(halt)),
        Err(ZoneFault::Output(error)) => Ok(or_stop(words.rt, words.path, Err(error))?),
    }
}

// Writes the file: beside its place first, and from there to its place when it is whole.
fn write_file<R: Reads>(
    reader: &mut R,
    words: Zoning<'_>,
    draft: &mut Draft,
) -> Result<(), Failure> {
    let beside = format!(in words.rt.alloc(); "{}.part", words.path)?;
    let file = or_stop(words.rt, words.path, new_file(words, beside.as_str()))?;
    let written = fill_file(reader, words, draft, file);
    let placed = written.and_then(|()| {
        let renamed = fs::rename(words.rt, beside.as_str(), words.path);
        Ok(or_stop(words.rt, words.path, renamed)?)
    });
    if placed.is_err() {
        let _ = fs::remove_file(words.rt, beside.as_str());
    }
    placed
}

// A new file beside its place, where nothing may be.
fn new_file(words: Zoning<'_>, beside: &str) -> Result<File, Error> {
    if fs::symlink_metadata(words.rt, words.path).is_ok() {
        return Err(Error::from(ErrorKind::AlreadyExists));
    }
    File::create_new(words.rt, beside)
}

fn fill_file<R: Reads>(
    reader: &mut R,
    words: Zoning<'_>,
    draft: &mut Draft,
    file: File,
) -> Result<(), Failure> {
    let alloc = words.rt.alloc();
    let zone = &mut or_stop(words.rt, words.path, BufWriter::new(alloc, file))?;
    let told = &mut words.rt.stderr();
    or_stop(words.rt, words.path, zone.write_all(draft.apex_text()))?;
    let written = draft.write_domains(&mut walk(alloc, reader, Some(Kind::Domain))?, zone, told);
    or_failure(words, written)?;
    let written = draft.write_mirrors(&mut walk(alloc, reader, Some(Kind::Nndn))?, zone, told);
    or_failure(words, written)?;
    or_failure(words, draft.write_glue(zone, told))?;
    draft.check_whole()?;
    or_stop(words.rt, words.path, zone.flush())?;
    Ok(())
}

// Tells what a zone without signatures needs before it is published.
fn tell_unsigned(words: Zoning<'_>) {
    let origin = OneLine(words.origin);
    let line = format!(in words.rt.alloc();
        "unsigned {origin} while the root has its old DS, validating resolvers refuse this zone, \
         also newly signed: have the DS replaced or removed, and wait its TTL, before the NS \
         change\n"
    );
    if let Ok(line) = line {
        let _ = words.rt.stderr().write_all(line.as_bytes());
    }
}
