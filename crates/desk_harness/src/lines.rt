//! Lines, in the order in which they come: those about the files, and those about a database over
//! them.

use crate::desks::{Place, answer_of_place};
use crate::disks::{DiskChange, Disks, Room, connect, left_files};
use crate::input::Input;
use esc_recovery::{files_of, reopen_desk};
use sqlite::{Alter, Connection, FileStore, Files};
use sqlite_disk::Disk;
use std::alloc::Global;
use std::fmt::Write;
use std::test::Fail;

/// Answers all lines.
pub fn play(rt: &HostRuntime) -> Result<(), Fail> {
    let mut input = Input::new(rt)?;
    let mut disks = Disks::new(rt.alloc());
    for _ in 0..u64::MAX {
        if input.is_at_end() {
            return Ok(());
        }
        disks = step(&mut input, disks)?;
    }
    Err(Fail::new("no end"))
}

// Answers the next line, and those after it that are about the same database.
fn step(input: &mut Input<'_>, disks: Disks) -> Result<Disks, Fail> {
    match input.change() {
        Some(change) => change_files(input, disks, change),
        None => {
            let Disks { files, room } = disks;
            let files = over_files(input, files, room)?;
            Ok(Disks { files, room })
        }
    }
}

fn change_files(input: &mut Input<'_>, disks: Disks, change: DiskChange) -> Result<Disks, Fail> {
    let mut answer = String::new(input.rt.alloc());
    if let DiskChange::Ask = change {
        writeln!(answer, "{}", disks.have_failed())?;
    }
    let disks = disks.changed(input.rt.alloc(), change)?;
    input.answer(answer)?;
    Ok(disks)
}

// Opens the database in files and answers lines about it, up to the first that closes it. What is
// over files is for any kind of disk, and what can be done over any store is done so: it is proved
// sooner.
fn over_files<D: Disk + Drop>(
    input: &mut Input<'_>,
    files: Files<D>,
    room: Room,
) -> Result<Files<D>, Fail> {
    match connect(input.rt.alloc(), files, room) {
        Ok(connection) => {
            let place = answer_all(input, connection)?;
            left(input.rt.alloc(), place, input.closes(), room)
        }
        Err((fault, files)) => {
            input.answer(format!(in input.rt.alloc(); "{fault}\n")?)?;
            Ok(files)
        }
    }
}

// The files of a database that is left as by a crash, or closed as by a program.
fn left<D: Disk + Drop>(
    alloc: Global,
    place: Place<FileStore<D>>,
    closes: bool,
    room: Room,
) -> Result<Files<D>, Fail> {
    match place {
        Place::Database(connection) => Ok(left_files(connection, closes)),
        Place::Desk(desk) => {
            if !closes {
                return Ok(files_of(desk));
            }
            match reopen_desk(alloc, desk, room.options()) {
                Ok(desk) => Ok(files_of(desk)),
                Err(fault) => Err(Fail::new(fault)),
            }
        }
    }
}

// Answers all lines up to the first that is not about the database.
fn answer_all<S: Alter + Drop>(
    input: &mut Input<'_>,
    connection: Connection<S>,
) -> Result<Place<S>, Fail> {
    let mut place = Place::Database(connection);
    for _ in 0..u64::MAX {
        if input.is_at_end() || input.change().is_some() {
            return Ok(place);
        }
        place = answer(input, place)?;
    }
    Err(Fail::new("no end"))
}

fn answer<S: Alter + Drop>(input: &mut Input<'_>, place: Place<S>) -> Result<Place<S>, Fail> {
    let line = input.take()?;
    let mut text = String::new(input.rt.alloc());
    let place = answer_of_place(input.rt, &mut text, place, line.as_str())?;
    input.answer(text)?;
    Ok(place)
}
