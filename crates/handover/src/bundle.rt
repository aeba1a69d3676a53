//! `bundle --store FILE --id ID OUT`: the tables of a store as one deposit, in one bundle or, with
//! `--series`, in as many as it needs.

use crate::walking::walk;
use esc_apply::Objects;
use esc_cli::DONE;
use esc_desk::{Reads, StoreFault};
use esc_handover::{
    Answer, SeriesFolder, Stop, bundle_or_stop, check_object_count, read_lengths, series_of,
};
use esc_progress::Progress;
use esc_tables::{Key, Object};
use std::alloc::Global;

/// The words of a series: the id of the deposit, and the folder of its bundles.
#[derive(Clone, Copy)]
pub struct Splitting<'a> {
    pub rt: &'a HostRuntime,
    pub id: &'a str,
    pub folder: &'a str,
}

/// The bundle of a store's tables under this id, at the watermark of the chain's end. A path is that
/// of the bundle. More objects than a bundle has rows aren't read.
pub fn tables_bundle<R: Reads>(
    alloc: Global,
    reader: &mut R,
    id: &str,
    path: &str,
) -> Result<Answer, Stop> {
    let watermark = end_watermark(alloc, reader)?;
    check_count(alloc, reader, path)?;
    let mut walk = walk(alloc, reader, None)?;
    let objects = objects_from(alloc, &mut walk)?;
    let text = bundle_or_stop(alloc, id, watermark, &objects, path)?;
    Ok(Answer { text, status: DONE })
}

/// Writes a store's tables as the bundles of a series, with their manifest, or nothing. The objects
/// are read twice: to be counted, since each id has the number of bundles, and to be written. Those
/// of one bundle are in memory at a time.
pub fn write_bundles<R: Reads>(
    reader: &mut R,
    words: Splitting<'_>,
    mut progress: Progress<'_>,
) -> Result<Answer, Stop> {
    let alloc = words.rt.alloc();
    let watermark = end_watermark(alloc, reader)?;
    let lengths = lengths_of(alloc, reader, &mut progress)?;
    let series = series_of(alloc, words.id, watermark, &lengths, words.folder)?;
    let mut folder = SeriesFolder::create(words.rt, words.folder, series)?;
    let written = fill(alloc, reader, &lengths, &mut folder, &mut progress);
    folder.finish(written)?;
    Ok(Answer {
        text: Vec::new(alloc),
        status: DONE,
    })
}

// How many objects each bundle has.
fn lengths_of<R: Reads>(
    alloc: Global,
    reader: &mut R,
    progress: &mut Progress<'_>,
) -> Result<Vec<usize>, Stop> {
    let mut walk = walk(alloc, reader, None)?;
    progress.begin(walk.left());
    read_lengths(alloc, &mut walk, progress)
}

// Writes all files of the folder.
fn fill<R: Reads>(
    alloc: Global,
    reader: &mut R,
    lengths: &[usize],
    folder: &mut SeriesFolder<'_>,
    progress: &mut Progress<'_>,
) -> Result<(), Stop> {
    let mut walk = walk(alloc, reader, None)?;
    progress.begin(walk.left());
    folder.write(lengths, &mut walk, progress)
}

// The watermark of the chain's end.
fn end_watermark<R: Reads>(alloc: Global, reader: &mut R) -> Result<i64, Stop> {
    match reader.end(alloc)? {
        Some(end) => Ok(end.watermark),
        None => Err(Stop::Chainless),
    }
}

fn check_count<R: Reads>(alloc: Global, reader: &mut R, path: &str) -> Result<(), Stop> {
    let status = reader.status(alloc)?;
    check_object_count(alloc, &status.objects, path)
}

// The objects by key, all in memory.
fn objects_from<O: Objects<Error = StoreFault>>(
    alloc: Global,
    objects: &mut O,
) -> Result<Vec<(Key, Object)>, Stop> {
    let mut all = Vec::new(alloc);
    while let Some(entry) = objects.next()? {
        all.push(entry)?;
    }
    Ok(all)
}
