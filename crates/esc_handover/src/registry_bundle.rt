//! A registry as the bundle or the series that was asked for, or what stops that.

use crate::stop::Stop;
use esc_apply::Objects;
use esc_bundle::Refusal;
use esc_deposit::{BundleRefusal, MOST_PARTS, Series, bundle_of, cut_objects};
use esc_envelope::Kind;
use esc_progress::{Progress, Watched};
use esc_store::StoreFault;
use esc_tables::{Key, MOST_ROWS, Object};
use std::alloc::Global;
use std::collections::BTreeMap;

/// `U11` of a bundle at this path, if there are more objects than it has rows. They needn't be read
/// for that.
pub fn check_object_count(
    alloc: Global,
    objects: &BTreeMap<Kind, u64>,
    path: &str,
) -> Result<(), Stop> {
    let count = objects
        .values()
        .fold(0u64, |count, number| count.saturating_add(*number));
    if count > MOST_ROWS as u64 {
        let refusal = BundleRefusal::Refused(Refusal::TooManyRows);
        return Err(Stop::unbundled(alloc, refusal, path));
    }
    Ok(())
}

/// The bundle of these objects ([`bundle_of`]), or the stop of one at this path.
pub fn bundle_or_stop(
    alloc: Global,
    id: &str,
    watermark: i64,
    objects: &[(Key, Object)],
    path: &str,
) -> Result<Vec<u8>, Stop> {
    bundle_of(alloc, id, watermark, objects).map_err(|refusal| Stop::unbundled(
        alloc, refusal, path,
    ))
}

/// How many objects each bundle of a series has ([`cut_objects`]).
pub fn read_lengths<O>(
    alloc: Global,
    objects: &mut O,
    progress: &mut Progress<'_>,
) -> Result<Vec<usize>, Stop>
where
    O: Objects<Error = StoreFault>,
{
    let mut watched = Watched::new(objects, progress, "series");
    Ok(cut_objects(alloc, &mut watched)?)
}

/// The series of so many bundles; `M1` of the folder at this path if no store lists them.
pub fn series_of<'a>(
    alloc: Global,
    id: &'a str,
    watermark: i64,
    lengths: &[usize],
    path: &str,
) -> Result<Series<'a>, Stop> {
    if lengths.len() > MOST_PARTS as usize {
        return Err(Stop::unbundled(alloc, BundleRefusal::TooManyParts, path));
    }
    Ok(Series {
        id,
        watermark,
        length: lengths.len() as u32,
    })
}
