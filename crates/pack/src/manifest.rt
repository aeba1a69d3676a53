//! `manifest BUNDLE..`: the release manifest of bundles.

use crate::files::read_file;
use crate::stop::{Refusal, RowPaths, Stop};
use crate::tlds::Tlds;
use esc_bundle::Fault;
use esc_envelope::Header;
use esc_manifest::{MRow, ManifestRefusal};
use esc_pack::{Release, ReleaseFault};
use std::io::Write;

/// A bundle: its path, and what its deposit says of itself.
#[derive(Drop)]
struct Bundle<'a> {
    path: &'a str,
    header: &'a Header,
}

/// The release manifest of the bundles at these paths. Holds one of them at a time. A bundle of
/// another TLD than the first one's is told on standard error.
pub fn manifest_at<E: Write>(
    rt: &HostRuntime,
    paths: &[&str],
    err: &mut E,
) -> Result<Vec<u8>, Stop> {
    let release = read_release(rt, paths, err)?;
    match release.manifest(rt.alloc()) {
        Ok(text) => Ok(text),
        Err(ReleaseFault::Unlisted { refusal, row }) => Err(Stop::Unlisted {
            refusal,
            row,
            paths: row_paths(rt, paths, release.rows(), refusal, row)?,
        }),
        Err(ReleaseFault::NoMemory) => Err(Stop::NoMemory),
    }
}

fn read_release<E: Write>(rt: &HostRuntime, paths: &[&str], err: &mut E) -> Result<Release, Stop> {
    let mut release = Release::new(rt.alloc());
    let mut tlds = Tlds::new(rt);
    for path in paths {
        let body = read_file(rt, path)?;
        match release.read(rt.alloc(), body.as_slice()) {
            Ok(()) => tlds.add(rt, path, body.as_slice(), err)?,
            Err(Fault::Refused(refusal)) => {
                return Err(Stop::at(rt, Refusal::Unread(refusal), path));
            }
            Err(Fault::NoMemory) => return Err(Stop::NoMemory),
        }
    }
    Ok(release)
}

// The paths of the bundles that this refusal at this row is about: none at row 0, which is the
// whole.
fn row_paths(
    rt: &HostRuntime,
    paths: &[&str],
    rows: &[MRow],
    refusal: ManifestRefusal,
    row: u32,
) -> Result<Option<RowPaths>, Stop> {
    let Some(place) = row.checked_sub(1) else {
        return Ok(None);
    };
    let bundles = in_order(rt, paths, rows)?;
    let Some(blamed) = bundles.get(place as usize) else {
        return Ok(None);
    };
    let bundle = String::from_str(rt.alloc(), blamed.path)?;
    let other = match other_path(&bundles, refusal, place as usize) {
        Some(path) => Some(String::from_str(rt.alloc(), path)?),
        None => None,
    };
    Ok(Some(RowPaths { bundle, other }))
}

// The bundles in the order of their rows: that of places, and at one place that of resends.
fn in_order<'a>(
    rt: &HostRuntime,
    paths: &[&'a str],
    rows: &'a [MRow],
) -> Result<Vec<Bundle<'a>>, Stop> {
    let mut bundles = Vec::new(rt.alloc());
    for (path, row) in paths.iter().zip(rows) {
        let header = &row.header;
        bundles.push(Bundle {
            path: *path,
            header,
        })?;
    }
    bundles.sort_by_key(|bundle| {
        let header = bundle.header;
        (header.place, header.resend)
    })?;
    Ok(bundles)
}

// The path of the first other bundle that the row at this place contradicts, if there is one.
fn other_path<'a>(
    bundles: &[Bundle<'a>],
    refusal: ManifestRefusal,
    place: usize,
) -> Option<&'a str> {
    let blamed = bundles.get(place)?;
    for (at, other) in bundles.iter().enumerate() {
        if at != place && is_against(refusal, blamed.header, other.header) {
            return Some(other.path);
        }
    }
    None
}

// Whether two rows contradict each other by this refusal, which the first one has. Two that have
// one digest (M13) have one place, which is M10.
fn is_against(refusal: ManifestRefusal, row: &Header, other: &Header) -> bool {
    match refusal {
        ManifestRefusal::RepeatedRevision => row.place == other.place && row.resend == other.resend,
        ManifestRefusal::MovedId => row.id.as_str() == other.id.as_str()
            && row.place != other.place,
        ManifestRefusal::LatePrev => {
            row.prev.as_deref() == Some(other.id.as_str())
                && row.place.watermark <= other.place.watermark
        }
        _ => false,
    }
}
