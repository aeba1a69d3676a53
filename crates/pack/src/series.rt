//! `series DIR OUT`: the bundles of a deposit that is larger than one bundle.

use crate::bundle::{Bundling, write_bundle};
use crate::files::check_folder;
use crate::stop::{Refusal, Stop, or_stop};
use esc_cli::path_in;
use std::fs;

/// What the name of a part's folder begins with; then comes its number, from 001 on.
const PART: &str = "part-";

/// The words of the command: the folder of the parts, and what the bundles' paths begin with.
#[derive(Clone, Copy)]
pub struct Series<'a> {
    pub folder: &'a str,
    pub target: &'a str,
}

/// Writes a bundle for each part, or none: the bundles of an earlier part are removed where a later
/// one is refused. Returns what the desk won't look at in them, in lines.
pub fn write_series(rt: &HostRuntime, words: Series<'_>) -> Result<String, Stop> {
    check_folder(rt, words.folder)?;
    let names = part_names(rt, words.folder)?;
    let mut written = Vec::new(rt.alloc());
    let mut unseen = String::new(rt.alloc());
    for name in &names {
        let target = target_of(rt, words.target, name.as_str())?;
        match write_part(rt, words.folder, name.as_str(), target.as_str()) {
            Ok(lines) => unseen.push_str(lines.as_str())?,
            Err(stop) => {
                remove_all(rt, &written);
                return Err(stop);
            }
        }
        written.push(target)?;
    }
    Ok(unseen)
}

// The names of the parts' folders, in order. `E1` where there is none, or a number is left out.
fn part_names(rt: &HostRuntime, folder: &str) -> Result<Vec<String>, Stop> {
    let mut names = Vec::new(rt.alloc());
    for entry in or_stop(rt, folder, fs::read_dir(rt, folder))? {
        let entry = or_stop(rt, folder, entry)?;
        let name = entry.file_name();
        if name.starts_with(PART) {
            names.push(String::from_str(rt.alloc(), name)?)?;
        }
    }
    names.sort_unstable();
    if names.is_empty() || !are_numbered(&names) {
        return Err(Stop::at(rt, Refusal::Unparted, folder));
    }
    Ok(names)
}

// Whether these are the names of the parts 1, 2 and so on.
fn are_numbered(names: &[String]) -> bool {
    names.iter().enumerate().all(|(at, name)| number_of(name.as_str()) == Some(at as u64 + 1))
}

fn number_of(name: &str) -> Option<u64> {
    name.strip_prefix(PART)?.parse().ok()
}

// The path of a part's bundle: what all begin with, a dash, and the part's number.
fn target_of(rt: &HostRuntime, target: &str, name: &str) -> Result<String, Stop> {
    let number = name.strip_prefix(PART).unwrap_or(name);
    Ok(format!(in rt.alloc(); "{target}-{number}")?)
}

fn write_part(rt: &HostRuntime, folder: &str, name: &str, target: &str) -> Result<String, Stop> {
    let folder = path_in(rt.alloc(), folder, name)?;
    let envelope = path_in(rt.alloc(), folder.as_str(), "envelope.json")?;
    write_bundle(
        rt,
        Bundling {
            envelope: envelope.as_str(),
            folder: folder.as_str(),
            target,
        },
    )
}

// Removes files that this run has written. One that can't be removed stays.
fn remove_all(rt: &HostRuntime, paths: &[String]) {
    for path in paths {
        let _ = fs::remove_file(rt, path.as_str());
    }
}
