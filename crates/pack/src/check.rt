//! `check --manifest FILE DIR`: what `restore take` would find of a folder's files.

use crate::files::{read_body, read_manifest_at};
use crate::forecast_lines::{found_text, missing_line};
use crate::stop::{Stop, TOO_LARGE, or_stop, print};
use crate::tlds::Tlds;
use esc_cli::{Asked, OneLine, Why, path_in, plain_files, print_refusal};
use esc_envelope::is_id;
use esc_manifest::Manifest;
use esc_pack::{Forecast, forecast_of, is_there};
use std::io::Write;

const NO_NUMBER: &str = "the name is not 1 to 64 of A-Z a-z 0-9 . _ -";

/// The words of the command: the manifest, the folder of the files, and what every command is asked.
#[derive(Clone, Copy)]
pub struct Checking<'a> {
    pub asked: Asked<'a>,
    pub manifest: &'a str,
    pub folder: &'a str,
}

/// One check: the files that were looked at so far, and the two streams that are written to.
#[derive(Drop)]
struct Check<'a, O, E> {
    rt: &'a HostRuntime,
    manifest: &'a Manifest,
    asked: Asked<'a>,
    forecasts: Vec<Forecast>,
    tlds: Tlds,
    out: &'a mut O,
    err: &'a mut E,
}

/// Prints a line for each plain file of the folder, in byte order of names, and then one for each
/// deposit that the manifest lists and none of them has. A bundle of another TLD than the first one's
/// is told on standard error. Says whether each file would be `A1`.
pub fn check_files<O: Write, E: Write>(
    rt: &HostRuntime,
    words: Checking<'_>,
    out: &mut O,
    err: &mut E,
) -> Result<bool, Stop> {
    let manifest = read_manifest_at(rt, words.manifest)?;
    check_by_rows(rt, &manifest, words, out, err)
}

// The same by a manifest that was read. What a check holds is here at one lifetime.
fn check_by_rows<'a, O: Write, E: Write>(
    rt: &'a HostRuntime,
    manifest: &'a Manifest,
    words: Checking<'a>,
    out: &'a mut O,
    err: &'a mut E,
) -> Result<bool, Stop> {
    let Checking { folder, asked, .. } = words;
    let listing = or_stop(rt, folder, plain_files(rt, folder))?;
    let mut check = Check {
        rt,
        manifest,
        asked,
        forecasts: Vec::new(rt.alloc()),
        tlds: Tlds::new(rt),
        out,
        err,
    };
    for _ in 0..listing.unnamed {
        check.tell("N1", "(a name that is no UTF-8)", NO_NUMBER)?;
    }
    let mut are_held = listing.unnamed == 0;
    for name in &listing.names {
        are_held &= check.check_file(folder, name.as_str())?;
    }
    check.print_missing()?;
    Ok(are_held)
}

impl<O: Write, E: Write> Check<'_, O, E> {
    // Prints a refusal that doesn't stop the check, in the words of `restore take`, and why if that
    // is asked for. A failure of standard error is ignored: there is nowhere to report it.
    fn tell(&mut self, refusal: &str, name: &str, cause: &str) -> Result<(), Stop> {
        let line = format!(in self.rt.alloc(); "{refusal} {}\n", OneLine(name))?;
        let why = Why {
            command: self.asked.command,
            path: name,
            cause,
        };
        let is_told = self.asked.is_verbose;
        let _ = print_refusal(self.rt.alloc(), self.err, line.as_str(), is_told, &why);
        Ok(())
    }

    // Looks at the file of this name, and says whether it would be held.
    fn check_file(&mut self, folder: &str, name: &str) -> Result<bool, Stop> {
        if !is_id(name) {
            self.tell("N1", name, NO_NUMBER)?;
            return Ok(false);
        }
        let path = path_in(self.rt.alloc(), folder, name)?;
        let Some(body) = read_body(self.rt, path.as_str())? else {
            self.tell("E2", name, TOO_LARGE)?;
            return Ok(false);
        };
        self.check_body(name, &body)
    }

    fn check_body(&mut self, name: &str, body: &[u8]) -> Result<bool, Stop> {
        let forecast = forecast_of(self.rt.alloc(), self.manifest, body)?;
        let found = found_text(self.rt, self.manifest, &self.forecasts, &forecast, body)?;
        let line = format!(in self.rt.alloc(); "{name}: {found}\n")?;
        print(self.rt, self.out, line.as_bytes())?;
        self.tlds.add(self.rt, name, body, self.err)?;
        let is_held = forecast.held_row().is_some();
        self.forecasts.push(forecast)?;
        Ok(is_held)
    }

    fn print_missing(&mut self) -> Result<(), Stop> {
        let manifest = self.manifest;
        for (at, row) in manifest.rows().iter().enumerate() {
            if !is_there(&self.forecasts, at) {
                let line = missing_line(self.rt, &row.header)?;
                print(self.rt, self.out, line.as_bytes())?;
            }
        }
        Ok(())
    }
}
