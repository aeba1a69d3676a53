//! The lines.

use esc_cli::OneLine;
use std::alloc::AllocError;
use std::fmt;
use std::io::{IsTerminal, Write};
use std::time::Instant;

/// For how many seconds nothing more is told of what was read.
const PAUSE: u64 = 2;

/// Tells how far the work is, if that is to be told.
#[derive(Drop)]
pub struct Progress<'a> {
    // The clock and standard error; `None` where nothing is to be told.
    rt: Option<&'a HostRuntime>,
    // When the last line was told, or when it began.
    told: Option<Instant>,
    // When the reading of these things began, and how many there are, if that is known.
    begun: Option<Instant>,
    total: Option<u64>,
}

impl<'a> Progress<'a> {
    /// What tells how far the work is, if `is_asked` or where standard error is a terminal.
    pub fn new(rt: &'a HostRuntime, is_asked: bool) -> Progress<'a> {
        if !is_asked && !rt.stderr().is_terminal() {
            return Progress::silent();
        }
        Progress {
            rt: Some(rt),
            told: Instant::now(rt).ok(),
            begun: None,
            total: None,
        }
    }

    /// What tells nothing.
    pub fn silent() -> Progress<'a> {
        Progress {
            rt: None,
            told: None,
            begun: None,
            total: None,
        }
    }

    /// Tells that the store of a file is being opened.
    pub fn tell_opening(&mut self, path: &str) {
        if let Some(rt) = self.rt {
            let line = format!(in rt.alloc(); "opening {}\n", OneLine(path));
            self.tell(rt, line);
        }
    }

    /// Tells that a file is written.
    pub fn tell_written(&mut self, name: &str) {
        if let Some(rt) = self.rt {
            let line = format!(in rt.alloc(); "{name}: written\n");
            self.tell(rt, line);
        }
    }

    /// Other things are read from now on: so many in all, if that is known.
    pub fn begin(&mut self, total: Option<u64>) {
        self.begun = self.rt.and_then(|rt| Instant::now(rt).ok());
        self.total = total;
    }

    /// Tells how many of these things were read for a file, a kind or a test of this name, unless a
    /// line was told shortly before.
    pub fn tell_read(&mut self, name: &str, count: u64, things: &str) {
        let Some(rt) = self.rt else {
            return;
        };
        if !self.is_due(rt) {
            return;
        }
        let line = match self.total {
            None => format!(in rt.alloc(); "{name}: {count} {things} read\n"),
            Some(total) => {
                let rest = Rest(seconds_left(rt, self.begun, count, total));
                format!(in rt.alloc(); "{name}: {count} of {total} {things} read{rest}\n")
            }
        };
        self.tell(rt, line);
    }

    // A line for which there is no memory is left out, and so is one that can't be printed.
    fn tell(&mut self, rt: &HostRuntime, line: Result<String, AllocError>) {
        if let Ok(line) = line {
            let mut err = rt.stderr();
            let _ = err.write_all(line.as_bytes());
        }
        self.told = Instant::now(rt).ok();
    }

    // Without a clock nothing is told of what was read.
    fn is_due(&self, rt: &HostRuntime) -> bool {
        self.told
            .and_then(|told| told.elapsed(rt).ok())
            .is_some_and(|time| time.as_secs() >= PAUSE)
    }
}

// How many seconds the rest takes, if each takes as long as those before it.
fn seconds_left(rt: &HostRuntime, begun: Option<Instant>, count: u64, total: u64) -> Option<u64> {
    let passed = begun?.elapsed(rt).ok()?.as_secs();
    passed
        .saturating_mul(total.saturating_sub(count))
        .checked_div(count)
}

// The words on the seconds that the rest takes, if that is known.
#[derive(Clone, Copy)]
struct Rest(Option<u64>);

impl fmt::Display for Rest {
    fn fmt<W: fmt::Write>(&self, f: &mut fmt::Formatter<W>) -> fmt::Result {
        match self.0 {
            None => Ok(()),
            Some(seconds) if seconds < 120 => write!(f, ", {seconds} s left"),
            Some(seconds) => write!(f, ", {} min left", seconds / 60),
        }
    }
}
