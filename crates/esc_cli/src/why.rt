//! Why a command was refused, in words: the line of `--verbose`.

ghost use Rattle.std.specs.Prelude.{◌≡◌, ℕ, List, true, false, ◌++◌, map, IfOk, OnOk};
ghost use Rattle.std.specs.Io.KnownBytes.{Appends};
ghost use Rattle.esc_cli.specs.Why.{IsLine, shown};

use crate::one_line::OneLine;
use crate::table::VERBOSE;
use clap::ArgMatches;
use std::alloc::{AllocError, Global};
use std::fmt::{self, Display};
use std::io::{Error, Write};

// The line where there is no memory for one.
const UNSAID: &[u8] = b"why: memory was refused\n";

/// What a program was asked to do, as far as what it says of a refusal depends on it.
#[derive(Clone, Copy)]
pub struct Asked<'a> {
    /// The command, as `take`.
    pub command: &'a str,
    /// The path of its store; empty if it has none.
    pub store: &'a str,
    /// Whether a second line says why something is refused.
    pub is_verbose: bool,
}

impl<'a> Asked<'a> {
    /// What the matched words ask for. Without a command nothing is said.
    pub fn of(matches: &ArgMatches<'a>) -> Asked<'a> {
        match matches.subcommand() {
            Some((command, given)) => Asked {
                command,
                store: given.get_str("store").unwrap_or(""),
                is_verbose: given.get_flag(VERBOSE.id),
            },
            None => Asked::NOTHING,
        }
    }

    /// What is asked for where the words can't be read.
    pub const NOTHING: Asked<'static> = Asked {
        command: "",
        store: "",
        is_verbose: false,
    };
}

/// Why a command fails at a path. Its text is `take desk.db: locked by another process`.
#[derive(Clone, Copy)]
pub struct Why<'a, C> {
    pub command: &'a str,
    pub path: &'a str,
    pub cause: C,
}

impl<C: Display> Display for Why<'_, C> {
    fn fmt<W: fmt::Write>(&self, f: &mut fmt::Formatter<W>) -> fmt::Result {
        write!(f, "{} {}: {}", self.command, OneLine(self.path), self.cause)
    }
}

/// Prints why something was refused, as a line that begins with `why: `; nothing if that isn't
/// asked for. Fails if the line can't be written.
pub fn print_why<E: Write, C: Display>(
    alloc: Global,
    err: &mut E,
    is_verbose: bool,
    why: &C,
) -> Result<(), Error>
    ensures silent { is_verbose ≡ false → err.new ≡ err.old }
    ensures line { is_verbose ≡ true → OnOk result
        ((line : List ℕ) × IsLine line × Appends (E.contents err.old) (E.contents err.new) line) }
{
    if !is_verbose {
        return Ok(());
    }
    match line_of(alloc, why) {
        Ok(line) => err.write_all(&line),
        Err(_) => err.write_all(UNSAID),
    }
}

/// Prints a refusal, which is a line, and after it why that is, if it is asked for. Fails if they
/// can't be written.
pub fn print_refusal<E: Write, C: Display>(
    alloc: Global,
    err: &mut E,
    refusal: &str,
    is_verbose: bool,
    why: &C,
) -> Result<(), Error>
    ensures short { is_verbose ≡ false → OnOk result
        (Appends (E.contents err.old) (E.contents err.new) refusal.now) }
    ensures told { is_verbose ≡ true → OnOk result ((line : List ℕ) × IsLine line
        × Appends (E.contents err.old) (E.contents err.new) (refusal.now ++ line)) }
{
    err.write_all(refusal.as_bytes())?;
    print_why(alloc, err, is_verbose, why)
}

fn line_of<C: Display>(alloc: Global, why: &C) -> Result<Vec<u8>, AllocError>
    ensures { IfOk result (λ line. IsLine line.items) }
{
    let text = format!(in alloc; "why: {why}")?;
    let mut line = Vec::new(alloc);
    push_shown(&mut line, text.as_bytes())?;
    line.push(b'\n')?;
    Ok(line)
}

// Adds a text, with a space for each control character.
fn push_shown(line: &mut Vec<u8>, text: &[u8]) -> Result<(), AllocError>
    ensures { OnOk result (line.new.items ≡ line.old.items ++ map shown text.now) }
{
    for byte in text {
        line.push(shown(*byte))?;
    }
    Ok(())
}

fn shown(byte: u8) -> u8
    ensures { result ≡ shown byte }
{
    if byte < b' ' || byte == 127 {
        b' '
    } else {
        byte
    }
}
