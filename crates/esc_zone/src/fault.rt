//! Why no zone is made.

use esc_bundle::NoMemory;
use esc_cli::OneLine;
use std::alloc::{AllocError, AllocFailed};
use std::{fmt, io};

/// What makes a zone as a whole doubtful.
#[derive(Clone, Copy, Debug, PartialEq, Eq)]
pub enum Rule {
    /// `Z1`: the origin is no name.
    Origin,
    /// `Z2`: the serial is no number of a SOA.
    Serial,
    /// `Z3`: the operator's file is none of a zone's apex.
    Apex,
    /// `Z4`: a wanted table or field has another name, or is missing.
    Fields,
    /// `Z5`: two objects have one name.
    Twice,
    /// `Z6`: the operator's file has what the registry delegates.
    Overlap,
    /// `Z7`: nothing is delegated.
    Empty,
}

impl fmt::Display for Rule {
    fn fmt<W: fmt::Write>(&self, f: &mut fmt::Formatter<W>) -> fmt::Result {
        f.write_str(match self {
            Rule::Origin => "Z1",
            Rule::Serial => "Z2",
            Rule::Apex => "Z3",
            Rule::Fields => "Z4",
            Rule::Twice => "Z5",
            Rule::Overlap => "Z6",
            Rule::Empty => "Z7",
        })
    }
}

/// The refusal of a zone: by which rule, and what is wrong.
#[derive(Debug, Drop)]
pub struct Refusal {
    pub rule: Rule,
    pub text: String,
}

impl fmt::Display for Refusal {
    fn fmt<W: fmt::Write>(&self, f: &mut fmt::Formatter<W>) -> fmt::Result {
        let (rule, text) = (self.rule, OneLine(self.text.as_str()));
        write!(f, "{rule} {text}")
    }
}

/// Why no zone is made of objects.
#[derive(Debug, Drop)]
pub enum Halt {
    Refused(Refusal),
    /// Out of memory.
    NoMemory,
}

impl From<NoMemory> for Halt {
    fn from(_refused: NoMemory) -> Halt {
        Halt::NoMemory
    }
}

impl From<AllocError> for Halt {
    fn from(_refused: AllocError) -> Halt {
        Halt::NoMemory
    }
}

impl<T: Drop> From<AllocFailed<T>> for Halt {
    fn from(_refused: AllocFailed<T>) -> Halt {
        Halt::NoMemory
    }
}

/// The refusal by a rule, with this text; or that there was no memory for it.
pub(crate) fn refused(rule: Rule, text: Result<String, AllocError>) -> Halt {
    match text {
        Ok(text) => Halt::Refused(Refusal { rule, text }),
        Err(_) => Halt::NoMemory,
    }
}

/// Why a zone was not written.
#[derive(Debug, Drop)]
pub enum ZoneFault<E> {
    /// The source of the objects failed, and returned this.
    Source(E),
    /// It is refused, or there was no memory.
    Halt(Halt),
    /// What is written to failed.
    Output(io::Error),
}

impl<E> From<Halt> for ZoneFault<E> {
    fn from(halt: Halt) -> ZoneFault<E> {
        ZoneFault::Halt(halt)
    }
}

impl<E> From<io::Error> for ZoneFault<E> {
    fn from(error: io::Error) -> ZoneFault<E> {
        ZoneFault::Output(error)
    }
}
