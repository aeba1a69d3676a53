//! What is proposed of a folder's files.

use std::fmt;
use std::marker::Model;

/// A file of a folder.
#[derive(Drop)]
pub struct FolderFile<'a> {
    /// Its name in the folder, without a path.
    pub name: &'a str,
    /// All that is in it.
    pub bytes: &'a [u8],
}

impl<'a> Model for FolderFile<'a> {
    ghost use Rattle.esc_pack.specs.Describing.{FileValue};

    ghost Value = { FileValue };

    ghost view = { λ f. record { name = f.name.now; bytes = f.bytes.now } };
}

/// Why a description doesn't name a file.
#[derive(Clone, Copy, Debug, PartialEq, Eq)]
pub enum Why {
    /// Its name stands for no known table.
    Name,
    /// Its first row is no heading: 1 to 64 names of fields, none twice, with the key among them.
    Heading,
    /// An earlier file of its table has another heading.
    Other,
}

impl fmt::Display for Why {
    fn fmt<W: fmt::Write>(&self, f: &mut fmt::Formatter<W>) -> fmt::Result {
        match *self {
            Why::Name => f.write_str("no table is known by its name"),
            Why::Heading => f.write_str("its first row is no heading with a known key"),
            Why::Other => f.write_str("an earlier file of its table has another heading"),
        }
    }
}

/// A file that a description doesn't name.
#[derive(Debug, Drop)]
pub struct Unknown {
    /// Its name in the folder.
    pub name: String,
    /// The first of the reasons that applies.
    pub why: Why,
}

impl Model for Unknown {
    ghost use Rattle.std.specs.Prelude.{string_bytes};
    ghost use Rattle.esc_pack.specs.Describing.{UnknownValue};

    ghost Value = { UnknownValue };

    ghost view = { λ u. record { name = string_bytes u.name; why = u.why } };
}

/// The text of a description, and the files that it doesn't name.
#[derive(Debug, Drop)]
pub struct Proposal {
    /// The description, in JSON.
    pub text: Vec<u8>,
    /// The files of the folder that it doesn't name, in their order.
    pub unknown: Vec<Unknown>,
}

impl Model for Proposal {
    ghost use Rattle.esc_pack.specs.Describing.{ProposalValue};

    ghost Value = { ProposalValue };

    ghost view = { λ p. record { text = p.text.items; unknown = p.unknown.items } };
}
