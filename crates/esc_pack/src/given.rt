//! The files that an agent sent for a table.

use std::marker::Model;

/// The files of one declared table. Contracts see whether they have headings, and their bytes.
#[derive(Drop)]
pub struct TableFiles<'a> {
    /// Whether each file begins with a row of the declared fields' names, which is dropped.
    pub has_heading: bool,
    /// The bytes of the files, whose rows follow each other.
    pub files: Vec<&'a [u8]>,
}

impl<'a> Model for TableFiles<'a> {
    ghost use Rattle.std.specs.Prelude.{map};
    ghost use Rattle.esc_pack.specs.GivenRows.{GivenTable};

    ghost Value = { GivenTable };

    ghost view = { λ t. record {
      has_heading = t.has_heading;
      files = map (λ f. f.now) t.files.items;
    } };
}
