//! The refusals of a body.

ghost use Rattle.std.specs.Prelude.{◌≡◌, Some};
ghost use Rattle.esc_bundle.specs.Codes.{refusal_code, refusal_number};

use std::fmt;

/// Why a body is no bundle, or its bundle no deposit (this project's profile). Each refusal has a
/// number in the documents and in a store, and is printed as its code, from `U1` to `U11`.
#[derive(Clone, Copy, Debug, PartialEq, Eq)]
pub enum Refusal {
    /// The text does not have the frame of a bundle.
    BrokenFrame = 1,
    /// A section's name does not have the form of a name.
    WrongName = 2,
    /// An earlier section has the same name.
    RepeatedName = 3,
    /// There are too many sections or bytes.
    OverLimit = 4,
    /// The envelope is not JSON.
    NotJson = 5,
    /// A member of the envelope, tables apart, is missing or has another form.
    WrongMember = 6,
    /// The declaration of a table has another form.
    WrongTable = 7,
    /// A declared file is no section, or a section is not declared by exactly one table.
    WrongFiles = 8,
    /// A row has another number of fields than declared, or a field is not UTF-8.
    BrokenRow = 9,
    /// A key is empty or too long.
    WrongKey = 10,
    /// There are too many rows.
    TooManyRows = 11,
}

impl Refusal {
    /// The number of the refusal, from 1 to 11.
    pub fn number(self) -> u8
        ensures { result ≡ refusal_number self }
    {
        self as u8
    }
}

impl fmt::Display for Refusal {
    ghost output = { λ refusal. Some (refusal_code refusal) };

    fn fmt<W: fmt::Write>(&self, f: &mut fmt::Formatter<W>) -> fmt::Result {
        let number = self.number();
        write!(f, "U{number}")
    }
}
