//! Numbers of arrivals.

ghost use Rattle.std.specs.Prelude.{◌≡◌, IsTrue};
ghost use Rattle.esc_envelope.specs.Id.{is_id};

use std::fmt;
use std::marker::Model;

/// The number that a sender gives an arrival: 1 to 64 of `A-Z a-z 0-9 . _ -` (this project's
/// profile).
#[derive(Debug, Drop)]
pub struct Number<'a> {
    text: &'a str,
}

impl<'a> Model for Number<'a> {
    ghost use Rattle.std.specs.Prelude.{ℕ, List, IsTrue};
    ghost use Rattle.esc_envelope.specs.Id.{is_id};

    ghost Value = { List ℕ };

    ghost view = { λ n. n.text.now };

    ghost invariant = { λ n. IsTrue (is_id n.text.now) };
}

/// N1: a text is no number of an arrival.
#[derive(Clone, Copy, Debug, PartialEq, Eq)]
pub struct N1;

impl fmt::Display for N1 {
    fn fmt<W: fmt::Write>(&self, f: &mut fmt::Formatter<W>) -> fmt::Result {
        f.write_str("N1")
    }
}

impl std::error::Error for N1 {}

impl<'a> Number<'a> {
    // A number of a text that was tested.
    pub(crate) fn of_id(text: &'a str) -> Number<'a>
        requires { IsTrue (is_id text.now) }
        ensures { result ≡ text.now }
    {
        Number { text }
    }

    /// The number's text. Doesn't allocate.
    pub fn text(&self) -> &'a str
        ensures text { result.now ≡ self.now }
        ensures form { IsTrue (is_id self.now) }
    {
        self.text
    }
}
