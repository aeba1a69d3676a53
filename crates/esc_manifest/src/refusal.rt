//! The refusals of a manifest.

ghost use Rattle.std.specs.Prelude.{◌≡◌, Some};
ghost use Rattle.esc_manifest.specs.Codes.{manifest_code, manifest_number};

use std::fmt;

/// Why a text or a list of rows is no accepted manifest (this project's profile). Each refusal has
/// a number in the documents, and is printed as its code, from `M1` to `M13`.
#[derive(Clone, Copy, Debug, PartialEq, Eq)]
pub enum ManifestRefusal {
    /// There are too many rows or bytes.
    OverLimit = 1,
    /// A record does not have six fields.
    NotSixFields = 2,
    /// The heading is missing or different.
    WrongHeading = 3,
    /// An id, or a prevId that is not empty, does not have the form of an id.
    WrongId = 4,
    /// A type is none of the three words.
    WrongType = 5,
    /// A watermark is no moment of its form.
    WrongWatermark = 6,
    /// A Differential has no prevId.
    MissingPrev = 7,
    /// A resend does not have its form.
    WrongResend = 8,
    /// A digest does not have its form.
    WrongDigest = 9,
    /// A place occurs twice with one resend.
    RepeatedRevision = 10,
    /// An id is in two places.
    MovedId = 11,
    /// The prevId of a Differential names a listed row whose watermark isn't earlier than its own.
    LatePrev = 12,
    /// A digest occurs twice.
    RepeatedDigest = 13,
}

impl ManifestRefusal {
    /// The number of the refusal, from 1 to 13.
    pub fn number(self) -> u8
        ensures { result ≡ manifest_number self }
    {
        self as u8
    }
}

impl fmt::Display for ManifestRefusal {
    ghost output = { λ refusal. Some (manifest_code refusal) };

    fn fmt<W: fmt::Write>(&self, f: &mut fmt::Formatter<W>) -> fmt::Result {
        let number = self.number();
        write!(f, "M{number}")
    }
}
