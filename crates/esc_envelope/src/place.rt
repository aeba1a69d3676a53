//! Places: a deposit's watermark and type.

/// The type of a deposit, in the order that types have at equal watermarks (RFC 8909, section 2).
#[derive(Clone, Copy, Debug, PartialEq, Eq, PartialOrd, Ord)]
pub enum DepositType {
    /// A Differential: what happened since the deposit that its `prevId` names (RFC 8909: since the
    /// last deposit of any type).
    Diff,
    /// An Incremental: what happened since the last Full.
    Incr,
    /// A Full: the whole registry at its watermark.
    Full,
}

/// A watermark and a type. Places are ordered by watermark, and at equal watermarks by type (this
/// project's profile).
#[derive(Clone, Copy, Debug, PartialEq, Eq, PartialOrd, Ord)]
pub struct Place {
    /// Nanoseconds since 1970-01-01T00:00:00Z.
    pub watermark: i64,
    pub kind: DepositType,
}

impl Place {
    ghost use Rattle.std.specs.Prelude.{IsTrue, ◌↔◌};
    ghost use Rattle.esc_envelope.specs.Place.{IsBefore, IsUpTo};

    /// Whether this place is before another.
    pub fn is_before(self, other: Place) -> bool
        ensures { IsTrue result ↔ IsBefore self other }
    {
        self < other
    }

    /// Whether this place is before another, or the same.
    pub fn is_up_to(self, other: Place) -> bool
        ensures { IsTrue result ↔ IsUpTo self other }
    {
        self <= other
    }
}

impl DepositType {
    ghost use Rattle.std.specs.Prelude.{◌≡◌};
    ghost use Rattle.esc_envelope.specs.Members.{type_name, type_named};

    /// The word for a type: `FULL`, `INCR` or `DIFF` (RFC 8909, section 5).
    pub fn name(self) -> &'static str
        ensures { result.now ≡ type_name self }
    {
        match self {
            DepositType::Diff => "DIFF",
            DepositType::Incr => "INCR",
            DepositType::Full => "FULL",
        }
    }

    /// The type with this name, if there is one.
    pub fn from_name(name: &str) -> Option<DepositType>
        ensures { result ≡ type_named name.now }
    {
        match name {
            "FULL" => Some(DepositType::Full),
            "INCR" => Some(DepositType::Incr),
            "DIFF" => Some(DepositType::Diff),
            _ => None,
        }
    }
}
