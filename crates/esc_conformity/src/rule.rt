//! The rules of the minimum tests.

ghost use Rattle.std.specs.Prelude.{◌≡◌};
ghost use Rattle.esc_conformity.specs.Flaws.{rule_name};

/// A rule that the objects of a registry keep one by one, by the registry of all (RFC 9022, section
/// 8, and this project's profile).
#[derive(Clone, Copy, Debug, PartialEq, Eq)]
pub enum Rule {
    /// Each registrar that created, updated, asked for or acts on a transfer of it is there.
    Registrars,
    /// No name is both a domain's and an NNDN's.
    Nndns,
    /// No other object of its kind has its ROID (RFC 5730, section 2.8).
    Roids,
    /// It has what RFC 9022 requires of its kind (sections 5.1 to 5.4).
    Required,
    /// A domain or an NNDN is below the TLD, if that is known.
    Outside,
    /// Each part of a DS is of a whole one (RFC 4034, section 5.1).
    Digests,
    /// An address of a host is one, of the version that is said (RFC 5732, section 2.5).
    Addresses,
}

impl Rule {
    /// Its name.
    pub fn name(self) -> &'static str
        ensures { result.now ≡ rule_name self }
    {
        match self {
            Rule::Registrars => "registrars",
            Rule::Nndns => "nndns",
            Rule::Roids => "roids",
            Rule::Required => "required",
            Rule::Outside => "outside",
            Rule::Digests => "digests",
            Rule::Addresses => "addresses",
        }
    }
}
