//! The kinds of objects.

/// The kind of an object (RFC 9022, section 5). Keys are ordered by kind in this order.
#[derive(Clone, Copy, Debug, PartialEq, Eq, PartialOrd, Ord)]
pub enum Kind {
    Registrar,
    Contact,
    Host,
    Domain,
    Idn,
    Nndn,
}

impl Kind {
    ghost use Rattle.std.specs.Prelude.{◌≡◌};
    ghost use Rattle.esc_envelope.specs.Kinds.{kind_name, kind_named};

    /// All kinds, in their order.
    pub const ALL: [Kind; 6] = [
        Kind::Registrar,
        Kind::Contact,
        Kind::Host,
        Kind::Domain,
        Kind::Idn,
        Kind::Nndn,
    ];

    /// The word for a kind in envelopes and reports, such as `registrar`.
    pub fn name(self) -> &'static str
        ensures { result.now ≡ kind_name self }
    {
        match self {
            Kind::Registrar => "registrar",
            Kind::Contact => "contact",
            Kind::Host => "host",
            Kind::Domain => "domain",
            Kind::Idn => "idn",
            Kind::Nndn => "nndn",
        }
    }

    /// The kind with this name, if there is one.
    pub fn from_name(name: &str) -> Option<Kind>
        ensures { result ≡ kind_named name.now }
    {
        match name {
            "registrar" => Some(Kind::Registrar),
            "contact" => Some(Kind::Contact),
            "host" => Some(Kind::Host),
            "domain" => Some(Kind::Domain),
            "idn" => Some(Kind::Idn),
            "nndn" => Some(Kind::Nndn),
            _ => None,
        }
    }
}
