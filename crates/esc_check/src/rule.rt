//! The rules that the tables of a registry keep.

ghost use Rattle.std.specs.Prelude.{◌≡◌, Some};
ghost use Rattle.esc_check.specs.Rules.{rule_number, rule_text};

use std::fmt;

/// A rule that the tables of a registry keep, V1 to V7 (this project's profile).
#[derive(Clone, Copy, Debug, PartialEq, Eq)]
pub enum Rule {
    /// V1: a link leads to an object that is there.
    LinkTarget,
    /// V2: a kind has the declared number of objects.
    ObjectCount,
    /// V3: a status is one of its kind's.
    KnownStatus,
    /// V4: a domain that is `ok` has no other status.
    OkAlone,
    /// V5: an object is created by the chain's end.
    CreatedBefore,
    /// V6: an object expires after it was created.
    ExpiresAfter,
    /// V7: a date is one, in the right form.
    DateForm,
}

impl Rule {
    /// The rules, in the order of their numbers.
    pub const ALL: [Rule; 7] = [
        Rule::LinkTarget,
        Rule::ObjectCount,
        Rule::KnownStatus,
        Rule::OkAlone,
        Rule::CreatedBefore,
        Rule::ExpiresAfter,
        Rule::DateForm,
    ];

    /// The number of the rule: 1 to 7, for V1 to V7.
    pub fn number(self) -> u8
        ensures { result ≡ rule_number self }
    {
        match self {
            Rule::LinkTarget => 1,
            Rule::ObjectCount => 2,
            Rule::KnownStatus => 3,
            Rule::OkAlone => 4,
            Rule::CreatedBefore => 5,
            Rule::ExpiresAfter => 6,
            Rule::DateForm => 7,
        }
    }
}

impl fmt::Display for Rule {
    ghost output = { λ rule. Some (rule_text rule) };

    fn fmt<W: fmt::Write>(&self, f: &mut fmt::Formatter<W>) -> fmt::Result {
        let number = self.number();
        write!(f, "V{number}")
    }
}
