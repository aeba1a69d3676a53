//! The tests of the acceptance.

ghost use Rattle.std.specs.Prelude.{◌≡◌};
ghost use Rattle.esc_acceptance.specs.Acceptance.{is_rule_told, is_told_alone, test_name};

use esc_conformity::Rule;

/// A test of the acceptance of a rebuilt registry (this project's profile).
#[derive(Clone, Copy, Debug, PartialEq, Eq)]
pub enum Test {
    /// The held deposits name one TLD at most.
    Tld,
    /// No place up to the moment is listed after the chain's end, and there is a chain.
    End,
    /// The chain's end is not later than now, if both are known.
    Future,
    /// The chain is the latest one of the held rows.
    Chain,
    /// No place of the chain awaits a resend.
    Resends,
    /// No place that is missing or blocked is before the chain's end. It is only told.
    Gaps,
    /// No moment is set. It is only told.
    Moment,
    /// No body is parked.
    Parked,
    /// No arrival has the verdict `A2` of version 1, which kept no such body. It is only told.
    Early,
    /// There is no finding V1 to V7.
    Findings,
    /// No object breaks this rule. Some rules are only told.
    Conforms(Rule),
    /// No deposit of the chain has an orphan.
    Orphans,
    /// The chain's last deposit declares how many objects of each kind there are.
    Counts,
    /// Each object has the fields by which links, statuses and dates go.
    Fields,
    /// No declared table or field looks like one of them under another name.
    Names,
    /// Each held body has the SHA-256 that its row lists, and those of the chain are deposits.
    Bodies,
    /// The tables are those that the held bodies of the chain make.
    Tables,
    /// The chain's deposits have no notes. They are only told.
    Notes,
}

// Whether a registry may be taken over where objects break a rule: as these are, they don't stop the
// DNS.
fn is_rule_told(rule: Rule) -> bool
    ensures { result ≡ is_rule_told rule }
{
    match rule {
        Rule::Roids | Rule::Required | Rule::Outside | Rule::Digests | Rule::Addresses => true,
        Rule::Registrars | Rule::Nndns => false,
    }
}

impl Test {
    /// All tests, in the order in which they are told.
    pub const ALL: [Test; 24] = [
        Test::Tld,
        Test::End,
        Test::Future,
        Test::Chain,
        Test::Resends,
        Test::Gaps,
        Test::Moment,
        Test::Parked,
        Test::Early,
        Test::Findings,
        Test::Conforms(Rule::Registrars),
        Test::Conforms(Rule::Nndns),
        Test::Conforms(Rule::Roids),
        Test::Conforms(Rule::Required),
        Test::Conforms(Rule::Outside),
        Test::Conforms(Rule::Digests),
        Test::Conforms(Rule::Addresses),
        Test::Orphans,
        Test::Counts,
        Test::Fields,
        Test::Names,
        Test::Bodies,
        Test::Tables,
        Test::Notes,
    ];

    /// Its name.
    pub fn name(self) -> &'static str
        ensures { result.now ≡ test_name self }
    {
        match self {
            Test::Tld => "tld",
            Test::End => "end",
            Test::Future => "future",
            Test::Chain => "chain",
            Test::Resends => "resends",
            Test::Gaps => "gaps",
            Test::Moment => "moment",
            Test::Parked => "parked",
            Test::Early => "early",
            Test::Findings => "findings",
            Test::Conforms(rule) => rule.name(),
            Test::Orphans => "orphans",
            Test::Counts => "counts",
            Test::Fields => "fields",
            Test::Names => "names",
            Test::Bodies => "bodies",
            Test::Tables => "tables",
            Test::Notes => "notes",
        }
    }

    /// Whether a registry may be taken over where it fails.
    pub fn is_told_alone(self) -> bool
        ensures { result ≡ is_told_alone self }
    {
        match self {
            Test::Gaps | Test::Moment | Test::Early | Test::Notes => true,
            Test::Conforms(rule) => is_rule_told(rule),
            Test::Tld
            | Test::End
            | Test::Future
            | Test::Chain
            | Test::Resends
            | Test::Parked
            | Test::Findings
            | Test::Orphans
            | Test::Counts
            | Test::Fields
            | Test::Names
            | Test::Bodies
            | Test::Tables => false,
        }
    }
}
