//! Findings, and their order.

ghost use Rattle.std.specs.Prelude.{◌≡◌, ◌∷◌, [], ◌++◌, OnOk};
ghost use Rattle.std.proofs.Common.{rules};
ghost use Rattle.std.specs.Cmp.{partial_equiv_from_equiv, partial_order_from_total};
ghost use Rattle.std.specs.Cmp.Rules.{comparing};
ghost use Rattle.std.specs.Ordering.{as_partial_cmp};
ghost use Rattle.esc_check.specs.FindingValue.{finding_cmp, finding_eq};
ghost use Rattle.esc_check.specs.FindingOrder.{finding_total, finding_equiv};
ghost use Rattle.esc_check.specs.Rules.{rule_number};

use crate::rule::Rule;
use esc_bundle::NoMemory;
use esc_envelope::Kind;
use esc_tables::Key;
use std::alloc::Global;
use std::cmp::Ordering;
use std::marker::Model;

/// A finding: where the tables of a registry break a rule of V1 to V7 (this project's profile).
/// Findings are ordered by their fields in turn, texts by their bytes.
#[derive(Debug, Drop)]
pub struct Finding {
    /// The rule that is broken.
    pub rule: Rule,
    /// The kind of the object; in V2 the kind that is counted.
    pub kind: Kind,
    /// The text of the object's key, empty in V2.
    pub key: String,
    /// The name of the field; `count` in V2.
    pub field: String,
    /// The text of the field: in V1 the target's key, in V2 the declared number, in V4 `ok`.
    pub value: String,
    /// What else is reported: the target's kind in V1, the number found in V2, the watermark in V5,
    /// the date of creation in V6. Empty in V3, V4 and V7.
    pub other: String,
}

impl Model for Finding {
    ghost use Rattle.std.specs.Prelude.{string_bytes};
    ghost use Rattle.esc_check.specs.FindingValue.{FindingValue};
    ghost use Rattle.esc_check.specs.Rules.{rule_number};

    ghost Value = { FindingValue };

    ghost view = { λ f. record {
      code = rule_number f.rule;
      kind = f.kind;
      key = string_bytes f.key;
      field = string_bytes f.field;
      value = string_bytes f.value;
      other = string_bytes f.other;
    } };
}

impl PartialEq for Finding {
    ghost eq = { finding_eq };

    ghost laws = { partial_equiv_from_equiv finding_equiv };

    fn eq(&self, other: &Finding) -> bool {
        self.cmp(other) == Ordering::Equal
    }
}

impl Eq for Finding {
    ghost laws = { finding_equiv };
}

impl PartialOrd for Finding {
    ghost partial_cmp = { as_partial_cmp finding_cmp };

    ghost laws = { partial_order_from_total finding_total };

    fn partial_cmp(&self, other: &Finding) -> Option<Ordering> {
        Some(self.cmp(other))
    }
}

impl Ord for Finding {
    ghost cmp = { finding_cmp };

    ghost total = { finding_total };

    ghost matches_partial_cmp = { Prim.search (comparing, rules) };

    ghost matches_eq = { Prim.search (comparing, rules) };

    fn cmp(&self, other: &Finding) -> Ordering {
        let last = self
            .value
            .cmp(&other.value)
            .then(self.other.cmp(&other.other));
        let texts = self
            .key
            .cmp(&other.key)
            .then(self.field.cmp(&other.field).then(last));
        self.rule
            .number()
            .cmp(&other.rule.number())
            .then(self.kind.cmp(&other.kind).then(texts))
    }
}

/// How an object breaks a rule: what a finding has besides the object's key.
#[derive(Clone, Copy)]
pub struct Breach<'a> {
    pub rule: Rule,
    pub field: &'a str,
    pub value: &'a str,
    pub other: &'a str,
}

/// Adds that the object with this key breaks a rule.
pub fn add(
    alloc: Global,
    found: &mut Vec<Finding>,
    key: &Key,
    breach: Breach<'_>,
) -> Result<(), NoMemory>
    ensures { OnOk result (found.new.items ≡ found.old.items
        ++ record {
          code = rule_number breach.entry.rule;
          kind = key.now.kind;
          key = key.now.text;
          field = breach.entry.field.now;
          value = breach.entry.value.now;
          other = breach.entry.other.now;
        } ∷ []) }
{
    found.push(Finding {
        rule: breach.rule,
        kind: key.kind,
        key: String::from_str(alloc, key.text.as_str())?,
        field: String::from_str(alloc, breach.field)?,
        value: String::from_str(alloc, breach.value)?,
        other: String::from_str(alloc, breach.other)?,
    })?;
    Ok(())
}
