//! Findings as a set.

ghost use Rattle.std.specs.Prelude.{◌≡◌, ◌↔◌};
ghost use Rattle.std.specs.List.{Contains};
ghost use Rattle.std.specs.List.Sorted.{IsStrictlySortedBy};
ghost use Rattle.std.specs.Ordering.{eq_by_cmp};
ghost use Rattle.esc_check.specs.FindingValue.{FindingValue, finding_cmp, listing_cmp};

use crate::finding::Finding;
use std::cmp::Ordering;

/// These findings in order, each once. Doesn't allocate.
pub fn settle(mut found: Vec<Finding>) -> Vec<Finding>
    ensures ordered { IsStrictlySortedBy finding_cmp result.items }
    ensures same { (f : FindingValue) → Contains result.items f ↔ Contains found.items f }
{
    found.sort_unstable();
    found.dedup();
    found
}

/// These findings, which are in order, without each that differs from the one before it only in
/// `other`. Doesn't allocate.
pub fn listed(mut found: Vec<Finding>) -> Vec<Finding>
    requires { IsStrictlySortedBy finding_cmp found.items }
    ensures ordered { IsStrictlySortedBy listing_cmp result.items }
    ensures same { IsStrictlySortedBy listing_cmp found.items → result.items ≡ found.items }
{
    found.dedup_by(|later, earlier| is_listed_as(later, earlier));
    found
}

fn is_listed_as(one: &Finding, other: &Finding) -> bool
    ensures { result ≡ eq_by_cmp listing_cmp one.now other.now }
{
    let texts = one.key.cmp(&other.key).then(
        one.field
            .cmp(&other.field)
            .then(one.value.cmp(&other.value)),
    );
    one.rule
        .number()
        .cmp(&other.rule.number())
        .then(one.kind.cmp(&other.kind).then(texts))
        == Ordering::Equal
}
