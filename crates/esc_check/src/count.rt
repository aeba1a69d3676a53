//! The declared numbers of objects (V2).

ghost use Rattle.std.specs.Prelude.{◌≡◌, ◌==◌, ◌∷◌, [], ◌++◌, OnOk, IfOk, if◌then◌else◌};
ghost use Rattle.std.specs.Prelude.{string_bytes};
ghost use Rattle.std.specs.List.{flat_map};
ghost use Rattle.std.specs.Fmt.{decimal};
ghost use Rattle.std.specs.Map.{keys_of};
ghost use Rattle.esc_check.specs.Counted.{came_of};
ghost use Rattle.esc_check.specs.Findings.{miscounted};
ghost use Rattle.esc_check.specs.Gathered.{count_of_kind, count_findings, number_findings};

use crate::came::Came;
use crate::finding::Finding;
use crate::rule::Rule;
use esc_bundle::NoMemory;
use esc_envelope::Kind;
use esc_tables::{Key, Object};
use std::alloc::Global;
use std::collections::BTreeMap;

// How many objects are of a kind.
fn count_of(tables: &BTreeMap<Key, Object>, kind: Kind) -> u64
    ensures { result ≡ count_of_kind (keys_of tables.now.entries) kind }
{
    tables.keys().filter(|key| key.kind == kind).count() as u64
}

fn decimal_text(alloc: Global, number: u64) -> Result<String, NoMemory>
    ensures { IfOk result (λ text. string_bytes text ≡ decimal number) }
{
    Ok(format!(in alloc; "{number}")?)
}

// Adds the finding V2 of a declared number, if the number found is another one.
fn check_count(
    alloc: Global,
    found: &mut Vec<Finding>,
    kind: Kind,
    declared: u64,
    count: u64,
) -> Result<(), NoMemory>
    ensures { OnOk result (found.new.items ≡ found.old.items
        ++ (if count == declared then [] else miscounted kind declared count ∷ [])) }
{
    if count == declared {
        return Ok(());
    }
    found.push(Finding {
        rule: Rule::ObjectCount,
        kind,
        key: String::new(alloc),
        field: String::from_str(alloc, "count")?,
        value: decimal_text(alloc, declared)?,
        other: decimal_text(alloc, count)?,
    })?;
    Ok(())
}

/// Adds the findings V2 of the declared numbers, if so many objects came.
pub fn check_came(
    alloc: Global,
    found: &mut Vec<Finding>,
    came: &Came,
    counts: &BTreeMap<Kind, u64>,
) -> Result<(), NoMemory>
    ensures { OnOk result (found.new.items ≡ found.old.items
        ++ flat_map (number_findings (came_of came.now)) counts.now.entries) }
{
    for (kind, declared) in counts.iter() {
        check_count(alloc, found, *kind, *declared, came.of(*kind))?;
    }
    Ok(())
}

/// Adds the findings V2 of the declared numbers, for these tables.
pub fn check_counts(
    alloc: Global,
    found: &mut Vec<Finding>,
    tables: &BTreeMap<Key, Object>,
    counts: &BTreeMap<Kind, u64>,
) -> Result<(), NoMemory>
    ensures { OnOk result (found.new.items ≡ found.old.items
        ++ flat_map (count_findings (keys_of tables.now.entries)) counts.now.entries) }
{
    for (kind, declared) in counts.iter() {
        check_count(alloc, found, *kind, *declared, count_of(tables, *kind))?;
    }
    Ok(())
}
