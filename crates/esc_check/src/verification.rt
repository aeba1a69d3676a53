//! Verification of the tables of a registry.

ghost use Rattle.std.specs.Prelude.{◌≡◌, ◌↔◌, ◌++◌, OnOk, IfOk, string_bytes};
ghost use Rattle.std.specs.List.{Contains, flat_map};
ghost use Rattle.std.specs.List.Sorted.{IsStrictlySortedBy};
ghost use Rattle.std.specs.Map.{keys_of};
ghost use Rattle.esc_tables.specs.KeyName.{key_cmp};
ghost use Rattle.esc_check.specs.FindingValue.{FindingValue, listing_cmp};
ghost use Rattle.esc_check.specs.Findings.{IsFinding};
ghost use Rattle.esc_check.specs.Gathered.{is_present, links_of, link_findings, own_findings};
ghost use Rattle.esc_check.specs.Gathered.{object_findings};
ghost use Rattle.esc_check.specs.TableMap.{content_of_entries};

use crate::count::check_counts;
use crate::date::{Limit, check_forms, check_moments, limit_at};
use crate::distinct::settle;
use crate::finding::Finding;
use crate::link::{add_links, check_links};
use crate::statuses::check_statuses;
use esc_bundle::NoMemory;
use esc_envelope::Kind;
use esc_tables::{Key, Object};
use std::alloc::Global;
use std::collections::BTreeMap;

/// Adds the findings V3 to V7 of an object.
pub fn check_own(
    alloc: Global,
    found: &mut Vec<Finding>,
    limit: &Limit,
    key: &Key,
    object: &Object,
) -> Result<(), NoMemory>
    ensures { OnOk result (found.new.items ≡ found.old.items
        ++ own_findings limit.now.moment (string_bytes limit.now.text) key.now object.now) }
{
    check_statuses(alloc, found, key, object)?;
    check_moments(alloc, found, limit, key, object)?;
    check_forms(alloc, found, key, object)
}

// Adds the findings V1 of an object of these tables.
fn check_linked(
    alloc: Global,
    found: &mut Vec<Finding>,
    tables: &BTreeMap<Key, Object>,
    key: &Key,
    object: &Object,
) -> Result<(), NoMemory>
    ensures { OnOk result (found.new.items ≡ found.old.items
        ++ link_findings (is_present tables.now.entries) (links_of key.now object.now)) }
{
    let mut links = Vec::new(alloc);
    add_links(alloc, &mut links, key, object)?;
    check_links(alloc, found, tables, &links)
}

fn check_objects(
    alloc: Global,
    found: &mut Vec<Finding>,
    tables: &BTreeMap<Key, Object>,
    limit: &Limit,
) -> Result<(), NoMemory>
    ensures ordered { OnOk result (IsStrictlySortedBy key_cmp (keys_of tables.now.entries)) }
    ensures added { OnOk result (found.new.items ≡ found.old.items
        ++ flat_map (object_findings (is_present tables.now.entries) limit.now.moment
        (string_bytes limit.now.text)) tables.now.entries) }
{
    for (key, object) in tables.iter() {
        check_linked(alloc, found, tables, key, object)?;
        check_own(alloc, found, limit, key, object)?;
    }
    Ok(())
}

/// The findings V1 to V7 in the tables of a registry, by its watermark (in nanoseconds since
/// 1970-01-01T00:00:00Z) and the declared numbers of objects: each once, in the order of code,
/// kind, key, field and value, texts by their bytes (this project's profile). `NoMemory` out of
/// memory.
pub fn verify(
    alloc: Global,
    tables: &BTreeMap<Key, Object>,
    watermark: i64,
    counts: &BTreeMap<Kind, u64>,
) -> Result<Vec<Finding>, NoMemory>
    ensures ordered { IfOk result (λ found. IsStrictlySortedBy listing_cmp found.items) }
    ensures each { IfOk result (λ found. (f : FindingValue)
        → Contains found.items f
        ↔ IsFinding (content_of_entries tables.now.entries) watermark counts.now.entries f) }
{
    let limit = limit_at(alloc, watermark)?;
    let mut found = Vec::new(alloc);
    check_objects(alloc, &mut found, tables, &limit)?;
    check_counts(alloc, &mut found, tables, counts)?;
    Ok(settle(found))
}
