//! The declared numbers of objects of each kind.

ghost use Rattle.std.specs.Prelude.{◌≡◌, ◌++◌, IfOk, OnOk, Some, option_map};
ghost use Rattle.serde_json.specs.View.{view};
ghost use Rattle.esc_envelope.specs.Kinds.{kind_rank};
ghost use Rattle.esc_envelope.specs.Members.{AreBelow, declared_count, count_entry, counts_of};
ghost use Rattle.esc_envelope.specs.Members.{counts_in};

use crate::kind::Kind;
use esc_bundle::NoMemory;
use serde_json::Value;
use std::alloc::Global;
use std::collections::BTreeMap;

fn count_in(counts: &Value, kind: Kind) -> Option<Option<u64>>
    ensures { result ≡ declared_count (view counts.now) kind }
{
    match counts.get(kind.name()) {
        None => Some(None),
        Some(value) => Some(Some(value.as_u64()?)),
    }
}

fn put(counts: &mut BTreeMap<Kind, u64>, kind: Kind, count: Option<u64>) -> Result<(), NoMemory>
    requires { AreBelow (kind_rank kind) counts.old.entries }
    ensures { OnOk result (counts.new.entries ≡ counts.old.entries ++ count_entry kind count) }
{
    if let Some(count) = count {
        counts.insert(kind, count)?;
    }
    Ok(())
}

fn counts_in(alloc: Global, counts: &Value) -> Result<Option<BTreeMap<Kind, u64>>, NoMemory>
    ensures { IfOk result (λ o. option_map (λ m. m.entries) o ≡ counts_in (view counts.now)) }
{
    if !counts.is_object() {
        return Ok(None);
    }
    let mut found = BTreeMap::new(alloc);
    for kind in Kind::ALL {
        let Some(count) = count_in(counts, kind) else {
            return Ok(None);
        };
        put(&mut found, kind, count)?;
    }
    Ok(Some(found))
}

/// The declared numbers of objects, by kind. `None` if `counts` is neither missing nor an object in
/// which each member that is named as a kind is a whole number.
pub(crate) fn counts_of(
    alloc: Global,
    envelope: &Value,
) -> Result<Option<BTreeMap<Kind, u64>>, NoMemory>
    ensures { IfOk result (λ o. option_map (λ m. m.entries) o ≡ counts_of (view envelope.now)) }
{
    match envelope.get("counts") {
        None => Ok(Some(BTreeMap::new(alloc))),
        Some(counts) => counts_in(alloc, counts),
    }
}
