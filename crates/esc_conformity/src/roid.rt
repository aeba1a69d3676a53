//! ROIDs of objects, and those that several objects of a kind have.

ghost use Rattle.std.specs.Prelude.{◌≡◌, ◌++◌, false, filter, option_map, codes, IfOk, OnOk};
ghost use Rattle.std.specs.List.{flat_map};
ghost use Rattle.std.specs.Option.{option_map_or};
ghost use Rattle.std.specs.Ordering.{nat_cmp};
ghost use Rattle.std.specs.BTreeSet as sorted;
ghost use Rattle.esc_tables.specs.KeyName.{KeyName, key_cmp};
ghost use Rattle.esc_conformity.specs.declared.roid.Holder.{Holder};
ghost use Rattle.esc_conformity.specs.Examined.{holder_of, is_suspect, is_held_twice};
ghost use Rattle.esc_conformity.specs.Examined.{sharing_keys};
ghost use Rattle.esc_check.specs.Fields.{cell};
ghost use Rattle.esc_conformity.specs.Flaws.{roid_of, flaw_of};
ghost use Rattle.esc_conformity.specs.Marks.{mark_of};

use crate::cell::cell;
use crate::found::add_flaw;
use crate::mark::mark_of;
use crate::repeats::Repeats;
use esc_bundle::NoMemory;
use esc_tables::{Key, Object};
use std::alloc::Global;
use std::collections::BTreeSet;

/// An object that has a ROID.
#[derive(Drop)]
pub struct Holder {
    /// The ROID, as a key of the object's kind.
    pub roid: Key,
    pub key: Key,
}

// The text of an object's ROID, which is empty if it has none.
fn roid_text(object: &Object) -> &str
    ensures { result.now ≡ cell (codes "roid") object.now.parent }
{
    cell(&object.parent, "roid")
}

/// The mark of an object's ROID, if it has one.
pub(crate) fn roid_mark(key: &Key, object: &Object) -> Option<u64>
    ensures { result ≡ option_map mark_of (roid_of (key.now, object.now)) }
{
    let text = roid_text(object);
    if text.is_empty() {
        return None;
    }
    Some(mark_of(key.kind, text))
}

// Whether an object has a ROID, whose mark is one of these.
fn is_suspect(marks: &BTreeSet<u64>, key: &Key, object: &Object) -> bool
    ensures { result ≡ option_map_or (λ r. sorted.contains nat_cmp marks.now (mark_of r))
        (roid_of (key.now, object.now)) false }
{
    match roid_mark(key, object) {
        Some(mark) => marks.contains(&mark),
        None => false,
    }
}

/// Adds an object if it has a ROID, whose mark is one of these.
pub(crate) fn add_suspect(
    alloc: Global,
    suspects: &mut Vec<Holder>,
    marks: &BTreeSet<u64>,
    key: &Key,
    object: &Object,
) -> Result<(), NoMemory>
    ensures { OnOk result (suspects.new.items ≡ suspects.old.items
        ++ filter (is_suspect marks.now) (holder_of (key.now, object.now))) }
{
    if !is_suspect(marks, key, object) {
        return Ok(());
    }
    suspects.push(Holder {
        roid: Key {
            kind: key.kind,
            text: String::from_str(alloc, roid_text(object))?,
        },
        key: key.copy(alloc)?,
    })?;
    Ok(())
}

// The ROIDs that several of these have.
fn shared_roids(alloc: Global, holders: &[Holder]) -> Result<BTreeSet<Key>, NoMemory>
    ensures { IfOk result (λ shared. (r : KeyName) → sorted.contains key_cmp shared r
        ≡ is_held_twice holders.now r) }
{
    let mut roids = Repeats::new(alloc);
    for holder in holders {
        roids.add(holder.roid.copy(alloc)?)?;
    }
    let Repeats { repeated, .. } = roids;
    Ok(repeated)
}

// The keys of those that have one of these ROIDs.
fn keys_with(
    alloc: Global,
    holders: &[Holder],
    shared: &BTreeSet<Key>,
) -> Result<Vec<Key>, NoMemory>
    ensures { IfOk result (λ keys. keys.items ≡ flat_map (λ (h : Holder).
        flaw_of (sorted.contains key_cmp shared.now h.roid) h.key) holders.now) }
{
    let mut keys = Vec::new(alloc);
    for holder in holders {
        let is_flaw = shared.contains(&holder.roid);
        add_flaw(alloc, &mut keys, is_flaw, &holder.key)?;
    }
    Ok(keys)
}

/// The keys of those that have a ROID that another of these has, text by text.
pub(crate) fn sharing_keys(alloc: Global, holders: &[Holder]) -> Result<Vec<Key>, NoMemory>
    ensures { IfOk result (λ keys. keys.items ≡ sharing_keys holders.now) }
{
    let shared = shared_roids(alloc, holders)?;
    keys_with(alloc, holders, &shared)
}
