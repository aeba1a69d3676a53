//! Objects gathered from rows.

ghost use Rattle.std.specs.Prelude.{◌≡◌, IfOk, OnOk, is_some, map, option_map, if◌then◌else◌};
ghost use Rattle.std.specs.BTreeMap.{get, IsFromIterResult, IsOrdered};
ghost use Rattle.esc_tables.specs.KeyName.{KeyName, key_cmp, key_eq};
ghost use Rattle.esc_tables.specs.Objects.{alone, with_child, objects_of, orphans_of};

use crate::key::Key;
use crate::object::{Object, Row};
use esc_bundle::NoMemory;
use std::alloc::Global;
use std::collections::BTreeMap;

/// What rows make: the objects, and the number of child rows without a parent row.
#[derive(Drop)]
pub struct Gathered {
    pub objects: BTreeMap<Key, Object>,
    pub orphans: u64,
}

// The object of a parent row, with no child row yet.
fn alone(alloc: Global, row: (Key, Row)) -> (Key, Object)
    ensures { result ≡ alone row }
{
    let (key, parent) = row;
    let children = Vec::new(alloc);
    (key, Object { parent, children })
}

// Each key's last parent row, with no child row yet. All rows are sorted at once, which takes fewer
// comparisons of keys than to insert one by one.
fn with_parents(alloc: Global, rows: Vec<(Key, Row)>) -> Result<BTreeMap<Key, Object>, NoMemory>
    ensures { IfOk result (IsFromIterResult key_cmp (map alone rows.items)) }
{
    Ok(
        rows.into_iter()
            .map(|row| alone(alloc, row))
            .collect(alloc)?,
    )
}

fn push_child(object: &mut Object, row: Row) -> Result<(), NoMemory>
    ensures { OnOk result (object.new ≡ with_child row object.old) }
{
    object.children.push(row)?;
    Ok(())
}

// Adds a child row to the object of its key, and returns whether there is such an object.
fn add_child(objects: &mut BTreeMap<Key, Object>, key: &Key, row: Row) -> Result<bool, NoMemory>
    ensures added { OnOk result ((k : KeyName) → get key_cmp objects.new k
        ≡ (if key_eq k key.now then option_map (with_child row)
        (get key_cmp objects.old k) else get key_cmp objects.old k)) }
    ensures ordered { OnOk result (IsOrdered key_cmp objects.new) }
    ensures found { IfOk result (λ found. found ≡ is_some (get key_cmp objects.old key.now)) }
{
    match objects.get_mut(key) {
        None => Ok(false),
        Some(object) => {
            push_child(object, row)?;
            Ok(true)
        }
    }
}

/// The objects of parent rows, each with the child rows of its key, in their order.
pub fn gather(
    alloc: Global,
    parents: Vec<(Key, Row)>,
    children: Vec<(Key, Row)>,
) -> Result<Gathered, NoMemory>
    ensures objects { IfOk result (λ g. g.objects.entries
        ≡ objects_of parents.items children.items) }
    ensures orphans { IfOk result (λ g. g.orphans ≡ orphans_of parents.items children.items) }
{
    let mut objects = with_parents(alloc, parents)?;
    let mut orphans: u64 = 0;
    for (key, row) in children {
        if !add_child(&mut objects, &key, row)? {
            orphans += 1;
        }
    }
    Ok(Gathered { objects, orphans })
}
