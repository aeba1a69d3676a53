//! Whether a deposit has just these objects.

ghost use Rattle.std.specs.Prelude.{◌≡◌, true};

use esc_acceptance::is_same_entry;
use esc_tables::{Key, Object};
use std::collections::BTreeMap;

/// Whether tables have just these objects, in the order of their keys.
pub(crate) fn are_same_objects(tables: &BTreeMap<Key, Object>, objects: &[(Key, Object)]) -> bool
    ensures { result ≡ true → tables.now.entries ≡ objects.now }
{
    let mut at = 0;
    for (key, object) in tables.iter() {
        if at >= objects.len() {
            return false;
        }
        let (other_key, other) = &objects[at];
        if !is_same_entry(key, object, other_key, other) {
            return false;
        }
        at += 1;
    }
    at == objects.len()
}
