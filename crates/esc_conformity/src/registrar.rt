//! Registrars that are named, and are not there.

ghost use Rattle.std.specs.Prelude.{◌≡◌, IfOk};
ghost use Rattle.std.specs.List.{list_any};
ghost use Rattle.std.specs.BTreeSet as sorted;
ghost use Rattle.esc_tables.specs.KeyName.{key_cmp};
ghost use Rattle.esc_conformity.specs.Flaws.{is_stranger, names_stranger, has_stranger};

use crate::cell::cell;
use esc_bundle::NoMemory;
use esc_envelope::Kind;
use esc_tables::{Key, Object, Row};
use std::alloc::Global;
use std::collections::BTreeSet;

// Whether a text names no registrar, and isn't empty.
fn is_stranger(alloc: Global, registrars: &BTreeSet<Key>, text: &str) -> Result<bool, NoMemory>
    ensures { IfOk result (λ b. b ≡ is_stranger (sorted.contains key_cmp registrars.now) text.now) }
{
    if text.is_empty() {
        return Ok(false);
    }
    let key = Key::named(alloc, Kind::Registrar, text)?;
    Ok(!registrars.contains(&key))
}

// Whether a row names a registrar that is not there.
fn names_stranger(alloc: Global, registrars: &BTreeSet<Key>, row: &Row) -> Result<bool, NoMemory>
    ensures { IfOk result
        (λ b. b ≡ names_stranger (sorted.contains key_cmp registrars.now) row.now) }
{
    let created = is_stranger(alloc, registrars, cell(row, "crRr"))?;
    let updated = is_stranger(alloc, registrars, cell(row, "upRr"))?;
    let asked = is_stranger(alloc, registrars, cell(row, "reRr"))?;
    let acting = is_stranger(alloc, registrars, cell(row, "acRr"))?;
    Ok(created || updated || asked || acting)
}

fn have_stranger(alloc: Global, registrars: &BTreeSet<Key>, rows: &[Row]) -> Result<bool, NoMemory>
    ensures { IfOk result
        (λ b. b ≡ list_any (names_stranger (sorted.contains key_cmp registrars.now)) rows.now) }
{
    for row in rows {
        if names_stranger(alloc, registrars, row)? {
            return Ok(true);
        }
    }
    Ok(false)
}

/// Whether a row of an object names a registrar that is not there.
pub(crate) fn has_stranger(
    alloc: Global,
    registrars: &BTreeSet<Key>,
    object: &Object,
) -> Result<bool, NoMemory>
    ensures { IfOk result
        (λ b. b ≡ has_stranger (sorted.contains key_cmp registrars.now) object.now) }
{
    let is_parent = names_stranger(alloc, registrars, &object.parent)?;
    let is_child = have_stranger(alloc, registrars, &object.children)?;
    Ok(is_parent || is_child)
}
