//! Keys, objects and before-images as the tables keep them, and back.

ghost use Rattle.std.specs.Prelude.{◌≡◌, Some, None, map, option_map, IfOk, IfErr, OnOk, IfSome};
ghost use Rattle.std.specs.Prelude.{IsSome, [], ◌∷◌, ◌++◌, if◌then◌else◌};
ghost use Rattle.std.specs.Option.{option_and_then};
ghost use Rattle.esc_envelope.specs.Kinds.{kind_rank};
ghost use Rattle.esc_record.specs.Record.{record_of};
ghost use Rattle.esc_sql.specs.Entries.{stored_image, stored_entry};
ghost use Rattle.esc_store.specs.Faults.{IsFailure};
ghost use Rattle.esc_store.specs.Decoded.{AreImagesOf};
ghost use Rattle.std.specs.List.Sorted.{IsStrictlySortedBy};
ghost use Rattle.std.specs.Map.{lookup, keys_of};
ghost use Rattle.std.specs.BTreeMap.{IsOrdered};
ghost use Rattle.esc_tables.specs.KeyName.{KeyName, key_cmp, key_eq};
ghost use Rattle.esc_store.specs.Pages.{entry_row, record_row};

use crate::cause::{Cause, Table};
use crate::fault::StoreFault;
use esc_envelope::Kind;
use esc_record::{no_record_begins_another, read_record, to_record};
use esc_sql::object::StoredObject;
use esc_sql::undo::StoredImage;
use esc_tables::{Headings, Key, Object};
use std::alloc::Global;
use std::collections::BTreeMap;

const FOREIGN: StoreFault = StoreFault::Failed(Cause::ForeignRow(Table::Object));

// The number of a kind in the tables.
pub(crate) fn kind_number(kind: Kind) -> u32
    ensures { result ≡ kind_rank kind }
{
    match kind {
        Kind::Registrar => 0,
        Kind::Contact => 1,
        Kind::Host => 2,
        Kind::Domain => 3,
        Kind::Idn => 4,
        Kind::Nndn => 5,
    }
}

// The kind with this number in the tables. `S1` if there is none.
pub(crate) fn kind_of(number: u32) -> Result<Kind, StoreFault>
    ensures kind { IfOk result (λ kind. number ≡ kind_rank kind) }
    ensures cause { IfErr result IsFailure }
{
    match number {
        0 => Ok(Kind::Registrar),
        1 => Ok(Kind::Contact),
        2 => Ok(Kind::Host),
        3 => Ok(Kind::Domain),
        4 => Ok(Kind::Idn),
        5 => Ok(Kind::Nndn),
        _ => Err(FOREIGN),
    }
}

// The key with this kind's number and these bytes as its text. `S1` if there is none; `S2`.
pub(crate) fn key_of(alloc: Global, kind: u32, text: &[u8]) -> Result<Key, StoreFault>
    ensures kind { IfOk result (λ key. kind ≡ kind_rank key.kind) }
    ensures text { IfOk result (λ key. text.now ≡ key.text) }
    ensures cause { IfErr result IsFailure }
{
    let kind = kind_of(kind)?;
    match str::from_utf8(text) {
        Ok(text) => Ok(Key {
            kind,
            text: String::from_str(alloc, text)?,
        }),
        Err(_) => Err(FOREIGN),
    }
}

// The record of an object. `S1` where it has none; `S2`.
pub(crate) fn record_bytes(alloc: Global, object: &Object) -> Result<Vec<u8>, StoreFault>
    ensures record { IfOk result (λ bytes. record_of object.now ≡ Some bytes.items) }
    ensures cause { IfErr result IsFailure }
{
    match to_record(alloc, object)? {
        Some(record) => Ok(record),
        None => Err(FOREIGN),
    }
}

// The object of a record, whose rows share headings with those that were read before. `S1` where
// the bytes are no record; `S2`.
pub(crate) fn record_object(
    alloc: Global,
    headings: &mut Headings,
    bytes: &[u8],
) -> Result<Object, StoreFault>
    ensures object { IfOk result (λ object. record_of object ≡ Some bytes.now) }
    ensures cause { IfErr result IsFailure }
{
    match read_record(alloc, headings, bytes)? {
        Some(object) => Ok(object),
        None => Err(FOREIGN),
    }
}

// The object with this record, if there is a record. `S1` if the bytes are no record; `S2`.
pub(crate) fn object_in(alloc: Global, found: Option<Vec<u8>>) -> Result<Option<Object>, StoreFault>
    ensures object { IfOk result (λ object. (o : _) → option_map (λ b. b.items) found
        ≡ option_and_then record_of o → IfSome o (λ x. IsSome (record_of x)) → object ≡ o) }
    ensures cause { IfErr result IsFailure }
{
    no_record_begins_another();
    match found {
        Some(record) => {
            let mut headings = Headings::new(alloc);
            let object = record_object(alloc, &mut headings, record.as_slice())?;
            Ok(Some(object))
        }
        None => Ok(None),
    }
}

// Adds the value of a key. `S1` if the key has one already, since a key has at most one row; `S2`.
fn add_new<X: Drop>(all: &mut BTreeMap<Key, X>, key: Key, value: X) -> Result<(), StoreFault>
    ensures absent { OnOk result (lookup (key_eq key) all.old.entries ≡ None) }
    ensures added { OnOk result ((q : KeyName) → lookup (key_eq q) all.new.entries
        ≡ (if key_eq key q then Some value else lookup (key_eq q) all.old.entries)) }
    ensures ordered { IsOrdered key_cmp all.new }
    ensures cause { IfErr result IsFailure }
{
    match all.insert(key, value) {
        Ok(None) => Ok(()),
        Ok(Some(_)) => Err(FOREIGN),
        Err(_) => Err(StoreFault::NoMemory),
    }
}

// The key and the object of a row.
fn entry_of(
    alloc: Global,
    headings: &mut Headings,
    stored: &StoredObject,
) -> Result<(Key, Object), StoreFault>
    ensures entry { IfOk result (λ entry. entry_row entry ≡ record_row (stored_entry stored.now)) }
    ensures cause { IfErr result IsFailure }
{
    let key = key_of(alloc, stored.kind, stored.key.as_slice())?;
    let object = record_object(alloc, headings, stored.record.as_slice())?;
    Ok((key, object))
}

// The keys and objects of rows, in their order. The objects share headings. `S1` if a row is no
// object's; `S2`.
pub(crate) fn entries_of(
    alloc: Global,
    stored: &[StoredObject],
) -> Result<Vec<(Key, Object)>, StoreFault>
    ensures entries { IfOk result (λ entries. map entry_row entries.items
        ≡ map (λ it. record_row (stored_entry it)) stored.now) }
    ensures cause { IfErr result IsFailure }
{
    let mut headings = Headings::new(alloc);
    let mut entries = Vec::new(alloc);
    for at in 0..stored.len() {
        let entry = entry_of(alloc, &mut headings, &stored[at])?;
        entries.push(entry)?;
    }
    Ok(entries)
}

// What a key had before a step: the object of the row's record, or none.
fn before_of(
    alloc: Global,
    headings: &mut Headings,
    stored: &StoredImage,
) -> Result<Option<Object>, StoreFault>
    ensures before { IfOk result (λ before. option_map record_of before
        ≡ option_map (λ bytes. Some bytes) (stored_image stored.now).bytes) }
    ensures cause { IfErr result IsFailure }
{
    match &stored.record {
        Some(bytes) => Ok(Some(record_object(alloc, headings, bytes.as_slice())?)),
        None => Ok(None),
    }
}

// Adds the before-image of a row.
fn add_image(
    alloc: Global,
    headings: &mut Headings,
    images: &mut BTreeMap<Key, Option<Object>>,
    stored: &StoredImage,
) -> Result<(), StoreFault>
    ensures added { OnOk result ((rows : _) → AreImagesOf rows images.old.entries
        → AreImagesOf (rows ++ stored_image stored.now ∷ []) images.new.entries) }
    ensures ordered { OnOk result (IsOrdered key_cmp images.new) }
    ensures cause { IfErr result IsFailure }
{
    let key = key_of(alloc, stored.kind, stored.key.as_slice())?;
    let before = before_of(alloc, headings, stored)?;
    add_new(images, key, before)
}

// The before-images of these rows, by their keys. They share headings.
fn images_by_key(
    alloc: Global,
    stored: &[StoredImage],
) -> Result<BTreeMap<Key, Option<Object>>, StoreFault>
    ensures ordered { IfOk result (λ images. IsOrdered key_cmp images) }
    ensures each { IfOk result
        (λ images. AreImagesOf (map stored_image stored.now) images.entries) }
    ensures cause { IfErr result IsFailure }
{
    let mut headings = Headings::new(alloc);
    let mut images = BTreeMap::new(alloc);
    for at in 0..stored.len() {
        add_image(alloc, &mut headings, &mut images, &stored[at])?;
    }
    Ok(images)
}

// The before-images of these rows, in the order of keys. `S1` if a row is no before-image; `S2`.
pub(crate) fn images_of(
    alloc: Global,
    stored: &[StoredImage],
) -> Result<Vec<(Key, Option<Object>)>, StoreFault>
    ensures ordered { IfOk result (λ images. IsStrictlySortedBy key_cmp (keys_of images.items)) }
    ensures each { IfOk result (λ images. AreImagesOf (map stored_image stored.now) images.items) }
    ensures cause { IfErr result IsFailure }
{
    let images = images_by_key(alloc, stored)?;
    Ok(images.into_iter().collect(alloc)?)
}
