//! Objects that are put many at a time, after what their keys had is noted.

ghost use Rattle.std.specs.Prelude.{◌≡◌, None, length, map, option_map, IfOk, IfErr, OnOk};
ghost use Rattle.esc_apply.specs.Registry.{State};
ghost use Rattle.esc_apply.specs.Changes.{with_object, CanBePut};
ghost use Rattle.esc_apply.specs.declared.registry.Keys.TheVariants.{Vacant};
ghost use Rattle.esc_sql.specs.Entries.{new_entry, new_image};
ghost use Rattle.esc_store.specs.Faults.{IsFailure};
ghost use Rattle.esc_store.specs.Filling.{after_filling, AreImagesNow, FillsRows, PutsRecord};
ghost use Rattle.esc_store.specs.Filling.{PutsRows};
ghost use Rattle.esc_store.specs.Pages.{entry_row, record_row};
ghost use Rattle.esc_store.specs.Representation.{HasMadeTables, ChangeFollows, IsHonest, store_in};
ghost use Rattle.esc_store.specs.TypedRows.{record_at_key};

use crate::change::Change;
use crate::codec::object::{kind_number, record_bytes};
use crate::fault::StoreFault;
use esc_apply::Keys;
use esc_sql::object::{NewObject, ROWS_AT_ONCE, insert_objects};
use esc_sql::undo::{NewImage, insert_images};
use esc_tables::{Key, Object};
use sqlite::Alter;
use std::alloc::Global;
use std::collections::BTreeMap;

// The row of a key and its object. `S1` where the object has no record; `S2`.
fn new_row<'k>(alloc: Global, key: &'k Key, object: &Object) -> Result<NewObject<'k>, StoreFault>
    ensures row { IfOk result (λ row. entry_row (key.now, object.now)
        ≡ record_row (new_entry row)) }
    ensures cause { IfErr result IsFailure }
{
    let record = record_bytes(alloc, object)?;
    Ok(NewObject {
        kind: kind_number(key.kind),
        key: key.text.as_bytes(),
        record,
    })
}

impl<'a, S: Alter> Change<'a, S> {
    // Puts objects, and notes for the step what their keys had. What it keeps in memory are the
    // rows of one statement, and what their keys had.
    pub(crate) fn fill_records(
        &mut self,
        alloc: Global,
        step: u32,
        targets: Keys,
        objects: &BTreeMap<Key, Object>,
    ) -> Result<(), StoreFault>
        ensures count { self.new.count ≡ self.old.count }
        ensures follows { ChangeFollows S.Store self.old self.new }
        ensures filled { OnOk result (IsHonest S.Store (store_in self.new) → (s : State)
            → CanBePut targets s step (map with_object objects.now.entries)
            → HasMadeTables S.Store self.old s
            → HasMadeTables S.Store self.new (after_filling s step objects.now.entries)) }
        ensures cause { IfErr result IsFailure }
    {
        let mut rows = Vec::new(alloc);
        for (key, object) in objects.iter() {
            rows.push(new_row(alloc, key, object)?)?;
            if rows.len() == ROWS_AT_ONCE {
                self.fill_rows(alloc, step, targets, rows.as_slice())?;
                rows.clear();
            }
        }
        self.fill_each(step, targets, rows.as_slice())
    }

    // Puts the objects of as many rows as one statement takes, after their before-images.
    fn fill_rows(
        &mut self,
        alloc: Global,
        step: u32,
        targets: Keys,
        rows: &[NewObject<'_>],
    ) -> Result<(), StoreFault>
        requires { length rows.now ≡ ROWS_AT_ONCE }
        ensures count { self.new.count ≡ self.old.count }
        ensures follows { ChangeFollows S.Store self.old self.new }
        ensures filled { OnOk result (FillsRows S.Store step targets (map new_entry rows.now)
            self.old self.new) }
        ensures cause { IfErr result IsFailure }
    {
        let images = self.find_images(alloc, targets, rows)?;
        let noted = insert_images(alloc, &mut self.store.conn, step, images.as_slice());
        self.store.settle(noted)?;
        match targets {
            Keys::Vacant => {
                let done = insert_objects(alloc, &mut self.store.conn, rows);
                self.store.settle(done)
            }
            Keys::Unknown => self.put_each(rows, images.as_slice()),
        }
    }

    // Before-images that say what the keys of these rows have.
    fn find_images<'k>(
        &mut self,
        alloc: Global,
        targets: Keys,
        rows: &[NewObject<'k>],
    ) -> Result<Vec<NewImage<'k>>, StoreFault>
        ensures count { self.new.count ≡ self.old.count }
        ensures follows { ChangeFollows S.Store self.old self.new }
        ensures length { IfOk result (λ images. length images.items ≡ length rows.now) }
        ensures images { IfOk result
            (λ images. AreImagesNow S.Store targets (map new_entry rows.now)
            (map new_image images.items) self.old self.new) }
        ensures cause { IfErr result IsFailure }
    {
        let mut images = Vec::new(alloc);
        for at in 0..rows.len() {
            let row = &rows[at];
            let record = self.find_before(targets, row)?;
            images.push(NewImage {
                kind: row.kind,
                key: row.key,
                record,
            })?;
        }
        Ok(images)
    }

    // The record of a row's key, if it has one. Where keys are free none is looked up.
    fn find_before(
        &mut self,
        targets: Keys,
        row: &NewObject<'_>,
    ) -> Result<Option<Vec<u8>>, StoreFault>
        ensures count { self.new.count ≡ self.old.count }
        ensures follows { ChangeFollows S.Store self.old self.new }
        ensures found { IfOk result (λ found. IsHonest S.Store (store_in self.new) → (s : State)
            → (targets ≡ Vacant → record_at_key s.content row.now.kind row.now.key.now ≡ None)
            → HasMadeTables S.Store self.old s
            → (option_map (λ b. b.items) found
            ≡ record_at_key s.content row.now.kind row.now.key.now)
            × HasMadeTables S.Store self.new s) }
        ensures cause { IfErr result IsFailure }
    {
        match targets {
            Keys::Vacant => Ok(None),
            Keys::Unknown => self.find_stored(row.kind, row.key),
        }
    }

    // Puts the objects of these rows one by one, by what is noted that their keys had.
    fn put_each(
        &mut self,
        rows: &[NewObject<'_>],
        images: &[NewImage<'_>],
    ) -> Result<(), StoreFault>
        requires { length images.now ≡ length rows.now }
        ensures count { self.new.count ≡ self.old.count }
        ensures follows { ChangeFollows S.Store self.old self.new }
        ensures put { OnOk result (PutsRows S.Store (map new_entry rows.now) self.old self.new) }
        ensures cause { IfErr result IsFailure }
    {
        for at in 0..rows.len() {
            let row = &rows[at];
            self.put_row(row, images[at].record.is_some())?;
        }
        Ok(())
    }

    // Puts the object of a row, whose key is known to have one or none.
    fn put_row(&mut self, row: &NewObject<'_>, has_one: bool) -> Result<(), StoreFault>
        ensures count { self.new.count ≡ self.old.count }
        ensures follows { ChangeFollows S.Store self.old self.new }
        ensures written { OnOk result (PutsRecord S.Store row.now.kind row.now.key.now
            row.now.record.items self.old self.new) }
        ensures cause { IfErr result IsFailure }
    {
        if has_one {
            self.put_stored(row.kind, row.key, row.record.as_slice())
        } else {
            self.add_stored(row.kind, row.key, row.record.as_slice())
        }
    }

    // Puts the objects of these rows one by one, each after its before-image.
    fn fill_each(
        &mut self,
        step: u32,
        targets: Keys,
        rows: &[NewObject<'_>],
    ) -> Result<(), StoreFault>
        ensures count { self.new.count ≡ self.old.count }
        ensures follows { ChangeFollows S.Store self.old self.new }
        ensures filled { OnOk result (FillsRows S.Store step targets (map new_entry rows.now)
            self.old self.new) }
        ensures cause { IfErr result IsFailure }
    {
        for at in 0..rows.len() {
            let row = &rows[at];
            let before = self.find_before(targets, row)?;
            self.note_stored(step, row.kind, row.key, before.as_deref())?;
            self.put_row(row, before.is_some())?;
        }
        Ok(())
    }
}
