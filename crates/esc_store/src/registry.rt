//! A change as a registry of objects.

use crate::change::Change;
use crate::codec::object::{images_of, kind_number, object_in, record_bytes};
use crate::fault::StoreFault;
use esc_apply::{Keys, Registry};
use esc_record::no_record_begins_another;
use esc_tables::{Key, Object};
use sqlite::Alter;
use std::alloc::Global;
use std::collections::BTreeMap;

impl<'a, S: Alter> Registry for Change<'a, S> {
    ghost use Rattle.esc_apply.specs.Registry.{saturated};
    ghost use Rattle.esc_store.specs.Faults.{IsFailure};
    ghost use Rattle.esc_store.specs.Representation.{HasMadeTables, ChangeFollows, IsHonest};
    ghost use Rattle.esc_store.specs.Representation.{store_in, change_count};
    ghost use Rattle.esc_store.specs.StandingLaws.{follows_same, follows_then};
    ghost use Rattle.std.proofs.Common.{inr, arith};

    type Error = StoreFault;

    ghost holds = { λ r s. HasMadeTables S.Store r s };

    ghost count = { λ r. saturated (change_count r) };

    ghost fails = { λ fault. IsFailure fault };

    ghost wants_memory = { λ m fault given. inr given };

    ghost is_honest = { λ r. IsHonest S.Store (store_in r) };

    ghost follows = { λ a b. ChangeFollows S.Store a b };

    fn get(&mut self, alloc: Global, key: &Key) -> Result<Option<Object>, StoreFault> {
        let found = self.find_stored(kind_number(key.kind), key.text.as_bytes())?;
        object_in(alloc, found)
    }

    fn put(&mut self, alloc: Global, key: &Key, object: &Object) -> Result<(), StoreFault> {
        let record = record_bytes(alloc, object)?;
        self.put_stored(
            kind_number(key.kind),
            key.text.as_bytes(),
            record.as_slice(),
        )?;
        self.count = self.count.saturating_add(1);
        Ok(())
    }

    fn remove(&mut self, key: &Key) -> Result<(), StoreFault> {
        self.remove_stored(kind_number(key.kind), key.text.as_bytes())?;
        self.count = self.count.saturating_add(1);
        Ok(())
    }

    fn clear(&mut self) -> Result<(), StoreFault> {
        self.clear_records()?;
        self.clear_notes()
    }

    fn put_undo(
        &mut self,
        alloc: Global,
        step: u32,
        key: &Key,
        before: Option<&Object>,
    ) -> Result<(), StoreFault> {
        let (kind, text) = (kind_number(key.kind), key.text.as_bytes());
        match before {
            Some(object) => {
                let record = record_bytes(alloc, object)?;
                self.note_stored(step, kind, text, Some(record.as_slice()))
            }
            None => self.note_stored(step, kind, text, None),
        }
    }

    fn put_all(
        &mut self,
        alloc: Global,
        step: u32,
        targets: Keys,
        objects: &BTreeMap<Key, Object>,
    ) -> Result<(), StoreFault> {
        self.fill_records(alloc, step, targets, objects)?;
        self.count = self.count.saturating_add(objects.len() as u64);
        Ok(())
    }

    fn take_undo(
        &mut self,
        alloc: Global,
        step: u32,
    ) -> Result<Vec<(Key, Option<Object>)>, StoreFault> {
        no_record_begins_another();
        let found = self.find_notes(alloc, step)?;
        let noted = images_of(alloc, found.as_slice())?;
        self.forget_records(step)?;
        Ok(noted)
    }

    fn writes(&self) -> u64 {
        self.count
    }

    ghost bounded = { λ r. Prim.omega arith };

    ghost stays = { λ r. follows_same _ r };

    ghost goes_on = { λ a b c p q. follows_then p q };

    ghost was_honest = { λ a b p clean. Prim.omega (arith, p.goes_on.survives.clean, clean) };
}
