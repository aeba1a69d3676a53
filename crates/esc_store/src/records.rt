//! The records of objects and before-images in a change, by their keys.

ghost use Rattle.std.specs.Prelude.{◌≡◌, None, map, option_map, IfOk, IfErr, OnOk, IfSome};
ghost use Rattle.std.specs.Prelude.{IsSome};
ghost use Rattle.std.specs.Option.{option_and_then};
ghost use Rattle.sqlite.specs.Held.{state};
ghost use Rattle.sqlite.specs.State.{HasCleanDisk};
ghost use Rattle.esc_envelope.specs.Kinds.{kind_rank};
ghost use Rattle.esc_tables.specs.KeyName.{KeyName};
ghost use Rattle.esc_record.specs.Record.{record_of};
ghost use Rattle.esc_apply.specs.Registry.{State, empty, written, noted, taken};
ghost use Rattle.esc_sql.specs.Entries.{stored_image};
ghost use Rattle.esc_store.specs.Decoded.{AreNotes};
ghost use Rattle.esc_store.specs.Faults.{IsFailure};
ghost use Rattle.esc_store.specs.Filling.{PutsRecord};
ghost use Rattle.esc_store.specs.Representation.{HasMadeTables, ChangeFollows};
ghost use Rattle.esc_store.specs.TypedRows.{record_at_key};

use crate::change::Change;
use crate::fault::StoreFault;
use esc_sql::object::{clear_objects, delete_object, find_object, insert_object, put_object};
use esc_sql::undo::{StoredImage, clear_undo, delete_undo, insert_undo, select_undo};
use sqlite::Alter;
use std::alloc::Global;

impl<'a, S: Alter> Change<'a, S> {
    // The record at the key with this kind's number and these bytes as its text, if there is one.
    pub(crate) fn find_stored(
        &mut self,
        kind: u32,
        text: &[u8],
    ) -> Result<Option<Vec<u8>>, StoreFault>
        ensures count { self.new.count ≡ self.old.count }
        ensures follows { ChangeFollows S.Store self.old self.new }
        ensures found { IfOk result (λ found. HasCleanDisk (state S.Store self.new.store.now.conn)
            → (s : State) → HasMadeTables S.Store self.old s
            → (option_map (λ b. b.items) found ≡ record_at_key s.content kind text.now)
            × HasMadeTables S.Store self.new s) }
        ensures cause { IfErr result IsFailure }
    {
        let found = find_object(&mut self.store.conn, kind, text);
        self.store.settle(found)
    }

    // Writes a record at the key with this kind's number and these bytes as its text.
    pub(crate) fn put_stored(
        &mut self,
        kind: u32,
        text: &[u8],
        bytes: &[u8],
    ) -> Result<(), StoreFault>
        ensures count { self.new.count ≡ self.old.count }
        ensures follows { ChangeFollows S.Store self.old self.new }
        ensures written { OnOk result (PutsRecord S.Store kind text.now bytes.now
            self.old self.new) }
        ensures cause { IfErr result IsFailure }
    {
        let done = put_object(&mut self.store.conn, kind, text, bytes);
        self.store.settle(done)
    }

    // Writes a record at such a key, which has none: it takes one statement, where `put_stored`
    // would take two. `S1` if the key has one.
    pub(crate) fn add_stored(
        &mut self,
        kind: u32,
        text: &[u8],
        bytes: &[u8],
    ) -> Result<(), StoreFault>
        ensures count { self.new.count ≡ self.old.count }
        ensures follows { ChangeFollows S.Store self.old self.new }
        ensures written { OnOk result (PutsRecord S.Store kind text.now bytes.now
            self.old self.new) }
        ensures cause { IfErr result IsFailure }
    {
        let done = insert_object(&mut self.store.conn, kind, text, bytes);
        self.store.settle(done)
    }

    // Removes the record of such a key, if there is one.
    pub(crate) fn remove_stored(&mut self, kind: u32, text: &[u8]) -> Result<(), StoreFault>
        ensures count { self.new.count ≡ self.old.count }
        ensures follows { ChangeFollows S.Store self.old self.new }
        ensures written { OnOk result ((s : State) (k : KeyName)
            → kind ≡ kind_rank k.kind → text.now ≡ k.text
            → HasMadeTables S.Store self.old s
            → HasMadeTables S.Store self.new (written s k None)) }
        ensures cause { IfErr result IsFailure }
    {
        let done = delete_object(&mut self.store.conn, kind, text);
        self.store.settle(done)
    }

    // Notes the record that such a key had before a step, or that it had none.
    pub(crate) fn note_stored(
        &mut self,
        step: u32,
        kind: u32,
        text: &[u8],
        before: Option<&[u8]>,
    ) -> Result<(), StoreFault>
        ensures count { self.new.count ≡ self.old.count }
        ensures follows { ChangeFollows S.Store self.old self.new }
        ensures noted { OnOk result ((s : State) (k : KeyName) (o : _)
            → kind ≡ kind_rank k.kind → text.now ≡ k.text
            → option_and_then record_of o ≡ option_map (λ b. b.now) before.entry
            → IfSome o (λ x. IsSome (record_of x)) → HasMadeTables S.Store self.old s
            → HasMadeTables S.Store self.new (noted s step k o)) }
        ensures cause { IfErr result IsFailure }
    {
        let done = insert_undo(&mut self.store.conn, step, kind, text, before);
        self.store.settle(done)
    }

    // What was noted of a step.
    pub(crate) fn find_notes(
        &mut self,
        alloc: Global,
        step: u32,
    ) -> Result<Vec<StoredImage>, StoreFault>
        ensures count { self.new.count ≡ self.old.count }
        ensures follows { ChangeFollows S.Store self.old self.new }
        ensures found { IfOk result (λ found. HasCleanDisk (state S.Store self.new.store.now.conn)
            → (s : State) → HasMadeTables S.Store self.old s
            → AreNotes step s (map stored_image found.items) × HasMadeTables S.Store self.new s) }
        ensures cause { IfErr result IsFailure }
    {
        let found = select_undo(alloc, &mut self.store.conn, step);
        self.store.settle(found)
    }

    // Removes what was noted for a step.
    pub(crate) fn forget_records(&mut self, step: u32) -> Result<(), StoreFault>
        ensures count { self.new.count ≡ self.old.count }
        ensures follows { ChangeFollows S.Store self.old self.new }
        ensures taken { OnOk result ((s : State) → HasMadeTables S.Store self.old s
            → HasMadeTables S.Store self.new (taken s step)) }
        ensures cause { IfErr result IsFailure }
    {
        let done = delete_undo(&mut self.store.conn, step);
        self.store.settle(done)
    }

    // Removes all records.
    pub(crate) fn clear_records(&mut self) -> Result<(), StoreFault>
        ensures count { self.new.count ≡ self.old.count }
        ensures follows { ChangeFollows S.Store self.old self.new }
        ensures cleared { OnOk result ((s : State) → HasMadeTables S.Store self.old s
            → HasMadeTables S.Store self.new (record { content = empty.content; undo = s.undo })) }
        ensures cause { IfErr result IsFailure }
    {
        let done = clear_objects(&mut self.store.conn);
        self.store.settle(done)
    }

    // Removes what was noted for all steps.
    pub(crate) fn clear_notes(&mut self) -> Result<(), StoreFault>
        ensures count { self.new.count ≡ self.old.count }
        ensures follows { ChangeFollows S.Store self.old self.new }
        ensures cleared { OnOk result ((s : State)
            → HasMadeTables S.Store self.old (record { content = empty.content; undo = s.undo })
            → HasMadeTables S.Store self.new empty) }
        ensures cause { IfErr result IsFailure }
    {
        let done = clear_undo(&mut self.store.conn);
        self.store.settle(done)
    }
}
