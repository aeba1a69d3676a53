//! The statements of a store: each is one write or one read of its tables. Where one fails, a
//! transaction that is on is rolled back.
#![tactic(auto, using(crate::proofs::Sure::read_here))]

ghost use Rattle.std.specs.Prelude.{◌≡◌, map, option_map, IfErr};
ghost use Rattle.sqlite.specs.Held.{state};
ghost use Rattle.esc_sql.specs.Changes.{Becomes, steps_before, AddsReceipt, AddsStep};
ghost use Rattle.esc_sql.specs.Changes.{ListsFrom, ListsKinds, ListsRows, verdict_digests};
ghost use Rattle.esc_sql.specs.Changes.{last_number, receipt_of, body_of};
ghost use Rattle.esc_sql.specs.Entries.{receipt_row, step_row, stored_entry};
ghost use Rattle.esc_store.specs.Faults.{IsFailure};
ghost use Rattle.esc_store.specs.Representation.{IsStep, IsStoreRead};

use crate::fault::StoreFault;
use crate::store::Store;
use esc_sql::held::find_body;
use esc_sql::object::{StoredObject, object_kinds};
use esc_sql::page::objects_from;
use esc_sql::receipt::{
    Receipt, all_receipts, digests_of_verdict, find_receipt, insert_receipt, last_receipt,
    rows_of_verdict,
};
use esc_sql::step::{ChainStep, all_steps, clear_steps_from, insert_step};
use sqlite::Alter;
use std::alloc::Global;

impl<S: Alter> Store<S> {
    // Adds a receipt.
    pub(crate) fn add_receipt_here(&mut self, receipt: &Receipt) -> Result<(), StoreFault>
        ensures manifest { self.new.manifest ≡ self.old.manifest }
        ensures writes { self.new.writes ≡ self.old.writes }
        ensures step { IsStep (state S.Store self.old.conn) (state S.Store self.new.conn)
            (AddsReceipt (receipt_row receipt.now)) result }
        ensures cause { IfErr result IsFailure }
    {
        let done = insert_receipt(&mut self.conn, receipt);
        self.settle(done)
    }

    // Removes the steps of the chain from number `pos` on.
    pub(crate) fn clear_steps_from_here(&mut self, pos: u32) -> Result<(), StoreFault>
        ensures manifest { self.new.manifest ≡ self.old.manifest }
        ensures writes { self.new.writes ≡ self.old.writes }
        ensures step { IsStep (state S.Store self.old.conn) (state S.Store self.new.conn)
            (Becomes (steps_before pos)) result }
        ensures cause { IfErr result IsFailure }
    {
        let done = clear_steps_from(&mut self.conn, pos);
        self.settle(done)
    }

    // Adds a step after the others of the chain.
    pub(crate) fn add_step_here(&mut self, step: ChainStep) -> Result<(), StoreFault>
        ensures manifest { self.new.manifest ≡ self.old.manifest }
        ensures writes { self.new.writes ≡ self.old.writes }
        ensures step { IsStep (state S.Store self.old.conn) (state S.Store self.new.conn)
            (AddsStep (step_row step)) result }
        ensures cause { IfErr result IsFailure }
    {
        let done = insert_step(&mut self.conn, step);
        self.settle(done)
    }

    // All receipts, in the order of their numbers.
    pub(crate) fn receipts_here(&mut self, alloc: Global) -> Result<Vec<Receipt>, StoreFault>
        ensures read { IsStoreRead S.Store self.old self.new
            (λ c found. map receipt_row found.items ≡ c.receipts) result }
        ensures cause { IfErr result IsFailure }
    {
        let found = all_receipts(alloc, &mut self.conn);
        self.settle(found)
    }

    // The receipt of an arrival, if there is one.
    pub(crate) fn receipt_here(
        &mut self,
        number: &str,
        digest: &[u8],
    ) -> Result<Option<Receipt>, StoreFault>
        ensures read { IsStoreRead S.Store self.old self.new
            (λ c found. option_map receipt_row found ≡ receipt_of number.now digest.now c.receipts)
            result }
        ensures cause { IfErr result IsFailure }
    {
        let found = find_receipt(&mut self.conn, number, digest);
        self.settle(found)
    }

    // The indices of the rows that the receipts with a verdict name, in ascending order, with
    // repeats.
    pub(crate) fn rows_here(&mut self, alloc: Global, verdict: u32) -> Result<Vec<u32>, StoreFault>
        ensures read { IsStoreRead S.Store self.old self.new
            (λ c found. ListsRows verdict c found.items) result }
        ensures cause { IfErr result IsFailure }
    {
        let found = rows_of_verdict(alloc, &mut self.conn, verdict);
        self.settle(found)
    }

    // The digests of the receipts of a verdict.
    pub(crate) fn verdict_digests_here(
        &mut self,
        alloc: Global,
        verdict: u32,
    ) -> Result<Vec<Vec<u8>>, StoreFault>
        ensures read { IsStoreRead S.Store self.old self.new
            (λ c found. map (λ d. d.items) found.items ≡ verdict_digests verdict c.receipts)
            result }
        ensures cause { IfErr result IsFailure }
    {
        let found = digests_of_verdict(alloc, &mut self.conn, verdict);
        self.settle(found)
    }

    // The body of a row, if it is held.
    pub(crate) fn body_here(&mut self, row: u32) -> Result<Option<Vec<u8>>, StoreFault>
        ensures read { IsStoreRead S.Store self.old self.new
            (λ c found. option_map (λ b. b.items) found ≡ body_of row c.held) result }
        ensures cause { IfErr result IsFailure }
    {
        let found = find_body(&mut self.conn, row);
        self.settle(found)
    }

    // The steps of the chain.
    pub(crate) fn steps_here(&mut self, alloc: Global) -> Result<Vec<ChainStep>, StoreFault>
        ensures read { IsStoreRead S.Store self.old self.new
            (λ c found. map step_row found.items ≡ c.steps) result }
        ensures cause { IfErr result IsFailure }
    {
        let found = all_steps(alloc, &mut self.conn);
        self.settle(found)
    }

    // The first records of a kind from a key on, one page of them.
    pub(crate) fn page_here(
        &mut self,
        alloc: Global,
        kind: u32,
        from: &[u8],
    ) -> Result<Vec<StoredObject>, StoreFault>
        ensures read { IsStoreRead S.Store self.old self.new
            (λ c found. ListsFrom kind from.now c (map stored_entry found.items)) result }
        ensures cause { IfErr result IsFailure }
    {
        let found = objects_from(alloc, &mut self.conn, kind, from);
        self.settle(found)
    }

    // The kind of each record.
    pub(crate) fn kinds_here(&mut self, alloc: Global) -> Result<Vec<u32>, StoreFault>
        ensures read { IsStoreRead S.Store self.old self.new
            (λ c found. ListsKinds c found.items) result }
        ensures cause { IfErr result IsFailure }
    {
        let found = object_kinds(alloc, &mut self.conn);
        self.settle(found)
    }

    // The number of the last receipt, or 0 if there is none.
    pub(crate) fn last_here(&mut self) -> Result<u32, StoreFault>
        ensures read { IsStoreRead S.Store self.old self.new
            (λ c found. found ≡ last_number c.receipts) result }
        ensures cause { IfErr result IsFailure }
    {
        let found = last_receipt(&mut self.conn);
        self.settle(found)
    }
}
