//! Which rows a reader's store holds, as its receipts say.

ghost use Rattle.std.specs.Prelude.{◌≡◌, ◌++◌, ◌∷◌, [], ℕ, List, map, filter_map};
ghost use Rattle.std.specs.Prelude.{IfOk, IfErr, OnOk};
ghost use Rattle.esc_sql.specs.Entries.{receipt_row};
ghost use Rattle.esc_store.specs.Decoded.{row_if_held, digest_if_unlisted};
ghost use Rattle.esc_store.specs.Faults.{IsFailure};
ghost use Rattle.esc_store.specs.Holding.{HasReceipts, AreFound};
ghost use Rattle.esc_store.specs.Reading.{IsHonestReader, IsReadOnly, ReaderRepresents};
ghost use Rattle.esc_store.specs.ReplyValue.{ReceiptValue};
ghost use Rattle.esc_store.specs.StoreState.{StoreState, AreHeld, AreHeldBy, AreUnlisted, IsRising};
ghost use Rattle.esc_store.specs.TypedRows.{receipts_from};

use crate::codec::manifest::digest_of;
use crate::codec::receipt::{distinct_indices_of, verdict_number};
use crate::fault::StoreFault;
use crate::held::insert_row;
use crate::reader::StoreReader;
use crate::reply::Verdict;
use esc_scan::receipt::all_receipts;
use esc_sql::receipt::Receipt as StoredReceipt;
use sqlite_trees::store::Store;
use std::alloc::Global;

impl<S: Store> StoreReader<S> {
    /// The indices, from 0, of the listed rows whose body is held, in ascending order: those that
    /// [`Store::held`](crate::Store::held) returns. Only bodies that no row listed when they
    /// arrived are read, each once. `S1`, `S2`.
    pub fn held(&mut self, alloc: Global) -> Result<Vec<usize>, StoreFault>
        ensures same { IsReadOnly S.Store self.old self.new result }
        ensures rows { IsHonestReader S.Store self.new → (k : StoreState)
            → ReaderRepresents S.Store self.old k → HasReceipts k
            → IfOk result (λ rows. AreHeld k.bodies rows.items) }
        ensures cause { IfErr result IsFailure }
    {
        let receipts = all_receipts(alloc, &mut self.trees)?;
        let told = told_rows(alloc, receipts.as_slice())?;
        let digests = unlisted_digests(alloc, receipts.as_slice())?;
        self.with_found(alloc, told, digests.as_slice())
    }

    // The rows that receipts say are held (`told`), and those that list one of these digests and
    // have a body.
    fn with_found(
        &mut self,
        alloc: Global,
        told: Vec<usize>,
        digests: &[[u8; 32]],
    ) -> Result<Vec<usize>, StoreFault>
        ensures same { IsReadOnly S.Store self.old self.new result }
        ensures found { IsHonestReader S.Store self.new → (k : StoreState)
            → ReaderRepresents S.Store self.old k → IsRising told.items
            → IfOk result (λ rows. AreFound k told.items digests.now rows.items) }
        ensures cause { IfErr result IsFailure }
    {
        let mut rows = told;
        for digest in digests {
            self.insert_found(alloc, &mut rows, digest)?;
        }
        Ok(rows)
    }

    // Inserts the row that lists a digest among rows in ascending order, if that row has a body.
    // The body of a row that is one of them already isn't read.
    fn insert_found(
        &mut self,
        alloc: Global,
        rows: &mut Vec<usize>,
        digest: &[u8; 32],
    ) -> Result<(), StoreFault>
        ensures same { IsReadOnly S.Store self.old self.new result }
        ensures found { OnOk result (IsHonestReader S.Store self.new → (k : StoreState)
            → ReaderRepresents S.Store self.old k → (told : List ℕ) (digests : List (List ℕ))
            → AreFound k told digests rows.old.items
            → AreFound k told (digests ++ digest.now ∷ []) rows.new.items) }
        ensures cause { IfErr result IsFailure }
    {
        let Some(row) = self.manifest.row_by_digest(digest) else {
            return Ok(());
        };
        if rows.binary_search(&row).is_ok() {
            return Ok(());
        }
        if self.body_of(alloc, row)?.is_some() {
            insert_row(rows, row)?;
        }
        Ok(())
    }
}

// The row of a receipt that says that its deposit is held.
fn row_if_held(receipt: &StoredReceipt) -> Option<u32>
    ensures { result ≡ row_if_held (receipt_row receipt.now) }
{
    if receipt.verdict == verdict_number(Verdict::A1) {
        receipt.row
    } else {
        None
    }
}

// The digest of a receipt of a body that no row listed. `S1` if it doesn't have its length.
fn digest_if_unlisted(receipt: &StoredReceipt) -> Result<Option<[u8; 32]>, StoreFault>
    ensures digest { IfOk result
        (λ digest. digest ≡ digest_if_unlisted (receipt_row receipt.now)) }
    ensures cause { IfErr result IsFailure }
{
    let verdict = receipt.verdict;
    if verdict != verdict_number(Verdict::A2) && verdict != verdict_number(Verdict::A5) {
        return Ok(None);
    }
    let digest = digest_of(receipt.digest.as_slice())?;
    Ok(Some(digest))
}

// The rows whose deposit is held according to receipts, with repeats.
fn held_numbers(alloc: Global, receipts: &[StoredReceipt]) -> Result<Vec<u32>, StoreFault>
    ensures numbers { IfOk result (λ numbers.
        numbers.items ≡ filter_map (λ r. row_if_held (receipt_row r)) receipts.now) }
    ensures cause { IfErr result IsFailure }
{
    Ok(receipts.iter().filter_map(row_if_held).collect(alloc)?)
}

// The rows whose deposit is held according to receipts, in ascending order.
fn told_rows(alloc: Global, receipts: &[StoredReceipt]) -> Result<Vec<usize>, StoreFault>
    ensures rows { IfOk result (λ rows. (rs : List ReceiptValue)
        → map receipt_row receipts.now ≡ receipts_from 1 rs → AreHeldBy rs rows.items) }
    ensures cause { IfErr result IsFailure }
{
    let mut rows = held_numbers(alloc, receipts)?;
    rows.sort_unstable();
    distinct_indices_of(alloc, rows.as_slice())
}

// The digests of bodies that no row listed, according to receipts, with repeats.
fn unlisted_digests(alloc: Global, receipts: &[StoredReceipt]) -> Result<Vec<[u8; 32]>, StoreFault>
    ensures digests { IfOk result (λ digests. (rs : List ReceiptValue)
        → map receipt_row receipts.now ≡ receipts_from 1 rs → AreUnlisted rs digests.items) }
    ensures cause { IfErr result IsFailure }
{
    let mut digests = Vec::new(alloc);
    for receipt in receipts {
        if let Some(digest) = digest_if_unlisted(receipt)? {
            digests.push(digest)?;
        }
    }
    Ok(digests)
}
