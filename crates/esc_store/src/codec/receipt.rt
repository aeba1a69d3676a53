//! A receipt as the tables keep it, and back to its reply.

ghost use Rattle.std.specs.Prelude.{◌≡◌, ℕ, List, map, option_map, IfOk, IfErr, Option, Bool, Some};
ghost use Rattle.std.specs.Prelude.{string_bytes, IsSorted};
ghost use Rattle.esc_sql.specs.Entries.{receipt_row};
ghost use Rattle.esc_sql.specs.Changes.{receipt_of};
ghost use Rattle.esc_store.specs.Faults.{IsFailed, IsFailure};
ghost use Rattle.esc_store.specs.TypedRows.{verdict_number, fault_number, bit, numbered_receipt};
ghost use Rattle.esc_store.specs.TypedRows.{receipts_from};
ghost use Rattle.std.specs.Ordering.{nat_cmp};
ghost use Rattle.esc_manifest.specs.ManifestRows.{id_at, resend_at};
ghost use Rattle.esc_store.specs.declared.reply.Verdict.{Verdict as verdict};
ghost use Rattle.esc_store.specs.Decoded.{AreOnce};
ghost use Rattle.esc_store.specs.ReplyValue.{ReceiptValue, reply_kept, reply_alike, replies_from};

use crate::cause::{Cause, Table};
use crate::codec::small;
use crate::fault::StoreFault;
use crate::reply::{Receipt, Reply, Verdict};
use esc_manifest::Manifest;
use esc_sql::receipt::Receipt as StoredReceipt;
use std::alloc::Global;

const FOREIGN: StoreFault = StoreFault::Failed(Cause::ForeignRow(Table::Receipt));

fn small_row(row: Option<usize>) -> Result<Option<u32>, StoreFault>
    ensures row { IfOk result (λ n. n ≡ row) }
    ensures cause { IfErr result IsFailed }
{
    match row {
        Some(row) => Ok(Some(small(row)?)),
        None => Ok(None),
    }
}

fn small_count(count: Option<u64>) -> Result<Option<u32>, StoreFault>
    ensures count { IfOk result (λ n. n ≡ count) }
    ensures cause { IfErr result IsFailed }
{
    match count {
        Some(count) => match u32::try_from(count) {
            Ok(count) => Ok(Some(count)),
            Err(_) => Err(FOREIGN),
        },
        None => Ok(None),
    }
}

// The number of a verdict in the tables.
pub(crate) fn verdict_number(verdict: Verdict) -> u32
    ensures { result ≡ verdict_number verdict }
{
    match verdict {
        Verdict::A1 => 1,
        Verdict::A2 => 2,
        Verdict::A3(_) => 3,
        Verdict::A4 => 4,
        Verdict::A5 => 5,
    }
}

fn fault_number(verdict: Verdict) -> Option<u32>
    ensures { result ≡ fault_number verdict }
{
    match verdict {
        Verdict::A3(fault) => Some(u32::from(fault)),
        _ => None,
    }
}

fn bit(again: Option<bool>) -> Option<u32>
    ensures { result ≡ option_map bit again }
{
    match again {
        Some(true) => Some(1),
        Some(false) => Some(0),
        None => None,
    }
}

// A receipt as its table keeps it.
pub(crate) fn stored_receipt(
    alloc: Global,
    number: u32,
    receipt: &Receipt<'_>,
) -> Result<StoredReceipt, StoreFault>
    ensures row { IfOk result (λ r. receipt_row r ≡ numbered_receipt number receipt.now) }
    ensures cause { IfErr result IsFailure }
{
    Ok(StoredReceipt {
        receipt: number,
        number: String::from_str(alloc, receipt.number)?,
        digest: Vec::from_slice(alloc, &receipt.digest)?,
        verdict: verdict_number(receipt.verdict),
        fault: fault_number(receipt.verdict),
        row: small_row(receipt.row)?,
        again: bit(receipt.again),
        orphans: small_count(receipt.orphans)?,
    })
}

// The verdict with this number, and with this refusal's number if it is A3.
fn verdict_of(number: u32, fault: Option<u32>) -> Result<Verdict, StoreFault>
    ensures verdict { IfOk result (λ v. (w : verdict) → number ≡ verdict_number w
        → fault ≡ fault_number w → v ≡ w) }
    ensures cause { IfErr result IsFailure }
{
    match (number, fault) {
        (1, None) => Ok(Verdict::A1),
        (2, None) => Ok(Verdict::A2),
        (4, None) => Ok(Verdict::A4),
        (5, None) => Ok(Verdict::A5),
        (3, Some(fault)) => match u8::try_from(fault) {
            Ok(fault) => Ok(Verdict::A3(fault)),
            Err(_) => Err(FOREIGN),
        },
        _ => Err(FOREIGN),
    }
}

// What a 0 or 1 stands for.
fn again_of(again: Option<u32>) -> Result<Option<bool>, StoreFault>
    ensures again { IfOk result (λ a. (b : Option Bool) → again ≡ option_map bit b
        → a ≡ b) }
    ensures cause { IfErr result IsFailure }
{
    match again {
        Some(1) => Ok(Some(true)),
        Some(0) => Ok(Some(false)),
        None => Ok(None),
        _ => Err(FOREIGN),
    }
}

// A count of 64 bits.
fn count_of(count: Option<u32>) -> Option<u64>
    ensures { result ≡ count }
{
    match count {
        Some(count) => Some(u64::from(count)),
        None => None,
    }
}

// Id and resend of a row of the manifest, if there is one.
fn listed_of(
    alloc: Global,
    manifest: &Manifest,
    row: Option<u32>,
) -> Result<(Option<String>, Option<u32>), StoreFault>
    ensures listed { IfOk result
        (λ p. (option_map string_bytes p.0 ≡ option_map (id_at manifest.now) row)
        × (p.1 ≡ option_map (resend_at manifest.now) row)) }
    ensures cause { IfErr result IsFailure }
{
    let Some(row) = row else {
        return Ok((None, None));
    };
    let rows = manifest.rows();
    let at = row as usize;
    if at >= rows.len() {
        return Err(FOREIGN);
    }
    let listed = &rows[at].header;
    let id = String::from_str(alloc, listed.id.as_str())?;
    Ok((Some(id), Some(listed.resend)))
}

// The reply that a row of the table of receipts keeps.
pub(crate) fn reply_of(
    alloc: Global,
    manifest: &Manifest,
    stored: &StoredReceipt,
) -> Result<Reply, StoreFault>
    ensures reply { IfOk result (λ reply. (n : ℕ) (r : ReceiptValue)
        → receipt_row stored.now ≡ numbered_receipt n r → reply ≡ reply_kept manifest.now n r) }
    ensures cause { IfErr result IsFailure }
{
    let number = String::from_str(alloc, stored.number.as_str())?;
    let verdict = verdict_of(stored.verdict, stored.fault)?;
    let again = again_of(stored.again)?;
    let (id, resend) = listed_of(alloc, manifest, stored.row)?;
    Ok(Reply {
        receipt: u64::from(stored.receipt),
        number,
        verdict,
        id,
        resend,
        again,
        orphans: count_of(stored.orphans),
    })
}

// The reply that the row keeps which was found for an arrival, if one was.
pub(crate) fn reply_found(
    alloc: Global,
    manifest: &Manifest,
    found: Option<StoredReceipt>,
) -> Result<Option<Reply>, StoreFault>
    ensures reply { IfOk result (λ reply. (rs : List ReceiptValue) (number digest : List ℕ)
        → option_map receipt_row found ≡ receipt_of number digest (receipts_from 1 rs)
        → reply ≡ reply_alike manifest.now 1 number digest rs) }
    ensures cause { IfErr result IsFailure }
{
    match found {
        Some(stored) => Ok(Some(reply_of(alloc, manifest, &stored)?)),
        None => Ok(None),
    }
}

// The replies of all rows of the table of receipts.
pub(crate) fn replies_of(
    alloc: Global,
    manifest: &Manifest,
    stored: &[StoredReceipt],
) -> Result<Vec<Reply>, StoreFault>
    ensures replies { IfOk result (λ replies. (rs : List ReceiptValue)
        → map receipt_row stored.now ≡ receipts_from 1 rs
        → replies.items ≡ replies_from manifest.now 1 rs) }
    ensures cause { IfErr result IsFailure }
{
    let mut replies = Vec::new(alloc);
    for at in 0..stored.len() {
        let reply = reply_of(alloc, manifest, &stored[at])?;
        replies.push(reply)?;
    }
    Ok(replies)
}

// Numbers of 32 bits as row indices.
fn indices_of(alloc: Global, numbers: &[u32]) -> Result<Vec<usize>, StoreFault>
    ensures rows { IfOk result (λ rows. rows.items ≡ numbers.now) }
    ensures cause { IfErr result IsFailure }
{
    let mut rows = Vec::with_capacity(alloc, numbers.len())?;
    for number in numbers {
        rows.push(*number as usize)?;
    }
    Ok(rows)
}

// The distinct ones of ascending numbers of 32 bits, as row indices.
pub(crate) fn distinct_indices_of(alloc: Global, numbers: &[u32]) -> Result<Vec<usize>, StoreFault>
    ensures once { IsSorted nat_cmp numbers.now
        → IfOk result (λ rows. AreOnce numbers.now rows.items) }
    ensures cause { IfErr result IsFailure }
{
    let mut rows = indices_of(alloc, numbers)?;
    rows.dedup();
    Ok(rows)
}
