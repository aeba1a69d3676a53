//! The table of receipts.

ghost use Rattle.std.specs.Prelude.{◌≡◌, map};
ghost use Rattle.esc_sql.specs.StoreTable.{Receipts};
ghost use Rattle.esc_sql.specs.Entries.{receipt_row};
ghost use Rattle.esc_scan.specs.Scanning.{ReadsRow, IsScan};
ghost use Rattle.esc_scan.specs.Numbers.{number_read, number_of_receipt};

use crate::cursor::read_all;
use crate::rows::{FromEntry, ScanError, value_at};
use esc_sql::receipt::Receipt;
use sqlite_trees::store::Store;
use sqlite_value::row::Row;
use std::alloc::Global;

// The number of the table's tree.
const RECEIPT_TREE: u32 = 4;

impl FromEntry for Receipt {
    ghost is_read = { ReadsRow Receipts receipt_row (λ r. r) };

    fn from_entry(alloc: Global, row: &Row) -> Result<Receipt, ScanError> {
        Ok(Receipt {
            receipt: value_at(alloc, row, 0)?,
            number: value_at(alloc, row, 2)?,
            digest: value_at(alloc, row, 3)?,
            verdict: value_at(alloc, row, 4)?,
            fault: value_at(alloc, row, 5)?,
            row: value_at(alloc, row, 6)?,
            again: value_at(alloc, row, 7)?,
            orphans: value_at(alloc, row, 8)?,
        })
    }
}

/// The number of a receipt, from 1.
#[derive(Clone, Copy, Debug)]
pub struct ReceiptNumber {
    pub receipt: u32,
}

impl FromEntry for ReceiptNumber {
    ghost is_read = { ReadsRow Receipts number_read number_of_receipt };

    fn from_entry(alloc: Global, row: &Row) -> Result<ReceiptNumber, ScanError> {
        Ok(ReceiptNumber {
            receipt: value_at(alloc, row, 0)?,
        })
    }
}

/// All receipts, in the order of their numbers.
pub fn all_receipts<S: Store>(alloc: Global, store: &mut S) -> Result<Vec<Receipt>, ScanError>
    ensures read { IsScan S.Store store.old store.new
        (λ c found. map receipt_row found.items ≡ c.receipts) result }
{
    read_all(alloc, store, RECEIPT_TREE)
}

/// The numbers of all receipts: as many as there are receipts.
pub fn receipt_numbers<S: Store>(
    alloc: Global,
    store: &mut S,
) -> Result<Vec<ReceiptNumber>, ScanError>
    ensures read { IsScan S.Store store.old store.new
        (λ c found. map number_read found.items ≡ map number_of_receipt c.receipts) result }
{
    read_all(alloc, store, RECEIPT_TREE)
}
