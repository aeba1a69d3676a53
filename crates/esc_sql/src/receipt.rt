//! The table of receipts, each with its reply.

ghost use Rattle.std.specs.Prelude.{◌≡◌, map, option_map};
ghost use Rattle.sqlite.specs.Held.{state};
ghost use Rattle.esc_sql.specs.Part.{IsPart, IsRead};
ghost use Rattle.esc_sql.specs.Rows.{ReceiptRow, shown_receipt};
ghost use Rattle.esc_sql.specs.Changes.{Tells, AddsReceipt, ListsRows, verdict_digests, receipt_of};
ghost use Rattle.esc_sql.specs.Changes.{last_number};
ghost use Rattle.esc_sql.specs.Entries.{receipt_row};
ghost use Rattle.esc_sql.specs.StatementSteps.{ShowsReceipt, ShowsReceipts, ShowsLast, ShowsRows};
ghost use Rattle.esc_sql.specs.StatementSteps.{ShowsVerdictDigests};

use crate::reader::{FromRow, read_rows};
use crate::within::write_within;
use sqlite::{Alter, Connection, Error, Row, params};
use std::alloc::Global;

/// A receipt: its number from 1, the sender's number, the body's SHA-256, and the reply: the
/// verdict (1 to 5 for A1 to A5), the number of an A3's refusal, the index of the manifest's row,
/// whether an earlier receipt has A1 of that row (0 or 1), and the number of orphans.
#[derive(Debug, Drop)]
pub struct Receipt {
    pub receipt: u32,
    pub number: String,
    pub digest: Vec<u8>,
    pub verdict: u32,
    pub fault: Option<u32>,
    pub row: Option<u32>,
    pub again: Option<u32>,
    pub orphans: Option<u32>,
}

/// Adds a receipt after the others. If there is one with the same sender's number and digest
/// already it is an error.
pub fn insert_receipt<S: Alter>(conn: &mut Connection<S>, receipt: &Receipt) -> Result<(), Error>
    ensures part { IsPart (state S.Store conn.old) (state S.Store conn.new)
        (AddsReceipt (receipt_row receipt.now)) result }
{
    write_within(
        conn,
        "INSERT INTO receipt (receipt, number, digest, verdict, fault, row, again, orphans) VALUES (?1, ?2, ?3, ?4, ?5, ?6, ?7, ?8)",
        params![
            receipt.receipt,
            &receipt.number,
            &receipt.digest,
            receipt.verdict,
            receipt.fault,
            receipt.row,
            receipt.again,
            receipt.orphans
        ],
    )
}

fn ask_receipt<S: Alter>(
    conn: &mut Connection<S>,
    number: &str,
    digest: &[u8],
) -> Result<Vec<Row>, Error>
    ensures read { IsRead (state S.Store conn.old) (state S.Store conn.new)
        (λ db rows. Tells (ShowsReceipt number.now digest.now) db rows.items) result }
{
    conn.query_all(
        "SELECT receipt, number, digest, verdict, fault, row, again, orphans FROM receipt WHERE number = ?1 AND digest = ?2",
        params![number, digest],
    )
}

impl FromRow for Receipt {
    ghost is_read = { λ row it. (r : ReceiptRow) → row ≡ shown_receipt r → receipt_row it ≡ r };

    fn from_row(row: &Row) -> Result<Receipt, Error> {
        Ok(Receipt {
            receipt: row.get(0)?,
            number: row.get(1)?,
            digest: row.get(2)?,
            verdict: row.get(3)?,
            fault: row.get(4)?,
            row: row.get(5)?,
            again: row.get(6)?,
            orphans: row.get(7)?,
        })
    }
}

/// The receipt of this sender's number and this digest, if there is one.
pub fn find_receipt<S: Alter>(
    conn: &mut Connection<S>,
    number: &str,
    digest: &[u8],
) -> Result<Option<Receipt>, Error>
    ensures read { IsRead (state S.Store conn.old) (state S.Store conn.new)
        (Tells (λ c found. option_map receipt_row found
        ≡ receipt_of number.now digest.now c.receipts)) result }
{
    let rows = ask_receipt(conn, number, digest)?;
    match rows.first() {
        Some(row) => Ok(Some(Receipt::from_row(row)?)),
        None => Ok(None),
    }
}

fn ask_receipts<S: Alter>(conn: &mut Connection<S>) -> Result<Vec<Row>, Error>
    ensures read { IsRead (state S.Store conn.old) (state S.Store conn.new)
        (λ db rows. Tells ShowsReceipts db rows.items) result }
{
    conn.query_all(
        "SELECT receipt, number, digest, verdict, fault, row, again, orphans FROM receipt ORDER BY receipt",
        &[],
    )
}

/// All receipts, in the order of their numbers.
pub fn all_receipts<S: Alter>(
    alloc: Global,
    conn: &mut Connection<S>,
) -> Result<Vec<Receipt>, Error>
    ensures read { IsRead (state S.Store conn.old) (state S.Store conn.new)
        (Tells (λ c found. map receipt_row found.items ≡ c.receipts)) result }
{
    let rows = ask_receipts(conn)?;
    read_rows(alloc, &rows)
}

fn ask_last<S: Alter>(conn: &mut Connection<S>) -> Result<Vec<Row>, Error>
    ensures read { IsRead (state S.Store conn.old) (state S.Store conn.new)
        (λ db rows. Tells ShowsLast db rows.items) result }
{
    conn.query_all(
        "SELECT receipt FROM receipt ORDER BY receipt DESC LIMIT 1",
        &[],
    )
}

/// The number of the last receipt, or 0 where there is none.
pub fn last_receipt<S: Alter>(conn: &mut Connection<S>) -> Result<u32, Error>
    ensures read { IsRead (state S.Store conn.old) (state S.Store conn.new)
        (Tells (λ c found. found ≡ last_number c.receipts)) result }
{
    let rows = ask_last(conn)?;
    match rows.first() {
        Some(row) => row.get(0),
        None => Ok(0),
    }
}

fn ask_rows<S: Alter>(conn: &mut Connection<S>, verdict: u32) -> Result<Vec<Row>, Error>
    ensures read { IsRead (state S.Store conn.old) (state S.Store conn.new)
        (λ db rows. Tells (ShowsRows verdict) db rows.items) result }
{
    conn.query_all(
        "SELECT row FROM receipt WHERE verdict = ?1 ORDER BY row",
        params![verdict],
    )
}

/// The indices of the manifest's rows that the receipts with a verdict name, in ascending order,
/// with repeats. A receipt with this verdict that names no row is an error.
pub fn rows_of_verdict<S: Alter>(
    alloc: Global,
    conn: &mut Connection<S>,
    verdict: u32,
) -> Result<Vec<u32>, Error>
    ensures read { IsRead (state S.Store conn.old) (state S.Store conn.new)
        (Tells (λ c found. ListsRows verdict c found.items)) result }
{
    let rows = ask_rows(conn, verdict)?;
    read_rows(alloc, &rows)
}

fn ask_digests<S: Alter>(conn: &mut Connection<S>, verdict: u32) -> Result<Vec<Row>, Error>
    ensures read { IsRead (state S.Store conn.old) (state S.Store conn.new)
        (λ db rows. Tells (ShowsVerdictDigests verdict) db rows.items) result }
{
    conn.query_all(
        "SELECT digest FROM receipt WHERE verdict = ?1 ORDER BY receipt",
        params![verdict],
    )
}

/// The digests of the receipts with a verdict, in the order of receipts, with repeats.
pub fn digests_of_verdict<S: Alter>(
    alloc: Global,
    conn: &mut Connection<S>,
    verdict: u32,
) -> Result<Vec<Vec<u8>>, Error>
    ensures read { IsRead (state S.Store conn.old) (state S.Store conn.new)
        (Tells (λ c found. map (λ d. d.items) found.items ≡ verdict_digests verdict c.receipts))
        result }
{
    let rows = ask_digests(conn, verdict)?;
    read_rows(alloc, &rows)
}
