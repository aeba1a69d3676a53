//! The receipt of a new arrival, and the reply that is made of it.

ghost use Rattle.std.specs.Prelude.{◌≡◌, ◌<◌, length, false, IfOk, IfSome};
ghost use Rattle.esc_store.specs.ReplyValue.{reply_kept};
ghost use Rattle.esc_events.specs.Receipts.{receipt_by, is_among};

use esc_bundle::NoMemory;
use esc_events::Assessment;
use esc_manifest::MRow;
use esc_store::{Number, Receipt, Reply, Verdict};
use std::alloc::Global;

/// The receipt by what was found. `again` says whether an earlier receipt has the row with `A1`.
pub(crate) fn receipt_by<'a>(
    number: &Number<'a>,
    digest: [u8; 32],
    assessment: &Assessment,
    again: bool,
) -> Receipt<'a>
    ensures { result ≡ receipt_by number.now digest false assessment.now again }
{
    let (verdict, row, again, orphans) = match assessment {
        Assessment::Unlisted => (Verdict::A5, None, None, None),
        Assessment::Unreadable(row, refusal) => {
            (Verdict::A3(refusal.number()), Some(*row), None, None)
        }
        Assessment::Differing(row) => (Verdict::A4, Some(*row), None, None),
        Assessment::Holding(row, deposit) => (
            Verdict::A1,
            Some(*row),
            Some(again),
            Some(deposit.orphans),
        ),
    };
    Receipt {
        number: number.text(),
        digest,
        verdict,
        row,
        again,
        orphans,
    }
}

/// The reply for a receipt. Its receipt number is 0 until the store has given one.
pub(crate) fn reply_of(
    alloc: Global,
    rows: &[MRow],
    receipt: &Receipt<'_>,
) -> Result<Reply, NoMemory>
    requires { IfSome receipt.now.row (λ r. r < length rows.now) }
    ensures { IfOk result (λ r. r ≡ reply_kept rows.now 0 receipt.now) }
{
    let (id, resend) = match receipt.row {
        Some(row) => {
            let header = &rows[row].header;
            let id = String::from_str(alloc, header.id.as_str())?;
            (Some(id), Some(header.resend))
        }
        None => (None, None),
    };
    Ok(Reply {
        receipt: 0,
        number: String::from_str(alloc, receipt.number)?,
        verdict: receipt.verdict,
        id,
        resend,
        again: receipt.again,
        orphans: receipt.orphans,
    })
}

/// Whether a row, if any, is one of these.
pub(crate) fn is_among(rows: &[usize], row: Option<usize>) -> bool
    ensures { result ≡ is_among rows.now row }
{
    match row {
        Some(row) => rows.contains(&row),
        None => false,
    }
}
