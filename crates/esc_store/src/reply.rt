//! What the desk replies to a sender, and what the store keeps of it.

ghost use Rattle.std.specs.Prelude.{◌≡◌, IfOk};

use esc_bundle::NoMemory;
use std::alloc::Global;
use std::marker::Model;

/// What an arrival was found to be, by the rows that were listed when it came (this project's
/// profile).
#[derive(Clone, Copy, Debug, PartialEq, Eq)]
pub enum Verdict {
    /// The body is the deposit of its row, and is held.
    A1,
    /// No row listed the body, and it was not kept. Only version 1 gave this verdict.
    A2,
    /// A row lists the body, but it is no valid deposit: the number of its refusal, from U1 to U11.
    A3(u8),
    /// A row lists the body, but its deposit has another id, place or resend than the row or, if it
    /// is a Differential, another previous id.
    A4,
    /// No row listed the body, and it was parked until a manifest lists it.
    A5,
}

/// The reply to an arrival.
#[derive(Debug, Drop)]
pub struct Reply {
    /// The number of the receipt: receipts are numbered from 1, without gaps.
    pub receipt: u64,
    /// The number under which the sender sent it.
    pub number: String,
    /// What the body was found to be, by the rows that were listed when it came.
    pub verdict: Verdict,
    /// The id of the row that listed the body when it came, if one did.
    pub id: Option<String>,
    /// The resend of that row.
    pub resend: Option<u32>,
    /// Whether an earlier receipt has `A1` of the same row. With `A1` alone.
    pub again: Option<bool>,
    /// The number of orphans, child rows without a parent row. With `A1` alone.
    pub orphans: Option<u64>,
}

impl Model for Reply {
    ghost use Rattle.std.specs.Prelude.{string_bytes, option_map};
    ghost use Rattle.esc_store.specs.ReplyValue.{ReplyValue};

    ghost Value = { ReplyValue };

    ghost view = { λ r. record {
      receipt = r.receipt;
      number = string_bytes r.number;
      verdict = r.verdict;
      id = option_map string_bytes r.id;
      resend = r.resend;
      again = r.again;
      orphans = r.orphans;
    } };
}

impl Reply {
    /// An equal reply. `NoMemory` out of memory.
    pub fn copy(&self, alloc: Global) -> Result<Reply, NoMemory>
        ensures same { IfOk result (λ r. r ≡ self.now) }
    {
        let number = String::from_str(alloc, self.number.as_str())?;
        let id = match &self.id {
            Some(id) => Some(String::from_str(alloc, id.as_str())?),
            None => None,
        };
        Ok(Reply {
            receipt: self.receipt,
            number,
            verdict: self.verdict,
            id,
            resend: self.resend,
            again: self.again,
            orphans: self.orphans,
        })
    }
}

/// What a store keeps of an arrival.
#[derive(Debug, Drop)]
pub struct Receipt<'a> {
    /// The number under which the sender sent the body.
    pub number: &'a str,
    /// The SHA-256 of the body.
    pub digest: [u8; 32],
    /// What the body was found to be, by the rows that were listed when it came.
    pub verdict: Verdict,
    /// The index, from 0, of the row that listed the digest when the body came, if one did.
    pub row: Option<usize>,
    /// Whether an earlier receipt has `A1` of the same row. With `A1` alone.
    pub again: Option<bool>,
    /// The number of orphans, child rows without a parent row. With `A1` alone.
    pub orphans: Option<u64>,
}

impl<'a> Model for Receipt<'a> {
    ghost use Rattle.esc_store.specs.ReplyValue.{ReceiptValue};

    ghost Value = { ReceiptValue };

    ghost view = { λ r. record {
      number = r.number.now;
      digest = r.digest;
      verdict = r.verdict;
      row = r.row;
      again = r.again;
      orphans = r.orphans;
    } };
}
