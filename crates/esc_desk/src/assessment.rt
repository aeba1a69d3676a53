//! What is found of a body by the listed rows.

ghost use Rattle.std.specs.Prelude.{◌≡◌, ◌<◌, ℕ, length, Ok, IfOk, IfSome};
ghost use Rattle.sha2.specs.Sha256.{sha256};
ghost use Rattle.esc_tables.specs.DepositValue.{DepositValue};
ghost use Rattle.esc_tables.specs.Reading.{reading};
ghost use Rattle.esc_events.specs.declared.assessment.Assessment.TheVariants.{Holding};
ghost use Rattle.esc_events.specs.Assessment.{as_listed, compared, assessment, held_row};

use crate::delivery::Content;
use crate::reread::{Reread, deposit_of_body};
use esc_bundle::{Fault, NoMemory};
use esc_envelope::{DepositType, Header};
use esc_events::Assessment;
use esc_manifest::{MRow, Manifest};
use esc_tables::Deposit;
use std::alloc::Global;

/// A body with what was found of it by the listed rows.
#[derive(Drop)]
pub(crate) struct Assessed<'b> {
    pub(crate) content: Content<'b>,
    pub(crate) found: Assessment,
    ghost read: { (r : ℕ) (d : DepositValue) → found ≡ Holding r d
        → reading content.body.now ≡ Ok d },
}

/// What is found of a body by the rows of a manifest. The body isn't read where it is that of
/// `last`.
pub(crate) fn find(
    alloc: Global,
    manifest: &Manifest,
    content: Content<'_>,
    last: Option<Reread>,
) -> Result<Assessment, NoMemory>
    ensures found { IfOk result
        (λ f. f ≡ assessment sha256 reading manifest.now content.entry.body.now) }
    ensures row { IfOk result (λ f. IfSome (held_row f) (λ r. r < length manifest.now)) }
    ensures read { IfOk result (λ f. (r : ℕ) (d : DepositValue) → f ≡ Holding r d
        → reading content.entry.body.now ≡ Ok d) }
{
    let Some(row) = manifest.row_by_digest(&content.digest) else {
        return Ok(Assessment::Unlisted);
    };
    match deposit_of_body(alloc, last, content.body) {
        Ok(deposit) => Ok(compare(manifest.rows(), row, deposit)),
        Err(Fault::Refused(refusal)) => Ok(Assessment::Unreadable(row, refusal)),
        Err(Fault::NoMemory) => Err(NoMemory),
    }
}

/// Compares a deposit with what a row says of it.
pub(crate) fn compare(rows: &[MRow], row: usize, deposit: Deposit) -> Assessment
    requires { row < length rows.now }
    ensures compared { result ≡ compared rows.now row deposit }
    ensures row { IfSome (held_row result) (λ r. r < length rows.now) }
    ensures read { (r : ℕ) (d : DepositValue) → result ≡ Holding r d → deposit ≡ d }
{
    let listed = &rows[row].header;
    if is_as_listed(listed, &deposit.header) {
        Assessment::Holding(row, deposit)
    } else {
        Assessment::Differing(row)
    }
}

fn is_as_listed(row: &Header, deposit: &Header) -> bool
    ensures { result ≡ as_listed row.now deposit.now }
{
    row.id == deposit.id
        && row.place == deposit.place
        && row.resend == deposit.resend
        && (row.place.kind != DepositType::Diff || row.prev == deposit.prev)
}

/// The row whose deposit the body is, if any.
pub(crate) fn held_row(assessment: &Assessment) -> Option<usize>
    ensures { result ≡ held_row assessment.now }
{
    match assessment {
        Assessment::Holding(row, _) => Some(*row),
        Assessment::Unlisted | Assessment::Unreadable(..) | Assessment::Differing(_) => None,
    }
}
