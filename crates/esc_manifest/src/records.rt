//! The records of a manifest's text.

ghost use Rattle.std.specs.Prelude.{◌≡◌, ◌<◌, ◌≤◌, ◌+◌, ℕ, length, IfOk, Err};
ghost use Rattle.esc_csv.specs.Records.{records_of};
ghost use Rattle.esc_manifest.specs.declared.fault.ManifestFault.TheVariants as ManifestFault;
ghost use Rattle.esc_manifest.specs.RowFaults.{most_manifest_rows};

use crate::fault::ManifestFault;
use crate::refusal::ManifestRefusal;
use crate::rows::MOST_LISTED_ROWS;
use esc_csv::{Record, Records};
use std::alloc::Global;

/// The records of a text, with the heading; M1 if there are more than a heading and 4,096 rows.
pub(crate) fn read_records(alloc: Global, text: &[u8]) -> Result<Vec<Record>, ManifestFault>
    ensures all { IfOk result (λ v. v.items ≡ records_of text.now) }
    ensures few { IfOk result (λ v. length v.items ≤ most_manifest_rows + 1) }
    ensures refused { (refusal : ManifestRefusal) (row : ℕ) →
        result ≡ Err (ManifestFault.Refused refusal row)
        → (refusal ≡ ManifestRefusal.OverLimit) × (row ≡ 0)
        × (most_manifest_rows + 1 < length (records_of text.now)) }
{
    let mut unread = Records::of(alloc, text);
    let mut records = Vec::new(alloc);
    let mut fields = Record::new(alloc);
    while unread.next(&mut fields)? {
        if records.len() > MOST_LISTED_ROWS {
            return Err(ManifestFault::Refused {
                refusal: ManifestRefusal::OverLimit,
                row: 0,
            });
        }
        records.push(fields)?;
        fields = Record::new(alloc);
    }
    Ok(records)
}
