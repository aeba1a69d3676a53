//! The release manifest of bundles.

ghost use Rattle.std.specs.Prelude.{◌≡◌, ℕ, [], Ok, Err, None, OnOk, IfOk, IfErr};
ghost use Rattle.std.specs.List.Sorted.{IsPermutation, IsSortedBy};
ghost use Rattle.esc_bundle.specs.declared.refusal.Refusal.{Refusal};
ghost use Rattle.esc_tables.specs.Reading.{reading};
ghost use Rattle.esc_manifest.specs.RowFaults.{rows_fault};
ghost use Rattle.esc_pack.specs.Release.{row_of_body, AddsRow, row_cmp, comes_before};
ghost use Rattle.esc_pack.specs.Listing.{IsManifestOf, IsManifestRefusal, UnlistedAlone};

use crate::fault::ReleaseFault;
use crate::written::manifest_text;
use esc_bundle::{Fault, NoMemory};
use esc_csv::written_lines_read_back;
use esc_manifest::{
    MOST_MANIFEST_BYTES, MRow, Manifest, ManifestFault, ManifestRefusal, copy_rows, from_rows,
};
use esc_tables::read_deposit;
use sha2::{Digest, Sha256};
use std::alloc::Global;
use std::cmp::Ordering;
use std::marker::Model;

/// Bundles that were read, one after the other: of each it holds the row alone. Contracts see it as
/// these rows, in the order in which the bundles were read.
#[derive(Drop)]
pub struct Release {
    rows: Vec<MRow>,
}

impl Model for Release {
    ghost use Rattle.std.specs.Prelude.{List};
    ghost use Rattle.esc_manifest.specs.declared.row.MRow.{MRow};

    ghost Value = { List MRow };

    ghost view = { λ r. r.rows.items };
}

impl Release {
    /// Of no bundle yet. Doesn't allocate.
    pub fn new(alloc: Global) -> Release
        ensures { result ≡ [] }
    {
        Release {
            rows: Vec::new(alloc),
        }
    }

    /// Reads one more bundle: its row has what its deposit says of itself, and the SHA-256 of its
    /// bytes. At `Err` the release is as it was: `Refused` where it is no deposit, or `NoMemory`.
    pub fn read(&mut self, alloc: Global, body: &[u8]) -> Result<(), Fault>
        ensures read { OnOk result (AddsRow body.now self.old self.new) }
        ensures unchanged { IfErr result (λ e. self.new ≡ self.old) }
        ensures refused { IfErr result (λ e. (why : Refusal) → e ≡ Fault.Refused why
            → reading body.now ≡ Err why) }
    {
        let row = row_of_body(alloc, body)?;
        self.rows.push(row)?;
        Ok(())
    }

    /// The rows, in the order in which the bundles were read.
    pub fn rows(&self) -> &[MRow]
        ensures { result.now ≡ self.now }
    {
        self.rows.as_slice()
    }

    /// The release manifest of these bundles: their rows in the order of places, and at one place
    /// by resend. `read_manifest` reads it as exactly these rows.
    ///
    /// # Errors
    ///
    /// `Unlisted`: no manifest can list these deposits. `NoMemory`.
    pub fn manifest(&self, alloc: Global) -> Result<Vec<u8>, ReleaseFault>
        ensures listed { IfOk result (λ text. IsManifestOf self.now text.items) }
        ensures refused { IfErr result (IsManifestRefusal self.now) }
    {
        let rows = copy_rows(alloc, self.rows.as_slice())?;
        let rows = in_order(rows)?;
        let manifest = accepted(alloc, rows)?;
        let text = manifest_text(alloc, &manifest)?;
        written_lines_read_back();
        if text.len() > MOST_MANIFEST_BYTES {
            return Err(ReleaseFault::Unlisted {
                refusal: ManifestRefusal::OverLimit,
                row: 0,
            });
        }
        Ok(text)
    }
}

// The row of a body.
fn row_of_body(alloc: Global, body: &[u8]) -> Result<MRow, Fault>
    ensures row { IfOk result (λ row. row_of_body body.now ≡ Ok row) }
    ensures refused { IfErr result (λ e. (why : Refusal) → e ≡ Fault.Refused why
        → reading body.now ≡ Err why) }
{
    let deposit = read_deposit(alloc, body)?;
    Ok(MRow {
        header: deposit.header,
        digest: Sha256::digest(body),
    })
}

// The order of rows: by place, and at one place by resend.
fn row_order(a: &MRow, b: &MRow) -> Ordering
    ensures { result ≡ row_cmp a.now b.now }
{
    let (p, q) = (a.header.place, b.header.place);
    p.watermark
        .cmp(&q.watermark)
        .then(p.kind.cmp(&q.kind))
        .then(a.header.resend.cmp(&b.header.resend))
}

// The same rows in their order.
fn in_order(mut rows: Vec<MRow>) -> Result<Vec<MRow>, NoMemory>
    ensures same { IfOk result (λ m. IsPermutation rows.items m.items) }
    ensures rising { IfOk result (λ m. IsSortedBy comes_before m.items) }
{
    rows.sort_by(|a, b| row_order(a, b))?;
    Ok(rows)
}

// The manifest of rows that are in order.
fn accepted(alloc: Global, rows: Vec<MRow>) -> Result<Manifest, ReleaseFault>
    ensures accepted { IfOk result (λ m. (m ≡ rows.items) × (rows_fault rows.items ≡ None)) }
    ensures refused { IfErr result (UnlistedAlone rows.items) }
{
    match from_rows(alloc, rows) {
        Ok(manifest) => Ok(manifest),
        Err(ManifestFault::Refused { refusal, row }) => {
            Err(ReleaseFault::Unlisted { refusal, row })
        }
        Err(ManifestFault::NoMemory) => Err(ReleaseFault::NoMemory),
    }
}
