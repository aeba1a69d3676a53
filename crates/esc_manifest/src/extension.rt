//! The union of two manifests.

ghost use Rattle.std.specs.Prelude.{◌≡◌, ◌≤◌, ◌<◌, ◌&&◌, ℕ, length, not, position, IfOk, IfSome};
ghost use Rattle.std.specs.Prelude.{Ok, Err, option_map, string_bytes};
ghost use Rattle.esc_manifest.specs.declared.fault.ManifestFault.TheVariants as ManifestFault;
ghost use Rattle.esc_manifest.specs.Accepted.{IsAccepted};
ghost use Rattle.esc_manifest.specs.LeastFault.{IsLeastOfUnion};
ghost use Rattle.esc_manifest.specs.Extension.{same_prev, same_row, is_listed, extended, is_blamed};
ghost use Rattle.esc_manifest.specs.Extension.{blamed, extension};

use crate::fault::ManifestFault;
use crate::manifest::Manifest;
use crate::refusal::ManifestRefusal;
use crate::row::{MRow, copy_rows};
use crate::rows::{is_blamed, is_same_place, rows_fault};
use esc_bundle::NoMemory;
use std::alloc::Global;

fn is_same_prev(a: &Option<String>, b: &Option<String>) -> bool
    ensures { result ≡ same_prev (option_map string_bytes a.now) (option_map string_bytes b.now) }
{
    match (a, b) {
        (None, None) => true,
        (Some(a), Some(b)) => a.as_str() == b.as_str(),
        _ => false,
    }
}

// Whether two rows are equal in all six values.
fn is_same_row(other: &MRow, row: &MRow) -> bool
    ensures { result ≡ same_row other.now row.now }
{
    other.header.id.as_str() == row.header.id.as_str()
        && is_same_place(other.header.place, row.header.place)
        && is_same_prev(&other.header.prev, &row.header.prev)
        && other.header.resend == row.header.resend
        && other.digest == row.digest
}

fn is_listed(rows: &[MRow], row: &MRow) -> bool
    ensures { result ≡ is_listed rows.now row.now }
{
    rows.iter().any(|q| is_same_row(q, row))
}

// The rows, and after them those of `more` that aren't listed yet.
fn union_of(alloc: Global, rows: &[MRow], more: &[MRow]) -> Result<Vec<MRow>, NoMemory>
    ensures { IfOk result (λ union. union.items ≡ extended rows.now more.now) }
{
    let mut union = copy_rows(alloc, rows)?;
    for row in more {
        if is_listed(rows, row) {
            continue;
        }
        union.push(row.copy(alloc)?)?;
    }
    Ok(union)
}

fn first_blamed(refusal: ManifestRefusal, rows: &[MRow], more: &[MRow]) -> Option<usize>
    ensures first { result ≡ position
        (λ r. not (is_listed rows.now r) && is_blamed refusal rows.now r)
        more.now }
    ensures within { IfSome result (λ r. r < length more.now) }
{
    more.iter().position(|row| !is_listed(rows, row) && is_blamed(refusal, rows, row))
}

// The row of `more` that a refusal is reported at, from 1; 0 is the whole.
fn blamed(refusal: ManifestRefusal, rows: &[MRow], more: &[MRow]) -> u32
    requires few { length more.now ≤ 4096 }
    ensures blamed { result ≡ blamed refusal rows.now more.now }
    ensures within { result ≤ 4096 }
{
    match first_blamed(refusal, rows, more) {
        Some(row) => row as u32 + 1,
        None => 0,
    }
}

impl Manifest {
    // The union of two manifests, or its fault.
    #[tactic(auto, unfolding(crate::specs::Extension::extension))]
    fn union_with(&self, alloc: Global, more: &Manifest) -> Result<Manifest, ManifestFault>
        ensures accepted { IfOk result (λ m. extension self.now more.now ≡ Ok m) }
        ensures union { IfOk result (λ m. m ≡ extended self.now more.now) }
        ensures within { (refusal : ManifestRefusal) (row : ℕ) →
            result ≡ Err (ManifestFault.Refused refusal row)
            → row ≤ 4096 }
        ensures refused { (refusal : ManifestRefusal) (row : ℕ) →
            result ≡ Err (ManifestFault.Refused refusal row) →
            extension self.now more.now ≡ Err (refusal, row) }
        ensures both { IsAccepted self.now × IsAccepted more.now }
    {
        let rows = self.rows();
        let added = more.rows();
        let union = union_of(alloc, rows, added)?;
        match rows_fault(alloc, union.as_slice()) {
            None => Ok(Manifest::of_accepted(union)),
            Some((refusal, _)) => {
                let row = blamed(refusal, rows, added);
                Err(ManifestFault::Refused { refusal, row })
            }
        }
    }

    /// The union of two manifests: the rows of this one, and after them, in their order, the rows
    /// of `more` that aren't equal to one of them in all six values.
    ///
    /// # Errors
    ///
    /// `Refused` with the least of M1 (more than 4,096 rows, at row 0) and M10 to M13 that the
    /// union has. Its row is one of `more`, counted from 1: the first that isn't listed yet and
    /// repeats or contradicts a row of this manifest. For M12 that is the first that is a faulty
    /// Differential, or whose id a faulty Differential of this manifest names. `NoMemory` out of
    /// memory.
    pub fn extend(&self, alloc: Global, more: &Manifest) -> Result<Manifest, ManifestFault>
        ensures accepted { IfOk result (λ m. extension self.now more.now ≡ Ok m) }
        ensures union { IfOk result (λ m. m ≡ extended self.now more.now) }
        ensures refused { (refusal : ManifestRefusal) (row : ℕ) →
            result ≡ Err (ManifestFault.Refused refusal row) →
            extension self.now more.now ≡ Err (refusal, row) }
        ensures least { (refusal : ManifestRefusal) (row : ℕ) →
            result ≡ Err (ManifestFault.Refused refusal row) →
            IsLeastOfUnion self.now more.now refusal row }
        ensures row { (refusal : ManifestRefusal) (row : ℕ) →
            result ≡ Err (ManifestFault.Refused refusal row) → row ≤ 4096 }
    {
        self.union_with(alloc, more)
    }
}
