//! A manifest as its table keeps it, and back.

ghost use Rattle.std.specs.Prelude.{◌≡◌, ℕ, List, map, option_map, string_bytes, IfOk, IfErr};
ghost use Rattle.esc_envelope.specs.declared.place.DepositType.{DepositType as deposit_type};
ghost use Rattle.esc_envelope.specs.Place.{rank};
ghost use Rattle.esc_manifest.specs.declared.row.MRow.{MRow as manifest_row};
ghost use Rattle.esc_sql.specs.Entries.{listed_row};
ghost use Rattle.esc_store.specs.Faults.{IsFailed, IsFailure};
ghost use Rattle.esc_store.specs.TypedRows.{indexed_row, listed_from};

use crate::cause::{Cause, Table};
use crate::codec::small;
use crate::fault::StoreFault;
use esc_envelope::{DepositType, Header, Place};
use esc_manifest::{MRow, Manifest, from_rows};
use esc_sql::listed::Listed;
use std::alloc::Global;

const FOREIGN: StoreFault = StoreFault::Failed(Cause::ForeignRow(Table::Listed));

// The number of a type in the tables.
fn type_number(kind: DepositType) -> u32
    ensures { result ≡ rank kind }
{
    match kind {
        DepositType::Diff => 0,
        DepositType::Incr => 1,
        DepositType::Full => 2,
    }
}

// The type with this number in the tables. `S1` if there is none.
fn type_of(number: u32) -> Result<DepositType, StoreFault>
    ensures kind { IfOk result (λ k. (t : deposit_type) → number ≡ rank t → k ≡ t) }
    ensures cause { IfErr result IsFailed }
{
    match number {
        0 => Ok(DepositType::Diff),
        1 => Ok(DepositType::Incr),
        2 => Ok(DepositType::Full),
        _ => Err(FOREIGN),
    }
}

// A copy of a text, if there is one.
fn copy_of(alloc: Global, text: &Option<String>) -> Result<Option<String>, StoreFault>
    ensures text { IfOk result (λ t. option_map string_bytes t
        ≡ option_map string_bytes text.now) }
    ensures cause { IfErr result (λ fault. fault ≡ StoreFault.NoMemory) }
{
    match text {
        Some(text) => Ok(Some(String::from_str(alloc, text.as_str())?)),
        None => Ok(None),
    }
}

// A row of a manifest as its table keeps it.
fn stored_listed(alloc: Global, number: usize, row: &MRow) -> Result<Listed, StoreFault>
    ensures row { IfOk result (λ l. listed_row l ≡ indexed_row number row.now) }
    ensures cause { IfErr result IsFailure }
{
    let header = &row.header;
    Ok(Listed {
        row: small(number)?,
        id: String::from_str(alloc, header.id.as_str())?,
        kind: type_number(header.place.kind),
        watermark: header.place.watermark,
        prev: copy_of(alloc, &header.prev)?,
        resend: header.resend,
        digest: Vec::from_slice(alloc, &row.digest)?,
    })
}

// The rows of a manifest as their table keeps them.
pub(crate) fn stored_manifest(alloc: Global, rows: &[MRow]) -> Result<Vec<Listed>, StoreFault>
    ensures rows { IfOk result (λ stored. map listed_row stored.items ≡ listed_from 0 rows.now) }
    ensures cause { IfErr result IsFailure }
{
    let mut stored = Vec::new(alloc);
    for at in 0..rows.len() {
        let row = stored_listed(alloc, at, &rows[at])?;
        stored.push(row)?;
    }
    Ok(stored)
}

// The manifest of these rows. `S1` if they aren't those of an accepted one.
fn accepted(alloc: Global, rows: Vec<MRow>) -> Result<Manifest, StoreFault>
    ensures rows { IfOk result (λ manifest. manifest ≡ rows.items) }
    ensures cause { IfErr result IsFailed }
{
    match from_rows(alloc, rows) {
        Ok(manifest) => Ok(manifest),
        Err(_) => Err(FOREIGN),
    }
}

// The digest that these bytes are. `S1` if they don't have the length of a digest.
pub(crate) fn digest_of(bytes: &[u8]) -> Result<[u8; 32], StoreFault>
    ensures digest { IfOk result (λ digest. digest ≡ bytes.now) }
    ensures cause { IfErr result IsFailed }
{
    if bytes.len() != 32 {
        return Err(FOREIGN);
    }
    match bytes.split_first_chunk::<32>() {
        Some((digest, _)) => Ok(*digest),
        None => Err(FOREIGN),
    }
}

// The manifest's row that a row of the table keeps.
fn manifest_row(alloc: Global, stored: &Listed) -> Result<MRow, StoreFault>
    ensures row { IfOk result (λ row. (n : ℕ) (r : manifest_row)
        → listed_row stored.now ≡ indexed_row n r → row ≡ r) }
    ensures cause { IfErr result IsFailure }
{
    let kind = type_of(stored.kind)?;
    let digest = digest_of(stored.digest.as_slice())?;
    let id = String::from_str(alloc, stored.id.as_str())?;
    let prev = copy_of(alloc, &stored.prev)?;
    Ok(MRow {
        header: Header {
            id,
            place: Place {
                watermark: stored.watermark,
                kind,
            },
            prev,
            resend: stored.resend,
        },
        digest,
    })
}

// The manifest's rows that all rows of the table keep.
fn manifest_rows(alloc: Global, stored: &[Listed]) -> Result<Vec<MRow>, StoreFault>
    ensures rows { IfOk result (λ rows. (rs : List manifest_row)
        → map listed_row stored.now ≡ listed_from 0 rs → rows.items ≡ rs) }
    ensures cause { IfErr result IsFailure }
{
    let mut rows = Vec::new(alloc);
    for at in 0..stored.len() {
        let row = manifest_row(alloc, &stored[at])?;
        rows.push(row)?;
    }
    Ok(rows)
}

// The manifest that the table keeps.
pub(crate) fn kept_manifest(alloc: Global, stored: &[Listed]) -> Result<Manifest, StoreFault>
    ensures manifest { IfOk result (λ manifest. (rs : List manifest_row)
        → map listed_row stored.now ≡ listed_from 0 rs → manifest ≡ rs) }
    ensures cause { IfErr result IsFailure }
{
    let rows = manifest_rows(alloc, stored)?;
    accepted(alloc, rows)
}

// A manifest for the store to keep, and its rows for the table.
pub(crate) fn both_forms(
    alloc: Global,
    manifest: &Manifest,
) -> Result<(Manifest, Vec<Listed>), StoreFault>
    ensures own { IfOk result (λ forms. forms.0 ≡ manifest.now) }
    ensures rows { IfOk result (λ forms. map listed_row forms.1.items
        ≡ listed_from 0 manifest.now) }
    ensures cause { IfErr result IsFailure }
{
    let own = manifest.copy(alloc)?;
    let rows = stored_manifest(alloc, manifest.rows())?;
    Ok((own, rows))
}
