//! A release manifest as a text.

ghost use Rattle.std.specs.Prelude.{◌≡◌, ◌++◌, ◌∷◌, [], All, Some, IfOk, OnOk};
ghost use Rattle.std.specs.Prelude.{string_bytes};
ghost use Rattle.hex.specs.Hex.{encode_lower};
ghost use Rattle.esc_envelope.specs.Watermark.{IsInYears, watermark_text_of};
ghost use Rattle.esc_csv.specs.Lines.{line_text};
ghost use Rattle.esc_manifest.specs.Accepted.{IsAccepted};
ghost use Rattle.esc_manifest.specs.Fields.{moment_of, digest_of};
ghost use Rattle.esc_pack.specs.Written.{manifest_heading, resend_field, manifest_line, rows_text};
ghost use Rattle.esc_pack.specs.Written.{manifest_text, IsLegible};

use esc_bundle::NoMemory;
use esc_csv::Lines;
use esc_envelope::moment_text;
use esc_manifest::{MRow, Manifest};
use std::alloc::Global;

// A moment as text, which a manifest's reader reads as that moment.
fn moment_field(alloc: Global, watermark: i64) -> Result<String, NoMemory>
    requires { IsInYears watermark }
    ensures text { IfOk result (λ text. watermark_text_of watermark ≡ Some (string_bytes text)) }
    ensures read { IfOk result (λ text. moment_of (string_bytes text) ≡ Some watermark) }
{
    moment_text(alloc, watermark)
}

// A resend as text: nothing for 0.
fn resend_field(alloc: Global, resend: u32) -> Result<String, NoMemory>
    ensures { IfOk result (λ text. string_bytes text ≡ resend_field resend) }
{
    if resend == 0 {
        return Ok(String::new(alloc));
    }
    Ok(format!(in alloc; "{resend}")?)
}

// A digest as 64 hexadecimal digits.
fn digest_field(alloc: Global, digest: &[u8; 32]) -> Result<String, NoMemory>
    ensures text { IfOk result (λ text. string_bytes text ≡ encode_lower digest.now) }
    ensures read { OnOk result (digest_of (encode_lower digest.now) ≡ Some digest.now) }
{
    Ok(hex::encode(alloc, digest.as_slice())?)
}

fn write_heading(lines: &mut Lines) -> Result<(), NoMemory>
    ensures { OnOk result (lines.new ≡ lines.old ++ line_text manifest_heading) }
{
    lines.write(&[
        b"id",
        b"type",
        b"watermark",
        b"prevId",
        b"resend",
        b"sha256",
    ])
}

fn write_row<'x>(alloc: Global, lines: &mut Lines, row: &'x MRow) -> Result<(), NoMemory>
    requires { IsInYears row.now.header.place.watermark }
    ensures written { OnOk result (lines.new ≡ lines.old ++ line_text (manifest_line row.now)) }
    ensures legible { OnOk result (IsLegible row.now) }
{
    let kind: &'x str = row.header.place.kind.name();
    let watermark = moment_field(alloc, row.header.place.watermark)?;
    let resend = resend_field(alloc, row.header.resend)?;
    let digest = digest_field(alloc, &row.digest)?;
    lines.write(&[
        row.header.id.as_bytes(),
        kind.as_bytes(),
        watermark.as_bytes(),
        row.header.prev.as_deref().unwrap_or("").as_bytes(),
        resend.as_bytes(),
        digest.as_bytes(),
    ])
}

fn write_rows(alloc: Global, lines: &mut Lines, rows: &[MRow]) -> Result<(), NoMemory>
    requires { IsAccepted rows.now }
    ensures written { OnOk result (lines.new ≡ lines.old ++ rows_text rows.now) }
    ensures legible { OnOk result (All IsLegible rows.now) }
{
    for row in rows {
        write_row(alloc, lines, row)?;
    }
    Ok(())
}

/// The text of a manifest: its heading, and a line for each row.
pub(crate) fn manifest_text(alloc: Global, manifest: &Manifest) -> Result<Vec<u8>, NoMemory>
    ensures text { IfOk result (λ text. text.items ≡ manifest_text manifest.now) }
    ensures legible { OnOk result (All IsLegible manifest.now) }
    ensures accepted { OnOk result (IsAccepted manifest.now) }
{
    let mut lines = Lines::new(alloc);
    write_heading(&mut lines)?;
    write_rows(alloc, &mut lines, manifest.rows())?;
    lines.into_text()
}
