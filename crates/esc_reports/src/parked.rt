//! The report of parked bodies.

ghost use Rattle.std.specs.Prelude.{◌≡◌, ◌∷◌, [], ◌++◌, IfOk, OnOk, string_bytes};
ghost use Rattle.std.specs.Fmt.{decimal};
ghost use Rattle.hex.specs.Hex.{encode_lower};
ghost use Rattle.esc_csv.specs.Lines.{line_text};
ghost use Rattle.esc_reports.specs.ParkedText.{parked_line, parked_lines, parked_text};

use esc_bundle::NoMemory;
use esc_csv::Lines;
use esc_events::ParkedBody;
use std::alloc::Global;

/// The report of parked bodies: the heading `sha256,bytes`, and a line for each of these: its
/// digest as 64 lower-case hexadecimal digits, and its length in bytes.
pub(crate) fn parked_text(alloc: Global, bodies: &[ParkedBody]) -> Result<Vec<u8>, NoMemory>
    ensures text { IfOk result (λ text. text.items ≡ parked_text bodies.now) }
{
    let mut lines = Lines::new(alloc);
    write_fields(&mut lines, b"sha256", b"bytes")?;
    write_bodies(alloc, &mut lines, bodies)?;
    lines.into_text()
}

fn write_bodies(alloc: Global, lines: &mut Lines, bodies: &[ParkedBody]) -> Result<(), NoMemory>
    ensures { OnOk result (lines.new ≡ lines.old ++ parked_lines bodies.now) }
{
    for body in bodies {
        write_body(alloc, lines, body)?;
    }
    Ok(())
}

fn write_body(alloc: Global, lines: &mut Lines, body: &ParkedBody) -> Result<(), NoMemory>
    ensures { OnOk result (lines.new ≡ lines.old ++ line_text (parked_line body.now)) }
{
    let digest = digest_text(alloc, &body.digest)?;
    let size = size_text(alloc, body.bytes)?;
    write_fields(lines, digest.as_bytes(), size.as_bytes())
}

fn digest_text(alloc: Global, digest: &[u8; 32]) -> Result<String, NoMemory>
    ensures { IfOk result (λ text. string_bytes text ≡ encode_lower digest.now) }
{
    Ok(hex::encode(alloc, digest.as_slice())?)
}

fn size_text(alloc: Global, size: u64) -> Result<String, NoMemory>
    ensures { IfOk result (λ text. string_bytes text ≡ decimal size) }
{
    Ok(format!(in alloc; "{size}")?)
}

fn write_fields<'x>(lines: &mut Lines, digest: &'x [u8], size: &'x [u8]) -> Result<(), NoMemory>
    ensures { OnOk result (lines.new ≡ lines.old ++ line_text (digest.now ∷ size.now ∷ [])) }
{
    lines.write(&[digest, size])
}
