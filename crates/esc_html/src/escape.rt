//! How a text is escaped.

ghost use Rattle.std.specs.Prelude.{◌≡◌, ◌++◌, OnOk};
ghost use Rattle.esc_html.specs.Escape.{spelled, escaped};

use esc_bundle::NoMemory;

// Adds what stands for a byte.
fn push_spelled(bytes: &mut Vec<u8>, byte: u8) -> Result<(), NoMemory>
    ensures { OnOk result (bytes.new.items ≡ bytes.old.items ++ spelled byte) }
{
    match byte {
        b'&' => bytes.extend_from_slice(b"&amp;")?,
        b'<' => bytes.extend_from_slice(b"&lt;")?,
        b'>' => bytes.extend_from_slice(b"&gt;")?,
        b'"' => bytes.extend_from_slice(b"&quot;")?,
        b'\'' => bytes.extend_from_slice(b"&#39;")?,
        _ => bytes.push(byte)?,
    }
    Ok(())
}

/// Adds a text, escaped.
pub(crate) fn push_escaped(bytes: &mut Vec<u8>, text: &[u8]) -> Result<(), NoMemory>
    ensures { OnOk result (bytes.new.items ≡ bytes.old.items ++ escaped text.now) }
{
    for byte in text {
        push_spelled(bytes, *byte)?;
    }
    Ok(())
}
