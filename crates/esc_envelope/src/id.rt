//! The form of ids and of the numbers of arrivals.

ghost use Rattle.std.specs.Prelude.{◌≡◌};
ghost use Rattle.std.specs.List.{list_all};
ghost use Rattle.esc_envelope.specs.Id.{is_id_byte, is_id};

/// The most bytes of an id, and of the number of an arrival.
pub const LONGEST_ID: usize = 64;

fn is_id_byte(byte: u8) -> bool
    ensures { result ≡ is_id_byte byte }
{
    matches!(byte, b'A'..=b'Z' | b'a'..=b'z' | b'0'..=b'9' | b'.' | b'_' | b'-')
}

fn are_id_bytes(text: &[u8]) -> bool
    ensures { result ≡ list_all is_id_byte text.now }
{
    text.iter().all(|byte| is_id_byte(*byte))
}

/// Whether a text has the form of an id: 1 to 64 of `A-Z a-z 0-9 . _ -` (this project's profile).
pub fn is_id(text: &str) -> bool
    ensures { result ≡ is_id text.now }
{
    if text.is_empty() || text.len() > LONGEST_ID {
        return false;
    }
    are_id_bytes(text.as_bytes())
}
