//! Numbers of 64 bits for ROIDs.

ghost use Rattle.std.specs.Prelude.{◌≡◌};
ghost use Rattle.esc_conformity.specs.Marks.{marked, mark_of};

use esc_envelope::Kind;

/// The number that a mark begins with (FNV-1a of 64 bits).
const START: u64 = 0xcbf2_9ce4_8422_2325;

/// The number by which each byte multiplies it.
const PRIME: u64 = 0x0100_0000_01b3;

// The mark after these bytes.
fn marked(start: u64, bytes: &[u8]) -> u64
    ensures { result ≡ marked start bytes.now }
{
    let mut mark = start;
    for byte in bytes {
        mark = (mark ^ u64::from(*byte)).wrapping_mul(PRIME);
    }
    mark
}

/// The mark of a ROID of a kind.
#[tactic(auto, unfolding(crate::specs::Marks::mark_of))]
pub(crate) fn mark_of(kind: Kind, text: &str) -> u64
    ensures { result ≡ mark_of (record { kind = kind; text = text.now }) }
{
    let mark = marked(START, kind.name().as_bytes());
    marked(mark, text.as_bytes())
}
