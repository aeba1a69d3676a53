//! Bytes, as they are noted.

ghost use Rattle.std.specs.Prelude.{◌≡◌};
ghost use Rattle.esc_read_only.specs.Noted.{noted_items};

use http_server::Log;

/// Each of these bytes, in their order.
pub(crate) fn each(bytes: &[u8]) -> Log<u8, ()>
    ensures { noted_items result ≡ bytes.now }
{
    let mut noted = Log::new();
    for byte in bytes {
        noted = noted.and(byte, &());
    }
    noted
}
