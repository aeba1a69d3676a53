//! Digests of files.

ghost use Rattle.std.specs.Prelude.{◌≡◌, IfOk, IfSome};
ghost use Rattle.sha2.specs.Sha256.{sha256};

use sha2::{Digest, Sha256};
use std::io::{Error, ErrorKind, Read};

/// The SHA-256 of all that a reader gives.
pub fn digest_of<R: Read>(reader: &mut R) -> Result<[u8; 32], Error>
    ensures { IfOk result (λ digest. IfSome (R.remaining reader.old)
        (λ bytes. digest ≡ sha256 bytes)) }
{
    let mut hasher = Sha256::new();
    let mut buffer = [0; 8_192];
    for _ in 0..u64::MAX {
        let count = reader.read(&mut buffer)?;
        if count == 0 {
            return Ok(hasher.finalize());
        }
        hasher.update(&buffer[..count]);
    }
    Err(Error::from(ErrorKind::FileTooLarge))
}
