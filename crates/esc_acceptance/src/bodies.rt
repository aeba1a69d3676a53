//! Bodies: whether one is what its row lists, and which deposit it is.

ghost use Rattle.std.specs.Prelude.{◌≡◌, ◌↔◌, IsTrue, IfOk, option_map, option_to_list};
ghost use Rattle.esc_acceptance.specs.Chains.{deposits_in};
ghost use Rattle.esc_acceptance.specs.Listed.{IsAsListed};

use esc_bundle::{Fault, NoMemory};
use esc_manifest::MRow;
use esc_tables::{Deposit, read_deposit};
use sha2::{Digest, Sha256};
use std::alloc::Global;

/// Whether a row is listed, its body is there, and has the SHA-256 that the row lists.
pub fn is_as_listed(row: Option<&MRow>, body: Option<&[u8]>) -> bool
    ensures { IsTrue result ↔ IsAsListed (option_map (λ r. r.now) row.entry)
        (option_map (λ b. b.now) body.entry) }
{
    match (row, body) {
        (Some(row), Some(body)) => Sha256::digest(body) == row.digest,
        _ => false,
    }
}

/// The deposit of a body, if the body is there and is one.
pub(crate) fn deposit_of_body(
    alloc: Global,
    body: Option<&[u8]>,
) -> Result<Option<Deposit>, NoMemory>
    ensures { IfOk result (λ deposit. option_to_list deposit
        ≡ deposits_in (option_map (λ b. b.now) body.entry)) }
{
    let Some(body) = body else {
        return Ok(None);
    };
    match read_deposit(alloc, body) {
        Ok(deposit) => Ok(Some(deposit)),
        Err(Fault::Refused(_)) => Ok(None),
        Err(Fault::NoMemory) => Err(NoMemory),
    }
}
