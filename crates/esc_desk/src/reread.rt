//! Remembers the deposit that was read last, so that a body that comes again isn't parsed again.

ghost use Rattle.std.specs.Prelude.{◌≡◌, true, Ok, Err, IfOk, IfErr, IfSome};
ghost use Rattle.esc_bundle.specs.declared.refusal.Refusal.{Refusal};
ghost use Rattle.esc_tables.specs.Reading.{reading};

use esc_bundle::Fault;
use esc_tables::{Deposit, read_deposit};
use std::alloc::Global;
use std::marker::Model;

/// The longest body that is remembered, in bytes, so that a desk needs little more memory.
const LONGEST: usize = 65_536;

/// A body and the deposit that it is. Contracts see the body.
#[derive(Drop)]
pub(crate) struct Reread {
    body: Vec<u8>,
    deposit: Deposit,
}

impl Model for Reread {
    ghost use Rattle.std.specs.Prelude.{◌≡◌, List, ℕ, Ok};
    ghost use Rattle.esc_tables.specs.Reading.{reading};

    ghost Value = { List ℕ };

    ghost view = { λ r. r.body.items };

    ghost invariant = { λ r. reading r.body.items ≡ Ok r.deposit };
}

impl Reread {
    /// A body with the deposit that was read from it; `None` where the body is too long to be
    /// remembered, or there is no memory for it.
    pub(crate) fn of(alloc: Global, body: &[u8], deposit: Deposit) -> Option<Reread>
        requires { reading body.now ≡ Ok deposit }
        ensures { IfSome result (λ r. r ≡ body.now) }
    {
        if body.len() > LONGEST {
            return None;
        }
        match Vec::from_slice(alloc, body) {
            Ok(body) => Some(Reread { body, deposit }),
            Err(_) => None,
        }
    }

    // The deposit, if this is its body.
    fn deposit_of(self, body: &[u8]) -> Option<Deposit>
        ensures { IfSome result (λ d. reading body.now ≡ Ok d) }
    {
        let Reread {
            body: read,
            deposit,
        } = self;
        if is_same(&read, body) {
            Some(deposit)
        } else {
            None
        }
    }
}

fn is_same(a: &[u8], b: &[u8]) -> bool
    ensures { result ≡ true → a.now ≡ b.now }
{
    a == b
}

/// The deposit of a body, as `read_deposit` returns it. The body isn't parsed where it is that of
/// `last`.
pub(crate) fn deposit_of_body(
    alloc: Global,
    last: Option<Reread>,
    body: &[u8],
) -> Result<Deposit, Fault>
    ensures read { IfOk result (λ d. reading body.now ≡ Ok d) }
    ensures refused { IfErr result (λ e. (n : Refusal) → e ≡ Fault.Refused n
        → reading body.now ≡ Err n) }
{
    if let Some(last) = last {
        if let Some(deposit) = last.deposit_of(body) {
            return Ok(deposit);
        }
    }
    read_deposit(alloc, body)
}
