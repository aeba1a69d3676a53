//! What the deposits of a chain say.

ghost use Rattle.std.specs.Prelude.{◌≡◌, ◌∷◌, [], ℕ, List, Option, option_map, option_to_list};
ghost use Rattle.std.specs.Prelude.{IfOk, OnOk};
ghost use Rattle.esc_acceptance.specs.Chains.{AreFactsOf, deposits_in};

use crate::bodies::deposit_of_body;
use crate::declared::Declared;
use esc_bundle::NoMemory;
use esc_tables::Deposit;
use std::alloc::Global;

/// What the deposits of the chain say.
#[derive(Drop)]
pub struct ChainFacts {
    /// How many orphans they have; 2^64 - 1 also stands for more.
    pub orphans: u64,
    /// Whether the body of each is there, and is a deposit.
    pub are_read: bool,
    /// What their envelopes say.
    pub declared: Declared,
}

impl ChainFacts {
    /// What no deposits say.
    pub fn new(alloc: Global) -> ChainFacts
        ensures { AreFactsOf [] result }
    {
        ChainFacts {
            orphans: 0,
            are_read: true,
            declared: Declared::new(alloc),
        }
    }

    /// Adds what the body before these in the chain says, if it is there. Returns its deposit, if it
    /// is one, so that nobody has to read it again.
    pub fn add_earlier(
        &mut self,
        alloc: Global,
        body: Option<&[u8]>,
    ) -> Result<Option<Deposit>, NoMemory>
        ensures facts { OnOk result ((bodies : List (Option (List ℕ))) → AreFactsOf bodies self.old
            → AreFactsOf (option_map (λ b. b.now) body.entry ∷ bodies) self.new) }
        ensures deposit { IfOk result (λ deposit. option_to_list deposit
            ≡ deposits_in (option_map (λ b. b.now) body.entry)) }
    {
        if let Some(body) = body {
            self.declared.add_earlier(alloc, body)?;
        }
        let deposit = deposit_of_body(alloc, body)?;
        match &deposit {
            Some(deposit) => self.orphans = self.orphans.saturating_add(deposit.orphans),
            None => self.are_read = false,
        }
        Ok(deposit)
    }
}
