//! What breaks each of the rules.

ghost use Rattle.std.specs.Prelude.{◌≡◌, [], ◌++◌, OnOk, option_map};
ghost use Rattle.std.specs.BTreeSet as sorted;
ghost use Rattle.esc_tables.specs.KeyName.{key_cmp};
ghost use Rattle.esc_conformity.specs.Examined.{is_found};
ghost use Rattle.esc_conformity.specs.Flaws.{flaw_of};
ghost use Rattle.esc_conformity.specs.Found.{keys_by};

use crate::address::has_wrong_address;
use crate::digest::has_wrong_ds;
use crate::name::{is_doubled, is_outside};
use crate::registrar::has_stranger;
use crate::required::lacks_required;
use crate::rule::Rule;
use esc_bundle::NoMemory;
use esc_tables::{Key, Object};
use std::alloc::Global;
use std::collections::BTreeSet;

/// The keys of the objects that break each rule, in order.
#[derive(Drop)]
pub struct Flaws {
    pub registrars: Vec<Key>,
    pub nndns: Vec<Key>,
    pub roids: Vec<Key>,
    pub required: Vec<Key>,
    pub outside: Vec<Key>,
    pub digests: Vec<Key>,
    pub addresses: Vec<Key>,
}

/// What an object is held against.
#[derive(Clone, Copy)]
pub(crate) struct Others<'a> {
    /// The registrars that are there.
    pub(crate) registrars: &'a BTreeSet<Key>,
    /// The domains that have an NNDN's name.
    pub(crate) domains: &'a BTreeSet<Key>,
    /// The TLD, if that is known.
    pub(crate) tld: Option<&'a str>,
}

/// Adds a key, if it is that of a flaw.
pub(crate) fn add_flaw(
    alloc: Global,
    keys: &mut Vec<Key>,
    is_flaw: bool,
    key: &Key,
) -> Result<(), NoMemory>
    ensures { OnOk result (keys.new.items ≡ keys.old.items ++ flaw_of is_flaw key.now) }
{
    if is_flaw {
        keys.push(key.copy(alloc)?)?;
    }
    Ok(())
}

impl Flaws {
    /// Those of no objects.
    pub fn new(alloc: Global) -> Flaws
        ensures { (rule : Rule) → keys_by result rule ≡ [] }
    {
        Flaws {
            registrars: Vec::new(alloc),
            nndns: Vec::new(alloc),
            roids: Vec::new(alloc),
            required: Vec::new(alloc),
            outside: Vec::new(alloc),
            digests: Vec::new(alloc),
            addresses: Vec::new(alloc),
        }
    }

    /// Adds an object's key for each rule that it breaks, but for that on ROIDs.
    pub(crate) fn add(
        &mut self,
        alloc: Global,
        others: &Others<'_>,
        key: &Key,
        object: &Object,
    ) -> Result<(), NoMemory>
        ensures { OnOk result ((rule : Rule) → keys_by self.new rule ≡ keys_by self.old rule
            ++ flaw_of (is_found (sorted.contains key_cmp others.now.registrars.now)
            (sorted.contains key_cmp others.now.domains.now) rule
            (option_map (λ t. t.now) others.now.tld) (key.now, object.now)) key.now) }
    {
        let has_stranger = has_stranger(alloc, others.registrars, object)?;
        let is_doubled = is_doubled(alloc, others.domains, key)?;
        add_flaw(alloc, &mut self.registrars, has_stranger, key)?;
        add_flaw(alloc, &mut self.nndns, is_doubled, key)?;
        add_flaw(alloc, &mut self.required, lacks_required(key, object), key)?;
        add_flaw(alloc, &mut self.outside, is_outside(others.tld, key), key)?;
        add_flaw(alloc, &mut self.digests, has_wrong_ds(key, object), key)?;
        add_flaw(
            alloc,
            &mut self.addresses,
            has_wrong_address(key, object),
            key,
        )
    }

    /// The keys of the objects that break a rule, in order.
    pub fn of(&self, rule: Rule) -> &[Key]
        ensures { result.now ≡ keys_by self.now rule }
    {
        match rule {
            Rule::Registrars => &self.registrars,
            Rule::Nndns => &self.nndns,
            Rule::Roids => &self.roids,
            Rule::Required => &self.required,
            Rule::Outside => &self.outside,
            Rule::Digests => &self.digests,
            Rule::Addresses => &self.addresses,
        }
    }
}
