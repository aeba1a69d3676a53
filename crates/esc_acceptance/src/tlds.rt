//! The TLDs that deposits name.

ghost use Rattle.std.specs.Prelude.{◌≡◌, [], map, option_map, string_bytes, Some, OnOk};
ghost use Rattle.esc_pack.specs.NamedTlds.{body_tld};
ghost use Rattle.std.specs.List.{list_any};
ghost use Rattle.std.specs.Str.{str_eq_ignore_ascii_case};
ghost use Rattle.esc_acceptance.specs.Tlds.{only_name, with_tld};

use esc_bundle::NoMemory;
use esc_pack::tld_of_body;
use std::alloc::Global;

/// The TLDs that deposits name.
#[derive(Drop)]
pub struct Tlds {
    /// Each once, whatever its case.
    pub names: Vec<String>,
}

impl Tlds {
    /// Those of no deposits.
    pub fn new(alloc: Global) -> Tlds
        ensures { result.names.items ≡ [] }
    {
        Tlds {
            names: Vec::new(alloc),
        }
    }

    /// Adds the one that a body names, if it does.
    pub fn add(&mut self, alloc: Global, body: &[u8]) -> Result<(), NoMemory>
        ensures { OnOk result (map string_bytes self.new.names.items
            ≡ with_tld (body_tld body.now) (map string_bytes self.old.names.items)) }
    {
        match tld_of_body(alloc, body)? {
            Some(tld) => self.add_name(tld),
            None => Ok(()),
        }
    }

    /// The TLD, where there is one name alone.
    pub fn only(&self) -> Option<&str>
        ensures { option_map (λ t. t.now) result
            ≡ only_name (map string_bytes self.now.names.items) }
    {
        match self.names.as_slice() {
            [name] => Some(name.as_str()),
            _ => None,
        }
    }

    fn add_name(&mut self, tld: String) -> Result<(), NoMemory>
        ensures { OnOk result (map string_bytes self.new.names.items
            ≡ with_tld (Some (string_bytes tld)) (map string_bytes self.old.names.items)) }
    {
        if !self.has(tld.as_str()) {
            self.names.push(tld)?;
        }
        Ok(())
    }

    fn has(&self, tld: &str) -> bool
        ensures { result ≡ list_any (λ name. str_eq_ignore_ascii_case tld.now (string_bytes name))
            self.now.names.items }
    {
        self.names
            .iter()
            .any(|other| tld.eq_ignore_ascii_case(other.as_str()))
    }
}
