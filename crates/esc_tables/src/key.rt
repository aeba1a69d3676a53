//! Keys of objects.

ghost use Rattle.std.specs.Prelude.{◌≡◌, IfOk};
ghost use Rattle.std.proofs.Common.{rules};
ghost use Rattle.std.specs.Cmp.{partial_order_from_own_ties};
ghost use Rattle.std.specs.Cmp.Rules.{comparing};
ghost use Rattle.std.specs.Ordering.{as_partial_cmp};
ghost use Rattle.esc_tables.specs.KeyName.{key_cmp, key_eq};
ghost use Rattle.esc_tables.specs.TableRow.{is_dns, key_named};

use esc_bundle::NoMemory;
use esc_envelope::Kind;
use std::alloc::Global;
use std::cmp::Ordering;
use std::marker::Model;

/// The key of an object: its kind and its name. Keys are ordered by kind and then by bytes.
#[derive(Debug, Drop)]
pub struct Key {
    pub kind: Kind,
    /// The text of the key field, 1 to 255 bytes; of a domain or a host with ASCII letters in lower
    /// case.
    pub text: String,
}

impl Model for Key {
    ghost use Rattle.std.specs.Prelude.{string_bytes};
    ghost use Rattle.esc_tables.specs.KeyName.{KeyName};

    ghost Value = { KeyName };

    ghost view = { λ k. record { kind = k.kind; text = string_bytes k.text } };
}

// Whether keys of a kind are names of the DNS, in which ASCII letters of either case are the same.
fn is_dns(kind: Kind) -> bool
    ensures { result ≡ is_dns kind }
{
    match kind {
        Kind::Host | Kind::Domain => true,
        Kind::Registrar | Kind::Contact | Kind::Idn | Kind::Nndn => false,
    }
}

impl Key {
    /// The key with this kind and name: of a host or a domain with ASCII letters in lower case.
    /// `NoMemory` out of memory.
    pub fn named(alloc: Global, kind: Kind, name: &str) -> Result<Key, NoMemory>
        ensures { IfOk result (λ key. key ≡ key_named kind name.now) }
    {
        let mut text = String::from_str(alloc, name)?;
        if is_dns(kind) {
            text.make_ascii_lowercase();
        }
        Ok(Key { kind, text })
    }

    /// An equal key. `NoMemory` out of memory.
    pub fn copy(&self, alloc: Global) -> Result<Key, NoMemory>
        ensures { IfOk result (λ k. k ≡ self.now) }
    {
        Ok(Key {
            kind: self.kind,
            text: String::from_str(alloc, self.text.as_str())?,
        })
    }
}

impl PartialEq for Key {
    ghost eq = { key_eq };

    ghost laws = { Prim.search (comparing, rules) };

    fn eq(&self, other: &Key) -> bool {
        self.cmp(other) == Ordering::Equal
    }
}

impl Eq for Key {
    ghost laws = { Prim.search (comparing, rules) };
}

impl PartialOrd for Key {
    ghost partial_cmp = { as_partial_cmp key_cmp };

    ghost laws = { partial_order_from_own_ties (Prim.search (comparing, rules))
        (Prim.search (comparing, rules)) };

    fn partial_cmp(&self, other: &Key) -> Option<Ordering> {
        Some(self.cmp(other))
    }
}

impl Ord for Key {
    ghost cmp = { key_cmp };

    ghost total = { Prim.search (comparing, rules) };

    ghost matches_partial_cmp = { Prim.search (comparing, rules) };

    ghost matches_eq = { Prim.search (comparing, rules) };

    fn cmp(&self, other: &Key) -> Ordering {
        self.kind.cmp(&other.kind).then(self.text.cmp(&other.text))
    }
}
