//! Names of domains and NNDNs.

ghost use Rattle.std.specs.Prelude.{◌≡◌, IfOk, map, option_map};
ghost use Rattle.std.specs.Char.{to_ascii_lowercase};
ghost use Rattle.std.specs.Str.{bytes_eq};
ghost use Rattle.std.specs.BTreeSet as sorted;
ghost use Rattle.esc_tables.specs.KeyName.{key_cmp};
ghost use Rattle.esc_conformity.specs.Flaws.{is_doubled, is_below_tld, is_outside};

use esc_bundle::NoMemory;
use esc_envelope::Kind;
use esc_tables::Key;
use std::alloc::Global;
use std::collections::BTreeSet;

/// Whether an NNDN has the name of one of these domains.
pub(crate) fn is_doubled(
    alloc: Global,
    domains: &BTreeSet<Key>,
    key: &Key,
) -> Result<bool, NoMemory>
    ensures { IfOk result (λ b. b ≡ is_doubled (sorted.contains key_cmp domains.now) key.now) }
{
    if key.kind != Kind::Nndn {
        return Ok(false);
    }
    let domain = Key::named(alloc, Kind::Domain, key.text.as_str())?;
    Ok(domains.contains(&domain))
}

fn is_same(name: &[u8], other: &[u8]) -> bool
    ensures { result
        ≡ bytes_eq (map to_ascii_lowercase name.now) (map to_ascii_lowercase other.now) }
{
    name.eq_ignore_ascii_case(other)
}

// Whether a name has labels, a dot and a TLD, whatever its case.
fn is_below(name: &[u8], tld: &[u8]) -> bool
    ensures { result ≡ is_below_tld tld.now name.now }
{
    if name.len() <= tld.len() {
        return false;
    }
    let front = name.len() - tld.len();
    name[front - 1] == b'.' && is_same(&name[front..], tld)
}

/// Whether a domain or an NNDN is not below the TLD, if that is known.
pub(crate) fn is_outside(tld: Option<&str>, key: &Key) -> bool
    ensures { result ≡ is_outside (option_map (λ t. t.now) tld.entry) key.now }
{
    match (key.kind, tld) {
        (Kind::Domain | Kind::Nndn, Some(tld)) => {
            !is_below(key.text.as_str().as_bytes(), tld.as_bytes())
        }
        _ => false,
    }
}
