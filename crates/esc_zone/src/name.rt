//! Names of the DNS that may stand in the zone.

ghost use Rattle.std.specs.Prelude.{◌≡◌, ◌↔◌, ◌+◌, ◌≤◌, ◌<◌, IfOk, IfSome, Some, None, true, length};
ghost use Rattle.std.specs.Prelude.{not, if◌then◌else◌, ◌==◌};
ghost use Rattle.std.specs.List.{list_all, list_any, slice_split, position};
ghost use Rattle.std.proofs.Common.{rules};
ghost use Rattle.std.specs.Cmp.{partial_order_from_own_ties};
ghost use Rattle.std.specs.Cmp.Rules.{comparing};
ghost use Rattle.std.specs.Ordering.{as_partial_cmp};
ghost use Rattle.std.specs.Option.{option_map};
ghost use Rattle.esc_zone.specs.Names.{is_dot, is_label_byte, is_label, are_labels, is_zone_name};
ghost use Rattle.esc_zone.specs.Names.{is_below, name_cmp, name_eq, name_above};

use esc_bundle::NoMemory;
use std::alloc::Global;
use std::cmp::Ordering;
use std::marker::Model;
use std::str;

/// The most bytes of a name, as text without the dot at its end: 255 on the wire (RFC 1035, section
/// 2.3.4).
pub const LONGEST_NAME: usize = 253;

/// The most bytes of a label (RFC 1035, section 2.3.4).
pub const LONGEST_LABEL: usize = 63;

/// A name: labels of 1 to 63 of `a-z 0-9 - _` without a hyphen at their ends, 253 bytes at most with
/// the dots between them (RFC 1035, section 2.3.1). Contracts see its bytes.
#[derive(Debug, Drop)]
pub struct Name {
    bytes: Vec<u8>,
}

impl Model for Name {
    ghost use Rattle.std.specs.Prelude.{List, ℕ, ◌≡◌, true};
    ghost use Rattle.esc_zone.specs.Names.{is_zone_name};

    ghost Value = { List ℕ };

    ghost view = { λ n. n.bytes.items };

    ghost invariant = { λ n. is_zone_name n.bytes.items ≡ true };
}

fn is_label_byte(byte: u8) -> bool
    ensures { result ≡ is_label_byte byte }
{
    matches!(byte, b'a'..=b'z' | b'0'..=b'9' | b'-' | b'_')
}

fn are_label_bytes(label: &[u8]) -> bool
    ensures { result ≡ list_all is_label_byte label.now }
{
    label.iter().all(|byte| is_label_byte(*byte))
}

/// Whether this is a label of a name.
pub(crate) fn is_label(label: &[u8]) -> bool
    ensures { result ≡ is_label label.now }
{
    !label.is_empty()
        && label.len() <= LONGEST_LABEL
        && are_label_bytes(label)
        && label[0] != b'-'
        && label[label.len() - 1] != b'-'
}

fn are_labels(text: &[u8]) -> bool
    ensures { result ≡ are_labels text.now }
{
    text.split(|byte| *byte == b'.')
        .all(|label| is_label(label))
}

/// Whether these bytes are a name.
pub(crate) fn is_name(text: &[u8]) -> bool
    ensures { result ≡ is_zone_name text.now }
{
    text.len() <= LONGEST_NAME && are_labels(text)
}

impl Name {
    /// The name of these bytes, if they are one.
    pub fn from_bytes(alloc: Global, text: &[u8]) -> Result<Option<Name>, NoMemory>
        ensures { IfOk result (λ n. n ≡ (if is_zone_name text.now then Some text.now else None)) }
    {
        if !is_name(text) {
            return Ok(None);
        }
        Ok(Some(Name {
            bytes: Vec::from_slice(alloc, text)?,
        }))
    }

    /// Its bytes.
    pub fn as_bytes(&self) -> &[u8]
        ensures value { result.now ≡ self.now }
        ensures name { is_zone_name self.now ≡ true }
    {
        &self.bytes
    }

    /// Its text.
    pub fn text(&self) -> &str {
        str::from_utf8(&self.bytes).unwrap_or("")
    }

    /// An equal name.
    pub fn copy(&self, alloc: Global) -> Result<Name, NoMemory>
        ensures { IfOk result (λ n. n ≡ self.now) }
    {
        Ok(Name {
            bytes: Vec::from_slice(alloc, &self.bytes)?,
        })
    }

    /// Whether it is at or below another name.
    pub fn is_below(&self, above: &Name) -> bool
        ensures { result ≡ is_below self.now above.now }
    {
        is_at_or_below(&self.bytes, &above.bytes)
    }

    /// The name above it: without its first label, if it has two.
    pub fn above(&self, alloc: Global) -> Result<Option<Name>, NoMemory>
        ensures name { IfOk result (λ n. n ≡ name_above self.now) }
        ensures shorter { IfOk result (λ n. IfSome n (λ it. length it < length self.now)) }
    {
        match after_dot(&self.bytes) {
            Some(rest) => Name::from_bytes(alloc, rest),
            None => Ok(None),
        }
    }

    /// Whether a label of it has an underscore.
    pub fn has_underscore(&self) -> bool
        ensures { result ≡ list_any (λ b. b == 95) self.now }
    {
        self.bytes.iter().any(|byte| *byte == b'_')
    }
}

/// What follows the first dot of a text.
pub(crate) fn after_dot(text: &[u8]) -> Option<&[u8]>
    ensures rest { option_map (λ rest. rest.now) result ≡ name_above text.now }
    ensures shorter { IfSome result (λ rest. length rest.now < length text.now) }
{
    match first_dot(text) {
        Some(at) => Some(&text[at + 1..]),
        None => None,
    }
}

/// The place of the first dot.
pub(crate) fn first_dot(text: &[u8]) -> Option<usize>
    ensures place { result ≡ position is_dot text.now }
    ensures within { IfSome result (λ at. at < length text.now) }
{
    text.iter().position(|byte| *byte == b'.')
}

fn is_at_or_below(name: &[u8], above: &[u8]) -> bool
    ensures { result ≡ is_below name.now above.now }
{
    if name.len() <= above.len() {
        return name == above;
    }
    let at = name.len() - above.len();
    name[at - 1] == b'.' && &name[at..] == above
}

impl PartialEq for Name {
    ghost eq = { name_eq };

    ghost laws = { Prim.search (comparing, rules) };

    fn eq(&self, other: &Name) -> bool {
        self.cmp(other) == Ordering::Equal
    }
}

impl Eq for Name {
    ghost laws = { Prim.search (comparing, rules) };
}

impl PartialOrd for Name {
    ghost partial_cmp = { as_partial_cmp name_cmp };

    ghost laws = { partial_order_from_own_ties (Prim.search (comparing, rules))
        (Prim.search (comparing, rules)) };

    fn partial_cmp(&self, other: &Name) -> Option<Ordering> {
        Some(self.cmp(other))
    }
}

impl Ord for Name {
    ghost cmp = { name_cmp };

    ghost total = { Prim.search (comparing, rules) };

    ghost matches_partial_cmp = { Prim.search (comparing, rules) };

    ghost matches_eq = { Prim.search (comparing, rules) };

    fn cmp(&self, other: &Name) -> Ordering {
        self.bytes.as_slice().cmp(other.bytes.as_slice())
    }
}
