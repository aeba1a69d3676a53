//! How many objects there are of each kind.

ghost use Rattle.std.specs.Prelude.{◌≡◌, IfOk, IfErr};
ghost use Rattle.esc_store.specs.Faults.{IsFailure};
ghost use Rattle.esc_store.specs.Decoded.{times, tallies, count_for, counted};

use crate::codec::object::kind_number;
use crate::fault::StoreFault;
use esc_envelope::Kind;
use std::alloc::Global;
use std::collections::BTreeMap;

// How many objects there are of each kind, as a store remembers it.
#[derive(Clone, Copy)]
pub(crate) struct KindCounts {
    registrar: u64,
    contact: u64,
    host: u64,
    domain: u64,
    idn: u64,
    nndn: u64,
}

impl KindCounts {
    // How many there are of a kind.
    fn of(self, kind: Kind) -> u64
        ensures { result ≡ count_for self kind }
    {
        match kind {
            Kind::Registrar => self.registrar,
            Kind::Contact => self.contact,
            Kind::Host => self.host,
            Kind::Domain => self.domain,
            Kind::Idn => self.idn,
            Kind::Nndn => self.nndn,
        }
    }

    // The kinds in their order, each with how many there are of it.
    pub(crate) fn by_kind(self, alloc: Global) -> Result<BTreeMap<Kind, u64>, StoreFault>
        ensures counts { IfOk result (λ counts. counts.entries ≡ counted self) }
        ensures cause { IfErr result IsFailure }
    {
        let mut counts = BTreeMap::new(alloc);
        for kind in Kind::ALL {
            counts.insert(kind, self.of(kind))?;
        }
        Ok(counts)
    }
}

// How often the number of a kind occurs among these.
fn count_of(kinds: &[u32], kind: Kind) -> u64
    ensures { result ≡ times kind kinds.now }
{
    let number = kind_number(kind);
    kinds.iter().filter(|it| **it == number).count() as u64
}

// How often the number of each kind occurs among these.
pub(crate) fn counts_of(kinds: &[u32]) -> KindCounts
    ensures { counted result ≡ tallies kinds.now }
{
    KindCounts {
        registrar: count_of(kinds, Kind::Registrar),
        contact: count_of(kinds, Kind::Contact),
        host: count_of(kinds, Kind::Host),
        domain: count_of(kinds, Kind::Domain),
        idn: count_of(kinds, Kind::Idn),
        nndn: count_of(kinds, Kind::Nndn),
    }
}
