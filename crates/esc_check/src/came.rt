//! How many objects of each kind came.

ghost use Rattle.std.specs.Prelude.{◌≡◌, ◌+◌, OnOk, IfOk, if◌then◌else◌};
ghost use Rattle.esc_envelope.specs.declared.kind.Kind.{Kind as kind_value};
ghost use Rattle.esc_envelope.specs.Kinds.{is_kind};
ghost use Rattle.esc_check.specs.Counted.{came_of};

use esc_bundle::NoMemory;
use esc_envelope::Kind;
use esc_tables::Key;

/// How many objects of each kind came.
#[derive(Drop)]
pub struct Came {
    pub registrars: u64,
    pub contacts: u64,
    pub hosts: u64,
    pub domains: u64,
    pub idns: u64,
    pub nndns: u64,
}

// One more. Out of memory where there are as many as a `u64` can count.
fn one_more(count: u64) -> Result<u64, NoMemory>
    ensures { IfOk result (λ more. more ≡ count + 1) }
{
    count.checked_add(1).ok_or(NoMemory)
}

impl Came {
    /// None of any kind.
    pub fn none() -> Came
        ensures { (kind : kind_value) → came_of result kind ≡ 0 }
    {
        Came {
            registrars: 0,
            contacts: 0,
            hosts: 0,
            domains: 0,
            idns: 0,
            nndns: 0,
        }
    }

    /// How many objects of a kind came.
    pub fn of(&self, kind: Kind) -> u64
        ensures { result ≡ came_of self.now kind }
    {
        match kind {
            Kind::Registrar => self.registrars,
            Kind::Contact => self.contacts,
            Kind::Host => self.hosts,
            Kind::Domain => self.domains,
            Kind::Idn => self.idns,
            Kind::Nndn => self.nndns,
        }
    }

    /// Counts the object with this key. Out of memory where there are as many as a `u64` can count.
    pub fn add(&mut self, key: &Key) -> Result<(), NoMemory>
        ensures { OnOk result ((k : kind_value) → came_of self.new k
            ≡ (if is_kind key.now.kind k then came_of self.old k + 1 else came_of self.old k)) }
    {
        match key.kind {
            Kind::Registrar => self.registrars = one_more(self.registrars)?,
            Kind::Contact => self.contacts = one_more(self.contacts)?,
            Kind::Host => self.hosts = one_more(self.hosts)?,
            Kind::Domain => self.domains = one_more(self.domains)?,
            Kind::Idn => self.idns = one_more(self.idns)?,
            Kind::Nndn => self.nndns = one_more(self.nndns)?,
        }
        Ok(())
    }
}
