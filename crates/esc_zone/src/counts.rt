//! How many things were met, and what became of them.

use crate::status::Hold;
use std::fmt;

/// What becomes of a domain.
#[derive(Clone, Copy, Debug, PartialEq, Eq)]
pub(crate) enum Outcome {
    Delegated,
    Kept(Hold),
    WithoutServers,
    NoName,
    NoServerLeft,
}

/// The counts that are printed at the end.
#[derive(Clone, Copy, Debug, Default)]
pub struct Counts {
    pub domains: u64,
    pub delegated: u64,
    pub held: u64,
    pub pending_create: u64,
    pub redemption: u64,
    pub pending_restore: u64,
    pub pending_delete: u64,
    pub inactive: u64,
    pub without_servers: u64,
    pub no_name: u64,
    pub no_server_left: u64,
    pub signers: u64,
    pub signers_of_keys: u64,
    pub mirrored: u64,
    pub mirrored_delegated: u64,
    pub orphan_hosts: u64,
    pub addresses: u64,
    pub records: u64,
}

// One more.
pub(crate) fn add(count: &mut u64) {
    *count = count.saturating_add(1);
}

impl Counts {
    /// Counts a domain.
    pub(crate) fn add_domain(&mut self, outcome: Outcome) {
        add(&mut self.domains);
        match outcome {
            Outcome::Delegated => add(&mut self.delegated),
            Outcome::Kept(hold) => self.add_kept(hold),
            Outcome::WithoutServers => add(&mut self.without_servers),
            Outcome::NoName => add(&mut self.no_name),
            Outcome::NoServerLeft => add(&mut self.no_server_left),
        }
    }

    fn add_kept(&mut self, hold: Hold) {
        match hold {
            Hold::Held => add(&mut self.held),
            Hold::PendingCreate => add(&mut self.pending_create),
            Hold::Redemption => add(&mut self.redemption),
            Hold::PendingRestore => add(&mut self.pending_restore),
            Hold::PendingDelete => add(&mut self.pending_delete),
            Hold::Inactive => add(&mut self.inactive),
        }
    }

    /// Counts a DS that a row gives, if it is made of a key.
    pub(crate) fn add_given(&mut self, is_of_key: bool) {
        if is_of_key {
            add(&mut self.signers_of_keys);
        }
    }

    // The lines of domains.
    fn fmt_domains<W: fmt::Write>(&self, f: &mut fmt::Formatter<W>) -> fmt::Result {
        writeln!(f, "domains {}", self.domains)?;
        writeln!(f, "delegated {}", self.delegated)?;
        writeln!(f, "held {}", self.held)?;
        writeln!(f, "pendingCreate {}", self.pending_create)?;
        writeln!(f, "redemptionPeriod {}", self.redemption)?;
        writeln!(f, "pendingRestore {}", self.pending_restore)?;
        writeln!(f, "pendingDelete {}", self.pending_delete)?;
        writeln!(f, "inactive {}", self.inactive)?;
        writeln!(f, "without servers {}", self.without_servers)
    }
}

impl fmt::Display for Counts {
    fn fmt<W: fmt::Write>(&self, f: &mut fmt::Formatter<W>) -> fmt::Result {
        self.fmt_domains(f)?;
        writeln!(f, "no name of the zone {}", self.no_name)?;
        writeln!(f, "no server left {}", self.no_server_left)?;
        writeln!(f, "DS {}", self.signers)?;
        writeln!(f, "DS made of keys {}", self.signers_of_keys)?;
        writeln!(f, "mirrored {}", self.mirrored)?;
        writeln!(f, "mirrored and delegated {}", self.mirrored_delegated)?;
        writeln!(f, "orphan glue hosts {}", self.orphan_hosts)?;
        writeln!(f, "addresses {}", self.addresses)?;
        writeln!(f, "records {}", self.records)
    }
}
