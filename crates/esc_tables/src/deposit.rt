//! Deposits.

use crate::key::Key;
use crate::object::Object;
use esc_envelope::{Header, Kind};
use std::collections::BTreeMap;
use std::marker::Model;

/// A deposit, as it was read from a bundle (RFC 8909, section 2, and this project's profile).
#[derive(Debug, Drop)]
pub struct Deposit {
    pub header: Header,
    /// How many objects of each kind the registry had at the watermark, for the kinds of which the
    /// deposit declares it.
    pub counts: BTreeMap<Kind, u64>,
    /// The keys of the delete rows, in the order of declarations and rows.
    pub deletes: Vec<Key>,
    /// The objects by their keys.
    pub contents: BTreeMap<Key, Object>,
    /// The number of orphans: child rows without a parent row of their kind and key.
    pub orphans: u64,
}

impl Model for Deposit {
    ghost use Rattle.esc_tables.specs.DepositValue.{DepositValue};

    ghost Value = { DepositValue };

    ghost view = { λ d. record {
      header = d.header;
      counts = d.counts.entries;
      deletes = d.deletes.items;
      contents = d.contents.entries;
      orphans = d.orphans;
    } };
}
