//! What was seen of a store.

use crate::guide::Guide;
use esc_chain::GapLine;
use esc_check::Finding;
use esc_conformity::Flaws;
use esc_envelope::{Kind, Place, Table};
use std::marker::Model;

/// What was seen of a store, for its acceptance.
#[derive(Drop)]
pub struct Seen<'a> {
    /// The TLDs that the held deposits name, each once, whatever its case.
    pub tlds: &'a [String],
    /// The moment that is set, if one is, in nanoseconds since 1970-01-01T00:00:00Z.
    pub moment: Option<i64>,
    /// What time it is, if that is known, in nanoseconds since 1970-01-01T00:00:00Z.
    pub clock: Option<i64>,
    /// The place of the chain's last deposit, if there is a chain.
    pub end: Option<Place>,
    /// Whether the chain is the latest one of the held rows, up to the moment.
    pub is_latest: bool,
    /// The line of each listed place, in the order of places, by the moment.
    pub gaps: &'a [GapLine],
    /// How many bodies are parked.
    pub parked: usize,
    /// How many arrivals have the verdict `A2` of version 1.
    pub early: u64,
    /// The findings V1 to V7 in the tables.
    pub findings: &'a [Finding],
    /// The objects that break the rules of RFC 9022, section 8.
    pub flaws: &'a Flaws,
    /// How many objects of each kind there are.
    pub objects: &'a [(Kind, u64)],
    /// How many objects of a kind the chain's last deposit declares, for the kinds that it does.
    pub counts: &'a [(Kind, u64)],
    /// The tables of contents that the chain's deposits declare.
    pub tables: &'a [Table],
    /// The fields that some object lacks, of the kind that has them.
    pub lacking: &'a [Guide],
    /// How many orphans the chain's deposits have.
    pub orphans: u64,
    /// The held rows whose body isn't there, or has another SHA-256 than listed.
    pub spoiled: &'a [usize],
    /// Whether the body of each deposit of the chain is there, and is a deposit.
    pub are_read: bool,
    /// Whether the tables are those that the bodies of the chain make.
    pub is_rebuilt: bool,
    /// What was noted in the chain's deposits when they were made, each text on one line.
    pub notes: &'a [String],
}

impl<'a> Model for Seen<'a> {
    ghost use Rattle.std.specs.Prelude.{length, map, string_bytes};
    ghost use Rattle.esc_acceptance.specs.Acceptance.{SeenValue};

    ghost Value = { SeenValue };

    ghost view = { λ s. record {
      tlds = length s.tlds.now;
      moment = s.moment;
      clock = s.clock;
      end = s.end;
      is_latest = s.is_latest;
      gaps = s.gaps.now;
      parked = s.parked;
      early = s.early;
      findings = s.findings.now;
      flaws = s.flaws.now;
      objects = s.objects.now;
      counts = s.counts.now;
      tables = s.tables.now;
      lacking = s.lacking.now;
      orphans = s.orphans;
      spoiled = length s.spoiled.now;
      are_read = s.are_read;
      is_rebuilt = s.is_rebuilt;
      notes = map string_bytes s.notes.now;
    } };
}
