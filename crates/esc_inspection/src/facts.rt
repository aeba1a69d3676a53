//! What a desk says of its store, and what the bodies in the store say.

ghost use Rattle.std.specs.Prelude.{◌≡◌};
ghost use Rattle.esc_inspection.specs.Inspected.{seen_in, early_count};

use crate::bodies::Bodies;
use crate::books::Books;
use crate::ending::Ending;
use crate::kept_chain::KeptChain;
use crate::listing::Listing;
use crate::surveying::Contents;
use crate::totals::Totals;
use esc_acceptance::{ChainFacts, Seen};
use esc_events::ParkedBody;
use esc_store::{Reply, Verdict};

/// What a desk says of its store, and what the bodies in the store say.
#[derive(Drop)]
pub struct StoreFacts {
    /// What time it is, if that is known, in nanoseconds since 1970-01-01T00:00:00Z.
    pub clock: Option<i64>,
    pub books: Books,
    pub totals: Totals,
    pub ending: Ending,
    pub listing: Listing,
    /// The bodies that no row lists.
    pub parked: Vec<ParkedBody>,
    pub kept_chain: KeptChain,
    pub bodies: Bodies,
    /// What the deposits of the chain say.
    pub chain: ChainFacts,
    /// Whether the tables are those that the bodies of the chain make.
    pub is_rebuilt: bool,
    /// What is found in the objects of the tables.
    pub contents: Contents,
}

impl StoreFacts {
    /// What the acceptance is about.
    pub fn seen(&self) -> Seen<'_>
        ensures { result ≡ seen_in self.now }
    {
        let declared = &self.chain.declared;
        Seen {
            tlds: &self.bodies.tlds.names,
            moment: self.books.moment,
            clock: self.clock,
            end: self.totals.end,
            is_latest: self.kept_chain.is_latest,
            gaps: &self.listing.gaps,
            parked: self.parked.len(),
            early: early_in(&self.books.receipts),
            findings: &self.contents.findings,
            flaws: &self.contents.flaws,
            objects: &self.totals.objects,
            counts: &self.ending.counts,
            tables: &declared.tables,
            lacking: &self.contents.lacking,
            orphans: self.chain.orphans,
            spoiled: &self.bodies.spoiled,
            are_read: self.chain.are_read,
            is_rebuilt: self.is_rebuilt,
            notes: &declared.notes,
        }
    }
}

// How many arrivals have the verdict of version 1 for a body that no row listed.
fn early_in(receipts: &[Reply]) -> u64
    ensures { result ≡ early_count receipts.now }
{
    receipts
        .iter()
        .filter(|reply| reply.verdict == Verdict::A2)
        .count() as u64
}
