//! The counts of a store, and what the end of its chain says.

ghost use Rattle.std.specs.Prelude.{◌≡◌, length, option_map, IfOk, IfErr};
ghost use Rattle.esc_apply.specs.declared.front.Step.{Step};
ghost use Rattle.esc_store.specs.Faults.{IsFailure};
ghost use Rattle.esc_desk.specs.Reads.{last, SaysOfBody};

use esc_apply::Step;
use esc_bundle::Fault;
use esc_envelope::{Envelope, Kind, Place};
use esc_store::{Cause, StoreFault};
use esc_tables::read_bundled_envelope;
use std::alloc::Global;
use std::collections::BTreeMap;

/// The counts of a store, and the end of its latest chain.
#[derive(Debug, Drop)]
pub struct Status {
    /// How many rows are listed.
    pub listed: u64,
    /// How many of them have a body.
    pub held: u64,
    /// How many receipts there are.
    pub receipts: u64,
    /// How many steps the latest chain has.
    pub chain: u64,
    /// Place and resend of the chain's last deposit, if there is a chain.
    pub end: Option<(Place, u32)>,
    /// How many objects the tables have of each of the six kinds, in the order of kinds.
    pub objects: BTreeMap<Kind, u64>,
}

/// What the last deposit of a chain says of the registry.
#[derive(Debug, Drop)]
pub struct End {
    /// Nanoseconds since 1970-01-01T00:00:00Z.
    pub watermark: i64,
    /// How many objects of a kind the registry had at the watermark, for the kinds that the deposit
    /// declares.
    pub counts: BTreeMap<Kind, u64>,
}

/// The status of a store, by the number of its listed rows and receipts, its held rows, its chain's
/// steps, and the number of its objects.
pub(crate) fn status_of(
    listed: usize,
    receipts: u64,
    held: &[usize],
    steps: &[Step],
    objects: BTreeMap<Kind, u64>,
) -> Status
    ensures listed { result.listed ≡ listed }
    ensures held { result.held ≡ length held.now }
    ensures receipts { result.receipts ≡ receipts }
    ensures chain { result.chain ≡ length steps.now }
    ensures end { result.end ≡ option_map (λ (s : Step). (s.place, s.resend)) (last steps.now) }
    ensures objects { result.objects ≡ objects }
{
    Status {
        listed: listed as u64,
        held: held.len() as u64,
        receipts,
        chain: steps.len() as u64,
        end: end_of_steps(steps),
        objects,
    }
}

// The row of the last step, if any.
pub(crate) fn last_row(steps: &[Step]) -> Option<usize>
    ensures { result ≡ option_map (λ (s : Step). s.row) (last steps.now) }
{
    let last = steps.last().copied()?;
    Some(last.row)
}

// Place and resend of the last step, if any.
fn end_of_steps(steps: &[Step]) -> Option<(Place, u32)>
    ensures { result ≡ option_map (λ (s : Step). (s.place, s.resend)) (last steps.now) }
{
    let last = steps.last().copied()?;
    Some((last.place, last.resend))
}

// What the deposit of a body says of the registry. Its envelope alone is parsed. `S1` where there
// is no body.
pub(crate) fn end_in(alloc: Global, body: Option<Vec<u8>>) -> Result<End, StoreFault>
    ensures says { IfOk result (SaysOfBody (option_map (λ b. b.items) body)) }
    ensures cause { IfErr result IsFailure }
{
    let Some(body) = body else {
        return Err(StoreFault::Failed(Cause::NoBody));
    };
    match read_bundled_envelope(alloc, &body) {
        Ok(envelope) => Ok(end_of(envelope)),
        Err(Fault::Refused(_)) => Err(StoreFault::Failed(Cause::UnreadBody)),
        Err(Fault::NoMemory) => Err(StoreFault::NoMemory),
    }
}

// What an envelope says of the registry.
fn end_of(envelope: Envelope) -> End
    ensures watermark { result.watermark ≡ envelope.header.place.watermark }
    ensures counts { result.counts.entries ≡ envelope.counts }
{
    let Envelope { header, counts, .. } = envelope;
    let place = header.place;
    End {
        watermark: place.watermark,
        counts,
    }
}
