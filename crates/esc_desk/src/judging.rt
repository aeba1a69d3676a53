//! Judges the bodies that are parked under the digests of new rows.

ghost use Rattle.std.specs.Prelude.{◌≡◌, ◌<◌, ◌≤◌, ◌++◌, length, IfOk, IfErr, OnOk};
ghost use Rattle.esc_store.specs.Faults.{IsFailure};
ghost use Rattle.esc_store.specs.StoreState.{StoreState};
ghost use Rattle.esc_store.specs.Representation.{Represents, IsHonest, IsAsBefore};
ghost use Rattle.esc_desk.specs.Judging.{IsJudgement, AreJudged, adopted_by, dropped_by};

use crate::assessment::compare;
use esc_bundle::{Fault, NoMemory};
use esc_events::Assessment;
use esc_manifest::MRow;
use esc_store::{Store, StoreFault};
use esc_tables::read_deposit;
use sqlite::Alter;
use std::alloc::Global;

/// What is judged of the body that is parked under the digest of a row.
#[derive(Clone, Copy, Debug)]
pub(crate) enum Judgement {
    /// There is none.
    Absent,
    /// It isn't the deposit of the row.
    Dropped,
    /// It is the deposit of the row.
    Adopted,
}

/// The new rows whose parked body is their deposit, and those whose parked body isn't; both in
/// ascending order.
#[derive(Debug, Drop)]
pub(crate) struct Judged {
    pub(crate) adopted: Vec<usize>,
    pub(crate) dropped: Vec<usize>,
}

impl Judged {
    // Appends a row to the list that it belongs to by its judgement, if any.
    fn take(&mut self, row: usize, judgement: Judgement) -> Result<(), NoMemory>
        ensures adopted { OnOk result (self.new.adopted.items
            ≡ self.old.adopted.items ++ adopted_by judgement row) }
        ensures dropped { OnOk result (self.new.dropped.items
            ≡ self.old.dropped.items ++ dropped_by judgement row) }
    {
        match judgement {
            Judgement::Absent => Ok(()),
            Judgement::Dropped => Ok(self.dropped.push(row)?),
            Judgement::Adopted => Ok(self.adopted.push(row)?),
        }
    }
}

/// Judges the bodies that are parked for the rows from this one on.
pub(crate) fn judge_rows<S: Alter>(
    store: &mut Store<S>,
    alloc: Global,
    rows: &[MRow],
    from: usize,
) -> Result<Judged, StoreFault>
    requires { from ≤ length rows.now }
    ensures same { IsAsBefore S.Store store.old store.new }
    ensures judged { IsHonest S.Store store.new → (k : StoreState) → Represents S.Store store.old k
        → IfOk result (AreJudged rows.now k.parked from) }
    ensures cause { IfErr result IsFailure }
{
    let mut judged = Judged {
        adopted: Vec::new(alloc),
        dropped: Vec::new(alloc),
    };
    for row in from..rows.len() {
        let judgement = judge(store, alloc, rows, row)?;
        judged.take(row, judgement)?;
    }
    Ok(judged)
}

// Judges the body that is parked for a row.
fn judge<S: Alter>(
    store: &mut Store<S>,
    alloc: Global,
    rows: &[MRow],
    row: usize,
) -> Result<Judgement, StoreFault>
    requires { row < length rows.now }
    ensures same { IsAsBefore S.Store store.old store.new }
    ensures judged { IsHonest S.Store store.new → (k : StoreState) → Represents S.Store store.old k
        → IfOk result (IsJudgement rows.now k.parked row) }
    ensures cause { IfErr result IsFailure }
{
    let Some(body) = store.parked_body(&rows[row].digest)? else {
        return Ok(Judgement::Absent);
    };
    match read_deposit(alloc, &body) {
        Ok(deposit) => Ok(judgement_of(compare(rows, row, deposit))),
        Err(Fault::Refused(_)) => Ok(Judgement::Dropped),
        Err(Fault::NoMemory) => Err(StoreFault::NoMemory),
    }
}

// What is judged of a body of which this was found.
fn judgement_of(assessment: Assessment) -> Judgement
    ensures { result ≡ judgement_of assessment }
{
    match assessment {
        Assessment::Holding(..) => Judgement::Adopted,
        Assessment::Unlisted | Assessment::Unreadable(..) | Assessment::Differing(_) => {
            Judgement::Dropped
        }
    }
}

ghost use Rattle.esc_desk.specs.Judging.{judgement_of};
