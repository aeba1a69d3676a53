//! What an arrival comes to, of whose body this was found: with a receipt, if it is new, or with
//! none, if it comes again.

ghost use Rattle.std.specs.Prelude.{◌≡◌, ◌⊎◌, ℕ, List, Ok, None, IfOk, IfErr, OnOk};
ghost use Rattle.esc_tables.specs.Reading.{reading};
ghost use Rattle.esc_store.specs.Faults.{IsFailure};
ghost use Rattle.esc_store.specs.StoreState.{StoreState};
ghost use Rattle.esc_store.specs.Representation.{Represents, IsHonest, IsAsBefore};
ghost use Rattle.esc_events.specs.declared.assessment.Assessment.TheVariants.{Unlisted, Holding};
ghost use Rattle.esc_events.specs.declared.parking.Parking.TheVariants.{Crowded};
ghost use Rattle.esc_events.specs.ArrivalValue.{an_arrival};
ghost use Rattle.esc_events.specs.Events.{EventValue};
ghost use Rattle.esc_events.specs.Parks.{IsParking};
ghost use Rattle.esc_desk.specs.Causes.{HasRoomFor, IsEditFault, IsPlaceFault};
ghost use Rattle.esc_desk.specs.Decisions.{IsSound, IsArriving, IsDecidedArrival};

use crate::assessment::Assessed;
use crate::decision::Decision;
use crate::delivery::Content;
use crate::edit::{Edit, Storing};
use crate::parking::parking_of;
use crate::plan::plan_arrived;
use crate::reread::Reread;
use esc_apply::read_deposits_mention_few;
use esc_chain::latest_chain_at_rows_are_held;
use esc_events::{Assessment, Cache, Parking};
use esc_store::{MOST_RECEIPTS, Receipt, Store, StoreFault, insert_row};
use esc_tables::Deposit;
use sqlite::Alter;
use std::alloc::Global;

/// What is noted of an arrival: its receipt, if it is new, and what is known of the rows, with the
/// one that the receipt tells.
#[derive(Drop)]
pub(crate) struct Noted<'n> {
    pub(crate) receipt: Option<Receipt<'n>>,
    pub(crate) cache: Cache,
}

// The deposit of a row, and the body that it was read from.
#[derive(Drop)]
struct RowDeposit<'b> {
    row: usize,
    body: &'b [u8],
    deposit: Deposit,
    ghost read: { reading body.now ≡ Ok deposit },
}

/// What an arrival comes to, of whose body this was found. Its deposit becomes `last`, where the
/// row had a body before.
pub(crate) fn decide_arrival<'n, 'b, S: Alter>(
    store: &mut Store<S>,
    alloc: Global,
    noted: Noted<'n>,
    assessed: Assessed<'b>,
    last: &mut Option<Reread>,
) -> Result<Decision<'n, 'b>, StoreFault>
    ensures same { IsAsBefore S.Store store.old store.new }
    ensures sound { IfOk result (IsSound store.new.manifest) }
    ensures receipt { IfOk result (λ d. d.edit.receipt ≡ noted.entry.receipt) }
    ensures decided { IsHonest S.Store store.new
        → (e : List EventValue) (n : List ℕ) (k : StoreState)
        → Represents S.Store store.old k
        → IsArriving e (an_arrival n assessed.entry.content.body.now) k
        assessed.entry.found noted.entry.cache noted.entry.receipt
        → IfOk result
        (IsDecidedArrival e (an_arrival n assessed.entry.content.body.now) k assessed.entry.found) }
    ensures place { IsHonest S.Store store.new → (k : StoreState) → Represents S.Store store.old k
        → assessed.entry.found ≡ Unlisted
        → OnOk result (IsParking k.parked assessed.entry.content.digest Crowded → ⊥) }
    ensures cause { IfErr result (IsPlaceFault S.Store noted.entry.receipt store.old store.new
        assessed.entry.found assessed.entry.content.digest) }
{
    let Assessed { content, found } = assessed;
    match found {
        Assessment::Unlisted => decide_unlisted(store, alloc, noted, content),
        Assessment::Unreadable(..) | Assessment::Differing(_) => {
            Ok(Decision::still(noted.receipt, Some(noted.cache), Storing::Nothing))
        }
        Assessment::Holding(row, deposit) => {
            let body = content.body;
            decide_held(store, alloc, noted, RowDeposit { row, body, deposit }, last)
        }
    }
}

// What an arrival comes to whose body no row lists.
fn decide_unlisted<'n, 'b, S: Alter>(
    store: &mut Store<S>,
    alloc: Global,
    noted: Noted<'n>,
    content: Content<'b>,
) -> Result<Decision<'n, 'b>, StoreFault>
    ensures same { IsAsBefore S.Store store.old store.new }
    ensures sound { IfOk result (IsSound store.new.manifest) }
    ensures receipt { IfOk result (λ d. d.edit.receipt ≡ noted.entry.receipt) }
    ensures decided { IsHonest S.Store store.new
        → (e : List EventValue) (n : List ℕ) (k : StoreState)
        → Represents S.Store store.old k
        → IsArriving e (an_arrival n content.entry.body.now) k
        Unlisted noted.entry.cache noted.entry.receipt
        → IfOk result (IsDecidedArrival e (an_arrival n content.entry.body.now) k Unlisted) }
    ensures place { IsHonest S.Store store.new → (k : StoreState) → Represents S.Store store.old k
        → OnOk result (IsParking k.parked content.entry.digest Crowded → ⊥) }
    ensures cause { IfErr result (IsPlaceFault S.Store noted.entry.receipt store.old store.new
        Unlisted content.entry.digest) }
{
    let Noted { receipt, cache } = noted;
    let Content { digest, body } = content;
    match parking_of(store, alloc, &digest)? {
        Parking::Needless => Ok(Decision::still(receipt, Some(cache), Storing::Nothing)),
        Parking::Free => Ok(Decision::still(receipt, Some(cache), Storing::Park(digest, body))),
        Parking::Crowded => Err(crowded_fault(store, &receipt)),
    }
}

// Why a body can't be parked, since 1,024 others are: where there is no room for the receipt
// either, it is `S4`.
fn crowded_fault<S: Alter>(store: &mut Store<S>, receipt: &Option<Receipt<'_>>) -> StoreFault
    ensures same { IsAsBefore S.Store store.old store.new }
    ensures cause { ((result ≡ StoreFault.NoPlace) × (IsHonest S.Store store.new → (k : StoreState)
        → Represents S.Store store.old k → HasRoomFor k receipt.now))
        ⊎ IsEditFault S.Store receipt.now store.old store.new result }
{
    match receipt {
        Some(_) => match store.receipt_count() {
            Ok(count) if count < u64::from(MOST_RECEIPTS) => StoreFault::NoPlace,
            Ok(_) => StoreFault::NoRoom,
            Err(fault) => fault,
        },
        None => StoreFault::NoPlace,
    }
}

// What an arrival comes to that is the deposit of a row.
fn decide_held<'n, 'b, S: Alter>(
    store: &mut Store<S>,
    alloc: Global,
    noted: Noted<'n>,
    listed: RowDeposit<'b>,
    last: &mut Option<Reread>,
) -> Result<Decision<'n, 'b>, StoreFault>
    ensures same { IsAsBefore S.Store store.old store.new }
    ensures sound { IfOk result (IsSound store.new.manifest) }
    ensures receipt { IfOk result (λ d. d.edit.receipt ≡ noted.entry.receipt) }
    ensures decided { IsHonest S.Store store.new
        → (e : List EventValue) (n : List ℕ) (k : StoreState)
        → Represents S.Store store.old k
        → IsArriving e (an_arrival n listed.entry.body.now) k
        (Holding listed.entry.row listed.entry.deposit) noted.entry.cache noted.entry.receipt
        → IfOk result (IsDecidedArrival e (an_arrival n listed.entry.body.now) k
        (Holding listed.entry.row listed.entry.deposit)) }
    ensures cause { IfErr result IsFailure }
{
    if noted.cache.held_rows.contains(&listed.row) {
        *last = Reread::of(alloc, listed.body, listed.deposit);
        return Ok(Decision::still(noted.receipt, Some(noted.cache), Storing::Nothing));
    }
    decide_late(store, alloc, noted, listed)
}

// What an arrival comes to that is the deposit of a row that has no body yet.
fn decide_late<'n, 'b, S: Alter>(
    store: &mut Store<S>,
    alloc: Global,
    noted: Noted<'n>,
    listed: RowDeposit<'b>,
) -> Result<Decision<'n, 'b>, StoreFault>
    ensures same { IsAsBefore S.Store store.old store.new }
    ensures sound { IfOk result (IsSound store.new.manifest) }
    ensures receipt { IfOk result (λ d. d.edit.receipt ≡ noted.entry.receipt) }
    ensures decided { IsHonest S.Store store.new
        → (e : List EventValue) (n : List ℕ) (k : StoreState)
        → Represents S.Store store.old k
        → IsArriving e (an_arrival n listed.entry.body.now) k
        (Holding listed.entry.row listed.entry.deposit) noted.entry.cache noted.entry.receipt
        → k.bodies listed.entry.row ≡ None
        → IfOk result (IsDecidedArrival e (an_arrival n listed.entry.body.now) k
        (Holding listed.entry.row listed.entry.deposit)) }
    ensures cause { IfErr result IsFailure }
{
    latest_chain_at_rows_are_held();
    read_deposits_mention_few();
    let Noted { receipt, mut cache } = noted;
    let RowDeposit { row, body, deposit } = listed;
    insert_row(&mut cache.held_rows, row)?;
    let moment = store.moment()?;
    let plan = plan_arrived(alloc, store.manifest(), &mut cache, moment, row)?;
    Ok(Decision {
        edit: Edit {
            receipt,
            listing: None,
            body: Storing::Hold(row, body, deposit),
            moment: None,
            plan: Some(plan),
        },
        cache: Some(cache),
    })
}
