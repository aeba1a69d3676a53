//! What is told of an arrival for which no receipt is kept.

ghost use Rattle.std.specs.Prelude.{◌≡◌, ◌++◌, ◌∷◌, [], ℕ, List, Ok, None, IfOk, IfErr, OnOk};
ghost use Rattle.sha2.specs.Sha256.{sha256};
ghost use Rattle.esc_tables.specs.DepositValue.{DepositValue};
ghost use Rattle.esc_tables.specs.Reading.{reading};
ghost use Rattle.esc_store.specs.Faults.{IsFailure};
ghost use Rattle.esc_store.specs.StoreState.{StoreState, AreHeldBy};
ghost use Rattle.esc_store.specs.ReplyValue.{ReceiptValue, reply_alike, reply_kept};
ghost use Rattle.esc_events.specs.declared.assessment.Assessment.TheVariants.{Holding};
ghost use Rattle.esc_events.specs.ArrivalValue.{an_arrival};
ghost use Rattle.esc_events.specs.Assessment.{assessment};
ghost use Rattle.esc_events.specs.Events.{EventValue, union};
ghost use Rattle.esc_events.specs.Cache.{IsCacheOf};
ghost use Rattle.esc_events.specs.StateAfter.{IsStateAfter};
ghost use Rattle.esc_events.specs.Taking.{IsNew};
ghost use Rattle.esc_desk.specs.Receiving.{IsReceived, delivered};

use crate::assessment::{find, held_row};
use crate::delivery::Delivery;
use crate::receipt::{is_among, receipt_by, reply_of};
use crate::reread::Reread;
use esc_bundle::NoMemory;
use esc_events::{Assessment, Cache};
use esc_manifest::Manifest;
use esc_store::{Receipt, Reply, StoreFault, insert_row};
use std::alloc::Global;

/// What was found of an arrival, its receipt, the reply, without the receipt's number, and what is
/// known of the rows with the one that the receipt tells.
#[derive(Drop)]
pub(crate) struct Received<'n> {
    pub(crate) found: Assessment,
    pub(crate) receipt: Receipt<'n>,
    pub(crate) reply: Reply,
    pub(crate) cache: Cache,
}

/// What is told of an arrival for which no receipt is kept. Its body isn't read where it is that of
/// `last`.
pub(crate) fn receive<'n>(
    alloc: Global,
    manifest: &Manifest,
    delivery: Delivery<'_, 'n, '_>,
    last: Option<Reread>,
    cache: Cache,
) -> Result<Received<'n>, StoreFault>
    ensures received { (e : List EventValue) (k : StoreState) → manifest.now ≡ k.listed
        → IsStateAfter sha256 reading e k → IsCacheOf k cache
        → reply_alike (union e) 1 delivery.entry.number.now delivery.entry.content.digest
        k.receipts ≡ None
        → IfOk result (IsReceived e (delivered delivery.entry) k cache) }
    ensures reply { IfOk result (λ r. r.reply ≡ reply_kept manifest.now 0 r.receipt) }
    ensures found { IfOk result
        (λ r. r.found ≡ assessment sha256 reading manifest.now delivery.entry.content.body.now) }
    ensures digest { IfOk result (λ r. r.receipt.digest ≡ delivery.entry.content.digest) }
    ensures read { IfOk result (λ r. (q : ℕ) (d : DepositValue) → r.found ≡ Holding q d
        → reading delivery.entry.content.body.now ≡ Ok d) }
    ensures cause { IfErr result IsFailure }
{
    let Delivery { number, content } = delivery;
    let found = find(alloc, manifest, content, last)?;
    let again = is_among(&cache.rows_with_receipt, held_row(&found));
    let receipt = receipt_by(number, content.digest, &found, again);
    let reply = reply_of(alloc, manifest.rows(), &receipt)?;
    let mut cache = cache;
    tell(&mut cache, &found)?;
    Ok(Received {
        found,
        receipt,
        reply,
        cache,
    })
}

// What is known of the rows once a receipt tells of what was found.
fn tell(cache: &mut Cache, found: &Assessment) -> Result<(), NoMemory>
    ensures held { cache.new.held_rows ≡ cache.old.held_rows }
    ensures chain { cache.new.chain ≡ cache.old.chain }
    ensures told { OnOk result ((e : List EventValue) (n body : List ℕ) (k : StoreState)
        (receipt : ReceiptValue) → IsNew e (an_arrival n body) k found.now cache.old receipt
        → AreHeldBy (k.receipts ++ receipt ∷ []) cache.new.rows_with_receipt.items) }
{
    match held_row(found) {
        Some(row) => insert_row(&mut cache.rows_with_receipt, row),
        None => Ok(()),
    }
}
