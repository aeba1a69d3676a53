//! Laws of lists of events, by the definitions alone.
//!
//! The functions here do nothing. Each has a law as its contract: a caller who needs the law calls
//! it.

ghost use Rattle.std.specs.Prelude.{List, ◌≡◌, [], ◌∷◌, Some, None, true, false, codes, map};
ghost use Rattle.sha2.specs.Sha256.{sha256};
ghost use Rattle.esc_tables.specs.Reading.{reading};
ghost use Rattle.esc_manifest.specs.declared.row.MRow.{MRow};
ghost use Rattle.esc_store.specs.StoreState.{fresh};
ghost use Rattle.esc_events.specs.ArrivalValue.{ArrivalValue};
ghost use Rattle.esc_events.specs.Events.{union, comings, arrivals, manifest_then};
ghost use Rattle.esc_events.specs.Events.EventValue.{listed};
ghost use Rattle.esc_events.specs.Receipts.{distinct, reply_to};
ghost use Rattle.esc_events.specs.StateAfter.{IsStateAfter};
ghost use Rattle.esc_desk.specs.Laws.{TablesAreOfEvents, AreLeftByArrivals, RepliesStay};
ghost use Rattle.esc_desk.specs.Laws.{SameHeldSameKept, SameRowsSameTables};
ghost use Rattle.esc_desk.specs.Worked.{itself, reads_full, full_1, full_9, other_1, held_reply};
ghost use Rattle.esc_desk.specs.Worked.{unlisted_reply, listed_then, came};

use esc_chain::{chains_are_of_rows, latest_chain_at_is_one};
use esc_store::Store;
use sqlite::Alter;

/// What a new store keeps stands for its manifest alone, so a desk over a new store reflects that
/// one event.
pub fn new_store_stands_for_its_manifest()
    ensures stands_for { (m : List MRow) → IsStateAfter sha256 reading (listed m ∷ []) (fresh m) }
{}

/// What a store keeps that stands for a manifest and then arrivals, said without events: the
/// manifest's rows, the receipts of the distinct arrivals, the latest chain of the rows that any
/// arrival holds, and its tables. Premise: no two different bodies that count have the same digest.
pub fn stands_for_manifest_and_arrivals()
    ensures left { AreLeftByArrivals }
    ensures rows { (m : List MRow) (l : List ArrivalValue) → union (manifest_then m l) ≡ m }
    ensures arrivals { (m : List MRow) (l : List ArrivalValue)
        → arrivals (manifest_then m l) ≡ l }
{}

/// A store that stands for a list of events has the tables of the latest chain of the held rows, up
/// to the moment that is set. Premise: no two different bodies that count have the same digest.
pub fn tables_are_of_events()
    ensures { TablesAreOfEvents }
{}

/// A reply that was given stays as it was, whatever comes later.
pub fn replies_stay()
    ensures { RepliesStay }
{}

/// Two lists of events by which the same rows are listed in the same order, the same are held and
/// the same moment is set leave the same bodies, chain, tables and before-images, in whatever
/// order, however often and under whatever numbers the deposits came. (`same_rows_same_tables` is
/// of rows that are listed in different orders.) Premise: no two different bodies that count by the
/// two lists have the same digest.
pub fn same_held_same_kept()
    ensures { SameHeldSameKept }
{
    latest_chain_at_is_one();
}

/// Two lists of events by which the same rows are listed and held and the same moment is set leave
/// the same rows along the chain, tables and before-images, in whatever order the rows were listed,
/// and in whatever order, however often and under whatever numbers the deposits came. Premise: no
/// two different bodies that count by the two lists have the same digest.
pub fn same_rows_same_tables()
    ensures { SameRowsSameTables }
{
    chains_are_of_rows();
}

/// The definitions at some lists of arrivals: a duplicate has the first reply, the same body under
/// another number gets `A1` with `again`, and another body under the same number has a receipt of
/// its own.
pub fn worked_replies()
    ensures distinct_ones { distinct itself reads_full
        (comings (listed_then (full_1 ∷ full_1 ∷ other_1 ∷ full_1 ∷ full_9 ∷ [])))
        ≡ map came (full_1 ∷ other_1 ∷ full_9 ∷ []) }
    ensures repeated { reply_to itself reads_full
        (listed_then (full_1 ∷ other_1 ∷ full_1 ∷ [])) full_1
        ≡ Some (held_reply 1 (codes "1") false) }
    ensures again { reply_to itself reads_full (listed_then (full_1 ∷ full_9 ∷ [])) full_9
        ≡ Some (held_reply 2 (codes "9") true) }
    ensures unlisted { reply_to itself reads_full (listed_then (full_1 ∷ other_1 ∷ [])) other_1
        ≡ Some (unlisted_reply 2 (codes "1")) }
    ensures never_arrived { reply_to itself reads_full (listed_then (full_1 ∷ [])) full_9
        ≡ None }
{}

/// A store of version 1 that was migrated reflects its manifest, and its arrivals as early ones:
/// the events from which a desk over it goes on. What it stood for before is said by version 1's
/// own rules (`StoodFor`).
pub fn migrated_store_serves<S: Alter>(store: &Store<S>)
    ensures serves { (m : List MRow) (l : List ArrivalValue) (k : StoreState)
        → StoodFor sha256 reading m l k → Represents S.Store store.now k
        → StoreReflects S.Store store.now (events_before m l) }
    ensures stands_for { (m : List MRow) (l : List ArrivalValue) (k : StoreState)
        → StoodFor sha256 reading m l k → IsStateAfter sha256 reading (events_before m l) k }
{
    let _ = store;
}

ghost use Rattle.esc_store.specs.StoreState.{StoreState};
ghost use Rattle.esc_store.specs.Representation.{Represents};
ghost use Rattle.esc_events.specs.FirstVersion.{StoodFor, events_before};
ghost use Rattle.esc_desk.specs.Reflection.{StoreReflects};

/// The definitions at a store of version 1 that was migrated. An arrival with `A2` gets that reply
/// when it comes again, and its body is held then, if a row lists it by now.
pub fn worked_migration()
    ensures answered { reply_to itself reads_either migrated diff_2
        ≡ Some (lost_reply 2 (codes "2")) }
    ensures not_kept { parked_body itself reads_either migrated (codes "d2") ≡ None }
    ensures not_held { held_body itself reads_either (migrated ++ listed two_rows ∷ []) 1
        ≡ None }
    ensures again { reply_to itself reads_either amended_then_again diff_2
        ≡ Some (lost_reply 2 (codes "2")) }
    ensures held { held_body itself reads_either amended_then_again 1 ≡ Some (codes "d2") }
    ensures domains { map (tables (deposits_of reads_either
        (held_body itself reads_either amended_then_again) (0 ∷ 1 ∷ [])))
        (a_domain (codes "a") ∷ a_domain (codes "b") ∷ [])
        ≡ Some (of_domain (codes "a")) ∷ Some (of_domain (codes "b")) ∷ [] }
{}

/// The same where no row lists the body yet when it comes again: it is parked, and held once a row
/// lists it.
pub fn worked_migration_unlisted()
    ensures parked { parked_body itself reads_either (migrated ++ arrived diff_2 ∷ [])
        (codes "d2") ≡ Some (codes "d2") }
    ensures adopted { held_body itself reads_either again_then_amended 1 ≡ Some (codes "d2") }
    ensures parked_no_more { parked_body itself reads_either again_then_amended (codes "d2")
        ≡ None }
{}

ghost use Rattle.std.specs.Prelude.{◌++◌};
ghost use Rattle.esc_apply.specs.Tables.{tables};
ghost use Rattle.esc_events.specs.Events.EventValue.{arrived};
ghost use Rattle.esc_events.specs.StateAfter.{deposits_of, held_body, parked_body};
ghost use Rattle.esc_desk.specs.Worked.{a_domain, of_domain, reads_either, two_rows, diff_2};
ghost use Rattle.esc_desk.specs.Worked.{migrated, amended_then_again, again_then_amended};
ghost use Rattle.esc_desk.specs.Worked.{lost_reply};
