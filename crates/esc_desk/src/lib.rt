//! The desk that takes in the deposits of a registry's data escrow, in whatever order and however
//! often they arrive, and keeps the registry's tables.
//!
//! A manifest lists the deposits that there are, each with the SHA-256 of its body
//! (`esc_manifest`); it may come in parts. Bodies arrive under numbers that their sender gives: a
//! body may come late, twice, never, before the row that lists it, or be another one than was
//! listed. Each arrival gets a verdict by the rows that are listed then; its reply has the verdict
//! and the number of a receipt:
//!
//! - `A1`: it is the deposit of the row with its digest, which is held from now on.
//! - `A3`: a row has its digest, but no deposit reads from the body, by one of the refusals U1 to
//!   U11 of `esc_tables`.
//! - `A4`: it is another deposit than the row with its digest says, by id, place, resend or, of a
//!   Differential, previous id.
//! - `A5`: no row has the body's digest. The body is parked until an amendment lists it.
//!
//! A store of version 1 gave `A2` in place of `A5`, and didn't keep the body. Such receipts stay in
//! a store that was migrated (`Store::migrate`); no new receipt has `A2`.
//!
//! Two arrivals are *duplicates* (`alike` in the definitions) if their numbers are the same and the
//! digests of their bodies are. A duplicate of an earlier arrival gets the first one's reply, and
//! changes nothing, unless that reply is `A2`: then its body is taken in as that of a new arrival
//! would be, if it isn't there yet, and no receipt is added. Any other arrival adds a receipt. If
//! it is the deposit of a row that has no body yet, its body is stored too, and the tables are
//! moved from the latest chain of the rows held before (`esc_chain`) to the latest one of those
//! held now (`esc_apply`), both up to the moment that is set, if one is.
//!
//! What goes in is a [`Store`](esc_store::Store), then events: arrivals, further manifests, and the
//! moment as of which the registry is to be rebuilt. One by one they go to [`Desk::arrive`],
//! [`Desk::amend`] and [`Desk::as_of`], or, of whatever kind, to [`Desk::take`]. A list of them
//! goes to [`Desk::run_events`], which takes one after another, and one of arrivals alone to
//! [`Desk::run`]. What comes out are replies, counts of added rows, the work of each move, and what
//! is read: [`Reads::status`], [`Reads::receipts`], [`Reads::manifest`], [`Reads::held`],
//! [`Reads::parked`], [`Reads::moment`], [`Reads::chain`], [`Reads::body_of`], [`Reads::end`] and
//! [`Desk::writes`]. A [`Walk`] gives the objects of the tables one at a time.
//!
//! What writes nothing needs no desk. A reader of a store's trees
//! ([`StoreReader`](esc_store::StoreReader)), without SQL, implements [`Reads`] as a desk over that
//! store does, so that a report is written once. A reader also implements [`Lookup`], which finds
//! an object of the tables by its key, with its position among all. All keys are in memory then
//! ([`KeyIndex`]), no object is, and a look-up reads one.
//!
//! # Example
//!
//! ```text
//! // `store` was made of the first manifest by `Store::create`, or opened again by `Store::open`.
//! let mut desk = Desk::open(store);
//! let events = [
//!     Event::Arrival(Arrival { number: number("n1")?, body }),
//!     Event::Amend(text),          // a second part of the manifest
//!     Event::AsOf(Some(moment)),   // nanoseconds since 1970-01-01T00:00:00Z
//! ];
//! for outcome in &desk.run_events(alloc, &events)? {
//!     match outcome {
//!         EventOutcome::Arrived(Outcome::Done(reply)) => ..  // reply.receipt, reply.verdict
//!         EventOutcome::Amended(Ok(added)) => ..             // how many rows are new
//!         EventOutcome::Moved(Ok(())) => ..
//!         _ => ..                                            // refused, and nothing has changed
//!     }
//! }
//! let place = desk.start_walk(alloc, None)?;
//! let mut walk = Walk::new(&mut desk, place);                // the objects, in the order of keys
//!
//! let index = reader.index(alloc)?;                          // of a `StoreReader`
//! let found = reader.find(alloc, &index, &key)?;             // `Some((position, object))`
//! ```
//!
//! # What is promised
//!
//! For every list of accepted manifests, arrivals and moments, in any order among each other, with
//! repeats, losses and reorderings, the tables hold for each object what the last deposit that
//! mentions it says on the latest unbroken chain, up to the moment set last, of the listed deposits
//! that arrived, each at its highest arrived revision; and arrivals alike in number and body get
//! one receipt and the first one's reply. This is the contract of [`Desk::run_events`], read with
//! [`tables_are_of_events`].
//!
//! The contracts speak of lists of events (`EventValue`, `esc_events`): a manifest was taken in, an
//! arrival was answered, a moment was set or taken back, or an *early* arrival was answered, one
//! that a store of version 1 took in. A store *reflects* a list of events (`StoreReflects`) if it
//! holds the rows that are listed, the receipts that the arrivals leave, the body of each held row,
//! the bodies that no row lists, the moment, the rows of the latest chain, and that chain's tables
//! with their before-images (`IsStateAfter`). A store that was just made reflects its manifest
//! alone ([`new_store_stands_for_its_manifest`]), and one of version 1 that was migrated its
//! manifest and its arrivals as early ones ([`migrated_store_serves`]); what it means to reflect a
//! manifest and then arrivals is said without events by [`stands_for_manifest_and_arrivals`]. A
//! desk reflects what its store does, if what it remembers of the held rows and the chain is true
//! (`DeskReflects`).
//!
//! Most clauses begin with a word of `specs/Calls.antt`, which says of which events they speak.
//! `OkForDeskEvents` is "if the store is honest after the call, and the call succeeded, then for
//! every list of events that the desk reflected before it": a desk that reflected a list reflects,
//! after an arrival that was answered, that list with the arrival. `IsUnchangedDesk` says that a
//! call changed nothing. What one event changes is one change of the store, whole or not at all
//! (`IsWhole`): after an `Err` the desk reflects the list as it was. So an arrival that was refused
//! by `S1` (the store failed), `S2` (out of memory), `S4` (there are 1,000,000,000 receipts) or `S5`
//! (1,024 bodies are parked) is as one that never came, and runs compose, whatever came before them
//! and however they were cut.
//!
//! What is read has one contract, that of [`Reads`]: what a store reflects (`reflects`), and what a
//! read leaves as it was (`follows`), are members of the trait, which a desk and a reader give. For
//! a desk the first is `StoreReflects`, and the second `IsUnchangedDesk`; for a reader they are
//! `ReaderReflects` and `IsUnwrittenReader` (`specs/Readers.antt`), and after an `Err` nothing is
//! said of what later reads of it return.
//!
//! What was answered is kept through a crash. An event is *in doubt* once it was refused by `S1` or
//! `S2`, until another changes a table: a crash may leave it taken in. The clauses `left` of
//! [`Desk::open`] and `crash` of [`Desk::arrive`], [`Desk::amend`], [`Desk::as_of`],
//! [`Desk::take`], [`Desk::run_events`] and [`Desk::run`] say that whatever a crash leaves is a
//! store of the events so far, or of them and one of those in doubt (`DeskLeaves`), and none is in
//! doubt in a store that was just made or opened. `esc_recovery` follows it to the next open.
//!
//! Each clause on a store has the premise that the store was honest, which is that the disk gave
//! back what was written to it. What a store is said to keep holds while its connection is open; a
//! call of the disk that fails may close it. The definitions go by digests: what is said of the
//! bodies that are held and parked, and so of chains, tables and works, is said where no two
//! different bodies that count have the same digest (`WhereApart`): all bodies that came, but those
//! that a store of version 1 lost. What is said of replies, listed rows and the moment holds
//! without that.
//!
//! # How an event is taken in
//!
//! Each event goes one way. It is *decided*, by reads alone: what it comes to, by what the store
//! keeps (`Decision`). A decision has an *edit*, a value that says what is to change (`Edit`): one
//! more receipt, the rows of a union, a body that is held or parked, a moment, the plan of the
//! chain's move. What the store keeps then is said by the definition `edited`
//! (`specs/Edits.antt`). The edit is *committed*: one transaction makes all of it, or nothing is
//! changed (`commit`). `Desk::make` does so for every event, and then remembers what is known of
//! the rows; an edit that changes nothing is not committed.
//!
//! An arrival is decided by `Desk::answer_arrival`: a duplicate of an earlier one has that one's
//! reply, and an empty edit unless the reply is `A2`; a new one is judged, and gets its receipt and
//! its reply (`receive`); what either makes of its body is found by `decide_arrival`. An amendment
//! is decided by `decide_union`, a moment by `decide_moment`.
//!
//! A further kind of event, once `EventValue` and its books are defined in `esc_events`, needs
//!
//! - where it changes what no other event does, a field of `Edit`, its step in `books_edited`, and
//!   a function in `src/changes.rt` that makes it, with the clause `IsChangePart`;
//! - a function that decides it, with the clauses `same` (it only reads), `sound` (`IsSound`),
//!   `decided` (`IsDecided`) and `cause`;
//! - one lemma for that: the edited books are those with the event, as `IsMove` says, for
//!   `decided_moved` of `proofs/Deciding.antt`, or as `IsStateAfter` does, for `decided_still`;
//! - a call of [`Desk`] that decides and makes it, and its variants of [`Event`] and
//!   [`EventOutcome`].
//!
//! What a commit changes, what a crash leaves, what is counted and what a failure leaves is proved
//! by `commit` and `Desk::make`, and stays as it is.
//!
//! # Cost
//!
//! A duplicate of an earlier arrival costs a SHA-256 and a look-up, unless that one's reply is
//! `A2`. The body of any other arrival is parsed once, if a row lists it. Where the last such
//! arrival, answered or lost, had the very same body, of 64 KiB at most, and was the deposit of a
//! row that was held already, its deposit is remembered, and the bodies are compared in place of
//! that. Of the new chain's steps only the bodies past the front that both chains have in common
//! are parsed again, one at a time, so a move needs as much memory as its longest deposit and that
//! of the arrival. A transaction is begun only for an event that changes something, and none for
//! one that is refused by `S5`. The latest chain is made anew from all held rows, except where the
//! row of an arrival comes after all of them, builds on the chain's end and isn't later than the
//! moment: then the chain stays, with that row at its end.
//!
//! Each `held` and `status` asks the store which rows are held; so do a desk's
//! first event that may change the store, and the next one after such an event failed. Receipts
//! with `A1` say so. A row that has a body, and that no such receipt names, lists the digest of a
//! receipt with `A2` or `A5`: its body is read, once, however many receipts have that digest.
//!
//! [`Reads::end`] reads the body of the chain's last step, and parses its envelope alone, no row.
//!
//! A [`Walk`] holds a page of 256 objects at most, and reads each page by a look-up in the index of
//! keys. One by a reader first reads the kind of each object, to count them: that index isn't
//! audited then, and if it has fewer or more objects, the walk doesn't end but is refused (`S1`).
//! While a walk exists it borrows the desk or the reader, so nothing arrives in between.
//!
//! A [`KeyIndex`] takes 56 bytes for a key, and an allocation beside them only where the key's text
//! has more than 24 bytes.
#![tactic(auto)]

mod amendment;
mod answering;
mod arrival;
mod assessment;
mod caching;
mod changes;
mod decision;
mod delivery;
mod desk;
mod desk_reads;
mod edit;
mod event;
mod intake;
mod judging;
mod laws;
mod lookup;
mod moment;
mod moves;
mod pages;
mod parking;
mod plan;
mod reader;
mod reads;
mod receipt;
mod receiving;
mod reread;
mod running;
mod status;
mod walk;

pub use amendment::AmendFault;
pub use arrival::Arrival;
pub use desk::Desk;
pub use esc_events::ParkedBody;
pub use esc_store::{Cause, N1, Number, Reply, StoreFault, Verdict, number};
pub use event::{Event, EventOutcome, Outcome};
pub use laws::{
    migrated_store_serves, new_store_stands_for_its_manifest, replies_stay, same_held_same_kept,
    same_rows_same_tables, stands_for_manifest_and_arrivals, tables_are_of_events,
    worked_migration, worked_migration_unlisted, worked_replies,
};
pub use lookup::{KeyIndex, Lookup};
pub use pages::Pages;
pub use reads::Reads;
pub use status::{End, Status};
pub use walk::Walk;
