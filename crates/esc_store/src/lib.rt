//! The desk's database: what a store keeps, and changes of it that are made whole or not at all.
//!
//! # What it is for
//!
//! A store keeps a manifest's rows, a receipt for each distinct arrival, the bodies of held rows,
//! bodies that no row lists, the moment up to which the chain goes, the chain, its tables and the
//! before-images of its steps. It keeps them in the nine tables of `esc_sql`. The desk above
//! decides what is kept; no SQL and no row of a table is seen there.
//!
//! # What goes in and out
//!
//! In: a connection over a disk of any kind (`S: Alter`), a manifest, and the parts of a change.
//! Out: replies, bodies, steps and objects as the desk's values, or an `StoreFault`: `S1` the database
//! failed, `S2` out of memory, `S3` the database is not what the call is for, `S4` no room for a
//! receipt. `S5`, no room for a parked body, is for the desk above, which counts them.
//!
//! A report that reads whole tables needs no connection: a `StoreReader` has a store's trees and
//! its manifest, and only reads. It returns objects as a store does, in pages of at most 256 of a
//! kind, which it finds by the index of keys that the database has.
//!
//! | Module | What it has |
//! |---|---|
//! | `store`, `founding`, `opening` | a store, how it is made, and how one is found |
//! | `migrating` | a store of version 1, which becomes one of this version |
//! | `reads`, `counts`, `remembered` | what a store returns of what it keeps, and what it remembers |
//! | `held` | which rows a store holds |
//! | `reader` | what a store's trees keep, without SQL: pages of objects by the index of keys too |
//! | `change`, `books` | a change: its receipt, body and chain |
//! | `registry`, `records`, `filling` | a change as a registry: objects, one or many at a time |
//! | `parked`, `moment` | parked bodies and the moment: reads, and parts of a change |
//! | `listing` | a change: the rows that an amended manifest adds |
//! | `statements` | a write or a read of the tables: one call of `esc_sql` each |
//! | `codec` | what the tables keep, as their rows and bytes, and back |
//! | `reply`, `fault` | a receipt, the reply of it and its verdict; why a call fails |
//! | `numbers`, `form` | the number of an arrival, and the texts that are one |
//!
//! # An example
//!
//! An arrival is recorded. Where any of the calls fails, the change is dropped, and the store keeps
//! what it kept.
//!
//! ```text
//! fn record<S: Alter>(store: &mut Store<S>, receipt: &Receipt<'_>) -> Result<u64, StoreFault> {
//!     let mut change = store.begin()?;
//!     let number = change.record_receipt(receipt)?;
//!     change.commit()?;
//!     Ok(number)
//! }
//! ```
//!
//! # What a contract means
//!
//! - A `StoreState` (`specs/StoreState.antt`) is what a store keeps. `Represents g store k` says
//!   that the store keeps exactly k: its database is committed, no transaction is on, and its
//!   tables hold the rows of k and nothing else. It speaks of stores whose disk gave back what was
//!   written (`IsHonest`) while their connection is open.
//! - A read leaves the store as it was (`IsAsBefore`), whatever it returns, and what it returns is
//!   a function of each k that the store stood for. A store remembers what it read of its receipts
//!   and its chain, and how many objects of each kind it has, until a change ends: that these are
//!   k's is part of `Represents`.
//! - `ReaderRepresents g reader k` (`specs/Reading.antt`) says the same of a reader: its trees are
//!   read as those of a store that keeps k, with that store's index of keys (`AreReadAs`). A read
//!   that succeeds leaves it so (`IsReadOnly`). The trees of files that hold a store that keeps k
//!   are read so (`specs/ReadingLaws.antt`).
//! - A change that was begun on a store of k has `Began`: nothing is committed. `HasMadeBooks` says
//!   what it has made of rows, receipts, bodies, parked bodies, moment and chain, and
//!   `HasMadeTables` what of tables and before-images. `commit` turns `HasMadeBooks` and
//!   `HasMadeTables` into `Represents`; at `Err`, and where a change is dropped, the store stands
//!   for what it stood for. `listed_by` are the rows that the store lists once the change is
//!   committed.
//! - What a crash leaves is in `LeavesOnly`, `LeavesOr` and `LeavesNoMore`.
//! - Each clause `cause` says which faults a call returns: `S3` comes of `create`, `open`,
//!   `migrate` and `from_trees` alone, and `S4` of `record_receipt` alone, where the store has
//!   1,000,000,000 receipts. No call of the store returns `S5`, and `park` parks any number of
//!   bodies.
#![tactic(auto, using(crate::proofs::Survival::survivals))]

mod books;
mod cause;
mod change;
mod codec;
mod counts;
mod fault;
mod filling;
mod form;
mod founding;
mod held;
mod listing;
mod migrating;
mod moment;
mod numbers;
mod obstacle;
mod opening;
mod parked;
mod reader;
mod reads;
mod records;
mod registry;
mod remembered;
mod reply;
mod statements;
mod store;

pub use books::MOST_RECEIPTS;
pub use cause::{Cause, Table};
pub use change::Change;
pub use fault::{Reason, StoreFault};
pub use form::number;
pub use held::insert_row;
pub use numbers::{N1, Number};
pub use obstacle::Obstacle;
pub use parked::{MOST_PARKED, ParkedBody};
pub use reader::StoreReader;
pub use reader::objects::TableKey;
pub use reads::MOST_ON_PAGE;
pub use reply::{Receipt, Reply, Verdict};
pub use store::Store;
