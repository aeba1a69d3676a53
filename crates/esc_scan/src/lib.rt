//! Reads of a store's tables without SQL: row by row, in the order of rowids or of keys.
//!
//! # What it is for
//!
//! A report reads whole tables and writes nothing. A cursor at the table's tree gives it the rows
//! one after the other, with no plan of a query and no sort. `esc_sql` knows the same tables by
//! SQL: it says what their rows are, and this crate reads them.
//!
//! # What goes in and out
//!
//! In: a store of trees of any kind (`S: Store`). Out: `esc_sql`'s rows as Rust values (`Receipt`,
//! `Listed`, `ChainStep`, `StoredObject`), or a part of a row where the rest isn't asked for
//! (`HeldIndex`, `ParkedSize`, `ObjectKind`, `ReceiptNumber`); and `read_all`, for values of the
//! caller's own. A failure is a `ScanError`: the store's, out of memory among them, or a row that
//! is none of its table.
//!
//! The objects also come in the order of their keys, a page at a time (`objects_from`): a cursor at
//! the index of keys gives entries, and each object is read by its entry's rowid. The index isn't
//! audited here: an entry with another key than its row is `Foreign`, and a caller that reads all
//! pages counts the rows.
//!
//! | Module | What it has |
//! |---|---|
//! | `cursor` | a scan of a table, one row or one value at a time |
//! | `rows` | how a row is read as a value |
//! | `version`, `listed`, `receipt`, `held` | reads of each of these tables |
//! | `step`, `object`, `parked`, `moment` | reads of each of the others |
//! | `page` | the objects of a kind from a key on, by the index of their keys |
//! | `opening` | the trees of a store's two files, without an audit of their rows |
//!
//! # An example
//!
//! Each body is read over the last one, so no more than the largest is in memory.
//!
//! ```text
//! fn longest_parked<S: Store>(alloc: Global, store: &mut S) -> Result<u64, ScanError> {
//!     let bodies = all_parked(alloc, store)?;
//!     Ok(bodies.iter().map(|body| body.size).max().unwrap_or(0))
//! }
//! ```
//!
//! # What a contract means
//!
//! - `HoldsRows trees c` of `esc_sql` says that the trees are those of version 2 with the rows of a
//!   content `c`. It is the premise of each read; `find_version` also says what version other trees
//!   have.
//! - A read has one clause, `read`: `IsScan S.Store old new Says result`. Where the call succeeds
//!   and the disk has answered truly, `Says` holds of the content and the result, and nothing but
//!   cursors has moved. In every case nothing is committed, and a crash leaves nothing new.
//! - `open_trees` gives what the files read as, whatever they hold (`AreTreesOf`): the trees of the
//!   pages that they recover to, by the tables and indexes that they list. Where the files hold a
//!   store, the trees have its rows and its index of keys (`ReadsStore`). Where they are given
//!   back, they hold what they held (`IsHeldBy`).
//! - A read of that index has one more premise, `HasKeys`: the trees have the index of some store
//!   with this content. So an entry stands for one object, and none is missing.
//! - A scan's clauses speak of the rows that its cursor has left (`left_of`): all of the tree's at
//!   the start, and at each step all but the first of those before.
#![tactic(auto)]

pub mod cursor;
pub mod held;
pub mod listed;
pub mod moment;
pub mod object;
pub mod opening;
pub mod page;
pub mod parked;
pub mod receipt;
pub mod rows;
pub mod step;
pub mod version;
