//! A registry of objects, moved from one chain of deposits to another.
//!
//! A deposit *mentions* the keys of its contents and, if it isn't a Full, those of its deletes. It
//! *says* of such a key the object of its contents, or that there is none: deletes come first, then
//! contents (RFC 8909, section 2). The *tables* of a chain give each key what the last deposit that
//! mentions it says.
//!
//! What goes in is a [`Registry`], which holds the tables of a chain with its *before-images* (for
//! each step what was, before it, at the keys that it mentions), and the deposits of another chain.
//! What comes out is the registry with the tables and before-images of that other chain, and the
//! [`Work`] that it took.
//!
//! ```text
//! let work = move_chain(alloc, &mut registry, &old, &new, &deposits)?;
//! // registry holds the tables of `new`; work.writes is what that cost
//! ```
//!
//! - [`common_front`]: how many steps two chains have in common at their beginning, by place and
//!   resend.
//! - [`apply_step`]: one deposit more. It notes the before-image of each key that the deposit
//!   mentions and makes one write for each.
//! - [`undo_step`]: the last deposit taken back, by one write for each of its before-images.
//! - [`move_chain`]: the steps past the common front are taken back, the last first, and the new
//!   ones applied. Where nothing is common, all is cleared at once, which is no write. The contents
//!   of a step are put by one call, `Registry::put_all`; of a first step it is told that no key has
//!   an object, so that it need look nothing up ([`Keys`]).
//! - [`take_back`], [`apply_next`], [`work_of`]: the parts of a move, for a caller that reads the
//!   deposits one at a time.
//! - [`MemRegistry`]: a registry in memory.
//! - [`Objects`]: objects one at a time, for a report that need not keep all of them.
//! - [`MapObjects`]: those of a map in memory.
//! - [`read_deposits_mention_few`]: a law, that a deposit which was read from a body mentions at
//!   most 100,000 keys.
//! - [`tables_are_listed`]: a law, that the tables of a chain have a listing by key.
//!
//! The contracts speak of any [`Registry`], by what it *holds*: a relation between it and a content
//! with its before-images. A registry over a disk can promise this only as long as the disk gives
//! back what was written to it, so each clause on the content has the premise that the registry
//! `is_honest` after the call. Whatever a call returns, the registry `follows` from what it was:
//! that carries what no call of a registry breaks (that nothing was committed, for instance). After
//! an `Err` nothing is said of the content.
#![tactic(auto)]

mod apply;
mod front;
mod laws;
mod map;
mod memory;
mod moves;
mod objects;
mod registry;
mod undo;

pub use apply::{apply_next, apply_step};
pub use front::{Step, common_front};
pub use laws::{read_deposits_mention_few, tables_are_listed};
pub use map::MapObjects;
pub use memory::MemRegistry;
pub use moves::{Work, move_chain, take_back, work_of};
pub use objects::Objects;
pub use registry::{Keys, Registry};
pub use undo::undo_step;
