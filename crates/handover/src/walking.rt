//! Walks over the tables of a store.

use esc_desk::{Reads, StoreFault, Walk};
use esc_envelope::Kind;
use std::alloc::Global;

/// The objects of one kind or (`None`) of all, one at a time.
pub fn walk<R: Reads>(
    alloc: Global,
    reader: &mut R,
    kind: Option<Kind>,
) -> Result<Walk<'_, R, R::Place>, StoreFault> {
    let place = reader.start_walk(alloc, kind)?;
    Ok(Walk::new(reader, place))
}
