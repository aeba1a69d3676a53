//! A run of a registry's objects.

ghost use Rattle.std.specs.Prelude.{◌≡◌, ◌++◌, List, IfOk};
ghost use Rattle.esc_apply.specs.ObjectStreams.{Entry};

use crate::fault::SeriesFault;
use esc_apply::Objects;
use esc_tables::{Key, Object};
use std::alloc::Global;

/// The next objects: so many, or all that there are if these are fewer.
pub(crate) fn take_run<O: Objects, P>(
    alloc: Global,
    objects: &mut O,
    length: usize,
) -> Result<Vec<(Key, Object)>, SeriesFault<O::Error, P>>
    ensures follows { O.follows objects.old objects.new }
    ensures run { IfOk result (λ run. O.is_honest objects.new → (es : List Entry)
        → O.lists objects.old es
        → (rest : List Entry) × O.lists objects.new rest × (es ≡ run.items ++ rest)) }
{
    let mut run = Vec::new(alloc);
    for _ in 0..length {
        match objects.next() {
            Ok(Some(entry)) => run.push(entry)?,
            Ok(None) => return Ok(run),
            Err(error) => return Err(SeriesFault::Source(error)),
        }
    }
    Ok(run)
}
