//! Reports over objects that come one at a time.

ghost use Rattle.std.specs.Prelude.{◌≡◌};
ghost use Rattle.esc_check.specs.declared.stream.StreamFault.TheVariants.{NoMemory as no_memory};

use esc_bundle::NoMemory;

/// Why a report over objects that come one at a time was not made.
#[derive(Clone, Copy, Debug, PartialEq, Eq, Drop)]
pub enum StreamFault<E> {
    /// The source of the objects failed, and returned this.
    Source(E),
    /// Out of memory.
    NoMemory,
}

impl<E> From<NoMemory> for StreamFault<E> {
    ghost from_gives = { λ _ e. e ≡ no_memory };

    fn from(_error: NoMemory) -> StreamFault<E> {
        StreamFault::NoMemory
    }
}
