//! Why the bundles of a series aren't written.

use crate::refusal::BundleRefusal;
use esc_bundle::NoMemory;
use std::alloc::{AllocError, AllocFailed};

/// Why the bundles of a series aren't written.
#[derive(Debug, Drop)]
pub enum SeriesFault<E, P> {
    /// The source of the objects failed, and returned this.
    Source(E),
    /// A bundle couldn't be put in its place, by this.
    Place(P),
    /// There is no such series.
    Refused(BundleRefusal),
}

impl<E, P> From<BundleRefusal> for SeriesFault<E, P> {
    fn from(refusal: BundleRefusal) -> SeriesFault<E, P> {
        SeriesFault::Refused(refusal)
    }
}

impl<E, P> From<NoMemory> for SeriesFault<E, P> {
    fn from(_refused: NoMemory) -> SeriesFault<E, P> {
        SeriesFault::Refused(BundleRefusal::NoMemory)
    }
}

impl<E, P> From<AllocError> for SeriesFault<E, P> {
    fn from(_refused: AllocError) -> SeriesFault<E, P> {
        SeriesFault::Refused(BundleRefusal::NoMemory)
    }
}

impl<E, P, T: Drop> From<AllocFailed<T>> for SeriesFault<E, P> {
    fn from(_refused: AllocFailed<T>) -> SeriesFault<E, P> {
        SeriesFault::Refused(BundleRefusal::NoMemory)
    }
}
