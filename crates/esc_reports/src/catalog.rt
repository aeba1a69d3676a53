//! Which reports there are.

use esc_envelope::Kind;

/// A report of a store, by its desk or by a reader.
#[derive(Clone, Copy, Debug, PartialEq, Eq)]
pub enum Report {
    Status,
    Gaps,
    Links,
    Receipts,
    /// The bodies that no row lists.
    Parked,
    /// The moment that is set.
    Moment,
    /// All objects of a kind.
    Export(Kind),
}
