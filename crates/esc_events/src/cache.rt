//! Which rows of a store are held, and its chain.

use esc_apply::Step;

/// The rows for which a store keeps a body (`held_rows`), those that a receipt with `A1` has
/// (`rows_with_receipt`), and the steps of the chain that the store keeps. The rows are indices
/// from 0, in ascending order. A row whose body was adopted from the parked ones, or was kept when
/// an arrival with `A2` came again, is in `held_rows` alone until an arrival gets `A1` for it.
#[derive(Debug, Drop)]
pub struct Cache {
    pub held_rows: Vec<usize>,
    pub rows_with_receipt: Vec<usize>,
    pub chain: Vec<Step>,
}
