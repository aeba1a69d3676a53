//! A move from one chain to another.

use esc_apply::Step;

/// The steps of the old and of the new chain.
#[derive(Debug, Drop)]
pub struct Plan {
    pub old: Vec<Step>,
    pub new: Vec<Step>,
}
