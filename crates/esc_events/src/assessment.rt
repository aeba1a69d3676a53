//! What is found of a body by the listed rows; its verdict follows from that.

use esc_bundle::Refusal;
use esc_tables::Deposit;

/// What is found of a body by the listed rows (this project's profile). Rows are indices from 0.
#[derive(Debug, Drop)]
pub enum Assessment {
    /// No row has the body's SHA-256: verdict `A5`, or `A2` for an early arrival.
    Unlisted,
    /// This row has the body's SHA-256, but the body is no deposit, by this refusal: verdict `A3`.
    Unreadable(usize, Refusal),
    /// This row has the body's SHA-256, but the deposit has another id, place, resend or (if it is
    /// a Differential) previous id than the row: verdict `A4`.
    Differing(usize),
    /// The body is the deposit of this row: verdict `A1`.
    Holding(usize, Deposit),
}
