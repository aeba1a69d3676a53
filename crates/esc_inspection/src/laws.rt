//! What the definitions say together.
//!
//! The function here does nothing. It has a law as its contract: a caller who needs the law calls
//! it.

ghost use Rattle.esc_inspection.specs.AllClear.{StatusZeroIsAllClear};

use esc_chain::latest_chain_at_is_one;

/// Where the status of an acceptance is 0, the tables, and so the exports, are those of the
/// greatest listed deposit's chain (up to the moment that is set), of which each deposit is the
/// newest revision that is listed and has no orphan, and nothing in them is a finding. Premises:
/// the listed rows are accepted, as those of each `Manifest` are, and no two different bodies that
/// count have the same digest.
pub fn status_zero_is_all_clear()
    ensures { StatusZeroIsAllClear }
{
    latest_chain_at_is_one();
}
