//! What follows from the definitions of the latest chain and of the lines on gaps alone.

ghost use Rattle.esc_chain.specs.Laws.{OneLatestChainAt, ChainsAreOfRows};
ghost use Rattle.esc_chain.specs.Laws.{LatestChainsAtAreHeldRows, OneListOfLines};

/// A manifest has one latest chain, up to a moment if there is one, which depends on nothing but
/// the moment and which rows are held. There is nothing to run: a caller calls it for what it
/// ensures.
pub fn latest_chain_at_is_one()
    ensures { OneLatestChainAt }
{}

/// The order in which a manifest lists its rows plays no part: two manifests that list the same
/// rows, of which the same are held, have latest chains of the same rows, up to a moment if there
/// is one. There is nothing to run: a caller calls it for what it ensures.
pub fn chains_are_of_rows()
    ensures { ChainsAreOfRows }
{}

/// The rows of the latest chain, up to a moment if there is one, are held; each occurs once, and
/// there are at most 4,096. There is nothing to run: a caller calls it for what it ensures.
pub fn latest_chain_at_rows_are_held()
    ensures { LatestChainsAtAreHeldRows }
{}

/// A manifest has one list of gap lines, which depends on nothing but which rows are held and the
/// moment, if there is one. There is nothing to run: a caller calls it for what it ensures.
pub fn gap_lines_are_one()
    ensures { OneListOfLines }
{}
