//! What follows from the definitions alone.

ghost use Rattle.std.specs.Prelude.{◌≡◌, ◌≤◌, List, ℕ, Ok};
ghost use Rattle.esc_tables.specs.DepositValue.{DepositValue};
ghost use Rattle.esc_tables.specs.Reading.{reading};
ghost use Rattle.esc_apply.specs.ObjectStreams.{Entry, InOrder};
ghost use Rattle.esc_apply.specs.Registry.{IsEntriesOf};
ghost use Rattle.esc_apply.specs.Tables.{mention_count, tables};

use esc_tables::read_deposits_are_small;

/// A deposit that is read from a body mentions at most 100,000 keys. There is nothing to run: a
/// caller calls it for what it ensures.
pub fn read_deposits_mention_few()
    ensures { (body : List ℕ) (d : DepositValue) → reading body ≡ Ok d
        → mention_count d ≤ 100_000 }
{
    read_deposits_are_small();
}

/// The tables of any list of deposits have a listing by key, since they have objects at finitely
/// many keys. There is nothing to run: a caller calls it for what it ensures.
pub fn tables_are_listed()
    ensures { (ds : List DepositValue) → (es : List Entry) × InOrder es
        × IsEntriesOf (tables ds) es }
{}
