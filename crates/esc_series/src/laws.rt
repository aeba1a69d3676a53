//! What follows from the definitions alone.

ghost use Rattle.std.specs.Prelude.{◌≡◌, ◌++◌, ◌∷◌, List};
ghost use Rattle.std.specs.List.{list_any};
ghost use Rattle.esc_tables.specs.KeyName.{KeyName};
ghost use Rattle.esc_tables.specs.DepositValue.{DepositValue};
ghost use Rattle.esc_apply.specs.Registry.{ObjectsByKey};
ghost use Rattle.esc_apply.specs.Tables.{mentions, says, tables};
ghost use Rattle.esc_series.specs.Applied.{applied, applied_all};
ghost use Rattle.esc_series.specs.Series.{IsSeriesOf};

/// A series applied to any tables, one part after another, gives what its deposit would give. So it
/// does in a chain, whatever deposits stand before and after it. A part of it mentions a key
/// exactly if the deposit does, and the tables of a series alone are the objects of its deposit.
/// There is nothing to run: a caller calls it for what it ensures.
pub fn series_applies_as_its_deposit()
    ensures applied { (parts : List DepositValue) (d : DepositValue) → IsSeriesOf parts d
        → (t : ObjectsByKey) (q : KeyName) → applied_all t parts q ≡ applied t d q }
    ensures chained { (parts : List DepositValue) (d : DepositValue) → IsSeriesOf parts d
        → (before after : List DepositValue) (q : KeyName)
        → tables (before ++ parts ++ after) q ≡ tables (before ++ d ∷ after) q }
    ensures mentioned { (parts : List DepositValue) (d : DepositValue) → IsSeriesOf parts d
        → (q : KeyName) → list_any (mentions q) parts ≡ mentions q d }
    ensures alone { (parts : List DepositValue) (d : DepositValue) → IsSeriesOf parts d
        → (q : KeyName) → tables parts q ≡ says q d }
{}
