//! What the definitions say together.
//!
//! The function here does nothing. It has a law as its contract: a caller who needs the law calls it.

ghost use Rattle.std.specs.Prelude.{◌≡◌, ◌<◌, ℕ, ℤ, List, [], ◌∷◌, length};
ghost use Rattle.std.specs.Map.{lookup};
ghost use Rattle.esc_tables.specs.KeyName.{KeyName, key_eq};
ghost use Rattle.esc_apply.specs.ObjectStreams.{Entry, InOrder};
ghost use Rattle.esc_apply.specs.Tables.{tables};
ghost use Rattle.esc_series.specs.Series.{IsSeriesOf};
ghost use Rattle.esc_deposit.specs.FullBundle.{full_of};
ghost use Rattle.esc_deposit.specs.RegistrySeries.{run_objects, registry_series};

use esc_series::series_applies_as_its_deposit;

/// The parts of a registry are a series of the Full of its objects, however these are cut into runs,
/// and their tables are just these objects. In one run it is that Full alone.
pub fn series_has_its_objects()
    ensures series { (id : List ℕ) (watermark : ℤ) (runs : List (List Entry)) → 0 < length runs
        → InOrder (run_objects runs)
        → IsSeriesOf (registry_series id watermark runs) (full_of id watermark (run_objects runs)) }
    ensures objects { (id : List ℕ) (watermark : ℤ) (runs : List (List Entry)) → 0 < length runs
        → InOrder (run_objects runs) → (q : KeyName)
        → tables (registry_series id watermark runs) q ≡ lookup (key_eq q) (run_objects runs) }
    ensures one { (id : List ℕ) (watermark : ℤ) (es : List Entry)
        → registry_series id watermark (es ∷ []) ≡ full_of id watermark es ∷ [] }
{
    series_applies_as_its_deposit();
}
