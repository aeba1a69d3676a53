//! What the parts of a series say of themselves.

ghost use Rattle.std.specs.Prelude.{◌≡◌};
ghost use Rattle.esc_series.specs.Series.{part_type};

use esc_envelope::DepositType;

/// The type of the part with this number, from 0, of a deposit of this type: the first part has the
/// deposit's own type, and each other one is a Differential. A second Full would clear what the
/// first brought.
pub fn part_type(deposit: DepositType, number: usize) -> DepositType
    ensures { result ≡ part_type deposit number }
{
    match number {
        0 => deposit,
        _ => DepositType::Diff,
    }
}
