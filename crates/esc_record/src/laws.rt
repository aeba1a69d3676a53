//! Laws of records.
//!
//! The functions here do nothing. Each has a law as its contract: a caller who needs the law calls
//! it.

ghost use Rattle.std.specs.Prelude.{◌≡◌, ◌++◌, ℕ, List, [], All, Some, Ok, IsSome};
ghost use Rattle.esc_tables.specs.DepositValue.{DepositValue};
ghost use Rattle.esc_tables.specs.ObjectValue.{ObjectValue};
ghost use Rattle.esc_tables.specs.Reading.{reading};
ghost use Rattle.esc_record.specs.Record.{record_of};

use esc_tables::read_objects_are_small;

/// No record is a proper beginning of another, and no two objects have the same record.
pub fn no_record_begins_another()
    ensures { (o p : ObjectValue) (bytes more : List ℕ) → record_of o ≡ Some bytes
        → record_of p ≡ Some (bytes ++ more) → (more ≡ []) × (o ≡ p) }
{}

/// Each object of a deposit that is read from a body has a record: `to_record` never returns `None`
/// for it.
pub fn read_objects_have_records()
    ensures { (body : List ℕ) (d : DepositValue) → reading body ≡ Ok d
        → All (λ e. IsSome (record_of e.1)) d.contents }
{
    read_objects_are_small();
}
