//! The texts of a row.

ghost use Rattle.std.specs.Prelude.{◌≡◌};
ghost use Rattle.esc_check.specs.Fields.{cell};

use esc_tables::Row;

/// The text of a field in a row, and empty where there is none.
pub(crate) fn cell<'a>(row: &'a Row, field: &str) -> &'a str
    ensures { result.now ≡ cell field.now row.now }
{
    row.text(field).unwrap_or("")
}
