//! Rows of a query's result as values.

ghost use Rattle.std.specs.Prelude.{◌≡◌, IfOk};
ghost use Rattle.sqlite_value.specs.Order.{Row as StoredRow};
ghost use Rattle.esc_sql.specs.Entries.{first_of, number_value};
ghost use Rattle.esc_sql.specs.Reading.{AreRead};

use sqlite::{Error, ErrorCode, Row};
use std::alloc::Global;

/// A value that can be read from a row of a result: `is_read` relates a row to its value. A row
/// without the value's columns is an error.
pub trait FromRow: Drop {
    ghost is_read: { StoredRow → Self → Type 0 };

    fn from_row(row: &Row) -> Result<Self, Error>
        ensures { IfOk result (λ value. is_read row.now value) };
}

/// A number is read from the first column.
impl FromRow for u32 {
    ghost is_read = { λ row n. number_value n ≡ first_of row };

    fn from_row(row: &Row) -> Result<u32, Error> {
        row.get(0)
    }
}

/// Each row as a value, in order. Out of memory is an error.
pub(crate) fn read_rows<T: FromRow>(alloc: Global, rows: &[Row]) -> Result<Vec<T>, Error>
    ensures { IfOk result (λ all. AreRead T.is_read rows.now all.items) }
{
    let mut all = Vec::new(alloc);
    for at in 0..rows.len() {
        let one = T::from_row(&rows[at])?;
        if all.push(one).is_err() {
            return Err(Error::SqliteFailure(ErrorCode::OutOfMemory));
        }
    }
    Ok(all)
}
