//! What the definitions say together.

ghost use Rattle.esc_table_files.specs.Layouts.{TablesAreReadBack};

use esc_csv::written_lines_read_back;

/// The text of a table reads as its heading and its rows. (It does nothing: a caller who needs the
/// law calls it.)
pub fn tables_are_read_back()
    ensures { TablesAreReadBack }
{
    written_lines_read_back();
}
