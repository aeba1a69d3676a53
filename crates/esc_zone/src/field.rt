//! Fields of rows.

ghost use Rattle.std.specs.Prelude.{◌≡◌};
ghost use Rattle.std.specs.Str.{bytes_eq};
ghost use Rattle.esc_zone.specs.Fields.{first_text, has_text, lowered, has_word, has_child_word};

use esc_tables::Row;

/// The text of a field in a row: that of its first cell, and empty where there is none.
pub(crate) fn cell<'a>(row: &'a Row, field: &str) -> &'a str
    ensures { result.now ≡ first_text field.now row.now }
{
    row.text(field).unwrap_or("")
}

/// Whether a row has a text in a field.
pub(crate) fn has_text(row: &Row, field: &str) -> bool
    ensures { result ≡ has_text field.now row.now }
{
    !cell(row, field).is_empty()
}

/// Whether two texts are the same but for the case of ASCII letters.
pub(crate) fn is_same_word(text: &str, word: &str) -> bool
    ensures { result ≡ bytes_eq (lowered text.now) (lowered word.now) }
{
    text.as_bytes().eq_ignore_ascii_case(word.as_bytes())
}

fn has_word(table: &str, field: &str, word: &str, row: &Row) -> bool
    ensures { result ≡ has_word table.now field.now word.now row.now }
{
    row.table() == table && is_same_word(cell(row, field), word)
}

/// Whether one of these rows is of this table and has this word in this field, letters of either
/// case.
pub(crate) fn has_child_word(rows: &[Row], table: &str, field: &str, word: &str) -> bool
    ensures { result ≡ has_child_word table.now field.now word.now rows.now }
{
    rows.iter().any(|row| has_word(table, field, word, row))
}
