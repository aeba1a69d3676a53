//! Laws of the definitions.

ghost use Rattle.std.specs.Prelude.{◌≡◌, ◌≤◌, ℕ, List, All, length, map};
ghost use Rattle.csv.specs.Writing.{read_back};
ghost use Rattle.esc_csv.specs.Lines.{Line, text_of};
ghost use Rattle.esc_csv.specs.Records.{records_of, IsUnmarked};

/// Lines that were written are read back as they were, except that a line without fields is read as
/// one empty field. A text that begins with a byte order mark is excepted, since reading drops the
/// mark.
pub fn written_lines_read_back()
    ensures { (lines : List Line) → IsUnmarked (text_of lines)
        → records_of (text_of lines) ≡ map read_back lines }
{}

/// No field of a text's records is longer than the text.
pub fn fields_are_no_longer_than_the_text()
    ensures { (text : List ℕ)
        → All (λ r. All (λ f. length f ≤ length text) r) (records_of text) }
{}
