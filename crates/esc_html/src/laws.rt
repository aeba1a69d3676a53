//! What the definitions say together.
//!
//! The function here does nothing. It has a law as its contract: a caller who needs the law calls
//! it.

ghost use Rattle.std.specs.Prelude.{◌≡◌, ℕ, List, Some};
ghost use Rattle.esc_html.specs.Escape.{escaped, read_text};

/// Each text is read back from what it is escaped as.
pub fn escaped_texts_are_read()
    ensures { (text : List ℕ) → read_text (escaped text) ≡ Some text }
{}
