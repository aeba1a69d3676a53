//! A name or a path as a refusal prints it.

use std::fmt;

/// A name or a path on one line, so that no name can look like a second refusal. If it has control
/// characters, such as a line end, these are escaped as Rust writes them (`\n`, `\u{1b}`), and so
/// are its backslashes. An empty one is printed as `(an empty path)`.
#[derive(Clone, Copy)]
pub struct OneLine<'a>(pub &'a str);

impl fmt::Display for OneLine<'_> {
    fn fmt<W: fmt::Write>(&self, f: &mut fmt::Formatter<W>) -> fmt::Result {
        if self.0.is_empty() {
            return f.write_str("(an empty path)");
        }
        if !self.0.chars().any(char::is_control) {
            return f.write_str(self.0);
        }
        for letter in self.0.chars() {
            if letter.is_control() || letter == '\\' {
                write!(f, "{}", letter.escape_default())?;
            } else {
                f.write_char(letter)?;
            }
        }
        Ok(())
    }
}
