//! The form of the numbers of arrivals.

ghost use Rattle.std.specs.Prelude.{◌≡◌, false, IsTrue, MatchResult};
ghost use Rattle.esc_envelope.specs.Id.{is_id};

use crate::numbers::{N1, Number};
use esc_envelope::is_id;

/// The number of an arrival that a text is: 1 to 64 of `A-Z a-z 0-9 . _ -` (this project's
/// profile). `N1` if the text is none. Doesn't allocate.
pub fn number(text: &str) -> Result<Number<'_>, N1>
    ensures form { MatchResult result (λ n. (n ≡ text.now) × IsTrue (is_id text.now))
        (λ _. is_id text.now ≡ false) }
{
    if is_id(text) {
        Ok(Number::of_id(text))
    } else {
        Err(N1)
    }
}
