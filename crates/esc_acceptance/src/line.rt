//! The lines of the acceptance.

ghost use Rattle.std.specs.Prelude.{◌≡◌, map, IfOk};
ghost use Rattle.esc_acceptance.specs.Acceptance.{passes, tests};
ghost use Rattle.esc_acceptance.specs.Lines.{word, failure_word};

use crate::acceptance::{all_tests, passes};
use crate::detail::detail_of;
use crate::seen::Seen;
use crate::test::Test;
use esc_bundle::NoMemory;
use std::alloc::Global;

/// What a test found.
#[derive(Debug, Drop)]
pub struct Line {
    pub test: Test,
    pub has_passed: bool,
    /// What was found, and what to do; empty if there is nothing to be said.
    pub detail: String,
}

// The word of a test that fails.
fn failure_word(is_told_alone: bool) -> &'static str
    ensures { result.now ≡ failure_word is_told_alone }
{
    if is_told_alone { "told" } else { "wrong" }
}

impl Line {
    /// `ok`; `told` where a registry may be taken over all the same; else `wrong`.
    pub fn word(&self) -> &'static str
        ensures { result.now ≡ word self.now.test self.now.has_passed }
    {
        if self.has_passed {
            return "ok";
        }
        failure_word(self.test.is_told_alone())
    }
}

/// A line for each test, in order, by what was seen of a store.
pub fn lines_of(alloc: Global, seen: &Seen<'_>) -> Result<Vec<Line>, NoMemory>
    ensures tests { IfOk result (λ lines. map (λ l. l.test) lines.items ≡ tests) }
    ensures passed { IfOk result (λ lines. map (λ l. l.has_passed) lines.items
        ≡ map (λ t. passes t seen.now) tests) }
{
    let tests = all_tests();
    lines_of_tests(alloc, &tests, seen)
}

fn lines_of_tests(alloc: Global, tests: &[Test], seen: &Seen<'_>) -> Result<Vec<Line>, NoMemory>
    ensures tests { IfOk result (λ lines. map (λ l. l.test) lines.items ≡ tests.now) }
    ensures passed { IfOk result (λ lines. map (λ l. l.has_passed) lines.items
        ≡ map (λ t. passes t seen.now) tests.now) }
{
    let mut lines = Vec::new(alloc);
    for test in tests {
        lines.push(line_of(alloc, *test, seen)?)?;
    }
    Ok(lines)
}

fn line_of(alloc: Global, test: Test, seen: &Seen<'_>) -> Result<Line, NoMemory>
    ensures test { IfOk result (λ line. line.test ≡ test) }
    ensures passed { IfOk result (λ line. line.has_passed ≡ passes test seen.now) }
{
    let has_passed = passes(test, seen);
    let detail = detail_of(alloc, test, seen)?;
    Ok(Line {
        test,
        has_passed,
        detail,
    })
}
