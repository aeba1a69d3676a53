//! What a page says first: whether the registry may be taken over.

use crate::page::part::{leaf, of_class, section, table, with_moment};
use esc_acceptance::{Line, Seen, is_accepted};
use esc_chain::State;
use esc_html::{Attribute, Html, Tag, Value};
use std::alloc::Global;

/// The head of a page: its title, the acceptance, the moment, and a few numbers.
pub(crate) fn page_head(alloc: Global, seen: &Seen<'_>, lines: &[Line], title: &str) -> Html {
    let class = if is_accepted(seen) {
        "verdict ok"
    } else {
        "verdict wrong"
    };
    leaf(alloc, Tag::H1, title)
        .add(of_class(alloc, Tag::Paragraph, class, verdict(alloc, lines)))
        .element(Tag::Paragraph, &[], moment(alloc, seen.moment))
        .add(of_class(alloc, Tag::Points, "facts", facts(alloc, seen)))
}

fn verdict(alloc: Global, lines: &[Line]) -> Html {
    let wrong = lines.iter().filter(|line| line.word() == "wrong").count();
    if wrong == 0 {
        return Html::new(alloc).text("The registry may be taken over: no test is wrong.");
    }
    Html::new(alloc)
        .text("The registry isn't to be taken over as it is. Tests that are wrong: ")
        .number(wrong as u64)
        .text(" of ")
        .number(lines.len() as u64)
        .text(".")
}

fn moment(alloc: Global, moment: Option<i64>) -> Html {
    match moment {
        Some(moment) => with_moment(
            alloc,
            Html::new(alloc).text("It is rebuilt as of the moment "),
            moment,
        )
        .text(": chains that end later don't count."),
        None => Html::new(alloc).text("No moment is set: the latest chain counts."),
    }
}

fn facts(alloc: Global, seen: &Seen<'_>) -> Html {
    let objects = seen
        .objects
        .iter()
        .fold(0u64, |count, of_kind| count.saturating_add(of_kind.1));
    let chain = seen
        .gaps
        .iter()
        .filter(|line| line.state == State::Chain)
        .count();
    fact(alloc, "Deposits in the chain: ", chain as u64)
        .add(fact(alloc, "Objects: ", objects))
        .add(fact(alloc, "Findings: ", seen.findings.len() as u64))
        .add(fact(alloc, "Orphans: ", seen.orphans))
        .add(fact(alloc, "Parked bodies: ", seen.parked as u64))
}

fn fact(alloc: Global, label: &str, number: u64) -> Html {
    let inside = Html::new(alloc)
        .text(label)
        .element(Tag::Strong, &[], Html::new(alloc).number(number));
    Html::new(alloc).element(Tag::Point, &[], inside)
}

/// The section of the lines of the acceptance.
pub(crate) fn tests_section(alloc: Global, lines: &[Line]) -> Html {
    let mut rows = Html::new(alloc);
    for line in lines {
        rows = rows.element(Tag::Row, &[], test_cells(alloc, line));
    }
    let inside = table(
        alloc,
        "The lines of handover check",
        &["Test", "Result", "What was found, and what to do"],
        rows,
    );
    section(alloc, "tests", "Tests", inside)
}

/// The section of the notes; nothing where there are none.
pub(crate) fn notes_section(alloc: Global, notes: &[String]) -> Html {
    if notes.is_empty() {
        return Html::new(alloc);
    }
    let mut points = Html::new(alloc);
    for note in notes {
        points = points.add(leaf(alloc, Tag::Point, note.as_str()));
    }
    let inside = Html::new(alloc).element(Tag::Points, &[], points);
    section(alloc, "notes", "Notes of the chain's deposits", inside)
}

fn test_cells(alloc: Global, line: &Line) -> Html {
    let scope = [(Attribute::Scope, Value::Text("row"))];
    let word = line.word();
    let name = Html::new(alloc).text(line.test.name());
    let mark = of_class(alloc, Tag::Span, word, Html::new(alloc).text(word));
    let detail = Html::new(alloc).text(line.detail.as_str());
    Html::new(alloc)
        .element(Tag::Heading, &scope, name)
        .element(Tag::Cell, &[], mark)
        .element(Tag::Cell, &[], detail)
}
