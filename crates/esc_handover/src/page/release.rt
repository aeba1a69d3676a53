//! The release: its picture, what the marks mean, and a table that says the same.

use crate::page::axis::Axis;
use crate::page::group::{Group, Grouping, groups_of};
use crate::page::part::{Cell, leaf, of_class, row, section, table};
use crate::page::picture::{LANES, lane_name, picture, shape_of, state_word, used};
use esc_acceptance::Seen;
use esc_bundle::NoMemory;
use esc_chain::{GapLine, State};
use esc_envelope::DepositType;
use esc_html::{Attribute, Html, Tag, Value};
use std::alloc::Global;

const HEADINGS: [&str; 8] = [
    "Type",
    "From",
    "To",
    "Places",
    "State",
    "Resend held",
    "Blocked by",
    "Resend awaited",
];

/// The section of the release.
pub(crate) fn release_section(alloc: Global, seen: &Seen<'_>) -> Result<Html, NoMemory> {
    let gaps = seen.gaps;
    let Some(axis) = Axis::of(gaps) else {
        let nothing = leaf(alloc, Tag::Paragraph, "No deposit is listed.");
        return Ok(section(alloc, "release", "Release", nothing));
    };
    let drawn = picture(alloc, axis, gaps, seen.moment)?;
    let rows = runs(alloc, gaps)?;
    let inside = of_class(alloc, Tag::Block, "picture", drawn)
        .add(of_class(alloc, Tag::Points, "key", key(alloc, gaps)))
        .add(table(
            alloc,
            "The listed places by type, in order: those that follow one another and are alike have one row",
            &HEADINGS,
            rows,
        ));
    Ok(section(alloc, "release", "Release", inside))
}

// ---- what the marks mean

// What is said of each state, after how many places have it.
const KEY: [(State, &str); 4] = [
    (State::Chain, " in the chain, which is the line"),
    (
        State::Standing,
        " standing: a chain ends there, and it isn't the latest",
    ),
    (State::Blocked, " blocked: what it builds on isn't held"),
    (State::Missing, " missing: not held"),
];

fn key(alloc: Global, gaps: &[GapLine]) -> Html {
    let awaited = gaps
        .iter()
        .filter(|line| line.awaited.is_some() && line.state != State::Missing)
        .count();
    let mut html = Html::new(alloc);
    for (state, words) in KEY {
        let count = gaps.iter().filter(|line| line.state == state).count();
        html = html.add(key_point(alloc, shape_of(state), count, words));
    }
    html.add(key_point(
        alloc,
        "awaited",
        awaited,
        " held, and a later resend is awaited",
    ))
}

fn key_point(alloc: Global, shape: &str, count: usize, words: &str) -> Html {
    let picture = [
        (Attribute::Hidden, Value::Text("true")),
        (Attribute::Width, Value::Number(20)),
        (Attribute::Height, Value::Number(20)),
    ];
    let mark = used(alloc, shape, Value::Number(10), 10, Html::new(alloc));
    let number = Html::new(alloc).number(count as u64);
    let inside = Html::new(alloc)
        .element(Tag::Picture, &picture, mark)
        .element(Tag::Strong, &[], number)
        .text(words);
    Html::new(alloc).element(Tag::Point, &[], inside)
}

// ---- the table

fn runs(alloc: Global, gaps: &[GapLine]) -> Result<Html, NoMemory> {
    let mut rows = Html::new(alloc);
    for kind in LANES {
        rows = rows.add(runs_of(alloc, gaps, kind)?);
    }
    Ok(rows)
}

fn runs_of(alloc: Global, gaps: &[GapLine], kind: DepositType) -> Result<Html, NoMemory> {
    let mut rows = Html::new(alloc);
    let groups = groups_of(alloc, gaps, Grouping::Runs(kind))?;
    for group in &groups {
        rows = rows.add(run(alloc, group)?);
    }
    Ok(rows)
}

fn run(alloc: Global, group: &Group<'_>) -> Result<Html, NoMemory> {
    let first = group.first;
    let blocker = match &first.blocker {
        Some(blocker) => format!(in alloc; "{blocker}")?,
        None => String::new(alloc),
    };
    let cells = [
        Cell::Moment(first.place.watermark),
        Cell::Moment(group.last),
        Cell::Number(group.count),
        Cell::Word(state_word(first.state)),
        Cell::resend(first.used),
        Cell::Word(blocker.as_str()),
        Cell::resend(first.awaited),
    ];
    Ok(row(alloc, Cell::Word(lane_name(first.place.kind)), &cells))
}
