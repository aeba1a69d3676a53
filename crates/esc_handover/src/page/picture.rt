//! The picture of a release: its places over time, a lane for each type.

ghost use Rattle.std.specs.Prelude.{◌≤◌};

use crate::page::axis::Axis;
use crate::page::group::{Group, Grouping, Look, groups_of};
use crate::page::part::with_moment;
use crate::page::way::way;
use esc_bundle::NoMemory;
use esc_chain::{GapLine, State};
use esc_envelope::DepositType;
use esc_html::{Attribute, Html, Tag, Value};
use std::alloc::Global;

/// The lanes, from above.
pub(crate) const LANES: [DepositType; 3] = [
    DepositType::Full,
    DepositType::Incr,
    DepositType::Diff,
];

/// The states, in the order in which they are drawn: what is drawn later is seen.
pub(crate) const STATES: [State; 4] = [
    State::Standing,
    State::Chain,
    State::Blocked,
    State::Missing,
];

const HEIGHT: u64 = 272;
/// Where the lines that go across the lanes begin and end.
const TOP: u64 = 12;

const BOTTOM: u64 = 248;
/// Where the moments stand below the lanes.
const FEET: u64 = 264;

/// The name of a type of deposit.
pub(crate) fn lane_name(kind: DepositType) -> &'static str {
    match kind {
        DepositType::Full => "Full",
        DepositType::Incr => "Incremental",
        DepositType::Diff => "Differential",
    }
}

/// What is said of a state.
pub(crate) fn state_word(state: State) -> &'static str {
    match state {
        State::Chain => "in the chain",
        State::Standing => "standing",
        State::Blocked => "blocked",
        State::Missing => "missing",
    }
}

/// The id of the shape that marks a state.
pub(crate) fn shape_of(state: State) -> &'static str {
    match state {
        State::Chain => "chain",
        State::Standing => "standing",
        State::Blocked => "blocked",
        State::Missing => "missing",
    }
}

/// The height at which the chain goes along a lane.
pub(crate) fn rail_of(kind: DepositType) -> u64 {
    lane_of(kind) + track_of(State::Chain)
}

// The height of what is above a lane.
fn lane_of(kind: DepositType) -> u64
    ensures { result ≤ 152 }
{
    match kind {
        DepositType::Full => 0,
        DepositType::Incr => 76,
        DepositType::Diff => 152,
    }
}

// Where a state is marked in its lane: the chain on the rail, and below it what is missing or
// blocked.
fn track_of(state: State) -> u64
    ensures { result ≤ 78 }
{
    match state {
        State::Standing => 39,
        State::Chain => 52,
        State::Missing => 65,
        State::Blocked => 78,
    }
}

/// The picture of these places, with the moment that is set.
pub(crate) fn picture(
    alloc: Global,
    axis: Axis,
    gaps: &[GapLine],
    moment: Option<i64>,
) -> Result<Html, NoMemory> {
    let inside = shapes(alloc)
        .add(lanes(alloc))
        .add(grid(alloc, axis))
        .add(moment_line(alloc, axis, moment))
        .add(way(alloc, axis, gaps))
        .add(marks(alloc, axis, gaps)?);
    let attributes = [
        (Attribute::Role, Value::Text("img")),
        (
            Attribute::Label,
            Value::Text("The listed deposits over time. The table below says the same."),
        ),
        (Attribute::Width, Value::Text("100%")),
        (Attribute::Height, Value::Number(HEIGHT)),
    ];
    Ok(Html::new(alloc).element(Tag::Picture, &attributes, inside))
}

// ---- what is drawn in any case

// The shapes of marks, around the place where they are used.
fn shapes(alloc: Global) -> Html {
    let inside = circle(alloc, "chain", "5")
        .add(circle(alloc, "standing", "4.5"))
        .add(path(alloc, "blocked", "M0 -6L6 0L0 6L-6 0Z"))
        .add(path(alloc, "missing", "M-4.5 -4.5L4.5 4.5M4.5 -4.5L-4.5 4.5"))
        .add(circle(alloc, "awaited", "8.5"));
    Html::new(alloc).element(Tag::Shapes, &[], inside)
}

fn circle(alloc: Global, id: &str, radius: &str) -> Html {
    let attributes = [
        (Attribute::Id, Value::Text(id)),
        (Attribute::Radius, Value::Text(radius)),
    ];
    Html::new(alloc).element(Tag::Circle, &attributes, Html::new(alloc))
}

fn path(alloc: Global, id: &str, drawing: &str) -> Html {
    let attributes = [
        (Attribute::Id, Value::Text(id)),
        (Attribute::Drawing, Value::Text(drawing)),
    ];
    Html::new(alloc).element(Tag::Path, &attributes, Html::new(alloc))
}

// The rail of each lane, and its name.
fn lanes(alloc: Global) -> Html {
    let mut html = Html::new(alloc);
    for kind in LANES {
        let rail = rail_of(kind);
        let name = Html::new(alloc).text(lane_name(kind));
        html = html
            .add(label(alloc, "lane", 0, rail.saturating_sub(28), name))
            .add(line(alloc, "rail", (0, 1000), (rail, rail)));
    }
    html
}

fn label(alloc: Global, class: &str, x: u32, y: u64, text: Html) -> Html {
    let attributes = [
        (Attribute::Class, Value::Text(class)),
        (Attribute::X, Value::Share(x)),
        (Attribute::Y, Value::Number(y)),
    ];
    Html::new(alloc).element(Tag::Label, &attributes, text)
}

/// A line from one pair of ends to the other: how far along, and at which height.
pub(crate) fn line(alloc: Global, class: &str, xs: (u32, u32), ys: (u64, u64)) -> Html {
    let attributes = [
        (Attribute::Class, Value::Text(class)),
        (Attribute::X1, Value::Share(xs.0)),
        (Attribute::Y1, Value::Number(ys.0)),
        (Attribute::X2, Value::Share(xs.1)),
        (Attribute::Y2, Value::Number(ys.1)),
    ];
    Html::new(alloc).element(Tag::Line, &attributes, Html::new(alloc))
}

// ---- time

// The moments at the ends of the axis, and lines at its quarters.
fn grid(alloc: Global, axis: Axis) -> Html {
    let mut html = Html::new(alloc);
    for x in [0, 250, 500, 750, 1000] {
        html = html.add(line(alloc, "grid", (x, x), (TOP, BOTTOM)));
    }
    let first = with_moment(alloc, Html::new(alloc), axis.first);
    let last = with_moment(alloc, Html::new(alloc), axis.last);
    html.add(label(alloc, "from", 0, FEET, first))
        .add(label(alloc, "to", 1000, FEET, last))
}

fn moment_line(alloc: Global, axis: Axis, moment: Option<i64>) -> Html {
    let Some(moment) = moment else {
        return Html::new(alloc);
    };
    let x = axis.position(moment);
    let class = if x < 500 { "moment from" } else { "moment to" };
    let word = Html::new(alloc).text("moment");
    line(alloc, "moment", (x, x), (TOP, BOTTOM)).add(label(
        alloc,
        class,
        x,
        TOP.saturating_sub(4),
        word,
    ))
}

// ---- marks

fn marks(alloc: Global, axis: Axis, gaps: &[GapLine]) -> Result<Html, NoMemory> {
    let mut html = Html::new(alloc);
    for kind in LANES {
        for state in STATES {
            for is_awaited in [false, true] {
                let look = Look {
                    kind,
                    state,
                    is_awaited,
                };
                html = html.add(marks_of_look(alloc, axis, gaps, look)?);
            }
        }
    }
    Ok(html)
}

fn marks_of_look(
    alloc: Global,
    axis: Axis,
    gaps: &[GapLine],
    look: Look,
) -> Result<Html, NoMemory> {
    let mut html = Html::new(alloc);
    let groups = groups_of(alloc, gaps, Grouping::Marks(look, axis))?;
    for group in &groups {
        let x = axis.position(group.first.place.watermark);
        html = html.add(mark(alloc, x, look, mark_title(alloc, group, look)?));
    }
    Ok(html)
}

// A mark; around it a ring, if a later resend is awaited of what is held.
fn mark(alloc: Global, x: u32, look: Look, title: Html) -> Html {
    let y = lane_of(look.kind) + track_of(look.state);
    let inside = Html::new(alloc).element(Tag::Title, &[], title);
    let html = used(alloc, shape_of(look.state), Value::Share(x), y, inside);
    if look.is_awaited && look.state != State::Missing {
        html.add(used(alloc, "awaited", Value::Share(x), y, Html::new(alloc)))
    } else {
        html
    }
}

/// The shape with this id.
pub(crate) fn used<'x>(alloc: Global, id: &'x str, x: Value<'x>, y: u64, inside: Html) -> Html {
    let attributes = [
        (Attribute::Reference, Value::Text(id)),
        (Attribute::X, x),
        (Attribute::Y, Value::Number(y)),
    ];
    Html::new(alloc).element(Tag::Use, &attributes, inside)
}

// What is said of a mark: which places it has, their state, and what blocks the first of them.
fn mark_title(alloc: Global, group: &Group<'_>, look: Look) -> Result<Html, NoMemory> {
    let first = group.first;
    let mut html = Html::new(alloc).text(lane_name(look.kind)).text(", ");
    if group.count > 1 {
        html = html.number(group.count).text(" from ");
    }
    html = with_moment(alloc, html, first.place.watermark);
    if group.count > 1 {
        html = with_moment(alloc, html.text(" to "), group.last);
    }
    html = html.text(": ").text(state_word(look.state));
    if let Some(blocker) = &first.blocker {
        let words = format!(in alloc; "{blocker}")?;
        html = html.text(", by ").text(words.as_str());
    }
    if let Some(resend) = first.awaited {
        html = html.text(", awaited resend ").number(u64::from(resend));
    }
    Ok(html)
}
