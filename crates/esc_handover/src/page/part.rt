//! What the sections of a page have in common.

ghost use Rattle.std.specs.Prelude.{◌<◌, Some};
ghost use Rattle.esc_html.specs.Markup.{IsUnlessRefused};
ghost use Rattle.esc_handover.specs.PageParts.{IsWithin, heading_cell, counted_heading};

use esc_acceptance::{moment_words, one_line};
use esc_bundle::NoMemory;
use esc_html::{Attribute, Html, Tag, Value};
use std::alloc::Global;

/// How many of what may be many are shown.
pub(crate) const MOST_SHOWN: u64 = 20;

/// What stands in a cell of a table.
#[derive(Clone, Copy)]
pub(crate) enum Cell<'a> {
    Nothing,
    /// A text of the program's own, or one of letters, digits and a few signs.
    Word(&'a str),
    /// A text of a deposit.
    Text(&'a str),
    Number(u64),
    Moment(i64),
    /// U and the number of a refusal.
    Fault(u8),
}

impl Cell<'_> {
    /// The cell of a resend, if there is one.
    pub(crate) fn resend(resend: Option<u32>) -> Cell<'static> {
        match resend {
            Some(resend) => Cell::Number(u64::from(resend)),
            None => Cell::Nothing,
        }
    }
}

/// An element around a text alone.
pub(crate) fn leaf(alloc: Global, tag: Tag, text: &str) -> Html {
    Html::new(alloc).element(tag, &[], Html::new(alloc).text(text))
}

/// An element of a class.
pub(crate) fn of_class(alloc: Global, tag: Tag, class: &str, inside: Html) -> Html {
    Html::new(alloc).element(tag, &[(Attribute::Class, Value::Text(class))], inside)
}

/// A piece, and then a moment.
pub(crate) fn with_moment(alloc: Global, html: Html, moment: i64) -> Html {
    with_words(html, moment_words(alloc, moment))
}

// A piece, and then a text, unless memory was refused for it.
fn with_words(html: Html, words: Result<String, NoMemory>) -> Html {
    match words {
        Ok(words) => html.text(words.as_str()),
        Err(_) => html.refused(),
    }
}

/// A section of a page: a heading of the second level, and what is below it.
pub(crate) fn section(alloc: Global, id: &str, heading: &str, inside: Html) -> Html
    ensures { IsWithin inside result }
{
    let whole = leaf(alloc, Tag::H2, heading).add(inside);
    Html::new(alloc).element(Tag::Section, &[(Attribute::Id, Value::Text(id))], whole)
}

/// A table with a caption and a heading for each column.
pub(crate) fn table(alloc: Global, caption: &str, headings: &[&str], rows: Html) -> Html
    ensures { IsWithin rows result }
{
    let text = Html::new(alloc).text(caption);
    framed_table(alloc, caption, text, headings, rows)
}

/// A heading of the third level with a number, and a table of so many, or of the first of them.
/// Nothing where there are none.
pub(crate) fn counted_table(
    alloc: Global,
    heading: &str,
    count: u64,
    headings: &[&str],
    rows: Html,
) -> Html
    ensures { 0 < count → IsWithin (Some (counted_heading heading.now count)) result }
{
    if count == 0 {
        return Html::new(alloc);
    }
    let shown = if count > MOST_SHOWN {
        Html::new(alloc).text("The first ").number(MOST_SHOWN)
    } else {
        Html::new(alloc).text("All")
    };
    let rest = framed_table(alloc, heading, shown, headings, rows);
    counted_heading(alloc, heading, count).add(rest)
}

fn counted_heading(alloc: Global, heading: &str, count: u64) -> Html
    ensures { IsUnlessRefused (Some (counted_heading heading.now count)) result }
{
    let inside = Html::new(alloc).text(heading).text(": ").number(count);
    Html::new(alloc).element(Tag::H3, &[], inside)
}

// A table in a frame in which it can be moved, also by keys.
fn framed_table(alloc: Global, label: &str, caption: Html, headings: &[&str], rows: Html) -> Html
    ensures { IsWithin rows result }
{
    let caption = Html::new(alloc).element(Tag::Span, &[], caption);
    let inside = Html::new(alloc)
        .element(Tag::Caption, &[], caption)
        .element(Tag::TableHead, &[], heading_row(alloc, headings))
        .element(Tag::TableBody, &[], rows);
    framed(alloc, label, inside)
}

fn framed(alloc: Global, label: &str, inside: Html) -> Html
    ensures { IsWithin inside result }
{
    let frame = [
        (Attribute::Class, Value::Text("frame")),
        (Attribute::Role, Value::Text("region")),
        (Attribute::Label, Value::Text(label)),
        (Attribute::Stop, Value::Number(0)),
    ];
    let table = Html::new(alloc).element(Tag::Table, &[], inside);
    Html::new(alloc).element(Tag::Block, &frame, table)
}

fn heading_row(alloc: Global, headings: &[&str]) -> Html {
    let scope = [(Attribute::Scope, Value::Text("col"))];
    let mut cells = Html::new(alloc);
    for heading in headings {
        let text = Html::new(alloc).text(heading);
        cells = cells.element(Tag::Heading, &scope, text);
    }
    Html::new(alloc).element(Tag::Row, &[], cells)
}

/// A row of a table: its heading, and cells.
pub(crate) fn row(alloc: Global, heading: Cell<'_>, cells: &[Cell<'_>]) -> Html {
    let scope = [(Attribute::Scope, Value::Text("row"))];
    let mut inside = Html::new(alloc).element(Tag::Heading, &scope, cell_inside(alloc, heading));
    for cell in cells {
        inside = inside.element(Tag::Cell, &[], cell_inside(alloc, *cell));
    }
    Html::new(alloc).element(Tag::Row, &[], inside)
}

/// The cell with which a row begins, around a text.
pub(crate) fn heading_cell(alloc: Global, text: &str) -> Html
    ensures { IsUnlessRefused (Some (heading_cell text.now)) result }
{
    let scope = [(Attribute::Scope, Value::Text("row"))];
    Html::new(alloc).element(Tag::Heading, &scope, Html::new(alloc).text(text))
}

fn cell_inside(alloc: Global, cell: Cell<'_>) -> Html {
    let html = Html::new(alloc);
    match cell {
        Cell::Nothing => html,
        Cell::Word(word) => html.text(word),
        Cell::Text(text) => with_words(html, one_line(alloc, text)),
        Cell::Number(number) => html.number(number),
        Cell::Moment(moment) => with_moment(alloc, html, moment),
        Cell::Fault(number) => html.text("U").number(u64::from(number)),
    }
}
