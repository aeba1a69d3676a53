//! The objects of each kind, beside what is declared.

ghost use Rattle.std.specs.Prelude.{◌≡◌, Some, All};
ghost use Rattle.esc_envelope.specs.declared.kind.Kind.{Kind};
ghost use Rattle.esc_envelope.specs.Kinds.{kinds};
ghost use Rattle.esc_html.specs.Markup.{IsUnlessRefused};
ghost use Rattle.esc_handover.specs.PageParts.{number_of, number_cell, numbers_text, HasKind};

use crate::page::part::{heading_cell, section, table};
use crate::page::share::share_of;
use esc_envelope::Kind;
use esc_html::{Attribute, Html, Tag, Value};
use std::alloc::Global;

/// The section of the objects: how many of each kind there are, and how many are declared.
pub(crate) fn objects_section(
    alloc: Global,
    objects: &[(Kind, u64)],
    counts: &[(Kind, u64)],
) -> Html
    ensures { (k : Kind) → HasKind objects.now counts.now result k }
{
    let inside = table(
        alloc,
        "The objects of each kind (thick bar), and how many the chain's last deposit declares (thin bar)",
        &["Kind", "Objects", "Declared", "Compared", "Bars"],
        kind_rows(alloc, &all_kinds(), objects, counts),
    );
    section(alloc, "objects", "Objects", inside)
}

#[tactic(auto, unfolding(esc_envelope::specs::Kinds::kinds))]
fn all_kinds() -> [Kind; 6]
    ensures { result ≡ kinds }
{
    Kind::ALL
}

fn greatest(numbers: &[(Kind, u64)]) -> u64 {
    numbers.iter().map(|number| number.1).max().unwrap_or(0)
}

fn number_of(numbers: &[(Kind, u64)], kind: Kind) -> Option<u64>
    ensures { result ≡ number_of numbers.now kind }
{
    numbers
        .iter()
        .find(|number| number.0 == kind)
        .map(|number| number.1)
}

// A row for each of these kinds.
fn kind_rows(alloc: Global, kinds: &[Kind], objects: &[(Kind, u64)], counts: &[(Kind, u64)]) -> Html
    ensures { All (HasKind objects.now counts.now result) kinds.now }
{
    let most = greatest(objects).max(greatest(counts));
    let mut rows = Html::new(alloc);
    for kind in kinds {
        rows = rows.element(
            Tag::Row,
            &[],
            kind_cells(alloc, objects, counts, *kind, most),
        );
    }
    rows
}

fn kind_cells(
    alloc: Global,
    objects: &[(Kind, u64)],
    counts: &[(Kind, u64)],
    kind: Kind,
    most: u64,
) -> Html
    ensures { HasKind objects.now counts.now result kind }
{
    let there = number_of(objects, kind).unwrap_or(0);
    let declared = number_of(counts, kind);
    number_cells(alloc, kind, there, declared)
        .element(
            Tag::Cell,
            &[],
            Html::new(alloc).text(comparison(there, declared)),
        )
        .element(
            Tag::Cell,
            &[],
            bars(alloc, there, declared.unwrap_or(0), most),
        )
}

// A kind, how many objects there are, and how many are declared.
fn number_cells(alloc: Global, kind: Kind, there: u64, declared: Option<u64>) -> Html
    ensures { IsUnlessRefused (Some (numbers_text kind there declared)) result }
{
    heading_cell(alloc, kind.name())
        .add(number_cell(alloc, Some(there)))
        .add(number_cell(alloc, declared))
}

// A cell with a number, or with nothing.
fn number_cell(alloc: Global, number: Option<u64>) -> Html
    ensures { IsUnlessRefused (Some (number_cell number)) result }
{
    let inside = match number {
        Some(number) => Html::new(alloc).number(number),
        None => Html::new(alloc),
    };
    Html::new(alloc).element(Tag::Cell, &[], inside)
}

fn comparison(there: u64, declared: Option<u64>) -> &'static str {
    match declared {
        None => "not declared",
        Some(declared) if declared == there => "as declared",
        Some(_) => "otherwise than declared",
    }
}

// A thick bar for what is there, and a thin one for what is declared, of the most that there is.
fn bars(alloc: Global, there: u64, declared: u64, most: u64) -> Html {
    let picture = [
        (Attribute::Hidden, Value::Text("true")),
        (Attribute::Width, Value::Text("100%")),
        (Attribute::Height, Value::Number(18)),
    ];
    let both = bar(alloc, "objects", 0, share_of(there, most)).add(bar(
        alloc,
        "declared",
        14,
        share_of(declared, most),
    ));
    Html::new(alloc).element(Tag::Picture, &picture, both)
}

fn bar(alloc: Global, class: &str, y: u64, width: u32) -> Html {
    let attributes = [
        (Attribute::Class, Value::Text(class)),
        (Attribute::Y, Value::Number(y)),
        (Attribute::Width, Value::Share(width)),
    ];
    Html::new(alloc).element(Tag::Bar, &attributes, Html::new(alloc))
}
