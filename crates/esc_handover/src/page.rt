//! A store as a page.

ghost use Rattle.std.specs.Prelude.{ℕ, List, Some, IfOk};
ghost use Rattle.esc_envelope.specs.declared.kind.Kind.{Kind};
ghost use Rattle.esc_html.specs.Markup.{IsHtmlPage};
ghost use Rattle.esc_acceptance.specs.Acceptance.{is_accepted};
ghost use Rattle.esc_check.specs.declared.rule.Rule.{Rule};
ghost use Rattle.esc_handover.specs.PageParts.{IsPiece, IsWithin};
ghost use Rattle.esc_handover.specs.PageParts.{HasKind, TellsKinds, HasRule, TellsRules};
ghost use Rattle.esc_handover.specs.Titles.{HasTitle, TellsVerdict};

mod axis;
mod findings;
mod group;
mod objects;
mod part;
mod picture;
mod receipts;
mod release;
mod share;
mod style;
mod summary;
mod title;
mod way;

use crate::page::findings::findings_section;
use crate::page::objects::objects_section;
use crate::page::part::leaf;
use crate::page::receipts::{parked_section, receipts_section};
use crate::page::release::release_section;
use crate::page::style::STYLE;
use crate::page::summary::{notes_section, page_head, tests_section};
use crate::page::title::title_of;
use esc_acceptance::{Seen, lines_of};
use esc_bundle::NoMemory;
use esc_events::ParkedBody;
use esc_html::{Html, Tag};
use esc_store::Reply;
use std::alloc::Global;

/// A page of HTML that shows what was seen of a store, with its receipts in order and its parked
/// bodies. Its title begins with whether the registry may be taken over. Of each kind it says how
/// many objects there are, and how many are declared; and of each rule that is broken, how many
/// findings there are. It loads nothing and runs nothing, and each text of a deposit is escaped.
pub fn page_of(
    alloc: Global,
    seen: &Seen<'_>,
    receipts: &[Reply],
    parked: &[ParkedBody],
) -> Result<Vec<u8>, NoMemory>
    ensures markup { IfOk result (λ page. IsHtmlPage page.items) }
    ensures verdict { IfOk result (λ page. TellsVerdict (is_accepted seen.now) page.items) }
    ensures kinds { IfOk result
        (λ page. TellsKinds seen.now.objects seen.now.counts page.items) }
    ensures rules { IfOk result (λ page. TellsRules seen.now.findings page.items) }
{
    let title = title_of(alloc, seen)?;
    let body = body_of(alloc, seen, title.as_str(), receipts, parked)?;
    titled(body, title.as_str(), STYLE)
}

fn body_of(
    alloc: Global,
    seen: &Seen<'_>,
    title: &str,
    receipts: &[Reply],
    parked: &[ParkedBody],
) -> Result<Html, NoMemory>
    ensures kinds { IfOk result
        (λ body. (k : Kind) → HasKind seen.now.objects seen.now.counts body k) }
    ensures rules { IfOk result (λ body. (rule : Rule) → HasRule seen.now.findings body rule) }
{
    let lines = lines_of(alloc, seen)?;
    let before = tests_section(alloc, &lines)
        .add(notes_section(alloc, seen.notes))
        .add(release_section(alloc, seen)?);
    let after = receipts_section(alloc, receipts).add(parked_section(alloc, parked));
    let shown = before.add(numbers(alloc, seen));
    let sections = shown.add(after);
    let head = page_head(alloc, seen, &lines, title);
    Ok(around(alloc, head, sections))
}

// The sections of the objects and of the findings.
fn numbers(alloc: Global, seen: &Seen<'_>) -> Html
    ensures kinds { (k : Kind) → HasKind seen.now.objects seen.now.counts result k }
    ensures rules { (rule : Rule) → HasRule seen.now.findings result rule }
{
    objects_section(alloc, seen.objects, seen.counts).add(findings_section(alloc, seen.findings))
}

// The body of a page, with this head and these sections.
fn around(alloc: Global, head: Html, sections: Html) -> Html
    ensures { IsWithin sections result }
{
    let foot = leaf(
        alloc,
        Tag::Paragraph,
        "Made by handover page. It loads nothing and runs nothing.",
    );
    Html::new(alloc)
        .element(Tag::Header, &[], head)
        .element(Tag::Main, &[], sections)
        .element(Tag::Footer, &[], foot)
}

// The page with this title, style and body.
fn titled(body: Html, title: &str, style: &str) -> Result<Vec<u8>, NoMemory>
    ensures markup { IfOk result (λ page. IsHtmlPage page.items) }
    ensures title { IfOk result (λ page. HasTitle title.now page.items) }
    ensures parts { IfOk result
        (λ page. (piece : List ℕ) → IsWithin (Some piece) body → IsPiece piece page.items) }
{
    body.into_page(title, style)
}
