//! The findings, by their rules.

ghost use Rattle.std.specs.Prelude.{◌≡◌, ◌==◌, All};
ghost use Rattle.esc_check.specs.Rules.{rule_number};
ghost use Rattle.esc_handover.specs.PageParts.{page_rules, rule_words, findings_by, HasRule};

use crate::page::part::{Cell, MOST_SHOWN, counted_table, leaf, row, section};
use esc_check::{Finding, Rule};
use esc_html::{Html, Tag};
use std::alloc::Global;

const HEADINGS: [&str; 5] = ["Kind", "Key", "Field", "Value", "Besides"];

// What a finding of a rule means.
fn meaning(rule: Rule) -> &'static str
    ensures { result.now ≡ rule_words rule }
{
    match rule {
        Rule::LinkTarget => "V1: a link leads to no object",
        Rule::ObjectCount => "V2: a kind has another number of objects than declared",
        Rule::KnownStatus => "V3: a status is none of its kind's",
        Rule::OkAlone => "V4: a domain is ok, and has another status",
        Rule::CreatedBefore => "V5: created after the chain's end",
        Rule::ExpiresAfter => "V6: expires before it was created",
        Rule::DateForm => "V7: a date has another form, or is no date",
    }
}

#[tactic(auto, unfolding(crate::specs::PageParts::page_rules))]
fn all_rules() -> [Rule; 7]
    ensures { result ≡ page_rules }
{
    Rule::ALL
}

/// The section of the findings: how many there are of each rule, and the first of them.
pub(crate) fn findings_section(alloc: Global, findings: &[Finding]) -> Html
    ensures { (rule : Rule) → HasRule findings.now result rule }
{
    let inside = rule_tables(alloc, findings, &all_rules()).add(none_found(alloc, findings));
    section(alloc, "findings", "Findings", inside)
}

// A sentence if there are none.
fn none_found(alloc: Global, findings: &[Finding]) -> Html {
    if !findings.is_empty() {
        return Html::new(alloc);
    }
    leaf(
        alloc,
        Tag::Paragraph,
        "None: links, counts, statuses and dates break no rule.",
    )
}

// What there is of each of these rules.
fn rule_tables(alloc: Global, findings: &[Finding], rules: &[Rule]) -> Html
    ensures { All (HasRule findings.now result) rules.now }
{
    let mut tables = Html::new(alloc);
    for rule in rules {
        tables = tables.add(findings_of(alloc, findings, *rule));
    }
    tables
}

// The heading of a rule, and the first of its findings; nothing where there are none.
fn findings_of(alloc: Global, findings: &[Finding], rule: Rule) -> Html
    ensures { HasRule findings.now result rule }
{
    let count = count_of(findings, rule);
    let rows = first_rows(alloc, findings, rule);
    counted_table(alloc, meaning(rule), count, &HEADINGS, rows)
}

fn is_of(finding: &Finding, rule: Rule) -> bool
    ensures { result ≡ (finding.now.code == rule_number rule) }
{
    finding.rule.number() == rule.number()
}

fn count_of(findings: &[Finding], rule: Rule) -> u64
    ensures { result ≡ findings_by findings.now rule }
{
    findings
        .iter()
        .filter(|finding| is_of(finding, rule))
        .count() as u64
}

fn first_rows(alloc: Global, findings: &[Finding], rule: Rule) -> Html {
    let mut rows = Html::new(alloc);
    let of_rule = findings.iter().filter(|finding| is_of(finding, rule));
    for finding in of_rule.take(MOST_SHOWN as usize) {
        rows = rows.add(finding_row(alloc, finding));
    }
    rows
}

fn finding_row(alloc: Global, finding: &Finding) -> Html {
    row(
        alloc,
        Cell::Word(finding.kind.name()),
        &[
            Cell::Text(finding.key.as_str()),
            Cell::Text(finding.field.as_str()),
            Cell::Text(finding.value.as_str()),
            Cell::Text(finding.other.as_str()),
        ],
    )
}
