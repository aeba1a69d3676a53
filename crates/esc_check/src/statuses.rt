//! The statuses of an object (V3 and V4).

ghost use Rattle.std.specs.Prelude.{◌≡◌, ◌++◌, OnOk, IfOk, map, not};
ghost use Rattle.std.specs.List.{flat_map, list_any};
ghost use Rattle.std.specs.Option.{option_map};
ghost use Rattle.std.specs.Str.{bytes_eq};
ghost use Rattle.esc_check.specs.Fields.{status_table};
ghost use Rattle.esc_check.specs.Gathered.{is_ok, is_mixed, is_status, row_status, statuses_of};
ghost use Rattle.esc_check.specs.Gathered.{one_unknown, status_findings};
ghost use Rattle.esc_check.specs.Statuses.{status_words};

use crate::field::{cell, is_domain};
use crate::finding::{Breach, Finding, add};
use crate::rule::Rule;
use esc_bundle::NoMemory;
use esc_envelope::Kind;
use esc_tables::{Key, Object, Row};
use std::alloc::Global;

// The name of the table with the statuses of a kind's objects, if there is one.
fn status_table(kind: Kind) -> Option<&'static str>
    ensures { option_map (λ t. t.now) result ≡ status_table kind }
{
    match kind {
        Kind::Contact => Some("contactStatuses"),
        Kind::Host => Some("hostStatuses"),
        Kind::Domain => Some("domainStatuses"),
        Kind::Registrar | Kind::Idn | Kind::Nndn => None,
    }
}

// The statuses that objects of a kind may have (RFC 5733, 5732 and 5731).
#[tactic(auto, unfolding(crate::specs::Statuses::status_words))]
fn status_words(kind: Kind) -> &'static [&'static str]
    ensures { map (λ w. w.now) result.now ≡ status_words kind }
{
    match kind {
        Kind::Contact => &[
            "clientDeleteProhibited",
            "serverDeleteProhibited",
            "clientUpdateProhibited",
            "serverUpdateProhibited",
            "linked",
            "ok",
            "pendingCreate",
            "pendingDelete",
            "pendingTransfer",
            "pendingUpdate",
            "clientTransferProhibited",
            "serverTransferProhibited",
        ],
        Kind::Host => &[
            "clientDeleteProhibited",
            "serverDeleteProhibited",
            "clientUpdateProhibited",
            "serverUpdateProhibited",
            "linked",
            "ok",
            "pendingCreate",
            "pendingDelete",
            "pendingTransfer",
            "pendingUpdate",
        ],
        Kind::Domain => &[
            "clientDeleteProhibited",
            "serverDeleteProhibited",
            "clientHold",
            "serverHold",
            "clientRenewProhibited",
            "serverRenewProhibited",
            "clientTransferProhibited",
            "serverTransferProhibited",
            "clientUpdateProhibited",
            "serverUpdateProhibited",
            "inactive",
            "ok",
            "pendingCreate",
            "pendingDelete",
            "pendingRenew",
            "pendingTransfer",
            "pendingUpdate",
        ],
        Kind::Registrar | Kind::Idn | Kind::Nndn => &[],
    }
}

fn is_among(text: &str, words: &[&str]) -> bool
    ensures { result ≡ list_any (λ w. bytes_eq w.now text.now) words.now }
{
    words.iter().any(|word| *word == text)
}

#[tactic(auto, using(esc_bundle::specs::ListLaws::list_any_map))]
fn is_status(kind: Kind, text: &str) -> bool
    ensures { result ≡ is_status kind text.now }
{
    is_among(text, status_words(kind))
}

// The statuses in this table of an object's child rows, in their order.
fn statuses_in<'a>(
    alloc: Global,
    table: &str,
    children: &'a [Row],
) -> Result<Vec<&'a str>, NoMemory>
    ensures { IfOk result (λ v. map (λ s. s.now) v.items
        ≡ flat_map (row_status table.now) children.now) }
{
    let mut statuses = Vec::new(alloc);
    for row in children {
        if row.table() != table {
            continue;
        }
        let status = cell(row, "status");
        if status.is_empty() {
            continue;
        }
        statuses.push(status)?;
    }
    Ok(statuses)
}

fn has_ok(statuses: &[&str]) -> bool
    ensures { result ≡ list_any (λ s. is_ok s.now) statuses.now }
{
    statuses.iter().any(|status| *status == "ok")
}

fn has_other(statuses: &[&str]) -> bool
    ensures { result ≡ list_any (λ s. not (is_ok s.now)) statuses.now }
{
    statuses.iter().any(|status| *status != "ok")
}

// Whether a domain has `ok` and another status.
#[tactic(auto, using(esc_bundle::specs::ListLaws::list_any_map))]
fn is_mixed(kind: Kind, statuses: &[&str]) -> bool
    ensures { result ≡ is_mixed kind (map (λ s. s.now) statuses.now) }
{
    is_domain(kind) && has_ok(statuses) && has_other(statuses)
}

fn add_unknown(
    alloc: Global,
    found: &mut Vec<Finding>,
    key: &Key,
    status: &str,
) -> Result<(), NoMemory>
    ensures { OnOk result (found.new.items ≡ found.old.items ++ one_unknown key.now status.now) }
{
    if is_status(key.kind, status) {
        return Ok(());
    }
    let breach = Breach {
        rule: Rule::KnownStatus,
        field: "status",
        value: status,
        other: "",
    };
    add(alloc, found, key, breach)
}

fn check_each(
    alloc: Global,
    found: &mut Vec<Finding>,
    key: &Key,
    statuses: &[&str],
) -> Result<(), NoMemory>
    ensures { OnOk result (found.new.items ≡ found.old.items
        ++ status_findings key.now (map (λ s. s.now) statuses.now)) }
{
    for status in statuses {
        add_unknown(alloc, found, key, status)?;
    }
    if is_mixed(key.kind, statuses) {
        let breach = Breach {
            rule: Rule::OkAlone,
            field: "status",
            value: "ok",
            other: "",
        };
        return add(alloc, found, key, breach);
    }
    Ok(())
}

/// Adds the findings V3 and V4 of an object's statuses.
pub fn check_statuses(
    alloc: Global,
    found: &mut Vec<Finding>,
    key: &Key,
    object: &Object,
) -> Result<(), NoMemory>
    ensures { OnOk result (found.new.items ≡ found.old.items
        ++ status_findings key.now (statuses_of key.now object.now)) }
{
    match status_table(key.kind) {
        Some(table) => {
            let statuses = statuses_in(alloc, table, &object.children)?;
            check_each(alloc, found, key, &statuses)
        }
        None => Ok(()),
    }
}
