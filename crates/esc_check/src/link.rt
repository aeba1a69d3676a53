//! The links of objects, and those that lead to no object (V1).

ghost use Rattle.std.specs.Prelude.{◌≡◌, ◌∷◌, [], ◌++◌, OnOk, not, map, filter};
ghost use Rattle.std.specs.List.{flat_map};
ghost use Rattle.std.specs.BTreeSet as sorted;
ghost use Rattle.esc_tables.specs.KeyName.{key_cmp};
ghost use Rattle.esc_check.specs.Fields.{parent_fields};
ghost use Rattle.esc_check.specs.Findings.{missing_target};
ghost use Rattle.esc_check.specs.Gathered.{text_links, field_links, child_links, links_of};
ghost use Rattle.esc_check.specs.Gathered.{is_present, link_findings};

use crate::field::{LinkField, cell, child_field, parent_fields};
use crate::finding::{Breach, Finding, add};
use crate::rule::Rule;
use esc_bundle::NoMemory;
use esc_tables::{Key, Object, Row};
use std::alloc::Global;
use std::collections::{BTreeMap, BTreeSet};
use std::marker::Model;

/// A link from the object with a key, by a field, to the object with another key.
#[derive(Drop)]
pub struct Link {
    from: Key,
    field: LinkField,
    to: Key,
}

impl Model for Link {
    ghost use Rattle.esc_check.specs.LinkValue.{LinkValue};

    ghost Value = { LinkValue };

    ghost view = { λ l. record { from = l.from; field = l.field; to = l.to } };
}

// Adds the link of a text, if it is not empty.
fn add_link(
    alloc: Global,
    links: &mut Vec<Link>,
    from: &Key,
    field: LinkField,
    text: &str,
) -> Result<(), NoMemory>
    ensures { OnOk result (links.new.items ≡ links.old.items
        ++ text_links from.now field text.now) }
{
    if text.is_empty() {
        return Ok(());
    }
    links.push(Link {
        from: from.copy(alloc)?,
        field,
        to: Key::named(alloc, field.target(), text)?,
    })?;
    Ok(())
}

fn add_of_parent(
    alloc: Global,
    links: &mut Vec<Link>,
    key: &Key,
    parent: &Row,
) -> Result<(), NoMemory>
    ensures { OnOk result (links.new.items ≡ links.old.items
        ++ flat_map (field_links key.now parent.now) (parent_fields key.now.kind)) }
{
    for field in parent_fields(key.kind) {
        add_link(alloc, links, key, *field, cell(parent, field.name()))?;
    }
    Ok(())
}

fn add_of_child(alloc: Global, links: &mut Vec<Link>, key: &Key, row: &Row) -> Result<(), NoMemory>
    ensures { OnOk result (links.new.items ≡ links.old.items ++ child_links key.now row.now) }
{
    match child_field(key.kind, row.table()) {
        Some(field) => add_link(alloc, links, key, field, cell(row, field.name())),
        None => Ok(()),
    }
}

fn add_of_children(
    alloc: Global,
    links: &mut Vec<Link>,
    key: &Key,
    children: &[Row],
) -> Result<(), NoMemory>
    ensures { OnOk result (links.new.items ≡ links.old.items
        ++ flat_map (child_links key.now) children.now) }
{
    for row in children {
        add_of_child(alloc, links, key, row)?;
    }
    Ok(())
}

/// Adds the links of an object.
pub fn add_links(
    alloc: Global,
    links: &mut Vec<Link>,
    key: &Key,
    object: &Object,
) -> Result<(), NoMemory>
    ensures { OnOk result (links.new.items ≡ links.old.items ++ links_of key.now object.now) }
{
    add_of_parent(alloc, links, key, &object.parent)?;
    add_of_children(alloc, links, key, &object.children)
}

fn is_missing(tables: &BTreeMap<Key, Object>, link: &Link) -> bool
    ensures { result ≡ not (is_present tables.now.entries link.now.to) }
{
    !tables.contains_key(&link.to)
}

fn add_missing(alloc: Global, found: &mut Vec<Finding>, link: &Link) -> Result<(), NoMemory>
    ensures { OnOk result (found.new.items ≡ found.old.items ++ missing_target link.now ∷ []) }
{
    let breach = Breach {
        rule: Rule::LinkTarget,
        field: link.field.name(),
        value: link.to.text.as_str(),
        other: link.to.kind.name(),
    };
    add(alloc, found, &link.from, breach)
}

/// Adds the findings V1 of these links: of each that leads to no object of these tables.
pub fn check_links(
    alloc: Global,
    found: &mut Vec<Finding>,
    tables: &BTreeMap<Key, Object>,
    links: &[Link],
) -> Result<(), NoMemory>
    ensures { OnOk result (found.new.items ≡ found.old.items
        ++ link_findings (is_present tables.now.entries) links.now) }
{
    for link in links {
        if !is_missing(tables, link) {
            continue;
        }
        add_missing(alloc, found, link)?;
    }
    Ok(())
}

/// The links that lead to none of these keys. Doesn't allocate.
pub fn unmet(met: &BTreeSet<Key>, mut links: Vec<Link>) -> Vec<Link>
    ensures { result.items ≡ filter (λ l. not (sorted.contains key_cmp met.now l.to))
        links.items }
{
    links.retain(|link| !met.contains(&link.to));
    links
}

/// Adds a finding V1 for each of these links.
pub fn add_all_missing(
    alloc: Global,
    found: &mut Vec<Finding>,
    links: &[Link],
) -> Result<(), NoMemory>
    ensures { OnOk result (found.new.items ≡ found.old.items ++ map missing_target links.now) }
{
    for link in links {
        add_missing(alloc, found, link)?;
    }
    Ok(())
}
