//! The description that is proposed of a folder's files.

ghost use Rattle.std.specs.Prelude.{◌≡◌, IfOk, OnOk, Ok, true, filter_map, option_map};
ghost use Rattle.std.specs.List.{find};
ghost use Rattle.esc_pack.specs.KnownTables.{contents_tables, deletes_tables, file_stem};
ghost use Rattle.esc_pack.specs.Describing.{is_file_of, table_named, draft_of, are_proposed};
ghost use Rattle.esc_pack.specs.Describing.{IsDescriptionOf, IsProposalOf};

use crate::bundle_fault::BundleFault;
use crate::draft::{Draft, are_proposed, drafts_of, unknown_files};
use crate::known_table::{KnownTable, is_file_of};
use crate::proposal::{FolderFile, Proposal};
use crate::sources::{Sources, read_sources};
use crate::text::description_of;
use esc_bundle::NoMemory;
use esc_envelope::{Envelope, read_envelope};
use std::alloc::Global;

/// The tables that are proposed of a folder's files.
#[derive(Drop)]
struct Drafts {
    contents: Vec<Draft>,
    deletes: Vec<Draft>,
}

// Those of contents.
#[tactic(auto, unfolding(crate::specs::KnownTables::contents_tables))]
fn contents_known() -> [KnownTable; 18]
    ensures { result ≡ contents_tables }
{
    KnownTable::CONTENTS
}

// Those of deletes.
#[tactic(auto, unfolding(crate::specs::KnownTables::deletes_tables))]
fn deletes_known() -> [KnownTable; 6]
    ensures { result ≡ deletes_tables }
{
    KnownTable::DELETES
}

// The place of the first of these tables whose stem the name begins with.
fn place_named<'a>(known: &'a [KnownTable], name: &str) -> Option<&'a KnownTable>
    ensures { option_map (λ k. k.now) result
        ≡ find (λ k. is_file_of (file_stem k) name.now) known.now }
{
    known.iter().find(|table| is_file_of(table.file_stem().as_bytes(), name.as_bytes()))
}

// That table.
fn first_named(known: &[KnownTable], name: &str) -> Option<KnownTable>
    ensures { result ≡ find (λ k. is_file_of (file_stem k) name.now) known.now }
{
    place_named(known, name).copied()
}

/// The known table that a file's name stands for, if any: the one whose stem it begins with, with a
/// dash or a dot after it that `delete` doesn't follow.
pub fn table_named(name: &str) -> Option<KnownTable>
    ensures { result ≡ table_named name.now }
{
    let deleted = first_named(&deletes_known(), name);
    deleted.or(first_named(&contents_known(), name))
}

// The tables that are proposed of files.
fn all_drafts(alloc: Global, files: &[FolderFile<'_>]) -> Result<Drafts, NoMemory>
    ensures contents { IfOk result (λ drafts.
        drafts.contents.items ≡ filter_map (draft_of files.now) contents_tables) }
    ensures deletes { IfOk result (λ drafts.
        drafts.deletes.items ≡ filter_map (draft_of files.now) deletes_tables) }
{
    let contents = drafts_of(alloc, files, &contents_known())?;
    let deletes = drafts_of(alloc, files, &deletes_known())?;
    Ok(Drafts { contents, deletes })
}

// Whether a description declares these tables, and names their files.
fn is_of_drafts(drafts: &Drafts, envelope: &Envelope, sources: &Sources) -> bool
    ensures contents { result ≡ true → are_proposed drafts.now.contents.items
        envelope.now.contents sources.now.contents ≡ true }
    ensures deletes { result ≡ true → are_proposed drafts.now.deletes.items
        envelope.now.deletes sources.now.deletes ≡ true }
{
    are_proposed(&drafts.contents, &envelope.contents, &sources.contents)
        && are_proposed(&drafts.deletes, &envelope.deletes, &sources.deletes)
}

// Reads a description again, and tests that it is of these tables.
fn check_text(alloc: Global, drafts: &Drafts, text: &[u8]) -> Result<(), BundleFault>
    ensures { OnOk result (IsDescriptionOf drafts.now.contents.items drafts.now.deletes.items
        text.now) }
{
    let envelope = read_envelope(alloc, text)?;
    match read_sources(alloc, text)? {
        Some(sources) if is_of_drafts(drafts, &envelope, &sources) => Ok(()),
        _ => Err(BundleFault::Unmatched),
    }
}

/// The description that is proposed of a folder's files, by their names and their headings, and the
/// files that it doesn't name. Before it is returned it is read again, as an envelope and as the
/// files of its tables (`read_sources`).
///
/// # Errors
///
/// `Refused`: the description that was made is no envelope. `Unmatched`: it isn't read as it was
/// made. `NoMemory`.
pub fn describe_files(alloc: Global, files: &[FolderFile<'_>]) -> Result<Proposal, BundleFault>
    ensures { IfOk result (λ p. IsProposalOf files.now p) }
{
    let drafts = all_drafts(alloc, files)?;
    let text = description_of(alloc, &drafts.contents, &drafts.deletes)?;
    check_text(alloc, &drafts, &text)?;
    let unknown = unknown_files(alloc, files)?;
    Ok(Proposal { text, unknown })
}
