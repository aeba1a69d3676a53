//! The bundle of an agent's files.

ghost use Rattle.std.specs.Prelude.{◌≡◌, ◌+◌, ◌^◌, ◌<◌, ◌++◌, ◌∷◌, [], All, map, length, IfOk};
ghost use Rattle.std.specs.Prelude.{IfErr, OnOk};
ghost use Rattle.std.specs.List.{zip};
ghost use Rattle.esc_bundle.specs.Writing.{named};
ghost use Rattle.esc_tables.specs.Reading.{tables_of};
ghost use Rattle.esc_pack.specs.GivenRows.{IsReadBack};
ghost use Rattle.esc_pack.specs.Bundling.{sections_of, description_section, AreHeaded};
ghost use Rattle.esc_pack.specs.Bundling.{AreSectionsOf, IsBundleOf};
ghost use Rattle.esc_pack.specs.BundleRefusals.{OrNoMemory, IsTablesRefusal, IsGivenRefusal};
ghost use Rattle.esc_pack.specs.BundleRefusals.{IsSectionsRefusal, IsBundleRefusal};

use crate::bundle_fault::BundleFault;
use crate::given::TableFiles;
use crate::table_text::table_text;
use esc_bundle::{NoMemory, frame_is_exact, write_bundle};
use esc_envelope::{Envelope, Table, read_envelope};
use esc_tables::read_deposit;
use std::alloc::Global;

/// The name of the first section.
const ENVELOPE: &str = "envelope.json";

// Adds the sections of tables, of which the first has this number.
fn push_sections(
    alloc: Global,
    sections: &mut Vec<(String, Vec<u8>)>,
    tables: &[Table],
    given: &[TableFiles<'_>],
    first: usize,
) -> Result<(), BundleFault>
    requires same { length given.now ≡ length tables.now }
    requires few { first + length tables.now < 2 ^ 64 }
    ensures pushed { OnOk result (map named sections.new.items
        ≡ map named sections.old.items ++ sections_of tables.now given.now) }
    ensures read { OnOk result (All IsReadBack given.now) }
    ensures headed { OnOk result (All AreHeaded (zip tables.now given.now)) }
    ensures refused { IfErr result
        (OrNoMemory (IsTablesRefusal (zip tables.now given.now) first)) }
{
    for (at, table) in tables.iter().enumerate() {
        let text = table_text(alloc, table, &given[at], first + at)?;
        sections.push((table.file.clone()?, text))?;
    }
    Ok(())
}

// Adds the section of a description.
fn push_description(
    alloc: Global,
    sections: &mut Vec<(String, Vec<u8>)>,
    description: &[u8],
) -> Result<(), NoMemory>
    ensures { OnOk result (map named sections.new.items
        ≡ map named sections.old.items ++ description_section description.now ∷ []) }
{
    let name = String::from_str(alloc, ENVELOPE)?;
    sections.push((name, Vec::from_slice(alloc, description)?))?;
    Ok(())
}

// Adds the sections of a description and of the files for the tables that it declares.
fn push_described(
    alloc: Global,
    sections: &mut Vec<(String, Vec<u8>)>,
    description: &[u8],
    envelope: &Envelope,
    given: &[TableFiles<'_>],
) -> Result<(), BundleFault>
    ensures matched { OnOk result (length given.now ≡ length (tables_of envelope.now)) }
    ensures sections { OnOk result (map named sections.new.items ≡ map named sections.old.items
        ++ description_section description.now
        ∷ sections_of (tables_of envelope.now) given.now) }
    ensures read { OnOk result (All IsReadBack given.now) }
    ensures headed { OnOk result (All AreHeaded (zip (tables_of envelope.now) given.now)) }
    ensures refused { IfErr result (OrNoMemory (IsGivenRefusal envelope.now given.now)) }
{
    let contents = envelope.contents.as_slice();
    let deletes = envelope.deletes.as_slice();
    if given.len() < contents.len() || given.len() - contents.len() != deletes.len() {
        return Err(BundleFault::Unmatched);
    }
    let (first, rest) = given.split_at(contents.len());
    push_description(alloc, sections, description)?;
    push_sections(alloc, sections, contents, first, 0)?;
    push_sections(alloc, sections, deletes, rest, contents.len())?;
    Ok(())
}

// The sections of a description and of the files for the tables that it declares.
fn described_sections(
    alloc: Global,
    description: &[u8],
    given: &[TableFiles<'_>],
) -> Result<Vec<(String, Vec<u8>)>, BundleFault>
    ensures are { IfOk result (λ sections.
        AreSectionsOf description.now given.now (map named sections.items)) }
    ensures refused { IfErr result
        (OrNoMemory (IsSectionsRefusal description.now given.now)) }
{
    let envelope = read_envelope(alloc, description)?;
    let mut sections = Vec::new(alloc);
    push_described(alloc, &mut sections, description, &envelope, given)?;
    Ok(sections)
}

/// The bundle of a description, which is its first section as it is, and of the files that an agent
/// sent for each table that it declares, contents before deletes. `read_deposit` reads it as
/// exactly the deposit that the rows of these files make.
///
/// # Errors
///
/// One that applies, or memory was refused. `Refused`: no bundle or no deposit has these sections,
/// or the description is no envelope. `Unmatched`, `Heading`, `Row`, `Marked`: the files aren't as
/// the description says.
pub fn bundle_of_files(
    alloc: Global,
    description: &[u8],
    given: &[TableFiles<'_>],
) -> Result<Vec<u8>, BundleFault>
    ensures bundled { IfOk result (λ body. IsBundleOf description.now given.now body.items) }
    ensures refused { IfErr result (OrNoMemory (IsBundleRefusal description.now given.now)) }
{
    let sections = described_sections(alloc, description, given)?;
    let body = write_bundle(alloc, &sections)?;
    read_deposit(alloc, &body)?;
    frame_is_exact();
    Ok(body)
}
