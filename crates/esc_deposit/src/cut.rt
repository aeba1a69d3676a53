//! Where the objects of a registry are cut, so that each run of them is one bundle. That it is one
//! is tested when it is made (`write_series`).

ghost use Rattle.std.specs.Prelude.{◌≡◌, ◌↔◌, ◌≤◌, ◌+◌, List, [], ◌∷◌, ◌++◌, IsTrue, IfOk, OnOk};
ghost use Rattle.esc_tables.specs.declared.survey.TheConstants.{MOST_ROWS};
ghost use Rattle.esc_apply.specs.ObjectStreams.{Entry};
ghost use Rattle.esc_apply.specs.Registry.{saturated};
ghost use Rattle.esc_deposit.specs.declared.cut.TheConstants.{MOST_ROW_BYTES};
ghost use Rattle.esc_deposit.specs.Cuts.{text_bound, row_bound, object_row_count, object_bound};
ghost use Rattle.esc_deposit.specs.Cuts.{AreCutInto};
ghost use Rattle.esc_deposit.specs.CutSoFar.{IsCutSoFar};

use esc_apply::Objects;
use esc_bundle::NoMemory;
use esc_check::StreamFault;
use esc_tables::{MOST_ROWS, Object, Row};
use std::alloc::Global;

/// The most parts of a series: a store lists no more bundles.
pub const MOST_PARTS: u32 = 4_096;

/// The most bytes of the rows of a part. 512 KiB of the 16 MiB of a bundle are left for its
/// envelope, which declares at most 63 tables of 64 fields, and for the names of its sections.
const MOST_ROW_BYTES: u64 = 16_252_928;

// How large objects are in a bundle; a number that is too large for this is 2^64 - 1.
#[derive(Clone, Copy)]
struct Size {
    rows: u64,
    // An upper bound.
    bytes: u64,
}

impl Size {
    const NONE: Size = Size { rows: 0, bytes: 0 };

    fn with(self, other: Size) -> Size
        ensures rows { result.rows ≡ saturated (self.rows + other.rows) }
        ensures bytes { result.bytes ≡ saturated (self.bytes + other.bytes) }
    {
        Size {
            rows: self.rows.saturating_add(other.rows),
            bytes: self.bytes.saturating_add(other.bytes),
        }
    }

    // Whether a part takes all of them.
    fn is_within(self) -> bool
        ensures { IsTrue result ↔ ((self.rows ≤ MOST_ROWS) × (self.bytes ≤ MOST_ROW_BYTES)) }
    {
        self.rows <= u64::from(MOST_ROWS) && self.bytes <= MOST_ROW_BYTES
    }
}

// The most bytes of a text in a line: in quotes, with each quote in it twice, and a comma or LF.
fn text_bytes(text: &str) -> u64
    ensures { result ≡ saturated (text_bound text.now) }
{
    let quotes = text.as_bytes().iter().filter(|byte| **byte == b'"').count() as u64;
    (text.len() as u64).saturating_add(quotes).saturating_add(3)
}

fn row_size(row: &Row) -> Size
    ensures rows { result.rows ≡ 1 }
    ensures bytes { result.bytes ≡ saturated (row_bound row.now) }
{
    let mut bytes = 0u64;
    for at in 0..row.len() {
        if let Some((_, text)) = row.cell(at) {
            bytes = bytes.saturating_add(text_bytes(text));
        }
    }
    Size { rows: 1, bytes }
}

fn object_size(object: &Object) -> Size
    ensures rows { result.rows ≡ saturated (object_row_count object.now) }
    ensures bytes { result.bytes ≡ saturated (object_bound object.now) }
{
    let mut size = row_size(&object.parent);
    for row in &object.children {
        size = size.with(row_size(row));
    }
    size
}

// The lengths of the runs so far, and the length and the size of the last one.
#[derive(Drop)]
struct Cut {
    lengths: Vec<usize>,
    length: usize,
    size: Size,
}

impl Cut {
    // Adds an object of this size: to the last run, or to a new one if that could not take it.
    fn add(&mut self, one: Size) -> Result<(), NoMemory>
        ensures { OnOk result ((es : List Entry) (e : Entry)
            → one.rows ≡ saturated (object_row_count e.1) → one.bytes ≡ saturated (object_bound e.1)
            → IsCutSoFar es self.old.lengths.items self.old.length self.old.size
            → IsCutSoFar (es ++ e ∷ []) self.new.lengths.items self.new.length self.new.size) }
    {
        let size = self.size.with(one);
        if self.length == 0 || size.is_within() {
            self.length = self.length.saturating_add(1);
            self.size = size;
            return Ok(());
        }
        self.lengths.push(self.length)?;
        self.length = 1;
        self.size = one;
        Ok(())
    }

    // The lengths of all runs.
    fn finish(self) -> Result<Vec<usize>, NoMemory>
        ensures { IfOk result (λ lengths. (es : List Entry)
            → IsCutSoFar es self.lengths.items self.length self.size
            → AreCutInto es lengths.items) }
    {
        let mut lengths = self.lengths;
        lengths.push(self.length)?;
        Ok(lengths)
    }
}

/// Cuts the objects into runs, and returns how many objects each has: as many as one bundle takes,
/// or one that no bundle may take. There is at least one run, if of no objects.
pub fn cut_objects<O: Objects>(
    alloc: Global,
    objects: &mut O,
) -> Result<Vec<usize>, StreamFault<O::Error>>
    ensures follows { O.follows objects.old objects.new }
    ensures cut { IfOk result (λ lengths. O.is_honest objects.new → (es : List Entry)
        → O.lists objects.old es → AreCutInto es lengths.items) }
{
    let mut cut = Cut {
        lengths: Vec::new(alloc),
        length: 0,
        size: Size::NONE,
    };
    loop {
        match objects.next() {
            Ok(Some((_, object))) => cut.add(object_size(&object))?,
            Ok(None) => return Ok(cut.finish()?),
            Err(error) => return Err(StreamFault::Source(error)),
        }
    }
}
