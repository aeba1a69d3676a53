//! Tables that are written side by side.

ghost use Rattle.std.specs.Prelude.{◌≡◌, List, IfErr, OnOk};
ghost use Rattle.std.specs.Io.KnownBytes.{Appends};
ghost use Rattle.std.specs.List.{AllZip};
ghost use Rattle.esc_apply.specs.ObjectStreams.{Entry};
ghost use Rattle.esc_csv.specs.Lines.{text_of};
ghost use Rattle.esc_table_files.specs.Layouts.{entry_lines, table_csv};
ghost use Rattle.esc_table_files.specs.Writing.{HasGrown, heading_csv};
ghost use Rattle.esc_table_files.specs.WritingFaults.{IfWritingSource, OfWritingSource};

use crate::layout::Layout;
use crate::table_text::{heading_text, rows_text};
use crate::writing_fault::WritingFault;
use esc_apply::Objects;
use esc_tables::{Key, Object};
use std::alloc::Global;
use std::io::{Error, ErrorKind, Write};

/// A table, and what its text is written to.
#[derive(Drop)]
pub struct TableWriter<'a, W> {
    pub layout: &'a Layout,
    pub output: W,
}

impl<W: Write> TableWriter<'_, W> {
    fn write_heading(&mut self, alloc: Global) -> Result<(), Error>
        ensures table { self.new.layout.now ≡ self.old.layout.now }
        ensures text { OnOk result (Appends
            (W.contents self.old.output) (W.contents self.new.output)
            (heading_csv self.old.layout.now)) }
    {
        let Ok(text) = heading_text(alloc, self.layout) else {
            return Err(Error::from(ErrorKind::OutOfMemory));
        };
        self.output.write_all(&text)
    }

    // Writes the lines of an object's rows in the table.
    fn write_rows(&mut self, alloc: Global, key: &Key, object: &Object) -> Result<(), Error>
        ensures table { self.new.layout.now ≡ self.old.layout.now }
        ensures text { OnOk result (Appends
            (W.contents self.old.output) (W.contents self.new.output)
            (text_of (entry_lines self.old.layout.now (key.now, object.now)))) }
    {
        let Ok(text) = rows_text(alloc, self.layout, key, object) else {
            return Err(Error::from(ErrorKind::OutOfMemory));
        };
        self.output.write_all(&text)
    }
}

fn write_headings<W: Write>(
    alloc: Global,
    writers: &mut Vec<TableWriter<'_, W>>,
) -> Result<(), Error>
    ensures { OnOk result (AllZip
        (HasGrown (λ w. w.layout.now) (λ w. W.contents w.output) heading_csv)
        writers.old.items writers.new.items) }
{
    for writer in writers.iter_mut() {
        writer.write_heading(alloc)?;
    }
    Ok(())
}

// Writes the lines of an object's rows to the tables that have them.
fn write_object<W: Write>(
    alloc: Global,
    writers: &mut Vec<TableWriter<'_, W>>,
    key: &Key,
    object: &Object,
) -> Result<(), Error>
    ensures { OnOk result (AllZip (HasGrown (λ w. w.layout.now) (λ w. W.contents w.output)
        (λ l. text_of (entry_lines l (key.now, object.now))))
        writers.old.items writers.new.items) }
{
    for writer in writers.iter_mut() {
        writer.write_rows(alloc, key, object)?;
    }
    Ok(())
}

/// Writes tables as CSV (this project's profile), each to its output: a heading, and a line for each
/// row, by the objects' keys. It allocates for the lines of one object at a time. At `Err` a part of
/// the texts may be written.
pub fn write_tables<O: Objects, W: Write>(
    alloc: Global,
    writers: &mut Vec<TableWriter<'_, W>>,
    objects: &mut O,
) -> Result<(), WritingFault<O::Error>>
    ensures follows { O.follows objects.old objects.new }
    ensures source { IfErr result (λ fault. IfWritingSource fault (O.has_failed objects.new)) }
    ensures cause { IfErr result (OfWritingSource O.fails) }
    ensures texts { OnOk result (O.is_honest objects.new → (es : List Entry)
        → O.lists objects.old es
        → AllZip (HasGrown (λ w. w.layout.now) (λ w. W.contents w.output) (λ l. table_csv l es))
        writers.old.items writers.new.items) }
{
    write_headings(alloc, writers)?;
    while let Some((key, object)) = objects.next().map_err(WritingFault::Source)? {
        write_object(alloc, writers, &key, &object)?;
    }
    Ok(())
}
