//! Texts of CSV lines.

ghost use Rattle.std.specs.Prelude.{◌≡◌, [], ◌++◌, map, OnOk, IfOk};
ghost use Rattle.esc_csv.specs.Lines.{line_text};

use csv::{Writer, WriterBuilder};
use esc_bundle::NoMemory;
use std::alloc::Global;
use std::marker::Model;

/// The text of CSV lines (RFC 4180), each ended by LF, with quotes only where a field needs them.
/// Contracts see it as its bytes.
#[derive(Drop)]
pub struct Lines {
    writer: Writer<Vec<u8>>,
    /// Whether a write failed: the writer may stand within a line since then.
    failed: bool,
}

impl Model for Lines {
    ghost use Rattle.std.specs.Prelude.{List, ℕ, ◌≡◌, ◌++◌, false};
    ghost use Rattle.csv.specs.Writing.{writer_under, writer_pending};
    ghost use Rattle.esc_csv.specs.Between.{IsReady};

    ghost Value = { List ℕ };

    ghost view = { λ l. (writer_under l.writer).items ++ writer_pending l.writer };

    ghost invariant = { λ l. l.failed ≡ false → IsReady l.writer };
}

impl Lines {
    /// A text without lines. Doesn't allocate: `write` does.
    pub fn new(alloc: Global) -> Lines
        ensures { result ≡ [] }
    {
        Lines {
            writer: WriterBuilder::new()
                .flexible(true)
                .from_writer(Vec::new(alloc)),
            failed: false,
        }
    }

    /// Adds a line with these fields. `NoMemory` out of memory: nothing is said then of the text.
    pub fn write(&mut self, fields: &[&[u8]]) -> Result<(), NoMemory>
        ensures { OnOk result (self.new ≡ self.old ++ line_text (map (λ f. f.now) fields.now)) }
    {
        if self.failed {
            return Err(NoMemory);
        }
        match self.writer.write_fields(fields) {
            Ok(()) => Ok(()),
            Err(_) => {
                self.failed = true;
                Err(NoMemory)
            }
        }
    }

    /// The whole text; `NoMemory` out of memory.
    pub fn into_text(self) -> Result<Vec<u8>, NoMemory>
        ensures { IfOk result (λ text. text.items ≡ self) }
    {
        if self.failed {
            return Err(NoMemory);
        }
        match self.writer.into_inner() {
            Ok(text) => Ok(text),
            Err(_) => Err(NoMemory),
        }
    }
}
