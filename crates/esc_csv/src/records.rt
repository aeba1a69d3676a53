//! The records of a text, one at a time.

ghost use Rattle.std.specs.Prelude.{◌≡◌, ◌≢◌, ◌∷◌, [], true, Ok, IfOk, MatchBool};
ghost use Rattle.csv.specs.Records.{fields_of};
ghost use Rattle.esc_csv.specs.Records.{records_of};

use crate::record::Record;
use csv::{ByteRecord, ErrorKind, Reader, ReaderBuilder};
use esc_bundle::NoMemory;
use std::alloc::Global;
use std::marker::Model;

/// The records of a text that are still to be read. Contracts see the list of them.
#[derive(Drop)]
pub struct Records<'a> {
    reader: Reader<&'a [u8]>,
    has_ended: bool,
}

impl<'a> Model for Records<'a> {
    ghost use Rattle.std.specs.Prelude.{◌≡◌, List, [], ℕ, false, if◌then◌else◌};
    ghost use Rattle.esc_csv.specs.Between.{records_left, IsReading};

    ghost Value = { List (List (List ℕ)) };

    ghost view = { λ r. if r.has_ended then [] else records_left r.reader };

    ghost invariant = { λ r. r.has_ended ≡ false → IsReading r.reader };
}

impl<'a> Records<'a> {
    /// All records of a text.
    pub fn of(alloc: Global, text: &'a [u8]) -> Records<'a>
        ensures { result ≡ records_of text.now }
    {
        Records {
            reader: ReaderBuilder::new()
                .has_headers(false)
                .flexible(true)
                .from_reader(alloc, text),
            has_ended: false,
        }
    }

    /// Reads the next record into `target`, and returns whether there was one. Once it has returned
    /// `Err` or `false`, there are no more records.
    pub fn next(&mut self, target: &mut Record) -> Result<bool, NoMemory>
        ensures next { IfOk result (λ found.
            MatchBool found (self.old ≡ target.new ∷ self.new) (self.old ≡ [])) }
        ensures ended { result ≢ Ok true → self.new ≡ [] }
    {
        self.read(&mut target.fields)
    }

    fn read(&mut self, fields: &mut ByteRecord) -> Result<bool, NoMemory>
        ensures next { IfOk result (λ found.
            MatchBool found (self.old ≡ fields_of fields.new ∷ self.new) (self.old ≡ [])) }
        ensures ended { result ≢ Ok true → self.new ≡ [] }
    {
        if self.has_ended {
            return Ok(false);
        }
        match self.reader.read_byte_record(fields) {
            Ok(true) => Ok(true),
            Ok(false) => {
                self.has_ended = true;
                Ok(false)
            }
            Err(error) => {
                self.has_ended = true;
                match error.into_kind() {
                    // A read of a slice of bytes fails only out of memory.
                    ErrorKind::Io(_) | ErrorKind::OutOfMemory => Err(NoMemory),
                    _ => unreachable!(),
                }
            }
        }
    }
}
