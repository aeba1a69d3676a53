//! One record of a text.

ghost use Rattle.std.specs.Prelude.{◌≡◌, [], length, true, IfOk};
ghost use Rattle.std.specs.List.{list_all};
ghost use Rattle.std.specs.Str.{is_utf8};
ghost use Rattle.csv.specs.Records.{fields_of};
ghost use Rattle.esc_csv.specs.Records.{field};

use csv::{ByteRecord, StringRecord};
use esc_bundle::NoMemory;
use std::alloc::Global;
use std::marker::Model;
use std::str;

/// A record: its fields, each of them bytes. Contracts see the list of them.
#[derive(Debug, Drop)]
pub struct Record {
    pub(crate) fields: ByteRecord,
}

impl Model for Record {
    ghost use Rattle.std.specs.Prelude.{List, ℕ};
    ghost use Rattle.csv.specs.Records.{fields_of};

    ghost Value = { List (List ℕ) };

    ghost view = { λ r. fields_of r.fields };
}

impl Record {
    /// A record without fields, for `Records::next` to fill.
    pub fn new(alloc: Global) -> Record
        ensures { result ≡ [] }
    {
        Record {
            fields: ByteRecord::new(alloc),
        }
    }

    /// How many fields there are.
    pub fn len(&self) -> usize
        ensures { result ≡ length self.now }
    {
        self.fields.len()
    }

    /// The field with this index, from 0; empty if there is none.
    pub fn field(&self, place: usize) -> &[u8]
        ensures { result.now ≡ field self.now place }
    {
        match self.fields.get(place) {
            Some(field) => field,
            None => &[],
        }
    }

    /// Whether each field is UTF-8.
    pub fn is_text(&self) -> bool
        ensures { result ≡ list_all is_utf8 self.now }
    {
        for place in 0..self.len() {
            if !is_text(self.field(place)) {
                return false;
            }
        }
        true
    }

    /// The field with this index, from 0, as text; empty if there is none. Each field of the record
    /// has to be UTF-8.
    pub fn text(&self, place: usize) -> &str
        requires { list_all is_utf8 self.now ≡ true }
        ensures { result.now ≡ field self.now place }
    {
        match str::from_utf8(self.field(place)) {
            Ok(text) => text,
            Err(_) => unreachable!(),
        }
    }

    /// The fields as one list of texts. Each field of the record has to be UTF-8.
    pub fn texts(&self) -> Result<StringRecord, NoMemory>
        requires { list_all is_utf8 self.now ≡ true }
        ensures { IfOk result (λ texts. fields_of texts ≡ self.now) }
    {
        match StringRecord::from_byte_record(self.fields.clone()?) {
            Ok(texts) => Ok(texts),
            Err(_) => unreachable!(),
        }
    }
}

fn is_text(field: &[u8]) -> bool
    ensures { result ≡ is_utf8 field.now }
{
    str::from_utf8(field).is_ok()
}
