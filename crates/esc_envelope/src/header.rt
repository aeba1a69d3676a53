//! What a deposit says of itself.

ghost use Rattle.std.specs.Prelude.{◌≡◌, IfOk, option_map};

use crate::place::Place;
use esc_bundle::NoMemory;
use std::alloc::Global;
use std::marker::Model;

/// What a deposit says of itself (RFC 8909, section 5.1).
#[derive(Debug, Drop)]
pub struct Header {
    /// The deposit's id: 1 to 64 of `A-Z a-z 0-9 . _ -`.
    pub id: String,
    pub place: Place,
    /// The `prevId`, the id of an earlier deposit: a Differential builds on that one.
    pub prev: Option<String>,
    /// The revision: how often the deposit was generated again, 0 to 999,999.
    pub resend: u32,
}

impl Model for Header {
    ghost use Rattle.std.specs.Prelude.{string_bytes};
    ghost use Rattle.std.specs.Option.{option_map};
    ghost use Rattle.esc_envelope.specs.HeaderValue.{HeaderValue};

    ghost Value = { HeaderValue };

    ghost view = { λ h. record {
      id = string_bytes h.id;
      place = h.place;
      prev = option_map string_bytes h.prev;
      resend = h.resend;
    } };
}

impl Header {
    /// The header of these values; its texts are copies. The values are not tested: a header that
    /// was read has an id and a `prevId` of the form of ids.
    pub fn new(
        alloc: Global,
        id: &str,
        place: Place,
        prev: Option<&str>,
        resend: u32,
    ) -> Result<Header, NoMemory>
        ensures { IfOk result (λ h. h ≡ record {
          id = id.now;
          place = place;
          prev = option_map (λ t. t.now) prev.entry;
          resend = resend;
        }) }
    {
        let id = String::from_str(alloc, id)?;
        let prev = match prev {
            Some(prev) => Some(String::from_str(alloc, prev)?),
            None => None,
        };
        Ok(Header {
            id,
            place,
            prev,
            resend,
        })
    }

    /// An equal header.
    pub fn copy(&self, alloc: Global) -> Result<Header, NoMemory>
        ensures { IfOk result (λ h. h ≡ self.now) }
    {
        Header::new(
            alloc,
            self.id.as_str(),
            self.place,
            self.prev.as_deref(),
            self.resend,
        )
    }
}
