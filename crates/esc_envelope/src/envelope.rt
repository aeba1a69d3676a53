//! The envelope of a deposit.

ghost use Rattle.std.specs.Prelude.{◌≡◌, ◌⊎◌, Ok, Err, Some, None, IfOk, IfErr, IsErrAnd};
ghost use Rattle.serde_json.specs.View.{view};
ghost use Rattle.esc_envelope.specs.Envelope.{json_of, envelope_in, envelope_of};
ghost use Rattle.esc_envelope.specs.EnvelopeFaults.{IsLeastEnvelopeFault};

use crate::counts::counts_of;
use crate::header::Header;
use crate::kind::Kind;
use crate::members::header_in;
use crate::table::Table;
use crate::tables::{contents_in, deletes_in};
use crate::texts::array_of;
use esc_bundle::{Fault, Refusal};
use serde_json::Value;
use std::alloc::Global;
use std::collections::BTreeMap;
use std::marker::Model;

/// What the envelope of a deposit says (this project's profile of RFC 8909, section 5.1).
#[derive(Drop)]
pub struct Envelope {
    pub header: Header,
    /// How many objects of each kind the registry had at the watermark, as declared. A kind without
    /// a declared number has no entry.
    pub counts: BTreeMap<Kind, u64>,
    /// The tables of contents: no two with the same name, and at most one parent table for each
    /// kind.
    pub contents: Vec<Table>,
    /// The tables of deletes: no two with the same name, and parent tables alone.
    pub deletes: Vec<Table>,
}

impl Model for Envelope {
    ghost use Rattle.esc_envelope.specs.EnvelopeValue.{EnvelopeValue};
    ghost use Rattle.esc_envelope.specs.DeclaredTables.{AreContents, AreDeletes};

    ghost Value = { EnvelopeValue };

    ghost view = { λ e. record {
      header = e.header;
      counts = e.counts.entries;
      contents = e.contents.items;
      deletes = e.deletes.items;
    } };

    ghost invariant = { λ e. AreContents e.contents.items × AreDeletes e.deletes.items };
}

fn parsed(alloc: Global, json: &[u8]) -> Result<Value, Fault>
    ensures json { IfOk result (λ v. json_of json.now ≡ Some (view v)) }
    ensures refused { IfErr result (λ e. (why : Refusal) → e ≡ Fault.Refused why
        → (why ≡ Refusal.NotJson) × (json_of json.now ≡ None)) }
{
    match Value::from_slice(alloc, json) {
        Ok(value) => Ok(value),
        Err(error) => {
            if error.is_memory() {
                Err(Fault::NoMemory)
            } else {
                Err(Fault::Refused(Refusal::NotJson))
            }
        }
    }
}

#[tactic(auto, unfolding(crate::specs::Envelope::envelope_in))]
fn envelope_in(alloc: Global, json: &Value) -> Result<Envelope, Fault>
    ensures envelope { IfOk result (λ e. envelope_in (view json.now) ≡ Ok e) }
    ensures refused { IfErr result (λ e. (why : Refusal) → e ≡ Fault.Refused why
        → envelope_in (view json.now) ≡ Err why) }
{
    let Some(header) = header_in(alloc, json)? else {
        return Err(Fault::Refused(Refusal::WrongMember));
    };
    let Some(counts) = counts_of(alloc, json)? else {
        return Err(Fault::Refused(Refusal::WrongMember));
    };
    let Some(declared) = array_of(json, "contents") else {
        return Err(Fault::Refused(Refusal::WrongMember));
    };
    let Some(deleted) = array_of(json, "deletes") else {
        return Err(Fault::Refused(Refusal::WrongMember));
    };
    let Some(contents) = contents_in(alloc, declared)? else {
        return Err(Fault::Refused(Refusal::WrongTable));
    };
    let Some(deletes) = deletes_in(alloc, deleted)? else {
        return Err(Fault::Refused(Refusal::WrongTable));
    };
    Ok(Envelope {
        header,
        counts,
        contents,
        deletes,
    })
}

// The envelope that a JSON text is, or the first refusal that applies.
#[tactic(auto, unfolding(crate::specs::Envelope::envelope_of))]
fn envelope_from(alloc: Global, json: &[u8]) -> Result<Envelope, Fault>
    ensures envelope { IfOk result (λ e. envelope_of json.now ≡ Ok e) }
    ensures refused { IfErr result (λ e. (why : Refusal) → e ≡ Fault.Refused why
        → envelope_of json.now ≡ Err why) }
{
    let json = parsed(alloc, json)?;
    envelope_in(alloc, &json)
}

/// The envelope that a JSON text is (RFC 8259, as `serde_json` reads it; this project's profile).
///
/// # Errors
///
/// The first of these that applies:
///
/// - `NotJson`: the text is no JSON;
/// - `WrongMember`: a member other than those of a table is missing, or not of its form;
/// - `WrongTable`: the declaration of a table is not valid.
///
/// `NoMemory` out of memory.
pub fn read_envelope(alloc: Global, json: &[u8]) -> Result<Envelope, Fault>
    ensures envelope { IfOk result (λ e. envelope_of json.now ≡ Ok e) }
    ensures refused { IfErr result (λ e. (why : Refusal) → e ≡ Fault.Refused why
        → envelope_of json.now ≡ Err why) }
    ensures least { IfErr result (λ e. (why : Refusal) → e ≡ Fault.Refused why
        → IsLeastEnvelopeFault json.now why) }
    ensures fault_told { (why : Refusal) → IsLeastEnvelopeFault json.now why →
        IsErrAnd result (λ e. (e ≡ Fault.Refused why) ⊎ (e ≡ Fault.NoMemory)) }
{
    envelope_from(alloc, json)
}
