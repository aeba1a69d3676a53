//! Reading a bundle as a deposit.

ghost use Rattle.std.specs.Prelude.{◌≡◌, ◌≢◌, ◌<◌, ◌≤◌, ◌++◌, ℕ, List, length, Ok, Err, IfOk};
ghost use Rattle.std.specs.Prelude.{IfErr, OnOk, MatchResult};
ghost use Rattle.esc_bundle.specs.Bundle.{views, limit, first_line};
ghost use Rattle.esc_tables.specs.TableRow.{rows_in};
ghost use Rattle.esc_tables.specs.DepositValue.{DepositValue};
ghost use Rattle.esc_tables.specs.Reading.{tables_of, check_rows, deposit_of_files, deposit_in};
ghost use Rattle.esc_tables.specs.Reading.{reading, bundled_envelope};

use crate::deposit::Deposit;
use crate::files::are_filed;
use crate::gather::gather;
use crate::tables::read_rows;
use esc_bundle::{Fault, Refusal, Section, sections};
use esc_envelope::{Envelope, read_envelope};
use std::alloc::Global;

// The deposit that the rows make, or the least fault of theirs.
fn make_deposit(alloc: Global, files: &[Section<'_>], envelope: Envelope) -> Result<Deposit, Fault>
    ensures passed { OnOk result
        (check_rows (rows_in (views files.now) (tables_of envelope)) ≡ Ok tt) }
    ensures made { IfOk result (λ d. d ≡ deposit_of_files (views files.now) envelope) }
    ensures refused { IfErr result (λ e. (why : Refusal) → e ≡ Fault.Refused why
        → check_rows (rows_in (views files.now) (tables_of envelope)) ≡ Err why) }
{
    let Envelope {
        header,
        counts,
        contents,
        deletes,
    } = envelope;
    let rows = read_rows(alloc, files, contents.as_slice(), deletes.as_slice())?;
    let gathered = gather(alloc, rows.parents, rows.children)?;
    Ok(Deposit {
        header,
        counts,
        deletes: rows.deletes,
        contents: gathered.objects,
        orphans: gathered.orphans,
    })
}

fn read_files(alloc: Global, files: &[Section<'_>], envelope: Envelope) -> Result<Deposit, Fault>
    ensures read { IfOk result (λ d. deposit_in (views files.now) envelope ≡ Ok d) }
    ensures refused { IfErr result (λ e. (why : Refusal) → e ≡ Fault.Refused why
        → deposit_in (views files.now) envelope ≡ Err why) }
{
    let contents = envelope.contents.as_slice();
    let deletes = envelope.deletes.as_slice();
    if !are_filed(files, contents, deletes) {
        return Err(Fault::Refused(Refusal::WrongFiles));
    }
    make_deposit(alloc, files, envelope)
}

/// The deposit that the bytes of a bundle are (RFC 8909, section 2, and this project's profile).
///
/// # Errors
///
/// `Refused` with the least of U1 to U11 that applies:
///
/// - U1 to U4: the frame, as `sections` of `esc_bundle` returns it;
/// - U5 to U7: the envelope, as `read_envelope` of `esc_envelope` returns it;
/// - `WrongFiles`: a declared file is no section after the envelope, or such a section isn't
///   declared exactly once;
/// - `BrokenRow`: a row has another number of fields than declared, or a field that is no UTF-8;
/// - `WrongKey`: a key is empty or longer than 255 bytes;
/// - `TooManyRows`: there are more than 100,000 rows.
///
/// `NoMemory` out of memory.
pub fn read_deposit(alloc: Global, body: &[u8]) -> Result<Deposit, Fault>
    ensures read { IfOk result (λ d. reading body.now ≡ Ok d) }
    ensures refused { IfErr result (λ e. (why : Refusal) → e ≡ Fault.Refused why
        → reading body.now ≡ Err why) }
    ensures over_limit { limit < length body.now → result ≡ Err (Fault.Refused Refusal.OverLimit) }
    ensures other_line { length body.now ≤ limit →
        ((rest : List ℕ) → body.now ≢ first_line ++ rest) →
        result ≡ Err (Fault.Refused Refusal.BrokenFrame) }
{
    let sections = sections(alloc, body)?;
    let [first, files @ ..] = sections.as_slice() else {
        unreachable!()
    };
    let envelope = read_envelope(alloc, first.bytes)?;
    read_files(alloc, files, envelope)
}

/// The envelope of a bundle. Of the files only the frame is read, and no row. If the body is a
/// deposit, header and counts are those of the deposit.
///
/// # Errors
///
/// `Refused` with the least of U1 to U7 that applies, as of `read_deposit`; `NoMemory` out of
/// memory.
pub fn read_bundled_envelope(alloc: Global, body: &[u8]) -> Result<Envelope, Fault>
    ensures read { IfOk result (λ e. bundled_envelope body.now ≡ Ok e) }
    ensures refused { IfErr result (λ e. (why : Refusal) → e ≡ Fault.Refused why
        → bundled_envelope body.now ≡ Err why) }
    ensures deposit { (d : DepositValue) → reading body.now ≡ Ok d →
        MatchResult result (λ e. (e.header ≡ d.header) × (e.counts ≡ d.counts))
        (λ e. e ≡ Fault.NoMemory) }
    ensures over_limit { limit < length body.now → result ≡ Err (Fault.Refused Refusal.OverLimit) }
    ensures other_line { length body.now ≤ limit →
        ((rest : List ℕ) → body.now ≢ first_line ++ rest) →
        result ≡ Err (Fault.Refused Refusal.BrokenFrame) }
{
    first_envelope(alloc, body)
}

fn first_envelope(alloc: Global, body: &[u8]) -> Result<Envelope, Fault>
    ensures read { IfOk result (λ e. bundled_envelope body.now ≡ Ok e) }
    ensures refused { IfErr result (λ e. (why : Refusal) → e ≡ Fault.Refused why
        → bundled_envelope body.now ≡ Err why) }
    ensures over_limit { limit < length body.now → result ≡ Err (Fault.Refused Refusal.OverLimit) }
    ensures other_line { length body.now ≤ limit →
        ((rest : List ℕ) → body.now ≢ first_line ++ rest) →
        result ≡ Err (Fault.Refused Refusal.BrokenFrame) }
{
    let sections = sections(alloc, body)?;
    let [envelope, ..] = sections.as_slice() else {
        unreachable!()
    };
    read_envelope(alloc, envelope.bytes)
}
