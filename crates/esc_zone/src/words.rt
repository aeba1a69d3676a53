//! What is told of the words of statuses.

ghost use Rattle.std.specs.Prelude.{◌≡◌, ◌≤◌, OnOk};
ghost use Rattle.esc_zone.specs.Told.{told_lines};

use crate::field::{cell, is_same_word};
use crate::sheet::Sheet;
use crate::status::{has_rgp, is_held, is_pending_delete_of_epp};
use esc_bundle::NoMemory;
use esc_tables::Row;
use std::alloc::Global;

/// The statuses of domains (RFC 5731, section 2.3).
const STATUSES: [&str; 17] = [
    "clientDeleteProhibited",
    "clientHold",
    "clientRenewProhibited",
    "clientTransferProhibited",
    "clientUpdateProhibited",
    "inactive",
    "ok",
    "pendingCreate",
    "pendingDelete",
    "pendingRenew",
    "pendingTransfer",
    "pendingUpdate",
    "serverDeleteProhibited",
    "serverHold",
    "serverRenewProhibited",
    "serverTransferProhibited",
    "serverUpdateProhibited",
];

/// The statuses of the grace periods (RFC 3915, section 3.1).
const GRACE: [&str; 7] = [
    "addPeriod",
    "autoRenewPeriod",
    "renewPeriod",
    "transferPeriod",
    "redemptionPeriod",
    "pendingRestore",
    "pendingDelete",
];

/// Those that come with `pendingDelete` (RFC 3915, section 3.1), in the order in which they are told.
const RECOVERY: [&str; 3] = ["pendingDelete", "pendingRestore", "redemptionPeriod"];

/// Tells of statuses in other letters, of unknown ones, and of those of a recovery without
/// `pendingDelete`, if the domain is not held.
pub(crate) fn tell_statuses(
    alloc: Global,
    sheet: &mut Sheet,
    name: &str,
    rows: &[Row],
) -> Result<(), NoMemory>
    ensures same { sheet.new.records ≡ sheet.old.records }
    ensures told { OnOk result (told_lines sheet.old ≤ told_lines sheet.new) }
{
    for row in rows {
        if row.table() == "domainStatuses" {
            tell_word(
                alloc,
                sheet,
                name,
                ("status", cell(row, "status")),
                &STATUSES,
            )?;
            tell_word(
                alloc,
                sheet,
                name,
                ("rgpStatus", cell(row, "rgpStatus")),
                &GRACE,
            )?;
        }
    }
    if is_held(rows) || is_pending_delete_of_epp(rows) {
        return Ok(());
    }
    tell_recovery(alloc, sheet, name, rows)
}

fn tell_word(
    alloc: Global,
    sheet: &mut Sheet,
    name: &str,
    given: (&str, &str),
    words: &[&str],
) -> Result<(), NoMemory>
    ensures same { sheet.new.records ≡ sheet.old.records }
    ensures told { OnOk result (told_lines sheet.old ≤ told_lines sheet.new) }
{
    let (field, text) = given;
    if text.is_empty() || words.iter().any(|word| *word == text) {
        return Ok(());
    }
    let told = format!(in alloc; "{field} {text}")?;
    match words.iter().find(|word| is_same_word(text, word)) {
        Some(word) => {
            let what = format!(in alloc; "taken for {word}")?;
            sheet.tell_status(name, told.as_str(), what)
        }
        None => sheet.tell_status(name, told.as_str(), "is not known"),
    }
}

fn tell_recovery(alloc: Global, sheet: &mut Sheet, name: &str, rows: &[Row]) -> Result<(), NoMemory>
    ensures same { sheet.new.records ≡ sheet.old.records }
    ensures told { OnOk result (told_lines sheet.old ≤ told_lines sheet.new) }
{
    let mut told = String::new(alloc);
    for word in RECOVERY {
        if has_rgp(rows, word) {
            if !told.is_empty() {
                told.push_str(" ")?;
            }
            told.push_str(word)?;
        }
    }
    if told.is_empty() {
        return Ok(());
    }
    sheet.tell_status(name, told.as_str(), "without pendingDelete")
}
