//! Findings in tables that are all in memory.

use super::asserts::assert_told;
use super::bodies::DATED;
use esc_bundle::{Fault, NoMemory};
use esc_check::verify;
use esc_tables::{Deposit, read_deposit};
use std::alloc::Global;

/// A line for each finding in what a body has.
const FOUND: &str = "\
Finding { rule: KnownStatus, kind: Domain, key: \"g.example\", field: \"status\", value: \"gone\", other: \"\" }
Finding { rule: OkAlone, kind: Domain, key: \"g.example\", field: \"status\", value: \"ok\", other: \"\" }
Finding { rule: CreatedBefore, kind: Domain, key: \"g.example\", field: \"crDate\", value: \"2024-03-04T00:00:00Z\", other: \"2024-03-03T00:00:00Z\" }
Finding { rule: ExpiresAfter, kind: Domain, key: \"g.example\", field: \"exDate\", value: \"2024-03-02T00:00:00Z\", other: \"2024-03-04T00:00:00Z\" }
Finding { rule: DateForm, kind: Domain, key: \"h.example\", field: \"crDate\", value: \"2024-03-04\", other: \"\" }
";

fn findings(alloc: Global, deposit: &Deposit) -> Result<String, NoMemory> {
    let watermark = deposit.header.place.watermark;
    let mut text = String::new(alloc);
    for finding in &verify(alloc, &deposit.contents, watermark, &deposit.counts)? {
        writeln!(text, "{finding:?}")?;
    }
    Ok(text)
}

fn found_told(alloc: Global, body: &str) -> Result<String, Fault> {
    let deposit = read_deposit(alloc, body.as_bytes())?;
    Ok(findings(alloc, &deposit)?)
}

#[test]
fn what_is_found(rt: HostRuntime) {
    assert_told(&rt, "findings", found_told(rt.alloc(), DATED), FOUND);
}
