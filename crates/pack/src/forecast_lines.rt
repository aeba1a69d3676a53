//! The lines of `check`.

use crate::stop::Stop;
use esc_envelope::{Header, watermark_text};
use esc_manifest::Manifest;
use esc_pack::{Forecast, Member, differs, fault_spot, is_held};

/// What would be found of a file after these.
pub fn found_text(
    rt: &HostRuntime,
    manifest: &Manifest,
    before: &[Forecast],
    forecast: &Forecast,
    body: &[u8],
) -> Result<String, Stop> {
    let alloc = rt.alloc();
    let found = match forecast {
        Forecast::Holding(row) => {
            let again = if is_held(before, *row) { " again" } else { "" };
            let listed = listed_text(rt, manifest, *row)?;
            format!(in alloc; "A1{again}, listed as {listed}")?
        }
        Forecast::Differing(row, said) => {
            let listed = listed_text(rt, manifest, *row)?;
            let differences = differences(rt, manifest, *row, said)?;
            format!(in alloc; "A4, listed as {listed}: {differences}")?
        }
        Forecast::Unreadable(row, refusal) => {
            let listed = listed_text(rt, manifest, *row)?;
            let spot = fault_spot(alloc, body)?;
            format!(in alloc; "A3 {refusal}, listed as {listed}: {spot}")?
        }
        Forecast::Unlisted(Ok(said)) => {
            let said = header_text(rt, said)?;
            format!(in alloc; "A5, not listed, says {said}")?
        }
        Forecast::Unlisted(Err(refusal)) => {
            let spot = fault_spot(alloc, body)?;
            format!(in alloc; "A5, not listed, {refusal}: {spot}")?
        }
    };
    Ok(found)
}

/// The line of a listed deposit that no file has.
pub fn missing_line(rt: &HostRuntime, listed: &Header) -> Result<String, Stop> {
    let listed = header_text(rt, listed)?;
    Ok(format!(in rt.alloc(); "no file: {listed}\n")?)
}

// Each value that differs, as the deposit and as its row has it.
fn differences(
    rt: &HostRuntime,
    manifest: &Manifest,
    row: usize,
    said: &Header,
) -> Result<String, Stop> {
    let mut text = String::new(rt.alloc());
    let Some(row) = manifest.rows().get(row) else {
        return Ok(text);
    };
    for member in Member::ALL {
        if differs(&row.header, said, member) {
            let between = if text.is_empty() { "" } else { "; " };
            let said = value_text(rt, said, member)?;
            let listed = value_text(rt, &row.header, member)?;
            let difference = format!(in rt.alloc();
                "{between}{member} is {said}, listed {listed}"
            )?;
            text.push_str(difference.as_str())?;
        }
    }
    Ok(text)
}

fn value_text(rt: &HostRuntime, header: &Header, member: Member) -> Result<String, Stop> {
    let text = match member {
        Member::Id => header.id.as_str(),
        Member::Kind => header.place.kind.name(),
        Member::Watermark => return moment(rt, header.place.watermark),
        Member::Resend => return Ok(format!(in rt.alloc(); "{}", header.resend)?),
        Member::PrevId => header.prev.as_deref().unwrap_or("(none)"),
    };
    Ok(String::from_str(rt.alloc(), text)?)
}

// The text of a watermark; empty outside the years 1970 to 2261, where none that was read is.
fn moment(rt: &HostRuntime, watermark: i64) -> Result<String, Stop> {
    Ok(watermark_text(rt.alloc(), watermark)?.unwrap_or(String::new(rt.alloc())))
}

fn listed_text(rt: &HostRuntime, manifest: &Manifest, row: usize) -> Result<String, Stop> {
    match manifest.rows().get(row) {
        Some(row) => header_text(rt, &row.header),
        None => Ok(String::new(rt.alloc())),
    }
}

// What a deposit says of itself, or its row says of it: id, type, watermark and resend.
fn header_text(rt: &HostRuntime, header: &Header) -> Result<String, Stop> {
    let watermark = moment(rt, header.place.watermark)?;
    let (id, kind, resend) = (header.id.as_str(), header.place.kind.name(), header.resend);
    Ok(format!(in rt.alloc(); "{id} {kind} {watermark} resend {resend}")?)
}
