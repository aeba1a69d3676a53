//! What `take` would find of a body.

ghost use Rattle.std.specs.Prelude.{◌≡◌, ◌<◌, length, not, IfOk};
ghost use Rattle.std.specs.List.{list_all, list_any};
ghost use Rattle.esc_tables.specs.Reading.{reading};
ghost use Rattle.esc_manifest.specs.Listed.{as_listed};
ghost use Rattle.esc_pack.specs.Forecasts.{said, row_forecast, forecast, is_at_row};
ghost use Rattle.esc_pack.specs.Forecasts.{forecast_listed_row, forecast_held_row, members};
ghost use Rattle.esc_pack.specs.Forecasts.{differs};

use crate::member::Member;
use esc_bundle::{Fault, NoMemory, Refusal};
use esc_envelope::{DepositType, Header};
use esc_manifest::{MRow, Manifest};
use esc_tables::read_deposit;
use sha2::{Digest, Sha256};
use std::alloc::Global;

/// What is found of a body by the rows of a manifest, which are indices from 0.
#[derive(Debug, Drop)]
pub enum Forecast {
    /// No row has its SHA-256: `A5`. What its deposit says of itself, or the refusal if it is none.
    Unlisted(Result<Header, Refusal>),
    /// This row has its SHA-256, but it is no deposit, by this refusal: `A3`.
    Unreadable(usize, Refusal),
    /// This row has its SHA-256, but its deposit says something else of itself: `A4`.
    Differing(usize, Header),
    /// It is the deposit of this row: `A1`.
    Holding(usize),
}

/// What the desk would find of a body by the rows of a manifest.
pub fn forecast_of(alloc: Global, manifest: &Manifest, body: &[u8]) -> Result<Forecast, NoMemory>
    ensures { IfOk result (λ f. f ≡ forecast manifest.now body.now) }
{
    let row = manifest.row_by_digest(&Sha256::digest(body));
    let said = header_of(alloc, body)?;
    Ok(match row {
        Some(row) => found(manifest.rows(), row, said),
        None => Forecast::Unlisted(said),
    })
}

// What the deposit of a body says of itself, or its refusal.
fn header_of(alloc: Global, body: &[u8]) -> Result<Result<Header, Refusal>, NoMemory>
    ensures { IfOk result (λ h. h ≡ said (reading body.now)) }
{
    match read_deposit(alloc, body) {
        Ok(deposit) => Ok(Ok(deposit.header)),
        Err(Fault::Refused(refusal)) => Ok(Err(refusal)),
        Err(Fault::NoMemory) => Err(NoMemory),
    }
}

// What is found at a row.
fn found(rows: &[MRow], row: usize, said: Result<Header, Refusal>) -> Forecast
    requires { row < length rows.now }
    ensures { result ≡ row_forecast rows.now row said }
{
    match said {
        Ok(header) if is_as_listed(&rows[row].header, &header) => Forecast::Holding(row),
        Ok(header) => Forecast::Differing(row, header),
        Err(refusal) => Forecast::Unreadable(row, refusal),
    }
}

fn is_as_listed(row: &Header, deposit: &Header) -> bool
    ensures { result ≡ as_listed row.now deposit.now }
{
    is_alike(row, deposit)
}

// Whether a deposit differs from its row in no member.
#[tactic(auto, unfolding(crate::specs::Forecasts::members))]
fn is_alike(row: &Header, deposit: &Header) -> bool
    ensures { result ≡ list_all (λ m. not (differs row.now deposit.now m)) members }
{
    Member::ALL
        .iter()
        .all(|member| !differs(row, deposit, *member))
}

/// Whether a deposit says another value of itself than its row. The previous id counts where the
/// row is that of a Differential.
pub fn differs(row: &Header, deposit: &Header, member: Member) -> bool
    ensures { result ≡ differs row.now deposit.now member }
{
    match member {
        Member::Id => row.id != deposit.id,
        Member::Kind => row.place.kind != deposit.place.kind,
        Member::Watermark => row.place.watermark != deposit.place.watermark,
        Member::Resend => row.resend != deposit.resend,
        Member::PrevId => row.place.kind == DepositType::Diff && row.prev != deposit.prev,
    }
}

impl Forecast {
    /// The row that lists the body, if any.
    pub fn listed_row(&self) -> Option<usize>
        ensures { result ≡ forecast_listed_row self.now }
    {
        match self {
            Forecast::Unlisted(_) => None,
            Forecast::Unreadable(row, _) | Forecast::Differing(row, _) | Forecast::Holding(row) => {
                Some(*row)
            }
        }
    }

    /// The row whose deposit the body is, if any.
    pub fn held_row(&self) -> Option<usize>
        ensures { result ≡ forecast_held_row self.now }
    {
        match self {
            Forecast::Holding(row) => Some(*row),
            Forecast::Unlisted(_) | Forecast::Unreadable(..) | Forecast::Differing(..) => None,
        }
    }
}

/// Whether a row lists one of these bodies.
pub fn is_there(forecasts: &[Forecast], row: usize) -> bool
    ensures { result ≡ list_any (λ f. is_at_row row (forecast_listed_row f)) forecasts.now }
{
    forecasts
        .iter()
        .any(|forecast| forecast.listed_row() == Some(row))
}

/// Whether one of these bodies is the deposit of a row: then one more is `again`.
pub fn is_held(forecasts: &[Forecast], row: usize) -> bool
    ensures { result ≡ list_any (λ f. is_at_row row (forecast_held_row f)) forecasts.now }
{
    forecasts
        .iter()
        .any(|forecast| forecast.held_row() == Some(row))
}
