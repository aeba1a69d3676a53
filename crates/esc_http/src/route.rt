//! Where the path of a request leads.

ghost use Rattle.std.specs.Prelude.{◌≡◌, [], IfOk, OnOk, option_map};
ghost use Rattle.esc_http.specs.Route.{route_of, route_seen, strip, way_to};
ghost use Rattle.esc_http.specs.Router.{rows};

use esc_envelope::Kind;
use esc_reports::Report;
use matchit::{InsertError, Router};
use std::alloc::Global;

/// What the router keeps of a route.
#[derive(Clone, Copy, Debug, PartialEq, Eq)]
pub(crate) enum Target {
    Arrivals,
    Export,
    Report(Report),
}

/// Where a path leads.
#[derive(Clone, Copy, Debug)]
pub(crate) enum Route<'p> {
    /// To an arrival with this number, which isn't tested yet.
    Arrival(&'p str),
    /// To a report.
    Report(Report),
}

/// The router of all routes.
pub(crate) fn router(alloc: Global) -> Result<Router<Target>, InsertError>
    ensures routes { IfOk result (λ router. router ≡ rows) }
{
    let mut router = Router::new(alloc);
    add_routes(&mut router)?;
    Ok(router)
}

fn add_routes(router: &mut Router<Target>) -> Result<(), InsertError>
    requires { router.old ≡ [] }
    ensures { OnOk result (router.new ≡ rows) }
{
    router.insert("/arrivals/{number}", Target::Arrivals)?;
    router.insert("/status", Target::Report(Report::Status))?;
    router.insert("/gaps", Target::Report(Report::Gaps))?;
    router.insert("/links", Target::Report(Report::Links))?;
    router.insert("/receipts", Target::Report(Report::Receipts))?;
    router.insert("/parked", Target::Report(Report::Parked))?;
    router.insert("/moment", Target::Report(Report::Moment))?;
    router.insert("/export/{kind}", Target::Export)?;
    Ok(())
}

/// Where a path leads, or `None` if it has no route (this project's profile). Nothing is decoded.
pub(crate) fn route_of<'p>(router: &Router<Target>, path: &'p str) -> Option<Route<'p>>
    requires routes { router.now ≡ rows }
    ensures leads { option_map route_seen result ≡ route_of path.now }
{
    match router.at(path) {
        Ok(found) => way_to(*found.value, path),
        Err(_) => None,
    }
}

// Where a path leads, by the target that the router has for it.
fn way_to<'p>(target: Target, path: &'p str) -> Option<Route<'p>>
    ensures { option_map route_seen result ≡ way_to target path.now }
{
    match target {
        Target::Arrivals => Some(Route::Arrival(strip("/arrivals/", path)?)),
        Target::Export => {
            let kind = Kind::from_name(strip("/export/", path)?)?;
            Some(Route::Report(Report::Export(kind)))
        }
        Target::Report(report) => Some(Route::Report(report)),
    }
}

fn strip<'p>(front: &str, path: &'p str) -> Option<&'p str>
    ensures { option_map (λ text. text.now) result ≡ strip front.now path.now }
{
    path.strip_prefix(front)
}
