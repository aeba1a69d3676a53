//! The TLDs of bundles: a bundle of another TLD than the others is told.

use crate::stop::Stop;
use esc_cli::OneLine;
use esc_pack::{NamedTld, first_against, tld_of_body};
use std::io::Write;

/// The bundles so far, each with the TLD that it names.
#[derive(Drop)]
pub struct Tlds {
    bundles: Vec<NamedTld>,
}

impl Tlds {
    /// Of no bundle.
    pub fn new(rt: &HostRuntime) -> Tlds {
        Tlds {
            bundles: Vec::new(rt.alloc()),
        }
    }

    /// Adds the TLD of a body, and tells it on standard error if it is another than that of the
    /// first bundle that names one.
    pub fn add<E: Write>(
        &mut self,
        rt: &HostRuntime,
        name: &str,
        body: &[u8],
        err: &mut E,
    ) -> Result<(), Stop> {
        let tld = tld_of_body(rt.alloc(), body)?;
        if let Some(first) = first_against(&self.bundles, &tld) {
            let line = other_line(rt, name, tld.as_deref(), first)?;
            // A failure of standard error is ignored: there is nowhere to report it.
            let _ = err.write_all(line.as_bytes());
        }
        let bundle = String::from_str(rt.alloc(), name)?;
        self.bundles.push(NamedTld { bundle, tld })?;
        Ok(())
    }
}

// The line of a bundle that names another TLD than the first one.
fn other_line(
    rt: &HostRuntime,
    name: &str,
    tld: Option<&str>,
    first: &NamedTld,
) -> Result<String, Stop> {
    let (name, tld) = (OneLine(name), OneLine(tld.unwrap_or("")));
    let (other, others) = (
        OneLine(first.bundle.as_str()),
        OneLine(first.tld.as_deref().unwrap_or("")),
    );
    Ok(format!(in rt.alloc(); "other tld {name}: {tld}, that of {other} is {others}\n")?)
}
