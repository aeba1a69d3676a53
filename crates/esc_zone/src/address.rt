//! Addresses of servers.

ghost use Rattle.std.specs.Prelude.{◌≡◌, ◌↔◌, IsTrue, IfOk, string_bytes};
ghost use Rattle.std.specs.Net.Grammar.{Parses};
ghost use Rattle.esc_zone.specs.Addresses.{IsServersV4, IsServersV6, IsServers, IsServersText};
ghost use Rattle.esc_zone.specs.Addresses.{HasAddress, said_texts, ip_cmp, AreAddresses};
ghost use Rattle.esc_zone.specs.Lists.{GivesEach, IsOrderedOnce};

use crate::lists::push_some;
use esc_bundle::NoMemory;
use std::alloc::Global;
use std::net::{IpAddr, Ipv4Addr, Ipv6Addr};

/// An address as a row has it: its text, and the version that the row says.
#[derive(Debug, Drop)]
pub(crate) struct Said {
    pub(crate) text: String,
    pub(crate) version: String,
}

impl Said {
    pub(crate) fn copy(&self, alloc: Global) -> Result<Said, NoMemory>
        ensures { IfOk result (λ it. string_bytes it.text ≡ string_bytes self.now.text) }
    {
        Ok(Said {
            text: String::from_str(alloc, self.text.as_str())?,
            version: String::from_str(alloc, self.version.as_str())?,
        })
    }

    /// The address of a server that the text is, or why it is none.
    pub(crate) fn address(&self) -> Result<IpAddr, &'static str>
        ensures { Parses IsServersText (string_bytes self.now.text) result }
    {
        match IpAddr::parse_ascii(self.text.as_bytes()) {
            Ok(address) if is_servers(&address) => Ok(address),
            Ok(_) => Err("an address of no server"),
            Err(_) => Err("no address"),
        }
    }
}

fn is_servers_v4(address: &Ipv4Addr) -> bool
    ensures { IsTrue result ↔ IsServersV4 address.now }
{
    !(address.is_loopback()
        || address.is_unspecified()
        || address.is_multicast()
        || address.is_link_local())
}

fn is_servers_v6(address: &Ipv6Addr) -> bool
    ensures { IsTrue result ↔ IsServersV6 address.now }
{
    !(address.is_loopback()
        || address.is_unspecified()
        || address.is_multicast()
        || address.is_unicast_link_local()
        || address.to_ipv4_mapped().is_some())
}

/// Whether an address may be one of a server: it is no loopback, unspecified, multicast, link-local
/// or mapped address (RFC 6890).
pub(crate) fn is_servers(address: &IpAddr) -> bool
    ensures { IsTrue result ↔ IsServers address.now }
{
    match address {
        IpAddr::V4(v4) => is_servers_v4(v4),
        IpAddr::V6(v6) => is_servers_v6(v6),
    }
}

/// Whether one of these rows has an address of a server.
pub(crate) fn has_address(rows: &[Said]) -> bool
    ensures { IsTrue result ↔ HasAddress (said_texts rows.now) }
{
    for row in rows {
        if row.address().is_ok() {
            return true;
        }
    }
    false
}

// The addresses that these rows have, by row.
fn given_by(alloc: Global, rows: &[Said]) -> Result<Vec<IpAddr>, NoMemory>
    ensures { IfOk result (λ given. GivesEach IsServersText (said_texts rows.now) given.items) }
{
    let mut given = Vec::new(alloc);
    for row in rows {
        push_some(&mut given, row.address().ok())?;
    }
    Ok(given)
}

// These addresses in order, each once.
fn in_order_once(mut addresses: Vec<IpAddr>) -> Vec<IpAddr>
    ensures { IsOrderedOnce ip_cmp addresses.items result.items }
{
    addresses.sort_unstable();
    addresses.dedup();
    addresses
}

/// The addresses of these rows: IPv4 first, by number, each once.
pub(crate) fn addresses_of(alloc: Global, rows: &[Said]) -> Result<Vec<IpAddr>, NoMemory>
    ensures { IfOk result (λ addresses. AreAddresses (said_texts rows.now) addresses.items) }
{
    let given = given_by(alloc, rows)?;
    Ok(in_order_once(given))
}
