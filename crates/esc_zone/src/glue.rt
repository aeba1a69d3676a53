//! The addresses of servers in the zone.

ghost use Rattle.std.specs.Prelude.{◌≡◌, ◌≤◌, ◌||◌, OnOk, MatchBool};
ghost use Rattle.esc_zone.specs.Addresses.{said_texts};
ghost use Rattle.esc_zone.specs.Delegations.{with_records};
ghost use Rattle.esc_zone.specs.Drafts.{zone_notes, takes_glue};
ghost use Rattle.esc_zone.specs.Glue.{address_records, AddsGlue};
ghost use Rattle.esc_zone.specs.Names.{name_eq};
ghost use Rattle.esc_zone.specs.Passes.{without_texts};
ghost use Rattle.esc_zone.specs.Told.{told_lines, TellsOfAddresses};

use crate::address::{Said, addresses_of};
use crate::counts::add;
use crate::draft::{Draft, Server};
use crate::fault::{Halt, Rule, refused};
use crate::name::Name;
use crate::sheet::Sheet;
use esc_bundle::NoMemory;
use esc_cli::OneLine;
use std::alloc::Global;
use std::collections::BTreeMap;
use std::mem;
use std::net::IpAddr;

impl Draft {
    /// The servers in the zone, which are taken out of what is kept.
    pub(crate) fn take_servers(&mut self) -> BTreeMap<Name, Server>
        ensures servers { result.entries ≡ self.old.servers.entries }
        ensures noted { zone_notes self.new ≡ without_texts (zone_notes self.old) }
    {
        mem::replace(&mut self.servers, BTreeMap::new(self.alloc))
    }

    /// Writes the addresses of a server in the zone, if it is in use.
    pub(crate) fn write_host(
        &mut self,
        host: &Name,
        server: &Server,
        sheet: &mut Sheet,
    ) -> Result<(), Halt>
        ensures noted { OnOk result (zone_notes self.new ≡ zone_notes self.old) }
        ensures records { OnOk result (AddsGlue (zone_notes self.old) host.now server.now.user
            (said_texts server.now.rows.items) sheet.old.records sheet.new.records) }
        ensures told { OnOk result (TellsOfAddresses (said_texts server.now.rows.items)
            (told_lines sheet.old) (told_lines sheet.new)) }
    {
        tell_faults(self.alloc, sheet, host, &server.rows)?;
        let Some(user) = &server.user else {
            return Ok(());
        };
        let addresses = addresses_of(self.alloc, &server.rows)?;
        if let Some(others) = self.apex.addresses(host) {
            if server.is_object && !are_same(&addresses, others) {
                sheet.tell_others(host)?;
            }
            return Ok(());
        }
        self.check_own_server(host, user, &addresses)?;
        self.write_used(host, user, &addresses, sheet)
    }

    // Refused by `Z3` where a server of the zone itself has no address.
    fn check_own_server(&self, host: &Name, user: &Name, addresses: &[IpAddr]) -> Result<(), Halt> {
        if *user != self.settings.origin || !addresses.is_empty() {
            return Ok(());
        }
        let host = host.text();
        let text = format!(in self.alloc; "the zone's own server {host} has no address");
        Err(refused(Rule::Apex, text))
    }

    // Writes these addresses of a server, which this name uses, and tells of those that are below
    // no delegation. These are left out if the settings say so, unless the zone itself uses it.
    fn write_used(
        &mut self,
        host: &Name,
        user: &Name,
        addresses: &[IpAddr],
        sheet: &mut Sheet,
    ) -> Result<(), Halt>
        ensures noted { OnOk result (zone_notes self.new ≡ zone_notes self.old) }
        ensures records { OnOk result (MatchBool
            (takes_glue (zone_notes self.old) host.now
            || name_eq user.now (zone_notes self.old).origin)
            (sheet.new.records ≡ with_records sheet.old.records
            (address_records sheet.old.records.ttl host.now addresses.now))
            (sheet.new.records ≡ sheet.old.records)) }
        ensures told { OnOk result (told_lines sheet.old ≤ told_lines sheet.new) }
    {
        let is_orphan = self.cut_of(host)?.is_none();
        if is_orphan && !addresses.is_empty() {
            sheet.tell_orphan(host, user)?;
        }
        if is_orphan && !self.settings.has_orphan_glue && *user != self.settings.origin {
            return Ok(());
        }
        if is_orphan && !addresses.is_empty() {
            add(&mut self.counts.orphan_hosts);
        }
        self.write_addresses(host, addresses, sheet)
    }

    fn write_addresses(
        &mut self,
        host: &Name,
        addresses: &[IpAddr],
        sheet: &mut Sheet,
    ) -> Result<(), Halt>
        ensures noted { OnOk result (zone_notes self.new ≡ zone_notes self.old) }
        ensures records { OnOk result (sheet.new.records ≡ with_records sheet.old.records
            (address_records sheet.old.records.ttl host.now addresses.now)) }
        ensures told { OnOk result (told_lines sheet.new ≡ told_lines sheet.old) }
    {
        for address in addresses {
            sheet.records.add_address(host, address)?;
            add(&mut self.counts.addresses);
            add(&mut self.counts.records);
        }
        Ok(())
    }
}

// Tells of a server's rows that have no address, or another than they say.
fn tell_faults(alloc: Global, sheet: &mut Sheet, host: &Name, rows: &[Said]) -> Result<(), NoMemory>
    ensures same { sheet.new.records ≡ sheet.old.records }
    ensures told { OnOk result (TellsOfAddresses (said_texts rows.now) (told_lines sheet.old)
        (told_lines sheet.new)) }
{
    for row in rows {
        match row.address() {
            Ok(address) => tell_version(alloc, sheet, host, row, &address)?,
            Err(why) => sheet.tell_address(host, row.text.as_str(), why)?,
        }
    }
    Ok(())
}

// Tells of an address of another version than its row says, which is `v4` if it says nothing.
fn tell_version(
    alloc: Global,
    sheet: &mut Sheet,
    host: &Name,
    row: &Said,
    address: &IpAddr,
) -> Result<(), NoMemory>
    ensures same { sheet.new.records ≡ sheet.old.records }
    ensures told { OnOk result (told_lines sheet.old ≤ told_lines sheet.new) }
{
    let is = if address.is_ipv4() { "v4" } else { "v6" };
    let declared = row.version.as_str();
    if declared == is || declared.is_empty() && address.is_ipv4() {
        return Ok(());
    }
    let declared = if declared.is_empty() {
        "v4 (none)"
    } else {
        declared
    };
    let what = format!(in alloc; "is {is}, declared {}", OneLine(declared))?;
    sheet.tell_address(host, row.text.as_str(), what)
}

// Whether each of these is one of the others, and each of the others one of these.
fn are_same(these: &[IpAddr], others: &[IpAddr]) -> bool {
    these.iter().all(|it| others.contains(it)) && others.iter().all(|it| these.contains(it))
}
