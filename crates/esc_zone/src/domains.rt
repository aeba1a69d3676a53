//! Domains: which are delegated, and their name servers.

ghost use Rattle.std.specs.Prelude.{◌≡◌, ◌==◌, ◌<◌, ◌≤◌, ◌+◌, length, OnOk, IfOk, IsSome};
ghost use Rattle.std.specs.Prelude.{MatchBool, MatchOption, []};
ghost use Rattle.std.specs.List.{cons_option};
ghost use Rattle.esc_zone.specs.Statuses.{hold_of};
ghost use Rattle.esc_zone.specs.Delegations.{kept_out, texts_of, IsUsable, IsKeptServer};
ghost use Rattle.esc_zone.specs.Delegations.{IsReached, IsLeftToOther, has_place, with_records};
ghost use Rattle.esc_zone.specs.Delegations.{server_records, AddsDelegation, AddsDomain};
ghost use Rattle.esc_zone.specs.Fields.{normal};
ghost use Rattle.std.specs.Prelude.{◌↔◌, IsTrue, Some, None, if◌then◌else◌};
ghost use Rattle.esc_zone.specs.Lists.{GivesEach, GivesOne, Itself};
ghost use Rattle.esc_zone.specs.Drafts.{zone_notes, cut_above};
ghost use Rattle.esc_zone.specs.Mirrors.{original_notes, with_servers, KeepsServers};
ghost use Rattle.esc_zone.specs.Told.{told_lines, TellsOfDelegation, TellsOfDomain};

use crate::counts::{Outcome, add};
use crate::draft::{Draft, Place, Server, servers_of};
use crate::fault::{Halt, Rule, refused};
use crate::field::cell;
use crate::lists::push_some;
use crate::name::Name;
use crate::reading::{fault_of, name_in, normal, server_fault};
use crate::sheet::Sheet;
use crate::status::{Hold, hold_of};
use crate::words::tell_statuses;
use esc_bundle::NoMemory;
use esc_cli::OneLine;
use esc_tables::{Key, Object, Row};
use std::alloc::Global;

impl Draft {
    /// Writes a domain: its name servers and its DS, if it is delegated.
    pub(crate) fn write_domain(
        &mut self,
        key: &Key,
        object: &Object,
        sheet: &mut Sheet,
    ) -> Result<(), Halt>
        ensures noted { OnOk result (zone_notes self.new ≡ zone_notes self.old) }
        ensures records { OnOk result (AddsDomain (zone_notes self.old) (normal key.now.text)
            object.now.children sheet.old.records sheet.new.records) }
        ensures originals { OnOk result (KeepsServers (normal key.now.text)
            (original_notes self.old) (original_notes self.new) sheet.old.records
            sheet.new.records) }
        ensures told { OnOk result (TellsOfDomain (zone_notes self.old) (normal key.now.text)
            object.now.children (told_lines sheet.old) (told_lines sheet.new)) }
        ensures kept_out { OnOk result (IsSome (hold_of object.now.children)
            → sheet.new.records ≡ sheet.old.records) }
    {
        let text = normal(self.alloc, key.text.as_str())?;
        let text = text.as_str();
        tell_statuses(self.alloc, sheet, text, &object.children)?;
        let outcome = self.place_domain(text, object, sheet)?;
        self.counts.add_domain(outcome);
        self.tell_foreign(text, &object.children, sheet)
    }

    // Writes the records of a domain with this name, or tells why it has none.
    fn place_domain(
        &mut self,
        text: &str,
        object: &Object,
        sheet: &mut Sheet,
    ) -> Result<Outcome, Halt>
        ensures noted { OnOk result (zone_notes self.new ≡ zone_notes self.old) }
        ensures records { OnOk result (AddsDomain (zone_notes self.old) text.now object.now.children
            sheet.old.records sheet.new.records) }
        ensures originals { OnOk result (KeepsServers text.now (original_notes self.old)
            (original_notes self.new) sheet.old.records sheet.new.records) }
        ensures told { OnOk result (TellsOfDomain (zone_notes self.old) text.now object.now.children
            (told_lines sheet.old) (told_lines sheet.new)) }
    {
        let servers = servers_of(self.alloc, &object.children)?;
        match kept_out(&object.children, &servers) {
            Some(outcome) => {
                let given = (&object.parent, servers.as_slice());
                tell_kept(self.alloc, sheet, text, outcome, given)?;
                Ok(outcome)
            }
            None => self.delegate_domain(text, &servers, &object.children, sheet),
        }
    }

    // Delegates a domain that its statuses let in and that has servers, if its name may be there
    // and a server is left.
    fn delegate_domain(
        &mut self,
        text: &str,
        servers: &[String],
        rows: &[Row],
        sheet: &mut Sheet,
    ) -> Result<Outcome, Halt>
        ensures noted { OnOk result (zone_notes self.new ≡ zone_notes self.old) }
        ensures records { OnOk result (AddsDelegation (zone_notes self.old) text.now rows.now
            (texts_of servers.now) sheet.old.records sheet.new.records) }
        ensures originals { OnOk result (KeepsServers text.now (original_notes self.old)
            (original_notes self.new) sheet.old.records sheet.new.records) }
        ensures told { OnOk result (TellsOfDelegation (zone_notes self.old) text.now rows.now
            (texts_of servers.now) (told_lines sheet.old) (told_lines sheet.new)) }
    {
        let Some(name) = self.name_for(text, sheet)? else {
            return Ok(Outcome::NoName);
        };
        let servers = self.usable(&name, servers, sheet)?;
        if servers.is_empty() {
            sheet.leave_out(text, "no server is left")?;
            return Ok(Outcome::NoServerLeft);
        }
        self.write_servers(&name, &servers, sheet)?;
        self.write_signers(&name, rows, sheet)?;
        self.keep_servers(&name, servers);
        Ok(Outcome::Delegated)
    }

    /// The name that a text is, if it has its place in the zone; else it is told why not.
    pub(crate) fn name_for(&self, text: &str, sheet: &mut Sheet) -> Result<Option<Name>, NoMemory>
        ensures same { sheet.new.records ≡ sheet.old.records }
        ensures name { IfOk result (λ n.
            n ≡ (if has_place (zone_notes self.now) text.now then Some text.now else None)) }
        ensures told { IfOk result (λ n. MatchOption n (told_lines sheet.old < told_lines sheet.new)
            (λ name. told_lines sheet.old ≡ told_lines sheet.new)) }
    {
        let Some(name) = name_in(self.alloc, text, false)? else {
            self.leave_out_text(text, sheet)?;
            return Ok(None);
        };
        if name == self.settings.origin {
            sheet.leave_out(text, "it is the zone itself")?;
            return Ok(None);
        }
        if !self.is_inside(&name) {
            self.leave_out_outside(text, sheet)?;
            return Ok(None);
        }
        if let Some(cut) = self.cut_above(&name)? {
            let why = format!(in self.alloc; "below {}, which is delegated", cut.text())?;
            sheet.leave_out(text, why)?;
            return Ok(None);
        }
        Ok(Some(name))
    }

    // Tells why a text that is no name is left out: it may be outside of the zone, too.
    fn leave_out_text(&self, text: &str, sheet: &mut Sheet) -> Result<(), NoMemory>
        ensures same { sheet.new.records ≡ sheet.old.records }
        ensures told { OnOk result (told_lines sheet.old < told_lines sheet.new) }
    {
        let end = format!(in self.alloc; ".{}", self.settings.origin.text())?;
        if text.ends_with(end.as_str()) {
            return sheet.leave_out(text, fault_of(text, false));
        }
        self.leave_out_outside(text, sheet)
    }

    fn leave_out_outside(&self, text: &str, sheet: &mut Sheet) -> Result<(), NoMemory>
        ensures same { sheet.new.records ≡ sheet.old.records }
        ensures told { OnOk result (told_lines sheet.old < told_lines sheet.new) }
    {
        let why = format!(in self.alloc; "not below {}", self.settings.origin.text())?;
        sheet.leave_out(text, why)
    }

    // The uppermost name above this one that is delegated.
    fn cut_above(&self, name: &Name) -> Result<Option<Name>, NoMemory>
        ensures { IfOk result (λ cut. cut ≡ cut_above (zone_notes self.now) name.now) }
    {
        match name.above(self.alloc)? {
            Some(above) => self.cut_of(&above),
            None => Ok(None),
        }
    }

    // Those of a domain's servers that are written, in their order. Of the others it is told why.
    fn usable(
        &self,
        name: &Name,
        servers: &[String],
        sheet: &mut Sheet,
    ) -> Result<Vec<Name>, NoMemory>
        ensures same { sheet.new.records ≡ sheet.old.records }
        ensures kept { IfOk result (λ hosts.
            GivesEach (Itself (IsUsable (zone_notes self.now) name.now)) (texts_of servers.now)
            hosts.items) }
        ensures told { IfOk result (λ hosts. length servers.now + told_lines sheet.old
            ≤ length hosts.items + told_lines sheet.new) }
    {
        let mut written = Vec::new(self.alloc);
        for text in servers {
            let host = self.used_server(name, text.as_str(), sheet)?;
            push_some(&mut written, host)?;
        }
        Ok(written)
    }

    // The server with this text, if it is written; if not, it is told why.
    fn used_server(
        &self,
        name: &Name,
        text: &str,
        sheet: &mut Sheet,
    ) -> Result<Option<Name>, NoMemory>
        ensures same { sheet.new.records ≡ sheet.old.records }
        ensures used { IfOk result (λ host.
            GivesOne (Itself (IsUsable (zone_notes self.now) name.now)) text.now host) }
        ensures told { IfOk result (λ host. 1 + told_lines sheet.old
            ≤ length (cons_option host []) + told_lines sheet.new) }
    {
        let Some(host) = self.server_named(text)? else {
            let why = server_fault(text, self.settings.has_underscores);
            let what = format!(in self.alloc; "left out: {why}")?;
            sheet.tell_server(name, text, what)?;
            return Ok(None);
        };
        if self.is_used(name, &host, sheet)? {
            return Ok(Some(host));
        }
        Ok(None)
    }

    // Whether a server of a domain is written; if not, or if it has no glue here, it is told why.
    fn is_used(&self, name: &Name, host: &Name, sheet: &mut Sheet) -> Result<bool, NoMemory>
        ensures same { sheet.new.records ≡ sheet.old.records }
        ensures used { IfOk result (λ used.
            IsTrue used ↔ IsKeptServer (zone_notes self.now) name.now host.now) }
        ensures told { IfOk result (λ used. MatchBool used
            (told_lines sheet.old ≤ told_lines sheet.new)
            (told_lines sheet.old < told_lines sheet.new)) }
    {
        if self.is_reached(host)? {
            return Ok(true);
        }
        match self.other_cut(name, host)? {
            Some(cut) => {
                let cut = cut.text();
                let what = format!(in self.alloc; "has no address here, and is left to {cut}")?;
                sheet.tell_server(name, host.text(), what)?;
                Ok(true)
            }
            None => {
                let what = "left out: in the zone, and has no address";
                sheet.tell_server(name, host.text(), what)?;
                Ok(false)
            }
        }
    }

    // Whether a server is outside of the zone, or the zone has an address of it.
    fn is_reached(&self, host: &Name) -> Result<bool, NoMemory>
        ensures { IfOk result (λ reached.
            IsTrue reached ↔ IsReached (zone_notes self.now) host.now) }
    {
        if !host.is_below(&self.settings.origin) {
            return Ok(true);
        }
        self.has_address(host)
    }

    // The uppermost delegated name at or above a server, if that is neither this name nor below it.
    fn other_cut(&self, name: &Name, host: &Name) -> Result<Option<Name>, NoMemory>
        ensures { IfOk result (λ cut.
            IsSome cut ↔ IsLeftToOther (zone_notes self.now) name.now host.now) }
    {
        match self.cut_of(host)? {
            Some(cut) => Ok(if cut.is_below(name) { None } else { Some(cut) }),
            None => Ok(None),
        }
    }

    /// Writes the name servers of a name. Refused by `Z6` where the operator's file has it.
    pub(crate) fn write_servers(
        &mut self,
        name: &Name,
        servers: &[Name],
        sheet: &mut Sheet,
    ) -> Result<(), Halt>
        ensures noted { OnOk result (zone_notes self.new ≡ zone_notes self.old) }
        ensures originals { OnOk result (original_notes self.new ≡ original_notes self.old) }
        ensures records { OnOk result (sheet.new.records ≡ with_records sheet.old.records
            (server_records sheet.old.records.ttl name.now servers.now)) }
        ensures told { OnOk result (told_lines sheet.new ≡ told_lines sheet.old) }
    {
        self.check_apex(name)?;
        for server in servers {
            sheet.records.add_server(name, server)?;
            add(&mut self.counts.records);
            let user = name.copy(self.alloc)?;
            self.note_user(server, user);
        }
        Ok(())
    }

    // Notes the first name that has a server.
    fn note_user(&mut self, server: &Name, user: Name)
        ensures noted { zone_notes self.new ≡ zone_notes self.old }
        ensures originals { original_notes self.new ≡ original_notes self.old }
    {
        if let Some(server) = self.servers.get_mut(server) {
            set_user(server, user);
        }
    }

    // Keeps the servers that a name has, if it is the original of a mirrored one.
    fn keep_servers(&mut self, name: &Name, servers: Vec<Name>)
        ensures noted { zone_notes self.new ≡ zone_notes self.old }
        ensures originals { original_notes self.new
            ≡ with_servers name.now servers.items (original_notes self.old) }
    {
        if let Some(place) = self.places.get_mut(name) {
            set_servers(place, servers);
        }
    }

    fn check_apex(&self, name: &Name) -> Result<(), Halt> {
        let text = name.text();
        if let Some(cut) = self.apex.cut_above(name) {
            let cut = cut.text();
            let text = format!(in self.alloc; "{text}: {cut} is delegated by the operator's file");
            return Err(refused(Rule::Overlap, text));
        }
        if let Some((other, kind)) = self.apex.record_below(name) {
            let other = other.text();
            let text = format!(in self.alloc; "{text}: the operator's file has {kind} at {other}");
            return Err(refused(Rule::Overlap, text));
        }
        Ok(())
    }

    // Tells of the addresses that a domain says of servers that are in another domain.
    fn tell_foreign(&self, text: &str, rows: &[Row], sheet: &mut Sheet) -> Result<(), Halt>
        ensures same { sheet.new.records ≡ sheet.old.records }
        ensures told { OnOk result (told_lines sheet.old ≤ told_lines sheet.new) }
    {
        for row in rows {
            if let Some(attribute) = self.attribute_in(row)? {
                let host = &attribute.host;
                if !self.is_own(host, text)? {
                    let name = OneLine(text);
                    let what = "says it, which is not the domain that it is in";
                    let what = format!(in self.alloc; "{name} {what}")?;
                    sheet.tell_address(host, attribute.said.text.as_str(), what)?;
                }
            }
        }
        Ok(())
    }

    // Whether a server is in the domain of this name.
    fn is_own(&self, host: &Name, text: &str) -> Result<bool, NoMemory> {
        let above = self.domain_above(host)?;
        Ok(above.is_some_and(|above| above.as_bytes() == text.as_bytes()))
    }

    /// Refused by `Z7` where there are domains, and none of them is delegated.
    pub fn check_whole(&self) -> Result<(), Halt> {
        if self.counts.domains == 0 || self.counts.delegated > 0 {
            return Ok(());
        }
        let text = format!(in self.alloc; "no domain is delegated");
        Err(refused(Rule::Empty, text))
    }
}

// What keeps a domain with these child rows and servers out, before its name is looked at.
fn kept_out(rows: &[Row], servers: &[String]) -> Option<Outcome>
    ensures { result ≡ kept_out (hold_of rows.now) (length servers.now == 0) }
{
    match hold_of(rows) {
        Some(hold) => Some(Outcome::Kept(hold)),
        None if servers.is_empty() => Some(Outcome::WithoutServers),
        None => None,
    }
}

// Tells of a domain that is kept out, and that its registry would seem to have in the zone.
fn tell_kept(
    alloc: Global,
    sheet: &mut Sheet,
    text: &str,
    outcome: Outcome,
    given: (&Row, &[String]),
) -> Result<(), NoMemory>
    ensures same { sheet.new.records ≡ sheet.old.records }
    ensures told { OnOk result (told_lines sheet.old ≤ told_lines sheet.new) }
{
    let (parent, servers) = given;
    let is_inactive = outcome == Outcome::Kept(Hold::Inactive);
    if is_inactive && !servers.is_empty() {
        return sheet.leave_out(text, "inactive, and has servers");
    }
    let original = cell(parent, "originalName");
    let is_served_not = is_inactive || outcome == Outcome::WithoutServers;
    if is_served_not && !original.is_empty() {
        let original = OneLine(original);
        let why = format!(in alloc; "a variant of {original} without servers of its own")?;
        return sheet.leave_out(text, why);
    }
    Ok(())
}

// Sets the first name that has a server.
fn set_user(server: &mut Server, user: Name)
    ensures { server.new.rows ≡ server.old.rows }
{
    if server.user.is_none() {
        server.user = Some(user);
    }
}

// Keeps the servers of an original.
fn set_servers(place: &mut Place, servers: Vec<Name>)
    ensures cut { place.new.is_cut ≡ place.old.is_cut }
    ensures domain { place.new.is_domain ≡ place.old.is_domain }
    ensures original { place.new.is_original ≡ place.old.is_original }
    ensures servers { place.new.servers.items
        ≡ (if place.old.is_original then servers.items else place.old.servers.items) }
{
    if place.is_original {
        place.servers = servers;
    }
}
