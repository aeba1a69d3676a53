//! The passes that take what hosts, domains and mirrored names say of the servers and names that
//! matter.

ghost use Rattle.std.specs.Prelude.{◌≡◌, ◌++◌, true, false, if◌then◌else◌, IfOk, OnOk, codes, map};
ghost use Rattle.std.specs.Prelude.{filter_map, string_bytes, Some, None, ◌||◌};
ghost use Rattle.std.specs.List.{list_any};
ghost use Rattle.std.specs.Option.{option_map};
ghost use Rattle.esc_zone.specs.Mirrors.{original_of};
ghost use Rattle.esc_zone.specs.Addresses.{said_texts};
ghost use Rattle.esc_zone.specs.Delegations.{texts_of};
ghost use Rattle.esc_zone.specs.Fields.{first_text};
ghost use Rattle.esc_zone.specs.Noted.{host_text, host_texts, attribute_value, server_notes};
ghost use Rattle.esc_zone.specs.Noted.{place_notes, draft_notes, with_host_texts, with_said};
ghost use Rattle.esc_zone.specs.Noted.{with_host, is_noted_server, says_address, said_in_row};
ghost use Rattle.esc_zone.specs.Noted.{is_outside_server, zone_server_in, place_said, with_domain};
ghost use Rattle.esc_zone.specs.Noted.{with_place, with_domain_of, with_original, with_mirror};
ghost use Rattle.esc_zone.specs.Noted.{with_original_of};
ghost use Rattle.esc_zone.specs.Names.{name_eq};

use crate::address::Said;
use crate::draft::{Attribute, Draft, Place, Server, empty_place, servers_of, twice};
use crate::fault::Halt;
use crate::field::{cell, has_text};
use crate::lists::push_some;
use crate::name::Name;
use crate::notes::{Mirror, mirror_of};
use crate::reading::{normal, read_name};
use crate::status::hold_of;
use esc_bundle::NoMemory;
use esc_envelope::Kind;
use esc_tables::{Key, Object, Row};
use std::alloc::Global;

/// The address that a row says.
pub(crate) fn said_in(alloc: Global, row: &Row) -> Result<Said, NoMemory>
    ensures { IfOk result (λ said. string_bytes said.text ≡ first_text (codes "addr") row.now) }
{
    Ok(Said {
        text: String::from_str(alloc, cell(row, "addr"))?,
        version: String::from_str(alloc, cell(row, "addrVersion"))?,
    })
}

impl Draft {
    /// Takes the addresses of a host, if a server has its name.
    pub fn take_host(&mut self, key: &Key, object: &Object) -> Result<(), Halt>
        ensures { OnOk result (draft_notes self.new
            ≡ with_host (key.now, object.now) (draft_notes self.old)) }
    {
        let text = normal(self.alloc, key.text.as_str())?;
        let Some(name) = self.server_named(text.as_str())? else {
            return Ok(());
        };
        self.take_named(&name, object)?;
        Ok(())
    }

    // Takes the addresses of the host with this name, if it is noted as a server.
    fn take_named(&mut self, name: &Name, object: &Object) -> Result<(), Halt>
        ensures { OnOk result (draft_notes self.new ≡ with_said name.now
            (host_texts object.now.children) (draft_notes self.old)) }
    {
        let alloc = self.alloc;
        match self.servers.get_mut(name) {
            Some(server) => take_object(alloc, server, name, object),
            None => Ok(()),
        }
    }

    /// Takes what a domain says, if its name matters to others.
    pub fn take_domain(&mut self, key: &Key, object: &Object) -> Result<(), Halt>
        ensures { OnOk result (draft_notes self.new
            ≡ with_domain_of (key.now, object.now) (draft_notes self.old)) }
    {
        let Some(name) = read_name(self.alloc, key.text.as_str())? else {
            return Ok(());
        };
        self.check_odd(key, &name)?;
        if !self.places.contains_key(&name) {
            return Ok(());
        }
        self.take_place(&name, object)?;
        Ok(())
    }

    // Takes what the domain with this name says, if the name is noted.
    fn take_place(&mut self, name: &Name, object: &Object) -> Result<(), Halt>
        ensures { OnOk result (draft_notes self.new
            ≡ with_place name.now object.now.children (draft_notes self.old)) }
    {
        let alloc = self.alloc;
        let taken = self.place_of(&object.children)?;
        match self.places.get_mut(name) {
            Some(place) => fill_place(alloc, place, name, taken),
            None => Ok(()),
        }
    }

    // What the rows of a domain say, as a place.
    fn place_of(&self, rows: &[Row]) -> Result<Place, NoMemory>
        ensures { IfOk result (λ place. place_notes place
            ≡ place_said (draft_notes self.now) rows.now) }
    {
        let servers = servers_of(self.alloc, rows)?;
        let has_outside = self.has_outside(&servers)?;
        let inside = self.inside(&servers)?;
        let attributes = self.attributes(rows)?;
        let mut place = empty_place(self.alloc);
        place.is_let_in = hold_of(rows).is_none();
        place.has_outside = has_outside;
        place.inside = inside;
        place.attributes = attributes;
        Ok(place)
    }

    // Whether one of these texts is a server outside of the zone.
    fn has_outside(&self, texts: &[String]) -> Result<bool, NoMemory>
        ensures { IfOk result (λ has. has
            ≡ list_any (is_outside_server (draft_notes self.now).settings) (texts_of texts.now)) }
    {
        let mut has = false;
        for text in texts {
            has = self.is_outside_too(has, text.as_str())?;
        }
        Ok(has)
    }

    // Whether this text is a server outside of the zone, or another one is.
    fn is_outside_too(&self, other: bool, text: &str) -> Result<bool, NoMemory>
        ensures { IfOk result (λ is. is
            ≡ (other || is_outside_server (draft_notes self.now).settings text.now)) }
    {
        if other {
            return Ok(true);
        }
        self.is_outside(text)
    }

    fn is_outside(&self, text: &str) -> Result<bool, NoMemory>
        ensures { IfOk result (λ is. is
            ≡ is_outside_server (draft_notes self.now).settings text.now) }
    {
        match self.server_named(text)? {
            Some(host) => Ok(!host.is_below(&self.settings.origin)),
            None => Ok(false),
        }
    }

    // Those of these texts that are servers in the zone.
    fn inside(&self, texts: &[String]) -> Result<Vec<Name>, NoMemory>
        ensures { IfOk result (λ hosts. hosts.items
            ≡ filter_map (zone_server_in (draft_notes self.now).settings) (texts_of texts.now)) }
    {
        let mut hosts = Vec::new(self.alloc);
        for text in texts {
            push_some(&mut hosts, self.zone_server(text.as_str())?)?;
        }
        Ok(hosts)
    }

    // The addresses that rows say of servers in the zone.
    fn attributes(&self, rows: &[Row]) -> Result<Vec<Attribute>, NoMemory>
        ensures { IfOk result (λ attributes. map attribute_value attributes.items
            ≡ filter_map (said_in_row (draft_notes self.now)) rows.now) }
    {
        let mut attributes = Vec::new(self.alloc);
        for row in rows {
            push_some(&mut attributes, self.attribute_in(row)?)?;
        }
        Ok(attributes)
    }

    /// The address that a row says of a server in the zone, if it says one.
    pub(crate) fn attribute_in(&self, row: &Row) -> Result<Option<Attribute>, NoMemory>
        ensures { IfOk result (λ it. option_map attribute_value it
            ≡ said_in_row (draft_notes self.now) row.now) }
    {
        if !says_address(row) {
            return Ok(None);
        }
        let text = normal(self.alloc, cell(row, "hostName"))?;
        match self.noted_server(text.as_str())? {
            Some(host) => Ok(Some(Attribute {
                host,
                said: said_in(self.alloc, row)?,
            })),
            None => Ok(None),
        }
    }

    // The server in the zone with this normal text that is noted, if there is one.
    #[tactic(auto, using(crate::proofs::Noting::is_some_map))]
    fn noted_server(&self, text: &str) -> Result<Option<Name>, NoMemory>
        ensures { IfOk result (λ n. n ≡ (if is_noted_server (draft_notes self.now) text.now
            then Some text.now else None)) }
    {
        match self.server_named(text)? {
            Some(host) if self.servers.contains_key(&host) => Ok(Some(host)),
            _ => Ok(None),
        }
    }

    /// Takes the original of a mirrored name, if its name matters to others.
    pub fn take_mirror(&mut self, key: &Key, object: &Object) -> Result<(), Halt>
        ensures { OnOk result (draft_notes self.new
            ≡ with_original_of (key.now, object.now) (draft_notes self.old)) }
    {
        let Some(name) = read_name(self.alloc, key.text.as_str())? else {
            return Ok(());
        };
        self.check_odd(key, &name)?;
        self.take_mirrored(&name, mirror_of(&object.parent))?;
        Ok(())
    }

    // Takes the original of a name that is mirrored so.
    fn take_mirrored(&mut self, name: &Name, mirror: Mirror<'_>) -> Result<(), NoMemory>
        ensures { OnOk result (draft_notes self.new
            ≡ with_mirror name.now (original_of mirror.entry) (draft_notes self.old)) }
    {
        match mirror {
            Mirror::Nothing => Ok(()),
            Mirror::Servers(original) => self.take_original(name, original),
            Mirror::Other(_) => Ok(()),
        }
    }

    fn take_original(&mut self, name: &Name, text: &str) -> Result<(), NoMemory>
        ensures { OnOk result (draft_notes self.new
            ≡ with_mirror name.now (Some text.now) (draft_notes self.old)) }
    {
        let original = read_name(self.alloc, text)?;
        self.set_mirrors(name, original);
        Ok(())
    }

    // Sets the original that a name mirrors.
    fn set_mirrors(&mut self, name: &Name, original: Option<Name>)
        ensures { draft_notes self.new ≡ record (draft_notes self.old) {
          places = λ q. option_map (with_original (if name_eq name.now q then Some original
              else None)) ((draft_notes self.old).places q);
        } }
    {
        match self.places.get_mut(name) {
            Some(place) => set_original_of(place, original),
            None => {}
        }
    }
}

// The address that a row of a host says, if it says one.
fn host_said(alloc: Global, row: &Row) -> Result<Option<Said>, NoMemory>
    ensures { IfOk result (λ said. option_map (λ it. string_bytes it.text) said
        ≡ host_text row.now) }
{
    if row.table() == "hostAddresses" {
        return Ok(Some(said_in(alloc, row)?));
    }
    Ok(None)
}

// Adds the addresses that the rows of a host say.
fn add_rows(alloc: Global, said: &mut Vec<Said>, rows: &[Row]) -> Result<(), NoMemory>
    ensures { OnOk result (said_texts said.new.items
        ≡ said_texts said.old.items ++ host_texts rows.now) }
{
    for row in rows {
        push_some(said, host_said(alloc, row)?)?;
    }
    Ok(())
}

// Gives a server the addresses of its object. Refused by `Z5` where it has one already.
fn take_object(alloc: Global, server: &mut Server, name: &Name, object: &Object) -> Result<(), Halt>
    ensures { OnOk result (server_notes server.new
        ≡ with_host_texts (host_texts object.now.children) (server_notes server.old)) }
{
    if server.is_object {
        return Err(twice(alloc, Kind::Host, name));
    }
    server.is_object = true;
    add_rows(alloc, &mut server.rows, &object.children)?;
    Ok(())
}

// Sets the original that a place mirrors.
fn set_original_of(place: &mut Place, original: Option<Name>)
    ensures { place_notes place.new ≡ with_original (Some original) (place_notes place.old) }
{
    place.mirrors = original;
}

// Whether a row of a domain says an address of a server.
fn says_address(row: &Row) -> bool
    ensures { result ≡ says_address row.now }
{
    row.table() == "domainHostAttr" && has_text(row, "addr")
}

// Fills a place with what its domain says. Refused by `Z5` where it is filled already.
fn fill_place(alloc: Global, place: &mut Place, name: &Name, taken: Place) -> Result<(), Halt>
    ensures { OnOk result (place_notes place.new
        ≡ with_domain (place_notes taken) (place_notes place.old)) }
{
    if place.is_domain {
        return Err(twice(alloc, Kind::Domain, name));
    }
    place.is_domain = true;
    place.is_let_in = taken.is_let_in;
    place.has_outside = taken.has_outside;
    place.inside = taken.inside;
    place.attributes = taken.attributes;
    Ok(())
}
