//! What is found once all is taken: the addresses of the servers that are no objects, and which
//! of the names that matter are delegated.

ghost use Rattle.std.specs.Prelude.{◌≡◌, true, false, if◌then◌else◌, IfOk, OnOk, map, string_bytes};
ghost use Rattle.std.specs.Prelude.{Some, None, List, ℕ, ◌↔◌, IsTrue, is_some, ◌&&◌};
ghost use Rattle.std.specs.BTreeMap.{keys};
ghost use Rattle.std.specs.Option.{option_map};
ghost use Rattle.esc_zone.specs.Addresses.{said_texts};
ghost use Rattle.esc_zone.specs.Noted.{attribute_value, text_for, texts_for, server_notes};
ghost use Rattle.esc_zone.specs.Noted.{place_notes, draft_notes, is_domain_noted, domain_at};
ghost use Rattle.esc_zone.specs.Noted.{texts_at, texts_above, with_texts, with_own, settled_among};
ghost use Rattle.esc_zone.specs.Noted.{with_settled, AreTaken, is_used_here, texts_here};
ghost use Rattle.esc_zone.specs.Noted.{PlaceNotes, is_among_names, IsReachable, IsServedPlace};
ghost use Rattle.esc_zone.specs.Noted.{cut_by, with_cuts, SettlesOne, SettlesNames, SettlesAll};
ghost use Rattle.esc_zone.specs.Noted.{domain_here, IsDelegatedHere, SettlesMirror, SettlesMirrors};
ghost use Rattle.esc_zone.specs.Noted.{SettlesMirrored, IsMirroredPlace, IsCutDomain};
ghost use Rattle.esc_zone.specs.Noted.{original_here, is_in_zone};
ghost use Rattle.esc_zone.specs.Drafts.{zone_notes};
ghost use Rattle.esc_apply.specs.ObjectStreams.{Entry};
ghost use Rattle.esc_zone.specs.Names.{name_eq};
ghost use Rattle.esc_zone.specs.Mirrors.{original_notes};

use crate::address::Said;
use crate::draft::{Attribute, Draft, Place, Server};
use crate::fault::Halt;
use crate::lists::push_some;
use crate::name::Name;
use esc_bundle::NoMemory;
use std::alloc::Global;

impl Draft {
    /// Finds the addresses of the servers that are no objects, and which of the names that matter
    /// to others are delegated.
    pub fn settle(&mut self) -> Result<(), Halt>
        ensures settled { OnOk result ((draft_notes self.new).servers
            ≡ (with_settled (draft_notes self.old)).servers) }
        ensures said { OnOk result ((hosts domains mirrors : List Entry)
            → AreTaken hosts domains mirrors domains (draft_notes self.old) → (host : List ℕ)
            → is_used_here (draft_notes self.old).settings domains host ≡ true
            → (zone_notes self.new).said host
            ≡ texts_here (draft_notes self.old).settings hosts domains host) }
        ensures delegated { OnOk result ((hosts domains mirrors : List Entry)
            → AreTaken hosts domains mirrors domains (draft_notes self.old)
            → (name : List ℕ) (e : Entry) → is_some ((draft_notes self.old).places name) ≡ true
            → is_in_zone (draft_notes self.old).settings name ≡ true
            → domain_here domains name ≡ Some e → IsTrue ((zone_notes self.new).is_delegated name)
            ↔ IsDelegatedHere (draft_notes self.old).settings (draft_notes self.old).is_given
            hosts domains e) }
        ensures mirrored { OnOk result ((hosts domains mirrors : List Entry)
            → AreTaken hosts domains mirrors domains (draft_notes self.old) → (name : List ℕ)
            → is_some ((draft_notes self.old).places name) ≡ true
            → domain_here domains name ≡ None → IsTrue ((zone_notes self.new).is_delegated name)
            ↔ ((original : List ℕ) × (original_here mirrors name ≡ Some original)
            × IsCutDomain (draft_notes self.new) original)) }
    {
        self.settle_servers()?;
        self.settle_domains()?;
        self.settle_mirrors()?;
        Ok(())
    }

    // Finds the addresses of the servers that are no objects.
    fn settle_servers(&mut self) -> Result<(), NoMemory>
        ensures { OnOk result (draft_notes self.new ≡ with_settled (draft_notes self.old)) }
    {
        let names = self.server_names()?;
        self.settle_named(&names)?;
        Ok(())
    }

    // Finds the addresses of those of these servers that are no objects.
    fn settle_named(&mut self, names: &[Name]) -> Result<(), NoMemory>
        ensures { OnOk result (draft_notes self.new
            ≡ settled_among names.now (draft_notes self.old)) }
    {
        for name in names {
            self.settle_server(name)?;
        }
        Ok(())
    }

    // Finds the addresses of a server, if it is no object.
    fn settle_server(&mut self, name: &Name) -> Result<(), NoMemory>
        ensures { OnOk result (draft_notes self.new ≡ with_own name.now
            (texts_above (draft_notes self.old) name.now) (draft_notes self.old)) }
    {
        let rows = self.rows_above(name)?;
        match self.servers.get_mut(name) {
            Some(server) => {
                take_rows(server, rows);
                Ok(())
            }
            None => Ok(()),
        }
    }

    // The names of all servers in the zone.
    fn server_names(&self) -> Result<Vec<Name>, NoMemory>
        ensures { IfOk result (λ names. names.items ≡ keys self.now.servers) }
    {
        let mut names = Vec::new(self.alloc);
        for name in self.servers.keys() {
            names.push(name.copy(self.alloc)?)?;
        }
        Ok(names)
    }

    /// The domain that a server is in: the nearest at or above it.
    pub(crate) fn domain_above(&self, host: &Name) -> Result<Option<Name>, NoMemory>
        ensures { IfOk result (λ name. name ≡ domain_at (draft_notes self.now) host.now) }
    {
        let mut next = Some(host.copy(self.alloc)?);
        while let Some(above) = next {
            if !self.is_inside(&above) {
                break;
            }
            if self.is_domain(&above) {
                return Ok(Some(above));
            }
            next = above.above(self.alloc)?;
        }
        Ok(None)
    }

    /// Whether a name that matters to others is a domain.
    pub(crate) fn is_domain(&self, name: &Name) -> bool
        ensures noted { result ≡ is_domain_noted (draft_notes self.now) name.now }
        ensures original { result ≡ (original_notes self.now).is_domain name.now }
    {
        self.places.get(name).is_some_and(|place| place.is_domain)
    }

    // The addresses that the domain that a server is in says of it.
    fn rows_above(&self, host: &Name) -> Result<Vec<Said>, NoMemory>
        ensures { IfOk result (λ rows. said_texts rows.items
            ≡ texts_above (draft_notes self.now) host.now) }
    {
        match self.domain_above(host)? {
            Some(domain) => self.rows_of(&domain, host),
            None => Ok(Vec::new(self.alloc)),
        }
    }

    // The addresses that a name says of a server.
    fn rows_of(&self, name: &Name, host: &Name) -> Result<Vec<Said>, NoMemory>
        ensures { IfOk result (λ rows. said_texts rows.items
            ≡ texts_at (draft_notes self.now) name.now host.now) }
    {
        match self.places.get(name) {
            Some(place) => said_for(self.alloc, host, &place.attributes),
            None => Ok(Vec::new(self.alloc)),
        }
    }

    // Finds which domains are delegated, of those that matter to others.
    fn settle_domains(&mut self) -> Result<(), NoMemory>
        ensures { OnOk result (SettlesAll (draft_notes self.old) (draft_notes self.new)) }
    {
        let names = self.place_names()?;
        self.settle_places(&names);
        Ok(())
    }

    // Finds which of these names are those of domains that are delegated.
    fn settle_places(&mut self, names: &[Name])
        ensures { SettlesNames names.now (draft_notes self.old) (draft_notes self.new) }
    {
        for name in names {
            self.settle_place(name);
        }
    }

    // Finds whether this name is that of a domain that is delegated.
    fn settle_place(&mut self, name: &Name)
        ensures { SettlesOne name.now (draft_notes self.old) (draft_notes self.new) }
    {
        let is_cut = self.is_served(name);
        self.set_cut(name, is_cut);
    }

    // Whether a name that matters to others is that of a domain that is delegated.
    fn is_served(&self, name: &Name) -> bool
        ensures { (p : PlaceNotes) → (draft_notes self.now).places name.now ≡ Some p
            → IsTrue result ↔ IsServedPlace (zone_notes self.now).is_given
            (zone_notes self.now).said p }
    {
        match self.places.get(name) {
            Some(place) => self.is_settled(place),
            None => false,
        }
    }

    // Sets whether a name that matters to others is delegated.
    fn set_cut(&mut self, name: &Name, is_cut: bool)
        ensures { draft_notes self.new ≡ with_cuts
            (λ q. if name_eq name.now q then Some is_cut else None) (draft_notes self.old) }
    {
        match self.places.get_mut(name) {
            Some(place) => set_cut_of(place, is_cut),
            None => {}
        }
    }

    // Whether a domain that is let in has a server outside of the zone, or one that is reachable.
    fn is_settled(&self, place: &Place) -> bool
        ensures { IsTrue result ↔ IsServedPlace (zone_notes self.now).is_given
            (zone_notes self.now).said (place_notes place.now) }
    {
        if !place.is_domain {
            return false;
        }
        if !place.is_let_in {
            return false;
        }
        if place.has_outside {
            return true;
        }
        self.has_reachable(&place.inside)
    }

    // Whether one of these servers in the zone has an address.
    fn has_reachable(&self, hosts: &[Name]) -> bool
        ensures { IsTrue result ↔ ((host : List ℕ) × IsTrue (is_among_names hosts.now host)
            × IsReachable (zone_notes self.now).is_given (zone_notes self.now).said host) }
    {
        for host in hosts {
            if self.is_reachable(host) {
                return true;
            }
        }
        false
    }

    fn place_names(&self) -> Result<Vec<Name>, NoMemory>
        ensures { IfOk result (λ names. names.items ≡ keys self.now.places) }
    {
        let mut names = Vec::new(self.alloc);
        for name in self.places.keys() {
            names.push(name.copy(self.alloc)?)?;
        }
        Ok(names)
    }

    // Finds which mirrored names are delegated, of those that matter to others.
    fn settle_mirrors(&mut self) -> Result<(), NoMemory>
        ensures { OnOk result (SettlesMirrored (draft_notes self.old) (draft_notes self.new)) }
    {
        let names = self.place_names()?;
        self.settle_mirrored(&names);
        Ok(())
    }

    // Finds which of these names are mirrored ones that are delegated.
    fn settle_mirrored(&mut self, names: &[Name])
        ensures { SettlesMirrors names.now (draft_notes self.old) (draft_notes self.new) }
    {
        for name in names {
            self.settle_mirror(name);
        }
    }

    // Finds whether this name is a mirrored one that is delegated.
    fn settle_mirror(&mut self, name: &Name)
        ensures { SettlesMirror name.now (draft_notes self.old) (draft_notes self.new) }
    {
        if self.is_mirrored(name) {
            self.set_cut(name, true);
        }
    }

    // Whether a name that matters to others is a mirrored one that is delegated.
    fn is_mirrored(&self, name: &Name) -> bool
        ensures { (p : PlaceNotes) → (draft_notes self.now).places name.now ≡ Some p
            → IsTrue result ↔ IsMirroredPlace (draft_notes self.now) p }
    {
        match self.places.get(name) {
            Some(place) => self.is_mirror(place),
            None => false,
        }
    }

    // Whether a place is no domain, and has the servers of a delegated one.
    fn is_mirror(&self, place: &Place) -> bool
        ensures { IsTrue result ↔ IsMirroredPlace (draft_notes self.now) (place_notes place.now) }
    {
        if place.is_domain {
            return false;
        }
        match &place.mirrors {
            Some(original) => self.is_cut_domain(original),
            None => false,
        }
    }

    // Whether a name that matters to others is that of a delegated domain.
    fn is_cut_domain(&self, name: &Name) -> bool
        ensures { IsTrue result ↔ IsCutDomain (draft_notes self.now) name.now }
    {
        match self.places.get(name) {
            Some(place) => is_cut_place(place),
            None => false,
        }
    }
}

// Whether a place is that of a delegated domain.
fn is_cut_place(place: &Place) -> bool
    ensures { result ≡ (place.now.is_domain && place.now.is_cut) }
{
    place.is_domain && place.is_cut
}

// Sets whether a place is delegated.
fn set_cut_of(place: &mut Place, is_cut: bool)
    ensures { place_notes place.new ≡ cut_by (Some is_cut) (place_notes place.old) }
{
    place.is_cut = is_cut;
}

// Gives a server that is no object these addresses.
fn take_rows(server: &mut Server, rows: Vec<Said>)
    ensures { server_notes server.new
        ≡ with_texts (said_texts rows.items) (server_notes server.old) }
{
    if !server.is_object {
        server.rows = rows;
    }
}

// The addresses of this host among these.
fn said_for(alloc: Global, host: &Name, attributes: &[Attribute]) -> Result<Vec<Said>, NoMemory>
    ensures { IfOk result (λ rows. said_texts rows.items
        ≡ texts_for (map attribute_value attributes.now) host.now) }
{
    let mut rows = Vec::new(alloc);
    for attribute in attributes {
        push_some(&mut rows, said_of(alloc, host, attribute)?)?;
    }
    Ok(rows)
}

// The address that an attribute says, if it is one of this host.
fn said_of(alloc: Global, host: &Name, attribute: &Attribute) -> Result<Option<Said>, NoMemory>
    ensures { IfOk result (λ said. option_map (λ it. string_bytes it.text) said
        ≡ text_for host.now (attribute_value attribute.now)) }
{
    if attribute.host == *host {
        return Ok(Some(attribute.said.copy(alloc)?));
    }
    Ok(None)
}
