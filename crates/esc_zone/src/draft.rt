//! What is kept of a registry while its zone is made.

ghost use Rattle.std.specs.Prelude.{◌≡◌, ◌↔◌, IfOk, IsTrue, Some, None, if◌then◌else◌};
ghost use Rattle.std.specs.Prelude.{string_bytes};
ghost use Rattle.std.specs.Option.{option_map};
ghost use Rattle.std.specs.Prelude.{OnOk, false};
ghost use Rattle.esc_zone.specs.Names.{is_server_name, name_cmp, name_eq, name_above};
ghost use Rattle.esc_zone.specs.Noted.{draft_notes, server_notes, place_notes, new_server};
ghost use Rattle.esc_zone.specs.Noted.{new_place, with_noted, is_among_names, zone_names};
ghost use Rattle.esc_zone.specs.Noted.{is_zone_server, IsFresh, IsReachable};
ghost use Rattle.esc_zone.specs.Lists.{IsOrderedOnce};
ghost use Rattle.esc_zone.specs.Delegations.{server_text, server_texts, texts_of};
ghost use Rattle.esc_zone.specs.Addresses.{HasAddress};
ghost use Rattle.esc_zone.specs.Drafts.{zone_notes, is_inside, cut_of, HasGlue};

use crate::address::{Said, has_address};
use crate::apex::Apex;
use crate::counts::Counts;
use crate::fault::{Halt, Rule, refused};
use crate::field::cell;
use crate::lists::push_some;
use crate::name::Name;
use crate::reading::{normal, server_in};
use esc_bundle::NoMemory;
use esc_envelope::Kind;
use esc_tables::{Key, Row};
use std::alloc::Global;
use std::collections::{BTreeMap, BTreeSet};

/// What the zone is to be.
#[derive(Drop)]
pub struct Settings {
    pub origin: Name,
    /// The TTL of the records of delegations.
    pub ttl: u32,
    /// Servers' names may have underscores.
    pub has_underscores: bool,
    /// Addresses of servers that are below no delegation are written.
    pub has_orphan_glue: bool,
}

/// A server in the zone that a domain has, which its statuses let in.
#[derive(Drop)]
pub(crate) struct Server {
    /// It is an object.
    pub(crate) is_object: bool,
    /// Its addresses: of the object, or of the domain that it is in.
    pub(crate) rows: Vec<Said>,
    /// The first name that has it in the zone.
    pub(crate) user: Option<Name>,
}

/// An address that a domain's row says of a server.
#[derive(Drop)]
pub(crate) struct Attribute {
    pub(crate) host: Name,
    pub(crate) said: Said,
}

/// A name that matters to others: above a server or a domain, or the original of a mirrored name.
#[derive(Drop)]
pub(crate) struct Place {
    pub(crate) is_domain: bool,
    /// Nothing keeps the domain out by its statuses.
    pub(crate) is_let_in: bool,
    /// The domain has a server that is outside of the zone.
    pub(crate) has_outside: bool,
    /// The servers of the domain that are in the zone.
    pub(crate) inside: Vec<Name>,
    /// The addresses that it says of servers in the zone.
    pub(crate) attributes: Vec<Attribute>,
    /// No domain, but a name that has the servers of this original.
    pub(crate) mirrors: Option<Name>,
    /// It is the original of a mirrored name.
    pub(crate) is_original: bool,
    /// The servers that it has in the zone, if it is an original.
    pub(crate) servers: Vec<Name>,
    /// It is delegated.
    pub(crate) is_cut: bool,
}

/// A zone while it is made.
#[derive(Drop)]
pub struct Draft {
    pub(crate) alloc: Global,
    pub(crate) settings: Settings,
    pub(crate) apex: Apex,
    pub(crate) servers: BTreeMap<Name, Server>,
    pub(crate) places: BTreeMap<Name, Place>,
    // Names of domains, and of those that are none, whose key is another text.
    pub(crate) odd: BTreeSet<Name>,
    pub(crate) odd_mirrors: BTreeSet<Name>,
    pub(crate) counts: Counts,
}

// A server of which nothing is known yet.
fn empty_server(alloc: Global) -> Server
    ensures { server_notes result ≡ new_server }
{
    Server {
        is_object: false,
        rows: Vec::new(alloc),
        user: None,
    }
}

/// A name of which nothing is known yet.
pub(crate) fn empty_place(alloc: Global) -> Place
    ensures { place_notes result ≡ new_place }
{
    Place {
        is_domain: false,
        is_let_in: false,
        has_outside: false,
        inside: Vec::new(alloc),
        attributes: Vec::new(alloc),
        mirrors: None,
        is_original: false,
        servers: Vec::new(alloc),
        is_cut: false,
    }
}

impl Draft {
    /// A zone with the operator's records alone, so far.
    pub fn new(alloc: Global, settings: Settings, apex: Apex) -> Result<Draft, Halt>
        ensures { IfOk result (λ draft. IsFresh (draft_notes draft)) }
    {
        let mut draft = Draft {
            alloc,
            settings,
            apex,
            servers: BTreeMap::new(alloc),
            places: BTreeMap::new(alloc),
            odd: BTreeSet::new(alloc),
            odd_mirrors: BTreeSet::new(alloc),
            counts: Counts::default(),
        };
        draft.counts.records = draft.apex.records();
        draft.note_own_servers()?;
        Ok(draft)
    }

    // Notes the zone's own servers that are in it and have no address in the operator's file.
    fn note_own_servers(&mut self) -> Result<(), Halt>
        ensures { OnOk result (IsFresh (draft_notes self.old) → IsFresh (draft_notes self.new)) }
    {
        let wanted = self.own_servers()?;
        for name in &wanted {
            self.note_own_server(name)?;
        }
        Ok(())
    }

    // The zone's own servers that are in it and have no address in the operator's file.
    fn own_servers(&self) -> Result<Vec<Name>, NoMemory> {
        let mut wanted = Vec::new(self.alloc);
        for name in self.apex.servers() {
            if name.is_below(&self.settings.origin) && self.apex.addresses(name).is_none() {
                wanted.push(name.copy(self.alloc)?)?;
            }
        }
        Ok(wanted)
    }

    // Notes a server that the zone itself has.
    fn note_own_server(&mut self, name: &Name) -> Result<(), NoMemory>
        ensures { OnOk result (IsFresh (draft_notes self.old) → IsFresh (draft_notes self.new)) }
    {
        self.note_server(name)?;
        let user = self.settings.origin.copy(self.alloc)?;
        self.set_own_user(name, user);
        Ok(())
    }

    fn set_own_user(&mut self, name: &Name, user: Name)
        ensures { draft_notes self.new ≡ draft_notes self.old }
    {
        if let Some(server) = self.servers.get_mut(name) {
            set_own_user(server, user);
        }
    }

    /// The counts so far.
    pub fn counts(&self) -> &Counts {
        &self.counts
    }

    /// The operator's lines.
    pub fn apex_text(&self) -> &[u8] {
        self.apex.text()
    }

    /// Whether a name is below the zone's.
    pub(crate) fn is_inside(&self, name: &Name) -> bool
        ensures { result ≡ is_inside (zone_notes self.now) name.now }
    {
        name.is_below(&self.settings.origin) && *name != self.settings.origin
    }

    /// The name of a server at or below that of the zone with this normal text, if it is one.
    pub(crate) fn zone_server(&self, text: &str) -> Result<Option<Name>, NoMemory>
        ensures { IfOk result (λ n. n ≡ (if is_zone_server (draft_notes self.now).settings text.now
            then Some text.now else None)) }
    {
        match self.server_named(text)? {
            Some(host) if host.is_below(&self.settings.origin) => Ok(Some(host)),
            _ => Ok(None),
        }
    }

    /// Notes a server in the zone, and the names at and above it.
    pub(crate) fn note_server(&mut self, host: &Name) -> Result<(), NoMemory>
        ensures { OnOk result (draft_notes self.new ≡ with_noted (name_eq host.now)
            (is_among_names (zone_names (draft_notes self.old).settings (Some host.now)))
            (draft_notes self.old)) }
    {
        self.note_host(host)?;
        let first = host.copy(self.alloc)?;
        self.note_names(Some(first))
    }

    // Notes a server, without the names at and above it.
    fn note_host(&mut self, host: &Name) -> Result<(), NoMemory>
        ensures { OnOk result (draft_notes self.new
            ≡ with_noted (name_eq host.now) (λ q. false) (draft_notes self.old)) }
    {
        if self.servers.contains_key(host) {
            return Ok(());
        }
        let name = host.copy(self.alloc)?;
        self.servers.insert(name, empty_server(self.alloc))?;
        Ok(())
    }

    /// Notes a name.
    pub(crate) fn note_place(&mut self, name: Name) -> Result<(), NoMemory>
        ensures { OnOk result (draft_notes self.new
            ≡ with_noted (λ q. false) (name_eq name) (draft_notes self.old)) }
    {
        if self.places.contains_key(&name) {
            return Ok(());
        }
        self.places.insert(name, empty_place(self.alloc))?;
        Ok(())
    }

    /// Notes the names above one, as far as they are in the zone.
    pub(crate) fn note_above(&mut self, name: &Name) -> Result<(), NoMemory>
        ensures { OnOk result (draft_notes self.new ≡ with_noted (λ q. false)
            (is_among_names (zone_names (draft_notes self.old).settings (name_above name.now)))
            (draft_notes self.old)) }
    {
        let first = name.above(self.alloc)?;
        self.note_names(first)
    }

    // Notes a name and those above it, as far as they are in the zone.
    fn note_names(&mut self, first: Option<Name>) -> Result<(), NoMemory>
        ensures { OnOk result (draft_notes self.new ≡ with_noted (λ q. false)
            (is_among_names (zone_names (draft_notes self.old).settings first))
            (draft_notes self.old)) }
    {
        let mut next = first;
        while let Some(above) = next {
            if !self.is_inside(&above) {
                break;
            }
            next = above.above(self.alloc)?;
            self.note_place(above)?;
        }
        Ok(())
    }

    /// The uppermost name at or above this one that is delegated, if there is one.
    pub(crate) fn cut_of(&self, name: &Name) -> Result<Option<Name>, NoMemory>
        ensures { IfOk result (λ cut. cut ≡ cut_of (zone_notes self.now) name.now) }
    {
        let mut found = None;
        let mut next = Some(name.copy(self.alloc)?);
        while let Some(above) = next {
            if !self.is_inside(&above) {
                break;
            }
            next = above.above(self.alloc)?;
            if self.is_cut(&above) {
                found = Some(above);
            }
        }
        Ok(found)
    }

    fn is_cut(&self, name: &Name) -> bool
        ensures { result ≡ (zone_notes self.now).is_delegated name.now }
    {
        self.places.get(name).is_some_and(|place| place.is_cut)
    }

    /// Whether the zone has an address of a server in it.
    pub(crate) fn has_address(&self, host: &Name) -> Result<bool, NoMemory>
        ensures { IfOk result (λ has. IsTrue has ↔ HasGlue (zone_notes self.now) host.now) }
    {
        if self.apex.addresses(host).is_some() {
            return Ok(true);
        }
        if !self.has_own_address(host) {
            return Ok(false);
        }
        Ok(self.settings.has_orphan_glue || self.cut_of(host)?.is_some())
    }

    // Whether a server in the zone has an address in the tables.
    fn has_own_address(&self, host: &Name) -> bool
        ensures { IsTrue result ↔ HasAddress ((zone_notes self.now).said host.now) }
    {
        match self.servers.get(host) {
            Some(server) => has_address(&server.rows),
            None => false,
        }
    }

    /// Whether a server in the zone has an address, the operator's or of the tables.
    pub(crate) fn is_reachable(&self, host: &Name) -> bool
        ensures { IsTrue result ↔ IsReachable (zone_notes self.now).is_given
            (zone_notes self.now).said host.now }
    {
        if self.apex.addresses(host).is_some() {
            return true;
        }
        self.has_own_address(host)
    }

    /// Notes a name whose key is another text. Refused by `Z5` where it is noted already.
    pub(crate) fn note_odd(&mut self, key: &Key, name: &Name) -> Result<(), Halt>
        ensures { OnOk result (draft_notes self.new ≡ draft_notes self.old) }
    {
        if key.text.as_bytes() == name.as_bytes() {
            return Ok(());
        }
        if self.odd_of(key.kind).contains(name) {
            return Err(twice(self.alloc, key.kind, name));
        }
        self.add_odd(key.kind, name.copy(self.alloc)?)
    }

    // Names of this kind whose key is another text.
    fn odd_of(&self, kind: Kind) -> &BTreeSet<Name> {
        match kind {
            Kind::Domain => &self.odd,
            _ => &self.odd_mirrors,
        }
    }

    fn add_odd(&mut self, kind: Kind, name: Name) -> Result<(), Halt>
        ensures { OnOk result (draft_notes self.new ≡ draft_notes self.old) }
    {
        match kind {
            Kind::Domain => {
                self.odd.insert(name)?;
                Ok(())
            }
            _ => {
                self.odd_mirrors.insert(name)?;
                Ok(())
            }
        }
    }

    /// Refused by `Z5` where a name that is its key is that of another key, too.
    pub(crate) fn check_odd(&self, key: &Key, name: &Name) -> Result<(), Halt> {
        let is_key = key.text.as_bytes() == name.as_bytes();
        if is_key && self.odd_of(key.kind).contains(name) {
            return Err(twice(self.alloc, key.kind, name));
        }
        Ok(())
    }

    /// The name of a server with this normal text, if it is one.
    pub(crate) fn server_named(&self, text: &str) -> Result<Option<Name>, NoMemory>
        ensures { IfOk result (λ n. n
            ≡ (if is_server_name (zone_notes self.now).has_underscores text.now
            then Some text.now else None)) }
    {
        server_in(self.alloc, text, self.settings.has_underscores)
    }
}

// Sets that a server is one of the zone itself.
fn set_own_user(server: &mut Server, user: Name)
    ensures { server_notes server.new ≡ server_notes server.old }
{
    server.user = Some(user);
}

/// The refusal of two objects with one name.
pub(crate) fn twice(alloc: Global, kind: Kind, name: &Name) -> Halt {
    let (kind, name) = (kind.name(), name.text());
    refused(
        Rule::Twice,
        format!(in alloc; "{kind} {name}: two objects have this name"),
    )
}

// The text of the server that a row of a domain says, if it says one.
fn server_text(alloc: Global, row: &Row) -> Result<Option<String>, NoMemory>
    ensures { IfOk result (λ text. option_map string_bytes text ≡ server_text row.now) }
{
    let is_servers = row.table() == "domainNs" || row.table() == "domainHostAttr";
    let text = cell(row, "hostName");
    if is_servers && !text.is_empty() {
        return Ok(Some(normal(alloc, text)?));
    }
    Ok(None)
}

// These texts in order, each once.
fn in_order(mut texts: Vec<String>) -> Vec<String>
    ensures { IsOrderedOnce name_cmp (texts_of texts.items) (texts_of result.items) }
{
    texts.sort_unstable();
    texts.dedup();
    texts
}

/// The servers that these child rows of a domain have: normal texts, in order, each once.
pub(crate) fn servers_of(alloc: Global, rows: &[Row]) -> Result<Vec<String>, NoMemory>
    ensures { IfOk result (λ texts.
        IsOrderedOnce name_cmp (server_texts rows.now) (texts_of texts.items)) }
{
    let mut servers = Vec::new(alloc);
    for row in rows {
        push_some(&mut servers, server_text(alloc, row)?)?;
    }
    Ok(in_order(servers))
}
