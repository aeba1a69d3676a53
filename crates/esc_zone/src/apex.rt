//! The operator's own records: the SOA and the name servers of the zone, and what else it has.

ghost use Rattle.std.specs.Prelude.{◌≡◌, is_some};
ghost use Rattle.std.specs.BTreeMap.{get};
ghost use Rattle.esc_zone.specs.Names.{name_cmp};

use crate::fault::{Halt, Rule, refused};
use crate::name::Name;
use crate::reading::{fault_of, name_in, normal};
use esc_bundle::NoMemory;
use esc_cli::OneLine;
use std::alloc::{AllocError, AllocFailed, Global};
use std::collections::BTreeMap;
use std::net::IpAddr;
use std::{fmt, str};

/// The types of records that a signer makes (RFC 4034, RFC 5155, RFC 7344, RFC 8976).
const SIGNERS: [&str; 8] = [
    "RRSIG",
    "NSEC",
    "NSEC3",
    "DNSKEY",
    "CDS",
    "CDNSKEY",
    "NSEC3PARAM",
    "ZONEMD",
];

/// A record's name and type.
#[derive(Drop)]
struct Owned {
    name: Name,
    kind: String,
}

/// The operator's records.
#[derive(Drop)]
pub struct Apex {
    text: Vec<u8>,
    records: u64,
    owned: Vec<Owned>,
    servers: Vec<Name>,
    addresses: BTreeMap<Name, Vec<IpAddr>>,
}

// Why a line is no record.
#[derive(Drop)]
enum LineFault<'a> {
    Form,
    Ttl(&'a str),
    Name(String),
    Outside(&'a Name),
    Signs,
    Signer(&'a str),
    Dot,
    Soa,
    Address(&'a str),
    NoMemory,
}

impl fmt::Display for LineFault<'_> {
    fn fmt<W: fmt::Write>(&self, f: &mut fmt::Formatter<W>) -> fmt::Result {
        match self {
            LineFault::Form => f.write_str("not NAME. TTL IN TYPE DATA on one line"),
            LineFault::Ttl(text) => write!(f, "no TTL: {}", OneLine(text)),
            LineFault::Name(why) => f.write_str(why.as_str()),
            LineFault::Outside(origin) => write!(f, "not in {}", OneLine(origin.text())),
            LineFault::Signs => f.write_str("a type in small letters, parentheses or a backslash"),
            LineFault::Signer(kind) => write!(f, "{}: it is for the signer", OneLine(kind)),
            LineFault::Dot => f.write_str("a name without a dot at its end"),
            LineFault::Soa => f.write_str("no SOA with SERIAL in the place of its serial"),
            LineFault::Address(text) => write!(f, "no address: {}", OneLine(text)),
            LineFault::NoMemory => f.write_str("out of memory"),
        }
    }
}

impl From<NoMemory> for LineFault<'_> {
    fn from(_refused: NoMemory) -> Self {
        LineFault::NoMemory
    }
}

impl From<AllocError> for LineFault<'_> {
    fn from(_refused: AllocError) -> Self {
        LineFault::NoMemory
    }
}

impl<T: Drop> From<AllocFailed<T>> for LineFault<'_> {
    fn from(_refused: AllocFailed<T>) -> Self {
        LineFault::NoMemory
    }
}

/// The operator's records, of the file at this path, for a zone with this serial. Refused by `Z3`.
pub fn read_apex(
    alloc: Global,
    path: &str,
    bytes: &[u8],
    origin: &Name,
    serial: u32,
) -> Result<Apex, Halt> {
    let mut apex = Apex {
        text: Vec::new(alloc),
        records: 0,
        owned: Vec::new(alloc),
        servers: Vec::new(alloc),
        addresses: BTreeMap::new(alloc),
    };
    let text = match str::from_utf8(bytes) {
        Ok(text) if text.is_ascii() => text,
        _ => return Err(refused(Rule::Apex, format!(in alloc; "{path}: not ASCII"))),
    };
    let mut at: u64 = 0;
    for line in text.split('\n') {
        at = at.saturating_add(1);
        if let Err(why) = apex.take_line(alloc, line, origin, serial) {
            let text = format!(in alloc; "{path} line {at}: {why}");
            return Err(halt_of(&why, text));
        }
    }
    apex.check(alloc, path, origin)?;
    Ok(apex)
}

fn halt_of(why: &LineFault<'_>, text: Result<String, AllocError>) -> Halt {
    match why {
        LineFault::NoMemory => Halt::NoMemory,
        _ => refused(Rule::Apex, text),
    }
}

impl Apex {
    // Takes in a line, if it has a record.
    fn take_line<'a>(
        &mut self,
        alloc: Global,
        line: &'a str,
        origin: &'a Name,
        serial: u32,
    ) -> Result<(), LineFault<'a>> {
        if line.starts_with(';') {
            return Ok(());
        }
        let mut words = Vec::new(alloc);
        for word in line.split_ascii_whitespace() {
            words.push(word)?;
        }
        if words.is_empty() {
            return Ok(());
        }
        self.take_words(alloc, &words, origin, serial)
    }

    fn take_words<'a>(
        &mut self,
        alloc: Global,
        words: &[&'a str],
        origin: &'a Name,
        serial: u32,
    ) -> Result<(), LineFault<'a>> {
        if words.len() < 5 || words[2] != "IN" || !words[0].ends_with('.') {
            return Err(LineFault::Form);
        }
        let (owner, ttl, kind) = (words[0], words[1], words[3]);
        if !is_ttl(ttl) {
            return Err(LineFault::Ttl(ttl));
        }
        let name = owner_of(alloc, owner, origin)?;
        let rest = &words[4..];
        check_type(kind, rest)?;
        if kind == "SOA" {
            check_soa(&name, rest, origin, self.records)?;
        }
        self.take_data(alloc, &name, kind, rest[0])?;
        self.write(alloc, &name, words, serial)?;
        self.owned.push(Owned {
            name,
            kind: String::from_str(alloc, kind)?,
        })?;
        Ok(())
    }

    // Notes a name server of the apex, or an address.
    fn take_data<'a>(
        &mut self,
        alloc: Global,
        name: &Name,
        kind: &str,
        first: &'a str,
    ) -> Result<(), LineFault<'a>> {
        match kind {
            "A" | "AAAA" => {
                let address = address_of(kind, first)?;
                self.add_address(alloc, name, address)?;
            }
            "NS" => {
                let server = normal(alloc, first)?;
                if let Some(server) = name_in(alloc, server.as_str(), true)? {
                    self.add_server(name, server)?;
                }
            }
            _ => {}
        }
        Ok(())
    }

    fn add_address(&mut self, alloc: Global, name: &Name, address: IpAddr) -> Result<(), NoMemory> {
        if let Some(addresses) = self.addresses.get_mut(name) {
            addresses.push(address)?;
            return Ok(());
        }
        let mut addresses = Vec::new(alloc);
        addresses.push(address)?;
        self.addresses.insert(name.copy(alloc)?, addresses)?;
        Ok(())
    }

    fn add_server(&mut self, name: &Name, server: Name) -> Result<(), NoMemory> {
        if self.is_apex(name) {
            self.servers.push(server)?;
        }
        Ok(())
    }

    // Whether a name is that of the first record, the SOA.
    fn is_apex(&self, name: &Name) -> bool {
        self.owned.first().is_some_and(|first| first.name == *name)
    }

    // Adds the line of a record: its words, with the serial in the place of SERIAL.
    fn write(
        &mut self,
        alloc: Global,
        name: &Name,
        words: &[&str],
        serial: u32,
    ) -> Result<(), NoMemory> {
        self.text.extend_from_slice(name.as_bytes())?;
        self.text.extend_from_slice(b".")?;
        let serial = format!(in alloc; "{serial}")?;
        let is_soa = words.get(3).is_some_and(|kind| *kind == "SOA");
        for (at, word) in words.iter().enumerate() {
            if at == 0 {
                continue;
            }
            let is_serial = is_soa && at == 6;
            let word = if is_serial { serial.as_str() } else { word };
            self.text.extend_from_slice(b" ")?;
            self.text.extend_from_slice(word.as_bytes())?;
        }
        self.text.extend_from_slice(b"\n")?;
        self.records = self.records.saturating_add(1);
        Ok(())
    }

    // Whether a zone begins with these records.
    fn check(&self, alloc: Global, path: &str, origin: &Name) -> Result<(), Halt> {
        let first = self.owned.first();
        let has_soa = first.is_some_and(|first| first.kind.as_str() == "SOA");
        let is_alias = self.owned.iter().any(|it| {
            it.name == *origin && (it.kind.as_str() == "CNAME" || it.kind.as_str() == "DNAME")
        });
        if has_soa && !self.servers.is_empty() && !is_alias {
            return Ok(());
        }
        let origin = origin.text();
        let why = "no zone begins so: one SOA, first; NS; no CNAME or DNAME at";
        Err(refused(Rule::Apex, format!(in alloc; "{path}: {why} {origin}")))
    }

    /// Its lines.
    pub fn text(&self) -> &[u8] {
        &self.text
    }

    /// How many records there are.
    pub(crate) fn records(&self) -> u64 {
        self.records
    }

    /// The name servers of the zone.
    pub(crate) fn servers(&self) -> &[Name] {
        &self.servers
    }

    /// The addresses that it has of a name, if it has any.
    pub(crate) fn addresses(&self, name: &Name) -> Option<&Vec<IpAddr>>
        ensures { is_some result ≡ is_some (get name_cmp self.now.addresses name.now) }
    {
        self.addresses.get(name)
    }

    /// The name at or above this one that it delegates itself.
    pub(crate) fn cut_above(&self, name: &Name) -> Option<&Name> {
        for it in &self.owned {
            if it.kind.as_str() == "NS" && !self.is_apex(&it.name) && name.is_below(&it.name) {
                return Some(&it.name);
            }
        }
        None
    }

    /// A record at or below a name, and its type, that isn't an address.
    pub(crate) fn record_below(&self, name: &Name) -> Option<(&Name, &str)> {
        for it in &self.owned {
            let is_address = it.kind.as_str() == "A" || it.kind.as_str() == "AAAA";
            if it.name.is_below(name) && !is_address {
                return Some((&it.name, it.kind.as_str()));
            }
        }
        None
    }
}

fn is_ttl(text: &str) -> bool {
    let is_number = text.bytes().all(|byte| byte.is_ascii_digit());
    is_number && text.parse::<u32>().is_ok_and(|ttl| ttl < 0x8000_0000)
}

// The name of a record.
fn owner_of<'a>(alloc: Global, text: &'a str, origin: &'a Name) -> Result<Name, LineFault<'a>> {
    let normal = normal(alloc, text)?;
    match name_in(alloc, normal.as_str(), true)? {
        Some(name) if name.is_below(origin) => Ok(name),
        Some(_) => Err(LineFault::Outside(origin)),
        None => {
            let why = fault_of(normal.as_str(), true);
            Err(LineFault::Name(format!(in alloc; "{why}")?))
        }
    }
}

// Whether a record may have this type and these words.
fn check_type<'a>(kind: &'a str, rest: &[&'a str]) -> Result<(), LineFault<'a>> {
    if !is_type(kind) || rest.iter().any(|word| word.contains(['(', ')', '\\'])) {
        return Err(LineFault::Signs);
    }
    if SIGNERS.iter().any(|it| *it == kind) {
        return Err(LineFault::Signer(kind));
    }
    let is_named = matches!(kind, "NS" | "CNAME" | "DNAME" | "MX");
    if is_named && !rest.last().is_some_and(|word| word.ends_with('.')) {
        return Err(LineFault::Dot);
    }
    Ok(())
}

// Whether a word is a type: capital letters and digits, a letter first.
fn is_type(kind: &str) -> bool {
    kind.starts_with(|letter: char| letter.is_ascii_uppercase())
        && kind
            .bytes()
            .all(|byte| byte.is_ascii_uppercase() || byte.is_ascii_digit())
}

// Whether these are the words of the zone's SOA, which comes first.
fn check_soa<'a>(
    name: &Name,
    rest: &[&'a str],
    origin: &Name,
    records: u64,
) -> Result<(), LineFault<'a>> {
    if *name != *origin || records > 0 || rest.len() != 7 || rest[2] != "SERIAL" {
        return Err(LineFault::Soa);
    }
    if !rest[0].ends_with('.') || !rest[1].ends_with('.') {
        return Err(LineFault::Soa);
    }
    Ok(())
}

// The address of a record of this type.
fn address_of<'a>(kind: &str, text: &'a str) -> Result<IpAddr, LineFault<'a>> {
    match IpAddr::parse_ascii(text.as_bytes()) {
        Ok(address) if address.is_ipv4() == (kind == "A") => Ok(address),
        _ => Err(LineFault::Address(text)),
    }
}
