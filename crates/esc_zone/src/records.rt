//! The records of the zone, as lines.

ghost use Rattle.std.specs.Prelude.{◌≡◌, [], ◌++◌, OnOk, IfOk, string_bytes};
ghost use Rattle.std.specs.Fmt.{decimal};
ghost use Rattle.std.specs.Net.Addr.{IsIpv4Addr, IsIpv6Addr};
ghost use Rattle.std.specs.declared.net.ip_addr.IpAddr.TheVariants.{V4, V6};
ghost use Rattle.hex.specs.Hex.{IsBytes, encode_upper};
ghost use Rattle.esc_zone.specs.Records.{record_text, data_text, record_line, IsSaid, AreLines};
ghost use Rattle.esc_zone.specs.Records.{IsDs, IsData};
ghost use Rattle.esc_zone.specs.Records.Data.{server, signer, address};
ghost use Rattle.esc_zone.specs.Signers.{ds_value};

use crate::name::Name;
use crate::signer::Ds;
use esc_bundle::NoMemory;
use std::alloc::Global;
use std::marker::Model;
use std::net::{IpAddr, Ipv4Addr, Ipv6Addr};

/// Lines of records with one TTL: name servers, DS and addresses. Contracts see the TTL and the
/// text, which is lines of records whose names are [`Name`]s, and nothing else.
#[derive(Drop)]
pub struct Records {
    alloc: Global,
    ttl: u32,
    bytes: Vec<u8>,
}

impl Model for Records {
    ghost use Rattle.esc_zone.specs.Records.{RecordsValue, AreLines};

    ghost Value = { RecordsValue };

    ghost view = { λ r. record { ttl = r.ttl; text = r.bytes.items } };

    ghost invariant = { λ r. AreLines r.bytes.items };
}

// Adds bytes as they are.
fn push(bytes: &mut Vec<u8>, more: &[u8]) -> Result<(), NoMemory>
    ensures { OnOk result (bytes.new.items ≡ bytes.old.items ++ more.now) }
{
    bytes.extend_from_slice(more)?;
    Ok(())
}

fn number_text(alloc: Global, number: u32) -> Result<String, NoMemory>
    ensures { IfOk result (λ text. string_bytes text ≡ decimal number) }
{
    Ok(format!(in alloc; "{number}")?)
}

fn v4_text(alloc: Global, at: Ipv4Addr) -> Result<String, NoMemory>
    ensures text { IfOk result (λ text. string_bytes text ≡ data_text (address (V4 at))) }
    ensures address { OnOk result (IsIpv4Addr at) }
{
    Ok(format!(in alloc; "A {at}")?)
}

fn v6_text(alloc: Global, at: Ipv6Addr) -> Result<String, NoMemory>
    ensures text { IfOk result (λ text. string_bytes text ≡ data_text (address (V6 at))) }
    ensures address { OnOk result (IsIpv6Addr at) }
{
    Ok(format!(in alloc; "AAAA {at}")?)
}

fn address_text(alloc: Global, at: IpAddr) -> Result<String, NoMemory>
    ensures text { IfOk result (λ text. string_bytes text ≡ data_text (address at)) }
    ensures address { OnOk result (IsData (address at)) }
{
    match at {
        IpAddr::V4(v4) => v4_text(alloc, v4),
        IpAddr::V6(v6) => v6_text(alloc, v6),
    }
}

// Bytes as hexadecimal digits.
fn hex_text(alloc: Global, bytes: &[u8]) -> Result<String, NoMemory>
    ensures text { IfOk result (λ text. string_bytes text ≡ encode_upper bytes.now) }
    ensures bytes { IsBytes bytes.now }
{
    Ok(hex::encode_upper(alloc, bytes)?)
}

fn ds_text(alloc: Global, ds: &Ds) -> Result<String, NoMemory>
    ensures text { IfOk result (λ text.
        string_bytes text ≡ data_text (signer (ds_value ds.now))) }
    ensures ds { OnOk result (IsDs (ds_value ds.now)) }
{
    let (tag, algorithm, kind) = (ds.tag, ds.algorithm, ds.kind);
    let digest = hex_text(alloc, ds.digest.as_slice())?;
    Ok(format!(in alloc; "DS {tag} {algorithm} {kind} {digest}")?)
}

fn server_text(alloc: Global, name: &[u8]) -> Result<Vec<u8>, NoMemory>
    ensures { IfOk result (λ text. text.items ≡ data_text (server name.now)) }
{
    let mut text = Vec::from_slice(alloc, b"NS ")?;
    push(&mut text, name)?;
    push(&mut text, b".")?;
    Ok(text)
}

// The line of a record.
fn line_of(alloc: Global, ttl: u32, owner: &[u8], said: &[u8]) -> Result<Vec<u8>, NoMemory>
    ensures { IfOk result (λ line. line.items ≡ record_line ttl owner.now said.now) }
{
    let ttl = number_text(alloc, ttl)?;
    let mut line = Vec::from_slice(alloc, owner)?;
    push(&mut line, b". ")?;
    push(&mut line, ttl.as_bytes())?;
    push(&mut line, b" IN ")?;
    push(&mut line, said)?;
    push(&mut line, b"\n")?;
    Ok(line)
}

impl Records {
    /// No records, of this TTL. Doesn't allocate.
    pub fn new(alloc: Global, ttl: u32) -> Records
        ensures { result ≡ record { ttl = ttl; text = [] } }
    {
        Records {
            alloc,
            ttl,
            bytes: Vec::new(alloc),
        }
    }

    /// The lines.
    pub fn as_bytes(&self) -> &[u8]
        ensures value { result.now ≡ self.now.text }
        ensures lines { AreLines self.now.text }
    {
        &self.bytes
    }

    /// Leaves no records.
    pub fn clear(&mut self)
        ensures { self.new ≡ record self.old { text = [] } }
    {
        self.bytes.clear();
    }

    // Adds a line: of a name, with what is said of it.
    fn add(&mut self, owner: &Name, said: &[u8]) -> Result<(), NoMemory>
        requires { IsSaid said.now }
        ensures { OnOk result (self.new ≡ record self.old {
          text = self.old.text ++ record_line self.old.ttl owner.now said.now;
        }) }
    {
        let line = line_of(self.alloc, self.ttl, owner.as_bytes(), said)?;
        self.bytes.extend_from_slice(&line)?;
        Ok(())
    }

    /// Adds that a name has this name server.
    pub fn add_server(&mut self, owner: &Name, name: &Name) -> Result<(), NoMemory>
        ensures { OnOk result (self.new ≡ record self.old {
          text = self.old.text
              ++ record_text (record {
                owner = owner.now;
                ttl = self.old.ttl;
                said = server name.now;
              });
        }) }
    {
        let said = server_text(self.alloc, name.as_bytes())?;
        self.add(owner, &said)
    }

    /// Adds a DS of a name.
    pub fn add_ds(&mut self, owner: &Name, ds: &Ds) -> Result<(), NoMemory>
        ensures { OnOk result (self.new ≡ record self.old {
          text = self.old.text
              ++ record_text (record {
                owner = owner.now;
                ttl = self.old.ttl;
                said = signer (ds_value ds.now);
              });
        }) }
    {
        let said = ds_text(self.alloc, ds)?;
        self.add(owner, said.as_bytes())
    }

    /// Adds an address of a server.
    pub fn add_address(&mut self, host: &Name, at: &IpAddr) -> Result<(), NoMemory>
        ensures { OnOk result (self.new ≡ record self.old {
          text = self.old.text
              ++ record_text (record {
                owner = host.now;
                ttl = self.old.ttl;
                said = address at.now;
              });
        }) }
    {
        let said = address_text(self.alloc, *at)?;
        self.add(host, said.as_bytes())
    }
}
