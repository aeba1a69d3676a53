//! What is written for one object: records, and lines of what is told.

ghost use Rattle.std.specs.Prelude.{◌≡◌, ◌<◌, [], OnOk};
ghost use Rattle.std.specs.Io.KnownBytes.{Appends};
ghost use Rattle.esc_zone.specs.Records.{AreLines};
ghost use Rattle.esc_zone.specs.Told.{told_lines};

use crate::name::Name;
use crate::records::Records;
use esc_bundle::NoMemory;
use esc_cli::OneLine;
use std::alloc::Global;
use std::fmt::Display;
use std::io::{self, Write};

/// What is written for one object.
#[derive(Drop)]
pub(crate) struct Sheet {
    alloc: Global,
    pub(crate) records: Records,
    told: String,
}

impl Sheet {
    /// Nothing so far, for records with this TTL.
    pub(crate) fn new(alloc: Global, ttl: u32) -> Sheet
        ensures { result.records ≡ record { ttl = ttl; text = [] } }
    {
        Sheet {
            alloc,
            records: Records::new(alloc, ttl),
            told: String::new(alloc),
        }
    }

    // Tells a line.
    fn tell(&mut self, line: &str) -> Result<(), NoMemory>
        ensures same { self.new.records ≡ self.old.records }
        ensures told { OnOk result (told_lines self.old < told_lines self.new) }
    {
        self.told.push_str(line)?;
        self.told.push_str("\n")?;
        Ok(())
    }

    /// Tells that a name is left out, and why.
    pub(crate) fn leave_out<D: Display + Drop>(
        &mut self,
        name: &str,
        why: D,
    ) -> Result<(), NoMemory>
        ensures same { self.new.records ≡ self.old.records }
        ensures told { OnOk result (told_lines self.old < told_lines self.new) }
    {
        let line = format!(in self.alloc; "left out {} {why}", OneLine(name))?;
        self.tell(line.as_str())
    }

    /// Tells of a domain's server.
    pub(crate) fn tell_server<D: Display + Drop>(
        &mut self,
        name: &Name,
        server: &str,
        what: D,
    ) -> Result<(), NoMemory>
        ensures same { self.new.records ≡ self.old.records }
        ensures told { OnOk result (told_lines self.old < told_lines self.new) }
    {
        let (name, server) = (name.text(), OneLine(server));
        let line = format!(in self.alloc; "server {name} {server}: {what}")?;
        self.tell(line.as_str())
    }

    /// Tells of a domain's status: the field, its text, and what is made of it.
    pub(crate) fn tell_status<D: Display + Drop>(
        &mut self,
        name: &str,
        text: &str,
        what: D,
    ) -> Result<(), NoMemory>
        ensures same { self.new.records ≡ self.old.records }
        ensures told { OnOk result (told_lines self.old < told_lines self.new) }
    {
        let (name, text) = (OneLine(name), OneLine(text));
        let line = format!(in self.alloc; "status {name} {text} {what}")?;
        self.tell(line.as_str())
    }

    /// Tells that a DS is left out, and why.
    pub(crate) fn leave_out_ds<D: Display + Drop>(
        &mut self,
        name: &Name,
        why: D,
    ) -> Result<(), NoMemory>
        ensures same { self.new.records ≡ self.old.records }
        ensures told { OnOk result (told_lines self.old < told_lines self.new) }
    {
        let name = name.text();
        let line = format!(in self.alloc; "DS {name} left out: {why}")?;
        self.tell(line.as_str())
    }

    /// Tells of a text that is to be an address of a server.
    pub(crate) fn tell_address<D: Display + Drop>(
        &mut self,
        host: &Name,
        text: &str,
        what: D,
    ) -> Result<(), NoMemory>
        ensures same { self.new.records ≡ self.old.records }
        ensures told { OnOk result (told_lines self.old < told_lines self.new) }
    {
        let (host, text) = (host.text(), OneLine(text));
        let line = format!(in self.alloc; "address {host} {text}: {what}")?;
        self.tell(line.as_str())
    }

    /// Tells that the operator's file has other addresses of a server.
    pub(crate) fn tell_others(&mut self, host: &Name) -> Result<(), NoMemory>
        ensures same { self.new.records ≡ self.old.records }
        ensures told { OnOk result (told_lines self.old < told_lines self.new) }
    {
        let host = host.text();
        let what = "the operator's file has others, which are taken";
        let line = format!(in self.alloc; "address {host} {what}")?;
        self.tell(line.as_str())
    }

    /// Tells of glue that is below no delegation.
    pub(crate) fn tell_orphan(&mut self, host: &Name, user: &Name) -> Result<(), NoMemory>
        ensures same { self.new.records ≡ self.old.records }
        ensures told { OnOk result (told_lines self.old < told_lines self.new) }
    {
        let (host, user) = (host.text(), user.text());
        let line = format!(in self.alloc; "glue {host} below no delegation; {user} uses it")?;
        self.tell(line.as_str())
    }

    /// Writes the records to the zone, and what is told as far as it can be written, and leaves
    /// nothing.
    pub(crate) fn send<Z: Write, T: Write>(&mut self, zone: &mut Z, told: &mut T) -> io::Result<()>
        ensures sent { OnOk result
            (Appends (Z.contents zone.old) (Z.contents zone.new) self.old.records.text) }
        ensures lines { AreLines self.old.records.text }
        ensures left { OnOk result (self.new.records ≡ record self.old.records { text = [] }) }
    {
        zone.write_all(self.records.as_bytes())?;
        self.records.clear();
        let _ = told.write_all(self.told.as_bytes());
        self.told.clear();
        Ok(())
    }
}
