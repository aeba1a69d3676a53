//! Mirrored names, which have the name servers of their originals.

ghost use Rattle.std.specs.Prelude.{◌≡◌, [], false, OnOk, IfOk, Some, None, if◌then◌else◌};
ghost use Rattle.esc_zone.specs.Delegations.{with_records, server_records};
ghost use Rattle.esc_zone.specs.Drafts.{zone_notes};
ghost use Rattle.esc_zone.specs.Fields.{normal};
ghost use Rattle.esc_zone.specs.Mirrors.{original_notes, is_domain_name, is_mirror, servers_like};
ghost use Rattle.esc_zone.specs.Mirrors.{mirror_servers};
ghost use Rattle.esc_zone.specs.Names.{is_name_with};

use crate::counts::add;
use crate::draft::Draft;
use crate::fault::Halt;
use crate::name::Name;
use crate::notes::{Mirror, mirror_of};
use crate::reading::{name_in, normal};
use crate::sheet::Sheet;
use esc_bundle::NoMemory;
use esc_cli::OneLine;
use esc_tables::{Key, Object};
use std::alloc::Global;

impl Draft {
    /// Writes a mirrored name: the name servers of its original, if these are there.
    pub(crate) fn write_mirror(
        &mut self,
        key: &Key,
        object: &Object,
        sheet: &mut Sheet,
    ) -> Result<(), Halt>
        ensures noted { OnOk result (zone_notes self.new ≡ zone_notes self.old) }
        ensures originals { OnOk result (original_notes self.new ≡ original_notes self.old) }
        ensures records { OnOk result (sheet.new.records ≡ with_records sheet.old.records
            (server_records sheet.old.records.ttl (normal key.now.text)
            (mirror_servers (zone_notes self.old) (original_notes self.old) (normal key.now.text)
            object.now.parent))) }
    {
        let text = normal(self.alloc, key.text.as_str())?;
        let text = text.as_str();
        match mirror_of(&object.parent) {
            Mirror::Nothing => Ok(()),
            Mirror::Other(value) => {
                add(&mut self.counts.mirrored);
                self.leave_out_other(text, value, sheet)
            }
            Mirror::Servers(original) => {
                add(&mut self.counts.mirrored);
                self.delegate_mirror(text, original, sheet)
            }
        }
    }

    // Tells that a name is mirrored in another way.
    fn leave_out_other(&self, text: &str, value: &str, sheet: &mut Sheet) -> Result<(), Halt>
        ensures { sheet.new.records ≡ sheet.old.records }
    {
        if self.domain_named(text)?.is_some() {
            return Ok(sheet.leave_out(text, "it is a domain too")?);
        }
        let value = OneLine(value);
        let why = "mirrored in another way than by name servers: mirroringNS is";
        let why = format!(in self.alloc; "{why} {value}")?;
        Ok(sheet.leave_out(text, why)?)
    }

    // The name of a domain that matters to others with this normal text, if it is one.
    fn domain_named(&self, text: &str) -> Result<Option<Name>, NoMemory>
        ensures { IfOk result (λ n. n ≡ (if is_domain_name (original_notes self.now) text.now
            then Some text.now else None)) }
    {
        match name_in(self.alloc, text, false)? {
            Some(name) if self.is_domain(&name) => Ok(Some(name)),
            _ => Ok(None),
        }
    }

    // Writes a name with the servers that this original has.
    fn delegate_mirror(&mut self, text: &str, original: &str, sheet: &mut Sheet) -> Result<(), Halt>
        ensures noted { OnOk result (zone_notes self.new ≡ zone_notes self.old) }
        ensures originals { OnOk result (original_notes self.new ≡ original_notes self.old) }
        ensures records { OnOk result (sheet.new.records ≡ with_records sheet.old.records
            (server_records sheet.old.records.ttl text.now (servers_like (zone_notes self.old)
            (original_notes self.old) text.now (normal original.now)))) }
    {
        let original = normal(self.alloc, original)?;
        let original = original.as_str();
        match self.mirror_for(text, original, sheet)? {
            Some(name) => self.write_mirrored(&name, original, sheet),
            None => Ok(()),
        }
    }

    // The name that a text is, if it has the servers of this original; else it is told why not.
    fn mirror_for(
        &self,
        text: &str,
        original: &str,
        sheet: &mut Sheet,
    ) -> Result<Option<Name>, Halt>
        ensures same { sheet.new.records ≡ sheet.old.records }
        ensures name { IfOk result (λ n. n ≡ (if is_mirror (zone_notes self.now)
            (original_notes self.now) text.now original.now then Some text.now else None)) }
    {
        if self.domain_named(text)?.is_some() {
            sheet.leave_out(text, "it is a domain too")?;
            return Ok(None);
        }
        if self.domain_named(original)?.is_none() {
            self.leave_out_alone(text, original, sheet)?;
            return Ok(None);
        }
        Ok(self.name_for(text, sheet)?)
    }

    // Tells that the original of a name is no domain.
    fn leave_out_alone(&self, text: &str, original: &str, sheet: &mut Sheet) -> Result<(), NoMemory>
        ensures { sheet.new.records ≡ sheet.old.records }
    {
        if original.is_empty() {
            return sheet.leave_out(text, "mirrored without originalName");
        }
        let why = format!(in self.alloc; "its original {} is no domain", OneLine(original))?;
        sheet.leave_out(text, why)
    }

    // Writes that a name has the servers that this original has, if it has any.
    fn write_mirrored(&mut self, name: &Name, original: &str, sheet: &mut Sheet) -> Result<(), Halt>
        ensures noted { OnOk result (zone_notes self.new ≡ zone_notes self.old) }
        ensures originals { OnOk result (original_notes self.new ≡ original_notes self.old) }
        ensures records { OnOk result (sheet.new.records ≡ with_records sheet.old.records
            (server_records sheet.old.records.ttl name.now (if is_name_with false original.now
            then (original_notes self.old).servers original.now else []))) }
    {
        let servers = self.servers_kept(original)?;
        if servers.is_empty() {
            return Ok(());
        }
        add(&mut self.counts.mirrored_delegated);
        self.write_servers(name, &servers, sheet)
    }

    // The servers in the zone of the domain with this normal text, which were kept.
    fn servers_kept(&self, text: &str) -> Result<Vec<Name>, NoMemory>
        ensures { IfOk result (λ servers. servers.items ≡ (if is_name_with false text.now
            then (original_notes self.now).servers text.now else [])) }
    {
        match name_in(self.alloc, text, false)? {
            Some(name) => self.servers_at(&name),
            None => Ok(Vec::new(self.alloc)),
        }
    }

    fn servers_at(&self, name: &Name) -> Result<Vec<Name>, NoMemory>
        ensures { IfOk result (λ servers.
            servers.items ≡ (original_notes self.now).servers name.now) }
    {
        match self.places.get(name) {
            Some(place) => copies_of(self.alloc, &place.servers),
            None => Ok(Vec::new(self.alloc)),
        }
    }
}

// Equal names.
fn copies_of(alloc: Global, names: &[Name]) -> Result<Vec<Name>, NoMemory>
    ensures { IfOk result (λ copies. copies.items ≡ names.now) }
{
    let mut copies = Vec::new(alloc);
    for name in names {
        copies.push(name.copy(alloc)?)?;
    }
    Ok(copies)
}
