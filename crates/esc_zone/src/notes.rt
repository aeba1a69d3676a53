//! The first passes before the zone is written: which servers and names matter.

ghost use Rattle.std.specs.Prelude.{◌≡◌, true, OnOk, Some, ◌||◌, ◌&&◌};
ghost use Rattle.esc_zone.specs.Mirrors.{original_of, original_in, is_by_servers};
ghost use Rattle.esc_zone.specs.Delegations.{texts_of};
ghost use Rattle.esc_zone.specs.Noted.{place_notes, draft_notes, with_noted, is_server_at};
ghost use Rattle.esc_zone.specs.Noted.{is_above_server, is_above_use, is_server_among};
ghost use Rattle.esc_zone.specs.Noted.{is_above_uses, is_used_by, is_above_used, is_let_in_at};
ghost use Rattle.esc_zone.specs.Noted.{NotesNames};

use crate::draft::{Draft, Place, servers_of};
use crate::fault::Halt;
use crate::field::cell;
use crate::name::Name;
use crate::reading::read_name;
use crate::status::hold_of;
use esc_bundle::NoMemory;
use esc_tables::{Key, Object, Row};

/// What is done for a name that is no domain (RFC 9022, section 5.6.1.1).
#[derive(Clone, Copy)]
pub(crate) enum Mirror<'a> {
    /// Nothing: it is blocked or withheld.
    Nothing,
    /// It has the servers of this original.
    Servers(&'a str),
    /// It is mirrored in another way: `mirroringNS` has this text.
    Other(&'a str),
}

/// What is done for a name that is no domain, by its row.
pub(crate) fn mirror_of(row: &Row) -> Mirror<'_>
    ensures { original_of result ≡ original_in row.now }
{
    if cell(row, "nameState") != "mirrored" {
        return Mirror::Nothing;
    }
    let by_servers = cell(row, "mirroringNS");
    if is_by_servers(by_servers.trim()) {
        return Mirror::Servers(cell(row, "originalName"));
    }
    Mirror::Other(by_servers)
}

// Whether a text says that a name is mirrored by name servers, or says nothing.
fn is_by_servers(text: &str) -> bool
    ensures { result ≡ is_by_servers text.now }
{
    text.is_empty() || text == "true" || text == "1"
}

impl Draft {
    /// Notes the servers of a domain that are in the zone, and the names above it and them.
    pub fn note_domain(&mut self, key: &Key, object: &Object) -> Result<(), Halt>
        ensures { OnOk result (draft_notes self.new ≡ with_noted
            (is_used_by (draft_notes self.old).settings (key.now, object.now))
            (is_above_used (draft_notes self.old).settings (key.now, object.now))
            (draft_notes self.old)) }
    {
        let Some(name) = read_name(self.alloc, key.text.as_str())? else {
            return Ok(());
        };
        self.note_odd(key, &name)?;
        if !self.is_open(&name, &object.children) {
            return Ok(());
        }
        let servers = servers_of(self.alloc, &object.children)?;
        self.note_uses(&name, &servers)?;
        Ok(())
    }

    // Whether a domain with this name and these child rows is let in.
    fn is_open(&self, name: &Name, rows: &[Row]) -> bool
        ensures { result ≡ is_let_in_at (draft_notes self.now).settings name.now rows.now }
    {
        self.is_inside(name) && hold_of(rows).is_none()
    }

    // Notes those of a domain's servers that are in the zone, and the names above it and them.
    fn note_uses(&mut self, name: &Name, texts: &[String]) -> Result<(), NoMemory>
        ensures { OnOk result (draft_notes self.new ≡ with_noted
            (is_server_among (draft_notes self.old).settings (texts_of texts.now))
            (is_above_uses (draft_notes self.old).settings name.now (texts_of texts.now))
            (draft_notes self.old)) }
    {
        for text in texts {
            self.note_use(name, text.as_str())?;
        }
        Ok(())
    }

    // Notes the names above a domain, and its server with this text and those above it, if that is
    // in the zone.
    fn note_use(&mut self, name: &Name, text: &str) -> Result<(), NoMemory>
        ensures { OnOk result (draft_notes self.new ≡ with_noted
            (is_server_at (draft_notes self.old).settings text.now)
            (is_above_use (draft_notes self.old).settings name.now text.now)
            (draft_notes self.old)) }
    {
        self.note_above(name)?;
        self.note_zone_server(text)?;
        Ok(())
    }

    fn note_zone_server(&mut self, text: &str) -> Result<(), NoMemory>
        ensures { OnOk result (draft_notes self.new ≡ with_noted
            (is_server_at (draft_notes self.old).settings text.now)
            (is_above_server (draft_notes self.old).settings text.now)
            (draft_notes self.old)) }
    {
        if let Some(host) = self.zone_server(text)? {
            self.note_server(&host)?;
        }
        Ok(())
    }

    /// Notes a mirrored name, its original, and the names above it.
    pub fn note_mirror(&mut self, key: &Key, object: &Object) -> Result<(), Halt>
        ensures { OnOk result (NotesNames (draft_notes self.old) (draft_notes self.new)) }
    {
        let Some(name) = read_name(self.alloc, key.text.as_str())? else {
            return Ok(());
        };
        self.note_odd(key, &name)?;
        self.note_mirrored(name, mirror_of(&object.parent))?;
        Ok(())
    }

    // Notes a name that is mirrored so.
    fn note_mirrored(&mut self, name: Name, mirror: Mirror<'_>) -> Result<(), NoMemory>
        ensures { OnOk result (NotesNames (draft_notes self.old) (draft_notes self.new)) }
    {
        match mirror {
            Mirror::Nothing => Ok(()),
            Mirror::Servers(original) => self.note_both(name, original),
            Mirror::Other(_) => self.note_with_above(name),
        }
    }

    // Notes a mirrored name and its original.
    fn note_both(&mut self, name: Name, original: &str) -> Result<(), NoMemory>
        ensures { OnOk result (NotesNames (draft_notes self.old) (draft_notes self.new)) }
    {
        self.note_original(original)?;
        self.note_with_above(name)?;
        Ok(())
    }

    // Notes a name and the names above it.
    fn note_with_above(&mut self, name: Name) -> Result<(), NoMemory>
        ensures { OnOk result (NotesNames (draft_notes self.old) (draft_notes self.new)) }
    {
        self.note_above(&name)?;
        self.note_place(name)?;
        Ok(())
    }

    fn note_original(&mut self, text: &str) -> Result<(), NoMemory>
        ensures { OnOk result (NotesNames (draft_notes self.old) (draft_notes self.new)) }
    {
        let Some(name) = read_name(self.alloc, text)? else {
            return Ok(());
        };
        self.note_place(name.copy(self.alloc)?)?;
        self.mark_original(&name);
        Ok(())
    }

    // Marks a name as the original of a mirrored one.
    fn mark_original(&mut self, name: &Name)
        ensures { draft_notes self.new ≡ draft_notes self.old }
    {
        if let Some(place) = self.places.get_mut(name) {
            set_original(place);
        }
    }
}

// Marks a place as the original of a mirrored name.
fn set_original(place: &mut Place)
    ensures { place_notes place.new ≡ place_notes place.old }
{
    place.is_original = true;
}
