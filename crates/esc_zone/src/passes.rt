//! The passes over the objects of a registry.

ghost use Rattle.std.specs.Prelude.{◌≡◌, List, OnOk};
ghost use Rattle.esc_apply.specs.ObjectStreams.{Entry};
ghost use Rattle.esc_zone.specs.Drafts.{zone_notes};
ghost use Rattle.esc_zone.specs.Mirrors.{original_notes};
ghost use Rattle.esc_zone.specs.Passes.{IsDomainText, IsMirrorText, IsGlueText, AppendsEach};
ghost use Rattle.esc_zone.specs.Passes.{noted_servers, without_texts};
ghost use Rattle.std.specs.Prelude.{[]};
ghost use Rattle.esc_zone.specs.Noted.{draft_notes, with_uses, with_hosts, with_domains};
ghost use Rattle.esc_zone.specs.Noted.{with_originals, NotesNames, IsFresh, AreTaken};
ghost use Rattle.esc_zone.specs.Records.{AppendsLines};

use crate::draft::Draft;
use crate::fault::{Halt, ZoneFault};
use crate::sheet::Sheet;
use esc_apply::Objects;
use std::io::Write;

impl Draft {
    /// Notes what the domains have in the zone.
    pub fn note_domains<O: Objects>(&mut self, objects: &mut O) -> Result<(), ZoneFault<O::Error>>
        ensures noted { OnOk result (O.is_honest objects.new → (es : List Entry)
            → O.lists objects.old es
            → draft_notes self.new ≡ with_uses es (draft_notes self.old)) }
        ensures taken { OnOk result (O.is_honest objects.new → (es : List Entry)
            → O.lists objects.old es → IsFresh (draft_notes self.old)
            → AreTaken [] [] [] es (draft_notes self.new)) }
    {
        while let Some((key, object)) = objects.next().map_err(ZoneFault::Source)? {
            self.note_domain(&key, &object)?;
        }
        Ok(())
    }

    /// Notes what the mirrored names have in the zone.
    pub fn note_mirrors<O: Objects>(&mut self, objects: &mut O) -> Result<(), ZoneFault<O::Error>>
        ensures noted { OnOk result (NotesNames (draft_notes self.old) (draft_notes self.new)) }
        ensures taken { OnOk result ((hosts uses : List Entry)
            → AreTaken hosts [] [] uses (draft_notes self.old)
            → AreTaken hosts [] [] uses (draft_notes self.new)) }
    {
        while let Some((key, object)) = objects.next().map_err(ZoneFault::Source)? {
            self.note_mirror(&key, &object)?;
        }
        Ok(())
    }

    /// Takes the addresses of the hosts that are servers in the zone.
    pub fn take_hosts<O: Objects>(&mut self, objects: &mut O) -> Result<(), ZoneFault<O::Error>>
        ensures noted { OnOk result (O.is_honest objects.new → (es : List Entry)
            → O.lists objects.old es
            → draft_notes self.new ≡ with_hosts es (draft_notes self.old)) }
        ensures taken { OnOk result (O.is_honest objects.new → (es : List Entry)
            → O.lists objects.old es → (domains mirrors uses : List Entry)
            → AreTaken [] domains mirrors uses (draft_notes self.old)
            → AreTaken es domains mirrors uses (draft_notes self.new)) }
    {
        while let Some((key, object)) = objects.next().map_err(ZoneFault::Source)? {
            self.take_host(&key, &object)?;
        }
        Ok(())
    }

    /// Takes what the domains say whose names matter to others.
    pub fn take_domains<O: Objects>(&mut self, objects: &mut O) -> Result<(), ZoneFault<O::Error>>
        ensures noted { OnOk result (O.is_honest objects.new → (es : List Entry)
            → O.lists objects.old es
            → draft_notes self.new ≡ with_domains es (draft_notes self.old)) }
        ensures taken { OnOk result (O.is_honest objects.new → (es : List Entry)
            → O.lists objects.old es → (hosts mirrors uses : List Entry)
            → AreTaken hosts [] mirrors uses (draft_notes self.old)
            → AreTaken hosts es mirrors uses (draft_notes self.new)) }
    {
        while let Some((key, object)) = objects.next().map_err(ZoneFault::Source)? {
            self.take_domain(&key, &object)?;
        }
        Ok(())
    }

    /// Takes the originals of the mirrored names that matter to others.
    pub fn take_mirrors<O: Objects>(&mut self, objects: &mut O) -> Result<(), ZoneFault<O::Error>>
        ensures noted { OnOk result (O.is_honest objects.new → (es : List Entry)
            → O.lists objects.old es
            → draft_notes self.new ≡ with_originals es (draft_notes self.old)) }
        ensures taken { OnOk result (O.is_honest objects.new → (es : List Entry)
            → O.lists objects.old es → (hosts domains uses : List Entry)
            → AreTaken hosts domains [] uses (draft_notes self.old)
            → AreTaken hosts domains es uses (draft_notes self.new)) }
    {
        while let Some((key, object)) = objects.next().map_err(ZoneFault::Source)? {
            self.take_mirror(&key, &object)?;
        }
        Ok(())
    }

    /// Writes the domains to the zone, and tells what is left out.
    pub fn write_domains<O: Objects, Z: Write, T: Write>(
        &mut self,
        objects: &mut O,
        zone: &mut Z,
        told: &mut T,
    ) -> Result<(), ZoneFault<O::Error>>
        ensures follows { O.follows objects.old objects.new }
        ensures noted { OnOk result (zone_notes self.new ≡ zone_notes self.old) }
        ensures lines { OnOk result (AppendsLines (Z.contents zone.old) (Z.contents zone.new)) }
        ensures records { OnOk result (O.is_honest objects.new → (es : List Entry)
            → O.lists objects.old es
            → AppendsEach (IsDomainText (zone_notes self.old)) es (Z.contents zone.old)
            (Z.contents zone.new)) }
    {
        let mut sheet = Sheet::new(self.alloc, self.settings.ttl);
        while let Some((key, object)) = objects.next().map_err(ZoneFault::Source)? {
            self.write_domain(&key, &object, &mut sheet)?;
            sheet.send(zone, told)?;
        }
        Ok(())
    }

    /// Writes the mirrored names to the zone, and tells what is left out.
    pub fn write_mirrors<O: Objects, Z: Write, T: Write>(
        &mut self,
        objects: &mut O,
        zone: &mut Z,
        told: &mut T,
    ) -> Result<(), ZoneFault<O::Error>>
        ensures follows { O.follows objects.old objects.new }
        ensures noted { OnOk result (zone_notes self.new ≡ zone_notes self.old) }
        ensures originals { OnOk result (original_notes self.new ≡ original_notes self.old) }
        ensures lines { OnOk result (AppendsLines (Z.contents zone.old) (Z.contents zone.new)) }
        ensures records { OnOk result (O.is_honest objects.new → (es : List Entry)
            → O.lists objects.old es
            → AppendsEach (IsMirrorText (zone_notes self.old) (original_notes self.old)) es
            (Z.contents zone.old) (Z.contents zone.new)) }
    {
        let mut sheet = Sheet::new(self.alloc, self.settings.ttl);
        while let Some((key, object)) = objects.next().map_err(ZoneFault::Source)? {
            self.write_mirror(&key, &object, &mut sheet)?;
            sheet.send(zone, told)?;
        }
        Ok(())
    }

    /// Writes the addresses of the servers in the zone that are in use, and tells what is left out.
    pub fn write_glue<Z: Write, T: Write, E>(
        &mut self,
        zone: &mut Z,
        told: &mut T,
    ) -> Result<(), ZoneFault<E>>
        ensures noted { OnOk result (zone_notes self.new ≡ without_texts (zone_notes self.old)) }
        ensures lines { OnOk result (AppendsLines (Z.contents zone.old) (Z.contents zone.new)) }
        ensures records { OnOk result (AppendsEach (IsGlueText (zone_notes self.old))
            (noted_servers self.old) (Z.contents zone.old) (Z.contents zone.new)) }
    {
        let mut sheet = Sheet::new(self.alloc, self.settings.ttl);
        let servers = self.take_servers();
        for (host, server) in &servers {
            self.write_host(host, server, &mut sheet)?;
            sheet.send(zone, told)?;
        }
        Ok(())
    }
}
