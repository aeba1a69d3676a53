//! The DS of domains.

ghost use Rattle.std.specs.Prelude.{◌≡◌, ◌≢◌, ◌+◌, ◌<◌, ◌≤◌, List, OnOk, IfOk, map, length};
ghost use Rattle.std.specs.Prelude.{[], count_by, if◌then◌else◌};
ghost use Rattle.std.specs.List.{cons_option};
ghost use Rattle.esc_zone.specs.declared.signer.Ds.{Ds};
ghost use Rattle.esc_zone.specs.Drafts.{zone_notes};
ghost use Rattle.esc_zone.specs.Mirrors.{original_notes};
ghost use Rattle.esc_zone.specs.Lists.{GivesOne, GivesEach, IsOrderedOnce};
ghost use Rattle.esc_zone.specs.Signers.{IsSigner, AreSigners, ds_value, ds_cmp, no_memory};
ghost use Rattle.esc_zone.specs.Delegations.{with_records, signer_records};
ghost use Rattle.esc_zone.specs.Told.{told_lines, says_signer, TellsOfSigners};

use crate::counts::add;
use crate::draft::Draft;
use crate::fault::Halt;
use crate::lists::push_some;
use crate::name::Name;
use crate::sheet::Sheet;
use crate::signer::{Ds, DsFault, ds_of_row};
use esc_tables::Row;

impl Draft {
    /// Writes the DS of a domain, in order, each once. Of rows that give none it is told why.
    pub(crate) fn write_signers(
        &mut self,
        name: &Name,
        rows: &[Row],
        sheet: &mut Sheet,
    ) -> Result<(), Halt>
        ensures noted { OnOk result (zone_notes self.new ≡ zone_notes self.old) }
        ensures originals { OnOk result (original_notes self.new ≡ original_notes self.old) }
        ensures records { OnOk result ((signers : List Ds) × AreSigners name.now rows.now signers
            × (sheet.new.records ≡ with_records sheet.old.records
            (signer_records sheet.old.records.ttl name.now signers))) }
        ensures told { OnOk result (TellsOfSigners name.now rows.now (told_lines sheet.old)
            (told_lines sheet.new)) }
    {
        let given = self.signers_of(name, rows, sheet)?;
        let signers = in_order_once(given);
        self.add_signers(name, &signers, sheet)
    }

    // The DS that rows give, in the order of the rows. Of rows that give none it is told why.
    fn signers_of(&mut self, name: &Name, rows: &[Row], sheet: &mut Sheet) -> Result<Vec<Ds>, Halt>
        ensures noted { OnOk result (zone_notes self.new ≡ zone_notes self.old) }
        ensures originals { OnOk result (original_notes self.new ≡ original_notes self.old) }
        ensures records { sheet.new.records ≡ sheet.old.records }
        ensures given { IfOk result (λ given. GivesEach (IsSigner name.now) rows.now given.items) }
        ensures told { IfOk result (λ given. count_by says_signer rows.now + told_lines sheet.old
            ≤ length given.items + told_lines sheet.new) }
    {
        let mut given = Vec::new(self.alloc);
        for row in rows {
            let ds = self.signer_of(name, row, sheet)?;
            push_some(&mut given, ds)?;
        }
        Ok(given)
    }

    // Writes these DS.
    fn add_signers(&mut self, name: &Name, signers: &[Ds], sheet: &mut Sheet) -> Result<(), Halt>
        ensures noted { OnOk result (zone_notes self.new ≡ zone_notes self.old) }
        ensures originals { OnOk result (original_notes self.new ≡ original_notes self.old) }
        ensures records { OnOk result (sheet.new.records ≡ with_records sheet.old.records
            (signer_records sheet.old.records.ttl name.now signers.now)) }
        ensures told { OnOk result (told_lines sheet.new ≡ told_lines sheet.old) }
    {
        for ds in signers {
            sheet.records.add_ds(name, ds)?;
            add(&mut self.counts.signers);
            add(&mut self.counts.records);
        }
        Ok(())
    }

    // The DS that a row gives, if it gives one; if not, it is told why.
    fn signer_of(&mut self, name: &Name, row: &Row, sheet: &mut Sheet) -> Result<Option<Ds>, Halt>
        ensures noted { OnOk result (zone_notes self.new ≡ zone_notes self.old) }
        ensures originals { OnOk result (original_notes self.new ≡ original_notes self.old) }
        ensures records { sheet.new.records ≡ sheet.old.records }
        ensures given { IfOk result (λ ds. GivesOne (IsSigner name.now) row.now ds) }
        ensures told { IfOk result (λ ds. (if says_signer row.now then 1 else 0)
            + told_lines sheet.old ≤ length (cons_option ds []) + told_lines sheet.new) }
    {
        match ds_of_row(self.alloc, name, row) {
            Ok(Some(given)) => {
                self.counts.add_given(given.is_of_key);
                Ok(Some(given.ds))
            }
            Ok(None) => Ok(None),
            Err(fault) => {
                leave_out(sheet, name, fault)?;
                Ok(None)
            }
        }
    }
}

// Tells why a row gives no DS, unless there is no memory left.
fn leave_out(sheet: &mut Sheet, name: &Name, fault: DsFault<'_>) -> Result<(), Halt>
    ensures same { sheet.new.records ≡ sheet.old.records }
    ensures fault { OnOk result (fault.entry ≢ no_memory) }
    ensures told { OnOk result (told_lines sheet.old < told_lines sheet.new) }
{
    match fault {
        DsFault::NoMemory => Err(Halt::NoMemory),
        _ => Ok(sheet.leave_out_ds(name, fault)?),
    }
}

// These DS in order, each once.
fn in_order_once(mut signers: Vec<Ds>) -> Vec<Ds>
    ensures { IsOrderedOnce ds_cmp (map ds_value signers.items) (map ds_value result.items) }
{
    signers.sort_unstable();
    signers.dedup();
    signers
}
