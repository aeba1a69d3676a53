//! The rows that a change lists: those that an amended manifest adds.

ghost use Rattle.std.specs.Prelude.{◌≡◌, ◌∷◌, ◌++◌, [], List, Some, length, map, take, IfErr, OnOk};
ghost use Rattle.std.specs.Prelude.{OnErr};
ghost use Rattle.esc_manifest.specs.declared.row.MRow.{MRow};
ghost use Rattle.esc_apply.specs.Registry.{State};
ghost use Rattle.esc_sql.specs.Entries.{listed_row};
ghost use Rattle.esc_store.specs.Faults.{IsFailure};
ghost use Rattle.esc_store.specs.StoreState.{StoreState, with_listed};
ghost use Rattle.esc_store.specs.TypedRows.{indexed_row, listed_from};
ghost use Rattle.esc_store.specs.Representation.{HasMadeBooksIn, HasMadeTables, IsUncommitted};
ghost use Rattle.esc_store.specs.Representation.{IsChangePart, listed_by};

use crate::change::Change;
use crate::codec::manifest::stored_manifest;
use crate::fault::StoreFault;
use esc_manifest::Manifest;
use esc_sql::listed::{Listed, insert_listed};
use sqlite::Alter;

impl<'a, S: Alter> Change<'a, S> {
    /// Lists the rows of a union, which has to begin with those that are listed. It becomes the
    /// store's manifest once the change is committed. At `Err` (`S1`, `S2`) no other rows are
    /// listed than before.
    #[tactic(auto, using(crate::proofs::Lists::unchanged))]
    pub fn list(&mut self, union: Manifest) -> Result<(), StoreFault>
        requires begins { take (length (listed_by self.now)) union ≡ listed_by self.now }
        ensures part { IsChangePart S.Store self.old self.new result (λ k. with_listed k union) }
        ensures listed { OnOk result (listed_by self.new ≡ union) }
        ensures unlisted { OnErr result (listed_by self.new ≡ listed_by self.old) }
        ensures cause { IfErr result IsFailure }
    {
        let rows = stored_manifest(self.store.alloc, union.rows())?;
        let from = self.listed_len();
        self.list_rows(rows.as_slice(), from)?;
        self.listing = Some(union);
        Ok(())
    }

    // How many rows are listed.
    fn listed_len(&self) -> usize
        ensures { result ≡ length (listed_by self.now) }
    {
        match &self.listing {
            Some(union) => union.rows().len(),
            None => self.store.manifest.rows().len(),
        }
    }

    // Adds the rows of a union, from an index on, to their table, which has those before it.
    #[tactic(auto, using(crate::specs::StandingLaws::goes_then))]
    fn list_rows(&mut self, rows: &[Listed], from: usize) -> Result<(), StoreFault>
        ensures goes_on { IsUncommitted S.Store self.old self.new }
        ensures listing { self.new.listing ≡ self.old.listing }
        ensures count { self.new.count ≡ self.old.count }
        ensures listed { OnOk result ((before k : StoreState) (union : List MRow)
            → map listed_row rows.now ≡ listed_from 0 union → take from union ≡ k.listed
            → HasMadeBooksIn S.Store self.old.store.now (Some k.listed) before k
            → HasMadeBooksIn S.Store self.new.store.now (Some union) before (with_listed k union)) }
        ensures holds { OnOk result ((s : State) → HasMadeTables S.Store self.old s
            → HasMadeTables S.Store self.new s) }
        ensures cause { IfErr result IsFailure }
    {
        for at in from..rows.len() {
            self.list_row(&rows[at])?;
        }
        Ok(())
    }

    // Puts a row into its table, which has those before it.
    fn list_row(&mut self, row: &Listed) -> Result<(), StoreFault>
        ensures goes_on { IsUncommitted S.Store self.old self.new }
        ensures listing { self.new.listing ≡ self.old.listing }
        ensures count { self.new.count ≡ self.old.count }
        ensures listed { OnOk result ((before k : StoreState) (r : MRow)
            → listed_row row.now ≡ indexed_row (length k.listed) r
            → HasMadeBooksIn S.Store self.old.store.now (Some k.listed) before k
            → HasMadeBooksIn S.Store self.new.store.now (Some (k.listed ++ r ∷ [])) before
            (with_listed k (k.listed ++ r ∷ []))) }
        ensures holds { OnOk result ((s : State) → HasMadeTables S.Store self.old s
            → HasMadeTables S.Store self.new s) }
        ensures cause { IfErr result IsFailure }
    {
        let done = insert_listed(&mut self.store.conn, row);
        self.store.settle(done)
    }
}
