//! Which rows a store holds.

ghost use Rattle.std.specs.Prelude.{ℕ, List, [], ◌∷◌, ◌++◌, IfOk, IfErr, OnOk};
ghost use Rattle.esc_store.specs.Faults.{IsFailure};
ghost use Rattle.esc_store.specs.Holding.{HasReceipts, IsInserted, AreFound};
ghost use Rattle.esc_store.specs.Representation.{Represents, IsHonest, IsAsBefore};
ghost use Rattle.esc_store.specs.StoreState.{StoreState, AreHeld, IsRising};

use crate::fault::StoreFault;
use crate::store::Store;
use esc_bundle::NoMemory;
use sqlite::Alter;
use std::alloc::Global;

impl<S: Alter> Store<S> {
    /// The indices, from 0, of the listed rows whose body is held, in ascending order: those that
    /// receipts say are held (`A1`), and those that have a body whose digest no row listed when it
    /// arrived. Only bodies of the latter are read, each once. `S1`, `S2`.
    pub fn held(&mut self, alloc: Global) -> Result<Vec<usize>, StoreFault>
        ensures same { IsAsBefore S.Store self.old self.new }
        ensures rows { IsHonest S.Store self.new → (k : StoreState) → Represents S.Store self.old k
            → HasReceipts k → IfOk result (λ rows. AreHeld k.bodies rows.items) }
        ensures cause { IfErr result IsFailure }
    {
        let told = self.held_by_receipts(alloc)?;
        let digests = self.unlisted_digests(alloc)?;
        self.with_found(alloc, told, &digests)
    }

    // The rows that receipts say are held (`told`), and those that list one of these digests and
    // have a body.
    fn with_found(
        &mut self,
        alloc: Global,
        told: Vec<usize>,
        digests: &[[u8; 32]],
    ) -> Result<Vec<usize>, StoreFault>
        ensures same { IsAsBefore S.Store self.old self.new }
        ensures found { IsHonest S.Store self.new → (k : StoreState) → Represents S.Store self.old k
            → IsRising told.items
            → IfOk result (λ rows. AreFound k told.items digests.now rows.items) }
        ensures cause { IfErr result IsFailure }
    {
        let mut rows = told;
        for digest in digests {
            self.insert_found(alloc, &mut rows, digest)?;
        }
        Ok(rows)
    }

    // Inserts the row that lists a digest among rows in ascending order, if that row has a body.
    // The body of a row that is one of them already isn't read: many receipts may have one digest.
    fn insert_found(
        &mut self,
        alloc: Global,
        rows: &mut Vec<usize>,
        digest: &[u8; 32],
    ) -> Result<(), StoreFault>
        ensures same { IsAsBefore S.Store self.old self.new }
        ensures found { OnOk result (IsHonest S.Store self.new → (k : StoreState)
            → Represents S.Store self.old k → (told : List ℕ) (digests : List (List ℕ))
            → AreFound k told digests rows.old.items
            → AreFound k told (digests ++ digest.now ∷ []) rows.new.items) }
        ensures cause { IfErr result IsFailure }
    {
        let Some(row) = self.manifest().row_by_digest(digest) else {
            return Ok(());
        };
        if rows.binary_search(&row).is_ok() {
            return Ok(());
        }
        if self.body_of(alloc, row)?.is_some() {
            insert_row(rows, row)?;
        }
        Ok(())
    }
}

/// Inserts a row among rows in ascending order, unless it is one of them.
pub fn insert_row(rows: &mut Vec<usize>, row: usize) -> Result<(), NoMemory>
    ensures { OnOk result (IsRising rows.old.items
        → IsInserted rows.old.items row rows.new.items) }
{
    if let Err(place) = rows.binary_search(&row) {
        rows.insert(place, row)?;
    }
    Ok(())
}
