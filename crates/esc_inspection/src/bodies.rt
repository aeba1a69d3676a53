//! The bodies of a store: whether they are as listed, and which TLDs they name.

ghost use Rattle.std.specs.Prelude.{◌≡◌, ◌++◌, ◌∷◌, [], ℕ, List, map, cond, string_bytes};
ghost use Rattle.std.specs.Prelude.{option_map, OnOk, IfErr};
ghost use Rattle.esc_events.specs.Apart.{WhereApart};
ghost use Rattle.esc_store.specs.Faults.{IsFailure};
ghost use Rattle.esc_desk.specs.Reading.{IsReadOf, OkForEvents};
ghost use Rattle.esc_acceptance.specs.Tlds.{with_tld_of};
ghost use Rattle.esc_inspection.specs.Parts.{AreSpoiledAmong, AreTldsOf};

use esc_acceptance::{Tlds, is_as_listed};
use esc_bundle::NoMemory;
use esc_desk::{Reads, StoreFault};
use esc_progress::Progress;
use std::alloc::Global;

/// What the held bodies say.
#[derive(Drop)]
pub struct Bodies {
    /// The held rows whose body isn't there, or has another SHA-256 than listed.
    pub spoiled: Vec<usize>,
    /// The TLDs that the bodies name.
    pub tlds: Tlds,
}

impl Bodies {
    fn new(alloc: Global) -> Bodies
        ensures spoiled { result.spoiled.items ≡ [] }
        ensures tlds { result.tlds.names.items ≡ [] }
    {
        Bodies {
            spoiled: Vec::new(alloc),
            tlds: Tlds::new(alloc),
        }
    }

    // Adds the TLD that the body of a held row names, if it is there; and the row, if this isn't the
    // body that it lists.
    fn add(
        &mut self,
        alloc: Global,
        row: usize,
        body: Option<&[u8]>,
        is_listed: bool,
    ) -> Result<(), NoMemory>
        ensures spoiled { OnOk result (self.new.spoiled.items
            ≡ cond is_listed self.old.spoiled.items (self.old.spoiled.items ++ row ∷ [])) }
        ensures tlds { OnOk result (map string_bytes self.new.tlds.names.items
            ≡ with_tld_of (option_map (λ b. b.now) body.entry)
            (map string_bytes self.old.tlds.names.items)) }
    {
        if let Some(body) = body {
            self.tlds.add(alloc, body)?;
        }
        if !is_listed {
            self.spoiled.push(row)?;
        }
        Ok(())
    }
}

/// Reads the bodies of these held rows, one at a time.
pub(crate) fn read_bodies<R: Reads>(
    alloc: Global,
    reader: &mut R,
    held: &[usize],
    progress: &mut Progress<'_>,
) -> Result<Bodies, StoreFault>
    ensures read { IsReadOf R.follows R.reflects reader.old reader.new result }
    ensures spoiled { OkForEvents R.is_honest R.reflects reader.old reader.new result
        (λ e bodies. WhereApart e (AreSpoiledAmong e held.now bodies.spoiled.items)) }
    ensures tlds { OkForEvents R.is_honest R.reflects reader.old reader.new result
        (λ e bodies. WhereApart e (AreTldsOf e held.now bodies.tlds)) }
    ensures cause { IfErr result IsFailure }
{
    let mut bodies = Bodies::new(alloc);
    progress.begin(Some(held.len() as u64));
    for (count, row) in held.iter().enumerate() {
        progress.tell_read("bodies", count as u64, "bodies");
        read_held(alloc, reader, *row, &mut bodies)?;
    }
    Ok(bodies)
}

// Reads the body of a held row.
fn read_held<R: Reads>(
    alloc: Global,
    reader: &mut R,
    row: usize,
    bodies: &mut Bodies,
) -> Result<(), StoreFault>
    ensures read { IsReadOf R.follows R.reflects reader.old reader.new result }
    ensures spoiled { OkForEvents R.is_honest R.reflects reader.old reader.new result
        (λ e done. WhereApart e ((rows : List ℕ) → AreSpoiledAmong e rows bodies.old.spoiled.items
        → AreSpoiledAmong e (rows ++ row ∷ []) bodies.new.spoiled.items)) }
    ensures tlds { OkForEvents R.is_honest R.reflects reader.old reader.new result
        (λ e done. WhereApart e ((rows : List ℕ) → AreTldsOf e rows bodies.old.tlds
        → AreTldsOf e (rows ++ row ∷ []) bodies.new.tlds)) }
    ensures cause { IfErr result IsFailure }
{
    let body = reader.body_of(alloc, row)?;
    let listed = reader.manifest().rows().get(row);
    let is_listed = is_as_listed(listed, body.as_deref());
    bodies.add(alloc, row, body.as_deref(), is_listed)?;
    Ok(())
}
