//! The bodies of a chain: what they say, and whether the tables are those that they make. Each is read
//! once.

ghost use Rattle.std.specs.Prelude.{◌≡◌, ◌∷◌, ℕ, List, map, Option, option_to_list, IfErr};
ghost use Rattle.std.specs.Map.{keys_of};
ghost use Rattle.esc_events.specs.Apart.{WhereApart};
ghost use Rattle.esc_store.specs.Faults.{IsFailure};
ghost use Rattle.esc_desk.specs.Lookups.{ForTables};
ghost use Rattle.esc_desk.specs.Reading.{IsReadOf, OkForEvents};
ghost use Rattle.esc_acceptance.specs.Chains.{AreFactsOf, deposits_in};
ghost use Rattle.esc_inspection.specs.Compared.{AreComparedWithBodies};
ghost use Rattle.esc_inspection.specs.Parts.{IsRebuiltFrom, body_at};

use crate::comparison::Comparison;
use crate::rebuilt::compare_deposit;
use esc_acceptance::ChainFacts;
use esc_apply::tables_are_listed;
use esc_desk::{KeyIndex, Lookup, Reads, StoreFault};
use esc_progress::Progress;
use esc_tables::Deposit;
use std::alloc::Global;

/// What the bodies of a chain say, and whether the tables are those that they make.
#[derive(Drop)]
pub(crate) struct ChainBodies {
    pub facts: ChainFacts,
    pub is_rebuilt: bool,
}

/// What was read of the last bodies of a chain.
#[derive(Drop)]
struct LastBodies {
    facts: ChainFacts,
    comparison: Comparison,
}

/// Reads the bodies of these rows of a chain, one at a time, the last first.
#[tactic(auto, using(crate::proofs::Reading::reads_stay))]
pub(crate) fn read_chain<R: Lookup>(
    alloc: Global,
    reader: &mut R,
    rows: &[usize],
    progress: &mut Progress<'_>,
) -> Result<ChainBodies, StoreFault>
    ensures read { IsReadOf R.follows R.reflects reader.old reader.new result }
    ensures facts { OkForEvents R.is_honest R.reflects reader.old reader.new result
        (λ e chain. WhereApart e (AreFactsOf (map (body_at e) rows.now) chain.facts)) }
    ensures rebuilt { OkForEvents R.is_honest R.reflects reader.old reader.new result
        (λ e chain. WhereApart e (IsRebuiltFrom e rows.now chain.is_rebuilt)) }
    ensures cause { IfErr result IsFailure }
{
    tables_are_listed();
    let index = reader.index(alloc)?;
    let LastBodies { facts, comparison } = read_rows(alloc, reader, &index, rows, progress)?;
    Ok(ChainBodies {
        facts,
        is_rebuilt: comparison.is_complete(),
    })
}

#[tactic(auto, using(crate::proofs::Reading::reads_stay))]
fn read_rows<R: Lookup>(
    alloc: Global,
    reader: &mut R,
    index: &KeyIndex,
    rows: &[usize],
    progress: &mut Progress<'_>,
) -> Result<LastBodies, StoreFault>
    ensures read { IsReadOf R.follows R.reflects reader.old reader.new result }
    ensures facts { OkForEvents R.is_honest R.reflects reader.old reader.new result
        (λ e bodies. WhereApart e (AreFactsOf (map (body_at e) rows.now) bodies.facts)) }
    ensures compared { OkForEvents R.is_honest R.reflects reader.old reader.new result
        (λ e bodies. ForTables e (λ es. index.now ≡ keys_of es
        → AreComparedWithBodies (map (body_at e) rows.now) es bodies.comparison)) }
    ensures cause { IfErr result IsFailure }
{
    let facts = ChainFacts::new(alloc);
    let comparison = Comparison::new(alloc, index.count())?;
    let mut bodies = LastBodies { facts, comparison };
    progress.begin(Some(rows.len() as u64));
    for count in 0..rows.len() {
        progress.tell_read("tables", count as u64, "bodies");
        let row = rows[rows.len() - 1 - count];
        read_row(alloc, reader, index, row, &mut bodies)?;
    }
    Ok(bodies)
}

// Reads the body of a row, which comes before those that were read. Objects are looked up only while
// nothing differs.
#[tactic(auto, using(crate::proofs::Reading::reads_stay))]
fn read_row<R: Lookup>(
    alloc: Global,
    reader: &mut R,
    index: &KeyIndex,
    row: usize,
    bodies: &mut LastBodies,
) -> Result<(), StoreFault>
    ensures read { IsReadOf R.follows R.reflects reader.old reader.new result }
    ensures facts { OkForEvents R.is_honest R.reflects reader.old reader.new result
        (λ e done. WhereApart e ((later : List (Option (List ℕ))) → AreFactsOf later bodies.old.facts
        → AreFactsOf (body_at e row ∷ later) bodies.new.facts)) }
    ensures compared { OkForEvents R.is_honest R.reflects reader.old reader.new result
        (λ e done. ForTables e (λ es. index.now ≡ keys_of es
        → (later : List (Option (List ℕ))) → AreComparedWithBodies later es bodies.old.comparison
        → AreComparedWithBodies (body_at e row ∷ later) es bodies.new.comparison)) }
    ensures cause { IfErr result IsFailure }
{
    match read_body(alloc, reader, row, &mut bodies.facts)? {
        Some(deposit) if bodies.comparison.is_same => {
            compare_deposit(alloc, reader, index, &deposit, &mut bodies.comparison)
        }
        _ => {
            bodies.comparison.is_same = false;
            Ok(())
        }
    }
}

// Reads the body of a row, which comes before those that were read. Returns its deposit, if it is one:
// the body is no longer in memory while that is compared.
#[tactic(auto, using(crate::proofs::Reading::reads_stay))]
fn read_body<R: Reads>(
    alloc: Global,
    reader: &mut R,
    row: usize,
    facts: &mut ChainFacts,
) -> Result<Option<Deposit>, StoreFault>
    ensures read { IsReadOf R.follows R.reflects reader.old reader.new result }
    ensures facts { OkForEvents R.is_honest R.reflects reader.old reader.new result
        (λ e deposit. WhereApart e ((later : List (Option (List ℕ))) → AreFactsOf later facts.old
        → AreFactsOf (body_at e row ∷ later) facts.new)) }
    ensures deposit { OkForEvents R.is_honest R.reflects reader.old reader.new result
        (λ e deposit. WhereApart e (option_to_list deposit ≡ deposits_in (body_at e row))) }
    ensures cause { IfErr result IsFailure }
{
    let body = reader.body_of(alloc, row)?;
    let deposit = facts.add_earlier(alloc, body.as_deref())?;
    Ok(deposit)
}
