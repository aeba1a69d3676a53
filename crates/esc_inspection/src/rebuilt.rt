//! Tables, compared with what a deposit says.

ghost use Rattle.std.specs.Prelude.{◌≡◌, None, IfErr};
ghost use Rattle.std.specs.Map.{keys_of, lookup};
ghost use Rattle.esc_tables.specs.KeyName.{key_eq};
ghost use Rattle.esc_apply.specs.Tables.{deletes_of, mentioned, says};
ghost use Rattle.esc_store.specs.Faults.{IsFailure};
ghost use Rattle.esc_desk.specs.Lookups.{ForTables};
ghost use Rattle.esc_desk.specs.Reading.{IsReadOf, OkForEvents};
ghost use Rattle.esc_inspection.specs.Compared.{Marks};

use crate::comparison::Comparison;
use esc_desk::{KeyIndex, Lookup, StoreFault};
use esc_envelope::DepositType;
use esc_tables::{Deposit, Key, Object};
use std::alloc::Global;
use std::collections::BTreeMap;

/// Compares what a deposit says, which comes before those that were compared.
// A key in contents and deletes has the object of the contents, so these come first.
#[tactic(auto, using(crate::proofs::Reading::reads_stay))]
pub(crate) fn compare_deposit<R: Lookup>(
    alloc: Global,
    reader: &mut R,
    index: &KeyIndex,
    deposit: &Deposit,
    comparison: &mut Comparison,
) -> Result<(), StoreFault>
    ensures read { IsReadOf R.follows R.reflects reader.old reader.new result }
    ensures compared { OkForEvents R.is_honest R.reflects reader.old reader.new result
        (λ e done. ForTables e (λ es. index.now ≡ keys_of es → Marks es (mentioned deposit.now)
        (λ q. says q deposit.now) comparison.old comparison.new)) }
    ensures cause { IfErr result IsFailure }
{
    compare_contents(alloc, reader, index, &deposit.contents, comparison)?;
    compare_deletes(alloc, reader, index, deletes_of(deposit), comparison)
}

#[tactic(auto, using(crate::proofs::Reading::reads_stay))]
fn compare_contents<R: Lookup>(
    alloc: Global,
    reader: &mut R,
    index: &KeyIndex,
    contents: &BTreeMap<Key, Object>,
    comparison: &mut Comparison,
) -> Result<(), StoreFault>
    ensures read { IsReadOf R.follows R.reflects reader.old reader.new result }
    ensures compared { OkForEvents R.is_honest R.reflects reader.old reader.new result
        (λ e done. ForTables e (λ es. index.now ≡ keys_of es
        → Marks es (keys_of contents.now.entries) (λ q. lookup (key_eq q) contents.now.entries)
        comparison.old comparison.new)) }
    ensures cause { IfErr result IsFailure }
{
    for (key, object) in contents.iter() {
        let found = reader.find(alloc, index, key)?;
        comparison.mention(alloc, key, Some(object), found)?;
    }
    Ok(())
}

#[tactic(auto, using(crate::proofs::Reading::reads_stay))]
fn compare_deletes<R: Lookup>(
    alloc: Global,
    reader: &mut R,
    index: &KeyIndex,
    deletes: &[Key],
    comparison: &mut Comparison,
) -> Result<(), StoreFault>
    ensures read { IsReadOf R.follows R.reflects reader.old reader.new result }
    ensures compared { OkForEvents R.is_honest R.reflects reader.old reader.new result
        (λ e done. ForTables e (λ es. index.now ≡ keys_of es
        → Marks es deletes.now (λ q. None) comparison.old comparison.new)) }
    ensures cause { IfErr result IsFailure }
{
    for key in deletes {
        let found = reader.find(alloc, index, key)?;
        comparison.mention(alloc, key, None, found)?;
    }
    Ok(())
}

// The deletes that count: those of a Full are ignored.
fn deletes_of(deposit: &Deposit) -> &[Key]
    ensures { result.now ≡ deletes_of deposit.now }
{
    match deposit.header.place.kind {
        DepositType::Full => &[],
        DepositType::Incr | DepositType::Diff => &deposit.deletes,
    }
}
