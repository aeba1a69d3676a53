//! What is seen of a store.

ghost use Rattle.std.specs.Prelude.{◌≡◌, IfOk, IfErr};
ghost use Rattle.esc_store.specs.Faults.{IsFailure};
ghost use Rattle.esc_desk.specs.Reading.{IsReadOf, OkForEvents};
ghost use Rattle.esc_acceptance.specs.Acceptance.{status_of};
ghost use Rattle.esc_acceptance.specs.Lines.{IsTextOf};
ghost use Rattle.esc_inspection.specs.Answers.{IsAnswerAfter, Shows};
ghost use Rattle.esc_inspection.specs.Inspected.{AreFactsAfter, seen_in};

use crate::bodies::read_bodies;
use crate::books::read_books;
use crate::chain_bodies::read_chain;
use crate::ending::read_ending;
use crate::facts::StoreFacts;
use crate::form::Form;
use crate::kept_chain::read_kept_chain;
use crate::listing::read_listing;
use crate::surveying::read_contents;
use crate::totals::read_totals;
use esc_acceptance::{Report, Seen, report_of};
use esc_bundle::NoMemory;
use esc_cli::DONE;
use esc_desk::{Lookup, Reads, StoreFault};
use esc_handover::{Answer, page_of};
use esc_progress::Progress;
use std::alloc::Global;

/// Inspects a store that a reader reads, at a time that a clock says, if one does. It tells how far
/// it is. `S1`, `S2`.
#[tactic(auto, using(crate::proofs::Reading::reads_stay))]
pub fn inspect<R: Lookup>(
    alloc: Global,
    reader: &mut R,
    clock: Option<i64>,
    progress: &mut Progress<'_>,
) -> Result<StoreFacts, StoreFault>
    ensures read { IsReadOf R.follows R.reflects reader.old reader.new result }
    ensures facts { OkForEvents R.is_honest R.reflects reader.old reader.new result AreFactsAfter }
    ensures at_clock { IfOk result (λ facts. facts.clock ≡ clock) }
    ensures cause { IfErr result IsFailure }
{
    let books = read_books(alloc, reader)?;
    let totals = read_totals(alloc, reader)?;
    let listing = read_listing(alloc, reader, books.moment)?;
    let parked = reader.parked(alloc)?;
    let kept_chain = read_kept_chain(alloc, reader, &listing.held, books.moment)?;
    let bodies = read_bodies(alloc, reader, &listing.held, progress)?;
    let chain = read_chain(alloc, reader, &kept_chain.rows, progress)?;
    let ending = read_ending(alloc, reader)?;
    // The contents come after the chain, whose index is gone by then.
    let contents = read_contents(alloc, reader, &ending.end, bodies.tlds.only(), progress)?;
    Ok(StoreFacts {
        clock,
        books,
        totals,
        ending,
        listing,
        parked,
        kept_chain,
        bodies,
        chain: chain.facts,
        is_rebuilt: chain.is_rebuilt,
        contents,
    })
}

/// Whether a registry may be taken over, in this form, at a time that a clock says, if one does.
#[tactic(auto, using(crate::proofs::Reading::reads_stay))]
pub fn acceptance<R: Lookup>(
    alloc: Global,
    reader: &mut R,
    form: Form,
    clock: Option<i64>,
    progress: &mut Progress<'_>,
) -> Result<Answer, StoreFault>
    ensures read { IsReadOf R.follows R.reflects reader.old reader.new result }
    ensures answer { OkForEvents R.is_honest R.reflects reader.old reader.new result
        (λ e answer. IsAnswerAfter e clock form answer) }
    ensures cause { IfErr result IsFailure }
{
    let facts = inspect(alloc, reader, clock, progress)?;
    Ok(answer_of(alloc, &facts, form)?)
}

/// The lines or the page of what was seen of a store.
pub fn answer_of(alloc: Global, facts: &StoreFacts, form: Form) -> Result<Answer, NoMemory>
    ensures shown { IfOk result (Shows (seen_in facts.now) form) }
{
    let seen = facts.seen();
    match form {
        Form::Lines { is_strict } => lines_answer(alloc, &seen, is_strict),
        Form::Page => {
            let text = page_of(alloc, &seen, &facts.books.receipts, &facts.parked)?;
            Ok(Answer { text, status: DONE })
        },
    }
}

fn lines_answer(alloc: Global, seen: &Seen<'_>, is_strict: bool) -> Result<Answer, NoMemory>
    ensures text { IfOk result (λ answer. IsTextOf seen.now answer.text.items) }
    ensures status { IfOk result (λ answer. answer.status ≡ status_of is_strict seen.now) }
{
    let Report { text, status } = report_of(alloc, seen, is_strict)?;
    Ok(Answer { text, status })
}
