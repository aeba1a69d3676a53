//! The moment and the receipts of a store.

ghost use Rattle.std.specs.Prelude.{◌≡◌, IfErr};
ghost use Rattle.esc_events.specs.Events.{last_moment};
ghost use Rattle.esc_store.specs.Faults.{IsFailure};
ghost use Rattle.esc_desk.specs.Reading.{IsReadOf, OkForEvents};
ghost use Rattle.esc_desk.specs.Reads.{replies_of};

use esc_desk::{Reads, StoreFault};
use esc_store::Reply;
use std::alloc::Global;

/// The moment and the receipts of a store.
#[derive(Drop)]
pub struct Books {
    /// The moment that is set, if one is, in nanoseconds since 1970-01-01T00:00:00Z.
    pub moment: Option<i64>,
    /// All replies, in the order of their receipts.
    pub receipts: Vec<Reply>,
}

/// Reads the moment and the receipts.
#[tactic(auto, using(crate::proofs::Reading::reads_stay))]
pub(crate) fn read_books<R: Reads>(alloc: Global, reader: &mut R) -> Result<Books, StoreFault>
    ensures read { IsReadOf R.follows R.reflects reader.old reader.new result }
    ensures moment { OkForEvents R.is_honest R.reflects reader.old reader.new result
        (λ e books. books.moment ≡ last_moment e) }
    ensures receipts { OkForEvents R.is_honest R.reflects reader.old reader.new result
        (λ e books. books.receipts.items ≡ replies_of e) }
    ensures cause { IfErr result IsFailure }
{
    let moment = reader.moment(alloc)?;
    let receipts = reader.receipts(alloc)?;
    Ok(Books { moment, receipts })
}
