//! What a store remembers of what it read.

ghost use Rattle.std.specs.Prelude.{◌≡◌, option_map, IfOk};

use crate::counts::KindCounts;
use esc_apply::Step;
use esc_bundle::NoMemory;
use std::alloc::Global;

// What a store remembers of what it read, until a change ends: reading it takes as long as there
// are receipts, steps or objects.
#[derive(Drop)]
pub(crate) struct Remembered {
    // The rows that receipts say are held.
    pub(crate) rows_with_receipt: Option<Vec<usize>>,
    // The digests of the bodies that no row listed, by receipts.
    pub(crate) unlisted_digests: Option<Vec<[u8; 32]>>,
    // The steps of the chain.
    pub(crate) chain: Option<Vec<Step>>,
    // How many objects there are of each kind.
    pub(crate) counts: Option<KindCounts>,
}

pub(crate) const NOTHING: Remembered = Remembered {
    rows_with_receipt: None,
    unlisted_digests: None,
    chain: None,
    counts: None,
};

// A copy of a list, if it is remembered.
pub(crate) fn copy_of<T: Copy>(
    alloc: Global,
    list: &Option<Vec<T>>,
) -> Result<Option<Vec<T>>, NoMemory>
    ensures { IfOk result
        (λ copy. option_map (λ v. v.items) copy ≡ option_map (λ v. v.items) list.now) }
{
    match list {
        Some(list) => Ok(Some(Vec::from_slice(alloc, list)?)),
        None => Ok(None),
    }
}
