//! The pages of a walk over a store's tables.

ghost use Rattle.std.specs.Prelude.{◌≡◌, ◌+◌, ◌<◌, ◌++◌, ◌∷◌, [], List, Some, None};
ghost use Rattle.std.specs.Prelude.{is_some, IfOk, IfErr, OnOk, MatchOption};
ghost use Rattle.std.specs.Vec.Iter.{into_iter_items, into_iter_len};
ghost use Rattle.esc_apply.specs.ObjectStreams.{Entry, GivesFirst};
ghost use Rattle.esc_store.specs.Faults.{IsFailure};
ghost use Rattle.esc_store.specs.Pages.{IsPage};
ghost use Rattle.esc_store.specs.StoreState.{StoreState};
ghost use Rattle.esc_desk.specs.Places.{first_kind, later_kind, kinds_left, IsPlaceBehind};
ghost use Rattle.esc_desk.specs.Walking.{AreAllOf, AreCountedToCome, AreToCome, IsPageRead};
ghost use Rattle.esc_desk.specs.Walking.{of_kinds};

use esc_envelope::Kind;
use esc_store::{Cause, StoreFault};
use esc_tables::{Key, Object};
use std::alloc::Global;
use std::vec::IntoIter;

/// What gives the pages of a walk: a store, by SQL, or a reader of a store's trees.
pub(crate) trait Paged {
    /// The store stands for this state.
    ghost represents: { Self → StoreState → Type 0 };

    /// The disk gave back what was written to it.
    ghost is_honest: { Self → Type 0 };

    /// What a read leaves as it was, whatever it returns.
    ghost follows: { Self → Self → Type 0 };

    /// A page: the first objects of a kind whose keys are not below these bytes, in the order of
    /// keys, at most 256. It is empty only if there is no such object. `S1`, `S2`.
    fn objects_from(
        &mut self,
        alloc: Global,
        kind: Kind,
        from: &[u8],
    ) -> Result<Vec<(Key, Object)>, StoreFault>
        ensures read { IsPageRead represents follows self.old self.new result }
        ensures page { is_honest self.new → (k : StoreState) → represents self.old k
            → IfOk result (λ page. IsPage k.registry.content kind from.now page.items) }
        ensures cause { IfErr result IsFailure };

    ghost stays: { (a : Self) → follows a a };

    ghost goes_on: { (a b c : Self) → follows a b → follows b c → follows a c };

    /// What is honest now was honest before.
    ghost was_honest: { (a b : Self) → follows a b → is_honest b → is_honest a };
}

/// Where a walk stands: a page of objects at hand, and where the next page begins.
#[derive(Drop)]
pub struct Pages {
    pub(crate) alloc: Global,
    pub(crate) page: IntoIter<(Key, Object)>,
    // The kind of the next page, if there is to be one, and the bytes from which its keys begin.
    pub(crate) kind: Option<Kind>,
    pub(crate) from: Vec<u8>,
    // Whether no other kind is walked.
    pub(crate) alone: bool,
    // At most this many objects are still returned.
    pub(crate) left: u64,
}

// Where a walk begins over the objects of one kind or (`None`) of all. It returns at most `left`.
pub(crate) fn begin<P: Paged>(
    store: &mut P,
    alloc: Global,
    kind: Option<Kind>,
    left: u64,
) -> Result<Pages, StoreFault>
    ensures read { IsPageRead P.represents P.follows store.old store.new result }
    ensures left { IfOk result (λ pages. pages.left ≡ left) }
    ensures come { IfOk result (λ pages. P.is_honest store.new → (k : StoreState)
        → P.represents store.old k → (es : List Entry) → AreAllOf k.registry.content es
        → AreToCome P.represents store.new pages (of_kinds kind es)) }
    ensures cause { IfErr result IsFailure }
{
    let mut pages = first_place(alloc, kind, left);
    fill(store, &mut pages)?;
    Ok(pages)
}

// The next object of a walk, or `None` if there is none. `S1`, also if one comes where none was
// left; `S2`.
pub(crate) fn next<P: Paged>(
    store: &mut P,
    pages: &mut Pages,
) -> Result<Option<(Key, Object)>, StoreFault>
    ensures read { IsPageRead P.represents P.follows store.old store.new result }
    ensures given { IfOk result (λ o. P.is_honest store.new → (es : List Entry)
        → AreToCome P.represents store.old pages.old es
        → GivesFirst (AreToCome P.represents store.new pages.new) es o) }
    ensures left { IfOk result (λ o. MatchOption o (pages.new.left ≡ pages.old.left)
        (λ _. pages.old.left ≡ pages.new.left + 1)) }
    ensures cause { IfErr result IsFailure }
{
    fill(store, pages)?;
    match pages.page.next() {
        None => Ok(None),
        Some(entry) => {
            if pages.left == 0 {
                return Err(StoreFault::Failed(Cause::Contradiction));
            }
            pages.left -= 1;
            Ok(Some(entry))
        }
    }
}

// The next object of a walk that knows how many are left: it ends only where none is. `S1`, also
// where the index of keys has fewer or more objects than were left; `S2`.
pub(crate) fn next_counted<P: Paged>(
    store: &mut P,
    pages: &mut Pages,
) -> Result<Option<(Key, Object)>, StoreFault>
    ensures read { IsPageRead P.represents P.follows store.old store.new result }
    ensures given { IfOk result (λ o. P.is_honest store.new → (es : List Entry)
        → AreCountedToCome P.represents store.old pages.old es
        → GivesFirst (AreCountedToCome P.represents store.new pages.new) es o) }
    ensures left { IfOk result (λ o. MatchOption o (pages.old.left ≡ 0)
        (λ _. pages.old.left ≡ pages.new.left + 1)) }
    ensures cause { IfErr result IsFailure }
{
    match next(store, pages)? {
        None => {
            if pages.left != 0 {
                return Err(StoreFault::Failed(Cause::Contradiction));
            }
            Ok(None)
        }
        Some(entry) => Ok(Some(entry)),
    }
}

// Reads pages until an object is at hand, or no page is left.
fn fill<P: Paged>(store: &mut P, pages: &mut Pages) -> Result<(), StoreFault>
    ensures read { IsPageRead P.represents P.follows store.old store.new result }
    ensures left { pages.new.left ≡ pages.old.left }
    ensures kept { OnOk result (P.is_honest store.new → (es : List Entry)
        → AreToCome P.represents store.old pages.old es
        → AreToCome P.represents store.new pages.new es) }
    ensures full { OnOk result (into_iter_len pages.new.page ≡ 0 → pages.new.kind ≡ None) }
    ensures cause { IfErr result IsFailure }
{
    while pages.page.len() == 0 {
        match pages.kind {
            None => return Ok(()),
            Some(kind) => turn(store, pages, kind)?,
        }
    }
    Ok(())
}

// Reads the next page. The one at hand is used up.
fn turn<P: Paged>(store: &mut P, pages: &mut Pages, kind: Kind) -> Result<(), StoreFault>
    ensures read { IsPageRead P.represents P.follows store.old store.new result }
    ensures left { pages.new.left ≡ pages.old.left }
    ensures kept { OnOk result (P.is_honest store.new → pages.old.kind ≡ Some kind
        → into_iter_len pages.old.page ≡ 0 → (es : List Entry)
        → AreToCome P.represents store.old pages.old es
        → AreToCome P.represents store.new pages.new es) }
    ensures nearer { OnOk result (into_iter_len pages.new.page ≡ 0
        → kinds_left pages.new.kind < kinds_left (Some kind)) }
    ensures cause { IfErr result IsFailure }
{
    let page = store.objects_from(pages.alloc, kind, pages.from.as_slice())?;
    let (next, from) = next_place(pages.alloc, kind, pages.alone, page.as_slice())?;
    pages.kind = next;
    pages.from = from;
    pages.page = page.into_iter();
    Ok(())
}

// The position before the first page, of one kind or of all.
fn first_place(alloc: Global, kind: Option<Kind>, left: u64) -> Pages
    ensures page { into_iter_items result.page ≡ [] }
    ensures kind { result.kind ≡ Some (first_kind kind) }
    ensures from { result.from.items ≡ [] }
    ensures alone { result.alone ≡ is_some kind }
    ensures left { result.left ≡ left }
{
    Pages {
        alloc,
        page: Vec::new(alloc).into_iter(),
        kind: Some(kind.unwrap_or(Kind::Registrar)),
        from: Vec::new(alloc),
        alone: kind.is_some(),
        left,
    }
}

// Where the next page begins: after the last key of this one, or, if this one is empty, with the
// next kind, if any.
fn next_place(
    alloc: Global,
    kind: Kind,
    alone: bool,
    page: &[(Key, Object)],
) -> Result<(Option<Kind>, Vec<u8>), StoreFault>
    ensures place { IfOk result
        (λ place. IsPlaceBehind kind alone page.now place.0 place.1.items) }
    ensures cause { IfErr result IsFailure }
{
    match page.last() {
        Some(entry) => Ok((Some(kind), bytes_behind(alloc, entry.0.text.as_bytes())?)),
        None if alone => Ok((None, Vec::new(alloc))),
        None => Ok((kind_after(kind), Vec::new(alloc))),
    }
}

// The least bytes that come after these in byte order: these and a zero.
fn bytes_behind(alloc: Global, bytes: &[u8]) -> Result<Vec<u8>, StoreFault>
    ensures behind { IfOk result (λ behind. behind.items ≡ bytes.now ++ 0 ∷ []) }
    ensures cause { IfErr result IsFailure }
{
    let mut behind = Vec::from_slice(alloc, bytes)?;
    behind.push(0)?;
    Ok(behind)
}

// The next kind in the order of kinds, if any.
fn kind_after(kind: Kind) -> Option<Kind>
    ensures { result ≡ later_kind kind }
{
    match kind {
        Kind::Registrar => Some(Kind::Contact),
        Kind::Contact => Some(Kind::Host),
        Kind::Host => Some(Kind::Domain),
        Kind::Domain => Some(Kind::Idn),
        Kind::Idn => Some(Kind::Nndn),
        Kind::Nndn => None,
    }
}
