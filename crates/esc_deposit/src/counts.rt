//! How many objects of each kind there are.

ghost use Rattle.std.specs.Prelude.{◌≡◌, ◌+◌, ◌++◌, ◌∷◌, [], List, IfSome, suc, ◌==◌};
ghost use Rattle.std.specs.Prelude.{if◌then◌else◌};
ghost use Rattle.esc_apply.specs.ObjectStreams.{Entry};
ghost use Rattle.esc_deposit.specs.FullBundle.{counted_kinds, entry_count};

use crate::part::Part;
use esc_envelope::Kind;
use esc_tables::{Key, Object};

/// Each kind with a number of objects, in the order of kinds.
pub(crate) type KindCounts = [(Kind, u64); 6];

fn count_of(objects: &[(Key, Object)], kind: Kind) -> u64
    ensures { result ≡ entry_count objects.now kind }
{
    objects.iter().filter(|(key, _)| key.kind == kind).count() as u64
}

// A kind's number with those of these objects; `None` where it doesn't fit.
fn count_more(count: (Kind, u64), objects: &[(Key, Object)]) -> Option<(Kind, u64)>
    ensures { IfSome result (λ more. more ≡ (count.0, count.1 + entry_count objects.now count.0)) }
{
    let (kind, number) = count;
    let number = number.checked_add(count_of(objects, kind))?;
    Some((kind, number))
}

/// The numbers of no objects.
pub(crate) fn no_counts() -> KindCounts
    ensures { result ≡ counted_kinds [] }
{
    [
        (Kind::Registrar, 0),
        (Kind::Contact, 0),
        (Kind::Host, 0),
        (Kind::Domain, 0),
        (Kind::Idn, 0),
        (Kind::Nndn, 0),
    ]
}

/// The numbers with those of more objects; `None` where one doesn't fit.
pub(crate) fn counts_with(counts: KindCounts, objects: &[(Key, Object)]) -> Option<KindCounts>
    ensures { IfSome result (λ more. (es : List Entry) → counts ≡ counted_kinds es
        → more ≡ counted_kinds (es ++ objects.now)) }
{
    Some([
        count_more(counts[0], objects)?,
        count_more(counts[1], objects)?,
        count_more(counts[2], objects)?,
        count_more(counts[3], objects)?,
        count_more(counts[4], objects)?,
        count_more(counts[5], objects)?,
    ])
}

/// What a part declares of the numbers of the whole: the last one all, the others none.
pub(crate) fn declared<'a>(part: Part<'_>, counts: &'a [(Kind, u64)]) -> &'a [(Kind, u64)]
    ensures { result.now ≡ if suc part.entry.number == part.entry.series.length then counts.now
        else [] }
{
    if part.number.checked_add(1) == Some(part.series.length) {
        counts
    } else {
        &[]
    }
}
