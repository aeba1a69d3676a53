//! Verification of objects that come one at a time.

ghost use Rattle.std.specs.Prelude.{◌≡◌, ◌↔◌, ℤ, [], ◌∷◌, List, IfOk, IfErr, OnOk};
ghost use Rattle.std.specs.Prelude.{if◌then◌else◌};
ghost use Rattle.std.specs.BTreeSet.{insert_key};
ghost use Rattle.std.specs.List.{Contains};
ghost use Rattle.std.specs.List.Sorted.{IsStrictlySortedBy};
ghost use Rattle.esc_apply.specs.ObjectStreams.{Entry, InOrder};
ghost use Rattle.esc_tables.specs.KeyName.{key_cmp};
ghost use Rattle.esc_check.specs.Fields.{is_target};
ghost use Rattle.esc_check.specs.FindingValue.{FindingValue, listing_cmp};
ghost use Rattle.esc_check.specs.Findings.{IsFinding};
ghost use Rattle.esc_check.specs.ObjectReports.{IfSource, OfSource};
ghost use Rattle.esc_check.specs.TableMap.{content_of_entries};
ghost use Rattle.esc_check.specs.Verifying.{IsVerifying};

use crate::came::Came;
use crate::count::check_came;
use crate::date::{Limit, limit_at};
use crate::distinct::{listed, settle};
use crate::field::is_target;
use crate::finding::Finding;
use crate::link::{Link, add_all_missing, add_links, unmet};
use crate::stream::StreamFault;
use crate::verification::check_own;
use esc_apply::Objects;
use esc_bundle::NoMemory;
use esc_envelope::Kind;
use esc_tables::{Key, Object};
use std::alloc::Global;
use std::collections::{BTreeMap, BTreeSet};

/// A verification of objects that come one at a time, in the order of keys: what it keeps of them.
#[derive(Drop)]
pub struct Verification {
    // The watermark.
    limit: Limit,
    // The findings of each object by itself (V3 to V7).
    found: Vec<Finding>,
    // The keys of the objects so far to which a link may lead. The others need not be kept: of a
    // registry's objects most are domains, and no link leads to a domain.
    met: BTreeSet<Key>,
    // How many objects of each kind came so far.
    came: Came,
    // The links to objects that had not come when the links did: they may still come.
    waiting: Vec<Link>,
}

// Keeps a key, if a link may lead to it.
fn meet(met: &mut BTreeSet<Key>, key: Key) -> Result<(), NoMemory>
    ensures { OnOk result (met.new.keys
        ≡ (if is_target key.kind then insert_key key_cmp met.old.keys key else met.old.keys)) }
{
    if is_target(key.kind) {
        met.insert(key)?;
    }
    Ok(())
}

impl Verification {
    /// That of objects of which none came yet, by the watermark of the registry, in nanoseconds since
    /// 1970-01-01T00:00:00Z.
    pub fn new(alloc: Global, watermark: i64) -> Result<Verification, NoMemory>
        ensures { IfOk result (λ new. (whole : List Entry) → InOrder whole
            → IsVerifying watermark new whole whole) }
    {
        Ok(Verification {
            limit: limit_at(alloc, watermark)?,
            found: Vec::new(alloc),
            met: BTreeSet::new(alloc),
            came: Came::none(),
            waiting: Vec::new(alloc),
        })
    }

    /// Takes in the next object. Nearly all links lead to objects of an earlier kind, which have come
    /// already, so that these links need not be kept.
    pub fn take_in(&mut self, alloc: Global, key: Key, object: &Object) -> Result<(), NoMemory>
        ensures { OnOk result ((w : ℤ) (left whole : List Entry)
            → IsVerifying w self.old ((key, object.now) ∷ left) whole
            → IsVerifying w self.new left whole) }
    {
        check_own(alloc, &mut self.found, &self.limit, &key, object)?;
        let mut links = Vec::new(alloc);
        add_links(alloc, &mut links, &key, object)?;
        self.waiting.append(&mut unmet(&self.met, links))?;
        self.came.add(&key)?;
        meet(&mut self.met, key)?;
        Ok(())
    }

    /// The findings of the objects, all of which were taken in, by the declared numbers. Where
    /// objects came in another order, or a key twice, findings may differ only in `other`, and one of
    /// them is listed.
    pub fn finish(
        self,
        alloc: Global,
        counts: &BTreeMap<Kind, u64>,
    ) -> Result<Vec<Finding>, NoMemory>
        ensures ordered { IfOk result (λ found. IsStrictlySortedBy listing_cmp found.items) }
        ensures each { IfOk result (λ found. (w : ℤ) (es : List Entry) → IsVerifying w self [] es
            → (f : FindingValue) → Contains found.items f
            ↔ IsFinding (content_of_entries es) w counts.now.entries f) }
    {
        let Verification {
            limit: _,
            mut found,
            met,
            came,
            waiting,
        } = self;
        add_all_missing(alloc, &mut found, &unmet(&met, waiting))?;
        check_came(alloc, &mut found, &came, counts)?;
        Ok(listed(settle(found)))
    }
}

// Takes in all objects of a source.
fn take_in_all<O: Objects>(
    alloc: Global,
    objects: &mut O,
    watermark: i64,
) -> Result<Verification, StreamFault<O::Error>>
    ensures follows { O.follows objects.old objects.new }
    ensures source { IfErr result (λ fault. IfSource fault (O.has_failed objects.new)) }
    ensures cause { IfErr result (OfSource O.fails) }
    ensures all { IfOk result (λ verification. O.is_honest objects.new → (es : List Entry)
        → O.lists objects.old es → IsVerifying watermark verification [] es) }
{
    let mut verification = Verification::new(alloc, watermark)?;
    while let Some((key, object)) = objects.next().map_err(StreamFault::Source)? {
        verification.take_in(alloc, key, &object)?;
    }
    Ok(verification)
}

/// What `verify` returns for the tables of a registry, from their objects as they come one at a
/// time. It allocates for the findings, for the keys to which links may lead, and for the links to
/// objects that had not come when the links did. At `Err` the source failed, or it is out of
/// memory.
pub fn verify_from<O: Objects>(
    alloc: Global,
    objects: &mut O,
    watermark: i64,
    counts: &BTreeMap<Kind, u64>,
) -> Result<Vec<Finding>, StreamFault<O::Error>>
    ensures follows { O.follows objects.old objects.new }
    ensures source { IfErr result (λ fault. IfSource fault (O.has_failed objects.new)) }
    ensures cause { IfErr result (OfSource O.fails) }
    ensures ordered { IfOk result (λ found. IsStrictlySortedBy listing_cmp found.items) }
    ensures each { IfOk result (λ found. O.is_honest objects.new → (es : List Entry)
        → O.lists objects.old es
        → (f : FindingValue) → Contains found.items f ↔ IsFinding
        (content_of_entries es) watermark counts.now.entries f) }
{
    let verification = take_in_all(alloc, objects, watermark)?;
    Ok(verification.finish(alloc, counts)?)
}
