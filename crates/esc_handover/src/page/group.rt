//! Listed places that are shown together.

ghost use Rattle.std.specs.Prelude.{◌≡◌, ◌+◌, ◌^◌, ◌<◌, count_by, is_some, IfOk, OnOk};
ghost use Rattle.esc_handover.specs.Picture.{has_look, takes, places_in, places_in_group};

use crate::page::axis::Axis;
use esc_bundle::NoMemory;
use esc_chain::{Blocker, GapLine, State};
use esc_envelope::DepositType;
use std::alloc::Global;

/// How the places look that are marked alike: their type, their state, and whether a later resend
/// of them is awaited.
#[derive(Clone, Copy)]
pub(crate) struct Look {
    pub(crate) kind: DepositType,
    pub(crate) state: State,
    pub(crate) is_awaited: bool,
}

/// Which places are grouped, and how.
#[derive(Clone, Copy)]
pub(crate) enum Grouping {
    /// Those of one look, where they stand close on an axis.
    Marks(Look, Axis),
    /// Those of one type, where they are alike.
    Runs(DepositType),
}

/// Places that are shown together: the line of the first one, the watermark of the last one, and
/// how many there are.
#[derive(Clone, Copy)]
pub(crate) struct Group<'a> {
    pub(crate) first: &'a GapLine,
    pub(crate) last: i64,
    pub(crate) count: u64,
}

/// How far apart two marks of one look are at least, in thousandths of the axis.
const MARK_WIDTH: u32 = 16;

// Whether a later resend is awaited of a place.
fn is_awaited(line: &GapLine) -> bool
    ensures { result ≡ is_some line.now.awaited }
{
    line.awaited.is_some()
}

impl Look {
    // Whether a place has this look.
    fn is_of(self, line: &GapLine) -> bool
        ensures { result ≡ has_look self line.now }
    {
        line.place.kind == self.kind
            && line.state == self.state
            && (if self.is_awaited {
                is_awaited(line)
            } else {
                !is_awaited(line)
            })
    }
}

impl<'a> Group<'a> {
    fn of(line: &'a GapLine) -> Group<'a>
        ensures { result.count ≡ 1 }
    {
        Group {
            first: line,
            last: line.place.watermark,
            count: 1,
        }
    }
}

impl Grouping {
    // Whether a place is grouped.
    fn takes(self, line: &GapLine) -> bool
        ensures { result ≡ takes self line.now }
    {
        match self {
            Grouping::Marks(look, _) => look.is_of(line),
            Grouping::Runs(kind) => line.place.kind == kind,
        }
    }

    // Whether a place that is grouped is of the group that is open.
    fn joins(self, group: Group<'_>, line: &GapLine) -> bool {
        match self {
            Grouping::Marks(_, axis) => {
                let from = axis.position(group.first.place.watermark);
                axis.position(line.place.watermark) < from + MARK_WIDTH
            }
            Grouping::Runs(_) => are_alike(group.first, line),
        }
    }

    // Takes a place into the group that is open, or into a new one. Returns the group that is
    // closed then, if one is, and the one that is open.
    fn next<'a>(
        self,
        current: Option<Group<'a>>,
        line: &'a GapLine,
    ) -> (Option<Group<'a>>, Group<'a>)
        requires { places_in_group current < 2 ^ 63 }
        ensures { places_in_group result.0 + result.1.count ≡ places_in_group current.entry + 1 }
    {
        match current {
            Some(group) if self.joins(group, line) => {
                let group = Group {
                    last: line.place.watermark,
                    count: group.count + 1,
                    ..group
                };
                (None, group)
            }
            _ => (current, Group::of(line)),
        }
    }
}

// Adds a group, if it is one.
fn push_closed<'a>(groups: &mut Vec<Group<'a>>, closed: Option<Group<'a>>) -> Result<(), NoMemory>
    ensures { OnOk result (places_in groups.new.items ≡ places_in groups.old.items
        + places_in_group closed.entry) }
{
    if let Some(group) = closed {
        groups.push(group)?;
    }
    Ok(())
}

// Whether two places have the same state for the same reason.
fn are_alike(line: &GapLine, other: &GapLine) -> bool {
    line.state == other.state
        && line.used == other.used
        && line.awaited == other.awaited
        && is_same_blocker(&line.blocker, &other.blocker)
}

fn is_same_blocker(blocker: &Option<Blocker>, other: &Option<Blocker>) -> bool {
    match (blocker, other) {
        (None, None) => true,
        (Some(Blocker::NotHeld(place)), Some(Blocker::NotHeld(other))) => {
            place.place() == other.place()
        }
        (Some(Blocker::NotListed(id)), Some(Blocker::NotListed(other))) => {
            id.text() == other.text()
        }
        (Some(Blocker::NoEarlierFull), Some(Blocker::NoEarlierFull)) => true,
        _ => false,
    }
}

/// The groups of these places, which are in the order of places: each place that is grouped is in
/// one of them.
pub(crate) fn groups_of<'a>(
    alloc: Global,
    gaps: &'a [GapLine],
    grouping: Grouping,
) -> Result<Vec<Group<'a>>, NoMemory>
    ensures { IfOk result
        (λ groups. places_in groups.items ≡ count_by (takes grouping) gaps.now) }
{
    let mut groups: Vec<Group<'a>> = Vec::new(alloc);
    let mut current: Option<Group<'a>> = None;
    for line in gaps {
        if !grouping.takes(line) {
            continue;
        }
        let (closed, next) = grouping.next(current, line);
        push_closed(&mut groups, closed)?;
        current = Some(next);
    }
    push_closed(&mut groups, current)?;
    Ok(groups)
}
