//! The time axis of a picture.

ghost use Rattle.std.specs.Prelude.{◌≡◌, ◌≤◌};
ghost use Rattle.esc_handover.specs.Picture.{since, position};

use crate::page::share::share_of;
use esc_chain::GapLine;

/// The moments at which a time axis begins and ends, in nanoseconds since 1970-01-01T00:00:00Z.
#[derive(Clone, Copy)]
pub(crate) struct Axis {
    pub(crate) first: i64,
    pub(crate) last: i64,
}

// How much later a moment is than another one, if it is later.
fn since(first: i64, moment: i64) -> u64
    ensures { result ≡ since first moment }
{
    if moment < first {
        0
    } else {
        moment.abs_diff(first)
    }
}

impl Axis {
    /// From the first of these places to the last one, in the order of places.
    pub(crate) fn of(gaps: &[GapLine]) -> Option<Axis> {
        let first = gaps.first()?;
        let last = gaps.last()?;
        Some(Axis {
            first: first.place.watermark,
            last: last.place.watermark,
        })
    }

    /// How far along the axis a moment stands, in thousandths of it.
    pub(crate) fn position(self, moment: i64) -> u32
        ensures position { result ≡ position self.first self.last moment }
        ensures inside { result ≤ 1000 }
    {
        share_of(since(self.first, moment), since(self.first, self.last))
    }
}
