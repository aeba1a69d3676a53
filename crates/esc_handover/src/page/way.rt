//! The way of the chain through its deposits.

use crate::page::axis::Axis;
use crate::page::picture::{line, rail_of};
use esc_chain::{GapLine, State};
use esc_envelope::DepositType;
use esc_html::Html;
use std::alloc::Global;

// Where a deposit stands: on which lane, and how far along.
#[derive(Clone, Copy)]
struct Stand {
    kind: DepositType,
    x: u32,
}

// A straight part of the way.
#[derive(Clone, Copy)]
struct Stretch {
    from: Stand,
    to: Stand,
}

impl Stretch {
    // Whether it goes along the lane of this type.
    fn is_along(self, kind: DepositType) -> bool {
        self.from.kind == kind && self.to.kind == kind
    }

    fn line(self, alloc: Global) -> Html {
        let ys = (rail_of(self.from.kind), rail_of(self.to.kind));
        line(alloc, "way", (self.from.x, self.to.x), ys)
    }
}

/// A line through the deposits of the chain, which are in order.
pub(crate) fn way(alloc: Global, axis: Axis, gaps: &[GapLine]) -> Html {
    let mut html = Html::new(alloc);
    let mut last: Option<Stretch> = None;
    for gap in gaps.iter().filter(|gap| gap.state == State::Chain) {
        let to = Stand {
            kind: gap.place.kind,
            x: axis.position(gap.place.watermark),
        };
        last = match last {
            None => Some(Stretch { from: to, to }),
            Some(stretch) if stretch.is_along(to.kind) => Some(Stretch { to, ..stretch }),
            Some(stretch) => {
                html = html.add(stretch.line(alloc));
                Some(Stretch {
                    from: stretch.to,
                    to,
                })
            }
        };
    }
    match last {
        Some(stretch) => html.add(stretch.line(alloc)),
        None => html,
    }
}
