//! What a deposit says of itself, and its row of a manifest says of it.

use std::fmt;

/// A value that a deposit and its row both have.
#[derive(Clone, Copy, Debug)]
pub enum Member {
    Id,
    /// The type, a part of the place.
    Kind,
    /// The watermark, the other part.
    Watermark,
    Resend,
    PrevId,
}

impl Member {
    /// All of them, in the order in which they are told.
    pub const ALL: [Member; 5] = [
        Member::Id,
        Member::Kind,
        Member::Watermark,
        Member::Resend,
        Member::PrevId,
    ];
}

impl fmt::Display for Member {
    fn fmt<W: fmt::Write>(&self, f: &mut fmt::Formatter<W>) -> fmt::Result {
        f.write_str(match self {
            Member::Id => "id",
            Member::Kind => "type",
            Member::Watermark => "watermark",
            Member::Resend => "resend",
            Member::PrevId => "prevId",
        })
    }
}
