//! What the definitions say together.
//!
//! The functions here do nothing. Each has a law as its contract: a caller who needs the law calls
//! it.

ghost use Rattle.std.specs.Prelude.{◌≡◌, ℤ, pos, [], ◌∷◌, map, codes};
ghost use Rattle.esc_deposit.specs.RegistrySeries.{registry_series};
ghost use Rattle.esc_events.specs.StateAfter.{deposits_of, held_body};
ghost use Rattle.esc_handover.specs.Picture.{IsAxis};
ghost use Rattle.esc_handover.specs.Restored.{FullHasItsObjects, FullIsRestored, SeriesIsRestored};
ghost use Rattle.esc_handover.specs.WorkedSeries.{first_header, first_part, last_came_first};
ghost use Rattle.esc_handover.specs.WorkedSeries.{last_header, last_part, reads_part, two_domains};
ghost use Rattle.esc_handover.specs.WorkedSeries.{listed_parts};

use esc_deposit::series_has_its_objects;

/// A registry that is rebuilt from a Full of its tables has the same tables: those of the Full
/// alone, and so those of a store whose manifest lists that bundle alone, once it is held.
pub fn full_bundle_restores_its_tables()
    ensures objects { FullHasItsObjects }
    ensures restored { FullIsRestored }
{
    series_has_its_objects();
}

/// A registry that is rebuilt from a series of its tables has the same tables: those of a store
/// whose manifest lists the bundles of the series as its parts, once each of them has come, in
/// whatever order, however often, and whatever else came. No two different bodies that came may
/// have one SHA-256. The other clauses compute the definitions for a series of two parts, of which
/// the last came first.
pub fn series_restores_its_tables()
    ensures restored { SeriesIsRestored }
    ensures parts { registry_series (codes "F9") (pos 9) (map (λ e. e ∷ []) two_domains)
        ≡ first_part ∷ last_part ∷ [] }
    ensures rows { map (λ r. r.header) listed_parts ≡ first_header ∷ last_header ∷ [] }
    ensures held { deposits_of reads_part (held_body (λ body. body) reads_part last_came_first)
        (0 ∷ 1 ∷ []) ≡ first_part ∷ last_part ∷ [] }
{
    series_has_its_objects();
}

/// On the time axis of a picture each moment has its place, and a later one stands no further left.
pub fn moments_stand_in_order()
    ensures { (first last : ℤ) → IsAxis first last }
{}
