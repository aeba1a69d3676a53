//! Objects of which it is told how many came.

ghost use Rattle.std.specs.Prelude.{◌≡◌};

use crate::progress::Progress;
use esc_apply::Objects;
use esc_tables::{Key, Object};

/// After how many objects the clock is read.
const STEP: u64 = 1_024;

/// Objects of which it is told how many came.
// The names of both references stay as they were, so contracts can say what they lead to once it is
// dropped.
pub struct Watched<'o, 'p, 'a, O> {
    objects: &'o mut O,
    progress: &'p mut Progress<'a>,
    name: &'p str,
    count: u64,
}

impl<'o, 'p, 'a, O> Watched<'o, 'p, 'a, O> {
    ghost use Rattle.esc_progress.specs.Watching.{watched_in, borrowed_as};

    /// These objects, which are read for a file, a kind or a test of this name. Their reading has
    /// begun ([`Progress::begin`]).
    pub fn new(
        objects: &'o mut O,
        progress: &'p mut Progress<'a>,
        name: &'p str,
    ) -> Watched<'o, 'p, 'a, O>
        ensures same_reference { borrowed_as result ≡ objects.entry.ghost_name }
        ensures same { watched_in result ≡ objects.old }
    {
        Watched {
            objects,
            progress,
            name,
            count: 0,
        }
    }
}

impl<O: Objects> Objects for Watched<'_, '_, '_, O> {
    ghost use Rattle.std.proofs.Common.{refl, ◌∙◌};
    ghost use Rattle.esc_progress.specs.Watching.{WatchedFollows, watched_in};

    type Error = O::Error;

    ghost lists = { λ w es. O.lists (watched_in w) es };

    ghost bound = { λ w. O.bound (watched_in w) };

    ghost has_failed = { λ w. O.has_failed (watched_in w) };

    ghost fails = { λ fault. O.fails fault };

    ghost is_honest = { λ w. O.is_honest (watched_in w) };

    ghost follows = { λ a b. WatchedFollows O.follows a b };

    fn next(&mut self) -> Result<Option<(Key, Object)>, O::Error> {
        self.count = self.count.saturating_add(1);
        if self.count % STEP == 0 {
            self.progress.tell_read(self.name, self.count, "objects");
        }
        self.objects.next()
    }

    ghost in_order = { λ w es h. O.in_order (watched_in w) es h };

    ghost stays = { λ w. record {
      same_reference = refl;
      same = O.stays (watched_in w);
    } };

    ghost goes_on = { λ a b c p q. record {
      same_reference = q.same_reference ∙ p.same_reference;
      same = O.goes_on (watched_in a) (watched_in b) (watched_in c) p.same q.same;
    } };

    ghost was_honest = { λ a b p honest.
        O.was_honest (watched_in a) (watched_in b) p.same honest };
}

impl<O> Drop for Watched<'_, '_, '_, O> {
    ghost use Rattle.esc_progress.specs.Watching.{watched_in};

    fn drop(self)
        ensures { self.exit.0.now ≡ watched_in self.entry }
    {
        let Watched {
            objects: _,
            progress: _,
            name: _,
            count: _,
        } = self;
    }
}
