//! The objects of a map in memory.

ghost use Rattle.std.specs.Prelude.{◌≡◌};
ghost use Rattle.esc_apply.specs.ObjectStreams.{InOrder};

use crate::objects::Objects;
use esc_bundle::NoMemory;
use esc_tables::{Key, Object};
use std::collections::BTreeMap;
use std::collections::btree_map::IntoIter;
use std::marker::Model;

/// The objects of a map in memory, seen as the list of those that are still to come.
#[derive(Drop)]
pub struct MapObjects {
    rest: IntoIter<Key, Object>,
}

impl Model for MapObjects {
    ghost use Rattle.std.specs.Prelude.{List};
    ghost use Rattle.esc_apply.specs.ObjectStreams.{Entry};

    ghost Value = { List Entry };

    ghost view = { λ o. o.rest };
}

impl MapObjects {
    /// The objects of this map. Doesn't allocate.
    pub fn new(objects: BTreeMap<Key, Object>) -> MapObjects
        ensures all { result ≡ objects.entries }
        ensures in_order { InOrder result }
    {
        MapObjects {
            rest: objects.into_iter(),
        }
    }
}

impl Objects for MapObjects {
    ghost use Rattle.std.specs.Prelude.{length};

    type Error = NoMemory;

    ghost lists = { λ o es. (o ≡ es) × InOrder es };

    ghost bound = { λ o. length o };

    ghost has_failed = { λ o. ⊥ };

    ghost fails = { λ _. ⊥ };

    ghost is_honest = { λ o. Unit {0} };

    ghost follows = { λ a b. Unit {0} };

    ghost in_order = { λ o es l. l.1 };

    ghost stays = { λ o. tt };

    ghost goes_on = { λ a b c p q. tt };

    ghost was_honest = { λ a b p h. tt };

    fn next(&mut self) -> Result<Option<(Key, Object)>, NoMemory> {
        Ok(self.rest.next())
    }
}
