//! What is below a desk that is left: for any store.

ghost use Rattle.std.specs.Prelude.{◌≡◌, List, IsTrue};
ghost use Rattle.sqlite_trees.specs.View.{IsClean, IsQuiet};
ghost use Rattle.sqlite.specs.Held.{AreDatabases};
ghost use Rattle.esc_store.specs.Representation.{connection_of as held_by};
ghost use Rattle.esc_desk.specs.Calls.{store_of};
ghost use Rattle.esc_desk.specs.Reflection.{DeskReflects};
ghost use Rattle.esc_events.specs.Events.{EventValue};
ghost use Rattle.esc_recovery.specs.Rest.{RestsFor};

use esc_desk::Desk;
use sqlite::{Alter, Connection};

/// The connection of a desk's store, whose database stays as it is.
pub(crate) fn connection_of<S: Alter>(desk: Desk<S>) -> Connection<S>
    ensures same { result ≡ held_by (store_of desk) }
    ensures rests { (e : List EventValue) → DeskReflects S.Store desk e
        → RestsFor S.Store result e }
{
    desk.into_store().into_connection()
}

/// What a desk's connection is over. A transaction that is open is rolled back.
pub(crate) fn store_below<S: Alter + Drop>(desk: Desk<S>) -> S
    ensures numbered { IsClean (S.Store.view result) → IsTrue (S.Store.view result).is_numbered }
    ensures sound { IsClean (S.Store.view result) → AreDatabases (S.Store.recovers result) }
    ensures quiet { IsQuiet S.Store.view S.Store.faults S.Store.recovers S.Store.is_shielded
        (held_by (store_of desk)).store result }
{
    connection_of(desk).into_store()
}
