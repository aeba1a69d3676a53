//! Whether a connection's database is a store, is still unused, or is something else.

ghost use Rattle.std.specs.Prelude.{◌≡◌, ◌↔◌, IsTrue};
ghost use Rattle.sqlite.specs.Held.{state};
ghost use Rattle.esc_sql.specs.Content.{Content, AreStoreTrees, HoldsContent};
ghost use Rattle.esc_sql.specs.FirstVersion.{AreFirstTrees, HoldsFirstContent};
ghost use Rattle.esc_sql.specs.Schema.{no_schema, store_schema, first_schema};

use crate::shape::{is_first_schema, is_store_schema};
use sqlite::{Alter, Connection};

/// Whether a database has no table, index or view, so that a store can be made in it.
pub fn is_unused<S: Alter>(conn: &Connection<S>) -> bool
    ensures { IsTrue result ↔ ((state S.Store conn.now).now.schema ≡ no_schema) }
{
    let schema = conn.schema();
    schema.tables.as_slice().is_empty()
        && schema.indexes.as_slice().is_empty()
        && schema.views.as_slice().is_empty()
}

/// Whether a database has the tables of a store of version 2. If its trees are those of a store, it
/// does: their list of tables gives no other schema.
pub fn has_tables<S: Alter>(conn: &Connection<S>) -> bool
    ensures tables { IsTrue result ↔ ((state S.Store conn.now).now.schema ≡ store_schema) }
    ensures found { IsTrue (state S.Store conn.now).is_open → (c : Content)
        → AreStoreTrees (state S.Store conn.now).now.trees c → IsTrue result
        × HoldsContent (state S.Store conn.now).now c }
{
    is_store_schema(conn.schema())
}

/// Whether a database has the tables of a store of version 1. If its trees are those of such a
/// store, it does.
pub fn has_first_tables<S: Alter>(conn: &Connection<S>) -> bool
    ensures tables { IsTrue result ↔ ((state S.Store conn.now).now.schema ≡ first_schema) }
    ensures found { IsTrue (state S.Store conn.now).is_open → (c : Content)
        → AreFirstTrees (state S.Store conn.now).now.trees c → IsTrue result
        × HoldsFirstContent (state S.Store conn.now).now c }
{
    is_first_schema(conn.schema())
}
