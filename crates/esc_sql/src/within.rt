//! One write of rows, over a connection that is in a transaction.

ghost use Rattle.std.specs.Prelude.{◌≡◌, true, false, IsTrue};
ghost use Rattle.sqlite.specs.Values.{bound};
ghost use Rattle.sqlite.specs.State.{HasCleanDisk, Survives, ExecutesInside};
ghost use Rattle.sqlite.specs.Held.{state};
ghost use Rattle.esc_sql.specs.RowText.{is_write_text};
ghost use Rattle.esc_sql.specs.Part.{RunsInside};

use sqlite::types::ValueRef;
use sqlite::{Alter, Connection, Error, ErrorCode};

/// Runs a write inside the transaction and returns the number of rows that it changed.
/// Outside one it is refused: there it would commit by itself.
pub(crate) fn count_within<S: Alter>(
    conn: &mut Connection<S>,
    sql: &str,
    params: &[ValueRef<'_>],
) -> Result<usize, Error>
    ensures ended { conn.old.in_transaction ≡ false
        → (result ≡ Err (Error.SqliteFailure ErrorCode.TransactionState)) × (conn.new ≡ conn.old) }
    ensures runs { is_write_text sql.now ≡ true → HasCleanDisk (state S.Store conn.new)
        → IsTrue conn.old.in_transaction
        → ExecutesInside 0 sql.now (bound params.now) (state S.Store conn.old)
        (state S.Store conn.new) result }
    ensures survives { is_write_text sql.now ≡ true
        → Survives (state S.Store conn.old) (state S.Store conn.new) (λ _. ⊥) }
{
    if conn.is_autocommit() {
        return Err(Error::SqliteFailure(ErrorCode::TransactionState));
    }
    conn.execute(sql, params)
}

/// As `count_within`, without the number of rows.
pub(crate) fn write_within<S: Alter>(
    conn: &mut Connection<S>,
    sql: &str,
    params: &[ValueRef<'_>],
) -> Result<(), Error>
    ensures ended { conn.old.in_transaction ≡ false
        → (result ≡ Err (Error.SqliteFailure ErrorCode.TransactionState)) × (conn.new ≡ conn.old) }
    ensures runs { is_write_text sql.now ≡ true → HasCleanDisk (state S.Store conn.new)
        → IsTrue conn.old.in_transaction
        → RunsInside sql.now (bound params.now) (state S.Store conn.old)
        (state S.Store conn.new) result }
    ensures survives { is_write_text sql.now ≡ true
        → Survives (state S.Store conn.old) (state S.Store conn.new) (λ _. ⊥) }
{
    if !conn.is_autocommit() {
        conn.execute(sql, params)?;
        return Ok(());
    }
    Err(Error::SqliteFailure(ErrorCode::TransactionState))
}
