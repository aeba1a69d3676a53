//! Statements of a database.

use crate::texts::{push_bytes, push_text};
use sqlite::types::ValueRef;
use sqlite::{Alter, Connection, Row};
use std::fmt::Write;
use std::fs;
use std::test::Fail;

/// Runs the statements in a file.
pub fn run_script<S: Alter + Drop>(
    rt: &HostRuntime,
    connection: &mut Connection<S>,
    path: &str,
) -> Result<(), Fail> {
    let sql = fs::read_to_string(rt, path)?;
    connection.execute_batch(sql.as_str())?;
    Ok(())
}

/// Adds a line for each row that a statement gives.
pub fn push_query<S: Alter + Drop>(
    text: &mut String,
    connection: &mut Connection<S>,
    sql: &str,
) -> Result<(), Fail> {
    for row in &connection.query_all(sql, &[])? {
        push_row(text, row)?;
    }
    Ok(())
}

fn push_row(text: &mut String, row: &Row) -> Result<(), Fail> {
    for at in 0..row.column_count() {
        if at > 0 {
            text.push_str(" ")?;
        }
        push_value(text, row.get_ref(at)?)?;
    }
    text.push_str("\n")?;
    Ok(())
}

fn push_value(text: &mut String, value: ValueRef<'_>) -> Result<(), Fail> {
    match value {
        ValueRef::Null => Ok(text.push_str("none")?),
        ValueRef::Int(number) => Ok(write!(text, "{number}")?),
        ValueRef::Text(bytes) => push_text(text, bytes),
        ValueRef::Blob(bytes) => push_bytes(text, bytes),
        ValueRef::Real(_) => Err(Fail::new("a store has no such value")),
    }
}
