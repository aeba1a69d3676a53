//! `registry.sqlite`: the tables of a registry as those of a database.

use crate::folder::NewFolder;
use crate::layout::Layout;
use crate::load_script::quoted;
use crate::writing_fault::WritingFault;
use esc_apply::Objects;
use esc_bundle::NoMemory;
use esc_tables::{Key, Object, Row};
use sqlite::types::ValueRef;
use sqlite::{Alter, Connection, Error, File, FileStore, Statement};
use std::alloc::Global;
use std::{fs, io};

/// The name of the database's file.
pub const REGISTRY: &str = "registry.sqlite";

/// How many objects are held, until their rows are added.
const BATCH: usize = 256;

/// How many rows a statement adds, and how many values, at most (but for one row with more).
const MOST_ROWS: usize = 32;

const MOST_VALUES: usize = 960;

/// A database of tables, in a folder, that is being made.
#[derive(Drop)]
pub struct Database {
    connection: Connection<FileStore<File>>,
}

impl Database {
    /// Makes the database of a folder, without tables.
    pub fn create<E>(folder: &NewFolder<'_>) -> Result<Database, WritingFault<E>> {
        let path = folder.path_of(REGISTRY)?;
        let mut connection = Connection::open(folder.rt(), path.as_str())?;
        connection.execute("BEGIN", &[])?;
        Ok(Database { connection })
    }

    /// Adds tables with the rows of these objects.
    pub fn add_tables<O: Objects>(
        &mut self,
        alloc: Global,
        objects: &mut O,
        layouts: &[Layout],
    ) -> Result<(), WritingFault<O::Error>> {
        let fillings = make_tables(alloc, &mut self.connection, layouts)?;
        add_objects(alloc, &mut self.connection, objects, &fillings)?;
        make_indexes(alloc, &mut self.connection, layouts)
    }

    /// Closes the database when it has its tables, and adds its sum. Its log is empty then, and is
    /// removed.
    pub fn finish<E>(self, folder: &mut NewFolder<'_>) -> Result<(), WritingFault<E>> {
        self.close()?;
        remove_log(folder)?;
        folder.add_sum(REGISTRY)?;
        Ok(())
    }

    fn close(self) -> Result<(), Error> {
        let Database { mut connection } = self;
        connection.execute("COMMIT", &[])?;
        connection.close()?;
        Ok(())
    }
}

fn remove_log(folder: &NewFolder<'_>) -> Result<(), io::Error> {
    let path = folder.path_of(REGISTRY)?;
    let log = format!(in folder.alloc(); "{path}-wal")?;
    fs::remove_file(folder.rt(), log.as_str())
}

// The statement that makes a table. The key of parent rows is the table's.
fn table_text(alloc: Global, layout: &Layout) -> Result<String, NoMemory> {
    let table = quoted(alloc, layout.table.text(), "\"")?;
    let mut text = format!(in alloc; "CREATE TABLE {table} (\"key\" TEXT NOT NULL")?;
    if layout.table.child.is_none() {
        text.push_str(" PRIMARY KEY")?;
    }
    for column in &layout.columns {
        let column = quoted(alloc, column.as_str(), "\"")?;
        text.push_str(format!(in alloc; ", {column} TEXT")?.as_str())?;
    }
    text.push_str(")")?;
    Ok(text)
}

// The places of a row's values in a statement, from this number on: `(?1, ?2)`.
fn places_text(alloc: Global, first: usize, width: usize) -> Result<String, NoMemory> {
    let mut text = String::new(alloc);
    for at in 0..width {
        let number = first.saturating_add(at);
        let mark = if at == 0 { "(" } else { ", " };
        text.push_str(format!(in alloc; "{mark}?{number}")?.as_str())?;
    }
    text.push_str(")")?;
    Ok(text)
}

// The statement that adds so many rows to a table.
fn insert_text(
    alloc: Global,
    layout: &Layout,
    width: usize,
    rows: usize,
) -> Result<String, NoMemory> {
    let table = quoted(alloc, layout.table.text(), "\"")?;
    let mut text = format!(in alloc; "INSERT INTO {table} VALUES ")?;
    for row in 0..rows {
        let first = row.saturating_mul(width).saturating_add(1);
        let places = places_text(alloc, first, width)?;
        let mark = if row == 0 { "" } else { ", " };
        text.push_str(format!(in alloc; "{mark}{places}")?.as_str())?;
    }
    Ok(text)
}

// The statement that makes the index over the keys of child rows. No table has a point in its name.
fn index_text(alloc: Global, name: &str) -> Result<String, NoMemory> {
    let index = quoted(alloc, format!(in alloc; "{name}.key")?.as_str(), "\"")?;
    let table = quoted(alloc, name, "\"")?;
    Ok(format!(in alloc; "CREATE INDEX {index} ON {table} (\"key\")")?)
}

// Adds the values of a row. A field that the row doesn't have is NULL.
fn add_values<'a>(
    values: &mut Vec<ValueRef<'a>>,
    columns: &[String],
    key: &'a Key,
    row: &'a Row,
) -> Result<(), NoMemory> {
    values.push(ValueRef::Text(key.text.as_bytes()))?;
    for column in columns {
        let value = match row.text(column.as_str()) {
            Some(text) => ValueRef::Text(text.as_bytes()),
            None => ValueRef::Null,
        };
        values.push(value)?;
    }
    Ok(())
}

// Adds the values of the child rows of this name.
fn add_child_values<'a>(
    values: &mut Vec<ValueRef<'a>>,
    columns: &[String],
    name: &str,
    key: &'a Key,
    rows: &'a [Row],
) -> Result<(), NoMemory> {
    for row in rows {
        if row.table() == name {
            add_values(values, columns, key, row)?;
        }
    }
    Ok(())
}

// Adds the values of an object's rows in a table.
fn add_object_values<'a>(
    values: &mut Vec<ValueRef<'a>>,
    layout: &Layout,
    key: &'a Key,
    object: &'a Object,
) -> Result<(), NoMemory> {
    if key.kind != layout.table.kind {
        return Ok(());
    }
    match &layout.table.child {
        None => add_values(values, &layout.columns, key, &object.parent),
        Some(name) => {
            let rows = &object.children;
            add_child_values(values, &layout.columns, name.as_str(), key, rows)
        }
    }
}

// The values of these objects' rows in a table, one row after the other.
fn values_in<'a>(
    alloc: Global,
    layout: &Layout,
    batch: &'a [(Key, Object)],
) -> Result<Vec<ValueRef<'a>>, NoMemory> {
    let mut values = Vec::new(alloc);
    for (key, object) in batch {
        add_object_values(&mut values, layout, key, object)?;
    }
    Ok(values)
}

// A table that is being filled.
#[derive(Drop)]
struct Filling<'a> {
    layout: &'a Layout,
    // How many values a row has, and the statement that adds one.
    width: usize,
    one: Statement,
    // How many values several rows have, and the statement that adds them.
    most: usize,
    several: Statement,
}

impl<'a> Filling<'a> {
    // Makes a table.
    fn new<S: Alter, E>(
        alloc: Global,
        connection: &mut Connection<S>,
        layout: &'a Layout,
    ) -> Result<Filling<'a>, WritingFault<E>> {
        let width = layout.columns.len().saturating_add(1);
        let rows = MOST_VALUES
            .checked_div(width)
            .unwrap_or(1)
            .min(MOST_ROWS)
            .max(1);
        let create = table_text(alloc, layout)?;
        connection.execute(create.as_str(), &[])?;
        let one = insert_text(alloc, layout, width, 1)?;
        let several = insert_text(alloc, layout, width, rows)?;
        Ok(Filling {
            layout,
            width,
            one: connection.prepare(one.as_str())?,
            most: rows.saturating_mul(width),
            several: connection.prepare(several.as_str())?,
        })
    }

    // Adds rows that have these values.
    fn add<S: Alter>(
        &self,
        connection: &mut Connection<S>,
        values: &[ValueRef<'_>],
    ) -> Result<(), Error> {
        let size = self.most.max(1);
        for rows in values.chunks(size) {
            if rows.len() == self.most {
                self.several.execute(connection, rows)?;
            } else {
                self.add_each(connection, rows)?;
            }
        }
        Ok(())
    }

    fn add_each<S: Alter>(
        &self,
        connection: &mut Connection<S>,
        values: &[ValueRef<'_>],
    ) -> Result<(), Error> {
        let size = self.width.max(1);
        for row in values.chunks(size) {
            self.one.execute(connection, row)?;
        }
        Ok(())
    }
}

fn make_tables<'a, S: Alter, E>(
    alloc: Global,
    connection: &mut Connection<S>,
    layouts: &'a [Layout],
) -> Result<Vec<Filling<'a>>, WritingFault<E>> {
    let mut fillings = Vec::new(alloc);
    for layout in layouts {
        fillings.push(Filling::new(alloc, connection, layout)?)?;
    }
    Ok(fillings)
}

// Adds the rows of these objects to the tables that have them.
fn add_batch<S: Alter, E>(
    alloc: Global,
    connection: &mut Connection<S>,
    batch: &[(Key, Object)],
    fillings: &[Filling<'_>],
) -> Result<(), WritingFault<E>> {
    for filling in fillings {
        let values = values_in(alloc, filling.layout, batch)?;
        filling.add(connection, &values)?;
    }
    Ok(())
}

fn add_objects<S: Alter, O: Objects>(
    alloc: Global,
    connection: &mut Connection<S>,
    objects: &mut O,
    fillings: &[Filling<'_>],
) -> Result<(), WritingFault<O::Error>> {
    let mut batch = Vec::new(alloc);
    while let Some(entry) = objects.next().map_err(WritingFault::Source)? {
        batch.push(entry)?;
        if batch.len() >= BATCH {
            add_batch(alloc, connection, &batch, fillings)?;
            batch.clear();
        }
    }
    add_batch(alloc, connection, &batch, fillings)
}

fn make_indexes<S: Alter, E>(
    alloc: Global,
    connection: &mut Connection<S>,
    layouts: &[Layout],
) -> Result<(), WritingFault<E>> {
    for layout in layouts {
        if let Some(name) = &layout.table.child {
            let index = index_text(alloc, name.as_str())?;
            connection.execute(index.as_str(), &[])?;
        }
    }
    Ok(())
}
