//! `load.sql`: the statements with which PostgreSQL loads the tables of a folder.

use crate::folder::NewFolder;
use crate::layout::Layout;
use crate::table_file::file_name;
use esc_bundle::NoMemory;
use esc_envelope::Kind;
use std::alloc::Global;
use std::io::Error;

/// The name of its file.
pub const LOAD_SCRIPT: &str = "load.sql";

/// How it begins. PostgreSQL itself finds the types of columns, and which links are clean: it has
/// the rows.
const HEAD: &str = "\
-- The tables of a registry, for PostgreSQL 12 or later. In this folder:
--     psql -X -f load.sql DATABASE
-- All tables are there then, or none. An empty text of a CSV file is NULL.
\\set ON_ERROR_STOP on
\\set QUIET on
SET client_min_messages = warning;
BEGIN;

-- A column is of moments or of integers where each row has one, and else of texts.
CREATE PROCEDURE pg_temp.settle(t regclass, c name) LANGUAGE plpgsql AS $$
DECLARE
  moments boolean;
  integers boolean;
BEGIN
  EXECUTE format('SELECT bool_and(%1$I IS NOT NULL AND %1$I ~ %2$L), '
      'bool_and(%1$I IS NOT NULL AND %1$I ~ %3$L) FROM %4$s', c,
      '^\\d{4}-\\d\\d-\\d\\dT\\d\\d:\\d\\d:\\d\\d(\\.\\d{1,6})?(Z|[+-]\\d\\d:\\d\\d)$',
      '^(0|-?[1-9]\\d{0,17})$', t) INTO moments, integers;
  IF moments THEN
    EXECUTE format('ALTER TABLE %s ALTER %I TYPE timestamptz USING %2$I::timestamptz', t, c);
  ELSIF integers THEN
    EXECUTE format('ALTER TABLE %s ALTER %I TYPE bigint USING %2$I::bigint', t, c);
  ELSE
    EXECUTE format('COMMENT ON COLUMN %s.%I IS %L', t, c, 'Text as the deposits have it.');
  END IF;
EXCEPTION WHEN data_exception THEN
  EXECUTE format('COMMENT ON COLUMN %s.%I IS %L', t, c,
      'Text as the deposits have it: not each is a moment.');
END $$;

-- A column that names objects has a foreign key where they are all there.
CREATE PROCEDURE pg_temp.refer(t regclass, c name, target regclass) LANGUAGE plpgsql AS $$
BEGIN
  EXECUTE format('CREATE INDEX ON %s (%I)', t, c);
  EXECUTE format('ALTER TABLE %s ADD FOREIGN KEY (%I) REFERENCES %s', t, c, target);
  EXECUTE format('COMMENT ON COLUMN %s.%I IS %L', t, c, 'The key of a row of ' || target || '.');
EXCEPTION WHEN foreign_key_violation THEN
  EXECUTE format('CREATE INDEX ON %s (%I)', t, c);
  EXECUTE format('COMMENT ON COLUMN %s.%I IS %L', t, c, 'Names a row of ' || target
      || '. Not each is a key there, so there is no foreign key.');
END $$;

";

/// Writes it to a folder that has the files of these tables, and adds its sum.
pub fn write_load_script(folder: &mut NewFolder<'_>, layouts: &[&Layout]) -> Result<(), Error> {
    let Ok(script) = load_script(folder.alloc(), layouts) else {
        return Err(Error::from(std::io::ErrorKind::OutOfMemory));
    };
    folder.write_file(LOAD_SCRIPT, script.as_bytes())?;
    folder.add_sum(LOAD_SCRIPT)
}

fn load_script(alloc: Global, layouts: &[&Layout]) -> Result<String, NoMemory> {
    let mut script = String::from_str(alloc, HEAD)?;
    for layout in layouts {
        add_table(alloc, &mut script, layout)?;
    }
    for layout in layouts {
        add_columns(alloc, &mut script, layout)?;
    }
    script.push_str("\nCOMMIT;\n")?;
    Ok(script)
}

/// A name between these marks, which stand twice within.
pub(crate) fn quoted(alloc: Global, name: &str, mark: &str) -> Result<String, NoMemory> {
    let twice = format!(in alloc; "{mark}{mark}")?;
    let doubled = name.replace(alloc, mark, twice.as_str())?;
    Ok(format!(in alloc; "{mark}{doubled}{mark}")?)
}

// The table, its rows, and what follows of its key. The parent rows of a kind come before its child
// rows.
fn add_table(alloc: Global, script: &mut String, layout: &Layout) -> Result<(), NoMemory> {
    let table = quoted(alloc, layout.table.text(), "\"")?;
    add_create(alloc, script, table.as_str(), layout)?;
    let file = quoted(alloc, file_name(alloc, layout)?.as_str(), "'")?;
    let copy = format!(in alloc;
        "\\copy {table} FROM {file} WITH (FORMAT csv, HEADER, ENCODING 'UTF8')\n"
    )?;
    script.push_str(copy.as_str())?;
    let kind = layout.table.kind.name();
    let more = match &layout.table.child {
        None => format!(in alloc; "COMMENT ON TABLE {table} IS 'The {kind} objects.';\n")?,
        Some(_) => format!(in alloc;
            "\
ALTER TABLE {table} ADD FOREIGN KEY (\"key\") REFERENCES \"{kind}\";
CREATE INDEX ON {table} (\"key\");
COMMENT ON TABLE {table} IS 'Child rows of {kind} objects.';
"
        )?,
    };
    Ok(script.push_str(more.as_str())?)
}

fn add_create(
    alloc: Global,
    script: &mut String,
    table: &str,
    layout: &Layout,
) -> Result<(), NoMemory> {
    let role = if layout.table.child.is_none() {
        "PRIMARY KEY"
    } else {
        "NOT NULL"
    };
    script.push_str(format!(in alloc; "CREATE TABLE {table} (\"key\" text {role}")?.as_str())?;
    for column in &layout.columns {
        let column = quoted(alloc, column.as_str(), "\"")?;
        script.push_str(format!(in alloc; ", {column} text")?.as_str())?;
    }
    Ok(script.push_str(");\n")?)
}

// The kind of the objects that a column names, if it links.
fn target_of(layout: &Layout, column: &str) -> Option<Kind> {
    let kind = layout.table.kind;
    match (
        kind,
        layout.table.child.as_ref().map(|name| name.as_str()),
        column,
    ) {
        (Kind::Contact | Kind::Host | Kind::Domain, None, "clID") => Some(Kind::Registrar),
        (Kind::Domain, None, "registrant") => Some(Kind::Contact),
        (Kind::Domain | Kind::Nndn, None, "idnTableId") => Some(Kind::Idn),
        (Kind::Domain, Some("domainContacts"), "contactId") => Some(Kind::Contact),
        (Kind::Domain, Some("domainNs"), "hostName") => Some(Kind::Host),
        _ => None,
    }
}

// What the columns are: links, or texts, moments and integers.
fn add_columns(alloc: Global, script: &mut String, layout: &Layout) -> Result<(), NoMemory> {
    let table = quoted(
        alloc,
        quoted(alloc, layout.table.text(), "\"")?.as_str(),
        "'",
    )?;
    for column in &layout.columns {
        let name = quoted(alloc, column.as_str(), "'")?;
        let call = match target_of(layout, column.as_str()) {
            Some(kind) => {
                let target = kind.name();
                format!(in alloc; "CALL pg_temp.refer({table}, {name}, '{target}');\n")?
            }
            None => format!(in alloc; "CALL pg_temp.settle({table}, {name});\n")?,
        };
        script.push_str(call.as_str())?;
    }
    Ok(())
}
