//! Which tables can be files, and tables of a database.

ghost use Rattle.std.specs.Prelude.{◌≡◌, ◌∷◌, map, codes, string_bytes, IfOk};
ghost use Rattle.esc_table_files.specs.Layouts.{is_own_name, is_for_database};

use crate::apart::repeated;
use crate::layout::Layout;
use crate::load_check::has_loadable_names;
use esc_bundle::NoMemory;
use std::alloc::{AllocError, AllocFailed, Global};

/// What the names of SQLite's own tables begin with.
const RESERVED: &[u8] = b"sqlite_";

/// The most columns of a table in a database.
const MOST_COLUMNS: usize = 2_000;

/// Why tables can't be files, or tables of a database.
#[derive(Debug, Drop)]
pub enum LayoutFault {
    /// Two tables are called alike but for case, and so would have one file.
    Alike(String),
    /// This table can't be one of a database.
    Undatabased(String),
    /// PostgreSQL can't have this table.
    Unloadable(String),
    /// Out of memory.
    NoMemory,
}

impl From<NoMemory> for LayoutFault {
    fn from(_refused: NoMemory) -> LayoutFault {
        LayoutFault::NoMemory
    }
}

impl From<AllocError> for LayoutFault {
    fn from(_refused: AllocError) -> LayoutFault {
        LayoutFault::NoMemory
    }
}

impl<T: Drop> From<AllocFailed<T>> for LayoutFault {
    fn from(_refused: AllocFailed<T>) -> LayoutFault {
        LayoutFault::NoMemory
    }
}

/// The fault where two tables would have one file.
pub fn check_layouts(alloc: Global, layouts: &[&Layout]) -> Result<(), LayoutFault> {
    let mut names = Vec::new(alloc);
    for layout in layouts {
        names.push(layout.table.text())?;
    }
    if let Some(name) = repeated(&names) {
        return Err(LayoutFault::Alike(String::from_str(alloc, name)?));
    }
    Ok(())
}

/// The fault where PostgreSQL can't have a table.
pub fn check_loadable(alloc: Global, layouts: &[&Layout]) -> Result<(), LayoutFault> {
    for layout in layouts {
        if !has_loadable_names(layout) {
            let name = String::from_str(alloc, layout.table.text())?;
            return Err(LayoutFault::Unloadable(name));
        }
    }
    Ok(())
}

/// The fault where a table can't be in an SQLite database.
pub fn check_database(alloc: Global, layouts: &[&Layout]) -> Result<(), LayoutFault> {
    for layout in layouts {
        if !is_for_database(alloc, layout)? {
            let name = String::from_str(alloc, layout.table.text())?;
            return Err(LayoutFault::Undatabased(name));
        }
    }
    Ok(())
}

// Whether a table can be in a database: its name is not one of SQLite's own, and it has not too
// many columns, nor two of one name but for case.
fn is_for_database(alloc: Global, layout: &Layout) -> Result<bool, NoMemory>
    ensures { IfOk result (λ b. b ≡ is_for_database layout.now) }
{
    let names = column_names(alloc, &layout.columns)?;
    Ok(
        !is_reserved(layout.table.text())
            && names.len() <= MOST_COLUMNS
            && repeated(&names).is_none(),
    )
}

// The names of a table's columns, that of the key first.
fn column_names<'a>(alloc: Global, columns: &'a [String]) -> Result<Vec<&'a str>, NoMemory>
    ensures { IfOk result (λ names. map (λ n. n.now) names.items
        ≡ codes "key" ∷ map string_bytes columns.now) }
{
    let mut names = Vec::new(alloc);
    names.push("key")?;
    for column in columns {
        names.push(column.as_str())?;
    }
    Ok(names)
}

fn is_reserved(name: &str) -> bool
    ensures { result ≡ is_own_name name.now }
{
    name.as_bytes()
        .get(..RESERVED.len())
        .is_some_and(|front| front.eq_ignore_ascii_case(RESERVED))
}
