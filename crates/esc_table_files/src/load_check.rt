//! Which tables PostgreSQL can load.

use crate::folder::NewFolder;
use crate::layout::Layout;
use crate::table_file::file_name;
use std::io::{Error, ErrorKind, Read};

/// The longest name of a table or a column; of a longer one PostgreSQL keeps the front alone.
const MOST_BYTES: usize = 63;

/// The most columns of a table.
const MOST_COLUMNS: usize = 1_600;

/// The names of columns that each table has, besides those that are made for it.
const RESERVED: [&str; 7] = ["key", "ctid", "xmin", "xmax", "cmin", "cmax", "tableoid"];

/// Whether PostgreSQL can have a table with these names.
pub(crate) fn has_loadable_names(layout: &Layout) -> bool {
    layout.table.text().len() <= MOST_BYTES
        && layout.columns.len() < MOST_COLUMNS
        && layout
            .columns
            .iter()
            .all(|column| is_loadable_name(column.as_str()))
}

fn is_loadable_name(column: &str) -> bool {
    column.len() <= MOST_BYTES && !RESERVED.iter().any(|name| *name == column)
}

/// Whether psql can load the file of a table in a folder: it has no NUL, and no line that is `\.`
/// alone, at which psql takes a text for ended.
pub fn is_loadable_file(folder: &NewFolder<'_>, layout: &Layout) -> Result<bool, Error> {
    let name = file_name(folder.alloc(), layout)?;
    let mut file = folder.open_file(name.as_str())?;
    is_loadable(&mut file)
}

// What of a line was read.
#[derive(Clone, Copy, PartialEq, Eq)]
enum Line {
    Empty,
    Backslash,
    Period,
    Return,
    Other,
}

// What comes after a byte; `None` where the text can't be loaded.
fn after(line: Line, byte: u8) -> Option<Line> {
    match (line, byte) {
        (_, 0) | (Line::Period | Line::Return, b'\n') => None,
        (_, b'\n') => Some(Line::Empty),
        (Line::Empty, b'\\') => Some(Line::Backslash),
        (Line::Backslash, b'.') => Some(Line::Period),
        (Line::Period, b'\r') => Some(Line::Return),
        _ => Some(Line::Other),
    }
}

fn after_all(line: Line, bytes: &[u8]) -> Option<Line> {
    let mut line = line;
    for byte in bytes {
        line = after(line, *byte)?;
    }
    Some(line)
}

fn is_loadable<R: Read>(reader: &mut R) -> Result<bool, Error> {
    let mut buffer = [0; 8_192];
    let mut line = Line::Empty;
    for _ in 0..u64::MAX {
        let count = reader.read(&mut buffer)?;
        if count == 0 {
            return Ok(true);
        }
        match after_all(line, &buffer[..count]) {
            Some(next) => line = next,
            None => return Ok(false),
        }
    }
    Err(Error::from(ErrorKind::FileTooLarge))
}
