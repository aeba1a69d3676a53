//! The schema of a store as data. A new table is a row of `TABLES`, and a row of `INDEXES` for each
//! UNIQUE key.

use crate::shape::{ColumnShape, IndexShape, ReferenceShape, TableShape};
use sqlite_schema::schema::Kind;

/// The nine tables, in the order in which they are made. Version 1 has the first seven.
pub(crate) static TABLES: [TableShape; 9] = [
    TableShape {
        name: b"info",
        tree: 0,
        columns: &[
            ColumnShape::Optional(b"id", Kind::Integer),
            ColumnShape::Required(b"version", Kind::Integer),
        ],
        rowid: Some(0),
        primary: &[0],
        uniques: &[],
        reference: None,
        is_single: true,
    },
    TableShape {
        name: b"listed",
        tree: 1,
        columns: &[
            ColumnShape::Optional(b"row", Kind::Integer),
            ColumnShape::Required(b"id", Kind::Text),
            ColumnShape::Required(b"type", Kind::Integer),
            ColumnShape::Required(b"watermark", Kind::Integer),
            ColumnShape::Optional(b"prev", Kind::Text),
            ColumnShape::Required(b"resend", Kind::Integer),
            ColumnShape::Required(b"digest", Kind::Any),
        ],
        rowid: Some(0),
        primary: &[0],
        uniques: &[&[7], &[4, 3, 6]],
        reference: None,
        is_single: false,
    },
    TableShape {
        name: b"receipt",
        tree: 4,
        columns: &[
            ColumnShape::Optional(b"receipt", Kind::Integer),
            ColumnShape::Required(b"number", Kind::Text),
            ColumnShape::Required(b"digest", Kind::Any),
            ColumnShape::Required(b"verdict", Kind::Integer),
            ColumnShape::Optional(b"fault", Kind::Integer),
            ColumnShape::Optional(b"row", Kind::Integer),
            ColumnShape::Optional(b"again", Kind::Integer),
            ColumnShape::Optional(b"orphans", Kind::Integer),
        ],
        rowid: Some(0),
        primary: &[0],
        uniques: &[&[2, 3]],
        reference: Some(ReferenceShape {
            place: 6,
            parent: b"listed",
        }),
        is_single: false,
    },
    TableShape {
        name: b"held",
        tree: 6,
        columns: &[
            ColumnShape::Optional(b"row", Kind::Integer),
            ColumnShape::Required(b"body", Kind::Any),
        ],
        rowid: Some(0),
        primary: &[0],
        uniques: &[],
        reference: Some(ReferenceShape {
            place: 0,
            parent: b"listed",
        }),
        is_single: false,
    },
    TableShape {
        name: b"step",
        tree: 7,
        columns: &[
            ColumnShape::Optional(b"pos", Kind::Integer),
            ColumnShape::Required(b"row", Kind::Integer),
        ],
        rowid: Some(0),
        primary: &[0],
        uniques: &[&[2]],
        reference: Some(ReferenceShape {
            place: 2,
            parent: b"held",
        }),
        is_single: false,
    },
    TableShape {
        name: b"object",
        tree: 9,
        columns: &[
            ColumnShape::Required(b"kind", Kind::Integer),
            ColumnShape::Required(b"key", Kind::Any),
            ColumnShape::Required(b"record", Kind::Any),
        ],
        rowid: None,
        primary: &[1, 2],
        uniques: &[&[1, 2]],
        reference: None,
        is_single: false,
    },
    TableShape {
        name: b"undo",
        tree: 11,
        columns: &[
            ColumnShape::Required(b"pos", Kind::Integer),
            ColumnShape::Required(b"kind", Kind::Integer),
            ColumnShape::Required(b"key", Kind::Any),
            ColumnShape::Optional(b"record", Kind::Any),
        ],
        rowid: None,
        primary: &[1, 2, 3],
        uniques: &[&[1, 2, 3]],
        reference: None,
        is_single: false,
    },
    TableShape {
        name: b"parked",
        tree: 13,
        columns: &[
            ColumnShape::Optional(b"digest", Kind::Any),
            ColumnShape::Required(b"body", Kind::Any),
        ],
        rowid: None,
        primary: &[1],
        uniques: &[&[1]],
        reference: None,
        is_single: false,
    },
    TableShape {
        name: b"moment",
        tree: 15,
        columns: &[
            ColumnShape::Optional(b"id", Kind::Integer),
            ColumnShape::Required(b"watermark", Kind::Integer),
        ],
        rowid: Some(0),
        primary: &[0],
        uniques: &[],
        reference: None,
        is_single: true,
    },
];

/// The indexes of their UNIQUE keys. Version 1 has the first six.
pub(crate) static INDEXES: [IndexShape; 7] = [
    IndexShape {
        name: b"sqlite_autoindex_listed_1",
        tree: 2,
        table: 1,
        columns: &[7],
    },
    IndexShape {
        name: b"sqlite_autoindex_listed_2",
        tree: 3,
        table: 1,
        columns: &[4, 3, 6],
    },
    IndexShape {
        name: b"sqlite_autoindex_receipt_1",
        tree: 5,
        table: 4,
        columns: &[2, 3],
    },
    IndexShape {
        name: b"sqlite_autoindex_step_1",
        tree: 8,
        table: 7,
        columns: &[2],
    },
    IndexShape {
        name: b"sqlite_autoindex_object_1",
        tree: 10,
        table: 9,
        columns: &[1, 2],
    },
    IndexShape {
        name: b"sqlite_autoindex_undo_1",
        tree: 12,
        table: 11,
        columns: &[1, 2, 3],
    },
    IndexShape {
        name: b"sqlite_autoindex_parked_1",
        tree: 14,
        table: 13,
        columns: &[1],
    },
];
