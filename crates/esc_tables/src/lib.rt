//! From the bytes of a bundle to the deposit that it is.
//!
//! A bundle (`esc_bundle`) is an envelope and files. The envelope (`esc_envelope`) declares tables,
//! each with a kind of objects, its fields, one of them the key, and the file that has its rows as
//! CSV. This crate makes the objects of a registry from them.
//!
//! # In and out
//!
//! `read_deposit` takes the bytes of a body and returns
//!
//! - the `Deposit`: header and counts of the envelope; the keys of the delete rows, in the order of
//!   declarations and rows; a map from keys to objects; and the number of orphans, the child rows
//!   that have no parent row. An object is the last parent row of its key with all child rows of
//!   that kind and key, by table name in byte order and then as in the file;
//! - or the least refusal of the whole bundle: U1 to U4 of its frame, U5 to U7 of its envelope, and
//!   U8 to U11 of its tables:
//!   - U8: a declared file is no section after the envelope, or such a section is not declared
//!     exactly once;
//!   - U9: a row has another number of fields than declared, or a field that is no UTF-8;
//!   - U10: a key is empty or longer than 255 bytes;
//!   - U11: there are more than 100,000 rows;
//! - or `NoMemory`, out of memory.
//!
//! `read_bundled_envelope` takes the same bytes and returns the envelope alone, or the least of U1
//! to U7.
//!
//! ```text
//! let deposit = read_deposit(alloc, body)?;
//! for (key, object) in &deposit.contents {
//!     // object.parent.cell(0) is the first field's name and its text
//! }
//! ```
//!
//! Keys of hosts and domains are the field's text with ASCII letters lowered (names of the DNS have
//! no case), all others as they are. Cells keep the text of the file. CSV is as `esc_csv` reads it,
//! without a heading row: empty lines are no rows, and a byte order mark at the start of a file is
//! dropped.
//!
//! # What the contracts mean
//!
//! `read_deposit` returns exactly what the definition `reading` of `specs/Reading.antt` gives. The
//! definition selects from lists of rows; the code builds a map. `read_bundled_envelope` returns
//! exactly what `bundled_envelope` gives; of a deposit, its header and counts. A `Row` has as many
//! texts as its heading has fields: no call makes another. `Row::from_cells` makes exactly the row
//! of the cells, whatever headings its [`Headings`] have.
//!
//! The laws: `reading_is_exact` says that `reading` is what the relations of `specs/DepositOf.antt`
//! say: which body is which deposit, and which refusal is the least. `read_deposits_are_small` says
//! that a deposit has no more deletes and objects than a bundle may have rows, and
//! `read_objects_are_small` how large each object can be. `tables_are_in_order` says that child
//! tables are put in the order of their names. `specs/KeyLaws.antt` has the laws of keys: their
//! order is total, and keys that compare equal are equal.
//!
//! # Cost
//!
//! One pass over the text: each row is tested, and its texts are copied once, in one piece; the
//! table's name and its fields' names are kept once for all its rows. After a wrong key or too many
//! rows the later rows are only tested, so no more rows are kept than a bundle may have. Objects
//! are found by a map, so the time is n log n in the number of rows. Nothing passes over all rows
//! for one object or one table. For the envelope alone no row is looked at: the frame is passed
//! over from section to section.
#![tactic(auto)]

mod deposit;
mod files;
mod gather;
mod headings;
mod key;
mod laws;
mod object;
mod order;
mod reading;
mod row;
mod survey;
mod tables;

pub use deposit::Deposit;
pub use headings::Headings;
pub use key::Key;
pub use laws::{
    read_deposits_are_small, read_objects_are_small, reading_is_exact, tables_are_in_order,
};
pub use object::{Object, Row};
pub use reading::{read_bundled_envelope, read_deposit};
pub use row::LONGEST_KEY;
pub use survey::MOST_ROWS;
