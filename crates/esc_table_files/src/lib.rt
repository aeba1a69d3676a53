//! The tables of a registry as files: CSV, and a database.
//!
//! # In and out
//!
//! Objects come one at a time (`Objects` of `esc_apply`), as a desk's walk gives them, and so little
//! memory is taken. `layouts_of` says which tables a kind has and which columns these have, from one
//! walk. `write_tables` writes them as CSV, side by side, from another. `repeated` finds names that
//! are the same but for case. `digest_of` is the SHA-256 of what a reader gives.
//!
//! `check_layouts` says whether tables can be files. Then `write_table_files` and a [`Database`]
//! write them to a [`NewFolder`], with their sums, and `write_load_script` the statements by which
//! PostgreSQL loads the files.
//!
//! ```text
//! let layouts = layouts_of(alloc, &mut walk(alloc, reader, Kind::Domain)?, Kind::Domain)?;
//! // domain with the columns name, clID; domainNs with domainName, hostName
//! write_table_files(&mut folder, &mut walk(alloc, reader, Kind::Domain)?, &layouts)?;
//! database.add_tables(alloc, &mut walk(alloc, reader, Kind::Domain)?, &layouts)?;
//! ```
//!
//! # What the contracts mean
//!
//! `specs/Layouts.antt` says which tables a kind has (`table_names`: a table of child rows for each
//! name that they have), which columns (`columns_of`: each field that a row has, once, in the order
//! in which they first come) and the text of each (`table_csv`): `layouts_of` and `write_tables` have
//! just these. An absent field is an empty text, as one that is there and empty. `tables_are_read_back` is a law: the text reads as its heading
//! and its rows.
//!
//! Of what touches files it is proved that no call is unsafe and that each ends: no contract can say
//! what a file holds, so that is tested on the built program. So it is with `database`, `folder`,
//! `layout_check`, `load_check`, `load_script` and `table_file`.
#![tactic(auto)]

mod apart;
mod database;
mod folder;
mod gathering;
mod laws;
mod layout;
mod layout_check;
mod layouts;
mod load_check;
mod load_script;
mod sums;
mod table_file;
mod table_name;
mod table_text;
mod table_writer;
mod writing_fault;

pub use apart::repeated;
pub use database::{Database, REGISTRY};
pub use folder::{NewFolder, check_place, path_beside};
pub use laws::tables_are_read_back;
pub use layout::Layout;
pub use layout_check::{LayoutFault, check_database, check_layouts, check_loadable};
pub use layouts::layouts_of;
pub use load_check::is_loadable_file;
pub use load_script::{LOAD_SCRIPT, write_load_script};
pub use sums::digest_of;
pub use table_file::{file_name, write_table_files};
pub use table_name::TableName;
pub use table_writer::{TableWriter, write_tables};
pub use writing_fault::WritingFault;
