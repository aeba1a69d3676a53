//! From an agent's files to a release.
//!
//! # In and out
//!
//! `bundle_of_files` takes a description, which is an envelope (`esc_envelope`), and the bytes of
//! the CSV files that an agent sent for each table that it declares, and gives their bundle
//! (`esc_bundle`): the description as it is, and for each table a section with the rows of its
//! files, one file after the other, without their headings if they have any. It refuses a
//! description that is no envelope, files that aren't as it says, and files whose bundle would be
//! no bundle or no deposit.
//!
//! A [`Release`] takes the bytes of bundles (`esc_bundle`), one after the other, holds the row of
//! each, and gives the text of their release manifest (`esc_manifest`): the heading
//! `id,type,watermark,prevId,resend,sha256`, and a line for each bundle, with what its deposit says
//! of itself and the SHA-256 of its bytes. The lines are in the order of places, and at one place in
//! that of resends, whatever the order of the bundles. An empty prevId is none, an empty resend is 0.
//!
//! ```text
//! let mut release = Release::new(alloc);
//! release.read(alloc, first)?;
//! release.read(alloc, second)?;
//! let text = release.manifest(alloc)?;
//! // id,type,watermark,prevId,resend,sha256
//! // F1,FULL,2024-03-01T00:00:00Z,,,16562601e50f76b8..
//! // D2,DIFF,2024-03-02T00:00:00Z,F1,,fa22787c03f83624..
//! ```
//!
//! It refuses a bundle that is no deposit (U1 to U11), and deposits that no manifest can list
//! (`Unlisted`, M1 to M13 at a row), such as two with one place and resend, or one id in two places.
//!
//! `describe_files` takes the files of a folder, each with its name and its bytes, and proposes a
//! description for `bundle_of_files` where an agent sent none (`Proposal`): a text with each table
//! that is known by the name of a file (`KnownTable`), whose fields are those of the file's first
//! row; and the files that it doesn't name (`Unknown`), each with the reason (`Why`). A field by
//! which the desk finds links, statuses or dates (`KnownField`) gets the desk's name where the row
//! has that of RFC 9022's CSV model, and `bundle_of_files` takes the one for the other. A name begins
//! with the stem of its table, and a dash or a dot that `delete` doesn't follow: so
//! `domain-delete-1.csv` is a file of deletes, and `domain-deletes-1.csv` is unknown. What no file
//! says it leaves to its reader: the id is `ID`, the type `FULL`, the watermark the beginning of
//! 1970. It looks at the first row alone, and at that only of files whose names are known.
//!
//! ```text
//! let contacts = FolderFile { name: "contact-1.csv", bytes: b"id,clID\nC1,R1\n" };
//! let notes = FolderFile { name: "notes.txt", bytes: b"" };
//! let proposal = describe_files(alloc, &[contacts, notes])?;
//! // proposal.text:
//! // {"id":"ID","type":"FULL","watermark":"1970-01-01T00:00:00Z",
//! // "contents":[{"name":"contact","kind":"contact","role":"parent","key":"id",
//! //     "file":"contact.csv","heading":true,"fields":["id","clID"],"from":["contact-1.csv"]}],
//! // "deletes":[]}
//! // proposal.unknown: "notes.txt", Why::Name
//! ```
//!
//! `read_sources` says of a description which files have the rows of each table, and whether they
//! begin with a heading (`Sources`): so a caller knows which bytes `bundle_of_files` is to be given.
//! It gives `None` where the members `from` and `heading` of a table have another form.
//!
//! `forecast_of` takes a manifest and the bytes of a file, and says what the desk would find of it
//! (`Forecast`): which row lists its SHA-256, whether it is a deposit, and whether it is the one that
//! the row says; `differs` says in which values (`Member`) it is another. Of the files so far,
//! `is_held` says whether one is the deposit of a row, so that one more is `again`, and `is_there`
//! whether a row lists one. Where a file is no deposit, `fault_spot` says in which section, row and
//! column, in words:
//!
//! ```text
//! match forecast_of(alloc, &manifest, body)? {
//!     Forecast::Unreadable(row, 9) => ..   // U9, and fault_spot(alloc, body)? is, say,
//!                                          // "section 2 c.csv, row 3, column clID: no UTF-8"
//! }
//! ```
//!
//! `tld_of_body` says which TLD the envelope of a bundle names (`tld`), and `first_against` which
//! earlier bundle names another than the next one: deposits of two registries in one release.
//!
//! # What the contracts mean
//!
//! `specs/GivenRows.antt` says which rows files have, and `specs/Bundling.antt` what their bundle
//! is (`IsBundleOf`): its sections, and that `read_deposit` reads each table as just these rows,
//! and the bundle as the deposit that they make. `specs/BundleRefusals.antt` says why there is none
//! (`IsBundleRefusal`): a refusal applies, at the table, file and row that it names. Which one is
//! told where several apply, and when memory is refused, no clause says.
//!
//! `specs/Release.antt` says which row a bundle adds (`AddsRow`) and in which order rows are,
//! `specs/Written.antt` what their text is, and `specs/Listing.antt` puts them together: a text that
//! is given is the text of those rows, and `read_manifest` reads it as exactly those rows
//! (`IsManifestOf`); a refusal applies to them (`IsManifestRefusal`), or memory was refused, of
//! which the contract says nothing more.
//!
//! `specs/KnownTables.antt` says which tables are known by names, `specs/TableFiles.antt` which
//! files a description names (`sources_of`): `read_sources` gives just these.
//! `specs/KnownFields.antt` says which names fields may have in headings (`names_field`).
//! `specs/Describing.antt` says what a proposal is (`IsProposalOf`): its text is read as an envelope
//! and as files, table by table, just as the tables that are proposed (`draft_of`): each known table
//! of which a file has a heading, with the fields of the first such file, and the names of all files
//! that have just these, in their order. The unknown files are exactly the others, each with its
//! reason.
//!
//! `specs/NamedTlds.antt` says which TLD a body names (`body_tld`), and when two are other ones
//! (`are_other`): the case of ASCII letters doesn't count.
//!
//! `specs/Forecasts.antt` says what is found of a body (`forecast`), by the definitions of the
//! desk's own verdict: `reading` of `esc_tables`, `row_with_digest` and `as_listed` of
//! `esc_manifest`. Of the places that `fault_spot` tells clauses say at which table without a file
//! and at which section it stops, and of a row whether it passes a test (`specs/RowTests.antt`). All
//! else of it is tested against a plain model.
#![tactic(auto)]

mod bundle;
mod bundle_fault;
mod describe;
mod draft;
mod envelope_spot;
mod fault;
mod file_spot;
mod forecast;
mod frame_spot;
mod given;
mod heading;
mod known_field;
mod known_table;
mod member;
mod proposal;
mod release;
mod sources;
mod spot;
mod table_text;
mod text;
mod tld;
mod written;

pub use bundle::bundle_of_files;
pub use bundle_fault::BundleFault;
pub use describe::{describe_files, table_named};
pub use fault::ReleaseFault;
pub use forecast::{Forecast, differs, forecast_of, is_held, is_there};
pub use given::TableFiles;
pub use known_field::KnownField;
pub use known_table::KnownTable;
pub use member::Member;
pub use proposal::{FolderFile, Proposal, Unknown, Why};
pub use release::Release;
pub use sources::{Source, Sources, read_sources};
pub use spot::fault_spot;
pub use tld::{NamedTld, first_against, tld_of_body};
