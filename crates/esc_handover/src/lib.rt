//! A rebuilt registry, handed over.
//!
//! # In and out
//!
//! `page_of` makes a page of HTML (`esc_html`) of what was seen (`esc_acceptance`), with the
//! receipts and the parked bodies: the lines, the release as a picture and as a table, the objects
//! beside the declared numbers, the findings.
//!
//! What `handover` does without its store is here, too. `read_survey` and `read_flaws` find
//! something in objects as they come. `bundle_or_stop` gives the bundle of
//! `esc_deposit`, and `place_file` writes a file in one step. A [`TableFolder`] is where the files of
//! `esc_table_files` are written, and a [`SeriesFolder`] where the bundles of a series of
//! `esc_deposit` are, with their manifest. A [`Stop`] says what all of this stops for, in a line and a status.
//!
//! ```text
//! let page = page_of(alloc, &seen, &receipts, &parked)?;         // HTML, for a browser
//! ```
//!
//! # What the contracts mean
//!
//! `series_restores_its_tables` is a law: the tables of a store whose manifest lists the bundles of
//! a series as its parts (`esc_deposit`) are the objects of that series, once each of them has
//! come, in whatever order and whatever else came (`specs/Restored.antt`, over the definitions of
//! `esc_events`). No two different bodies that came may have one SHA-256. So it is with the bundle
//! of a Full that is listed alone: `full_bundle_restores_its_tables`, where nothing else came, and
//! there is no such premise.
//!
//! `page_of` gives a page whose body is markup of a fixed list of elements around escaped texts
//! (`IsHtmlPage` of `esc_html`): it loads nothing and runs nothing. Its title begins with whether
//! the registry may be taken over (`specs/Titles.antt`). It has the name of each kind next to how
//! many objects there are and how many are declared, and the heading of each rule that is broken,
//! with the number of its findings (`specs/PageParts.antt`). `specs/Picture.antt` says where a
//! moment stands on the time axis, that a later one stands no further left
//! (`moments_stand_in_order`), and that each place is in one group of marks or rows (`groups_of`).
//! What else a page shows has no contract, and is tested.
//!
//! Of what touches files, a store or standard error it is proved that no call is unsafe and that
//! each ends: no contract can say what a file holds or what is printed, so that is tested on the
//! built program. So it is with `files`, `registry_bundle`, `series_folder`, `stop` and
//! `table_folder`, with `read_layouts`, and with what is below `page` but for `axis`, `findings`,
//! `group`, `objects`, `part` and `share`. The other calls that read are exact: what is told on the
//! way changes nothing.
#![tactic(auto)]

mod answer;
mod files;
mod laws;
mod page;
mod reading;
mod registry_bundle;
mod series_folder;
mod stop;
mod table_folder;

pub use answer::Answer;
pub use files::place_file;
pub use laws::{
    full_bundle_restores_its_tables, moments_stand_in_order, series_restores_its_tables,
};
pub use page::page_of;
pub use reading::{read_flaws, read_layouts, read_survey};
pub use registry_bundle::{bundle_or_stop, check_object_count, read_lengths, series_of};
pub use series_folder::SeriesFolder;
pub use stop::{REFUSED, Stop, or_stop, tell_stop};
pub use table_folder::{TableFolder, check_folder};
