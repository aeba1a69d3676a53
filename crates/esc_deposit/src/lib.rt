//! The tables of a registry as a deposit.
//!
//! # In and out
//!
//! `bundle_of` takes the objects of a registry by key, as `esc_desk` returns them, with an id and a
//! watermark, and gives the bundle (`esc_bundle`) of a Full: `read_deposit` (`esc_tables`) reads it
//! as exactly these objects, without deletes and orphans, and with the number of objects of each
//! kind. Or it gives a [`BundleRefusal`]. A deposit declares the fields of a table once, so rows of
//! one table with different fields have no bundle.
//!
//! A registry that is larger than a bundle is a *series* (`esc_series`): the first part is a Full,
//! each other one a Differential on the one before. `cut_objects` says how many objects each part
//! has. `write_series` takes the objects one at a time, makes the bundle of each part, and hands it
//! to [`Bundles`]; it holds the objects of one part. The last part has the id and the watermark of
//! the deposit, and the number of objects of each kind. Those before it have ids and watermarks
//! derived from these, and no numbers.
//!
//! ```text
//! let body = bundle_of(alloc, "F20", end.watermark, &objects)?;   // the next deposit
//!
//! let lengths = cut_objects(alloc, &mut walk)?;
//! let series = Series { id: "F20", watermark: end.watermark, length: 12 };
//! write_series(alloc, series, &lengths, &mut walk, &mut folder)?; // F20.1of12, F20.2of12, .. F20
//! ```
//!
//! # What the contracts mean
//!
//! `specs/FullBundle.antt` says which deposit a bundle is (`full_of`), and
//! `specs/RegistrySeries.antt` which ones the parts of a series are (`registry_series`): the bodies
//! that `write_series` handed on are read as the parts of all objects that came, in runs one after
//! another (`AreSeriesOf`). `series_has_its_objects` is a law: such parts are a series of the Full
//! of these objects (`IsSeriesOf` of `esc_series`), whose tables they have. In one run they are that
//! Full.
//!
//! `specs/Cuts.antt` says where `cut_objects` cuts (`AreCutInto`): each run has as many of the
//! objects as one bundle takes, by its limits of rows and of bytes, or one that alone may be too
//! large. The bytes are counted before a bundle is made, and are an upper bound.
//!
//! How a bundle is written has no contract: it is read again, and compared, before it is given. No
//! clause says when there is none; that a refusal has its cause is tested. So is the member `series`
//! of an envelope, which the desk ignores.
#![tactic(auto)]

mod bundle;
mod counts;
mod cut;
mod draft;
mod fault;
mod laws;
mod part;
mod refusal;
mod run;
mod same;
mod series;

pub use bundle::bundle_of;
pub use cut::{MOST_PARTS, cut_objects};
pub use fault::SeriesFault;
pub use laws::series_has_its_objects;
pub use part::Series;
pub use refusal::BundleRefusal;
pub use series::{Bundles, write_series};
