//! A deposit in several bundles: a series.
//!
//! A bundle has at most 100,000 rows and 16 MiB, so a large deposit is given as a *series*: the
//! first part is of the deposit's type, and each other one is a Differential on the one before
//! (RFC 8909, section 2, and this project's profile). Each object stands whole in one part: a
//! parent row with all its child rows. No part deletes after an earlier one has contents.
//!
//! # In and out
//!
//! [`part_type`] takes a deposit's type and the number of a part, and returns the part's type.
//!
//! ```text
//! part_type(DepositType::Full, 0) // Full
//! part_type(DepositType::Full, 1) // Diff
//! ```
//!
//! # What the contracts mean
//!
//! `specs/Series.antt` says when deposits are a series of a deposit (`IsSeriesOf`), and
//! `specs/Applied.antt` what tables are once a deposit is applied to them. The law
//! [`series_applies_as_its_deposit`] says that a series applied to any tables gives what its
//! deposit would give, and that in a chain it can stand for its deposit. A bundle's limits don't
//! come into it, nor do the parts' ids, watermarks and counts.
#![tactic(auto)]

mod laws;
mod series;

pub use laws::series_applies_as_its_deposit;
pub use series::part_type;
