//! Whether a rebuilt registry may be taken over.
//!
//! # In and out
//!
//! `passes` says of each [`Test`] of the acceptance whether it passes, by what was seen of a store
//! ([`Seen`]): the chain and its end, the line of each listed place, parked bodies, findings, what
//! the chain's deposits declare and make, whether the held bodies are as listed, and so on.
//! `lines_of` gives a [`Line`] for each test, with what was found and what to do. `is_accepted` says
//! whether the registry may be taken over: each test passes, but for those that are only told.
//! `report_of` gives the text of the lines, and the status.
//!
//! What is seen is found by `gaps_of`, which has the line of each listed place, by `is_latest`, which
//! compares a chain with the latest one, by `is_as_listed`, which compares a body with its row, by
//! [`Tlds`], by `survey_from`, which takes in all objects as they come, and by [`ChainFacts`], which
//! takes one body of the chain after the other, the last first. (`esc_conformity` has the objects that
//! fail a test by themselves.) Nothing here knows of a store.
//!
//! ```text
//! let mut facts = ChainFacts::new(alloc);
//! let deposit = facts.add_earlier(alloc, Some(&body))?;          // each body, the last first
//!
//! let report = report_of(alloc, &seen, is_strict)?;
//! // ok tld: example
//! // ok end: 2024-03-11T00:00:00Z DIFF
//! // ..
//! // wrong names: domain clID under another name, ..              status 1
//! ```
//!
//! # What the contracts mean
//!
//! `specs/Acceptance.antt` says what each test asks (`passes`), and what the status is (`status_of`):
//! 0 exactly where the registry is accepted. `specs/Lines.antt` says what the text is: a line for
//! each test, in order, with `ok` exactly where it passes, then one for each note. What a line says
//! after the test's name has no contract. `specs/Guides.antt` says which fields have links, statuses
//! and dates, which objects have them, and what looks like one of them under another name.
//!
//! `survey_from` takes in each object once, for all that is asked of all of them (`IsSurveyed`): it
//! returns just the fields that some object lacks (`IsCoverageOf`), just the findings V1 to V7, as
//! `esc_check` has them (`AreAllFindings`), and what the rules of RFC 9022 ask (`IsSurveyOf` of
//! `esc_conformity`).
//!
//! `specs/Chains.antt` says what the bodies of a chain say: at each `add_earlier` whether all of them
//! are deposits, and how many orphans these have. `specs/Listed.antt` says when a body is as listed.
//! `gaps_of` and `is_latest` go by `esc_chain`. `specs/Tlds.antt` has the TLDs that bodies name. Which
//! notes there are is tested.
#![tactic(auto)]

mod acceptance;
mod bodies;
mod chain;
mod coverage;
mod declared;
mod detail;
mod gaps;
mod guide;
mod guides;
mod line;
mod notes;
mod report;
mod same;
mod seen;
mod surveying;
mod test;
mod tlds;
mod words;

pub use acceptance::{is_accepted, passes, status_of};
pub use bodies::is_as_listed;
pub use chain::ChainFacts;
pub use coverage::Coverage;
pub use declared::Declared;
pub use gaps::{gaps_of, is_latest};
pub use guide::Guide;
pub use line::{Line, lines_of};
pub use report::{Report, report_of};
pub use same::{are_same_counts, is_same_entry, is_same_object};
pub use seen::Seen;
pub use surveying::{Surveyed, survey_from};
pub use test::Test;
pub use tlds::Tlds;
pub use words::{moment_words, one_line};
