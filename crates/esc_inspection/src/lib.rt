//! What is seen of a store, for the acceptance of the registry in it.
//!
//! # In and out
//!
//! [`inspect`] takes a reader of a store (`Lookup` of `esc_desk`: a reader of trees) and
//! the time, and gives [`StoreFacts`]: the moment and the receipts, the end of the chain and how
//! many objects there are, what that end declares, the line of each listed place, the parked bodies,
//! which held bodies aren't as listed, what the bodies of the chain say, whether the tables are what
//! these make, and, by two walks over them, the findings V1 to V7, which fields their objects lack
//! and which break a rule of RFC 9022. [`acceptance`] makes the lines or the page of it ([`Form`]),
//! with the status. It tells a `Progress` how far it is. It changes nothing. Errors are those of
//! reads: `S1`, `S2`.
//!
//! ```text
//! let form = Form::Lines { is_strict: false };
//! let answer = acceptance(alloc, &mut reader, form, clock, &mut progress)?;
//! answer.status                                       // 0 exactly where the registry is accepted
//! ```
//!
//! The bodies of the chain are read last first, and each is parsed once: what it says is compared with
//! the tables where no later body says it already. In memory are the keys of the tables, and one body
//! at a time, or the deposit that was read of it.
//!
//! # What the contracts mean
//!
//! The premises are those of each read: the store reflects a list of events, and the disk gave back
//! what was written. `specs/Parts.antt`, `specs/Contents.antt` and `specs/Inspected.antt` say what is
//! seen, by these events (`AreFactsAfter`), and `specs/Answers.antt` that this is what is shown
//! (`IsAnswerAfter`): a line for each test, `ok` exactly where it passes, and the status; or a page
//! with the verdict, the numbers of each kind, and those of each rule that is broken.
//!
//! [`status_zero_is_all_clear`] is a law, and what an operator believes: where the status is 0, the
//! tables, and so the exports, are those of the greatest listed deposit's chain, each deposit of it
//! is the newest revision that is listed and has no orphan, and nothing in them is a finding
//! (`specs/AllClear.antt`).
//!
//! On an honest disk the bodies are as listed, the chain is the latest, and the tables are those of
//! the bodies. Whether the disk is honest or not, the chain that was read is the latest one of the
//! rows that are held, where it is said so (`latest` of `AreFactsAfter`). That the other two tests
//! find a disk that isn't honest is said by the calls that compare, `is_as_listed` of
//! `esc_acceptance` and those of `comparison` (`specs/Compared.antt`), and it is tested. Which notes
//! and declared tables there are has no contract.
#![tactic(auto)]

mod bodies;
mod books;
mod chain_bodies;
mod comparison;
mod ending;
mod facts;
mod form;
mod inspection;
mod kept_chain;
mod laws;
mod listing;
mod rebuilt;
mod surveying;
mod totals;

pub use bodies::Bodies;
pub use books::Books;
pub use ending::Ending;
pub use facts::StoreFacts;
pub use form::Form;
pub use inspection::{acceptance, answer_of, inspect};
pub use kept_chain::KeptChain;
pub use laws::status_zero_is_all_clear;
pub use listing::Listing;
pub use surveying::Contents;
pub use totals::Totals;
