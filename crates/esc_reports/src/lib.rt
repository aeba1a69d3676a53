//! The reports of a store, which a desk or a reader reads, and the texts of replies.
//!
//! | Call | Text |
//! |---|---|
//! | [`report`] | a [`Report`] of what a desk or a reader reads |
//! | [`report_links`] | the report of links, told how far it is |
//! | [`write_export_of`] | an export, written while the store is read |
//! | [`reply_text`] | a reply as JSON: an object of eight members, null where there is no value |
//! | [`receipts_heading`], [`receipt_line`] | the heading of the receipts, and the line of one reply |
//! | [`end_line`] | the line of the status that says where a chain ends |
//!
//! What goes in is a desk or a reader (`Reads` of `esc_desk`), or a reply or an end that it gave; what comes
//! out is a text. The status and the moment are plain lines. The other reports are CSV as `csv`
//! writes it (RFC 4180, except that lines end with a line feed alone): a heading, and a line for
//! each listed place (gaps), each finding (links), each reply (receipts), each parked body, or each
//! cell of each object of a kind (an export). A value that isn't there is empty.
//!
//! # Example
//!
//! ```text
//! let text = report(alloc, &mut desk, Report::Gaps)?;   // watermark,type,used,state,blocker,awaited ..
//! let line = receipt_line(alloc, &reply)?;              // 1,n1,A1,,F1,0,new,0 and a line feed
//! let json = reply_text(alloc, &reply)?;                // {"copy":"new","fault":null,"id":"F1", ..}
//! ```
//!
//! # What is promised
//!
//! [`report`] gives exactly the text that `specs/Reports.antt` (`IsReport`) has for the events that
//! the store stands for, or `S1`, `S2`, whether a desk or a reader reads it (`Reads`). What a read
//! leaves as it was, it leaves so: a desk is unchanged, and reflects what it reflected. What a
//! report says of bodies has the premise that no two different ones have the same
//! digest. The lines are defined in `StatusText.antt`, `GapsText.antt`, `LinksText.antt`,
//! `ReceiptsText.antt`, `ParkedText.antt`, `MomentText.antt` and `ReplyText.antt`, with the words
//! of `Words.antt`. `S1` also stands for a watermark without a text: no manifest has such a place,
//! and no word sets such a moment.
//!
//! # Cost
//!
//! The links and an export walk the objects, and hold no map of them but a page of 256 objects. A
//! text is whole in memory before it is returned; [`write_export_of`] holds the lines of one object.
#![tactic(auto)]

mod catalog;
mod export;
mod findings;
mod gaps;
mod links;
mod moment;
mod parked;
mod receipts;
mod reply;
mod reports;
mod status;
mod walked;
mod watermark;
mod words;

pub use catalog::Report;
pub use esc_check::ExportFault;
pub use export::write_export_of;
pub use receipts::{receipt_line, receipts_heading};
pub use reply::reply_text;
pub use reports::{report, report_links};
pub use status::end_line;
pub use walked::walk_fault;
pub use watermark::printed_watermark;
