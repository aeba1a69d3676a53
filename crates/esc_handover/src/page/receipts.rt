//! The receipts by verdict, and the parked bodies.

use crate::page::part::{Cell, MOST_SHOWN, counted_table, leaf, row, section, table};
use esc_events::ParkedBody;
use esc_html::{Html, Tag};
use esc_store::{Reply, Verdict};
use std::alloc::Global;

/// The verdicts, with what they mean.
const VERDICTS: [(&str, &str); 5] = [
    ("A1", "A1: held, as the deposit of a listed row"),
    ("A2", "A2: listed by no row, and not kept"),
    ("A3", "A3: listed, and no deposit"),
    ("A4", "A4: another deposit than its row says"),
    ("A5", "A5: listed by no row when it came, and kept"),
];

const HEADINGS: [&str; 5] = ["Receipt", "Number", "Fault", "Id", "Resend"];

// The verdict of a reply in a word, and the refusal where no deposit is read.
fn verdict_of(verdict: Verdict) -> (&'static str, Cell<'static>) {
    match verdict {
        Verdict::A1 => ("A1", Cell::Nothing),
        Verdict::A2 => ("A2", Cell::Nothing),
        Verdict::A3(fault) => ("A3", Cell::Fault(fault)),
        Verdict::A4 => ("A4", Cell::Nothing),
        Verdict::A5 => ("A5", Cell::Nothing),
    }
}

/// The section of the receipts.
pub(crate) fn receipts_section(alloc: Global, receipts: &[Reply]) -> Html {
    let mut inside = Html::new(alloc);
    for (verdict, words) in VERDICTS {
        inside = inside.add(receipts_of(alloc, receipts, verdict, words));
    }
    if receipts.is_empty() {
        inside = leaf(alloc, Tag::Paragraph, "None: nothing has come.");
    }
    section(alloc, "receipts", "Receipts", inside)
}

fn receipts_of(alloc: Global, receipts: &[Reply], verdict: &str, words: &str) -> Html {
    let mut rows = Html::new(alloc);
    let mut count: u64 = 0;
    for reply in receipts {
        let (word, fault) = verdict_of(reply.verdict);
        if word != verdict {
            continue;
        }
        if count < MOST_SHOWN {
            rows = rows.add(reply_row(alloc, reply, fault));
        }
        count = count.saturating_add(1);
    }
    counted_table(alloc, words, count, &HEADINGS, rows)
}

fn reply_row(alloc: Global, reply: &Reply, fault: Cell<'_>) -> Html {
    let id = match &reply.id {
        Some(id) => Cell::Text(id.as_str()),
        None => Cell::Nothing,
    };
    row(
        alloc,
        Cell::Number(reply.receipt),
        &[
            Cell::Text(reply.number.as_str()),
            fault,
            id,
            Cell::resend(reply.resend),
        ],
    )
}

/// The section of the parked bodies.
pub(crate) fn parked_section(alloc: Global, parked: &[ParkedBody]) -> Html {
    if parked.is_empty() {
        let nothing = leaf(
            alloc,
            Tag::Paragraph,
            "None: each body that is kept is listed.",
        );
        return section(alloc, "parked", "Parked bodies", nothing);
    }
    let mut rows = Html::new(alloc);
    for body in parked {
        rows = rows.add(parked_row(alloc, body));
    }
    let inside = table(
        alloc,
        "The bodies that no row lists",
        &["SHA-256", "Bytes"],
        rows,
    );
    section(alloc, "parked", "Parked bodies", inside)
}

fn parked_row(alloc: Global, body: &ParkedBody) -> Html {
    match hex::encode(alloc, body.digest.as_slice()) {
        Ok(digest) => row(
            alloc,
            Cell::Word(digest.as_str()),
            &[Cell::Number(body.bytes)],
        ),
        Err(_) => Html::new(alloc).refused(),
    }
}
