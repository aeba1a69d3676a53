//! Events at a desk: one, with its work, or several in one call.

use crate::input::{next_line, split};
use crate::texts::{push_reply, push_work};
use esc_apply::Work;
use esc_desk::{Arrival, Desk, Event, EventOutcome, Outcome, number};
use esc_envelope::watermark;
use sqlite::Alter;
use std::alloc::Global;
use std::fmt::Write;
use std::fs;
use std::test::Fail;

/// The line of an event, and the bytes of the file that it names.
#[derive(Drop)]
struct EventLine {
    line: String,
    bytes: Vec<u8>,
}

impl EventLine {
    fn new(rt: &HostRuntime, line: &str) -> Result<EventLine, Fail> {
        let (word, rest) = split(line);
        let bytes = match word {
            "comes" => fs::read(rt, split(rest).1)?,
            "amend" => fs::read(rt, rest)?,
            _ => Vec::new(rt.alloc()),
        };
        let line = String::from_str(rt.alloc(), line)?;
        Ok(EventLine { line, bytes })
    }

    fn event(&self) -> Result<Event<'_>, Fail> {
        let (word, rest) = split(self.line.as_str());
        match word {
            "comes" => Ok(Event::Arrival(Arrival {
                number: number(split(rest).0)?,
                body: self.bytes.as_slice(),
            })),
            "amend" => Ok(Event::Amend(self.bytes.as_slice())),
            _ => Ok(Event::AsOf(moment(rest)?)),
        }
    }

    // The word behind the first one.
    fn rest(&self) -> &str {
        split(self.line.as_str()).1
    }
}

// The moment of a word: a watermark, or none for `latest`.
fn moment(word: &str) -> Result<Option<i64>, Fail> {
    if word == "latest" {
        return Ok(None);
    }
    match watermark(word) {
        Some(moment) => Ok(Some(moment)),
        None => Err(Fail::new("no moment")),
    }
}

// ---- one event

/// Gives the event of a line to a desk, and adds what it returns and the work, or the refusal.
pub fn push_event<S: Alter + Drop>(
    rt: &HostRuntime,
    text: &mut String,
    desk: &mut Desk<S>,
    line: &str,
) -> Result<(), Fail> {
    let line = EventLine::new(rt, line)?;
    let before = desk.writes();
    let (outcome, work) = outcome_of(rt.alloc(), desk, line.event()?);
    push_outcome(rt.alloc(), text, line.rest(), &outcome)?;
    if let Some(work) = work {
        push_work(text, &work, desk.writes().saturating_sub(before))?;
    }
    text.push_str("\n")?;
    Ok(())
}

// What comes of an event, and its work unless it is refused.
fn outcome_of<S: Alter + Drop>(
    alloc: Global,
    desk: &mut Desk<S>,
    event: Event<'_>,
) -> (EventOutcome, Option<Work>) {
    match event {
        Event::Arrival(arrival) => match desk.arrive(alloc, &arrival.number, arrival.body) {
            Ok((reply, work)) => (EventOutcome::Arrived(Outcome::Done(reply)), Some(work)),
            Err(fault) => (EventOutcome::Arrived(Outcome::Lost(fault)), None),
        },
        Event::Amend(manifest) => match desk.amend(alloc, manifest) {
            Ok((added, work)) => (EventOutcome::Amended(Ok(added)), Some(work)),
            Err(fault) => (EventOutcome::Amended(Err(fault)), None),
        },
        Event::AsOf(moment) => match desk.as_of(alloc, moment) {
            Ok(work) => (EventOutcome::Moved(Ok(())), Some(work)),
            Err(fault) => (EventOutcome::Moved(Err(fault)), None),
        },
    }
}

// ---- several in one call

/// Gives the events of the next lines to a desk in one call, and adds a line for each.
pub fn push_run<S: Alter + Drop>(
    rt: &HostRuntime,
    text: &mut String,
    desk: &mut Desk<S>,
    count: &str,
) -> Result<(), Fail> {
    let lines = event_lines(rt, count.parse::<usize>()?)?;
    let events = events_of(rt.alloc(), lines.as_slice())?;
    let outcomes = desk.run_events(rt.alloc(), events.as_slice())?;
    push_outcomes(rt.alloc(), text, lines.as_slice(), outcomes.as_slice())
}

fn event_lines(rt: &HostRuntime, count: usize) -> Result<Vec<EventLine>, Fail> {
    let mut lines = Vec::new(rt.alloc());
    for _ in 0..count {
        let line = next_line(rt)?.ok_or("no event")?;
        lines.push(EventLine::new(rt, line.as_str())?)?;
    }
    Ok(lines)
}

fn events_of(alloc: Global, lines: &[EventLine]) -> Result<Vec<Event<'_>>, Fail> {
    let mut events = Vec::new(alloc);
    for line in lines {
        events.push(line.event()?)?;
    }
    Ok(events)
}

fn push_outcomes(
    alloc: Global,
    text: &mut String,
    lines: &[EventLine],
    outcomes: &[EventOutcome],
) -> Result<(), Fail> {
    for (line, outcome) in lines.iter().zip(outcomes) {
        push_outcome(alloc, text, line.rest(), outcome)?;
        text.push_str("\n")?;
    }
    Ok(())
}

// Adds what came of an event; `word` is what its line says after the first word.
fn push_outcome(
    alloc: Global,
    text: &mut String,
    word: &str,
    outcome: &EventOutcome,
) -> Result<(), Fail> {
    match outcome {
        EventOutcome::Arrived(Outcome::Done(reply)) => push_reply(alloc, text, reply)?,
        EventOutcome::Arrived(Outcome::Lost(fault)) => write!(text, "{fault}")?,
        EventOutcome::Amended(Ok(added)) => write!(text, "added {added}")?,
        EventOutcome::Amended(Err(fault)) => write!(text, "{fault}")?,
        EventOutcome::Moved(Ok(())) => write!(text, "as of {word}")?,
        EventOutcome::Moved(Err(fault)) => write!(text, "{fault}")?,
    }
    Ok(())
}
