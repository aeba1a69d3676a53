//! Requests to a desk, of clients in memory.

use crate::input::split;
use crate::texts::push_bytes;
use esc_client::{TimeBudget, TimedStream};
use esc_desk::{Desk, StoreFault};
use esc_flaky::{Hands, Manner, OPEN, Peer};
use esc_http::{ServeFault, serve_one};
use sqlite::Alter;
use std::alloc::Global;
use std::fmt::Write;
use std::fs;
use std::test::Fail;
use std::time::Duration;

// Adds what came of a request, and after how many milliseconds.
fn push_served(
    text: &mut String,
    served: Result<Option<StoreFault>, ServeFault>,
    clock: &Hands,
) -> Result<(), Fail> {
    let word = match served {
        Ok(_) => "served",
        Err(fault) => fault.words(),
    };
    let time = clock.time().as_millis();
    writeln!(text, "{word} after {time} milliseconds")?;
    Ok(())
}

// How the client of these words sends, and how it takes.
fn manners_of(words: &str) -> Result<(Manner, Manner), Fail> {
    if words.is_empty() {
        return Ok((OPEN, OPEN));
    }
    let (pause, rest) = split(words);
    let (piece, rest) = split(rest);
    let (readable, rest) = split(rest);
    let (writable, word) = split(rest);
    let slow = manner_of(pause, piece)?;
    let sends = Manner {
        most: readable.parse::<usize>()?,
        ..slow
    };
    let takes = Manner {
        pause: Duration::ZERO,
        most: writable.parse::<usize>()?,
        is_stuck: word == "stuck",
        ..sends
    };
    Ok((sends, takes))
}

fn manner_of(pause: &str, piece: &str) -> Result<Manner, Fail> {
    Ok(Manner {
        pause: Duration::from_millis(pause.parse::<u64>()?),
        piece: piece.parse::<usize>()?,
        ..OPEN
    })
}

/// Serves the request in a file, and adds what came of it, the time, and the response.
pub fn push_request<S: Alter + Drop>(
    rt: &HostRuntime,
    text: &mut String,
    desk: &mut Desk<S>,
    rest: &str,
) -> Result<(), Fail> {
    let (path, words) = split(rest);
    let manners = manners_of(words)?;
    let request = fs::read(rt, path)?;
    push_response(rt.alloc(), text, desk, manners, request.as_slice())
}

fn push_response<S: Alter + Drop>(
    alloc: Global,
    text: &mut String,
    desk: &mut Desk<S>,
    manners: (Manner, Manner),
    request: &[u8],
) -> Result<(), Fail> {
    let clock = Hands::new();
    let sender = Peer::new(alloc, &clock, manners.0, request);
    let mut reader = TimedStream::new(&clock, sender, TimeBudget::for_request());
    let mut taker = Peer::new(alloc, &clock, manners.1, &[]);
    let served = serve_one(alloc, desk, &mut reader, &mut taker);
    push_served(text, served, &clock)?;
    push_bytes(text, taker.taken.as_slice())?;
    text.push_str("\n")?;
    Ok(())
}

/// Serves the request in a file to a client that takes its response slowly, and adds what came of
/// it, and the time.
pub fn push_taken<S: Alter + Drop>(
    rt: &HostRuntime,
    text: &mut String,
    desk: &mut Desk<S>,
    rest: &str,
) -> Result<(), Fail> {
    let (path, words) = split(rest);
    let (pause, piece) = split(words);
    let takes = manner_of(pause, piece)?;
    let request = fs::read(rt, path)?;
    push_slow(rt.alloc(), text, desk, takes, request.as_slice())
}

fn push_slow<S: Alter + Drop>(
    alloc: Global,
    text: &mut String,
    desk: &mut Desk<S>,
    takes: Manner,
    request: &[u8],
) -> Result<(), Fail> {
    let clock = Hands::new();
    let taker = Peer::new(alloc, &clock, takes, &[]);
    let mut writer = TimedStream::new(&clock, taker, TimeBudget::for_response());
    let mut reader = request;
    let served = serve_one(alloc, desk, &mut reader, &mut writer);
    push_served(text, served, &clock)
}
