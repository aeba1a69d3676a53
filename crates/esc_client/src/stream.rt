//! A stream with a time budget.

ghost use Rattle.std.specs.Prelude.{◌≡◌, IsErr, IfOk};
ghost use Rattle.std.specs.Duration.{as_nanos};
ghost use Rattle.std.specs.Io.{ReadsAtMost, WritesAtMost};
ghost use Rattle.std.specs.Io.KnownBytes.{Keeps, ReadConsumes, WriteAppends};
ghost use Rattle.esc_client.specs.TimedStream.{stream_of, budget_of};
ghost use Rattle.esc_client.specs.TimeBudget.{IsSpent, HasMoved, next_wait};

use crate::budget::TimeBudget;
use std::io::{Error, ErrorKind, Read, Result, Write};
use std::net::TcpStream;
use std::time::{Clock, Duration, Instant};

/// A stream whose reads and writes can be limited in time.
pub trait Timed {
    /// Limits reads from now on: a read that waits longer fails.
    fn limit_reads(&self, time: Duration) -> Result<()>;

    /// Limits writes from now on: a write that waits longer fails, or takes only some of its bytes.
    fn limit_writes(&self, time: Duration) -> Result<()>;
}

impl Timed for &TcpStream {
    fn limit_reads(&self, time: Duration) -> Result<()> {
        self.set_read_timeout(Some(time))
    }

    fn limit_writes(&self, time: Duration) -> Result<()> {
        self.set_write_timeout(Some(time))
    }
}

/// A stream to a client that is read or written until the time budget of that is spent.
#[derive(Drop)]
pub struct TimedStream<'a, C, S: Drop> {
    clock: &'a C,
    stream: S,
    budget: TimeBudget,
}

impl<'a, C: Clock, S: Timed + Drop> TimedStream<'a, C, S> {
    /// A stream with this budget.
    pub fn new(clock: &'a C, stream: S, budget: TimeBudget) -> TimedStream<'a, C, S>
        ensures stream { stream_of result ≡ stream }
        ensures budget { budget_of result ≡ budget }
    {
        TimedStream {
            clock,
            stream,
            budget,
        }
    }

    // How long the next wait may last. Fails once the budget is spent.
    fn next_wait(&self) -> Result<Duration>
        ensures spent { IsSpent (budget_of self.now) → IsErr result }
        ensures time { IfOk result (λ time. as_nanos time ≡ next_wait (budget_of self.now)) }
    {
        match self.budget.next_wait() {
            Some(time) => Ok(time),
            None => Err(Error::from(ErrorKind::TimedOut)),
        }
    }

    // Counts a wait that began at `begun`, with the bytes that came or went in it. Where the clock
    // fails, the budget is spent from then on: the bytes have moved, and are not lost.
    fn count(&mut self, begun: Instant, moved: &Result<usize>)
        ensures moved { IfOk moved.now
            (λ bytes. HasMoved bytes (budget_of self.old) (budget_of self.new)) }
        ensures stream { stream_of self.new ≡ stream_of self.old }
    {
        let bytes = match moved {
            Ok(bytes) => *bytes,
            Err(_) => 0,
        };
        let time = begun.elapsed(self.clock).unwrap_or(Duration::MAX);
        self.budget.count(time, bytes);
    }
}

impl<C: Clock, S: Read + Timed + Drop> Read for TimedStream<'_, C, S> {
    ghost remaining = { λ timed. S.remaining (stream_of timed) };

    fn read(&mut self, buf: &mut [u8]) -> Result<usize>
        ensures bound { ReadsAtMost result buf.new }
        ensures bytes { ReadConsumes (S.remaining (stream_of self.old))
            (S.remaining (stream_of self.new)) result buf.new }
        ensures spent { IsSpent (budget_of self.old) → IsErr result }
        ensures moved { IfOk result
            (λ bytes. HasMoved bytes (budget_of self.old) (budget_of self.new)) }
    {
        self.stream.limit_reads(self.next_wait()?)?;
        let begun = Instant::now(self.clock)?;
        let moved = self.stream.read(buf);
        self.count(begun, &moved);
        moved
    }
}

impl<C: Clock, S: Write + Timed + Drop> Write for TimedStream<'_, C, S> {
    ghost contents = { λ timed. S.contents (stream_of timed) };

    fn write(&mut self, buf: &[u8]) -> Result<usize>
        ensures bound { WritesAtMost result buf.now }
        ensures bytes { WriteAppends (S.contents (stream_of self.old))
            (S.contents (stream_of self.new)) result buf.now }
        ensures spent { IsSpent (budget_of self.old) → IsErr result }
        ensures moved { IfOk result
            (λ bytes. HasMoved bytes (budget_of self.old) (budget_of self.new)) }
    {
        self.stream.limit_writes(self.next_wait()?)?;
        let begun = Instant::now(self.clock)?;
        let moved = self.stream.write(buf);
        self.count(begun, &moved);
        moved
    }

    fn flush(&mut self) -> Result<()> {
        self.stream.flush()
    }
}
