//! A client that breaks off, is slow, or takes nothing.

use crate::clock::Hands;
use esc_client::Timed;
use std::alloc::Global;
use std::cell::Cell;
use std::io::{self, ErrorKind, Read, Write};
use std::time::Duration;

/// How a client sends, or takes.
#[derive(Clone, Copy)]
pub struct Manner {
    /// Before each piece, which has at most so many bytes.
    pub pause: Duration,
    pub piece: usize,
    /// After so many bytes each call fails.
    pub most: usize,
    /// Whether nothing can be handed on.
    pub is_stuck: bool,
}

/// At once, and all.
pub const OPEN: Manner = Manner {
    pause: Duration::ZERO,
    piece: usize::MAX,
    most: usize::MAX,
    is_stuck: false,
};

/// A client, which sends bytes and keeps those that it takes.
#[derive(Drop)]
pub struct Peer<'a> {
    clock: &'a Hands,
    manner: Manner,
    unsent: &'a [u8],
    /// What it took.
    pub taken: Vec<u8>,
    /// How long one read or write waits for it at most.
    limit: Cell<Duration>,
}

impl<'a> Peer<'a> {
    /// A client that sends these bytes.
    pub fn new(alloc: Global, clock: &'a Hands, manner: Manner, unsent: &'a [u8]) -> Peer<'a> {
        Peer {
            clock,
            manner,
            unsent,
            taken: Vec::new(alloc),
            limit: Cell::new(Duration::MAX),
        }
    }

    // Waits for the client, within the limit; unless it has broken off.
    fn wait(&self) -> io::Result<()> {
        if self.manner.most == 0 {
            return Err(io::Error::from(ErrorKind::ConnectionReset));
        }
        let (pause, limit) = (self.manner.pause, self.limit.get());
        self.clock.wait(pause.min(limit));
        if pause > limit {
            return Err(io::Error::from(ErrorKind::WouldBlock));
        }
        Ok(())
    }
}

impl Timed for Peer<'_> {
    fn limit_reads(&self, time: Duration) -> io::Result<()> {
        self.limit.set(time);
        Ok(())
    }

    fn limit_writes(&self, time: Duration) -> io::Result<()> {
        self.limit.set(time);
        Ok(())
    }
}

impl Read for Peer<'_> {
    fn read(&mut self, buf: &mut [u8]) -> io::Result<usize> {
        self.wait()?;
        let most = self.manner.piece.min(self.manner.most);
        let count = most.min(self.unsent.len()).min(buf.len());
        buf[..count].copy_from_slice(&self.unsent[..count]);
        self.unsent = &self.unsent[count..];
        self.manner.most -= count;
        Ok(count)
    }
}

impl Write for Peer<'_> {
    fn write(&mut self, buf: &[u8]) -> io::Result<usize> {
        self.wait()?;
        let count = self.manner.piece.min(self.manner.most).min(buf.len());
        if self.taken.extend_from_slice(&buf[..count]).is_err() {
            return Err(io::Error::from(ErrorKind::OutOfMemory));
        }
        self.manner.most -= count;
        Ok(count)
    }

    fn flush(&mut self) -> io::Result<()> {
        if self.manner.is_stuck {
            return Err(io::Error::from(ErrorKind::BrokenPipe));
        }
        Ok(())
    }
}
