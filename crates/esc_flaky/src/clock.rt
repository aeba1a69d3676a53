//! A clock that moves only as it is told.

use std::cell::Cell;
use std::io;
use std::time::{Clock, Duration};

/// A clock that moves only while a client is waited for. It begins at 0.
#[derive(Drop)]
pub struct Hands {
    time: Cell<Duration>,
}

impl Hands {
    /// A clock at 0.
    pub fn new() -> Hands {
        Hands {
            time: Cell::new(Duration::ZERO),
        }
    }

    /// The time of the clock.
    pub fn time(&self) -> Duration {
        self.time.get()
    }

    /// Moves the clock on.
    pub(crate) fn wait(&self, pause: Duration) {
        self.time.set(self.time.get().saturating_add(pause));
    }
}

impl Clock for Hands {
    fn monotonic(&self) -> io::Result<Duration> {
        Ok(self.time())
    }

    fn since_1970(&self) -> io::Result<Duration> {
        Ok(self.time())
    }
}
