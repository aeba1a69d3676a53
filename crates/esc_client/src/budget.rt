//! How long a client is waited for (this project's profile).

ghost use Rattle.std.specs.Prelude.{◌≡◌, ◌+◌, ◌^◌, ◌-◌, ◌↔◌, min, IsNone, IfSome};
ghost use Rattle.std.specs.Duration.{as_nanos, max_nanos};
ghost use Rattle.esc_client.specs.TimeBudget.{most_seconds, pause, moved, waited, granted};
ghost use Rattle.esc_client.specs.TimeBudget.{next_wait, IsSpent, IsNewBudget};

use std::time::Duration;

/// How many seconds a client is waited for before any byte has come or gone.
const FIRST_SECONDS: u64 = 10;

/// A client is granted one more second each time this many bytes have come or gone.
const BYTES_A_SECOND: u64 = 65_536;

/// How many seconds a request is waited for at most.
const MOST_REQUEST_SECONDS: u64 = 300;

/// How many seconds are spent at most on reading what a client still sends after its response.
const REST_SECONDS: u64 = 10;

/// The most seconds for which a client that has its response may send nothing.
const REST_PAUSE_SECONDS: u64 = 1;

/// How long a client may still be waited for.
#[derive(Clone, Copy, Debug)]
pub struct TimeBudget {
    /// The most seconds that are granted, however many bytes come or go.
    most: u64,
    /// The longest single wait.
    pause: Duration,
    /// How many bytes have come or gone.
    bytes: u64,
    /// How long the client has been waited for.
    waited: Duration,
}

impl TimeBudget {
    /// The budget of a client that sends its request: 10 seconds, and one for each 65,536 bytes
    /// that came; at most 300.
    pub fn for_request() -> TimeBudget
        ensures new { IsNewBudget result }
        ensures most { most_seconds result ≡ 300 }
        ensures pause { pause result ≡ max_nanos }
    {
        TimeBudget::new(MOST_REQUEST_SECONDS, Duration::MAX)
    }

    /// The budget of a client that takes its response: 10 seconds, and one for each 65,536
    /// bytes that went.
    pub fn for_response() -> TimeBudget
        ensures new { IsNewBudget result }
        ensures most { most_seconds result ≡ 2 ^ 64 - 1 }
        ensures pause { pause result ≡ max_nanos }
    {
        TimeBudget::new(u64::MAX, Duration::MAX)
    }

    /// The budget of a client that has its response and still sends: 10 seconds, and at most
    /// one in each read.
    pub fn for_rest() -> TimeBudget
        ensures new { IsNewBudget result }
        ensures most { most_seconds result ≡ 10 }
        ensures pause { pause result ≡ 1_000_000_000 }
    {
        TimeBudget::new(REST_SECONDS, Duration::from_secs(REST_PAUSE_SECONDS))
    }

    fn new(most: u64, at_once: Duration) -> TimeBudget
        ensures new { IsNewBudget result }
        ensures most { most_seconds result ≡ most }
        ensures pause { pause result ≡ as_nanos at_once }
    {
        TimeBudget {
            most,
            pause: at_once,
            bytes: 0,
            waited: Duration::ZERO,
        }
    }

    // How long the client may be waited for in all, by the bytes so far.
    fn granted(&self) -> Duration
        ensures { as_nanos result ≡ granted self.now }
    {
        let seconds = FIRST_SECONDS + self.bytes / BYTES_A_SECOND;
        Duration::from_secs(seconds.min(self.most))
    }

    /// How long the next wait may last. `None` once the client has been waited for as long as it is
    /// granted.
    pub fn next_wait(&self) -> Option<Duration>
        ensures none { IsNone result ↔ IsSpent self.now }
        ensures some { IfSome result (λ time. as_nanos time ≡ next_wait self.now) }
    {
        let left = self.granted().saturating_sub(self.waited);
        if left.is_zero() {
            None
        } else {
            Some(left.min(self.pause))
        }
    }

    /// Counts a wait, and the bytes that came or went in it.
    pub fn count(&mut self, time: Duration, bytes: usize)
        ensures waited { waited self.new ≡ min (waited self.old + as_nanos time) max_nanos }
        ensures moved { moved self.new ≡ min (moved self.old + bytes) (2 ^ 64 - 1) }
        ensures most { most_seconds self.new ≡ most_seconds self.old }
        ensures pause { pause self.new ≡ pause self.old }
    {
        self.waited = self.waited.saturating_add(time);
        self.bytes = self.bytes.saturating_add(bytes as u64);
    }
}
