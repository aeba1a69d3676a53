//! What a file was asked, and what it answered. It exists for clauses alone, and takes no memory.

ghost use Rattle.std.specs.Prelude.{◌≡◌, [], ◌∷◌};
ghost use Rattle.sqlite_disk.specs.Events.{settled};

use crate::each::each;
use http_server::Log;

/// What a file is asked.
#[derive(Clone, Copy, Debug)]
pub enum Question {
    /// To be as it is on its device.
    Opened,
    Length,
    Bytes,
    /// Bytes that are to have a digest, the second number, under a key, the first.
    TestedBytes(u64, u64),
    Write,
    Cut,
    Sync,
}

/// A question with its answer, but for bytes.
#[derive(Clone, Copy, Debug)]
pub struct Call {
    pub question: Question,
    /// An offset, a length, or the key of a file that was opened.
    pub at: u64,
    /// How many bytes were asked for, or were taken.
    pub count: u64,
    pub succeeds: bool,
}

/// The calls so far, each with its bytes.
#[derive(Drop)]
pub struct Notes {
    calls: Log<Call, Log<u8, ()>>,
}

impl Notes {
    ghost use Rattle.esc_read_only.specs.Notes.{call_noted, history};

    /// Those of a file that was opened under a key, and not asked since.
    pub(crate) fn new(key: u64) -> Notes
        ensures { history result ≡ settled key ∷ [] }
    {
        let opened = Call {
            question: Question::Opened,
            at: key,
            count: 0,
            succeeds: true,
        };
        Notes {
            calls: Log::new().and(&opened, &Log::new()),
        }
    }

    /// With one more call.
    pub(crate) fn note(&mut self, call: Call, bytes: &[u8])
        ensures { history self.new ≡ call_noted call bytes.now ∷ history self.old }
    {
        self.calls = self.calls.and(&call, &each(bytes));
    }
}
