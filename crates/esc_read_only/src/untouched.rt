//! A file that is only read.

ghost use Rattle.std.specs.Prelude.{◌≡◌, ◌<◌, ◌≤◌, ◌^◌, true, false, [], ◌∷◌, length, take};
ghost use Rattle.std.specs.Prelude.{IfOk, MatchResult};
ghost use Rattle.esc_read_only.specs.Notes.{read_noted};
ghost use Rattle.sqlite_disk.specs.Events.{settled};

use crate::content::Content;
use crate::notes::{Call, Notes, Question};
use sqlite_disk::{Calls, is_no_room};
use std::io;

/// A file that is only read: what is written in its place stays in memory.
#[derive(Drop)]
pub struct Untouched {
    content: Content,
    notes: Notes,
}

impl Untouched {
    ghost use Rattle.esc_read_only.specs.Untouched.{calls_of_file};

    pub(crate) fn new(content: Content, key: u64) -> Untouched
        ensures { calls_of_file result ≡ settled key ∷ [] }
    {
        Untouched {
            content,
            notes: Notes::new(key),
        }
    }

    // Answers a question for bytes.
    fn read(&mut self, question: Question, at: usize, buf: &mut [u8]) -> io::Result<usize>
        requires { 0 < length buf.old }
        ensures count { IfOk result (λ n. (0 < n) × (n ≤ length buf.old) × (at < 2 ^ 63)) }
        ensures noted { MatchResult result
            (λ n. calls_of_file self.new
            ≡ read_noted question at (length buf.old) true (take n buf.new)
            ∷ calls_of_file self.old)
            (λ _. calls_of_file self.new
            ≡ read_noted question at (length buf.old) false [] ∷ calls_of_file self.old) }
    {
        let answer = self.content.read(at, buf);
        let (count, succeeds) = match answer {
            Ok(count) => (count, true),
            Err(_) => (0, false),
        };
        let call = Call {
            question,
            at: at as u64,
            count: buf.len() as u64,
            succeeds,
        };
        self.notes.note(call, &buf[..count]);
        answer
    }
}

impl Calls for Untouched {
    ghost use Rattle.esc_read_only.specs.Notes.{history};

    ghost history = { λ f. history f.notes };

    fn len(&mut self) -> io::Result<usize> {
        let answer = self.content.len();
        let (len, succeeds) = match answer {
            Ok(len) => (len as u64, true),
            Err(_) => (0, false),
        };
        let call = Call {
            question: Question::Length,
            at: len,
            count: 0,
            succeeds,
        };
        self.notes.note(call, &[]);
        answer
    }

    fn read_some(&mut self, at: usize, buf: &mut [u8]) -> io::Result<usize> {
        self.read(Question::Bytes, at, buf)
    }

    fn read_under(&mut self, key: u64, want: u64, at: usize, buf: &mut [u8]) -> io::Result<usize> {
        self.read(Question::TestedBytes(key, want), at, buf)
    }

    fn write_some(&mut self, at: usize, bytes: &[u8]) -> io::Result<usize> {
        let answer = self.content.write(at, bytes);
        let (count, succeeds) = match answer {
            Ok(count) => (count as u64, true),
            Err(error) => (u64::from(is_no_room(&error)), false),
        };
        let call = Call {
            question: Question::Write,
            at: at as u64,
            count,
            succeeds,
        };
        self.notes.note(call, bytes);
        answer
    }

    fn resize(&mut self, len: usize) -> io::Result<()> {
        let answer = self.content.resize(len);
        let (count, succeeds) = match answer {
            Ok(()) => (0, true),
            Err(error) => (u64::from(is_no_room(&error)), false),
        };
        let call = Call {
            question: Question::Cut,
            at: len as u64,
            count,
            succeeds,
        };
        self.notes.note(call, &[]);
        answer
    }

    fn sync(&mut self) -> io::Result<()> {
        let call = Call {
            question: Question::Sync,
            at: 0,
            count: 0,
            succeeds: true,
        };
        self.notes.note(call, &[]);
        Ok(())
    }
}
