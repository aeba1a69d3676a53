//! A disk of which calls fail.

ghost use Rattle.std.specs.Prelude.{◌≡◌, ◌+◌, ◌&&◌, not, false};
ghost use Rattle.sqlite_disk.specs.Disk.{CountsFault};
ghost use Rattle.sqlite_disk.specs.Refusal.{finds_no_room};

use sqlite_disk::{Disk, Tally};
use std::io;

/// Which calls fail: so many, after so many that pass.
#[derive(Clone, Copy)]
pub struct Failures {
    pub after: u64,
    pub count: u64,
}

impl Failures {
    // Counts a call, which fails if it is one of these.
    fn pass(&mut self, refused: &mut u64) -> io::Result<()>
        ensures faults { CountsFault result refused.old refused.new }
        ensures kind { finds_no_room result ≡ false }
    {
        if self.after > 0 {
            self.after -= 1;
        } else if self.count > 0 {
            self.count -= 1;
            *refused = refused.saturating_add(1);
            return Err(io::Error::other("this call fails"));
        }
        Ok(())
    }
}

/// A disk that passes calls on to another, except for those that fail. It is a `Fuse`
/// (`sqlite_disk`) whose calls may pass again.
#[derive(Drop)]
pub struct FlakyDisk<D: Disk> {
    inner: D,
    failures: Failures,
    refused: u64,
    sync_refused: bool,
}

impl<D: Disk> FlakyDisk<D> {
    pub fn new(inner: D, failures: Failures) -> FlakyDisk<D> {
        FlakyDisk {
            inner,
            failures,
            refused: 0,
            sync_refused: false,
        }
    }

    /// Whether no call is to fail any more.
    pub fn has_failed(&self) -> bool {
        self.failures.count == 0
    }

    /// The disk that calls are passed on to.
    pub fn into_inner(self) -> D {
        self.inner
    }
}

impl<D: Disk> Disk for FlakyDisk<D> {
    ghost seen = { λ f. D.Disk.seen f.inner };

    ghost may_leave = { λ f. D.Disk.may_leave f.inner };

    ghost is_usable = { λ f. D.Disk.is_usable f.inner && not f.sync_refused };

    ghost faults = { λ f. D.Disk.faults f.inner + f.refused };

    ghost tally_of = { λ f. D.Disk.tally_of f.inner };

    ghost is_rotten = { λ f. D.Disk.is_rotten f.inner };

    ghost key_of = { λ f. D.Disk.key_of f.inner };

    ghost is_clean = { λ f. D.Disk.is_clean f.inner };

    ghost is_fair = { λ f. D.Disk.is_fair f.inner };

    ghost fair_if_clean = { λ f. D.Disk.fair_if_clean f.inner };

    ghost seen_may_stay = { λ f. D.Disk.seen_may_stay f.inner };

    ghost is_mixing = { λ f. D.Disk.is_mixing f.inner };

    fn mixes(&self) -> bool {
        self.inner.mixes()
    }

    fn key(&self) -> u64 {
        self.inner.key()
    }

    fn tally(&self) -> Tally {
        self.inner.tally()
    }

    fn may_be_used(&self) -> bool {
        self.inner.may_be_used() && !self.sync_refused
    }

    fn len(&mut self) -> io::Result<usize> {
        self.failures.pass(&mut self.refused)?;
        self.inner.len()
    }

    fn read_at(&mut self, at: usize, buf: &mut [u8]) -> io::Result<()> {
        self.failures.pass(&mut self.refused)?;
        self.inner.read_at(at, buf)
    }

    fn read_checked(&mut self, key: u64, want: u64, at: usize, buf: &mut [u8]) -> io::Result<()> {
        self.failures.pass(&mut self.refused)?;
        self.inner.read_checked(key, want, at, buf)
    }

    fn write_at(&mut self, at: usize, bytes: &[u8]) -> io::Result<()> {
        self.failures.pass(&mut self.refused)?;
        self.inner.write_at(at, bytes)
    }

    fn set_len(&mut self, len: usize) -> io::Result<()> {
        self.failures.pass(&mut self.refused)?;
        self.inner.set_len(len)
    }

    fn sync(&mut self) -> io::Result<()> {
        if let Err(error) = self.failures.pass(&mut self.refused) {
            self.sync_refused = true;
            return Err(error);
        }
        self.inner.sync()
    }
}
