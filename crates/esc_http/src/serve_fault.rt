//! Why a request is not served to its end.

ghost use Rattle.std.specs.Prelude.{◌≡◌, Some};
ghost use Rattle.esc_http.specs.declared.serve_fault.ServeFault.TheVariants.{Read as reading};
ghost use Rattle.esc_http.specs.declared.serve_fault.ServeFault.TheVariants.{Write as writing};
ghost use Rattle.esc_http.specs.declared.serve_fault.ServeFault.TheVariants.{Export as exporting};
ghost use Rattle.esc_http.specs.Response.{serve_fault_text};

use esc_desk::StoreFault;
use esc_request::{ReadFailed, WriteFailed};
use std::error::Error;
use std::fmt;

/// Why a request was not served to its end.
#[derive(Clone, Copy, Debug, PartialEq, Eq)]
pub enum ServeFault {
    /// A read failed. Nothing was written, and nothing arrived.
    Read,
    /// A write or a flush failed. A beginning of the response was written, perhaps all of it, and
    /// an arrival that was taken is kept.
    Write,
    /// The desk failed while an export was sent, by this fault. A beginning of the response was
    /// written, and at least its last byte was not.
    Export(StoreFault),
}

impl ServeFault {
    /// Its words, as it prints.
    pub fn words(self) -> &'static str
        ensures { result.now ≡ serve_fault_text self }
    {
        match self {
            ServeFault::Read => "read fault",
            ServeFault::Write => "write fault",
            ServeFault::Export(_) => "export fault",
        }
    }
}

impl fmt::Display for ServeFault {
    ghost output = { λ fault. Some (serve_fault_text fault) };

    fn fmt<W: fmt::Write>(&self, f: &mut fmt::Formatter<W>) -> fmt::Result {
        f.write_str(self.words())
    }
}

impl Error for ServeFault {}

impl From<ReadFailed> for ServeFault {
    ghost from_gives = { λ _ fault. fault ≡ reading };

    fn from(_failed: ReadFailed) -> ServeFault {
        ServeFault::Read
    }
}

impl From<WriteFailed> for ServeFault {
    ghost from_gives = { λ _ fault. fault ≡ writing };

    fn from(_failed: WriteFailed) -> ServeFault {
        ServeFault::Write
    }
}

impl From<StoreFault> for ServeFault {
    ghost from_gives = { λ cause fault. fault ≡ exporting cause };

    fn from(cause: StoreFault) -> ServeFault {
        ServeFault::Export(cause)
    }
}
