//! The beginning and the end of a connection over TCP.

ghost use Rattle.std.specs.Prelude.{◌≡◌};
ghost use Rattle.esc_client.specs.Connections.{is_of_connection};

use crate::budget::TimeBudget;
use crate::stream::TimedStream;
use std::io::{Error, ErrorKind, Read};
use std::net::{Shutdown, TcpStream};

/// How many reads are spent at most on what a client still sends after its response: 32 MiB in all,
/// since each takes up to `BYTES_AT_ONCE` bytes.
const READS_AFTER: usize = 2048;

const BYTES_AT_ONCE: usize = 16_384;

/// Linux's numbers of errors that a connection may have before it is accepted, and that have no
/// `ErrorKind` of their own: ENONET, EPROTO, ENOPROTOOPT, EOPNOTSUPP and EHOSTDOWN.
const UNNAMED_ERRORS: [i32; 5] = [64, 71, 92, 95, 112];

/// Whether an error of `accept` is one of the connection that was to be accepted: Linux reports there
/// what has happened to it. Each other one is the listener's, as where no file more may be open: the
/// next connection would fail the same way.
pub fn is_of_connection(error: &Error) -> bool
    ensures { result ≡ is_of_connection error.now }
{
    match error.kind() {
        ErrorKind::ConnectionAborted
        | ErrorKind::ConnectionReset
        | ErrorKind::HostUnreachable
        | ErrorKind::NetworkDown
        | ErrorKind::NetworkUnreachable
        | ErrorKind::PermissionDenied
        | ErrorKind::TimedOut => true,
        _ => error
            .raw_os_error()
            .is_some_and(|code| UNNAMED_ERRORS.contains(&code)),
    }
}

/// Ends a connection whose response was sent. A client whose request was refused before its end may
/// still be sending. If nobody read that, it would find the connection broken and might miss its
/// response: so the rest is read and dropped, within limits.
pub fn drain(rt: &HostRuntime, stream: &TcpStream) {
    if stream.shutdown(Shutdown::Write).is_err() {
        return;
    }
    let mut reader = TimedStream::new(rt, stream, TimeBudget::for_rest());
    let mut rest = [0; BYTES_AT_ONCE];
    for _ in 0..READS_AFTER {
        if !matches!(reader.read(&mut rest), Ok(1..)) {
            return;
        }
    }
}
