//! The desk on a port.

use crate::run::Run;
use esc_arguments::{Stop, or_stop};
use esc_cli::{DONE, Why, print_why};
use esc_client::{TimeBudget, TimedStream, drain, is_of_connection};
use esc_desk::{Desk, StoreFault};
use esc_http::{ServeFault, serve_one};
use esc_store::Reason;
use sqlite::Alter;
use std::io::{Error, Write};
use std::net::{Net, TcpListener, TcpStream};

impl<N, O, E> Run<'_, N, O, E>
where
    N: Net<Listener = TcpListener, Stream = TcpStream>,
    O: Write,
    E: Write,
{
    /// Listens on a port of 127.0.0.1, says so, and serves so many connections one after the other:
    /// one request each. One that fails is reported, and the next is served; a client that was
    /// waited for too long fails too. With `--verbose` it is told why the desk failed, where it did.
    /// Returns the status.
    pub fn serve_connections<S: Alter>(
        &mut self,
        desk: &mut Desk<S>,
        port: u16,
        count: u32,
    ) -> Result<u8, Stop> {
        let address = format!(in self.rt.alloc(); "127.0.0.1:{port}")?;
        let bound = TcpListener::bind(self.net, address.as_str());
        let listener = or_stop(self.rt, address.as_str(), bound)?;
        let line = format!(in self.rt.alloc(); "listening {address}\n")?;
        self.print(line.as_bytes())?;
        for _ in 0..count {
            let served = self.serve_next(desk, &listener);
            or_stop(self.rt, address.as_str(), served)?;
        }
        Ok(DONE)
    }

    // Serves the next connection. One that failed before it was accepted is reported as one that
    // can't be read. At `Err` there is none, since the listener failed.
    fn serve_next<S: Alter>(
        &mut self,
        desk: &mut Desk<S>,
        listener: &TcpListener,
    ) -> Result<(), Error> {
        match listener.accept() {
            Ok((stream, _address)) => self.serve_connection(desk, &stream),
            Err(error) if is_of_connection(&error) => self.print_fault(ServeFault::Read),
            Err(error) => return Err(error),
        }
        Ok(())
    }

    // Serves one request over a connection. One that fails is reported.
    fn serve_connection<S: Alter>(&mut self, desk: &mut Desk<S>, stream: &TcpStream) {
        let mut reader = TimedStream::new(self.rt, stream, TimeBudget::for_request());
        let mut writer = TimedStream::new(self.rt, stream, TimeBudget::for_response());
        match serve_one(self.rt.alloc(), desk, &mut reader, &mut writer) {
            Ok(refusal) => {
                drain(self.rt, stream);
                if let Some(fault) = refusal {
                    self.print_cause(fault);
                }
            }
            Err(fault) => self.print_fault(fault),
        }
    }

    fn print_fault(&mut self, fault: ServeFault) {
        // A failure of standard error is ignored: there is nowhere to report it.
        let _ = self.err.write_all(fault.words().as_bytes());
        let _ = self.err.write_all(b"\n");
        if let ServeFault::Export(cause) = fault {
            self.print_cause(cause);
        }
    }

    // Prints why the desk failed, if that is asked for.
    fn print_cause(&mut self, fault: StoreFault) {
        let why = Why {
            command: self.asked.command,
            path: self.asked.store,
            cause: Reason(fault),
        };
        let is_told = self.asked.is_verbose;
        let _ = print_why(self.rt.alloc(), self.err, is_told, &why);
    }
}
