//! Taking a folder of deposits.

use crate::run::Run;
use esc_arguments::{REFUSED, Stop, or_stop, read_body};
use esc_cli::{DONE, path_in, plain_files};
use esc_desk::{Desk, Verdict, number};
use esc_reports::{receipt_line, receipts_heading};
use sqlite::Alter;
use std::io::Write;

const NO_NUMBER: &str = "the name is not 1 to 64 of A-Z a-z 0-9 . _ -";

const TOO_LONG: &str = "it has over 16,777,216 bytes";

impl<N, O: Write, E: Write> Run<'_, N, O, E> {
    /// Takes every plain file of a folder in byte order of names, the name being the arrival's
    /// number, and prints the receipts report: its heading once the folder is listed, then a line
    /// for each arrival as it is answered. Returns the status.
    pub fn take_folder<S: Alter>(&mut self, desk: &mut Desk<S>, folder: &str) -> Result<u8, Stop> {
        let listing = or_stop(self.rt, folder, plain_files(self.rt, folder))?;
        self.print(&receipts_heading(self.rt.alloc())?)?;
        self.refuse_unnamed(listing.unnamed)?;
        let are_held = self.take_files(desk, folder, &listing.names)?;
        if listing.unnamed == 0 && are_held {
            Ok(DONE)
        } else {
            Ok(REFUSED)
        }
    }

    // Reports so many names that are not UTF-8, and so no numbers.
    fn refuse_unnamed(&mut self, count: usize) -> Result<(), Stop> {
        for _ in 0..count {
            self.print_refusal("N1", "(a name that is no UTF-8)", NO_NUMBER)?;
        }
        Ok(())
    }

    // Takes the files of these names, and says whether the deposits of all are held.
    fn take_files<S: Alter>(
        &mut self,
        desk: &mut Desk<S>,
        folder: &str,
        names: &[String],
    ) -> Result<bool, Stop> {
        let mut are_held = true;
        self.progress.begin(Some(names.len() as u64));
        for (count, name) in names.iter().enumerate() {
            self.progress.tell_read("take", count as u64, "files");
            are_held &= self.take_file(desk, folder, name.as_str())?;
        }
        Ok(are_held)
    }

    // Takes one file, and says whether its deposit is held. A name that is no number and a body
    // that is too long are reported, and are no arrivals.
    fn take_file<S: Alter>(
        &mut self,
        desk: &mut Desk<S>,
        folder: &str,
        name: &str,
    ) -> Result<bool, Stop> {
        let alloc = self.rt.alloc();
        let Ok(number) = number(name) else {
            self.print_refusal("N1", name, NO_NUMBER)?;
            return Ok(false);
        };
        let path = path_in(alloc, folder, name)?;
        let Some(body) = read_body(self.rt, path.as_str())? else {
            self.print_refusal("E2", name, TOO_LONG)?;
            return Ok(false);
        };
        let (reply, _work) = desk.arrive(alloc, &number, &body)?;
        self.print(&receipt_line(alloc, &reply)?)?;
        Ok(reply.verdict == Verdict::A1)
    }
}
