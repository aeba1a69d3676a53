//! The lines of standard input, and the answers on standard output.

use crate::disks::DiskChange;
use std::io::Write;
use std::test::Fail;

/// The next line without its end, or nothing at the end of the input.
pub fn next_line(rt: &HostRuntime) -> Result<Option<String>, Fail> {
    let mut line = String::new(rt.alloc());
    if rt.read_line(&mut line)? == 0 {
        return Ok(None);
    }
    if line.ends_with('\n') {
        line.pop();
    }
    Ok(Some(line))
}

/// The first word of a line, and what follows it.
pub fn split(line: &str) -> (&str, &str) {
    line.split_once(' ').unwrap_or((line, ""))
}

/// The lines that are still to be answered.
#[derive(Drop)]
pub struct Input<'a> {
    pub rt: &'a HostRuntime,
    /// The next line.
    line: Option<String>,
}

impl<'a> Input<'a> {
    pub fn new(rt: &'a HostRuntime) -> Result<Input<'a>, Fail> {
        let line = next_line(rt)?;
        Ok(Input { rt, line })
    }

    pub fn is_at_end(&self) -> bool {
        self.line.is_none()
    }

    /// What the next line does to the files, if it is about these.
    pub fn change(&self) -> Option<DiskChange> {
        DiskChange::of(self.line.as_deref()?)
    }

    /// Whether the next line closes the database as a program does.
    pub fn closes(&self) -> bool {
        matches!(self.change(), Some(DiskChange::Reopen))
    }

    /// Takes the next line.
    pub fn take(&mut self) -> Result<String, Fail> {
        Ok(self.line.take().ok_or("no line")?)
    }

    /// Prints the answer to the line that was taken, and the dot below it, and reads the next line.
    pub fn answer(&mut self, mut text: String) -> Result<(), Fail> {
        text.push_str(".\n")?;
        self.rt.stdout().write_all(text.as_bytes())?;
        self.line = next_line(self.rt)?;
        Ok(())
    }
}
