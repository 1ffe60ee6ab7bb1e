//! A writer that knows what it should get.
use std::io::{self, Write};

/// Compares what it takes with the expected text, and does not allocate.
#[derive(Drop)]
pub struct ExpectedOutput<'a> {
    rest: &'a [u8],
    is_other: bool,
}

impl<'a> ExpectedOutput<'a> {
    /// Returns a writer for tests of denied memory, which compares what it gets with this text.
    pub fn new(text: &'a str) -> ExpectedOutput<'a> {
        ExpectedOutput {
            rest: text.as_bytes(),
            is_other: false,
        }
    }

    /// Returns whether a test of denied memory got the expected text but for an end as long as
    /// this.
    pub fn lacks(&self, text: &str) -> bool {
        !self.is_other && self.rest.len() == text.len()
    }

    /// Returns whether a test of denied memory got a prefix of the expected text.
    pub fn got_prefix(&self) -> bool {
        !self.is_other
    }
}

impl Write for ExpectedOutput<'_> {
    /// Compares what a run with denied memory writes with the expected text, and does not allocate.
    fn write(&mut self, buf: &[u8]) -> io::Result<usize> {
        match self.rest.strip_prefix(buf) {
            Some(rest) => self.rest = rest,
            None => self.is_other = true,
        }
        Ok(buf.len())
    }

    /// Does nothing, since this writer for tests of denied memory has no buffer.
    fn flush(&mut self) -> io::Result<()> {
        Ok(())
    }
}
