//! How far a run is, on the error output.

use std::io::IsTerminal;
use std::time::{Duration, Instant};
use uri_streams::run::{Tally, Watch};

/// Reports on the error output how far a run is, once a second and at the end.
#[derive(Drop)]
pub struct Progress<'a> {
    /// The runtime, which has the clock and the error output.
    rt: &'a HostRuntime,
    /// When the run began, if the clock could be read.
    start: Option<Instant>,
    /// Whether the error output is a terminal.
    is_terminal: bool,
    /// Whether the command line has `--progress`.
    is_asked: bool,
    /// In which second of the run the last report was written.
    last_second: u64,
}

impl<'a> Progress<'a> {
    /// Returns the progress of a run that begins now. Where it is not asked for (`--progress`), it
    /// only has the count at the end, on a terminal.
    pub fn new(rt: &'a HostRuntime, is_asked: bool) -> Progress<'a> {
        Progress {
            rt,
            start: Instant::now(rt).ok(),
            is_terminal: rt.stderr().is_terminal(),
            is_asked,
            last_second: 0,
        }
    }

    /// Writes the report at the end of a run: how many lines there were, how many of them were
    /// errors, and how many a second.
    pub fn end(&self, tally: Tally) {
        if !self.is_asked && !self.is_terminal {
            return;
        }
        let Tally { lines, errors } = tally;
        let each = lines.saturating_mul(1000) / self.milliseconds().max(1);
        let _ = eprintln!(self.rt;
            "{}{lines} lines, {errors} errors, {each} lines a second",
            self.line_prefix()
        );
    }

    /// Returns what a line of the report begins with: on a terminal `\r`, so that it replaces the
    /// line before.
    fn line_prefix(&self) -> &'static str {
        if self.is_terminal { "\r" } else { "" }
    }

    /// Returns how many milliseconds the run has taken, or 0 if the clock could not be read.
    fn milliseconds(&self) -> u64 {
        let elapsed = match self.start {
            Some(start) => start.elapsed(self.rt).unwrap_or(Duration::ZERO),
            None => Duration::ZERO,
        };
        elapsed
            .as_secs()
            .saturating_mul(1000)
            .saturating_add(elapsed.subsec_millis() as u64)
    }
}

impl<'a> Watch for Progress<'a> {
    /// Writes a report of the tally, if `--progress` asks for it and a second has begun since the
    /// last one. The clock is read after each line then, since the next may be long in coming.
    fn see(&mut self, tally: Tally) {
        if !self.is_asked {
            return;
        }
        let second = self.milliseconds() / 1000;
        if second == self.last_second {
            return;
        }
        self.last_second = second;
        let Tally { lines, errors } = tally;
        let end = if self.is_terminal { "" } else { "\n" };
        let _ = eprint!(self.rt; "{}{lines} lines, {errors} errors{end}", self.line_prefix());
    }
}
