//! What the error of a run that fails is: that of the call that failed.
use crate::comparison::equal;
use crate::streams::{CAPACITY, with_defaults};
use fluent_uri::normalize::RuleSet;
use std::alloc::Global;
use std::io::{self, BufReader, ErrorKind, Read, Write};
use std::process::Abort;
use uri_commands::sink::Sink;
use uri_streams::command::{Command, KindName, LineCommand};
use uri_streams::failure::Failure;
use uri_streams::run::{Tally, Unwatched, run};
use uri_streams::source::Source;

/// Runs `normalize uri` over a reader and a writer. Returns how that ended, and the writer.
fn ended<R: Read + Drop, W: Write>(
    alloc: Global,
    input: R,
    output: W,
) -> (Result<Tally, Failure>, W) {
    let mut out = Sink::new(output);
    let reader = match BufReader::with_capacity(alloc, CAPACITY, input) {
        Ok(reader) => reader,
        Err(error) => return (Err(Failure::Input(error)), out.into_inner()),
    };
    let command = LineCommand::Normalize(KindName::Uri, RuleSet::DefaultPorts);
    let job = with_defaults(Command::Each(command));
    let mut err = Sink::new(Vec::new(alloc));
    let mut reader = Source::new(reader);
    let got = run(alloc, &job, &mut reader, &mut out, &mut err, &mut Unwatched);
    (got, out.into_inner())
}

/// Returns the kind of the error of a reader or a writer that ended a run.
fn failure_kind(got: &Result<Tally, Failure>) -> Option<ErrorKind> {
    match got {
        Err(Failure::Input(error)) => Some(error.kind()),
        Err(Failure::Output(error)) => Some(error.kind()),
        _ => None,
    }
}

/// A reader that is interrupted, and then fails.
#[derive(Drop)]
struct Denies {
    was_interrupted: bool,
}

impl Read for Denies {
    /// Is interrupted, and fails when the test reads again.
    fn read(&mut self, _: &mut [u8]) -> io::Result<usize> {
        if self.was_interrupted {
            return Err(io::Error::from(ErrorKind::PermissionDenied));
        }
        self.was_interrupted = true;
        Err(io::Error::from(ErrorKind::Interrupted))
    }
}

/// Tests that a run whose reader fails after an interruption has the reader's error, and wrote what
/// is of the lines before it.
#[test]
fn the_error_is_that_of_the_reader(rt: HostRuntime) {
    let input: &[u8] = b"HTTP://a/\nHTTP://b/\nx";
    for at in 0..input.len() {
        let reader = input[..at].chain(Denies {
            was_interrupted: false,
        });
        let (got, out) = ended(rt.alloc(), reader, Vec::new(rt.alloc()));
        equal(matches!(got, Err(Failure::Input(_))), true).expect(&rt, "read");
        equal(failure_kind(&got), Some(ErrorKind::PermissionDenied)).expect(&rt, "kind");
        let whole = input[..at].iter().filter(|&&byte| byte == b'\n').count();
        equal(out.len(), 10 * whole).expect(&rt, "output");
    }
}

/// A writer that takes so many bytes, and then fails.
#[derive(Drop)]
struct TakesThenFails(usize);

impl Write for TakesThenFails {
    /// Takes a part of what the test writes, or fails.
    fn write(&mut self, buf: &[u8]) -> io::Result<usize> {
        if self.0 == 0 {
            return Err(io::Error::from(ErrorKind::BrokenPipe));
        }
        let taken = buf.len().min(self.0);
        self.0 -= taken;
        Ok(taken)
    }

    /// Does nothing, since this writer of a test has no buffer.
    fn flush(&mut self) -> io::Result<()> {
        Ok(())
    }
}

/// Tests that a run whose writer takes a part and then fails has the writer's error.
#[test]
fn the_error_is_that_of_the_write_that_failed(rt: HostRuntime) {
    for taken in 0..9 {
        let input: &[u8] = b"HTTP://a/\n";
        let (got, _) = ended(rt.alloc(), input, TakesThenFails(taken));
        equal(failure_kind(&got), Some(ErrorKind::BrokenPipe)).expect(&rt, "kind");
    }
}

/// A writer that holds what it takes until a flush that is not interrupted.
#[derive(Drop)]
struct Holds {
    held: usize,
    passed: usize,
    was_interrupted: bool,
    fails: Option<ErrorKind>,
}

impl Write for Holds {
    /// Holds what the test writes.
    fn write(&mut self, buf: &[u8]) -> io::Result<usize> {
        self.held = self.held.saturating_add(buf.len());
        Ok(buf.len())
    }

    /// Passes on what the test wrote, or fails, after it was interrupted.
    fn flush(&mut self) -> io::Result<()> {
        self.was_interrupted = !self.was_interrupted;
        if self.was_interrupted {
            return Err(io::Error::from(ErrorKind::Interrupted));
        }
        if let Some(kind) = self.fails {
            return Err(io::Error::from(kind));
        }
        self.passed = self.passed.saturating_add(self.held);
        self.held = 0;
        Ok(())
    }
}

/// Tests that a run flushes its writer again after an interruption, and has the error of the flush
/// that failed.
#[test]
fn a_flush_is_made_again_or_fails(rt: HostRuntime) {
    for fails in [None, Some(ErrorKind::StorageFull)] {
        let writer = Holds {
            held: 0,
            passed: 0,
            was_interrupted: false,
            fails,
        };
        let input: &[u8] = b"HTTP://a/\nx:";
        let (got, out) = ended(rt.alloc(), input, writer);
        equal(failure_kind(&got), fails).expect(&rt, "kind");
        if fails.is_none() {
            equal((out.held, out.passed), (0, 13)).expect(&rt, "output");
        }
    }
}

/// A writer and a reader that are interrupted before each call that succeeds.
#[derive(Drop)]
struct Interrupted<T> {
    inner: T,
    is_next: bool,
}

impl<T> Interrupted<T> {
    /// Returns whether this call of a test of `urilines` is interrupted: each second one is not.
    fn interrupts(&mut self) -> bool {
        self.is_next = !self.is_next;
        self.is_next
    }
}

impl<R: Read> Read for Interrupted<R> {
    /// Reads the input of a test of `urilines`, and is interrupted before that.
    fn read(&mut self, buf: &mut [u8]) -> io::Result<usize> {
        if self.interrupts() {
            return Err(io::Error::from(ErrorKind::Interrupted));
        }
        self.inner.read(buf)
    }
}

impl<W: Write> Write for Interrupted<W> {
    /// Writes the output of a test of `urilines`, and is interrupted before that.
    fn write(&mut self, buf: &[u8]) -> io::Result<usize> {
        if self.interrupts() {
            return Err(io::Error::from(ErrorKind::Interrupted));
        }
        self.inner.write(buf)
    }

    /// Flushes the output of a test of `urilines`, and is interrupted before that.
    fn flush(&mut self) -> io::Result<()> {
        if self.interrupts() {
            return Err(io::Error::from(ErrorKind::Interrupted));
        }
        self.inner.flush()
    }
}

/// Tests that a run of `urilines` goes on after reads, writes and flushes that are interrupted.
#[test]
fn interrupted_calls_are_made_again(rt: HostRuntime) {
    let input: &[u8] = b"HTTP://a/\nHTTP://b/\nx:";
    let reader = Interrupted {
        inner: input,
        is_next: false,
    };
    let writer = Interrupted {
        inner: Vec::new(rt.alloc()),
        is_next: false,
    };
    let (got, out) = ended(rt.alloc(), reader, writer);
    equal(got.is_ok(), true).expect(&rt, "run");
    let wanted = b"http://a/\nhttp://b/\nx:\n".as_slice();
    equal(out.inner.as_slice(), wanted).expect(&rt, "output");
}
