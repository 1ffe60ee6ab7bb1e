//! A writer that says whether it failed, and keeps its error.
ghost use Rattle.std.specs.Prelude.{◌≡◌, ◌||◌, ◌++◌, ℕ, List, Option, false, true, not, IsTrue, ◌<◌, IfErr, IfOk, IfSome, None, OnOk, option_map};
ghost use Rattle.std.specs.Io.{WritesAtMost};
ghost use Rattle.std.specs.Io.KnownBytes.{Appends, Keeps, WriteAppends};
ghost use Rattle.uri_commands.specs.Prefixes.{AppendsPrefix};
ghost use Rattle.uri_commands.specs.Sinks.{IsFinal, IsFlushedUnlessPut, KeepsErrorOf, Call, Flushed, IsFailedFlush, IsFailedWrite, IsInterruptedWrite, KeepsFinalError, Wrote};

use std::io::{self, ErrorKind, Write};

/// A writer of which contracts know the last call. Each writer is one.
pub trait Traced: Write {
    /// The last call, with what it returned, if it is known.
    ghost last_call: { Self → Option Call } = { λ _. None };

    /// Writes some of the bytes by `write`, and returns how many.
    fn write_some(&mut self, bytes: &[u8]) -> io::Result<usize>
        ensures bound { WritesAtMost result bytes.now }
        ensures bytes { WriteAppends (Self.contents self.old) (Self.contents self.new) result
            bytes.now }
        ensures call { IfSome (last_call self.new) (λ call. call ≡ Wrote result) };

    /// Flushes the writer by `flush`.
    fn flush_once(&mut self) -> io::Result<()>
        ensures bytes { Keeps (Self.contents self.old) (Self.contents self.new) }
        ensures call { IfSome (last_call self.new) (λ call. call ≡ Flushed result) };
}

impl<W: Write> Traced for W {
    /// Writes some of the bytes by `write`, and returns how many.
    fn write_some(&mut self, bytes: &[u8]) -> io::Result<usize> {
        self.write(bytes)
    }

    /// Flushes the writer by `flush`.
    fn flush_once(&mut self) -> io::Result<()> {
        self.flush()
    }
}

/// A writer that says whether it failed, and keeps its error.
#[derive(Drop)]
pub struct Sink<W> {
    /// The writer that texts are written to.
    writer: W,
    /// Whether a write or a flush has failed.
    has_failed: bool,
    /// Whether nothing was written since the last flush, or at all.
    is_flushed: bool,
    /// Why a write or a flush failed, until that is asked for.
    error: Option<io::Error>,
}

impl<W: Traced> Sink<W> {
    /// Returns the writer, as one that has not failed and to which nothing was written.
    pub fn new(writer: W) -> Sink<W>
        ensures writer { result.writer ≡ writer }
        ensures failed { result.has_failed ≡ false }
        ensures flushed { result.is_flushed ≡ true }
        ensures error { result.error ≡ None }
    {
        Sink {
            writer,
            has_failed: false,
            is_flushed: true,
            error: None,
        }
    }

    /// Returns whether a write or a flush has failed.
    pub fn has_failed(&self) -> bool
        ensures { result ≡ self.now.has_failed }
    {
        self.has_failed
    }

    /// Returns why a write or a flush failed, if one did and `take_error` was not called since.
    pub fn error(&self) -> Option<&io::Error>
        ensures { option_map (λ error. error.now) result ≡ self.now.error }
    {
        self.error.as_ref()
    }

    /// Returns the writer that was given to `new`.
    pub fn into_inner(self) -> W
        ensures { result ≡ self.writer }
    {
        self.writer
    }

    /// Writes a text. Returns whether it was written whole. If it was not, the writer got a prefix
    /// of it, and `take_error` returns why.
    #[inline(always)]
    pub fn put(&mut self, text: &[u8]) -> bool
        ensures whole { IsTrue result
            → Appends (W.contents self.old.writer) (W.contents self.new.writer) text.now }
        ensures prefix { AppendsPrefix (W.contents self.old.writer) (W.contents self.new.writer)
            text.now }
        ensures failed { self.new.has_failed ≡ (not result || self.old.has_failed) }
        ensures error { result ≡ false → KeepsFinalError self.new.error }
        ensures cause { result ≡ false
            → IfSome (W.last_call self.new.writer) (IsFailedWrite self.new.error) }
        ensures flushed { IsFlushedUnlessPut self.old.is_flushed self.new.is_flushed text.now }
    {
        if text.is_empty() {
            return true;
        }
        self.is_flushed = false;
        match self.writer.write_some(text) {
            Ok(count) if count == text.len() => true,
            first => self.put_rest(first, text),
        }
    }

    /// Writes what the first write of a text left; `first` is what that write returned. Returns
    /// whether the text was written whole.
    #[cold]
    #[inline(never)]
    fn put_rest(&mut self, first: io::Result<usize>, text: &[u8]) -> bool
        requires { WritesAtMost first text.now }
        ensures whole { IsTrue result → (held : Option (List ℕ))
            → WriteAppends held (W.contents self.old.writer) first text.now
            → Appends held (W.contents self.new.writer) text.now }
        ensures prefix { (held : Option (List ℕ))
            → WriteAppends held (W.contents self.old.writer) first text.now
            → AppendsPrefix held (W.contents self.new.writer) text.now }
        ensures failed { self.new.has_failed ≡ (not result || self.old.has_failed) }
        ensures error { result ≡ false → KeepsFinalError self.new.error }
        ensures first { KeepsErrorOf first self.new.error }
        ensures cause { IfSome (W.last_call self.old.writer) (λ call. call ≡ Wrote first)
            → result ≡ false
            → IfSome (W.last_call self.new.writer) (IsFailedWrite self.new.error) }
        ensures flushed { self.new.is_flushed ≡ self.old.is_flushed }
    {
        match write_rest(&mut self.writer, first, text) {
            Ok(()) => true,
            Err(error) => self.fail(error),
        }
    }

    /// Keeps the error of a call that failed, and returns false.
    #[cold]
    #[inline(never)]
    fn fail(&mut self, error: io::Error) -> bool
        ensures failed { self.new.has_failed ≡ true }
        ensures error { self.new.error ≡ Some error }
        ensures writer { self.new.writer ≡ self.old.writer }
        ensures flushed { self.new.is_flushed ≡ self.old.is_flushed }
        ensures result { result ≡ false }
    {
        self.has_failed = true;
        self.error = Some(error);
        false
    }

    /// Returns why the writer failed: the error that was kept, if it was not taken before.
    #[cold]
    #[inline(never)]
    pub fn take_error(&mut self) -> io::Error
        ensures error { IfSome self.old.error (λ error. result ≡ error) }
        ensures writer { self.new.writer ≡ self.old.writer }
        ensures failed { self.new.has_failed ≡ self.old.has_failed }
        ensures flushed { self.new.is_flushed ≡ self.old.is_flushed }
    {
        match self.error.take() {
            Some(error) => error,
            None => io::Error::from(ErrorKind::Other),
        }
    }

    /// Flushes the writer. Returns whether that succeeded. If it did not, `take_error` returns why.
    pub fn flush(&mut self) -> bool
        ensures keeps { Keeps (W.contents self.old.writer) (W.contents self.new.writer) }
        ensures failed { self.new.has_failed ≡ (not result || self.old.has_failed) }
        ensures error { result ≡ false → KeepsFinalError self.new.error }
        ensures flushed { result ≡ true → self.new.is_flushed ≡ true }
        ensures reached { result ≡ true
            → IfSome (W.last_call self.new.writer) (λ call. call ≡ Flushed (Ok tt)) }
        ensures cause { result ≡ false
            → IfSome (W.last_call self.new.writer) (IsFailedFlush self.new.error) }
    {
        match flush_whole(&mut self.writer) {
            Ok(()) => {
                self.is_flushed = true;
                true
            }
            Err(error) => self.fail(error),
        }
    }
}

/// Flushes a writer, again if that was interrupted.
fn flush_whole<W: Traced>(writer: &mut W) -> io::Result<()>
    ensures keeps { Keeps (W.contents writer.old) (W.contents writer.new) }
    ensures ends { IfErr result IsFinal }
    ensures reached { OnOk result
        (IfSome (W.last_call writer.new) (λ call. call ≡ Flushed (Ok tt))) }
    ensures cause { IfErr result
        (λ error. IfSome (W.last_call writer.new) (IsFailedFlush (Some error))) }
{
    for tries in 0..u64::MAX {
        match writer.flush_once() {
            Err(error) if error.kind() == ErrorKind::Interrupted => {}
            outcome => return outcome,
        }
    }
    Err(io::Error::from(ErrorKind::Other))
}

/// Writes all of the bytes. If that fails, the writer got a prefix of them.
fn write_whole<W: Traced>(writer: &mut W, bytes: &[u8]) -> io::Result<()>
    ensures whole { OnOk result
        (Appends (W.contents writer.old) (W.contents writer.new) bytes.now) }
    ensures prefix { AppendsPrefix (W.contents writer.old) (W.contents writer.new) bytes.now }
    ensures ends { IfErr result IsFinal }
    ensures cause { IfErr result
        (λ error. IfSome (W.last_call writer.new) (IsFailedWrite (Some error))) }
{
    let mut rest = bytes;
    while !rest.is_empty() {
        let taken = write_retrying(writer, rest)?;
        rest = &rest[taken..];
    }
    Ok(())
}

/// Writes two texts, one after the other. Returns whether both were written whole.
#[inline(always)]
pub fn put_both<W: Traced>(writer: &mut Sink<W>, first: &[u8], second: &[u8]) -> bool
    ensures whole { IsTrue result → Appends (W.contents writer.old.writer)
        (W.contents writer.new.writer) (first.now ++ second.now) }
    ensures prefix { AppendsPrefix (W.contents writer.old.writer)
        (W.contents writer.new.writer) (first.now ++ second.now) }
    ensures failed { writer.new.has_failed ≡ (not result || writer.old.has_failed) }
    ensures error { result ≡ false → KeepsFinalError writer.new.error }
{
    writer.put(first) && writer.put(second)
}

/// Writes what the first write of the bytes left; `first` is what that write returned.
fn write_rest<W: Traced>(writer: &mut W, first: io::Result<usize>, bytes: &[u8]) -> io::Result<()>
    requires { WritesAtMost first bytes.now }
    ensures whole { OnOk result ((held : Option (List ℕ))
        → WriteAppends held (W.contents writer.old) first bytes.now
        → Appends held (W.contents writer.new) bytes.now) }
    ensures prefix { (held : Option (List ℕ))
        → WriteAppends held (W.contents writer.old) first bytes.now
        → AppendsPrefix held (W.contents writer.new) bytes.now }
    ensures ends { IfErr result IsFinal }
    ensures first { IfErr first (λ error. IsFinal error → result ≡ Err error) }
    ensures cause { IfSome (W.last_call writer.old) (λ call. call ≡ Wrote first)
        → IfErr result (λ error. IfSome (W.last_call writer.new) (IsFailedWrite (Some error))) }
{
    let taken = bytes_taken(first, bytes)?;
    write_whole(writer, &bytes[taken..])
}

/// Writes some of the bytes, again if that was interrupted. Returns how many the writer took.
fn write_retrying<W: Traced>(writer: &mut W, bytes: &[u8]) -> io::Result<usize>
    ensures bound { WritesAtMost result bytes.now }
    ensures some { IfOk result (λ taken. 0 < taken) }
    ensures bytes { WriteAppends (W.contents writer.old) (W.contents writer.new) result bytes.now }
    ensures ends { IfErr result IsFinal }
    ensures cause { IfErr result
        (λ error. IfSome (W.last_call writer.new) (IsFailedWrite (Some error))) }
{
    for tries in 0..u64::MAX {
        let outcome = writer.write_some(bytes);
        let taken = bytes_taken(outcome, bytes)?;
        if taken > 0 {
            return Ok(taken);
        }
    }
    Err(io::Error::from(ErrorKind::Other))
}

/// Returns how many bytes a write took, from what it returned: 0 if it was interrupted.
///
/// To take none without an interruption is the error `WriteZero`.
fn bytes_taken(outcome: io::Result<usize>, bytes: &[u8]) -> io::Result<usize>
    requires { WritesAtMost outcome bytes.now }
    ensures bound { WritesAtMost result bytes.now }
    ensures bytes { (held : Option (List ℕ)) → (held_new : Option (List ℕ))
        → WriteAppends held held_new outcome bytes.now
        → WriteAppends held held_new result bytes.now }
    ensures ends { IfErr result IsFinal }
    ensures error { IfErr outcome (λ error. IsFinal error → result ≡ Err error) }
    ensures failed { IfErr result (λ error. IsFailedWrite (Some error) (Wrote outcome)) }
    ensures again { IfOk result (λ taken. taken ≡ 0 → IsInterruptedWrite (Wrote outcome)) }
{
    match outcome {
        Ok(0) => Err(io::Error::from(ErrorKind::WriteZero)),
        Err(error) if error.kind() == ErrorKind::Interrupted => Ok(0),
        outcome => outcome,
    }
}
