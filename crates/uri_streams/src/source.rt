//! A reader that says whether it failed.
ghost use Rattle.std.specs.Prelude.{◌≡◌, ◌≢◌, ◌-◌, ◌<◌, ◌≤◌, ◌++◌, ◌||◌, ℕ, List, All, IfErr, IfOk, IfSome, IsTrue, None, OnErr, OnSome, Some, length, slice_index, true, false, [], ◌↔◌, ◌&&◌, ◌+◌, ◌^◌, ◌==◌, nat_le, not, take};
ghost use Rattle.std.specs.Int.{bit_at};
ghost use Rattle.std.specs.IoError.{error_kind};
ghost use Rattle.uri_pct.specs.Prelude.{IsLongestRun};
ghost use Rattle.std.specs.Io.{StopsAt, IsEmptyOrEndsWith};
ghost use Rattle.std.specs.Io.BufRead.{DropsConsumable};
ghost use Rattle.std.specs.Io.Buffered.{reader_buffer, reader_remaining};
ghost use Rattle.std.specs.Io.KnownBytes.{Consumes, IsAtEnd, Keeps};
ghost use Rattle.uri_commands.specs.Sinks.{KeepsFinalError};
ghost use Rattle.uri_streams.specs.Causes.{caused_by_input, caused_by_output, is_input_cause, is_output_cause};
ghost use Rattle.uri_streams.specs.Lines.{end_byte, has_return, return_after};
ghost use Rattle.uri_streams.specs.Models.{IsBufferedLine, IsCutLine, IsFlushedIfDrained};
ghost use Rattle.uri_streams.specs.Outputs as outputs;

use crate::failure::Cause;
use crate::line_ends::{Line, ends_with, line_ending, strip_last_byte};
use memchr::memchr;
use std::io::{self, BufRead, BufReader, ErrorKind, Read};
use std::simd::prelude::*;
use uri_commands::sink::Sink;
use uri_pct::lanes::LANES;

/// A buffered reader that says whether it failed, and keeps its error.
#[derive(Drop)]
pub struct Source<R> {
    /// The buffered reader that lines are read from.
    reader: BufReader<R>,
    /// Whether a read has failed, or there were too many.
    has_failed: bool,
    /// Why the reader failed, until that is asked for.
    error: Option<io::Error>,
}

impl<R: Read> Source<R> {
    /// Returns the reader, as one that has not failed.
    pub fn new(reader: BufReader<R>) -> Source<R>
        ensures reader { result.reader ≡ reader }
        ensures failed { result.has_failed ≡ false }
        ensures error { result.error ≡ None }
    {
        Source {
            reader,
            has_failed: false,
            error: None,
        }
    }

    /// Returns whether a read has failed, or there were too many.
    pub fn has_failed(&self) -> bool
        ensures { result ≡ self.now.has_failed }
    {
        self.has_failed
    }

    /// Returns whether the reader has nothing buffered, so that the next read may wait.
    pub(crate) fn is_drained(&self) -> bool
        ensures { IsTrue result ↔ (reader_buffer self.now.reader ≡ []) }
    {
        self.reader.buffer().is_empty()
    }

    /// Returns the first line that is buffered, with its end, if it is buffered whole. NUL ends it
    /// if `is_null`, and otherwise a newline.
    #[inline(always)]
    pub(crate) fn buffered_line(&self, is_null: bool) -> Option<Line<'_>>
        ensures line { IfSome result (λ line.
            IsBufferedLine (end_byte is_null) (reader_buffer self.now.reader) line.bytes.now) }
        ensures cut { IfSome result (IsCutLine is_null) }
        ensures end { IfSome result (λ line.
            line.end.now ≡ outputs.line_ending is_null (has_return is_null line.bytes.now)) }
    {
        let bytes = self.reader.buffer();
        let end = line_ending(is_null);
        if bytes.len() >= LANES {
            let index = run_before(end, bytes);
            if index < bytes.len() && bytes[index] == end {
                return Some(Line::ended(is_null, true, &bytes[..index + 1]));
            }
        }
        match memchr(end, bytes) {
            Some(index) => Some(Line::ended(is_null, false, &bytes[..index + 1])),
            None => None,
        }
    }

    /// Passes over the first `count` bytes that are buffered.
    #[inline(always)]
    pub(crate) fn skip(&mut self, count: usize)
        ensures bytes { DropsConsumable (reader_remaining R.remaining self.old.reader)
            (reader_remaining R.remaining self.new.reader)
            (Some (length (reader_buffer self.old.reader))) count }
        ensures failed { self.new.has_failed ≡ self.old.has_failed }
    {
        self.reader.consume(count);
    }

    /// Marks the reader as failed, and returns the cause: there were so many reads of one line, or
    /// lines of one input, that a `u64` counts no more.
    pub(crate) fn fail_too_many_reads(&mut self, count: u64) -> Cause
        requires { count ≡ 2 ^ 64 - 1 }
        ensures failed { self.new.has_failed ≡ true }
        ensures kept { self.new.reader ≡ self.old.reader }
        ensures input { is_input_cause result ≡ true }
        ensures output { is_output_cause result ≡ false }
        ensures error { KeepsFinalError self.new.error }
    {
        self.fail(io::Error::from(ErrorKind::Other))
    }

    /// Marks the reader as failed, keeps its error, and returns the cause.
    #[cold]
    #[inline(never)]
    fn fail(&mut self, error: io::Error) -> Cause
        ensures failed { self.new.has_failed ≡ true }
        ensures kept { self.new.reader ≡ self.old.reader }
        ensures error { self.new.error ≡ Some error }
        ensures cause { result ≡ Cause.Input }
    {
        self.has_failed = true;
        self.error = Some(error);
        Cause::Input
    }

    /// Returns why the reader failed: the error that was kept, if it was not taken before.
    #[cold]
    #[inline(never)]
    pub(crate) fn take_error(&mut self) -> io::Error
        ensures error { IfSome self.old.error (λ error. result ≡ error) }
        ensures kept { self.new.reader ≡ self.old.reader }
        ensures failed { self.new.has_failed ≡ self.old.has_failed }
    {
        match self.error.take() {
            Some(error) => error,
            None => io::Error::from(ErrorKind::Other),
        }
    }

    /// Returns what a read took of a line where it returned an error: nothing if it was
    /// interrupted. Any other error is the reader's, which is kept.
    #[cold]
    #[inline(never)]
    fn part_after_error(&mut self, error: io::Error, was_return: bool) -> Result<LinePart, Cause>
        ensures again { IfOk result (λ part. (error_kind error ≡ ErrorKind.Interrupted)
            × (part.count ≡ 0) × (part.is_last ≡ false) × (part.is_return ≡ was_return)) }
        ensures failed { IfErr result (λ cause. (error_kind error ≢ ErrorKind.Interrupted)
            × (cause ≡ Cause.Input) × (self.new.error ≡ Some error)) }
        ensures kept { self.new.reader ≡ self.old.reader }
        ensures flag { self.new.has_failed ≡ (caused_by_input result || self.old.has_failed) }
    {
        if error.kind() == ErrorKind::Interrupted {
            return Ok(LinePart {
                count: 0,
                is_last: false,
                is_return: was_return,
            });
        }
        Err(self.fail(error))
    }

    /// Reads a part of a line: what is buffered, up to and including the first `end`. Appends it to
    /// `line` as far as the limit. `was_return` says whether a `\r` ends what was read before.
    /// Since the reader may wait if it has nothing buffered, the writer, `flushed`, must be flushed
    /// then.
    pub(crate) fn take_part<W>(
        &mut self,
        flushed: &Sink<W>,
        end: u8,
        limit: usize,
        was_return: bool,
        line: &mut Vec<u8>,
    ) -> Result<LinePart, Cause>
        requires { IsFlushedIfDrained self.old.reader flushed.now.is_flushed }
        ensures taken { IfOk result (λ part. (bs : List ℕ) × (length bs ≡ part.count)
            × (line.new.items ≡ line.old.items ++ take (limit - length line.old.items) bs)
            × StopsAt bs end
            × Consumes (reader_remaining R.remaining self.old.reader)
            (reader_remaining R.remaining self.new.reader) bs
            × (part.is_last ≢ true → All (λ x. x ≢ end) bs)
            × (part.is_last ≡ true → IsEmptyOrEndsWith bs end)
            × (part.is_last ≡ true → length bs ≡ 0 → OnSome
            (reader_remaining R.remaining self.old.reader)
            (IsAtEnd (reader_remaining R.remaining self.new.reader)))
            × (part.is_return ≡ return_after end was_return bs)) }
        ensures kept { OnErr result (Keeps (reader_remaining R.remaining self.old.reader)
            (reader_remaining R.remaining self.new.reader)) }
        ensures failed { self.new.has_failed ≡ (caused_by_input result || self.old.has_failed) }
        ensures writing { caused_by_output result ≡ false }
        ensures error { caused_by_input result ≡ true → KeepsFinalError self.new.error }
    {
        let available = match self.reader.fill_buf() {
            Ok(available) => available,
            Err(error) => return self.part_after_error(error, was_return),
        };
        let count = count_through(available, end);
        let kept = count.min(limit.saturating_sub(line.len()));
        line.extend_from_slice(&available[..kept])?;
        let is_last = count == 0 || available[count - 1] == end;
        let is_return = is_return_after(end, was_return, &available[..count]);
        self.reader.consume(count);
        Ok(LinePart {
            count,
            is_last,
            is_return,
        })
    }
}

/// Returns how many bytes are ASCII and not this one, up to the first that is not or is. As in
/// `run_end` of `uri_pct` the last sixteen bytes are scanned again at the end.
#[inline(always)]
fn run_before(end: u8, bytes: &[u8]) -> usize
    requires { LANES ≤ length bytes.now }
    ensures { IsLongestRun (λ b. not (nat_le 128 b) && not (b == end)) bytes.now 0 result }
{
    let len = bytes.len();
    let mut i = 0;
    while len - i > LANES {
        let mask = lanes_outside(end, bytes, i);
        if mask != 0 {
            return i + mask.trailing_zeros() as usize;
        }
        i += LANES;
    }
    let last = len - LANES;
    let tail = lanes_outside(end, bytes, last);
    let mask = tail >> (i - last);
    if mask == 0 {
        return len;
    }
    i + mask.trailing_zeros() as usize
}

/// Returns which of the sixteen bytes from `at` on are this one or are not ASCII.
#[inline(always)]
fn lanes_outside(end: u8, bytes: &[u8], at: usize) -> u64
    requires { at + LANES ≤ length bytes.now }
    ensures below { result < 2 ^ 16 }
    ensures lane { (k : ℕ) → k < 16 → (bit_at result k == 1)
        ≡ not (not (nat_le 128 (slice_index bytes.now (at + k)))
        && not (slice_index bytes.now (at + k) == end)) }
{
    let lanes = u8x16::from_slice(&bytes[at..]);
    let past_ascii = lanes.simd_ge(u8x16::splat(128)).to_bitmask();
    past_ascii | lanes.simd_eq(u8x16::splat(end)).to_bitmask()
}

/// What a read took of a line: how many bytes, and whether they end the line.
#[derive(Clone, Copy)]
pub(crate) struct LinePart {
    /// How many bytes the part has.
    pub count: usize,
    /// Whether the part ends the line, or the input.
    pub is_last: bool,
    /// Whether a `\r` is before the end of the line, or last in what was read of it so far.
    pub is_return: bool,
}

/// Returns whether a `\r` is last in what was read of a line, before its `end` byte if that was
/// read. `was_return` is whether it was last before this part was read.
fn is_return_after(end: u8, was_return: bool, part: &[u8]) -> bool
    ensures { result ≡ return_after end was_return part.now }
{
    let bytes = strip_last_byte(end, part);
    if bytes.is_empty() {
        was_return
    } else {
        ends_with(b'\r', bytes)
    }
}

/// Returns the length of the bytes up to and including the first `byte`, or of all if it is not
/// there.
fn count_through(bytes: &[u8], byte: u8) -> usize
    ensures bound { result ≤ length bytes.now }
    ensures some { 0 < length bytes.now → 0 < result }
    ensures before { All (λ x. x ≢ byte) (take (result - 1) bytes.now) }
{
    match memchr(byte, bytes) {
        Some(index) => index + 1,
        None => bytes.len(),
    }
}
