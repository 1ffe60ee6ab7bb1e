//! Processing each line of an input.
ghost use Rattle.std.specs.Prelude.{◌≡◌, ◌||◌, ◌+◌, ◌-◌, ◌^◌, min, IfErr, IfOk, true, if◌then◌else◌, ◌∷◌, [], List, None, IfSome, OnOk, Option};
ghost use Rattle.std.specs.Io.KnownBytes.{Keeps};
ghost use Rattle.std.specs.Io.Buffered.{reader_remaining};
ghost use Rattle.uri_streams.specs.Causes.{HasFinalError, is_input, is_input_cause, is_output, is_output_cause, reading_failed, writing_failed};
ghost use Rattle.uri_streams.specs.declared.failure.Cause.{Cause};
ghost use Rattle.uri_streams.specs.Models.{FailsInWriting, IsStepOf, KeepsFailures};
ghost use Rattle.uri_streams.specs.Runs.{FailsAfterPrefix, LeavesRest, Sees, StopsAfterPrefix, WritesOutput, error_output_of};

use crate::failure::{Cause, Failure};
use crate::job::Job;
use crate::line_ends::{Line, line_end, line_ending};
use crate::lines::read_line;
use crate::output::{StepResult, write_line};
use crate::source::Source;
use crate::step::Step;
use crate::task::Task;
use std::alloc::Global;
use std::io::{Read, Write};
use uri_commands::sink::Sink;

/// How many lines of an input were processed, and how many of them were errors.
#[derive(Clone, Copy, Debug)]
pub struct Tally {
    /// How many lines were processed.
    pub lines: u64,
    /// How many of the lines were errors.
    pub errors: u64,
}

/// An observer of a run, which sees its tally after each line.
pub trait Watch {
    ghost use Rattle.uri_streams.specs.Runs.{Sees};
    ghost use Rattle.uri_streams.specs.declared.run.Tally.{Tally};

    /// The tallies that it saw, if they are known.
    ghost seen: { Self → Option (List Tally) } = { λ _. None };

    /// Sees the tally of a run after a line.
    fn see(&mut self, tally: Tally)
        ensures { Sees (seen self.old) (seen self.new) (tally ∷ []) };
}

/// An observer of a run that does nothing.
#[derive(Drop)]
pub struct Unwatched;

impl Watch for Unwatched {
    /// Ignores the tally of a run.
    fn see(&mut self, _: Tally) {}
}

/// Processes each line of an input in order, until it ends, or `OnError::Stop` ends it. Returns how
/// many lines it processed, and how many of them were errors.
///
/// The writer is flushed before the reader is asked for more than it has buffered, and at the end.
/// The reader is left with what is after the lines that were processed.
/// A message for the error output begins with the number of its line; a failing `err` changes
/// nothing else. `watch` sees the tally after each line.
///
/// # Errors
///
/// If the reader or the writer fails, or allocation fails. The writer got a prefix of the output;
/// if the reader failed, it got the output of all lines that were read whole.
pub fn run<R: Read, W: Write, E: Write, V: Watch>(
    alloc: Global,
    job: &Job<'_>,
    reader: &mut Source<R>,
    writer: &mut Sink<W>,
    err: &mut Sink<E>,
    watch: &mut V,
) -> Result<Tally, Failure>
    ensures output { IfOk result (WritesOutput job.now
        (reader_remaining R.remaining reader.old.reader) (W.contents writer.old.writer)
        (W.contents writer.new.writer) (error_output_of E.contents err.old)
        (error_output_of E.contents err.new) (V.seen watch.old) (V.seen watch.new)) }
    ensures stops { IfErr result
        (FailsAfterPrefix job.now (reader_remaining R.remaining reader.old.reader)
        (reader_remaining R.remaining reader.new.reader) (W.contents writer.old.writer)
        (W.contents writer.new.writer) (error_output_of E.contents err.old)
        (error_output_of E.contents err.new)) }
    ensures left { OnOk result (LeavesRest job.now
        (reader_remaining R.remaining reader.old.reader)
        (reader_remaining R.remaining reader.new.reader)) }
    ensures flushed { OnOk result (writer.new.is_flushed ≡ true) }
    // A call that is interrupted is made again.
    ensures error { IfErr result HasFinalError }
    // The failure is of what failed, and nothing that failed is passed over.
    ensures reading { reader.new.has_failed ≡ (reading_failed result || reader.old.has_failed) }
    ensures writing { writer.new.has_failed ≡ (writing_failed result || writer.old.has_failed) }
{
    match process_lines(alloc, job, reader, writer, err, watch) {
        Ok(tally) => Ok(tally),
        Err(cause) => Err(failure(cause, reader, writer)),
    }
}

/// Processes each line of an input in order, as `run` does. If that fails, returns what failed,
/// which keeps the error.
fn process_lines<R: Read, W: Write, E: Write, V: Watch>(
    alloc: Global,
    job: &Job<'_>,
    reader: &mut Source<R>,
    writer: &mut Sink<W>,
    err: &mut Sink<E>,
    watch: &mut V,
) -> Result<Tally, Cause>
    ensures output { IfOk result (WritesOutput job.now
        (reader_remaining R.remaining reader.old.reader) (W.contents writer.old.writer)
        (W.contents writer.new.writer) (error_output_of E.contents err.old)
        (error_output_of E.contents err.new) (V.seen watch.old) (V.seen watch.new)) }
    ensures stops { IfErr result (λ cause. StopsAfterPrefix job.now
        (reader_remaining R.remaining reader.old.reader)
        (reader_remaining R.remaining reader.new.reader) (W.contents writer.old.writer)
        (W.contents writer.new.writer) (error_output_of E.contents err.old)
        (error_output_of E.contents err.new) (is_input_cause cause)) }
    ensures left { OnOk result (LeavesRest job.now
        (reader_remaining R.remaining reader.old.reader)
        (reader_remaining R.remaining reader.new.reader)) }
    ensures flushed { OnOk result (writer.new.is_flushed ≡ true) }
    ensures failures { KeepsFailures result reader.old reader.new writer.old writer.new }
{
    let mut task = Task::new(alloc, job.command);
    let mut line = Vec::new(alloc);
    let mut tally = Tally {
        lines: 0,
        errors: 0,
    };
    let mut number = 0u64;
    while number < u64::MAX {
        let before = Step {
            alloc,
            job: &*job,
            before: number,
        };
        let step = process_line(before, &mut task, reader, writer, err, &mut line)?;
        tally.count(step);
        show_tally(watch, step, tally);
        if step.is_last {
            return flushed(writer, tally);
        }
        number += 1;
    }
    Err(reader.fail_too_many_reads(number))
}

/// Shows the observer of a run the tally after a step, if that processed a line.
#[inline(always)]
fn show_tally<V: Watch>(watch: &mut V, step: StepResult, tally: Tally)
    ensures { Sees (V.seen watch.old) (V.seen watch.new)
        (if step.is_line then tally ∷ [] else []) }
{
    if step.is_line {
        watch.see(tally);
    }
}

/// Flushes the writer at the end of a run, and returns the tally of the run.
fn flushed<W: Write>(writer: &mut Sink<W>, tally: Tally) -> Result<Tally, Cause>
    ensures keeps { Keeps (W.contents writer.old.writer) (W.contents writer.new.writer) }
    ensures flushed { OnOk result (writer.new.is_flushed ≡ true) }
    ensures tally { IfOk result (λ same. same ≡ tally) }
    ensures cause { IfErr result (λ cause. cause ≡ Cause.Output) }
    ensures failures { FailsInWriting result writer.old writer.new }
{
    if writer.flush() {
        Ok(tally)
    } else {
        Err(Cause::Output)
    }
}

/// Returns the failure of a run for what failed, with the error that the reader or the writer kept.
#[cold]
#[inline(never)]
fn failure<R: Read, W: Write>(cause: Cause, reader: &mut Source<R>, writer: &mut Sink<W>) -> Failure
    ensures reader { reader.new.reader ≡ reader.old.reader }
    ensures writer { writer.new.writer ≡ writer.old.writer }
    ensures read { reader.new.has_failed ≡ reader.old.has_failed }
    ensures written { writer.new.has_failed ≡ writer.old.has_failed }
    ensures input { is_input result ≡ is_input_cause cause }
    ensures output { is_output result ≡ is_output_cause cause }
    ensures read_error { cause ≡ Cause.Input
        → IfSome reader.old.error (λ error. result ≡ Failure.Input error) }
    ensures write_error { cause ≡ Cause.Output
        → IfSome writer.old.error (λ error. result ≡ Failure.Output error) }
    ensures flushed { writer.new.is_flushed ≡ writer.old.is_flushed }
{
    match cause {
        Cause::Input => Failure::Input(reader.take_error()),
        Cause::Output => Failure::Output(writer.take_error()),
        Cause::OutOfMemory => Failure::OutOfMemory,
    }
}

impl Tally {
    /// Adds a step of a run to the tally: its line, if there was one, and whether that was an
    /// error.
    #[inline(always)]
    fn count(&mut self, step: StepResult)
        ensures lines { self.new.lines
            ≡ min (self.old.lines + (if step.is_line then 1 else 0)) (2 ^ 64 - 1) }
        ensures errors { self.new.errors
            ≡ min (self.old.errors + (if step.is_error then 1 else 0)) (2 ^ 64 - 1) }
    {
        self.lines = self.lines.saturating_add(step.is_line as u64);
        self.errors = self.errors.saturating_add(step.is_error as u64);
    }
}

/// Processes the next line of an input: in the buffer, if it is whole there.
#[inline(always)]
fn process_line<R: Read, W: Write, E: Write>(
    step: Step<'_>,
    task: &mut Task<'_>,
    reader: &mut Source<R>,
    writer: &mut Sink<W>,
    err: &mut Sink<E>,
    parts: &mut Vec<u8>,
) -> Result<StepResult, Cause>
    ensures { IsStepOf step.entry.job.now step.entry.before R.remaining W.contents E.contents
        task.old task.new reader.old reader.new writer.old writer.new err.old err.new result }
{
    let Some(line) = reader.buffered_line(step.job.is_null) else {
        return process_parts(step, task, reader, writer, err, parts);
    };
    let count = line.bytes.len();
    let written = write_line(step, task, line, writer, err);
    reader.skip(count);
    written
}

/// Reads the next line of an input in parts, and writes its output.
#[cold]
#[inline(never)]
fn process_parts<R: Read, W: Write, E: Write>(
    step: Step<'_>,
    task: &mut Task<'_>,
    reader: &mut Source<R>,
    writer: &mut Sink<W>,
    err: &mut Sink<E>,
    line: &mut Vec<u8>,
) -> Result<StepResult, Cause>
    ensures { IsStepOf step.entry.job.now step.entry.before R.remaining W.contents E.contents
        task.old task.new reader.old reader.new writer.old writer.new err.old err.new result }
{
    let is_null = step.job.is_null;
    let limit = step.job.max_line as usize + 3;
    match read_line(reader, writer, line_ending(is_null), limit, line)? {
        Some(is_return) => {
            let line = Line {
                end: line_end(is_null, is_return),
                ..Line::new(is_null, false, line.as_slice())
            };
            write_line(step, task, line, writer, err)
        }
        None => Ok(StepResult {
            is_line: false,
            is_error: false,
            is_last: true,
        }),
    }
}
