//! Writing the output of a line.
ghost use Rattle.std.specs.Prelude.{◌≡◌, ◌||◌, ◌++◌, ◌+◌, IfErr, IfOk, OnOk, string_bytes, ◌&&◌, IsTrue, false, not, true};
ghost use Rattle.std.specs.Io.KnownBytes.{Appends};
ghost use Rattle.uri_commands.specs.Prefixes.{AppendsPrefix};
ghost use Rattle.uri_streams.specs.Outputs.{error_output, error_report, is_stop, result_output, reported_error, result_report};
ghost use Rattle.uri_streams.specs.Returned.{result_in, line_error_message};
ghost use Rattle.uri_streams.specs.Models.{FailsInWriting, IsCutLine, WritesLineOutput, WritesOutputPrefix, WritesResult};
ghost use Rattle.uri_streams.specs.Runs.{Reports, ReportsPrefix, error_output_of};
ghost use Rattle.uri_commands.specs.Sinks.{KeepsFinalError};

use crate::cut::{Cut, line_cut};
use crate::failure::Cause;
use crate::fault::LineError;
use crate::job::OnError;
use crate::line_ends::Line;
use crate::line_result::LineResult;
use crate::step::Step;
use crate::task::Task;
use std::alloc::{AllocError, Global};
use std::io::Write;
use uri_commands::sink::{Sink, put_both};

/// What a step of a run did: whether there was a line, whether it was an error, and whether the run
/// ends with it.
#[derive(Clone, Copy)]
pub(crate) struct StepResult {
    /// Whether there was a line, and not the end of the input.
    pub is_line: bool,
    /// Whether the line was an error.
    pub is_error: bool,
    /// Whether the run ends with this step.
    pub is_last: bool,
}

/// Writes the output of the line of a step.
#[inline(always)]
pub(crate) fn write_line<W: Write, E: Write>(
    step: Step<'_>,
    task: &mut Task<'_>,
    line: Line<'_>,
    writer: &mut Sink<W>,
    err: &mut Sink<E>,
) -> Result<StepResult, Cause>
    requires { IsCutLine step.job.now.is_null line }
    ensures whole { IfOk result (WritesLineOutput step.entry.job.now (step.entry.before + 1)
        task.old line.entry.bytes.now line.entry.end.now (W.contents writer.old.writer)
        (W.contents writer.new.writer)
        (error_output_of E.contents err.old) (error_output_of E.contents err.new) task.new) }
    ensures prefix { IfErr result (WritesOutputPrefix step.entry.job.now (step.entry.before + 1)
        task.old line.entry.bytes.now line.entry.end.now (W.contents writer.old.writer)
        (W.contents writer.new.writer)
        (error_output_of E.contents err.old) (error_output_of E.contents err.new)) }
    ensures failures { FailsInWriting result writer.old writer.new }
{
    if step.job.field.is_some() || line.text.len() > step.job.max_line as usize {
        return write_cut(step, task, line, writer, err);
    }
    let line_result = task.bytes_result(step.alloc, step.job, line.text, line.is_ascii)?;
    let around = Around {
        line: line.bytes,
        before: b"",
        after: b"",
        end: line.end,
    };
    write_result(step, line_result, around, writer, err)
}

/// Writes the output of a line that `line_cut` cuts: the command gets one field of it, or it may be
/// too long.
#[cold]
#[inline(never)]
fn write_cut<W: Write, E: Write>(
    step: Step<'_>,
    task: &mut Task<'_>,
    line: Line<'_>,
    writer: &mut Sink<W>,
    err: &mut Sink<E>,
) -> Result<StepResult, Cause>
    requires { IsCutLine step.job.now.is_null line }
    ensures whole { IfOk result (WritesLineOutput step.entry.job.now (step.entry.before + 1)
        task.old line.entry.bytes.now line.entry.end.now (W.contents writer.old.writer)
        (W.contents writer.new.writer)
        (error_output_of E.contents err.old) (error_output_of E.contents err.new) task.new) }
    ensures prefix { IfErr result (WritesOutputPrefix step.entry.job.now (step.entry.before + 1)
        task.old line.entry.bytes.now line.entry.end.now (W.contents writer.old.writer)
        (W.contents writer.new.writer)
        (error_output_of E.contents err.old) (error_output_of E.contents err.new)) }
    ensures failures { FailsInWriting result writer.old writer.new }
{
    let Cut {
        before,
        text,
        after,
    } = line_cut(step.job, line.text);
    let line_result = task.result_for(step.alloc, step.job, text)?;
    let around = Around {
        line: line.bytes,
        before,
        after,
        end: line.end,
    };
    write_result(step, line_result, around, writer, err)
}

/// Returns whether a line that is an error ends the run, as `--errors stop` asks.
#[inline(always)]
fn stops_at_error(errors: OnError) -> bool
    ensures { result ≡ is_stop errors }
{
    matches!(errors, OnError::Stop)
}

/// A line, and what is before and after its result in the output.
#[derive(Clone, Copy)]
struct Around<'a> {
    /// The line as it is in the input, with what ends it.
    line: &'a [u8],
    /// The fields before the one that the command gets, each with its delimiter.
    before: &'a [u8],
    /// The fields after the one that the command gets, each after a delimiter.
    after: &'a [u8],
    /// What ends the output of the line.
    end: &'a [u8],
}

/// Writes the result of a line, with what is around it, or the line itself.
#[inline(always)]
fn write_result<W: Write, E: Write>(
    step: Step<'_>,
    line_result: LineResult<'_>,
    around: Around<'_>,
    writer: &mut Sink<W>,
    err: &mut Sink<E>,
) -> Result<StepResult, Cause>
    ensures whole { IfOk result (WritesResult step.entry.job.now.errors (step.entry.before + 1)
        around.entry.line.now around.entry.before.now (result_in line_result.entry)
        (around.entry.after.now ++ around.entry.end.now)
        (W.contents writer.old.writer) (W.contents writer.new.writer)
        (error_output_of E.contents err.old) (error_output_of E.contents err.new)) }
    ensures prefix { AppendsPrefix (W.contents writer.old.writer)
        (W.contents writer.new.writer) (result_output step.entry.job.now.errors
        around.entry.line.now around.entry.before.now (result_in line_result.entry)
        (around.entry.after.now ++ around.entry.end.now)) }
    ensures reports { ReportsPrefix (error_output_of E.contents err.old)
        (error_output_of E.contents err.new)
        (result_report step.entry.job.now.errors (step.entry.before + 1)
        (result_in line_result.entry)) }
    ensures failures { FailsInWriting result writer.old writer.new }
{
    match line_result {
        LineResult::Text(text) => {
            if put_around(writer, text.as_bytes(), around) {
                Ok(StepResult::of_line(false, step.job.errors))
            } else {
                Err(Cause::Output)
            }
        }
        LineResult::Borrowed(text) => {
            if put_around(writer, text.as_bytes(), around) {
                Ok(StepResult::of_line(false, step.job.errors))
            } else {
                Err(Cause::Output)
            }
        }
        LineResult::Unchanged => {
            if writer.put(around.line) {
                Ok(StepResult::of_line(false, step.job.errors))
            } else {
                Err(Cause::Output)
            }
        }
        LineResult::NoLine => Ok(StepResult::of_line(false, step.job.errors)),
        LineResult::Error(fault) => {
            write_error(step, fault, around, writer, err)?;
            Ok(StepResult::of_line(true, step.job.errors))
        }
    }
}

impl StepResult {
    /// Returns what a step of a run did that processed a line: `is_error` is whether the line was
    /// an error, and `errors` what happens then.
    #[inline(always)]
    fn of_line(is_error: bool, errors: OnError) -> StepResult
        ensures line { result.is_line ≡ true }
        ensures error { result.is_error ≡ is_error }
        ensures last { result.is_last ≡ (is_error && is_stop errors) }
    {
        StepResult {
            is_line: true,
            is_error,
            is_last: is_error && stops_at_error(errors),
        }
    }
}

/// Writes a text with what is around it in the output of a line. Returns whether all of it was
/// written.
#[inline(always)]
fn put_around<W: Write>(writer: &mut Sink<W>, text: &[u8], around: Around<'_>) -> bool
    ensures whole { IsTrue result → Appends (W.contents writer.old.writer)
        (W.contents writer.new.writer) ((around.entry.before.now ++ text.now)
        ++ (around.entry.after.now ++ around.entry.end.now)) }
    ensures prefix { AppendsPrefix (W.contents writer.old.writer)
        (W.contents writer.new.writer) ((around.entry.before.now ++ text.now)
        ++ (around.entry.after.now ++ around.entry.end.now)) }
    ensures failed { writer.new.has_failed ≡ (not result || writer.old.has_failed) }
    ensures error { result ≡ false → KeepsFinalError writer.new.error }
{
    put_both(writer, around.before, text) && put_both(writer, around.after, around.end)
}

/// Writes the message of a line that is an error, where `errors` asks for it: in place of the line,
/// to the error output, or nowhere.
#[cold]
#[inline(never)]
fn write_error<W: Write, E: Write>(
    step: Step<'_>,
    fault: LineError,
    around: Around<'_>,
    writer: &mut Sink<W>,
    err: &mut Sink<E>,
) -> Result<(), Cause>
    ensures whole { OnOk result (Appends (W.contents writer.old.writer)
        (W.contents writer.new.writer) (error_output step.entry.job.now.errors
        around.entry.before.now (line_error_message fault)
        (around.entry.after.now ++ around.entry.end.now))) }
    ensures prefix { AppendsPrefix (W.contents writer.old.writer)
        (W.contents writer.new.writer) (error_output step.entry.job.now.errors
        around.entry.before.now (line_error_message fault)
        (around.entry.after.now ++ around.entry.end.now)) }
    ensures reported { OnOk result (Reports (error_output_of E.contents err.old)
        (error_output_of E.contents err.new)
        (error_report step.entry.job.now.errors (step.entry.before + 1)
        (line_error_message fault))) }
    ensures reports { ReportsPrefix (error_output_of E.contents err.old)
        (error_output_of E.contents err.new)
        (error_report step.entry.job.now.errors (step.entry.before + 1)
        (line_error_message fault)) }
    ensures failures { FailsInWriting result writer.old writer.new }
{
    match step.job.errors {
        OnError::Line => {
            let text = format!(in step.alloc; "error: {fault}")?;
            if put_around(writer, text.as_bytes(), around) {
                Ok(())
            } else {
                Err(Cause::Output)
            }
        }
        OnError::Drop => Ok(()),
        OnError::Stderr => Ok(show_error(step, fault, err)?),
        OnError::Stop => Ok(show_error(step, fault, err)?),
    }
}

/// Writes the message of a line that is an error to the error output, with the number of the line.
fn show_error<E: Write>(
    step: Step<'_>,
    fault: LineError,
    err: &mut Sink<E>,
) -> Result<(), AllocError>
    ensures reported { OnOk result (Reports (error_output_of E.contents err.old)
        (error_output_of E.contents err.new)
        (reported_error (step.entry.before + 1) (line_error_message fault))) }
    ensures reports { ReportsPrefix (error_output_of E.contents err.old)
        (error_output_of E.contents err.new)
        (reported_error (step.entry.before + 1) (line_error_message fault)) }
{
    let message = reported_error(step.alloc, fault, step.number())?;
    show(err, message.as_str());
    Ok(())
}

/// Returns the line that reports the error of a line with this number.
fn reported_error(alloc: Global, fault: LineError, number: u64) -> Result<String, AllocError>
    ensures { IfOk result (λ line.
        string_bytes line ≡ reported_error number (line_error_message fault)) }
{
    format!(in alloc; "error: line {number}: {fault}\n")
}

/// Writes a text to the error output, unless that has failed before.
fn show<E: Write>(err: &mut Sink<E>, text: &str)
    ensures { Reports (error_output_of E.contents err.old) (error_output_of E.contents err.new)
        text.now }
{
    if !err.has_failed() {
        let _ = err.put(text.as_bytes());
    }
}
