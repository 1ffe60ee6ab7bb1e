//! The batch over lines.
ghost use Rattle.std.specs.Prelude.{◌≡◌, ◌+◌, ◌<◌, ◌≤◌, ◌++◌, [], ◌∷◌, length, drop, take, IfErr, IfOk, IsOk, OnErr, OnOk, option_map};
ghost use Rattle.std.specs.List.{position, position_or_len};
ghost use Rattle.std.specs.Result.{result_ok};
ghost use Rattle.fluent_uri_c.specs.Columns.{call_result_bytes};
ghost use Rattle.fluent_uri_c.specs.Lines.{LeavesLines, is_newline, line_buffers, newline, number_returned};
ghost use Rattle.fluent_uri_c.specs.Full.{as_size};
ghost use Rattle.fluent_uri_c.specs.Outcomes.{outcome_of_batch};
ghost use Rattle.fluent_uri_c.specs.Results.{normalize_result};

use crate::batch::{CallResult, bytes_of};
use crate::errors::Error;
use crate::numbered;
use crate::outcome::{Full, Outcome, report_progress, write_at};
use crate::texts::is_possible_length;
use std::alloc::{AllocError, Global};

/// Returns where the first newline of the lines that C hands over is, if there is one.
fn newline_in(bytes: &[u8]) -> Option<usize>
    ensures { result ≡ position is_newline bytes.now }
{
    bytes.iter().position(|byte| *byte == b'\n')
}

/// Returns where the line of a batch ends that begins at a position.
fn line_end(lines: &[u8], start: usize) -> usize
    requires { start ≤ length lines.now }
    ensures end { result ≡ start + position_or_len is_newline (drop start lines.now) }
    ensures starts { start ≤ result }
    ensures inside { result ≤ length lines.now }
{
    match newline_in(&lines[start..]) {
        Some(length) => start + length,
        None => lines.len(),
    }
}

/// Writes a line of a batch over lines, bytes and a newline, at a position, if they fit there, and
/// returns where they end; or else how long the buffer must be.
fn push_line(bytes: &[u8], at: usize, out: &mut [u8]) -> Result<usize, usize>
    requires { at ≤ length out.old }
    ensures end { IfOk result (λ end. end ≡ at + length (bytes.now ++ newline ∷ [])) }
    ensures inside { IfOk result (λ end. end ≤ length out.new) }
    ensures written { OnOk result (out.new ≡ take at out.old ++ ((bytes.now ++ newline ∷ [])
        ++ drop (at + length (bytes.now ++ newline ∷ [])) out.old)) }
    ensures full { OnErr result (length out.old < at + length (bytes.now ++ newline ∷ [])) }
    ensures needed { IfErr result (λ needed.
        needed ≡ as_size (at + length (bytes.now ++ newline ∷ []))) }
    ensures kept { OnErr result (out.new ≡ out.old) }
{
    let newline = at.saturating_add(bytes.len());
    if newline >= out.len() {
        return Err(newline.saturating_add(1));
    }
    write_at(bytes, at, out);
    write_at(b"\n", newline, out);
    Ok(newline + 1)
}

/// What a batch over lines reports where no buffer is full.
const NOT_FULL: Full = Full {
    buffer: 0,
    needed: 0,
};

/// Reports an error of a batch over lines, or 0: which buffer is full, how many lines are done, how
/// long the results are, and how much of the input they take. Returns the error.
fn report_lines(
    error: u32,
    full: Full,
    done: usize,
    length: usize,
    consumed: usize,
    outcome: &mut Outcome,
) -> u32
    ensures number { result ≡ error }
    ensures outcome { outcome.new
        ≡ outcome_of_batch error full.buffer full.needed done length consumed }
{
    *outcome = Outcome {
        error,
        which: full.buffer,
        index: done,
        length,
        needed: full.needed,
        consumed,
    };
    error
}

/// The normal form of a line, if the text is not rejected, and the number of its error.
#[derive(Drop)]
struct Line<'a> {
    form: Option<CallResult<'a>>,
    number: u8,
}

/// Returns what a batch writes for a line: the normal form if it is a text of the kind, or none and
/// the number of the error.
fn normal_line<'a>(
    alloc: Global,
    kind: u32,
    options: u32,
    text: &'a [u8],
) -> Result<Line<'a>, AllocError>
    ensures text { IfOk result (λ line. option_map call_result_bytes line.form
        ≡ result_ok (normalize_result kind options text.now)) }
    ensures number { IfOk result (λ line. line.number
        ≡ number_returned (normalize_result kind options text.now)) }
    ensures memory { IfErr result (λ _. IsOk (normalize_result kind options text.now)) }
{
    match numbered::normal_form(alloc, kind, options, text) {
        Ok(form) => Ok(Line {
            form: Some(CallResult::of_normal_form(form)),
            number: 0,
        }),
        Err(why) => match why.error {
            Error::OutOfMemory => Err(AllocError),
            error => Ok(Line {
                form: None,
                number: error.number() as u8,
            }),
        },
    }
}

/// Writes the normal form of each line by options, with a newline after each. The line of a text
/// that is rejected is empty, and `errors` has the number of its error.
#[unsafe(no_mangle)]
pub extern "C" fn fluent_uri_normalize_lines(
    alloc: Global,
    kind: u32,
    options: u32,
    lines: &[u8],
    out: &mut [u8],
    errors: &mut [u8],
    outcome: &mut Outcome,
) -> u32
    ensures { LeavesLines kind options lines.now (line_buffers out.old errors.old)
        (line_buffers out.new errors.new) outcome.new result }
{
    if kind > 3 || !(options == 0 || options == 2) || !is_possible_length(lines) {
        return report_progress(9, 0, 0, outcome);
    }
    let mut at = 0usize;
    let mut start = 0usize;
    for index in 0..errors.len() {
        let end = line_end(lines, start);
        let Ok(line) = normal_line(alloc, kind, options, &lines[start..end]) else {
            return report_lines(8, NOT_FULL, index, at, start, outcome);
        };
        let next = match push_line(bytes_of(&line.form), at, out) {
            Ok(next) => next,
            Err(needed) => {
                let full = Full { buffer: 0, needed };
                return report_lines(10, full, index, at, start, outcome);
            }
        };
        errors[index] = line.number;
        at = next;
        if end == lines.len() {
            return report_lines(0, NOT_FULL, index + 1, at, end, outcome);
        }
        start = end + 1;
    }
    let full = Full {
        buffer: 4,
        needed: errors.len().saturating_add(1),
    };
    report_lines(10, full, errors.len(), at, start, outcome)
}
