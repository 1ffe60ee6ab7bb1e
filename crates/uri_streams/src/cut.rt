//! What a command gets of a line: its text, or one of its fields.
ghost use Rattle.std.specs.Prelude.{◌≡◌, ◌+◌, ◌≤◌, MatchOption, None, Some, drop, length, slice_get, slice_range};
ghost use Rattle.uri_streams.specs.Fields as spec;
ghost use Rattle.uri_streams.specs.Fields.{IsFieldStart, bounded_cut, field_cut, fields_after_delimiters, fields_of};
ghost use Rattle.uri_streams.specs.Returned.{cut_in, text_in};

use crate::fault::NoText;
use crate::job::{Field, Job};
use memchr::memchr;

/// A line of an input, cut around what the command gets of it: its text or one of its fields.
pub(crate) struct Cut<'a> {
    /// The fields before what the command gets, each with its delimiter.
    pub before: &'a [u8],
    /// What the command gets of the line, or why it gets nothing.
    pub text: Result<&'a [u8], NoText>,
    /// The fields after what the command gets, each after a delimiter.
    pub after: &'a [u8],
}

/// Returns the text of a line, cut around what the job's command gets of it: nothing if it is too
/// long or lacks the field.
pub(crate) fn line_cut<'a>(job: &Job<'_>, text: &'a [u8]) -> Cut<'a>
    ensures { cut_in result ≡ bounded_cut job.now.max_line job.now.field text.now }
{
    if text.len() > job.max_line as usize {
        return cut_without_other_fields(Err(NoText::TooLong(job.max_line)));
    }
    match job.field {
        None => cut_without_other_fields(Ok(text)),
        Some(field) => field_cut(field, text),
    }
}

/// Returns the cut of a line of which the command gets all or nothing: there is nothing before or
/// after it.
fn cut_without_other_fields(text: Result<&[u8], NoText>) -> Cut<'_>
    ensures { cut_in result ≡ spec.cut_without_other_fields (text_in text.entry) }
{
    Cut {
        before: b"",
        text,
        after: b"",
    }
}

/// Returns a line, cut around the field that is asked for, if it has that field.
fn field_cut(field: Field, line: &[u8]) -> Cut<'_>
    ensures { cut_in result ≡ spec.field_cut field.delimiter field.before line.now }
{
    match field_start(field.delimiter, field.before, line) {
        Some(start) => {
            let end = field_end(field.delimiter, field.before, line, start);
            Cut {
                before: &line[..start],
                text: Ok(&line[start..end]),
                after: &line[end..],
            }
        }
        None => cut_without_other_fields(Err(NoText::NoField(field.before))),
    }
}

/// Returns the index at which the field of a line begins that has `before` others before it, or
/// `None` if the line has too few fields.
fn field_start(delimiter: u8, before: u32, line: &[u8]) -> Option<usize>
    ensures { MatchOption result (slice_get (fields_of delimiter line.now) before ≡ None)
        (IsFieldStart delimiter before line.now) }
{
    let mut start = 0;
    for skipped in 0..before {
        match memchr(delimiter, &line[start..]) {
            Some(index) => start += index + 1,
            None => return None,
        }
    }
    Some(start)
}

/// Returns the index at which the field of a line ends that begins at `start` and has `before`
/// others before it.
fn field_end(delimiter: u8, before: u32, line: &[u8], start: usize) -> usize
    requires { IsFieldStart delimiter before line.now start }
    ensures bound { result ≤ length line.now }
    ensures order { start ≤ result }
    ensures field { slice_get (fields_of delimiter line.now) before
        ≡ Some (slice_range line.now start result) }
    ensures after { drop result line.now
        ≡ fields_after_delimiters delimiter (drop (before + 1) (fields_of delimiter line.now)) }
{
    match memchr(delimiter, &line[start..]) {
        Some(index) => start + index,
        None => line.len(),
    }
}
