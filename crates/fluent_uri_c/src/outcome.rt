//! What a call leaves in its caller's memory.
ghost use Rattle.std.specs.Prelude.{◌≡◌, ◌+◌, ◌++◌, ◌≤◌, Bool, drop, length, string_bytes, take};
ghost use Rattle.fluent_uri.specs.Prelude.{reference_text};
ghost use Rattle.fluent_uri_c.specs.Outcomes.{LeavesText, outcome_of, outcome_of_batch, outcome_of_length, outcome_of_text, written};
ghost use Rattle.fluent_uri_c.specs.Errors.{number_of};
ghost use Rattle.fluent_uri_c.specs.Results.{IsReturnedAs, IsReturnedOrDenied, Returned};
ghost use Rattle.fluent_uri_c.specs.Values.{HasPartsFirst, LeavesValueOrDenied};

use crate::errors::Rejection;
use crate::parts::{Parts, write_first_parts};
use fluent_uri::{Reference, RiMaybeRef};
use std::convert::AsStr;
use uri_parts::kind::Kind;

/// What a call reports: an error, or 0; which of two texts is rejected, or which buffer is full;
/// where in the text; the length of the text that it returns; how long the buffer that is full must
/// be; and how much of the input is done.
#[repr(C)]
#[derive(Drop)]
pub struct Outcome {
    pub error: u32,
    pub which: u32,
    pub index: usize,
    pub length: usize,
    pub needed: usize,
    pub consumed: usize,
}

/// Which buffer of a batch is full, by its number in the header, and how long it must be.
#[derive(Clone, Copy)]
pub struct Full {
    pub buffer: u32,
    pub needed: usize,
}

/// Reports an error of a batch, or 0: how many texts are done, and how long their results are.
/// Returns the error.
pub fn report_progress(error: u32, done: usize, length: usize, outcome: &mut Outcome) -> u32
    ensures number { result ≡ error }
    ensures outcome { outcome.new ≡ outcome_of_batch error 0 0 done length 0 }
{
    *outcome = Outcome {
        error,
        which: 0,
        index: done,
        length,
        needed: 0,
        consumed: 0,
    };
    error
}

/// Reports that a buffer of a batch is full: how many texts are done, and how long their results
/// are. Returns the number of that error.
pub fn report_full(full: Full, done: usize, length: usize, outcome: &mut Outcome) -> u32
    ensures number { result ≡ 10 }
    ensures outcome { outcome.new ≡ outcome_of_batch 10 full.buffer full.needed done length 0 }
{
    *outcome = Outcome {
        error: 10,
        which: full.buffer,
        index: done,
        length,
        needed: full.needed,
        consumed: 0,
    };
    10
}

/// Reports an error of a call in the outcome that its caller in C gets, and returns its number.
pub fn report(why: Rejection, outcome: &mut Outcome) -> u32
    ensures number { result ≡ number_of why.error }
    ensures outcome { outcome.new ≡ outcome_of why }
{
    outcome.error = why.error.number();
    outcome.which = why.which;
    outcome.index = why.index;
    outcome.length = 0;
    outcome.needed = 0;
    outcome.consumed = 0;
    outcome.error
}

/// Reports the length of a text in the outcome that the caller in C gets.
#[inline(always)]
fn report_length(len: usize, outcome: &mut Outcome)
    ensures { outcome.new ≡ outcome_of_length len }
{
    outcome.error = 0;
    outcome.which = 0;
    outcome.index = 0;
    outcome.length = len;
    outcome.needed = 0;
    outcome.consumed = 0;
}

/// Writes bytes to a buffer, from a position on.
#[inline(always)]
pub fn write_at(bytes: &[u8], at: usize, out: &mut [u8])
    requires { at + length bytes.now ≤ length out.old }
    ensures { out.new ≡ take at out.old ++ (bytes.now ++ drop (at + length bytes.now) out.old) }
{
    out[at..at + bytes.len()].copy_from_slice(bytes);
}

/// Reports the length of a text that is two pieces in the outcome that the caller in C gets, and
/// writes them to the buffer, which is long enough.
#[inline(always)]
pub fn put_pieces(prefix: &[u8], suffix: &[u8], out: &mut [u8], outcome: &mut Outcome)
    requires { length prefix.now + length suffix.now ≤ length out.old }
    ensures outcome { outcome.new ≡ outcome_of_text (prefix.now ++ suffix.now) }
    ensures written { out.new ≡ written (prefix.now ++ suffix.now) out.old }
    ensures text { take (length prefix.now + length suffix.now) out.new
        ≡ prefix.now ++ suffix.now }
{
    report_length(prefix.len() + suffix.len(), outcome);
    write_at(prefix, 0, out);
    write_at(suffix, prefix.len(), out);
}

/// Reports the length of a text in the outcome that the caller in C gets, and writes it to the
/// buffer if that is long enough.
pub fn put(text: &[u8], out: &mut [u8], outcome: &mut Outcome)
    ensures outcome { outcome.new ≡ outcome_of_text text.now }
    ensures written { out.new ≡ written text.now out.old }
{
    report_length(text.len(), outcome);
    if text.len() <= out.len() {
        out[..text.len()].copy_from_slice(text);
    }
}

/// Writes a text that a call for C made, or reports why there is none. Returns the number of the
/// error, or 0.
pub fn put_or_report(made: Result<String, Rejection>, out: &mut [u8], outcome: &mut Outcome) -> u32
    ensures { (returned : Returned) → IsReturnedAs string_bytes returned made
        → LeavesText returned out.old out.new outcome.new result }
{
    match made {
        Ok(text) => {
            put(text.as_bytes(), out, outcome);
            0
        }
        Err(why) => report(why, outcome),
    }
}

/// Writes the text of a value that a call for C returns, and its parts if there is room for these.
#[inline(always)]
pub fn put_value<K: Kind, T: AsStr>(
    value: &Reference<K, T>,
    out: &mut [u8],
    parts: &mut [Parts],
    outcome: &mut Outcome,
)
    ensures outcome { outcome.new ≡ outcome_of_text (reference_text value.now) }
    ensures written { out.new ≡ written (reference_text value.now) out.old }
    ensures parts { HasPartsFirst (reference_text value.now) parts.old parts.new }
{
    put(value.as_str().as_bytes(), out, outcome);
    write_first_parts(value, parts);
}

/// Writes a value that a call for C made, as its text and its parts, or reports why there is none.
/// Returns the number of the error, or 0.
#[inline(always)]
pub fn put_value_or_report<K: Kind>(
    made: Result<Reference<K, String>, Rejection>,
    out: &mut [u8],
    parts: &mut [Parts],
    outcome: &mut Outcome,
) -> u32
    ensures { (takes_memory : Bool) → (returned : Returned)
        → IsReturnedOrDenied takes_memory reference_text returned made
        → LeavesValueOrDenied takes_memory returned out.old out.new parts.old parts.new
        outcome.new result }
{
    match made {
        Ok(value) => {
            put_value(&value, out, parts, outcome);
            0
        }
        Err(rejection) => report(rejection, outcome),
    }
}
