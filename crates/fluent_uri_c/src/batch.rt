//! What a batch does with the texts of a column.
ghost use Rattle.std.specs.Prelude.{◌≡◌, ◌+◌, ◌-◌, ◌*◌, ◌/◌, ◌^◌, ◌<◌, ◌≤◌, ◌++◌, length, drop, take, IfErr, IfOk, None, OnOk, Some, option_map, slice_set, IsTrue};
ghost use Rattle.fluent_uri_c.specs.Columns.{HasDoneTexts, LeavesColumn, SaysFullIfFull, buffers, bytes_of, column_of, call_result_bytes};
ghost use Rattle.fluent_uri_c.specs.Full.{IsFull, ends_buffer, valid_buffer};
ghost use Rattle.fluent_uri_c.specs.NormalForms.{normal_form_text};
ghost use Rattle.fluent_uri_c.specs.SingleCalls.{SingleCall};

use crate::columns::{Offset, is_possible_column, mark, text_at};
use crate::normal_forms::NormalForm;
use crate::outcome::{Full, Outcome, report_full, report_progress};
use fluent_uri::pct_enc::CowSlice;
use std::alloc::AllocError;

/// The result of a call on a text: a slice of that text, or a new text, or bytes that are one of
/// these.
#[derive(Drop)]
pub enum CallResult<'a> {
    Part(&'a [u8]),
    Text(String),
    Bytes(CowSlice<'a, u8>),
}

impl<'a> CallResult<'a> {
    /// Returns a normal form as the result of a call.
    pub fn of_normal_form(form: NormalForm<'a>) -> CallResult<'a>
        ensures { call_result_bytes result ≡ normal_form_text form.entry }
    {
        match form {
            NormalForm::Unchanged(value) => CallResult::Part(value.as_str().as_bytes()),
            NormalForm::Made(value) => CallResult::Text(value.into_string()),
        }
    }
}

/// A call on one text, which a batch makes for each text of a column. One that takes memory has the
/// allocator, and one that has a base has parsed it, as `is_ready` says.
pub trait Call {
    ghost use Rattle.fluent_uri_c.specs.Columns.{call_result_bytes};

    ghost definition: { Self → SingleCall };

    ghost is_ready: { Self → Type 0 } = { λ _. Unit {0} };

    /// Returns whether the numbers among the arguments of a batch's call are valid.
    fn is_valid(&self) -> bool
        ensures { result ≡ (definition self.now).is_valid };

    /// Returns the result of a text of a batch, if that has one.
    fn call<'a>(&self, text: &'a [u8]) -> Result<Option<CallResult<'a>>, AllocError>
        requires { is_ready self.now }
        ensures made { IfOk result (λ made.
            option_map call_result_bytes made ≡ (definition self.now).result text.now) }
        ensures memory { IfErr result (λ _.
            IsTrue ((definition self.now).takes_memory text.now)) };
}

/// Returns the bytes of a result of a batch, or no bytes if there is none.
pub fn bytes_of<'a>(made: &'a Option<CallResult<'a>>) -> &'a [u8]
    ensures { result.now ≡ bytes_of (option_map call_result_bytes made.now) }
{
    match made {
        Some(CallResult::Part(bytes)) => bytes,
        Some(CallResult::Text(text)) => text.as_bytes(),
        Some(CallResult::Bytes(bytes)) => bytes.as_slice(),
        None => &[],
    }
}

/// Appends the result of a batch's text at an index, and where it ends, if both fit.
fn append<O: Offset>(
    bytes: &[u8],
    index: usize,
    at: usize,
    out: &mut [u8],
    ends: &mut [O],
) -> Result<usize, Full>
    requires at { at ≤ length out.old }
    requires index { index + 1 < length ends.old }
    ensures end { IfOk result (λ end. end ≡ at + length bytes.now) }
    ensures inside { IfOk result (λ end. end ≤ length out.new) }
    ensures below { IfOk result (λ end. end < O.limit) }
    ensures written { OnOk result (out.new
        ≡ take at out.old ++ (bytes.now ++ drop (at + length bytes.now) out.old)) }
    ensures offset { IfOk result (λ end. (offset : O) × ((O.value offset ≡ end)
        × (ends.new ≡ slice_set ends.old (index + 1) offset))) }
    ensures full { IfErr result (λ full. IsFull O.limit (length out.old) (at + length bytes.now)
        full.buffer full.needed) }
    ensures kept { IfErr result (λ _. out.new ≡ out.old) }
    ensures kept_ends { IfErr result (λ _. ends.new ≡ ends.old) }
{
    let Some(end) = at.checked_add(bytes.len()) else {
        return Err(Full {
            buffer: 0,
            needed: usize::MAX,
        });
    };
    if end > out.len() {
        return Err(Full {
            buffer: 0,
            needed: end,
        });
    }
    let Some(offset) = O::of(end) else {
        return Err(Full {
            buffer: 5,
            needed: end,
        });
    };
    out[at..end].copy_from_slice(bytes);
    ends[index + 1] = offset;
    Ok(end)
}

/// Returns which buffer is too short for the ends of count results (one more than count) and a bit
/// for each, if one is.
fn full_buffer<O: Offset>(count: usize, ends: &[O], valid: &[u8]) -> Option<Full>
    requires { count < 2 ^ 64 - 1 }
    ensures ends { length ends.now ≤ count
        → result ≡ Some (record { buffer = ends_buffer; needed = count + 1 }) }
    ensures bits { count < length ends.now → 8 * length valid.now < count
        → result ≡ Some (record { buffer = valid_buffer; needed = (count + 7) / 8 }) }
    ensures fit { count < length ends.now → count ≤ 8 * length valid.now → result ≡ None }
{
    if ends.len() <= count {
        return Some(Full {
            buffer: 1,
            needed: count + 1,
        });
    }
    let bytes = count / 8 + usize::from(count % 8 != 0);
    if valid.len() < bytes {
        return Some(Full {
            buffer: 2,
            needed: bytes,
        });
    }
    None
}

/// Makes the call for each text of a column, and writes its results, their ends and their bits, for
/// which there is room.
fn fill<O: Offset, C: Call>(
    call: &C,
    texts: &[u8],
    offsets: &[O],
    out: &mut [u8],
    ends: &mut [O],
    valid: &mut [u8],
    outcome: &mut Outcome,
) -> u32
    requires ready { C.is_ready call.now }
    requires ends { length offsets.now - 1 < length ends.old }
    requires bits { length offsets.now - 1 ≤ 8 * length valid.old }
    ensures error { outcome.new.error ≡ result }
    ensures consumed { outcome.new.consumed ≡ 0 }
    ensures says_full { SaysFullIfFull outcome.new result }
    ensures done { HasDoneTexts (C.definition call.now)
        (column_of O.value O.limit texts.now offsets.now) (buffers out.old ends.old valid.old)
        (buffers out.new ends.new valid.new) outcome.new result }
{
    let count = offsets.len().saturating_sub(1);
    let mut at = 0;
    ends[0] = O::zero();
    for index in 0..count {
        let Some(text) = text_at(texts, offsets, index) else {
            return report_progress(9, index, at, outcome);
        };
        let made = match call.call(text) {
            Ok(made) => made,
            Err(_) => return report_progress(8, index, at, outcome),
        };
        let end = match append(bytes_of(&made), index, at, out, ends) {
            Ok(end) => end,
            Err(full) => return report_full(full, index, at, outcome),
        };
        mark(valid, index, made.is_some());
        at = end;
    }
    report_progress(0, count, at, outcome)
}

/// Makes the call for each text of a column, if there is room for the ends and the bits, and writes
/// what it returns.
pub fn column<O: Offset, C: Call>(
    call: &C,
    texts: &[u8],
    offsets: &[O],
    out: &mut [u8],
    ends: &mut [O],
    valid: &mut [u8],
    outcome: &mut Outcome,
) -> u32
    requires { C.is_ready call.now }
    ensures { LeavesColumn (C.definition call.now)
        (column_of O.value O.limit texts.now offsets.now) (buffers out.old ends.old valid.old)
        (buffers out.new ends.new valid.new) outcome.new result }
{
    if !call.is_valid() || !is_possible_column(texts, offsets) {
        return report_progress(9, 0, 0, outcome);
    }
    let count = offsets.len().saturating_sub(1);
    match full_buffer(count, ends, valid) {
        Some(full) => report_full(full, 0, 0, outcome),
        None => fill(call, texts, offsets, out, ends, valid, outcome),
    }
}
