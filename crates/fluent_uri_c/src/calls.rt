//! The batches: a call for each text of a column.
ghost use Rattle.std.specs.Prelude.{◌≡◌, Bool, false, if◌then◌else◌, IfErr, IfOk, IsTrue, option_map};
ghost use Rattle.std.specs.Result.{result_ok};
ghost use Rattle.fluent_uri.specs.Prelude.{reference_text};
ghost use Rattle.fluent_uri_c.specs.Columns.{LeavesColumn, buffers, column32, column64, call_result_bytes};
ghost use Rattle.fluent_uri_c.specs.Results.{IsReturnedOrDenied, Returned, is_out_of_memory};
ghost use Rattle.fluent_uri_c.specs.SingleCalls.{converting, normalizing, resolving, resolving_normalized};
ghost use Rattle.fluent_uri_c.specs.Bases.{IsBaseOf};

use crate::bases::Base;
use crate::batch::{Call, CallResult, column};
use crate::errors::{Error, Rejection};
use crate::numbered;
use crate::outcome::Outcome;
use crate::texts::is_possible_length;
use fluent_uri::IriRef;
use std::alloc::{AllocError, Global};

/// Returns the result of a call as one of a batch: none for a rejection, and an error only if an
/// allocation failed.
pub fn batch_result<'a>(
    returned: Result<IriRef<String>, Rejection>,
) -> Result<Option<CallResult<'a>>, AllocError>
    ensures made { (takes_memory : Bool) → (defined : Returned)
        → IsReturnedOrDenied takes_memory reference_text defined returned
        → IfOk result (λ made. option_map call_result_bytes made ≡ result_ok defined) }
    ensures memory { (takes_memory : Bool) → (defined : Returned)
        → is_out_of_memory defined ≡ false
        → IsReturnedOrDenied takes_memory reference_text defined returned
        → IfErr result (λ _. IsTrue takes_memory) }
{
    match returned {
        Ok(value) => Ok(Some(CallResult::Text(value.into_string()))),
        Err(why) => match why.error {
            Error::OutOfMemory => Err(AllocError),
            _ => Ok(None),
        },
    }
}

/// Normalises texts of a kind, by options.
#[derive(Clone, Copy)]
struct Normalize {
    alloc: Global,
    kind: u32,
    options: u32,
}

impl Call for Normalize {
    ghost definition = { λ call. normalizing call.kind call.options };

    /// Returns whether the numbers are one of the four kinds, and options of this call.
    fn is_valid(&self) -> bool {
        self.kind <= 3 && (self.options == 0 || self.options == 2)
    }

    /// Returns the normal form of a text, if it is of the kind.
    fn call<'a>(&self, text: &'a [u8]) -> Result<Option<CallResult<'a>>, AllocError> {
        match numbered::normal_form(self.alloc, self.kind, self.options, text) {
            Ok(form) => Ok(Some(CallResult::of_normal_form(form))),
            Err(why) => batch_result(Err(why)),
        }
    }
}

/// Converts texts of a kind of IRIs.
#[derive(Clone, Copy)]
struct ToUri {
    alloc: Global,
    kind: u32,
}

impl Call for ToUri {
    ghost definition = { λ call. converting call.kind };

    /// Returns whether the number is one of the kinds of IRIs.
    fn is_valid(&self) -> bool {
        self.kind == 2 || self.kind == 3
    }

    /// Returns an IRI, or an IRI reference, as a URI or a URI reference, if the text is one.
    fn call<'a>(&self, text: &'a [u8]) -> Result<Option<CallResult<'a>>, AllocError> {
        batch_result(numbered::as_uri(self.alloc, self.kind, text))
    }
}

/// Resolves references against a base of a kind by options: the base's bytes, and what these are
/// parsed to. If `normalizes`, the targets are normalised, and the options are those of that.
#[derive(Clone, Copy)]
struct Resolve<'a> {
    alloc: Global,
    normalizes: bool,
    kind: u32,
    options: u32,
    bytes: &'a [u8],
    base: Base<'a>,
}

impl<'b> Call for Resolve<'b> {
    ghost definition = { λ call.
        (if call.normalizes then resolving_normalized else resolving)
        call.kind call.options call.bytes.now };

    ghost is_ready = { λ call. IsBaseOf call.kind call.bytes.now call.base };

    /// Returns whether the numbers are a base's kind, a URI or an IRI, and options of this call,
    /// and the base can be there.
    fn is_valid(&self) -> bool {
        let option = if self.normalizes { 2 } else { 4 };
        (self.kind == 0 || self.kind == 2)
            && (self.options == 0 || self.options == option)
            && is_possible_length(self.bytes)
    }

    /// Returns the target of a reference against the base, or its normal form, if it has one.
    fn call<'a>(&self, text: &'a [u8]) -> Result<Option<CallResult<'a>>, AllocError> {
        if self.normalizes {
            return batch_result(self.base.normal_target(self.alloc, self.options, text));
        }
        batch_result(self.base.target(self.alloc, self.options, text))
    }
}

/// Writes the normal form of each text of a column, by options.
#[unsafe(no_mangle)]
pub extern "C" fn fluent_uri_normalize_batch(
    alloc: Global,
    kind: u32,
    options: u32,
    texts: &[u8],
    offsets: &[u32],
    out: &mut [u8],
    out_offsets: &mut [u32],
    valid: &mut [u8],
    outcome: &mut Outcome,
) -> u32
    ensures { LeavesColumn (normalizing kind options) (column32 texts.now offsets.now)
        (buffers out.old out_offsets.old valid.old) (buffers out.new out_offsets.new valid.new)
        outcome.new result }
{
    let call = Normalize {
        alloc,
        kind,
        options,
    };
    column(&call, texts, offsets, out, out_offsets, valid, outcome)
}

/// Writes each text of a column of IRIs as a URI.
#[unsafe(no_mangle)]
pub extern "C" fn fluent_uri_to_uri_batch(
    alloc: Global,
    kind: u32,
    texts: &[u8],
    offsets: &[u32],
    out: &mut [u8],
    out_offsets: &mut [u32],
    valid: &mut [u8],
    outcome: &mut Outcome,
) -> u32
    ensures { LeavesColumn (converting kind) (column32 texts.now offsets.now)
        (buffers out.old out_offsets.old valid.old) (buffers out.new out_offsets.new valid.new)
        outcome.new result }
{
    let call = ToUri { alloc, kind };
    column(&call, texts, offsets, out, out_offsets, valid, outcome)
}

/// Writes the target of each reference of a column, by options.
#[unsafe(no_mangle)]
pub extern "C" fn fluent_uri_resolve_batch(
    alloc: Global,
    kind: u32,
    options: u32,
    base: &[u8],
    texts: &[u8],
    offsets: &[u32],
    out: &mut [u8],
    out_offsets: &mut [u32],
    valid: &mut [u8],
    outcome: &mut Outcome,
) -> u32
    ensures { LeavesColumn (resolving kind options base.now) (column32 texts.now offsets.now)
        (buffers out.old out_offsets.old valid.old) (buffers out.new out_offsets.new valid.new)
        outcome.new result }
{
    let call = Resolve {
        alloc,
        normalizes: false,
        kind,
        options,
        bytes: base,
        base: Base::parse(kind, base),
    };
    column(&call, texts, offsets, out, out_offsets, valid, outcome)
}

/// Writes the normal form of the target of each reference of a column, by options.
#[unsafe(no_mangle)]
pub extern "C" fn fluent_uri_resolve_normalized_batch(
    alloc: Global,
    kind: u32,
    options: u32,
    base: &[u8],
    texts: &[u8],
    offsets: &[u32],
    out: &mut [u8],
    out_offsets: &mut [u32],
    valid: &mut [u8],
    outcome: &mut Outcome,
) -> u32
    ensures { LeavesColumn (resolving_normalized kind options base.now)
        (column32 texts.now offsets.now) (buffers out.old out_offsets.old valid.old)
        (buffers out.new out_offsets.new valid.new) outcome.new result }
{
    let call = Resolve {
        alloc,
        normalizes: true,
        kind,
        options,
        bytes: base,
        base: Base::parse(kind, base),
    };
    column(&call, texts, offsets, out, out_offsets, valid, outcome)
}

/// Writes the normal form of each text of a column, by options, with offsets of 64 bits.
#[unsafe(no_mangle)]
pub extern "C" fn fluent_uri_normalize_batch64(
    alloc: Global,
    kind: u32,
    options: u32,
    texts: &[u8],
    offsets: &[u64],
    out: &mut [u8],
    out_offsets: &mut [u64],
    valid: &mut [u8],
    outcome: &mut Outcome,
) -> u32
    ensures { LeavesColumn (normalizing kind options) (column64 texts.now offsets.now)
        (buffers out.old out_offsets.old valid.old) (buffers out.new out_offsets.new valid.new)
        outcome.new result }
{
    let call = Normalize {
        alloc,
        kind,
        options,
    };
    column(&call, texts, offsets, out, out_offsets, valid, outcome)
}

/// Writes each text of a column of IRIs as a URI, with offsets of 64 bits.
#[unsafe(no_mangle)]
pub extern "C" fn fluent_uri_to_uri_batch64(
    alloc: Global,
    kind: u32,
    texts: &[u8],
    offsets: &[u64],
    out: &mut [u8],
    out_offsets: &mut [u64],
    valid: &mut [u8],
    outcome: &mut Outcome,
) -> u32
    ensures { LeavesColumn (converting kind) (column64 texts.now offsets.now)
        (buffers out.old out_offsets.old valid.old) (buffers out.new out_offsets.new valid.new)
        outcome.new result }
{
    let call = ToUri { alloc, kind };
    column(&call, texts, offsets, out, out_offsets, valid, outcome)
}

/// Writes the target of each reference of a column, by options, with offsets of 64 bits.
#[unsafe(no_mangle)]
pub extern "C" fn fluent_uri_resolve_batch64(
    alloc: Global,
    kind: u32,
    options: u32,
    base: &[u8],
    texts: &[u8],
    offsets: &[u64],
    out: &mut [u8],
    out_offsets: &mut [u64],
    valid: &mut [u8],
    outcome: &mut Outcome,
) -> u32
    ensures { LeavesColumn (resolving kind options base.now) (column64 texts.now offsets.now)
        (buffers out.old out_offsets.old valid.old) (buffers out.new out_offsets.new valid.new)
        outcome.new result }
{
    let call = Resolve {
        alloc,
        normalizes: false,
        kind,
        options,
        bytes: base,
        base: Base::parse(kind, base),
    };
    column(&call, texts, offsets, out, out_offsets, valid, outcome)
}

/// Writes the normal form of the target of each reference of a column, by options, with offsets of
/// 64 bits.
#[unsafe(no_mangle)]
pub extern "C" fn fluent_uri_resolve_normalized_batch64(
    alloc: Global,
    kind: u32,
    options: u32,
    base: &[u8],
    texts: &[u8],
    offsets: &[u64],
    out: &mut [u8],
    out_offsets: &mut [u64],
    valid: &mut [u8],
    outcome: &mut Outcome,
) -> u32
    ensures { LeavesColumn (resolving_normalized kind options base.now)
        (column64 texts.now offsets.now) (buffers out.old out_offsets.old valid.old)
        (buffers out.new out_offsets.new valid.new) outcome.new result }
{
    let call = Resolve {
        alloc,
        normalizes: true,
        kind,
        options,
        bytes: base,
        base: Base::parse(kind, base),
    };
    column(&call, texts, offsets, out, out_offsets, valid, outcome)
}
