//! The batches that decode and encode components.
ghost use Rattle.std.specs.Prelude.{◌≡◌, false, IfErr, IfOk, IsOk, option_map, string_bytes};
ghost use Rattle.std.specs.Result.{result_ok};
ghost use Rattle.fluent_uri.specs.Prelude.{cow_items};
ghost use Rattle.fluent_uri_c.specs.Columns.{LeavesColumn, buffers, call_result_bytes, column32, column64};
ghost use Rattle.fluent_uri_c.specs.Results.{IsReturnedAs, Returned, is_out_of_memory};
ghost use Rattle.fluent_uri_c.specs.SingleCalls.{decoding, encoding};

use crate::batch::{Call, CallResult, column};
use crate::codes::{decoded, encoded};
use crate::errors::{Error, Rejection};
use crate::outcome::Outcome;
use fluent_uri::pct_enc::CowSlice;
use std::alloc::{AllocError, Global};

/// Returns decoded bytes as the result of a batch's call: none for a rejection, and an error only
/// if an allocation failed.
fn decoded_result<'a>(
    returned: Result<CowSlice<'a, u8>, Rejection>,
) -> Result<Option<CallResult<'a>>, AllocError>
    ensures made { (defined : Returned) → IsReturnedAs cow_items defined returned.entry
        → IfOk result (λ made. option_map call_result_bytes made ≡ result_ok defined) }
    ensures memory { (defined : Returned) → is_out_of_memory defined ≡ false
        → IsReturnedAs cow_items defined returned.entry
        → IfErr result (λ _. IsOk defined) }
{
    match returned {
        Ok(bytes) => Ok(Some(CallResult::Bytes(bytes))),
        Err(why) => match why.error {
            Error::OutOfMemory => Err(AllocError),
            _ => Ok(None),
        },
    }
}

/// Returns an encoded text as the result of a batch's call: none for a rejection, and an error only
/// if an allocation failed.
fn encoded_result<'a>(
    returned: Result<String, Rejection>,
) -> Result<Option<CallResult<'a>>, AllocError>
    ensures made { (defined : Returned) → IsReturnedAs string_bytes defined returned
        → IfOk result (λ made. option_map call_result_bytes made ≡ result_ok defined) }
    ensures memory { (defined : Returned) → is_out_of_memory defined ≡ false
        → IsReturnedAs string_bytes defined returned
        → IfErr result (λ _. IsOk defined) }
{
    match returned {
        Ok(text) => Ok(Some(CallResult::Text(text))),
        Err(why) => match why.error {
            Error::OutOfMemory => Err(AllocError),
            _ => Ok(None),
        },
    }
}

/// Decodes texts as a component.
#[derive(Clone, Copy)]
struct Decode {
    alloc: Global,
    component: u32,
}

impl Call for Decode {
    ghost definition = { λ call. decoding call.component };

    /// Returns whether the number is one of a component that is decoded.
    fn is_valid(&self) -> bool {
        self.component <= 4
    }

    /// Returns the bytes that a component decodes to, if the text is one.
    fn call<'a>(&self, text: &'a [u8]) -> Result<Option<CallResult<'a>>, AllocError> {
        decoded_result(decoded(self.alloc, self.component, text))
    }
}

/// Encodes bytes as data of a component.
#[derive(Clone, Copy)]
struct Encode {
    alloc: Global,
    component: u32,
}

impl Call for Encode {
    ghost definition = { λ call. encoding call.component };

    /// Returns whether the number is one of a component that is encoded.
    fn is_valid(&self) -> bool {
        self.component <= 4 || self.component == 8
    }

    /// Returns bytes, encoded as data of the component.
    fn call<'a>(&self, text: &'a [u8]) -> Result<Option<CallResult<'a>>, AllocError> {
        encoded_result(encoded(self.alloc, self.component, text))
    }
}

/// Writes the bytes that each component of a column decodes to.
#[unsafe(no_mangle)]
pub extern "C" fn fluent_uri_decode_batch(
    alloc: Global,
    component: u32,
    texts: &[u8],
    offsets: &[u32],
    out: &mut [u8],
    out_offsets: &mut [u32],
    valid: &mut [u8],
    outcome: &mut Outcome,
) -> u32
    ensures { LeavesColumn (decoding component) (column32 texts.now offsets.now)
        (buffers out.old out_offsets.old valid.old) (buffers out.new out_offsets.new valid.new)
        outcome.new result }
{
    let call = Decode { alloc, component };
    column(&call, texts, offsets, out, out_offsets, valid, outcome)
}

/// Writes the bytes that each component of a column decodes to, with offsets of 64 bits.
#[unsafe(no_mangle)]
pub extern "C" fn fluent_uri_decode_batch64(
    alloc: Global,
    component: u32,
    texts: &[u8],
    offsets: &[u64],
    out: &mut [u8],
    out_offsets: &mut [u64],
    valid: &mut [u8],
    outcome: &mut Outcome,
) -> u32
    ensures { LeavesColumn (decoding component) (column64 texts.now offsets.now)
        (buffers out.old out_offsets.old valid.old) (buffers out.new out_offsets.new valid.new)
        outcome.new result }
{
    let call = Decode { alloc, component };
    column(&call, texts, offsets, out, out_offsets, valid, outcome)
}

/// Writes the bytes of each entry of a column, encoded as data of a component.
#[unsafe(no_mangle)]
pub extern "C" fn fluent_uri_encode_batch(
    alloc: Global,
    component: u32,
    texts: &[u8],
    offsets: &[u32],
    out: &mut [u8],
    out_offsets: &mut [u32],
    valid: &mut [u8],
    outcome: &mut Outcome,
) -> u32
    ensures { LeavesColumn (encoding component) (column32 texts.now offsets.now)
        (buffers out.old out_offsets.old valid.old) (buffers out.new out_offsets.new valid.new)
        outcome.new result }
{
    let call = Encode { alloc, component };
    column(&call, texts, offsets, out, out_offsets, valid, outcome)
}

/// Writes the bytes of each entry of a column, encoded as data of a component, with offsets of 64
/// bits.
#[unsafe(no_mangle)]
pub extern "C" fn fluent_uri_encode_batch64(
    alloc: Global,
    component: u32,
    texts: &[u8],
    offsets: &[u64],
    out: &mut [u8],
    out_offsets: &mut [u64],
    valid: &mut [u8],
    outcome: &mut Outcome,
) -> u32
    ensures { LeavesColumn (encoding component) (column64 texts.now offsets.now)
        (buffers out.old out_offsets.old valid.old) (buffers out.new out_offsets.new valid.new)
        outcome.new result }
{
    let call = Encode { alloc, component };
    column(&call, texts, offsets, out, out_offsets, valid, outcome)
}
