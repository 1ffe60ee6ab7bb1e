//! The least change that makes a text one of a kind, of one text and of each of a column.
ghost use Rattle.std.specs.Prelude.{◌≡◌, IsSomeAnd};
ghost use Rattle.uri_mend.specs.Mended.{IsMended};
ghost use Rattle.uri_mend.specs.Mending.{mended_text};
ghost use Rattle.uri_mend.specs.Trimming.{trimmed_link};
ghost use Rattle.fluent_uri_c.specs.Columns.{LeavesColumn, buffers, column32, column64};
ghost use Rattle.fluent_uri_c.specs.Kinds.{kind_numbered};
ghost use Rattle.fluent_uri_c.specs.Mends.{mend_link_result, mend_link_takes_memory, mend_result};
ghost use Rattle.fluent_uri_c.specs.SingleCalls.{mending, mending_links};
ghost use Rattle.fluent_uri_c.specs.Values.{LeavesValue, LeavesValueOrDenied};

use crate::batch::{Call, CallResult, column};
use crate::calls::batch_result;
use crate::numbered;
use crate::outcome::{Outcome, put_value, report};
use crate::parts::Parts;
use std::alloc::{AllocError, Global};

/// Writes the text of the kind that a text is mended to.
#[unsafe(no_mangle)]
pub extern "C" fn fluent_uri_mend(
    alloc: Global,
    kind: u32,
    text: &[u8],
    out: &mut [u8],
    parts: &mut [Parts],
    outcome: &mut Outcome,
) -> u32
    ensures text { LeavesValue (mend_result kind text.now) out.old out.new parts.old parts.new
        outcome.new result }
    ensures mended { result ≡ 0 → IsSomeAnd (kind_numbered kind) (λ kind.
        IsMended kind text.now (mended_text kind text.now)) }
{
    match numbered::mended(alloc, kind, text) {
        Ok(value) => {
            put_value(&value, out, parts, outcome);
            0
        }
        Err(why) => report(why, outcome),
    }
}

/// Writes the text of the kind that a link of a page is mended to: without the white space that
/// HTML drops.
#[unsafe(no_mangle)]
pub extern "C" fn fluent_uri_mend_link(
    alloc: Global,
    kind: u32,
    text: &[u8],
    out: &mut [u8],
    parts: &mut [Parts],
    outcome: &mut Outcome,
) -> u32
    ensures text { LeavesValueOrDenied (mend_link_takes_memory kind text.now)
        (mend_link_result kind text.now) out.old out.new parts.old parts.new outcome.new result }
    ensures mended { result ≡ 0 → IsSomeAnd (kind_numbered kind) (λ kind.
        IsMended kind (trimmed_link text.now) (mended_text kind (trimmed_link text.now))) }
{
    match numbered::mended_link(alloc, kind, text) {
        Ok(value) => {
            put_value(&value, out, parts, outcome);
            0
        }
        Err(why) => report(why, outcome),
    }
}

/// Mends texts to a kind.
#[derive(Clone, Copy)]
struct Mending {
    alloc: Global,
    kind: u32,
}

impl Call for Mending {
    ghost definition = { λ call. mending call.kind };

    /// Returns whether the number is one of the four kinds.
    fn is_valid(&self) -> bool {
        self.kind <= 3
    }

    /// Returns the text of the kind that a text is mended to, if there is one.
    fn call<'a>(&self, text: &'a [u8]) -> Result<Option<CallResult<'a>>, AllocError> {
        batch_result(numbered::mended(self.alloc, self.kind, text))
    }
}

/// Mends links of pages to a kind.
#[derive(Clone, Copy)]
struct MendingLinks {
    alloc: Global,
    kind: u32,
}

impl Call for MendingLinks {
    ghost definition = { λ call. mending_links call.kind };

    /// Returns whether the number is one of the four kinds.
    fn is_valid(&self) -> bool {
        self.kind <= 3
    }

    /// Returns the text of the kind that a link is mended to, if there is one.
    fn call<'a>(&self, text: &'a [u8]) -> Result<Option<CallResult<'a>>, AllocError> {
        batch_result(numbered::mended_link(self.alloc, self.kind, text))
    }
}

/// Writes the text of the kind that each text of a column is mended to.
#[unsafe(no_mangle)]
pub extern "C" fn fluent_uri_mend_batch(
    alloc: Global,
    kind: u32,
    texts: &[u8],
    offsets: &[u32],
    out: &mut [u8],
    out_offsets: &mut [u32],
    valid: &mut [u8],
    outcome: &mut Outcome,
) -> u32
    ensures { LeavesColumn (mending kind) (column32 texts.now offsets.now)
        (buffers out.old out_offsets.old valid.old) (buffers out.new out_offsets.new valid.new)
        outcome.new result }
{
    let call = Mending { alloc, kind };
    column(&call, texts, offsets, out, out_offsets, valid, outcome)
}

/// Writes the text of the kind that each link of a column is mended to.
#[unsafe(no_mangle)]
pub extern "C" fn fluent_uri_mend_link_batch(
    alloc: Global,
    kind: u32,
    texts: &[u8],
    offsets: &[u32],
    out: &mut [u8],
    out_offsets: &mut [u32],
    valid: &mut [u8],
    outcome: &mut Outcome,
) -> u32
    ensures { LeavesColumn (mending_links kind) (column32 texts.now offsets.now)
        (buffers out.old out_offsets.old valid.old) (buffers out.new out_offsets.new valid.new)
        outcome.new result }
{
    let call = MendingLinks { alloc, kind };
    column(&call, texts, offsets, out, out_offsets, valid, outcome)
}

/// Writes the text of the kind that each text of a column is mended to, with offsets of 64
/// bits.
#[unsafe(no_mangle)]
pub extern "C" fn fluent_uri_mend_batch64(
    alloc: Global,
    kind: u32,
    texts: &[u8],
    offsets: &[u64],
    out: &mut [u8],
    out_offsets: &mut [u64],
    valid: &mut [u8],
    outcome: &mut Outcome,
) -> u32
    ensures { LeavesColumn (mending kind) (column64 texts.now offsets.now)
        (buffers out.old out_offsets.old valid.old) (buffers out.new out_offsets.new valid.new)
        outcome.new result }
{
    let call = Mending { alloc, kind };
    column(&call, texts, offsets, out, out_offsets, valid, outcome)
}

/// Writes the text of the kind that each link of a column is mended to, with offsets of 64
/// bits.
#[unsafe(no_mangle)]
pub extern "C" fn fluent_uri_mend_link_batch64(
    alloc: Global,
    kind: u32,
    texts: &[u8],
    offsets: &[u64],
    out: &mut [u8],
    out_offsets: &mut [u64],
    valid: &mut [u8],
    outcome: &mut Outcome,
) -> u32
    ensures { LeavesColumn (mending_links kind) (column64 texts.now offsets.now)
        (buffers out.old out_offsets.old valid.old) (buffers out.new out_offsets.new valid.new)
        outcome.new result }
{
    let call = MendingLinks { alloc, kind };
    column(&call, texts, offsets, out, out_offsets, valid, outcome)
}
