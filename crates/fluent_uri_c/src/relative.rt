//! The inverse of resolving, on one base, and one target or each of a column.
ghost use Rattle.std.specs.Prelude.{◌≡◌, IsSomeAnd};
ghost use Rattle.uri_relative.specs.Relativized.{IsRelativized};
ghost use Rattle.uri_relative.specs.Rule.{reference_to};
ghost use Rattle.fluent_uri_c.specs.Columns.{LeavesColumn, buffers, column32, column64};
ghost use Rattle.fluent_uri_c.specs.Kinds.{base_numbered};
ghost use Rattle.fluent_uri_c.specs.Options.{path_preference};
ghost use Rattle.fluent_uri_c.specs.Relatives.{relativize_result};
ghost use Rattle.fluent_uri_c.specs.Results.{if_possible_lengths};
ghost use Rattle.fluent_uri_c.specs.SingleCalls.{relativizing};
ghost use Rattle.fluent_uri_c.specs.Values.{LeavesValue};
ghost use Rattle.fluent_uri_c.specs.Bases.{IsBaseOf};

use crate::bases::Base;
use crate::batch::{Call, CallResult, column};
use crate::calls::batch_result;
use crate::numbered;
use crate::outcome::{Outcome, put_value, report};
use crate::parts::Parts;
use crate::texts::{is_possible_length, lengths_error};
use std::alloc::{AllocError, Global};

/// Writes a reference that leads from a base to a target.
#[unsafe(no_mangle)]
pub extern "C" fn fluent_uri_relativize(
    alloc: Global,
    kind: u32,
    options: u32,
    base: &[u8],
    target: &[u8],
    out: &mut [u8],
    parts: &mut [Parts],
    outcome: &mut Outcome,
) -> u32
    ensures text { LeavesValue (if_possible_lengths base.now target.now
        (relativize_result kind options base.now target.now))
        out.old out.new parts.old parts.new outcome.new result }
    ensures leads { result ≡ 0 → IsSomeAnd (path_preference options) (λ prefers.
        IsSomeAnd (base_numbered kind) (λ kind. IsRelativized kind prefers
        base.now target.now (reference_to prefers base.now target.now))) }
{
    if let Some(why) = lengths_error(base, target) {
        return report(why, outcome);
    }
    match numbered::reference(alloc, kind, options, base, target) {
        Ok(value) => {
            put_value(&value, out, parts, outcome);
            0
        }
        Err(why) => report(why, outcome),
    }
}

/// Makes references that lead from a base of a kind to targets, by options.
#[derive(Clone, Copy)]
struct Relativize<'a> {
    alloc: Global,
    kind: u32,
    options: u32,
    bytes: &'a [u8],
    base: Base<'a>,
}

impl<'b> Call for Relativize<'b> {
    ghost definition = { λ call. relativizing call.kind call.options call.bytes.now };

    ghost is_ready = { λ call. IsBaseOf call.kind call.bytes.now call.base };

    /// Returns whether the numbers are a base's kind, a URI or an IRI, and options of this call,
    /// and the base can be there.
    fn is_valid(&self) -> bool {
        (self.kind == 0 || self.kind == 2) && self.options <= 1 && is_possible_length(self.bytes)
    }

    /// Returns the reference that leads from the base to a target, if both are of the kind.
    fn call<'a>(&self, text: &'a [u8]) -> Result<Option<CallResult<'a>>, AllocError> {
        batch_result(self.base.reference(self.alloc, self.options, text))
    }
}

/// Writes a reference that leads from a base to each target of a column.
#[unsafe(no_mangle)]
pub extern "C" fn fluent_uri_relativize_batch(
    alloc: Global,
    kind: u32,
    options: u32,
    base: &[u8],
    texts: &[u8],
    offsets: &[u32],
    out: &mut [u8],
    out_offsets: &mut [u32],
    valid: &mut [u8],
    outcome: &mut Outcome,
) -> u32
    ensures { LeavesColumn (relativizing kind options base.now)
        (column32 texts.now offsets.now) (buffers out.old out_offsets.old valid.old)
        (buffers out.new out_offsets.new valid.new) outcome.new result }
{
    let call = Relativize {
        alloc,
        kind,
        options,
        bytes: base,
        base: Base::parse(kind, base),
    };
    column(&call, texts, offsets, out, out_offsets, valid, outcome)
}

/// Writes a reference that leads from a base to each target of a column, with offsets of 64 bits.
#[unsafe(no_mangle)]
pub extern "C" fn fluent_uri_relativize_batch64(
    alloc: Global,
    kind: u32,
    options: u32,
    base: &[u8],
    texts: &[u8],
    offsets: &[u64],
    out: &mut [u8],
    out_offsets: &mut [u64],
    valid: &mut [u8],
    outcome: &mut Outcome,
) -> u32
    ensures { LeavesColumn (relativizing kind options base.now)
        (column64 texts.now offsets.now) (buffers out.old out_offsets.old valid.old)
        (buffers out.new out_offsets.new valid.new) outcome.new result }
{
    let call = Relativize {
        alloc,
        kind,
        options,
        bytes: base,
        base: Base::parse(kind, base),
    };
    column(&call, texts, offsets, out, out_offsets, valid, outcome)
}
