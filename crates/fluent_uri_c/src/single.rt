//! The calls on one text.
ghost use Rattle.std.specs.Prelude.{◌≡◌};
ghost use Rattle.fluent_uri_c.specs.Kinds.{kind_numbered};
ghost use Rattle.fluent_uri_c.specs.Outcomes.{LeavesText};
ghost use Rattle.fluent_uri_c.specs.Results.{if_possible_lengths, decode_result, encode_result, normalize_result, resolve_normalized_result, resolve_result, takes_memory_for_target, to_uri_result};
ghost use Rattle.fluent_uri_c.specs.Spans.{ArePartsOf};
ghost use Rattle.fluent_uri_c.specs.Values.{LeavesValue, LeavesValueOrDenied};

use crate::errors::{Error, Rejection};
use crate::numbered::{is_basic, rule_set};
use crate::outcome::{Outcome, put, put_or_report, put_value_or_report, report};
use crate::parts::{Parts, parse};
use crate::texts::lengths_error;
use crate::values::{normalize, resolve, resolve_normalized};
use crate::{codes, numbered};
use std::alloc::Global;
use uri_parts::kind::{IriKind, IriRefKind, UriKind, UriRefKind};

/// Parses a text as the kind, and reports where its components are. Takes no memory.
#[unsafe(no_mangle)]
pub extern "C" fn fluent_uri_parse(kind: u32, text: &[u8], parts: &mut Parts) -> u32
    ensures error { parts.new.error ≡ result }
    ensures parts { ArePartsOf (kind_numbered kind) text.now parts.new }
{
    parse(kind, text, parts)
}

/// Writes the normal form of a text of the kind by options, and its parts if there is room for
/// these.
#[unsafe(no_mangle)]
pub extern "C" fn fluent_uri_normalize(
    alloc: Global,
    kind: u32,
    options: u32,
    text: &[u8],
    out: &mut [u8],
    parts: &mut [Parts],
    outcome: &mut Outcome,
) -> u32
    ensures { LeavesValue (normalize_result kind options text.now)
        out.old out.new parts.old parts.new outcome.new result }
{
    let Some(rules) = rule_set(options) else {
        return report(Rejection::of(Error::InvalidArgument), outcome);
    };
    match kind {
        0 => normalize::<UriKind>(alloc, rules, text, out, parts, outcome),
        1 => normalize::<UriRefKind>(alloc, rules, text, out, parts, outcome),
        2 => normalize::<IriKind>(alloc, rules, text, out, parts, outcome),
        3 => normalize::<IriRefKind>(alloc, rules, text, out, parts, outcome),
        _ => report(Rejection::of(Error::InvalidArgument), outcome),
    }
}

/// Writes the target of a reference against a base of the kind without its fragment, by options.
#[unsafe(no_mangle)]
pub extern "C" fn fluent_uri_resolve(
    alloc: Global,
    kind: u32,
    options: u32,
    base: &[u8],
    reference: &[u8],
    out: &mut [u8],
    parts: &mut [Parts],
    outcome: &mut Outcome,
) -> u32
    ensures { let returned = if_possible_lengths base.now reference.now
        (resolve_result kind options base.now reference.now) in
        LeavesValueOrDenied (takes_memory_for_target returned) returned
        out.old out.new parts.old parts.new outcome.new result }
{
    if let Some(why) = lengths_error(base, reference) {
        return report(why, outcome);
    }
    let Some(is_basic) = is_basic(options) else {
        return report(Rejection::of(Error::InvalidArgument), outcome);
    };
    match kind {
        0 => resolve::<UriRefKind>(alloc, is_basic, base, reference, out, parts, outcome),
        2 => resolve::<IriRefKind>(alloc, is_basic, base, reference, out, parts, outcome),
        _ => report(Rejection::of(Error::InvalidArgument), outcome),
    }
}

/// Writes the normal form of the target of a reference against a base of the kind without its
/// fragment, by options.
#[unsafe(no_mangle)]
pub extern "C" fn fluent_uri_resolve_normalized(
    alloc: Global,
    kind: u32,
    options: u32,
    base: &[u8],
    reference: &[u8],
    out: &mut [u8],
    parts: &mut [Parts],
    outcome: &mut Outcome,
) -> u32
    ensures { LeavesValue (if_possible_lengths base.now reference.now
        (resolve_normalized_result kind options base.now reference.now))
        out.old out.new parts.old parts.new outcome.new result }
{
    if let Some(why) = lengths_error(base, reference) {
        return report(why, outcome);
    }
    let Some(rules) = rule_set(options) else {
        return report(Rejection::of(Error::InvalidArgument), outcome);
    };
    match kind {
        0 => {
            resolve_normalized::<UriRefKind>(alloc, rules, base, reference, out, parts, outcome)
        }
        2 => {
            resolve_normalized::<IriRefKind>(alloc, rules, base, reference, out, parts, outcome)
        }
        _ => report(Rejection::of(Error::InvalidArgument), outcome),
    }
}

/// Writes a text of a kind of IRIs as a URI or a URI reference.
#[unsafe(no_mangle)]
pub extern "C" fn fluent_uri_to_uri(
    alloc: Global,
    kind: u32,
    text: &[u8],
    out: &mut [u8],
    parts: &mut [Parts],
    outcome: &mut Outcome,
) -> u32
    ensures { LeavesValue (to_uri_result kind text.now) out.old out.new parts.old parts.new
        outcome.new result }
{
    put_value_or_report(numbered::as_uri(alloc, kind, text), out, parts, outcome)
}

/// Writes the bytes that a component decodes to.
#[unsafe(no_mangle)]
pub extern "C" fn fluent_uri_decode(
    alloc: Global,
    component: u32,
    text: &[u8],
    out: &mut [u8],
    outcome: &mut Outcome,
) -> u32
    ensures { LeavesText (decode_result component text.now) out.old out.new outcome.new
        result }
{
    match codes::decoded(alloc, component, text) {
        Ok(bytes) => {
            put(bytes.as_slice(), out, outcome);
            0
        }
        Err(why) => report(why, outcome),
    }
}

/// Writes bytes, encoded as data of a component.
#[unsafe(no_mangle)]
pub extern "C" fn fluent_uri_encode(
    alloc: Global,
    component: u32,
    bytes: &[u8],
    out: &mut [u8],
    outcome: &mut Outcome,
) -> u32
    ensures { LeavesText (encode_result component bytes.now) out.old out.new outcome.new
        result }
{
    put_or_report(codes::encoded(alloc, component, bytes), out, outcome)
}
