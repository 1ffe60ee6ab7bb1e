//! The calls on one text, for each kind, that write a value: the text and its parts.
ghost use Rattle.std.specs.Prelude.{◌≡◌, ◌+◌, ◌++◌, ◌≤◌, Bool, Ok, false, length, true};
ghost use Rattle.fluent_uri.specs.Prelude.{IsTextOf, reference_text};
ghost use Rattle.uri_parts.specs.Prelude.{ArePackedPositionsOf};
ghost use Rattle.fluent_uri_c.specs.Outcomes.{outcome_of_text, written};
ghost use Rattle.fluent_uri_c.specs.Results.{normal_form_of, normal_result, normal_target_from, rejection_or_result, resolution, resolution_by, takes_memory_for_target, target_from, text_error};
ghost use Rattle.fluent_uri_c.specs.Values.{HasPartsFirst, LeavesValue, LeavesValueOrDenied};

use crate::errors::{Error, Rejection};
use crate::normal_forms::{is_own_normal_form, normalized};
use crate::outcome::{Outcome, put_pieces, put_value, put_value_or_report, report};
use crate::parts::{Parts, write_first_parts};
use crate::texts::{self, parsed, parsed_reference};
use fluent_uri::Reference;
use fluent_uri::kind::{BaseKind, RefKind};
use std::alloc::Global;
use uri_ops::resolve::resolve_to_pieces;
use uri_ops::resolve::target_pieces::TargetPieces;
use uri_ops::scheme_rules::RuleSet;
use uri_parts::core_text::Core;
use uri_parts::kind::Kind;

/// Writes the normal form of a value, from the input if the text is found to be its own, or reports
/// that memory is out. Returns the number of the error, or 0.
#[inline(always)]
fn write_normal_form<K: Kind>(
    alloc: Global,
    rules: RuleSet,
    value: &Reference<K, &str>,
    out: &mut [u8],
    parts: &mut [Parts],
    outcome: &mut Outcome,
) -> u32
    ensures { LeavesValue (Ok (normal_form_of rules K.kind (reference_text value.now)))
        out.old out.new parts.old parts.new outcome.new result }
{
    if is_own_normal_form(rules, value) {
        put_value(value, out, parts, outcome);
        return 0;
    }
    match normalized(alloc, rules, value) {
        Ok(normal) => {
            put_value(&normal, out, parts, outcome);
            0
        }
        Err(_) => report(Rejection::of(Error::OutOfMemory), outcome),
    }
}

/// Writes the normal form of bytes that are a text of the kind, or reports why there is none.
/// Returns the number of the error, or 0.
pub fn normalize<K: Kind>(
    alloc: Global,
    rules: RuleSet,
    text: &[u8],
    out: &mut [u8],
    parts: &mut [Parts],
    outcome: &mut Outcome,
) -> u32
    ensures { LeavesValue (normal_result rules K.kind text.now)
        out.old out.new parts.old parts.new outcome.new result }
{
    match parsed::<K>(text) {
        Ok(value) => write_normal_form(alloc, rules, &value, out, parts, outcome),
        Err(why) => report(why, outcome),
    }
}

/// Writes a target that is two pieces, for which the buffer is long enough: the text and its parts.
#[inline(always)]
fn put_target<K: Kind>(
    target: &TargetPieces<'_>,
    out: &mut [u8],
    parts: &mut [Parts],
    outcome: &mut Outcome,
)
    requires of_kind { IsTextOf K.kind (target.now.prefix.now ++ target.now.suffix.now) }
    requires at { ArePackedPositionsOf (target.now.prefix.now ++ target.now.suffix.now)
        target.now.positions }
    requires fits { length target.now.prefix.now + length target.now.suffix.now
        ≤ length out.old }
    ensures outcome { outcome.new
        ≡ outcome_of_text (target.now.prefix.now ++ target.now.suffix.now) }
    ensures written { out.new
        ≡ written (target.now.prefix.now ++ target.now.suffix.now) out.old }
    ensures parts { HasPartsFirst (target.now.prefix.now ++ target.now.suffix.now)
        parts.old parts.new }
{
    let (prefix, suffix) = (target.prefix.as_bytes(), target.suffix.as_bytes());
    let end = prefix.len() + suffix.len();
    put_pieces(prefix, suffix, out, outcome);
    let text = unsafe { std::str::from_utf8_unchecked(&out[..end]) };
    let value: Reference<K, &str> = Reference::of_core(Core::new(text, target.positions));
    write_first_parts(&value, parts);
}

/// Writes the target of a reference against a base, if it is plainly a prefix of the one and a
/// suffix of the other, and fits the buffer. Returns whether it is written. Takes no memory.
#[inline(always)]
fn put_pieces_of_target<K: RefKind>(
    base: &Reference<K::Base, &str>,
    reference: &Reference<K, &str>,
    out: &mut [u8],
    parts: &mut [Parts],
    outcome: &mut Outcome,
) -> bool
    ensures written { result ≡ true → (takes_memory : Bool) → LeavesValueOrDenied takes_memory
        (resolution (reference_text base.now) (reference_text reference.now))
        out.old out.new parts.old parts.new outcome.new 0 }
    ensures out { result ≡ false → out.new ≡ out.old }
    ensures parts { result ≡ false → parts.new ≡ parts.old }
{
    let base = base.strip_fragment();
    let Some(target) = resolve_to_pieces(&base, reference, true) else {
        return false;
    };
    if out.len() < target.prefix.len() || out.len() - target.prefix.len() < target.suffix.len() {
        return false;
    }
    put_target::<K::Base>(&target, out, parts, outcome);
    true
}

/// Writes the target of a reference against a base, both parsed, or reports why there is none. The
/// flag says whether it is by the basic algorithm. Returns the number of the error, or 0.
#[inline(always)]
fn resolve_parsed<K: RefKind>(
    alloc: Global,
    is_basic: bool,
    base: &Reference<K::Base, &str>,
    reference: &Reference<K, &str>,
    out: &mut [u8],
    parts: &mut [Parts],
    outcome: &mut Outcome,
) -> u32
    ensures { let returned = resolution_by is_basic (reference_text base.now)
        (reference_text reference.now) in
        LeavesValueOrDenied (takes_memory_for_target returned) returned
        out.old out.new parts.old parts.new outcome.new result }
{
    if is_basic {
        let target = texts::resolve_text_by_basic_algorithm::<K>(alloc, base, reference);
        return put_value_or_report(target, out, parts, outcome);
    }
    if put_pieces_of_target::<K>(base, reference, out, parts, outcome) {
        return 0;
    }
    let target = texts::resolve_text::<K>(alloc, base, reference);
    put_value_or_report(target, out, parts, outcome)
}

/// Writes the target of a reference, as bytes, against a base, or reports why there is none. The
/// flag says whether it is by the basic algorithm. Returns the number of the error, or 0.
#[inline(always)]
fn resolve_against<K: RefKind>(
    alloc: Global,
    is_basic: bool,
    base: &Reference<K::Base, &str>,
    reference: &[u8],
    out: &mut [u8],
    parts: &mut [Parts],
    outcome: &mut Outcome,
) -> u32
    ensures { let returned = target_from is_basic K.Base.kind (reference_text base.now)
        reference.now in
        LeavesValueOrDenied (takes_memory_for_target returned) returned
        out.old out.new parts.old parts.new outcome.new result }
{
    match parsed_reference::<K>(reference) {
        Ok(reference) => {
            resolve_parsed::<K>(alloc, is_basic, base, &reference, out, parts, outcome)
        }
        Err(why) => report(why, outcome),
    }
}

/// Writes the target of a reference against a base, both as bytes, or reports why there is none.
/// The flag says whether it is by the basic algorithm. Returns the number of the error, or 0.
pub fn resolve<K: RefKind>(
    alloc: Global,
    is_basic: bool,
    base: &[u8],
    reference: &[u8],
    out: &mut [u8],
    parts: &mut [Parts],
    outcome: &mut Outcome,
) -> u32
    ensures { let returned = rejection_or_result (text_error K.Base.kind base.now)
        (target_from is_basic K.Base.kind base.now reference.now) in
        LeavesValueOrDenied (takes_memory_for_target returned) returned
        out.old out.new parts.old parts.new outcome.new result }
{
    match parsed::<K::Base>(base) {
        Ok(base) => { resolve_against::<K>(alloc, is_basic, &base, reference, out, parts, outcome) }
        Err(why) => report(why, outcome),
    }
}

/// Writes the normal form of the target of a reference against a base, both as bytes, or reports
/// why there is none. Returns the number of the error, or 0.
pub fn resolve_normalized<K: RefKind>(
    alloc: Global,
    rules: RuleSet,
    base: &[u8],
    reference: &[u8],
    out: &mut [u8],
    parts: &mut [Parts],
    outcome: &mut Outcome,
) -> u32
    ensures { LeavesValue (rejection_or_result (text_error K.Base.kind base.now)
        (normal_target_from rules K.Base.kind base.now reference.now))
        out.old out.new parts.old parts.new outcome.new result }
{
    put_value_or_report(
        texts::normal_target::<K>(alloc, base, reference, rules),
        out,
        parts,
        outcome,
    )
}
