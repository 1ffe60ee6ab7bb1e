//! The calls of `fluent_uri` on bytes, for each kind.
ghost use Rattle.std.specs.Prelude.{◌≡◌, ◌↔◌, IfOk, IfSome, IsOk, IsTrue, None};
ghost use Rattle.std.specs.Result.{result_err};
ghost use Rattle.std.specs.Str.{IsUtf8, IsValidUpTo};
ghost use Rattle.std.specs.Str.Lossy.{utf8_valid_len};
ghost use Rattle.fluent_uri.specs.Prelude.{iri, iri_ref, reference_kind, reference_text};
ghost use Rattle.uri_mend.specs.Mended.{IsMended};
ghost use Rattle.uri_mend.specs.Trimming.{trimmed_link};
ghost use Rattle.uri_relative.specs.Relativized.{IsRelativized};
ghost use Rattle.fluent_uri_c.specs.declared.errors.Error.TheVariants.{InvalidArgument};
ghost use Rattle.fluent_uri_c.specs.Mends.{mended_link_result, mended_result, takes_memory_for_link};
ghost use Rattle.fluent_uri_c.specs.Relatives.{reference_from};
ghost use Rattle.fluent_uri_c.specs.Results.{IsReturnedAs, IsReturnedOrDenied, IsTargetReturned, basic_resolution, encoded_result, resolution_by, lengths_error, normal_target_from, rejection_or_result, second_text_error, target_from, text_error, IsPossibleText, IsPossibleUtf8, is_possible_length, normal_resolution, resolution, utf8_error};

use crate::ascii::is_ascii;
use crate::errors::{Error, Rejection};
use fluent_uri::kind::{BaseKind, RefKind};
use fluent_uri::normalize::Normalizer;
use fluent_uri::resolve::Resolver;
use fluent_uri::{Iri, IriRef, Reference, Uri, UriRef};
use std::alloc::Global;
use uri_basic::BasicResolver;
use uri_mend::Mend;
use uri_ops::scheme_rules::RuleSet;
use uri_parts::core_text::Core;
use uri_parts::kind::{IriKind, IriRefKind, Kind};
use uri_parts::parse::parse;
use uri_relative::Relativizer;

/// Returns whether bytes that C hands over are no more than `PTRDIFF_MAX`, so that they can be
/// there.
#[inline(always)]
pub fn is_possible_length(bytes: &[u8]) -> bool
    ensures { result ≡ is_possible_length bytes.now }
{
    bytes.len() < 1 << 63
}

/// Returns why two texts that C hands over are rejected for their lengths, if they are.
pub fn lengths_error(first: &[u8], second: &[u8]) -> Option<Rejection>
    ensures error { result ≡ lengths_error first.now second.now }
    ensures invalid { IfSome result (λ why. why.error ≡ InvalidArgument) }
    ensures possible { result ≡ None
        → IsTrue (is_possible_length first.now) × IsTrue (is_possible_length second.now) }
{
    let why = Rejection::of(Error::InvalidArgument);
    if !is_possible_length(first) {
        return Some(why);
    }
    if !is_possible_length(second) {
        return Some(why.in_reference());
    }
    None
}

/// Returns where bytes that C hands over stop being UTF-8, or `None` if they are UTF-8.
#[inline(never)]
fn utf8_end(bytes: &[u8]) -> Option<usize>
    ensures valid { result ≡ None → IsUtf8 bytes.now }
    ensures invalid { IfSome result (λ end. ¬ (IsUtf8 bytes.now) × IsValidUpTo bytes.now end) }
    ensures index { IfSome result (λ end. end ≡ utf8_valid_len bytes.now) }
{
    match std::str::from_utf8(bytes) {
        Ok(_) => None,
        Err(error) => Some(error.valid_up_to()),
    }
}

/// Returns bytes that C hands over as a text, if they are UTF-8. Most are ASCII, which is tested in
/// blocks.
#[inline(always)]
pub fn utf8_text(bytes: &[u8]) -> Result<&str, Rejection>
    ensures accepts { IsOk result ↔ IsPossibleUtf8 bytes.now }
    ensures text { IfOk result (λ text. text.now ≡ bytes.now) }
    ensures rejected { result_err result ≡ utf8_error bytes.now }
{
    if !is_possible_length(bytes) {
        return Err(Rejection::of(Error::InvalidArgument));
    }
    if is_ascii(bytes) {
        return Ok(unsafe { std::str::from_utf8_unchecked(bytes) });
    }
    match utf8_end(bytes) {
        None => Ok(unsafe { std::str::from_utf8_unchecked(bytes) }),
        Some(end) => Err(Rejection::at(Error::NotUtf8, end)),
    }
}

/// Parses bytes that C hands over as a text of the kind.
#[inline(always)]
pub fn parsed<'a, K: Kind>(bytes: &'a [u8]) -> Result<Reference<K, &'a str>, Rejection>
    ensures accepts { IsOk result ↔ IsPossibleText K.kind bytes.now }
    ensures text { IfOk result (λ value. reference_text value ≡ bytes.now) }
    ensures rejected { result_err result ≡ text_error K.kind bytes.now }
{
    let text = utf8_text(bytes)?;
    match parse::<K>(text) {
        Ok(positions) => Ok(Reference::of_core(Core::new(text, positions))),
        Err(error) => Err(Rejection::from(error)),
    }
}

/// Returns bytes that are an IRI as a URI.
pub fn uri_of_iri(alloc: Global, bytes: &[u8]) -> Result<Uri<String>, Rejection>
    ensures { IsReturnedAs reference_text (encoded_result iri bytes.now) result }
{
    let value: Iri<&str> = parsed::<IriKind>(bytes)?;
    Ok(value.to_uri(alloc)?)
}

/// Returns bytes that are an IRI reference as a URI reference.
pub fn uri_ref_of_iri_ref(alloc: Global, bytes: &[u8]) -> Result<UriRef<String>, Rejection>
    ensures { IsReturnedAs reference_text (encoded_result iri_ref bytes.now) result }
{
    let value: IriRef<&str> = parsed::<IriRefKind>(bytes)?;
    Ok(value.to_uri_ref(alloc)?)
}

/// Returns the target of a reference against a base without its fragment, both parsed from bytes.
#[inline(always)]
pub fn resolve_text<K: RefKind>(
    alloc: Global,
    base: &Reference<K::Base, &str>,
    reference: &Reference<K, &str>,
) -> Result<Reference<K::Base, String>, Rejection>
    ensures { IsReturnedAs reference_text
        (resolution (reference_text base.now) (reference_text reference.now)) result }
{
    match reference.resolve_against(alloc, &base.strip_fragment()) {
        Ok(target) => Ok(target),
        Err(error) => Err(Rejection::from(error)),
    }
}

/// Returns the target of a reference against a base by the basic algorithm, both parsed from bytes.
pub fn resolve_text_by_basic_algorithm<K: RefKind>(
    alloc: Global,
    base: &Reference<K::Base, &str>,
    reference: &Reference<K, &str>,
) -> Result<Reference<K::Base, String>, Rejection>
    ensures { IsTargetReturned reference_text
        (basic_resolution (reference_text base.now) (reference_text reference.now)) result }
{
    match BasicResolver::with_base(*base).resolve(alloc, reference) {
        Ok(target) => Ok(target),
        Err(error) => Err(Rejection::from(error)),
    }
}

/// Returns the target of a reference against a base, both parsed from bytes. The flag says whether
/// it is by the basic algorithm.
#[inline(always)]
fn resolve_text_by<K: RefKind>(
    alloc: Global,
    is_basic: bool,
    base: &Reference<K::Base, &str>,
    reference: &Reference<K, &str>,
) -> Result<Reference<K::Base, String>, Rejection>
    ensures { IsTargetReturned reference_text
        (resolution_by is_basic (reference_text base.now) (reference_text reference.now)) result }
{
    if is_basic {
        return resolve_text_by_basic_algorithm(alloc, base, reference);
    }
    resolve_text(alloc, base, reference)
}

/// Returns the normal form of the target of a reference against a base without its fragment, both
/// parsed from bytes.
#[inline(always)]
fn resolve_normalized_text<K: RefKind>(
    alloc: Global,
    base: &Reference<K::Base, &str>,
    reference: &Reference<K, &str>,
    rules: RuleSet,
) -> Result<Reference<K::Base, String>, Rejection>
    ensures { IsReturnedAs reference_text (normal_resolution rules K.Base.kind
        (reference_text base.now) (reference_text reference.now)) result }
{
    let resolver = Resolver::with_base(base.strip_fragment());
    let normalizer = Normalizer::new().scheme_rules_with(rules);
    match resolver.resolve_normalized(alloc, reference, &normalizer) {
        Ok(target) => Ok(target),
        Err(error) => Err(Rejection::from(error)),
    }
}

/// Parses bytes that C hands over as a reference, which is the second text of its call.
#[inline(always)]
pub fn parsed_reference<'a, K: RefKind>(bytes: &'a [u8]) -> Result<Reference<K, &'a str>, Rejection>
    ensures text { IfOk result (λ value. reference_text value ≡ bytes.now) }
    ensures rejected { result_err result
        ≡ second_text_error (reference_kind K.Base.kind) bytes.now }
{
    match parsed::<K>(bytes) {
        Ok(reference) => Ok(reference),
        Err(why) => Err(why.in_reference()),
    }
}

/// Returns the target of a reference, as bytes, against a base. The flag says whether it is by the
/// basic algorithm.
#[inline(always)]
pub fn target_from<K: RefKind>(
    alloc: Global,
    is_basic: bool,
    base: &Reference<K::Base, &str>,
    reference: &[u8],
) -> Result<Reference<K::Base, String>, Rejection>
    ensures { IsTargetReturned reference_text
        (target_from is_basic K.Base.kind (reference_text base.now) reference.now) result }
{
    match parsed::<K>(reference) {
        Ok(reference) => resolve_text_by(alloc, is_basic, base, &reference),
        Err(why) => Err(why.in_reference()),
    }
}

/// Returns the normal form of the target of a reference, as bytes, against a base.
#[inline(always)]
pub fn normal_target_from<K: RefKind>(
    alloc: Global,
    base: &Reference<K::Base, &str>,
    reference: &[u8],
    rules: RuleSet,
) -> Result<Reference<K::Base, String>, Rejection>
    ensures { IsReturnedAs reference_text (normal_target_from rules K.Base.kind
        (reference_text base.now) reference.now) result }
{
    match parsed::<K>(reference) {
        Ok(reference) => resolve_normalized_text(alloc, base, &reference, rules),
        Err(why) => Err(why.in_reference()),
    }
}

/// Returns a reference that leads from a base to a target, which is bytes. The last argument says
/// whether it has a relative path even if the path from the root is shorter.
pub fn reference_from<K: BaseKind>(
    alloc: Global,
    base: &Reference<K, &str>,
    target: &[u8],
    prefers: bool,
) -> Result<Reference<K::Ref, String>, Rejection>
    ensures text { IsReturnedAs reference_text
        (reference_from prefers K.kind (reference_text base.now) target.now) result }
    ensures leads { IfOk result (λ reference. IsRelativized K.kind prefers
        (reference_text base.now) target.now (reference_text reference)) }
{
    let relativizer = Relativizer::with_base(*base).prefer_relative_path(prefers);
    match parsed::<K>(target) {
        Ok(target) => Ok(relativizer.relativize(alloc, &target)?),
        Err(why) => Err(why.in_reference()),
    }
}

/// Returns the normal form of the target of a reference against a base, both as bytes.
#[inline(always)]
pub fn normal_target<K: RefKind>(
    alloc: Global,
    base: &[u8],
    reference: &[u8],
    rules: RuleSet,
) -> Result<Reference<K::Base, String>, Rejection>
    ensures { IsReturnedAs reference_text (rejection_or_result (text_error K.Base.kind base.now)
        (normal_target_from rules K.Base.kind base.now reference.now)) result }
{
    let base = parsed::<K::Base>(base)?;
    normal_target_from::<K>(alloc, &base, reference, rules)
}

/// Returns a reference that leads from a base to a target, both as bytes, as `reference_from` does.
pub fn reference<K: BaseKind>(
    alloc: Global,
    base: &[u8],
    target: &[u8],
    prefers: bool,
) -> Result<Reference<K::Ref, String>, Rejection>
    ensures text { IsReturnedAs reference_text (rejection_or_result (text_error K.kind base.now)
        (reference_from prefers K.kind base.now target.now)) result }
    ensures leads { IfOk result (λ reference.
        IsRelativized K.kind prefers base.now target.now (reference_text reference)) }
{
    let base = parsed::<K>(base)?;
    reference_from(alloc, &base, target, prefers)
}

/// Returns the text of the kind that bytes are mended to.
pub fn mended<K: Kind>(alloc: Global, bytes: &[u8]) -> Result<Reference<K, String>, Rejection>
    ensures text { IsReturnedAs reference_text (mended_result K.kind bytes.now) result }
    ensures mended { IfOk result (λ made. IsMended K.kind bytes.now (reference_text made)) }
{
    let text = utf8_text(bytes)?;
    match Reference::<K, String>::mend(alloc, text) {
        Ok(made) => Ok(made),
        Err(error) => Err(Rejection::from(error)),
    }
}

/// Returns the text of the kind that bytes are mended to as a link of a page.
pub fn mended_link<K: Kind>(alloc: Global, bytes: &[u8]) -> Result<Reference<K, String>, Rejection>
    ensures text { IsReturnedOrDenied (takes_memory_for_link K.kind bytes.now) reference_text
        (mended_link_result K.kind bytes.now) result }
    ensures mended { IfOk result (λ made.
        IsMended K.kind (trimmed_link bytes.now) (reference_text made)) }
{
    let text = utf8_text(bytes)?;
    match Reference::<K, String>::mend_link(alloc, text) {
        Ok(made) => Ok(made),
        Err(error) => Err(Rejection::from(error)),
    }
}
