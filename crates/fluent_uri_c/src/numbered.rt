//! What each call returns for the kind of a number. A value of any kind is one of IRI references
//! too, so that what follows is compiled once.
ghost use Rattle.std.specs.Prelude.{◌≡◌, IfOk, IsSomeAnd};
ghost use Rattle.fluent_uri.specs.Prelude.{reference_text};
ghost use Rattle.uri_mend.specs.Mended.{IsMended};
ghost use Rattle.uri_mend.specs.Trimming.{trimmed_link};
ghost use Rattle.uri_relative.specs.Relativized.{IsRelativized};
ghost use Rattle.fluent_uri_c.specs.Kinds.{base_numbered, kind_numbered};
ghost use Rattle.fluent_uri_c.specs.Mends.{mend_link_result, mend_link_takes_memory, mend_result};
ghost use Rattle.fluent_uri_c.specs.NormalForms.{normal_form_text};
ghost use Rattle.fluent_uri_c.specs.Options.{basic_choice, path_preference, rules_choice};
ghost use Rattle.fluent_uri_c.specs.Relatives.{relativize_result};
ghost use Rattle.fluent_uri_c.specs.Results.{IsReturnedAs, IsReturnedOrDenied, normalize_result, to_uri_result};

use crate::errors::{Error, Rejection};
use crate::normal_forms::{self, NormalForm};
use crate::texts;
use fluent_uri::IriRef;
use std::alloc::Global;
use uri_ops::scheme_rules::RuleSet;
use uri_parts::kind::{IriKind, IriRefKind, UriKind, UriRefKind};

/// Returns the set of rules that options of the header ask for, if they are options of a call that
/// normalises.
pub fn rule_set(options: u32) -> Option<RuleSet>
    ensures { result ≡ rules_choice options }
{
    match options {
        0 => Some(RuleSet::DefaultPorts),
        2 => Some(RuleSet::StandardRules),
        _ => None,
    }
}

/// Returns the normal form of a text of the kind with this number of the header, by options of the
/// header.
pub fn normal_form<'a>(
    alloc: Global,
    kind: u32,
    options: u32,
    text: &'a [u8],
) -> Result<NormalForm<'a>, Rejection>
    ensures { IsReturnedAs normal_form_text (normalize_result kind options text.now) result }
{
    let Some(rules) = rule_set(options) else {
        return Err(Rejection::of(Error::InvalidArgument));
    };
    match kind {
        0 => normal_forms::normal_form::<UriKind>(alloc, text, rules),
        1 => normal_forms::normal_form::<UriRefKind>(alloc, text, rules),
        2 => normal_forms::normal_form::<IriKind>(alloc, text, rules),
        3 => normal_forms::normal_form::<IriRefKind>(alloc, text, rules),
        _ => Err(Rejection::of(Error::InvalidArgument)),
    }
}

/// Returns a text of the kind of IRIs with this number of the header as a URI or a URI reference.
pub fn as_uri(alloc: Global, kind: u32, text: &[u8]) -> Result<IriRef<String>, Rejection>
    ensures { IsReturnedAs reference_text (to_uri_result kind text.now) result }
{
    match kind {
        2 => Ok(IriRef::from(texts::uri_of_iri(alloc, text)?)),
        3 => Ok(IriRef::from(texts::uri_ref_of_iri_ref(alloc, text)?)),
        _ => Err(Rejection::of(Error::InvalidArgument)),
    }
}

/// Returns whether options of the header ask for the basic algorithm, if they are options of a call
/// that resolves.
pub fn is_basic(options: u32) -> Option<bool>
    ensures { result ≡ basic_choice options }
{
    match options {
        0 => Some(false),
        4 => Some(true),
        _ => None,
    }
}

/// Returns whether options of the header prefer a relative path, if they are options of a call that
/// makes references.
pub fn prefers_relative_path(options: u32) -> Option<bool>
    ensures { result ≡ path_preference options }
{
    match options {
        0 => Some(false),
        1 => Some(true),
        _ => None,
    }
}

/// Returns a reference that leads from a base to a target, both of the kind with this number of the
/// header, by options of the header.
pub fn reference(
    alloc: Global,
    kind: u32,
    options: u32,
    base: &[u8],
    target: &[u8],
) -> Result<IriRef<String>, Rejection>
    ensures text { IsReturnedAs reference_text
        (relativize_result kind options base.now target.now) result }
    ensures leads { IfOk result (λ reference. IsSomeAnd (path_preference options)
        (λ prefers. IsSomeAnd (base_numbered kind) (λ kind.
        IsRelativized kind prefers base.now target.now (reference_text reference)))) }
{
    let Some(prefers) = prefers_relative_path(options) else {
        return Err(Rejection::of(Error::InvalidArgument));
    };
    match kind {
        0 => Ok(IriRef::from(texts::reference::<UriKind>(alloc, base, target, prefers)?)),
        2 => Ok(IriRef::from(texts::reference::<IriKind>(alloc, base, target, prefers)?)),
        _ => Err(Rejection::of(Error::InvalidArgument)),
    }
}

/// Returns the text of the kind with this number of the header that a text is mended to.
pub fn mended(alloc: Global, kind: u32, text: &[u8]) -> Result<IriRef<String>, Rejection>
    ensures text { IsReturnedAs reference_text (mend_result kind text.now) result }
    ensures mended { IfOk result (λ made. IsSomeAnd (kind_numbered kind) (λ kind.
        IsMended kind text.now (reference_text made))) }
{
    match kind {
        0 => Ok(IriRef::from(texts::mended::<UriKind>(alloc, text)?)),
        1 => Ok(IriRef::from(texts::mended::<UriRefKind>(alloc, text)?)),
        2 => Ok(IriRef::from(texts::mended::<IriKind>(alloc, text)?)),
        3 => texts::mended::<IriRefKind>(alloc, text),
        _ => Err(Rejection::of(Error::InvalidArgument)),
    }
}

/// Returns the text of the kind with this number of the header that a link of a page is mended to.
pub fn mended_link(alloc: Global, kind: u32, text: &[u8]) -> Result<IriRef<String>, Rejection>
    ensures text { IsReturnedOrDenied (mend_link_takes_memory kind text.now) reference_text
        (mend_link_result kind text.now) result }
    ensures mended { IfOk result (λ made. IsSomeAnd (kind_numbered kind) (λ kind.
        IsMended kind (trimmed_link text.now) (reference_text made))) }
{
    match kind {
        0 => Ok(IriRef::from(texts::mended_link::<UriKind>(alloc, text)?)),
        1 => Ok(IriRef::from(texts::mended_link::<UriRefKind>(alloc, text)?)),
        2 => Ok(IriRef::from(texts::mended_link::<IriKind>(alloc, text)?)),
        3 => texts::mended_link::<IriRefKind>(alloc, text),
        _ => Err(Rejection::of(Error::InvalidArgument)),
    }
}
