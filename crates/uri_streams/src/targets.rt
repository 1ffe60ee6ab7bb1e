//! The results of `urilines resolve` and `urilines relativize` for a text.
ghost use Rattle.std.specs.Prelude.{◌≡◌, ◌≢◌, IfErr, IfOk};
ghost use Rattle.fluent_uri.specs.Prelude.{reference_text};
ghost use Rattle.uri_streams.specs.Results.{base_text, basic_target_result, reference_kind, relativize_result, resolve_result, target_kind, target_result, target_result_by};
ghost use Rattle.uri_streams.specs.Returned.{result_in};

use crate::command::Base;
use crate::fault::LineError;
use crate::line_result::{LineResult, refused};
use fluent_uri::kind::{BaseKind, IriKind, IriRefKind, RefKind, UriKind, UriRefKind};
use fluent_uri::resolve::ResolveError;
use fluent_uri::{ParseError, Reference};
use std::alloc::{AllocError, Global};
use uri_basic::{BasicResolveError, BasicResolver};
use uri_commands::refusal::CommandError;
use uri_relative::Relativizer;

/// Returns the result of `urilines resolve` for a text: its target against the base, or why it has
/// none. `is_basic` is whether the target is by the basic algorithm.
///
/// # Errors
///
/// Only if allocation fails.
pub(crate) fn resolve(
    alloc: Global,
    base: &Base<'_>,
    is_basic: bool,
    text: &str,
) -> Result<LineResult<'static>, AllocError>
    ensures { IfOk result (λ line. result_in line
        ≡ resolve_result is_basic (reference_kind base.now) (base_text base.now) text.now) }
{
    match base {
        Base::Uri(base) => resolve_text::<UriRefKind>(alloc, base, is_basic, text),
        Base::Iri(base) => resolve_text::<IriRefKind>(alloc, base, is_basic, text),
    }
}

/// Returns the result of `urilines resolve` for a text that is parsed as a reference of the kind.
fn resolve_text<K: RefKind>(
    alloc: Global,
    base: &Reference<K::Base, &str>,
    is_basic: bool,
    text: &str,
) -> Result<LineResult<'static>, AllocError>
    ensures { IfOk result (λ line. result_in line
        ≡ resolve_result is_basic K.kind (reference_text base.now) text.now) }
{
    match Reference::<K, &str>::parse(text) {
        Ok(reference) => resolve_reference(alloc, base, is_basic, &reference),
        Err(error) => Ok(refused(CommandError::Reference(error))),
    }
}

/// Returns the result of `urilines resolve` for a reference: its target against the base, or why it
/// has none. `is_basic` is whether the target is by the basic algorithm.
fn resolve_reference<K: RefKind>(
    alloc: Global,
    base: &Reference<K::Base, &str>,
    is_basic: bool,
    reference: &Reference<K, &str>,
) -> Result<LineResult<'static>, AllocError>
    ensures { IfOk result (λ line. result_in line ≡ target_result_by is_basic
        (reference_text base.now) (reference_text reference.now)) }
{
    if is_basic {
        return basic_target(alloc, base, reference);
    }
    target(alloc, base, reference)
}

/// Returns the result of `urilines resolve` without `--basic` for a reference: its target against
/// the base, or why it has none (RFC 3986, section 5.2).
fn target<K: RefKind>(
    alloc: Global,
    base: &Reference<K::Base, &str>,
    reference: &Reference<K, &str>,
) -> Result<LineResult<'static>, AllocError>
    ensures { IfOk result (λ line. result_in line
        ≡ target_result (reference_text base.now) (reference_text reference.now)) }
{
    match reference.resolve_against(alloc, base) {
        Ok(target) => Ok(LineResult::Text(target.into_string())),
        Err(error) => resolve_error_result(error),
    }
}

/// Returns the result of `urilines resolve --basic` for a reference: its target against the base by
/// the basic algorithm, or why it has none (RFC 3986, section 5.2).
fn basic_target<K: RefKind>(
    alloc: Global,
    base: &Reference<K::Base, &str>,
    reference: &Reference<K, &str>,
) -> Result<LineResult<'static>, AllocError>
    ensures { IfOk result (λ line. result_in line
        ≡ basic_target_result (reference_text base.now) (reference_text reference.now)) }
{
    match BasicResolver::with_base(*base).resolve(alloc, reference) {
        Ok(target) => Ok(LineResult::Text(target.into_string())),
        Err(error) => basic_error_result(error),
    }
}

/// Returns the result of `urilines resolve` for a reference that has no target: the error of
/// resolving, unless that is a failed allocation.
///
/// # Errors
///
/// Exactly if the error is that allocation failed.
fn resolve_error_result(error: ResolveError) -> Result<LineResult<'static>, AllocError>
    ensures output { IfOk result (λ line_result.
        line_result ≡ LineResult.Error (LineError.Refused (CommandError.Target error))) }
    ensures some { IfOk result (λ _. error ≢ ResolveError.OutOfMemory) }
    ensures memory { IfErr result (λ _. error ≡ ResolveError.OutOfMemory) }
{
    match error {
        ResolveError::OutOfMemory => Err(AllocError),
        error => Ok(refused(CommandError::Target(error))),
    }
}

/// Returns the result of `urilines resolve --basic` for a reference that has no target: the error
/// of the basic algorithm, unless that is a failed allocation.
///
/// # Errors
///
/// Exactly if the error is that allocation failed.
fn basic_error_result(error: BasicResolveError) -> Result<LineResult<'static>, AllocError>
    ensures output { IfOk result (λ line_result.
        line_result ≡ LineResult.Error LineError.PathStartsWithDoubleSlash) }
    ensures some { IfOk result (λ _. error ≢ BasicResolveError.OutOfMemory) }
    ensures memory { IfErr result (λ _. error ≡ BasicResolveError.OutOfMemory) }
{
    match error {
        BasicResolveError::OutOfMemory => Err(AllocError),
        BasicResolveError::PathStartsWithDoubleSlash => {
            Ok(LineResult::Error(LineError::PathStartsWithDoubleSlash))
        }
    }
}

/// Returns the result of `urilines relativize` for a text: a reference that leads to it from the
/// base, or an error if it is not of the base's kind. `prefers` is whether a relative path is
/// preferred.
///
/// # Errors
///
/// Only if allocation fails.
pub(crate) fn relativize(
    alloc: Global,
    base: &Base<'_>,
    prefers: bool,
    text: &str,
) -> Result<LineResult<'static>, AllocError>
    ensures { IfOk result (λ line. result_in line
        ≡ relativize_result prefers (target_kind base.now) (base_text base.now) text.now) }
{
    match base {
        Base::Uri(base) => relativize_text::<UriKind>(alloc, base, prefers, text),
        Base::Iri(base) => relativize_text::<IriKind>(alloc, base, prefers, text),
    }
}

/// Returns the result of `urilines relativize` for a text that is parsed as a target of the kind.
fn relativize_text<K: BaseKind>(
    alloc: Global,
    base: &Reference<K, &str>,
    prefers: bool,
    text: &str,
) -> Result<LineResult<'static>, AllocError>
    ensures { IfOk result (λ line. result_in line
        ≡ relativize_result prefers K.kind (reference_text base.now) text.now) }
{
    match Reference::<K, &str>::parse(text) {
        Ok(target) => {
            let relativizer = Relativizer::with_base(*base).prefer_relative_path(prefers);
            let reference = relativizer.relativize(alloc, &target)?;
            Ok(LineResult::Text(reference.into_string()))
        }
        Err(error) => Ok(target_error_result(error)),
    }
}

/// Returns the result of `urilines relativize` for a text that is not a target: its parse error.
fn target_error_result(error: ParseError) -> LineResult<'static>
    ensures { result ≡ LineResult.Error (LineError.Target error) }
{
    LineResult::Error(LineError::Target(error))
}
