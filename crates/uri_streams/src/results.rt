//! The result of the text of a line, whatever the other lines are.
ghost use Rattle.std.specs.Prelude.{◌≡◌, IfOk};
ghost use Rattle.fluent_uri.specs.Grammar as test;
ghost use Rattle.uri_commands.specs.Kinds.{kind_named};
ghost use Rattle.uri_streams.specs.Results as results;
ghost use Rattle.uri_streams.specs.Results.{check_result, normalize_result, parse_result, passes_check, query_result};
ghost use Rattle.uri_streams.specs.Returned.{IsTextOrError, result_in};

use crate::json::json;
use crate::line_result::{LineResult, refused};
use crate::queries::query_json;
use fluent_uri::kind::{IriKind, IriRefKind, Kind, UriKind, UriRefKind};
use fluent_uri::normalize::RuleSet;
use fluent_uri::{Reference, RiMaybeRef};
use std::alloc::{AllocError, Global};
use uri_commands::kinds::{KindName, parse_as_iri_ref};
use uri_commands::normal::normal_form;
use uri_commands::refusal::CommandError;
use uri_ops::normalize::unchanged::is_found_normal;

/// Returns the result of `urilines normalize` for a text: its normal form by these rules of
/// schemes, or an error if it is not of the kind.
///
/// # Errors
///
/// Only if allocation fails.
#[inline(always)]
pub(crate) fn normalize<'t>(
    alloc: Global,
    kind: KindName,
    rules: RuleSet,
    text: &'t str,
) -> Result<LineResult<'t>, AllocError>
    ensures result { IfOk result (λ line_result.
        result_in line_result ≡ normalize_result rules (kind_named kind) text.now) }
    ensures text { IfOk result IsTextOrError }
{
    match kind {
        KindName::Uri => normal_result::<UriKind>(alloc, rules, text),
        KindName::UriRef => normal_result::<UriRefKind>(alloc, rules, text),
        KindName::Iri => normal_result::<IriKind>(alloc, rules, text),
        KindName::IriRef => normal_result::<IriRefKind>(alloc, rules, text),
    }
}

/// Returns the normal form of a text of the kind as the result of its line, or an error if it is
/// not of the kind. Most texts are their own: if that is found by one scan, the text is borrowed.
fn normal_result<'t, K: Kind>(
    alloc: Global,
    rules: RuleSet,
    text: &'t str,
) -> Result<LineResult<'t>, AllocError>
    ensures result { IfOk result (λ line_result.
        result_in line_result ≡ normalize_result rules K.kind text.now) }
    ensures text { IfOk result IsTextOrError }
{
    let value = match Reference::<K, &str>::parse(text) {
        Ok(value) => value,
        Err(error) => return Ok(refused(CommandError::Text(error))),
    };
    if is_found_normal(value.core(), &rules) {
        return Ok(LineResult::Borrowed(text));
    }
    Ok(LineResult::Text(normal_form(alloc, &value, rules)?.into_string()))
}

/// Returns the result of `urilines check` for a text: its line as it is, or no line.
pub(crate) fn check(kind: KindName, is_inverted: bool, text: &str) -> LineResult<'static>
    ensures { result_in result ≡ check_result (kind_named kind) is_inverted text.now }
{
    passed_if(passes_check(kind, is_inverted, text))
}

/// Returns the result of `urilines check` for a line that passes, or does not.
pub(crate) fn passed_if(passes: bool) -> LineResult<'static>
    ensures { result_in result ≡ results.passed_if passes }
{
    if passes {
        LineResult::Unchanged
    } else {
        LineResult::NoLine
    }
}

/// Returns whether `urilines check` passes a text on: it is of the kind or, if `is_inverted`, it is
/// not.
#[tactic(auto, unfolding(crate::specs::Results::passes_check))]
fn passes_check(kind: KindName, is_inverted: bool, text: &str) -> bool
    ensures { result ≡ passes_check (kind_named kind) is_inverted text.now }
{
    let is_of_kind = is_of_kind_named(kind, text);
    if is_inverted { !is_of_kind } else { is_of_kind }
}

/// Returns whether a text is of the kind of this name.
fn is_of_kind_named(kind: KindName, text: &str) -> bool
    ensures { result ≡ test.is_of_kind (kind_named kind) text.now }
{
    match kind {
        KindName::Uri => is_of_kind::<UriKind>(text),
        KindName::UriRef => is_of_kind::<UriRefKind>(text),
        KindName::Iri => is_of_kind::<IriKind>(text),
        KindName::IriRef => is_of_kind::<IriRefKind>(text),
    }
}

/// Returns whether a text is of the kind.
fn is_of_kind<K: Kind>(text: &str) -> bool
    ensures { result ≡ test.is_of_kind K.kind text.now }
{
    Reference::<K, &str>::parse(text).is_ok()
}

/// Returns the result of `urilines parse` for a text: its components as JSON, or an error if it is
/// not of the kind.
pub(crate) fn parse(
    alloc: Global,
    kind: KindName,
    text: &str,
) -> Result<LineResult<'static>, AllocError>
    ensures { IfOk result (λ line. result_in line ≡ parse_result (kind_named kind) text.now) }
{
    match parse_as_iri_ref(kind, text) {
        Ok(reference) => Ok(LineResult::Text(json(alloc, reference)?)),
        Err(error) => Ok(refused(CommandError::Text(error))),
    }
}

/// Returns the result of `urilines query` for a text: the decoded pairs of its query as JSON, or an
/// error if it is not of the kind.
pub(crate) fn query(
    alloc: Global,
    kind: KindName,
    text: &str,
) -> Result<LineResult<'static>, AllocError>
    ensures { IfOk result (λ line_result.
        result_in line_result ≡ query_result (kind_named kind) text.now) }
{
    match parse_as_iri_ref(kind, text) {
        Ok(reference) => Ok(LineResult::Text(query_json(alloc, reference.query())?)),
        Err(error) => Ok(refused(CommandError::Text(error))),
    }
}
