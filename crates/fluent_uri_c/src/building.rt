//! References that are built of components (RFC 3986, section 5.3).
ghost use Rattle.std.specs.Prelude.{◌≡◌, [], IfOk, IsSomeAnd, OnOk, Some, codes, option_copied, option_map, string_bytes, true, unwrap_or};
ghost use Rattle.std.specs.Result.{result_err};
ghost use Rattle.fluent_uri.specs.Prelude.{absent_or_passes, marked, recompose, recompose_authority, reference_text};
ghost use Rattle.uri_ops.specs.Prelude.{build_error_of_path};
ghost use Rattle.uri_pct.specs.Prelude.{Pushes};
ghost use Rattle.fluent_uri_c.specs.Building.{HasGivenComponents, HasValidAuthority, HasValidParts, HasValidTail, parts_rejection, authority_rejection, build_rejection, build_result, built_result, error_of_building, given, given_authority, given_components, given_error, is_absent, missing, tail_rejection, together_rejection};
ghost use Rattle.fluent_uri_c.specs.Given.{authority_of, components_of};
ghost use Rattle.fluent_uri_c.specs.Kinds.{kind_numbered};
ghost use Rattle.fluent_uri_c.specs.Results.{IsReturnedAs};
ghost use Rattle.fluent_uri_c.specs.Values.{LeavesValue};

use crate::errors::{Error, Rejection};
use crate::outcome::{Outcome, put_value, report};
use crate::parts::{Parts, Span};
use crate::rules::{Characters, HostRule, Rule, SchemeRule};
use crate::texts::is_possible_length;
use fluent_uri::pct_enc::encoder::Port;
use fluent_uri::{IriRef, Reference};
use std::alloc::{AllocError, Global};
use uri_ops::build::draft::has_colon_in_first_segment;
use uri_ops::path::slashes::{begins_with_slash, begins_with_two_slashes};
use uri_parts::core_text::Core;
use uri_parts::kind::{IriKind, IriRefKind, Kind, UriKind, UriRefKind};

/// Where the components of a reference are in a text, of which it is built. One that is absent has
/// `usize::MAX` for both.
#[repr(C)]
#[derive(Clone, Copy)]
pub struct ComponentSpans {
    pub scheme: Span,
    pub userinfo: Span,
    pub host: Span,
    pub port: Span,
    pub path: Span,
    pub query: Span,
    pub fragment: Span,
}

/// The components of an authority, each by its rule.
#[derive(Clone, Copy)]
struct AuthorityTexts<'a> {
    userinfo: Option<&'a str>,
    host: &'a str,
    port: Option<&'a str>,
}

/// The path, the query and the fragment of a reference, each by its rule.
#[derive(Clone, Copy)]
struct Tail<'a> {
    path: &'a str,
    query: Option<&'a str>,
    fragment: Option<&'a str>,
}

/// The components of a reference, each by its rule.
#[derive(Clone, Copy)]
struct Texts<'a> {
    scheme: Option<&'a str>,
    authority: Option<AuthorityTexts<'a>>,
    tail: Tail<'a>,
}

/// Returns whether a span says that its component is absent.
fn is_absent(span: Span) -> bool
    ensures { result ≡ is_absent span }
{
    span.start == usize::MAX && span.end == usize::MAX
}

/// Returns the component that C gives as a span of a text, by its rule, if it is present.
fn part<'a, R: Rule>(text: &'a [u8], span: Span, which: u32) -> Result<Option<&'a str>, Rejection>
    ensures text { IfOk result (λ part. option_copied part ≡ given text.now span) }
    ensures valid { IfOk result (λ _. absent_or_passes (given text.now span) R.test ≡ true) }
    ensures rejected { result_err result ≡ given_error which R.error text.now span }
{
    if is_absent(span) {
        return Ok(None);
    }
    if span.end < span.start || text.len() < span.end {
        return Err(Rejection::of(Error::InvalidArgument).in_component(which));
    }
    match R::read(&text[span.start..span.end]) {
        Ok(part) => Ok(Some(part)),
        Err(why) => Err(why.in_component(which)),
    }
}

/// Returns the components of an authority that C gives as spans of a text, if there is a host.
fn given_authority<'a, K: Kind>(
    text: &'a [u8],
    spans: &ComponentSpans,
) -> Result<Option<AuthorityTexts<'a>>, Rejection>
    ensures parts { IfOk result (λ authority.
        option_map authority_of authority ≡ given_authority text.now spans.now) }
    ensures valid { IfOk result (λ _. HasValidAuthority K.kind text.now spans.now) }
    ensures rejected { result_err result ≡ authority_rejection K.kind text.now spans.now }
{
    let userinfo = part::<Characters<K::UserinfoE>>(text, spans.userinfo, 0)?;
    let host = part::<HostRule<K::RegNameE>>(text, spans.host, 1)?;
    let port = part::<Characters<Port>>(text, spans.port, 7)?;
    match host {
        Some(host) => Ok(Some(AuthorityTexts {
            userinfo,
            host,
            port,
        })),
        None => {
            if userinfo.is_some() || port.is_some() {
                return Err(missing(1));
            }
            Ok(None)
        }
    }
}

/// Returns the rejection for the component with this number, which is needed and absent.
fn missing(which: u32) -> Rejection
    ensures { Some result ≡ missing which true }
{
    Rejection::of(Error::MissingComponent).in_component(which)
}

/// Returns why a path is rejected after a scheme and an authority, if it is.
#[tactic(auto, unfolding(uri_ops::specs::Built::build_error_of_path))]
fn path_error(has_scheme: bool, has_authority: bool, path: &[u8]) -> Option<Error>
    ensures { result ≡ option_map error_of_building
        (build_error_of_path has_scheme has_authority path.now) }
{
    if has_authority {
        if path.is_empty() || begins_with_slash(path) {
            None
        } else {
            Some(Error::NonemptyRootlessPath)
        }
    } else if begins_with_two_slashes(path) {
        Some(Error::PathStartsWithDoubleSlash)
    } else if !has_scheme && has_colon_in_first_segment(path) {
        Some(Error::FirstPathSegmentContainsColon)
    } else {
        None
    }
}

/// Returns the path, the query and the fragment that C gives as spans of a text.
fn given_tail<'a, K: Kind>(text: &'a [u8], spans: &ComponentSpans) -> Result<Tail<'a>, Rejection>
    ensures path { IfOk result (λ tail.
        tail.path.now ≡ unwrap_or (given text.now spans.now.path) []) }
    ensures query { IfOk result (λ tail.
        option_copied tail.query ≡ given text.now spans.now.query) }
    ensures fragment { IfOk result (λ tail.
        option_copied tail.fragment ≡ given text.now spans.now.fragment) }
    ensures valid { IfOk result (λ _. HasValidTail K.kind text.now spans.now) }
    ensures rejected { result_err result ≡ tail_rejection K.kind text.now spans.now }
{
    let path = part::<Characters<K::PathE>>(text, spans.path, 2)?;
    let query = part::<Characters<K::QueryE>>(text, spans.query, 3)?;
    let fragment = part::<Characters<K::FragmentE>>(text, spans.fragment, 4)?;
    Ok(Tail {
        path: path.unwrap_or(""),
        query,
        fragment,
    })
}

/// Returns why components are rejected together as those of a text of the kind, if they are.
fn rejection_together<K: Kind>(texts: &Texts<'_>) -> Option<Rejection>
    ensures { result ≡ together_rejection K.kind (components_of texts.now) }
{
    if K::tables().needs_scheme && texts.scheme.is_none() {
        return Some(missing(5));
    }
    let has_authority = texts.authority.is_some();
    match path_error(
        texts.scheme.is_some(),
        has_authority,
        texts.tail.path.as_bytes(),
    ) {
        Some(error) => Some(Rejection::of(error).in_component(2)),
        None => None,
    }
}

/// Returns the components that C gives as spans of a text, if each is of its rule.
fn given_parts<'a, K: Kind>(text: &'a [u8], spans: &ComponentSpans) -> Result<Texts<'a>, Rejection>
    ensures components { IfOk result (λ texts.
        components_of texts ≡ given_components text.now spans.now) }
    ensures valid { IfOk result (λ _. HasValidParts K.kind text.now spans.now) }
    ensures rejected { result_err result ≡ parts_rejection K.kind text.now spans.now }
{
    let scheme = part::<SchemeRule>(text, spans.scheme, 5)?;
    let authority = given_authority::<K>(text, spans)?;
    let tail = given_tail::<K>(text, spans)?;
    Ok(Texts {
        scheme,
        authority,
        tail,
    })
}

/// Returns the components that C gives as spans of a text, if they are those of a text of the kind.
fn given_texts<'a, K: Kind>(text: &'a [u8], spans: &ComponentSpans) -> Result<Texts<'a>, Rejection>
    ensures components { IfOk result (λ texts.
        components_of texts ≡ given_components text.now spans.now) }
    ensures valid { IfOk result (λ _. HasGivenComponents K.kind text.now spans.now) }
    ensures rejected { result_err result ≡ build_rejection K.kind text.now spans.now }
{
    let texts = given_parts::<K>(text, spans)?;
    match rejection_together::<K>(&texts) {
        Some(why) => Err(why),
        None => Ok(texts),
    }
}

/// Appends a component between its delimiters, if it is present.
fn push_marked(
    before: &str,
    part: Option<&str>,
    after: &str,
    out: &mut String,
) -> Result<(), AllocError>
    ensures { OnOk result (Pushes out.old out.new
        (marked before.now (option_copied part.entry) after.now)) }
{
    match part {
        Some(part) => {
            out.push_str(before)?;
            out.push_str(part)?;
            out.push_str(after)
        }
        None => Ok(()),
    }
}

/// Appends an authority and the `//` before it, if there is one.
fn push_authority(authority: Option<AuthorityTexts<'_>>, out: &mut String) -> Result<(), AllocError>
    ensures { OnOk result (Pushes out.old out.new (marked (codes "//")
        (option_map (λ a. recompose_authority (authority_of a)) authority.entry) [])) }
{
    match authority {
        Some(authority) => {
            out.push_str("//")?;
            push_marked("", authority.userinfo, "@", out)?;
            out.push_str(authority.host)?;
            push_marked(":", authority.port, "", out)
        }
        None => Ok(()),
    }
}

/// Returns the text of components, with their delimiters.
fn recomposed(alloc: Global, texts: &Texts<'_>) -> Result<String, AllocError>
    ensures { IfOk result (λ text. string_bytes text ≡ recompose (components_of texts.now)) }
{
    let mut text = String::new(alloc);
    push_marked("", texts.scheme, ":", &mut text)?;
    push_authority(texts.authority, &mut text)?;
    text.push_str(texts.tail.path)?;
    push_marked("?", texts.tail.query, "", &mut text)?;
    push_marked("#", texts.tail.fragment, "", &mut text)?;
    Ok(text)
}

/// Returns the text of the kind that has the components that C gives as spans of a text.
fn built<K: Kind>(
    alloc: Global,
    text: &[u8],
    spans: &ComponentSpans,
) -> Result<Reference<K, String>, Rejection>
    ensures text { IsReturnedAs reference_text (built_result K.kind text.now spans.now) result }
    ensures components { IfOk result (λ _. HasGivenComponents K.kind text.now spans.now) }
{
    if !is_possible_length(text) {
        return Err(Rejection::of(Error::InvalidArgument));
    }
    let texts = given_texts::<K>(text, spans)?;
    let text = recomposed(alloc, &texts)?;
    Ok(Reference::of_core(Core::of_text(text)))
}

/// Returns the text of the kind with this number of the header that has the components that C gives
/// as spans of a text.
fn built_of_kind(
    alloc: Global,
    kind: u32,
    text: &[u8],
    spans: &ComponentSpans,
) -> Result<IriRef<String>, Rejection>
    ensures text { IsReturnedAs reference_text (build_result kind text.now spans.now) result }
    ensures components { IfOk result (λ _. IsSomeAnd (kind_numbered kind)
        (λ kind. HasGivenComponents kind text.now spans.now)) }
{
    match kind {
        0 => Ok(IriRef::from(built::<UriKind>(alloc, text, spans)?)),
        1 => Ok(IriRef::from(built::<UriRefKind>(alloc, text, spans)?)),
        2 => Ok(IriRef::from(built::<IriKind>(alloc, text, spans)?)),
        3 => built::<IriRefKind>(alloc, text, spans),
        _ => Err(Rejection::of(Error::InvalidArgument)),
    }
}

/// Writes the text of the kind that has the components at these places of a text.
#[unsafe(no_mangle)]
pub extern "C" fn fluent_uri_build(
    alloc: Global,
    kind: u32,
    text: &[u8],
    components: &ComponentSpans,
    out: &mut [u8],
    parts: &mut [Parts],
    outcome: &mut Outcome,
) -> u32
    ensures text { LeavesValue (build_result kind text.now components.now)
        out.old out.new parts.old parts.new outcome.new result }
    ensures components { result ≡ 0 → IsSomeAnd (kind_numbered kind)
        (λ kind. HasGivenComponents kind text.now components.now) }
{
    match built_of_kind(alloc, kind, text, components) {
        Ok(value) => {
            put_value(&value, out, parts, outcome);
            0
        }
        Err(why) => report(why, outcome),
    }
}
