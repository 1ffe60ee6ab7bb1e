//! Where the components of a text are.
ghost use Rattle.std.specs.Prelude.{◌≡◌, IsTrue, None, Some, is_some, true};
ghost use Rattle.fluent_uri.specs.Prelude.{IsOfKind, RegName, authority_parts, authority_text, components, host_kind, reference_text};
ghost use Rattle.uri_parts.specs.Prelude.{ArePositionsOf, core_text};
ghost use Rattle.fluent_uri_c.specs.Kinds.{kind_numbered};
ghost use Rattle.fluent_uri_c.specs.Spans.{ArePartsOf, AreSpansOf, IsSpan, absent, authority_host_number, host_number, rejected_parts, authority_start, fragment_start, host_of, host_start, path_start, port_of, port_start, query_start, userinfo_of};
ghost use Rattle.fluent_uri_c.specs.Values.{ArePartsOfResult, HasPartsFirst};

use crate::call_kind::CallKind;
use crate::errors::{Error, Rejection};
use crate::texts::parsed;
use fluent_uri::component::{Authority, Host};
use fluent_uri::pct_enc::Encoder;
use fluent_uri::{Reference, RiMaybeRef};
use std::convert::AsStr;
use uri_parts::core_text::Core;
use uri_parts::kind::{IriKind, IriRefKind, Kind, UriKind, UriRefKind};
use uri_parts::positions::Positions;

/// Where a component is in its text, in bytes. One that is absent has `usize::MAX` for both.
#[repr(C)]
#[derive(Clone, Copy)]
pub struct Span {
    pub start: usize,
    pub end: usize,
}

/// Where the components of a text are, or why it is rejected and where.
#[repr(C)]
#[derive(Clone, Copy)]
pub struct Parts {
    pub error: u32,
    pub host_kind: u32,
    pub index: usize,
    pub scheme: Span,
    pub authority: Span,
    pub userinfo: Span,
    pub host: Span,
    pub port: Span,
    pub path: Span,
    pub query: Span,
    pub fragment: Span,
}

/// Returns the span, in the parts that C gets, of a component that is absent.
pub fn absent() -> Span
    ensures { result ≡ absent }
{
    Span {
        start: usize::MAX,
        end: usize::MAX,
    }
}

/// Writes the parts that C gets of a text that is rejected: the error, and no component. Returns
/// the number of the error.
#[inline(never)]
fn write_rejected_parts(why: Rejection, parts: &mut Parts) -> u32
    ensures error { parts.new.error ≡ result }
    ensures parts { parts.new ≡ rejected_parts why }
{
    let error = why.error.number();
    *parts = Parts {
        error,
        host_kind: 0,
        index: why.index,
        scheme: absent(),
        authority: absent(),
        userinfo: absent(),
        host: absent(),
        port: absent(),
        path: absent(),
        query: absent(),
        fragment: absent(),
    };
    error
}

/// Returns whether the first byte of a host shows that it is a registered name, so that C gets that
/// number. Most names begin with a letter in lower case, which one comparison finds.
#[inline(always)]
fn begins_as_a_name(host: &[u8]) -> bool
    ensures { IsTrue result → host_kind host.now ≡ RegName }
{
    match host {
        [] => true,
        [first, ..] => *first > b'[' || !first.is_ascii_digit() && *first != b'[',
    }
}

/// Returns the number, in the header, of the kind of an authority's host.
fn host_number<'a, U: Encoder, R: Encoder>(authority: Authority<'a, U, R>) -> u32
    ensures { result
        ≡ host_number (host_kind (authority_parts (authority_text authority.entry)).host) }
{
    match authority.host_parsed() {
        Host::RegName(_) => 1,
        Host::Ipv4(_) => 2,
        Host::Ipv6(_) => 3,
        Host::IpvFuture => 4,
    }
}

/// Returns the number, in the header, of the kind of a text's host, or 0 if it has no authority.
/// The host is parsed. The text is passed with its positions, so that only this call writes them
/// to memory.
#[cold]
#[inline(never)]
fn parsed_host_kind<K: Kind>(core: Core<K, &str>) -> u32
    ensures { result ≡ authority_host_number (components (core_text core.entry)).authority }
{
    match core.authority() {
        None => 0,
        Some(authority) => host_number(authority),
    }
}

/// Returns the span, for C, of the scheme of a text with these positions, which ends here.
#[inline(always)]
fn scheme_up_to(text: &str, at: Positions, end: usize) -> Span
    requires at { ArePositionsOf text.now at }
    requires end { at.scheme_end ≡ Some end }
    ensures { IsSpan text.now 0 (components text.now).scheme result }
{
    Span { start: 0, end }
}

/// Returns the span, for C, of the scheme of a text with these positions, which has none.
#[inline(always)]
fn no_scheme(text: &str, at: Positions) -> Span
    requires at { ArePositionsOf text.now at }
    requires none { at.scheme_end ≡ None }
    ensures { IsSpan text.now 0 (components text.now).scheme result }
{
    absent()
}

/// Returns the span, for C, of the authority of a text with these positions.
fn authority(text: &str, at: Positions) -> Span
    requires { ArePositionsOf text.now at }
    ensures { IsSpan text.now (authority_start text.now) (components text.now).authority result }
{
    match at.authority {
        Some(inside) => Span {
            start: inside.start,
            end: inside.end,
        },
        None => absent(),
    }
}

/// Returns the span, for C, of the userinfo of a text with these positions.
fn userinfo<K: Kind>(text: &str, at: Positions) -> Span
    requires at { ArePositionsOf text.now at }
    requires of_kind { IsOfKind K.kind text.now }
    ensures { IsSpan text.now (authority_start text.now)
        (userinfo_of (components text.now).authority) result }
{
    match at.authority {
        Some(inside) => {
            if inside.start < inside.host_start {
                Span {
                    start: inside.start,
                    end: inside.host_start - 1,
                }
            } else {
                absent()
            }
        }
        None => absent(),
    }
}

/// Returns the span, for C, of the host of a text with these positions.
fn host<K: Kind>(text: &str, at: Positions) -> Span
    requires at { ArePositionsOf text.now at }
    requires of_kind { IsOfKind K.kind text.now }
    ensures { IsSpan text.now (host_start text.now)
        (host_of (components text.now).authority) result }
{
    match at.authority {
        Some(inside) => Span {
            start: inside.host_start,
            end: inside.host_end,
        },
        None => absent(),
    }
}

/// Returns the span, for C, of the port of a text with these positions.
fn port<K: Kind>(text: &str, at: Positions) -> Span
    requires at { ArePositionsOf text.now at }
    requires of_kind { IsOfKind K.kind text.now }
    ensures { IsSpan text.now (port_start text.now)
        (port_of (components text.now).authority) result }
{
    match at.authority {
        Some(inside) => {
            if inside.host_end < inside.end {
                Span {
                    start: inside.host_end + 1,
                    end: inside.end,
                }
            } else {
                absent()
            }
        }
        None => absent(),
    }
}

/// Returns the span, for C, of the path of a text with these positions.
fn path(text: &str, at: Positions) -> Span
    requires { ArePositionsOf text.now at }
    ensures { IsSpan text.now (path_start text.now) (Some (components text.now).path) result }
{
    Span {
        start: at.path_start,
        end: at.path_end,
    }
}

/// Returns the span, for C, of the query of a text with these positions.
fn query(text: &str, at: Positions) -> Span
    requires { ArePositionsOf text.now at }
    ensures { IsSpan text.now (query_start text.now) (components text.now).query result }
{
    match at.query_end {
        Some(end) => Span {
            start: at.path_end + 1,
            end,
        },
        None => absent(),
    }
}

/// Returns the span, for C, of the fragment of a text with these positions.
fn fragment(text: &str, at: Positions) -> Span
    requires { ArePositionsOf text.now at }
    ensures { IsSpan text.now (fragment_start text.now) (components text.now).fragment result }
{
    let mark = at.before_fragment();
    if mark < text.len() {
        Span {
            start: mark + 1,
            end: text.len(),
        }
    } else {
        absent()
    }
}

/// Returns the number, in the header, of the kind of the host of a value, which is at this span of
/// its text. Most hosts are names by their first byte.
#[inline(always)]
fn host_kind<K: Kind, T: AsStr>(value: &Reference<K, T>, text: &str, host: Span) -> u32
    requires same { text.now ≡ reference_text value.now }
    requires span { IsSpan text.now (host_start text.now)
        (host_of (components text.now).authority) host }
    requires present { is_some (components text.now).authority ≡ true }
    ensures { result ≡ authority_host_number (components text.now).authority }
{
    if begins_as_a_name(&text.as_bytes()[host.start..host.end]) {
        return 1;
    }
    parsed_host_kind(value.core())
}

/// Writes the spans, for C, of the authority of a value and of its components, and the number of
/// its host's kind. Whether there is an authority is tested once.
#[inline(always)]
fn write_authority<K: Kind, T: AsStr>(
    value: &Reference<K, T>,
    text: &str,
    at: Positions,
    parts: &mut Parts,
)
    requires same { text.now ≡ reference_text value.now }
    requires at { ArePositionsOf text.now at }
    requires of_kind { IsOfKind K.kind text.now }
    ensures authority { IsSpan text.now (authority_start text.now) (components text.now).authority
        parts.new.authority }
    ensures userinfo { IsSpan text.now (authority_start text.now)
        (userinfo_of (components text.now).authority) parts.new.userinfo }
    ensures host { IsSpan text.now (host_start text.now)
        (host_of (components text.now).authority) parts.new.host }
    ensures port { IsSpan text.now (port_start text.now)
        (port_of (components text.now).authority) parts.new.port }
    ensures host_kind { parts.new.host_kind
        ≡ authority_host_number (components text.now).authority }
    ensures error { parts.new.error ≡ parts.old.error }
    ensures index { parts.new.index ≡ parts.old.index }
    ensures scheme { parts.new.scheme ≡ parts.old.scheme }
    ensures path { parts.new.path ≡ parts.old.path }
    ensures query { parts.new.query ≡ parts.old.query }
    ensures fragment { parts.new.fragment ≡ parts.old.fragment }
{
    let Some(_) = at.authority else {
        parts.host_kind = 0;
        parts.authority = absent();
        parts.userinfo = absent();
        parts.host = absent();
        parts.port = absent();
        return;
    };
    let host = host::<K>(text, at);
    parts.authority = authority(text, at);
    parts.userinfo = userinfo::<K>(text, at);
    parts.host = host;
    parts.port = port::<K>(text, at);
    parts.host_kind = host_kind(value, text, host);
}

/// Writes the parts that C gets of a value: the spans of its components. The positions are asked
/// for again after the test for a scheme, which decides where an authority begins.
#[inline(always)]
fn write_parts<K: Kind, T: AsStr>(value: &Reference<K, T>, parts: &mut Parts)
    ensures error { parts.new.error ≡ 0 }
    ensures spans { AreSpansOf (reference_text value.now) parts.new }
{
    let at = value.core().positions();
    let text = value.as_str();
    parts.error = 0;
    parts.index = 0;
    parts.path = path(text, at);
    parts.query = query(text, at);
    parts.fragment = fragment(text, at);
    match at.scheme_end {
        Some(end) => {
            parts.scheme = scheme_up_to(text, at, end);
            write_authority(value, text, value.core().positions(), parts);
        }
        None => {
            parts.scheme = no_scheme(text, at);
            write_authority(value, text, value.core().positions(), parts);
        }
    }
}

/// Writes the parts that C gets of the value that a call returns.
#[inline(never)]
fn write_parts_of_result<K: Kind, T: AsStr>(value: &Reference<K, T>, parts: &mut Parts)
    ensures { ArePartsOfResult (reference_text value.now) parts.new }
{
    write_parts(value, parts);
}

/// Writes the parts that C gets of a value to the first of its caller's parts, if there is one.
#[inline(always)]
pub fn write_first_parts<K: Kind, T: AsStr>(value: &Reference<K, T>, parts: &mut [Parts])
    ensures { HasPartsFirst (reference_text value.now) parts.old parts.new }
{
    if !parts.is_empty() {
        write_parts_of_result(value, &mut parts[0]);
    }
}

/// Parses the bytes as a text of the kind, and writes the parts that C gets, or the error and its
/// index. Returns the number of the error, or 0.
#[inline(never)]
fn parse_as<K: Kind>(bytes: &[u8], parts: &mut Parts) -> u32
    ensures error { parts.new.error ≡ result }
    ensures parts { ArePartsOf (Some K.kind) bytes.now parts.new }
{
    match parsed::<K>(bytes) {
        Ok(value) => {
            write_parts(&value, parts);
            0
        }
        Err(why) => write_rejected_parts(why, parts),
    }
}

/// Parses the bytes as a text of the kind with this number, and writes the parts that C gets, or
/// the error and its index. Returns the number of the error, or 0.
#[inline(always)]
pub fn parse(kind: u32, bytes: &[u8], parts: &mut Parts) -> u32
    ensures error { parts.new.error ≡ result }
    ensures parts { ArePartsOf (kind_numbered kind) bytes.now parts.new }
{
    match kind {
        0 => parse_as::<CallKind<UriKind>>(bytes, parts),
        1 => parse_as::<CallKind<UriRefKind>>(bytes, parts),
        2 => parse_as::<CallKind<IriKind>>(bytes, parts),
        3 => parse_as::<CallKind<IriRefKind>>(bytes, parts),
        _ => write_rejected_parts(Rejection::of(Error::InvalidArgument), parts),
    }
}
