//! What the accessors of a value return, as words.

use crate::fields::{RowError, Words};
use fluent_uri::component::{Authority, HostOf, Scheme, SocketError, SocketTarget};
use fluent_uri::pct_enc::encoder::Encoder;
use fluent_uri::pct_enc::{CowStr, EStr};
use fluent_uri::{ParseError, ParseErrorKind, Reference, RiMaybeRef};
use std::alloc::{AllocError, Global};
use uri_parts::kind::Kind;

/// Appends to a row's result the components that are present (RFC 3986, section 3).
pub(crate) fn say_components<R: RiMaybeRef>(
    value: &R,
    words: &mut Words,
) -> Result<(), AllocError> {
    words.named("scheme", value.scheme_opt().map(Scheme::as_str))?;
    words.named("authority", value.authority().map(Authority::as_str))?;
    words.named("path", Some(value.path().as_str()))?;
    words.named("query", value.query().map(EStr::as_str))?;
    words.named("fragment", value.fragment().map(EStr::as_str))
}

/// Appends to a row's result the components of an authority (RFC 3986, section 3.2).
pub(crate) fn say_authority<U: Encoder, R: Encoder>(
    authority: Authority<'_, U, R>,
    words: &mut Words,
) -> Result<(), AllocError> {
    words.named("userinfo", authority.userinfo().map(EStr::as_str))?;
    words.named("host", Some(authority.host()))?;
    words.named("port", authority.port().map(EStr::as_str))?;
    let has_userinfo = authority.userinfo().is_some();
    words.unless(authority.has_userinfo() == has_userinfo, "has_userinfo")?;
    let has_port = authority.port().is_some();
    words.unless(authority.has_port() == has_port, "has_port")
}

/// Appends to a row's result what the host of an authority is (RFC 3986, section 3.2.2).
pub(crate) fn say_host<U: Encoder, R: Encoder>(
    alloc: Global,
    authority: Authority<'_, U, R>,
    words: &mut Words,
) -> Result<(), AllocError> {
    match authority.host_parsed() {
        HostOf::Ipv4(address) => {
            words.verbatim("ipv4")?;
            for octet in address.octets() {
                words.verbatim(format!(in alloc; "{octet}")?.as_str())?;
            }
            Ok(())
        }
        HostOf::Ipv6(address) => {
            words.verbatim("ipv6")?;
            for segment in address.segments() {
                words.verbatim(format!(in alloc; "{segment:x}")?.as_str())?;
            }
            Ok(())
        }
        HostOf::IpvFuture => words.verbatim("ipvfuture"),
        HostOf::RegName(name) => {
            words.verbatim("name")?;
            words.text(name.as_str())
        }
    }
}

/// Appends to a row's result the port as a number (RFC 3986, section 3.2.3).
pub(crate) fn say_port<U: Encoder, R: Encoder>(
    alloc: Global,
    authority: Authority<'_, U, R>,
    words: &mut Words,
) -> Result<(), AllocError> {
    match authority.port_to_u16() {
        Ok(Some(port)) => words.verbatim(format!(in alloc; "{port}")?.as_str()),
        Ok(None) => words.verbatim("none"),
        Err(_) => words.verbatim("error"),
    }
}

/// Appends to a row's result where to connect, at the default port 80.
pub(crate) fn say_socket<U: Encoder, R: Encoder>(
    alloc: Global,
    authority: Authority<'_, U, R>,
    words: &mut Words,
) -> Result<(), AllocError> {
    match authority.socket_target(alloc, 80) {
        Ok(SocketTarget::V4(address, port)) => {
            words.verbatim(format!(in alloc; "V4 {address} {port}")?.as_str())
        }
        Ok(SocketTarget::V6(address, port)) => {
            words.verbatim(format!(in alloc; "V6 {address} {port}")?.as_str())
        }
        Ok(SocketTarget::Name(name, port)) => {
            say_cow(&name, words)?;
            words.verbatim(format!(in alloc; "{port}")?.as_str())
        }
        Err(SocketError::OutOfMemory) => Err(AllocError),
        Err(error) => words.verbatim(format!(in alloc; "{error:?}")?.as_str()),
    }
}

/// Appends to a row's result a text, and whether it is borrowed.
pub(crate) fn say_cow(text: &CowStr<'_>, words: &mut Words) -> Result<(), AllocError> {
    match text {
        CowStr::Borrowed(text) => {
            words.verbatim("borrowed")?;
            words.text(text)
        }
        CowStr::Owned(text) => {
            words.verbatim("owned")?;
            words.text(text.as_str())
        }
    }
}

/// Returns the name that rows have for a kind of parse error.
fn name_of_error_kind(kind: ParseErrorKind) -> &'static str {
    match kind {
        ParseErrorKind::InvalidPctEncodedOctet => "InvalidPctEncodedOctet",
        ParseErrorKind::UnexpectedChar => "UnexpectedChar",
        ParseErrorKind::InvalidIpv6Addr => "InvalidIpv6Addr",
    }
}

/// Appends to a row's result the kind and the index of a parse error.
pub(crate) fn say_parse_error(
    alloc: Global,
    error: ParseError,
    words: &mut Words,
) -> Result<(), AllocError> {
    let (kind, index) = (name_of_error_kind(error.kind()), error.index());
    words.verbatim(format!(in alloc; "{kind} {index}")?.as_str())
}

/// Returns the authority of a value, or that the row is malformed if it has none.
pub(crate) fn authority_of<K: Kind>(
    value: Reference<K, &str>,
) -> Result<Authority<'_, K::UserinfoE, K::RegNameE>, RowError> {
    value.authority().ok_or(RowError::Malformed("no authority"))
}
