//! Authorities in normal form (RFC 3986, sections 6.2.2 and 6.2.3; RFC 3987, section 5.3.2).
ghost use Rattle.std.specs.Prelude.{◌≡◌, ◌+◌, [], IfOk, IfSome, OnOk, codes, length, option_map, string_bytes, true};
ghost use Rattle.uri_pct.specs.Prelude.{Pushes, left_bracket};
ghost use Rattle.uri_parts.specs.Prelude.{Kind, authority_parts, authority_text, host_kind, marked, scheme_text, starts};
ghost use Rattle.uri_ops.specs.Meaning.{authority_meaning, host_meaning, port_meaning};
ghost use Rattle.uri_ops.specs.Normal.{host_text, normal_part, normal_parts, default_port_of, normal_authority_with_delimiter};
ghost use Rattle.uri_ops.specs.Models.Unchanged.{IsUnchangedPort};
ghost use Rattle.uri_ops.specs.Models.Written.{authority_parts_at};

use crate::normalize::decode_unreserved::{push_decoded, push_decoded_component};
use crate::normalize::literal_runs::push_lower;
use crate::scheme_rules::SchemeRules;
use std::alloc::AllocError;
use uri_parts::address_text::push_ipv6_host;
use uri_parts::component::{Authority, HostOf, Scheme};
use uri_parts::positions::AuthorityPositions;
use uri_pct::encoder::Encoder;

/// Appends `//` and the normal form of an authority after its scheme, if there is one: the userinfo
/// and the host, decoded, and the port unless it is empty or the scheme's default. Returns its
/// positions.
///
/// After an error, part of it may have been appended.
#[inline(always)]
pub(crate) fn push_authority<U: Encoder, R: Encoder, S: SchemeRules>(
    authority: Option<Authority<'_, U, R>>,
    scheme: Option<Scheme<'_>>,
    rules: &S,
    out: &mut String,
) -> Result<Option<AuthorityPositions>, AllocError>
    ensures text { let default = default_port_of (S.rules_of rules.now).ports
        (option_map scheme_text scheme.entry) in
        (kind : Kind) → kind.userinfo ≡ U.set → kind.reg_name ≡ R.set
        → OnOk result (Pushes out.old out.new
        (normal_authority_with_delimiter kind default
        (option_map authority_text authority.entry))) }
    ensures places { let default = default_port_of (S.rules_of rules.now).ports
        (option_map scheme_text scheme.entry) in
        (kind : Kind) → kind.userinfo ≡ U.set → kind.reg_name ≡ R.set
        → IfOk result (λ places. places
        ≡ option_map (λ a. authority_parts_at (length (string_bytes out.old) + 2)
        (normal_parts (authority_meaning kind default a)))
        (option_map authority_text authority.entry)) }
{
    let Some(authority) = authority else {
        return Ok(None);
    };
    out.push('/')?;
    out.push('/')?;
    let start = out.len();
    push_userinfo(authority, out)?;
    let host_start = out.len();
    push_host(authority, out)?;
    let host_end = out.len();
    push_port(authority, scheme, rules, out)?;
    Ok(Some(AuthorityPositions {
        start,
        host_start,
        host_end,
        end: out.len(),
    }))
}

/// Appends the userinfo of a normal authority, decoded, and its `@`.
#[inline(always)]
fn push_userinfo<U: Encoder, R: Encoder>(
    authority: Authority<'_, U, R>,
    out: &mut String,
) -> Result<(), AllocError>
    ensures { let p = authority_parts (authority_text authority.entry) in
        OnOk result (Pushes out.old out.new
        (marked [] (normal_part U.set p.userinfo) (codes "@"))) }
{
    let Some(userinfo) = authority.userinfo() else {
        return Ok(());
    };
    push_decoded_component(userinfo, out)?;
    out.push('@')
}

/// Appends the normal form of a host in brackets: an IPv6 address is written by its numbers (RFC
/// 5952), and another one gets ASCII letters in lower case.
///
/// It is a function of its own, since a function clears the room for a parsed host at its call.
#[inline(never)]
fn push_bracketed_host<U: Encoder, R: Encoder>(
    authority: Authority<'_, U, R>,
    out: &mut String,
) -> Result<(), AllocError>
    requires { starts left_bracket (authority_parts (authority_text authority)).host ≡ true }
    ensures { let host = (authority_parts (authority_text authority.entry)).host in
        OnOk result (Pushes out.old out.new
        (host_text (host_meaning R.set host (host_kind host)))) }
{
    match authority.host_parsed() {
        HostOf::Ipv6(address) => push_ipv6_host(&address, out),
        _ => push_lower(authority.host(), out),
    }
}

/// Appends the normal form of the host. An IPv6 address is written by its numbers (RFC 5952). Every
/// other host gets ASCII letters in lower case, and a name is decoded too.
///
/// After an error, part of it may have been appended.
#[inline(always)]
fn push_host<U: Encoder, R: Encoder>(
    authority: Authority<'_, U, R>,
    out: &mut String,
) -> Result<(), AllocError>
    ensures { let host = (authority_parts (authority_text authority.entry)).host in
        OnOk result (Pushes out.old out.new
        (host_text (host_meaning R.set host (host_kind host)))) }
{
    let host = authority.host();
    if !is_bracketed(host) {
        return push_decoded(&R::table(), true, host, out);
    }
    push_bracketed_host(authority, out)
}

/// Returns whether a host is in brackets, so that normalising decodes nothing in it.
pub(crate) fn is_bracketed(host: &str) -> bool
    ensures { result ≡ starts left_bracket host.now }
{
    matches!(host.as_bytes(), [b'[', ..])
}

/// Appends the port of a normal authority, `:` and digits, unless it is empty or the scheme's
/// default.
#[inline(always)]
fn push_port<U: Encoder, R: Encoder, S: SchemeRules>(
    authority: Authority<'_, U, R>,
    scheme: Option<Scheme<'_>>,
    rules: &S,
    out: &mut String,
) -> Result<(), AllocError>
    ensures { let p = authority_parts (authority_text authority.entry) in
        let default = default_port_of (S.rules_of rules.now).ports
        (option_map scheme_text scheme.entry) in
        OnOk result (Pushes out.old out.new (marked (codes ":") (port_meaning default p.port) [])) }
{
    let Some(digits) = port_unless_default(authority, scheme, rules) else {
        return Ok(());
    };
    out.push(':')?;
    out.push_str(digits)
}

/// Returns whether a normal authority has the port that this one has, if it has one: the port is
/// neither empty nor the scheme's default.
#[inline(always)]
pub(crate) fn is_port_unchanged<U: Encoder, R: Encoder, S: SchemeRules>(
    authority: Option<Authority<'_, U, R>>,
    scheme: Option<Scheme<'_>>,
    rules: &S,
) -> bool
    ensures { let default = default_port_of (S.rules_of rules.now).ports
        (option_map scheme_text scheme.entry) in
        result ≡ true → IfSome (option_map authority_text authority.entry)
        (λ a. IsUnchangedPort default (authority_parts a).port) }
{
    let Some(authority) = authority else {
        return true;
    };
    !authority.has_port() || port_unless_default(authority, scheme, rules).is_some()
}

/// Returns the port's digits in a normal authority, unless there are none or they write the default
/// port of the scheme. It asks the rules only if there is a port that isn't empty. A port over
/// 65535 is no default.
#[inline(always)]
pub(crate) fn port_unless_default<'a, U: Encoder, R: Encoder, S: SchemeRules>(
    authority: Authority<'a, U, R>,
    scheme: Option<Scheme<'_>>,
    rules: &S,
) -> Option<&'a str>
    ensures { let port = (authority_parts (authority_text authority.entry)).port in
        option_map (λ digits. digits.now) result ≡ port_meaning
        (default_port_of (S.rules_of rules.now).ports (option_map scheme_text scheme.entry)) port }
{
    let port = authority.port()?;
    if port.is_empty() {
        return None;
    }
    let Some(scheme) = scheme else {
        return Some(port.as_str());
    };
    let Some(default) = rules.default_port(scheme) else {
        return Some(port.as_str());
    };
    match authority.port_to_u16() {
        Ok(Some(number)) if number == default => None,
        _ => Some(port.as_str()),
    }
}
