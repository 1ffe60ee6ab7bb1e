//! What a reference consists of, as a line of JSON.
ghost use Rattle.std.specs.Prelude.{◌≡◌, ◌++◌, IfOk, OnOk, Some, codes, option_map, string_bytes};
ghost use Rattle.fluent_uri.specs.Prelude.{authority_parts, authority_text, components, host_kind, host_kind_of, iri_ref_text};
ghost use Rattle.uri_streams.specs.Json as spec;
ghost use Rattle.uri_streams.specs.Json.{authority_members, host_members, json_of, member, member_after, member_before, authority_component_members};

use fluent_uri::IriRef;
use fluent_uri::component::{IAuthority, IHost, Scheme};
use fluent_uri::pct_enc::EStr;
use std::alloc::{AllocError, Global};

/// Returns the components of a reference as a JSON object (RFC 8259, section 4).
///
/// # Errors
///
/// Only if allocation fails.
#[tactic(auto, unfolding(crate::specs::Json::json_of))]
pub(crate) fn json(alloc: Global, reference: IriRef<&str>) -> Result<String, AllocError>
    ensures { IfOk result (λ line.
        string_bytes line ≡ json_of (components (iri_ref_text reference.entry))) }
{
    let mut out = String::with_capacity(alloc, room(reference.as_str()))?;
    out.push_str("{")?;
    push_scheme(&mut out, reference.scheme().map(Scheme::as_str))?;
    push_authority(&mut out, reference.authority())?;
    push_path(&mut out, reference.path().as_str())?;
    push_query(&mut out, reference.query().map(EStr::as_str))?;
    push_fragment(&mut out, reference.fragment().map(EStr::as_str))?;
    out.push_str("}")?;
    Ok(out)
}

/// Returns the room for the JSON object of a text: for its components, of which those of the
/// authority are in it twice, for the names of all members, and for what ends the line.
fn room(text: &str) -> usize {
    text.len().saturating_mul(2).saturating_add(160)
}

/// Appends to a JSON object the members for an authority and its components, or none if there is no
/// authority.
fn push_authority(out: &mut String, authority: Option<IAuthority<'_>>) -> Result<(), AllocError>
    ensures { OnOk result (string_bytes out.new ≡ string_bytes out.old
        ++ authority_members (option_map authority_text authority.entry)) }
{
    match authority {
        Some(authority) => push_authority_members(out, authority),
        None => Ok(()),
    }
}

/// Appends to a JSON object the members for an authority and its components
/// (RFC 3986, section 3.2).
fn push_authority_members(out: &mut String, authority: IAuthority<'_>) -> Result<(), AllocError>
    ensures { OnOk result (string_bytes out.new ≡ string_bytes out.old
        ++ authority_component_members (authority_text authority.entry)) }
{
    push_authority_text(out, authority.as_str())?;
    push_userinfo(out, authority.userinfo().map(EStr::as_str))?;
    push_host(out, authority)?;
    push_port(out, authority.port().map(EStr::as_str))
}

/// Appends to a JSON object the member for the text of an authority and a comma after it.
fn push_authority_text(out: &mut String, authority: &str) -> Result<(), AllocError>
    ensures { OnOk result (string_bytes out.new ≡ string_bytes out.old
        ++ member_before (codes "authority") (Some authority.now)) }
{
    push_member(out, "\"authority\":\"", authority, "\",")
}

/// Appends to a JSON object the members for the host of an authority and the kind of this host.
fn push_host(out: &mut String, authority: IAuthority<'_>) -> Result<(), AllocError>
    ensures { OnOk result (string_bytes out.new ≡ string_bytes out.old
        ++ host_members (authority_parts (authority_text authority.entry)).host) }
{
    push_member(out, "\"host\":\"", authority.host(), "\",")?;
    push_member(out, "\"host_kind\":\"", kind_word(authority), "\",")
}

/// Returns the word that JSON has for the kind of an authority's host, such as `ipv4`.
fn kind_word(authority: IAuthority<'_>) -> &'static str
    ensures { result.now ≡ spec.host_word
        (host_kind (authority_parts (authority_text authority.entry)).host) }
{
    host_word(authority.host_parsed())
}

/// Returns the word that JSON has for the kind of a host, such as `ipv4`.
fn host_word(host: IHost<'_>) -> &'static str
    ensures { result.now ≡ spec.host_word (host_kind_of host.entry) }
{
    match host {
        IHost::Ipv4(_) => "ipv4",
        IHost::Ipv6(_) => "ipv6",
        IHost::IpvFuture => "ipvfuture",
        IHost::RegName(_) => "reg-name",
    }
}

/// Appends to a JSON object the member for a scheme and a comma after it, if it is present.
fn push_scheme(out: &mut String, scheme: Option<&str>) -> Result<(), AllocError>
    ensures { OnOk result (string_bytes out.new ≡ string_bytes out.old
        ++ member_before (codes "scheme") (option_map (λ t. t.now) scheme.entry)) }
{
    match scheme {
        Some(scheme) => push_member(out, "\"scheme\":\"", scheme, "\","),
        None => Ok(()),
    }
}

/// Appends to a JSON object the member for userinfo and a comma after it, if it is present.
fn push_userinfo(out: &mut String, userinfo: Option<&str>) -> Result<(), AllocError>
    ensures { OnOk result (string_bytes out.new ≡ string_bytes out.old
        ++ member_before (codes "userinfo") (option_map (λ t. t.now) userinfo.entry)) }
{
    match userinfo {
        Some(userinfo) => push_member(out, "\"userinfo\":\"", userinfo, "\","),
        None => Ok(()),
    }
}

/// Appends to a JSON object the member for a port and a comma after it, if it is present.
fn push_port(out: &mut String, port: Option<&str>) -> Result<(), AllocError>
    ensures { OnOk result (string_bytes out.new ≡ string_bytes out.old
        ++ member_before (codes "port") (option_map (λ t. t.now) port.entry)) }
{
    match port {
        Some(port) => push_member(out, "\"port\":\"", port, "\","),
        None => Ok(()),
    }
}

/// Appends to a JSON object the member for a path.
fn push_path(out: &mut String, path: &str) -> Result<(), AllocError>
    ensures { OnOk result
        (string_bytes out.new ≡ string_bytes out.old ++ member (codes "path") path.now) }
{
    push_member(out, "\"path\":\"", path, "\"")
}

/// Appends to a JSON object a comma and the member for a query, if it is present.
fn push_query(out: &mut String, query: Option<&str>) -> Result<(), AllocError>
    ensures { OnOk result (string_bytes out.new ≡ string_bytes out.old
        ++ member_after (codes "query") (option_map (λ t. t.now) query.entry)) }
{
    match query {
        Some(query) => push_member(out, ",\"query\":\"", query, "\""),
        None => Ok(()),
    }
}

/// Appends to a JSON object a comma and the member for a fragment, if it is present.
fn push_fragment(out: &mut String, fragment: Option<&str>) -> Result<(), AllocError>
    ensures { OnOk result (string_bytes out.new ≡ string_bytes out.old
        ++ member_after (codes "fragment") (option_map (λ t. t.now) fragment.entry)) }
{
    match fragment {
        Some(fragment) => push_member(out, ",\"fragment\":\"", fragment, "\""),
        None => Ok(()),
    }
}

/// Appends to a JSON object a member: what is before its text, that text, and what is after it.
fn push_member(out: &mut String, before: &str, text: &str, after: &str) -> Result<(), AllocError>
    ensures { OnOk result (string_bytes out.new
        ≡ string_bytes out.old ++ (before.now ++ text.now ++ after.now)) }
{
    out.push_str(before)?;
    out.push_str(text)?;
    out.push_str(after)
}
