//! References with their hosts in ASCII (RFC 3987, section 3.1).
ghost use Rattle.std.specs.Prelude.{◌≡◌, [], IfErr, IfOk, IsSomeAnd, None, OnOk, Some, codes, option_copied, option_map, string_bytes};
ghost use Rattle.uri_pct.specs.Prelude.{Pushes};
ghost use Rattle.uri_parts.specs.Prelude.{authority_parts, authority_text, components, core_text, marked, recompose};
ghost use Rattle.uri_ops.specs.Prelude.{encode_past_ascii};
ghost use Rattle.fluent_uri.specs.Prelude.{reference_text};
ghost use Rattle.uri_idna.specs.AsciiHosts.{ascii_host};
ghost use Rattle.uri_idna.specs.AsciiReferences.{HasAsciiHost, IsAsciiHostErrorOf, with_ascii_host, with_authority, with_host};

use crate::error::AsciiHostError;
use crate::hosts::ascii_host;
use fluent_uri::component::Authority;
use fluent_uri::kind::Kind;
use fluent_uri::pct_enc::Encoder;
use fluent_uri::{Iri, Reference, Uri};
use std::alloc::{AllocError, Global};
use uri_parts::core_text::Core;

/// Appends a component with the delimiters around it, if it is present.
fn push_marked(
    before: &str,
    part: Option<&str>,
    after: &str,
    to: &mut String,
) -> Result<(), AllocError>
    ensures { OnOk result (Pushes to.old to.new
        (marked before.now (option_copied part.entry) after.now)) }
{
    match part {
        Some(part) => {
            to.push_str(before)?;
            to.push_str(part)?;
            to.push_str(after)
        }
        None => Ok(()),
    }
}

/// Appends an authority with this host in place of its own.
fn push_with_host<U: Encoder, R: Encoder>(
    authority: Authority<'_, U, R>,
    host: &str,
    to: &mut String,
) -> Result<(), AllocError>
    ensures { OnOk result (Pushes to.old to.new
        (with_host (authority_text authority.entry) host.now)) }
{
    let userinfo = match authority.userinfo() {
        Some(userinfo) => Some(userinfo.as_str()),
        None => None,
    };
    let port = match authority.port() {
        Some(port) => Some(port.as_str()),
        None => None,
    };
    push_marked("", userinfo, "@", to)?;
    to.push_str(host)?;
    push_marked(":", port, "", to)
}

/// Appends the `//` and an authority with this host in place of its own.
fn push_authority<U: Encoder, R: Encoder>(
    authority: Authority<'_, U, R>,
    host: &str,
    to: &mut String,
) -> Result<(), AllocError>
    ensures { OnOk result (Pushes to.old to.new (marked (codes "//")
        (Some (with_host (authority_text authority.entry) host.now)) [])) }
{
    to.push_str("//")?;
    push_with_host(authority, host, to)
}

/// Returns a text with this authority, whose host is replaced, in place of its own.
fn text_with_host<K: Kind, U: Encoder, R: Encoder>(
    alloc: Global,
    core: Core<K, &str>,
    authority: Authority<'_, U, R>,
    host: &str,
) -> Result<String, AllocError>
    ensures { IfOk result (λ text. string_bytes text
        ≡ recompose (with_authority (components (core_text core.entry))
        (with_host (authority_text authority.entry) host.now))) }
{
    let (own, at) = (core.as_str(), core.positions());
    let mut text = String::with_capacity(alloc, own.len() + host.len())?;
    push_marked("", at.scheme(own), ":", &mut text)?;
    push_authority(authority, host, &mut text)?;
    text.push_str(at.path(own))?;
    push_marked("?", at.query(own), "", &mut text)?;
    push_marked("#", at.fragment(own), "", &mut text)?;
    Ok(text)
}

/// Returns a reference with this host, which is its own in ASCII.
fn replaced<K: Kind>(
    alloc: Global,
    core: Core<K, &str>,
    authority: Authority<'_, K::UserinfoE, K::RegNameE>,
    host: &str,
) -> Result<Reference<K, String>, AllocError>
    requires authority { (components (core_text core)).authority
        ≡ Some (authority_text authority) }
    requires host { ascii_host (authority_parts (authority_text authority)).host ≡ Some host.now }
    ensures text { IfOk result (λ made.
        with_ascii_host (core_text core.entry) ≡ Some (reference_text made)) }
    ensures others { IfOk result (λ made.
        HasAsciiHost (core_text core.entry) (reference_text made)) }
{
    let own = core.borrow();
    let text = text_with_host(alloc, own, authority, host)?;
    Ok(Reference::of_core(Core::of_text(text)))
}

/// Returns a copy of a reference without an authority.
fn copied<K: Kind>(alloc: Global, core: Core<K, &str>) -> Result<Reference<K, String>, AllocError>
    requires { (components (core_text core)).authority ≡ None }
    ensures text { IfOk result (λ made.
        with_ascii_host (core_text core.entry) ≡ Some (reference_text made)) }
    ensures others { IfOk result (λ made.
        HasAsciiHost (core_text core.entry) (reference_text made)) }
{
    let text = String::from_str(alloc, core.as_str())?;
    Ok(Reference::of_core(Core::of_text(text)))
}

/// Returns a reference with its host in ASCII, as `ascii_host` returns it (RFC 3987, section 3.1).
/// Nothing else changes: a reference without an authority stays, and so does one whose host stays.
///
/// # Errors
///
/// Those of `ascii_host`, and `OutOfMemory` if allocation fails.
///
/// # Examples
///
/// | Reference | With its host in ASCII |
/// |---|---|
/// | `http://user@bücher.example:80/é?q#f` | `http://user@xn--bcher-kva.example:80/é?q#f` |
/// | `é` | `é` |
///
/// ```
/// Ok(with_ascii_host(alloc, iri)?.to_uri(alloc)?)
/// ```
pub fn with_ascii_host<K: Kind>(
    alloc: Global,
    value: &Reference<K, &str>,
) -> Result<Reference<K, String>, AsciiHostError>
    ensures text { IfOk result (λ made.
        with_ascii_host (reference_text value.now) ≡ Some (reference_text made)) }
    ensures others { IfOk result (λ made.
        HasAsciiHost (reference_text value.now) (reference_text made)) }
    ensures error { IfErr result (IsAsciiHostErrorOf (reference_text value.now)) }
{
    let core = value.into_core();
    match core.authority() {
        Some(authority) => {
            let host = ascii_host(alloc, authority)?;
            Ok(replaced(alloc, core, authority, host.as_str())?)
        }
        None => Ok(copied(alloc, core)?),
    }
}

/// Returns an IRI as the URI whose host is in ASCII, as DNS has it (RFC 3987, section 3.1). It is
/// what `to_uri` returns for the IRI with its host in ASCII: nothing but the host differs from what
/// it returns for the IRI itself.
///
/// # Errors
///
/// Those of `with_ascii_host`.
///
/// # Examples
///
/// Of `http://bücher.example/é` it is `http://xn--bcher-kva.example/%C3%A9`:
///
/// ```
/// match to_uri_with_ascii_host(alloc, &iri) {
///     Ok(uri) => Ok(uri),
///     Err(error) => Err(Rejection::from(error)),
/// }
/// ```
pub fn to_uri_with_ascii_host(alloc: Global, iri: &Iri<&str>) -> Result<Uri<String>, AsciiHostError>
    ensures text { IfOk result (λ made. option_map encode_past_ascii
        (with_ascii_host (reference_text iri.now)) ≡ Some (reference_text made)) }
    ensures others { IfOk result (λ _. IsSomeAnd (with_ascii_host (reference_text iri.now))
        (HasAsciiHost (reference_text iri.now))) }
    ensures error { IfErr result (IsAsciiHostErrorOf (reference_text iri.now)) }
{
    Ok(with_ascii_host(alloc, iri)?.to_uri(alloc)?)
}
