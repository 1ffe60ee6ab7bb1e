//! The origin of a URI, in ASCII (RFC 6454, sections 4 and 6.2).
ghost use Rattle.std.specs.Prelude.{◌≡◌, ◌++◌, [], IfOk, OnOk, Some, codes, decimal, option_map, string_bytes};
ghost use Rattle.fluent_uri.specs.Prelude.{authority_text, components, marked, reference_text};
ghost use Rattle.uri_parts.specs.Prelude.{scheme_text};
ghost use Rattle.uri_pct.specs.Prelude.{Pushes};
ghost use Rattle.fluent_uri_c.specs.Origins.{origin_of, origin_of_kind, origin_result};
ghost use Rattle.fluent_uri_c.specs.Outcomes.{LeavesText};
ghost use Rattle.fluent_uri_c.specs.Results.{IsReturnedAs};

use crate::errors::{Error, Rejection};
use crate::normal_forms::normal_form;
use crate::outcome::{Outcome, put_or_report};
use fluent_uri::Reference;
use fluent_uri::component::{Authority, Scheme};
use fluent_uri::pct_enc::Encoder;
use itoa::Buffer;
use std::alloc::{AllocError, Global};
use uri_ops::scheme_rules::RuleSet;
use uri_parts::kind::{Kind, UriKind, UriRefKind};

/// Appends a port as a number, with its `:`, if there is one.
fn push_port(port: Option<u16>, to: &mut String) -> Result<(), AllocError>
    ensures { OnOk result (Pushes to.old to.new
        (marked (codes ":") (option_map decimal port) [])) }
{
    match port {
        Some(port) => {
            let mut buffer = Buffer::new();
            to.push_str(":")?;
            to.push_str(buffer.format(port))
        }
        None => Ok(()),
    }
}

/// Returns the text of an origin: a scheme, a host, and a port if there is one.
fn origin_text(
    alloc: Global,
    scheme: &str,
    host: &str,
    port: Option<u16>,
) -> Result<String, AllocError>
    ensures { IfOk result (λ text. string_bytes text ≡ scheme.now ++ (codes "://" ++ (host.now
        ++ marked (codes ":") (option_map decimal port) []))) }
{
    let mut text = String::new(alloc);
    text.push_str(scheme)?;
    text.push_str("://")?;
    text.push_str(host)?;
    push_port(port, &mut text)?;
    Ok(text)
}

/// Returns the origin of a scheme and an authority, or the empty text if they have none.
fn origin_of_authority<U: Encoder, R: Encoder>(
    alloc: Global,
    scheme: Scheme<'_>,
    authority: Authority<'_, U, R>,
) -> Result<String, AllocError>
    ensures { IfOk result (λ text. string_bytes text
        ≡ origin_of (Some (scheme_text scheme.entry)) (Some (authority_text authority.entry))) }
{
    let host = authority.host();
    if scheme.default_port().is_none() || host.is_empty() {
        return Ok(String::new(alloc));
    }
    match authority.port_to_u16() {
        Ok(port) => origin_text(alloc, scheme.as_str(), host, port),
        Err(_) => Ok(String::new(alloc)),
    }
}

/// Returns the origin of the components of a normal form, or the empty text if it has none.
fn origin_of_normal<K: Kind>(
    alloc: Global,
    normal: Reference<K, &str>,
) -> Result<String, AllocError>
    ensures { IfOk result (λ text. let c = components (reference_text normal.entry) in
        string_bytes text ≡ origin_of c.scheme c.authority) }
{
    let core = normal.into_core();
    let (Some(scheme), Some(authority)) = (core.scheme(), core.authority()) else {
        return Ok(String::new(alloc));
    };
    origin_of_authority(alloc, scheme, authority)
}

/// Returns the origin of a text of the kind, or the empty text if it has none.
fn origin_of_kind<K: Kind>(alloc: Global, text: &[u8]) -> Result<String, Rejection>
    ensures { IsReturnedAs string_bytes (origin_of_kind K.kind text.now) result }
{
    let normal = normal_form::<K>(alloc, text, RuleSet::DefaultPorts)?;
    Ok(origin_of_normal(alloc, normal.borrow())?)
}

/// Returns the origin of a text of the kind of URIs with this number of the header, or the empty
/// text if it has none.
fn origin(alloc: Global, kind: u32, text: &[u8]) -> Result<String, Rejection>
    ensures { IsReturnedAs string_bytes (origin_result kind text.now) result }
{
    match kind {
        0 => origin_of_kind::<UriKind>(alloc, text),
        1 => origin_of_kind::<UriRefKind>(alloc, text),
        _ => Err(Rejection::of(Error::InvalidArgument)),
    }
}

/// Writes the origin of a text of the kind of URIs.
#[unsafe(no_mangle)]
pub extern "C" fn fluent_uri_origin(
    alloc: Global,
    kind: u32,
    text: &[u8],
    out: &mut [u8],
    outcome: &mut Outcome,
) -> u32
    ensures { LeavesText (origin_result kind text.now) out.old out.new outcome.new result }
{
    put_or_report(origin(alloc, kind, text), out, outcome)
}
