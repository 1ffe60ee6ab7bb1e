//! Hosts in ASCII, as DNS has them (RFC 3987, section 3.1; UTS 46, section 4.2).
ghost use Rattle.std.specs.Prelude.{◌≡◌, IfOk, IsSomeAnd, is_none, option_map};
ghost use Rattle.fluent_uri.specs.Prelude.{authority_text, cow_text, iri, iri_ref, reference_text};
ghost use Rattle.uri_idna.specs.AsciiReferences.{HasAsciiHost, with_ascii_host};
ghost use Rattle.fluent_uri_c.specs.AsciiHosts.{ascii_host_of_kind, ascii_host_or_error, ascii_host_result, ascii_host_takes_memory, ascii_uri_of_kind, ascii_uri_result, ascii_uri_takes_memory, host_or_empty, takes_memory_for_host, takes_memory_for_host_of_kind, ascii_host_rejection};
ghost use Rattle.fluent_uri_c.specs.Outcomes.{LeavesTextOrDenied};
ghost use Rattle.fluent_uri_c.specs.Results.{IsReturnedOrDenied, text_error};
ghost use Rattle.fluent_uri_c.specs.Values.{LeavesValueOrDenied};

use crate::errors::{Error, Rejection};
use crate::outcome::{Outcome, put, put_value, report};
use crate::parts::Parts;
use crate::texts::parsed;
use fluent_uri::component::Authority;
use fluent_uri::pct_enc::{CowStr, Encoder};
use fluent_uri::{Iri, IriRef, Uri, UriRef};
use std::alloc::Global;
use uri_idna::{AsciiHostError, ascii_host, to_uri_with_ascii_host, with_ascii_host};
use uri_parts::kind::{IriKind, IriRefKind, Kind, UriKind, UriRefKind};

impl From<AsciiHostError> for Rejection {
    ghost from_gives = { λ error why. why ≡ ascii_host_rejection error };

    /// Returns the rejection, by a number of the header, for an error of a host.
    fn from(error: AsciiHostError) -> Rejection {
        Rejection::of(match error {
            AsciiHostError::NameNotUtf8 => Error::NameNotUtf8,
            AsciiHostError::InvalidName => Error::InvalidName,
            AsciiHostError::OutOfMemory => Error::OutOfMemory,
        })
    }
}

/// Returns the host of an authority in ASCII, or the empty text without an authority.
fn host_in_ascii<'a, U: Encoder, R: Encoder>(
    alloc: Global,
    authority: Option<Authority<'a, U, R>>,
) -> Result<CowStr<'a>, Rejection>
    ensures { let host = host_or_empty (option_map authority_text authority.entry) in
        IsReturnedOrDenied (takes_memory_for_host host) cow_text (ascii_host_or_error host)
        result }
{
    match authority {
        Some(authority) => match ascii_host(alloc, authority) {
            Ok(host) => Ok(host),
            Err(error) => Err(Rejection::from(error)),
        },
        None => Ok(CowStr::Borrowed("")),
    }
}

/// Returns the host, in ASCII, of bytes that are a text of the kind.
fn host_of_kind<'a, K: Kind>(alloc: Global, bytes: &'a [u8]) -> Result<CowStr<'a>, Rejection>
    ensures { IsReturnedOrDenied (takes_memory_for_host_of_kind K.kind bytes.now) cow_text
        (ascii_host_of_kind K.kind bytes.now) result }
{
    let value = parsed::<K>(bytes)?;
    host_in_ascii(alloc, value.authority())
}

/// Returns the host, in ASCII, of a text of the kind with this number of the header.
fn host_numbered<'a>(alloc: Global, kind: u32, text: &'a [u8]) -> Result<CowStr<'a>, Rejection>
    ensures { IsReturnedOrDenied (ascii_host_takes_memory kind text.now) cow_text
        (ascii_host_result kind text.now) result }
{
    match kind {
        0 => host_of_kind::<UriKind>(alloc, text),
        1 => host_of_kind::<UriRefKind>(alloc, text),
        2 => host_of_kind::<IriKind>(alloc, text),
        3 => host_of_kind::<IriRefKind>(alloc, text),
        _ => Err(Rejection::of(Error::InvalidArgument)),
    }
}

/// Writes the host of a text of the kind in ASCII.
#[unsafe(no_mangle)]
pub extern "C" fn fluent_uri_ascii_host(
    alloc: Global,
    kind: u32,
    text: &[u8],
    out: &mut [u8],
    outcome: &mut Outcome,
) -> u32
    ensures { LeavesTextOrDenied (ascii_host_takes_memory kind text.now)
        (ascii_host_result kind text.now) out.old out.new outcome.new result }
{
    match host_numbered(alloc, kind, text) {
        Ok(host) => {
            put(host.as_str().as_bytes(), out, outcome);
            0
        }
        Err(why) => report(why, outcome),
    }
}

/// Returns bytes that are an IRI as a URI with its host in ASCII.
fn ascii_uri_of_iri(alloc: Global, bytes: &[u8]) -> Result<Uri<String>, Rejection>
    ensures text { IsReturnedOrDenied (is_none (text_error iri bytes.now)) reference_text
        (ascii_uri_of_kind iri bytes.now) result }
    ensures others { IfOk result (λ _.
        IsSomeAnd (with_ascii_host bytes.now) (HasAsciiHost bytes.now)) }
{
    let iri: Iri<&str> = parsed::<IriKind>(bytes)?;
    match to_uri_with_ascii_host(alloc, &iri) {
        Ok(uri) => Ok(uri),
        Err(error) => Err(Rejection::from(error)),
    }
}

/// Returns bytes that are an IRI reference as a URI reference with its host in ASCII.
fn ascii_uri_ref_of_iri_ref(alloc: Global, bytes: &[u8]) -> Result<UriRef<String>, Rejection>
    ensures text { IsReturnedOrDenied (is_none (text_error iri_ref bytes.now)) reference_text
        (ascii_uri_of_kind iri_ref bytes.now) result }
    ensures others { IfOk result (λ _.
        IsSomeAnd (with_ascii_host bytes.now) (HasAsciiHost bytes.now)) }
{
    let value: IriRef<&str> = parsed::<IriRefKind>(bytes)?;
    match with_ascii_host(alloc, &value) {
        Ok(made) => Ok(made.to_uri_ref(alloc)?),
        Err(error) => Err(Rejection::from(error)),
    }
}

/// Returns a text of the kind of IRIs with this number of the header as a URI or a URI reference
/// with its host in ASCII.
fn ascii_uri(alloc: Global, kind: u32, text: &[u8]) -> Result<IriRef<String>, Rejection>
    ensures text { IsReturnedOrDenied (ascii_uri_takes_memory kind text.now) reference_text
        (ascii_uri_result kind text.now) result }
    ensures others { IfOk result (λ _.
        IsSomeAnd (with_ascii_host text.now) (HasAsciiHost text.now)) }
{
    match kind {
        2 => Ok(IriRef::from(ascii_uri_of_iri(alloc, text)?)),
        3 => Ok(IriRef::from(ascii_uri_ref_of_iri_ref(alloc, text)?)),
        _ => Err(Rejection::of(Error::InvalidArgument)),
    }
}

/// Writes a text of a kind of IRIs as a URI or a URI reference with its host in ASCII.
#[unsafe(no_mangle)]
pub extern "C" fn fluent_uri_to_uri_with_ascii_host(
    alloc: Global,
    kind: u32,
    text: &[u8],
    out: &mut [u8],
    parts: &mut [Parts],
    outcome: &mut Outcome,
) -> u32
    ensures text { LeavesValueOrDenied (ascii_uri_takes_memory kind text.now)
        (ascii_uri_result kind text.now) out.old out.new parts.old parts.new outcome.new result }
    ensures others { result ≡ 0 → IsSomeAnd (with_ascii_host text.now) (HasAsciiHost text.now) }
{
    match ascii_uri(alloc, kind, text) {
        Ok(value) => {
            put_value(&value, out, parts, outcome);
            0
        }
        Err(rejection) => report(rejection, outcome),
    }
}
