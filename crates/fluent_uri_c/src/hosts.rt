//! The host of a text as an address, and ports as numbers (RFC 3986, sections 3.2.2 and 3.2.3).
ghost use Rattle.std.specs.Prelude.{◌≡◌, Some, false, option_map};
ghost use Rattle.fluent_uri.specs.Prelude.{authority_text, components, reference_text};
ghost use Rattle.fluent_uri_c.specs.Addresses.{address_octets, host_address_of, host_address_result};
ghost use Rattle.fluent_uri_c.specs.Kinds.{kind_numbered};
ghost use Rattle.fluent_uri_c.specs.Outcomes.{LeavesTextOrDenied, outcome_of_text, written};
ghost use Rattle.fluent_uri_c.specs.PortNumbers.{LeavesPortNumber, default_port_code, port_code};
ghost use Rattle.fluent_uri_c.specs.Spans.{port_of};

use crate::errors::{Error, Rejection};
use crate::outcome::{Outcome, put, report};
use crate::texts::{is_possible_length, parsed};
use fluent_uri::Reference;
use fluent_uri::component::{Authority, Host, Scheme};
use fluent_uri::pct_enc::Encoder;
use uri_parts::kind::{IriKind, IriRefKind, Kind, UriKind, UriRefKind};

/// Writes the octets of the address that an authority's host is, or none.
fn put_address<U: Encoder, R: Encoder>(
    authority: Option<Authority<'_, U, R>>,
    out: &mut [u8],
    outcome: &mut Outcome,
)
    ensures outcome { outcome.new
        ≡ outcome_of_text (address_octets (option_map authority_text authority.entry)) }
    ensures written { out.new
        ≡ written (address_octets (option_map authority_text authority.entry)) out.old }
{
    let Some(authority) = authority else {
        return put(&[], out, outcome);
    };
    match authority.host_parsed() {
        Host::Ipv4(address) => put(&address.octets(), out, outcome),
        Host::Ipv6(address) => put(&address.to_std().octets(), out, outcome),
        Host::IpvFuture => put(&[], out, outcome),
        Host::RegName(_) => put(&[], out, outcome),
    }
}

/// Writes the octets of the address that the host of a text of the kind is, or reports why the text
/// is rejected. Returns the number of the error, or 0.
fn put_address_of<K: Kind>(text: &[u8], out: &mut [u8], outcome: &mut Outcome) -> u32
    ensures { LeavesTextOrDenied false (host_address_of K.kind text.now) out.old out.new
        outcome.new result }
{
    match parsed::<K>(text) {
        Ok(value) => {
            put_address(value.authority(), out, outcome);
            0
        }
        Err(why) => report(why, outcome),
    }
}

/// Writes the octets of the address that the host of a text of the kind is. Takes no memory.
#[unsafe(no_mangle)]
pub extern "C" fn fluent_uri_host_address(
    kind: u32,
    text: &[u8],
    out: &mut [u8],
    outcome: &mut Outcome,
) -> u32
    ensures { LeavesTextOrDenied false (host_address_result kind text.now) out.old out.new
        outcome.new result }
{
    match kind {
        0 => put_address_of::<UriKind>(text, out, outcome),
        1 => put_address_of::<UriRefKind>(text, out, outcome),
        2 => put_address_of::<IriKind>(text, out, outcome),
        3 => put_address_of::<IriRefKind>(text, out, outcome),
        _ => report(Rejection::of(Error::InvalidArgument), outcome),
    }
}

/// Returns the port of an authority as C gets it: its number, or why it has none.
fn port_code<U: Encoder, R: Encoder>(authority: Authority<'_, U, R>) -> u32
    ensures { result ≡ port_code (port_of (Some (authority_text authority.entry))) }
{
    let Some(port) = authority.port() else {
        return 65536;
    };
    if port.is_empty() {
        return 65537;
    }
    match authority.port_to_u16() {
        Ok(Some(number)) => number as u32,
        Ok(None) => unreachable!(),
        Err(_) => 65538,
    }
}

/// Returns the port of a value as C gets it: its number, or why it has none.
fn port_code_of<K: Kind>(value: &Reference<K, &str>) -> u32
    ensures { result ≡ port_code (port_of (components (reference_text value.now)).authority) }
{
    match value.authority() {
        Some(authority) => port_code(authority),
        None => 65536,
    }
}

/// Writes the port of a text of the kind, as a number. Returns the number of the error, or 0.
fn put_port_of<K: Kind>(text: &[u8], port: &mut u32) -> u32
    ensures { LeavesPortNumber (Some K.kind) text.now port.old port.new result }
{
    match parsed::<K>(text) {
        Ok(value) => {
            *port = port_code_of(&value);
            0
        }
        Err(why) => why.error.number(),
    }
}

/// Writes the port of a text of the kind, as a number. Takes no memory.
#[unsafe(no_mangle)]
pub extern "C" fn fluent_uri_port_number(kind: u32, text: &[u8], port: &mut u32) -> u32
    ensures { LeavesPortNumber (kind_numbered kind) text.now port.old port.new result }
{
    match kind {
        0 => put_port_of::<UriKind>(text, port),
        1 => put_port_of::<UriRefKind>(text, port),
        2 => put_port_of::<IriKind>(text, port),
        3 => put_port_of::<IriRefKind>(text, port),
        _ => Error::InvalidArgument.number(),
    }
}

/// Returns the default port of a scheme, or 0 if it has none. Takes no memory.
#[tactic(auto, using(crate::proofs::SchemeTexts::in_utf8, crate::proofs::SchemeTexts::not_in_utf8))]
#[unsafe(no_mangle)]
pub extern "C" fn fluent_uri_default_port(scheme: &[u8]) -> u32
    ensures { result ≡ default_port_code scheme.now }
{
    if !is_possible_length(scheme) {
        return Error::InvalidArgument.number();
    }
    let Ok(text) = std::str::from_utf8(scheme) else {
        return 0;
    };
    match Scheme::new(text) {
        Some(scheme) => match scheme.default_port() {
            Some(port) => port as u32,
            None => 0,
        },
        None => 0,
    }
}
