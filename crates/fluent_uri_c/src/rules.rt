//! The rules of the components of a reference (RFC 3986, section 3): which bytes are one.
ghost use Rattle.std.specs.Prelude.{◌≡◌, ◌&&◌, ◌||◌, IfOk, IfSome, drop, is_some, length, nat_lt, slice_index, true, ℕ, Bool, List, Option};
ghost use Rattle.std.specs.Char.{is_ascii_alphabetic};
ghost use Rattle.std.specs.Result.{result_err};
ghost use Rattle.uri_ops.specs.Prelude.{is_scheme_text, is_text_for};
ghost use Rattle.uri_parts.specs.Prelude.{ipv6_value, is_future_address, is_host, is_ipv_future, is_next, starts};
ghost use Rattle.uri_pct.specs.Prelude.{LacksPercent, TableSet, hexdig_set, is_valid_for, left_bracket, percent_sign, scheme_set, set_of};
ghost use Rattle.fluent_uri_c.specs.Results.{component_error};
ghost use Rattle.fluent_uri_c.specs.declared.errors.Rejection.{Rejection};
ghost use Rattle.fluent_uri_c.specs.Building.{scheme_error, host_error, is_host_text};

use crate::errors::{Error, Rejection};
use crate::texts::utf8_text;
use fluent_uri::pct_enc::Encoder;
use std::marker::PhantomData;
use uri_parts::net::Ipv6Addr;
use uri_parts::slicing::{after_mark, cut_before};
use uri_pct::table::{HEXDIG, IPV_FUTURE, SCHEME, Table};

/// The rule of a component.
pub trait Rule {
    ghost error: { List ℕ → Option Rejection };

    ghost test: { List ℕ → Bool };

    /// Returns bytes as a component by the rule.
    fn read(bytes: &[u8]) -> Result<&str, Rejection>
        ensures text { IfOk result (λ text. text.now ≡ bytes.now) }
        ensures valid { IfOk result (λ _. test bytes.now ≡ true) }
        ensures rejected { result_err result ≡ error bytes.now };
}

/// The rule of components whose characters are an encoder's: all but scheme and host.
pub struct Characters<E: Encoder> {
    encoder: PhantomData<E>,
}

/// Returns whether this byte is at an index.
#[tactic(auto, using(uri_parts::proofs::Parsing::NextBytes::starts_at_position))]
fn next_is(bytes: &[u8], index: usize, byte: u8) -> bool
    ensures { result ≡ is_next bytes.now byte index }
{
    index < bytes.len() && bytes[index] == byte
}

/// Returns whether a `%` is at the index where a scan by the table ended, which allows octets.
fn is_stray_percent(table: &Table, bytes: &[u8], end: usize) -> bool
    ensures { result
        ≡ ((set_of table.now).pct_encoded && is_next bytes.now percent_sign end) }
{
    table.allows_pct_encoded() && next_is(bytes, end, b'%')
}

/// Returns bytes as a text that has characters and percent-encoded octets of the table alone.
pub fn read_characters<'a>(table: &Table, bytes: &'a [u8]) -> Result<&'a str, Rejection>
    requires { LacksPercent (set_of table.now) }
    ensures text { IfOk result (λ text. text.now ≡ bytes.now) }
    ensures valid { IfOk result (λ _. is_text_for (set_of table.now) bytes.now ≡ true) }
    ensures rejected { result_err result ≡ component_error (set_of table.now) bytes.now }
{
    let text = utf8_text(bytes)?;
    let end = table.scan(text, 0);
    if end == text.len() {
        return Ok(text);
    }
    if is_stray_percent(table, text.as_bytes(), end) {
        Err(Rejection::at(Error::InvalidPctEncodedOctet, end))
    } else {
        Err(Rejection::at(Error::UnexpectedChar, end))
    }
}

impl<E: Encoder> Rule for Characters<E> {
    ghost error = { component_error E.set };

    ghost test = { is_text_for E.set };

    /// Returns bytes as a text of the encoder's characters.
    fn read(bytes: &[u8]) -> Result<&str, Rejection> {
        read_characters(&E::table(), bytes)
    }
}

/// Returns the table of the characters of schemes.
#[tactic(auto, using(uri_pct::proofs::TableSets::Constants::scheme_masks_are_scheme_set))]
fn scheme_table() -> Table
    ensures { set_of result ≡ scheme_set }
{
    SCHEME
}

/// Returns whether the first byte is an ASCII letter.
fn begins_with_letter(bytes: &[u8]) -> bool
    ensures { result ≡ is_ascii_alphabetic (slice_index bytes.now 0) }
{
    match bytes {
        [first, ..] => first.is_ascii_alphabetic(),
        [] => false,
    }
}

/// The rule of a scheme (RFC 3986, section 3.1).
pub struct SchemeRule;

impl Rule for SchemeRule {
    ghost error = { scheme_error };

    ghost test = { is_scheme_text };

    /// Returns bytes as a scheme.
    fn read(bytes: &[u8]) -> Result<&str, Rejection> {
        if !begins_with_letter(bytes) {
            return Err(Rejection::at(Error::UnexpectedChar, 0));
        }
        let text = read_characters(&scheme_table(), bytes)?;
        Ok(text)
    }
}

/// Returns what follows the `v` of an IPvFuture address, if the text begins with one.
fn after_version_letter(address: &str) -> Option<&str>
    ensures begins { is_some result ≡ (starts 118 address.now || starts 86 address.now) }
    ensures rest { IfSome result (λ rest. rest.now ≡ drop 1 address.now) }
{
    match after_mark(address, b'v') {
        Some(rest) => Some(rest),
        None => after_mark(address, b'V'),
    }
}

/// Returns whether a text is the version of an IPvFuture address.
#[tactic(auto, using(uri_pct::proofs::TableSets::Constants::hexdig_masks_are_hexdig_set))]
fn is_version(text: &str) -> bool
    ensures { result ≡ (nat_lt 0 (length text.now) && is_valid_for hexdig_set text.now) }
{
    !text.is_empty() && HEXDIG.allows_text(text)
}

/// Returns whether a text is the end of an IPvFuture address, after the version.
#[tactic(auto, using(uri_pct::proofs::TableSets::Constants::ipv_future_masks_are_ipv_future_set))]
fn is_future_address(text: &str) -> bool
    ensures { result ≡ is_future_address text.now }
{
    match after_mark(text, b'.') {
        Some(rest) => !rest.is_empty() && IPV_FUTURE.allows_text(rest),
        None => false,
    }
}

/// Returns whether a text is an IPvFuture address, without brackets.
#[tactic(auto, using(crate::proofs::Literals::ipv_future_by_its_cut))]
fn is_ipv_future(address: &str) -> bool
    ensures { result ≡ is_ipv_future address.now }
{
    match after_version_letter(address) {
        Some(rest) => {
            let (version, end) = cut_before(rest, b".");
            is_version(version) && is_future_address(end)
        }
        None => false,
    }
}

/// Returns whether a text is an address that may be in brackets.
fn is_address(address: &str) -> bool
    ensures { result ≡ (is_some (ipv6_value address.now) || is_ipv_future address.now) }
{
    Ipv6Addr::parse(address).is_some() || is_ipv_future(address)
}

/// Returns whether a host is an address in brackets.
#[tactic(auto, using(crate::proofs::Literals::literal_by_its_cut))]
fn is_ip_literal(host: &str) -> bool
    ensures { (names : TableSet) → starts left_bracket host.now ≡ true
        → result ≡ is_host names host.now }
{
    match after_mark(host, b'[') {
        Some(inside) => {
            let (address, end) = cut_before(inside, b"]");
            end == "]" && is_address(address)
        }
        None => false,
    }
}

/// Returns whether bytes begin with `[`.
fn begins_with_bracket(bytes: &[u8]) -> bool
    ensures { result ≡ starts left_bracket bytes.now }
{
    matches!(bytes, [b'[', ..])
}

/// The rule of a host whose registered names are an encoder's (RFC 3986, section 3.2.2).
pub struct HostRule<E: Encoder> {
    encoder: PhantomData<E>,
}

impl<E: Encoder> Rule for HostRule<E> {
    ghost error = { host_error E.set };

    ghost test = { is_host_text E.set };

    /// Returns bytes as a host.
    fn read(bytes: &[u8]) -> Result<&str, Rejection> {
        if !begins_with_bracket(bytes) {
            let name = read_characters(&E::table(), bytes)?;
            return Ok(name);
        }
        let text = utf8_text(bytes)?;
        if is_ip_literal(text) {
            Ok(text)
        } else {
            Err(Rejection::at(Error::InvalidIpv6Addr, 1))
        }
    }
}
