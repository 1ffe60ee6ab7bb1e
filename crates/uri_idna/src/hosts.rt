//! The host of an authority in ASCII (UTS 46, section 4.2; RFC 3987, section 3.1).
ghost use Rattle.std.specs.Prelude.{◌≡◌, IfErr, IfOk, IsOkAnd, IsTrue, Some, string_bytes};
ghost use Rattle.uri_pct.specs.Prelude.{IsBorrowedText, cow_text, is_unencoded, text_of};
ghost use Rattle.uri_parts.specs.Prelude.{authority_parts, authority_text};
ghost use Rattle.uri_idna.specs.AsciiHosts.{IsAsciiHostError, IsAsciiNameError, IsDnsNameError, ascii_host, ascii_name, dns_name, is_ascii_text, is_unencoded_ascii};

use crate::error::AsciiHostError;
use idna::Errors;
use idna::uts46::{AsciiDenyList, DnsLength, Hyphens, Uts46};
use std::alloc::Global;
use uri_parts::component::{Authority, Host};
use uri_pct::encoder::Encoder;
use uri_pct::pct_enc::{CowStr, Decode, EStr};

/// Returns whether bytes are ASCII alone.
fn is_ascii_text(bytes: &[u8]) -> bool
    ensures { result ≡ is_ascii_text bytes.now }
{
    bytes.iter().all(|byte| byte.is_ascii())
}

/// Returns whether a host has no `%`.
fn is_unencoded(host: &[u8]) -> bool
    ensures { result ≡ is_unencoded host.now }
{
    host.iter().all(|byte| *byte != b'%')
}

/// Returns whether a host is ASCII alone and has no `%`.
fn is_unencoded_ascii(host: &str) -> bool
    ensures { result ≡ is_unencoded_ascii host.now }
{
    let bytes = host.as_bytes();
    is_unencoded(bytes) && is_ascii_text(bytes)
}

/// Returns a name for DNS in ASCII.
fn dns_name(alloc: Global, name: &[u8]) -> Result<String, AsciiHostError>
    ensures name { IfOk result (λ made. dns_name name.now ≡ Some (string_bytes made)) }
    ensures error { IfErr result (IsDnsNameError name.now) }
{
    let made = Uts46::new().to_ascii(
        alloc,
        name,
        AsciiDenyList::STD3,
        Hyphens::CheckFirstLast,
        DnsLength::VerifyAllowRootDot,
    );
    match made {
        Ok(made) => Ok(made.into_owned(alloc)?),
        Err(Errors::Invalid) => Err(AsciiHostError::InvalidName),
        Err(Errors::OutOfMemory) => Err(AsciiHostError::OutOfMemory),
    }
}

/// Returns a registered name in ASCII: itself, if its decoded text is in ASCII.
#[tactic(auto, using(crate::proofs::Names::unencoded_ascii_name_stays))]
fn ascii_name<'a, R: Encoder>(
    alloc: Global,
    name: EStr<'a, R>,
) -> Result<CowStr<'a>, AsciiHostError>
    ensures text { IfOk result (λ text.
        ascii_name (text_of name.entry) ≡ Some (cow_text text)) }
    ensures error { IfErr result (IsAsciiNameError (text_of name.entry)) }
    ensures borrows { IsTrue (is_unencoded_ascii (text_of name.entry))
        → IsOkAnd result IsBorrowedText }
{
    let text = name.as_str();
    if is_unencoded_ascii(text) {
        return Ok(CowStr::Borrowed(text));
    }
    let decoded = Decode::of_text(text).to_bytes(alloc)?;
    let bytes = decoded.as_slice();
    if is_ascii_text(bytes) {
        return Ok(CowStr::Borrowed(text));
    }
    match std::str::from_utf8(bytes) {
        Ok(_) => Ok(CowStr::Owned(dns_name(alloc, bytes)?)),
        Err(_) => Err(AsciiHostError::NameNotUtf8),
    }
}

/// Returns the host in ASCII, as DNS has it (RFC 3987, section 3.1). A registered name is decoded,
/// and one with characters past ASCII is converted by ToASCII of UTS 46, without transitional
/// processing. Every other host is returned as it is: an address, and a name that decodes to ASCII.
///
/// In a name that is converted, a label has letters, digits and hyphens alone in ASCII, no hyphen
/// at either end, and at most 63 characters. A `.` may end the name.
///
/// If the host is ASCII and has no `%`, no memory is taken and the host is `CowStr::Borrowed`.
///
/// # Errors
///
/// - `NameNotUtf8` if the name does not decode to UTF-8.
/// - `InvalidName` if the name has characters past ASCII and UTS 46 rejects it.
/// - `OutOfMemory` if allocation fails.
///
/// # Examples
///
/// | Host | In ASCII |
/// |---|---|
/// | `bücher.example`, `b%C3%BCcher.example` | `xn--bcher-kva.example` |
/// | `faß.de` | `xn--fa-hia.de` |
/// | `Example.com`, `a_b%21`, `[::1]` | itself |
///
/// ```
/// let host = ascii_host(alloc, authority)?;
/// ```
pub fn ascii_host<'a, U: Encoder, R: Encoder>(
    alloc: Global,
    authority: Authority<'a, U, R>,
) -> Result<CowStr<'a>, AsciiHostError>
    ensures text { let host = (authority_parts (authority_text authority.entry)).host in
        IfOk result (λ text. ascii_host host ≡ Some (cow_text text)) }
    ensures error { let host = (authority_parts (authority_text authority.entry)).host in
        IfErr result (IsAsciiHostError host) }
    ensures borrows { let host = (authority_parts (authority_text authority.entry)).host in
        IsTrue (is_unencoded_ascii host) → IsOkAnd result IsBorrowedText }
{
    match authority.host_parsed() {
        Host::RegName(name) => ascii_name(alloc, name),
        Host::Ipv4(_) => Ok(CowStr::Borrowed(authority.host())),
        Host::Ipv6(_) => Ok(CowStr::Borrowed(authority.host())),
        Host::IpvFuture => Ok(CowStr::Borrowed(authority.host())),
    }
}
