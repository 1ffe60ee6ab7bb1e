//! Where an authority is to be reached (RFC 3986, sections 3.2.2 and 3.2.3).
ghost use Rattle.std.specs.Prelude.{◌≡◌, IsTrue, IfOk, IfErr, IsOkAnd, IsUtf8, Err, unwrap_or};
ghost use Rattle.uri_pct.specs.Prelude.{IsBorrowedText, cow_text, is_unencoded, text_of};
ghost use Rattle.uri_parts.specs.Authority.{authority_parts};
ghost use Rattle.uri_parts.specs.Connecting.{IsTargetResultFor, IsBorrowedTarget, IsNameError, name_bytes};
ghost use Rattle.uri_parts.specs.Hosts.{host_kind};
ghost use Rattle.uri_parts.specs.Ports.{port_number, FitsPort};
ghost use Rattle.uri_parts.specs.declared.connect.SocketError.TheVariants.{InvalidPort};
ghost use Rattle.uri_parts.specs.AuthorityTexts.{authority_text};

use crate::component::{Authority, HostOf};
use crate::net::{Ipv4Addr, Ipv6Addr};
use std::alloc::Global;
use thiserror::Error;
use uri_pct::decode::Decode;
use uri_pct::encoder::Encoder;
use uri_pct::pct_enc::{CowStr, DecodeError, EStr};

/// Where to connect to: an address, or a name that is to be looked up, and the port there.
///
/// Of the authority `[::1]:80` it is an address, and of `example.com:80` a name; the port of both
/// is 80.
#[derive(Debug, Drop)]
pub enum SocketTarget<'a> {
    /// An IPv4 address.
    V4(Ipv4Addr, u16),
    /// An IPv6 address.
    V6(Ipv6Addr, u16),
    /// A registered name, decoded. It may be empty.
    Name(CowStr<'a>, u16),
}

/// Why an authority does not say where to connect to.
///
/// The error of the authority `a:65536` is `InvalidPort`.
#[derive(Clone, Copy, Debug, PartialEq, Eq, Error)]
pub enum SocketError {
    /// The port is over 65535.
    #[error("invalid port value")]
    InvalidPort,
    /// The host is an address of a later version.
    #[error("address mechanism not supported")]
    UnsupportedMechanism,
    /// The host is a name that does not decode to UTF-8.
    #[error("registered name does not decode to valid UTF-8")]
    NameNotUtf8,
    /// There was no memory for the decoded name.
    #[error("out of memory")]
    OutOfMemory,
}

impl<'a, U: Encoder, R: Encoder> Authority<'a, U, R> {
    /// Returns where to connect to: the host's address or decoded name, and the port. If the port
    /// is absent or empty, it is the given one. No name is looked up. If the host has no `%`, no
    /// memory is taken and the name is `CowStr::Borrowed`.
    ///
    /// # Errors
    ///
    /// - `InvalidPort` exactly if the port is over 65535. The port is tested first.
    /// - Otherwise `UnsupportedMechanism` for an address of a later version, and `NameNotUtf8` for
    ///   a name that does not decode to UTF-8 (RFC 3986, section 3.2.2).
    /// - `OutOfMemory` if allocation fails.
    ///
    /// # Examples
    ///
    /// With the default port 443, `example.com` is the name `example.com` and the port 443, and
    /// `127.0.0.1:80` the address and the port 80.
    ///
    /// ```
    /// let authority = uri.authority()?;
    /// let port = uri.scheme().default_port().unwrap_or(port);
    /// Some(authority.socket_target(alloc, port))
    /// ```
    pub fn socket_target(
        self,
        alloc: Global,
        default_port: u16,
    ) -> Result<SocketTarget<'a>, SocketError>
        ensures invalid_port { let p = authority_parts (authority_text self.entry) in
            ¬ (FitsPort (port_number p.port)) → result ≡ Err InvalidPort }
        ensures answer { let p = authority_parts (authority_text self.entry) in
            FitsPort (port_number p.port)
            → IsTargetResultFor p.host (host_kind p.host)
            (unwrap_or (port_number p.port) default_port) result }
        ensures borrows { let p = authority_parts (authority_text self.entry) in
            IsTrue (is_unencoded p.host) → IfOk result IsBorrowedTarget }
    {
        let Ok(port) = self.port_to_u16() else {
            return Err(SocketError::InvalidPort);
        };
        let port = port.unwrap_or(default_port);
        match self.host_parsed() {
            HostOf::Ipv4(address) => Ok(SocketTarget::V4(address, port)),
            HostOf::Ipv6(address) => Ok(SocketTarget::V6(address, port)),
            HostOf::IpvFuture => Err(SocketError::UnsupportedMechanism),
            HostOf::RegName(name) => Ok(SocketTarget::Name(decoded_name(alloc, name)?, port)),
        }
    }
}

/// Returns the name to connect to: the text that a registered name decodes to.
fn decoded_name<'a, R: Encoder>(alloc: Global, name: EStr<'a, R>) -> Result<CowStr<'a>, SocketError>
    ensures text { IfOk result (λ text.
        (cow_text text ≡ name_bytes (text_of name.entry))
        × IsUtf8 (name_bytes (text_of name.entry))) }
    ensures refused { IfErr result (IsNameError (text_of name.entry)) }
    ensures borrows { IsTrue (is_unencoded (text_of name.entry)) → IsOkAnd result IsBorrowedText }
{
    match Decode::of_text(name.as_str()).to_string(alloc) {
        Ok(text) => Ok(text),
        Err(DecodeError::NotUtf8(_)) => Err(SocketError::NameNotUtf8),
        Err(DecodeError::OutOfMemory) => Err(SocketError::OutOfMemory),
    }
}
