//! The components of a reference that are more than percent-encoded texts.
ghost use Rattle.std.specs.Prelude.{◌≡◌, [], is_some, option_map, true, ⊤, Some};
ghost use Rattle.uri_parts.specs.Authority.{authority_parts, is_authority_for};
ghost use Rattle.uri_parts.specs.Hosts.{host_kind};
ghost use Rattle.uri_parts.specs.Positions.{host_start_of, host_end_of};
ghost use Rattle.uri_pct.specs.Prelude.{text_of};
ghost use Rattle.std.specs.Fmt.{styled_text};

pub use crate::connect::{SocketError, SocketTarget};
use crate::net::{Ipv4Addr, Ipv6Addr};
use crate::printing::is_plain;
pub use crate::scheme::Scheme;
use crate::slicing::after_mark;
use std::alloc::AllocError;
use std::fmt;
use std::marker::PhantomData;
use uri_pct::encoder::{Encoder, Port, RegName, Userinfo};
use uri_pct::pct_enc::EStr;

/// An authority (RFC 3986, section 3.2): userinfo, host and port, over the encoders of its userinfo
/// and of registered names.
///
/// `user@example.com:8042` has the userinfo `user`, the host `example.com` and the port `8042`.
pub struct Authority<'a, U: Encoder = Userinfo, R: Encoder = RegName> {
    text: &'a str,
    host_start: usize,
    host_end: usize,
    encoders: PhantomData<(U, R)>,
    pub ghost valid: { is_authority_for U.set R.set text.now ≡ true },
    pub ghost starts: { host_start ≡ host_start_of text.now },
    pub ghost ends: { host_end ≡ host_end_of text.now },
}

impl<'a, U: Encoder, R: Encoder> Clone for Authority<'a, U, R> {
    ghost is_clone = { λ value copy. copy ≡ value };

    ghost is_infallible = { λ _. ⊤ };

    /// Returns the same authority, over the same text.
    fn clone(&self) -> Result<Self, AllocError> {
        Ok(*self)
    }
}

impl<'a, U: Encoder, R: Encoder> Copy for Authority<'a, U, R> {}

impl<'a, U: Encoder, R: Encoder> Authority<'a, U, R> {
    ghost use Rattle.uri_parts.specs.AuthorityTexts.{authority_text, host_kind_of, HasRegisteredName};

    /// Returns the text as an authority whose host is at these positions, which the caller knows to
    /// be its host's.
    pub(crate) fn new_unchecked(text: &'a str, host_start: usize, host_end: usize) -> Self
        requires valid { is_authority_for U.set R.set text.now ≡ true }
        requires starts { host_start ≡ host_start_of text.now }
        requires ends { host_end ≡ host_end_of text.now }
        ensures { authority_text result ≡ text.now }
    {
        Authority {
            text,
            host_start,
            host_end,
            encoders: PhantomData,
        }
    }

    /// The empty authority: an empty host alone.
    ///
    /// It is the authority of `file:///etc/hosts`.
    pub const EMPTY: Authority<'static, U, R> = Self::new_empty();

    /// Returns the empty authority. It is the constant `EMPTY` with a contract, which a constant
    /// has not.
    ///
    /// Its text is the empty one, as that of the authority of `file:///etc/hosts`.
    pub const fn new_empty() -> Authority<'static, U, R>
        ensures text { authority_text result ≡ [] }
        ensures host { (authority_parts (authority_text result)).host ≡ [] }
    {
        Authority {
            text: "",
            host_start: 0,
            host_end: 0,
            encoders: PhantomData,
        }
    }

    /// Returns the text, without the `//` before it, for as long as it was borrowed.
    ///
    /// Of the authority of `http://user@a:80/b` it is `user@a:80`.
    pub fn as_str(self) -> &'a str
        ensures text { result.now ≡ authority_text self.entry }
        ensures valid { is_authority_for U.set R.set result.now ≡ true }
    {
        self.text
    }

    /// Returns the userinfo without its `@`, if there is one (RFC 3986, section 3.2.1).
    ///
    /// Of `user@a` it is `user`, of `@a` the empty text, and of `a` there is none.
    pub fn userinfo(self) -> Option<EStr<'a, U>>
        ensures { option_map text_of result
            ≡ (authority_parts (authority_text self.entry)).userinfo }
    {
        if self.host_start == 0 {
            return None;
        }
        Some(EStr::new_or_panic(&self.text[..self.host_start - 1]))
    }

    /// Returns the host, with its brackets if it has some (RFC 3986, section 3.2.2). It may be
    /// empty.
    ///
    /// Of `user@a:80` it is `a`, of `[::1]:80` it is `[::1]`, and of `:80` the empty text.
    pub fn host(self) -> &'a str
        ensures { result.now ≡ (authority_parts (authority_text self.entry)).host }
    {
        let text = self.as_str();
        &text[self.host_start..self.host_end]
    }

    /// Returns the port without its `:`, if there is one (RFC 3986, section 3.2.3). It may be
    /// empty.
    ///
    /// Of `a:80` it is `80`, of `a:` the empty text, and of `a` there is none.
    pub fn port(self) -> Option<EStr<'a, Port>>
        ensures { option_map text_of result ≡ (authority_parts (authority_text self.entry)).port }
    {
        let text = self.as_str();
        if self.host_end == text.len() {
            return None;
        }
        Some(EStr::new_or_panic(&text[self.host_end + 1..]))
    }

    /// Returns whether there is a userinfo.
    ///
    /// `@a` has one, which is empty, and `a` has none.
    #[tactic(auto, using(crate::proofs::Authorities::AuthorityPlaces::userinfo_before_later_host))]
    pub fn has_userinfo(self) -> bool
        ensures { result ≡ is_some (authority_parts (authority_text self.entry)).userinfo }
    {
        self.host_start != 0
    }

    /// Returns whether there is a port.
    ///
    /// `a:` has one, which is empty, and `a` has none.
    pub fn has_port(self) -> bool
        ensures { result ≡ is_some (authority_parts (authority_text self.entry)).port }
    {
        let text = self.as_str();
        self.host_end != text.len()
    }

    /// Returns the host by its kind: an address with its numbers, or a registered name.
    ///
    /// Of `127.0.0.1` it is `Ipv4`, of `[::1]` `Ipv6`, of `[v1.a]` `IpvFuture`, and of `127.1`, `a`
    /// and the empty host `RegName`.
    pub fn host_parsed(self) -> Host<'a, R>
        ensures kind { host_kind_of result
            ≡ host_kind (authority_parts (authority_text self.entry)).host }
        ensures name { HasRegisteredName result (authority_parts (authority_text self.entry)).host }
    {
        let host = self.host();
        match after_mark(host, b'[') {
            Some(rest) => match Ipv6Addr::parse(&rest[..rest.len() - 1]) {
                Some(address) => Host::Ipv6(address),
                None => Host::IpvFuture,
            },
            None => match Ipv4Addr::parse(host) {
                Some(address) => Host::Ipv4(address),
                None => Host::RegName(EStr::new_or_panic(host)),
            },
        }
    }
}

impl<'a, U: Encoder, R: Encoder> fmt::Display for Authority<'a, U, R> {
    ghost use Rattle.uri_parts.specs.AuthorityTexts.{authority_text};

    ghost output = { λ a. Some (authority_text a) };

    ghost styled_output = { λ a spec. Some (styled_text spec (authority_text a)) };

    /// Prints the text unchanged, padded and cut as the format asks.
    fn fmt<W: fmt::Write>(&self, f: &mut fmt::Formatter<W>) -> fmt::Result {
        f.pad(self.text)
    }
}

impl<'a, U: Encoder, R: Encoder> fmt::Debug for Authority<'a, U, R> {
    ghost use Rattle.uri_parts.specs.AuthorityTexts.{authority_text};
    ghost use Rattle.uri_parts.specs.Printing.{debug_authority};

    ghost debug_output = { λ a. debug_authority (authority_text a) };

    /// Prints the components by name.
    fn fmt<W: fmt::Write>(&self, f: &mut fmt::Formatter<W>) -> fmt::Result {
        let (userinfo, host, port) = (self.userinfo(), self.host(), self.port());
        let parsed = self.host_parsed();
        if is_plain(f) {
            return write!(
                f,
                "Authority {{ userinfo: {userinfo:?}, host: {host:?}, host_parsed: {parsed:?}, \
                 port: {port:?} }}"
            );
        }
        f.debug_struct("Authority")
            .field("userinfo", &userinfo)
            .field("host", &host)
            .field("host_parsed", &parsed)
            .field("port", &port)
            .finish()
    }
}

/// A host (RFC 3986, section 3.2.2), whose registered name is an `N`.
///
/// The host of `//127.0.0.1` is `Ipv4(Ipv4Addr::LOCALHOST)`.
#[derive(Clone, Copy)]
pub enum HostOf<N> {
    /// An IPv4 address.
    Ipv4(Ipv4Addr),
    /// An IPv6 address, in brackets.
    Ipv6(Ipv6Addr),
    /// An address of a version to come, in brackets.
    IpvFuture,
    /// A registered name, which may be empty.
    RegName(N),
}

impl<N: fmt::Debug> fmt::Debug for HostOf<N> {
    ghost use Rattle.uri_parts.specs.Printing.{debug_host_of};

    ghost debug_output = { debug_host_of N.debug_output };

    /// Prints the kind of the host, with its address or its name.
    fn fmt<W: fmt::Write>(&self, f: &mut fmt::Formatter<W>) -> fmt::Result {
        if is_plain(f) {
            return match self {
                HostOf::Ipv4(address) => write!(f, "Ipv4({address:?})"),
                HostOf::Ipv6(address) => write!(f, "Ipv6({address:?})"),
                HostOf::IpvFuture => f.write_str("IpvFuture"),
                HostOf::RegName(name) => write!(f, "RegName({name:?})"),
            };
        }
        match self {
            HostOf::Ipv4(address) => f.debug_tuple("Ipv4").field(address).finish(),
            HostOf::Ipv6(address) => f.debug_tuple("Ipv6").field(address).finish(),
            HostOf::IpvFuture => f.write_str("IpvFuture"),
            HostOf::RegName(name) => f.debug_tuple("RegName").field(name).finish(),
        }
    }
}

/// A host of an authority over the encoder of its registered names.
///
/// `Host<'_>` is the host of a URI, and `IHost<'_>` that of an IRI.
pub type Host<'a, R = RegName> = HostOf<EStr<'a, R>>;
