//! Hosts and ports as a builder takes them (RFC 3986, sections 3.2.2 and 3.2.3).
ghost use Rattle.std.specs.Prelude.{◌≡◌, OnOk, true, ℕ, List, decimal};
ghost use Rattle.uri_pct.specs.Prelude.{Pushes, digit_set, text_of};
ghost use Rattle.uri_ops.specs.HostParts.{IsHostText, ip_host};
ghost use Rattle.std.specs.Net.Text.{ipv4_text, ipv6_text};
ghost use Rattle.uri_parts.specs.Prelude.{bracketed, ipv4_octets, ipv6_segments};
ghost use Rattle.uri_ops.specs.BuilderParts.{is_text_for};

use std::alloc::AllocError;
use std::fmt::Write;
use uri_parts::address_text::push_ipv6_host;
use uri_parts::laws;
use uri_parts::net::{IpAddr, Ipv4Addr, Ipv6Addr};
use uri_pct::encoder::{Encoder, IRegName, Port, RegName};
use uri_pct::pct_enc::EStr;

/// What `Builder::host` takes: an IP address, or a registered name (RFC 3986, section 3.2.2).
///
/// It is implemented for `Ipv4Addr`, `Ipv6Addr`, `IpAddr`, `EStr<RegName>` and `EStr<IRegName>`.
///
/// `Ipv6Addr::LOCALHOST` is such a host, which is written `[::1]`.
pub trait AsHost: Drop {
    ghost host_text: { Self → List ℕ };
}

/// A host of the references whose registered names are `E`'s: an IP address of all, and a name of
/// its own.
///
/// `EStr::<RegName>::new_or_panic("example.com")` is a host of URIs, and `Ipv4Addr::LOCALHOST` of
/// URIs and IRIs.
pub trait WithEncoder<E: Encoder>: AsHost {
    /// Appends the host, as it is in an authority.
    #[doc(hidden)]
    fn push_host(&self, out: &mut String) -> Result<(), AllocError>
        ensures text { OnOk result (Pushes out.old out.new (Self.host_text self.now)) }
        ensures host { IsHostText E.set (Self.host_text self.now) };
}

/// Written as four decimal numbers.
impl AsHost for Ipv4Addr {
    ghost host_text = { λ address. ipv4_text (ipv4_octets address) };
}

impl<E: Encoder> WithEncoder<E> for Ipv4Addr {
    /// Appends the four octets in decimal.
    fn push_host(&self, out: &mut String) -> Result<(), AllocError> {
        laws::ipv4_text_parses_to_its_octets(self);
        write!(out, "{self}")
    }
}

/// Written in brackets, by RFC 5952.
impl AsHost for Ipv6Addr {
    ghost host_text = { λ address. bracketed (ipv6_text (ipv6_segments address)) };
}

impl<E: Encoder> WithEncoder<E> for Ipv6Addr {
    /// Appends the IPv6 address in brackets, by RFC 5952.
    fn push_host(&self, out: &mut String) -> Result<(), AllocError> {
        laws::ipv6_text_parses_to_its_segments(self);
        push_ipv6_host(self, out)
    }
}

/// Written as the address in it.
impl AsHost for IpAddr {
    ghost host_text = { ip_host };
}

impl<E: Encoder> WithEncoder<E> for IpAddr {
    /// Appends the address in it, an IPv6 address in brackets.
    fn push_host(&self, out: &mut String) -> Result<(), AllocError> {
        match self {
            IpAddr::V4(address) => <Ipv4Addr as WithEncoder<E>>::push_host(address, out),
            IpAddr::V6(address) => <Ipv6Addr as WithEncoder<E>>::push_host(address, out),
        }
    }
}

/// Written as it is.
impl AsHost for EStr<'_, RegName> {
    ghost host_text = { λ name. text_of name };
}

impl WithEncoder<RegName> for EStr<'_, RegName> {
    /// Appends the registered name as it is.
    fn push_host(&self, out: &mut String) -> Result<(), AllocError> {
        out.push_str(self.as_str())
    }
}

/// Written as it is.
impl AsHost for EStr<'_, IRegName> {
    ghost host_text = { λ name. text_of name };
}

impl WithEncoder<IRegName> for EStr<'_, IRegName> {
    /// Appends the registered name as it is.
    fn push_host(&self, out: &mut String) -> Result<(), AllocError> {
        out.push_str(self.as_str())
    }
}

/// What `Builder::port` takes: a number, or digits (RFC 3986, section 3.2.3).
///
/// It is implemented for `u16` and for `EStr<Port>`, which may be empty.
///
/// The number 8042 is such a port, which is written `8042`.
pub trait AsPort: Drop {
    ghost port_digits: { Self → List ℕ };

    /// Appends the port's digits.
    #[doc(hidden)]
    fn push_digits(&self, out: &mut String) -> Result<(), AllocError>
        ensures text { OnOk result (Pushes out.old out.new (port_digits self.now)) }
        ensures digits { is_text_for digit_set (port_digits self.now) ≡ true };
}

/// Written in decimal.
#[tactic(auto, using(crate::proofs::Builders::BuilderHosts::decimal_number_is_port))]
impl AsPort for u16 {
    ghost port_digits = { decimal };

    /// Appends the port in decimal.
    fn push_digits(&self, out: &mut String) -> Result<(), AllocError> {
        let port = *self;
        write!(out, "{port}")
    }
}

/// Written as they are.
#[tactic(auto, using(crate::proofs::Builders::BuilderDrafts::valid_utf8_is_text_for_set))]
impl AsPort for EStr<'_, Port> {
    ghost port_digits = { λ digits. text_of digits };

    /// Appends the port's digits as they are.
    fn push_digits(&self, out: &mut String) -> Result<(), AllocError> {
        out.push_str(self.as_str())
    }
}
