//! IP addresses (RFC 3986, section 3.2.2), and their canonical texts (RFC 5952).
ghost use Rattle.std.specs.Prelude.{◌≡◌, [], ◌∷◌, Some, option_map};
ghost use Rattle.std.specs.Net.Text.{ipv4_text, ipv6_text};
ghost use Rattle.uri_parts.specs.Hosts.{ipv4_value, ipv6_value};

use crate::address_reader::parse_ipv6_segments;
use std::{fmt, net};

/// An IPv4 address: four octets.
///
/// Addresses are compared by their octets, first to last. One is printed as four decimal numbers
/// joined by `.`.
///
/// `Ipv4Addr::new(192, 0, 2, 255)` is printed as `192.0.2.255`.
#[derive(Clone, Copy, PartialEq, Eq, PartialOrd, Ord, Hash)]
pub struct Ipv4Addr(net::Ipv4Addr);

impl Ipv4Addr {
    ghost use Rattle.std.specs.Net.Addr as std_addresses;
    ghost use Rattle.uri_parts.specs.Addresses.{ipv4_octets};

    /// The loopback address, `127.0.0.1` (RFC 1122, section 3.2.1.3).
    ///
    /// It is `Ipv4Addr::new(127, 0, 0, 1)`.
    pub const LOCALHOST: Self = Ipv4Addr(net::Ipv4Addr::LOCALHOST);

    /// The address of no host in particular, `0.0.0.0` (RFC 1122, section 3.2.1.3).
    ///
    /// It is `Ipv4Addr::new(0, 0, 0, 0)`.
    pub const UNSPECIFIED: Self = Ipv4Addr(net::Ipv4Addr::UNSPECIFIED);

    /// Returns the address with these four octets, which prints as `a.b.c.d`.
    ///
    /// `Ipv4Addr::new(127, 0, 0, 1)` is `Ipv4Addr::LOCALHOST`.
    pub const fn new(a: u8, b: u8, c: u8, d: u8) -> Self
        ensures { ipv4_octets result ≡ a ∷ b ∷ c ∷ d ∷ [] }
    {
        Ipv4Addr(net::Ipv4Addr::new(a, b, c, d))
    }

    /// Returns the four octets, first to last.
    ///
    /// Of `192.0.2.255` these are 192, 0, 2 and 255.
    pub const fn octets(&self) -> [u8; 4]
        ensures { result ≡ ipv4_octets self.now }
    {
        self.0.octets()
    }

    /// Returns the same address as a type of std.
    ///
    /// Of `Ipv4Addr::LOCALHOST` it is std's `Ipv4Addr::new(127, 0, 0, 1)`.
    pub const fn to_std(self) -> net::Ipv4Addr
        ensures { std_addresses.ipv4_octets result ≡ ipv4_octets self }
    {
        self.0
    }

    /// Returns the IPv4 address that the whole text writes, or `None` if it writes none.
    #[doc(hidden)]
    #[tactic(auto, using(crate::proofs::HostForms::ParsedAddresses::parsed_ipv4_has_value_of_text))]
    pub fn parse(text: &str) -> Option<Self>
        ensures { option_map ipv4_octets result ≡ ipv4_value text.now }
    {
        match net::Ipv4Addr::parse_ascii(text.as_bytes()) {
            Ok(address) => Some(Ipv4Addr(address)),
            Err(_) => None,
        }
    }
}

impl fmt::Display for Ipv4Addr {
    ghost use Rattle.uri_parts.specs.Addresses.{ipv4_octets};

    ghost output = { λ a. Some (ipv4_text (ipv4_octets a)) };

    /// Prints the four octets in decimal, as in `127.0.0.1`.
    fn fmt<W: fmt::Write>(&self, f: &mut fmt::Formatter<W>) -> fmt::Result {
        fmt::Display::fmt(&self.0, f)
    }
}

impl fmt::Debug for Ipv4Addr {
    ghost use Rattle.uri_parts.specs.Addresses.{ipv4_octets};

    ghost debug_output = { λ a. Some (ipv4_text (ipv4_octets a)) };

    /// Prints the address as `Display` does.
    fn fmt<W: fmt::Write>(&self, f: &mut fmt::Formatter<W>) -> fmt::Result {
        fmt::Display::fmt(self, f)
    }
}

impl From<net::Ipv4Addr> for Ipv4Addr {
    ghost use Rattle.std.specs.Net.Addr as std_addresses;
    ghost use Rattle.uri_parts.specs.Addresses.{ipv4_octets};

    ghost from_gives = { λ given made. ipv4_octets made ≡ std_addresses.ipv4_octets given };

    /// Returns the IPv4 address with the same four octets.
    fn from(address: net::Ipv4Addr) -> Self {
        Ipv4Addr(address)
    }
}

/// An IPv6 address: eight segments of 16 bits.
///
/// Addresses are compared by their segments, first to last. One is printed by RFC 5952: in
/// lower-case hexadecimal digits with no leading zeros, with `::` in place of the first longest
/// run of two or more zero segments, and with the last two segments as an IPv4 address exactly
/// where the address is `::ffff:a.b.c.d`.
///
/// `Ipv6Addr::new(0x2001, 0xdb8, 0, 0, 0, 0, 0, 0xabc)` is printed as `2001:db8::abc`.
#[derive(Clone, Copy, PartialEq, Eq, PartialOrd, Ord, Hash)]
pub struct Ipv6Addr(net::Ipv6Addr);

impl Ipv6Addr {
    ghost use Rattle.std.specs.Net.Addr as std_addresses;
    ghost use Rattle.uri_parts.specs.Addresses.{ipv6_segments};

    /// The loopback address, `::1` (RFC 4291, section 2.5.3).
    ///
    /// It is `Ipv6Addr::new(0, 0, 0, 0, 0, 0, 0, 1)`.
    pub const LOCALHOST: Self = Ipv6Addr(net::Ipv6Addr::LOCALHOST);

    /// The address of no host at all, `::` (RFC 4291, section 2.5.2).
    ///
    /// It is `Ipv6Addr::new(0, 0, 0, 0, 0, 0, 0, 0)`.
    pub const UNSPECIFIED: Self = Ipv6Addr(net::Ipv6Addr::UNSPECIFIED);

    /// Returns the address with these eight segments.
    ///
    /// `Ipv6Addr::new(0, 0, 0, 0, 0, 0, 0, 1)` is `Ipv6Addr::LOCALHOST`.
    pub const fn new(a: u16, b: u16, c: u16, d: u16, e: u16, f: u16, g: u16, h: u16) -> Self
        ensures { ipv6_segments result ≡ a ∷ b ∷ c ∷ d ∷ e ∷ f ∷ g ∷ h ∷ [] }
    {
        Ipv6Addr(net::Ipv6Addr::new(a, b, c, d, e, f, g, h))
    }

    /// Returns the eight segments, first to last.
    ///
    /// Of `::1` these are seven times 0, and 1.
    pub const fn segments(&self) -> [u16; 8]
        ensures { result ≡ ipv6_segments self.now }
    {
        self.0.segments()
    }

    /// Returns the same address as a type of std.
    ///
    /// Of `Ipv6Addr::LOCALHOST` it is std's `Ipv6Addr::new(0, 0, 0, 0, 0, 0, 0, 1)`.
    pub const fn to_std(self) -> net::Ipv6Addr
        ensures { std_addresses.ipv6_segments result ≡ ipv6_segments self }
    {
        self.0
    }

    /// Returns the IPv6 address that the whole text writes, or `None` if it writes none.
    #[doc(hidden)]
    pub fn parse(text: &str) -> Option<Self>
        ensures { option_map ipv6_segments result ≡ ipv6_value text.now }
    {
        let segments = parse_ipv6_segments(text.as_bytes())?;
        Some(Ipv6Addr(net::Ipv6Addr::from_segments(segments)))
    }
}

impl fmt::Display for Ipv6Addr {
    ghost use Rattle.uri_parts.specs.Addresses.{ipv6_segments};

    ghost output = { λ a. Some (ipv6_text (ipv6_segments a)) };

    /// Prints the text of the IPv6 address, without brackets.
    fn fmt<W: fmt::Write>(&self, f: &mut fmt::Formatter<W>) -> fmt::Result {
        let Ipv6Addr(address) = self;
        fmt::Display::fmt(address, f)
    }
}

impl fmt::Debug for Ipv6Addr {
    ghost use Rattle.uri_parts.specs.Addresses.{ipv6_segments};

    ghost debug_output = { λ a. Some (ipv6_text (ipv6_segments a)) };

    /// Prints the address as `Display` does.
    fn fmt<W: fmt::Write>(&self, f: &mut fmt::Formatter<W>) -> fmt::Result {
        fmt::Display::fmt(self, f)
    }
}

impl From<net::Ipv6Addr> for Ipv6Addr {
    ghost use Rattle.std.specs.Net.Addr as std_addresses;
    ghost use Rattle.uri_parts.specs.Addresses.{ipv6_segments};

    ghost from_gives = { λ given made. ipv6_segments made ≡ std_addresses.ipv6_segments given };

    /// Returns the IPv6 address with the same eight segments.
    fn from(address: net::Ipv6Addr) -> Self {
        Ipv6Addr(address)
    }
}

/// An IP address of either version. Each IPv4 address is less than each IPv6 address.
///
/// `IpAddr::V4(Ipv4Addr::LOCALHOST)` is less than `IpAddr::V6(Ipv6Addr::LOCALHOST)`.
#[derive(Clone, Copy, PartialEq, Eq, PartialOrd, Ord, Hash)]
pub enum IpAddr {
    /// An IPv4 address.
    V4(Ipv4Addr),
    /// An IPv6 address.
    V6(Ipv6Addr),
}

impl IpAddr {
    ghost use Rattle.uri_parts.specs.Addresses.{IsSameAddress};

    /// Returns the same address, of the same version, as a type of std.
    ///
    /// Of `IpAddr::V4(Ipv4Addr::LOCALHOST)` it is std's `IpAddr::V4`, of 127.0.0.1.
    pub const fn to_std(self) -> net::IpAddr
        ensures { IsSameAddress self result }
    {
        match self {
            IpAddr::V4(address) => net::IpAddr::V4(address.to_std()),
            IpAddr::V6(address) => net::IpAddr::V6(address.to_std()),
        }
    }
}

impl fmt::Display for IpAddr {
    ghost use Rattle.uri_parts.specs.Addresses.{ip_text};

    ghost output = { λ a. Some (ip_text a) };

    /// Prints the address in it: an IPv4 address, or an IPv6 address without brackets.
    fn fmt<W: fmt::Write>(&self, f: &mut fmt::Formatter<W>) -> fmt::Result {
        match self {
            IpAddr::V4(address) => fmt::Display::fmt(address, f),
            IpAddr::V6(address) => fmt::Display::fmt(address, f),
        }
    }
}

impl fmt::Debug for IpAddr {
    ghost use Rattle.uri_parts.specs.Addresses.{ip_text};

    ghost debug_output = { λ a. Some (ip_text a) };

    /// Prints the address as `Display` does.
    fn fmt<W: fmt::Write>(&self, f: &mut fmt::Formatter<W>) -> fmt::Result {
        fmt::Display::fmt(self, f)
    }
}

impl From<net::IpAddr> for IpAddr {
    ghost use Rattle.uri_parts.specs.Addresses.{IsSameAddress};

    ghost from_gives = { λ given made. IsSameAddress made given };

    /// Returns the same address, of the same version.
    fn from(address: net::IpAddr) -> Self {
        match address {
            net::IpAddr::V4(address) => IpAddr::V4(address.into()),
            net::IpAddr::V6(address) => IpAddr::V6(address.into()),
        }
    }
}
