//! IP addresses (RFC 3986, section 3.2.2).
#![tactic(auto)]

ghost use Rattle.fluent_uri.specs.Prelude.{IsSameAddress};

use fluent_uri::net::{IpAddr, Ipv4Addr, Ipv6Addr};
use std::net;

/// A caller listens at the loopback address of either version.
pub fn loopback(wants_ipv6: bool) -> IpAddr {
    if wants_ipv6 {
        IpAddr::V6(Ipv6Addr::LOCALHOST)
    } else {
        IpAddr::V4(Ipv4Addr::LOCALHOST)
    }
}

/// A caller listens at every address of either version.
pub fn every_address(wants_ipv6: bool) -> IpAddr {
    if wants_ipv6 {
        IpAddr::V6(Ipv6Addr::UNSPECIFIED)
    } else {
        IpAddr::V4(Ipv4Addr::UNSPECIFIED)
    }
}

/// A caller hands an address of either version to std, which connects to it.
pub fn for_std(address: IpAddr) -> net::IpAddr
    ensures { IsSameAddress address result }
{
    address.to_std()
}

/// A caller reads the octets of an IPv4 address, and hands it to std.
pub fn ipv4_for_std(address: Ipv4Addr) -> ([u8; 4], net::Ipv4Addr) {
    (address.octets(), address.to_std())
}

/// A caller reads the segments of an IPv6 address, and hands it to std.
pub fn ipv6_for_std(address: Ipv6Addr) -> ([u16; 8], net::Ipv6Addr) {
    (address.segments(), address.to_std())
}
