//! IP addresses: their texts, and their order (RFC 3986, section 3.2.2; RFC 5952).
ghost use Rattle.std.specs.Prelude.{◌≡◌, true};
ghost use Rattle.std.specs.BTreeMap.{get_by};
ghost use Rattle.std.specs.Cmp.Lexicographic.{slice_cmp};
ghost use Rattle.std.specs.Net.Text.{ipv4_text, ipv6_text};
ghost use Rattle.std.specs.Ordering.{is_le, is_lt, nat_cmp};
ghost use Rattle.fluent_uri.specs.Prelude.{Ipv4, Ipv6, bracketed, host_kind, ipv4_octets, ipv6_segments};

use fluent_uri::laws;
use fluent_uri::net::{IpAddr, Ipv4Addr, Ipv6Addr};
use std::cmp::Ordering;
use std::collections::BTreeMap;

/// A caller that writes an IPv4 address as a host proves that readers get the same address.
pub fn ipv4_host_is_that_address(address: &Ipv4Addr, host: &str)
    requires { host.now ≡ ipv4_text (ipv4_octets address.now) }
    ensures { host_kind host.now ≡ Ipv4 (ipv4_octets address.now) }
{
    laws::ipv4_text_parses_to_its_octets(address);
    laws::authorities_split_in_one_way();
}

/// A caller that writes an IPv6 address as a host, in brackets, proves that readers get the same
/// address.
pub fn ipv6_host_is_that_address(address: &Ipv6Addr, host: &str)
    requires { host.now ≡ bracketed (ipv6_text (ipv6_segments address.now)) }
    ensures { host_kind host.now ≡ Ipv6 (ipv6_segments address.now) }
{
    laws::ipv6_text_parses_to_its_segments(address);
    laws::authorities_split_in_one_way();
}

/// A caller that denies a block of IPv4 addresses, from its first one on, proves that the order is
/// that of the octets.
pub fn is_ipv4_from(first: &Ipv4Addr, address: &Ipv4Addr) -> bool
    ensures { result ≡ is_le (slice_cmp nat_cmp (ipv4_octets first.now)
        (ipv4_octets address.now)) }
{
    laws::ipv4_addresses_compare_by_octets();
    first.cmp(address).is_le()
}

/// A caller that denies a block of IPv6 addresses, from its first one on, proves that the order is
/// that of the segments.
pub fn is_ipv6_from(first: &Ipv6Addr, address: &Ipv6Addr) -> bool
    ensures { result ≡ is_le (slice_cmp nat_cmp (ipv6_segments first.now)
        (ipv6_segments address.now)) }
{
    laws::ipv6_addresses_compare_by_segments();
    first.cmp(address).is_le()
}

/// A caller with a sorted list of blocks of both versions proves that IPv4 addresses come first,
/// in the order of their octets.
pub fn order_of_ipv4(one: Ipv4Addr, other: Ipv4Addr) -> Ordering
    ensures { result ≡ slice_cmp nat_cmp (ipv4_octets one) (ipv4_octets other) }
{
    laws::ip_addresses_compare_by_version_first();
    IpAddr::V4(one).cmp(&IpAddr::V4(other))
}

/// A caller with a sorted list of blocks of both versions proves that IPv6 addresses come last, in
/// the order of their segments, and that the list has no IPv4 address after one.
pub fn order_of_ipv6(before: Ipv4Addr, one: Ipv6Addr, other: Ipv6Addr) -> (bool, Ordering)
    ensures before { result.0 ≡ true }
    ensures order { result.1 ≡ slice_cmp nat_cmp (ipv6_segments one) (ipv6_segments other) }
{
    laws::ip_addresses_compare_by_version_first();
    let last = IpAddr::V6(one);
    (
        IpAddr::V4(before).cmp(&last).is_lt(),
        last.cmp(&IpAddr::V6(other)),
    )
}

/// A caller with a map whose keys are addresses proves that a value is found by that order.
pub fn count_for(counts: &BTreeMap<IpAddr, u32>, address: &IpAddr) -> Option<u32>
    ensures { result ≡ get_by (⟦<IpAddr as Ord>⟧.cmp address.now) counts.now }
{
    counts.get(address).copied()
}
