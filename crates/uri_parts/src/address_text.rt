//! The text of an IPv6 address (RFC 5952), written on the stack.
//!
//! `Display` of the address prints the same, with several times the work.
ghost use Rattle.std.specs.Prelude.{◌≡◌, ◌+◌, ◌*◌, ◌<◌, ◌≤◌, ◌∷◌, ◌++◌, [], IsUtf8, OnOk, codes, decimal, length, take, if◌then◌else◌};
ghost use Rattle.std.specs.Char.{digit_char};
ghost use Rattle.std.specs.Net.Text as addresses;
ghost use Rattle.uri_pct.specs.Prelude.{Pushes};
ghost use Rattle.uri_parts.specs.Addresses.{ipv6_segments};
ghost use Rattle.uri_parts.specs.Hosts.{bracketed};

use crate::net::Ipv6Addr;
use std::alloc::AllocError;

/// The hexadecimal digits.
const DIGITS: &[u8; 16] = b"0123456789abcdef";

/// Writes a digit of a number at `end`, unless it is a leading zero. Returns where the text ends
/// then.
fn put_digit(digit: u16, is_leading: bool, text: &mut [u8; 44], end: usize) -> usize
    requires digit { digit < 16 }
    requires room { end < 44 }
    ensures text { take result text.new
        ≡ take end text.old ++ (if is_leading then [] else digit_char digit ∷ []) }
    ensures start { end ≤ result }
    ensures end { result ≤ end + 1 }
{
    if is_leading {
        return end;
    }
    text[end] = DIGITS[usize::from(digit)];
    end + 1
}

/// Writes a segment at `end` in hexadecimal digits, without leading zeros. Returns where the text
/// ends then.
fn put_segment(segment: u16, text: &mut [u8; 44], end: usize) -> usize
    requires { end ≤ 40 }
    ensures text { take result text.new ≡ take end text.old ++ addresses.hex segment }
    ensures end { result ≤ end + 4 }
{
    let end = put_digit(segment / 0x1000, segment < 0x1000, text, end);
    let end = put_digit(segment / 0x100 % 16, segment < 0x100, text, end);
    let end = put_digit(segment / 0x10 % 16, segment < 0x10, text, end);
    put_digit(segment % 16, false, text, end)
}

/// Writes segments at `end`, with `:` between them. Returns where the text ends then.
fn put_segments(segments: &[u16], text: &mut [u8; 44], end: usize) -> usize
    requires { end + 5 * length segments.now ≤ 44 }
    ensures text { take result text.new ≡ take end text.old ++ addresses.groups_text segments.now }
    ensures end { result ≤ end + 5 * length segments.now }
{
    let [first, rest @ ..] = segments else {
        return end;
    };
    let mut written = put_segment(*first, text, end);
    for segment in rest {
        text[written] = b':';
        written = put_segment(*segment, text, written + 1);
    }
    written
}

/// Returns where the first longest run of zero segments begins, and its length.
fn longest_zero_run(segments: &[u16]) -> (usize, usize)
    ensures value { result ≡ addresses.longest_zero_run segments.now }
    ensures within { result.0 + result.1 ≤ length segments.now }
{
    let mut start = segments.len();
    let mut longest = 0;
    let mut run = 0;
    for i in (0..segments.len()).rev() {
        run = if segments[i] == 0 { run + 1 } else { 0 };
        if run >= longest {
            start = i;
            longest = run;
        }
    }
    (start, longest)
}

/// Writes the segments of an address at `end`, with `::` in place of the longest run of two or more
/// zeros. Returns where the text ends then.
#[tactic(auto, unfolding(std::specs::Net::Text::hex_groups_text))]
fn put_compressed(segments: &[u16], text: &mut [u8; 44], end: usize) -> usize
    requires { end + 5 * length segments.now ≤ 41 }
    ensures text { take result text.new
        ≡ take end text.old ++ addresses.hex_groups_text segments.now }
    ensures end { result ≤ end + 5 * length segments.now + 2 }
{
    let (start, len) = longest_zero_run(segments);
    if len < 2 {
        return put_segments(segments, text, end);
    }
    let end = put_segments(&segments[..start], text, end);
    text[end] = b':';
    text[end + 1] = b':';
    put_segments(&segments[start + len..], text, end + 2)
}

/// Writes an octet at `end` in decimal digits. Returns where the text ends then.
fn put_octet(octet: u8, text: &mut [u8; 44], end: usize) -> usize
    requires { end ≤ 40 }
    ensures text { take result text.new ≡ take end text.old ++ decimal octet }
    ensures end { result ≤ end + 3 }
{
    let octet = u16::from(octet);
    let end = put_digit(octet / 100, octet < 100, text, end);
    let end = put_digit(octet / 10 % 10, octet < 10, text, end);
    put_digit(octet % 10, false, text, end)
}

/// Writes `.` and an octet in decimal digits at `end`. Returns where the text ends then.
fn put_dot_and_octet(octet: u8, text: &mut [u8; 44], end: usize) -> usize
    requires { end ≤ 39 }
    ensures text { take result text.new ≡ take end text.old ++ (codes "." ++ decimal octet) }
    ensures end { result ≤ end + 4 }
{
    text[end] = b'.';
    put_octet(octet, text, end + 1)
}

/// Writes an IPv4 address at `end`. Returns where the text ends then.
fn put_ipv4(octets: [u8; 4], text: &mut [u8; 44], end: usize) -> usize
    requires { end ≤ 20 }
    ensures text { take result text.new ≡ take end text.old ++ addresses.ipv4_text octets }
    ensures end { result ≤ end + 15 }
{
    let [a, b, c, d] = octets;
    let end = put_octet(a, text, end);
    let end = put_dot_and_octet(b, text, end);
    let end = put_dot_and_octet(c, text, end);
    put_dot_and_octet(d, text, end)
}

/// The text of an IPv4-mapped address in brackets up to the IPv4 address, which follows.
const MAPPED: [u8; 44] = *b"[::ffff:....................................";

/// Returns the canonical text of `::ffff:a.b.c.d` in brackets, in an array, and where it ends.
fn mapped_host(octets: &[u8; 4]) -> ([u8; 44], usize)
    ensures text { take result.1 result.0
        ≡ bracketed (codes "::ffff:" ++ addresses.ipv4_text octets.now) }
    ensures utf8 { IsUtf8 (take result.1 result.0) }
    ensures end { result.1 ≤ 44 }
{
    let mut text = MAPPED;
    let end = put_ipv4(*octets, &mut text, 8);
    text[end] = b']';
    (text, end + 1)
}

/// Returns the text of an address that is not `::ffff:a.b.c.d` in brackets, in an array, and where
/// it ends.
fn groups_host(segments: &[u16; 8]) -> ([u8; 44], usize)
    ensures text { take result.1 result.0 ≡ bracketed (addresses.hex_groups_text segments.now) }
    ensures utf8 { IsUtf8 (take result.1 result.0) }
    ensures end { result.1 ≤ 44 }
{
    let mut text = [0; 44];
    text[0] = b'[';
    let end = put_compressed(segments, &mut text, 1);
    text[end] = b']';
    (text, end + 1)
}

/// Returns the canonical text of an IPv6 address in brackets, as a host is written, in an array,
/// and where it ends.
#[doc(hidden)]
pub fn ipv6_host(address: &Ipv6Addr) -> ([u8; 44], usize)
    ensures text { take result.1 result.0
        ≡ bracketed (addresses.ipv6_text (ipv6_segments address.now)) }
    ensures utf8 { IsUtf8 (take result.1 result.0) }
    ensures end { result.1 ≤ 44 }
{
    match address.to_std().to_ipv4_mapped() {
        Some(ipv4) => mapped_host(&ipv4.octets()),
        None => groups_host(&address.segments()),
    }
}

/// Appends an IPv6 address in brackets, as a host is written.
#[doc(hidden)]
pub fn push_ipv6_host(address: &Ipv6Addr, out: &mut String) -> Result<(), AllocError>
    ensures { OnOk result (Pushes out.old out.new
        (bracketed (addresses.ipv6_text (ipv6_segments address.now)))) }
{
    let (text, end) = ipv6_host(address);
    out.push_str(unsafe { std::str::from_utf8_unchecked(&text[..end]) })
}
