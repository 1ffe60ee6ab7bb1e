//! The segments of an IPv6 address, and where it ends: RFC 4291, section 2.2.
ghost use Rattle.std.specs.Net.Reader as numbers;
ghost use Rattle.std.specs.Prelude.{◌≡◌, ◌<◌, ◌≤◌, IfSome, IsTrue, drop, is_some, length, ℕ, ◌+◌, max, option_map, replicate, slice_index, take, true};
ghost use Rattle.uri_parts.specs.Hosts.{ipv6_value};

use crate::address_parser::{byte_at, leading_digits, parse_ipv4};

/// The groups of an IPv6 address that were read.
#[derive(Clone, Copy)]
struct Groups {
    count: usize,
    /// Whether the last two are an IPv4 address.
    has_ipv4: bool,
    end: usize,
}

/// Reads groups of an IPv6 address at `start`, with `:` between them, into the first of `segments`.
/// The last two may be an IPv4 address.
///
/// Unless it `takes_ipv4`, it returns `None` at a `.`, calls no other function and saves few
/// registers.
#[inline(always)]
fn read_groups(text: &[u8], start: usize, segments: &mut [u16], takes_ipv4: bool) -> Option<Groups>
    requires { start ≤ length text.now }
    ensures value { IfSome result (λ r.
        numbers.read_segments (length segments.old) true (drop start text.now)
        ≡ (take r.count segments.new, r.has_ipv4, drop r.end text.now)) }
    ensures within { IfSome result (λ r. r.count ≤ length segments.old) }
    ensures end { IfSome result (λ r. r.end ≤ length text.now) }
    ensures others { IfSome result (λ r. drop r.count segments.new ≡ drop r.count segments.old) }
    ensures total { IsTrue takes_ipv4 → is_some result ≡ true }
{
    let room = segments.len();
    let mut end = start;
    let mut group = start;
    for i in 0..room {
        let digits = leading_digits(text, group);
        if digits.count == 0 || digits.count == 5 {
            return Some(Groups {
                count: i,
                has_ipv4: false,
                end,
            });
        }
        segments[i] = digits.value;
        end = group + digits.count;
        if digits.next != b':' {
            if digits.next == b'.' {
                if !takes_ipv4 {
                    return None;
                }
                if i + 1 < room {
                    if let Some((high, low, rest)) = parse_ipv4(&text[group..]) {
                        segments[i] = high;
                        segments[i + 1] = low;
                        return Some(Groups {
                            count: i + 2,
                            has_ipv4: true,
                            end: text.len() - rest.len(),
                        });
                    }
                }
            }
            return Some(Groups {
                count: i + 1,
                has_ipv4: false,
                end,
            });
        }
        group = end + 1;
    }
    Some(Groups {
        count: room,
        has_ipv4: false,
        end,
    })
}

/// Merges the last groups of an IPv6 address, which `tail` has from 8 on, into its segments. They
/// are moved to the end, and zeros are before them.
///
/// A copy of so many segments would be a call; this is three instructions.
#[inline(always)]
fn merge_tail(segments: &mut [u16; 8], tail: &[u16; 16], tail_len: usize)
    requires { tail_len ≤ 8 }
    ensures { (k : ℕ) → k < 8 → slice_index segments.new k
        ≡ max (slice_index segments.old k) (slice_index tail.now (tail_len + k)) }
{
    for i in 0..8 {
        segments[i] = segments[i].max(tail[tail_len + i]);
    }
}

/// Reads the IPv6 address at `start` into `segments`, which are zeros. Returns where it ends, or
/// `Some(None)` if there is none. Unless it `takes_ipv4`, it returns `None` if a `.` follows a
/// group.
#[inline(always)]
#[tactic(auto, unfolding(std::specs::Net::Reader::read_ipv6))]
pub(crate) fn read_ipv6(
    text: &[u8],
    start: usize,
    segments: &mut [u16; 8],
    takes_ipv4: bool,
) -> Option<Option<usize>>
    requires zeros { segments.old ≡ replicate 8 0 }
    requires start { start ≤ length text.now }
    ensures read { IfSome result (λ found.
        option_map (λ end. (segments.new, drop end text.now)) found
        ≡ numbers.read_ipv6 (drop start text.now)) }
    ensures end { IfSome result (λ found. IfSome found (λ end. end ≤ length text.now)) }
    ensures total { IsTrue takes_ipv4 → is_some result ≡ true }
{
    let head = read_groups(text, start, segments, takes_ipv4)?;
    if head.count == 8 {
        return Some(Some(head.end));
    }
    let end = head.end;
    if head.has_ipv4 || byte_at(text, end, false) != b':' || byte_at(text, end + 1, false) != b':' {
        return Some(None);
    }
    let mut tail = [0; 16];
    let last = read_groups(text, end + 2, &mut tail[8..15 - head.count], takes_ipv4)?;
    merge_tail(segments, &tail, last.count);
    Some(Some(last.end))
}

/// Returns the segments of the IPv6 address that the whole text is, or `Some(None)` if it is none.
/// Unless it `takes_ipv4`, it returns `None` if a `.` follows a group.
#[inline(always)]
#[tactic(auto, unfolding(crate::specs::Hosts::ipv6_value))]
fn read_whole_ipv6(text: &[u8], takes_ipv4: bool) -> Option<Option<[u16; 8]>>
    ensures read { IfSome result (λ found. found ≡ ipv6_value text.now) }
    ensures total { IsTrue takes_ipv4 → is_some result ≡ true }
{
    let mut segments = [0; 8];
    match read_ipv6(text, 0, &mut segments, takes_ipv4)? {
        Some(end) if end == text.len() => Some(Some(segments)),
        _ => Some(None),
    }
}

/// Returns the segments of the IPv6 address that the whole text is, which may have an IPv4 address
/// in it.
#[cold]
#[inline(never)]
fn segments_with_ipv4(text: &[u8]) -> Option<[u16; 8]>
    ensures { result ≡ ipv6_value text.now }
{
    read_whole_ipv6(text, true)?
}

/// Returns the segments of the IPv6 address that the whole text is, or `None` if it is none.
pub(crate) fn parse_ipv6_segments(text: &[u8]) -> Option<[u16; 8]>
    ensures { result ≡ ipv6_value text.now }
{
    match read_whole_ipv6(text, false) {
        Some(found) => found,
        None => segments_with_ipv4(text),
    }
}
