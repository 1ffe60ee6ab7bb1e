//! Addresses in brackets (RFC 3986, section 3.2.2).
ghost use Rattle.std.specs.Prelude.{◌≡◌, ◌≤◌, ◌<◌, ◌+◌, length, IsTrue, IfSome, IfOk, IfErr, is_ok, drop, ◌||◌, ◌&&◌, not, nat_lt, Ok, Err, None, true, false, if◌then◌else◌, IsCharBoundary};
ghost use Rattle.uri_parts.specs.Errors.{error_index};
ghost use Rattle.uri_parts.specs.Components.{is_end, starts};
ghost use Rattle.uri_parts.specs.LiteralErrors.{digits_end as digits_end_at, octet_end as octet_end_at, ipv4_end as ipv4_end_at, literal, groups_from, after_elision, ipv6_end as ipv6_end_at, cannot_begin_ipv6 as is_no_ipv6_at};
ghost use Rattle.uri_parts.specs.Scanning.{scan_to_mark};
ghost use Rattle.uri_pct.specs.Prelude.{full_stop, hexdig_set, ipv_future_set, right_bracket, set_of};
ghost use Rattle.uri_parts.specs.Models.LiteralGroups.{groups_of_end, EndsAtBoundary};
ghost use Rattle.uri_parts.specs.Models.Literals.{LacksVersionLetter};

use crate::address_reader::read_ipv6;
use crate::error::{ParseError, ParseErrorKind};
use uri_pct::table::{HEXDIG, IPV_FUTURE, Table};

/// Returns whether this ASCII character of a host in brackets is at `index`.
#[tactic(auto, using(crate::proofs::Parsing::NextBytes::starts_at_position))]
fn next_is(text: &str, index: usize, byte: u8) -> bool
    requires { byte < 128 }
    ensures value { result ≡ starts byte (drop index text.now) }
    ensures suffix { IsTrue result → IsCharBoundary text.now (index + 1) }
{
    let bytes = text.as_bytes();
    index < bytes.len() && bytes[index] == byte
}

/// Returns whether `v` or `V` is at `index`.
fn starts_ipvfuture(text: &str, index: usize) -> bool
    ensures value { result ≡ (starts 118 (drop index text.now) || starts 86 (drop index text.now)) }
    ensures suffix { IsTrue result → IsCharBoundary text.now (index + 1) }
{
    next_is(text, index, b'v') || next_is(text, index, b'V')
}

/// Returns where the digits of an address in brackets end
/// that begin at `start`. It passes `most` of them at most.
#[tactic(auto, using(crate::proofs::Steps::digits))]
fn digits_end(text: &str, start: usize, radix: u32, most: usize) -> usize
    requires boundary { IsCharBoundary text.now start }
    requires low { 2 ≤ radix }
    requires high { radix ≤ 36 }
    ensures boundary { IsCharBoundary text.now result }
    ensures start { start ≤ result }
    ensures exact { result ≡ digits_end_at text.now radix most start }
{
    let bytes = text.as_bytes();
    let mut end = start;
    while end < bytes.len() && end - start < most && char::from(bytes[end]).is_digit(radix) {
        end += 1;
    }
    end
}

/// Returns where the number of an IPv4 address at `start`, of at most 255,
/// ends, or `None` if there is none. A `0` is a number by itself.
#[tactic(auto, unfolding(crate::specs::LiteralErrors::octet_end))]
fn octet_end(text: &str, start: usize) -> Option<usize>
    requires { IsCharBoundary text.now start }
    ensures boundary { IfSome result (IsCharBoundary text.now) }
    ensures exact { result ≡ octet_end_at text.now start }
{
    if next_is(text, start, b'0') {
        return Some(start + 1);
    }
    let end = digits_end(text, start, 10, 3);
    let is_octet = text[start..end].parse::<u8>().is_ok();
    if is_octet { Some(end) } else { None }
}

/// Returns where the IPv4 address at `start`, in an IPv6 address, ends, or `None` if there is none.
#[tactic(auto, using(crate::proofs::Steps::octets))]
fn ipv4_end(text: &str, start: usize) -> Option<usize>
    requires { IsCharBoundary text.now start }
    ensures boundary { IfSome result (IsCharBoundary text.now) }
    ensures exact { result ≡ ipv4_end_at text.now start }
{
    let mut end = octet_end(text, start)?;
    for dots in 0..3u32 {
        if !next_is(text, end, b'.') {
            return None;
        }
        end = octet_end(text, end + 1)?;
    }
    Some(end)
}

/// How the groups of an IPv6 address end, and where: with how many more there might have been.
#[derive(Clone, Copy)]
enum GroupsEnd {
    /// Nothing goes on.
    End(usize, usize),
    /// A `::` ends there.
    Elision(usize, usize),
    Malformed,
}

/// Returns the position after the `:` of an IPv6 address at `start`, or `start` if none is there.
#[inline]
fn after_colon(text: &str, start: usize) -> usize
    requires { IsCharBoundary text.now start }
    ensures boundary { IsCharBoundary text.now result }
    ensures exact { result ≡ (if starts 58 (drop start text.now) then start + 1 else start) }
{
    if next_is(text, start, b':') {
        start + 1
    } else {
        start
    }
}

/// Returns whether one to three digits of an IPv6 address were passed, at the end of the text.
#[tactic(auto, using(crate::proofs::Parsing::NextBytes::text_ends_where_position_is_length))]
fn is_short_group_at_end(text: &str, first: usize, last: usize) -> bool
    requires order { first ≤ last }
    requires within { last ≤ length text.now }
    ensures { result ≡ (nat_lt last (first + 4) && is_end (drop last text.now)) }
{
    last - first < 4 && last == text.len()
}

/// Returns whether one to three digits of an IPv6 address were passed, and `.` is next.
fn is_short_group_before_dot(text: &str, first: usize, last: usize) -> bool
    requires { first ≤ last }
    ensures { result ≡ (nat_lt last (first + 4) && starts full_stop (drop last text.now)) }
{
    last - first < 4 && next_is(text, last, b'.')
}

/// Returns whether the first group of an IPv6 address has a `:` before it, or another has none.
fn has_misplaced_colon(has_colon: bool, is_first: bool) -> bool
    ensures { result ≡ (has_colon && is_first || not has_colon && not is_first) }
{
    has_colon == is_first
}

/// Parses groups of one to four hexadecimal digits, at most so many, each with a `:` before it but
/// the first. An IPv4 address is two of them, and the last. Up to three digits at the end of the
/// text are passed and make no group.
fn groups_end(text: &str, start: usize, room: usize) -> GroupsEnd
    requires { IsCharBoundary text.now start }
    ensures boundary { EndsAtBoundary text.now result }
    ensures exact { groups_of_end result ≡ groups_from text.now room true start }
{
    let mut end = start;
    for counted in 0..room {
        let has_colon = next_is(text, end, b':');
        let first = after_colon(text, end);
        let last = digits_end(text, first, 16, 4);
        if last == first {
            if !has_colon {
                return GroupsEnd::End(room - counted, end);
            }
            if next_is(text, first, b':') {
                return GroupsEnd::Elision(room - counted, first + 1);
            }
            return GroupsEnd::Malformed;
        }
        if is_short_group_at_end(text, first, last) {
            return GroupsEnd::End(room - counted, last);
        }
        if has_misplaced_colon(has_colon, counted == 0) {
            return GroupsEnd::Malformed;
        }
        if is_short_group_before_dot(text, first, last) {
            if room - counted == 1 {
                return GroupsEnd::Malformed;
            }
            return match ipv4_end(text, first) {
                Some(end) => GroupsEnd::End(room - counted - 2, end),
                None => GroupsEnd::Malformed,
            };
        }
        end = last;
    }
    GroupsEnd::End(0, end)
}

/// Returns where the groups after the `::` of an IPv6 address end. Returns `None` if they are
/// malformed or too many.
fn end_after_elision(text: &str, start: usize, room: usize) -> Option<usize>
    requires { IsCharBoundary text.now start }
    ensures boundary { IfSome result (IsCharBoundary text.now) }
    ensures exact { result ≡ after_elision text.now (groups_from text.now room true start) }
{
    match groups_end(text, start, room) {
        GroupsEnd::End(room, end) if room > 0 => Some(end),
        _ => None,
    }
}

/// Returns where the IPv6 address at `start` ends, so far as it can be parsed. Returns `None` if
/// there is none.
#[tactic(auto, unfolding(crate::specs::LiteralErrors::ipv6_end))]
fn ipv6_end(text: &str, start: usize) -> Option<usize>
    requires { IsCharBoundary text.now start }
    ensures boundary { IfSome result (IsCharBoundary text.now) }
    ensures exact { result ≡ ipv6_end_at text.now start }
{
    match groups_end(text, start, 8) {
        GroupsEnd::End(0, end) => Some(end),
        GroupsEnd::Elision(room, end) => end_after_elision(text, end, room),
        _ => None,
    }
}

/// Returns whether neither `:` nor a group is at `start`, so that no IPv6 address begins there.
#[tactic(auto, unfolding(crate::specs::LiteralErrors::cannot_begin_ipv6))]
fn cannot_begin_ipv6(text: &str, start: usize) -> bool
    requires { IsCharBoundary text.now start }
    ensures { result ≡ is_no_ipv6_at text.now start }
{
    if next_is(text, start, b':') {
        return false;
    }
    let last = digits_end(text, start, 16, 4);
    last == start || is_short_group_before_dot(text, start, last)
}

/// Returns the error of an IP literal from `start` on,
/// where an address may begin, but none with its `]`.
fn refusal(text: &str, start: usize) -> ParseError
    requires boundary { IsCharBoundary text.now start }
    requires refused { is_ok (literal text.now start) ≡ false }
    requires begins { is_no_ipv6_at text.now start ≡ false }
    ensures boundary { IsCharBoundary text.now (error_index result) }
    ensures exact { literal text.now start ≡ Err result }
{
    match ipv6_end(text, start) {
        Some(end) => ParseError::new(end, ParseErrorKind::UnexpectedChar),
        None => ParseError::new(start, ParseErrorKind::InvalidIpv6Addr),
    }
}

/// Returns the position after one or more characters of an IPvFuture address at `start`,
/// of the table, and the `mark` after them. The error is where one of these is missing.
fn end_after_mark(text: &str, start: usize, table: &Table, mark: u8) -> Result<usize, ParseError>
    requires boundary { IsCharBoundary text.now start }
    requires ascii { mark < 128 }
    ensures boundary { IfOk result (λ end. IsCharBoundary text.now end) }
    ensures index { IfErr result (λ e. IsCharBoundary text.now (error_index e)) }
    ensures exact { result ≡ scan_to_mark text.now (set_of table.now) mark (λ end. Ok end) start }
{
    let end = table.scan(text, start);
    if start < end && next_is(text, end, mark) {
        Ok(end + 1)
    } else {
        Err(ParseError::new(end, ParseErrorKind::UnexpectedChar))
    }
}

/// Returns the position after the rest of an IPvFuture address at `start` and its `]`. The rest is
/// what follows the `v`. The error is where something of these is missing.
///
/// No hexadecimal digit is a `.`, and none of its characters a `]`: so each is found by a scan.
#[tactic(auto, using(uri_pct::proofs::TableSets::Constants::constant_tables))]
fn future_end(text: &str, start: usize) -> Result<usize, ParseError>
    requires { IsCharBoundary text.now start }
    ensures boundary { IfOk result (λ end. IsCharBoundary text.now end) }
    ensures index { IfErr result (λ e. IsCharBoundary text.now (error_index e)) }
    ensures exact { result ≡ scan_to_mark text.now hexdig_set full_stop
        (scan_to_mark text.now ipv_future_set right_bracket (λ end. Ok end)) start }
{
    let address = end_after_mark(text, start, &HEXDIG, b'.')?;
    end_after_mark(text, address, &IPV_FUTURE, b']')
}

/// Returns the position after the IPv6 address at `start` and its `]`. Returns `None` if there is
/// none, or if it has an IPv4 address in it, unless this function `takes_ipv4`.
#[inline(always)]
fn closed_ipv6_end(text: &str, start: usize, takes_ipv4: bool) -> Option<usize>
    requires { IsCharBoundary text.now start }
    ensures boundary { IfSome result (IsCharBoundary text.now) }
    ensures exact { IfSome result (λ end. literal text.now start ≡ Ok end) }
    ensures absent { IsTrue takes_ipv4 → result ≡ None → LacksVersionLetter (drop start text.now)
        → is_ok (literal text.now start) ≡ false }
{
    let mut segments = [0; 8];
    let found = read_ipv6(text.as_bytes(), start, &mut segments, takes_ipv4)?;
    let end = found?;
    if next_is(text, end, b']') {
        Some(end + 1)
    } else {
        None
    }
}

/// Returns the position after the IPv6 address at `start` and its `]`. Returns `None` if there is
/// none, or it has an IPv4 address in it.
///
/// It calls no other function, so it saves few registers.
#[inline(never)]
fn plain_ipv6_end(text: &str, start: usize) -> Option<usize>
    requires { IsCharBoundary text.now start }
    ensures boundary { IfSome result (IsCharBoundary text.now) }
    ensures exact { IfSome result (λ end. literal text.now start ≡ Ok end) }
{
    closed_ipv6_end(text, start, false)
}

/// Returns the position after the IPv6 address at `start`, which may begin there, and its `]`, or
/// why there is none.
#[inline(never)]
fn ipv6_literal_end(text: &str, start: usize) -> Result<usize, ParseError>
    requires boundary { IsCharBoundary text.now start }
    requires lacks_version_letter { LacksVersionLetter (drop start text.now) }
    requires begins { is_no_ipv6_at text.now start ≡ false }
    ensures boundary { IfOk result (λ end. IsCharBoundary text.now end) }
    ensures index { IfErr result (λ e. IsCharBoundary text.now (error_index e)) }
    ensures exact { result ≡ literal text.now start }
{
    match closed_ipv6_end(text, start, true) {
        Some(end) => Ok(end),
        None => Err(refusal(text, start)),
    }
}

/// Returns the position after the address at `start` and its `]`, or why there is none. A `[` is
/// before `start`. It parses addresses of every form.
#[cold]
#[inline(never)]
fn any_literal_end(text: &str, start: usize) -> Result<usize, ParseError>
    requires { IsCharBoundary text.now start }
    ensures boundary { IfOk result (λ end. IsCharBoundary text.now end) }
    ensures index { IfErr result (λ e. IsCharBoundary text.now (error_index e)) }
    ensures exact { result ≡ literal text.now start }
{
    if starts_ipvfuture(text, start) {
        return future_end(text, start + 1);
    }
    if cannot_begin_ipv6(text, start) {
        return Err(ParseError::new(start, ParseErrorKind::UnexpectedChar));
    }
    ipv6_literal_end(text, start)
}

/// Returns the position after the address at `start` and its `]`, or why there is none. A `[` is
/// before `start`.
#[inline(always)]
pub(crate) fn literal_end(text: &str, start: usize) -> Result<usize, ParseError>
    requires { IsCharBoundary text.now start }
    ensures boundary { IfOk result (λ end. IsCharBoundary text.now end) }
    ensures index { IfErr result (λ e. IsCharBoundary text.now (error_index e)) }
    ensures exact { result ≡ literal text.now start }
{
    match plain_ipv6_end(text, start) {
        Some(end) => Ok(end),
        None => any_literal_end(text, start),
    }
}
