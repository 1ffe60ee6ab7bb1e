//! Bytes written as percent-encoded octets, sixteen at a time (RFC 3986, section 2.1).
ghost use Rattle.std.specs.Prelude.{◌≡◌, ◌+◌, ◌*◌, ◌/◌, ◌%◌, ◌≤◌, ◌++◌, IfOk, List, drop, length, map, take, true, ℕ};
ghost use Rattle.std.specs.Fmt.{digit_glyph};
ghost use Rattle.std.specs.Simd.Lanes.{chunk};
ghost use Rattle.uri_pct.specs.Prelude.{Octet, print, text_of_token};

use crate::buffer::make_room;
use std::alloc::AllocError;
use std::simd::prelude::*;
use uri_pct::lanes::LANES;
use uri_pct::octet::pct_encoded;

/// How many bytes the octets of a block take.
const BLOCK_LEN: usize = 3 * LANES;

/// Writes a byte as an octet to a position of a buffer. Returns the position after it.
#[inline(always)]
pub(crate) fn place_octet(byte: u8, at: usize, out: &mut [u8]) -> usize
    requires { at + 3 ≤ length out.old }
    ensures end { result ≡ at + 3 }
    ensures text { take result out.new ≡ take at out.old ++ text_of_token (Octet byte) }
{
    let octet = pct_encoded(byte).as_bytes();
    out[at] = octet[0];
    out[at + 1] = octet[1];
    out[at + 2] = octet[2];
    at + 3
}

/// Returns the first hexadecimal digits of sixteen bytes, and the second ones.
#[inline(always)]
fn digits_of_lanes(bytes: &[u8], at: usize) -> (u8x16, u8x16)
    requires { at + LANES ≤ length bytes.now }
    ensures first { result.0 ≡ map (λ b. digit_glyph true (b / 16)) (chunk at 16 bytes.now) }
    ensures second { result.1 ≡ map (λ b. digit_glyph true (b % 16)) (chunk at 16 bytes.now) }
{
    let lanes = u8x16::from_slice(&bytes[at..]);
    let digits = u8x16::from_array([
        b'0', b'1', b'2', b'3', b'4', b'5', b'6', b'7', b'8', b'9', b'A', b'B', b'C', b'D', b'E',
        b'F',
    ]);
    (
        digits.swizzle_dyn_within::<16>(lanes >> u8x16::splat(4)),
        digits.swizzle_dyn_within::<16>(lanes & u8x16::splat(15)),
    )
}

/// Returns octets with these digits. The last sixteen bytes are of no meaning.
#[inline(always)]
fn octets_of_digits(first: u8x16, second: u8x16) -> u8x64
    ensures len { length result ≡ 64 }
    ensures octets { (bytes : List ℕ) → length bytes ≡ 16
        → first ≡ map (λ b. digit_glyph true (b / 16)) bytes
        → second ≡ map (λ b. digit_glyph true (b % 16)) bytes
        → take 48 result ≡ print (map Octet bytes) }
{
    let digits: u8x64 = first.shuffle(
        second,
        [
            0, 0, 16, 0, 1, 17, 0, 2, 18, 0, 3, 19, 0, 4, 20, 0, 5, 21, 0, 6, 22, 0, 7, 23, 0, 8,
            24, 0, 9, 25, 0, 10, 26, 0, 11, 27, 0, 12, 28, 0, 13, 29, 0, 14, 30, 0, 15, 31, 0, 0,
            0, 0, 0, 0, 0, 0, 0, 0, 0, 0, 0, 0, 0, 0,
        ],
    );
    digits.shuffle(
        u8x64::splat(b'%'),
        [
            64, 1, 2, 64, 4, 5, 64, 7, 8, 64, 10, 11, 64, 13, 14, 64, 16, 17, 64, 19, 20, 64, 22,
            23, 64, 25, 26, 64, 28, 29, 64, 31, 32, 64, 34, 35, 64, 37, 38, 64, 40, 41, 64, 43, 44,
            64, 46, 47, 64, 64, 64, 64, 64, 64, 64, 64, 64, 64, 64, 64, 64, 64, 64, 64,
        ],
    )
}

/// Writes sixteen bytes as octets to a position of a buffer, in which sixteen bytes more change.
/// Returns the position after the octets.
#[inline(always)]
fn place_block(bytes: &[u8], start: usize, at: usize, out: &mut [u8]) -> usize
    requires inside { start + LANES ≤ length bytes.now }
    requires room { at + BLOCK_LEN + LANES ≤ length out.old }
    ensures end { result ≡ at + BLOCK_LEN }
    ensures text { take result out.new
        ≡ take at out.old ++ print (map Octet (take 16 (drop start bytes.now))) }
{
    let (first, second) = digits_of_lanes(bytes, start);
    octets_of_digits(first, second).copy_to_slice(&mut out[at..]);
    at + BLOCK_LEN
}

/// Writes bytes as octets, one by one, to a position of a buffer that has room for them. Returns
/// the position after the octets.
fn place_few(bytes: &[u8], start: usize, out: &mut [u8]) -> usize
    requires { start + 3 * length bytes.now ≤ length out.old }
    ensures end { result ≡ start + 3 * length bytes.now }
    ensures text { take result out.new ≡ take start out.old ++ print (map Octet bytes.now) }
{
    let mut at = start;
    let mut done = 0;
    while done < bytes.len() {
        at = place_octet(bytes[done], at, out);
        done += 1;
    }
    at
}

/// Writes bytes as octets to a position of a buffer that has room for them and sixteen bytes more,
/// which may change. Returns the position after the octets.
fn place_all(bytes: &[u8], start: usize, out: &mut [u8]) -> usize
    requires { start + 3 * length bytes.now + LANES ≤ length out.old }
    ensures end { result ≡ start + 3 * length bytes.now }
    ensures text { take result out.new ≡ take start out.old ++ print (map Octet bytes.now) }
{
    if bytes.len() < LANES {
        return place_few(bytes, start, out);
    }
    let mut at = start;
    let mut done = 0;
    while bytes.len() - done > LANES {
        at = place_block(bytes, done, at, out);
        done += LANES;
    }
    // The last sixteen bytes, of which some may be written.
    let last = bytes.len() - LANES;
    place_block(bytes, last, start + 3 * last, out)
}

/// Writes bytes as octets to a position of a buffer, which grows as needed. Returns the position
/// after them.
pub(crate) fn place_octets(
    bytes: &[u8],
    start: usize,
    out: &mut Vec<u8>,
) -> Result<usize, AllocError>
    requires { start ≤ length out.old.items }
    ensures inside { IfOk result (λ at. at ≤ length out.new.items) }
    ensures text { IfOk result (λ at. take at out.new.items
        ≡ take start out.old.items ++ print (map Octet bytes.now)) }
{
    let Some(len) = bytes.len().checked_mul(3) else {
        return Err(AllocError);
    };
    make_room(len.saturating_add(LANES), start, out)?;
    Ok(place_all(bytes, start, out))
}
