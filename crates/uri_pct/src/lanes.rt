//! Sets of ASCII characters by their two masks, sixteen bytes at a time.
ghost use Rattle.std.specs.Prelude.{◌≡◌, ◌+◌, ◌-◌, ◌≤◌, ◌<◌, ◌/◌, ◌%◌, ℕ, true, not, length, map, slice_index, nat_lt, nat_le, IsTrue, false, ◌^◌, ◌==◌, ◌&&◌, List, bit_and};
ghost use Rattle.std.specs.Simd.Lanes.{mask_l, chunk};
ghost use Rattle.std.specs.Int.{bit_at};
ghost use Rattle.uri_pct.specs.Delimiters.{percent_sign};
ghost use Rattle.uri_pct.specs.Models.ByteRuns.{IsLongestRun, AreCharactersOrOctets, is_char_byte};
ghost use Rattle.uri_pct.specs.Texts.{has_hex_digits_after};
ghost use Rattle.uri_pct.specs.Models.LaneMasks.{bytes_of_masks, bit_in_mask_byte, is_lane_of_octet};
ghost use Rattle.uri_pct.specs.Masks.{has_bit, HasHexDigits};
ghost use Rattle.uri_pct.specs.declared.table.characters.TheConstants.{HEXDIG_LOW, HEXDIG_HIGH};

use crate::masks::has;
use crate::table::characters::{HEXDIG_HIGH, HEXDIG_LOW};
use std::simd::prelude::*;

/// How many bytes are scanned at once.
pub const LANES: usize = 16;

/// Whether the target shuffles sixteen bytes by one instruction. If it does not, the functions that
/// would shuffle take the path of a text below [`LANES`] bytes for every text.
///
/// Every proof holds for either value.
pub const SWIZZLES: bool = true;

/// Returns which of the sixteen bytes from `at` on equal this one: bit k is for the byte at
/// `at + k`.
#[inline(always)]
pub fn lanes_equal_to(byte: u8, bytes: &[u8], at: usize) -> u64
    requires { at + LANES ≤ length bytes.now }
    ensures { result ≡ mask_l (map (λ b. b == byte) (chunk at 16 bytes.now)) }
{
    let lanes = u8x16::from_slice(&bytes[at..]);
    lanes.simd_eq(u8x16::splat(byte)).to_bitmask()
}

/// Returns for each lane the byte of the masks that has this index.
#[inline(always)]
fn mask_bytes(low: u64, high: u64, indices: u8x16) -> u8x16
    requires { (k : ℕ) → k < 16 → slice_index indices k < 16 }
    ensures { result ≡ map (λ i. slice_index (bytes_of_masks low high) i) indices }
{
    let bytes = u64x2::from_array([low, high]).to_le_bytes();
    bytes.swizzle_dyn_within::<16>(indices)
}

// Each bit is in the vector twice, so that four bits of a byte choose it. The instruction of x86-64
// reads these four and bit 7, and LLVM drops the `&` before it.
/// Returns for each lane the bit of its byte in the byte of the masks that has it, and none from
/// 128 on.
#[inline(always)]
fn bits_of_lanes(lanes: u8x16) -> u8x16
    ensures { result ≡ map bit_in_mask_byte lanes }
{
    let bits = u8x16::from_array([1, 2, 4, 8, 16, 32, 64, 128, 1, 2, 4, 8, 16, 32, 64, 128]);
    bits.swizzle_dyn_within::<16>(lanes & u8x16::splat(0x8F))
}

// This and what else a scan calls is only `#[inline]`: with `always` the parsers, which have many
// scans, would be too large to be inlined.
/// Returns by what the sixteen bytes from `at` on are looked up in the masks of any set: the index
/// of the byte that has a lane's bit, where the masks begin again at 128, and this bit.
#[inline]
fn lane_keys(bytes: &[u8], at: usize) -> (u8x16, u8x16)
    requires { at + LANES ≤ length bytes.now }
    ensures indices { result.0 ≡ map (λ b. b / 8 % 16) (chunk at 16 bytes.now) }
    ensures bits { result.1 ≡ map bit_in_mask_byte (chunk at 16 bytes.now) }
{
    let lanes = u8x16::from_slice(&bytes[at..]);
    (
        (lanes >> u8x16::splat(3)) & u8x16::splat(15),
        bits_of_lanes(lanes),
    )
}

/// Returns which of sixteen bytes with these keys are outside the set.
#[inline]
fn outside_by_keys(low: u64, high: u64, indices: u8x16, bits: u8x16) -> u64
    requires { (k : ℕ) → k < 16 → slice_index indices k < 16 }
    ensures { (bytes : List ℕ) → indices ≡ map (λ b. b / 8 % 16) bytes
        → bits ≡ map bit_in_mask_byte bytes
        → result ≡ mask_l (map (λ b. not (has_bit low high b)) bytes) }
{
    let given = mask_bytes(low, high, indices) & bits;
    given.simd_eq(u8x16::splat(0)).to_bitmask()
}

/// Returns which of the sixteen bytes from `at` on are outside the set: bit k is of `at + k`.
#[inline]
pub(crate) fn outside(low: u64, high: u64, bytes: &[u8], at: usize) -> u64
    requires { at + LANES ≤ length bytes.now }
    ensures { result ≡ mask_l (map (λ b. not (has_bit low high b)) (chunk at 16 bytes.now)) }
{
    let (indices, bits) = lane_keys(bytes, at);
    outside_by_keys(low, high, indices, bits)
}

/// Returns the first block of sixteen bytes that has a byte outside the set, from `start` on: where
/// the block begins, a mask of these bytes, and the keys of the block. If there is none, this is
/// the last block and 0.
///
/// The last block is scanned even if it begins before `start`; what is before is shifted out.
#[inline(always)]
fn first_block_outside(
    low: u64,
    high: u64,
    bytes: &[u8],
    start: usize,
) -> (usize, u64, u8x16, u8x16)
    requires within { start ≤ length bytes.now }
    requires long { LANES ≤ length bytes.now }
    ensures room { result.0 + LANES ≤ length bytes.now }
    ensures below { result.1 < 2 ^ 16 }
    ensures lane { (k : ℕ) → k < 16 → (bit_at result.1 k == 1)
        ≡ (nat_le start (result.0 + k)
        && not (has_bit low high (slice_index bytes.now (result.0 + k)))) }
    ensures before { (k : ℕ) → start ≤ k → k < result.0
        → has_bit low high (slice_index bytes.now k) ≡ true }
    ensures last { result.1 ≡ 0 → result.0 + LANES ≡ length bytes.now }
    ensures indices { result.2 ≡ map (λ b. b / 8 % 16) (chunk result.0 16 bytes.now) }
    ensures bits { result.3 ≡ map bit_in_mask_byte (chunk result.0 16 bytes.now) }
{
    let last = bytes.len() - LANES;
    let mut i = start;
    while i < last {
        let mask = outside(low, high, bytes, i);
        if mask != 0 {
            let (indices, bits) = lane_keys(bytes, i);
            return (i, mask, indices, bits);
        }
        i += LANES;
    }
    let passed = i - last;
    let tail = outside(low, high, bytes, last);
    let (indices, bits) = lane_keys(bytes, last);
    (last, (tail >> passed) << passed, indices, bits)
}

/// Returns where the longest run of bytes of the set
/// that begins at `start` ends; sixteen at a time.
#[inline(always)]
pub fn run_end(low: u64, high: u64, bytes: &[u8], start: usize) -> usize
    requires within { start ≤ length bytes.now }
    requires long { LANES ≤ length bytes.now }
    ensures { IsLongestRun (has_bit low high) bytes.now start result }
{
    let (block, mask, _, _) = first_block_outside(low, high, bytes, start);
    if mask == 0 {
        return bytes.len();
    }
    block + mask.trailing_zeros() as usize
}

/// Returns where the longest run of ASCII that begins at `start` ends; sixteen bytes at a time.
#[inline(always)]
pub fn ascii_end(bytes: &[u8], start: usize) -> usize
    requires within { start ≤ length bytes.now }
    requires long { LANES ≤ length bytes.now }
    ensures { IsLongestRun (λ b. nat_lt b 128) bytes.now start result }
{
    run_end(u64::MAX, u64::MAX, bytes, start)
}

/// Returns which of the sixteen bytes from `at` on are at most this one.
#[inline(always)]
fn lanes_at_most(byte: u8, bytes: &[u8], at: usize) -> u64
    requires { at + LANES ≤ length bytes.now }
    ensures { result ≡ mask_l (map (λ b. nat_le b byte) (chunk at 16 bytes.now)) }
{
    let lanes = u8x16::from_slice(&bytes[at..]);
    lanes.simd_le(u8x16::splat(byte)).to_bitmask()
}

/// Returns which of the sixteen bytes from `at` on are neither in the set nor, in a text, a part of
/// one of the characters from U+00C0 to U+D7FF.
#[inline(always)]
fn outside_chars(low: u64, high: u64, bytes: &[u8], at: usize) -> u64
    requires { at + LANES ≤ length bytes.now }
    ensures below { result < 2 ^ 16 }
    ensures lane { (k : ℕ) → k < 16 → (bit_at result k == 1)
        ≡ not (is_char_byte (has_bit low high) (slice_index bytes.now (at + k))) }
{
    let low_bytes = lanes_at_most(0xED, bytes, at);
    let ascii = lanes_at_most(0x7F, bytes, at);
    let parts = low_bytes & !ascii & !lanes_equal_to(0xC2, bytes, at);
    outside(low, high, bytes, at) & !parts
}

/// Returns whether the byte is in the set or, in a text, a part of one of the characters from
/// U+00C0 to U+D7FF.
#[inline(always)]
fn is_char_byte(low: u64, high: u64, byte: u8) -> bool
    ensures { result ≡ is_char_byte (has_bit low high) byte }
{
    if byte < 128 {
        has(low, high, byte)
    } else {
        byte <= 0xED && byte != 0xC2
    }
}

/// Returns where the longest run of bytes ends that begins at `start` and of which each is in the
/// set or, in a text, a part of one of the characters from U+00C0 to U+D7FF. One byte is tested at
/// a time.
#[inline(always)]
fn chars_end_by_byte(low: u64, high: u64, bytes: &[u8], start: usize) -> usize
    requires { start ≤ length bytes.now }
    ensures { IsLongestRun (is_char_byte (has_bit low high)) bytes.now start result }
{
    let mut i = start;
    while i < bytes.len() && is_char_byte(low, high, bytes[i]) {
        i += 1;
    }
    i
}

/// Returns where the longest run of bytes ends that begins at `start` and of which each is in the
/// set or, in a text, a part of one of the characters from U+00C0 to U+D7FF. Sixteen bytes are
/// tested at a time, if there are as many. As in `run_end` the last sixteen are scanned again.
#[inline(always)]
pub fn chars_end(low: u64, high: u64, bytes: &[u8], start: usize) -> usize
    requires { start ≤ length bytes.now }
    ensures { IsLongestRun (is_char_byte (has_bit low high)) bytes.now start result }
{
    let len = bytes.len();
    if len < LANES || !SWIZZLES {
        return chars_end_by_byte(low, high, bytes, start);
    }
    let last = len - LANES;
    let mut i = start;
    while i < last {
        let mask = outside_chars(low, high, bytes, i);
        if mask != 0 {
            return i + mask.trailing_zeros() as usize;
        }
        i += LANES;
    }
    let tail = outside_chars(low, high, bytes, last);
    let mask = tail >> (i - last);
    if mask == 0 {
        return len;
    }
    i + mask.trailing_zeros() as usize
}

/// Returns a mask of the sixteen bytes from `at` on: those at which a `%XX` begins that also ends
/// among them. The other mask is of those that are no hexadecimal digits.
#[inline]
fn octet_starts(bytes: &[u8], at: usize, no_digits: u64) -> u64
    requires room { at + LANES ≤ length bytes.now }
    requires no_digits { no_digits ≡ mask_l (map (λ b.
        not (has_bit HEXDIG_LOW HEXDIG_HIGH b)) (chunk at 16 bytes.now)) }
    ensures starts { (k : ℕ) → bit_at result k ≡ 1 → (k + 3 ≤ 16)
        × (slice_index bytes.now (at + k) ≡ percent_sign)
        × (has_hex_digits_after bytes.now (at + k) ≡ true) }
    ensures all { (k : ℕ) → k + 3 ≤ 16 → slice_index bytes.now (at + k) ≡ percent_sign
        → has_hex_digits_after bytes.now (at + k) ≡ true → bit_at result k ≡ 1 }
{
    let percents = lanes_equal_to(b'%', bytes, at);
    // The two lanes after the last have no digits.
    let others = no_digits | 0x3_0000;
    percents & !((others >> 1) | (others >> 2))
}

/// Returns which lanes of `mask` are in no octet of those that begin at the lanes of both masks.
#[inline]
fn lanes_outside_octets(low: u64, high: u64, mask: u64, starts: u64) -> u64
    requires below { mask < 2 ^ 16 }
    requires digits { HasHexDigits low high → (k : ℕ) → bit_at starts k ≡ 1
        → (bit_at mask (k + 1) ≡ 0) × (bit_at mask (k + 2) ≡ 0) }
    ensures below { result < 2 ^ 16 }
    ensures lane { (k : ℕ) → k < 16 → (bit_at result k == 1)
        ≡ (bit_at mask k == 1 && not (is_lane_of_octet (bit_and starts mask) k)) }
{
    // If digits are in the set, `mask` lacks them. Where the set is constant, so is this test.
    if low & HEXDIG_LOW == HEXDIG_LOW && high & HEXDIG_HIGH == HEXDIG_HIGH {
        return mask & !starts;
    }
    let begun = starts & mask;
    mask & !(begun | (begun << 1) | (begun << 2))
}

/// Returns the end of a run of bytes of the set and, if `octets` is set, of octets, as far as one
/// block shows it, and whether the longest such run ends there.
#[inline(always)]
pub(crate) fn first_run_end(
    low: u64,
    high: u64,
    octets: bool,
    bytes: &[u8],
    start: usize,
) -> (usize, bool)
    requires within { start ≤ length bytes.now }
    requires long { LANES ≤ length bytes.now }
    ensures from { start ≤ result.0 }
    ensures within { result.0 ≤ length bytes.now }
    ensures allowed { AreCharactersOrOctets (has_bit low high) bytes.now start (result.0 - start) }
    ensures ends { octets ≡ false → IsTrue result.1 }
    ensures plain { octets ≡ false → IsLongestRun (has_bit low high) bytes.now start result.0 }
    ensures outside { IsTrue result.1 → result.0 < length bytes.now
        → has_bit low high (slice_index bytes.now result.0) ≡ false }
    ensures stray { IsTrue result.1 → octets ≡ true → result.0 < length bytes.now
        → slice_index bytes.now result.0 ≡ percent_sign
        → has_hex_digits_after bytes.now result.0 ≡ false }
{
    let (block, mask, indices, bits) = first_block_outside(low, high, bytes, start);
    if mask == 0 {
        return (bytes.len(), true);
    }
    let first = block + mask.trailing_zeros() as usize;
    if bytes[first] != b'%' || !octets {
        return (first, true);
    }
    let no_digits = outside_by_keys(HEXDIG_LOW, HEXDIG_HIGH, indices, bits);
    let open = lanes_outside_octets(low, high, mask, octet_starts(bytes, block, no_digits));
    // An octet that begins in the last two lanes is cut by the end of the block.
    let certain = open & 0x3FFF;
    if certain != 0 {
        return (block + certain.trailing_zeros() as usize, true);
    }
    let last = open & 0xC000;
    if last == 0 {
        let end = block + LANES;
        return (end, end == bytes.len());
    }
    let end = block + last.trailing_zeros() as usize;
    (end, bytes[end] != b'%')
}
