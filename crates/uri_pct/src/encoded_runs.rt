//! Runs of characters of a set and percent-encoded octets, sixteen bytes at a time.
ghost use Rattle.std.specs.Prelude.{◌≡◌, ◌+◌, ◌-◌, ◌≤◌, ◌<◌, ◌^◌, ℕ, not, length, map};
ghost use Rattle.std.specs.Simd.Lanes.{mask_l, chunk};
ghost use Rattle.std.specs.Int.{bit_at};
ghost use Rattle.uri_pct.specs.Models.ByteRuns.{AreCharactersOrOctets, IsByteOfEncodedText};
ghost use Rattle.uri_pct.specs.Masks.{has_bit};
ghost use Rattle.uri_pct.specs.Tables.{set_of};
ghost use Rattle.uri_pct.specs.declared.table.characters.TheConstants.{HEXDIG_LOW, HEXDIG_HIGH};

use crate::lanes::{LANES, lanes_equal_to, outside};
use crate::table::Table;
use crate::table::characters::{HEXDIG_HIGH, HEXDIG_LOW};

/// Returns which of the sixteen bytes from `at` on are no hexadecimal digits.
#[inline(always)]
fn lanes_without_hex_digit(bytes: &[u8], at: usize) -> u64
    requires { at + LANES ≤ length bytes.now }
    ensures { result ≡ mask_l (map (λ b. not (has_bit HEXDIG_LOW HEXDIG_HIGH b))
        (chunk at 16 bytes.now)) }
{
    outside(HEXDIG_LOW, HEXDIG_HIGH, bytes, at)
}

/// Returns a mask of the sixteen bytes from `at` on. It has those that are neither in the set nor a
/// `%`, and those that are no hexadecimal digit where one of the two bytes before is a `%`.
#[inline(always)]
fn outside_encoded(low: u64, high: u64, bytes: &[u8], at: usize) -> u64
    requires before { 2 ≤ at }
    requires within { at + LANES ≤ length bytes.now }
    ensures below { result < 2 ^ 16 }
    ensures lane { (k : ℕ) → k < 16 → bit_at result k ≡ 0
        → IsByteOfEncodedText (has_bit low high) bytes.now (at + k) }
{
    let digits = lanes_equal_to(b'%', bytes, at - 1) | lanes_equal_to(b'%', bytes, at - 2);
    let no_octet = !lanes_equal_to(b'%', bytes, at);
    let missed = lanes_without_hex_digit(bytes, at) & digits;
    (outside(low, high, bytes, at) & no_octet) | missed
}

/// Returns such a mask for a table. A block of bytes of the set, into which no octet reaches, is
/// looked up in the set alone.
#[inline(always)]
fn outside_encoded_block(table: &Table, bytes: &[u8], at: usize) -> u64
    requires before { 2 ≤ at }
    requires within { at + LANES ≤ length bytes.now }
    ensures below { result < 2 ^ 16 }
    ensures lane { (k : ℕ) → k < 16 → bit_at result k ≡ 0
        → IsByteOfEncodedText (set_of table.now).ascii bytes.now (at + k) }
{
    let (low, high) = table.masks();
    if outside(low, high, bytes, at) == 0 && bytes[at - 1] != b'%' && bytes[at - 2] != b'%' {
        return 0;
    }
    outside_encoded(low, high, bytes, at)
}

/// Returns where a run of bytes of encoded text ends that begins at `start`. Such a byte is in the
/// set or is a `%`, and is a hexadecimal digit where one of the two bytes before it is a `%`. The
/// blocks of sixteen bytes do not depend on where octets begin, so that a processor need not wait
/// for one block to begin the next. As in `run_end` the last sixteen are scanned again.
#[inline(always)]
fn linked_run_end(table: &Table, bytes: &[u8], start: usize) -> usize
    requires before { 2 ≤ start }
    requires within { start ≤ length bytes.now }
    requires long { LANES + 2 ≤ length bytes.now }
    ensures from { start ≤ result }
    ensures within { result ≤ length bytes.now }
    ensures linked { (k : ℕ) → start ≤ k → k < result
        → IsByteOfEncodedText (set_of table.now).ascii bytes.now k }
{
    let len = bytes.len();
    let last = len - LANES;
    let mut i = start;
    while i < last {
        let mask = outside_encoded_block(table, bytes, i);
        if mask != 0 {
            return i + mask.trailing_zeros() as usize;
        }
        i += LANES;
    }
    let tail = outside_encoded_block(table, bytes, last);
    let mask = tail >> (i - last);
    if mask == 0 {
        return len;
    }
    i + mask.trailing_zeros() as usize
}

/// Returns where a run of bytes of the set and of octets ends that begins at `start`.
#[inline(always)]
pub fn encoded_run_end(table: &Table, bytes: &[u8], start: usize) -> usize
    requires before { 2 ≤ start }
    requires within { start ≤ length bytes.now }
    requires long { LANES + 2 ≤ length bytes.now }
    ensures from { start ≤ result }
    ensures within { result ≤ length bytes.now }
    ensures allowed { AreCharactersOrOctets (set_of table.now).ascii bytes.now start
        (result - start) }
{
    let end = linked_run_end(table, bytes, start);
    if end - start < 2 {
        return start;
    }
    if bytes[end - 1] == b'%' {
        return end - 1;
    }
    if bytes[end - 2] == b'%' {
        return end - 2;
    }
    end
}
