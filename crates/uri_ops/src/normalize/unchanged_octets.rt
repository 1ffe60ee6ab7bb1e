//! Texts of which normalising leaves each octet, each character and each segment of the path (RFC
//! 3986, section 6.2.2; RFC 3987, section 4.1).
ghost use Rattle.std.specs.Prelude.{◌≡◌, ◌+◌, ◌≤◌, ◌<◌, ◌==◌, ◌^◌, ℕ, IfSome, None, length, not, true};
ghost use Rattle.std.specs.Int.{bit_at};
ghost use Rattle.uri_ops.specs.Models.Unchanged.{IsLiteralRun, is_dot_unchanged_at, is_literal_at, is_unchanged_at, is_unchanged_octet};

use uri_pct::lanes::{LANES, lanes_equal_to};
use uri_pct::table::characters;

/// Returns at which of the sixteen bytes from `at` on an octet or a formatting character may begin,
/// or a dot is after a `/`.
#[inline(always)]
fn lanes_of_special_bytes(bytes: &[u8], at: usize) -> u64
    requires later { 0 < at }
    requires room { at + LANES ≤ length bytes.now }
    ensures below { result < 2 ^ 16 }
    ensures lane { (k : ℕ) → k < 16 → (bit_at result k == 1)
        ≡ not (is_literal_at bytes.now (at + k)) }
{
    let dots = lanes_equal_to(b'/', bytes, at - 1) & lanes_equal_to(b'.', bytes, at);
    lanes_equal_to(b'%', bytes, at) | lanes_equal_to(0xE2, bytes, at) | dots
}

/// Returns the first index from `start` on at which an octet or a formatting character may begin,
/// or a dot is after a `/`, if there is one. It is for a text that is hardly longer than a block.
#[inline(never)]
fn short_literal_end(bytes: &[u8], start: usize) -> Option<usize>
    requires later { 0 < start }
    requires within { start ≤ length bytes.now }
    ensures some { IfSome result (λ end. IsLiteralRun bytes.now start end) }
    ensures none { result ≡ None → (k : ℕ) → start ≤ k → k < length bytes.now
        → is_literal_at bytes.now k ≡ true }
{
    let mut i = start;
    while i < bytes.len() {
        let is_dot = bytes[i] == b'.' && bytes[i - 1] == b'/';
        if is_dot || bytes[i] == b'%' || bytes[i] == 0xE2 {
            return Some(i);
        }
        i += 1;
    }
    None
}

/// Returns the first index from `start` on at which an octet or a formatting character may begin,
/// or a dot is after a `/`, if there is one. The last sixteen bytes overlap those before.
#[inline(always)]
fn literal_end(bytes: &[u8], start: usize) -> Option<usize>
    requires later { 0 < start }
    requires within { start ≤ length bytes.now }
    ensures some { IfSome result (λ end. IsLiteralRun bytes.now start end) }
    ensures none { result ≡ None → (k : ℕ) → start ≤ k → k < length bytes.now
        → is_literal_at bytes.now k ≡ true }
{
    let len = bytes.len();
    if len <= LANES {
        return short_literal_end(bytes, start);
    }
    let mut i = start;
    while len - i > LANES {
        let mask = lanes_of_special_bytes(bytes, i);
        if mask != 0 {
            return Some(i + mask.trailing_zeros() as usize);
        }
        i += LANES;
    }
    let last = len - LANES;
    let tail = lanes_of_special_bytes(bytes, last);
    let mask = tail >> (i - last);
    if mask == 0 {
        return None;
    }
    Some(i + mask.trailing_zeros() as usize)
}

/// Gives the table of the numbers of the digits from `0` to `9` and from `A` to `F`, and of 0 for
/// each other byte.
macro_rules! by_digit {
    ($($decimal:expr),+; $($letter:expr),+) => {
        &[
            0, 0, 0, 0, 0, 0, 0, 0, 0, 0, 0, 0, 0, 0, 0, 0, // 00
            0, 0, 0, 0, 0, 0, 0, 0, 0, 0, 0, 0, 0, 0, 0, 0, // 10
            0, 0, 0, 0, 0, 0, 0, 0, 0, 0, 0, 0, 0, 0, 0, 0, // 20
            $($decimal,)+ 0, 0, 0, 0, 0, 0, // 30
            0, $($letter,)+ 0, 0, 0, 0, 0, 0, 0, 0, 0, // 40
            0, 0, 0, 0, 0, 0, 0, 0, 0, 0, 0, 0, 0, 0, 0, 0, // 50
            0, 0, 0, 0, 0, 0, 0, 0, 0, 0, 0, 0, 0, 0, 0, 0, // 60
            0, 0, 0, 0, 0, 0, 0, 0, 0, 0, 0, 0, 0, 0, 0, 0, // 70
            0, 0, 0, 0, 0, 0, 0, 0, 0, 0, 0, 0, 0, 0, 0, 0, // 80
            0, 0, 0, 0, 0, 0, 0, 0, 0, 0, 0, 0, 0, 0, 0, 0, // 90
            0, 0, 0, 0, 0, 0, 0, 0, 0, 0, 0, 0, 0, 0, 0, 0, // A0
            0, 0, 0, 0, 0, 0, 0, 0, 0, 0, 0, 0, 0, 0, 0, 0, // B0
            0, 0, 0, 0, 0, 0, 0, 0, 0, 0, 0, 0, 0, 0, 0, 0, // C0
            0, 0, 0, 0, 0, 0, 0, 0, 0, 0, 0, 0, 0, 0, 0, 0, // D0
            0, 0, 0, 0, 0, 0, 0, 0, 0, 0, 0, 0, 0, 0, 0, 0, // E0
            0, 0, 0, 0, 0, 0, 0, 0, 0, 0, 0, 0, 0, 0, 0, 0, // F0
        ]
    };
}

/// The class of each digit that begins an octet, and 0 for each other byte. Digits of a class go
/// with the same second digits: `0` and `1`, with which no octet of an unreserved character begins,
/// and those that begin an octet past ASCII, whose class is 128.
const FIRST_DIGITS: &[u8; 256] =
    by_digit!(1, 1, 2, 4, 8, 16, 32, 64, 128, 128; 128, 128, 128, 128, 128, 128);

/// The ASCII characters whose octets normalising leaves: those that are not unreserved.
const UNCHANGED_OCTETS: u128 = !characters::UNRESERVED;

/// Gives the classes of the first digits with which a digit ends an octet that normalising leaves.
/// An octet past ASCII is unchanged with any.
macro_rules! classes_with {
    ($digit:literal) => {
        ((UNCHANGED_OCTETS >> $digit & UNCHANGED_OCTETS >> 16 + $digit & 1)
            | (UNCHANGED_OCTETS >> 32 + $digit & 1) << 1
            | (UNCHANGED_OCTETS >> 48 + $digit & 1) << 2
            | (UNCHANGED_OCTETS >> 64 + $digit & 1) << 3
            | (UNCHANGED_OCTETS >> 80 + $digit & 1) << 4
            | (UNCHANGED_OCTETS >> 96 + $digit & 1) << 5
            | (UNCHANGED_OCTETS >> 112 + $digit & 1) << 6
            | 1 << 7) as u8
    };
}

/// The classes of the first digits with which each digit ends an octet that normalising leaves, and
/// 0 for each other byte.
const SECOND_DIGITS: &[u8; 256] = by_digit!(
    classes_with!(0), classes_with!(1), classes_with!(2), classes_with!(3), classes_with!(4),
    classes_with!(5), classes_with!(6), classes_with!(7), classes_with!(8), classes_with!(9);
    classes_with!(10), classes_with!(11), classes_with!(12), classes_with!(13), classes_with!(14),
    classes_with!(15)
);

/// Returns whether normalising leaves the octet with these digits: they are in upper case, and it
/// is not decoded. An octet past ASCII is unchanged if no component may have characters
/// past ASCII (`alone`).
#[inline(always)]
fn are_digits_unchanged(alone: bool, high: u8, low: u8) -> bool
    ensures { result ≡ true → is_unchanged_octet alone high low ≡ true }
{
    let classes: u8 = if alone { 255 } else { 127 };
    FIRST_DIGITS[usize::from(high)] & SECOND_DIGITS[usize::from(low)] & classes != 0
}

/// Returns where a run of octets ends that begins at `start` and of which normalising leaves each.
#[inline(always)]
fn unchanged_octets_end(alone: bool, bytes: &[u8], start: usize) -> usize
    requires { start ≤ length bytes.now }
    ensures from { start ≤ result }
    ensures within { result ≤ length bytes.now }
    ensures unchanged { (limit k : ℕ) → start ≤ k → k < result
        → is_unchanged_at alone limit bytes.now k ≡ true }
{
    let mut end = start;
    while bytes.len() - end >= 3
        && bytes[end] == b'%'
        && are_digits_unchanged(alone, bytes[end + 1], bytes[end + 2])
    {
        end += 3;
    }
    end
}

/// Returns `true` only if no dot segment before `limit` begins with the dot at `at`, which is after
/// a `/`.
#[inline(never)]
fn is_dot_unchanged(bytes: &[u8], at: usize, limit: usize) -> bool
    requires { at < length bytes.now }
    ensures { result ≡ true → is_dot_unchanged_at limit bytes.now at ≡ true }
{
    if limit <= at {
        return true;
    }
    let next = at + 1;
    next < limit && next < bytes.len() && !matches!(bytes[next], b'.' | b'/' | b'%')
}

/// Returns `true` only if normalising leaves each octet of the text from `start` on, and the text
/// has no formatting character there, and before `limit` no dot segment. Octets past ASCII are
/// unchanged only if no component may have characters past ASCII (`alone`).
#[inline(always)]
pub(crate) fn is_unchanged_from(alone: bool, bytes: &[u8], start: usize, limit: usize) -> bool
    requires later { 0 < start }
    requires within { start ≤ length bytes.now }
    ensures { result ≡ true → (k : ℕ) → start ≤ k → k < length bytes.now
        → is_unchanged_at alone limit bytes.now k ≡ true }
{
    let mut i = start;
    while let Some(end) = literal_end(bytes, i) {
        i = if bytes[end] == b'.' && is_dot_unchanged(bytes, end, limit) {
            end + 1
        } else {
            unchanged_octets_end(alone, bytes, end)
        };
        if i == end {
            return false;
        }
    }
    true
}
