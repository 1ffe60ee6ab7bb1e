//! Bytes of the sets that texts are parsed by, one at a time: for texts shorter than a block.
ghost use Rattle.std.specs.Prelude.{◌≡◌, ◌≢◌, ◌<◌, ◌≤◌, ◌==◌, ℕ, bit_and, length, not, slice_index};
ghost use Rattle.uri_pct.specs.Masks.{has_bit};
ghost use Rattle.uri_pct.specs.Models.ByteRuns.{IsLongestRun};
ghost use Rattle.uri_pct.specs.declared.table.members.TheConstants.{MEMBERS};

use crate::masks::{holds, words};
use crate::table::{DIGIT, PATH, QUERY, REG_NAME, SCHEME, SEGMENT_NZ_NC, USERINFO, characters};

/// Gives the sets that have a byte: 1 for a scheme's, 2 for the digits, and then for those of
/// userinfo, of a registered name, of a first segment without `:`, of a path, and of a query or a
/// fragment.
macro_rules! sets_with {
    ($byte:expr) => {
        ((characters::SCHEME >> $byte & 1)
            | (characters::DIGIT >> $byte & 1) << 1
            | (characters::USERINFO >> $byte & 1) << 2
            | (characters::REG_NAME >> $byte & 1) << 3
            | (characters::SEGMENT_NZ_NC >> $byte & 1) << 4
            | (characters::PATH >> $byte & 1) << 5
            | (characters::QUERY >> $byte & 1) << 6) as u8
    };
}

/// Gives no set, since a byte past ASCII is in none.
macro_rules! none {
    ($byte:expr) => {
        0
    };
}

/// Gives the sets that have each byte of the rows, of which each has the bytes of one first digit.
macro_rules! by_byte {
    ($($sets:ident $($row:literal)+),+) => {
        &[$($(
            $sets!($row + 0),
            $sets!($row + 1),
            $sets!($row + 2),
            $sets!($row + 3),
            $sets!($row + 4),
            $sets!($row + 5),
            $sets!($row + 6),
            $sets!($row + 7),
            $sets!($row + 8),
            $sets!($row + 9),
            $sets!($row + 10),
            $sets!($row + 11),
            $sets!($row + 12),
            $sets!($row + 13),
            $sets!($row + 14),
            $sets!($row + 15),
        )+)+]
    };
}

/// The sets that have each byte.
const MEMBERS: &[u8; 256] = by_byte!(
    sets_with 0x00 0x10 0x20 0x30 0x40 0x50 0x60 0x70,
    none 0x80 0x90 0xA0 0xB0 0xC0 0xD0 0xE0 0xF0
);

/// Returns the bit of a set in `MEMBERS`, or 0 if it is none of these. The set is a constant in a
/// parser, and so this is.
#[inline(always)]
fn member_bit(low: u64, high: u64) -> u8
    ensures { result ≢ 0 → (b : ℕ) → b < 256
        → not (bit_and (slice_index MEMBERS.now b) result == 0) ≡ has_bit low high b }
{
    if low == SCHEME.low && high == SCHEME.high {
        return 1;
    }
    if low == DIGIT.low && high == DIGIT.high {
        return 2;
    }
    if low == USERINFO.low && high == USERINFO.high {
        return 4;
    }
    if low == REG_NAME.low && high == REG_NAME.high {
        return 8;
    }
    if low == SEGMENT_NZ_NC.low && high == SEGMENT_NZ_NC.high {
        return 16;
    }
    if low == PATH.low && high == PATH.high {
        return 32;
    }
    if low == QUERY.low && high == QUERY.high {
        return 64;
    }
    0
}

/// Returns where the longest run of bytes of the set that begins at `start` ends; one at a time.
#[inline(always)]
pub(crate) fn run_end_by_words(low: u64, high: u64, bytes: &[u8], start: usize) -> usize
    requires { start ≤ length bytes.now }
    ensures { IsLongestRun (has_bit low high) bytes.now start result }
{
    let words = words(low, high);
    let mut i = start;
    while i < bytes.len() && holds(&words, bytes[i]) {
        i += 1;
    }
    i
}

/// Returns where the longest run of bytes of the set that begins at `start` ends; one at a time. It
/// is for a set that is a constant: of one in `MEMBERS`, the bytes are looked up there.
#[inline(always)]
pub(crate) fn run_end_by_members(low: u64, high: u64, bytes: &[u8], start: usize) -> usize
    requires { start ≤ length bytes.now }
    ensures { IsLongestRun (has_bit low high) bytes.now start result }
{
    let bit = member_bit(low, high);
    if bit == 0 {
        return run_end_by_words(low, high, bytes, start);
    }
    // (else its address is read for each byte)
    let members = MEMBERS;
    let mut i = start;
    while i < bytes.len() && members[usize::from(bytes[i])] & bit != 0 {
        i += 1;
    }
    i
}
