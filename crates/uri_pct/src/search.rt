//! The search for a byte, sixteen bytes at a time.
ghost use Rattle.std.specs.Prelude.{◌≡◌, ◌+◌, ◌≤◌, ◌<◌, ◌==◌, ◌&&◌, ◌||◌, ℕ, false, length, not, slice_index};
ghost use Rattle.uri_pct.specs.Delimiters.{full_stop, percent_sign, slash};
ghost use Rattle.uri_pct.specs.Models.ByteRuns.{IsLongestRun};

use crate::lanes::{LANES, lanes_equal_to};

/// Returns the position of the first such byte from `start` on, or the end if there is none.
pub fn find_byte(byte: u8, bytes: &[u8], start: usize) -> usize
    requires { start ≤ length bytes.now }
    ensures { IsLongestRun (λ b. not (b == byte)) bytes.now start result }
{
    let mut i = start;
    while bytes.len() - i >= LANES {
        let mask = lanes_equal_to(byte, bytes, i);
        if mask != 0 {
            return i + mask.trailing_zeros() as usize;
        }
        i += LANES;
    }
    while i < bytes.len() && bytes[i] != byte {
        i += 1;
    }
    i
}

/// Returns how many of sixteen bytes from `at` on come before the first `/`
/// that a dot segment may follow: one with a `.` or a `%` after it.
#[inline(always)]
pub fn len_before_slash_dot(bytes: &[u8], at: usize) -> usize
    requires { at + LANES < length bytes.now }
    ensures few { result ≤ 16 }
    ensures none { (k : ℕ) → k < result → (slice_index bytes.now (at + k) == slash
        && (slice_index bytes.now (at + k + 1) == full_stop
        || slice_index bytes.now (at + k + 1) == percent_sign)) ≡ false }
    ensures slash { result < 16 → slice_index bytes.now (at + result) ≡ slash }
{
    let slashes = lanes_equal_to(b'/', bytes, at);
    if slashes == 0 {
        return LANES;
    }
    let dots = lanes_equal_to(b'.', bytes, at + 1) | lanes_equal_to(b'%', bytes, at + 1);
    let found = slashes & dots;
    if found == 0 {
        return LANES;
    }
    found.trailing_zeros() as usize
}
