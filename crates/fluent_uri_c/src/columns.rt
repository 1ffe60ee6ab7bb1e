//! Columns of texts as data and offsets, as data engines hold them.
ghost use Rattle.std.specs.Prelude.{◌≡◌, ◌≢◌, ◌/◌, ◌<◌, ◌≤◌, length, IfSome, IfNone, option_copied, ℕ, ◌&&◌, nat_lt, ◌^◌};
ghost use Rattle.fluent_uri_c.specs.Columns.{bit_of, number_of_bool, text_at};
ghost use Rattle.fluent_uri_c.specs.Results.{is_possible_length};

use crate::texts::is_possible_length;

/// An offset of a column: one of 32 bits or of 64.
pub trait Offset: Copy {
    ghost value: { Self → ℕ };

    ghost limit: { ℕ };

    /// Returns the offset as a position, a `usize`.
    fn position(self) -> usize
        ensures { result ≡ value self };

    /// Returns the offset 0.
    fn zero() -> Self
        ensures value { value result ≡ 0 }
        ensures limit { 0 < limit };

    /// Returns the offset of a position, if it can be one.
    fn of(position: usize) -> Option<Self>
        ensures value { IfSome result (λ offset. value offset ≡ position) }
        ensures below { IfSome result (λ _. position < limit) }
        ensures limit { IfNone result (limit ≤ position) };
}

impl Offset for u32 {
    ghost value = { λ offset. offset };

    ghost limit = { 2 ^ 31 };

    /// Returns an offset of 32 bits as a position, a `usize`.
    fn position(self) -> usize {
        self as usize
    }

    /// Returns the offset 0, of 32 bits.
    fn zero() -> u32 {
        0
    }

    /// Returns a position as an offset of 32 bits, if it is one: Arrow's have a sign.
    fn of(position: usize) -> Option<u32> {
        if position < 1 << 31 {
            Some(position as u32)
        } else {
            None
        }
    }
}

impl Offset for u64 {
    ghost value = { λ offset. offset };

    ghost limit = { 2 ^ 63 };

    /// Returns an offset of 64 bits as a position, a `usize`.
    fn position(self) -> usize {
        self as usize
    }

    /// Returns the offset 0, of 64 bits.
    fn zero() -> u64 {
        0
    }

    /// Returns a position as an offset of 64 bits, if it is one: Arrow's have a sign.
    fn of(position: usize) -> Option<u64> {
        if position < 1 << 63 {
            Some(position as u64)
        } else {
            None
        }
    }
}

/// Returns whether a column has an offset, and its data can be there.
pub fn is_possible_column<O: Offset>(texts: &[u8], offsets: &[O]) -> bool
    ensures { result ≡ (nat_lt 0 (length offsets.now) && is_possible_length texts.now) }
{
    !offsets.is_empty() && is_possible_length(texts)
}

/// Returns the text at an index of a column.
pub fn text_at<'a, O: Offset>(texts: &'a [u8], offsets: &[O], index: usize) -> Option<&'a [u8]>
    ensures { option_copied result ≡ text_at O.value texts.now offsets.now index }
{
    let start = offsets.get(index)?.position();
    let end = offsets.get(index.checked_add(1)?)?.position();
    if start <= end && end <= texts.len() {
        Some(&texts[start..end])
    } else {
        None
    }
}

/// Writes the bit that says whether the text at an index of a column has a result.
pub fn mark(valid: &mut [u8], index: usize, is_valid: bool)
    requires { index / 8 < length valid.old }
    ensures marked { bit_of valid.new index ≡ number_of_bool is_valid }
    ensures others { (i : ℕ) → i ≢ index → bit_of valid.new i ≡ bit_of valid.old i }
{
    let mask = 1u8 << (index % 8);
    if is_valid {
        valid[index / 8] |= mask;
    } else {
        valid[index / 8] &= !mask;
    }
}
