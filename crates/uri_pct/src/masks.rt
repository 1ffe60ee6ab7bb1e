//! Sets of ASCII characters by their two masks, a byte at a time.
ghost use Rattle.std.specs.Prelude.{◌≡◌, ◌<◌, slice_index};
ghost use Rattle.uri_pct.specs.Masks.{has_bit};

/// Returns the two words of a set of ASCII, and two empty words for bytes past ASCII.
#[inline]
pub(crate) const fn words(low: u64, high: u64) -> [u64; 4]
    ensures low { slice_index result 0 ≡ low }
    ensures high { slice_index result 1 ≡ high }
    ensures third { slice_index result 2 ≡ 0 }
    ensures fourth { slice_index result 3 ≡ 0 }
{
    [low, high, 0, 0]
}

/// Returns whether the set of these words has the byte. The last two words, past ASCII, are empty.
#[inline]
pub(crate) const fn holds(words: &[u64; 4], byte: u8) -> bool
    requires third { slice_index words.now 2 ≡ 0 }
    requires fourth { slice_index words.now 3 ≡ 0 }
    ensures { result ≡ has_bit (slice_index words.now 0) (slice_index words.now 1) byte }
{
    (words[(byte >> 6) as usize] >> (byte & 63)) & 1 == 1
}

/// Returns whether the set of these two words has the byte, which is ASCII.
#[inline(always)]
pub(crate) fn has(low: u64, high: u64, byte: u8) -> bool
    requires { byte < 128 }
    ensures { result ≡ has_bit low high byte }
{
    let mask = if byte < 64 { low } else { high };
    (mask >> (byte & 63)) & 1 == 1
}
