//! Long runs of octets of unreserved characters, decoded sixteen at a time (RFC 3986, section
//! 6.2.2.2).
ghost use Rattle.std.specs.Prelude.{◌≡◌, ◌≤◌, ◌+◌, ◌*◌, ◌++◌, IfOk, drop, length, string_bytes, take, IsAscii, IsCharBoundary};
ghost use Rattle.uri_pct.specs.Prelude.{IsValidFor, TableSet, widest_set};
ghost use Rattle.uri_ops.specs.Models.Decodings.{decoded_text};

use crate::normalize::literal_runs::push_short_str;
use crate::normalize::octets::{octet_digits, push_unreserved, unreserved_of_octet};
use std::alloc::AllocError;

/// How many octets a block has.
const BLOCK: usize = 16;

/// How many bytes the octets of a block take.
const BLOCK_LEN: usize = 3 * BLOCK;

/// Decodes the octets of unreserved characters from `start` on, sixteen at most, with letters
/// lowered if `lowers`. Their characters are put into `block`. Returns how many they are.
#[inline(always)]
fn decode_block(lowers: bool, text: &str, start: usize, block: &mut [u8; BLOCK]) -> usize
    requires long { start + 48 ≤ length text.now }
    requires boundary { IsCharBoundary text.now start }
    requires valid { IsValidFor widest_set (drop start text.now) }
    ensures few { result ≤ 16 }
    ensures ascii { IsAscii (take result block.new) }
    ensures boundary { IsCharBoundary text.now (start + 3 * result) }
    ensures valid { IsValidFor widest_set (drop (start + 3 * result) text.now) }
    ensures decoded { (set : TableSet)
        → take result block.new ++ decoded_text lowers set (drop (start + 3 * result) text.now)
        ≡ decoded_text lowers set (drop start text.now) }
{
    let bytes = text.as_bytes();
    let mut count = 0;
    let mut end = start;
    while count < BLOCK && bytes[end] == b'%' {
        let (high, low) = octet_digits(text, end);
        let Some(ch) = unreserved_of_octet(lowers, high, low) else {
            break;
        };
        block[count] = ch;
        count += 1;
        end += 3;
    }
    count
}

/// Appends the characters of the unreserved octets from `start` on, block by block, with letters
/// lowered if `lowers`, and returns the position after the last.
///
/// It is a function of its own, since few texts have a run of such octets.
#[inline(never)]
fn push_blocks(
    lowers: bool,
    text: &str,
    start: usize,
    out: &mut String,
) -> Result<usize, AllocError>
    requires boundary { IsCharBoundary text.now start }
    requires valid { IsValidFor widest_set (drop start text.now) }
    ensures text { (set : TableSet) → IfOk result (λ end.
        string_bytes out.new ++ decoded_text lowers set (drop end text.now)
        ≡ string_bytes out.old ++ decoded_text lowers set (drop start text.now)) }
    ensures from { IfOk result (λ end. start ≤ end) }
    ensures boundary { IfOk result (IsCharBoundary text.now) }
    ensures valid { IfOk result (λ end. IsValidFor widest_set (drop end text.now)) }
{
    let mut end = start;
    while text.len() - end >= BLOCK_LEN {
        let mut block = [0; BLOCK];
        let count = decode_block(lowers, text, end, &mut block);
        push_short_str(unsafe { str::from_utf8_unchecked(&block[..count]) }, out)?;
        end += 3 * count;
        if count < BLOCK {
            return Ok(end);
        }
    }
    Ok(end)
}

/// Appends the characters of the unreserved octets from `start` on, with letters lowered if
/// `lowers`, and returns the position after the last. It goes on by blocks after as many octets as
/// a block has: if a run is short, a block does not pay.
#[inline(always)]
pub(crate) fn push_unreserved_run(
    lowers: bool,
    text: &str,
    start: usize,
    out: &mut String,
) -> Result<usize, AllocError>
    requires boundary { IsCharBoundary text.now start }
    requires valid { IsValidFor widest_set (drop start text.now) }
    ensures text { (set : TableSet) → IfOk result (λ end.
        string_bytes out.new ++ decoded_text lowers set (drop end text.now)
        ≡ string_bytes out.old ++ decoded_text lowers set (drop start text.now)) }
    ensures from { IfOk result (λ end. start ≤ end) }
    ensures boundary { IfOk result (IsCharBoundary text.now) }
    ensures valid { IfOk result (λ end. IsValidFor widest_set (drop end text.now)) }
{
    let bytes = text.as_bytes();
    let mut end = start;
    let mut left = BLOCK;
    while end < bytes.len() && bytes[end] == b'%' {
        let (high, low) = octet_digits(text, end);
        let Some(ch) = unreserved_of_octet(lowers, high, low) else {
            break;
        };
        if left == 0 {
            return push_blocks(lowers, text, end, out);
        }
        push_unreserved(ch, out)?;
        end += 3;
        left -= 1;
    }
    Ok(end)
}
