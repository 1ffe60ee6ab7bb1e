//! Bytes that are ASCII, in blocks.
ghost use Rattle.std.specs.Prelude.{◌+◌, ◌<◌, ◌≤◌, ℕ, IsTrue, length, slice_index, IsAscii};

use std::simd::prelude::*;

/// How many bytes are in a block.
const LANES: usize = 32;

/// How many bytes are in half a block.
const HALF: usize = 16;

/// How many bytes are in a word.
const WORD: usize = 4;

/// Returns whether the block of 32 bytes from `at` on, of a text that C hands over, is ASCII.
#[inline(always)]
fn is_ascii_block(bytes: &[u8], at: usize) -> bool
    requires { at + LANES ≤ length bytes.now }
    ensures { IsTrue result
        → (k : ℕ) → at ≤ k → k < at + LANES → slice_index bytes.now k < 128 }
{
    let block = u8x32::from_slice(&bytes[at..]);
    block.simd_ge(u8x32::splat(128)).to_bitmask() == 0
}

/// Returns whether the sixteen bytes from `at` on, of a text that C hands over, are ASCII.
#[inline(always)]
fn is_ascii_half(bytes: &[u8], at: usize) -> bool
    requires { at + HALF ≤ length bytes.now }
    ensures { IsTrue result
        → (k : ℕ) → at ≤ k → k < at + HALF → slice_index bytes.now k < 128 }
{
    let half = u8x16::from_slice(&bytes[at..]);
    half.simd_ge(u8x16::splat(128)).to_bitmask() == 0
}

/// Returns whether the four bytes from `at` on, of a text that C hands over, are ASCII.
#[inline(always)]
fn is_ascii_word(bytes: &[u8], at: usize) -> bool
    requires { at + WORD ≤ length bytes.now }
    ensures { IsTrue result
        → (k : ℕ) → at ≤ k → k < at + WORD → slice_index bytes.now k < 128 }
{
    let word = u8x4::from_slice(&bytes[at..]);
    word.simd_ge(u8x4::splat(128)).to_bitmask() == 0
}

/// Returns whether bytes that C hands over, which may be too few for a block, are ASCII. The last
/// word may overlap the one before.
#[inline(never)]
fn is_short_ascii(bytes: &[u8]) -> bool
    ensures { IsTrue result → IsAscii bytes.now }
{
    if bytes.len() < WORD {
        return bytes.is_ascii();
    }
    if bytes.len() >= HALF && bytes.len() <= LANES {
        return is_ascii_half(bytes, 0) && is_ascii_half(bytes, bytes.len() - HALF);
    }
    let last = bytes.len() - WORD;
    let mut at = 0;
    while at < last {
        if !is_ascii_word(bytes, at) {
            return false;
        }
        at += WORD;
    }
    is_ascii_word(bytes, last)
}

/// Returns whether the bytes that C hands over are ASCII. The last block may overlap the one
/// before.
#[inline(always)]
pub fn is_ascii(bytes: &[u8]) -> bool
    ensures { IsTrue result → IsAscii bytes.now }
{
    if bytes.len() < LANES {
        return is_short_ascii(bytes);
    }
    let last = bytes.len() - LANES;
    let mut at = 0;
    while at < last {
        if !is_ascii_block(bytes, at) {
            return false;
        }
        at += LANES;
    }
    is_ascii_block(bytes, last)
}
