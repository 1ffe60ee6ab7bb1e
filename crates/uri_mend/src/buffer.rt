//! Bytes that are written to positions of a buffer.
ghost use Rattle.std.specs.Prelude.{◌≡◌, ◌+◌, ◌-◌, ◌≤◌, ◌++◌, OnOk, drop, length, take};

use std::alloc::AllocError;
use std::simd::prelude::*;
use uri_pct::lanes::LANES;

/// Grows a buffer to twice its length, and to what is needed for so many bytes from a position on.
/// What is before the position is unchanged.
#[inline(never)]
fn grow(additional: usize, at: usize, out: &mut Vec<u8>) -> Result<(), AllocError>
    requires inside { at ≤ length out.old.items }
    requires full { length out.old.items - at ≤ additional }
    ensures room { OnOk result (at + additional ≤ length out.new.items) }
    ensures unchanged { OnOk result (take at out.new.items ≡ take at out.old.items) }
{
    let Some(end) = at.checked_add(additional) else {
        return Err(AllocError);
    };
    out.resize(end.max(out.len().saturating_mul(2)), 0)
}

/// Makes room in a buffer for so many bytes from a position on. What is before it is unchanged.
#[inline(always)]
pub(crate) fn make_room(additional: usize, at: usize, out: &mut Vec<u8>) -> Result<(), AllocError>
    requires { at ≤ length out.old.items }
    ensures room { OnOk result (at + additional ≤ length out.new.items) }
    ensures unchanged { OnOk result (take at out.new.items ≡ take at out.old.items) }
{
    if out.len() - at >= additional {
        return Ok(());
    }
    grow(additional, at, out)
}

/// Copies so many of the sixteen bytes from a position on to a position of a buffer, in which those
/// after them may change. Returns the position after them.
#[inline(always)]
fn place_lanes(bytes: &[u8], start: usize, len: usize, at: usize, out: &mut [u8]) -> usize
    requires few { len ≤ LANES }
    requires inside { start + LANES ≤ length bytes.now }
    requires room { at + LANES ≤ length out.old }
    ensures end { result ≡ at + len }
    ensures text { take result out.new ≡ take at out.old ++ take len (drop start bytes.now) }
{
    u8x16::from_slice(&bytes[start..]).copy_to_slice(&mut out[at..]);
    at + len
}

/// Copies the bytes between two positions to a position of a buffer, in which sixteen bytes more
/// may change. Returns the position after them.
///
/// Most runs are short, and a copy of sixteen bytes is two instructions. Up to twice as many are
/// copied as the first sixteen and the last.
#[inline(always)]
pub(crate) fn place_run(bytes: &[u8], start: usize, end: usize, at: usize, out: &mut [u8]) -> usize
    requires ordered { start ≤ end }
    requires inside { end ≤ length bytes.now }
    requires room { at + (end - start) + LANES ≤ length out.old }
    ensures end { result ≡ at + (end - start) }
    ensures text { take result out.new
        ≡ take at out.old ++ take (end - start) (drop start bytes.now) }
{
    let len = end - start;
    if len <= LANES {
        if bytes.len() - start >= LANES {
            return place_lanes(bytes, start, len, at, out);
        }
    } else if len <= 2 * LANES {
        let last = place_lanes(bytes, start, len - LANES, at, out);
        return place_lanes(bytes, end - LANES, LANES, last, out);
    }
    out[at..at + len].copy_from_slice(&bytes[start..end]);
    at + len
}
