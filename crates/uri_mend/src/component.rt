//! Components, mended (RFC 3986, sections 2.1 and 2.4).
ghost use Rattle.std.specs.Prelude.{◌≡◌, ◌+◌, ◌-◌, ◌<◌, ◌≤◌, ◌&&◌, ◌||◌, ◌++◌, ℕ, [], IfOk, drop, false, length, map, nat_lt, not, slice_index, take, true, IsCharBoundary};
ghost use Rattle.uri_pct.specs.Prelude.{Octet, allows, has_bit, is_one_of, print, set_of, text_of_token, valid_prefix};
ghost use Rattle.uri_parts.specs.Prelude.{before_any, from_any};
ghost use Rattle.uri_mend.specs.MendedParts.{mended};
ghost use Rattle.uri_mend.specs.Progress.{IsEncodedBetween, IsLackedRun, IsProgress, are_marks, is_never, mended_so_far};

use crate::buffer::{make_room, place_run};
use crate::octets::{place_octet, place_octets};
use std::alloc::AllocError;
use uri_pct::lanes::{LANES, chars_end, run_end};
use uri_pct::table::{Table, characters};
use uri_pct::utf8::char_at;

/// `%` and the ASCII characters that no path, query or fragment may have, but for the `#`.
const NEVER: u128 = !(characters::PATH | characters::QUERY | characters::FRAGMENT | 1 << b'#');

/// The word of `NEVER` for the characters below 64.
const NEVER_LOW: u64 = (NEVER & 0xFFFF_FFFF_FFFF_FFFF) as u64;

/// The word of `NEVER` for the characters from 64 on.
const NEVER_HIGH: u64 = (NEVER >> 64) as u64;

/// How far a text was mended, and how much of this was written.
#[derive(Clone, Copy)]
pub(crate) struct Progress {
    /// Up to where the text was mended.
    pub(crate) end: usize,
    /// Where the run begins that ends there, which is unchanged and yet to be copied.
    pub(crate) run_start: usize,
    /// Where what is written ends in the buffer.
    pub(crate) at: usize,
}

/// Returns where a run of bytes ends that begins at `start`: of `%`, of the ASCII characters that
/// no component may have, and of those past ASCII if the table allows none.
///
/// If the table allows some, a text of less than sixteen bytes is not looked at: the run is empty.
#[inline(always)]
fn never_end(table: &Table, text: &str, start: usize) -> usize
    requires { IsCharBoundary text.now start }
    ensures boundary { IsCharBoundary text.now result }
    ensures from { start ≤ result }
    ensures never { (k : ℕ) → start ≤ k → k < result → is_never (slice_index text.now k) ≡ true }
    ensures past { (k : ℕ) → start ≤ k → k < result → 128 ≤ slice_index text.now k
        → ((set_of table.now).ucschar || (set_of table.now).iprivate) ≡ false }
{
    let bytes = text.as_bytes();
    if !table.allows_some_past_ascii() {
        return chars_end(NEVER_LOW, NEVER_HIGH, bytes, start);
    }
    if bytes.len() < LANES {
        return start;
    }
    run_end(NEVER_LOW, NEVER_HIGH, bytes, start)
}

/// Returns whether a text has a byte at this position that is the code of no character which the
/// table allows.
#[inline(always)]
fn lacks_byte(table: &Table, text: &str, at: usize) -> bool
    ensures { result ≡ (nat_lt at (length text.now)
        && not (allows (set_of table.now) (slice_index text.now at))) }
{
    let bytes = text.as_bytes();
    at < bytes.len() && !table.allows(char::from(bytes[at]))
}

/// Returns where a run of characters ends that begins at `start`, and that the table lacks. A `%`
/// at the end of the run may begin an octet, and is left out.
#[inline(always)]
fn lacked_end(table: &Table, text: &str, start: usize) -> usize
    requires never { (b : ℕ) → has_bit NEVER_LOW NEVER_HIGH b ≡ true
        → (set_of table.now).ascii b ≡ false }
    requires boundary { IsCharBoundary text.now start }
    ensures { IsLackedRun (set_of table.now) text.now start result }
{
    // Most runs are empty, as after the `]` of `[]`, and this costs less than a scan.
    if !lacks_byte(table, text, start) {
        return start;
    }
    let end = never_end(table, text, start);
    if end == start {
        return start;
    }
    let bytes = text.as_bytes();
    if bytes[end - 1] == b'%' {
        return end - 1;
    }
    end
}

/// Writes the character where a scan stopped as octets, and those after it that the table lacks.
///
/// It is a function of its own, since most texts have such characters one by one.
#[inline(never)]
fn encode_run(
    table: &Table,
    text: &str,
    start: usize,
    at: usize,
    out: &mut Vec<u8>,
) -> Result<Progress, AllocError>
    requires octets { (set_of table.now).pct_encoded ≡ true }
    requires never { (b : ℕ) → has_bit NEVER_LOW NEVER_HIGH b ≡ true
        → (set_of table.now).ascii b ≡ false }
    requires boundary { IsCharBoundary text.now start }
    requires inside { start < length text.now }
    requires stop { valid_prefix (set_of table.now) (drop start text.now) ≡ 0 }
    requires written { at ≤ length out.old.items }
    ensures progress { IfOk result (IsProgress text.now out.new.items) }
    ensures goes { IfOk result (λ p. start < p.end) }
    ensures text { IfOk result (λ p. mended_so_far text.now out.new.items p
        ≡ take at out.old.items ++ print (map Octet (take (p.end - start) (drop start text.now)))) }
    ensures encoded { IfOk result (λ p. IsEncodedBetween (set_of table.now) text.now start p.end) }
{
    let next = start + char_at(text, start).len_utf8();
    let end = lacked_end(table, text, next);
    let at = place_octets(&text.as_bytes()[start..end], at, out)?;
    Ok(Progress {
        end,
        run_start: end,
        at,
    })
}

/// Copies the run that is yet to be copied, and writes the byte after it as an octet. Returns the
/// position after it.
#[inline(always)]
fn place_run_and_octet(bytes: &[u8], from: Progress, out: &mut [u8]) -> usize
    requires ordered { from.run_start ≤ from.end }
    requires inside { from.end < length bytes.now }
    requires room { from.at + (from.end - from.run_start) + LANES ≤ length out.old }
    ensures end { result ≡ from.at + (from.end - from.run_start) + 3 }
    ensures text { take result out.new ≡ mended_so_far bytes.now out.old from
        ++ text_of_token (Octet (slice_index bytes.now from.end)) }
{
    let at = place_run(bytes, from.run_start, from.end, from.at, out);
    place_octet(bytes[from.end], at, out)
}

/// Copies the run that is yet to be copied. Returns the position after it.
#[inline(always)]
pub(crate) fn write_run(text: &str, from: Progress, out: &mut Vec<u8>) -> Result<usize, AllocError>
    requires { IsProgress text.now out.old.items from }
    ensures inside { IfOk result (λ at. at ≤ length out.new.items) }
    ensures text { IfOk result (λ at. take at out.new.items
        ≡ mended_so_far text.now out.old.items from) }
{
    let len = from.end - from.run_start;
    make_room(len.saturating_add(LANES), from.at, out)?;
    let bytes = text.as_bytes();
    Ok(place_run(bytes, from.run_start, from.end, from.at, out))
}

/// Copies the run that is yet to be copied, and writes the byte after it as an octet. Returns the
/// position after it.
#[inline(always)]
fn write_run_and_octet(text: &str, from: Progress, out: &mut Vec<u8>) -> Result<usize, AllocError>
    requires progress { IsProgress text.now out.old.items from }
    requires inside { from.end < length text.now }
    ensures inside { IfOk result (λ at. at ≤ length out.new.items) }
    ensures text { IfOk result (λ at. take at out.new.items
        ≡ mended_so_far text.now out.old.items from
        ++ text_of_token (Octet (slice_index text.now from.end))) }
{
    let len = from.end - from.run_start;
    make_room(len.saturating_add(LANES), from.at, out)?;
    Ok(place_run_and_octet(text.as_bytes(), from, out))
}

/// Writes the run that is yet to be copied, and the character after it as octets, where a scan
/// stopped.
#[inline(always)]
fn encode_next(
    table: &Table,
    text: &str,
    from: Progress,
    out: &mut Vec<u8>,
) -> Result<Progress, AllocError>
    requires octets { (set_of table.now).pct_encoded ≡ true }
    requires never { (b : ℕ) → has_bit NEVER_LOW NEVER_HIGH b ≡ true
        → (set_of table.now).ascii b ≡ false }
    requires progress { IsProgress text.now out.old.items from }
    requires inside { from.end < length text.now }
    requires stop { valid_prefix (set_of table.now) (drop from.end text.now) ≡ 0 }
    ensures progress { IfOk result (IsProgress text.now out.new.items) }
    ensures goes { IfOk result (λ p. from.end < p.end) }
    ensures text { IfOk result (λ p. mended_so_far text.now out.new.items p
        ≡ mended_so_far text.now out.old.items from
        ++ print (map Octet (take (p.end - from.end) (drop from.end text.now)))) }
    ensures encoded { IfOk result (λ p.
        IsEncodedBetween (set_of table.now) text.now from.end p.end) }
{
    if from.run_start == from.end || text.as_bytes()[from.end] >= 128 {
        let at = write_run(text, from, out)?;
        return encode_run(table, text, from.end, at, out);
    }
    let at = write_run_and_octet(text, from, out)?;
    let end = from.end + 1;
    Ok(Progress {
        end,
        run_start: end,
        at,
    })
}

/// Returns whether a byte is one of the marks.
#[inline(always)]
fn is_one_of(marks: &[u8], byte: u8) -> bool
    ensures { result ≡ is_one_of marks.now byte }
{
    marks.iter().any(|mark| *mark == byte)
}

/// Returns whether a component ends at this position of a text: the text ends there, or one of the
/// marks is next.
#[inline(always)]
fn is_component_end(marks: &[u8], text: &str, at: usize) -> bool
    requires { at ≤ length text.now }
    ensures before { result ≡ true → before_any marks.now (drop at text.now) ≡ [] }
    ensures from { result ≡ true → from_any marks.now (drop at text.now) ≡ drop at text.now }
    ensures inside { result ≡ false → at < length text.now }
    ensures other { result ≡ false → is_one_of marks.now (slice_index text.now at) ≡ false }
{
    if at == text.len() {
        return true;
    }
    is_one_of(marks, text.as_bytes()[at])
}

/// Mends the component of a text that begins where the text is mended up to, and ends before the
/// first of these marks.
#[inline(always)]
pub(crate) fn mend_component(
    table: &Table,
    marks: &[u8],
    text: &str,
    from: Progress,
    out: &mut Vec<u8>,
) -> Result<Progress, AllocError>
    requires octets { (set_of table.now).pct_encoded ≡ true }
    requires never { (b : ℕ) → has_bit NEVER_LOW NEVER_HIGH b ≡ true
        → (set_of table.now).ascii b ≡ false }
    requires marks { are_marks (set_of table.now) marks.now ≡ true }
    requires progress { IsProgress text.now out.old.items from }
    ensures progress { IfOk result (IsProgress text.now out.new.items) }
    ensures text { IfOk result (λ p. mended_so_far text.now out.new.items p
        ≡ mended_so_far text.now out.old.items from
        ++ mended (set_of table.now) (before_any marks.now (drop from.end text.now))) }
    ensures rest { IfOk result (λ p.
        drop p.end text.now ≡ from_any marks.now (drop from.end text.now)) }
{
    let mut p = from;
    loop {
        p.end = table.scan(text, p.end);
        if is_component_end(marks, text, p.end) {
            return Ok(p);
        }
        p = encode_next(table, text, p, out)?;
    }
}
