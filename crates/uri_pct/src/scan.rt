//! How far a table allows a text.
ghost use Rattle.std.specs.Prelude.{◌≡◌, ◌<◌, ◌≤◌, ◌+◌, IsTrue, false, true, length, drop, slice_index, IsCharBoundary};
ghost use Rattle.uri_pct.specs.Delimiters.{percent_sign};
ghost use Rattle.uri_pct.specs.Masks.{has_bit as has_bit_of, has_bit};
ghost use Rattle.uri_pct.specs.Models.ByteRuns.{IsLongestRun, is_char_byte};
ghost use Rattle.uri_pct.specs.Prefixes.{valid_prefix};
ghost use Rattle.uri_pct.specs.Texts.{has_hex_digits_after};
ghost use Rattle.uri_pct.specs.Tables.{set_of as set_of_table, set_of};
ghost use Rattle.uri_pct.specs.Tokens.{is_valid_for};

use crate::encoded_runs::encoded_run_end;
use crate::lanes::{LANES, SWIZZLES, chars_end, first_run_end, run_end};
use crate::masks::has;
use crate::table::Table;
use crate::table::members::{run_end_by_members, run_end_by_words};
use crate::utf8::char_at;

/// Returns whether a scan finds the two hexadecimal digits of a `%XX` after the byte at `index`.
#[tactic(auto, unfolding(crate::specs::Texts::has_hex_digits_after))]
fn has_octet_digits(bytes: &[u8], index: usize) -> bool
    requires { index < length bytes.now }
    ensures value { result ≡ has_hex_digits_after bytes.now index }
    ensures within { IsTrue result → index + 2 < length bytes.now }
{
    bytes.len() - index > 2
        && bytes[index + 1].is_ascii_hexdigit()
        && bytes[index + 2].is_ascii_hexdigit()
}

/// Returns where the longest run of bytes ends that begins at `start` and of which each is in the
/// set or is a part of one of the characters from U+00C0 to U+D7FF. It calls no other function, so
/// it saves few registers.
#[inline(never)]
fn char_run_end(start: usize, text: &str, low: u64, high: u64) -> usize
    requires { start ≤ length text.now }
    ensures { IsLongestRun (is_char_byte (has_bit_of low high)) text.now start result }
{
    chars_end(low, high, text.as_bytes(), start)
}

/// Returns where the run of characters of ASCII and from U+00C0 to U+D7FF ends that begins with the
/// one past ASCII at `start`, of those that the table allows. It is `start` for another one.
#[inline(always)]
fn pass_chars(table: &Table, text: &str, start: usize) -> usize
    requires here { IsCharBoundary text.now start }
    requires inside { start < length text.now }
    requires past { 128 ≤ slice_index text.now start }
    ensures total { result + valid_prefix (set_of_table table.now) (drop result text.now)
        ≡ start + valid_prefix (set_of_table table.now) (drop start text.now) }
    ensures boundary { IsCharBoundary text.now result }
    ensures stop { result < length text.now → slice_index text.now result < 128
        → (slice_index text.now result ≡ percent_sign → ⊥)
        → valid_prefix (set_of_table table.now) (drop result text.now) ≡ 0 }
{
    let bytes = text.as_bytes();
    if !table.allows_lead(bytes[start]) {
        return start;
    }
    let (low, high) = table.masks();
    char_run_end(start, text, low, high)
}

impl Table {
    /// Returns where the run of ASCII characters ends that begins at `start` and that the table
    /// allows, both as byte offsets. It is faster in a short text if the table is a constant.
    #[inline(always)]
    pub(crate) fn pass_ascii(&self, text: &str, start: usize, is_constant: bool) -> usize
        requires { IsCharBoundary text.now start }
        ensures total { result + valid_prefix (set_of self.now) (drop result text.now)
            ≡ start + valid_prefix (set_of self.now) (drop start text.now) }
        ensures from { start ≤ result }
        ensures boundary { IsCharBoundary text.now result }
        ensures stop { result < length text.now → (set_of self.now).ascii
            (slice_index text.now result) ≡ false }
    {
        let (low, high) = self.masks();
        let bytes = text.as_bytes();
        if bytes.len() >= LANES && SWIZZLES {
            run_end(low, high, bytes, start)
        } else if is_constant {
            run_end_by_members(low, high, bytes, start)
        } else {
            run_end_by_words(low, high, bytes, start)
        }
    }

    /// Returns where the characters of ASCII and the octets end that are found in blocks of sixteen
    /// bytes. It looks at the two bytes before each block, and finds none in a short text.
    #[inline(always)]
    fn pass_blocks(&self, text: &str, start: usize) -> usize
        requires octets { (set_of self.now).pct_encoded ≡ true }
        requires here { IsCharBoundary text.now start }
        ensures total { result + valid_prefix (set_of self.now) (drop result text.now)
            ≡ start + valid_prefix (set_of self.now) (drop start text.now) }
        ensures from { start ≤ result }
        ensures boundary { IsCharBoundary text.now result }
    {
        let bytes = text.as_bytes();
        if start < 2 || bytes.len() < LANES + 2 || !SWIZZLES {
            return start;
        }
        encoded_run_end(self, bytes, start)
    }

    // The table is last: LLVM passes its masks in registers, and so leaves the text in those that
    // a parser has it in.
    /// Returns where the characters of ASCII and the octets end that begin at `start`. The table
    /// allows octets.
    #[inline(never)]
    fn scan_octets(start: usize, text: &str, table: &Table) -> usize
        requires octets { (set_of table.now).pct_encoded ≡ true }
        requires here { IsCharBoundary text.now start }
        ensures total { result + valid_prefix (set_of table.now) (drop result text.now)
            ≡ start + valid_prefix (set_of table.now) (drop start text.now) }
        ensures from { start ≤ result }
        ensures boundary { IsCharBoundary text.now result }
        ensures stop { result < length text.now → slice_index text.now result < 128
            → valid_prefix (set_of table.now) (drop result text.now) ≡ 0 }
    {
        let (low, high) = table.masks();
        let bytes = text.as_bytes();
        let mut i = table.pass_blocks(text, start);
        while i < bytes.len() {
            let byte = bytes[i];
            if byte == b'%' {
                if !has_octet_digits(bytes, i) {
                    break;
                }
                i += 3;
            } else {
                if byte >= 128 || !has(low, high, byte) {
                    break;
                }
                i += 1;
            }
        }
        i
    }

    /// Returns where the run of ASCII characters ends that begins at `start`, where a character
    /// past ASCII is often next: that is looked at first.
    #[inline(always)]
    fn pass_ascii_run(&self, text: &str, start: usize) -> usize
        requires { IsCharBoundary text.now start }
        ensures total { result + valid_prefix (set_of self.now) (drop result text.now)
            ≡ start + valid_prefix (set_of self.now) (drop start text.now) }
        ensures from { start ≤ result }
        ensures boundary { IsCharBoundary text.now result }
    {
        let bytes = text.as_bytes();
        if start < bytes.len() && bytes[start] >= 128 {
            return start;
        }
        self.pass_ascii(text, start, false)
    }

    /// Returns where the characters of ASCII and the octets end that begin at `start`, of those
    /// that the table allows. In most texts the first block shows it.
    #[inline(always)]
    fn pass_encoded(&self, text: &str, start: usize) -> usize
        requires { IsCharBoundary text.now start }
        ensures total { result + valid_prefix (set_of self.now) (drop result text.now)
            ≡ start + valid_prefix (set_of self.now) (drop start text.now) }
        ensures from { start ≤ result }
        ensures boundary { IsCharBoundary text.now result }
        ensures stop { result < length text.now → slice_index text.now result < 128
            → valid_prefix (set_of self.now) (drop result text.now) ≡ 0 }
    {
        let bytes = text.as_bytes();
        if bytes.len() < LANES || !SWIZZLES {
            let i = self.pass_ascii(text, start, true);
            if i == bytes.len() || bytes[i] != b'%' || !self.allows_pct_encoded() {
                return i;
            }
            return Table::scan_octets(i, text, self);
        }
        let (low, high) = self.masks();
        let (end, is_end) = first_run_end(low, high, self.allows_pct_encoded(), bytes, start);
        if is_end {
            return end;
        }
        Table::scan_octets(end, text, self)
    }

    /// Returns how many bytes a scan passes for the character past ASCII
    /// at `index`: its length, or 0 where the table does not allow it.
    #[inline(always)]
    fn past_ascii_len(&self, text: &str, index: usize) -> usize
        requires here { IsCharBoundary text.now index }
        requires inside { index < length text.now }
        requires past { 128 ≤ slice_index text.now index }
        ensures boundary { IsCharBoundary text.now (index + result) }
        ensures allowed { 0 < result → valid_prefix (set_of self.now) (drop index text.now)
            ≡ valid_prefix (set_of self.now) (drop (index + result) text.now) + result }
        ensures refused { result ≡ 0 → valid_prefix (set_of self.now) (drop index text.now) ≡ 0 }
    {
        let ch = char_at(text, index);
        if !self.allows_past_ascii(ch) {
            return 0;
        }
        ch.len_utf8()
    }

    /// Returns where a run of octets ends, of characters of ASCII, or of others, whichever is next,
    /// or `start` where the table allows nothing there.
    #[inline(always)]
    fn pass_next_run(&self, text: &str, start: usize) -> usize
        requires here { IsCharBoundary text.now start }
        requires inside { start < length text.now }
        ensures total { result + valid_prefix (set_of self.now) (drop result text.now)
            ≡ start + valid_prefix (set_of self.now) (drop start text.now) }
        ensures from { start ≤ result }
        ensures boundary { IsCharBoundary text.now result }
        ensures stop { result ≡ start → valid_prefix (set_of self.now) (drop start text.now) ≡ 0 }
    {
        let (low, high) = self.masks();
        let bytes = text.as_bytes();
        let byte = bytes[start];
        if byte == b'%' {
            if !self.allows_pct_encoded() {
                return start;
            }
            return Table::scan_octets(start, text, self);
        }
        if byte < 128 {
            if !has(low, high, byte) {
                return start;
            }
            return self.pass_ascii_run(text, start + 1);
        }
        if self.allows_lead(byte) {
            return chars_end(low, high, bytes, start);
        }
        start + self.past_ascii_len(text, start)
    }

    /// Returns the end of the longest substring that begins at `start` and that the table allows,
    /// both as byte offsets.
    ///
    /// Most such substrings are ASCII characters and a few octets; they are scanned without a call.
    #[inline(always)]
    #[doc(hidden)]
    pub fn scan(&self, text: &str, start: usize) -> usize
        requires { IsCharBoundary text.now start }
        ensures end { result ≡ start + valid_prefix (set_of self.now) (drop start text.now) }
        ensures boundary { IsCharBoundary text.now result }
    {
        let bytes = text.as_bytes();
        if start >= bytes.len() {
            return start;
        }
        let end = self.pass_encoded(text, start);
        if !self.allows_some_past_ascii() || end == bytes.len() || bytes[end] < 128 {
            return end;
        }
        let run_end = pass_chars(self, text, end);
        if run_end == bytes.len() || bytes[run_end] < 128 && bytes[run_end] != b'%' {
            return run_end;
        }
        let (low, high, pct_encoded, ucschar, iprivate) = self.parts();
        Table::scan_mixed_runs(run_end, text, low, high, pct_encoded, ucschar, iprivate)
    }

    // The parts of a table are in registers; a table would be written to memory by each parse.
    /// Returns the end of the longest substring that begins at `start` and that the table of these
    /// parts allows, whatever characters and octets it has.
    #[inline(never)]
    fn scan_mixed_runs(
        start: usize,
        text: &str,
        low: u64,
        high: u64,
        pct_encoded: bool,
        ucschar: bool,
        iprivate: bool,
    ) -> usize
        requires percent { has_bit low high 37 ≡ false }
        requires here { IsCharBoundary text.now start }
        ensures end { result ≡ start + valid_prefix (record {
          ascii = has_bit low high;
          pct_encoded = pct_encoded;
          ucschar = ucschar;
          iprivate = iprivate;
        }) (drop start text.now) }
        ensures boundary { IsCharBoundary text.now result }
    {
        let table = Table::of_parts(low, high, pct_encoded, ucschar, iprivate);
        let bytes = text.as_bytes();
        let mut i = start;
        while i < bytes.len() {
            let end = table.pass_next_run(text, i);
            if end == i {
                break;
            }
            i = end;
        }
        i
    }

    /// Returns whether a scan passes the whole text:
    /// the table allows each character and octet of it.
    #[tactic(auto, using(crate::proofs::ValidTexts::Cuts::scan_of_table_decides))]
    #[doc(hidden)]
    pub fn allows_text(&self, text: &str) -> bool
        ensures { result ≡ is_valid_for (set_of self.now) text.now }
    {
        self.scan(text, 0) == text.len()
    }
}
