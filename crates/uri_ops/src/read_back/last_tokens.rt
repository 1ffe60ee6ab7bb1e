//! The last token of a component, as normalising decodes it (RFC 3986, section 6.2.2.2; RFC 3987,
//! section 5.3.2.3).
ghost use Rattle.std.specs.Prelude.{◌≡◌, ◌≢◌, ◌+◌, ◌≤◌, ◌<◌, ◌∷◌, ℕ, [], MatchOption, length, slice_index, true};
ghost use Rattle.uri_pct.specs.Prelude.{Char, IsValidFor, Octet, percent_sign, set_of, tokens, widest_set};
ghost use Rattle.uri_ops.specs.FromEnd.LastTokens.{AreDecodable, AreNoDecodable, EndInNoOctet, EndsIn, EndsInDecodable, IsAsciiSuffix, TokensEndInNoDecodable};

use std::str;
use uri_pct::octet::octet_value;
use uri_pct::table::Table;
use uri_pct::utf8::char_at;

/// Returns the value of the octet that ends the text, and the text before it, or `None` if no octet
/// ends the text.
pub(crate) fn split_last_octet(text: &str) -> Option<(&str, u8)>
    requires { IsValidFor widest_set text.now }
    ensures { MatchOption result (EndInNoOctet (tokens text.now))
        (λ found. EndsIn text.now found.0.now (Octet found.1 ∷ [])) }
{
    let bytes = text.as_bytes();
    if bytes.len() < 3 {
        return None;
    }
    let start = bytes.len() - 3;
    if bytes[start] != b'%' {
        return None;
    }
    let value = octet_value(bytes[start + 1], bytes[start + 2]);
    Some((&text[..start], value))
}

/// Returns the last character of a text that no octet ends, and the text before it.
pub(crate) fn split_last_char(text: &str) -> (&str, char)
    requires valid { IsValidFor widest_set text.now }
    requires some { 0 < length text.now }
    requires char { EndInNoOctet (tokens text.now) }
    ensures { EndsIn text.now result.0.now (Char result.1 ∷ []) }
{
    let mut chars = text.chars();
    match chars.next_back() {
        Some(ch) => (chars.as_str(), ch),
        None => unreachable!(),
    }
}

/// Returns whether the byte at an index is ASCII, and the second byte before it is not `%`.
#[inline(always)]
fn is_ascii_in_no_octet(bytes: &[u8], at: usize) -> bool
    requires { at < length bytes.now }
    ensures ascii { result ≡ true → slice_index bytes.now at < 128 }
    ensures outside { result ≡ true → (k : ℕ) → k + 2 ≡ at
        → slice_index bytes.now k ≢ percent_sign }
{
    bytes[at].is_ascii() && (at < 2 || bytes[at - 2] != b'%')
}

/// Returns whether so many bytes before `end` are ASCII, and the second byte before each of them is
/// not `%`. No byte ends the loop, so that it becomes vector instructions.
#[inline(always)]
fn is_ascii_run(bytes: &[u8], end: usize, len: usize) -> bool
    requires least { len + 2 ≤ end }
    requires within { end ≤ length bytes.now }
    ensures ascii { result ≡ true → (k : ℕ) → end ≤ k + len → k < end
        → slice_index bytes.now k < 128 }
    ensures outside { result ≡ true → (k : ℕ) → end ≤ k + len + 2 → k + 2 < end
        → slice_index bytes.now k ≢ percent_sign }
{
    let block = &bytes[end - len - 2..end];
    let mut is_run = true;
    for i in 0..len {
        is_run &= (block[i + 2] < 128) & (block[i] != b'%');
    }
    is_run
}

/// From so many bytes on, ASCII is looked for by sixteen bytes at a time.
const LONG: usize = 64;

/// Returns where the ASCII begins, from `least` on, that ends a text and is in no octet.
pub(crate) fn ascii_suffix_start(bytes: &[u8], least: usize) -> usize
    requires { least ≤ length bytes.now }
    ensures suffix { IsAsciiSuffix bytes.now result }
    ensures least { least ≤ result }
{
    let mut start = bytes.len();
    while start - least >= LONG && is_ascii_run(bytes, start, 16) {
        start -= 16;
    }
    while start >= 10 && start - least >= 8 && is_ascii_run(bytes, start, 8) {
        start -= 8;
    }
    while start > least && is_ascii_in_no_octet(bytes, start - 1) {
        start -= 1;
    }
    start
}

/// Returns the decodable character whose UTF-8 the bytes are, if they are that of one.
fn decodable(table: &Table, bytes: &[u8]) -> Option<char>
    ensures { MatchOption result (AreNoDecodable (set_of table.now) bytes.now)
        (AreDecodable (set_of table.now) bytes.now) }
{
    let Ok(text) = str::from_utf8(bytes) else {
        return None;
    };
    if text.is_empty() {
        return None;
    }
    let ch = char_at(text, 0);
    if ch.len_utf8() == bytes.len() && table.decodable().allows(ch) {
        Some(ch)
    } else {
        None
    }
}

/// The most bytes that a character has in UTF-8.
const MOST_BYTES: usize = 4;

/// Returns the decodable character whose octets end the text, and the text before them, or `None`
/// if no such octets end the text.
pub(crate) fn split_last_decodable<'a>(table: &Table, text: &'a str) -> Option<(&'a str, char)>
    requires { IsValidFor widest_set text.now }
    ensures { MatchOption result (TokensEndInNoDecodable (set_of table.now) (tokens text.now))
        (λ found. EndsInDecodable (set_of table.now) text.now found.0.now found.1) }
{
    let mut bytes = [0; MOST_BYTES];
    let mut start = MOST_BYTES;
    let mut before = text;
    while start > 0 {
        let Some((rest, value)) = split_last_octet(before) else {
            return None;
        };
        before = rest;
        start -= 1;
        bytes[start] = value;
        if let Some(ch) = decodable(table, &bytes[start..]) {
            return Some((before, ch));
        }
    }
    None
}
