//! How a text begins that is parsed: its scheme, and the `://` after it.
ghost use Rattle.std.specs.Prelude.{◌≡◌, ◌+◌, ◌&&◌, IfSome, drop, slice_index, true, IsTrue, if◌then◌else◌, IsCharBoundary};
ghost use Rattle.std.specs.Char.{is_ascii_alphabetic};
ghost use Rattle.uri_pct.specs.Prelude.{after, colon, scheme_set, valid_prefix};
ghost use Rattle.uri_parts.specs.Components.{starts, has_authority};
ghost use Rattle.uri_parts.specs.Models.Cursors.{text_after_cursor, cursor_text, cursor_position};

use crate::cursor::Cursor;
use uri_pct::lanes::LANES;
use uri_pct::table::SCHEME;

/// Returns whether four bytes are the same as the others. They are compared as one number.
#[inline(always)]
fn are_same(four: [u8; 4], others: [u8; 4]) -> bool
    ensures first { IsTrue result → slice_index four 0 ≡ slice_index others 0 }
    ensures second { IsTrue result → slice_index four 1 ≡ slice_index others 1 }
    ensures third { IsTrue result → slice_index four 2 ≡ slice_index others 2 }
    ensures last { IsTrue result → slice_index four 3 ≡ slice_index others 3 }
{
    u32::from_le_bytes(four) == u32::from_le_bytes(others)
}

/// Returns whether the first three of four bytes are the same as the others, of which the last is
/// 0. They are compared as one number.
#[inline(always)]
fn begin_same(four: [u8; 4], others: [u8; 4]) -> bool
    ensures first { IsTrue result → slice_index four 0 ≡ slice_index others 0 }
    ensures second { IsTrue result → slice_index four 1 ≡ slice_index others 1 }
    ensures third { IsTrue result → slice_index four 2 ≡ slice_index others 2 }
{
    u32::from_le_bytes(four) % 0x100_0000 == u32::from_le_bytes(others)
}

/// Returns where the scheme ends in a text that begins with `http://` or `https://`. Most texts do
/// in lower case, and these need no scan. It is `None` for any other text, and for a short one.
#[tactic(auto, using(crate::proofs::Steps::web_schemes))]
#[inline(always)]
fn web_scheme_end(text: &str) -> Option<usize>
    ensures end { IfSome result (λ end. end ≡ valid_prefix scheme_set text.now) }
    ensures letter { IfSome result (λ _. is_ascii_alphabetic (slice_index text.now 0) ≡ true) }
    ensures colon { IfSome result (λ end. starts colon (drop end text.now) ≡ true) }
    ensures slashes { IfSome result (λ end. has_authority (drop 1 (drop end text.now)) ≡ true) }
    ensures boundary { IfSome result (λ end. IsCharBoundary text.now (end + 3)) }
{
    let bytes = text.as_bytes();
    if bytes.len() < LANES || !are_same([bytes[0], bytes[1], bytes[2], bytes[3]], *b"http") {
        return None;
    }
    let next = [bytes[4], bytes[5], bytes[6], bytes[7]];
    if are_same(next, *b"s://") {
        return Some(5);
    }
    if begin_same(next, *b"://\0") {
        return Some(4);
    }
    None
}

/// How a text begins: with what may be a scheme, and what follows it.
#[derive(Clone, Copy)]
pub(crate) struct SchemePrefix {
    /// Where the characters end that may be in a scheme.
    pub end: usize,
    /// Whether `:` follows them.
    pub has_colon: bool,
    /// Whether they begin with a letter, and `:` follows them.
    pub is_scheme: bool,
    /// Whether they begin with a letter, and `://` follows them.
    pub has_authority: bool,
}

/// Passes what may be a scheme at the beginning of a text, and the `:` after it. If it is a scheme,
/// the `//` after the `:` is passed too.
#[tactic(auto, using(crate::proofs::Steps::schemes, crate::proofs::Steps::letters))]
#[inline(always)]
pub(crate) fn pass_scheme(cursor: &mut Cursor<'_>) -> SchemePrefix
    requires { cursor_position cursor.old ≡ 0 }
    ensures end { result.end ≡ valid_prefix scheme_set (cursor_text cursor.old) }
    ensures colon { result.has_colon ≡ starts colon (after scheme_set (cursor_text cursor.old)) }
    ensures scheme { result.is_scheme
        ≡ (result.has_colon && is_ascii_alphabetic (slice_index (cursor_text cursor.old) 0)) }
    ensures authority { let text = cursor_text cursor.old in result.has_authority
        ≡ (result.has_colon && (is_ascii_alphabetic (slice_index text 0)
        && has_authority (drop 1 (after scheme_set text)))) }
    ensures text { cursor_text cursor.new ≡ cursor_text cursor.old }
    ensures place { cursor_position cursor.new ≡ (if result.has_authority then result.end + 1 + 2
        else (if result.has_colon then result.end + 1 else result.end)) }
    ensures rest { let rest = after scheme_set (cursor_text cursor.old) in
        text_after_cursor cursor.new ≡ (if result.has_authority then drop 2 (drop 1 rest)
        else (if result.has_colon then drop 1 rest else rest)) }
{
    let text = cursor.text();
    if let Some(end) = web_scheme_end(text) {
        *cursor = Cursor::at(text, end + 3);
        return SchemePrefix {
            end,
            has_colon: true,
            is_scheme: true,
            has_authority: true,
        };
    }
    let end = cursor.scan(&SCHEME);
    if !cursor.skip(b':') {
        return SchemePrefix {
            end,
            has_colon: false,
            is_scheme: false,
            has_authority: false,
        };
    }
    // The first byte is `:` or may be in a scheme. Of these bytes, only letters are from `A` on.
    let is_scheme = text.as_bytes()[0] >= b'A';
    SchemePrefix {
        end,
        has_colon: true,
        is_scheme,
        has_authority: is_scheme && cursor.skip_slashes(),
    }
}
