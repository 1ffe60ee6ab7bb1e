//! A position in a text.
ghost use Rattle.std.specs.Prelude.{◌≡◌, ◌<◌, ◌+◌, ◌==◌, ℕ, Ok, drop, codes, OnOk, IfErr, IfOk, IsTrue, false, if◌then◌else◌, ⊤, IsCharBoundary};
ghost use Rattle.std.specs.Result.{result_err};
ghost use Rattle.uri_pct.specs.Prelude.{after, set_of, valid_prefix};
ghost use Rattle.uri_parts.specs.Models.AuthorityParsing.{is_empty_or_begins_with_any};
ghost use Rattle.uri_parts.specs.Components.{starts, has_authority, is_end};
ghost use Rattle.uri_parts.specs.Errors.{unexpected, IsErrorIn};
ghost use Rattle.uri_parts.specs.Grammar.{first_segment_set};
ghost use Rattle.uri_parts.specs.Scanning.{scan};

use crate::error::{ParseError, ParseErrorKind};
use crate::kind::Kind;
use std::alloc::AllocError;
use uri_pct::table::Table;

/// A position in a text, which goes from left to right.
pub struct Cursor<'a> {
    text: &'a str,
    position: usize,
    ghost boundary: { IsCharBoundary text.now position },
}

impl<'a> Clone for Cursor<'a> {
    ghost is_clone = { λ value copy. copy ≡ value };

    ghost is_infallible = { λ _. ⊤ };

    /// Returns a cursor at the same position in the same text.
    fn clone(&self) -> Result<Self, AllocError> {
        Ok(*self)
    }
}

impl<'a> Copy for Cursor<'a> {}

impl<'a> Cursor<'a> {
    ghost use Rattle.uri_parts.specs.Models.Cursors.{text_after_cursor, cursor_text, cursor_position};

    /// Returns a cursor at the beginning of the text.
    #[inline]
    pub fn new(text: &'a str) -> Self
        ensures text { cursor_text result ≡ text.now }
        ensures place { cursor_position result ≡ 0 }
        ensures rest { text_after_cursor result ≡ text.now }
    {
        Cursor { text, position: 0 }
    }

    /// Returns a cursor in the text at a position.
    #[inline]
    pub fn at(text: &'a str, position: usize) -> Self
        requires { IsCharBoundary text.now position }
        ensures text { cursor_text result ≡ text.now }
        ensures place { cursor_position result ≡ position }
        ensures rest { text_after_cursor result ≡ drop position text.now }
    {
        Cursor { text, position }
    }

    /// Returns the whole text of the cursor, what was passed of it too.
    #[inline]
    pub fn text(&self) -> &'a str
        ensures { result.now ≡ cursor_text self.now }
    {
        self.text
    }

    /// Returns how many bytes were passed.
    #[inline]
    pub fn position(&self) -> usize
        ensures place { result ≡ cursor_position self.now }
        ensures boundary { IsCharBoundary (cursor_text self.now) result }
    {
        self.position
    }

    /// Passes the longest prefix of the rest that the table allows, and returns where it ends.
    #[inline(always)]
    pub fn scan(&mut self, table: &Table) -> usize
        ensures end { result ≡ cursor_position self.new }
        ensures text { cursor_text self.new ≡ cursor_text self.old }
        ensures place { cursor_position self.new
            ≡ cursor_position self.old + valid_prefix (set_of table.now)
            (text_after_cursor self.old) }
        ensures rest { text_after_cursor self.new
            ≡ after (set_of table.now) (text_after_cursor self.old) }
    {
        self.position = table.scan(self.text, self.position);
        self.position
    }

    /// Returns whether one of `/?#` is next, or nothing is left. These may follow an authority.
    #[tactic(auto, using(crate::proofs::Steps::marks))]
    #[inline]
    pub fn ends_authority(&self) -> bool
        ensures { result ≡ is_empty_or_begins_with_any (codes "/?#") (text_after_cursor self.now) }
    {
        match self.text.as_bytes().get(self.position) {
            Some(byte) => matches!(byte, b'/' | b'?' | b'#'),
            None => true,
        }
    }

    /// Passes the longest prefix of the rest that the table allows, and returns where it ends. If
    /// the table allows percent-encoded octets, it returns an error for a `%` after the prefix that
    /// begins none.
    #[tactic(auto, using(crate::proofs::Steps::strays))]
    #[inline(always)]
    pub fn pass(&mut self, table: &Table) -> Result<usize, ParseError>
        ensures end { IfOk result (λ end. end ≡ cursor_position self.new) }
        ensures text { cursor_text self.new ≡ cursor_text self.old }
        ensures place { OnOk result
            (cursor_position self.new ≡ cursor_position self.old + valid_prefix (set_of table.now)
            (text_after_cursor self.old)) }
        ensures rest { OnOk result
            (text_after_cursor self.new ≡ after (set_of table.now) (text_after_cursor self.old)) }
        ensures refused { result_err result ≡ result_err
            (scan (cursor_text self.old) (set_of table.now) (cursor_position self.old)) }
        ensures err { IfErr result (IsErrorIn (cursor_text self.old)) }
    {
        let end = table.scan(self.text, self.position);
        let bytes = self.text.as_bytes();
        if table.allows_pct_encoded() && end < bytes.len() && bytes[end] == b'%' {
            return Err(ParseError::new(end, ParseErrorKind::InvalidPctEncodedOctet));
        }
        self.position = end;
        Ok(end)
    }

    /// Returns whether what is next is in no component of the kind, and is no delimiter: a control
    /// character or a space, or a character past ASCII in a URI.
    #[tactic(auto, using(crate::proofs::Steps::next_bytes))]
    #[inline(always)]
    pub(crate) fn is_before_excluded<K: Kind>(&self) -> bool
        ensures userinfo { let i = cursor_position self.now in IsTrue result
            → scan (cursor_text self.now) K.kind.userinfo i ≡ Ok i }
        ensures path { let i = cursor_position self.now in IsTrue result
            → scan (cursor_text self.now) K.kind.path i ≡ Ok i }
        ensures segment { let i = cursor_position self.now in IsTrue result
            → scan (cursor_text self.now) (first_segment_set K.kind) i ≡ Ok i }
        ensures other { IsTrue result → (mark : ℕ) → 32 < mark → mark < 128
            → starts mark (text_after_cursor self.now) ≡ false }
        ensures some { IsTrue result → is_end (text_after_cursor self.now) ≡ false }
    {
        let bytes = self.text.as_bytes();
        let i = self.position;
        if i == bytes.len() {
            return false;
        }
        let byte = bytes[i];
        byte <= b' ' || byte >= 128 && !K::tables().path.allows_some_past_ascii()
    }

    /// Returns whether the whole text was passed.
    #[tactic(auto, using(crate::proofs::Parsing::NextBytes::text_ends_where_position_is_length))]
    #[inline]
    pub fn is_at_end(&self) -> bool
        ensures { result ≡ is_end (text_after_cursor self.now) }
    {
        self.position == self.text.len()
    }

    /// Returns whether this byte is next.
    #[tactic(auto, using(crate::proofs::Parsing::NextBytes::starts_at_position))]
    #[inline]
    pub fn next_is(&self, byte: u8) -> bool
        ensures { result ≡ starts byte (text_after_cursor self.now) }
    {
        let bytes = self.text.as_bytes();
        self.position < bytes.len() && bytes[self.position] == byte
    }

    /// Passes this ASCII character, if it is next.
    #[tactic(auto, using(crate::proofs::Parsing::NextBytes::starts_at_position))]
    #[inline]
    pub fn skip(&mut self, byte: u8) -> bool
        requires { byte < 128 }
        ensures value { result ≡ starts byte (text_after_cursor self.old) }
        ensures text { cursor_text self.new ≡ cursor_text self.old }
        ensures place { cursor_position self.new
            ≡ (if result then cursor_position self.old + 1 else cursor_position self.old) }
        ensures rest { text_after_cursor self.new
            ≡ (if result then drop 1 (text_after_cursor self.old) else text_after_cursor self.old) }
    {
        let bytes = self.text.as_bytes();
        let i = self.position;
        if i < bytes.len() && bytes[i] == byte {
            self.position = i + 1;
            true
        } else {
            false
        }
    }

    /// Passes `//`, if it is next.
    #[inline]
    pub fn skip_slashes(&mut self) -> bool
        ensures value { result ≡ has_authority (text_after_cursor self.old) }
        ensures text { cursor_text self.new ≡ cursor_text self.old }
        ensures place { cursor_position self.new
            ≡ (if result then cursor_position self.old + 2 else cursor_position self.old) }
        ensures rest { text_after_cursor self.new
            ≡ (if result then drop 2 (text_after_cursor self.old) else text_after_cursor self.old) }
    {
        let bytes = self.text.as_bytes();
        let i = self.position;
        if i + 1 < bytes.len() && bytes[i] == b'/' && bytes[i + 1] == b'/' {
            self.position = i + 2;
            true
        } else {
            false
        }
    }

    /// Returns an `UnexpectedChar` error at the position of the cursor.
    #[inline]
    pub fn unexpected(&self) -> ParseError
        ensures error { IsErrorIn (cursor_text self.now) result }
        ensures returned { result ≡ unexpected (cursor_position self.now) }
    {
        ParseError::new(self.position, ParseErrorKind::UnexpectedChar)
    }
}
