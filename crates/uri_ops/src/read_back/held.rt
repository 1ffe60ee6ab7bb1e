//! The text of one token of a normal text, read from its end (RFC 3986, section 6.2.2).
ghost use Rattle.std.specs.Prelude.{◌≡◌, ◌+◌, ◌≤◌, ◌<◌, ◌++◌, [], drop, encode_utf8, length, map};
ghost use Rattle.uri_pct.specs.Prelude.{Octet, print, text_of_token};

use crate::read_back::BLOCK;
use crate::read_back::literal_back::put_back;
use uri_pct::octet::pct_encoded;

/// The most bytes that the text of a token has: four octets, which are a character.
const MOST_BYTES: usize = 12;

/// The text of a token, of which the first `len` bytes are left.
#[derive(Clone, Copy)]
pub(crate) struct Held {
    bytes: [u8; MOST_BYTES],
    len: usize,
    pub ghost fits: { len ≤ 12 },
}

impl Held {
    ghost use Rattle.uri_ops.specs.FromEnd.Held.{held_text};

    /// Returns no text.
    #[inline(always)]
    pub(crate) fn nothing() -> Held
        ensures text { held_text result ≡ [] }
        ensures len { result.len ≡ 0 }
    {
        Held {
            bytes: [0; MOST_BYTES],
            len: 0,
        }
    }

    /// Appends bytes, for which there is room.
    #[inline(always)]
    fn push_all(&mut self, text: &[u8])
        requires { self.old.len + length text.now ≤ 12 }
        ensures text { held_text self.new ≡ held_text self.old ++ text.now }
        ensures len { self.new.len ≡ self.old.len + length text.now }
    {
        for &byte in text {
            self.bytes[self.len] = byte;
            self.len += 1;
        }
    }

    /// Returns the text of an octet, with upper-case digits.
    #[inline(always)]
    pub(crate) fn octet(value: u8) -> Held
        ensures { held_text result ≡ text_of_token (Octet value) }
    {
        let mut held = Held::nothing();
        held.push_all(pct_encoded(value).as_bytes());
        held
    }

    /// Returns the text of a character.
    #[inline(always)]
    pub(crate) fn character(ch: char) -> Held
        ensures { held_text result ≡ encode_utf8 ch }
    {
        let mut held = Held::nothing();
        held.push_all(ch.encode_utf8(&mut [0; 4]).as_bytes());
        held
    }

    /// Returns the text of the octets of a character.
    pub(crate) fn octets(ch: char) -> Held
        ensures { held_text result ≡ print (map Octet (encode_utf8 ch)) }
    {
        let mut held = Held::nothing();
        let mut buffer = [0; 4];
        let utf8 = ch.encode_utf8(&mut buffer).as_bytes();
        for &byte in utf8 {
            held.push_all(pct_encoded(byte).as_bytes());
        }
        held
    }

    /// Takes the last bytes that are left and puts them into the block before `end`. Returns where
    /// they begin.
    #[inline(always)]
    pub(crate) fn read_back(&mut self, block: &mut [u8; BLOCK], end: usize) -> usize
        requires { end ≤ 1024 }
        ensures text { held_text self.old ++ drop end block.old
            ≡ held_text self.new ++ drop result block.new }
        ensures within { result ≤ end }
        ensures end { 0 < result → held_text self.new ≡ [] }
    {
        if self.len == 0 {
            return end;
        }
        let held = &self.bytes[..self.len];
        let left = held.len() - held.len().min(end);
        let start = put_back(false, &held[left..], block, end);
        self.len = left;
        start
    }
}
