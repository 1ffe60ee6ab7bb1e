//! Decoding of percent-encoded texts (RFC 3986, section 2.1).
ghost use Rattle.std.specs.Prelude.{◌≡◌, ◌<◌, ◌^◌, ◌==◌, IsTrue, IfOk, IsOkAnd, length, ⊤};
ghost use Rattle.std.specs.List.{position_or_len};
ghost use Rattle.uri_pct.specs.Chunks.{widest_set};
ghost use Rattle.uri_pct.specs.Delimiters.{percent_sign};
ghost use Rattle.uri_pct.specs.Texts.{is_unencoded};
ghost use Rattle.uri_pct.specs.Tokens.{IsValidFor};
ghost use Rattle.uri_pct.specs.Cows.{cow_items, AreBorrowedItems};
ghost use Rattle.std.specs.Iterator.{YieldsFirstBy, item_count};
ghost use Rattle.uri_pct.specs.EncodedTexts.{text_of};

use crate::cow::{CowSlice, CowStr, DecodeError};
use crate::encoder::Encoder;
use crate::octet::octet_value;
use crate::pct_enc::EStr;
use crate::search::find_byte;
use std::alloc::{AllocError, Global};
use std::iter::FusedIterator;

/// A part of a text that is decoded.
///
/// The parts of `a%20b` are the text `a`, the byte 20 (hexadecimal) and the text `b`.
#[derive(Clone, Copy, Debug, PartialEq, Eq)]
pub enum DecodedChunk<'a> {
    /// A maximal part without `%`, not empty.
    Unencoded(&'a str),
    /// The value of a percent-encoded octet: 0x20 for `%20`.
    PctDecoded(u8),
}

/// What is left to decode of a text: an iterator of its parts. After the last it always returns
/// `None`.
///
/// `EStr::<Query>::new_or_panic("a%20b").decode()` has three parts, and its `to_string` returns `a
/// b`.
#[derive(Drop)]
pub struct Decode<'a> {
    rest: &'a str,
    pub ghost whole: { IsValidFor widest_set rest.now },
}

/// Returns the byte offset of the first `%`, where decoding begins, or the length if there is none.
#[doc(hidden)]
pub fn unencoded_len(text: &str) -> usize
    ensures { result ≡ position_or_len (λ b. b == percent_sign) text.now }
{
    find_byte(b'%', text.as_bytes(), 0)
}

impl<'a> Decode<'a> {
    ghost use Rattle.uri_pct.specs.Decodes.{undecoded, decoded, bytes_left};

    /// Returns a decoder of the text, of which nothing is decoded yet.
    #[doc(hidden)]
    pub fn of_text(text: &'a str) -> Decode<'a>
        requires { IsValidFor widest_set text.now }
        ensures { undecoded result ≡ text.now }
    {
        Decode { rest: text }
    }

    /// Returns the text that is not decoded yet.
    #[doc(hidden)]
    pub fn as_str(&self) -> &'a str
        ensures { result.now ≡ undecoded self.now }
    {
        self.rest
    }

    /// Returns whether the text that is left has no `%`.
    #[doc(hidden)]
    pub fn is_unencoded(&self) -> bool
        ensures { result ≡ is_unencoded (undecoded self.now) }
    {
        !self.rest.as_bytes().contains(&b'%')
    }

    /// Returns the bytes of the remaining items, decoded. If no `%` is left, they are borrowed from
    /// the text. `+` is not decoded to a space.
    ///
    /// Of `a%E9` these are the two bytes 61 and E9, owned; of `ab` they are those of `ab`,
    /// borrowed.
    ///
    /// # Errors
    ///
    /// Only if allocation fails. Without a `%` left, nothing is allocated.
    pub fn to_bytes(self, alloc: Global) -> Result<CowSlice<'a, u8>, AllocError>
        ensures bytes { IfOk result (λ b. cow_items b ≡ decoded self.entry) }
        ensures left { IfOk result (λ b. cow_items b ≡ bytes_left self.entry) }
        ensures borrows { IsTrue (is_unencoded (undecoded self.entry))
            → IsOkAnd result AreBorrowedItems }
    {
        if self.is_unencoded() {
            return Ok(CowSlice::Borrowed(self.rest.as_bytes()));
        }
        Ok(CowSlice::Owned(self.decoded_bytes(alloc)?))
    }

    /// Returns the bytes of the remaining items in a vector, also if no `%` is left.
    pub(crate) fn decoded_bytes(self, alloc: Global) -> Result<Vec<u8>, AllocError>
        ensures { IfOk result (λ bytes. bytes.items ≡ decoded self.entry) }
    {
        let mut bytes = Vec::with_capacity(alloc, self.rest.len())?;
        for chunk in self {
            match chunk {
                DecodedChunk::Unencoded(text) => bytes.extend_from_slice(text.as_bytes())?,
                DecodedChunk::PctDecoded(byte) => bytes.push(byte)?,
            }
        }
        Ok(bytes)
    }
}

impl<'a> Clone for Decode<'a> {
    ghost use Rattle.uri_pct.specs.Decodes.{undecoded};

    ghost is_clone = { λ value copy. undecoded copy ≡ undecoded value };

    ghost is_infallible = { λ _. ⊤ };

    /// Returns a decoder with the same text left.
    fn clone(&self) -> Result<Self, AllocError> {
        Ok(Decode::of_text(self.rest))
    }
}

impl<'a> Iterator for Decode<'a> {
    ghost use Rattle.uri_pct.specs.Decodes.{chunk_of, chunks_left};

    type Item = DecodedChunk<'a>;

    ghost next_gives = { YieldsFirstBy chunk_of chunks_left };

    ghost remaining = { item_count chunks_left };

    /// Returns the next part of the text, literal or an octet decoded, if any is left.
    fn next(&mut self) -> Option<DecodedChunk<'a>> {
        let rest = self.rest;
        let bytes = rest.as_bytes();
        if bytes.is_empty() {
            return None;
        }
        if bytes[0] == b'%' {
            let value = octet_value(bytes[1], bytes[2]);
            self.rest = &rest[3..];
            return Some(DecodedChunk::PctDecoded(value));
        }
        let (text, suffix) = rest.split_at(unencoded_len(rest));
        self.rest = suffix;
        Some(DecodedChunk::Unencoded(text))
    }
}

impl<'a> FusedIterator for Decode<'a> {}

impl<'a, E: Encoder> EStr<'a, E> {
    ghost use Rattle.uri_pct.specs.Decodes.{undecoded, chunks_left};

    /// Returns the parts of the text, each decoded when it is asked for (RFC 3986, section 2.1).
    /// Their number fits `usize`, so `count` may be called.
    ///
    /// # Conditions
    ///
    /// The table of `E` allows percent-encoded octets; `E::table().allows_pct_encoded` tests it.
    ///
    /// # Examples
    ///
    /// Of `%41b` the parts are the byte 41 and the text `b`.
    ///
    /// ```
    /// piece.decode().to_string_lossy(alloc)?.into_owned(alloc)
    /// ```
    pub fn decode(self) -> Decode<'a>
        requires { IsTrue (E.set).pct_encoded }
        ensures text { undecoded result ≡ text_of self.entry }
        ensures fits { length (chunks_left result) < 2 ^ 64 }
    {
        let octets = E::table().allows_pct_encoded();
        prove!(octets);
        Decode::of_text(self.as_str())
    }
}
