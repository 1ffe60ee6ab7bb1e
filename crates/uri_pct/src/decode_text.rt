//! Decoding to text.
ghost use Rattle.std.specs.Prelude.{◌≡◌, IsTrue, IfOk, IfErr, IsOk, IsOkAnd, IsUtf8};
ghost use Rattle.uri_pct.specs.Cows.{cow_text, IsBorrowedText, IsDecodeErrorOf};
ghost use Rattle.uri_pct.specs.Pieces.{lossy_text};
ghost use Rattle.uri_pct.specs.Texts.{is_unencoded};
ghost use Rattle.uri_pct.specs.Decodes.{undecoded, decoded, bytes_left};

use crate::cow::{CowStr, DecodeError};
use crate::decode::Decode;
use crate::utf8_runs::TakeParts;
use std::alloc::{AllocError, Global};

/// The text of the parts, with U+FFFD for each that is ill-formed.
#[derive(Drop)]
struct LossyText {
    text: String,
}

impl TakeParts for LossyText {
    ghost use Rattle.uri_pct.specs.Models.TakenBytes.{TookText, taking_no_parts_keeps_text, text_taken_in_turn_is_taken_of_joined_parts};

    ghost took = { TookText };

    ghost takes_no_parts = { taking_no_parts_keeps_text };

    ghost takes_appended_parts = { text_taken_in_turn_is_taken_of_joined_parts };

    /// Appends literal text as it is.
    fn take_unencoded(&mut self, text: &str) -> Result<(), AllocError> {
        self.text.push_str(text)
    }

    /// Appends characters past ASCII that octets decode to.
    fn take_well_formed(&mut self, text: &str) -> Result<(), AllocError> {
        self.text.push_str(text)
    }

    /// Appends an ASCII character that an octet decodes to.
    fn take_ascii(&mut self, byte: u8) -> Result<(), AllocError> {
        self.text.push(char::from(byte))
    }

    /// Appends U+FFFD for a maximal ill-formed part.
    fn take_ill_formed(&mut self, _bytes: &[u8]) -> Result<(), AllocError> {
        self.text.push(char::REPLACEMENT_CHARACTER)
    }
}

impl<'a> Decode<'a> {
    /// Returns the remaining text, decoded. If no `%` is left, it is borrowed. Its bytes are those
    /// of the remaining items. `+` is not decoded to a space.
    ///
    /// # Errors
    ///
    /// `NotUtf8` with the bytes, exactly if they are not UTF-8; `OutOfMemory` if allocation fails.
    /// Without a `%` left, nothing is allocated.
    ///
    /// # Examples
    ///
    /// Of `%C3%A9` it is `é`, owned; of `ab` it is `ab`, borrowed; and `%E9` is rejected with the
    /// byte E9.
    ///
    /// ```
    /// match encoded.as_estr().decode().to_string(alloc)? {
    ///     CowStr::Borrowed(text) => Ok(String::from_str(alloc, text)?),
    ///     CowStr::Owned(text) => Ok(text),
    /// }
    /// ```
    pub fn to_string(self, alloc: Global) -> Result<CowStr<'a>, DecodeError>
        ensures text { IfOk result (λ text. cow_text text ≡ decoded self.entry) }
        ensures utf8 { IsOk result → IsUtf8 (decoded self.entry) }
        ensures refused { IfErr result (IsDecodeErrorOf (decoded self.entry)) }
        ensures left { IfOk result (λ text. cow_text text ≡ bytes_left self.entry) }
        ensures left_refused { IfErr result (IsDecodeErrorOf (bytes_left self.entry)) }
        ensures borrows { IsTrue (is_unencoded (undecoded self.entry))
            → IsOkAnd result IsBorrowedText }
    {
        if self.is_unencoded() {
            return Ok(CowStr::Borrowed(self.as_str()));
        }
        match String::from_utf8(self.decoded_bytes(alloc)?) {
            Ok(text) => Ok(CowStr::Owned(text)),
            Err(error) => Err(DecodeError::NotUtf8(error.into_bytes())),
        }
    }

    /// Returns the remaining text, decoded, with U+FFFD for each maximal ill-formed part of its
    /// bytes (Unicode, section 3.9). If no `%` is left, it is borrowed. `+` is not decoded to a
    /// space.
    ///
    /// # Errors
    ///
    /// Only if allocation fails. Without a `%` left, nothing is allocated.
    ///
    /// # Examples
    ///
    /// Of `a%E9b` it is `a`, U+FFFD and `b`; of `%C3%A9` it is `é`.
    ///
    /// ```
    /// piece.decode().to_string_lossy(alloc)?.into_owned(alloc)
    /// ```
    pub fn to_string_lossy(self, alloc: Global) -> Result<CowStr<'a>, AllocError>
        ensures text { IfOk result (λ text. cow_text text ≡ lossy_text (decoded self.entry)) }
        ensures left { IfOk result (λ text. cow_text text ≡ lossy_text (bytes_left self.entry)) }
        ensures borrows { IsTrue (is_unencoded (undecoded self.entry))
            → IsOkAnd result IsBorrowedText }
    {
        if self.is_unencoded() {
            return Ok(CowStr::Borrowed(self.as_str()));
        }
        let mut taker = LossyText {
            text: String::with_capacity(alloc, self.as_str().len())?,
        };
        self.take_parts(&mut taker)?;
        Ok(CowStr::Owned(taker.text))
    }
}
