//! Text or bytes that are borrowed where they can be.
ghost use Rattle.std.specs.Prelude.{◌≡◌, IfOk, OnErr, string_bytes, Some};
ghost use Rattle.std.specs.Fmt.{styled_text};

use std::alloc::{AllocError, Global};
use std::fmt;
use thiserror::Error;

/// A text that is borrowed or owned.
///
/// What `a%20b` decodes to is `Owned`, and what `ab` decodes to `Borrowed`.
#[derive(Debug, Drop)]
pub enum CowStr<'a> {
    /// A text that is elsewhere.
    Borrowed(&'a str),
    /// A text of its own.
    Owned(String),
}

/// Items that are borrowed or owned.
///
/// The bytes that `%E9` decodes to are `Owned`, and those of `ab` `Borrowed`.
#[derive(Debug, Drop)]
pub enum CowSlice<'a, T> {
    /// Items that are elsewhere.
    Borrowed(&'a [T]),
    /// Items of its own.
    Owned(Vec<T>),
}

impl<'a> CowStr<'a> {
    ghost use Rattle.uri_pct.specs.Cows.{cow_text, IsBorrowedText};

    /// Returns the text, for as long as the value is borrowed.
    ///
    /// Of what `a%20b` decodes to it is `a b`.
    pub fn as_str(&self) -> &str
        ensures { result.now ≡ cow_text self.now }
    {
        match self {
            CowStr::Borrowed(text) => text,
            CowStr::Owned(text) => text.as_str(),
        }
    }

    /// Returns the text as an owned one. If it is borrowed, it is copied.
    ///
    /// Of what `ab` decodes to, which is borrowed, it is a copy of `ab`; of what `a%20b` decodes to
    /// it is that text itself.
    ///
    /// # Errors
    ///
    /// Only if allocation fails for a copy. The borrowed text remains.
    pub fn into_owned(self, alloc: Global) -> Result<String, AllocError>
        ensures text { IfOk result (λ text. string_bytes text ≡ cow_text self.entry) }
        ensures refused { OnErr result (IsBorrowedText self.entry) }
    {
        match self {
            CowStr::Borrowed(text) => String::from_str(alloc, text),
            CowStr::Owned(text) => Ok(text),
        }
    }
}

impl<'a> fmt::Display for CowStr<'a> {
    ghost use Rattle.uri_pct.specs.Cows.{cow_text};

    ghost output = { λ text. Some (cow_text text) };

    ghost styled_output = { λ text spec. Some (styled_text spec (cow_text text)) };

    /// Prints the text as it is, padded and cut as the format asks.
    fn fmt<W: fmt::Write>(&self, f: &mut fmt::Formatter<W>) -> fmt::Result {
        f.pad(self.as_str())
    }
}

impl<'a, T> CowSlice<'a, T> {
    ghost use Rattle.uri_pct.specs.Cows.{cow_items};

    /// Returns the items, for as long as the value is borrowed.
    ///
    /// Of the bytes that `%E9` decodes to it is the one byte E9.
    pub fn as_slice(&self) -> &[T]
        ensures { result.now ≡ cow_items self.now }
    {
        match self {
            CowSlice::Borrowed(items) => items,
            CowSlice::Owned(items) => items.as_slice(),
        }
    }
}

impl<'a, T: Copy> CowSlice<'a, T> {
    ghost use Rattle.uri_pct.specs.Cows.{cow_items, AreBorrowedItems};

    /// Returns the items as owned ones. If they are borrowed, they are copied.
    ///
    /// Of the bytes that `ab` decodes to, which are borrowed, it is a copy of the two; of those of
    /// `%E9` it is that byte itself.
    ///
    /// # Errors
    ///
    /// Only if allocation fails for a copy. The borrowed items are where they were.
    pub fn into_owned(self, alloc: Global) -> Result<Vec<T>, AllocError>
        ensures items { IfOk result (λ items. items.items ≡ cow_items self.entry) }
        ensures refused { OnErr result (AreBorrowedItems self.entry) }
    {
        match self {
            CowSlice::Borrowed(items) => Vec::from_slice(alloc, items),
            CowSlice::Owned(items) => Ok(items),
        }
    }
}

/// Why a text does not decode to text.
///
/// `%E9` does not decode to text: the error is `NotUtf8` with the byte E9.
#[derive(Debug, Drop, Error)]
pub enum DecodeError {
    /// The bytes that the text decodes to, which are not UTF-8.
    #[error("decoded bytes are not valid UTF-8")]
    NotUtf8(Vec<u8>),
    /// There was no memory for them.
    #[error("out of memory")]
    OutOfMemory,
}

impl From<AllocError> for DecodeError {
    ghost use Rattle.uri_pct.specs.declared.cow.DecodeError.TheVariants.{OutOfMemory};

    ghost from_gives = { λ _ e. e ≡ OutOfMemory };

    /// Returns the error `OutOfMemory` of decoding to a text for a failed allocation.
    fn from(_error: AllocError) -> DecodeError {
        DecodeError::OutOfMemory
    }
}
