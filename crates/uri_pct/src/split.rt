//! Texts cut at delimiters (RFC 3986, section 2.2).
ghost use Rattle.std.specs.Prelude.{◌≡◌, ◌==◌, IsTrue, IfSome, MatchOption, true, drop, is_some, length, ◌<◌, ◌^◌, ⊤};
ghost use Rattle.std.specs.List.{slice_split, join_with_byte, AllPass};
ghost use Rattle.uri_pct.specs.Delimiters.{slash};
ghost use Rattle.uri_pct.specs.Sets.{is_reserved};
ghost use Rattle.uri_pct.specs.Texts.{lacks, is_absolute, IsCutAtFirst, IsCutAtLast};
ghost use Rattle.std.specs.Iterator.{YieldsFirstBy, item_count, YieldsLastBy};

use crate::encoder::{Encoder, PathEncoder};
use crate::pct_enc::EStr;
use std::alloc::AllocError;
use std::iter::FusedIterator;

/// The substrings of a text between the occurrences of a delimiter. Both ends yield them, each one
/// once. After the last, both ends return `None`.
///
/// `a&b&c` split at `&` yields `a`, `b`, `c`; from the back it yields `c`, `b`, `a`.
#[derive(Drop)]
pub struct Split<'a, E: Encoder> {
    rest: Option<EStr<'a, E>>,
    delimiter: char,
    pub ghost reserved: { is_reserved delimiter ≡ true },
}

impl<'a, E: Encoder> Clone for Split<'a, E> {
    ghost use Rattle.uri_pct.specs.EncodedTexts.{substrings_left};

    ghost is_clone = { λ value copy. substrings_left copy ≡ substrings_left value };

    ghost is_infallible = { λ _. ⊤ };

    /// Returns an iterator with the same substrings left.
    fn clone(&self) -> Result<Self, AllocError> {
        Ok(Split {
            rest: self.rest,
            delimiter: self.delimiter,
        })
    }
}

impl<'a, E: Encoder> Iterator for Split<'a, E> {
    ghost use Rattle.uri_pct.specs.EncodedTexts.{text_of, substrings_left};

    type Item = EStr<'a, E>;

    ghost next_gives = { YieldsFirstBy text_of substrings_left };

    ghost remaining = { item_count substrings_left };

    /// Returns the next substring between delimiters, if any is left.
    fn next(&mut self) -> Option<EStr<'a, E>> {
        let text = self.rest?;
        match text.split_once(self.delimiter) {
            Some((piece, rest)) => {
                self.rest = Some(rest);
                Some(piece)
            }
            None => {
                self.rest = None;
                Some(text)
            }
        }
    }
}

impl<'a, E: Encoder> DoubleEndedIterator for Split<'a, E> {
    ghost use Rattle.uri_pct.specs.EncodedTexts.{text_of, substrings_left};

    ghost next_back_gives = { YieldsLastBy text_of substrings_left };

    /// Returns the last substring between delimiters that is left, if any is.
    fn next_back(&mut self) -> Option<EStr<'a, E>> {
        let text = self.rest?;
        match text.rsplit_once(self.delimiter) {
            Some((rest, piece)) => {
                self.rest = Some(rest);
                Some(piece)
            }
            None => {
                self.rest = None;
                Some(text)
            }
        }
    }
}

impl<'a, E: Encoder> FusedIterator for Split<'a, E> {}

impl<'a, E: Encoder> EStr<'a, E> {
    ghost use Rattle.uri_pct.specs.EncodedTexts.{text_of, substrings_left};

    /// Returns what is before the first `delimiter` and what is after it, or `None` exactly if
    /// there is none.
    ///
    /// # Conditions
    ///
    /// The delimiter is reserved (RFC 3986, section 2.2); `RESERVED.allows` tests it.
    ///
    /// # Examples
    ///
    /// `a=b=c` at `=` is `a` and `b=c`.
    ///
    /// ```
    /// match piece.split_once('=') {
    ///     Some(pair) => pair,
    ///     None => (piece, EStr::default()),
    /// }
    /// ```
    pub fn split_once(self, delimiter: char) -> Option<(EStr<'a, E>, EStr<'a, E>)>
        requires { IsTrue (is_reserved delimiter) }
        ensures { MatchOption result (IsTrue (lacks delimiter (text_of self.entry)))
            (λ pair. IsCutAtFirst delimiter (text_of self.entry) (text_of pair.0)
            (text_of pair.1)) }
    {
        let (before, after) = self.as_str().split_once(delimiter)?;
        Some((EStr::new_or_panic(before), EStr::new_or_panic(after)))
    }

    /// Returns what is before the last `delimiter` and what is after it, or `None` exactly if
    /// there is none.
    ///
    /// # Conditions
    ///
    /// The delimiter is reserved (RFC 3986, section 2.2); `RESERVED.allows` tests it.
    ///
    /// # Examples
    ///
    /// `a=b=c` at `=` is `a=b` and `c`.
    ///
    /// ```
    /// if table::RESERVED.allows(delimiter) {
    ///     path.rsplit_once(delimiter)
    /// } else {
    ///     None
    /// }
    /// ```
    pub fn rsplit_once(self, delimiter: char) -> Option<(EStr<'a, E>, EStr<'a, E>)>
        requires { IsTrue (is_reserved delimiter) }
        ensures { MatchOption result (IsTrue (lacks delimiter (text_of self.entry)))
            (λ pair. IsCutAtLast delimiter (text_of self.entry) (text_of pair.0) (text_of pair.1)) }
    {
        let (before, after) = self.as_str().rsplit_once(delimiter)?;
        Some((EStr::new_or_panic(before), EStr::new_or_panic(after)))
    }

    /// Returns the substrings between the occurrences of `delimiter`. No substring contains the
    /// delimiter, and joined by it they are the text. The empty text has one substring, which is
    /// empty. Their number fits `usize`, so `count` may be called.
    ///
    /// # Conditions
    ///
    /// The delimiter is reserved (RFC 3986, section 2.2); `RESERVED.allows` tests it.
    ///
    /// # Examples
    ///
    /// `a&&b` at `&` is `a`, the empty substring and `b`.
    ///
    /// ```
    /// for piece in query.split('&') {
    ///     if !piece.is_empty() {
    ///         pairs.push(pair_of(alloc, piece)?)?;
    ///     }
    /// }
    /// ```
    pub fn split(self, delimiter: char) -> Split<'a, E>
        requires { IsTrue (is_reserved delimiter) }
        ensures pieces { substrings_left result ≡ slice_split (λ b. b == delimiter)
            (text_of self.entry) }
        ensures joined { join_with_byte delimiter (substrings_left result) ≡ text_of self.entry }
        ensures apart { AllPass (lacks delimiter) (substrings_left result) }
        ensures fits { length (substrings_left result) < 2 ^ 64 }
    {
        // The text is in memory, so its length is known to fit.
        let _text = self.as_str();
        Split {
            rest: Some(self),
            delimiter,
        }
    }
}

impl<'a, E: PathEncoder> EStr<'a, E> {
    ghost use Rattle.uri_pct.specs.EncodedTexts.{text_of, substrings_left};

    /// Returns the segments of the path (RFC 3986, section 3.3), or `None` exactly if the path does
    /// not begin with `/`. The segments are what is after the first `/`, cut at each further `/`.
    /// Their number fits `usize`.
    ///
    /// `/a//b` has the segments `a`, the empty one and `b`; `/` has one, which is empty. For `a/b`
    /// the call returns `None`.
    pub fn segments_if_absolute(self) -> Option<Split<'a, E>>
        ensures absolute { is_some result ≡ is_absolute (text_of self.entry) }
        ensures segments { IfSome result
            (λ s. substrings_left s ≡ slice_split (λ b. b == slash) (drop 1 (text_of self.entry))) }
        ensures fits { IfSome result (λ s. length (substrings_left s) < 2 ^ 64) }
    {
        if self.is_rootless() {
            return None;
        }
        let rest = EStr::<E>::new_or_panic(&self.as_str()[1..]);
        Some(rest.split('/'))
    }
}
