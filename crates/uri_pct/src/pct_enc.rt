//! Texts that are percent-encoded over an encoder's set (RFC 3986, section 2.1).
ghost use Rattle.std.specs.Prelude.{◌≡◌, ◌==◌, ◌↔◌, IsSome, IfSome, IsTrue, true, length, not, ⊤, [], Some};
ghost use Rattle.uri_pct.specs.Sets.{IsSubset};
ghost use Rattle.uri_pct.specs.Tokens.{Octet, text_of_token, is_valid_for, IsValidFor};
ghost use Rattle.uri_pct.specs.Texts.{is_unencoded, is_absolute};
ghost use Rattle.std.specs.Fmt.{styled_text, debug_str};
ghost use Rattle.std.proofs.Common.{rules};
ghost use Rattle.std.specs.Cmp.Rules.{comparing, hashing};
ghost use Rattle.std.specs.Ordering.{on, nat_cmp, as_partial_cmp};
ghost use Rattle.std.specs.Cmp.Lexicographic.{pointwise, slice_cmp};
ghost use Rattle.std.specs.Cmp.{partial_order_from_own_ties};

pub use crate::cow::{CowSlice, CowStr, DecodeError};
pub use crate::decode::{Decode, DecodedChunk};
use crate::encoder::{Encoder, PathEncoder};
pub use crate::estring::EString;
use crate::octet::pct_encoded;
pub use crate::split::Split;
use std::alloc::AllocError;
use std::cmp::Ordering;
use std::fmt;
use std::hash::{Hash, Hasher};
use std::marker::PhantomData;

/// A text of characters that the table of `E` allows. If the table allows percent-encoded octets,
/// it may contain these too: `%` and two hexadecimal digits.
///
/// # Examples
///
/// `a%20b` is an `EStr<Query>`; `a#b` and `a%2` are none.
///
/// ```
/// let query = EStr::<Query>::new(text).ok_or(Failure::Query)?;
/// let pairs = pairs_of(alloc, query)?;
/// ```
pub struct EStr<'a, E: Encoder> {
    text: &'a str,
    encoder: PhantomData<E>,
    pub ghost valid: { is_valid_for E.set text.now ≡ true },
}

impl<'a, E: Encoder> Clone for EStr<'a, E> {
    ghost is_clone = { λ e copy. copy ≡ e };

    ghost is_infallible = { λ _. ⊤ };

    /// Returns the same text.
    fn clone(&self) -> Result<Self, AllocError> {
        Ok(*self)
    }
}

impl<'a, E: Encoder> Copy for EStr<'a, E> {}

#[tactic(auto, using(crate::proofs::ValidTexts::EStrs::valid_texts))]
impl<'a, E: Encoder> EStr<'a, E> {
    ghost use Rattle.uri_pct.specs.EncodedTexts.{text_of};

    /// The empty text. A constant has no contract; that of `default` says that the text is empty.
    ///
    /// `EStr::<Query>::EMPTY` is a query with nothing after its `?`.
    pub const EMPTY: EStr<'static, E> = EStr {
        text: "",
        encoder: PhantomData,
    };

    /// Returns the text as an `EStr`, or `None` exactly if the table of `E` does not allow it.
    ///
    /// # Examples
    ///
    /// `EStr::<Query>::new("a b")` is `None`, and `EStr::<Query>::new("a%20b")` is that text.
    ///
    /// ```
    /// let query = EStr::<Query>::new(text).ok_or(Failure::Query)?;
    /// let pairs = pairs_of(alloc, query)?;
    /// ```
    pub fn new(text: &'a str) -> Option<Self>
        ensures valid { IsSome result ↔ IsValidFor E.set text.now }
        ensures same { IfSome result (λ e. text_of e ≡ text.now) }
    {
        if E::table().allows_text(text) {
            Some(EStr::new_or_panic(text))
        } else {
            None
        }
    }

    /// Returns the text as an `EStr`.
    ///
    /// # Conditions
    ///
    /// The table of `E` allows the text; `new` tests it.
    ///
    /// # Examples
    ///
    /// `EStr::<Query>::new_or_panic("a=b")` is that text.
    ///
    /// ```
    /// pub fn path_with_octets() -> EStr<'static, Path> {
    ///     EStr::new_or_panic("/a%20b/%C3%A9")
    /// }
    /// ```
    pub fn new_or_panic(text: &'a str) -> Self
        requires { IsValidFor E.set text.now }
        ensures { text_of result ≡ text.now }
    {
        EStr {
            text,
            encoder: PhantomData,
        }
    }

    /// Returns the text, for as long as it was borrowed.
    ///
    /// Of `EStr::<Query>::new_or_panic("a=b")` it is `a=b`.
    pub fn as_str(self) -> &'a str
        ensures text { result.now ≡ text_of self.entry }
        ensures valid { IsValidFor E.set result.now }
    {
        self.text
    }

    /// Returns the length of the text in bytes.
    ///
    /// Of `a%20b` it is 5: an octet counts three.
    pub fn len(self) -> usize
        ensures { result ≡ length (text_of self.entry) }
    {
        self.text.len()
    }

    /// Returns whether the text is empty.
    ///
    /// `EStr::EMPTY` is empty, and `a` is not.
    pub fn is_empty(self) -> bool
        ensures { result ≡ (length (text_of self.entry) == 0) }
    {
        self.text.is_empty()
    }

    /// Returns whether the text has no percent-encoded octet.
    ///
    /// `ab` has no octet, and `a%20b` has one.
    pub fn is_unencoded(self) -> bool
        ensures { result ≡ is_unencoded (text_of self.entry) }
    {
        !self.text.as_bytes().contains(&b'%')
    }

    /// Returns the same text for another encoder.
    ///
    /// # Conditions
    ///
    /// The table of `SuperE` allows all that the table of `E` allows; `E::table().is_subset` tests
    /// it.
    ///
    /// # Examples
    ///
    /// An `EStr<Data>` becomes an `EStr<Query>` by `upcast::<Query>()`.
    ///
    /// ```
    /// pub fn path_of_a_uri(path: EStr<'_, Path>) -> EStr<'_, IPath> {
    ///     path.upcast()
    /// }
    /// ```
    pub fn upcast<SuperE: Encoder>(self) -> EStr<'a, SuperE>
        requires { IsSubset E.set SuperE.set }
        ensures { text_of result ≡ text_of self.entry }
    {
        EStr {
            text: self.text,
            encoder: PhantomData,
        }
    }

    /// Returns the byte as a percent-encoded octet: `%` and two upper-case hexadecimal digits (RFC
    /// 3986, section 2.1).
    ///
    /// # Conditions
    ///
    /// The table of `E` allows percent-encoded octets; `E::table().allows_pct_encoded` tests it.
    ///
    /// # Examples
    ///
    /// Of the byte 20 (hexadecimal) it is `%20`, and of E9 `%E9`.
    ///
    /// ```
    /// pub fn slash() -> EStr<'static, Userinfo> {
    ///     EStr::encode_byte(b'/')
    /// }
    /// ```
    pub fn encode_byte(byte: u8) -> EStr<'static, E>
        requires { IsTrue (E.set).pct_encoded }
        ensures { text_of result ≡ text_of_token (Octet byte) }
    {
        EStr {
            text: pct_encoded(byte),
            encoder: PhantomData,
        }
    }
}

impl<'a, E: PathEncoder> EStr<'a, E> {
    ghost use Rattle.uri_pct.specs.EncodedTexts.{text_of};

    /// Returns whether the path begins with `/`.
    ///
    /// `/a` is absolute, and `a/b` and the empty path are not.
    pub fn is_absolute(self) -> bool
        ensures { result ≡ is_absolute (text_of self.entry) }
    {
        self.text.starts_with('/')
    }

    /// Returns whether the path does not begin with `/`.
    ///
    /// `a/b` and the empty path are rootless, and `/a` is not.
    pub fn is_rootless(self) -> bool
        ensures { result ≡ not (is_absolute (text_of self.entry)) }
    {
        !self.is_absolute()
    }
}

#[tactic(auto, using(crate::proofs::ValidTexts::EStrs::empty_text_is_valid))]
impl<'a, E: Encoder> Default for EStr<'a, E> {
    ghost use Rattle.uri_pct.specs.EncodedTexts.{text_of};

    ghost is_default = { λ e. text_of e ≡ [] };

    /// Returns the empty text.
    fn default() -> Self {
        EStr::new_or_panic("")
    }
}

impl<'a, E: Encoder> fmt::Display for EStr<'a, E> {
    ghost use Rattle.uri_pct.specs.EncodedTexts.{text_of};

    ghost output = { λ e. Some (text_of e) };

    ghost styled_output = { λ e spec. Some (styled_text spec (text_of e)) };

    /// Prints the text as it is, padded and cut as the format asks.
    fn fmt<W: fmt::Write>(&self, f: &mut fmt::Formatter<W>) -> fmt::Result {
        f.pad(self.text)
    }
}

impl<'a, E: Encoder> fmt::Debug for EStr<'a, E> {
    ghost use Rattle.uri_pct.specs.EncodedTexts.{text_of};

    ghost debug_output = { λ e. debug_str (text_of e) };

    /// Prints the text in quotes, as `Debug` of a `str` does.
    fn fmt<W: fmt::Write>(&self, f: &mut fmt::Formatter<W>) -> fmt::Result {
        fmt::Debug::fmt(&self.text, f)
    }
}

impl<'a, E: Encoder> PartialEq for EStr<'a, E> {
    ghost use Rattle.uri_pct.specs.EncodedTexts.{text_of};

    ghost eq = { on text_of (pointwise ◌==◌) };

    ghost laws = { Prim.search (comparing, rules) };

    /// Returns whether the texts are equal, byte by byte: `%2f` is not equal to `%2F`.
    fn eq(&self, other: &Self) -> bool {
        self.text == other.text
    }
}

impl<'a, E: Encoder> Eq for EStr<'a, E> {
    ghost laws = { Prim.search (comparing, rules) };
}

impl<'a, E: Encoder> Ord for EStr<'a, E> {
    ghost use Rattle.uri_pct.specs.EncodedTexts.{text_of};

    ghost cmp = { on text_of (slice_cmp nat_cmp) };

    ghost total = { Prim.search (comparing, rules) };

    ghost matches_partial_cmp = { Prim.search (comparing, rules) };

    ghost matches_eq = { Prim.search (comparing, rules) };

    /// Compares the texts byte by byte.
    fn cmp(&self, other: &Self) -> Ordering {
        self.text.cmp(other.text)
    }
}

impl<'a, E: Encoder> PartialOrd for EStr<'a, E> {
    ghost use Rattle.uri_pct.specs.EncodedTexts.{text_of};

    ghost partial_cmp = { as_partial_cmp (on text_of (slice_cmp nat_cmp)) };

    ghost laws = { partial_order_from_own_ties (Prim.search (comparing, rules))
        (Prim.search (comparing, rules)) };

    /// Compares the texts as `cmp` does.
    fn partial_cmp(&self, other: &Self) -> Option<Ordering> {
        Some(self.cmp(other))
    }
}

impl<'a, E: Encoder> Hash for EStr<'a, E> {
    ghost use Rattle.std.specs.Hash as fed;
    ghost use Rattle.uri_pct.specs.EncodedTexts.{text_of};

    ghost hash_input = { λ e. fed.str (text_of e) };

    ghost respects_eq = { Prim.search (hashing, rules) };

    /// Hashes the text.
    fn hash<H: Hasher>(&self, state: &mut H) {
        self.text.hash(state);
    }
}
