//! Owned texts that are percent-encoded over an encoder's set (RFC 3986, section 2.1).
ghost use Rattle.std.specs.Prelude.{◌≡◌, ◌==◌, ◌<◌, ◌≤◌, ◌+◌, ◌++◌, ◌∷◌, [], OnOk, OnErr, IfOk, IsTrue, Some, true, encode_utf8, length, string_bytes, string_capacity};
ghost use Rattle.std.specs.Cmp.{partial_order_from_own_ties};
ghost use Rattle.std.specs.Cmp.Lexicographic.{pointwise, slice_cmp};
ghost use Rattle.std.specs.Cmp.Rules.{comparing, hashing};
ghost use Rattle.std.specs.Fmt.{debug_str, styled_text};
ghost use Rattle.std.specs.Hash as fed;
ghost use Rattle.std.specs.Ordering.{as_partial_cmp, nat_cmp, on};
ghost use Rattle.uri_pct.specs.EncodedTexts.{text_of};
ghost use Rattle.uri_pct.specs.Encoding.{encode_text, encode_bytes};
ghost use Rattle.uri_pct.specs.Sets.{IsSubset, LacksPercent, allows};
ghost use Rattle.uri_pct.specs.Tokens.{Char, tokens, print, is_valid_for, IsValidFor};
ghost use Rattle.std.proofs.Common.{rules};

use crate::encode::{append_bytes, append_text};
use crate::encoder::Encoder;
use crate::pct_enc::EStr;
use std::alloc::{AllocError, Global};
use std::cmp::Ordering;
use std::fmt;
use std::hash::{Hash, Hasher};
use std::marker::PhantomData;

/// An owned text that is valid for `E`, as an `EStr<E>` is. It can grow, with the allocator that it
/// was made with.
///
/// # Examples
///
/// `a%26b` is built for a query from `EString::<Query>::new(alloc)` by `encode_str::<Data>("a&b")`.
///
/// ```
/// let mut path = EString::new(alloc);
/// for segment in segments {
///     path.push('/')?;
///     path.encode_str::<Data>(segment.as_str())?;
/// }
/// Ok(path)
/// ```
#[derive(Drop)]
pub struct EString<E: Encoder> {
    text: String,
    encoder: PhantomData<E>,
    pub ghost valid: { is_valid_for E.set (string_bytes text) ≡ true },
    pub ghost lacks_percent: { LacksPercent E.set },
}

#[tactic(auto, using(crate::proofs::ValidTexts::EStrs::empty_text_is_valid))]
impl<E: Encoder> EString<E> {
    ghost use Rattle.uri_pct.specs.EStrings.{owned_text, owned_capacity};

    /// Returns the text as an `EString` of `E`, whose table allows it.
    fn of_text(text: String) -> EString<E>
        requires { IsValidFor E.set (string_bytes text) }
        ensures text { owned_text result ≡ string_bytes text }
        ensures capacity { owned_capacity result ≡ string_capacity text }
    {
        EString {
            text,
            encoder: PhantomData,
        }
    }

    /// Returns an empty text without room for any byte. It allocates nothing.
    ///
    /// Its text is the empty one, and its capacity 0.
    pub fn new(alloc: Global) -> EString<E>
        ensures text { owned_text result ≡ [] }
        ensures capacity { owned_capacity result ≡ 0 }
    {
        match String::with_capacity(alloc, 0) {
            Ok(text) => EString::of_text(text),
            Err(_) => unreachable!(),
        }
    }

    /// Returns an empty text with room for `capacity` bytes.
    ///
    /// With room for 10 bytes, ten letters are appended without another allocation.
    ///
    /// # Errors
    ///
    /// Only if allocation fails.
    pub fn with_capacity(alloc: Global, capacity: usize) -> Result<EString<E>, AllocError>
        ensures text { IfOk result (λ s. owned_text s ≡ []) }
        ensures capacity { IfOk result (λ s. capacity ≤ owned_capacity s) }
    {
        Ok(EString::of_text(String::with_capacity(alloc, capacity)?))
    }

    /// Returns the text as an `EStr`, for as long as the value is borrowed.
    ///
    /// Of what was built as `a%26b` it is the `EStr` of that text.
    pub fn as_estr(&self) -> EStr<'_, E>
        ensures { text_of result ≡ owned_text self.now }
    {
        EStr::new_or_panic(self.text.as_str())
    }

    /// Returns the text, for as long as the value is borrowed.
    ///
    /// Of what was built as `a%26b` it is `a%26b`.
    pub fn as_str(&self) -> &str
        ensures text { result.now ≡ owned_text self.now }
        ensures valid { IsValidFor E.set result.now }
    {
        self.as_estr().as_str()
    }

    /// Returns the length of the text in bytes.
    ///
    /// Of `a%26b` it is 5: an octet counts three.
    pub fn len(&self) -> usize
        ensures { result ≡ length (owned_text self.now) }
    {
        self.text.len()
    }

    /// Returns whether the text is empty.
    ///
    /// A new one is empty, and `a` is not.
    pub fn is_empty(&self) -> bool
        ensures { result ≡ (length (owned_text self.now) == 0) }
    {
        self.text.is_empty()
    }

    /// Returns how many bytes the text may have before it allocates again.
    ///
    /// Of one made by `with_capacity(alloc, 10)` it is at least 10.
    pub fn capacity(&self) -> usize
        ensures { result ≡ owned_capacity self.now }
    {
        self.text.capacity()
    }

    /// Makes the text empty, and keeps its memory.
    ///
    /// `a%26b` becomes the empty text, and its capacity stays.
    pub fn clear(&mut self)
        ensures text { owned_text self.new ≡ [] }
        ensures capacity { owned_capacity self.new ≡ owned_capacity self.old }
    {
        self.text.clear();
    }

    /// Returns the text as a `String`.
    ///
    /// Of what was built as `a%26b` it is the `String` of that text.
    pub fn into_string(self) -> String
        ensures { string_bytes result ≡ owned_text self }
    {
        self.text
    }

    /// Appends the text, encoded by `SubE`: each character that its table allows as it is, and
    /// each other as the octets of its UTF-8 (RFC 3986, section 2.1).
    ///
    /// # Conditions
    ///
    /// The table of `E` allows all that the table of `SubE` allows; `SubE::table().is_subset` tests
    /// it. The table of `SubE` allows percent-encoded octets; `SubE::table().allows_pct_encoded`
    /// tests it.
    ///
    /// # Errors
    ///
    /// Returns an error only if allocation fails. The text is then unchanged.
    ///
    /// # Examples
    ///
    /// `encode_str::<Data>("a&é")` appends `a%26%C3%A9`.
    ///
    /// ```
    /// query.encode_str::<Data>(pair.name.as_str())?;
    /// query.push('=')?;
    /// query.encode_str::<Data>(pair.value.as_str())?;
    /// ```
    pub fn encode_str<SubE: Encoder>(&mut self, text: &str) -> Result<(), AllocError>
        requires subset { IsSubset SubE.set E.set }
        requires octets { IsTrue (SubE.set).pct_encoded }
        ensures text { OnOk result (owned_text self.new ≡ owned_text self.old
            ++ print (encode_text SubE.set text.now)) }
        ensures tokens { OnOk result (tokens (owned_text self.new) ≡ tokens (owned_text self.old)
            ++ encode_text SubE.set text.now) }
        ensures kept { OnErr result (owned_text self.new ≡ owned_text self.old) }
    {
        append_text(&SubE::table(), text, &mut self.text)?;
        Ok(())
    }

    /// Appends the bytes, encoded by `SubE`: each character that its table allows as it is, and
    /// each other byte as an octet (RFC 3986, section 2.1).
    ///
    /// # Conditions
    ///
    /// The table of `E` allows all that the table of `SubE` allows; `SubE::table().is_subset` tests
    /// it. The table of `SubE` allows percent-encoded octets; `SubE::table().allows_pct_encoded`
    /// tests it.
    ///
    /// # Errors
    ///
    /// Returns an error only if allocation fails. The text is then unchanged.
    ///
    /// # Examples
    ///
    /// `encode_bytes::<Data>(b"a\xE9")` appends `a%E9`.
    ///
    /// ```
    /// query.encode_bytes::<Data>(bytes)
    /// ```
    pub fn encode_bytes<SubE: Encoder>(&mut self, bytes: &[u8]) -> Result<(), AllocError>
        requires subset { IsSubset SubE.set E.set }
        requires octets { IsTrue (SubE.set).pct_encoded }
        ensures text { OnOk result (owned_text self.new ≡ owned_text self.old
            ++ print (encode_bytes SubE.set bytes.now)) }
        ensures tokens { OnOk result (tokens (owned_text self.new) ≡ tokens (owned_text self.old)
            ++ encode_bytes SubE.set bytes.now) }
        ensures kept { OnErr result (owned_text self.new ≡ owned_text self.old) }
    {
        append_bytes(&SubE::table(), bytes, &mut self.text)?;
        Ok(())
    }

    /// Appends a character that the table of `E` allows.
    ///
    /// # Conditions
    ///
    /// The table of `E` allows the character; `E::table().allows` tests it.
    ///
    /// # Errors
    ///
    /// Returns an error only if allocation fails, which it never does within the capacity. The text
    /// is then unchanged.
    ///
    /// # Examples
    ///
    /// For a query, `push('&')` appends `&`.
    ///
    /// ```
    /// if Query::table().allows(ch) {
    ///     query.push(ch)?;
    /// }
    /// ```
    pub fn push(&mut self, ch: char) -> Result<(), AllocError>
        requires { IsTrue (allows E.set ch) }
        ensures text { OnOk result (owned_text self.new ≡ owned_text self.old ++ encode_utf8 ch) }
        ensures tokens { OnOk result (tokens (owned_text self.new) ≡ tokens (owned_text self.old)
            ++ Char ch ∷ []) }
        ensures kept { OnErr result (owned_text self.new ≡ owned_text self.old) }
        ensures full { OnErr result (owned_capacity self.old < length (owned_text self.old) + length
            (encode_utf8 ch)) }
    {
        self.text.push(ch)?;
        Ok(())
    }

    /// Appends a text that is valid for `E`, as it is.
    ///
    /// For a query, `push_estr(EStr::new_or_panic("a=%20"))` appends `a=%20`.
    ///
    /// # Errors
    ///
    /// Only if allocation fails, never within the capacity. The text is then as it was.
    pub fn push_estr(&mut self, text: EStr<'_, E>) -> Result<(), AllocError>
        ensures text { OnOk result (owned_text self.new ≡ owned_text self.old
            ++ text_of text.entry) }
        ensures tokens { OnOk result (tokens (owned_text self.new) ≡ tokens (owned_text self.old)
            ++ tokens (text_of text.entry)) }
        ensures kept { OnErr result (owned_text self.new ≡ owned_text self.old) }
        ensures full { OnErr result (owned_capacity self.old < length (owned_text self.old) + length
            (text_of text.entry)) }
    {
        self.text.push_str(text.as_str())?;
        Ok(())
    }
}

impl<'a, E: Encoder> EStr<'a, E> {
    ghost use Rattle.uri_pct.specs.EStrings.{owned_text};

    /// Returns a copy of the text in memory of its own.
    ///
    /// Of `a%20b` it is `a%20b`, in memory of its own.
    ///
    /// # Errors
    ///
    /// Only if allocation fails.
    pub fn to_owned(self, alloc: Global) -> Result<EString<E>, AllocError>
        ensures { IfOk result (λ s. owned_text s ≡ text_of self.entry) }
    {
        Ok(EString::of_text(String::from_str(alloc, self.as_str())?))
    }
}

impl<E: Encoder> fmt::Display for EString<E> {
    ghost use Rattle.uri_pct.specs.EStrings.{owned_text};

    ghost output = { λ e. Some (owned_text e) };

    ghost styled_output = { λ e spec. Some (styled_text spec (owned_text e)) };

    /// Prints the text as it is, padded and cut as the format asks.
    fn fmt<W: fmt::Write>(&self, f: &mut fmt::Formatter<W>) -> fmt::Result {
        f.pad(self.as_str())
    }
}

impl<E: Encoder> fmt::Debug for EString<E> {
    ghost use Rattle.uri_pct.specs.EStrings.{owned_text};

    ghost debug_output = { λ e. debug_str (owned_text e) };

    /// Prints the text in quotes, as `Debug` of a `str` does.
    fn fmt<W: fmt::Write>(&self, f: &mut fmt::Formatter<W>) -> fmt::Result {
        fmt::Debug::fmt(&self.as_str(), f)
    }
}

impl<E: Encoder> PartialEq for EString<E> {
    ghost use Rattle.uri_pct.specs.EStrings.{owned_text};

    ghost eq = { on owned_text (pointwise ◌==◌) };

    ghost laws = { Prim.search (comparing, rules) };

    /// Returns whether the texts are equal, byte by byte: `%2f` is not equal to `%2F`.
    fn eq(&self, other: &Self) -> bool {
        self.text.as_str() == other.text.as_str()
    }
}

impl<E: Encoder> Eq for EString<E> {
    ghost laws = { Prim.search (comparing, rules) };
}

impl<E: Encoder> Ord for EString<E> {
    ghost use Rattle.uri_pct.specs.EStrings.{owned_text};

    ghost cmp = { on owned_text (slice_cmp nat_cmp) };

    ghost total = { Prim.search (comparing, rules) };

    ghost matches_partial_cmp = { Prim.search (comparing, rules) };

    ghost matches_eq = { Prim.search (comparing, rules) };

    /// Compares the texts byte by byte.
    fn cmp(&self, other: &Self) -> Ordering {
        self.text.as_str().cmp(other.text.as_str())
    }
}

impl<E: Encoder> PartialOrd for EString<E> {
    ghost use Rattle.uri_pct.specs.EStrings.{owned_text};

    ghost partial_cmp = { as_partial_cmp (on owned_text (slice_cmp nat_cmp)) };

    ghost laws = { partial_order_from_own_ties (Prim.search (comparing, rules))
        (Prim.search (comparing, rules)) };

    /// Compares the texts as `cmp` does.
    fn partial_cmp(&self, other: &Self) -> Option<Ordering> {
        Some(self.cmp(other))
    }
}

impl<E: Encoder> Hash for EString<E> {
    ghost use Rattle.uri_pct.specs.EStrings.{owned_text};

    ghost hash_input = { λ e. fed.str (owned_text e) };

    ghost respects_eq = { Prim.search (hashing, rules) };

    /// Hashes the text.
    fn hash<H: Hasher>(&self, state: &mut H) {
        self.text.as_str().hash(state);
    }
}
