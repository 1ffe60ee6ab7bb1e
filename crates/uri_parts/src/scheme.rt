//! Schemes (RFC 3986, section 3.1).
ghost use Rattle.std.specs.Prelude.{◌≡◌, ◌==◌, ◌↔◌, IsSome, IfSome, true, Some};
ghost use Rattle.uri_parts.specs.Grammar.{is_scheme};
ghost use Rattle.uri_parts.specs.SchemePorts.{default_port};
ghost use Rattle.std.specs.Fmt.{styled_text, debug_str};
ghost use Rattle.std.proofs.Common.{rules};
ghost use Rattle.std.specs.Cmp.Rules.{comparing, hashing};
ghost use Rattle.std.specs.Ordering.{on};
ghost use Rattle.std.specs.Cmp.Lexicographic.{pointwise};

use crate::default_ports;
use std::fmt;
use std::hash::{Hash, Hasher};
use uri_pct::table::SCHEME;

/// A scheme (RFC 3986, section 3.1).
///
/// Schemes are equal, and have equal hashes, if their texts are the same but for the case of ASCII
/// letters. A scheme is printed unchanged.
///
/// The schemes of `http://a` and of `HTTP://a` are equal; the second is printed as `HTTP`.
#[derive(Clone, Copy)]
pub struct Scheme<'a> {
    text: &'a str,
    pub ghost valid: { is_scheme text.now ≡ true },
}

impl<'a> Scheme<'a> {
    ghost use Rattle.uri_parts.specs.Schemes.{lowered_scheme, scheme_text};

    /// Returns the text as a scheme, or `None` exactly if it is not one. A scheme is a letter
    /// followed by letters, digits, `+`, `-` and `.`.
    ///
    /// # Examples
    ///
    /// `Scheme::new("foo+bar")` is a scheme, and `Scheme::new("1a")` is `None`.
    ///
    /// ```
    /// pub fn scheme_if_one(text: &str) -> Option<Scheme<'_>> {
    ///     if Scheme::new(text).is_some() {
    ///         Some(Scheme::new_or_panic(text))
    ///     } else {
    ///         None
    ///     }
    /// }
    /// ```
    #[tactic(auto, using(uri_pct::proofs::TableSets::Constants::scheme_masks_are_scheme_set))]
    pub fn new(text: &'a str) -> Option<Self>
        ensures valid { IsSome result ↔ (is_scheme text.now ≡ true) }
        ensures same { IfSome result (λ s. scheme_text s ≡ text.now) }
    {
        let [first, ..] = text.as_bytes() else {
            return None;
        };
        if first.is_ascii_alphabetic() && SCHEME.allows_text(text) {
            Some(Scheme::new_or_panic(text))
        } else {
            None
        }
    }

    /// Returns the text as a scheme.
    ///
    /// # Conditions
    ///
    /// The text is a scheme; `new` tests it.
    ///
    /// # Examples
    ///
    /// `Scheme::new_or_panic("http")` is the scheme of `http://a`.
    ///
    /// ```
    /// pub fn http() -> Scheme<'static> {
    ///     Scheme::new_or_panic("http")
    /// }
    /// ```
    pub fn new_or_panic(text: &'a str) -> Self
        requires { is_scheme text.now ≡ true }
        ensures { scheme_text result ≡ text.now }
    {
        Scheme { text }
    }

    /// Returns the text unchanged, for as long as it was borrowed.
    ///
    /// Of the scheme of `HTTP://a` it is `HTTP`.
    pub fn as_str(self) -> &'a str
        ensures text { result.now ≡ scheme_text self.entry }
        ensures valid { is_scheme result.now ≡ true }
    {
        self.text
    }

    /// Returns the default port of the scheme (RFC 3986, section 3.2.3), if it is one of those that
    /// have one here. ASCII case makes no difference.
    ///
    /// # Examples
    ///
    /// Of `http` it is 80, of `HTTPS` 443, and of `foo` there is none.
    ///
    /// ```
    /// let authority = uri.authority()?;
    /// let port = uri.scheme().default_port().unwrap_or(port);
    /// Some(authority.socket_target(alloc, port))
    /// ```
    pub fn default_port(self) -> Option<u16>
        ensures { result ≡ default_port (lowered_scheme self.entry) }
    {
        default_ports::of_scheme(self.text)
    }
}

impl<'a> fmt::Display for Scheme<'a> {
    ghost use Rattle.uri_parts.specs.Schemes.{scheme_text};

    ghost output = { λ s. Some (scheme_text s) };

    ghost styled_output = { λ s spec. Some (styled_text spec (scheme_text s)) };

    /// Prints the text unchanged, padded and cut as the format asks.
    fn fmt<W: fmt::Write>(&self, f: &mut fmt::Formatter<W>) -> fmt::Result {
        f.pad(self.text)
    }
}

impl<'a> fmt::Debug for Scheme<'a> {
    ghost use Rattle.uri_parts.specs.Schemes.{scheme_text};

    ghost debug_output = { λ s. debug_str (scheme_text s) };

    /// Prints the text in quotes, as `Debug` of a `str` does.
    fn fmt<W: fmt::Write>(&self, f: &mut fmt::Formatter<W>) -> fmt::Result {
        fmt::Debug::fmt(&self.text, f)
    }
}

impl<'a> PartialEq for Scheme<'a> {
    ghost use Rattle.uri_parts.specs.Schemes.{lowered_scheme};

    ghost eq = { on lowered_scheme (pointwise ◌==◌) };

    ghost laws = { Prim.search (comparing, rules) };

    /// Returns whether the schemes are equal. ASCII case makes no difference.
    fn eq(&self, other: &Self) -> bool {
        self.as_str().eq_ignore_ascii_case(other.as_str())
    }
}

impl<'a> Eq for Scheme<'a> {
    ghost laws = { Prim.search (comparing, rules) };
}

impl<'a> Hash for Scheme<'a> {
    ghost use Rattle.std.specs.Hash as fed;
    ghost use Rattle.uri_parts.specs.Schemes.{lowered_scheme};

    ghost hash_input = { λ s. fed.slice fed.u8 (lowered_scheme s) };

    ghost respects_eq = { Prim.search (hashing, rules) };

    /// Hashes the scheme in lower case, so that equal schemes have equal hashes.
    fn hash<H: Hasher>(&self, state: &mut H) {
        let bytes = self.text.as_bytes();
        state.write_usize(bytes.len());
        for byte in bytes {
            state.write_u8(byte.to_ascii_lowercase());
        }
    }
}
