//! Calls of a reference whose text is borrowed.
ghost use Rattle.std.specs.Prelude.{◌↔◌, ◌≡◌, IfErr, IfOk, IsOk, None, Some, option_map};
ghost use Rattle.std.specs.Result.{result_err};
ghost use Rattle.uri_pct.specs.Prelude.{text_of};
ghost use Rattle.uri_parts.specs.Prelude.{IsErrorIn, IsOfKind, IsWithFragment, authority_text, components, refusal};
ghost use Rattle.fluent_uri.specs.References.{reference_text};

use crate::reference::Reference;
use std::alloc::{AllocError, Global};
use uri_parts::component::Authority;
use uri_parts::core_text::Core;
use uri_parts::error::ParseError;
use uri_parts::kind::Kind;
use uri_pct::pct_enc::EStr;

impl<'a, K: Kind> Reference<K, &'a str> {
    /// Parses a text as this kind, from left to right, and allocates nothing.
    ///
    /// # Errors
    ///
    /// Returns an error exactly if the text is not of the kind (RFC 3986, sections 3 and 4.1; RFC
    /// 3987, section 2.2). The error says what is wrong, and at which index: a byte offset on a
    /// character boundary.
    ///
    /// # Examples
    ///
    /// `a/b` has no scheme, so it is a `UriRef` but not a `Uri`. `http://é.example` is an `Iri` but
    /// not a `Uri`. `../é` is an `IriRef`, and `a b` is of no kind.
    ///
    /// ```
    /// let reference = UriRef::<&str>::parse(text)?;
    /// Ok(Parts {
    ///     scheme: reference.scheme().map(Scheme::as_str),
    ///     host: reference.authority().map(Authority::host),
    ///     path: reference.path().as_str(),
    /// })
    /// ```
    pub fn parse(text: &'a str) -> Result<Reference<K, &'a str>, ParseError>
        ensures accepts { IsOk result ↔ IsOfKind K.kind text.now }
        ensures text { IfOk result (λ value. reference_text value ≡ text.now) }
        ensures error { result_err result ≡ refusal K.kind text.now }
        ensures err { IfErr result (IsErrorIn text.now) }
        ensures refused { IfErr result (λ e. refusal K.kind text.now ≡ Some e) }
    {
        match Core::parse(text) {
            Ok(core) => Ok(Reference { core }),
            Err((error, _)) => Err(error),
        }
    }

    /// Returns the text.
    ///
    /// A value that was parsed from `http://example.com/a?b#c` returns that text.
    pub fn as_str(self) -> &'a str
        ensures text { result.now ≡ reference_text self.entry }
        ensures of_kind { IsOfKind K.kind result.now }
    {
        self.core.as_str()
    }

    /// Returns the authority without its `//`, if there is one (RFC 3986, section 3.2; RFC 3987,
    /// section 2.2).
    ///
    /// # Examples
    ///
    /// `http://example.com/a?b#c` has the authority `example.com`, the IRI `http://例え.jp/a` has
    /// `例え.jp`, and `http:a` has none.
    ///
    /// ```
    /// let authority = uri.authority()?;
    /// let port = uri.scheme().default_port().unwrap_or(port);
    /// Some(authority.socket_target(alloc, port))
    /// ```
    pub fn authority(self) -> Option<Authority<'a, K::UserinfoE, K::RegNameE>>
        ensures { option_map authority_text result
            ≡ (components (reference_text self.entry)).authority }
    {
        self.core.authority()
    }

    /// Returns the path, which may be empty (RFC 3986, section 3.3; RFC 3987, section 2.2).
    ///
    /// # Examples
    ///
    /// `http://example.com/a?b#c` has the path `/a`, and the path of `http://example.com` is empty.
    ///
    /// ```
    /// let reference = UriRef::<&str>::parse(text)?;
    /// Ok(Parts {
    ///     scheme: reference.scheme().map(Scheme::as_str),
    ///     host: reference.authority().map(Authority::host),
    ///     path: reference.path().as_str(),
    /// })
    /// ```
    pub fn path(self) -> EStr<'a, K::PathE>
        ensures { text_of result ≡ (components (reference_text self.entry)).path }
    {
        self.core.path()
    }

    /// Returns the query without its `?`, if there is one (RFC 3986, section 3.4; RFC 3987, section
    /// 2.2).
    ///
    /// `http://example.com/a?b#c` has the query `b`, and `http:a` has none.
    pub fn query(self) -> Option<EStr<'a, K::QueryE>>
        ensures { option_map text_of result ≡ (components (reference_text self.entry)).query }
    {
        self.core.query()
    }

    /// Returns the fragment without its `#`, if there is one (RFC 3986, section 3.5; RFC 3987,
    /// section 2.2).
    ///
    /// `http://example.com/a?b#c` has the fragment `c`, and `http:a` has none.
    pub fn fragment(self) -> Option<EStr<'a, K::FragmentE>>
        ensures { option_map text_of result ≡ (components (reference_text self.entry)).fragment }
    {
        self.core.fragment()
    }

    /// Returns the reference without its fragment: the text before the `#` (RFC 3986, section 3.5).
    ///
    /// `http://example.com/#fragment` becomes `http://example.com/`.
    pub fn strip_fragment(self) -> Reference<K, &'a str>
        ensures { IsWithFragment (reference_text self.entry) None (reference_text result) }
    {
        Reference {
            core: self.core.strip_fragment(),
        }
    }

    /// Returns a copy of the reference that owns its text.
    ///
    /// A `Uri<&str>` of `http://example.com/a?b#c` becomes a `Uri<String>` of the same text.
    ///
    /// # Errors
    ///
    /// Returns an error only if allocation fails.
    pub fn to_owned(self, alloc: Global) -> Result<Reference<K, String>, AllocError>
        ensures { IfOk result (λ owned. reference_text owned ≡ reference_text self.entry) }
    {
        Ok(Reference {
            core: self.core.to_owned(alloc)?,
        })
    }
}
