//! Calls of a reference that owns its text.
ghost use Rattle.std.specs.Prelude.{◌↔◌, ◌≡◌, IfErr, IfOk, IsOk, MatchResult, None, OnErr, OnOk, Some, option_map, string_bytes};
ghost use Rattle.std.specs.Result.{result_err};
ghost use Rattle.uri_pct.specs.Prelude.{text_of};
ghost use Rattle.uri_parts.specs.Prelude.{IsErrorIn, IsOfKind, IsWithFragment, authority_text, components, refusal};
ghost use Rattle.fluent_uri.specs.References.{held_text, reference_text};

use crate::reference::Reference;
use std::alloc::AllocError;
use uri_parts::component::Authority;
use uri_parts::core_text::Core;
use uri_parts::error::ParseError;
use uri_parts::kind::Kind;
use uri_pct::pct_enc::EStr;

impl<K: Kind> Reference<K, String> {
    /// Parses a text as this kind, from left to right, and allocates nothing.
    ///
    /// `a/b` has no scheme, so it is a `UriRef` but not a `Uri`. `http://é.example` is an `Iri` but
    /// not a `Uri`. `../é` is an `IriRef`, and `a b` is of no kind.
    ///
    /// # Errors
    ///
    /// Returns an error exactly if the text is not of the kind (RFC 3986, sections 3 and 4.1; RFC
    /// 3987, section 2.2). The error says what is wrong, and at which index: a byte offset on a
    /// character boundary. The text is returned with it.
    pub fn parse(text: String) -> Result<Reference<K, String>, (ParseError, String)>
        ensures accepts { IsOk result ↔ IsOfKind K.kind (string_bytes text) }
        ensures text { IfOk result (λ value. reference_text value ≡ string_bytes text) }
        ensures error { option_map (λ refused. refused.0) (result_err result)
            ≡ refusal K.kind (string_bytes text) }
        ensures err { IfErr result (λ refused. IsErrorIn (string_bytes text) refused.0) }
        ensures refused { IfErr result (λ refused.
            refusal K.kind (string_bytes text) ≡ Some refused.0) }
        ensures back { IfErr result (λ refused. string_bytes refused.1 ≡ string_bytes text) }
        // The `String` itself, its buffer and its capacity, is held or comes back.
        ensures held { MatchResult result (λ value. held_text value ≡ text)
            (λ refused. refused.1 ≡ text) }
    {
        match Core::parse(text) {
            Ok(core) => Ok(Reference { core }),
            Err(refused) => Err(refused),
        }
    }

    /// Returns the reference over its own text, which is borrowed.
    ///
    /// A `Uri<String>` of `http://example.com/a?b#c` lends a `Uri<&str>` of the same text.
    pub fn borrow(&self) -> Reference<K, &str>
        ensures { reference_text result ≡ reference_text self.now }
    {
        Reference {
            core: self.core.borrow(),
        }
    }

    /// Returns the reference without its fragment: the text before the `#` (RFC 3986, section 3.5).
    ///
    /// `http://example.com/#fragment` becomes `http://example.com/`.
    pub fn strip_fragment(&self) -> Reference<K, &str>
        ensures { IsWithFragment (reference_text self.now) None (reference_text result) }
    {
        self.borrow().strip_fragment()
    }

    /// Replaces the fragment, or removes it if `fragment` is `None` (RFC 3986, section 3.5).
    ///
    /// # Errors
    ///
    /// Returns an error only if allocation fails. The text, with its fragment, is then unchanged.
    /// With `None` nothing is allocated, so there is no error.
    ///
    /// # Examples
    ///
    /// With the fragment `fragment`, `http://example.com/` becomes `http://example.com/#fragment`.
    /// With `None` that becomes `http://example.com/` again.
    ///
    /// ```
    /// let mut target = UriRef::<&str>::parse(link)?.resolve_against(alloc, base)?;
    /// target.set_fragment(None)?;
    /// Ok(target)
    /// ```
    pub fn set_fragment(
        &mut self,
        fragment: Option<EStr<'_, K::FragmentE>>,
    ) -> Result<(), AllocError>
        ensures set { OnOk result
            (IsWithFragment (reference_text self.old) (option_map text_of fragment.entry)
            (reference_text self.new)) }
        ensures kept { OnErr result (reference_text self.new ≡ reference_text self.old) }
        ensures none { fragment.entry ≡ None → IsOk result }
    {
        self.core.set_fragment(fragment)
    }

    /// Returns the text as a `String`, without a copy.
    ///
    /// # Examples
    ///
    /// A value that was parsed from the `String` `http://example.com/a?b#c` returns that `String`.
    ///
    /// ```
    /// let normal = normal_form(alloc, text)?.into_string();
    /// let count = visits_of(visits, normal.as_str()).saturating_add(1);
    /// visits.insert(normal, count)?;
    /// ```
    pub fn into_string(self) -> String
        ensures text { string_bytes result ≡ reference_text self }
        ensures held { result ≡ held_text self }
    {
        self.core.into_string()
    }

    /// Returns the text.
    ///
    /// A value that was parsed from `http://example.com/a?b#c` returns that text.
    pub fn as_str(&self) -> &str
        ensures text { result.now ≡ reference_text self.now }
        ensures of_kind { IsOfKind K.kind result.now }
    {
        self.borrow().as_str()
    }

    /// Returns the authority without its `//`, if there is one (RFC 3986, section 3.2; RFC 3987,
    /// section 2.2).
    ///
    /// `http://example.com/a?b#c` has the authority `example.com`, the IRI `http://例え.jp/a` has
    /// `例え.jp`, and `http:a` has none.
    pub fn authority(&self) -> Option<Authority<'_, K::UserinfoE, K::RegNameE>>
        ensures { option_map authority_text result
            ≡ (components (reference_text self.now)).authority }
    {
        self.borrow().authority()
    }

    /// Returns the path, which may be empty (RFC 3986, section 3.3; RFC 3987, section 2.2).
    ///
    /// `http://example.com/a?b#c` has the path `/a`, and the path of `http://example.com` is empty.
    pub fn path(&self) -> EStr<'_, K::PathE>
        ensures { text_of result ≡ (components (reference_text self.now)).path }
    {
        self.borrow().path()
    }

    /// Returns the query without its `?`, if there is one (RFC 3986, section 3.4; RFC 3987, section
    /// 2.2).
    ///
    /// `http://example.com/a?b#c` has the query `b`, and `http:a` has none.
    pub fn query(&self) -> Option<EStr<'_, K::QueryE>>
        ensures { option_map text_of result ≡ (components (reference_text self.now)).query }
    {
        self.borrow().query()
    }

    /// Returns the fragment without its `#`, if there is one (RFC 3986, section 3.5; RFC 3987,
    /// section 2.2).
    ///
    /// `http://example.com/a?b#c` has the fragment `c`, and `http:a` has none.
    pub fn fragment(&self) -> Option<EStr<'_, K::FragmentE>>
        ensures { option_map text_of result ≡ (components (reference_text self.now)).fragment }
    {
        self.borrow().fragment()
    }
}
