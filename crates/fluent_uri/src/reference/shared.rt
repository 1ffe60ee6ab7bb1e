//! Calls of every reference, whether its text is borrowed or owned. Their results borrow nothing.
ghost use Rattle.std.specs.Prelude.{◌≡◌, IfOk, is_some, option_map};
ghost use Rattle.uri_pct.specs.Prelude.{text_of};
ghost use Rattle.uri_parts.specs.Prelude.{IsWithFragment, components};
ghost use Rattle.uri_ops.specs.Prelude.{IsNormalForm, default_rules};
ghost use Rattle.fluent_uri.specs.References.{reference_text};

use crate::reference::Reference;
use std::alloc::{AllocError, Global};
use std::convert::AsStr;
use uri_ops::normalize;
use uri_ops::traits::RiMaybeRef;
use uri_parts::kind::Kind;
use uri_pct::pct_enc::EStr;

impl<K: Kind, T: AsStr> Reference<K, T> {
    /// Returns whether there is an authority.
    ///
    /// # Examples
    ///
    /// `http://example.com` has one, and `http:a` has none.
    ///
    /// ```
    /// pub fn has_all_parts(value: &Uri<String>) -> bool {
    ///     value.has_authority() && value.has_query() && value.has_fragment()
    /// }
    /// ```
    pub fn has_authority(&self) -> bool
        ensures { result ≡ is_some (components (reference_text self.now)).authority }
    {
        self.core().has_authority()
    }

    /// Returns whether there is a query.
    ///
    /// `http:a?` has one, which is empty, and `http:a` has none.
    pub fn has_query(&self) -> bool
        ensures { result ≡ is_some (components (reference_text self.now)).query }
    {
        self.core().has_query()
    }

    /// Returns whether there is a fragment.
    ///
    /// `http:a#` has one, which is empty, and `http:a` has none.
    pub fn has_fragment(&self) -> bool
        ensures { result ≡ is_some (components (reference_text self.now)).fragment }
    {
        self.core().has_fragment()
    }

    /// Returns a copy with this fragment, or without a fragment if it is `None` (RFC 3986, section
    /// 3.5).
    ///
    /// | Text | Fragment | Copy |
    /// |---|---|---|
    /// | `http://example.com/` | `fragment` | `http://example.com/#fragment` |
    /// | `http://example.com/#a` | empty | `http://example.com/#` |
    /// | `http://example.com/#a` | `None` | `http://example.com/` |
    ///
    /// # Errors
    ///
    /// Returns an error only if allocation fails.
    pub fn with_fragment(
        &self,
        alloc: Global,
        fragment: Option<EStr<'_, K::FragmentE>>,
    ) -> Result<Reference<K, String>, AllocError>
        ensures { IfOk result (λ made.
            IsWithFragment (reference_text self.now) (option_map text_of fragment.entry)
            (reference_text made)) }
    {
        Ok(Reference {
            core: self.core().with_fragment(alloc, fragment)?,
        })
    }

    /// Returns the normal form, as `Normalizer::new()` does (RFC 3986, section 6.2.2).
    ///
    /// # Errors
    ///
    /// Returns an error only if allocation fails.
    ///
    /// # Examples
    ///
    /// | Text | Normal form as a URI | As an IRI |
    /// |---|---|---|
    /// | `HTTP://Example.com:80/%7efoo` | `http://example.com/~foo` | the same |
    /// | `HTTP://example.com/%c3%a9` | `http://example.com/%C3%A9` | `http://example.com/é` |
    ///
    /// ```
    /// Ok(Uri::<&str>::parse(text)?.normalize(alloc)?)
    /// ```
    pub fn normalize(&self, alloc: Global) -> Result<Reference<K, String>, AllocError>
        ensures { IfOk result (λ normal.
            IsNormalForm K.kind default_rules (reference_text self.now) (reference_text normal)) }
    {
        normalize::normalize_with_defaults(alloc, self)
    }
}
