//! Builders of the four kinds, and the empty reference (RFC 3986, sections 4.4 and 5.3).
ghost use Rattle.std.specs.Prelude.{◌≡◌, []};
ghost use Rattle.uri_ops.specs.Prelude.{contents_of, no_parts, parts_in_state};
ghost use Rattle.fluent_uri.specs.References.{reference_text};

use crate::reference::Reference;
use crate::roles::RefKind;
use std::alloc::Global;
use uri_ops::build::Builder;
use uri_ops::build::state::{NonRefStart, Start};
use uri_parts::core_text::Core;
use uri_parts::kind::{IriKind, IriRefKind, UriKind, UriRefKind};

impl Reference<UriKind, String> {
    /// Returns an empty builder of a URI, with `alloc` as its allocator.
    ///
    /// # Examples
    ///
    /// The scheme `http` and the path `a` make `http:a`.
    ///
    /// ```
    /// let made = Uri::<String>::builder(alloc)
    ///     .scheme(Scheme::new_or_panic("https"))
    ///     .authority(authority)
    ///     .path(path)
    ///     .query(query)
    ///     .build()?;
    /// Ok(made)
    /// ```
    pub fn builder(alloc: Global) -> Builder<Reference<UriKind, String>, NonRefStart>
        ensures { parts_in_state (contents_of result) ≡ no_parts }
    {
        Builder::with_needed_scheme(alloc)
    }
}

impl Reference<IriKind, String> {
    /// Returns an empty builder of an IRI, with `alloc` as its allocator.
    ///
    /// # Examples
    ///
    /// The scheme `http` and the path `é` make `http:é`.
    ///
    /// ```
    /// Iri::<String>::builder(alloc)
    ///     .scheme(scheme)
    ///     .path(path)
    ///     .build()
    /// ```
    pub fn builder(alloc: Global) -> Builder<Reference<IriKind, String>, NonRefStart>
        ensures { parts_in_state (contents_of result) ≡ no_parts }
    {
        Builder::with_needed_scheme(alloc)
    }
}

impl Reference<UriRefKind, String> {
    /// Returns an empty builder of a URI reference, with `alloc` as its allocator.
    ///
    /// # Examples
    ///
    /// The path `a` alone makes `a`.
    ///
    /// ```
    /// UriRef::<String>::builder(alloc)
    ///     .path(path)
    ///     .optional(Builder::query, query)
    ///     .build()
    /// ```
    pub fn builder(alloc: Global) -> Builder<Reference<UriRefKind, String>, Start>
        ensures { parts_in_state (contents_of result) ≡ no_parts }
    {
        Builder::of_reference(alloc)
    }
}

impl Reference<IriRefKind, String> {
    /// Returns an empty builder of an IRI reference, with `alloc` as its allocator.
    ///
    /// The path `é` alone makes `é`.
    pub fn builder(alloc: Global) -> Builder<Reference<IriRefKind, String>, Start>
        ensures { parts_in_state (contents_of result) ≡ no_parts }
    {
        Builder::of_reference(alloc)
    }
}

#[tactic(auto, using(uri_parts::proofs::TextKinds::KindSets::empty_is_reference))]
impl<'a, K: RefKind> Default for Reference<K, &'a str> {
    ghost is_default = { λ value. reference_text value ≡ [] };

    /// Returns the empty text, a same-document reference (RFC 3986, section 4.4).
    fn default() -> Self {
        Reference::of_core(Core::empty())
    }
}
