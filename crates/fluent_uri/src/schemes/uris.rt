//! The scheme of a `Uri`, which has one (RFC 3986, section 3), and of a `UriRef`, which may have
//! one (section 4.1).
ghost use Rattle.std.specs.Prelude.{◌≡◌, Some, codes, is_some, option_map};
ghost use Rattle.uri_parts.specs.Prelude.{components, scheme_text};
ghost use Rattle.fluent_uri.specs.PrintedReferences.{debug_with_optional_scheme, debug_with_scheme};
ghost use Rattle.fluent_uri.specs.References.{reference_text};

use crate::reference::Reference;
use std::convert::AsStr;
use std::fmt;
use uri_ops::traits::RiMaybeRef;
use uri_parts::component::Scheme;
use uri_parts::kind::{UriKind, UriRefKind};

#[tactic(auto, using(uri_parts::proofs::TextKinds::KindSets::uri_laws))]
impl<'a> Reference<UriKind, &'a str> {
    /// Returns the scheme without its `:` (RFC 3986, section 3.1).
    ///
    /// `http://example.com/a?b#c` has the scheme `http`.
    pub fn scheme(self) -> Scheme<'a>
        ensures { Some (scheme_text result) ≡ (components (reference_text self.entry)).scheme }
    {
        self.into_core().needed_scheme()
    }
}

impl Reference<UriKind, String> {
    /// Returns the scheme without its `:` (RFC 3986, section 3.1).
    ///
    /// `http://example.com/a?b#c` has the scheme `http`.
    pub fn scheme(&self) -> Scheme<'_>
        ensures { Some (scheme_text result) ≡ (components (reference_text self.now)).scheme }
    {
        self.borrow().scheme()
    }
}

impl<'a> Reference<UriRefKind, &'a str> {
    /// Returns the scheme without its `:`, if there is one (RFC 3986, section 3.1).
    ///
    /// `http://example.com/a?b#c` has the scheme `http`, and `a` has none.
    pub fn scheme(self) -> Option<Scheme<'a>>
        ensures { option_map scheme_text result ≡ (components (reference_text self.entry)).scheme }
    {
        self.into_core().scheme()
    }
}

impl Reference<UriRefKind, String> {
    /// Returns the scheme without its `:`, if there is one (RFC 3986, section 3.1).
    ///
    /// `http://example.com/a?b#c` has the scheme `http`, and `a` has none.
    pub fn scheme(&self) -> Option<Scheme<'_>>
        ensures { option_map scheme_text result ≡ (components (reference_text self.now)).scheme }
    {
        self.core().scheme()
    }
}

impl<T: AsStr> Reference<UriRefKind, T> {
    /// Returns whether there is a scheme.
    ///
    /// `http://example.com` has one, and `a` has none.
    pub fn has_scheme(&self) -> bool
        ensures { result ≡ is_some (components (reference_text self.now)).scheme }
    {
        self.core().has_scheme()
    }
}

#[tactic(auto, using(uri_parts::proofs::TextKinds::KindSets::uri_laws))]
impl<T: AsStr> fmt::Debug for Reference<UriKind, T> {
    ghost debug_output = { λ value. debug_with_scheme (codes "Uri") (reference_text value) };

    /// Prints each component with its name.
    fn fmt<W: fmt::Write>(&self, f: &mut fmt::Formatter<W>) -> fmt::Result {
        let core = self.core();
        core.debug("Uri", core.needed_scheme(), f)
    }
}

impl<T: AsStr> fmt::Debug for Reference<UriRefKind, T> {
    ghost debug_output = { λ value.
        debug_with_optional_scheme (codes "UriRef") (reference_text value) };

    /// Prints each component with its name.
    fn fmt<W: fmt::Write>(&self, f: &mut fmt::Formatter<W>) -> fmt::Result {
        let core = self.core();
        core.debug("UriRef", core.scheme(), f)
    }
}
