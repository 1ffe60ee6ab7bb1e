//! The positions of a text's components (RFC 3986, appendix B), and the components cut out by them.
ghost use Rattle.std.specs.Prelude.{◌≡◌, None, is_some, option_map};
ghost use Rattle.uri_parts.specs.Components.{components};
ghost use Rattle.uri_parts.specs.Fragments.{IsWithFragment};
ghost use Rattle.uri_parts.specs.Grammar.{Kind, IsOfKind};

/// The positions of a text's components, as byte offsets into it.
///
/// A component runs up to the position that is named for its end. The fragment, if there is one,
/// runs from after its `#` to the end of the text.
#[doc(hidden)]
#[derive(Clone, Copy, Debug)]
pub struct Positions {
    /// The position of the `:` after the scheme, if there is a scheme.
    pub scheme_end: Option<usize>,
    /// The positions of the authority, if there is one.
    pub authority: Option<AuthorityPositions>,
    /// Where the path begins.
    pub path_start: usize,
    /// Where the path ends.
    pub path_end: usize,
    /// Where the query ends, if there is one.
    pub query_end: Option<usize>,
}

/// The positions of an authority, after its `//`, as byte offsets into the whole text.
#[doc(hidden)]
#[derive(Clone, Copy, Debug)]
pub struct AuthorityPositions {
    /// Where it begins.
    pub start: usize,
    /// Where its host begins.
    pub host_start: usize,
    /// Where its host ends.
    pub host_end: usize,
    /// Where it ends.
    pub end: usize,
}

impl Positions {
    ghost use Rattle.uri_parts.specs.Positions.{ArePositionsOf, before_fragment};

    /// Returns whether the text has a scheme.
    pub fn has_scheme(&self, text: &str) -> bool
        requires { ArePositionsOf text.now self.now }
        ensures { result ≡ is_some (components text.now).scheme }
    {
        self.scheme_end.is_some()
    }

    /// Returns whether the text has an authority.
    pub fn has_authority(&self, text: &str) -> bool
        requires { ArePositionsOf text.now self.now }
        ensures { result ≡ is_some (components text.now).authority }
    {
        self.authority.is_some()
    }

    /// Returns whether the text has a query.
    pub fn has_query(&self, text: &str) -> bool
        requires { ArePositionsOf text.now self.now }
        ensures { result ≡ is_some (components text.now).query }
    {
        self.query_end.is_some()
    }

    /// Returns whether the text has a fragment.
    pub fn has_fragment(&self, text: &str) -> bool
        requires { ArePositionsOf text.now self.now }
        ensures { result ≡ is_some (components text.now).fragment }
    {
        self.before_fragment() < text.len()
    }

    /// Returns the scheme of the text, without its `:`.
    pub fn scheme<'a>(&self, text: &'a str) -> Option<&'a str>
        requires { ArePositionsOf text.now self.now }
        ensures { option_map (λ s. s.now) result ≡ (components text.now).scheme }
    {
        let end = self.scheme_end?;
        Some(&text[..end])
    }

    /// Returns the authority of the text, without its `//`.
    pub fn authority<'a>(&self, text: &'a str) -> Option<&'a str>
        requires { ArePositionsOf text.now self.now }
        ensures { option_map (λ s. s.now) result ≡ (components text.now).authority }
    {
        let authority = self.authority?;
        Some(&text[authority.start..authority.end])
    }

    /// Returns the path of the text.
    pub fn path<'a>(&self, text: &'a str) -> &'a str
        requires { ArePositionsOf text.now self.now }
        ensures { result.now ≡ (components text.now).path }
    {
        &text[self.path_start..self.path_end]
    }

    /// Returns the query of the text, without its `?`.
    pub fn query<'a>(&self, text: &'a str) -> Option<&'a str>
        requires { ArePositionsOf text.now self.now }
        ensures { option_map (λ s. s.now) result ≡ (components text.now).query }
    {
        let end = self.query_end?;
        Some(&text[self.path_end + 1..end])
    }

    /// Returns the fragment of the text, without its `#`.
    pub fn fragment<'a>(&self, text: &'a str) -> Option<&'a str>
        requires { ArePositionsOf text.now self.now }
        ensures { option_map (λ s. s.now) result ≡ (components text.now).fragment }
    {
        let mark = self.before_fragment();
        if mark < text.len() {
            Some(&text[mark + 1..])
        } else {
            None
        }
    }

    /// Returns the text up to its fragment.
    pub fn without_fragment<'a>(&self, text: &'a str) -> &'a str
        requires { ArePositionsOf text.now self.now }
        ensures fragment { IsWithFragment text.now None result.now }
        ensures of_kind { (kind : Kind) → IsOfKind kind text.now → IsOfKind kind result.now }
        ensures at { ArePositionsOf result.now self.now }
    {
        &text[..self.before_fragment()]
    }

    /// Returns where the query ends, or the path if there is none. A fragment's `#` is there.
    pub fn before_fragment(&self) -> usize
        ensures { result ≡ before_fragment self.now }
    {
        self.query_end.unwrap_or(self.path_end)
    }
}
