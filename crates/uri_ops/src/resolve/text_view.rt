//! A text with the positions of its components, and the substrings that a target takes from it (RFC
//! 3986, section 5.3).
ghost use Rattle.std.specs.Prelude.{◌≡◌, ◌≤◌, ◌+◌, ◌++◌, ℕ, List, [], codes, length, Some, None, is_some, option_map, take, IsUtf8};
ghost use Rattle.uri_parts.specs.Prelude.{ArePackedPositionsOf, ArePositionsOf, IsOfKind, authority_at, components, core_text, host_end_of, marked, packed, positions_of};
ghost use Rattle.uri_ops.specs.Dots.{IsAbsolute};
ghost use Rattle.uri_ops.specs.Models.Directories.{EndsIn};
ghost use Rattle.uri_ops.specs.Models.Places.{IsSlashOrStart, before_path};

use crate::traits::RiMaybeRef;
use uri_parts::core_text::Core;
use uri_parts::kind::Kind;
use uri_parts::packed_positions::PackedPositions;
use uri_parts::positions::{AuthorityPositions, Positions};

/// A text with where its components are, whose host is in its authority.
#[derive(Drop)]
pub struct TextView<'a> {
    text: &'a str,
    positions: PackedPositions,
    pub ghost at: { ArePackedPositionsOf text.now positions },
    pub ghost host: { (a : List ℕ) → (components text.now).authority ≡ Some a
        → host_end_of a ≤ length a },
}

impl<'a> TextView<'a> {
    ghost use Rattle.uri_ops.specs.Resolving.{components_of};

    /// Returns the text of a base or a reference, with the positions of its components.
    pub(crate) fn of<R: RiMaybeRef>(value: &'a R) -> TextView<'a>
        ensures components { components_of result ≡ components (R.text value.now) }
        ensures of_kind { IsOfKind R.kind (R.text value.now) }
        ensures utf8 { IsUtf8 (R.text value.now) }
    {
        TextView::of_core(value.core())
    }

    /// Returns the text of a core, with the positions of its components.
    #[inline(always)]
    pub fn of_core<K: Kind>(core: Core<K, &'a str>) -> TextView<'a>
        ensures components { components_of result ≡ components (core_text core.entry) }
        ensures of_kind { IsOfKind K.kind (core_text core.entry) }
        ensures utf8 { IsUtf8 (core_text core.entry) }
    {
        TextView {
            text: core.as_str(),
            positions: core.packed_positions(),
        }
    }

    /// Returns the text that is viewed.
    pub fn as_str(&self) -> &'a str
        ensures text { result.now ≡ self.now.text.now }
        ensures at { ArePackedPositionsOf result.now self.now.positions }
    {
        self.text
    }

    /// Returns the positions of the components of the text.
    #[inline(always)]
    pub fn positions(&self) -> Positions
        ensures { ArePositionsOf self.now.text.now result }
    {
        self.positions.unpack(self.text)
    }

    /// Returns whether the text has a scheme.
    pub fn has_scheme(&self) -> bool
        ensures { result ≡ is_some (components_of self.now).scheme }
    {
        self.positions().has_scheme(self.text)
    }

    /// Returns whether the text has an authority.
    pub fn has_authority(&self) -> bool
        ensures { result ≡ is_some (components_of self.now).authority }
    {
        self.positions().has_authority(self.text)
    }

    /// Returns whether the text has a query.
    pub fn has_query(&self) -> bool
        ensures { result ≡ is_some (components_of self.now).query }
    {
        self.positions().has_query(self.text)
    }

    /// Returns whether the text has a fragment.
    pub(crate) fn has_fragment(&self) -> bool
        ensures { result ≡ is_some (components_of self.now).fragment }
    {
        self.positions().has_fragment(self.text)
    }

    /// Returns the path of the text, which may be empty.
    pub fn path(&self) -> &'a str
        ensures { result.now ≡ (components_of self.now).path }
    {
        self.positions().path(self.text)
    }

    /// Returns the scheme with its `:`, or no text.
    pub fn scheme_with_delimiter(&self) -> &'a str
        ensures { result.now ≡ marked [] (components_of self.now).scheme (codes ":") }
    {
        let text = self.as_str();
        match self.positions.unpack(text).scheme_end {
            Some(end) => &text[..end + 1],
            None => "",
        }
    }

    /// Returns the scheme and the authority with their marks: what is before the path.
    pub fn before_path(&self) -> &'a str
        ensures { result.now ≡ before_path (components_of self.now) }
    {
        let text = self.as_str();
        let positions = self.positions.unpack(text);
        &text[..positions.path_start]
    }

    /// Returns the text up to the last `/` of its path, and with it.
    pub(crate) fn through_slash(&self, slash: usize) -> &'a str
        requires absolute { IsAbsolute (components_of self.now).path }
        requires place { IsSlashOrStart (components_of self.now).path 0 slash }
        ensures { let p = components_of self.now in
            result.now ≡ before_path p ++ take (slash + 1) p.path }
    {
        let text = self.as_str();
        let positions = self.positions.unpack(text);
        &text[..positions.path_start + slash + 1]
    }

    /// Returns the text up to the end of its path.
    pub(crate) fn through_path(&self) -> &'a str
        ensures { let p = components_of self.now in result.now ≡ before_path p ++ p.path }
    {
        let text = self.as_str();
        let positions = self.positions.unpack(text);
        &text[..positions.path_end]
    }

    /// Returns the text up to its fragment.
    pub(crate) fn before_fragment(&self) -> &'a str
        ensures { let p = components_of self.now in
            result.now ≡ (before_path p ++ p.path) ++ marked (codes "?") p.query [] }
    {
        let text = self.as_str();
        let positions = self.positions.unpack(text);
        &text[..positions.before_fragment()]
    }

    /// Returns the text from this suffix of its path on.
    pub(crate) fn from_path_suffix(&self, rest: &str) -> &'a str
        requires { EndsIn (components_of self.now).path rest.now }
        ensures { let p = components_of self.now in result.now ≡ rest.now
            ++ (marked (codes "?") p.query [] ++ marked (codes "#") p.fragment []) }
    {
        let text = self.as_str();
        let positions = self.positions.unpack(text);
        &text[positions.path_end - rest.len()..]
    }

    /// Returns the query and the fragment with their marks: what is after the path.
    pub fn after_path(&self) -> &'a str
        ensures { let p = components_of self.now in result.now
            ≡ marked (codes "?") p.query [] ++ marked (codes "#") p.fragment [] }
    {
        let text = self.as_str();
        let positions = self.positions.unpack(text);
        &text[positions.path_end..]
    }

    /// Returns the query with its `?`, or no text.
    pub fn query_with_delimiter(&self) -> &'a str
        ensures { result.now ≡ marked (codes "?") (components_of self.now).query [] }
    {
        let text = self.as_str();
        let positions = self.positions.unpack(text);
        &text[positions.path_end..positions.before_fragment()]
    }

    /// Returns the fragment with its `#`, or no text.
    pub fn fragment_with_delimiter(&self) -> &'a str
        ensures { result.now ≡ marked (codes "#") (components_of self.now).fragment [] }
    {
        let text = self.as_str();
        let positions = self.positions.unpack(text);
        &text[positions.before_fragment()..]
    }

    /// Returns the positions of the components of the text as a value holds them.
    pub fn packed_positions(&self) -> PackedPositions
        ensures { result ≡ packed (positions_of (components_of self.now)) }
    {
        self.positions
    }

    /// Returns where the scheme ends, if there is one.
    pub(crate) fn scheme_end(&self) -> Option<usize>
        ensures { result ≡ option_map length (components_of self.now).scheme }
    {
        self.positions().scheme_end
    }

    /// Returns where the authority is, if there is one.
    pub fn authority(&self) -> Option<AuthorityPositions>
        ensures { result ≡ (positions_of (components_of self.now)).authority }
    {
        self.positions().authority
    }

    /// Returns where the authority is, if there is one, when what is before the path is after this
    /// scheme with its `:`.
    pub(crate) fn authority_after(&self, scheme: &str) -> Option<AuthorityPositions>
        requires { (components_of self.now).scheme ≡ None }
        ensures { result ≡ option_map (authority_at (length scheme.now + 2))
            (components_of self.now).authority }
    {
        let places = self.positions().authority?;
        Some(shift_authority(places, self.before_path(), scheme))
    }
}

/// Returns where the authority that ends this text is in a target that has the text after this
/// scheme with its `:`.
fn shift_authority(places: AuthorityPositions, text: &str, scheme: &str) -> AuthorityPositions
    requires start { places.start ≤ places.end }
    requires host_start { places.host_start ≤ places.end }
    requires host_end { places.host_end ≤ places.end }
    requires end { places.end ≡ length text.now }
    ensures start { result.start ≡ length scheme.now + places.start }
    ensures host_start { result.host_start ≡ length scheme.now + places.host_start }
    ensures host_end { result.host_end ≡ length scheme.now + places.host_end }
    ensures end { result.end ≡ length scheme.now + places.end }
{
    let by = scheme.len();
    let end = by + text.len();
    AuthorityPositions {
        start: by + places.start,
        host_start: by + places.host_start,
        host_end: by + places.host_end,
        end,
    }
}
