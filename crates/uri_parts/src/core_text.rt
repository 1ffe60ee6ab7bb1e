//! A text of a kind with the positions of its components: what every value of a kind holds.
ghost use Rattle.std.specs.Prelude.{◌≡◌, ◌↔◌, [], IfErr, IfOk, IsOk, MatchResult, None, Some, is_some, option_map, true, ⊤, IsUtf8};
ghost use Rattle.std.specs.Result.{result_err};
ghost use Rattle.uri_parts.specs.Components.{components};
ghost use Rattle.uri_parts.specs.Errors.{IsErrorIn};
ghost use Rattle.uri_parts.specs.Refusals.{refusal};
ghost use Rattle.uri_parts.specs.Fragments.{IsWithFragment};
ghost use Rattle.uri_parts.specs.Grammar.{IsOfKind};
ghost use Rattle.uri_parts.specs.PackedPositions.{ArePackedPositionsOf};
ghost use Rattle.uri_parts.specs.Positions.{ArePositionsOf};
ghost use Rattle.uri_pct.specs.Prelude.{text_of};
ghost use Rattle.uri_parts.specs.Schemes.{scheme_text};
ghost use Rattle.uri_parts.specs.AuthorityTexts.{authority_text};

mod comparing;
mod owned;

use crate::component::{Authority, Scheme};
use crate::error::ParseError;
use crate::fragment;
use crate::kind::Kind;
use crate::packed_positions::PackedPositions;
use crate::parse::parse;
use crate::positions::Positions;
use std::alloc::{AllocError, Global};
use std::convert::AsStr;
use std::marker::PhantomData;
use uri_pct::pct_enc::EStr;

/// Returns the positions for the `Core` of a text that is known to be of the kind.
fn positions_in<K: Kind>(text: &str) -> PackedPositions
    requires { IsOfKind K.kind text.now }
    ensures { ArePackedPositionsOf text.now result }
{
    match parse::<K>(text) {
        Ok(positions) => positions,
        Err(_) => unreachable!(),
    }
}

/// A text of the kind of `K`, and the positions of its components.
#[doc(hidden)]
#[derive(Drop)]
pub struct Core<K: Kind, T: AsStr> {
    text: T,
    positions: PackedPositions,
    kind: PhantomData<K>,
    pub ghost of_kind: { IsOfKind K.kind (T.text text) },
    pub ghost at: { ArePackedPositionsOf (T.text text) positions },
}

impl<K: Kind, T: AsStr + Copy> Clone for Core<K, T> {
    ghost is_clone = { λ value copy. copy ≡ value };

    ghost is_infallible = { λ _. ⊤ };

    /// Returns the same text with the same positions.
    fn clone(&self) -> Result<Self, AllocError> {
        Ok(Core {
            text: self.text,
            positions: self.positions,
            kind: PhantomData,
        })
    }
}

impl<K: Kind, T: AsStr + Copy> Copy for Core<K, T> {}

impl<K: Kind, T: AsStr> Core<K, T> {
    ghost use Rattle.uri_parts.specs.CoreTexts.{core_text};

    /// Returns the text with the positions of its own components.
    #[inline(always)]
    pub fn new(text: T, positions: PackedPositions) -> Self
        requires of_kind { IsOfKind K.kind (T.text text) }
        requires at { ArePackedPositionsOf (T.text text) positions }
        ensures text { core_text result ≡ T.text text }
        ensures held { result.text ≡ text }
    {
        Core {
            text,
            positions,
            kind: PhantomData,
        }
    }

    /// Parses a text as one of the kind, or returns the error and the text.
    #[inline(always)]
    pub fn parse(text: T) -> Result<Core<K, T>, (ParseError, T)>
        ensures accepts { IsOk result ↔ IsOfKind K.kind (T.text text) }
        ensures text { IfOk result (λ core. core_text core ≡ T.text text) }
        ensures err { IfErr result (λ refused. IsErrorIn (T.text text) refused.0) }
        ensures error { option_map (λ refused. refused.0) (result_err result)
            ≡ refusal K.kind (T.text text) }
        ensures refused { IfErr result (λ refused.
            refusal K.kind (T.text text) ≡ Some refused.0) }
        ensures back { IfErr result (λ refused. T.text refused.1 ≡ T.text text) }
        ensures held { MatchResult result (λ core. core.text ≡ text) (λ refused. refused.1 ≡ text) }
    {
        match parse::<K>(text.as_str()) {
            Ok(positions) => Ok(Core::new(text, positions)),
            Err(error) => Err((error, text)),
        }
    }

    /// Parses a text that is known to be of the kind.
    pub fn of_text(text: T) -> Core<K, T>
        requires { IsOfKind K.kind (T.text text) }
        ensures { core_text result ≡ T.text text }
    {
        let positions = positions_in::<K>(text.as_str());
        Core::new(text, positions)
    }

    /// Returns the same text and positions as of another kind, of which the text is too.
    #[inline(always)]
    pub fn into_kind<L: Kind>(self) -> Core<L, T>
        requires { IsOfKind L.kind (core_text self) }
        ensures { core_text result ≡ core_text self }
    {
        Core::new(self.text, self.positions)
    }

    /// Returns the borrowed text with the same positions.
    #[inline(always)]
    pub fn borrow(&self) -> Core<K, &str>
        ensures text { core_text result ≡ core_text self.now }
        ensures of_kind { IsOfKind K.kind (core_text self.now) }
        ensures utf8 { IsUtf8 (core_text self.now) }
    {
        Core::new(self.text.as_str(), self.positions)
    }
}

#[tactic(auto, using(crate::proofs::TextKinds::ComponentRules::parts_valid))]
impl<'a, K: Kind> Core<K, &'a str> {
    ghost use Rattle.uri_parts.specs.CoreTexts.{core_text};

    /// Returns the text.
    #[inline(always)]
    pub fn as_str(self) -> &'a str
        ensures text { result.now ≡ core_text self.entry }
        ensures of_kind { IsOfKind K.kind result.now }
    {
        self.text
    }

    /// Returns the empty text with its positions.
    pub fn empty() -> Core<K, &'a str>
        requires { IsOfKind K.kind [] }
        ensures { core_text result ≡ [] }
    {
        let positions = PackedPositions {
            scheme_end: 0,
            host_start: 0,
            host_end: 0,
            path_start: 0,
            path_end: 0,
            query_end: 0,
        };
        Core::new("", positions)
    }

    /// Returns the positions of the components of the text as a value holds them.
    #[inline(always)]
    pub fn packed_positions(self) -> PackedPositions
        ensures { ArePackedPositionsOf (core_text self.entry) result }
    {
        self.positions
    }

    /// Returns the positions of the components of the text.
    #[inline(always)]
    pub fn positions(self) -> Positions
        ensures { ArePositionsOf (core_text self.entry) result }
    {
        self.positions.unpack(self.text)
    }

    /// Returns whether the text has a scheme.
    pub fn has_scheme(self) -> bool
        ensures { result ≡ is_some (components (core_text self.entry)).scheme }
    {
        self.positions().has_scheme(self.text)
    }

    /// Returns whether the text has an authority.
    pub fn has_authority(self) -> bool
        ensures { result ≡ is_some (components (core_text self.entry)).authority }
    {
        self.positions().has_authority(self.text)
    }

    /// Returns whether the text has a query.
    pub fn has_query(self) -> bool
        ensures { result ≡ is_some (components (core_text self.entry)).query }
    {
        self.positions().has_query(self.text)
    }

    /// Returns whether the text has a fragment.
    pub fn has_fragment(self) -> bool
        ensures { result ≡ is_some (components (core_text self.entry)).fragment }
    {
        self.positions().has_fragment(self.text)
    }

    /// Returns the scheme without its `:`, if there is one.
    pub fn scheme(self) -> Option<Scheme<'a>>
        ensures { option_map scheme_text result ≡ (components (core_text self.entry)).scheme }
    {
        match self.positions().scheme(self.text) {
            Some(scheme) => Some(Scheme::new_or_panic(scheme)),
            None => None,
        }
    }

    /// Returns the scheme without its `:`, where it is known that there is one.
    pub fn needed_scheme(self) -> Scheme<'a>
        requires { is_some (components (core_text self)).scheme ≡ true }
        ensures { Some (scheme_text result) ≡ (components (core_text self.entry)).scheme }
    {
        match self.scheme() {
            Some(scheme) => scheme,
            None => unreachable!(),
        }
    }

    /// Returns the authority without its `//`, if there is one.
    pub fn authority(self) -> Option<Authority<'a, K::UserinfoE, K::RegNameE>>
        ensures { option_map authority_text result ≡ (components (core_text self.entry)).authority }
    {
        let places = self.positions().authority?;
        let text = self.positions().authority(self.text)?;
        Some(Authority::new_unchecked(
            text,
            places.host_start - places.start,
            places.host_end - places.start,
        ))
    }

    /// Returns the path, which may be empty.
    pub fn path(self) -> EStr<'a, K::PathE>
        ensures { text_of result ≡ (components (core_text self.entry)).path }
    {
        EStr::new_or_panic(self.positions().path(self.text))
    }

    /// Returns the query without its `?`, if there is one.
    pub fn query(self) -> Option<EStr<'a, K::QueryE>>
        ensures { option_map text_of result ≡ (components (core_text self.entry)).query }
    {
        match self.positions().query(self.text) {
            Some(query) => Some(EStr::new_or_panic(query)),
            None => None,
        }
    }

    /// Returns the fragment without its `#`, if there is one.
    pub fn fragment(self) -> Option<EStr<'a, K::FragmentE>>
        ensures { option_map text_of result ≡ (components (core_text self.entry)).fragment }
    {
        match self.positions().fragment(self.text) {
            Some(fragment) => Some(EStr::new_or_panic(fragment)),
            None => None,
        }
    }

    /// Returns the text up to its `#`, with the positions of what is left of it.
    pub fn strip_fragment(self) -> Core<K, &'a str>
        ensures { IsWithFragment (core_text self.entry) None (core_text result) }
    {
        Core::new(self.positions().without_fragment(self.text), self.positions)
    }

    /// Returns a copy of the text with this fragment instead of its own, or with none.
    pub fn with_fragment(
        self,
        alloc: Global,
        fragment: Option<EStr<'_, K::FragmentE>>,
    ) -> Result<Core<K, String>, AllocError>
        ensures { IfOk result (λ made.
            IsWithFragment (core_text self.entry) (option_map text_of fragment.entry)
            (core_text made)) }
    {
        let text = fragment::with_fragment(alloc, self.text, &self.positions(), fragment)?;
        Ok(Core::new(text, self.positions))
    }

    /// Returns the core of a copy of the text, with the same positions.
    pub fn to_owned(self, alloc: Global) -> Result<Core<K, String>, AllocError>
        ensures { IfOk result (λ copy. core_text copy ≡ core_text self.entry) }
    {
        Ok(Core::new(String::from_str(alloc, self.text)?, self.positions))
    }
}
