//! What the four kinds have in common.
ghost use Rattle.std.specs.Prelude.{◌≡◌, false, option_map, string_bytes, ℕ, List, true};
ghost use Rattle.uri_parts.specs.Prelude.{ArePackedPositionsOf, IsOfKind, core_text, authority_text, components, scheme_text};
ghost use Rattle.uri_ops.specs.ComponentSets.{HasComponentSets};
ghost use Rattle.uri_pct.specs.Prelude.{text_of};

use uri_parts::component::{Authority, Scheme};
use uri_parts::core_text::Core;
use uri_parts::kind::Kind;
use uri_parts::packed_positions::PackedPositions;
use uri_pct::encoder::{Encoder, PathEncoder};
use uri_pct::pct_enc::EStr;

/// A URI, a URI reference, an IRI or an IRI reference, over borrowed or owned text.
///
/// It is implemented for the four kinds alone. Its encoders are those of the kind's components
/// (RFC 3986, section 3; RFC 3987, section 2.2).
///
/// A function over `R: RiMaybeRef` takes a `Uri<&str>` as well as an `IriRef<String>`.
pub trait RiMaybeRef {
    ghost use Rattle.uri_parts.specs.Grammar as grammar;
    /// The kind over a text of its own.
    type Owned: Drop;

    /// The encoder of userinfo.
    type UserinfoE: Encoder;

    /// The encoder of registered names.
    type RegNameE: Encoder;

    /// The encoder of paths.
    type PathE: PathEncoder;

    /// The encoder of queries.
    type QueryE: Encoder;

    /// The encoder of fragments.
    type FragmentE: Encoder;

    #[doc(hidden)]
    type Kind: Kind<
        UserinfoE = Self::UserinfoE,
        RegNameE = Self::RegNameE,
        PathE = Self::PathE,
        QueryE = Self::QueryE,
        FragmentE = Self::FragmentE,
    >;

    ghost kind: { grammar.Kind };

    ghost text: { Self → List ℕ };

    ghost owned_text: { Self.Owned → List ℕ };

    /// Returns the text.
    ///
    /// Of what was parsed from `http://a/b` it is `http://a/b`.
    fn as_str(&self) -> &str
        ensures text { result.now ≡ text self.now }
        ensures of_kind { IsOfKind kind result.now };

    /// Returns where the components of the text are.
    #[doc(hidden)]
    fn packed_positions(&self) -> PackedPositions
        ensures { ArePackedPositionsOf (text self.now) result };

    /// Returns the value whose text this is, with the positions of its own components.
    #[doc(hidden)]
    fn make_owned(owned: String, positions: PackedPositions) -> Self::Owned
        requires of_kind { IsOfKind kind (string_bytes owned) }
        requires at { ArePackedPositionsOf (string_bytes owned) positions }
        ensures { owned_text result ≡ string_bytes owned };

    /// Returns the text with the positions of its components.
    #[doc(hidden)]
    final fn core(&self) -> Core<Self::Kind, &str>
        ensures text { core_text result ≡ text self.now }
        ensures of_kind { IsOfKind kind (text self.now) }
    {
        core_of(self)
    }

    /// Returns the scheme without its `:`, if there is one (RFC 3986, section 3.1).
    ///
    /// Of `http://a/b` it is `http`, and of `a/b` there is none.
    final fn scheme_opt(&self) -> Option<Scheme<'_>>
        ensures { option_map scheme_text result ≡ (components (text self.now)).scheme }
    {
        self.core().scheme()
    }

    /// Returns the authority without its `//`, if there is one (RFC 3986, section 3.2).
    ///
    /// Of `http://a/b` it is `a`, and of `a/b` there is none.
    final fn authority(&self) -> Option<Authority<'_, Self::UserinfoE, Self::RegNameE>>
        ensures { option_map authority_text result ≡ (components (text self.now)).authority }
    {
        self.core().authority()
    }

    /// Returns the path, which may be empty (RFC 3986, section 3.3).
    ///
    /// Of `http://a/b` it is `/b`.
    final fn path(&self) -> EStr<'_, Self::PathE>
        ensures { text_of result ≡ (components (text self.now)).path }
    {
        self.core().path()
    }

    /// Returns the query without its `?`, if there is one (RFC 3986, section 3.4).
    ///
    /// Of `/a?b` it is `b`, and of `/a` there is none.
    final fn query(&self) -> Option<EStr<'_, Self::QueryE>>
        ensures { option_map text_of result ≡ (components (text self.now)).query }
    {
        self.core().query()
    }

    /// Returns the fragment without its `#`, if there is one (RFC 3986, section 3.5).
    ///
    /// Of `/a#b` it is `b`, and of `/a` there is none.
    final fn fragment(&self) -> Option<EStr<'_, Self::FragmentE>>
        ensures { option_map text_of result ≡ (components (text self.now)).fragment }
    {
        self.core().fragment()
    }

    ghost kind_is_its_own: { Self.Kind.kind ≡ kind };

    ghost component_sets: { HasComponentSets kind };
}

/// A kind whose `Owned` is of the kind as well.
///
/// It is implemented for the four kinds alone. Generic code that uses the returned value further,
/// such as a normal form, needs `R: WithOwned` and `R::Owned: RiMaybeRef`.
///
/// `UriRef<&str>` is such a kind: its `Owned` is `UriRef<String>`.
pub trait WithOwned: RiMaybeRef
where
    Self::Owned: RiMaybeRef,
{
    ghost owned_kind: { Self.Owned.kind ≡ Self.kind };

    ghost owned_text_is_text: { (value : Self.Owned)
        → Self.Owned.text value ≡ Self.owned_text value };
}

/// A kind whose texts have a scheme: a URI or an IRI.
///
/// `Uri<&str>` and `Iri<String>` are such kinds, and `UriRef<&str>` is none.
pub trait Ri: RiMaybeRef {
    ghost needs_scheme: { Self.kind.needs_scheme ≡ true };
}

/// A kind of reference that is resolved against `B`: of URIs, or of IRIs.
///
/// `UriRef<&str>` is resolved against `Uri<String>`, and `IriRef<&str>` is not.
pub trait RefOf<B: Ri>: RiMaybeRef {
    ghost same_tables: { Self.kind ≡ record B.kind { needs_scheme = false } };
}

/// Returns the value that the trait is of as a `Core`: its text with the positions of its
/// components.
fn core_of<R: RiMaybeRef>(value: &R) -> Core<R::Kind, &str>
    ensures text { core_text result ≡ R.text value.now }
    ensures of_kind { IsOfKind R.kind (R.text value.now) }
{
    Core::new(value.as_str(), value.packed_positions())
}
