//! `Reference`: a text of one of the four kinds (RFC 3986, sections 3 and 4.1; RFC 3987, section
//! 2.2).
ghost use Rattle.std.specs.Prelude.{◌≡◌, Some, string_bytes, ⊤, refl, IsUtf8};
ghost use Rattle.uri_parts.specs.Prelude.{IsOfKind, core_text};
ghost use Rattle.uri_ops.proofs.Offered.{one-of-four-kinds-has-sets};
ghost use Rattle.fluent_uri.specs.Parses.{Parses, ParsesOwned};
ghost use Rattle.std.specs.Fmt.{styled_text};

mod borrowed;
mod owned;
mod shared;

use std::alloc::AllocError;
use std::convert::{AsStr, TryFrom};
use std::fmt;
use uri_ops::traits::{RiMaybeRef, WithOwned};
use uri_parts::core_text::Core;
use uri_parts::error::ParseError;
use uri_parts::kind::Kind;
use uri_parts::packed_positions::PackedPositions;

/// A text of the kind `K`, held as a `&str` or a `String`.
///
/// `Uri`, `UriRef`, `Iri` and `IriRef` are the names of this type at the four kinds.
#[derive(Drop)]
#[derive_where(PartialEq, Eq, PartialOrd, Ord, Hash)]
pub struct Reference<K: Kind, T: AsStr> {
    core: Core<K, T>,
}

impl<K: Kind, T: AsStr + Copy> Clone for Reference<K, T> {
    ghost is_clone = { λ value copy. copy ≡ value };

    ghost is_infallible = { λ _. ⊤ };

    /// Returns the same reference, over the same text.
    fn clone(&self) -> Result<Self, AllocError> {
        Ok(Reference {
            core: self.core.clone()?,
        })
    }
}

impl<K: Kind, T: AsStr + Copy> Copy for Reference<K, T> {}

impl<K: Kind, T: AsStr> RiMaybeRef for Reference<K, T> {
    ghost use Rattle.fluent_uri.specs.References.{reference_text};

    type Owned = Reference<K, String>;

    type UserinfoE = K::UserinfoE;

    type RegNameE = K::RegNameE;

    type PathE = K::PathE;

    type QueryE = K::QueryE;

    type FragmentE = K::FragmentE;

    type Kind = K;

    ghost kind = { K.kind };

    ghost text = { reference_text };

    ghost owned_text = { reference_text };

    /// Returns the text of the reference.
    fn as_str(&self) -> &str {
        self.core.borrow().as_str()
    }

    /// Returns the positions of the components of the reference.
    fn packed_positions(&self) -> PackedPositions {
        self.core.borrow().packed_positions()
    }

    /// Returns the reference whose text this is, with the positions of its own components.
    fn make_owned(owned: String, positions: PackedPositions) -> Reference<K, String> {
        Reference {
            core: Core::new(owned, positions),
        }
    }

    ghost kind_is_its_own = { refl };

    ghost component_sets = { one-of-four-kinds-has-sets K.kind K.known };
}

impl<K: Kind, T: AsStr> WithOwned for Reference<K, T> {
    ghost owned_kind = { refl };

    ghost owned_text_is_text = { λ _. refl };
}

impl<K: Kind, T: AsStr> Reference<K, T> {
    ghost use Rattle.fluent_uri.specs.References.{held_text, reference_text};

    /// Returns the reference that has this text and these positions.
    #[doc(hidden)]
    pub fn of_core(core: Core<K, T>) -> Self
        ensures text { reference_text result ≡ core_text core }
        ensures held { held_text result ≡ core.text }
    {
        Reference { core }
    }

    /// Returns the text with the positions of its components.
    #[doc(hidden)]
    pub fn into_core(self) -> Core<K, T>
        ensures text { core_text result ≡ reference_text self }
        ensures of_kind { IsOfKind K.kind (core_text result) }
        ensures utf8 { IsUtf8 (core_text result) }
    {
        let _text = self.core.borrow();
        self.core
    }
}

impl<'a, K: Kind> TryFrom<&'a str> for Reference<K, &'a str> {
    ghost use Rattle.fluent_uri.specs.References.{reference_text};

    type Error = ParseError;

    ghost try_from_gives = { λ text result. Parses K.kind reference_text text.now result };

    /// Parses a text as a reference of this kind.
    fn try_from(text: &'a str) -> Result<Self, ParseError> {
        Reference::<K, &'a str>::parse(text)
    }
}

impl<K: Kind> TryFrom<String> for Reference<K, String> {
    ghost use Rattle.fluent_uri.specs.References.{reference_text};

    type Error = (ParseError, String);

    ghost try_from_gives = { λ text result.
        ParsesOwned K.kind reference_text (string_bytes text) result };

    /// Parses a text as a reference of this kind.
    fn try_from(text: String) -> Result<Self, (ParseError, String)> {
        Reference::<K, String>::parse(text)
    }
}

impl<K: Kind> From<Reference<K, String>> for String {
    ghost use Rattle.fluent_uri.specs.References.{reference_text};

    ghost from_gives = { λ value text. string_bytes text ≡ reference_text value };

    /// Returns the text of the reference as a `String`, without a copy.
    fn from(value: Reference<K, String>) -> String {
        value.into_string()
    }
}

impl<K: Kind, T: AsStr> fmt::Display for Reference<K, T> {
    ghost use Rattle.fluent_uri.specs.References.{reference_text};

    ghost output = { λ value. Some (reference_text value) };

    ghost styled_output = { λ value spec. Some (styled_text spec (reference_text value)) };

    /// Prints the text unchanged, padded and truncated as the format says.
    fn fmt<W: fmt::Write>(&self, f: &mut fmt::Formatter<W>) -> fmt::Result {
        f.pad(self.core().as_str())
    }
}
