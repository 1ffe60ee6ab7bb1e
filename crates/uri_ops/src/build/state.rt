//! The states of a builder (RFC 3986, section 3), and what it holds in each.
ghost use Rattle.std.specs.Prelude.{◌≡◌, true, Bool};
ghost use Rattle.uri_ops.specs.BuilderParts.{MeetsOrFailed, BuilderParts};
ghost use Rattle.uri_ops.specs.Builders.{draft_parts, is_at_end, is_before_authority, is_before_fragment, is_before_host, is_before_path, is_before_port, is_before_query, is_before_userinfo, is_fresh, is_fresh_reference, is_in_authority, HoldsAlsoIn};
ghost use Rattle.uri_ops.specs.Models.DraftPlaces.{HasRightHostRange};

use crate::build::draft::Draft;
use crate::traits::RiMaybeRef;
use std::marker::PhantomData;

/// A state of a builder: which step was the last.
///
/// A builder after `scheme` is a `Builder<R, SchemeEnd>`.
pub trait State {
    ghost place: { Bool → BuilderParts → Bool };

    ghost before: { Bool → BuilderParts → Bool };
}

/// A state of a builder of an `R`.
///
/// Each state is one for every kind. Code over any state of a builder needs this bound.
///
/// `PathEnd` is a `StateOf<Uri<String>>`.
pub trait StateOf<R: RiMaybeRef>: State {
    #[doc(hidden)]
    type Contents: BuilderContents<R, Self>;
}

/// A state from which the step to `T` may be taken.
///
/// `SchemeEnd` is a `To<PathEnd>`: `path` may be called after `scheme`.
pub trait To<T: State>: State {
    ghost passes: { HoldsAlsoIn Self.place T.before };
}

/// A state from which the steps up to `T` may be left out.
///
/// `Start` is an `AdvanceTo<SchemeEnd>`: of a reference the scheme may be left out by `advance`.
pub trait AdvanceTo<T: State>: State {
    ghost passes: { HoldsAlsoIn Self.place T.place };
}

/// A state from which an authority may be given part by part.
///
/// `SchemeEnd` is such a state, and what `authority_with` begins is in `AuthorityStart`.
pub trait BeginsAuthority: To<AuthorityStart> {
    /// The state of the builder that the closure is called with, which is `AuthorityStart`.
    type Begun: State;

    ghost begun: { HoldsAlsoIn is_before_userinfo Self.Begun.place };
}

/// The start of a reference.
///
/// `UriRef::<String>::builder(alloc)` is in it.
pub struct Start;

impl State for Start {
    ghost place = { is_fresh_reference };

    ghost before = { λ _ parts. parts.failed };
}

impl<R: RiMaybeRef> StateOf<R> for Start {
    type Contents = DraftInState<R, Start>;
}

/// The start of a URI or an IRI, which needs a scheme.
///
/// `Uri::<String>::builder(alloc)` is in it.
pub struct NonRefStart;

impl State for NonRefStart {
    ghost place = { is_fresh };

    ghost before = { λ _ parts. parts.failed };
}

impl<R: RiMaybeRef> StateOf<R> for NonRefStart {
    type Contents = DraftInState<R, NonRefStart>;
}

/// After the scheme.
///
/// A builder is in it after `scheme`.
pub struct SchemeEnd;

impl State for SchemeEnd {
    ghost place = { is_before_authority };

    ghost before = { is_fresh };
}

impl<R: RiMaybeRef> StateOf<R> for SchemeEnd {
    type Contents = DraftInState<R, SchemeEnd>;
}

/// At the start of the authority.
///
/// The builder that the closure of `authority_with` is called with is in it.
pub struct AuthorityStart;

impl State for AuthorityStart {
    ghost place = { is_before_userinfo };

    ghost before = { is_before_authority };
}

impl<R: RiMaybeRef> StateOf<R> for AuthorityStart {
    type Contents = DraftInState<R, AuthorityStart>;
}

/// After the userinfo.
///
/// A builder is in it after `userinfo`.
pub struct UserinfoEnd;

impl State for UserinfoEnd {
    ghost place = { is_before_host };

    ghost before = { is_before_userinfo };
}

impl<R: RiMaybeRef> StateOf<R> for UserinfoEnd {
    type Contents = DraftInState<R, UserinfoEnd>;
}

/// After the host.
///
/// A builder is in it after `host`.
pub struct HostEnd;

impl State for HostEnd {
    ghost place = { is_before_port };

    ghost before = { is_before_host };
}

impl<R: RiMaybeRef> StateOf<R> for HostEnd {
    type Contents = DraftInState<R, HostEnd>;
}

/// After the port.
///
/// A builder is in it after `port`.
pub struct PortEnd;

impl State for PortEnd {
    ghost place = { is_in_authority };

    ghost before = { is_before_port };
}

impl<R: RiMaybeRef> StateOf<R> for PortEnd {
    type Contents = DraftInState<R, PortEnd>;
}

/// After the authority.
///
/// A builder is in it after `authority`, and after `authority_with`.
pub struct AuthorityEnd;

impl State for AuthorityEnd {
    ghost place = { is_before_path };

    ghost before = { is_before_path };
}

impl<R: RiMaybeRef> StateOf<R> for AuthorityEnd {
    type Contents = DraftInState<R, AuthorityEnd>;
}

/// After the path.
///
/// A builder is in it after `path`, and may be built.
pub struct PathEnd;

impl State for PathEnd {
    ghost place = { is_before_query };

    ghost before = { is_before_path };
}

impl<R: RiMaybeRef> StateOf<R> for PathEnd {
    type Contents = DraftInState<R, PathEnd>;
}

/// After the query.
///
/// A builder is in it after `query`, and may be built.
pub struct QueryEnd;

impl State for QueryEnd {
    ghost place = { is_before_fragment };

    ghost before = { is_before_query };
}

impl<R: RiMaybeRef> StateOf<R> for QueryEnd {
    type Contents = DraftInState<R, QueryEnd>;
}

/// After the fragment.
///
/// A builder is in it after `fragment`, and may be built.
pub struct FragmentEnd;

impl State for FragmentEnd {
    ghost place = { is_at_end };

    ghost before = { is_before_fragment };
}

impl<R: RiMaybeRef> StateOf<R> for FragmentEnd {
    type Contents = DraftInState<R, FragmentEnd>;
}

/// The end.
///
/// Each state from which `build` may be called leads to it.
pub struct End;

impl State for End {
    ghost place = { is_at_end };

    ghost before = { is_at_end };
}

impl<R: RiMaybeRef> StateOf<R> for End {
    type Contents = DraftInState<R, End>;
}

/// What a builder of an `R` holds in the state `S`.
#[doc(hidden)]
pub trait BuilderContents<R: RiMaybeRef, S: State>: Drop {
    ghost parts: { Self → BuilderParts };

    /// Returns the draft that the builder holds.
    fn into_draft(self) -> Draft
        ensures same { draft_parts result ≡ Self.parts self }
        ensures rules { MeetsOrFailed R.kind (draft_parts result) }
        ensures place { S.place R.kind.needs_scheme (draft_parts result) ≡ true }
        ensures host { HasRightHostRange result };

    /// Returns contents that hold this draft. Its parts are of the kind, and may be held in the
    /// state.
    fn made(draft: Draft) -> Self
        requires rules { MeetsOrFailed R.kind (draft_parts draft) }
        requires place { S.place R.kind.needs_scheme (draft_parts draft) ≡ true }
        requires host { HasRightHostRange draft }
        ensures { Self.parts result ≡ draft_parts draft };
}

/// A draft in the state `S` whose parts are those of an `R`.
#[doc(hidden)]
#[derive(Drop)]
pub struct DraftInState<R: RiMaybeRef, S: State> {
    draft: Draft,
    kind: PhantomData<R>,
    state: PhantomData<S>,
    pub ghost rules: { MeetsOrFailed R.kind (draft_parts draft) },
    pub ghost place: { S.place R.kind.needs_scheme (draft_parts draft) ≡ true },
    pub ghost host: { HasRightHostRange draft },
}

impl<R: RiMaybeRef, S: State> BuilderContents<R, S> for DraftInState<R, S> {
    ghost use Rattle.uri_ops.specs.BuilderStates.{parts_in_state};

    ghost parts = { parts_in_state };

    /// Returns the draft that the builder holds.
    #[inline(always)]
    fn into_draft(self) -> Draft {
        self.draft
    }

    /// Returns contents that hold this draft.
    #[inline(always)]
    fn made(draft: Draft) -> DraftInState<R, S> {
        DraftInState {
            draft,
            kind: PhantomData,
            state: PhantomData,
        }
    }
}
