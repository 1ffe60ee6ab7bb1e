//! Building references (RFC 3986, section 5.3).
ghost use Rattle.std.specs.Prelude.{◌≡◌, ◌↔◌, IfOk, IsOk, MatchOption, Some, [], false, true};
ghost use Rattle.std.specs.Result.{result_err};
ghost use Rattle.uri_pct.specs.Prelude.{text_of};
ghost use Rattle.uri_parts.specs.Prelude.{authority_text, scheme_text};
ghost use Rattle.uri_ops.specs.BuilderParts.{AddsOrFails, MeetsOrFailed, no_parts, parts_text, with_authority, with_fragment, with_host, with_path, with_port, with_port_unless_default, with_query, with_scheme, with_userinfo};
ghost use Rattle.uri_ops.specs.BuilderStates.{contents_of, parts_in_state};
ghost use Rattle.uri_ops.specs.Builders.{draft_parts};
ghost use Rattle.uri_ops.specs.Models.DraftPlaces.{HasRightHostRange};

mod appending;
#[doc(hidden)]
pub mod draft;
pub(crate) mod error;
#[doc(hidden)]
pub mod host_port;
pub(crate) mod lengths;
mod order;
#[doc(hidden)]
pub mod places;
pub mod state;

use crate::build::draft::Draft;
pub use crate::build::error::BuildError;
use crate::build::host_port::{AsPort, WithEncoder};
use crate::build::places::{HostRange, host_place};
use crate::build::state::{
    AdvanceTo, AuthorityEnd, AuthorityStart, BeginsAuthority, BuilderContents, End, FragmentEnd,
    HostEnd, NonRefStart, PathEnd, PortEnd, QueryEnd, SchemeEnd, Start, State, StateOf, To,
    UserinfoEnd,
};
use crate::traits::RiMaybeRef;
use std::alloc::Global;
use uri_parts::component::{Authority, Scheme};
use uri_parts::packed_positions::PackedPositions;
use uri_pct::pct_enc::EStr;

/// A builder of an `R` in the state `S`.
///
/// The parts are given from the first to the last, each at most once. A URI or an IRI needs a
/// scheme, and each reference a path, which may be empty; all else may be left out. The types see
/// to this. Userinfo, host and port are given within `authority_with`, the host always.
///
/// One whole, whose text is `foo://user@example.com:8042/over/there?name=ferret#nose`:
///
/// ```
/// Uri::<String>::builder(alloc)
///     .scheme(Scheme::new_or_panic("foo"))
///     .authority_with(|authority| {
///         authority
///             .userinfo(EStr::new_or_panic("user"))
///             .host(EStr::new_or_panic("example.com"))
///             .port(8042)
///     })
///     .path(EStr::new_or_panic("/over/there"))
///     .query(EStr::new_or_panic("name=ferret"))
///     .fragment(EStr::new_or_panic("nose"))
///     .build()
/// ```
///
/// A step whose allocation fails marks the builder failed. Later steps keep the mark, and `build`
/// returns `OutOfMemory`.
#[derive(Drop)]
pub struct Builder<R: RiMaybeRef, S: StateOf<R>> {
    contents: S::Contents,
}

impl<R: RiMaybeRef> Builder<R, Start> {
    /// Returns a fresh builder of a reference.
    #[doc(hidden)]
    pub fn of_reference(alloc: Global) -> Builder<R, Start>
        requires { R.kind.needs_scheme ≡ false }
        ensures { parts_in_state (contents_of result) ≡ no_parts }
    {
        Builder::from_draft(Draft::new(alloc))
    }
}

impl<R: RiMaybeRef> Builder<R, NonRefStart> {
    /// Returns a fresh builder of a URI or an IRI.
    #[doc(hidden)]
    pub fn with_needed_scheme(alloc: Global) -> Builder<R, NonRefStart>
        ensures { parts_in_state (contents_of result) ≡ no_parts }
    {
        Builder::from_draft(Draft::new(alloc))
    }
}

impl<R: RiMaybeRef, S: StateOf<R>> Builder<R, S> {
    ghost use Rattle.uri_ops.specs.Built.{IsTextOfParts, refusal};
    ghost use Rattle.uri_ops.specs.declared.build.error.BuildError.TheVariants.{OutOfMemory};

    /// Returns the same builder in a later state, as by `advance::<AuthorityEnd>()`. The parts in
    /// between are left out.
    ///
    /// `UriRef::<String>::builder(alloc).advance().path(EStr::new_or_panic("a"))` leaves out scheme
    /// and authority.
    pub fn advance<T: StateOf<R>>(self) -> Builder<R, T>
    where
        S: AdvanceTo<T>,
        ensures { T.Contents.parts (contents_of result) ≡ S.Contents.parts (contents_of self) }
    {
        Builder::from_draft(self.contents.into_draft())
    }

    /// Calls the step with the value, if there is one, and returns its builder. Without a value it
    /// returns the same builder, in the state after the step.
    ///
    /// # Conditions
    ///
    /// The step can be called with any arguments, as a method of `Builder` without conditions can.
    ///
    /// # Examples
    ///
    /// `builder.optional(Builder::query, None)` leaves the query out; with
    /// `Some(EStr::new_or_panic("q"))` in place of `None` it adds it.
    ///
    /// ```
    /// UriRef::<String>::builder(alloc)
    ///     .path(path)
    ///     .optional(Builder::query, query)
    ///     .build()
    /// ```
    pub fn optional<F, V, T: StateOf<R>>(self, step: F, value: Option<V>) -> Builder<R, T>
    where
        S: AdvanceTo<T>,
        F: FnOnce(Builder<R, S>, V) -> Builder<R, T> + Drop,
        requires { F.IsAlwaysCallable step }
        ensures { MatchOption value
            (T.Contents.parts (contents_of result) ≡ S.Contents.parts (contents_of self))
            (λ v. F.post step self v result) }
    {
        match value {
            Some(value) => step(self, value),
            None => self.advance(),
        }
    }

    /// Returns a builder that holds this draft.
    #[inline(always)]
    fn from_draft(draft: Draft) -> Builder<R, S>
        requires rules { MeetsOrFailed R.kind (draft_parts draft) }
        requires place { S.place R.kind.needs_scheme (draft_parts draft) ≡ true }
        requires host { HasRightHostRange draft }
        ensures { S.Contents.parts (contents_of result) ≡ draft_parts draft }
    {
        Builder {
            contents: S::Contents::made(draft),
        }
    }

    /// Returns the draft that the builder holds, at the start of the step to the state `T`.
    #[inline(always)]
    fn into_draft<T: State>(self) -> Draft
    where
        S: To<T>,
        ensures same { draft_parts result ≡ S.Contents.parts (contents_of self) }
        ensures rules { MeetsOrFailed R.kind (draft_parts result) }
        ensures before { T.before R.kind.needs_scheme (draft_parts result) ≡ true }
        ensures host { HasRightHostRange result }
    {
        self.contents.into_draft()
    }

    /// Gives the scheme (RFC 3986, section 3.1).
    ///
    /// The case of its letters makes no difference; it should be lower.
    ///
    /// `scheme(Scheme::new_or_panic("http"))` writes `http:`.
    pub fn scheme(self, scheme: Scheme<'_>) -> Builder<R, SchemeEnd>
    where
        S: To<SchemeEnd>,
        ensures { AddsOrFails (with_scheme (scheme_text scheme.entry))
            (S.Contents.parts (contents_of self))
            (parts_in_state (contents_of result)) }
    {
        Builder::from_draft(self.into_draft::<SchemeEnd>().with_scheme(scheme.as_str()))
    }

    /// Returns the builder with an empty authority begun.
    fn with_authority_begun(self) -> Builder<R, S::Begun>
    where
        S: BeginsAuthority,
        S::Begun: StateOf<R>,
        ensures { AddsOrFails (with_authority []) (S.Contents.parts (contents_of self))
            (S.Begun.Contents.parts (contents_of result)) }
    {
        Builder::from_draft(
            self.into_draft::<AuthorityStart>()
                .with_authority("", HostRange { start: 0, end: 0 }),
        )
    }

    /// Gives the authority (RFC 3986, section 3.2) part by part. The closure gets this builder with
    /// an empty authority begun, and `authority_with` returns the builder that the closure returns.
    ///
    /// # Conditions
    ///
    /// The closure can be called with any builder. A closure without a `requires` can.
    ///
    /// # Examples
    ///
    /// `authority_with(|authority| authority.host(Ipv4Addr::LOCALHOST))` writes `//127.0.0.1`. The
    /// example of `Builder` gives a userinfo and a port too.
    pub fn authority_with<F, T: StateOf<R>>(self, parts: F) -> Builder<R, AuthorityEnd>
    where
        S: BeginsAuthority,
        S::Begun: StateOf<R>,
        T: To<AuthorityEnd>,
        F: FnOnce(Builder<R, S::Begun>) -> Builder<R, T>,
        requires { F.IsAlwaysCallable parts }
        ensures { (begun : _) × (done : _)
            × AddsOrFails (with_authority []) (S.Contents.parts (contents_of self))
            (S.Begun.Contents.parts (contents_of begun))
            × F.post parts begun done
            × (parts_in_state (contents_of result) ≡ T.Contents.parts (contents_of done)) }
    {
        let done = parts(self.with_authority_begun());
        Builder::from_draft(done.into_draft::<AuthorityEnd>())
    }

    /// Gives the authority (RFC 3986, section 3.2): the empty one, or that of another reference.
    ///
    /// `authority(Authority::EMPTY)` writes `//`.
    pub fn authority(
        self,
        authority: Authority<'_, R::UserinfoE, R::RegNameE>,
    ) -> Builder<R, AuthorityEnd>
    where
        S: To<AuthorityStart>,
        ensures { AddsOrFails (with_authority (authority_text authority.entry))
            (S.Contents.parts (contents_of self))
            (parts_in_state (contents_of result)) }
    {
        Builder::from_draft(
            self.into_draft::<AuthorityStart>()
                .with_authority(authority.as_str(), host_place(authority)),
        )
    }

    /// Gives the userinfo (RFC 3986, section 3.2.1), without its `@`.
    ///
    /// `userinfo(EStr::new_or_panic("user"))` writes `user@`, and with `EStr::EMPTY` it writes `@`.
    pub fn userinfo(self, userinfo: EStr<'_, R::UserinfoE>) -> Builder<R, UserinfoEnd>
    where
        S: To<UserinfoEnd>,
        ensures { AddsOrFails (with_userinfo (text_of userinfo.entry))
            (S.Contents.parts (contents_of self))
            (parts_in_state (contents_of result)) }
    {
        Builder::from_draft(
            self.into_draft::<UserinfoEnd>()
                .with_userinfo(userinfo.as_str()),
        )
    }

    /// Gives the host (RFC 3986, section 3.2.2): an IP address, or a registered name of the kind.
    ///
    /// An IPv6 address is written in brackets, by RFC 5952. A name with the form of an IPv4 address
    /// is one. The case of ASCII letters makes no difference; it should be lower.
    ///
    /// `authority.host(Ipv6Addr::LOCALHOST)` writes `[::1]`.
    pub fn host<H>(self, host: H) -> Builder<R, HostEnd>
    where
        S: To<HostEnd>,
        H: WithEncoder<R::RegNameE>,
        ensures { AddsOrFails (with_host (H.host_text host)) (S.Contents.parts (contents_of self))
            (parts_in_state (contents_of result)) }
    {
        Builder::from_draft(
            self.into_draft::<HostEnd>()
                .with_host::<R::RegNameE, H>(host),
        )
    }

    /// Gives the port (RFC 3986, section 3.2.3): a number, which is written in decimal, or digits.
    ///
    /// It should be neither empty nor the default port of the scheme.
    ///
    /// After a host, `port(8042)` writes `:8042`.
    pub fn port<P: AsPort>(self, port: P) -> Builder<R, PortEnd>
    where
        S: To<PortEnd>,
        ensures { AddsOrFails (with_port (P.port_digits port)) (S.Contents.parts (contents_of self))
            (parts_in_state (contents_of result)) }
    {
        Builder::from_draft(self.into_draft::<PortEnd>().with_port(port))
    }

    /// Gives the port (RFC 3986, section 3.2.3), unless it is the default one, which is left out.
    ///
    /// `port_with_default(8080, 80)` writes `:8080`, and `port_with_default(80, 80)` nothing.
    #[tactic(auto, using(crate::specs::BuilderOrder::before_port_is_in_authority))]
    pub fn port_with_default(self, port: u16, default: u16) -> Builder<R, PortEnd>
    where
        S: To<PortEnd>,
        ensures { AddsOrFails (with_port_unless_default default port)
            (S.Contents.parts (contents_of self))
            (parts_in_state (contents_of result)) }
    {
        if port == default {
            Builder::from_draft(self.into_draft::<PortEnd>())
        } else {
            self.port(port)
        }
    }

    /// Gives the path (RFC 3986, section 3.3). `EStr::EMPTY` writes nothing.
    ///
    /// `path(EStr::new_or_panic("/a/b"))` writes `/a/b`.
    pub fn path(self, path: EStr<'_, R::PathE>) -> Builder<R, PathEnd>
    where
        S: To<PathEnd>,
        ensures { AddsOrFails (with_path (text_of path.entry)) (S.Contents.parts (contents_of self))
            (parts_in_state (contents_of result)) }
    {
        Builder::from_draft(self.into_draft::<PathEnd>().with_path(path.as_str()))
    }

    /// Gives the query (RFC 3986, section 3.4), without its `?`. `EStr::EMPTY` writes `?`.
    ///
    /// `query(EStr::new_or_panic("a=b"))` writes `?a=b`.
    pub fn query(self, query: EStr<'_, R::QueryE>) -> Builder<R, QueryEnd>
    where
        S: To<QueryEnd>,
        ensures { AddsOrFails (with_query (text_of query.entry))
            (S.Contents.parts (contents_of self))
            (parts_in_state (contents_of result)) }
    {
        Builder::from_draft(self.into_draft::<QueryEnd>().with_query(query.as_str()))
    }

    /// Gives the fragment (RFC 3986, section 3.5), without its `#`. `EStr::EMPTY` writes `#`.
    ///
    /// `fragment(EStr::new_or_panic("nose"))` writes `#nose`.
    pub fn fragment(self, fragment: EStr<'_, R::FragmentE>) -> Builder<R, FragmentEnd>
    where
        S: To<FragmentEnd>,
        ensures { AddsOrFails (with_fragment (text_of fragment.entry))
            (S.Contents.parts (contents_of self))
            (parts_in_state (contents_of result)) }
    {
        Builder::from_draft(
            self.into_draft::<FragmentEnd>()
                .with_fragment(fragment.as_str()),
        )
    }

    /// Returns the reference that has these parts as its components. Its text is that of the parts
    /// by RFC 3986, section 5.3.
    ///
    /// # Errors
    ///
    /// `OutOfMemory` exactly if the allocation of a step failed. Else `NonemptyRootlessPath`,
    /// `PathStartsWithDoubleSlash` or `FirstPathSegmentContainsColon`, if its condition holds.
    ///
    /// # Examples
    ///
    /// The scheme `foo`, no authority and the path `//a` are rejected as
    /// `PathStartsWithDoubleSlash`.
    ///
    /// ```
    /// let made = Uri::<String>::builder(alloc)
    ///     .scheme(Scheme::new_or_panic("https"))
    ///     .authority(authority)
    ///     .path(path)
    ///     .query(query)
    ///     .build()?;
    /// Ok(made)
    /// ```
    pub fn build(self) -> Result<R, BuildError>
    where
        S: To<End>,
        R: RiMaybeRef<Owned = R>,
        ensures failed { let p = S.Contents.parts (contents_of self) in
            p.failed ≡ true → result_err result ≡ Some OutOfMemory }
        ensures refused { let p = S.Contents.parts (contents_of self) in
            p.failed ≡ false → result_err result ≡ refusal p }
        ensures value { let p = S.Contents.parts (contents_of self) in
            IfOk result (λ made. R.owned_text made ≡ parts_text p) }
        ensures exactly { let p = S.Contents.parts (contents_of self) in
            p.failed ≡ false → (IsOk result ↔ IsTextOfParts R.kind p) }
    {
        let draft = self.into_draft::<End>();
        if draft.failed {
            return Err(BuildError::OutOfMemory);
        }
        match draft.refusal() {
            Some(error) => Err(error),
            None => {
                let positions = PackedPositions::of(&draft.positions());
                Ok(R::make_owned(draft.text, positions))
            }
        }
    }
}
