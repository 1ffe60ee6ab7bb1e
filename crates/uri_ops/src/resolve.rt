//! Resolving references against a base (RFC 3986, section 5).
ghost use Rattle.std.specs.Prelude.{◌≡◌, ◌++◌, IfErr, IfOk, IfSome, Ok, string_bytes, true};
ghost use Rattle.uri_parts.specs.Prelude.{ArePackedPositionsOf, IsTextOf};
ghost use Rattle.uri_ops.specs.Normalizers.{scheme_rules_of};
ghost use Rattle.uri_ops.specs.NormalTargets.{IsNormalTarget, IsNormalTargetError};
ghost use Rattle.uri_ops.specs.Resolved.{IsResolved};
ghost use Rattle.uri_ops.specs.Resolving.{base_of, resolver_allows_underflow};

pub(crate) mod dotted_target;
pub(crate) mod error;
#[doc(hidden)]
pub mod found_target;
pub(crate) mod target_case;
#[doc(hidden)]
pub mod target_pieces;
#[doc(hidden)]
pub mod target_text;
#[doc(hidden)]
pub mod text_view;

use crate::normalize::{Normalizer, normalize_string};
pub use crate::resolve::error::ResolveError;
use crate::resolve::found_target::taken_pieces;
use crate::resolve::target_pieces::TargetPieces;
use crate::resolve::target_text::{Target, target_text};
use crate::resolve::text_view::TextView;
use crate::scheme_rules::SchemeRules;
use crate::traits::{RefOf, Ri, RiMaybeRef};
use std::alloc::{AllocError, Global};

/// What resolves references against a base, by its setting: whether dot segments may underflow.
///
/// # Examples
///
/// `Resolver::with_base(base).resolve(alloc, &reference)` returns `http://a/b/g` for
/// `http://a/b/c/d;p?q` and `../g`.
///
/// ```
/// let resolver = Resolver::with_base(base);
/// Ok((
///     resolver.resolve(alloc, first)?,
///     resolver.resolve(alloc, second)?,
/// ))
/// ```
#[derive(Drop)]
pub struct Resolver<R> {
    base: R,
    allow_path_underflow: bool,
}

/// Returns the text of the target of a reference against a base (RFC 3986, section 5.2), and where
/// its components are.
fn resolve_to_text<B: Ri, Q: RefOf<B>>(
    alloc: Global,
    base: &B,
    reference: &Q,
    allow_path_underflow: bool,
) -> Result<Target, ResolveError>
    ensures base { IsTextOf B.kind (B.text base.now) }
    ensures reference { IsTextOf Q.kind (Q.text reference.now) }
    ensures of_kind { IfOk result (λ target. IsTextOf B.kind (string_bytes target.text)) }
    ensures at { IfOk result (λ target.
        ArePackedPositionsOf (string_bytes target.text) target.positions) }
    ensures resolved { IsResolved B.kind Q.kind allow_path_underflow (B.text base.now)
        (Q.text reference.now) result (λ target. string_bytes target.text) }
{
    target_text(
        alloc,
        &TextView::of(base),
        &TextView::of(reference),
        allow_path_underflow,
    )
}

/// Returns the target of a reference against a base (RFC 3986, section 5.2). An error that the two
/// texts alone decide comes before any allocation.
#[doc(hidden)]
pub fn resolve_to_value<B: Ri, Q: RefOf<B>>(
    alloc: Global,
    base: &B,
    reference: &Q,
    allow_path_underflow: bool,
) -> Result<B::Owned, ResolveError>
    ensures { IsResolved B.kind Q.kind allow_path_underflow (B.text base.now)
        (Q.text reference.now) result B.owned_text }
{
    let target = resolve_to_text(alloc, base, reference, allow_path_underflow)?;
    Ok(B::make_owned(target.text, target.positions))
}

/// Returns the target of a reference against a base as a prefix of the base and a suffix of the
/// reference, with where its components are, and requests no memory. `None` says nothing of the
/// target: `resolve_to_value` makes it.
///
/// Most targets are two such pieces, as that of `../g?y` against `http://a/b/c/d`. One of a base
/// with a fragment isn't, nor one that has to lose a dot segment between other segments.
#[doc(hidden)]
pub fn resolve_to_pieces<'a, B: Ri, Q: RefOf<B>>(
    base: &'a B,
    reference: &'a Q,
    allow_path_underflow: bool,
) -> Option<TargetPieces<'a>>
    ensures of_kind { IfSome result (λ target.
        IsTextOf B.kind (target.prefix.now ++ target.suffix.now)) }
    ensures at { IfSome result (λ target.
        ArePackedPositionsOf (target.prefix.now ++ target.suffix.now) target.positions) }
    ensures resolved { IfSome result (λ target.
        IsResolved B.kind Q.kind allow_path_underflow (B.text base.now) (Q.text reference.now)
        (Ok target) (λ pieces. pieces.prefix.now ++ pieces.suffix.now)) }
{
    taken_pieces(
        &TextView::of(base),
        &TextView::of(reference),
        allow_path_underflow,
    )
}

impl<R: Ri> Resolver<R> {
    /// Returns a resolver against this base, where dot segments may underflow.
    ///
    /// Against `http://a/b/c/d;p?q` it resolves `../../../g` to `http://a/g`.
    pub fn with_base(base: R) -> Resolver<R>
        ensures base { base_of result ≡ base }
        ensures allows { resolver_allows_underflow result ≡ true }
    {
        Resolver {
            base,
            allow_path_underflow: true,
        }
    }

    /// Returns the resolver with dot segments allowed to underflow, or not. If they may, `/..` is
    /// removed where no segment is before it (RFC 3986, section 5.2.4); else it is an error.
    ///
    /// # Examples
    ///
    /// `Resolver::with_base(base).allow_path_underflow(false)` rejects `../../../g` against
    /// `http://a/b/c/d;p?q`.
    ///
    /// ```
    /// let resolver = Resolver::with_base(base).allow_path_underflow(false);
    /// resolver.resolve(alloc, reference)
    /// ```
    pub fn allow_path_underflow(self, value: bool) -> Resolver<R>
        ensures base { base_of result ≡ base_of self }
        ensures allows { resolver_allows_underflow result ≡ value }
    {
        Resolver {
            base: self.base,
            allow_path_underflow: value,
        }
    }

    /// Returns the target of a reference against the base, by the strict algorithm of RFC 3986,
    /// section 5.2. The only differences are:
    ///
    /// - A base without an authority whose path doesn't begin with `/` takes only a reference that
    ///   has a scheme, is empty or begins with `#`.
    /// - `/.` is put before a target path that begins with `//`, where there is no authority.
    /// - The dots of dot segments may be percent-encoded.
    /// - A base path that ends in a double dot is kept whole, and followed by `/`, before a merged
    ///   path.
    /// - An empty reference path takes the base's path without its dot segments, if that begins
    ///   with `/`.
    /// - A reference with a scheme keeps a path that doesn't begin with `/` as it is.
    ///
    /// Nothing else of the two texts changes: the target is not normalised. Where underflow is
    /// allowed, resolution respects equivalence: an equivalent base and reference, such as their
    /// normal forms, give an equivalent target, or the same error. If it is not allowed, one of two
    /// equivalent bases may be rejected alone: `b` underflows against `http://x/../a`, and not
    /// against `http://x/a`. With either setting resolution respects percent-encoding: if each
    /// character past ASCII of both is written as the octets of its UTF-8 (RFC 3987, section 3.1),
    /// the target is this target, written so, and an error is this error.
    ///
    /// # Errors
    ///
    /// `BaseWithFragment` if the base has a fragment, and else `InvalidReferenceAgainstOpaqueBase`
    /// if the base takes no such reference, both before any allocation; `PathUnderflow` if
    /// underflow is not allowed, and a double dot of a target path that begins with `/` has nothing
    /// left to remove; `OutOfMemory` if allocation fails.
    ///
    /// # Examples
    ///
    /// `g;x?y#s` against `http://a/b/c/d;p?q` is `http://a/b/c/g;x?y#s`.
    ///
    /// ```
    /// let resolver = Resolver::with_base(base);
    /// Ok((
    ///     resolver.resolve(alloc, first)?,
    ///     resolver.resolve(alloc, second)?,
    /// ))
    /// ```
    pub fn resolve<Q: RefOf<R>>(
        &self,
        alloc: Global,
        reference: &Q,
    ) -> Result<R::Owned, ResolveError>
        ensures { IsResolved R.kind Q.kind (resolver_allows_underflow self.now)
            (R.text (base_of self.now)) (Q.text reference.now) result R.owned_text }
    {
        resolve_to_value(alloc, &self.base, reference, self.allow_path_underflow)
    }

    /// Returns the normal form of the target of a reference against the base: `resolve` with
    /// underflow allowed, and then `normalize` of a normaliser with these rules (RFC 3986, sections
    /// 5.2, 6.2.2 and 6.2.3). Whether either setting allows underflow makes no difference. An
    /// equivalent base and reference, such as the normal forms of both, give the same result.
    ///
    /// # Errors
    ///
    /// `BaseWithFragment` and `InvalidReferenceAgainstOpaqueBase` as `resolve` returns them;
    /// `OutOfMemory` if allocation fails.
    ///
    /// # Examples
    ///
    /// `//a:80` against `http://x/` is `http://a`.
    ///
    /// ```
    /// let resolver = Resolver::with_base(base);
    /// resolver.resolve_normalized(alloc, reference, &Normalizer::new())
    /// ```
    pub fn resolve_normalized<Q: RefOf<R>, S: SchemeRules>(
        &self,
        alloc: Global,
        reference: &Q,
        normalizer: &Normalizer<S>,
    ) -> Result<R::Owned, ResolveError>
        ensures normal { IfOk result (λ normal.
            IsNormalTarget R.kind Q.kind (S.rules_of (scheme_rules_of normalizer.now))
            (R.text (base_of self.now)) (Q.text reference.now) (R.owned_text normal)) }
        ensures refusal { IfErr result
            (IsNormalTargetError R.kind Q.kind (S.rules_of (scheme_rules_of normalizer.now))
            (R.text (base_of self.now)) (Q.text reference.now)) }
    {
        let target = resolve_to_text(alloc, &self.base, reference, true)?;
        let made = normalize_string::<R::Kind, S>(
            alloc,
            target.text,
            target.positions,
            &normalizer.rules,
        )?;
        Ok(R::make_owned(made.text, made.positions))
    }
}
