//! Resolving references by the basic algorithm (RFC 3986, section 5.2).
ghost use Rattle.std.specs.Prelude.{◌≡◌, IfErr, IfOk, Ok, string_bytes};
ghost use Rattle.uri_parts.specs.Prelude.{ArePackedPositionsOf, IsTextOf, components};
ghost use Rattle.uri_basic.specs.Resolving.{IsBasicError, base_of};
ghost use Rattle.uri_basic.specs.Target.{basic_resolution_of_texts};

use crate::error::BasicResolveError;
use crate::target_text::{BasicTarget, target_text};
use std::alloc::Global;
use uri_ops::traits::{RefOf, Ri, RiMaybeRef};

/// Returns the text of the target of a reference against a base, with its positions.
fn resolve_to_text<B: Ri, Q: RefOf<B>>(
    alloc: Global,
    base: &B,
    reference: &Q,
) -> Result<BasicTarget, BasicResolveError>
    ensures of_kind { IfOk result (λ made. IsTextOf B.kind (string_bytes made.text)) }
    ensures at { IfOk result (λ made.
        ArePackedPositionsOf (string_bytes made.text) made.positions) }
    ensures target { IfOk result (λ made. basic_resolution_of_texts (B.text base.now)
        (Q.text reference.now) ≡ Ok (string_bytes made.text)) }
    ensures error { IfErr result (IsBasicError (components (B.text base.now))
        (components (Q.text reference.now))) }
{
    let base = base.core();
    let reference = reference.core();
    target_text(alloc, base.borrow(), reference.borrow())
}

/// What resolves references against a base by the basic algorithm of RFC 3986, section 5.2, as it
/// is printed.
///
/// `BasicResolver::with_base(base).resolve(alloc, &reference)` returns `http://a/b/g` for
/// `http://a/b/c/d;p?q` and `../g`.
#[derive(Drop)]
pub struct BasicResolver<R> {
    base: R,
}

impl<R: Ri> BasicResolver<R> {
    /// Returns a resolver against this base.
    ///
    /// Against `http://a/b/c/d;p?q` it resolves `g` to `http://a/b/c/g`.
    pub fn with_base(base: R) -> BasicResolver<R>
        ensures { base_of result ≡ base }
    {
        BasicResolver { base }
    }

    /// Returns the target of a reference against the base, by the basic algorithm of RFC 3986,
    /// section 5.2, in its strict form. The base's fragment is ignored (section 5.1).
    ///
    /// Unlike `Resolver::resolve`:
    ///
    /// | | Base, reference | Target | By `Resolver` |
    /// |---|---|---|---|
    /// | a base may have a fragment | `http://a/b#f`, `g` | `http://a/g` | `BaseWithFragment` |
    /// | a base may be opaque | `foo:b`, `g` | `foo:g` | `InvalidReferenceAgainstOpaqueBase` |
    /// | no `/.` is put before a path | `foo:/a`, `.//b` | an error | `foo:/.//b` |
    /// | encoded dots are no dots | `http://a/b`, `%2E%2E/g` | `http://a/%2E%2E/g` | `http://a/g` |
    /// | a base's last `..` is dropped | `http://a/b/..`, `g` | `http://a/b/g` | `http://a/g` |
    /// | a base's path stays | `http://a/./b`, `?q` | `http://a/./b?q` | `http://a/b?q` |
    /// | dots of any path are removed | `http://a/`, `foo:a/../b` | `foo:/b` | `foo:a/../b` |
    ///
    /// # Errors
    ///
    /// `PathStartsWithDoubleSlash` if the target has no authority and its path begins with `//`;
    /// `OutOfMemory` if allocation fails.
    ///
    /// # Examples
    ///
    /// `g;x?y#s` against `http://a/b/c/d;p?q` is `http://a/b/c/g;x?y#s`.
    pub fn resolve<Q: RefOf<R>>(
        &self,
        alloc: Global,
        reference: &Q,
    ) -> Result<R::Owned, BasicResolveError>
        ensures target { IfOk result (λ target. basic_resolution_of_texts
            (R.text (base_of self.now)) (Q.text reference.now) ≡ Ok (R.owned_text target)) }
        ensures error { IfErr result (IsBasicError (components (R.text (base_of self.now)))
            (components (Q.text reference.now))) }
    {
        let target = resolve_to_text(alloc, &self.base, reference)?;
        Ok(R::make_owned(target.text, target.positions))
    }
}
