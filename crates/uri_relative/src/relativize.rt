//! The inverse of resolving (RFC 3986, section 5.2).
ghost use Rattle.std.specs.Prelude.{◌≡◌, IfOk, false, refl};
ghost use Rattle.fluent_uri.specs.Prelude.{reference_text};
ghost use Rattle.uri_relative.specs.Relativized.{IsRelativized};

use crate::relative::relative;
use fluent_uri::kind::BaseKind;
use fluent_uri::{Reference, RiMaybeRef};
use std::alloc::{AllocError, Global};
use std::convert::AsStr;
use uri_ops::resolve::text_view::TextView;
use uri_parts::core_text::Core;
use uri_parts::packed_positions::PackedPositions;

/// Returns a reference that leads from the base to the target.
#[inline(always)]
fn relativized<K: BaseKind, B: AsStr, T: AsStr>(
    alloc: Global,
    base: &Reference<K, B>,
    target: &Reference<K, T>,
    prefers_relative_path: bool,
) -> Result<Reference<K::Ref, String>, AllocError>
    ensures { IfOk result (λ reference. IsRelativized K.kind prefers_relative_path
        (reference_text base.now) (reference_text target.now) (reference_text reference)) }
{
    let base = TextView::of_core(base.core());
    let made = relative(alloc, &base, target.core(), prefers_relative_path)?;
    let positions = PackedPositions::of(&made.positions);
    Ok(Reference::of_core(Core::new(made.text, positions)))
}

/// Makes references that lead from a base to targets. Its setting is whether a relative path is
/// preferred.
///
/// `Relativizer::with_base(base).relativize(alloc, &target)` returns `../x/y` for `http://a/b/c/d`
/// and `http://a/b/x/y`.
#[derive(Drop)]
pub struct Relativizer<R> {
    base: R,
    prefers_relative_path: bool,
}

impl<R> Relativizer<R> {
    ghost use Rattle.uri_relative.specs.Relativizers.{base_of, prefers_relative_path};

    /// Returns a relativizer that makes references from this base. If the path from the root is
    /// shorter than the relative one, they have that.
    ///
    /// From `http://a/b/c/d/` to `http://a/x` it makes `/x`.
    pub fn with_base(base: R) -> Relativizer<R>
        ensures base { base_of result ≡ base }
        ensures prefers { prefers_relative_path result ≡ false }
    {
        Relativizer {
            base,
            prefers_relative_path: false,
        }
    }

    /// Sets whether references have a relative path even if the path from the root is shorter, as
    /// for pages that are read from a disk.
    ///
    /// If the base's path has a dot segment, the path is still the one from the root.
    ///
    /// From `http://a/b/c/d/` to `http://a/x` it makes `../../../x` with `true`, and from
    /// `http://a/./b` to `http://a/./b` it makes `/b`.
    pub fn prefer_relative_path(self, value: bool) -> Relativizer<R>
        ensures base { base_of result ≡ base_of self }
        ensures prefers { prefers_relative_path result ≡ value }
    {
        Relativizer {
            base: self.base,
            prefers_relative_path: value,
        }
    }
}

impl<K: BaseKind, B: AsStr> Relativizer<Reference<K, B>> {
    ghost use Rattle.uri_relative.specs.Relativizers.{base_of, prefers_relative_path};

    /// Returns a reference that leads from the base to the target. Resolved against the base
    /// without its fragment, it gives the same text as the target itself (RFC 3986, section 5.2).
    ///
    /// If the base's path has no dot segment, and unless a relative path is preferred, no such
    /// reference is shorter.
    ///
    /// From `http://a/b/c/d` to `http://a/b/x/y` it returns `../x/y`.
    ///
    /// # Errors
    ///
    /// Only if memory is denied.
    pub fn relativize<T: AsStr>(
        &self,
        alloc: Global,
        target: &Reference<K, T>,
    ) -> Result<Reference<K::Ref, String>, AllocError>
        ensures { IfOk result (λ reference. IsRelativized K.kind (prefers_relative_path self.now)
            (reference_text (base_of self.now)) (reference_text target.now)
            (reference_text reference)) }
    {
        relativized(alloc, &self.base, target, self.prefers_relative_path)
    }
}

/// A base, a URI or an IRI, from which references lead to targets.
///
/// It is implemented for `Uri` and `Iri` alone, over borrowed and owned text.
///
/// With it, `base.relativize(alloc, &target)` may be called on a `Uri<&str>`.
pub trait Relativize<K: BaseKind>: RiMaybeRef {
    /// Returns a reference that leads from this one to the target. If the base's path has no dot
    /// segment, none is shorter.
    ///
    /// From `http://a/b/c/d` to `http://a/b/x/y` it returns `../x/y`.
    ///
    /// # Errors
    ///
    /// Only if memory is denied.
    fn relativize<T: AsStr>(
        &self,
        alloc: Global,
        target: &Reference<K, T>,
    ) -> Result<Reference<K::Ref, String>, AllocError>
        ensures { IfOk result (λ reference. IsRelativized K.kind false (Self.text self.now)
            (reference_text target.now) (reference_text reference)) };

    ghost same_kind: { Self.RiMaybeRef.kind ≡ K.kind };
}

impl<K: BaseKind, B: AsStr> Relativize<K> for Reference<K, B> {
    /// Returns a reference that leads from this one to the target.
    fn relativize<T: AsStr>(
        &self,
        alloc: Global,
        target: &Reference<K, T>,
    ) -> Result<Reference<K::Ref, String>, AllocError> {
        relativized(alloc, self, target, false)
    }

    ghost same_kind = { refl };
}
