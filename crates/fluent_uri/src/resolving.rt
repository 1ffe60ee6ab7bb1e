//! Resolving references against a base (RFC 3986, section 5.2; RFC 3987, section 6.5).
ghost use Rattle.std.specs.Prelude.{◌≡◌, IfErr, IfOk, Ok, true};
ghost use Rattle.uri_parts.specs.Prelude.{components};
ghost use Rattle.uri_ops.specs.Prelude.{IsErrorWithUnderflowAllowed, IsResolved, resolution_of_texts};
ghost use Rattle.fluent_uri.specs.References.{reference_text};

use crate::reference::Reference;
use crate::roles::RefKind;
use std::alloc::Global;
use std::convert::AsStr;
use uri_ops::resolve::{self, ResolveError};

impl<K: RefKind, T: AsStr> Reference<K, T> {
    /// Resolves this reference against a base, and returns the target (RFC 3986, section 5.2; RFC
    /// 3987, section 6.5).
    ///
    /// A `..` that has no segment before it is dropped. With `Resolver` it can be an error.
    ///
    /// # Errors
    ///
    /// - `BaseWithFragment` if the base has a fragment.
    /// - Otherwise `InvalidReferenceAgainstOpaqueBase`, if the base has no authority, its path
    ///   doesn't begin with `/`, and this reference has no scheme, is not empty and doesn't begin
    ///   with `#`.
    /// - `OutOfMemory` if allocation fails.
    ///
    /// The first two come before any request for memory. `PathUnderflow` is never returned.
    ///
    /// # Examples
    ///
    /// `../g` against `http://a/b/c/d;p?q` has the target `http://a/b/g`.
    ///
    /// ```
    /// let mut target = UriRef::<&str>::parse(link)?.resolve_against(alloc, base)?;
    /// target.set_fragment(None)?;
    /// Ok(target)
    /// ```
    pub fn resolve_against<B: AsStr>(
        &self,
        alloc: Global,
        base: &Reference<K::Base, B>,
    ) -> Result<Reference<K::Base, String>, ResolveError>
        ensures target { IfOk result (λ target.
            resolution_of_texts (reference_text base.now) (reference_text self.now)
            ≡ Ok (reference_text target)) }
        ensures refusal { IfErr result
            (IsErrorWithUnderflowAllowed (components (reference_text base.now))
            (components (reference_text self.now))) }
        ensures resolved { IsResolved K.Base.kind K.kind true (reference_text base.now)
            (reference_text self.now) result reference_text }
    {
        resolve::resolve_to_value(alloc, base, self, true)
    }
}
