//! The pieces of a base and a reference that are a target before its dot segments are removed (RFC
//! 3986, section 5.2.2).
ghost use Rattle.std.specs.Prelude.{◌≡◌, ℕ, [], IfSome, List, Option, codes, false, is_some};
ghost use Rattle.uri_parts.specs.Prelude.{IsAbemptyPath, marked};
ghost use Rattle.uri_ops.specs.Models.TargetCases.{IsCaseOf, IsDottedTarget, path_of_pieces, with_authority as authority_line, with_base_authority as base_authority_line};
ghost use Rattle.uri_ops.specs.Resolving.{components_of};
ghost use Rattle.uri_ops.specs.Target.{dotted_target, is_opaque_rejection, query_or};

use crate::resolve::target_case::TargetCase;
use crate::resolve::text_view::TextView;
use uri_parts::positions::AuthorityPositions;

/// A target before its dot segments are removed: pieces of the base and of the reference, with
/// their delimiters, and the positions of what is before its path.
#[derive(Drop)]
pub(crate) struct DottedTarget<'a> {
    /// The scheme, if it is not in `before_path`.
    pub(crate) scheme: &'a str,
    /// What is before the path.
    pub(crate) before_path: &'a str,
    /// The base's path, if the reference's is merged with it.
    pub(crate) base_path: Option<&'a str>,
    pub(crate) path: &'a str,
    pub(crate) query: &'a str,
    pub(crate) fragment: &'a str,
    pub(crate) scheme_end: Option<usize>,
    pub(crate) authority: Option<AuthorityPositions>,
}

/// Returns the target of a reference that has a scheme: `T = R`.
#[inline(always)]
pub(crate) fn with_scheme<'a>(reference: &TextView<'a>) -> DottedTarget<'a>
    ensures { IsDottedTarget (components_of reference.now) result }
{
    DottedTarget {
        scheme: "",
        before_path: reference.before_path(),
        base_path: None,
        path: reference.path(),
        query: reference.query_with_delimiter(),
        fragment: reference.fragment_with_delimiter(),
        scheme_end: reference.scheme_end(),
        authority: reference.authority(),
    }
}

/// Returns the target of a reference that has an authority: the base's scheme, and then all of the
/// reference.
#[inline(always)]
fn with_authority<'a>(base: &TextView<'a>, reference: &TextView<'a>) -> DottedTarget<'a>
    requires { is_some (components_of reference.now).scheme ≡ false }
    ensures { IsDottedTarget
        (authority_line (components_of base.now) (components_of reference.now)) result }
{
    let scheme = base.scheme_with_delimiter();
    DottedTarget {
        scheme,
        before_path: reference.before_path(),
        base_path: None,
        path: reference.path(),
        query: reference.query_with_delimiter(),
        fragment: reference.fragment_with_delimiter(),
        scheme_end: base.scheme_end(),
        authority: reference.authority_after(scheme),
    }
}

/// Returns the query of a reference that has an empty path, or the base's if it has none.
#[inline(always)]
fn query_or_base_query<'a>(base: &TextView<'a>, reference: &TextView<'a>) -> &'a str
    ensures { result.now ≡ marked (codes "?")
        (query_or (components_of base.now).query (components_of reference.now).query) [] }
{
    if reference.has_query() {
        return reference.query_with_delimiter();
    }
    base.query_with_delimiter()
}

/// Returns the target of a reference that has neither a scheme nor an authority: what the base has
/// before its path, then a path and a query, and the reference's fragment. If a path of the base is
/// given, the path is merged with it (RFC 3986, section 5.2.3).
#[inline(always)]
fn with_base_authority<'a>(
    base: &TextView<'a>,
    reference: &TextView<'a>,
    base_path: Option<&'a str>,
    path: &'a str,
    query: &'a str,
) -> DottedTarget<'a>
    requires { IfSome base_path (λ base. IsAbemptyPath base.now) }
    ensures { (whole : List ℕ) (asked : Option (List ℕ))
        → path_of_pieces base_path.entry path.now ≡ whole → query.now ≡ marked (codes "?") asked []
        → IsDottedTarget (base_authority_line (components_of base.now) whole asked
        (components_of reference.now).fragment) result }
{
    DottedTarget {
        scheme: "",
        before_path: base.before_path(),
        base_path,
        path,
        query,
        fragment: reference.fragment_with_delimiter(),
        scheme_end: base.scheme_end(),
        authority: base.authority(),
    }
}

/// Returns the target of a reference in its case.
#[inline(always)]
pub(crate) fn dotted_target<'a>(
    case: TargetCase,
    base: &TextView<'a>,
    reference: &TextView<'a>,
) -> DottedTarget<'a>
    requires case { IsCaseOf (components_of reference.now) case }
    requires taken { is_opaque_rejection (components_of base.now) (components_of reference.now)
        ≡ false }
    ensures { IsDottedTarget
        (dotted_target (components_of base.now) (components_of reference.now)) result }
{
    match case {
        TargetCase::WithScheme => with_scheme(reference),
        TargetCase::WithAuthority => with_authority(base, reference),
        TargetCase::EmptyPath => {
            let query = query_or_base_query(base, reference);
            with_base_authority(base, reference, None, base.path(), query)
        }
        TargetCase::AbsolutePath => {
            let query = reference.query_with_delimiter();
            with_base_authority(base, reference, None, reference.path(), query)
        }
        TargetCase::MergedPath => {
            let query = reference.query_with_delimiter();
            with_base_authority(base, reference, Some(base.path()), reference.path(), query)
        }
    }
}

impl<'a> DottedTarget<'a> {
    /// Returns how many bytes of the base's path are merged.
    fn base_path_len(&self) -> usize {
        match self.base_path {
            Some(path) => path.len(),
            None => 0,
        }
    }

    /// Returns how long the text of the target is at most: as long as with its dot segments, and
    /// with a `/` between an empty path of the base and the reference's.
    pub(crate) fn capacity(&self) -> usize {
        self.scheme
            .len()
            .saturating_add(self.before_path.len())
            .saturating_add(self.base_path_len())
            .saturating_add(self.path.len())
            .saturating_add(self.query.len())
            .saturating_add(self.fragment.len())
            .saturating_add(1)
    }
}
