//! Which case of the pseudocode of RFC 3986, section 5.2.2, a reference is.
ghost use Rattle.uri_ops.specs.Models.TargetCases.{IsCaseOf};
ghost use Rattle.uri_ops.specs.Resolving.{components_of};

use crate::path::slashes::begins_with_slash;
use crate::resolve::text_view::TextView;

/// The cases of the pseudocode of RFC 3986, section 5.2.2, by what the reference has.
#[derive(Clone, Copy)]
pub(crate) enum TargetCase {
    /// The reference has a scheme.
    WithScheme,
    /// The reference has an authority, and no scheme.
    WithAuthority,
    /// The reference has neither, and its path is empty.
    EmptyPath,
    /// The reference has neither, and its path begins with `/`.
    AbsolutePath,
    /// The reference has neither, and its path is merged with the base's.
    MergedPath,
}

/// Returns the case of a reference.
pub(crate) fn target_case(reference: &TextView<'_>) -> TargetCase
    ensures { IsCaseOf (components_of reference.now) result }
{
    if reference.has_scheme() {
        return TargetCase::WithScheme;
    }
    if reference.has_authority() {
        return TargetCase::WithAuthority;
    }
    let path = reference.path();
    if path.is_empty() {
        return TargetCase::EmptyPath;
    }
    if begins_with_slash(path.as_bytes()) {
        return TargetCase::AbsolutePath;
    }
    TargetCase::MergedPath
}
