//! Targets that are a prefix of the base and a suffix of the reference (RFC 3986, sections 5.2 and
//! 5.3).
ghost use Rattle.std.specs.Prelude.{◌≡◌, ◌<◌, IfSome, false, is_some, length, true};
ghost use Rattle.uri_ops.specs.Dots.{is_empty, lacks_dot_segments};
ghost use Rattle.uri_ops.specs.Models.Directories.{EndsIn};
ghost use Rattle.uri_ops.specs.Models.LeadingSegments.{BeginsWithoutDotSegment};
ghost use Rattle.uri_ops.specs.Models.TargetCases.{IsCaseOf};
ghost use Rattle.uri_ops.specs.Models.TargetPieces.{ArePiecesOfTarget, HasJoinedPath, IsDirectoryOfBase};
ghost use Rattle.uri_ops.specs.Resolving.{components_of};
ghost use Rattle.uri_ops.specs.declared.resolve.target_case.TargetCase.TheVariants.{AbsolutePath, MergedPath};

use crate::path::dot_segments::{follow_leading_dots, last_slash};
use crate::path::leading_segment::{begins_with_dot, dotless_prefix_len, is_double_dot};
use crate::path::slashes::begins_with_slash;
use crate::resolve::target_case::TargetCase;
use crate::resolve::text_view::TextView;
use uri_parts::packed_positions::PackedPositions;

/// A target as two pieces: a prefix of the base, and what follows it of the reference.
#[derive(Drop)]
pub struct TargetPieces<'a> {
    /// What the target has of the base.
    pub prefix: &'a str,
    /// What it has of the reference.
    pub suffix: &'a str,
    /// The positions of the components of the target.
    pub positions: PackedPositions,
    /// Whether a double dot had nothing left to remove.
    pub(crate) underflows: bool,
}

/// Returns the pieces of a target that has the base's components up to this prefix, and then what
/// is left of the reference from the end of its path on.
fn pieces_after<'a>(
    base: &TextView<'a>,
    prefix: &'a str,
    reference: &TextView<'a>,
    rest: &str,
    underflows: bool,
) -> TargetPieces<'a>
    requires rest { EndsIn (components_of reference.now).path rest.now }
    requires target { HasJoinedPath (components_of base.now) (components_of reference.now)
        prefix.now rest.now underflows }
    ensures { ArePiecesOfTarget (components_of base.now) (components_of reference.now) result }
{
    let mut positions = base.packed_positions();
    let suffix = reference.from_path_suffix(rest);
    positions.path_end = prefix.len() + rest.len();
    positions.query_end = prefix.len() + (rest.len() + reference.query_with_delimiter().len());
    TargetPieces {
        prefix,
        suffix,
        positions,
        underflows,
    }
}

/// Returns whether no segment of a path that is not empty begins with a dot or an octet, as each
/// dot segment does.
fn is_dotless(path: &str) -> bool
    requires { 0 < length path.now }
    ensures { result ≡ true → lacks_dot_segments path.now ≡ true }
{
    !begins_with_dot(path.as_bytes()) && dotless_prefix_len(path) == path.len()
}

/// Returns the directory of the path of a base, where the base has an authority, and no segment of
/// the directory begins with a dot or an octet.
fn dotless_directory<'a>(base: &TextView<'a>) -> Option<&'a str>
    ensures { IfSome result (λ directory.
        IsDirectoryOfBase (components_of base.now) directory.now) }
{
    let path = base.path();
    let bytes = path.as_bytes();
    if !base.has_authority() || !begins_with_slash(bytes) {
        return None;
    }
    let slash = last_slash(bytes, 0);
    if is_double_dot(&path[slash + 1..]) {
        return None;
    }
    let directory = &path[..slash + 1];
    if is_dotless(directory) {
        return Some(directory);
    }
    None
}

/// Returns whether what is left of a reference's path, of which the first segment is no dot
/// segment, has none by where its segments begin.
fn is_dotless_rest(rest: &str) -> bool
    requires { BeginsWithoutDotSegment rest.now }
    ensures { result ≡ true → lacks_dot_segments rest.now ≡ true }
{
    rest.is_empty() || dotless_prefix_len(rest) == rest.len()
}

/// Returns the pieces of the target of a reference whose path is merged with the base's, where the
/// base has an authority, and the only dot segments are those that the reference begins with.
fn pieces_with_merged_path<'a>(
    base: &TextView<'a>,
    reference: &TextView<'a>,
) -> Option<TargetPieces<'a>>
    requires { IsCaseOf (components_of reference.now) MergedPath }
    ensures { IfSome result (ArePiecesOfTarget (components_of base.now)
        (components_of reference.now)) }
{
    let directory = dotless_directory(base)?;
    let (kept, rest, underflows) = follow_leading_dots(directory, reference.path());
    if !is_dotless_rest(rest) {
        return None;
    }
    let prefix = base.through_slash(kept.len() - 1);
    Some(pieces_after(base, prefix, reference, rest, underflows))
}

/// Returns the pieces of the target of a reference that has no path, where the base has an
/// authority and its path no dot segments: all of the base up to its query, or up to its fragment
/// if the reference has no query, and then the reference.
fn pieces_with_empty_path<'a>(
    base: &TextView<'a>,
    reference: &TextView<'a>,
) -> Option<TargetPieces<'a>>
    requires scheme { is_some (components_of reference.now).scheme ≡ false }
    requires authority { is_some (components_of reference.now).authority ≡ false }
    requires path { is_empty (components_of reference.now).path ≡ true }
    ensures { IfSome result (ArePiecesOfTarget (components_of base.now)
        (components_of reference.now)) }
{
    let path = base.path();
    if !base.has_authority() || !begins_with_slash(path.as_bytes()) || !is_dotless(path) {
        return None;
    }
    if reference.has_query() {
        let prefix = base.through_path();
        return Some(pieces_after(base, prefix, reference, reference.path(), false));
    }
    Some(TargetPieces {
        prefix: base.before_fragment(),
        suffix: reference.as_str(),
        positions: base.packed_positions(),
        underflows: false,
    })
}

/// Returns the pieces of the target of a reference whose path begins with `/`, where the base has
/// an authority and the path no dot segments: what the base has before its path, and the reference.
fn pieces_with_absolute_path<'a>(
    base: &TextView<'a>,
    reference: &TextView<'a>,
) -> Option<TargetPieces<'a>>
    requires { IsCaseOf (components_of reference.now) AbsolutePath }
    ensures { IfSome result (ArePiecesOfTarget (components_of base.now)
        (components_of reference.now)) }
{
    let path = reference.path();
    if !base.has_authority() || !is_dotless(path) {
        return None;
    }
    Some(pieces_after(base, base.before_path(), reference, path, false))
}

/// Returns the target of a reference as a prefix of the base and a suffix of the reference, where
/// it plainly is that: neither has dot segments, but for those that a merged path begins with.
pub(crate) fn target_pieces<'a>(
    case: TargetCase,
    base: &TextView<'a>,
    reference: &TextView<'a>,
) -> Option<TargetPieces<'a>>
    requires { IsCaseOf (components_of reference.now) case }
    ensures { IfSome result (ArePiecesOfTarget (components_of base.now)
        (components_of reference.now)) }
{
    match case {
        TargetCase::EmptyPath => pieces_with_empty_path(base, reference),
        TargetCase::AbsolutePath => pieces_with_absolute_path(base, reference),
        TargetCase::MergedPath => pieces_with_merged_path(base, reference),
        TargetCase::WithScheme | TargetCase::WithAuthority => None,
    }
}
