//! Components of a text with their delimiters, and comparisons of two texts' components (RFC 3986,
//! section 4.2).
ghost use Rattle.std.specs.Prelude.{◌≡◌, ◌↔◌, option_map, true};
ghost use Rattle.uri_ops.specs.Prelude.{components_of};
ghost use Rattle.uri_relative.specs.Forms.{after_scheme};

use uri_ops::resolve::text_view::TextView;

/// Returns a target's text after the scheme and its `:`, or all of it if there is no scheme.
#[inline(always)]
pub(crate) fn after_scheme<'a>(target: &TextView<'a>) -> &'a str
    ensures { result.now ≡ after_scheme (components_of target.now) }
{
    &target.as_str()[target.scheme_with_delimiter().len()..]
}

/// Returns whether a component of a base and that of a target are equal, or both are absent.
#[inline(always)]
fn are_equal_components(one: Option<&str>, other: Option<&str>) -> bool
    ensures { (result ≡ true)
        ↔ (option_map (λ s. s.now) one.entry ≡ option_map (λ s. s.now) other.entry) }
{
    match (one, other) {
        (Some(one), Some(other)) => one == other,
        (None, None) => true,
        _ => false,
    }
}

/// Returns whether a base and a target have equal schemes.
#[inline(always)]
pub(crate) fn have_same_scheme(base: &TextView<'_>, target: &TextView<'_>) -> bool
    ensures { (result ≡ true)
        ↔ ((components_of base.now).scheme ≡ (components_of target.now).scheme) }
{
    are_equal_components(
        base.positions().scheme(base.as_str()),
        target.positions().scheme(target.as_str()),
    )
}

/// Returns whether a base and a target have equal authorities, or neither has one.
#[inline(always)]
pub(crate) fn have_same_authority(base: &TextView<'_>, target: &TextView<'_>) -> bool
    ensures { (result ≡ true)
        ↔ ((components_of base.now).authority ≡ (components_of target.now).authority) }
{
    are_equal_components(
        base.positions().authority(base.as_str()),
        target.positions().authority(target.as_str()),
    )
}

/// Returns whether a base and a target have equal paths.
#[inline(always)]
pub(crate) fn have_same_path(base: &TextView<'_>, target: &TextView<'_>) -> bool
    ensures { (result ≡ true)
        ↔ ((components_of base.now).path ≡ (components_of target.now).path) }
{
    base.path() == target.path()
}

/// Returns whether a base and a target have equal queries, or neither has one.
#[inline(always)]
pub(crate) fn have_same_query(base: &TextView<'_>, target: &TextView<'_>) -> bool
    ensures { (result ≡ true)
        ↔ ((components_of base.now).query ≡ (components_of target.now).query) }
{
    are_equal_components(
        base.positions().query(base.as_str()),
        target.positions().query(target.as_str()),
    )
}
