//! Dot segments (RFC 3986, section 5.2.4).
ghost use Rattle.std.specs.Prelude.{◌≡◌, ◌++◌};
ghost use Rattle.fluent_uri.specs.Prelude.{IsAbemptyPath, IsAbsolute, decode_unreserved, directory, ipath_set, print, remove_dot_segments, text_of};

use fluent_uri::laws;
use fluent_uri::pct_enc::EStr;
use fluent_uri::pct_enc::encoder::IPath;

/// A caller proves that removing dot segments twice is the same as removing them once.
pub fn dots_removed_twice(path: &str)
    requires { IsAbsolute path.now }
    ensures { remove_dot_segments (remove_dot_segments path.now) ≡ remove_dot_segments path.now }
{
    laws::removing_dot_segments_is_idempotent();
}

/// A caller proves that the base's dot segments may be removed before a reference's path is merged
/// with it.
pub fn base_dots_removed_before_merging(base: &str, reference: &str)
    requires { IsAbemptyPath base.now }
    ensures { remove_dot_segments (directory base.now ++ reference.now)
        ≡ remove_dot_segments (directory (remove_dot_segments base.now) ++ reference.now) }
{
    laws::base_dots_may_be_removed_before_merging();
}

/// A caller proves that dot segments may be removed before or after unreserved octets are decoded.
pub fn dots_removed_before_decoding(path: EStr<'_, IPath>)
    requires { IsAbsolute (text_of path) }
    ensures { remove_dot_segments (print (decode_unreserved ipath_set (text_of path.entry)))
        ≡ print (decode_unreserved ipath_set (remove_dot_segments (text_of path.entry))) }
{
    let _text = path.as_str();
    laws::four_kinds_have_component_sets();
    laws::removing_dots_and_decoding_swap();
}
