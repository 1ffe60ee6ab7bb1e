//! The suffixes of a target's text that may be references to it (RFC 3986, section 4.2).
ghost use Rattle.std.specs.Prelude.{◌≡◌, [], None};
ghost use Rattle.uri_parts.specs.Prelude.{positions_of, recompose};
ghost use Rattle.uri_ops.specs.Prelude.{components_of};
ghost use Rattle.uri_relative.specs.Forms.{from_authority};

use crate::pieces::after_scheme;
use crate::places::{positions_after_scheme, positions_of_fragment, positions_with_path};
use uri_ops::resolve::text_view::TextView;
use uri_parts::positions::Positions;

/// A suffix of a text, and the positions of its components.
#[derive(Drop)]
pub(crate) struct TargetSuffix<'a> {
    pub(crate) text: &'a str,
    pub(crate) positions: Positions,
}

impl<'a> TargetSuffix<'a> {
    /// Returns the reference that is all of the target's text.
    #[inline(always)]
    pub(crate) fn whole(target: &TextView<'a>) -> TargetSuffix<'a>
        ensures text { result.text.now ≡ recompose (components_of target.now) }
        ensures at { result.positions ≡ positions_of (components_of target.now) }
    {
        TargetSuffix {
            text: target.as_str(),
            positions: target.positions(),
        }
    }

    /// Returns the reference that is the target's text without its scheme if it has an authority,
    /// or else all of it.
    #[inline(always)]
    pub(crate) fn from_authority(target: &TextView<'a>) -> TargetSuffix<'a>
        ensures text { result.text.now ≡ recompose (from_authority (components_of target.now)) }
        ensures at { result.positions ≡ positions_of (from_authority (components_of target.now)) }
    {
        if target.has_authority() {
            return TargetSuffix {
                text: after_scheme(target),
                positions: positions_after_scheme(target),
            };
        }
        TargetSuffix::whole(target)
    }

    /// Returns the reference that is the target's query and fragment with their delimiters.
    #[inline(always)]
    pub(crate) fn from_query(target: &TextView<'a>) -> TargetSuffix<'a>
        ensures text { let t = components_of target.now in result.text.now
            ≡ recompose (record t { scheme = None; authority = None; path = [] }) }
        ensures at { let t = components_of target.now in result.positions
            ≡ positions_of (record t { scheme = None; authority = None; path = [] }) }
    {
        TargetSuffix {
            text: target.after_path(),
            positions: positions_with_path(target, 0),
        }
    }

    /// Returns the reference that is the target's fragment with its `#`, or empty without one.
    #[inline(always)]
    pub(crate) fn from_fragment(target: &TextView<'a>) -> TargetSuffix<'a>
        ensures text { let t = components_of target.now in result.text.now
            ≡ recompose (record t { scheme = None; authority = None; path = []; query = None }) }
        ensures at { let t = components_of target.now in result.positions
            ≡ positions_of (record t { scheme = None; authority = None; path = []; query = None }) }
    {
        TargetSuffix {
            text: target.fragment_with_delimiter(),
            positions: positions_of_fragment(),
        }
    }
}
