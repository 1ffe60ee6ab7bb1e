//! The positions of a text's components in six words, as each value holds them.
ghost use Rattle.std.specs.Prelude.{◌≡◌};
ghost use Rattle.uri_parts.specs.PackedPositions.{ArePackedPositionsOf, packed};
ghost use Rattle.uri_parts.specs.Components.{components};
ghost use Rattle.uri_parts.specs.Positions.{ArePositionsOf, positions_of};

use crate::positions::{AuthorityPositions, Positions};

/// The positions of a text's components in fewer words than [`Positions`], since values are copied
/// often.
///
/// A scheme has a character before its `:`, and a host follows `//`, so 0 is the position of
/// neither. An authority begins after the scheme and the `//`, and ends where the path begins.
#[derive(Clone, Copy)]
pub struct PackedPositions {
    /// The position of the `:` after the scheme, or 0 if there is no scheme.
    pub scheme_end: usize,
    /// Where the host begins, or 0 if there is no authority.
    pub host_start: usize,
    /// Where the host ends, or 0 if there is no authority.
    pub host_end: usize,
    /// Where the path begins.
    pub path_start: usize,
    /// Where the path ends.
    pub path_end: usize,
    /// Where the query ends, or the path if there is no query.
    pub query_end: usize,
}

impl PackedPositions {
    /// Returns the same positions in fewer words.
    #[inline(always)]
    pub fn of(positions: &Positions) -> Self
        ensures { result ≡ packed positions.now }
    {
        let (host_start, host_end) = match positions.authority {
            Some(authority) => (authority.host_start, authority.host_end),
            None => (0, 0),
        };
        PackedPositions {
            scheme_end: positions.scheme_end.unwrap_or(0),
            host_start,
            host_end,
            path_start: positions.path_start,
            path_end: positions.path_end,
            query_end: positions.before_fragment(),
        }
    }

    /// Returns the positions of the authority, if there is one.
    #[inline(always)]
    fn authority(&self, text: &str) -> Option<AuthorityPositions>
        requires { ArePackedPositionsOf text.now self.now }
        ensures { result ≡ (positions_of (components text.now)).authority }
    {
        if self.host_start == 0 {
            return None;
        }
        let start = if self.scheme_end == 0 {
            2
        } else {
            self.scheme_end + 3
        };
        Some(AuthorityPositions {
            start,
            host_start: self.host_start,
            host_end: self.host_end,
            end: self.path_start,
        })
    }

    /// Returns the positions of the text that these words hold.
    #[inline(always)]
    pub fn unpack(self, text: &str) -> Positions
        requires { ArePackedPositionsOf text.now self }
        ensures { ArePositionsOf text.now result }
    {
        Positions {
            scheme_end: if self.scheme_end == 0 {
                None
            } else {
                Some(self.scheme_end)
            },
            authority: self.authority(text),
            path_start: self.path_start,
            path_end: self.path_end,
            query_end: if self.query_end == self.path_end {
                None
            } else {
                Some(self.query_end)
            },
        }
    }
}
