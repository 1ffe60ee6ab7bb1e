//! The path of a normal form, read from its end (RFC 3986, sections 6.2.2.2 and 6.2.2.3).
ghost use Rattle.std.specs.Prelude.{◌≡◌, ◌≤◌, [], false, true, if◌then◌else◌};
ghost use Rattle.std.specs.Str.{is_utf8};
ghost use Rattle.uri_pct.specs.Prelude.{IsValidFor, set_of, widest_set};
ghost use Rattle.uri_ops.specs.Dots.{IsAbsolute, remove_dot_segments};
ghost use Rattle.uri_ops.specs.FromEnd.Blocks.{IsPut};
ghost use Rattle.uri_ops.specs.FromEnd.NormalComponents.{normal_component};
ghost use Rattle.uri_ops.specs.FromEnd.SegmentsLeft.{is_abempty_path, segments_left};
ghost use Rattle.uri_ops.specs.FromEnd.OctetsBack.{octets_unread};

use crate::path::dot_segments::has_dot_segments;
use crate::read_back::octets_back::{OctetsBack, put_component};
use crate::read_back::segments_back::{ends_in_dot_segment, split_last_segment};
use crate::read_back::{BLOCK, ReadBack};
use uri_pct::table::Table;

/// A path that is read from its end as it is in a normal form: with its unreserved characters
/// decoded, and without its dot segments if they are removed.
#[derive(Clone, Copy)]
pub struct PathBack<'a> {
    table: Table,
    /// The prefix of the path that the segments before the current one are in.
    rest: &'a str,
    /// Whether the `/` before the current segment is left.
    follows_slash: bool,
    /// The current segment, or the whole path if its dot segments stay.
    segment: OctetsBack<'a>,
    ghost rooted: { is_abempty_path rest.now ≡ true },
    ghost utf8: { is_utf8 (segments_left rest.now) ≡ true },
    ghost valid: { IsValidFor widest_set (segments_left rest.now) },
}

impl<'a> PathBack<'a> {
    ghost use Rattle.uri_ops.specs.FromEnd.PathBack.{path_unread};

    /// Returns a path to read with its dot segments.
    fn dotted(table: &Table, path: &'a str) -> Self
        requires { IsValidFor widest_set path.now }
        ensures { path_unread result ≡ normal_component false (set_of table.now) path.now }
    {
        PathBack {
            table: *table,
            rest: "",
            follows_slash: false,
            segment: OctetsBack::new(table, false, path),
        }
    }

    /// Returns a path to read without its dot segments.
    fn dotless(table: &Table, path: &'a str) -> Self
        requires absolute { IsAbsolute path.now }
        requires valid { IsValidFor widest_set path.now }
        ensures { path_unread result
            ≡ normal_component false (set_of table.now) (remove_dot_segments path.now) }
    {
        PathBack {
            table: *table,
            rest: path,
            follows_slash: ends_in_dot_segment(path),
            segment: OctetsBack::new(table, false, ""),
        }
    }

    /// Returns the path of a normal form, of which nothing is read yet. If `removes_dots`, it is
    /// without its dot segments.
    pub(crate) fn new(table: &Table, path: &'a str, removes_dots: bool) -> Self
        requires absolute { removes_dots ≡ true → IsAbsolute path.now }
        requires valid { IsValidFor widest_set path.now }
        ensures { path_unread result ≡ normal_component false (set_of table.now)
            (if removes_dots then remove_dot_segments path.now else path.now) }
    {
        if removes_dots && has_dot_segments(path) {
            return PathBack::dotless(table, path);
        }
        PathBack::dotted(table, path)
    }

    /// Goes on to the segment before the current one, if that is read with the `/` before it.
    /// Returns whether a `/` is left.
    fn begin_segment(&mut self) -> bool
        requires { octets_unread self.old.segment ≡ [] }
        ensures same { path_unread self.new ≡ path_unread self.old }
        ensures slash { self.new.follows_slash ≡ result }
        ensures none { result ≡ false → path_unread self.new ≡ [] }
    {
        if self.follows_slash {
            return true;
        }
        if self.rest.is_empty() {
            return false;
        }
        match split_last_segment(self.rest) {
            Some((prefix, segment)) => {
                *self = PathBack {
                    table: self.table,
                    rest: prefix,
                    follows_slash: true,
                    segment: OctetsBack::new(&self.table, false, segment),
                };
                true
            }
            None => false,
        }
    }
}

impl<'a> ReadBack for PathBack<'a> {
    ghost use Rattle.uri_ops.specs.FromEnd.PathBack.{path_unread};

    ghost unread = { path_unread };

    /// Takes the last bytes that are left of the path.
    #[tactic(auto, using(crate::proofs::FromEnd::Blocks::segment_is_read, crate::proofs::FromEnd::Blocks::slash_is_read))]
    fn read_back(&mut self, block: &mut [u8; BLOCK], end: usize) -> usize {
        let mut end = self.segment.read_back(block, end);
        while end > 0 && self.begin_segment() {
            end = self.segment.read_back(block, end);
            if end == 0 {
                return 0;
            }
            self.follows_slash = false;
            end -= 1;
            block[end] = b'/';
        }
        end
    }
}

/// Puts the path of a normal form into the block before `end`. If `removes_dots`, it is without its
/// dot segments. Returns where it begins, or 0 if there is no room for it and one byte more.
pub(crate) fn put_decoded_path(
    table: &Table,
    path: &str,
    removes_dots: bool,
    block: &mut [u8; BLOCK],
    end: usize,
) -> usize
    requires absolute { removes_dots ≡ true → IsAbsolute path.now }
    requires valid { IsValidFor widest_set path.now }
    requires end { end ≤ 1024 }
    ensures text { IsPut (normal_component false (set_of table.now)
        (if removes_dots then remove_dot_segments path.now else path.now))
        end block.old result block.new }
    ensures within { result ≤ end }
{
    if removes_dots && has_dot_segments(path) {
        return PathBack::dotless(table, path).read_back(block, end);
    }
    put_component(table, false, path, block, end)
}
