//! Paths whose octets are decoded while their dot segments are removed (RFC 3986, sections 5.2.4
//! and 6.2.2.3).
ghost use Rattle.std.specs.Prelude.{◌≡◌, ◌==◌, ◌&&◌, IfOk, OnOk, codes, length, slice_index, true};
ghost use Rattle.uri_pct.specs.Prelude.{IsValidFor, Pushes, decode_unreserved, print, set_of, slash, is_valid_for};
ghost use Rattle.uri_ops.specs.ComponentSets.{IsComponentSet};
ghost use Rattle.uri_ops.specs.Dots.{IsAbsolute, remove_dot_segments, underflows};
ghost use Rattle.std.specs.Str.{is_utf8};

use crate::normalize::decode_unreserved::push_decoded;
use crate::path::dot_segments::{has_dot_segments, push_segments};
use crate::path::segment_mode::SegmentMode;
use std::alloc::AllocError;
use uri_pct::table::Table;

/// Returns whether a piece of a path that is to be decoded is `/` alone.
fn is_slash(text: &[u8]) -> bool
    ensures { result ≡ (length text.now == 1 && slice_index text.now 0 == slash) }
{
    matches!(text, [b'/'])
}

/// Appends segments decoded: the table says which characters a path allows.
#[derive(Clone, Copy)]
struct Decoded<'t> {
    table: &'t Table,
}

impl SegmentMode for Decoded<'_> {
    ghost pushed_text = { λ mode text. print (decode_unreserved (set_of mode.table.now) text) };

    ghost takes = { λ mode text. is_utf8 text && is_valid_for (set_of mode.table.now) text };

    /// Appends the segments, decoded. A `/` by itself, as after an empty segment, is copied.
    #[inline(always)]
    fn push(self, piece: &str, out: &mut String) -> Result<(), AllocError> {
        if is_slash(piece.as_bytes()) {
            out.push('/')?;
            return Ok(());
        }
        push_decoded(self.table, false, piece, out)
    }
}

/// Appends a path that begins with `/`, decoded and without its dot segments. Returns whether a
/// double dot had nothing left to remove. A double dot removes the last segment that was appended.
fn push_decoded_segments(table: &Table, path: &str, out: &mut String) -> Result<bool, AllocError>
    requires absolute { IsAbsolute path.now }
    requires valid { IsValidFor (set_of table.now) path.now }
    requires set { IsComponentSet (codes "?#[]") (set_of table.now) }
    requires slash { (set_of table.now).ascii slash ≡ true }
    ensures text { OnOk result (Pushes out.old out.new
        (print (decode_unreserved (set_of table.now) (remove_dot_segments path.now)))) }
    ensures underflow { IfOk result (λ underflowed. underflowed ≡ underflows path.now) }
{
    let start = out.len();
    out.push('/')?;
    push_segments(Decoded { table }, &path[1..], start, out)
}

/// Appends a path that begins with `/` as it is in a normal text but for a guard before it: with
/// its decodable octets decoded, and without its dot segments. Returns whether a double dot had
/// nothing left to remove.
///
/// It is inlined, as `push_decoded` is.
#[inline(always)]
pub(crate) fn push_decoded_path(
    table: &Table,
    path: &str,
    out: &mut String,
) -> Result<bool, AllocError>
    requires absolute { IsAbsolute path.now }
    requires valid { IsValidFor (set_of table.now) path.now }
    requires set { IsComponentSet (codes "?#[]") (set_of table.now) }
    requires slash { (set_of table.now).ascii slash ≡ true }
    ensures text { OnOk result (Pushes out.old out.new
        (print (decode_unreserved (set_of table.now) (remove_dot_segments path.now)))) }
    ensures underflow { IfOk result (λ underflowed. underflowed ≡ underflows path.now) }
{
    if has_dot_segments(path) {
        let table = *table;
        return push_decoded_segments(&table, path, out);
    }
    push_decoded(table, false, path, out)?;
    Ok(false)
}
