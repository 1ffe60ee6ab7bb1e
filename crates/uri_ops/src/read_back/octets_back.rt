//! A component of a normal text, read from its end (RFC 3986, section 6.2.2.2; RFC 3987, sections
//! 4.1 and 5.3.2.3).
ghost use Rattle.std.specs.Prelude.{◌≡◌, ◌≤◌, ◌<◌, ◌++◌, [], drop, length};
ghost use Rattle.uri_pct.specs.Prelude.{IsValidFor, set_of, widest_set};
ghost use Rattle.uri_ops.specs.FromEnd.Blocks.{IsPut};
ghost use Rattle.uri_ops.specs.FromEnd.Held.{held_text};
ghost use Rattle.uri_ops.specs.FromEnd.NormalComponents.{normal_component};

use crate::read_back::held::Held;
use crate::read_back::last_tokens::ascii_suffix_start;
use crate::read_back::literal_back::put_back;
use crate::read_back::normal_tokens::split_last_token;
use crate::read_back::{BLOCK, ReadBack};
use uri_pct::table::Table;

/// A component of a normal text that is read from its end, with its letters in lower case if
/// `lowers`. Of the last token that was read, `held` is what is left.
#[derive(Clone, Copy)]
pub struct OctetsBack<'a> {
    table: Table,
    lowers: bool,
    rest: &'a str,
    held: Held,
    pub ghost valid: { IsValidFor widest_set rest.now },
}

impl<'a> OctetsBack<'a> {
    ghost use Rattle.uri_ops.specs.FromEnd.OctetsBack.{octets_unread};

    /// Returns the normal text of a component, to read from its end, with its letters in lower case
    /// if `lowers`.
    pub(crate) fn new(table: &Table, lowers: bool, text: &'a str) -> Self
        requires { IsValidFor widest_set text.now }
        ensures { octets_unread result ≡ normal_component lowers (set_of table.now) text.now }
    {
        OctetsBack {
            table: *table,
            lowers,
            rest: text,
            held: Held::nothing(),
        }
    }

    /// Takes the ASCII that ends what is left and is in no octet, or the last token, and puts its
    /// last bytes into the block before `end`. Returns where they begin.
    fn read_last(&mut self, block: &mut [u8; BLOCK], end: usize) -> usize
        requires end { end ≤ 1024 }
        requires room { 0 < end }
        requires some { 0 < length self.old.rest.now }
        requires none { held_text self.old.held ≡ [] }
        ensures text { octets_unread self.old ++ drop end block.old
            ≡ octets_unread self.new ++ drop result block.new }
        ensures fewer { result < end }
        ensures held { 0 < result → held_text self.new.held ≡ [] }
    {
        let rest = self.rest;
        let bytes = rest.as_bytes();
        let least = bytes.len().saturating_sub(end);
        let start = ascii_suffix_start(bytes, least);
        if start == bytes.len() {
            let (before, held) = split_last_token(&self.table, self.lowers, rest);
            self.rest = before;
            self.held = held;
            return self.held.read_back(block, end);
        }
        self.rest = &rest[..start];
        put_back(self.lowers, &bytes[start..], block, end)
    }
}

/// Puts the normal text of a component into the block before `end`. Returns where it begins, or 0
/// if there is no room for it and one byte more.
///
/// It is a function of its own, so that what is left of a component is in memory here alone.
#[inline(never)]
pub(crate) fn put_component(
    table: &Table,
    lowers: bool,
    text: &str,
    block: &mut [u8; BLOCK],
    end: usize,
) -> usize
    requires valid { IsValidFor widest_set text.now }
    requires end { end ≤ 1024 }
    ensures text { IsPut (normal_component lowers (set_of table.now) text.now) end block.old
        result block.new }
    ensures within { result ≤ end }
{
    OctetsBack::new(table, lowers, text).read_back(block, end)
}

impl<'a> ReadBack for OctetsBack<'a> {
    ghost use Rattle.uri_ops.specs.FromEnd.OctetsBack.{octets_unread};

    ghost unread = { octets_unread };

    /// Takes the last bytes that are left of the component.
    fn read_back(&mut self, block: &mut [u8; BLOCK], end: usize) -> usize {
        let mut start = self.held.read_back(block, end);
        while start > 0 && !self.rest.is_empty() {
            start = self.read_last(block, start);
        }
        start
    }
}
